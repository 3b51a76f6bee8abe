//! Texts of objects: user names, keys and values of tags, roles of members.

ghost use Rattle.std.specs.Prelude.{◌≡◌, ◌<◌, ◌≤◌, ◌↔◌, length, IfOk, IsErrOf, OnOk, OnErr};
ghost use Rattle.std.specs.Prelude.{Contains, string_bytes};
ghost use Rattle.osm_model.specs.Steps.Stored.{stored_bytes};
ghost use Rattle.osm_model.specs.Text.{IsText};
ghost use Rattle.osm_model.specs.declared.text.TextError.TheVariants.{WantOfMemory};

use crate::limits::MAX_TEXT;
use crate::memory::WantOfMemory;
use crate::short::ShortText;
use std::alloc::{AllocError, Global};
use std::cmp::Ordering;
use std::fmt;
use std::marker::Model;
use std::mem::size_of;
use thiserror::Error;

/// At most 1,020 bytes of UTF-8 without U+0000. The empty text is allowed. Up to 22 bytes are
/// stored in the value itself, which has 24 bytes; only a longer text is on the heap.
#[derive(Drop)]
pub struct Text {
    stored: Stored,
}

#[derive(Drop)]
enum Stored {
    Short(ShortText),
    Long(Box<String>),
}

const _: () = prove!(size_of::<Text>() == 24);

impl Model for Text {
    ghost use Rattle.std.specs.Prelude.{ℕ, List};
    ghost use Rattle.osm_model.specs.Text.{IsText};
    ghost use Rattle.osm_model.specs.Steps.Stored.{stored_bytes};

    ghost Value = { List ℕ };

    ghost view = { λ a. stored_bytes a.stored };

    ghost invariant = { λ a. IsText (stored_bytes a.stored) };
}

/// Why a text is refused.
#[derive(Clone, Copy, Debug, PartialEq, Eq, Error)]
pub enum TextError {
    /// The text holds U+0000.
    #[error("HasNul")]
    HasNul,
    /// The text has more than 1,020 bytes.
    #[error("TooLong")]
    TooLong,
    /// Memory was refused.
    #[error("WantOfMemory")]
    WantOfMemory,
}

impl From<AllocError> for TextError {
    ghost from_gives = { λ _ e. e ≡ WantOfMemory };

    fn from(_error: AllocError) -> TextError {
        TextError::WantOfMemory
    }
}

impl Text {
    /// The text with the given characters. Refuses U+0000 and more than 1,020 bytes.
    pub fn new(alloc: Global, text: &str) -> Result<Text, TextError>
        ensures ok { IfOk result (λ t. (t ≡ text.now) × IsText text.now) }
        ensures has_nul { IsErrOf result TextError.HasNul ↔ Contains text.now 0 }
        ensures too_long { IsErrOf result TextError.TooLong
            ↔ (¬ Contains text.now 0 × (1020 < length text.now)) }
    {
        check(text)?;
        let stored = store(alloc, text)?;
        Ok(Text { stored })
    }

    /// The text with the given characters, which the caller has checked. Memory is refused only for
    /// more than 22 bytes.
    pub fn within_limits(alloc: Global, text: &str) -> Result<Text, WantOfMemory>
        requires { IsText text.now }
        ensures ok { IfOk result (λ t. t ≡ text.now) }
        ensures refused { OnErr result (22 < length text.now) }
    {
        let stored = store(alloc, text)?;
        Ok(Text { stored })
    }

    pub fn as_str(&self) -> &str
        ensures text { result.now ≡ self.now }
        ensures limits { IsText self.now }
    {
        match &self.stored {
            Stored::Short(short) => short.as_str(),
            Stored::Long(text) => text.as_str(),
        }
    }

    /// Tells the prover that the text is within its limits; does nothing at run time.
    pub fn limits(&self)
        ensures { IsText self.now }
    {
        let _text = self.as_str();
    }

    /// An equal text; only more than 22 bytes take memory of their own.
    pub fn copy(&self, alloc: Global) -> Result<Text, WantOfMemory>
        ensures { IfOk result (λ t. t ≡ self.now) }
    {
        let stored = self.stored.copy(alloc)?;
        Ok(Text { stored })
    }
}

// Whether those characters are a text.
fn check(text: &str) -> Result<(), TextError>
    ensures ok { OnOk result (IsText text.now) }
    ensures has_nul { IsErrOf result TextError.HasNul ↔ Contains text.now 0 }
    ensures too_long { IsErrOf result TextError.TooLong
        ↔ (¬ Contains text.now 0 × (1020 < length text.now)) }
    ensures enough { ¬ IsErrOf result TextError.WantOfMemory }
{
    if text.as_bytes().contains(&0) {
        return Err(TextError::HasNul);
    }
    if text.len() > MAX_TEXT {
        return Err(TextError::TooLong);
    }
    Ok(())
}

fn store(alloc: Global, text: &str) -> Result<Stored, AllocError>
    ensures ok { IfOk result (λ stored. stored_bytes stored ≡ text.now) }
    ensures refused { OnErr result (22 < length text.now) }
{
    if let Some(short) = ShortText::new(text) {
        return Ok(Stored::Short(short));
    }
    let text = Box::new(alloc, String::from_str(alloc, text)?)?;
    Ok(Stored::Long(text))
}

impl Stored {
    fn copy(&self, alloc: Global) -> Result<Stored, AllocError>
        ensures ok { IfOk result (λ stored. stored_bytes stored ≡ stored_bytes self.now) }
        ensures refused { OnErr result (22 < length (stored_bytes self.now)) }
    {
        match self {
            Stored::Short(short) => Ok(Stored::Short(*short)),
            Stored::Long(text) => store(alloc, text.as_str()),
        }
    }
}

impl fmt::Debug for Text {
    fn fmt<W: fmt::Write>(&self, f: &mut fmt::Formatter<W>) -> fmt::Result {
        f.debug_struct("Text")
            .field("text", &self.as_str())
            .finish()
    }
}

impl PartialEq for Text {
    ghost use Rattle.std.proofs.Common.{rules};
    ghost use Rattle.std.specs.Cmp.Rules.{comparing};
    ghost use Rattle.std.specs.Str.{bytes_eq};

    ghost eq = { bytes_eq };

    ghost laws = { Prim.search (comparing, rules) };

    fn eq(&self, other: &Text) -> bool {
        self.as_str() == other.as_str()
    }
}

impl Eq for Text {
    ghost use Rattle.std.specs.Cmp.Lexicographic.{nat_list_eq_equiv};

    ghost laws = { nat_list_eq_equiv };
}

impl PartialOrd for Text {
    ghost use Rattle.std.specs.Cmp.Lexicographic.{texts_po};
    ghost use Rattle.std.specs.Ordering.{as_partial_cmp};
    ghost use Rattle.osm_model.specs.Text.{bytes_cmp};

    ghost partial_cmp = { as_partial_cmp bytes_cmp };

    ghost laws = { texts_po };

    fn partial_cmp(&self, other: &Text) -> Option<Ordering> {
        Some(self.cmp(other))
    }
}

/// Texts are ordered by their bytes.
impl Ord for Text {
    ghost use Rattle.std.specs.Prelude.{refl};
    ghost use Rattle.std.specs.Cmp.Lexicographic.{nat_list_cmp_total, texts_ties};
    ghost use Rattle.osm_model.specs.Text.{bytes_cmp};

    ghost cmp = { bytes_cmp };

    ghost total = { nat_list_cmp_total };

    ghost matches_partial_cmp = { λ x y. refl };

    ghost matches_eq = { texts_ties };

    fn cmp(&self, other: &Text) -> Ordering {
        self.as_str().cmp(other.as_str())
    }
}
