//! Strings of the file that is read.

ghost use Rattle.std.specs.Prelude.{◌≡◌, ◌↔◌, ℕ, List, Contains, IsTrue, IfOk, IfSome, IsNone};
ghost use Rattle.osm_model.specs.Text.{IsText};
ghost use Rattle.osm_o5c.specs.Steps.Strings.{IsKnownOf};
ghost use Rattle.osm_o5c.specs.StringReading.{text_of, until_nul_at};
ghost use Rattle.osm_reading.specs.Answers.{Gives, Finds};

use osm_model::form::Why;
use osm_model::limits::MAX_TEXT;
use osm_model::text::Text;
use osm_reading::pieces::cut;
use osm_reading::refusal::Refusal;
use std::alloc::Global;
use std::marker::Model;

// What is known of the bytes of a string.
#[derive(Clone, Copy)]
enum Known {
    // They are a text.
    Text,
    // They aren't a text.
    Other,
    // They don't hold 00. Whether they are a text hasn't been tested.
    NoNul,
}

/// A string of the file, and what is known about it, so that the string isn't tested each time it
/// is named, nor if it is never used as a text.
#[derive(Drop)]
pub struct FileString<'a> {
    bytes: &'a [u8],
    known: Known,
}

impl<'a> Model for FileString<'a> {
    ghost use Rattle.std.specs.Prelude.{ℕ, List};
    ghost use Rattle.osm_o5c.specs.Steps.Strings.{IsKnownOf};

    ghost Value = { List ℕ };

    ghost view = { λ a. a.bytes.now };

    ghost invariant = { λ a. IsKnownOf a.known a.bytes.now };
}

impl<'a> FileString<'a> {
    /// A string that is tested at once.
    pub fn new(bytes: &'a [u8]) -> FileString<'a>
        ensures { result ≡ bytes.now }
    {
        let known = known_by(is_text(bytes));
        FileString { bytes, known }
    }

    /// A string that is known to be a text.
    pub fn of_text(bytes: &'a [u8]) -> FileString<'a>
        requires { IsText bytes.now }
        ensures { result ≡ bytes.now }
    {
        let known = Known::Text;
        FileString { bytes, known }
    }

    pub fn as_slice(&self) -> &'a [u8]
        ensures { result.now ≡ self.now }
    {
        self.bytes
    }

    /// The same string.
    pub fn copy(&self) -> FileString<'a>
        ensures { result ≡ self.now }
    {
        FileString {
            bytes: self.bytes,
            known: self.known,
        }
    }

    /// The same string, tested if it hasn't been, so that its uses don't test it again.
    pub(crate) fn tested(&self) -> FileString<'a>
        ensures { result ≡ self.now }
    {
        let known = known_by(self.is_text());
        FileString {
            bytes: self.bytes,
            known,
        }
    }

    /// Whether the string is known to be a text; one that hasn't been tested isn't.
    pub fn is_known_text(&self) -> bool
        ensures { IsTrue result → IsText self.now }
    {
        match self.known {
            Known::Text => true,
            Known::Other | Known::NoNul => false,
        }
    }

    // Whether the string is a text.
    fn is_text(&self) -> bool
        ensures { IsTrue result ↔ IsText self.now }
    {
        match self.known {
            Known::Text => true,
            Known::Other => false,
            Known::NoNul => is_short_utf8(self.bytes),
        }
    }

    /// The characters, if the string is a text.
    pub(crate) fn characters(&self) -> Option<&'a str>
        ensures some { IfSome result (λ s. (s.now ≡ self.now) × IsText s.now) }
        ensures none { IsNone result → ¬ IsText self.now }
    {
        if self.is_text() {
            Some(unsafe { str::from_utf8_unchecked(self.bytes) })
        } else {
            None
        }
    }
}

// What a test has shown.
fn known_by(is_text: bool) -> Known
    ensures { (bytes : List ℕ) → (IsTrue is_text ↔ IsText bytes) → IsKnownOf result bytes }
{
    if is_text { Known::Text } else { Known::Other }
}

// Whether those bytes are a text.
fn is_text(bytes: &[u8]) -> bool
    ensures { IsTrue result ↔ IsText bytes.now }
{
    !bytes.contains(&0) && is_short_utf8(bytes)
}

// Whether those bytes, which don't hold 00, are a text. Most are ASCII, which is quicker to test
// than UTF-8. Not inlined, so that uses of strings that have been tested stay short.
#[inline(never)]
fn is_short_utf8(bytes: &[u8]) -> bool
    requires { ¬ Contains bytes.now 0 }
    ensures { IsTrue result ↔ IsText bytes.now }
{
    bytes.len() <= MAX_TEXT && (bytes.is_ascii() || str::from_utf8(bytes).is_ok())
}

/// The string up to the first 00, not tested yet, and the bytes after it.
pub(crate) fn until_nul(bytes: &[u8]) -> Result<(FileString<'_>, &[u8]), Why>
    ensures { Finds (λ r. (r.0, r.1.now)) result (until_nul_at bytes.now) }
{
    let (bytes, rest) = cut(bytes, 0);
    let Some(rest) = rest else {
        return Err(Why::BadLength);
    };
    let known = Known::NoNul;
    Ok((FileString { bytes, known }, rest))
}

/// The characters of a string that is a text.
#[inline(always)]
pub(crate) fn flat_text<'a>(string: &FileString<'a>) -> Result<&'a str, Why>
    ensures value { Finds (λ s. s.now) result (text_of string.now) }
    ensures limits { IfOk result (λ s. IsText s.now) }
{
    match string.characters() {
        Some(characters) => Ok(characters),
        None => Err(Why::BadText),
    }
}

/// The text of a string.
// Inlined, since for most strings it is little more than a copy.
#[inline(always)]
pub fn text(alloc: Global, string: &FileString) -> Result<Text, Refusal>
    ensures { Gives (λ t. t) result (text_of string.now) }
{
    let Some(characters) = string.characters() else {
        return Err(Refusal::Fault(Why::BadText));
    };
    Ok(Text::within_limits(alloc, characters)?)
}
