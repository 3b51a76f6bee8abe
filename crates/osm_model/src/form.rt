//! A form of change files: what its bytes spell, what it writes, and where a fault is.

ghost use Rattle.std.specs.Prelude.{◌≡◌, ℕ, List, ◌≤◌, length, IfOk, OnOk, IfErr};
ghost use Rattle.osm_model.specs.Batch.{IsBatch};
ghost use Rattle.osm_model.specs.Change.{ChangeValue};
ghost use Rattle.osm_model.specs.ChangeForm.{ReadStops, WriteStops};
ghost use Rattle.osm_model.specs.Limits.{max_file};

use crate::batch::Batch;
use std::alloc::Global;
use thiserror::Error;

/// Why a line or a dataset can't be read. If several causes apply, any of them may be named.
#[derive(Clone, Copy, Debug, PartialEq, Eq, Error)]
pub enum Why {
    /// The first letter of a line, or the kind of a member, isn't one of the three.
    #[error("BadKind")]
    BadKind,
    /// A field is missing, out of order or malformed.
    #[error("BadField")]
    BadField,
    /// A number isn't spelled as the form requires.
    #[error("BadNumber")]
    BadNumber,
    /// A number is outside its limits.
    #[error("OutOfRange")]
    OutOfRange,
    /// A timestamp isn't the text of a time.
    #[error("BadTime")]
    BadTime,
    /// An escape names no character.
    #[error("BadEscape")]
    BadEscape,
    /// A text isn't UTF-8, holds U+0000 or has more than 1,020 bytes.
    #[error("BadText")]
    BadText,
    /// A visible node has no location.
    #[error("NoLocation")]
    NoLocation,
    /// Version, time, changeset or user is empty, absent or 0.
    #[error("NoMetadata")]
    NoMetadata,
    /// There are more than 5,000 tags, 32,000 nodes or members, or 100,000 changes.
    #[error("TooMany")]
    TooMany,
    /// An o5c file doesn't begin with the reset and the header.
    #[error("BadHeader")]
    BadHeader,
    /// An o5c file ends inside a dataset or without the end byte.
    #[error("Truncated")]
    Truncated,
    /// A reference names no string of the table, or a string of the other sort.
    #[error("BadReference")]
    BadReference,
    /// The fields don't exactly fill their dataset, or the references their part.
    #[error("BadLength")]
    BadLength,
    /// Bytes follow the end byte of an o5c file.
    #[error("TrailingBytes")]
    TrailingBytes,
    /// The key of an object in a data file isn't above the key before it.
    #[error("OutOfOrder")]
    OutOfOrder,
    /// An object in a data file is deleted.
    #[error("Deleted")]
    Deleted,
}

/// Why a change file can't be read or written.
#[derive(Clone, Copy, Debug, PartialEq, Eq, Error)]
pub enum FormError {
    /// Memory was refused.
    #[error("WantOfMemory")]
    WantOfMemory,
    /// The file has more than 64 MiB.
    #[error("TooLarge")]
    TooLarge,
    /// The bytes spell no batch. The form says what its places count.
    #[error("Fault")]
    Fault { place: u64, why: Why },
}

/// A form of change files.
pub trait ChangeForm {
    /// The bytes spell the batch.
    ghost spells: { List ℕ → List ChangeValue → Type 0 };

    /// The written text of a batch.
    ghost text: { List ChangeValue → List ℕ };

    /// The place of the fault of bytes that spell no batch.
    ghost fault_place: { List ℕ → ℕ → Type 0 };

    /// Writes the text of a batch. Fails only if the text has more than 64 MiB or memory is
    /// refused.
    fn write(alloc: Global, batch: &Batch) -> Result<Vec<u8>, FormError>
        ensures text { IfOk result (λ v. v.items ≡ text batch.now) }
        ensures small { IfOk result (λ v. length v.items ≤ max_file) }
        ensures refused { IfErr result (WriteStops (text batch.now)) };

    /// Reads the batch that the bytes spell, or gives the place of their fault.
    fn read(alloc: Global, bytes: &[u8]) -> Result<Batch, FormError>
        ensures spelled { IfOk result (λ b. spells bytes.now b) }
        ensures small { OnOk result (length bytes.now ≤ max_file) }
        ensures refused { IfErr result (ReadStops spells fault_place bytes.now) };

    /// Tells the prover the laws of the form: the written text of a batch within the limits spells
    /// that batch, and bytes spell at most one batch. Does nothing at run time.
    fn laws()
        ensures text_spells { (batch : List ChangeValue) → IsBatch batch
            → spells (text batch) batch }
        ensures one_batch { (bytes : List ℕ) (a b : List ChangeValue)
            → spells bytes a → spells bytes b → a ≡ b };
}

/// Writes a batch in any form and reads it back, which gives the same batch. A publisher and its
/// followers rely on this law.
pub fn there_and_back<F: ChangeForm>(alloc: Global, batch: &Batch) -> Result<Batch, FormError>
    ensures same { IfOk result (λ b. b ≡ batch.now) }
    ensures refused { IfErr result (WriteStops (F.text batch.now)) }
{
    F::laws();
    batch.limits();
    let bytes = F::write(alloc, batch)?;
    F::read(alloc, bytes.as_slice())
}
