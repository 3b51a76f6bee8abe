//! The form o5c of change files (OSM wiki, O5m).

ghost use Rattle.std.specs.Prelude.{◌≡◌, ℕ, ℤ, ◌≤◌, List, [], ◌++◌, length, IfOk, IfErr};
ghost use Rattle.osm_model.specs.Batch.{IsBatch};
ghost use Rattle.osm_model.specs.Change.{ChangeValue};
ghost use Rattle.osm_model.specs.ChangeForm.{SpellsNothing};
ghost use Rattle.osm_o5c.specs.Context.{Context};
ghost use Rattle.osm_o5c.specs.Number.{SpellsNumber, SpellsSigned};
ghost use Rattle.osm_o5c.specs.File.{SpellsO5c, Front, Longest, FaultPlace, beginning};
ghost use Rattle.osm_o5c.specs.Written.{number_text, signed_text, o5c_text, WriteStops};
ghost use Rattle.osm_o5c.specs.Shortest.{IsShortest};

use crate::files::{read_changes, write_changes};
use osm_model::batch::Batch;
use osm_model::files::{ChangeFile, WriteError};
use osm_model::form::{ChangeForm, FormError};
use osm_model::limits::MAX_FILE;
use std::alloc::Global;

// Reset, header, length 4, `o5c2`.
const BEGINNING: [u8; 7] = [0xff, 0xe0, 4, 0x6f, 0x35, 0x63, 0x32];

/// The form o5c: binary datasets, with differences for numbers and references for strings.
///
/// The place of a fault is the offset of the first dataset that doesn't fit the grammar; the seven
/// bytes of the beginning count as one dataset at offset 0. If the end byte is missing, the place
/// is the end of the file; if bytes follow it, the place is the offset of the first of them.
#[derive(Clone, Copy, Debug, PartialEq, Eq)]
pub struct O5c;

impl ChangeForm for O5c {
    ghost use Rattle.osm_o5c.specs.File.{SpellsO5c, FaultPlace};
    ghost use Rattle.osm_o5c.specs.Written.{o5c_text};

    ghost spells = { SpellsO5c };

    ghost text = { o5c_text };

    ghost fault_place = { FaultPlace };

    fn write(alloc: Global, batch: &Batch) -> Result<Vec<u8>, FormError> {
        Ok(write_changes(alloc, &BEGINNING, batch.changes(), MAX_FILE)?)
    }

    fn read(alloc: Global, bytes: &[u8]) -> Result<Batch, FormError> {
        let changes = read_changes::<ChangeFile>(alloc, &BEGINNING, bytes)?;
        Ok(Batch::within_limits(changes))
    }

    fn laws() {}
}

impl O5c {
    /// Writes the text of a batch, if the text has at most `most` bytes, which may be more than 64
    /// MiB. Stops as too large soon after the text exceeds `most`, so a caller with little room
    /// doesn't write a long file for nothing.
    pub fn write_within(alloc: Global, batch: &Batch, most: u64) -> Result<Vec<u8>, WriteError>
        ensures text { IfOk result (λ v. v.items ≡ o5c_text batch.now) }
        ensures small { IfOk result (λ v. length v.items ≤ most) }
        ensures refused { IfErr result (WriteStops most (o5c_text batch.now)) }
    {
        write_changes(alloc, &BEGINNING, batch.changes(), most as usize)
    }
}

/// Tells the prover the laws of the form: bytes either spell exactly one batch or go wrong at
/// exactly one place, never both. Every batch that bytes spell is within the limits. There is one
/// longest valid prefix. No spelling of a number is a prefix of another spelling, and the same
/// holds for batches. No spelling of a number is shorter than the written one. The written text of
/// a batch spells the batch as `IsShortest` says: every number in its fewest bytes, every
/// difference exact, and a reset exactly if the kind changes. Every string is named by its least
/// number, or is in line if no number names it. Does nothing at run time.
pub fn laws_of_o5c()
    ensures limits { (bytes : List ℕ) (batch : List ChangeValue)
        → SpellsO5c bytes batch → IsBatch batch }
    ensures one_batch { (bytes : List ℕ) (a b : List ChangeValue)
        → SpellsO5c bytes a → SpellsO5c bytes b → a ≡ b }
    ensures apart { (bytes : List ℕ) (batch : List ChangeValue) (place : ℕ)
        → SpellsO5c bytes batch → FaultPlace bytes place → ⊥ }
    ensures one_place { (bytes : List ℕ) (p q : ℕ)
        → FaultPlace bytes p → FaultPlace bytes q → p ≡ q }
    ensures has_place { (bytes : List ℕ)
        → SpellsNothing SpellsO5c bytes → (p : ℕ) × FaultPlace bytes p }
    ensures fewest_bytes { (bytes : List ℕ) (n : ℕ)
        → SpellsNumber bytes n → length (number_text n) ≤ length bytes }
    ensures fewest_signed { (bytes : List ℕ) (v : ℤ)
        → SpellsSigned bytes v → length (signed_text v) ≤ length bytes }
    ensures written { (batch : List ChangeValue) → IsBatch batch
        → (s : SpellsO5c (o5c_text batch) batch) × IsShortest s }
    ensures one_front { (bytes front rest other more : List ℕ)
        → Longest beginning IsBatch bytes front rest → Longest beginning IsBatch bytes other more
        → front ≡ other }
    ensures longest { (bytes front rest other more : List ℕ)
        (C : Context) (changes : List ChangeValue)
        → Longest beginning IsBatch bytes front rest → Front beginning IsBatch other C changes
        → bytes ≡ other ++ more → length other ≤ length front }
    ensures one_number { (prefix rest other more : List ℕ) (n m : ℕ)
        → SpellsNumber prefix n → SpellsNumber other m → prefix ++ rest ≡ other ++ more
        → (n ≡ m) × (prefix ≡ other) }
    ensures no_longer { (bytes more : List ℕ) (a b : List ChangeValue)
        → SpellsO5c bytes a → SpellsO5c (bytes ++ more) b → more ≡ [] }
{}
