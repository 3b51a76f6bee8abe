//! OPL files: one line for each change of a batch, in order (Osmium manual, OPL File Format).

ghost use Rattle.std.specs.Prelude.{◌≡◌, ℕ, List};
ghost use Rattle.osm_model.specs.Batch.{IsBatch};
ghost use Rattle.osm_model.specs.Change.{ChangeValue};
ghost use Rattle.osm_model.specs.ChangeForm.{SpellsNothing};
ghost use Rattle.osm_opl.specs.File.{FaultLine, SpellsOpl};
ghost use Rattle.osm_opl.specs.Line.{SpellsLine};
ghost use Rattle.osm_opl.specs.Written.{opl_text};

use crate::files::{read_changes, write_changes};
use osm_model::batch::Batch;
use osm_model::files::ChangeFile;
use osm_model::form::{ChangeForm, FormError};
use std::alloc::Global;

/// The form of OPL files. The place of a fault is the number of its line, counted from 1 over all
/// lines.
#[derive(Clone, Copy, Debug, PartialEq, Eq)]
pub struct Opl;

impl ChangeForm for Opl {
    ghost use Rattle.osm_opl.specs.File.{FaultLine, SpellsOpl};
    ghost use Rattle.osm_opl.specs.Written.{opl_text};

    ghost spells = { SpellsOpl };

    ghost text = { opl_text };

    ghost fault_place = { FaultLine };

    /// Writes a line for each change, each ended by a line feed. The empty batch gives no bytes.
    fn write(alloc: Global, batch: &Batch) -> Result<Vec<u8>, FormError> {
        Ok(write_changes(alloc, batch.changes())?)
    }

    /// Reads one change from each line that isn't empty and doesn't begin with `#`.
    fn read(alloc: Global, bytes: &[u8]) -> Result<Batch, FormError> {
        let changes = read_changes::<ChangeFile>(alloc, bytes)?;
        Ok(Batch::within_limits(changes))
    }

    fn laws() {}
}

/// Tells the prover the laws of the form: bytes either spell exactly one batch or have exactly one
/// place of a fault, never both. A line spells at most one change. The written text of a batch
/// spells that batch. Does nothing at run time.
pub fn laws_of_opl()
    ensures one_batch { (bytes : List ℕ) (a b : List ChangeValue)
        → SpellsOpl bytes a → SpellsOpl bytes b → a ≡ b }
    ensures one_change { (line : List ℕ) (a b : ChangeValue)
        → SpellsLine line a → SpellsLine line b → a ≡ b }
    ensures apart { (bytes : List ℕ) (batch : List ChangeValue) (place : ℕ)
        → SpellsOpl bytes batch → FaultLine bytes place → ⊥ }
    ensures one_place { (bytes : List ℕ) (a b : ℕ)
        → FaultLine bytes a → FaultLine bytes b → a ≡ b }
    ensures has_place { (bytes : List ℕ)
        → SpellsNothing SpellsOpl bytes → (place : ℕ) × FaultLine bytes place }
    ensures written { (batch : List ChangeValue)
        → IsBatch batch → SpellsOpl (opl_text batch) batch }
{}
