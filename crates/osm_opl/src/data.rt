//! OPL data files: one line for each object of a mirror, by rising keys.

ghost use Rattle.std.specs.Prelude.{◌≡◌, ℕ, List, ◌≤◌, length, IfOk, OnOk, IfErr};
ghost use Rattle.osm_model.specs.Change.{ChangeValue};
ghost use Rattle.osm_model.specs.ChangeForm.{ReadStops, SpellsNothing};
ghost use Rattle.osm_model.specs.Data.{DataStops, IsData};
ghost use Rattle.osm_model.specs.Limits.{max_file};
ghost use Rattle.osm_opl.specs.File.{DataFaultLine, SpellsData};
ghost use Rattle.osm_opl.specs.Written.{opl_text};

use crate::files::{read_changes, write_changes};
use osm_model::change::Change;
use osm_model::data::{DataError, first_fault};
use osm_model::files::DataFile;
use osm_model::form::FormError;
use std::alloc::Global;

/// Reads the objects of an OPL data file, one from each line that isn't empty and doesn't begin
/// with `#`. The place of a fault is the number of its line, counted from 1 over all lines.
pub fn read_data(alloc: Global, bytes: &[u8]) -> Result<Vec<Change>, FormError>
    ensures spelled { IfOk result (λ v. SpellsData bytes.now v.items) }
    ensures small { OnOk result (length bytes.now ≤ max_file) }
    ensures refused { IfErr result (ReadStops SpellsData DataFaultLine bytes.now) }
{
    read_changes::<DataFile>(alloc, bytes)
}

/// Writes objects as an OPL data file, one line for each object, each ended by a line feed. Refuses
/// a deletion, and a key that isn't above the key before it.
pub fn write_data(alloc: Global, objects: &[Change]) -> Result<Vec<u8>, DataError>
    ensures text { IfOk result (λ v. v.items ≡ opl_text objects.now) }
    ensures small { IfOk result (λ v. length v.items ≤ max_file) }
    ensures data { OnOk result (IsData objects.now) }
    ensures refused { IfErr result (DataStops opl_text objects.now) }
{
    if let Some(index) = first_fault(objects) {
        return Err(DataError::NotData { index });
    }
    Ok(write_changes(alloc, objects)?)
}

/// Tells the prover the laws of data files: bytes either spell exactly one list of objects or have
/// exactly one place of a fault, never both. The written text of data spells exactly these objects.
/// Does nothing at run time.
pub fn laws_of_data()
    ensures one_list { (bytes : List ℕ) (a b : List ChangeValue)
        → SpellsData bytes a → SpellsData bytes b → a ≡ b }
    ensures apart { (bytes : List ℕ) (objects : List ChangeValue) (place : ℕ)
        → SpellsData bytes objects → DataFaultLine bytes place → ⊥ }
    ensures one_place { (bytes : List ℕ) (a b : ℕ)
        → DataFaultLine bytes a → DataFaultLine bytes b → a ≡ b }
    ensures has_place { (bytes : List ℕ)
        → SpellsNothing SpellsData bytes → (place : ℕ) × DataFaultLine bytes place }
    ensures written { (objects : List ChangeValue)
        → IsData objects → SpellsData (opl_text objects) objects }
{}
