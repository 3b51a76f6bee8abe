//! Data files in the form o5m: the objects of a mirror, by rising keys (OSM wiki, O5m).

ghost use Rattle.std.specs.Prelude.{◌≡◌, ℕ, List, ◌≤◌, length, IfOk, OnOk, IfErr};
ghost use Rattle.osm_model.specs.Change.{ChangeValue};
ghost use Rattle.osm_model.specs.ChangeForm.{ReadStops, SpellsNothing};
ghost use Rattle.osm_model.specs.Data.{DataStops, IsData};
ghost use Rattle.osm_model.specs.Limits.{max_file};
ghost use Rattle.osm_o5c.specs.File.{DataFaultPlace, SpellsData, SpellsO5c};
ghost use Rattle.osm_o5c.specs.Shortest.{IsShortest};
ghost use Rattle.osm_o5c.specs.Written.{o5m_text};

use crate::files::{read_changes, write_changes};
use osm_model::change::Change;
use osm_model::data::{DataError, first_fault};
use osm_model::files::DataFile;
use osm_model::form::FormError;
use osm_model::limits::MAX_FILE;
use std::alloc::Global;

// Reset, header, length 4, `o5m2`.
const DATA_BEGINNING: [u8; 7] = [0xff, 0xe0, 4, 0x6f, 0x35, 0x6d, 0x32];

/// Reads the objects of an o5m data file: a change file with `o5m2` in place of `o5c2` in its
/// header, without deletions, with rising keys and any number of objects (OSM wiki, O5m). The place
/// of a fault is the offset of the first dataset that doesn't fit, as in a change file. A change
/// file has its fault at place 0.
pub fn read_data(alloc: Global, bytes: &[u8]) -> Result<Vec<Change>, FormError>
    ensures spelled { IfOk result (λ v. SpellsData bytes.now v.items) }
    ensures small { OnOk result (length bytes.now ≤ max_file) }
    ensures refused { IfErr result (ReadStops SpellsData DataFaultPlace bytes.now) }
{
    read_changes::<DataFile>(alloc, &DATA_BEGINNING, bytes)
}

/// Writes objects as an o5m data file, in the spelling of change files. Refuses a deletion, and a
/// key that isn't above the key before it.
pub fn write_data(alloc: Global, objects: &[Change]) -> Result<Vec<u8>, DataError>
    ensures text { IfOk result (λ v. v.items ≡ o5m_text objects.now) }
    ensures small { IfOk result (λ v. length v.items ≤ max_file) }
    ensures data { OnOk result (IsData objects.now) }
    ensures refused { IfErr result (DataStops o5m_text objects.now) }
{
    if let Some(index) = first_fault(objects) {
        return Err(DataError::NotData { index });
    }
    Ok(write_changes(alloc, &DATA_BEGINNING, objects, MAX_FILE)?)
}

/// Tells the prover the laws of data files: bytes either spell exactly one list of objects or have
/// exactly one place of a fault, never both. Objects that bytes spell are data. The written text of
/// data spells exactly these objects, as `IsShortest` says. Bytes never spell both a batch and
/// objects. Does nothing at run time.
pub fn laws_of_data()
    ensures limits { (bytes : List ℕ) (objects : List ChangeValue)
        → SpellsData bytes objects → IsData objects }
    ensures one_list { (bytes : List ℕ) (a b : List ChangeValue)
        → SpellsData bytes a → SpellsData bytes b → a ≡ b }
    ensures apart { (bytes : List ℕ) (objects : List ChangeValue) (place : ℕ)
        → SpellsData bytes objects → DataFaultPlace bytes place → ⊥ }
    ensures one_place { (bytes : List ℕ) (a b : ℕ)
        → DataFaultPlace bytes a → DataFaultPlace bytes b → a ≡ b }
    ensures has_place { (bytes : List ℕ)
        → SpellsNothing SpellsData bytes → (place : ℕ) × DataFaultPlace bytes place }
    ensures written { (objects : List ChangeValue) → IsData objects
        → (s : SpellsData (o5m_text objects) objects) × IsShortest s }
    ensures no_change_file { (bytes : List ℕ) (batch objects : List ChangeValue)
        → SpellsO5c bytes batch → SpellsData bytes objects → ⊥ }
{}
