//! A sequence of a folder, read from its files.

ghost use Rattle.std.specs.Prelude.{◌≤◌, IfErr, IfOk, length};
ghost use Rattle.osm_model.specs.Batch.{IsBatch};
ghost use Rattle.osm_model.specs.Limits.{max_file, max_sequence};
ghost use Rattle.osm_runs.specs.Following.{FindsNumberIn, NumberStopsIn, SizesNumberIn};
ghost use Rattle.osm_runs.specs.Forms.{spells_of};
ghost use Rattle.osm_runs.specs.Runs.{ReadsUpTo};
ghost use Rattle.osm_runs.specs.Steps.Following.{FormStops};

use crate::fault::{FileName, RunFault};
use crate::fetch::{Fetched, fetch};
use crate::form::{read_form, suffix};
use osm_model::change::Change;
use osm_model::form::FormError;
use osm_store::store::Store;
use std::alloc::Global;

/// What the files of a sequence hold.
#[derive(Debug, Drop)]
pub struct Numbered {
    /// The time of the sequence, in seconds since 1970-01-01T00:00:00Z.
    pub time: u32,
    /// The changes of the sequence, in the order of the change file.
    pub changes: Vec<Change>,
    /// The number of bytes of the change file.
    pub size: u64,
}

/// Reads the files of a sequence number: its state, and its changes from the o5c file or, if there
/// is none, from the OPL file. None if the number is missing: it has no state file, or neither
/// change file. `before` is the time of the number before, if there is one. A state with an earlier
/// time is refused as `OlderNumber`.
pub fn read_number<S: Store>(
    alloc: Global,
    store: &mut S,
    dir: &str,
    before: Option<u32>,
    number: u32,
) -> Result<Option<Numbered>, RunFault>
    requires { number ≤ max_sequence }
    ensures read { IfOk result (FindsNumberIn (S.state store.old) dir.now before number) }
    ensures size { IfOk result (SizesNumberIn (S.state store.old) dir.now number) }
    ensures stops { IfErr result (NumberStopsIn (S.state store.old) dir.now before number) }
    ensures frame { ReadsUpTo 3 (S.state store.old) (S.state store.new) result }
{
    let Some(fetched) = fetch(alloc, store, dir, before, number)? else {
        return Ok(None);
    };
    let time = fetched.time;
    let size = fetched.changes.len() as u64;
    let changes = changes_of(alloc, number, &fetched)?;
    Ok(Some(Numbered {
        time,
        changes,
        size,
    }))
}

// The changes of a file of a number.
fn changes_of(alloc: Global, number: u32, fetched: &Fetched) -> Result<Vec<Change>, RunFault>
    requires { length fetched.now.changes.items ≤ max_file }
    ensures spelled { IfOk result
        (λ changes. spells_of fetched.now.form fetched.now.changes.items changes.items) }
    ensures limits { IfOk result (λ changes. IsBatch changes.items) }
    ensures stops { IfErr result (FormStops number fetched.now.form fetched.now.changes.items) }
{
    match read_form(alloc, fetched.form, fetched.changes.as_slice()) {
        Ok(batch) => Ok(batch.into_changes()),
        Err(FormError::WantOfMemory) => Err(RunFault::WantOfMemory),
        Err(FormError::TooLarge) => unreachable!(),
        Err(FormError::Fault { place, why }) => {
            let file = FileName::Sequence(number, suffix(fetched.form));
            Err(RunFault::BadChange(file, place, why))
        }
    }
}
