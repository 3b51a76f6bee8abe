//! Beginning a save with a data file.

ghost use Rattle.std.specs.Prelude.{◌≡◌, ◌↔◌, ◌≤◌, IfErr, IsTrue, OnErr, OnOk};
ghost use Rattle.osm_store.specs.Files.{HasFewer, SpendsAtMost};
ghost use Rattle.osm_store.specs.Frames.{IsKnown};
ghost use Rattle.osm_merge.specs.Calls.{bytes_in};
ghost use Rattle.osm_blocks.specs.Frames.{ReadsOften};
ghost use Rattle.osm_data.specs.Reading.{read_calls};
ghost use Rattle.osm_beginning.specs.Steps.Passes.{IsFar, IsNear, IsOfSave, ReplaceStops};
ghost use Rattle.osm_beginning.specs.Steps.Passes.{from_calls, replace_calls};
ghost use Rattle.osm_beginning.specs.Steps.Storing.{CountsFirst, DataStops, Drops, IsCheckedIn};
ghost use Rattle.osm_beginning.specs.Steps.Storing.{SaveStops, SavesWithin, StopsIn};
ghost use Rattle.osm_runs.specs.DataForms.{spells_data};
ghost use Rattle.osm_runs.specs.Runs.{IsDeviceFault};
ghost use Rattle.osm_runs.specs.declared.fault.FileName.TheVariants.{Save};
ghost use Rattle.osm_runs.specs.declared.fault.RunFault.TheVariants.{TooLarge};

use crate::counting::{count_first, count_kept};
use crate::writing::{commit, write_kept};
use osm_data::data_reader::DataReader;
use osm_data::o5m_data::O5mData;
use osm_data::opl_data::OplData;
use osm_model::filter::Filter;
use osm_runs::data_form::DataForm;
use osm_runs::fault::{FileName, RunFault};
use osm_save::head::Head;
use osm_save::objects::MOST_OBJECTS;
use osm_store::store::Store;
use std::alloc::Global;

// How many seconds the newest object of a data file may be after its state: eight days. A day
// server's state may be more than a day old.
const MOST_AFTER: u32 = 691_200;

/// What to begin a save with: the objects of the data file `base` of that form that the filter
/// keeps, and a head.
#[derive(Clone, Copy)]
pub(crate) struct Beginning<'a> {
    pub(crate) base: &'a str,
    pub(crate) form: DataForm,
    pub(crate) save: &'a str,
    pub(crate) head: Head,
    pub(crate) filter: &'a Filter,
    /// The time of the state, if the newest object may not be more than eight days newer.
    pub(crate) state_time: Option<u32>,
}

/// Writes a new save from a data file.
pub(crate) fn begin_in<S: Store>(
    alloc: Global,
    store: &mut S,
    wanted: &Beginning<'_>,
) -> Result<(), RunFault>
    ensures saves { SavesWithin 2 from_calls (spells_data wanted.now.form) wanted.now
        (S.state store.old) (S.state store.new) result }
    ensures stops { IfErr result (SaveStops wanted.now (S.state store.old)) }
{
    match wanted.form {
        DataForm::Opl => begin_from::<S, OplData>(alloc, store, wanted),
        DataForm::O5m => begin_from::<S, O5mData>(alloc, store, wanted),
    }
}

// The same, for the form that `D` reads. A fault of the data file comes before one of the save.
fn begin_from<S: Store, D: DataReader + Drop>(
    alloc: Global,
    store: &mut S,
    wanted: &Beginning<'_>,
) -> Result<(), RunFault>
    ensures saves { SavesWithin 2 from_calls D.spells wanted.now
        (S.state store.old) (S.state store.new) result }
    ensures stops { IfErr result
        (StopsIn D.spells D.goes_wrong D.is_long wanted.now (S.state store.old)) }
    ensures dropped { OnErr result (Drops (S.state store.old) (S.state store.new)) }
{
    let fault = match begin_counted::<S, D>(alloc, store, wanted) {
        Ok(()) => return Ok(()),
        Err(fault) => fault,
    };
    match check_after::<S, D>(alloc, store, wanted, &fault) {
        Ok(()) => Err(fault),
        Err(found) => Err(found),
    }
}

// Reads the data file after a fault of the save, if none of its objects was read yet.
fn check_after<S: Store, D: DataReader + Drop>(
    alloc: Global,
    store: &mut S,
    wanted: &Beginning<'_>,
    fault: &RunFault,
) -> Result<(), RunFault>
    ensures checked { OnOk result
        (IsCheckedIn fault.now D.spells wanted.now (S.state store.old)) }
    ensures after { IfErr result (λ found. IsOfSave fault.now) }
    ensures stops { IfErr result
        (DataStops D.goes_wrong D.is_long wanted.now.base.now (S.state store.old)) }
    ensures stage { (S.state store.new).stage ≡ (S.state store.old).stage }
    ensures frame { ReadsOften IsDeviceFault (S.state store.old) (S.state store.new) result }
    ensures lacks { IfErr result (λ found. IsKnown (S.state store.old) → IsDeviceFault found
        → HasFewer (read_calls (bytes_in ((S.state store.old).files wanted.now.base.now)))
        (S.state store.old).left) }
{
    if !is_of_save(fault) || !wanted.filter.keys().is_empty() {
        return Ok(());
    }
    count_kept::<S, D>(alloc, store, wanted.base, wanted.filter)?;
    Ok(())
}

fn is_of_save(fault: &RunFault) -> bool
    ensures { IsTrue result ↔ IsOfSave fault.now }
{
    match fault {
        RunFault::WriteFault(FileName::Save) | RunFault::TooLarge(FileName::Save) => true,
        _ => false,
    }
}

// Both passes. A fault of the save stands only over a data file that spells objects.
fn begin_counted<S: Store, D: DataReader + Drop>(
    alloc: Global,
    store: &mut S,
    wanted: &Beginning<'_>,
) -> Result<(), RunFault>
    ensures saves { SavesWithin 2 from_calls D.spells wanted.now
        (S.state store.old) (S.state store.new) result }
    ensures stops { IfErr result (λ fault. IsCheckedIn fault D.spells wanted.now (S.state store.old)
        → StopsIn D.spells D.goes_wrong D.is_long wanted.now (S.state store.old) fault) }
    ensures few { IfErr result (λ fault. fault ≡ TooLarge Save → IsKnown (S.state store.old)
        → SpendsAtMost (read_calls (bytes_in ((S.state store.old).files wanted.now.base.now)))
        (S.state store.old).left (S.state store.new).left) }
    ensures dropped { OnErr result (Drops (S.state store.old) (S.state store.new)) }
{
    let count = match count_first::<S, D>(alloc, store, wanted.base, wanted.filter) {
        Ok(count) => count,
        Err(fault) => return Err(fault),
    };
    if count > MOST_OBJECTS {
        return Err(RunFault::TooLarge(FileName::Save));
    }
    match replace::<S, D>(alloc, store, wanted, count) {
        Ok(()) => Ok(()),
        Err(fault) => {
            store.abandon();
            Err(fault)
        }
    }
}

// The second pass, and the commit. `count` is what the first pass counted.
fn replace<S: Store, D: DataReader + Drop>(
    alloc: Global,
    store: &mut S,
    wanted: &Beginning<'_>,
    count: u64,
) -> Result<(), RunFault>
    requires few { count ≤ 999999999999999999 }
    ensures saves { SavesWithin 1 replace_calls D.spells wanted.now
        (S.state store.old) (S.state store.new) result }
    ensures stops { IfErr result (λ fault. CountsFirst D.spells wanted.now.filter.now
        wanted.now.base.now (S.state store.old) count
        → ReplaceStops D.spells D.goes_wrong D.is_long wanted.now.state_time
        (IsKnown (S.state store.old)) ((S.state store.old).files wanted.now.base.now) fault) }
{
    D::laws();
    let written = write_kept::<S, D>(alloc, store, wanted, count)?;
    if written.count != count {
        return Err(RunFault::Changed(FileName::Base));
    }
    check_time(wanted.state_time, written.newest)?;
    commit(store)?;
    Ok(())
}

// Refuses a state that is older than the data file.
fn check_time(state_time: Option<u32>, newest: u32) -> Result<(), RunFault>
    ensures near { OnOk result (IsNear state_time newest) }
    ensures far { IfErr result (IsFar state_time newest) }
{
    match state_time {
        Some(time) if time.saturating_add(MOST_AFTER) < newest => {
            Err(RunFault::OlderState(time, newest))
        }
        _ => Ok(()),
    }
}
