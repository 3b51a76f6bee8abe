//! The changes of a range of numbers, written to a file to be handed on.

ghost use Rattle.std.specs.Prelude.{◌≡◌, IfErr, IfOk, IsSome, None, OnOk, Some};
ghost use Rattle.osm_merge.specs.Frames.{ReplacesOften};
ghost use Rattle.osm_store.specs.Files.{Puts};
ghost use Rattle.osm_store.specs.Frames.{IsKnown};
ghost use Rattle.osm_runs.specs.Forms.{text_of};
ghost use Rattle.osm_runs.specs.Runs.{IsDeviceFault};
ghost use Rattle.osm_runs.specs.Writing.{PutStops};
ghost use Rattle.osm_runs.specs.declared.fault.FileName.TheVariants.{Output};
ghost use Rattle.osm_range.specs.declared.range.Ending.TheVariants.{Faulty};
ghost use Rattle.osm_range.specs.Handing.{HandingStops, IsHandedOn, IsTold};
ghost use Rattle.osm_range.specs.Printed.{changes_report_of};
ghost use Rattle.osm_range.specs.Steps.Rising.{changes_in_rows};
ghost use Rattle.osm_range.specs.Steps.Telling.{TellingStops, changed_at};

use crate::collected::Collected;
use crate::range::{Ending, Range, Reached, read_range};
use crate::report::{Changed, changes_report};
use crate::writing::write_latest;
use osm_model::change::Change;
use osm_model::filter::Filter;
use osm_model::kind::Key;
use osm_model::memory::WantOfMemory;
use osm_runs::fault::{FileName, RunFault};
use osm_runs::form::{Form, form_of};
use osm_runs::options::Layout;
use osm_runs::progress::Progress;
use osm_runs::report::fault_text;
use osm_store::store::{Store, StoreError};
use std::alloc::Global;
use std::hash::RandomState;

/// The options of a run that hands changes on.
#[derive(Clone, Copy)]
pub struct ChangesOptions<'a> {
    /// The objects of the consumer.
    pub filter: &'a Filter,
    /// What the report looks like.
    pub layout: Layout,
    /// The seed of the table of objects. Each run needs one of its own that nobody can guess: under
    /// a known seed, whoever edits the folder can choose ids that all have one hash, and the time
    /// grows with the square of their number.
    pub hashing: RandomState,
}

/// Writes the last change of each object that the numbers of a range change, by rising keys, as a
/// change file of any size. The name of the output says its form: it ends in `.opl` or `.o5c`, and
/// any other is refused as `UnknownForm`. An object whose last change the filter doesn't keep is
/// written as a deletion, with the metadata of that change.
///
/// The numbers are read as `read_range` does. If that ends before a missing or faulty number, the
/// output has the changes of the numbers before it, and the run ends as a follower does: the
/// missing numbers are reported, or the fault is given as `Before`. If no number was read, nothing
/// is written, and the fault of a faulty number refuses the run. A refusal leaves all files as they
/// were.
pub fn changes_run<S: Store>(
    alloc: Global,
    store: &mut S,
    dir: &str,
    output: &str,
    range: Range,
    options: ChangesOptions<'_>,
) -> Result<Progress, RunFault>
    ensures handed { IfOk result (IsHandedOn (IsKnown (S.state store.old))
        options.entry.filter.now options.entry.layout dir.now output.now range
        (S.state store.old).files (S.state store.new).files) }
    ensures stops { IfErr result (HandingStops (IsKnown (S.state store.old))
        (S.state store.old).files dir.now output.now range) }
    ensures frame { ReplacesOften IsDeviceFault (S.state store.old) (S.state store.new) result }
{
    let Some(form) = form_of(output) else {
        return Err(RunFault::UnknownForm);
    };
    let filter = options.filter.copy(alloc)?;
    let mut collected = Collected::new(alloc, filter, options.hashing);
    let reached = match read_range(alloc, store, dir, range, &mut collected) {
        Ok(reached) => reached,
        Err(fault) => return Err(fault),
    };
    let rising = match collected.latest.rising(alloc) {
        Ok(rising) => rising,
        Err(WantOfMemory) => return Err(RunFault::WantOfMemory),
    };
    let changes = rising.as_slice();
    let changed = changed(range, reached.number, changes);
    let progress = match progress(alloc, options.layout, changed, reached.ending) {
        Ok(progress) => progress,
        Err(fault) => return Err(fault),
    };
    match write(alloc, store, output, form, changed, changes) {
        Ok(()) => Ok(progress),
        Err(fault) => {
            drop(progress);
            Err(fault)
        }
    }
}

// What is said of the changes of the numbers up to that one; None if no number was read.
fn changed(range: Range, number: u32, changes: &[(Key, &Change)]) -> Option<Changed>
    ensures { result ≡ changed_at range number (changes_in_rows changes.now) }
{
    if number < range.from {
        return None;
    }
    Some(Changed {
        from: range.from,
        to: number,
        objects: changes.len() as u64,
    })
}

// Writes the changes, if a number was read.
fn write<S: Store>(
    alloc: Global,
    store: &mut S,
    output: &str,
    form: Form,
    changed: Option<Changed>,
    changes: &[(Key, &Change)],
) -> Result<(), RunFault>
    ensures none { OnOk result (changed ≡ None
        → (S.state store.new).files ≡ (S.state store.old).files) }
    ensures put { OnOk result (IsSome changed → IsKnown (S.state store.old)
        → Puts (S.state store.old).files output.now
        (Some (text_of form (changes_in_rows changes.now)))
        (S.state store.new).files) }
    ensures stops { IfErr result (PutStops Output) }
    ensures frame { ReplacesOften IsDeviceFault (S.state store.old) (S.state store.new) result }
{
    if changed.is_none() {
        return Ok(());
    }
    match write_latest(alloc, store, output, form, changes) {
        Ok(()) => Ok(()),
        Err(StoreError::Device) => Err(RunFault::WriteFault(FileName::Output)),
        Err(StoreError::TooLarge) => unreachable!(),
        Err(StoreError::WantOfMemory) => Err(RunFault::WantOfMemory),
    }
}

// What a run comes to that reads to such an end. The fault of a number refuses it if no number was
// read.
fn progress(
    alloc: Global,
    layout: Layout,
    changed: Option<Changed>,
    ending: Ending,
) -> Result<Progress, RunFault>
    ensures told { IfOk result (IsTold layout changed ending) }
    ensures stops { IfErr result (TellingStops changed ending) }
{
    match ending {
        Ending::Whole => whole(alloc, layout, changed, &[]),
        Ending::Missing(missing) => whole(alloc, layout, changed, missing.as_slice()),
        Ending::Faulty(fault) => before(alloc, layout, changed, fault),
    }
}

fn whole(
    alloc: Global,
    layout: Layout,
    changed: Option<Changed>,
    missing: &[u32],
) -> Result<Progress, RunFault>
    ensures told { IfOk result (λ progress. progress
        ≡ Progress.Whole (changes_report_of layout changed missing.now None)) }
    ensures stops { IfErr result (λ fault. fault ≡ RunFault.WantOfMemory) }
{
    let report = changes_report(alloc, layout, changed, missing, None)?;
    Ok(Progress::Whole(report))
}

// Before a number with that fault.
fn before(
    alloc: Global,
    layout: Layout,
    changed: Option<Changed>,
    fault: RunFault,
) -> Result<Progress, RunFault>
    ensures told { IfOk result (IsTold layout changed (Faulty fault)) }
    ensures stops { IfErr result (TellingStops changed (Faulty fault)) }
{
    if changed.is_none() {
        return Err(fault);
    }
    let said = fault_text(alloc, fault)?;
    let report = changes_report(alloc, layout, changed, &[], Some(said.as_str()))?;
    Ok(Progress::Before(report, fault))
}
