//! Beginning a save with a data file, when a journal may lie beside the save.

ghost use Rattle.std.specs.Prelude.{◌≡◌, ◌<◌, ◌+◌, ℕ, List, IfErr, IfOk, OnErr, OnOk};
ghost use Rattle.std.specs.Prelude.{None, Some, false};
ghost use Rattle.osm_store.specs.Files.{HasFewer, Spends};
ghost use Rattle.osm_store.specs.Frames.{IsKnown, MakesAtMost};
ghost use Rattle.osm_merge.specs.Calls.{bytes_in};
ghost use Rattle.osm_publisher.specs.Published.{PublishedValue};
ghost use Rattle.osm_kept.specs.Names.{journal_name_of};
ghost use Rattle.osm_beginning.specs.Beginning.{IsBaseOf, IsTimely};
ghost use Rattle.osm_beginning.specs.Keeping.{BeginKeptStops, CallsOften, IsBegunBoth, LeavesBegun};
ghost use Rattle.osm_beginning.specs.Keeping.{IsDropped, begin_kept_calls};
ghost use Rattle.osm_beginning.specs.Steps.Emptying.{IsAbove, LeavesOrEmpties};
ghost use Rattle.osm_beginning.specs.Steps.Passes.{from_calls};
ghost use Rattle.osm_beginning.specs.Steps.Storing.{DropsAt, LeavesIn, LeavesLast, PutsWithin};
ghost use Rattle.osm_beginning.specs.Steps.Storing.{StopsBeside};
ghost use Rattle.osm_runs.specs.DataForms.{HasDataEnd};
ghost use Rattle.osm_runs.specs.Keeping.{IsKeptOf};
ghost use Rattle.osm_runs.specs.Reports.{begin_report_of};
ghost use Rattle.osm_runs.specs.Runs.{IsDeviceFault};

use crate::begin::{Beginning, begin_in};
use crate::journal::{Due, empty_journal, read_due};
use crate::start::{compared, head_from, read_start};
use osm_kept::laws::laws_of_kept;
use osm_kept::names::journal_name;
use osm_model::filter::Filter;
use osm_runs::data_form::data_form_of;
use osm_runs::fault::{FileName, RunFault};
use osm_runs::report::{Report, begin_report};
use osm_store::store::Store;
use std::alloc::Global;

/// The options of a beginning.
#[derive(Debug, Drop)]
pub struct BeginOptions {
    /// The objects that the save keeps.
    pub filter: Filter,
    /// The data file may be newer than its state by more than eight days.
    pub any_time: bool,
}

/// Writes a save with the objects of a data file that the filter keeps, at the sequence number and
/// time of the state file that belongs to the data file. Whatever the save and its journal held
/// before is replaced. The journal then says nothing, and doesn't end above the save. The save has
/// no counts of edits yet: it counts those of later sequences.
///
/// The name of the data file says its form: it ends in `.opl` or `.o5m`; any other is refused as
/// `UnknownForm`. A state of sequence number 0 is refused as `ZeroBase`. The data file is read
/// twice, in blocks, and memory doesn't grow with it. Its faults come before those of the save, for
/// which it may be read once more. A data file is refused as `TooLarge` if it has a line or a
/// dataset of more than 64 MiB, or more bytes than 64 bits can count. So are a journal of more than
/// 64 MiB, and a save that would have more than 999,999,999,999,999,999 objects. After all other
/// faults, a state more than eight days older than the newest object of the data file, kept or not,
/// is refused as `OlderState`, unless the options say `any_time`.
///
/// The old contents of the save and its journal are never a reason to refuse. A journal that is
/// bad, or that might be taken for one of the new save, is emptied before the save is written. If
/// such a journal belongs to the old save, it is emptied only afterwards, and so is any other
/// journal that ends above the new save. `dropped` gets the number at which an emptied journal
/// ended, also after a fault.
///
/// So a refusal leaves what the two files kept, unless the run stops after it wrote the save and
/// before it emptied the journal. The save is then the new one. The journal beside it belongs to
/// the old save, which had the same version and head, or to another save. In the second case the
/// fault is `OtherJournal`, and every run but a new beginning is refused with it until the journal
/// is emptied or taken away.
pub fn begin_kept<S: Store>(
    alloc: Global,
    store: &mut S,
    base: &str,
    state: &str,
    save: &str,
    options: &BeginOptions,
    dropped: &mut Option<u32>,
) -> Result<Report, RunFault>
    ensures begun { IfOk result (λ report. IsKnown (S.state store.old)
        → IsBegunBoth options.now.filter base.now state.now save.now (S.state store.old).files
        (S.state store.new).files report) }
    ensures in_step { IfOk result (λ report. IsKnown (S.state store.old)
        → (published : List PublishedValue) (number : ℕ)
        → IsBaseOf published number base.now state.now (S.state store.old).files
        → IsKeptOf published options.now.filter number number save.now (S.state store.new).files
        × (report ≡ begin_report_of number)) }
    ensures timely { OnOk result (IsKnown (S.state store.old) → options.now.any_time ≡ false
        → IsTimely base.now state.now (S.state store.old).files) }
    ensures report { IfOk result
        (λ report. (number : ℕ) × (0 < number) × (report ≡ begin_report_of number)) }
    ensures stops { IfErr result (BeginKeptStops (IsKnown (S.state store.old))
        options.now.any_time options.now.filter base.now state.now save.now
        (S.state store.old).files) }
    ensures leaves { IfErr result (λ fault. IsKnown (S.state store.old)
        → LeavesBegun options.now.filter base.now state.now save.now (S.state store.old).files
        (S.state store.new).files fault) }
    ensures dropped { IsKnown (S.state store.old)
        → IsDropped ((S.state store.old).files (journal_name_of save.now))
        ((S.state store.new).files (journal_name_of save.now)) dropped.new }
    ensures spends { OnOk result (Spends 3 (S.state store.old).left (S.state store.new).left) }
    ensures first { IfErr result (λ fault. fault ≡ RunFault.ReadFault FileName.State
        → IsKnown (S.state store.old) → HasFewer 1 (S.state store.old).left) }
    ensures calls { IsKnown (S.state store.old) → MakesAtMost IsDeviceFault
        (begin_kept_calls (bytes_in ((S.state store.old).files base.now)))
        (S.state store.old) (S.state store.new) result }
    ensures frame { CallsOften IsDeviceFault (S.state store.old) (S.state store.new) result }
{
    laws_of_kept();
    options.filter.limits();
    *dropped = None;
    let Some(form) = data_form_of(base) else {
        return Err(RunFault::UnknownForm);
    };
    let start = match read_start(alloc, store, state) {
        Ok(start) => start,
        Err(fault) => return Err(fault),
    };
    let Ok(report) = begin_report(alloc, start.sequence()) else {
        return Err(RunFault::WantOfMemory);
    };
    let (head, state_time) = (head_from(&start), compared(&start, options.any_time));
    let wanted = Beginning {
        base,
        form,
        save,
        head,
        filter: &options.filter,
        state_time,
    };
    match begin_beside(alloc, store, &wanted, dropped) {
        Ok(()) => Ok(report),
        Err(fault) => Err(fault),
    }
}

// Writes a save that begins so, and empties the journal beside it before or after that, if it has
// to be.
fn begin_beside<S: Store>(
    alloc: Global,
    store: &mut S,
    wanted: &Beginning<'_>,
    dropped: &mut Option<u32>,
) -> Result<(), RunFault>
    requires end { HasDataEnd wanted.now.base.now wanted.now.form }
    requires none { dropped.old ≡ None }
    ensures puts { PutsWithin (λ n. from_calls n + 3) wanted.now
        (S.state store.old) (S.state store.new) result }
    ensures leaves { IfErr result (LeavesIn wanted.now (S.state store.old) (S.state store.new)) }
    ensures stops { IfErr result (StopsBeside wanted.now (S.state store.old)
        ((S.state store.old).files (journal_name_of wanted.now.save.now))) }
    ensures dropped { IsKnown (S.state store.old)
        → IsDropped ((S.state store.old).files (journal_name_of wanted.now.save.now))
        ((S.state store.new).files (journal_name_of wanted.now.save.now)) dropped.new }
{
    let Ok(journal) = journal_name(alloc, wanted.save) else {
        return Err(RunFault::WantOfMemory);
    };
    let journal = journal.as_str();
    match read_due(alloc, store, wanted, journal) {
        Ok(Due::Never) => begin_in(alloc, store, wanted),
        Ok(Due::Before(last)) => empty_first(alloc, store, wanted, journal, last, dropped),
        Ok(Due::After(last)) => empty_last(alloc, store, wanted, journal, last, true, dropped),
        Ok(Due::Above(last)) => empty_last(alloc, store, wanted, journal, last, false, dropped),
        Err(fault) => Err(fault),
    }
}

// Empties the journal, which ends at that number if it is one, and then writes the save.
fn empty_first<S: Store>(
    alloc: Global,
    store: &mut S,
    wanted: &Beginning<'_>,
    journal: &str,
    last: Option<u32>,
    dropped: &mut Option<u32>,
) -> Result<(), RunFault>
    requires end { HasDataEnd wanted.now.base.now wanted.now.form }
    requires named { journal.now ≡ journal_name_of wanted.now.save.now }
    requires none { dropped.old ≡ None }
    ensures puts { PutsWithin (λ n. from_calls n + 1) wanted.now
        (S.state store.old) (S.state store.new) result }
    ensures leaves { OnErr result (IsKnown (S.state store.old)
        → LeavesOrEmpties wanted.now.save.now (S.state store.old).files (S.state store.new).files) }
    ensures stops { (told : _)
        → IfErr result (StopsBeside wanted.now (S.state store.old) told) }
    ensures dropped { DropsAt journal.now last (S.state store.old) (S.state store.new) dropped.new }
{
    match empty_journal(alloc, store, journal) {
        Ok(()) => {}
        Err(fault) => return Err(fault),
    }
    *dropped = last;
    match begin_in(alloc, store, wanted) {
        Ok(()) => Ok(()),
        Err(fault) => Err(fault),
    }
}

// Writes the save, and then empties the journal, which ends at that number. If that can't be done
// and the journal isn't one of the old save, the fault is the one with which it is refused from
// then on.
fn empty_last<S: Store>(
    alloc: Global,
    store: &mut S,
    wanted: &Beginning<'_>,
    journal: &str,
    last: u32,
    is_own: bool,
    dropped: &mut Option<u32>,
) -> Result<(), RunFault>
    requires named { journal.now ≡ journal_name_of wanted.now.save.now }
    requires none { dropped.old ≡ None }
    ensures puts { PutsWithin (λ n. from_calls n + 1) wanted.now
        (S.state store.old) (S.state store.new) result }
    ensures leaves { IfErr result
        (LeavesLast is_own last wanted.now (S.state store.old) (S.state store.new)) }
    ensures stops { (told : _) → (IsKnown (S.state store.old) → is_own ≡ false
        → IsAbove wanted.now.head wanted.now.filter.now told last)
        → IfErr result (StopsBeside wanted.now (S.state store.old) told) }
    ensures dropped { DropsAt journal.now (Some last)
        (S.state store.old) (S.state store.new) dropped.new }
{
    match begin_in(alloc, store, wanted) {
        Ok(()) => {}
        Err(fault) => return Err(fault),
    }
    match empty_journal(alloc, store, journal) {
        Ok(()) => {
            *dropped = Some(last);
            Ok(())
        }
        Err(fault) if is_own => Err(fault),
        Err(_) => Err(RunFault::OtherJournal(last)),
    }
}
