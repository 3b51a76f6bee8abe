//! What a run of the follower takes after a head, and its report. In memory are the new sequences
//! and the files of one number.

ghost use Rattle.std.specs.Prelude.{◌≡◌, ℕ, ◌+◌, ◌-◌, ◌*◌, ◌<◌, ◌≤◌, List, [], length, None, Some};
ghost use Rattle.std.specs.Prelude.{IfErr, IfOk, IfSome, OnOk, option_map};
ghost use Rattle.osm_model.specs.Limits.{max_file, max_sequence};
ghost use Rattle.osm_store.specs.Files.{HasFewer, Spends, SpendsAtMost};
ghost use Rattle.osm_store.specs.Frames.{IsKnown, MakesAtMost};
ghost use Rattle.osm_blocks.specs.Frames.{ReadsOften};
ghost use Rattle.osm_merge.specs.Calls.{bytes_in, check_calls};
ghost use Rattle.osm_publisher.specs.Published.{PublishedValue, time_at};
ghost use Rattle.osm_runs.specs.Folder.{IsFolderOf, IsStateFile, IsThere};
ghost use Rattle.osm_runs.specs.Following.{IsReached, MissingStops, ranges};
ghost use Rattle.osm_runs.specs.Names.{top_name_of};
ghost use Rattle.osm_runs.specs.Runs.{IsDeviceFault, ReadsUpTo};
ghost use Rattle.osm_runs.specs.Reports.{ReportValue, applied_report_of, report_of};
ghost use Rattle.osm_runs.specs.declared.options.Layout.TheVariants.{Lines};
ghost use Rattle.osm_round.specs.Gathering.{GathersIn, IsBegunUpTo};
ghost use Rattle.osm_round.specs.News.{came_to};
ghost use Rattle.osm_round.specs.Rounds.{BeforeStops, IsPrepared, IsReport, IsWhole, PrepareStops};
ghost use Rattle.osm_round.specs.Rounds.{UpToStops, outcome_of, progress_of, room_of};
ghost use Rattle.osm_round.specs.Starting.{WholeStops};

use crate::gathered::Gathered;
use crate::taken::{Bounds, End, Taken, take_numbers};
use osm_merge::check::check_save;
use osm_merge::fault::MergeFault;
use osm_model::memory::WantOfMemory;
use osm_runs::fault::RunFault;
use osm_runs::missing::missing;
use osm_runs::options::{FollowOptions, Layout, last_number};
use osm_runs::progress::Progress;
use osm_runs::report::{Report, applied_report, fault_text, follow_in};
use osm_runs::save_fault::read_fault;
use osm_runs::standing::standing_from;
use osm_runs::top::find_top;
use osm_save::head::Head;
use osm_state::laws::laws_of_state;
use osm_state::state::State;
use osm_store::store::Store;
use std::alloc::Global;

// The bytes of change files after which a run that reports in lines takes no further number. What
// is new is in memory, so this bounds what a run holds. A report in JSON is of all that there is.
const MAX_ROUND: u64 = 16_777_216;

// How a run ends.
#[derive(Drop)]
pub(crate) enum Ending {
    /// At the last number, or before a missing one.
    Whole,
    /// After `count` numbers, once their change files fill a part. `applied` has the lines of these
    /// numbers.
    Part { applied: Report, count: u32 },
    /// Before a number with this fault.
    Before(RunFault),
}

// What a run saves and prints, and how it ends.
#[derive(Drop)]
pub(crate) struct Prepared {
    pub(crate) taken: Taken,
    pub(crate) report: Report,
    pub(crate) ending: Ending,
}

// What a report says besides how far a run came: the head that the run started from, the newest
// state, and the layout.
#[derive(Clone, Copy)]
struct Basis {
    start: Head,
    top: State,
    layout: Layout,
}

pub(crate) fn progress_of(report: Report, ending: Ending) -> Progress
    ensures { result ≡ progress_of report ending }
{
    match ending {
        Ending::Whole => Progress::Whole(report),
        Ending::Part { applied, count } => Progress::Part {
            report,
            applied,
            count,
        },
        Ending::Before(fault) => Progress::Before(report, fault),
    }
}

// The bytes that a run takes at once.
fn room_of(layout: Layout) -> Option<u64>
    ensures { result ≡ room_of layout }
{
    match layout {
        Layout::Lines => Some(MAX_ROUND),
        Layout::Json => None,
    }
}

// Refuses a save that is no save text.
pub(crate) fn check_whole<S: Store>(
    alloc: Global,
    store: &mut S,
    save: &str,
) -> Result<(), RunFault>
    ensures whole { OnOk result (IsKnown (S.state store.old)
        → IsWhole ((S.state store.old).files save.now)) }
    ensures stops { IfErr result (WholeStops (IsKnown (S.state store.old))
        ((S.state store.old).files save.now)) }
    ensures frame { ReadsOften IsDeviceFault (S.state store.old) (S.state store.new) result }
    ensures calls { IsKnown (S.state store.old) → IfErr result (λ fault. IsDeviceFault fault
        → HasFewer (check_calls (bytes_in ((S.state store.old).files save.now)))
        (S.state store.old).left) }
{
    match check_save(alloc, store, save) {
        Ok(_) | Err(MergeFault::NoSave) => Ok(()),
        Err(fault) => Err(read_fault(fault)),
    }
}

// Takes what there is to take, gathers it, and makes the report. None if nothing was published.
pub(crate) fn prepare_with<S: Store>(
    alloc: Global,
    store: &mut S,
    dir: &str,
    start: Head,
    options: &FollowOptions,
    gathered: &mut Gathered,
) -> Result<Option<Prepared>, RunFault>
    requires number { start.number ≤ max_sequence }
    requires begun { IsBegunUpTo gathered.old.left gathered.old }
    requires left { gathered.old.left ≤ max_file }
    ensures gathered { IfOk result (λ o. IfSome o (λ p. GathersIn (IsKnown (S.state store.old))
        (S.state store.old).files dir.now options.now.filter start gathered.old.left
        (came_to options.now.filter p.taken) gathered.new)) }
    ensures prepared { IfOk result (λ o. IfSome o (IsPrepared (IsKnown (S.state store.old))
        options.now dir.now (S.state store.old).files start)) }
    ensures none { IfOk result (λ o. o ≡ None → IsKnown (S.state store.old)
        → (S.state store.old).files (top_name_of dir.now) ≡ None) }
    ensures spends { OnOk result (Spends 1 (S.state store.old).left (S.state store.new).left) }
    ensures few { IfOk result (λ o. o ≡ None
        → SpendsAtMost 1 (S.state store.old).left (S.state store.new).left) }
    ensures calls { IsKnown (S.state store.old) → (published : List PublishedValue)
        → IsFolderOf published (S.state store.old).files dir.now
        → start.time ≡ time_at published start.number
        → MakesAtMost IsDeviceFault (1 + 3 * (length published - start.number))
        (S.state store.old) (S.state store.new) result }
    ensures stops { IfErr result (PrepareStops (IsKnown (S.state store.old)) options.now dir.now
        (S.state store.old).files start) }
    ensures frame { ReadsOften IsDeviceFault (S.state store.old) (S.state store.new) result }
{
    let Some(top) = find_top(alloc, store, dir)? else {
        return Ok(None);
    };
    let prepared = prepare_up_to(alloc, store, dir, start, options, top, gathered)?;
    Ok(Some(prepared))
}

// The same, up to the newest state or the limit.
fn prepare_up_to<S: Store>(
    alloc: Global,
    store: &mut S,
    dir: &str,
    start: Head,
    options: &FollowOptions,
    top: State,
    gathered: &mut Gathered,
) -> Result<Prepared, RunFault>
    requires number { start.number ≤ max_sequence }
    requires begun { IsBegunUpTo gathered.old.left gathered.old }
    requires left { gathered.old.left ≤ max_file }
    requires top { IsKnown (S.state store.old)
        → IsThere ((S.state store.old).files (top_name_of dir.now))
        (IsStateFile top.sequence top.time) }
    ensures prepared { IfOk result (IsPrepared (IsKnown (S.state store.old)) options.now dir.now
        (S.state store.old).files start) }
    ensures gathered { IfOk result (λ p. GathersIn (IsKnown (S.state store.old))
        (S.state store.old).files dir.now options.now.filter start gathered.old.left
        (came_to options.now.filter p.taken) gathered.new) }
    ensures stops { IfErr result (UpToStops (IsKnown (S.state store.old)) options.now dir.now
        (S.state store.old).files start) }
    ensures frame { ReadsOften IsDeviceFault (S.state store.old) (S.state store.new) result }
    ensures calls { IsKnown (S.state store.old) → (published : List PublishedValue)
        → IsFolderOf published (S.state store.old).files dir.now
        → start.time ≡ time_at published start.number
        → MakesAtMost IsDeviceFault (3 * (length published - start.number))
        (S.state store.old) (S.state store.new) result }
{
    laws_of_state();
    if top.sequence() < start.number {
        return Err(RunFault::TopBehind);
    }
    let last = last_number(options.limit, start.number, top.sequence());
    let mut taken = Taken::after(alloc, start);
    let room = room_of(options.layout);
    let bounds = Bounds { last, room };
    let layout = options.layout;
    let basis = Basis { start, top, layout };
    match take_numbers(
        alloc,
        store,
        dir,
        bounds,
        &options.filter,
        &mut taken,
        gathered,
    )? {
        End::Reached => reached(alloc, store, dir, last, basis, taken),
        End::Full => part(alloc, basis, taken),
        End::Faulty(fault) => before(alloc, basis, taken, fault),
    }
}

// The report of a run that reached the last number, or comes to a lost one.
fn reached<S: Store>(
    alloc: Global,
    store: &mut S,
    dir: &str,
    last: u32,
    basis: Basis,
    taken: Taken,
) -> Result<Prepared, RunFault>
    requires from { basis.start.number ≤ taken.head.number }
    requires until { taken.head.number ≤ last }
    requires below { last ≤ basis.top.sequence }
    requires most { last ≤ max_sequence }
    requires reached { IsKnown (S.state store.old)
        → IsReached (S.state store.old).files dir.now taken.head.number last }
    ensures taken { IfOk result (λ p. p.taken ≡ taken) }
    ensures whole { IfOk result (λ p. p.ending ≡ Ending.Whole) }
    ensures report { IfOk result (λ p. (count : ℕ) → taken.head.number ≡ basis.start.number + count
        → IsReport (IsKnown (S.state store.old)) basis.layout (S.state store.old).files dir.now
        basis.start basis.top last count taken.head Ending.Whole p.report) }
    ensures stops { IfErr result (MissingStops (IsKnown (S.state store.old)) dir.now
        (S.state store.old).files taken.head.number last) }
    ensures frame { ReadsUpTo (3 * (last - (taken.head.number + 1)))
        (S.state store.old) (S.state store.new) result }
{
    let missing = missing(alloc, store, dir, taken.head.number, last)?;
    let report = report_of(alloc, basis, taken.head, missing.as_slice(), None)?;
    Ok(Prepared {
        taken,
        report,
        ending: Ending::Whole,
    })
}

// The reports of a run that takes no further number: that of a run with what it took as the limit,
// and that of what it applied alone.
fn part(alloc: Global, basis: Basis, taken: Taken) -> Result<Prepared, RunFault>
    requires from { basis.start.number < taken.head.number }
    requires below { taken.head.number ≤ basis.top.sequence }
    requires most { taken.head.number ≤ max_sequence }
    ensures taken { IfOk result (λ p. p.taken ≡ taken) }
    ensures part { IfOk result (λ p. (count : ℕ) → taken.head.number ≡ basis.start.number + count
        → (applied : ReportValue) × (p.ending ≡ Ending.Part applied count)
        × (applied ≡ applied_report_of (ranges basis.start.number count))
        × (p.report ≡ report_of basis.layout None
        (outcome_of taken.head basis.top basis.start count []))) }
    ensures memory { IfErr result (λ fault. fault ≡ RunFault.WantOfMemory) }
{
    let ranges = ranges(alloc, basis.start.number, taken.head.number)?;
    let applied = applied_report(alloc, ranges.as_slice())?;
    let count = taken.head.number - basis.start.number;
    let report = report_of(alloc, basis, taken.head, &[], None)?;
    Ok(Prepared {
        taken,
        report,
        ending: Ending::Part { applied, count },
    })
}

// The report of what comes before a faulty number, whose fault refuses the run if nothing does.
fn before(alloc: Global, basis: Basis, taken: Taken, fault: RunFault) -> Result<Prepared, RunFault>
    requires from { basis.start.number ≤ taken.head.number }
    requires below { taken.head.number ≤ basis.top.sequence }
    requires most { taken.head.number ≤ max_sequence }
    ensures taken { IfOk result (λ p. p.taken ≡ taken) }
    ensures fault { IfOk result (λ p. p.ending ≡ Ending.Before fault) }
    ensures some { IfOk result (λ p. basis.start.number < taken.head.number) }
    ensures report { IfOk result (λ p. (count : ℕ) → taken.head.number ≡ basis.start.number + count
        → (said : List ℕ) × (p.report ≡ report_of basis.layout (Some said)
        (outcome_of taken.head basis.top basis.start count []))) }
    ensures stops { IfErr result (BeforeStops basis.start taken.head fault) }
{
    if taken.head.number == basis.start.number {
        return Err(fault);
    }
    let said = fault_text(alloc, fault)?;
    let report = report_of(alloc, basis, taken.head, &[], Some(said.as_str()))?;
    Ok(Prepared {
        taken,
        report,
        ending: Ending::Before(fault),
    })
}

// The report of a run that came to that head, with the missing numbers and the text of its fault.
fn report_of(
    alloc: Global,
    basis: Basis,
    head: Head,
    missing: &[u32],
    said: Option<&str>,
) -> Result<Report, WantOfMemory>
    requires from { basis.start.number ≤ head.number }
    requires below { head.number ≤ basis.top.sequence }
    requires most { head.number ≤ max_sequence }
    ensures { IfOk result (λ report. (count : ℕ) → head.number ≡ basis.start.number + count
        → report ≡ report_of basis.layout (option_map (λ s. s.now) said.entry)
        (outcome_of head basis.top basis.start count missing.now)) }
{
    let applied = ranges(alloc, basis.start.number, head.number)?;
    let standing = standing_from(head, &basis.top);
    follow_in(
        alloc,
        basis.layout,
        standing,
        applied.as_slice(),
        missing,
        said,
    )
}

// The numbers from one to another, each as a range of its own.
fn ranges(alloc: Global, from: u32, to: u32) -> Result<Vec<(u32, u32)>, WantOfMemory>
    requires below { from ≤ to }
    requires most { to ≤ max_sequence }
    ensures { IfOk result (λ v. (count : ℕ) → from + count ≡ to → v.items ≡ ranges from count) }
{
    let mut ranges = Vec::new(alloc);
    for before in from..to {
        ranges.push((before + 1, before + 1))?;
    }
    Ok(ranges)
}
