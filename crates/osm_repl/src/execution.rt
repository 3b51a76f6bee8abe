//! Carrying out the order of a command line.

ghost use Rattle.std.specs.Prelude.{◌≡◌, ◌≤◌, None, IfOk, IfErr};
ghost use Rattle.osm_model.specs.Limits.{max_file};
ghost use Rattle.osm_store.specs.Frames.{IsKnown};
ghost use Rattle.osm_runs.specs.Runs.{Blames};
ghost use Rattle.osm_round.specs.Rounds.{MayTakeMore, IsLess};
ghost use Rattle.osm_repl.specs.Carrying.{AreNotes, IsCarriedOut, IsNotCarriedOut, seen};
ghost use Rattle.osm_repl.specs.Execution.{AfterParts, CarriesOut, Does, DoesOver, Drops};
ghost use Rattle.osm_repl.specs.Execution.{HasFollowed, IsDone, IsFollow, IsNotDone};
ghost use Rattle.osm_repl.specs.Execution.{IsNotReplayed, IsOtherRun, IsOverFiles, IsReplayed};
ghost use Rattle.osm_repl.specs.Execution.{IsReportOf, IsStep, IsStepLess, Leaves, RunStops};
ghost use Rattle.osm_repl.specs.Execution.{StopsOver, execution_of, layout_of, left_of};
ghost use Rattle.osm_repl.specs.Ranges.{LeavesFiles};

use crate::asking::{Search, get_and_print};
use crate::auditing::audit_and_print;
use crate::notes::Notes;
use crate::order_fault::OrderFault;
use crate::printing::{print, tell_fault};
use crate::ranges::{changes_and_print, tally_and_print};
use crate::summing::sum_and_print;
use osm_beginning::kept::{BeginOptions, begin_kept};
use osm_exporting::kept::export_kept;
use osm_kept::laws::laws_of_kept;
use osm_model::limits::MAX_SEQUENCE;
use osm_printing::kept::show_kept;
use osm_publishing::convert::convert_run;
use osm_publishing::lag::lag_run;
use osm_publishing::publish::publish_run;
use osm_publishing::publish_as::publish_as_run;
use osm_round::kept::{Sizes, follow_kept};
use osm_runs::fault::RunFault;
use osm_runs::options::{FollowOptions, Layout};
use osm_runs::progress::Progress;
use osm_runs::report::Report;
use osm_runs::writing::write_text;
use osm_script::fault::ScriptFault;
use osm_script::replay::replay_run;
use osm_store::store::Store;
use osm_words::orders::Order;
use std::alloc::Global;
use std::hash::RandomState;
use std::io::{Read, Write};

/// How an order is carried out.
#[derive(Drop)]
pub struct Settings<'a> {
    pub options: FollowOptions,
    /// The sizes of a save and its journal.
    pub sizes: Sizes,
    /// The objects or ids that are asked for.
    pub sought: &'a [&'a str],
    /// The seed of the table of objects of `changes`; nothing else is hashed. Each such run needs
    /// one of its own that nobody can guess: whoever edits the folder could choose ids that all
    /// have one hash.
    pub hashing: RandomState,
}

/// Carries out an order of the command line over the files of the store, writes its report to
/// `writer`, and gives the exit status of the program. A replay uses no file: it reads its script
/// from `reader`, and writes its replies to `writer`. Only `get` reads `reader` too, to its end,
/// for the first word `-`; a second one names nothing.
///
/// `follow` and `begin` write their save under the filter of the options, and `changes` its file.
/// `follow`, `counts` and `fingerprint` also go by their limit, and `follow`, `lag`, `audit`,
/// `changes`, `tally`, `get` and `counts` by their layout. `get` and `counts` are asked for
/// `settings.sought`; the object or id that they refuse is left in `notes.word`. A save always
/// means the save with its journal. `follow` rewrites a save of more than `sizes.small` bytes only
/// if the journal would have more than `sizes.most` bytes, which are at most 64 MiB. `begin`
/// empties a journal that is bad or ends above its save. `notes.dropped` then gets the number at
/// which the journal ended, also after a fault.
///
/// Most orders write their report at the end. `show` checks the save and its journal first, and
/// then writes while it reads the save again. `follow` works in parts: each part is kept, and the
/// numbers that it applied are written, before the next part begins. `changes` and `tally` end
/// before a missing or faulty number, with what the numbers before it have. `notes.lines` gets the
/// numbers that `tally` misses, a line `missing K` each, and the objects of `get` that aren't
/// there, a line `n7: not there` each, also after a fault. `get` writes each object as soon as it
/// is found.
///
/// Only a replay has the fault of a script. After a fault nothing was written to `writer`, with
/// these exceptions:
///
/// - `WriteFault(Output)`, and the `WriteFault` of a replay, leave a prefix of the report or of the
///   replies. The files that the run wrote stay.
/// - If `show` can't read its save again, a prefix was written.
/// - What `follow` applied in earlier parts is written and kept. `follow`, `changes` and `tally`
///   may also end with the fault of a faulty number, after they kept and reported the numbers
///   before.
/// - `tally` may run out of memory for the lines on missing numbers after it wrote its rows.
/// - `get` wrote the objects before the one that it couldn't look for or write, or before the line
///   of `reader` that names none.
/// - In JSON the line of `fault_report` is written, or for an audit that of `audit_fault_line`, and
///   for `changes` that of `changes_fault_report`, as far as `writer` takes it. It isn't if memory
///   was refused for the run or for the line. `tally` and what asks a save write none.
pub fn execute<S: Store, R: Read, W: Write>(
    alloc: Global,
    order: Order<'_>,
    settings: Settings<'_>,
    store: &mut S,
    reader: &mut R,
    writer: &mut W,
    notes: &mut Notes,
) -> Result<u8, OrderFault>
    requires most { settings.sizes.most ≤ max_file }
    ensures done { IfOk result (IsCarriedOut settings.entry order.entry
        (seen (S.state store.old) (R.remaining reader.old) (W.contents writer.old))
        (seen (S.state store.new) (R.remaining reader.new) (W.contents writer.new)) notes.new) }
    ensures not_done { IfErr result (IsNotCarriedOut settings.entry order.entry
        (seen (S.state store.old) (R.remaining reader.old) (W.contents writer.old))
        (seen (S.state store.new) (R.remaining reader.new) (W.contents writer.new)) notes.new) }
    ensures unchanged { LeavesFiles order.entry
        → (S.state store.new).files ≡ (S.state store.old).files }
    ensures silent { IsOverFiles order.entry → reader.new ≡ reader.old }
    ensures idle { order.entry ≡ Order.Replay → store.new ≡ store.old }
    ensures notes { AreNotes order.entry (S.state store.old) (S.state store.new) notes.new result }
    ensures frame { CarriesOut order.entry (S.state store.old) (S.state store.new) result }
{
    let Settings {
        options,
        sizes,
        sought,
        hashing,
    } = settings;
    *notes = Notes::new(alloc);
    match order {
        Order::Replay => Ok(replay(alloc, reader, writer)?),
        Order::Follow { .. } => {
            Ok(follow_and_print(alloc, order, options, sizes, store, writer)?)
        }
        Order::Audit { dir, from, to } => {
            let layout = options.layout;
            Ok(audit_and_print(alloc, dir, from, to, layout, store, writer)?)
        }
        Order::Show { save } => {
            show_kept(alloc, store, save, writer)?;
            Ok(0)
        }
        Order::Changes { .. } => {
            Ok(changes_and_print(alloc, order, &options, hashing, store, writer)?)
        }
        Order::Tally { .. } => {
            let layout = options.layout;
            Ok(tally_and_print(alloc, order, layout, store, writer, notes)?)
        }
        Order::Get { .. } => {
            let search = Search {
                words: sought,
                layout: options.layout,
            };
            Ok(get_and_print(alloc, order, search, store, reader, writer, notes)?)
        }
        Order::Counts { .. } | Order::Fingerprint { .. } => {
            let noted = &mut notes.word;
            Ok(sum_and_print(alloc, order, sought, &options, store, writer, noted)?)
        }
        _ => {
            let dropped = &mut notes.dropped;
            Ok(run_and_print(alloc, order, options, sizes, store, writer, dropped)?)
        }
    }
}

fn replay<R: Read, W: Write>(
    alloc: Global,
    reader: &mut R,
    writer: &mut W,
) -> Result<u8, ScriptFault>
    ensures done { IfOk result (IsReplayed (R.remaining reader.old)
        (W.contents writer.old) (W.contents writer.new)) }
    ensures not_done { IfErr result
        (IsNotReplayed (R.remaining reader.old) (R.remaining reader.new)
        (W.contents writer.old) (W.contents writer.new)) }
{
    replay_run(alloc, reader, writer)?;
    Ok(0)
}

fn run_and_print<S: Store, W: Write>(
    alloc: Global,
    order: Order<'_>,
    options: FollowOptions,
    sizes: Sizes,
    store: &mut S,
    writer: &mut W,
    dropped: &mut Option<u32>,
) -> Result<u8, RunFault>
    requires other { IsOtherRun order }
    requires none { dropped.old ≡ None }
    ensures done { IfOk result (IsDone (execution_of options sizes order.entry
        (S.state store.old) (S.state store.new)) (W.contents writer.old) (W.contents writer.new)) }
    ensures not_done { IfErr result (IsNotDone (execution_of options sizes order.entry
        (S.state store.old) (S.state store.new)) (W.contents writer.old) (W.contents writer.new)) }
    ensures unchanged { LeavesFiles order.entry
        → (S.state store.new).files ≡ (S.state store.old).files }
    ensures dropped { IsKnown (S.state store.old) → Drops order.entry (S.state store.old).files
        (S.state store.new).files dropped.new }
    ensures frame { CarriesOut order.entry (S.state store.old) (S.state store.new) result }
{
    let layout = layout_of(&options, order);
    match run(alloc, order, options, sizes, store, dropped) {
        Ok(report) => print(writer, &report),
        Err(fault) => Err(tell_fault(alloc, order, layout, fault, writer)),
    }
}

// What a step of the word `follow` came to.
enum Step {
    /// The run took all that there was, and ends with this status.
    Done(u8),
    /// The run took a part, which has this many numbers.
    PartDone(u32),
}

// Follows part after part, each of which is saved and printed before the next one begins.
fn follow_and_print<S: Store, W: Write>(
    alloc: Global,
    order: Order<'_>,
    options: FollowOptions,
    sizes: Sizes,
    store: &mut S,
    writer: &mut W,
) -> Result<u8, RunFault>
    requires follow { IsFollow order }
    requires most { sizes.most ≤ max_file }
    ensures done { IfOk result (λ status. AfterParts (execution_of options sizes order.entry
        (S.state store.old) (S.state store.new)) (W.contents writer.old)
        (λ rest printed. IsDone rest printed (W.contents writer.new) status)) }
    ensures not_done { IfErr result (λ fault. AfterParts (execution_of options sizes order.entry
        (S.state store.old) (S.state store.new)) (W.contents writer.old)
        (λ rest printed. IsNotDone rest printed (W.contents writer.new) fault)) }
    ensures frame { CarriesOut order.entry (S.state store.old) (S.state store.new) result }
{
    let mut options = options;
    'parts: loop {
        match follow_step(alloc, order, &options, sizes, store, writer) {
            Ok(Step::Done(status)) => return Ok(status),
            Ok(Step::PartDone(count)) => options.limit = Some(left_of(options.limit, count)),
            Err(fault) => return Err(fault),
        }
    }
}

// What is left of a limit after so many numbers.
fn left_of(limit: Option<u32>, count: u32) -> u32
    requires { MayTakeMore limit count }
    ensures { result ≡ left_of limit count }
{
    match limit {
        Some(limit) => limit - count,
        None => MAX_SEQUENCE - count,
    }
}

// Follows all that there is, or a part of it, and prints that.
fn follow_step<S: Store, W: Write>(
    alloc: Global,
    order: Order<'_>,
    options: &FollowOptions,
    sizes: Sizes,
    store: &mut S,
    writer: &mut W,
) -> Result<Step, RunFault>
    requires follow { IsFollow order }
    requires most { sizes.most ≤ max_file }
    ensures step { IfOk result (IsStep (execution_of options.now sizes order.entry
        (S.state store.old) (S.state store.new)) (W.contents writer.old) (W.contents writer.new)) }
    ensures less { IfOk result (IsStepLess options.now.limit) }
    ensures not_done { IfErr result (IsNotDone (execution_of options.now sizes order.entry
        (S.state store.old) (S.state store.new)) (W.contents writer.old) (W.contents writer.new)) }
    ensures frame { CarriesOut order.entry (S.state store.old) (S.state store.new) result }
{
    match follow(alloc, order, options, sizes, store) {
        Ok(Progress::Whole(report)) => Ok(Step::Done(print(writer, &report)?)),
        Ok(Progress::Part { applied, count, .. }) => {
            write_text(writer, applied.text())?;
            Ok(Step::PartDone(count))
        }
        Ok(Progress::Before(report, fault)) => {
            write_text(writer, report.text())?;
            Err(fault)
        }
        Err(fault) => {
            let layout = layout_of(options, order);
            Err(tell_fault(alloc, order, layout, fault, writer))
        }
    }
}

// The layout of the order's report.
fn layout_of(options: &FollowOptions, order: Order<'_>) -> Layout
    ensures { result ≡ layout_of options.now order.entry }
{
    match order {
        Order::Follow { .. } | Order::Lag { .. } => options.layout,
        _ => Layout::Lines,
    }
}

// The report of an order's run.
fn run<S: Store>(
    alloc: Global,
    order: Order<'_>,
    options: FollowOptions,
    sizes: Sizes,
    store: &mut S,
    dropped: &mut Option<u32>,
) -> Result<Report, RunFault>
    requires other { IsOtherRun order }
    requires none { dropped.old ≡ None }
    ensures does { IfOk result (λ report. IsKnown (S.state store.old) → Does options sizes
        order.entry (S.state store.old).files (S.state store.new).files report) }
    ensures over { IfOk result (λ report. IsKnown (S.state store.old)
        → DoesOver options order.entry (S.state store.old).files (S.state store.new).files report) }
    ensures report { IfOk result (IsReportOf options order.entry) }
    ensures stops { IfErr result (RunStops (IsKnown (S.state store.old)) options sizes order.entry
        (S.state store.old).files (S.state store.new).files) }
    ensures refuses { IfErr result (λ fault. IsKnown (S.state store.old)
        → StopsOver options order.entry (S.state store.old).files (S.state store.new).files fault) }
    ensures leaves { IfErr result (Leaves (IsKnown (S.state store.old)) options order.entry
        (S.state store.old).files (S.state store.new).files) }
    ensures device { IfErr result
        (Blames (S.state store.old).failures (S.state store.new).failures) }
    ensures unchanged { LeavesFiles order.entry
        → (S.state store.new).files ≡ (S.state store.old).files }
    ensures dropped { IsKnown (S.state store.old) → Drops order.entry (S.state store.old).files
        (S.state store.new).files dropped.new }
    ensures frame { CarriesOut order.entry (S.state store.old) (S.state store.new) result }
{
    match order {
        Order::Publish { dir, changes, now } => publish_run(alloc, store, dir, changes, now),
        Order::PublishAs {
            dir,
            changes,
            now,
            sequence,
        } => publish_as_run(alloc, store, dir, changes, now, sequence),
        Order::Begin { base, state, save } => {
            laws_of_kept();
            let options = BeginOptions {
                filter: options.filter,
                any_time: options.any_time,
            };
            begin_kept(alloc, store, base, state, save, &options, dropped)
        }
        Order::Lag { dir, save } => lag_run(alloc, store, dir, save, options.layout),
        Order::Export { save, output } => export_kept(alloc, store, save, output),
        Order::Convert { input, output } => convert_run(alloc, store, input, output),
        Order::Follow { .. } | Order::Show { .. } | Order::Audit { .. } | Order::Replay => {
            unreachable!()
        }
        Order::Changes { .. } | Order::Tally { .. } | Order::Get { .. } => unreachable!(),
        Order::Counts { .. } | Order::Fingerprint { .. } => unreachable!(),
    }
}

// What the word `follow` did.
fn follow<S: Store>(
    alloc: Global,
    order: Order<'_>,
    options: &FollowOptions,
    sizes: Sizes,
    store: &mut S,
) -> Result<Progress, RunFault>
    requires follow { IsFollow order }
    requires most { sizes.most ≤ max_file }
    ensures followed { IfOk result (HasFollowed (execution_of options.now sizes order.entry
        (S.state store.old) (S.state store.new))) }
    ensures less { IfOk result (IsLess options.now.limit) }
    ensures stops { IfErr result (RunStops (IsKnown (S.state store.old)) options.now sizes
        order.entry (S.state store.old).files (S.state store.new).files) }
    ensures refuses { IfErr result (λ fault. IsKnown (S.state store.old) → StopsOver options.now
        order.entry (S.state store.old).files (S.state store.new).files fault) }
    ensures leaves { IfErr result (Leaves (IsKnown (S.state store.old)) options.now order.entry
        (S.state store.old).files (S.state store.new).files) }
    ensures device { IfErr result
        (Blames (S.state store.old).failures (S.state store.new).failures) }
    ensures frame { CarriesOut order.entry (S.state store.old) (S.state store.new) result }
{
    match order {
        Order::Follow { dir, save } => follow_kept(alloc, store, dir, save, options, &sizes),
        _ => unreachable!(),
    }
}
