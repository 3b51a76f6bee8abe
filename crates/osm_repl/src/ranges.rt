//! Reading a range of a folder's numbers: the words `changes` and `tally`.

ghost use Rattle.std.specs.Prelude.{◌≡◌, [], IfErr, IfOk, OnErr, codes, string_bytes};
ghost use Rattle.std.specs.List.{flat_map};
ghost use Rattle.osm_reading.specs.NumberLines.{numbered_line};
ghost use Rattle.osm_runs.specs.Runs.{Blames};
ghost use Rattle.osm_repl.specs.Execution.{CarriesOut};
ghost use Rattle.osm_repl.specs.Ranges.{CutsTally, EndsTally, FailsTally, HandsOn, IsChanged};
ghost use Rattle.osm_repl.specs.Ranges.{IsChanges, IsNotChanged, IsNotTallied, IsTally};
ghost use Rattle.osm_repl.specs.Ranges.{IsTallyDone, PrintsTally, StopsChanges, StopsTally};
ghost use Rattle.osm_repl.specs.Ranges.{Tallies};

use crate::notes::Notes;
use crate::numbers::range_of;
use crate::printing::{print, tell_fault};
use osm_model::memory::WantOfMemory;
use osm_range::changes::{ChangesOptions, changes_run};
use osm_range::columns::columns_of;
use osm_range::range::Ending;
use osm_range::tally::{Tallied, tally_run};
use osm_reading::number_lines::write_numbered_lines;
use osm_runs::fault::RunFault;
use osm_runs::options::{FollowOptions, Layout};
use osm_runs::progress::Progress;
use osm_runs::writing::write_text;
use osm_store::store::Store;
use osm_words::orders::Order;
use std::alloc::Global;
use std::hash::RandomState;
use std::io::Write;

// Writes what a range of numbers changes, prints the report, and gives the status.
pub(crate) fn changes_and_print<S: Store, W: Write>(
    alloc: Global,
    order: Order<'_>,
    options: &FollowOptions,
    hashing: RandomState,
    store: &mut S,
    writer: &mut W,
) -> Result<u8, RunFault>
    requires { IsChanges order }
    ensures done { IfOk result (IsChanged options.now order.entry (S.state store.old)
        (S.state store.new) (W.contents writer.old) (W.contents writer.new)) }
    ensures not_done { IfErr result (IsNotChanged options.now order.entry (S.state store.old)
        (S.state store.new) (W.contents writer.old) (W.contents writer.new)) }
    ensures frame { CarriesOut order.entry (S.state store.old) (S.state store.new) result }
{
    match changes(alloc, order, options, hashing, store) {
        Ok(Progress::Whole(report)) => print(writer, &report),
        Ok(Progress::Part { .. }) => unreachable!(),
        Ok(Progress::Before(report, fault)) => {
            write_text(writer, report.text())?;
            Err(fault)
        }
        Err(fault) => Err(tell_fault(alloc, order, options.layout, fault, writer)),
    }
}

// What the word `changes` did.
fn changes<S: Store>(
    alloc: Global,
    order: Order<'_>,
    options: &FollowOptions,
    hashing: RandomState,
    store: &mut S,
) -> Result<Progress, RunFault>
    requires { IsChanges order }
    ensures handed { IfOk result
        (HandsOn options.now order.entry (S.state store.old) (S.state store.new)) }
    ensures stops { IfErr result (StopsChanges order.entry (S.state store.old)) }
    ensures leaves { OnErr result ((S.state store.new).files ≡ (S.state store.old).files) }
    ensures device { IfErr result
        (Blames (S.state store.old).failures (S.state store.new).failures) }
    ensures frame { CarriesOut order.entry (S.state store.old) (S.state store.new) result }
{
    let Order::Changes {
        dir,
        output,
        from,
        to,
    } = order
    else {
        unreachable!()
    };
    let range = match range_of(from, to) {
        Ok(range) => range,
        Err(fault) => return Err(fault),
    };
    let options = ChangesOptions {
        filter: &options.filter,
        layout: options.layout,
        hashing,
    };
    changes_run(alloc, store, dir, output, range, options)
}

// Counts what a range of numbers changes, prints the rows, notes which numbers are missing, and
// gives the status. After a fault nothing is noted.
pub(crate) fn tally_and_print<S: Store, W: Write>(
    alloc: Global,
    order: Order<'_>,
    layout: Layout,
    store: &mut S,
    writer: &mut W,
    notes: &mut Notes,
) -> Result<u8, RunFault>
    requires tally { IsTally order }
    requires unnoted { notes.old.lines.items ≡ [] }
    ensures done { IfOk result (IsTallyDone layout order.entry (S.state store.old)
        (W.contents writer.old) (W.contents writer.new) notes.new.lines.items) }
    ensures not_done { IfErr result (IsNotTallied layout order.entry (S.state store.old)
        (S.state store.new) (W.contents writer.old) (W.contents writer.new)) }
    ensures unnoted { OnErr result (notes.new.lines.items ≡ []) }
    ensures dropped { notes.new.dropped ≡ notes.old.dropped }
    ensures word { string_bytes notes.new.word ≡ string_bytes notes.old.word }
    ensures files { (S.state store.new).files ≡ (S.state store.old).files }
    ensures frame { CarriesOut order.entry (S.state store.old) (S.state store.new) result }
{
    match tally(alloc, order, layout, store) {
        Ok(tallied) => print_tallied(alloc, &tallied, writer, notes),
        Err(fault) => Err(fault),
    }
}

// What the word `tally` counted.
fn tally<S: Store>(
    alloc: Global,
    order: Order<'_>,
    layout: Layout,
    store: &mut S,
) -> Result<Tallied, RunFault>
    requires { IsTally order }
    ensures tallied { IfOk result (λ tallied. Tallies layout order.entry (S.state store.old)
        tallied.text.items tallied.reached) }
    ensures stops { IfErr result (StopsTally order.entry (S.state store.old)) }
    ensures device { IfErr result
        (Blames (S.state store.old).failures (S.state store.new).failures) }
    ensures files { (S.state store.new).files ≡ (S.state store.old).files }
    ensures frame { CarriesOut order.entry (S.state store.old) (S.state store.new) result }
{
    let Order::Tally { dir, from, to, by } = order else {
        unreachable!()
    };
    let columns = match columns_of(by) {
        Ok(columns) => columns,
        Err(fault) => return Err(fault),
    };
    let range = match range_of(from, to) {
        Ok(range) => range,
        Err(fault) => return Err(fault),
    };
    tally_run(alloc, store, dir, range, columns, layout)
}

fn print_tallied<W: Write>(
    alloc: Global,
    tallied: &Tallied,
    writer: &mut W,
    notes: &mut Notes,
) -> Result<u8, RunFault>
    requires { notes.old.lines.items ≡ [] }
    ensures prints { IfOk result (PrintsTally tallied.now.text.items tallied.now.reached.ending
        (W.contents writer.old) (W.contents writer.new) notes.new.lines.items) }
    ensures cuts { IfErr result (CutsTally tallied.now.text.items tallied.now.reached.ending
        (W.contents writer.old) (W.contents writer.new)) }
    ensures unnoted { OnErr result (notes.new.lines.items ≡ []) }
    ensures dropped { notes.new.dropped ≡ notes.old.dropped }
    ensures word { string_bytes notes.new.word ≡ string_bytes notes.old.word }
{
    write_text(writer, tallied.text.as_slice())?;
    note(alloc, &tallied.reached.ending, notes)
}

// Notes which numbers are missing, and gives the status.
fn note(alloc: Global, ending: &Ending, notes: &mut Notes) -> Result<u8, RunFault>
    requires { notes.old.lines.items ≡ [] }
    ensures ends { IfOk result (λ status. EndsTally ending.now status notes.new.lines.items) }
    ensures fails { IfErr result (FailsTally ending.now) }
    ensures unnoted { OnErr result (notes.new.lines.items ≡ []) }
    ensures dropped { notes.new.dropped ≡ notes.old.dropped }
    ensures word { string_bytes notes.new.word ≡ string_bytes notes.old.word }
{
    match ending {
        Ending::Whole => Ok(0),
        Ending::Missing(numbers) => {
            notes.lines = lines_of(alloc, numbers.as_slice())?;
            Ok(1)
        }
        Ending::Faulty(fault) => Err(*fault),
    }
}

// A line for each missing number.
fn lines_of(alloc: Global, missing: &[u32]) -> Result<Vec<u8>, WantOfMemory>
    ensures { IfOk result
        (λ lines. lines.items ≡ flat_map (numbered_line (codes "missing ")) missing.now) }
{
    let mut lines = Vec::new(alloc);
    write_numbered_lines(b"missing ", missing, &mut lines)?;
    Ok(lines)
}
