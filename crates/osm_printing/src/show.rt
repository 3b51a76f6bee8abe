//! Showing what a save of any size holds.

ghost use Rattle.std.specs.Prelude.{◌≡◌, IfErr, IfOk, OnOk};
ghost use Rattle.osm_store.specs.Files.{Spends};
ghost use Rattle.osm_store.specs.Frames.{IsKnown, MakesAtMost};
ghost use Rattle.osm_blocks.specs.Frames.{ReadsOften};
ghost use Rattle.osm_merge.specs.Calls.{bytes_in, check_calls};
ghost use Rattle.osm_runs.specs.Checking.{IsSaveText, ReadStops};
ghost use Rattle.osm_printing.specs.Printing.{IsNotPrinted, IsPrinted, IsReadFault};
ghost use Rattle.osm_printing.specs.Printing.{start_text};
ghost use Rattle.osm_printing.specs.Steps.Copying.{IsPrintedFrom, IsPrintedInPart};

use crate::copy::copy_lists;
use crate::start::{Start, read_start};
use osm_model::memory::WantOfMemory;
use osm_reading::number_lines::write_numbered;
use osm_runs::check::check;
use osm_runs::fault::RunFault;
use osm_runs::writing::write_text;
use osm_save::head::Head;
use osm_save::shown::{write_base, write_time};
use osm_store::store::Store;
use std::alloc::Global;
use std::io::Write;

/// Prints the show text of a save, under any filter and of any size. The save has to be there. It
/// is checked as a whole before anything is printed; then it is read again, and its lists are
/// copied. A fault of that second pass leaves a prefix printed. No file changes.
pub fn show_in_blocks<S: Store, W: Write>(
    alloc: Global,
    store: &mut S,
    save: &str,
    writer: &mut W,
) -> Result<(), RunFault>
    ensures printed { OnOk result (IsPrinted (IsKnown (S.state store.old))
        ((S.state store.old).files save.now) (W.contents writer.old) (W.contents writer.new)) }
    ensures not_printed { IfErr result (IsNotPrinted (IsKnown (S.state store.old))
        ((S.state store.old).files save.now) (W.contents writer.old) (W.contents writer.new)) }
    ensures frame { ReadsOften IsReadFault (S.state store.old) (S.state store.new) result }
    ensures spends { OnOk result (Spends 1 (S.state store.old).left (S.state store.new).left) }
{
    match check_save(alloc, store, save) {
        Ok(()) => {}
        Err(fault) => return Err(fault),
    }
    let start = match read_start(alloc, store, save) {
        Ok(start) => start,
        Err(fault) => return Err(fault),
    };
    match print_from(alloc, store, save, start, writer) {
        Ok(()) => Ok(()),
        Err(fault) => Err(fault),
    }
}

// Refuses a save that isn't there or is no save text. Nothing is written, so the device that fails
// is that of the save.
fn check_save<S: Store>(alloc: Global, store: &mut S, save: &str) -> Result<(), RunFault>
    ensures whole { OnOk result (IsKnown (S.state store.old)
        → IsSaveText ((S.state store.old).files save.now)) }
    ensures stops { IfErr result (ReadStops (IsKnown (S.state store.old))
        ((S.state store.old).files save.now)) }
    ensures frame { ReadsOften IsReadFault (S.state store.old) (S.state store.new) result }
    ensures spends { OnOk result (Spends 1 (S.state store.old).left (S.state store.new).left) }
    ensures calls { IsKnown (S.state store.old) → MakesAtMost IsReadFault
        (check_calls (bytes_in ((S.state store.old).files save.now)))
        (S.state store.old) (S.state store.new) result }
{
    check(alloc, store, save)?;
    Ok(())
}

// Prints the show text of a save whose lists are at that place.
fn print_from<S: Store, W: Write>(
    alloc: Global,
    store: &mut S,
    save: &str,
    start: Start,
    writer: &mut W,
) -> Result<(), RunFault>
    ensures printed { OnOk result (IsPrintedFrom (S.state store.old) save.now start
        (W.contents writer.old) (W.contents writer.new)) }
    ensures cut { IfErr result (IsPrintedInPart (S.state store.old) save.now start
        (W.contents writer.old) (W.contents writer.new)) }
    ensures frame { ReadsOften IsReadFault (S.state store.old) (S.state store.new) result }
{
    let first = match first_lines(alloc, start.head) {
        Ok(first) => first,
        Err(WantOfMemory) => return Err(RunFault::WantOfMemory),
    };
    match write_text(writer, first.as_slice()) {
        Ok(()) => {}
        Err(fault) => return Err(fault),
    }
    match copy_lists(alloc, store, save, start.after, writer) {
        Ok(()) => {}
        Err(fault) => return Err(fault),
    }
    match write_text(writer, b"held 0\n") {
        Ok(()) => Ok(()),
        Err(fault) => Err(fault),
    }
}

/// Gives the lines of the number, the base and the time.
pub(crate) fn first_lines(alloc: Global, head: Head) -> Result<Vec<u8>, WantOfMemory>
    ensures { IfOk result (λ text. text.items ≡ start_text head) }
{
    let mut text = Vec::new(alloc);
    write_numbered(b"number ", head.number as u64, &mut text)?;
    write_base(head.base, &mut text)?;
    write_time(head.time, &mut text)?;
    Ok(text)
}
