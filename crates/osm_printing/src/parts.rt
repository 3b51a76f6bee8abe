//! The lists of a save with net changes laid over them, printed while the save is read.

ghost use Rattle.std.specs.Prelude.{◌≡◌, ◌<◌, ◌++◌, ◌∷◌, [], IfErr, IfOk, IsTrue, codes};
ghost use Rattle.osm_blocks.specs.Frames.{ReadsOften};
ghost use Rattle.osm_merge.specs.Faults.{IsDeviceFault};
ghost use Rattle.osm_merge.specs.Reading.{Refuses};
ghost use Rattle.osm_merged.specs.Ahead.{most_ahead, objects_ahead};
ghost use Rattle.osm_net.specs.Lists.{net_in};
ghost use Rattle.osm_printing.specs.Steps.Parts.{HaveRoom, PrintsLast, PrintsPart, TakesLine};
ghost use Rattle.osm_printing.specs.Steps.Parts.{again_fault_of, both_parts, count_lines};
ghost use Rattle.osm_printing.specs.Steps.Parts.{counts_part, object_lines, objects_part};
ghost use Rattle.osm_printing.specs.Steps.Parts.{whole_part};

use crate::printer::Printer;
use osm_merge::fault::MergeFault;
use osm_merge::lists::Totals;
use osm_merge::opening::Opening;
use osm_merge::source::Source;
use osm_merged::counts::MergedCounts;
use osm_merged::objects::MergedObjects;
use osm_merged::opening::{open_changesets, open_users};
use osm_model::filter::Filter;
use osm_net::lists::NetLists;
use osm_runs::fault::{FileName, RunFault};
use osm_store::store::Store;
use std::alloc::Global;
use std::io::Write;

/// What is printed of a save that was opened: its lists with net changes laid over them, and the
/// numbers of objects, users and changesets that these come to.
#[derive(Clone, Copy)]
pub(crate) struct Listing<'a> {
    pub(crate) save: &'a str,
    pub(crate) opening: &'a Opening,
    pub(crate) lists: &'a NetLists,
    pub(crate) totals: Totals,
}

/// Translates a fault of the second pass over a save: whatever is wrong, the file changed.
pub(crate) fn again_fault(fault: MergeFault) -> RunFault
    ensures { result ≡ again_fault_of fault }
{
    match fault {
        MergeFault::ReadFault | MergeFault::WriteFault => RunFault::ReadFault(FileName::Save),
        MergeFault::WantOfMemory => RunFault::WantOfMemory,
        MergeFault::TooLarge => RunFault::TooLarge(FileName::Save),
        _ => RunFault::Changed(FileName::Save),
    }
}

/// Prints all lists of a save that was opened, and checks the end of the save.
pub(crate) fn print_all<S: Store, W: Write>(
    alloc: Global,
    store: &mut S,
    listing: &Listing<'_>,
    source: &mut Source,
    objects: &mut MergedObjects<'_>,
    printer: &mut Printer,
    writer: &mut W,
) -> Result<(), RunFault>
    requires { HaveRoom listing.now.opening.now.head (net_in listing.now.lists.now) }
    ensures { PrintsLast listing.now.save.now
        (whole_part listing.now.totals listing.now.opening.now (net_in listing.now.lists.now)
        objects.old) result
        (S.state store.old) source.old (W.contents writer.old) printer.old
        (S.state store.new) (W.contents writer.new) printer.new }
{
    match print_objects(alloc, store, listing, source, objects, printer, writer) {
        Ok(()) => {}
        Err(fault) => return Err(fault),
    }
    match print_counts(alloc, store, listing, source, printer, writer) {
        Ok(()) => {}
        Err(fault) => return Err(fault),
    }
    match source.end(alloc, store, listing.save) {
        Ok(()) => Ok(()),
        Err(fault) => Err(again_fault(fault)),
    }
}

// Prints the list of objects.
fn print_objects<S: Store, W: Write>(
    alloc: Global,
    store: &mut S,
    listing: &Listing<'_>,
    source: &mut Source,
    objects: &mut MergedObjects<'_>,
    printer: &mut Printer,
    writer: &mut W,
) -> Result<(), RunFault>
    ensures { PrintsPart listing.now.save.now
        (objects_part listing.now.totals.objects listing.now.opening.now.filter objects.old) result
        (S.state store.old) source.old (W.contents writer.old) printer.old
        (S.state store.new) source.new (W.contents writer.new) printer.new }
{
    match printer.put_numbered(writer, b"objects ", listing.totals.objects) {
        Ok(()) => {}
        Err(fault) => return Err(fault),
    }
    print_object_lines(alloc, store, listing, source, objects, printer, writer)
}

// Prints the lines of the objects.
fn print_object_lines<S: Store, W: Write>(
    alloc: Global,
    store: &mut S,
    listing: &Listing<'_>,
    source: &mut Source,
    objects: &mut MergedObjects<'_>,
    printer: &mut Printer,
    writer: &mut W,
) -> Result<(), RunFault>
    ensures { PrintsPart listing.now.save.now
        (object_lines listing.now.opening.now.filter objects.old) result
        (S.state store.old) source.old (W.contents writer.old) printer.old
        (S.state store.new) source.new (W.contents writer.new) printer.new }
{
    let (save, filter) = (listing.save, &listing.opening.filter);
    let mut line = Vec::new(alloc);
    'objects: loop {
        match next_line(alloc, store, save, source, filter, objects, &mut line) {
            Ok(true) => {}
            Ok(false) => return Ok(()),
            Err(fault) => return Err(again_fault(fault)),
        }
        match printer.put_line(writer, line.as_slice()) {
            Ok(()) => {}
            Err(fault) => return Err(fault),
        }
    }
}

// Reads the line of the next object; whether there is one.
fn next_line<S: Store>(
    alloc: Global,
    store: &mut S,
    save: &str,
    source: &mut Source,
    filter: &Filter,
    objects: &mut MergedObjects<'_>,
    line: &mut Vec<u8>,
) -> Result<bool, MergeFault>
    ensures taken { IfOk result (TakesLine (S.state store.old) save.now
        (object_lines filter.now objects.old) (object_lines filter.now objects.new)
        source.old source.new (line.new.items ++ 10 ∷ [])) }
    ensures fewer { IfOk result (λ is_next. IsTrue is_next
        → most_ahead objects.new < most_ahead objects.old) }
    ensures refused { IfErr result (Refuses (S.state store.old) save.now source.old
        (objects_ahead filter.now objects.old)) }
    ensures frame { ReadsOften IsDeviceFault (S.state store.old) (S.state store.new) result }
{
    let object = objects.next(alloc, store, save, source, filter, line)?;
    Ok(object.is_some())
}

// Prints the lists of users and of changesets.
fn print_counts<S: Store, W: Write>(
    alloc: Global,
    store: &mut S,
    listing: &Listing<'_>,
    source: &mut Source,
    printer: &mut Printer,
    writer: &mut W,
) -> Result<(), RunFault>
    requires { HaveRoom listing.now.opening.now.head (net_in listing.now.lists.now) }
    ensures { PrintsPart listing.now.save.now (both_parts listing.now.totals
        listing.now.opening.now.head (net_in listing.now.lists.now)) result
        (S.state store.old) source.old (W.contents writer.old) printer.old
        (S.state store.new) source.new (W.contents writer.new) printer.new }
{
    match print_users(alloc, store, listing, source, printer, writer) {
        Ok(()) => {}
        Err(fault) => return Err(fault),
    }
    print_changesets(alloc, store, listing, source, printer, writer)
}

// Prints the list of users.
fn print_users<S: Store, W: Write>(
    alloc: Global,
    store: &mut S,
    listing: &Listing<'_>,
    source: &mut Source,
    printer: &mut Printer,
    writer: &mut W,
) -> Result<(), RunFault>
    requires { HaveRoom listing.now.opening.now.head (net_in listing.now.lists.now) }
    ensures { PrintsPart listing.now.save.now
        (counts_part (codes "users ") listing.now.totals.users listing.now.opening.now.head
        listing.now.lists.now.users.items) result
        (S.state store.old) source.old (W.contents writer.old) printer.old
        (S.state store.new) source.new (W.contents writer.new) printer.new }
{
    let (save, opening) = (listing.save, listing.opening);
    let users = listing.lists.users.as_slice();
    let mut counts = match open_users(alloc, store, save, source, opening, users) {
        Ok(counts) => counts,
        Err(fault) => return Err(again_fault(fault)),
    };
    match printer.put_numbered(writer, b"users ", listing.totals.users) {
        Ok(()) => {}
        Err(fault) => return Err(fault),
    }
    print_count_lines(alloc, store, save, source, &mut counts, printer, writer)
}

// Prints the list of changesets.
fn print_changesets<S: Store, W: Write>(
    alloc: Global,
    store: &mut S,
    listing: &Listing<'_>,
    source: &mut Source,
    printer: &mut Printer,
    writer: &mut W,
) -> Result<(), RunFault>
    requires { HaveRoom listing.now.opening.now.head (net_in listing.now.lists.now) }
    ensures { PrintsPart listing.now.save.now (counts_part (codes "changesets ")
        listing.now.totals.changesets listing.now.opening.now.head
        listing.now.lists.now.changesets.items) result
        (S.state store.old) source.old (W.contents writer.old) printer.old
        (S.state store.new) source.new (W.contents writer.new) printer.new }
{
    let (save, opening) = (listing.save, listing.opening);
    let changesets = listing.lists.changesets.as_slice();
    let mut counts = match open_changesets(alloc, store, save, source, opening, changesets) {
        Ok(counts) => counts,
        Err(fault) => return Err(again_fault(fault)),
    };
    match printer.put_numbered(writer, b"changesets ", listing.totals.changesets) {
        Ok(()) => {}
        Err(fault) => return Err(fault),
    }
    print_count_lines(alloc, store, save, source, &mut counts, printer, writer)
}

// Prints the lines of counts.
fn print_count_lines<S: Store, W: Write>(
    alloc: Global,
    store: &mut S,
    save: &str,
    source: &mut Source,
    counts: &mut MergedCounts<'_>,
    printer: &mut Printer,
    writer: &mut W,
) -> Result<(), RunFault>
    ensures { PrintsPart save.now (count_lines counts.old) result
        (S.state store.old) source.old (W.contents writer.old) printer.old
        (S.state store.new) source.new (W.contents writer.new) printer.new }
{
    'counts: loop {
        let count = match counts.next(alloc, store, save, source) {
            Ok(Some(count)) => count,
            Ok(None) => return Ok(()),
            Err(fault) => return Err(again_fault(fault)),
        };
        match printer.put_count(writer, count) {
            Ok(()) => {}
            Err(fault) => return Err(fault),
        }
    }
}
