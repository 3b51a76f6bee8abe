//! What a journal lays over its save, checked with the whole save and then printed.

ghost use Rattle.std.specs.Prelude.{◌≡◌, ◌↔◌, [], IfErr, IfOk, IsTrue, OnOk, codes};
ghost use Rattle.osm_store.specs.Frames.{IsKnown};
ghost use Rattle.osm_blocks.specs.Frames.{ReadsOften};
ghost use Rattle.osm_merge.specs.Checking.{IsCheckedWith};
ghost use Rattle.osm_merge.specs.Lists.{AreFew};
ghost use Rattle.osm_net.specs.Lists.{net_in};
ghost use Rattle.osm_kept.specs.Laying.{LaysOver};
ghost use Rattle.osm_kept.specs.Names.{journal_name_of};
ghost use Rattle.osm_kept.specs.Refusal.{HasNoOther};
ghost use Rattle.osm_runs.specs.Checking.{ReadStops};
ghost use Rattle.osm_printing.specs.Keeping.{IsKeptNotPrinted, IsKeptPrinted};
ghost use Rattle.osm_printing.specs.Printing.{IsReadFault};
ghost use Rattle.osm_printing.specs.Steps.Laying.{AreListsCut, AreListsPut, HasHead, IsLaidCut};
ghost use Rattle.osm_printing.specs.Steps.Laying.{IsLaidPrinted};
ghost use Rattle.osm_printing.specs.Steps.Parts.{IsPut, PutFails};

use crate::parts::{Listing, again_fault, print_all};
use crate::printer::Printer;
use crate::show::{first_lines, show_in_blocks};
use osm_kept::laid::Laid;
use osm_kept::laws::laws_of_kept;
use osm_merge::check::{Checked, check_merged};
use osm_merge::lists::Totals;
use osm_merged::laws::laws_of_merged_saves;
use osm_merged::opening::open_objects;
use osm_model::memory::WantOfMemory;
use osm_net::lists::NetLists;
use osm_runs::fault::{FileName, RunFault};
use osm_runs::save_fault::read_fault;
use osm_save::head::Head;
use osm_store::store::Store;
use std::alloc::Global;
use std::io::Write;

/// Prints the show text of what a save and its journal keep, once all of the save is checked. The
/// save has to begin with the head that it had when its journal was read, unless the journal says
/// nothing.
pub(crate) fn show_laid<S: Store, W: Write>(
    alloc: Global,
    store: &mut S,
    save: &str,
    laid: &Laid,
    writer: &mut W,
) -> Result<(), RunFault>
    requires lays { IsKnown (S.state store.old) → LaysOver ((S.state store.old).files save.now)
        ((S.state store.old).files (journal_name_of save.now)) laid.now }
    requires free { IsKnown (S.state store.old) → HasNoOther ((S.state store.old).files save.now)
        ((S.state store.old).files (journal_name_of save.now)) }
    requires few { AreFew (net_in laid.now.lists) }
    ensures printed { OnOk result (IsKeptPrinted (IsKnown (S.state store.old)) save.now
        (S.state store.old).files (W.contents writer.old) (W.contents writer.new)) }
    ensures not_printed { IfErr result (IsKeptNotPrinted (IsKnown (S.state store.old)) save.now
        (S.state store.old).files (W.contents writer.old) (W.contents writer.new)) }
    ensures frame { ReadsOften IsReadFault (S.state store.old) (S.state store.new) result }
{
    laws_of_kept();
    let Some(start) = laid.start else {
        return show_in_blocks(alloc, store, save, writer);
    };
    let checked = match check_laid(alloc, store, save, start, &laid.lists) {
        Ok(checked) => checked,
        Err(fault) => return Err(fault),
    };
    match print_laid(alloc, store, save, laid, checked.totals, writer) {
        Ok(()) => Ok(()),
        Err(fault) => Err(fault),
    }
}

// Checks all of a save that has to begin with that head. If another run has merged the journal into
// the save since that was read, the journal is no longer one of this save.
fn check_laid<S: Store>(
    alloc: Global,
    store: &mut S,
    save: &str,
    start: Head,
    lists: &NetLists,
) -> Result<Checked, RunFault>
    requires starts { IsKnown (S.state store.old)
        → HasHead ((S.state store.old).files save.now) start }
    requires few { AreFew (net_in lists.now) }
    ensures head { IfOk result (λ checked. checked.head ≡ start) }
    ensures checked { IfOk result (λ checked. IsKnown (S.state store.old)
        → IsCheckedWith ((S.state store.old).files save.now) (net_in lists.now) checked) }
    ensures stops { IfErr result (ReadStops (IsKnown (S.state store.old))
        ((S.state store.old).files save.now)) }
    ensures frame { ReadsOften IsReadFault (S.state store.old) (S.state store.new) result }
{
    let checked = match check_merged(alloc, store, save, lists) {
        Ok(checked) => checked,
        Err(fault) => return Err(read_fault(fault)),
    };
    if !has_head(&checked, start) {
        return Err(RunFault::Changed(FileName::Save));
    }
    Ok(checked)
}

fn has_head(checked: &Checked, head: Head) -> bool
    ensures { IsTrue result ↔ (checked.now.head ≡ head) }
{
    checked.head == head
}

// Prints the show text, with those numbers of objects, users and changesets.
fn print_laid<S: Store, W: Write>(
    alloc: Global,
    store: &mut S,
    save: &str,
    laid: &Laid,
    totals: Totals,
    writer: &mut W,
) -> Result<(), RunFault>
    requires few { AreFew (net_in laid.now.lists) }
    ensures printed { OnOk result (IsLaidPrinted (S.state store.old) save.now laid.now.head
        (net_in laid.now.lists) totals (W.contents writer.old) (W.contents writer.new)) }
    ensures cut { IfErr result (IsLaidCut (S.state store.old) save.now laid.now.head
        (net_in laid.now.lists) totals (W.contents writer.old) (W.contents writer.new)) }
    ensures frame { ReadsOften IsReadFault (S.state store.old) (S.state store.new) result }
{
    let first = match first_lines(alloc, laid.head) {
        Ok(first) => first,
        Err(WantOfMemory) => return Err(RunFault::WantOfMemory),
    };
    let mut printer = Printer::new(first);
    match print_lists(
        alloc,
        store,
        save,
        &laid.lists,
        totals,
        &mut printer,
        writer,
    ) {
        Ok(()) => {}
        Err(fault) => return Err(fault),
    }
    match print_last(&mut printer, writer) {
        Ok(()) => Ok(()),
        Err(fault) => Err(fault),
    }
}

// Prints the last line and all that waits.
fn print_last<W: Write>(printer: &mut Printer, writer: &mut W) -> Result<(), RunFault>
    ensures put { OnOk result (IsPut (W.contents writer.old) (W.contents writer.new)
        printer.old [] (codes "held 0\n")) }
    ensures fails { IfErr result (PutFails (W.contents writer.old) (W.contents writer.new)
        printer.old (codes "held 0\n")) }
{
    match printer.put_line(writer, b"held 0") {
        Ok(()) => {}
        Err(fault) => return Err(fault),
    }
    match printer.flush(writer) {
        Ok(()) => Ok(()),
        Err(fault) => Err(fault),
    }
}

// Prints the lists while the save is read again.
fn print_lists<S: Store, W: Write>(
    alloc: Global,
    store: &mut S,
    save: &str,
    lists: &NetLists,
    totals: Totals,
    printer: &mut Printer,
    writer: &mut W,
) -> Result<(), RunFault>
    requires few { AreFew (net_in lists.now) }
    ensures printed { OnOk result (AreListsPut (S.state store.old) save.now (net_in lists.now)
        totals (W.contents writer.old) (W.contents writer.new) printer.old printer.new) }
    ensures cut { IfErr result (AreListsCut (S.state store.old) save.now (net_in lists.now)
        totals (W.contents writer.old) (W.contents writer.new) printer.old) }
    ensures frame { ReadsOften IsReadFault (S.state store.old) (S.state store.new) result }
{
    laws_of_merged_saves();
    let entries = lists.objects.as_slice();
    let (mut source, opening, mut objects) = match open_objects(alloc, store, save, entries) {
        Ok(opened) => opened,
        Err(fault) => return Err(again_fault(fault)),
    };
    let listing = Listing {
        save,
        opening: &opening,
        lists,
        totals,
    };
    match print_all(
        alloc,
        store,
        &listing,
        &mut source,
        &mut objects,
        printer,
        writer,
    ) {
        Ok(()) => Ok(()),
        Err(fault) => Err(fault),
    }
}
