//! Showing what a save of any size and its journal keep.

ghost use Rattle.std.specs.Prelude.{IfErr, OnOk};
ghost use Rattle.osm_store.specs.Files.{Spends};
ghost use Rattle.osm_store.specs.Frames.{IsKnown};
ghost use Rattle.osm_blocks.specs.Frames.{ReadsOften};
ghost use Rattle.osm_printing.specs.Keeping.{IsKeptNotPrinted, IsKeptPrinted};
ghost use Rattle.osm_printing.specs.Printing.{IsReadFault};

use crate::laid::show_laid;
use osm_kept::laid::read_laid;
use osm_runs::fault::{FileName, RunFault};
use osm_runs::kept::kept_fault;
use osm_store::store::Store;
use std::alloc::Global;
use std::io::Write;

/// Prints the show text of what a save and its journal keep, under any filter and of any size. The
/// save has to be there. Both files are checked as a whole before anything is printed; then the
/// save is read again while it is printed. A journal of another save that ends above the save is
/// refused, and so is any journal without a save, once a second reading refuses the two files too.
/// A fault of standard output, or of the second pass over the save, leaves a prefix printed. No
/// file changes.
pub fn show_kept<S: Store, W: Write>(
    alloc: Global,
    store: &mut S,
    save: &str,
    writer: &mut W,
) -> Result<(), RunFault>
    ensures printed { OnOk result (IsKeptPrinted (IsKnown (S.state store.old)) save.now
        (S.state store.old).files (W.contents writer.old) (W.contents writer.new)) }
    ensures not_printed { IfErr result (IsKeptNotPrinted (IsKnown (S.state store.old)) save.now
        (S.state store.old).files (W.contents writer.old) (W.contents writer.new)) }
    ensures frame { ReadsOften IsReadFault (S.state store.old) (S.state store.new) result }
    ensures spends { OnOk result (Spends 1 (S.state store.old).left (S.state store.new).left) }
{
    let laid = match read_laid(alloc, store, save) {
        Ok(Some(laid)) => laid,
        Ok(None) => return Err(RunFault::Absent(FileName::Save)),
        Err(fault) => return Err(kept_fault(fault)),
    };
    match show_laid(alloc, store, save, &laid, writer) {
        Ok(()) => Ok(()),
        Err(fault) => Err(fault),
    }
}
