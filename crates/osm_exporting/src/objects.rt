//! Reading a save with net changes laid over its objects, with the faults of a run: the objects one
//! by one, and what comes before and after them.

ghost use Rattle.std.specs.Prelude.{◌≡◌, ◌↔◌, ℕ, ◌+◌, ◌<◌, ◌≤◌, List, length, None, Some, IfErr};
ghost use Rattle.std.specs.Prelude.{IfOk, IfSome, IsTrue, OnOk};
ghost use Rattle.osm_model.specs.Limits.{max_sequence};
ghost use Rattle.osm_blocks.specs.Calls.{Advances, reads_ahead};
ghost use Rattle.osm_blocks.specs.Frames.{ReadsOften};
ghost use Rattle.osm_blocks.specs.Places.{HasFile, left_of};
ghost use Rattle.osm_merge.specs.Calls.{bytes_in, check_calls};
ghost use Rattle.osm_merge.specs.Mirrors.{both_at};
ghost use Rattle.osm_merge.specs.Passing.{IsRead};
ghost use Rattle.osm_merged.specs.Ahead.{Falls, PassesFirst, most_ahead, most_in};
ghost use Rattle.osm_merged.specs.Opening.{BeginsMerged};
ghost use Rattle.osm_opl.specs.Written.{line_text};
ghost use Rattle.osm_save.specs.Head.{most_counted};
ghost use Rattle.osm_store.specs.Files.{Spends};
ghost use Rattle.osm_store.specs.Frames.{IsKnown, MakesAtMost};
ghost use Rattle.osm_runs.specs.Checking.{ReadStops};
ghost use Rattle.osm_runs.specs.Runs.{IsDeviceFault};
ghost use Rattle.osm_exporting.specs.Steps.Copying.{ObjectsStop, PassStops, ReadsNext, ReadsNone};
ghost use Rattle.osm_exporting.specs.Steps.Copying.{ReadsOn};
ghost use Rattle.osm_exporting.specs.Steps.Laying.{LaysOn};

use osm_kept::laid::Laid;
use osm_merge::objects::LineTaker;
use osm_merge::opening::Opening;
use osm_merge::passing;
use osm_merge::source::Source;
use osm_merged::objects::MergedObjects;
use osm_merged::opening;
use osm_model::change::Change;
use osm_model::filter::Filter;
use osm_runs::fault::{FileName, RunFault};
use osm_runs::save_fault::read_fault;
use osm_save::head::Head;
use osm_store::store::Store;
use std::alloc::Global;

/// The objects of a save that are still to be read, with net changes laid over them.
#[derive(Drop)]
pub(crate) struct SavedObjects<'a> {
    source: Source,
    merged: MergedObjects<'a>,
    /// The line of the object that was given last.
    pub(crate) spelled: Vec<u8>,
}

/// Opens a save, and passes everything before the lines of its objects, over which the net changes
/// are laid. Gives the objects, and what the save begins with. If there are net changes, a save
/// that was rewritten since its journal was read is refused: the journal belongs to the old save.
pub(crate) fn open_objects<'a, S: Store>(
    alloc: Global,
    store: &mut S,
    save: &str,
    laid: &'a Laid,
) -> Result<(SavedObjects<'a>, Opening), RunFault>
    requires { LaysOn (S.state store.old) save.now laid.now }
    ensures opened { IfOk result (λ r. IsKnown (S.state store.old)
        → BeginsMerged ((S.state store.old).files save.now) laid.now.lists.objects.items
        r.0.source r.1 r.0.merged) }
    ensures same { IfOk result (λ r. IfSome laid.now.start (λ read. read ≡ r.1.head)) }
    ensures number { IfOk result (λ r. r.1.head.number ≤ max_sequence) }
    ensures base { IfOk result (λ r. r.1.head.base ≤ r.1.head.number) }
    ensures stops { IfErr result (ReadStops (IsKnown (S.state store.old))
        ((S.state store.old).files save.now)) }
    ensures frame { ReadsOften IsDeviceFault (S.state store.old) (S.state store.new) result }
    ensures spends { OnOk result (Spends 1 (S.state store.old).left (S.state store.new).left) }
    ensures calls { IsKnown (S.state store.old) → MakesAtMost IsDeviceFault
        (check_calls (bytes_in ((S.state store.old).files save.now)))
        (S.state store.old) (S.state store.new) result }
    ensures ahead { (file : List ℕ) → HasFile (S.state store.old) save.now file
        → Advances IsDeviceFault (check_calls (length file)) (λ r. reads_ahead r.0.source file)
        (S.state store.old) (S.state store.new) result }
    ensures shorter { IfOk result (λ r. (file : List ℕ)
        → HasFile (S.state store.old) save.now file
        → most_in r.0.merged (left_of r.0.source file)
        ≤ length file + length laid.now.lists.objects.items) }
{
    let entries = laid.lists.objects.as_slice();
    let (source, opening, merged) = match opening::open_objects(alloc, store, save, entries) {
        Ok(opened) => opened,
        Err(fault) => return Err(read_fault(fault)),
    };
    if !has_head(opening.head, laid.start) {
        return Err(RunFault::Changed(FileName::Save));
    }
    let objects = SavedObjects {
        source,
        merged,
        spelled: Vec::new(alloc),
    };
    Ok((objects, opening))
}

// Whether a save begins with the head that it had when its journal was read, if one was.
fn has_head(head: Head, read: Option<Head>) -> bool
    ensures { IsTrue result ↔ IfSome read (λ before. before ≡ head) }
{
    match read {
        Some(before) => before == head,
        None => true,
    }
}

/// Gives the next object, and leaves its line in `spelled`; None at the end.
pub(crate) fn next_object<S: Store>(
    alloc: Global,
    store: &mut S,
    save: &str,
    filter: &Filter,
    objects: &mut SavedObjects<'_>,
) -> Result<Option<Change>, RunFault>
    ensures given { IfOk result
        (ReadsNext (S.state store.old) save.now filter.now objects.old objects.new) }
    ensures spelled { IfOk result (λ given. IfSome given (λ object.
        objects.new.spelled.items ≡ line_text object)) }
    ensures stops { IfErr result
        (ObjectsStop (S.state store.old) save.now filter.now objects.old) }
    ensures fewer { IfOk result
        (Falls (most_ahead objects.old.merged) (most_ahead objects.new.merged)) }
    ensures shorter { (file : List ℕ) → HasFile (S.state store.old) save.now file
        → IfOk result (Falls (most_in objects.old.merged (left_of objects.old.source file))
        (most_in objects.new.merged (left_of objects.new.source file))) }
    ensures reads { ReadsOn (S.state store.old) (S.state store.new) save.now
        objects.old objects.new result }
{
    let source = &mut objects.source;
    let spelled = &mut objects.spelled;
    match objects
        .merged
        .next(alloc, store, save, source, filter, spelled)
    {
        Ok(object) => Ok(object),
        Err(fault) => Err(read_fault(fault)),
    }
}

/// Passes the next line if its object is the next one and the taker takes the line, and says
/// whether it did. If not, nothing has changed.
#[inline(always)]
pub(crate) fn pass_line<S: Store, T: LineTaker>(
    alloc: Global,
    store: &mut S,
    save: &str,
    filter: &Filter,
    objects: &mut SavedObjects<'_>,
    taker: &mut T,
) -> Result<bool, RunFault>
    ensures passed { IfOk result (PassesFirst
        (λ object. ReadsNext (S.state store.old) save.now filter.now objects.old objects.new
        (Some object))
        (ReadsNone (S.state store.old) save.now objects.old objects.new)
        (T.ahead taker.old) (T.ahead taker.new)) }
    ensures stops { IfErr result
        (ObjectsStop (S.state store.old) save.now filter.now objects.old) }
    ensures fewer { IfOk result (λ is_passed. IsTrue is_passed
        → most_ahead objects.new.merged < most_ahead objects.old.merged) }
    ensures shorter { IfOk result (λ is_passed. IsTrue is_passed → (file : List ℕ)
        → HasFile (S.state store.old) save.now file
        → most_in objects.new.merged (left_of objects.new.source file)
        < most_in objects.old.merged (left_of objects.old.source file)) }
    ensures reads { ReadsOn (S.state store.old) (S.state store.new) save.now
        objects.old objects.new result }
{
    let source = &mut objects.source;
    match objects
        .merged
        .pass_line(alloc, store, save, source, filter, taker)
    {
        Ok(is_passed) => Ok(is_passed),
        Err(fault) => Err(read_fault(fault)),
    }
}

/// Passes what follows the objects: both lists of counts, and the line `end`, after which the file
/// has to end.
pub(crate) fn pass_rest<S: Store>(
    alloc: Global,
    store: &mut S,
    save: &str,
    opening: &Opening,
    objects: &mut SavedObjects<'_>,
) -> Result<(), RunFault>
    requires number { opening.now.head.number ≤ max_sequence }
    requires base { opening.now.head.base ≤ opening.now.head.number }
    ensures passed { OnOk result ((file : List ℕ) → HasFile (S.state store.old) save.now file
        → IsRead (both_at (most_counted opening.now.head) (left_of objects.old.source file))) }
    ensures stops { IfErr result (PassStops (S.state store.old) save.now (λ file.
        both_at (most_counted opening.now.head) (left_of objects.old.source file) ≡ None)) }
    ensures stage { (S.state store.new).stage ≡ (S.state store.old).stage }
    ensures frame { ReadsOften IsDeviceFault (S.state store.old) (S.state store.new) result }
    ensures calls { (file : List ℕ) → HasFile (S.state store.old) save.now file
        → Advances IsDeviceFault (reads_ahead objects.old.source file) (λ _. 0)
        (S.state store.old) (S.state store.new) result }
{
    let source = &mut objects.source;
    match passing::pass_rest(alloc, store, save, source, opening) {
        Ok(()) => Ok(()),
        Err(fault) => Err(read_fault(fault)),
    }
}
