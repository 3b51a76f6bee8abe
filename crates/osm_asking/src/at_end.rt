//! The counts at the end of a save, which are read without its objects.

ghost use Rattle.std.specs.Prelude.{◌≡◌, ◌≤◌, [], ℕ, List, None, Some, IfErr, IfOk, IfSome};
ghost use Rattle.std.specs.Prelude.{IsSome, OnOk};
ghost use Rattle.osm_asking.specs.Reads.{IsPlainSave};
ghost use Rattle.osm_asking.specs.Refusal.{IsFailed, SearchStops};
ghost use Rattle.osm_asking.specs.Steps.Counting.{AreCounted, AreCountsNext, IsPlainSearch};
ghost use Rattle.osm_asking.specs.Steps.Counting.{most_at_end};
ghost use Rattle.osm_asking.specs.Steps.Laying.{FitsSave, IsLaidOn};
ghost use Rattle.osm_blocks.specs.Frames.{ReadsOften};
ghost use Rattle.osm_merge.specs.Checking.{CheckStops};
ghost use Rattle.osm_merge.specs.Faults as merges;
ghost use Rattle.osm_model.specs.Limits.{max_sequence};
ghost use Rattle.osm_net.specs.Lists.{net_in};
ghost use Rattle.osm_save.specs.declared.save.Saved.{Saved};
ghost use Rattle.osm_store.specs.Frames.{IsKnown, MakesAtMost};

use crate::choice::By;
use crate::counts::counts_after;
use crate::fault::SearchFault;
use crate::find::{Wanted, find_line};
use crate::opening::open_lines;
use crate::saved_objects::has_head;
use osm_kept::laid::Laid;
use osm_merge::fault::MergeFault;
use osm_merge::opening::{Opening, open_save};
use osm_merge::source::Source;
use osm_save::head::Head;
use osm_store::store::Store;
use std::alloc::Global;

/// The counts of a save with those of its journal. Of the save only the head and the end are read,
/// and the head once more at last. None if a line is at fault, or if the save changed meanwhile.
pub(crate) fn counts_at_end<S: Store>(
    alloc: Global,
    store: &mut S,
    save: &str,
    laid: &Laid,
    by: By,
) -> Result<Option<Vec<(u32, u64)>>, MergeFault>
    requires { IsLaidOn (IsKnown (S.state store.old)) ((S.state store.old).files save.now)
        laid.now }
    ensures counted { IfOk result (λ found. IfSome found (λ counts. IsKnown (S.state store.old)
        → AreCounted ((S.state store.old).files save.now) by (net_in laid.now.lists)
        counts.items)) }
    ensures there { IfOk result (λ found. (file : List ℕ) (v : Saved)
        → IsPlainSave (S.state store.old) save.now file v → IsSome found) }
    ensures plain { IfErr result merges.IsPlain }
    ensures frame { ReadsOften merges.IsDeviceFault (S.state store.old) (S.state store.new)
        result }
    ensures calls { (file : List ℕ) (v : Saved) → IsPlainSave (S.state store.old) save.now file v
        → MakesAtMost merges.IsDeviceFault (most_at_end v)
        (S.state store.old) (S.state store.new) result }
{
    let opening = match open_head(alloc, store, save, laid.start) {
        Ok(opening) => opening,
        Err(fault) => return unless_plain(fault),
    };
    let mut source = match find_counts(alloc, store, save) {
        Ok(source) => source,
        Err(fault) => return unless_failed(fault),
    };
    let counts = match counts_after(alloc, store, save, &mut source, &opening, laid, by) {
        Ok(counts) => counts,
        Err(fault) => return unless_plain(fault),
    };
    match open_head(alloc, store, save, Some(opening.head)) {
        Ok(_opening) => Ok(Some(counts)),
        Err(fault) => unless_plain(fault),
    }
}

// What a save begins with. One that doesn't begin with the head `start` is refused, if one is
// given.
fn open_head<S: Store>(
    alloc: Global,
    store: &mut S,
    save: &str,
    start: Option<Head>,
) -> Result<Opening, MergeFault>
    requires { FitsSave (IsKnown (S.state store.old)) ((S.state store.old).files save.now) start }
    ensures begins { IfOk result (λ opening. FitsSave (IsKnown (S.state store.old))
        ((S.state store.old).files save.now) (Some opening.head)) }
    ensures number { IfOk result (λ opening. opening.head.number ≤ max_sequence) }
    ensures base { IfOk result (λ opening. opening.head.base ≤ opening.head.number) }
    ensures refused { IfErr result (λ fault. IsKnown (S.state store.old)
        → CheckStops ((S.state store.old).files save.now) fault) }
    ensures frame { ReadsOften merges.IsDeviceFault (S.state store.old) (S.state store.new)
        result }
    ensures calls { MakesAtMost merges.IsDeviceFault 1 (S.state store.old) (S.state store.new)
        result }
{
    let opening = match open_save(alloc, store, save) {
        Ok((_source, opening)) => opening,
        Err(fault) => return Err(fault),
    };
    if !has_head(opening.head, start) {
        return Err(MergeFault::Changed);
    }
    Ok(opening)
}

// Where the lines after the objects of a save begin. None of them is read yet.
fn find_counts<S: Store>(alloc: Global, store: &mut S, save: &str) -> Result<Source, SearchFault>
    ensures found { IfOk result (AreCountsNext (S.state store.old) save.now) }
    ensures unread { IfOk result (λ source. source.unread ≡ []) }
    ensures stops { IfErr result (SearchStops (S.state store.old) save.now) }
    ensures frame { ReadsOften IsFailed (S.state store.old) (S.state store.new) result }
    ensures calls { (file : List ℕ) (v : Saved) → IsPlainSave (S.state store.old) save.now file v
        → MakesAtMost IsFailed 58 (S.state store.old) (S.state store.new) result }
{
    let start = match open_lines(alloc, store, save) {
        Ok(opened) => opened.place,
        Err(fault) => return Err(fault),
    };
    let mut end = u64::MAX;
    match find_line(alloc, store, save, start, Wanted::Counts, &mut end) {
        Ok(spot) => Ok(Source::at_place(alloc, spot.place)),
        Err(fault) => Err(fault),
    }
}

// That fault if the device or memory is the reason, and otherwise nothing.
fn unless_plain(fault: MergeFault) -> Result<Option<Vec<(u32, u64)>>, MergeFault>
    ensures none { IfOk result (λ found. found ≡ None) }
    ensures same { IfErr result (λ e. e ≡ fault) }
    ensures wrong { OnOk result (merges.IsPlain fault → ⊥) }
    ensures plain { IfErr result merges.IsPlain }
{
    match fault {
        MergeFault::ReadFault | MergeFault::WriteFault | MergeFault::WantOfMemory => Err(fault),
        MergeFault::NoSave
        | MergeFault::BadSave { .. }
        | MergeFault::LongLine
        | MergeFault::TooLarge
        | MergeFault::Changed => Ok(None),
    }
}

// The same of a search.
fn unless_failed(fault: SearchFault) -> Result<Option<Vec<(u32, u64)>>, MergeFault>
    ensures none { IfOk result (λ found. found ≡ None) }
    ensures device { IfErr result (λ e. merges.IsDeviceFault e → IsFailed fault) }
    ensures wrong { OnOk result (IsPlainSearch fault → ⊥) }
    ensures plain { IfErr result merges.IsPlain }
{
    match fault {
        SearchFault::Failed => Err(MergeFault::ReadFault),
        SearchFault::WantOfMemory => Err(MergeFault::WantOfMemory),
        SearchFault::Gone
        | SearchFault::BadHead(_)
        | SearchFault::BadLine(_)
        | SearchFault::TooLarge => Ok(None),
    }
}
