//! Merging a save text with net changes.

ghost use Rattle.std.specs.Prelude.{IsTrue, false, ◌≡◌, ◌↔◌, ℕ, ◌++◌, ◌≤◌, List, [], Some, Err};
ghost use Rattle.std.specs.Prelude.{IfErr, IfOk};
ghost use Rattle.std.specs.Prelude.{◌+◌, length, OnOk};
ghost use Rattle.osm_model.specs.Limits.{max_sequence};
ghost use Rattle.osm_store.specs.Frames.{IsKnown, MakesAtMost};
ghost use Rattle.osm_blocks.specs.Calls.{Advances, puts_of, reads_ahead};
ghost use Rattle.osm_merge.specs.Calls.{bytes_in, check_calls, merge_calls};
ghost use Rattle.osm_blocks.specs.Frames.{ReadsOften};
ghost use Rattle.osm_blocks.specs.Places.{HasFile, left_of};
ghost use Rattle.osm_net.specs.Lists.{net_in};
ghost use Rattle.osm_save.specs.Head.{head_lines};
ghost use Rattle.osm_save.specs.Lines.{ended};
ghost use Rattle.osm_save.specs.Reading.{mirror_at};
ghost use Rattle.osm_save.specs.declared.version.Version.TheVariants.{Three};
ghost use Rattle.osm_merge.specs.Counting.{CountsAs};
ghost use Rattle.osm_merge.specs.Faults.{IsDeviceFault, IsOfText, IsPlain};
ghost use Rattle.osm_merge.specs.declared.fault.MergeFault.{MergeFault};
ghost use Rattle.osm_merge.specs.Laying.{Writes};
ghost use Rattle.osm_merge.specs.Lists.{AreFew};
ghost use Rattle.osm_merge.specs.Checking.{CheckStops};
ghost use Rattle.osm_merge.specs.Merging.{IsMerged, IsStaged, MergeStops, merged_text};
ghost use Rattle.osm_store.specs.Files.{Puts, Spends};
ghost use Rattle.osm_merge.specs.Frames.{ReplacesOften};
ghost use Rattle.osm_merge.specs.Parts.{MergesValue, mirror_part};
ghost use Rattle.osm_merge.specs.Reading.{Refuses};

use crate::check::{Checked, check_save};
use crate::counting::count_lists;
use crate::fault::{MergeFault, fault_of, unwritten};
use crate::lists::{Merge, Totals, merge_lists};
use crate::opening::open_save;
use crate::source::Source;
use osm_blocks::block_writer::BlockWriter;
use osm_model::filter::Filter;
use osm_net::lists::NetLists;
use osm_save::head::{Head, write_head};
use osm_save::objects::MOST_OBJECTS;
use osm_store::store::Store;
use std::alloc::Global;

// Begins the file.
fn begin<S: Store>(alloc: Global, store: &mut S, name: &str) -> Result<(), MergeFault>
    ensures begun { OnOk result (IsKnown (S.state store.old)
        → (S.state store.new).stage ≡ Some (name.now, [])) }
    ensures refused { IfErr result IsPlain }
    ensures frame { ReadsOften IsDeviceFault (S.state store.old) (S.state store.new) result }
    ensures calls { MakesAtMost IsDeviceFault 1 (S.state store.old) (S.state store.new) result }
{
    match store.begin(alloc, name) {
        Ok(()) => Ok(()),
        Err(error) => Err(fault_of(error)),
    }
}

// Writes the head of version 3.
fn put_head<S: Store>(
    alloc: Global,
    store: &mut S,
    writer: &mut BlockWriter,
    head: Head,
    filter: &Filter,
) -> Result<(), MergeFault>
    ensures written { OnOk result (Writes (S.state store.old) writer.old
        (S.state store.new) writer.new
        (ended (head_lines Three head filter.now))) }
    ensures refused { IfErr result IsPlain }
    ensures frame { ReadsOften IsDeviceFault (S.state store.old) (S.state store.new) result }
    ensures calls { MakesAtMost IsDeviceFault (puts_of writer.old)
        (S.state store.old) (S.state store.new) result }
    ensures keeps { OnOk result (writer.new.is_writing ≡ writer.old.is_writing) }
{
    let mut lines = Vec::new(alloc);
    let Ok(()) = write_head(head, filter, &mut lines) else {
        return Err(MergeFault::WantOfMemory);
    };
    match writer.put(store, lines.as_slice()) {
        Ok(()) => Ok(()),
        Err(fault) => Err(unwritten(fault)),
    }
}

/// Begins the file, and writes the new head, the lists after net changes with the numbers of the
/// merge, and the line `end`. Gives the numbers of objects, users and changesets written.
pub(crate) fn write_lists<S: Store>(
    alloc: Global,
    store: &mut S,
    name: &str,
    source: &mut Source,
    head: Head,
    merge: &Merge<'_>,
) -> Result<Totals, MergeFault>
    requires number { merge.now.opening.now.head.number ≤ max_sequence }
    requires base { merge.now.opening.now.head.base ≤ merge.now.opening.now.head.number }
    requires few { AreFew (net_in merge.now.lists.now) }
    ensures merges { IfOk result (MergesValue (S.state store.old) name.now
        (mirror_part merge.now.totals merge.now.opening.now (net_in merge.now.lists.now))
        source.old source.new (λ bytes. IsKnown (S.state store.old) → (S.state store.new).stage
        ≡ Some (name.now, ended (head_lines Three head merge.now.opening.now.filter) ++ bytes))) }
    ensures refused { IfErr result (Refuses (S.state store.old) name.now source.old (mirror_at
        merge.now.opening.now.version merge.now.opening.now.head merge.now.opening.now.filter)) }
    ensures frame { ReadsOften IsDeviceFault (S.state store.old) (S.state store.new) result }
    ensures calls { (file : List ℕ) → HasFile (S.state store.old) name.now file
        → Advances IsDeviceFault
        (reads_ahead source.old file + length (left_of source.old file) + 6) (λ _. 0)
        (S.state store.old) (S.state store.new) result }
{
    match begin(alloc, store, name) {
        Ok(()) => {}
        Err(fault) => return Err(fault),
    }
    let mut writer = BlockWriter::new(alloc);
    match put_head(alloc, store, &mut writer, head, &merge.opening.filter) {
        Ok(()) => {}
        Err(fault) => return Err(fault),
    }
    let counted = match merge_lists(alloc, store, name, source, &mut writer, merge) {
        Ok(counted) => counted,
        Err(fault) => return Err(fault),
    };
    match writer.flush(store) {
        Ok(()) => Ok(counted),
        Err(fault) => Err(unwritten(fault)),
    }
}

// Gives the numbers that the lists of a save text have after net changes. They may be wrong if it
// is none, and so may the line of a fault.
fn count_save<S: Store>(
    alloc: Global,
    store: &mut S,
    name: &str,
    lists: &NetLists,
) -> Result<Totals, MergeFault>
    requires { AreFew (net_in lists.now) }
    ensures counted { IfOk result (λ totals. IsKnown (S.state store.old)
        → CountsAs ((S.state store.old).files name.now) (net_in lists.now) totals) }
    ensures refused { IfErr result (λ fault. IsKnown (S.state store.old)
        → CheckStops ((S.state store.old).files name.now) fault) }
    ensures frame { ReadsOften IsDeviceFault (S.state store.old) (S.state store.new) result }
    ensures spends { OnOk result (Spends 1 (S.state store.old).left (S.state store.new).left) }
    ensures calls { IsKnown (S.state store.old) → MakesAtMost IsDeviceFault
        (check_calls (bytes_in ((S.state store.old).files name.now)))
        (S.state store.old) (S.state store.new) result }
{
    let (mut source, opening) = match open_save(alloc, store, name) {
        Ok(opened) => opened,
        Err(fault) => return Err(fault),
    };
    match count_lists(alloc, store, name, &mut source, &opening, lists) {
        Ok(totals) => Ok(totals),
        Err(fault) => Err(fault),
    }
}

// Whether the text is the reason.
fn is_of_text(fault: MergeFault) -> bool
    ensures { IsTrue result ↔ IsOfText fault }
{
    matches!(
        fault,
        MergeFault::BadSave { line: _ } | MergeFault::LongLine
    )
}

// The fault of a file that is no save text: that which a check finds, whose line is the first bad
// one, or the one of before, if the check ends for another reason.
fn fault_of_text(fault: MergeFault, checked: Result<Checked, MergeFault>) -> MergeFault
    requires { IsOfText fault }
    ensures of_text { IsOfText result }
    ensures first { (first : MergeFault) → checked ≡ Err first → IsOfText first → result ≡ first }
{
    match checked {
        Err(first) if is_of_text(first) => first,
        _ => fault,
    }
}

// The first pass: gives the numbers that the lists of a save text have after net changes. They may
// be wrong if it is none, which the second pass finds.
fn count_pass<S: Store>(
    alloc: Global,
    store: &mut S,
    name: &str,
    lists: &NetLists,
) -> Result<Totals, MergeFault>
    requires { AreFew (net_in lists.now) }
    ensures counted { IfOk result (λ totals. IsKnown (S.state store.old)
        → CountsAs ((S.state store.old).files name.now) (net_in lists.now) totals) }
    ensures refused { IfErr result (λ fault. IsKnown (S.state store.old)
        → CheckStops ((S.state store.old).files name.now) fault) }
    ensures frame { ReadsOften IsDeviceFault (S.state store.old) (S.state store.new) result }
    ensures spends { OnOk result (Spends 1 (S.state store.old).left (S.state store.new).left) }
    ensures calls { IsKnown (S.state store.old) → MakesAtMost IsDeviceFault
        (check_calls (bytes_in ((S.state store.old).files name.now)))
        (S.state store.old) (S.state store.new) result }
{
    let fault = match count_save(alloc, store, name, lists) {
        Ok(totals) => return Ok(totals),
        Err(fault) => fault,
    };
    if !is_of_text(fault) {
        return Err(fault);
    }
    let checked = check_save(alloc, store, name);
    Err(fault_of_text(fault, checked))
}

// The second pass: checks the file, and writes what it gives with the new head and after net
// changes.
fn write_pass<S: Store>(
    alloc: Global,
    store: &mut S,
    name: &str,
    head: Head,
    totals: Totals,
    lists: &NetLists,
) -> Result<Totals, MergeFault>
    requires { AreFew (net_in lists.now) }
    ensures staged { IfOk result (λ counted. IsKnown (S.state store.old)
        → IsStaged ((S.state store.old).files name.now) (net_in lists.now) counted
        (λ saved. (S.state store.new).stage
        ≡ Some (name.now, merged_text head totals (net_in lists.now) saved))) }
    ensures refused { IfErr result (λ fault. IsKnown (S.state store.old)
        → CheckStops ((S.state store.old).files name.now) fault) }
    ensures frame { ReadsOften IsDeviceFault (S.state store.old) (S.state store.new) result }
    ensures calls { IsKnown (S.state store.old) → MakesAtMost IsDeviceFault
        (check_calls (bytes_in ((S.state store.old).files name.now))
        + bytes_in ((S.state store.old).files name.now) + 6)
        (S.state store.old) (S.state store.new) result }
{
    let (mut source, opening) = match open_save(alloc, store, name) {
        Ok(opened) => opened,
        Err(fault) => return Err(fault),
    };
    let merge = Merge {
        opening: &opening,
        totals,
        lists,
    };
    match write_lists(alloc, store, name, &mut source, head, &merge) {
        Ok(counted) => Ok(counted),
        Err(fault) => Err(fault),
    }
}

// Whether both are the same numbers.
fn are_same(a: Totals, b: Totals) -> bool
    ensures same { IsTrue result → a ≡ b }
    ensures other { result ≡ false → a ≡ b → ⊥ }
{
    a.objects == b.objects && a.users == b.users && a.changesets == b.changesets
}

// Puts the file that was begun into its place.
fn commit<S: Store>(store: &mut S) -> Result<(), MergeFault>
    ensures put { OnOk result (IsKnown (S.state store.old) → (name text : List ℕ)
        → (S.state store.old).stage ≡ Some (name, text)
        → Puts (S.state store.old).files name (Some text) (S.state store.new).files) }
    ensures refused { IfErr result IsPlain }
    ensures frame { ReplacesOften IsDeviceFault (S.state store.old) (S.state store.new) result }
    ensures calls { MakesAtMost IsDeviceFault 1 (S.state store.old) (S.state store.new) result }
{
    match store.commit() {
        Ok(()) => Ok(()),
        Err(error) => Err(fault_of(error)),
    }
}

/// Replaces the save text of a file with its merge with net changes, in two passes. The new text
/// has the head that is given and the old text's filter. If it would have more than
/// 999,999,999,999,999,999 objects, the most of a save text, the merge is refused as `TooLarge`. No
/// file changes until the commit, which is the last call. After a fault a file may have been begun;
/// `abandon` drops it.
pub fn merge_save<S: Store>(
    alloc: Global,
    store: &mut S,
    name: &str,
    head: Head,
    lists: &NetLists,
) -> Result<(), MergeFault>
    requires { AreFew (net_in lists.now) }
    ensures merged { OnOk result (IsKnown (S.state store.old) → IsMerged head (net_in lists.now)
        name.now (S.state store.old).files (S.state store.new).files) }
    ensures refused { IfErr result (λ fault. IsKnown (S.state store.old)
        → MergeStops ((S.state store.old).files name.now) (net_in lists.now) fault) }
    ensures frame { ReplacesOften IsDeviceFault (S.state store.old) (S.state store.new) result }
    ensures spends { OnOk result (Spends 1 (S.state store.old).left (S.state store.new).left) }
    ensures calls { IsKnown (S.state store.old) → MakesAtMost IsDeviceFault
        (merge_calls (bytes_in ((S.state store.old).files name.now)))
        (S.state store.old) (S.state store.new) result }
{
    let totals = match count_pass(alloc, store, name, lists) {
        Ok(totals) => totals,
        Err(fault) => return Err(fault),
    };
    let counted = match write_pass(alloc, store, name, head, totals, lists) {
        Ok(counted) => counted,
        Err(fault) => return Err(fault),
    };
    if !are_same(totals, counted) {
        return Err(MergeFault::Changed);
    }
    if counted.objects > MOST_OBJECTS {
        return Err(MergeFault::TooLarge);
    }
    match commit(store) {
        Ok(()) => Ok(()),
        Err(fault) => Err(fault),
    }
}
