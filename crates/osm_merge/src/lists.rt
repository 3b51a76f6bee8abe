//! Merging the lists of a save text with net changes.

ghost use Rattle.std.specs.Prelude.{◌≡◌, ◌++◌, ◌≤◌, ◌∷◌, [], length, codes, decimal, IfErr, IfOk};
ghost use Rattle.std.specs.Prelude.{OnOk};
ghost use Rattle.std.specs.List.{AllByRecursion};
ghost use Rattle.osm_store.specs.Frames.{MakesAtMost};
ghost use Rattle.osm_blocks.specs.Calls.{puts_of};
ghost use Rattle.osm_blocks.specs.Frames.{ReadsOften};
ghost use Rattle.osm_net.specs.Lists.{net_in};
ghost use Rattle.osm_save.specs.Lines.{ended};
ghost use Rattle.osm_model.specs.Limits.{max_sequence};
ghost use Rattle.osm_merge.specs.Faults.{IsDeviceFault, IsPlain};
ghost use Rattle.osm_merge.specs.Laying.{IsFew, Writes};
ghost use Rattle.osm_merge.specs.Lists.{AreFew};
ghost use Rattle.osm_merge.specs.Parts.{MergesPart, both_part, counts_part, end_part};
ghost use Rattle.osm_merge.specs.Parts.{header_part, mirror_part, objects_part};

use crate::counts::merge_counts;
use crate::fault::{MergeFault, unwritten};
use crate::objects::merge_objects;
use crate::opening::Opening;
use crate::source::Source;
use osm_blocks::block_writer::BlockWriter;
use osm_model::limits::MAX_CHANGES;
use osm_model::memory::WantOfMemory;
use osm_net::lists::NetLists;
use osm_save::lines::write_numbered;
use osm_save::save::objects_limit;
use osm_store::store::Store;
use std::alloc::Global;

/// The numbers of objects, users and changesets of a save text.
#[derive(Clone, Copy, Debug, PartialEq, Eq)]
pub struct Totals {
    pub objects: u64,
    pub users: u64,
    pub changesets: u64,
}

/// A merge of the lists of a save text: how the text begins, the net changes, and the numbers that
/// are written as those of the merged lists.
#[derive(Clone, Copy)]
pub(crate) struct Merge<'a> {
    pub(crate) opening: &'a Opening,
    pub(crate) totals: Totals,
    pub(crate) lists: &'a NetLists,
}

/// The first line of a list: its word, the most that its number can be, and the number that is
/// written in its place.
#[derive(Clone, Copy)]
pub(crate) struct Header<'a> {
    pub(crate) word: &'a [u8],
    pub(crate) most: u64,
    pub(crate) total: u64,
}

/// A merge of a list of counts, each at most as large as the number of the list can be: its first
/// line, and the increments.
#[derive(Clone, Copy)]
pub(crate) struct CountList<'a> {
    pub(crate) header: Header<'a>,
    pub(crate) increments: &'a [(u32, u64)],
}

// Writes a line with a word and a number.
fn put_header<S: Store>(
    alloc: Global,
    store: &mut S,
    writer: &mut BlockWriter,
    word: &[u8],
    total: u64,
) -> Result<(), MergeFault>
    ensures written { OnOk result (Writes (S.state store.old) writer.old
        (S.state store.new) writer.new
        (ended ((word.now ++ decimal total) ∷ []))) }
    ensures refused { IfErr result IsPlain }
    ensures frame { ReadsOften IsDeviceFault (S.state store.old) (S.state store.new) result }
    ensures calls { MakesAtMost IsDeviceFault (puts_of writer.old)
        (S.state store.old) (S.state store.new) result }
    ensures keeps { OnOk result (writer.new.is_writing ≡ writer.old.is_writing) }
{
    let mut line = Vec::new(alloc);
    let Ok(()) = write_numbered(word, total, &mut line) else {
        return Err(MergeFault::WantOfMemory);
    };
    match writer.put(store, line.as_slice()) {
        Ok(()) => Ok(()),
        Err(fault) => Err(unwritten(fault)),
    }
}

// Passes the first line of a list, and writes that of the merged list. Gives the number that was
// read.
fn begin_list<S: Store>(
    alloc: Global,
    store: &mut S,
    name: &str,
    source: &mut Source,
    writer: &mut BlockWriter,
    header: &Header<'_>,
) -> Result<u64, MergeFault>
    requires { length header.now.word.now ≤ 100 }
    ensures merges { MergesPart name.now
        (header_part header.now.word.now header.now.most header.now.total) result
        (S.state store.old) source.old writer.old (S.state store.new) source.new writer.new }
    ensures limit { IfOk result (λ n. n ≤ header.now.most) }
{
    let many = match source.numbered(alloc, store, name, header.word, header.most) {
        Ok(many) => many,
        Err(fault) => return Err(fault),
    };
    match put_header(alloc, store, writer, header.word, header.total) {
        Ok(()) => Ok(many),
        Err(fault) => Err(fault),
    }
}

/// Passes the list of objects, writes the list with the entries laid over it, and gives the number
/// of objects written.
pub(crate) fn merge_object_list<S: Store>(
    alloc: Global,
    store: &mut S,
    name: &str,
    source: &mut Source,
    writer: &mut BlockWriter,
    merge: &Merge<'_>,
) -> Result<u64, MergeFault>
    requires { merge.now.opening.now.head.number ≤ max_sequence }
    ensures { MergesPart name.now
        (objects_part merge.now.totals merge.now.opening.now (net_in merge.now.lists.now)) result
        (S.state store.old) source.old writer.old (S.state store.new) source.new writer.new }
{
    let opening = merge.opening;
    let most = objects_limit(opening.version, opening.head.number);
    let header = Header {
        word: b"objects ",
        most,
        total: merge.totals.objects,
    };
    let many = match begin_list(alloc, store, name, source, writer, &header) {
        Ok(many) => many,
        Err(fault) => return Err(fault),
    };
    match merge_objects(alloc, store, name, source, writer, many, merge) {
        Ok(count) => Ok(count),
        Err(fault) => Err(fault),
    }
}

/// Passes a list of counts, writes the list with the increments added, and gives the number of
/// counts written.
pub(crate) fn merge_count_list<S: Store>(
    alloc: Global,
    store: &mut S,
    name: &str,
    source: &mut Source,
    writer: &mut BlockWriter,
    list: &CountList<'_>,
) -> Result<u64, MergeFault>
    requires word { length list.now.header.word.now ≤ 100 }
    requires most { list.now.header.most ≤ 999999999999999999 }
    requires few { AllByRecursion IsFew list.now.increments.now }
    ensures { MergesPart name.now (counts_part list.now.header.word.now list.now.header.most
        list.now.header.total list.now.increments.now) result
        (S.state store.old) source.old writer.old (S.state store.new) source.new writer.new }
{
    let many = match begin_list(alloc, store, name, source, writer, &list.header) {
        Ok(many) => many,
        Err(fault) => return Err(fault),
    };
    match merge_counts(alloc, store, name, source, writer, many, list) {
        Ok(count) => Ok(count),
        Err(fault) => Err(fault),
    }
}

// Writes the line `end`.
fn put_end<S: Store>(store: &mut S, writer: &mut BlockWriter) -> Result<(), MergeFault>
    ensures written { OnOk result (Writes (S.state store.old) writer.old
        (S.state store.new) writer.new
        (codes "end" ++ 10 ∷ [])) }
    ensures refused { IfErr result IsPlain }
    ensures frame { ReadsOften IsDeviceFault (S.state store.old) (S.state store.new) result }
    ensures calls { MakesAtMost IsDeviceFault (puts_of writer.old)
        (S.state store.old) (S.state store.new) result }
    ensures keeps { OnOk result (writer.new.is_writing ≡ writer.old.is_writing) }
{
    match writer.put(store, b"end\n") {
        Ok(()) => Ok(()),
        Err(fault) => Err(unwritten(fault)),
    }
}

// Passes the line `end`, after which the file has to end, and writes the line.
fn merge_end<S: Store>(
    alloc: Global,
    store: &mut S,
    name: &str,
    source: &mut Source,
    writer: &mut BlockWriter,
) -> Result<(), MergeFault>
    ensures { MergesPart name.now end_part result
        (S.state store.old) source.old writer.old (S.state store.new) source.new writer.new }
{
    match source.end(alloc, store, name) {
        Ok(()) => {}
        Err(fault) => return Err(fault),
    }
    match put_end(store, writer) {
        Ok(()) => Ok(()),
        Err(fault) => Err(fault),
    }
}

/// Passes both lists of counts and the line `end`. Writes the lists with the increments added, and
/// `end`. Gives the numbers of users and of changesets written.
pub(crate) fn merge_both<S: Store>(
    alloc: Global,
    store: &mut S,
    name: &str,
    source: &mut Source,
    writer: &mut BlockWriter,
    merge: &Merge<'_>,
) -> Result<(u64, u64), MergeFault>
    requires number { merge.now.opening.now.head.number ≤ max_sequence }
    requires base { merge.now.opening.now.head.base ≤ merge.now.opening.now.head.number }
    requires few { AreFew (net_in merge.now.lists.now) }
    ensures { MergesPart name.now
        (both_part merge.now.totals merge.now.opening.now (net_in merge.now.lists.now)) result
        (S.state store.old) source.old writer.old (S.state store.new) source.new writer.new }
{
    let head = merge.opening.head;
    let most = MAX_CHANGES as u64 * (head.number - head.base) as u64;
    let users = CountList {
        header: Header {
            word: b"users ",
            most,
            total: merge.totals.users,
        },
        increments: merge.lists.users.as_slice(),
    };
    let many = match merge_count_list(alloc, store, name, source, writer, &users) {
        Ok(many) => many,
        Err(fault) => return Err(fault),
    };
    let changesets = CountList {
        header: Header {
            word: b"changesets ",
            most,
            total: merge.totals.changesets,
        },
        increments: merge.lists.changesets.as_slice(),
    };
    let other = match merge_count_list(alloc, store, name, source, writer, &changesets) {
        Ok(other) => other,
        Err(fault) => return Err(fault),
    };
    match merge_end(alloc, store, name, source, writer) {
        Ok(()) => Ok((many, other)),
        Err(fault) => Err(fault),
    }
}

/// Passes the lists of a mirror and the line `end`. Writes the lists after net changes, with the
/// numbers of the merge, and `end`. Gives the numbers of objects, users and changesets written.
pub(crate) fn merge_lists<S: Store>(
    alloc: Global,
    store: &mut S,
    name: &str,
    source: &mut Source,
    writer: &mut BlockWriter,
    merge: &Merge<'_>,
) -> Result<Totals, MergeFault>
    requires number { merge.now.opening.now.head.number ≤ max_sequence }
    requires base { merge.now.opening.now.head.base ≤ merge.now.opening.now.head.number }
    requires few { AreFew (net_in merge.now.lists.now) }
    ensures { MergesPart name.now
        (mirror_part merge.now.totals merge.now.opening.now (net_in merge.now.lists.now)) result
        (S.state store.old) source.old writer.old (S.state store.new) source.new writer.new }
{
    let objects = match merge_object_list(alloc, store, name, source, writer, merge) {
        Ok(objects) => objects,
        Err(fault) => return Err(fault),
    };
    match merge_both(alloc, store, name, source, writer, merge) {
        Ok((users, changesets)) => Ok(Totals {
            objects,
            users,
            changesets,
        }),
        Err(fault) => Err(fault),
    }
}
