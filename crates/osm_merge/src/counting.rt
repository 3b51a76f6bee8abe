//! Counting what the lists of a save text have after net changes, before the lists are written. Of
//! an object only the key is read.

ghost use Rattle.std.specs.Prelude.{◌≡◌, ℕ, ◌+◌, ◌≤◌, List, [], length, None, Some, IfErr, IfOk};
ghost use Rattle.osm_model.specs.Filter.{FilterValue};
ghost use Rattle.osm_model.specs.Limits.{max_sequence};
ghost use Rattle.osm_blocks.specs.Calls.{Advances, reads_ahead};
ghost use Rattle.osm_blocks.specs.Frames.{ReadsOften};
ghost use Rattle.osm_blocks.specs.Places.{HasFile, left_of};
ghost use Rattle.osm_net.specs.Laid.{laid_on, laid_over, put_before};
ghost use Rattle.osm_net.specs.Lists.{net_in};
ghost use Rattle.osm_save.specs.Reading.{items_at, mirror_at, object_at};
ghost use Rattle.osm_save.specs.declared.save.Saved.{Saved};
ghost use Rattle.osm_merge.specs.Calls.{ReadsTo};
ghost use Rattle.osm_merge.specs.Counting.{CountsObjects, CountsOne, PassesKey};
ghost use Rattle.osm_merge.specs.Faults.{IsDeviceFault};
ghost use Rattle.osm_merge.specs.Lists.{AreFew};
ghost use Rattle.osm_merge.specs.Mirrors.{totals_of};
ghost use Rattle.osm_merge.specs.Reading.{LineStops, Refuses};

use crate::fault::MergeFault;
use crate::lists::{Merge, Totals, merge_both};
use crate::objects::first_entry;
use crate::opening::Opening;
use crate::source::Source;
use osm_blocks::block_writer::BlockWriter;
use osm_model::change::Change;
use osm_model::kind::Key;
use osm_net::lists::NetLists;
use osm_opl::lines::line_key;
use osm_save::save::objects_limit;
use osm_store::store::Store;
use std::alloc::Global;
use std::cmp::Ordering;

// Passes the next line, and gives its key. The line isn't checked.
fn next_key<S: Store>(
    alloc: Global,
    store: &mut S,
    name: &str,
    source: &mut Source,
) -> Result<Key, MergeFault>
    ensures passed { (file : List ℕ) → HasFile (S.state store.old) name.now file
        → PassesKey file source.old source.new result }
    ensures frame { ReadsOften IsDeviceFault (S.state store.old) (S.state store.new) result }
    ensures calls { ReadsTo (S.state store.old) (S.state store.new) name.now source.old source.new
        result }
{
    let count = match source.next(alloc, store, name) {
        Ok(count) => count,
        Err(fault) => return Err(fault),
    };
    match line_key(source.line(count)) {
        Some(key) => {
            source.pass(count);
            Ok(key)
        }
        None => Err(source.wrong()),
    }
}

// How many objects an entry leaves.
fn count_left(left: &Option<Change>) -> u64
    ensures { result ≡ length (put_before left.now []) }
{
    match left {
        None => 0,
        Some(_) => 1,
    }
}

// How many objects an object with that key and the entries up to it leave, and the entries after
// those.
fn count_object(entries: &[(Key, Option<Change>)], object: Key) -> (&[(Key, Option<Change>)], u64)
    ensures { CountsOne entries.now object result.0.now result.1 }
{
    let mut rest = entries;
    let mut many = 0;
    while let Some((key, left, after)) = first_entry(rest) {
        match key.cmp(&object) {
            Ordering::Less => {
                many += count_left(left);
                rest = after;
            }
            Ordering::Equal => return (after, many + count_left(left)),
            Ordering::Greater => return (rest, many + 1),
        }
    }
    (rest, many + 1)
}

// How many objects the entries leave.
fn count_rest(entries: &[(Key, Option<Change>)]) -> u64
    ensures counted { result ≡ length (laid_over entries.now []) }
    ensures few { result ≤ length entries.now }
{
    let mut rest = entries;
    let mut many = 0;
    while let Some((_key, left, after)) = first_entry(rest) {
        many += count_left(left);
        rest = after;
    }
    many
}

// Passes so many lines of objects, and gives how many objects there are with the entries laid over
// them.
fn count_objects<S: Store>(
    alloc: Global,
    store: &mut S,
    name: &str,
    source: &mut Source,
    many: u64,
    entries: &[(Key, Option<Change>)],
) -> Result<u64, MergeFault>
    requires { many ≤ 999999999999999999 }
    ensures counted { IfOk result (λ count. (file : List ℕ)
        → HasFile (S.state store.old) name.now file
        → CountsObjects file source.old source.new many entries.now count) }
    ensures refused { IfErr result (λ fault. (file : List ℕ)
        → HasFile (S.state store.old) name.now file → (f : FilterValue)
        → LineStops file fault
        (items_at (λ c. c.key) (object_at f) many None (left_of source.old file))) }
    ensures frame { ReadsOften IsDeviceFault (S.state store.old) (S.state store.new) result }
    ensures calls { ReadsTo (S.state store.old) (S.state store.new) name.now source.old source.new
        result }
{
    let mut rest = entries;
    let mut count: u64 = 0;
    for _ in 0..many {
        let key = match next_key(alloc, store, name, source) {
            Ok(key) => key,
            Err(fault) => return Err(fault),
        };
        let (after, left) = count_object(rest, key);
        rest = after;
        count += left;
    }
    Ok(count + count_rest(rest))
}

/// Passes the lists of a save text, and gives the numbers of objects, users and changesets after
/// net changes. If the file is no save text, the numbers may be wrong.
pub(crate) fn count_lists<S: Store>(
    alloc: Global,
    store: &mut S,
    name: &str,
    source: &mut Source,
    opening: &Opening,
    lists: &NetLists,
) -> Result<Totals, MergeFault>
    requires number { opening.now.head.number ≤ max_sequence }
    requires base { opening.now.head.base ≤ opening.now.head.number }
    requires few { AreFew (net_in lists.now) }
    ensures counted { IfOk result (λ totals. (file : List ℕ)
        → HasFile (S.state store.old) name.now file → (saved : Saved)
        → mirror_at opening.now.version opening.now.head opening.now.filter
        (left_of source.old file) ≡ Some saved
        → totals ≡ totals_of (laid_on (net_in lists.now) saved.mirror)) }
    ensures refused { IfErr result (Refuses (S.state store.old) name.now source.old
        (mirror_at opening.now.version opening.now.head opening.now.filter)) }
    ensures frame { ReadsOften IsDeviceFault (S.state store.old) (S.state store.new) result }
    ensures calls { (file : List ℕ) → HasFile (S.state store.old) name.now file
        → Advances IsDeviceFault (reads_ahead source.old file) (λ _. 0)
        (S.state store.old) (S.state store.new) result }
{
    let most = objects_limit(opening.version, opening.head.number);
    let many = match source.numbered(alloc, store, name, b"objects ", most) {
        Ok(many) => many,
        Err(fault) => return Err(fault),
    };
    let entries = lists.objects.as_slice();
    let objects = match count_objects(alloc, store, name, source, many, entries) {
        Ok(objects) => objects,
        Err(fault) => return Err(fault),
    };
    let mut writer = BlockWriter::dropping(alloc);
    let none = Totals {
        objects: 0,
        users: 0,
        changesets: 0,
    };
    let merge = Merge {
        opening,
        totals: none,
        lists,
    };
    match merge_both(alloc, store, name, source, &mut writer, &merge) {
        Ok((users, changesets)) => Ok(Totals {
            objects,
            users,
            changesets,
        }),
        Err(fault) => Err(fault),
    }
}
