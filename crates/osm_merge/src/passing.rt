//! Checking what follows the objects of a save text.

ghost use Rattle.std.specs.Prelude.{◌≡◌, ℕ, ◌≤◌, List, length, None, IfErr, OnOk};
ghost use Rattle.osm_model.specs.Limits.{max_sequence};
ghost use Rattle.osm_blocks.specs.Calls.{Advances, reads_ahead};
ghost use Rattle.osm_blocks.specs.Frames.{ReadsOften};
ghost use Rattle.osm_blocks.specs.Places.{HasFile, left_of};
ghost use Rattle.osm_save.specs.Head.{most_counted};
ghost use Rattle.osm_save.specs.Reading.{count_at, counts_at, items_at};
ghost use Rattle.osm_merge.specs.Calls.{ReadsTo};
ghost use Rattle.osm_merge.specs.Faults.{IsDeviceFault};
ghost use Rattle.osm_merge.specs.Mirrors.{both_at};
ghost use Rattle.osm_merge.specs.Passing.{IsRead, PassesTo};
ghost use Rattle.osm_merge.specs.Reading.{Refuses};

use crate::counts::next_count;
use crate::fault::MergeFault;
use crate::opening::Opening;
use crate::source::Source;
use osm_model::limits::MAX_CHANGES;
use osm_store::store::Store;
use std::alloc::Global;

// Passes the lines of so many counts, each at most `most`.
fn pass_counts<S: Store>(
    alloc: Global,
    store: &mut S,
    name: &str,
    source: &mut Source,
    most: u64,
    many: u64,
) -> Result<(), MergeFault>
    requires { most ≤ 999999999999999999 }
    ensures passed { OnOk result ((file : List ℕ) → HasFile (S.state store.old) name.now file
        → PassesTo (items_at (λ e. e.0) (count_at most) many None (left_of source.old file))
        (left_of source.new file)) }
    ensures refused { IfErr result (Refuses (S.state store.old) name.now source.old
        (items_at (λ e. e.0) (count_at most) many None)) }
    ensures stage { (S.state store.new).stage ≡ (S.state store.old).stage }
    ensures frame { ReadsOften IsDeviceFault (S.state store.old) (S.state store.new) result }
    ensures calls { ReadsTo (S.state store.old) (S.state store.new) name.now source.old source.new
        result }
{
    let mut last = None;
    for _ in 0..many {
        let count = match next_count(alloc, store, name, source, most, last) {
            Ok(count) => count,
            Err(fault) => return Err(fault),
        };
        last = Some(count.0);
    }
    Ok(())
}

// Passes the list of counts that begins with the word, each at most `most`.
fn pass_list<S: Store>(
    alloc: Global,
    store: &mut S,
    name: &str,
    source: &mut Source,
    word: &[u8],
    most: u64,
) -> Result<(), MergeFault>
    requires word { length word.now ≤ 100 }
    requires most { most ≤ 999999999999999999 }
    ensures passed { OnOk result ((file : List ℕ) → HasFile (S.state store.old) name.now file
        → PassesTo (counts_at word.now most (left_of source.old file))
        (left_of source.new file)) }
    ensures refused { IfErr result (Refuses (S.state store.old) name.now source.old
        (counts_at word.now most)) }
    ensures stage { (S.state store.new).stage ≡ (S.state store.old).stage }
    ensures frame { ReadsOften IsDeviceFault (S.state store.old) (S.state store.new) result }
    ensures calls { ReadsTo (S.state store.old) (S.state store.new) name.now source.old source.new
        result }
{
    let many = match source.numbered(alloc, store, name, word, most) {
        Ok(many) => many,
        Err(fault) => return Err(fault),
    };
    match pass_counts(alloc, store, name, source, most, many) {
        Ok(()) => Ok(()),
        Err(fault) => Err(fault),
    }
}

/// Passes what follows the objects of a save text with that opening: both lists of counts and the
/// line `end`, after which nothing may be left. A file that was begun stays as it is.
pub fn pass_rest<S: Store>(
    alloc: Global,
    store: &mut S,
    name: &str,
    source: &mut Source,
    opening: &Opening,
) -> Result<(), MergeFault>
    requires number { opening.now.head.number ≤ max_sequence }
    requires base { opening.now.head.base ≤ opening.now.head.number }
    ensures passed { OnOk result ((file : List ℕ) → HasFile (S.state store.old) name.now file
        → IsRead (both_at (most_counted opening.now.head) (left_of source.old file))) }
    ensures refused { IfErr result (Refuses (S.state store.old) name.now source.old
        (both_at (most_counted opening.now.head))) }
    ensures stage { (S.state store.new).stage ≡ (S.state store.old).stage }
    ensures frame { ReadsOften IsDeviceFault (S.state store.old) (S.state store.new) result }
    ensures calls { (file : List ℕ) → HasFile (S.state store.old) name.now file
        → Advances IsDeviceFault (reads_ahead source.old file) (λ _. 0)
        (S.state store.old) (S.state store.new) result }
{
    let most = MAX_CHANGES as u64 * (opening.head.number - opening.head.base) as u64;
    match pass_list(alloc, store, name, source, b"users ", most) {
        Ok(()) => {}
        Err(fault) => return Err(fault),
    }
    match pass_list(alloc, store, name, source, b"changesets ", most) {
        Ok(()) => {}
        Err(fault) => return Err(fault),
    }
    match source.end(alloc, store, name) {
        Ok(()) => Ok(()),
        Err(fault) => Err(fault),
    }
}
