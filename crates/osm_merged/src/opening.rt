//! Where the lists of a save text begin.

ghost use Rattle.std.specs.Prelude.{◌≡◌, ℕ, ◌+◌, ◌≤◌, List, length, codes, IfErr, IfOk, OnOk};
ghost use Rattle.std.specs.List.{AllByRecursion};
ghost use Rattle.osm_blocks.specs.Calls.{Advances, reads_ahead};
ghost use Rattle.osm_blocks.specs.Frames.{ReadsOften};
ghost use Rattle.osm_blocks.specs.Places.{HasFile, left_of};
ghost use Rattle.osm_model.specs.Limits.{max_sequence};
ghost use Rattle.osm_net.specs.Laid.{added};
ghost use Rattle.osm_save.specs.Head.{most_counted};
ghost use Rattle.osm_save.specs.Reading.{counts_at};
ghost use Rattle.osm_store.specs.Files.{Spends};
ghost use Rattle.osm_store.specs.Frames.{IsKnown, MakesAtMost};
ghost use Rattle.osm_merge.specs.Calls.{ReadsTo, bytes_in, check_calls};
ghost use Rattle.osm_merge.specs.Checking.{CheckStops};
ghost use Rattle.osm_merge.specs.Faults.{IsDeviceFault};
ghost use Rattle.osm_merge.specs.Laying.{IsFew};
ghost use Rattle.osm_merge.specs.Reading.{Refuses};
ghost use Rattle.osm_merged.specs.Ahead.{counts_ahead, laid_after, most_in};
ghost use Rattle.osm_merged.specs.Opening.{BeginsMerged};

use crate::counts::MergedCounts;
use crate::objects::MergedObjects;
use osm_merge::fault::MergeFault;
use osm_merge::opening::{Opening, open_save};
use osm_merge::source::Source;
use osm_model::change::Change;
use osm_model::kind::Key;
use osm_model::limits::MAX_CHANGES;
use osm_save::save::objects_limit;
use osm_store::store::Store;
use std::alloc::Global;

/// Opens a save text, and passes everything before the lines of its objects, over which the entries
/// are then laid. The entries say what is left of objects, by rising keys. What follows the number
/// of the objects isn't checked yet.
pub fn open_objects<'a, S: Store>(
    alloc: Global,
    store: &mut S,
    name: &str,
    entries: &'a [(Key, Option<Change>)],
) -> Result<(Source, Opening, MergedObjects<'a>), MergeFault>
    ensures opened { IfOk result (λ r. IsKnown (S.state store.old)
        → BeginsMerged ((S.state store.old).files name.now) entries.now r.0 r.1 r.2) }
    ensures number { IfOk result (λ r. r.1.head.number ≤ max_sequence) }
    ensures base { IfOk result (λ r. r.1.head.base ≤ r.1.head.number) }
    ensures refused { IfErr result (λ fault. IsKnown (S.state store.old)
        → CheckStops ((S.state store.old).files name.now) fault) }
    ensures stage { (S.state store.new).stage ≡ (S.state store.old).stage }
    ensures frame { ReadsOften IsDeviceFault (S.state store.old) (S.state store.new) result }
    ensures spends { OnOk result (Spends 1 (S.state store.old).left (S.state store.new).left) }
    ensures calls { IsKnown (S.state store.old) → MakesAtMost IsDeviceFault
        (check_calls (bytes_in ((S.state store.old).files name.now)))
        (S.state store.old) (S.state store.new) result }
    ensures ahead { (file : List ℕ) → HasFile (S.state store.old) name.now file
        → Advances IsDeviceFault (check_calls (length file)) (λ r. reads_ahead r.0 file)
        (S.state store.old) (S.state store.new) result }
    ensures shorter { IfOk result (λ r. (file : List ℕ)
        → HasFile (S.state store.old) name.now file
        → most_in r.2 (left_of r.0 file) ≤ length file + length entries.now) }
{
    let (mut source, opening) = match open_save(alloc, store, name) {
        Ok(opened) => opened,
        Err(fault) => return Err(fault),
    };
    let most = objects_limit(opening.version, opening.head.number);
    match source.numbered(alloc, store, name, b"objects ", most) {
        Ok(many) => Ok((source, opening, MergedObjects::new(alloc, entries, many))),
        Err(fault) => Err(fault),
    }
}

/// Passes the line with the number of users, which follows the objects, and begins to read their
/// counts. The increments, by rising numbers, are added to the counts.
pub fn open_users<'a, S: Store>(
    alloc: Global,
    store: &mut S,
    name: &str,
    source: &mut Source,
    opening: &Opening,
    users: &'a [(u32, u64)],
) -> Result<MergedCounts<'a>, MergeFault>
    requires number { opening.now.head.number ≤ max_sequence }
    requires base { opening.now.head.base ≤ opening.now.head.number }
    requires few { AllByRecursion IsFew users.now }
    ensures opened { IfOk result (λ counts. (file : List ℕ)
        → HasFile (S.state store.old) name.now file
        → counts_ahead counts (left_of source.new file) ≡ laid_after added users.now
        (counts_at (codes "users ") (most_counted opening.now.head)
        (left_of source.old file))) }
    ensures refused { IfErr result (Refuses (S.state store.old) name.now source.old
        (counts_at (codes "users ") (most_counted opening.now.head))) }
    ensures stage { (S.state store.new).stage ≡ (S.state store.old).stage }
    ensures frame { ReadsOften IsDeviceFault (S.state store.old) (S.state store.new) result }
    ensures calls { ReadsTo (S.state store.old) (S.state store.new) name.now source.old source.new
        result }
{
    let most = counts_limit(opening);
    Ok(open_counts(alloc, store, name, source, b"users ", most, users)?)
}

/// Passes the line with the number of changesets, which follows the users, and begins to read their
/// counts. The increments, by rising numbers, are added to the counts.
pub fn open_changesets<'a, S: Store>(
    alloc: Global,
    store: &mut S,
    name: &str,
    source: &mut Source,
    opening: &Opening,
    changesets: &'a [(u32, u64)],
) -> Result<MergedCounts<'a>, MergeFault>
    requires number { opening.now.head.number ≤ max_sequence }
    requires base { opening.now.head.base ≤ opening.now.head.number }
    requires few { AllByRecursion IsFew changesets.now }
    ensures opened { IfOk result (λ counts. (file : List ℕ)
        → HasFile (S.state store.old) name.now file
        → counts_ahead counts (left_of source.new file) ≡ laid_after added changesets.now
        (counts_at (codes "changesets ") (most_counted opening.now.head)
        (left_of source.old file))) }
    ensures refused { IfErr result (Refuses (S.state store.old) name.now source.old
        (counts_at (codes "changesets ") (most_counted opening.now.head))) }
    ensures stage { (S.state store.new).stage ≡ (S.state store.old).stage }
    ensures frame { ReadsOften IsDeviceFault (S.state store.old) (S.state store.new) result }
    ensures calls { ReadsTo (S.state store.old) (S.state store.new) name.now source.old source.new
        result }
{
    let most = counts_limit(opening);
    Ok(open_counts(alloc, store, name, source, b"changesets ", most, changesets)?)
}

// The most that a count of a save text with that opening can be.
fn counts_limit(opening: &Opening) -> u64
    requires number { opening.now.head.number ≤ max_sequence }
    requires base { opening.now.head.base ≤ opening.now.head.number }
    ensures most { result ≡ most_counted opening.now.head }
    ensures few { result ≤ 999999999999999999 }
{
    MAX_CHANGES as u64 * (opening.head.number - opening.head.base) as u64
}

// Passes the line with the word and the number of counts, each at most `most`.
fn open_counts<'a, S: Store>(
    alloc: Global,
    store: &mut S,
    name: &str,
    source: &mut Source,
    word: &[u8],
    most: u64,
    increments: &'a [(u32, u64)],
) -> Result<MergedCounts<'a>, MergeFault>
    requires word { length word.now ≤ 100 }
    requires most { most ≤ 999999999999999999 }
    requires few { AllByRecursion IsFew increments.now }
    ensures opened { IfOk result (λ counts. (file : List ℕ)
        → HasFile (S.state store.old) name.now file
        → counts_ahead counts (left_of source.new file) ≡ laid_after added increments.now
        (counts_at word.now most (left_of source.old file))) }
    ensures refused { IfErr result (Refuses (S.state store.old) name.now source.old
        (counts_at word.now most)) }
    ensures stage { (S.state store.new).stage ≡ (S.state store.old).stage }
    ensures frame { ReadsOften IsDeviceFault (S.state store.old) (S.state store.new) result }
    ensures calls { ReadsTo (S.state store.old) (S.state store.new) name.now source.old source.new
        result }
{
    match source.numbered(alloc, store, name, word, most) {
        Ok(many) => Ok(MergedCounts::new(increments, most, many)),
        Err(fault) => Err(fault),
    }
}
