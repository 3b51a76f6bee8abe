//! A run of the follower over a folder, which goes on from what a save and its journal keep. Most
//! runs don't rewrite a large save: new sequences go to the journal, until the journal would be too
//! long.

ghost use Rattle.std.specs.Prelude.{◌≡◌, ◌↔◌, ℕ, ◌≤◌, List, None};
ghost use Rattle.std.specs.Prelude.{IfErr, IfOk, IfSome, IsTrue, OnErr, OnOk};
ghost use Rattle.osm_model.specs.Limits.{max_file};
ghost use Rattle.osm_publisher.specs.Published.{PublishedValue};
ghost use Rattle.osm_store.specs.Files.{IsOver, Spends, SpendsAtMost};
ghost use Rattle.osm_store.specs.Frames.{IsKnown};
ghost use Rattle.osm_merge.specs.Frames.{ReplacesOften};
ghost use Rattle.osm_kept.specs.Names.{journal_name_of};
ghost use Rattle.osm_runs.specs.Folder.{IsFolderOf};
ghost use Rattle.osm_runs.specs.Keeping.{IsKeptOf};
ghost use Rattle.osm_runs.specs.Progress as progress;
ghost use Rattle.osm_runs.specs.Progress.{IsProgressReport};
ghost use Rattle.osm_runs.specs.Runs.{IsDeviceFault, Reads};
ghost use Rattle.osm_runs.specs.declared.fault.FileName.TheVariants.{Top};
ghost use Rattle.osm_runs.specs.declared.fault.RunFault.TheVariants.{Absent, OtherFilter};
ghost use Rattle.osm_round.specs.Keeping.{IsFollowed, IsUnder, head_in};
ghost use Rattle.osm_round.specs.KeepingOver.{GoesOnOver};
ghost use Rattle.osm_round.specs.KeepingSteps.{AreEnds, FollowsFrom, FollowsWithin, IsBothFault};
ghost use Rattle.osm_round.specs.KeepingSteps.{IsMostBeside, IsOtherFilter, IsReadingFault};
ghost use Rattle.osm_round.specs.KeepingSteps.{IsSaveFault};
ghost use Rattle.osm_round.specs.KeepingStops.{FollowStops, IsFirstKept, KeepingStops};
ghost use Rattle.osm_round.specs.Rounds.{IsLess, IsWhole};

use crate::gathered::Gathered;
use crate::keeping::{Intake, put_kept};
use crate::round::{Prepared, check_whole, prepare_with, progress_of};
use osm_kept::ends::read_ends;
use osm_kept::found::Ends;
use osm_kept::laws::laws_of_kept;
use osm_kept::names::journal_name;
use osm_model::filter::{Filter, laws_of_filters};
use osm_runs::fault::{FileName, RunFault};
use osm_runs::kept::kept_fault;
use osm_runs::options::FollowOptions;
use osm_runs::progress::Progress;
use osm_runs::standing::NO_HEAD;
use osm_save::head::Head;
use osm_state::laws::laws_of_state;
use osm_store::store::{Store, StoreError};
use std::alloc::Global;

/// The size up to which a run rewrites the save, and the most bytes of a journal.
#[derive(Clone, Copy, Debug, PartialEq, Eq)]
pub struct Sizes {
    /// The most bytes of a small save, which each run that takes a sequence rewrites.
    pub small: u64,
    /// The most bytes of a journal that a run writes; at most 64 MiB.
    pub most: u64,
}

/// Applies a folder's new sequences to a save with its journal, or to the start if there is no
/// save. The run goes up to the newest number, to its limit, or to the number before a missing or
/// faulty one. A run that reports in lines works in parts: it stops after the number with which the
/// change files have 16 MiB, and the next run goes on there. The save keeps the objects that the
/// filter keeps, and the counts are those of all edits. A save with another filter is refused as
/// `OtherFilter`.
///
/// A number is missing if it has no state file, or neither change file. The missing numbers are
/// reported up to 64 after the number that was reached. After the first missing number, the run
/// only asks which files are there, so a faulty file there is no fault. The save may have any size,
/// and memory doesn't grow with it.
///
/// Each run checks a small save as a whole, and a run that takes a sequence rewrites it, with what
/// its journal has. Of a large save only the beginning is read. New sequences are written to its
/// journal, unless the journal would then have more than `most` bytes. In that case the save is
/// rewritten, and the old journal is then one of another save. A run that takes nothing writes
/// nothing.
///
/// A journal of another save that ends above this save, or one that isn't empty without a save, is
/// refused as `OtherJournal`: it may hold sequences that no other file holds. One that doesn't end
/// above is what remains after a rewritten save. It says nothing, and the next run that writes a
/// journal writes over it. No run empties a journal, and a refusal changes no file.
pub fn follow_kept<S: Store>(
    alloc: Global,
    store: &mut S,
    dir: &str,
    save: &str,
    options: &FollowOptions,
    sizes: &Sizes,
) -> Result<Progress, RunFault>
    requires most { sizes.now.most ≤ max_file }
    ensures follows { IfOk result (λ progress. IsKnown (S.state store.old)
        → IsFollowed (IsKnown (S.state store.old)) options.now sizes.now dir.now save.now
        (S.state store.old).files (S.state store.new).files progress) }
    ensures report { IfOk result (IsProgressReport options.now.layout) }
    ensures less { IfOk result (IsLess options.now.limit) }
    ensures stops { IfErr result (FollowStops (IsKnown (S.state store.old)) options.now sizes.now
        dir.now save.now (S.state store.old).files) }
    ensures leaves { OnErr result ((S.state store.new).files ≡ (S.state store.old).files) }
    ensures over { IsKnown (S.state store.old) → (published : List PublishedValue) (base number : ℕ)
        → IsFolderOf published (S.state store.old).files dir.now
        → IsKeptOf published options.now.filter base number save.now (S.state store.old).files
        → progress.IsWhole options.now result (λ under. GoesOnOver published under base number
        dir.now save.now (S.state store.old) (S.state store.new)) }
    ensures spends { OnOk result (Spends 4 (S.state store.old).left (S.state store.new).left) }
    ensures frame { ReplacesOften IsDeviceFault (S.state store.old) (S.state store.new) result }
{
    laws_of_state();
    laws_of_kept();
    let (ends, most) = match read_files(alloc, store, save, sizes) {
        Ok(read) => read,
        Err(fault) => return Err(fault),
    };
    follow_from(alloc, store, dir, save, options, most, ends)
}

// Reads how far the two files reach, and gives the most bytes of the journal beside a large save.
fn read_files<S: Store>(
    alloc: Global,
    store: &mut S,
    save: &str,
    sizes: &Sizes,
) -> Result<(Ends, Option<u64>), RunFault>
    requires most { sizes.now.most ≤ max_file }
    ensures ends { IfOk result
        (λ r. AreEnds (IsKnown (S.state store.old)) save.now (S.state store.old).files r.0) }
    ensures most { IfOk result (λ r. IsKnown (S.state store.old)
        → IsMostBeside sizes.now ((S.state store.old).files save.now) r.1) }
    ensures low { IfOk result (λ r. IfSome r.1 (λ most. most ≤ max_file)) }
    ensures stops { IfErr result (IsReadingFault (IsKnown (S.state store.old))
        ((S.state store.old).files save.now)
        ((S.state store.old).files (journal_name_of save.now))) }
    ensures frame { Reads 3 (S.state store.old) (S.state store.new) result }
{
    let ends = match read_both(alloc, store, save) {
        Ok(ends) => ends,
        Err(fault) => return Err(fault),
    };
    let large = match is_large(alloc, store, save, sizes.small) {
        Ok(large) => large,
        Err(fault) => return Err(fault),
    };
    if large {
        Ok((ends, Some(sizes.most)))
    } else {
        Ok((ends, None))
    }
}

// Reads how far the two files reach.
fn read_both<S: Store>(alloc: Global, store: &mut S, save: &str) -> Result<Ends, RunFault>
    ensures ends { IfOk result
        (AreEnds (IsKnown (S.state store.old)) save.now (S.state store.old).files) }
    ensures stops { IfErr result (IsBothFault (IsKnown (S.state store.old))
        ((S.state store.old).files save.now)
        ((S.state store.old).files (journal_name_of save.now))) }
    ensures frame { Reads 2 (S.state store.old) (S.state store.new) result }
{
    let journal = match journal_name(alloc, save) {
        Ok(name) => name,
        Err(_) => return Err(RunFault::WantOfMemory),
    };
    match read_ends(alloc, store, save, journal.as_str()) {
        Ok(ends) => Ok(ends),
        Err(fault) => Err(kept_fault(fault)),
    }
}

// Goes on from what was read of the two files. Beside a small save, or none, a fault of a save that
// is no save text comes before those of the folder.
fn follow_from<S: Store>(
    alloc: Global,
    store: &mut S,
    dir: &str,
    save: &str,
    options: &FollowOptions,
    most: Option<u64>,
    ends: Ends,
) -> Result<Progress, RunFault>
    requires most { IfSome most (λ bound. bound ≤ max_file) }
    requires ends { AreEnds (IsKnown (S.state store.old)) save.now (S.state store.old).files ends }
    ensures follows { IfOk result (λ progress. IsKnown (S.state store.old)
        → FollowsFrom (IsKnown (S.state store.old)) options.now most dir.now save.now
        (S.state store.old).files (S.state store.new).files progress) }
    ensures report { IfOk result (IsProgressReport options.now.layout) }
    ensures less { IfOk result (IsLess options.now.limit) }
    ensures stops { IfErr result (KeepingStops (IsKnown (S.state store.old)) options.now
        dir.now save.now (S.state store.old).files) }
    ensures first { IfErr result (λ fault. IsKnown (S.state store.old) → most ≡ None
        → (IsFirstKept fault → ⊥) → IsWhole ((S.state store.old).files save.now)) }
    ensures calls { FollowsWithin 1 options.now.filter dir.now save.now
        (S.state store.old) (S.state store.new) result }
    ensures spends { OnOk result (Spends 1 (S.state store.old).left (S.state store.new).left) }
    ensures frame { ReplacesOften IsDeviceFault (S.state store.old) (S.state store.new) result }
{
    laws_of_state();
    laws_of_kept();
    match go_on(alloc, store, dir, save, options, most, ends) {
        Ok(progress) => Ok(progress),
        Err(fault) => {
            if most.is_some() {
                return Err(fault);
            }
            if is_first_kept(&fault) {
                return Err(fault);
            }
            match check_whole(alloc, store, save) {
                Ok(()) => Err(fault),
                Err(found) => Err(found),
            }
        }
    }
}

// Goes on from what was read of the two files; `most` is the most bytes of the journal of a large
// save.
fn go_on<S: Store>(
    alloc: Global,
    store: &mut S,
    dir: &str,
    save: &str,
    options: &FollowOptions,
    most: Option<u64>,
    ends: Ends,
) -> Result<Progress, RunFault>
    requires most { IfSome most (λ bound. bound ≤ max_file) }
    requires ends { AreEnds (IsKnown (S.state store.old)) save.now (S.state store.old).files ends }
    ensures follows { IfOk result (λ progress. IsKnown (S.state store.old)
        → FollowsFrom (IsKnown (S.state store.old)) options.now most dir.now save.now
        (S.state store.old).files (S.state store.new).files progress) }
    ensures report { IfOk result (IsProgressReport options.now.layout) }
    ensures less { IfOk result (IsLess options.now.limit) }
    ensures stops { IfErr result (KeepingStops (IsKnown (S.state store.old)) options.now
        dir.now save.now (S.state store.old).files) }
    ensures top { IfErr result (λ fault. fault ≡ Absent Top
        → SpendsAtMost 1 (S.state store.old).left (S.state store.new).left) }
    ensures calls { FollowsWithin 1 options.now.filter dir.now save.now
        (S.state store.old) (S.state store.new) result }
    ensures spends { OnOk result (Spends 1 (S.state store.old).left (S.state store.new).left) }
    ensures frame { ReplacesOften IsDeviceFault (S.state store.old) (S.state store.new) result }
{
    laws_of_state();
    laws_of_kept();
    let head = match head_under(&ends, &options.filter) {
        Ok(head) => head,
        Err(fault) => return Err(fault),
    };
    let mut gathered = Gathered::up_to(alloc, most.unwrap_or(0));
    let Prepared {
        taken,
        report,
        ending,
    } = match prepare_with(alloc, store, dir, head, options, &mut gathered) {
        Ok(Some(prepared)) => prepared,
        Ok(None) => return Err(RunFault::Absent(FileName::Top)),
        Err(fault) => return Err(fault),
    };
    let intake = Intake { taken, gathered };
    match put_kept(alloc, store, save, &options.filter, most, ends, intake) {
        Ok(()) => Ok(progress_of(report, ending)),
        Err(fault) => Err(fault),
    }
}

// Whether a save is a large one: whether it has more bytes than that.
fn is_large<S: Store>(
    alloc: Global,
    store: &mut S,
    save: &str,
    small: u64,
) -> Result<bool, RunFault>
    ensures large { IfOk result (λ large. IsKnown (S.state store.old)
        → (IsTrue large ↔ IsOver small ((S.state store.old).files save.now))) }
    ensures stops { IfErr result IsSaveFault }
    ensures frame { Reads 1 (S.state store.old) (S.state store.new) result }
{
    match store.read_at(alloc, save, small, 1) {
        Ok(Some(bytes)) => Ok(!bytes.is_empty()),
        Ok(None) => Ok(false),
        Err(StoreError::Device) => Err(RunFault::ReadFault(FileName::Save)),
        Err(StoreError::TooLarge) => unreachable!(),
        Err(StoreError::WantOfMemory) => Err(RunFault::WantOfMemory),
    }
}

// The head that the two files come to, if the save is under that filter.
fn head_under(ends: &Ends, filter: &Filter) -> Result<Head, RunFault>
    ensures head { IfOk result (λ head. head ≡ head_in ends.now.kept) }
    ensures under { OnOk result (IsUnder filter.now ends.now.kept) }
    ensures other { IfErr result
        (λ fault. (fault ≡ OtherFilter) × IsOtherFilter filter.now ends.now.kept) }
{
    let Some(reach) = &ends.kept else {
        return Ok(NO_HEAD);
    };
    if !are_same(&reach.start.filter, filter) {
        return Err(RunFault::OtherFilter);
    }
    Ok(reach.head)
}

// Whether two filters are equal.
fn are_same(filter: &Filter, other: &Filter) -> bool
    ensures { IsTrue result ↔ (filter.now ≡ other.now) }
{
    laws_of_filters();
    filter == other
}

// Whether a fault is one of memory, of the save or of its journal, before which none comes.
fn is_first_kept(fault: &RunFault) -> bool
    ensures { IsTrue result ↔ IsFirstKept fault.now }
{
    match fault {
        RunFault::WantOfMemory
        | RunFault::BadSave(_)
        | RunFault::BadJournal(_)
        | RunFault::OtherJournal(_) => true,
        RunFault::ReadFault(FileName::Save | FileName::Journal) => true,
        RunFault::TooLarge(FileName::Save | FileName::Journal) => true,
        _ => false,
    }
}
