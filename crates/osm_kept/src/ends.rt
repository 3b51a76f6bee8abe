//! How far a save and its journal reach.

ghost use Rattle.std.specs.Prelude.{◌≡◌, List, ℕ, Option, None, Some, IfErr, IfOk, OnOk, map};
ghost use Rattle.osm_journal.specs.Journal.{batch_of, journal_of};
ghost use Rattle.osm_store.specs.Files.{SpendsAtMost};
ghost use Rattle.osm_store.specs.Frames.{IsKnown, ReadsBetween};
ghost use Rattle.osm_kept.specs.Finding.{IsStart, bytes_of};
ghost use Rattle.osm_kept.specs.Reaching.{FindsEnds, IsReachIn, head_past};
ghost use Rattle.osm_kept.specs.Refusal.{EndsStop, HasNoOther, IsDeviceFault, IsOfOnce, IsOther};
ghost use Rattle.osm_kept.specs.Refusal.{IsOfOtherJournal, LacksCalls};
ghost use Rattle.osm_kept.specs.Steps.Taking.{BytesStops, Holds, IsOfText, ReachStops};
ghost use Rattle.osm_kept.specs.Steps.Taking.{ReachesHead, last_in};

use crate::fault::KeptFault;
use crate::found::{Ends, JournalFile, Reach};
use crate::own::{belongs, read_text};
use crate::start::{Start, read_start};
use osm_journal::batch::Batch;
use osm_journal::journal::{Journal, place_reached};
use osm_model::limits::MAX_FILE;
use osm_save::head::Head;
use osm_store::store::{Store, StoreError};
use std::alloc::Global;

/// Reads how far a save and its journal reach: the head that the two files come to, without the
/// bytes of the journal's batches. First the journal, of at most 64 MiB, is read, and then the
/// beginning of the save. So if another run merges the journal into the save between the two calls,
/// the newer save is read, and the journal doesn't belong to it. A journal of another save is
/// refused if it ends above the number of this save, and so is a journal without a save unless it
/// is empty. For this answer the caller must keep other runs from writing the two files.
pub fn read_ends<S: Store>(
    alloc: Global,
    store: &mut S,
    save: &str,
    journal: &str,
) -> Result<Ends, KeptFault>
    ensures found { IfOk result (λ ends. IsKnown (S.state store.old) → FindsEnds
        ((S.state store.old).files save.now) ((S.state store.old).files journal.now) ends) }
    ensures free { IfOk result (λ ends. IsKnown (S.state store.old) → HasNoOther
        ((S.state store.old).files save.now) ((S.state store.old).files journal.now)) }
    ensures reach { IfOk result (λ ends. IsReachIn ends.journal ends.kept) }
    ensures refused { IfErr result (λ fault. IsKnown (S.state store.old) → EndsStop
        ((S.state store.old).files save.now) ((S.state store.old).files journal.now) fault) }
    ensures once { IfErr result IsOfOnce }
    ensures frame { ReadsBetween IsDeviceFault 2 2 (S.state store.old) (S.state store.new) result }
    ensures spends { IfErr result (λ fault. IsOfOtherJournal fault
        → SpendsAtMost 2 (S.state store.old).left (S.state store.new).left) }
    ensures lacks { IfErr result (λ fault. IsKnown (S.state store.old)
        → LacksCalls fault (S.state store.old).left) }
{
    let bytes = read_bytes(alloc, store, journal)?;
    let start = read_start(alloc, store, save)?;
    match start {
        Some(start) => ends_beside(alloc, start, bytes),
        None => ends_alone(alloc, bytes.as_slice()),
    }
}

/// Reads how far a save and its journal reach, as `read_ends` does, while other runs may write the
/// two files. So a journal is refused as one of another save only if a second reading refuses the
/// two files too. If the second reading succeeds, the files are refused as `Changed`.
pub fn read_ends_unlocked<S: Store>(
    alloc: Global,
    store: &mut S,
    save: &str,
    journal: &str,
) -> Result<Ends, KeptFault>
    ensures found { IfOk result (λ ends. IsKnown (S.state store.old) → FindsEnds
        ((S.state store.old).files save.now) ((S.state store.old).files journal.now) ends) }
    ensures free { IfOk result (λ ends. IsKnown (S.state store.old) → HasNoOther
        ((S.state store.old).files save.now) ((S.state store.old).files journal.now)) }
    ensures reach { IfOk result (λ ends. IsReachIn ends.journal ends.kept) }
    ensures refused { IfErr result (λ fault. IsKnown (S.state store.old) → EndsStop
        ((S.state store.old).files save.now) ((S.state store.old).files journal.now) fault) }
    ensures frame { ReadsBetween IsDeviceFault 2 4 (S.state store.old) (S.state store.new) result }
    ensures spends { OnOk result
        (SpendsAtMost 2 (S.state store.old).left (S.state store.new).left) }
    ensures lacks { IfErr result (λ fault. IsKnown (S.state store.old) → HasNoOther
        ((S.state store.old).files save.now) ((S.state store.old).files journal.now)
        → LacksCalls fault (S.state store.old).left) }
{
    match read_ends(alloc, store, save, journal) {
        Ok(ends) => Ok(ends),
        Err(KeptFault::OtherJournal(_number)) => read_again(alloc, store, save, journal),
        Err(fault) => Err(fault),
    }
}

// Reads two files again of which the journal was one of another save: it still is, or they changed.
fn read_again<S: Store>(
    alloc: Global,
    store: &mut S,
    save: &str,
    journal: &str,
) -> Result<Ends, KeptFault>
    ensures never { IfOk result (λ ends. ⊥) }
    ensures refused { IfErr result (λ fault. IsKnown (S.state store.old) → (number : ℕ) → IsOther
        ((S.state store.old).files save.now) ((S.state store.old).files journal.now) number
        → EndsStop
        ((S.state store.old).files save.now) ((S.state store.old).files journal.now) fault) }
    ensures frame { ReadsBetween IsDeviceFault 2 2 (S.state store.old) (S.state store.new) result }
{
    read_ends(alloc, store, save, journal)?;
    Err(KeptFault::Changed)
}

// All bytes of a journal; none if there is no such file.
fn read_bytes<S: Store>(alloc: Global, store: &mut S, name: &str) -> Result<Vec<u8>, KeptFault>
    ensures read { IfOk result (λ bytes. IsKnown (S.state store.old)
        → bytes_of ((S.state store.old).files name.now) ≡ bytes.items) }
    ensures stops { IfErr result (BytesStops (IsKnown (S.state store.old))
        ((S.state store.old).files name.now)) }
    ensures frame { ReadsBetween IsDeviceFault 1 1 (S.state store.old) (S.state store.new) result }
{
    match store.read(alloc, name, MAX_FILE as u64) {
        Ok(Some(bytes)) => Ok(bytes),
        Ok(None) => Ok(Vec::new(alloc)),
        Err(StoreError::Device) => Err(KeptFault::JournalFailed),
        Err(StoreError::TooLarge) => Err(KeptFault::JournalTooLarge),
        Err(StoreError::WantOfMemory) => Err(KeptFault::WantOfMemory),
    }
}

// How far a save that begins so and the bytes of a journal reach.
fn ends_beside(alloc: Global, start: Start, bytes: Vec<u8>) -> Result<Ends, KeptFault>
    requires start { IsStart start }
    ensures found { IfOk result (λ ends. (told journal : Option (List ℕ))
        → Holds told journal start bytes.items → FindsEnds told journal ends) }
    ensures reach { IfOk result (λ ends. IsReachIn ends.journal ends.kept) }
    ensures refused { IfErr result (λ fault. (told journal : Option (List ℕ))
        → Holds told journal start bytes.items → EndsStop told journal fault) }
    ensures plain { IfErr result IsOfText }
{
    if bytes.is_empty() {
        return Ok(ends_of_save(start, JournalFile::Nothing));
    }
    match head_reached(alloc, &start, bytes.as_slice()) {
        Ok(Some(head)) => Ok(Ends {
            kept: Some(Reach { start, head }),
            journal: JournalFile::Counts(bytes),
        }),
        Ok(None) => Ok(ends_of_save(start, JournalFile::OfAnother)),
        Err(fault) => Err(fault),
    }
}

// How far a save reaches beside a journal that says nothing.
fn ends_of_save(start: Start, journal: JournalFile) -> Ends
    ensures { result ≡ record {
      kept = Some (record { start = start; head = start.head });
      journal = journal;
    } }
{
    let head = start.head;
    Ends {
        kept: Some(Reach { start, head }),
        journal,
    }
}

// How far the bytes of a journal reach without a save: there have to be none.
fn ends_alone(alloc: Global, bytes: &[u8]) -> Result<Ends, KeptFault>
    ensures found { IfOk result (λ ends. (journal : Option (List ℕ))
        → bytes_of journal ≡ bytes.now → FindsEnds None journal ends) }
    ensures none { IfOk result (λ ends. ends.kept ≡ None) }
    ensures refused { IfErr result (λ fault. (journal : Option (List ℕ))
        → bytes_of journal ≡ bytes.now → EndsStop None journal fault) }
    ensures plain { IfErr result IsOfText }
{
    if bytes.is_empty() {
        return Ok(Ends {
            kept: None,
            journal: JournalFile::Nothing,
        });
    }
    let journal = read_text(alloc, bytes)?;
    Err(KeptFault::OtherJournal(last_of(&journal)))
}

// The head that the bytes of a journal come to beside a save that begins so; none if they are of
// another that doesn't end above it.
fn head_reached(alloc: Global, start: &Start, bytes: &[u8]) -> Result<Option<Head>, KeptFault>
    ensures reached { IfOk result (ReachesHead start.now bytes.now) }
    ensures stops { IfErr result (ReachStops start.now bytes.now) }
{
    let journal = read_text(alloc, bytes)?;
    if belongs(&journal, start) {
        return Ok(Some(head_after(start.head, journal.batches.as_slice())));
    }
    let last = last_of(&journal);
    if last > start.head.number {
        return Err(KeptFault::OtherJournal(last));
    }
    Ok(None)
}

// The number of the last batch of a journal.
fn last_of(journal: &Journal<'_>) -> u32
    ensures { result ≡ last_in (journal_of journal.now) }
{
    let (number, _time) = place_reached(journal.head, journal.batches.as_slice());
    number
}

// The head after batches.
fn head_after(head: Head, batches: &[Batch<'_>]) -> Head
    ensures { result ≡ head_past head (map batch_of batches.now) }
{
    let (number, time) = place_reached(head, batches);
    Head {
        number,
        base: head.base,
        time,
    }
}
