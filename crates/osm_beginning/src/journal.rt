//! The journal beside a new save: whether it has to be emptied, and when.

ghost use Rattle.std.specs.Prelude.{◌≡◌, ◌↔◌, [], IfErr, IfOk, IsTrue, OnOk, Some};
ghost use Rattle.osm_store.specs.Files.{Puts};
ghost use Rattle.osm_store.specs.Frames.{IsKnown};
ghost use Rattle.osm_journal.specs.Journal.{journal_of};
ghost use Rattle.osm_save.specs.declared.version.Version.TheVariants.{Three};
ghost use Rattle.osm_kept.specs.Finding.{bytes_of};
ghost use Rattle.osm_kept.specs.Kept.{BelongsTo};
ghost use Rattle.osm_beginning.specs.Steps.Emptying.{BeginsWith, BytesStops, DueStops, IsDue};
ghost use Rattle.osm_beginning.specs.Steps.Emptying.{IsDueBeside, IsOfSuch, OwnStops};
ghost use Rattle.osm_runs.specs.Runs.{Reads, ReadsUpTo, Replaces};
ghost use Rattle.osm_runs.specs.Writing.{PutStops};

use crate::begin::Beginning;
use crate::writing::first_lines;
use osm_journal::journal::{Journal, JournalError, place_reached, read_journal};
use osm_model::filter::{Filter, laws_of_filters};
use osm_model::limits::MAX_FILE;
use osm_model::memory::WantOfMemory;
use osm_runs::fault::{FileName, RunFault};
use osm_runs::files::{read_file, write_file};
use osm_save::head::Head;
use osm_save::version::Version;
use osm_store::store::{Store, StoreError};
use std::alloc::Global;

/// When the journal beside a new save is emptied.
#[derive(Clone, Copy)]
pub(crate) enum Due {
    /// Never: there is no journal, it is empty, or it belongs to a save that begins otherwise and
    /// doesn't end above the new one.
    Never,
    /// Before the save is written: beside the new save the journal would be bad, or it doesn't
    /// belong to the old save but might be taken for one of the new save. If it is a journal, it
    /// ends at that number.
    Before(Option<u32>),
    /// After the save is written: the journal belongs to the old save, which begins as the new one
    /// does, and must not lose its journal alone. The journal ends at that number.
    After(u32),
    /// After the save is written: the journal belongs to a save that begins otherwise, and ends at
    /// that number, which is above that of the new save.
    Above(u32),
}

/// Reads the save and its journal, and says when the journal has to be emptied beside a new save
/// that begins so. A journal of more than 64 MiB isn't read.
pub(crate) fn read_due<S: Store>(
    alloc: Global,
    store: &mut S,
    wanted: &Beginning<'_>,
    journal: &str,
) -> Result<Due, RunFault>
    ensures due { IfOk result (λ due. IsKnown (S.state store.old)
        → IsDue wanted.now.head wanted.now.filter.now
        ((S.state store.old).files wanted.now.save.now)
        ((S.state store.old).files journal.now) due) }
    ensures stops { IfErr result
        (DueStops (IsKnown (S.state store.old)) ((S.state store.old).files journal.now)) }
    ensures frame { ReadsUpTo 2 (S.state store.old) (S.state store.new) result }
{
    let bytes = read_bytes(alloc, store, journal)?;
    if bytes.is_empty() {
        return Ok(Due::Never);
    }
    let found = match read_journal(alloc, bytes.as_slice()) {
        Ok(found) => found,
        Err(JournalError::BadLine(_)) => return Ok(Due::Before(None)),
        Err(JournalError::WantOfMemory) => return Err(RunFault::WantOfMemory),
    };
    let (last, _) = place_reached(found.head, found.batches.as_slice());
    if !is_of_such(&found, wanted.head, wanted.filter) {
        return Ok(due_beside(last, wanted.head));
    }
    match is_own(alloc, store, wanted.save, &found) {
        Ok(true) => Ok(Due::After(last)),
        Ok(false) => Ok(Due::Before(Some(last))),
        Err(fault) => Err(fault),
    }
}

// When a journal that ends at that number is emptied, if it is one of a save that begins otherwise.
fn due_beside(last: u32, head: Head) -> Due
    ensures { IsDueBeside head last result }
{
    if last > head.number {
        Due::Above(last)
    } else {
        Due::Never
    }
}

// All bytes of a journal; none if there is no such file.
fn read_bytes<S: Store>(alloc: Global, store: &mut S, journal: &str) -> Result<Vec<u8>, RunFault>
    ensures read { IfOk result (λ bytes. IsKnown (S.state store.old)
        → bytes_of ((S.state store.old).files journal.now) ≡ bytes.items) }
    ensures stops { IfErr result
        (BytesStops (IsKnown (S.state store.old)) ((S.state store.old).files journal.now)) }
    ensures frame { Reads 1 (S.state store.old) (S.state store.new) result }
{
    match read_file(alloc, store, FileName::Journal, journal, MAX_FILE as u64)? {
        Some(bytes) => Ok(bytes),
        None => Ok(Vec::new(alloc)),
    }
}

// Whether the journal is one of a save with that head and that filter, in the version that is
// written.
fn is_of_such(journal: &Journal<'_>, head: Head, filter: &Filter) -> bool
    ensures { IsTrue result ↔ IsOfSuch (journal_of journal.now) head filter.now }
{
    laws_of_filters();
    journal.version == Version::Three && journal.head == head && journal.filter == *filter
}

// Whether a journal of a save of that version is one of the save that is there.
fn is_own<S: Store>(
    alloc: Global,
    store: &mut S,
    save: &str,
    journal: &Journal<'_>,
) -> Result<bool, RunFault>
    requires { (journal_of journal.now).version ≡ Three }
    ensures tells { IfOk result (λ yes. IsKnown (S.state store.old)
        → IsTrue yes ↔ BelongsTo (journal_of journal.now) ((S.state store.old).files save.now)) }
    ensures stops { IfErr result OwnStops }
    ensures frame { ReadsUpTo 1 (S.state store.old) (S.state store.new) result }
{
    let lines = match first_lines(alloc, journal.head, &journal.filter, journal.objects) {
        Ok(lines) => lines,
        Err(WantOfMemory) => return Err(RunFault::WantOfMemory),
    };
    match begins_with(alloc, store, save, lines.as_slice()) {
        Ok(yes) => Ok(yes),
        Err(fault) => Err(fault),
    }
}

// Whether a save begins with those bytes.
fn begins_with<S: Store>(
    alloc: Global,
    store: &mut S,
    save: &str,
    lines: &[u8],
) -> Result<bool, RunFault>
    ensures tells { IfOk result (λ yes. IsKnown (S.state store.old)
        → IsTrue yes ↔ BeginsWith ((S.state store.old).files save.now) lines.now) }
    ensures stops { IfErr result OwnStops }
    ensures frame { Reads 1 (S.state store.old) (S.state store.new) result }
{
    match store.read_prefix(alloc, save, lines.len() as u64) {
        Ok(Some(bytes)) => Ok(bytes.as_slice() == lines),
        Ok(None) => Ok(false),
        Err(StoreError::Device) => Err(RunFault::ReadFault(FileName::Save)),
        Err(StoreError::TooLarge) => unreachable!(),
        Err(StoreError::WantOfMemory) => Err(RunFault::WantOfMemory),
    }
}

/// Empties a journal: replaces it by an empty file.
pub(crate) fn empty_journal<S: Store>(
    alloc: Global,
    store: &mut S,
    journal: &str,
) -> Result<(), RunFault>
    ensures written { OnOk result (IsKnown (S.state store.old)
        → Puts (S.state store.old).files journal.now (Some []) (S.state store.new).files) }
    ensures stops { IfErr result (PutStops FileName.Journal) }
    ensures frame { Replaces 1 (S.state store.old) (S.state store.new) result }
{
    write_file(alloc, store, FileName::Journal, journal, b"")
}
