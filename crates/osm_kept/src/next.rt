//! The text of a journal with more batches.

ghost use Rattle.std.specs.Prelude.{◌≡◌, ◌++◌, ◌<◌, ◌≤◌, ℕ, List, length, map, Option, Some};
ghost use Rattle.std.specs.Prelude.{IfOk, IfSome, OnOk};
ghost use Rattle.std.specs.List.{AllByRecursion};
ghost use Rattle.osm_save.specs.declared.save.Saved.{Saved};
ghost use Rattle.osm_journal.specs.Journal.{Follow, IsBatch, JournalValue, SpellsJournal, batch_of};
ghost use Rattle.osm_journal.specs.Journal.{batches_text, journal_of, journal_text};
ghost use Rattle.osm_kept.specs.Kept.{AddsBatches, Keeps};
ghost use Rattle.osm_kept.specs.Reaching.{FindsEnds, IsNextText, IsReach, IsTextWithin, ends_of};
ghost use Rattle.osm_kept.specs.Reaching.{journal_after};
ghost use Rattle.osm_kept.specs.Refusal.{HasNoOther};
ghost use Rattle.osm_kept.specs.Steps.Writing.{IsMoreText};

use crate::found::{JournalFile, Reach};
use crate::start::Start;
use osm_journal::batch::Batch;
use osm_journal::journal::{Journal, JournalError, read_journal, write_journal};
use osm_model::memory::WantOfMemory;
use std::alloc::Global;

/// Gives the text of the journal with these batches appended, or of a first journal if this one
/// says nothing. None if the text would have more than `most` bytes.
pub fn next_journal(
    alloc: Global,
    reach: &Reach,
    journal: &JournalFile,
    batches: &[Batch<'_>],
    most: u64,
) -> Result<Option<Vec<u8>>, WantOfMemory>
    requires reach { IsReach reach.now journal.now }
    requires some { 0 < length batches.now }
    requires each { AllByRecursion IsBatch (map batch_of batches.now) }
    requires follow { Follow reach.now.head.number (map batch_of batches.now) }
    ensures text { IfOk result
        (IsNextText most reach.now.start journal.now (map batch_of batches.now)) }
    ensures keeps { IfOk result (λ answer. IfSome answer (λ text.
        (told file : Option (List ℕ)) (v w : Saved)
        → FindsEnds told file (ends_of reach.now journal.now)
        → Keeps told file v → AddsBatches (map batch_of batches.now) v w
        → Keeps told (Some text.items) w)) }
    ensures free { IfOk result (λ answer. IfSome answer (λ text. (told file : Option (List ℕ))
        → FindsEnds told file (ends_of reach.now journal.now)
        → HasNoOther told (Some text.items))) }
{
    match journal {
        JournalFile::Counts(bytes) => more_text(alloc, bytes.as_slice(), batches, most),
        JournalFile::Nothing | JournalFile::OfAnother => {
            first_text(alloc, &reach.start, batches, most)
        }
    }
}

// The text of the journal that the bytes spell, with these batches at its end.
fn more_text<'a>(
    alloc: Global,
    bytes: &'a [u8],
    batches: &[Batch<'a>],
    most: u64,
) -> Result<Option<Vec<u8>>, WantOfMemory>
    requires spelled { (value : JournalValue) × SpellsJournal bytes.now value }
    ensures { IfOk result (IsMoreText most bytes.now (map batch_of batches.now)) }
{
    let mut next = match read_journal(alloc, bytes) {
        Ok(journal) => journal,
        Err(JournalError::BadLine(_line)) => unreachable!(),
        Err(JournalError::WantOfMemory) => return Err(WantOfMemory),
    };
    add_batches(batches, &mut next.batches)?;
    write_within(alloc, &next, most)
}

// The text of a first journal with these batches, of a save that begins so.
fn first_text(
    alloc: Global,
    start: &Start,
    batches: &[Batch<'_>],
    most: u64,
) -> Result<Option<Vec<u8>>, WantOfMemory>
    ensures { IfOk result (IsTextWithin most
        (journal_text (journal_after start.now (map batch_of batches.now)))) }
{
    let filter = start.filter.copy(alloc)?;
    let mut first = Journal {
        version: start.version,
        head: start.head,
        filter,
        objects: start.objects,
        batches: Vec::new(alloc),
    };
    add_batches(batches, &mut first.batches)?;
    write_within(alloc, &first, most)
}

// Appends batches to those of a journal.
fn add_batches<'a>(batches: &[Batch<'a>], out: &mut Vec<Batch<'a>>) -> Result<(), WantOfMemory>
    ensures { OnOk result (out.new.items ≡ out.old.items ++ batches.now) }
{
    for batch in batches {
        out.push(*batch)?;
    }
    Ok(())
}

// The text of a journal, if it has at most so many bytes. It isn't made if its batches have more.
fn write_within(
    alloc: Global,
    journal: &Journal<'_>,
    most: u64,
) -> Result<Option<Vec<u8>>, WantOfMemory>
    ensures { IfOk result (IsTextWithin most (journal_text (journal_of journal.now))) }
{
    if count_bytes(journal.batches.as_slice()) > most {
        return Ok(None);
    }
    let text = write_journal(alloc, journal)?;
    if text.len() as u64 > most {
        return Ok(None);
    }
    Ok(Some(text))
}

// How many bytes the change files of batches have; fewer if 64 bits can't tell.
fn count_bytes(batches: &[Batch<'_>]) -> u64
    ensures { result ≤ length (batches_text (map batch_of batches.now)) }
{
    let mut count: u64 = 0;
    for batch in batches {
        count = count.saturating_add(batch.bytes.len() as u64);
    }
    count
}
