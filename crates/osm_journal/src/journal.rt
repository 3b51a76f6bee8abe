//! A journal and its text (our choice):
//!
//! ```text
//! osmrepl-journal 1
//! osmrepl-save 3
//! base 0
//! kinds nwr
//! keys 0
//! sequence 1
//! time 2024-01-01T00:00:00Z
//! objects 5
//! sequence 2
//! time 2024-01-02T00:00:00Z
//! batches 1
//! batch 2 2024-01-02T00:00:00Z 3
//! o5c
//! end
//! ```

ghost use Rattle.std.specs.Prelude.{◌≡◌, ◌+◌, ◌≤◌, ℕ, List, length, map, take, IfErr, IfOk};
ghost use Rattle.std.specs.Io.{StartsWith};
ghost use Rattle.osm_model.specs.Limits.{max_sequence};
ghost use Rattle.osm_save.specs.Head.{head_of};
ghost use Rattle.osm_save.specs.Lines.{ended};
ghost use Rattle.osm_save.specs.Save.{save_text};
ghost use Rattle.osm_save.specs.declared.save.Saved.{Saved};
ghost use Rattle.osm_save.specs.declared.version.Version.{Version};
ghost use Rattle.osm_journal.specs.Answers.{Gives};
ghost use Rattle.osm_journal.specs.Journal.{IsJournal, JournalValue, SpellsJournal, batch_of};
ghost use Rattle.osm_journal.specs.Journal.{journal_of, journal_text, last_number, last_time};
ghost use Rattle.osm_journal.specs.Journal.{save_start};
ghost use Rattle.osm_journal.specs.Openings.{OpensJournal, SaysOf, max_opening};
ghost use Rattle.osm_journal.specs.Reading.{end_at, rest_at};
ghost use Rattle.osm_journal.specs.Refusal.{JournalStops};
ghost use Rattle.osm_journal.specs.declared.opening.Opening.{Opening};

use crate::batch::{Batch, read_batches, write_batches};
use crate::opening::{Opening, read_opening, write_place, write_save_head};
use osm_model::filter::Filter;
use osm_model::memory::WantOfMemory;
use osm_save::head::Head;
use osm_save::lines::{fixed_line, line_number, write_numbered};
use osm_save::stop::Stop;
use osm_save::version::Version;
use std::alloc::Global;
use thiserror::Error;

/// The batches that came after a save.
#[derive(Debug, Drop)]
pub struct Journal<'a> {
    /// The version of the save that the journal belongs to.
    pub version: Version,
    /// The head of that save.
    pub head: Head,
    /// The filter of that save.
    pub filter: Filter,
    /// How many objects that save has.
    pub objects: u64,
    /// The batches, which begin with the sequence after that of the save.
    pub batches: Vec<Batch<'a>>,
}

/// Why a journal can't be read.
#[derive(Clone, Copy, Debug, PartialEq, Eq, Error)]
pub enum JournalError {
    /// The bytes spell no journal. The line, counted from 1, is the first that can't follow the
    /// text before it, or one past the last line if the text ends too early. The bytes of a batch
    /// don't count as lines: if they are wrong, the line is that of their batch.
    #[error("journal: line {0}")]
    BadLine(u64),
    /// Memory was refused.
    #[error("out of memory")]
    WantOfMemory,
}

impl From<WantOfMemory> for JournalError {
    ghost use Rattle.std.specs.Prelude.{◌≡◌};
    ghost use Rattle.osm_journal.specs.declared.journal.JournalError.TheVariants as errors;

    ghost from_gives = { λ _ e. e ≡ errors.WantOfMemory };

    fn from(_error: WantOfMemory) -> JournalError {
        JournalError::WantOfMemory
    }
}

/// Reads the journal that the bytes spell. Its batches borrow their change files from the bytes.
pub fn read_journal(alloc: Global, bytes: &[u8]) -> Result<Journal<'_>, JournalError>
    ensures spelled { IfOk result (λ journal. SpellsJournal bytes.now (journal_of journal)) }
    ensures refused { IfErr result (JournalStops bytes.now) }
{
    match read_opening(alloc, bytes) {
        Ok((opening, rest)) => read_rest(alloc, opening, line_number(bytes, rest.len()), rest),
        Err(Stop::WantOfMemory) => Err(JournalError::WantOfMemory),
        Err(Stop::Wrong(left)) => Err(JournalError::BadLine(line_number(bytes, left))),
    }
}

// Reads the batches and the line `end`. The first line has the number `line`.
#[tactic(auto, unfolding(crate::specs::Reading::rest_at))]
fn read_rest<'a>(
    alloc: Global,
    opening: Opening,
    line: u64,
    rest: &'a [u8],
) -> Result<Journal<'a>, JournalError>
    requires { opening.head.number + opening.many ≤ max_sequence }
    ensures { Gives journal_of result (rest_at opening rest.now) }
{
    let number = opening.head.number as u64;
    let (batches, rest) = read_batches(alloc, opening.many, number, opening.last, line, rest)?;
    read_end(line.saturating_add(opening.many), rest)?;
    Ok(Journal {
        version: opening.version,
        head: opening.head,
        filter: opening.filter,
        objects: opening.objects,
        batches,
    })
}

// Reads the line `end`, which has the number `line`.
#[tactic(auto, unfolding(crate::specs::Reading::end_at))]
fn read_end(line: u64, rest: &[u8]) -> Result<(), JournalError>
    ensures { Gives (λ done. tt) result (end_at rest.now) }
{
    match fixed_line(b"end", rest) {
        Ok(after) if after.is_empty() => Ok(()),
        Ok(_) => Err(JournalError::BadLine(line.saturating_add(1))),
        Err(_stop) => Err(JournalError::BadLine(line)),
    }
}

/// Writes the text of a journal. A journal that can't be read back, such as one without batches,
/// has a text too.
pub fn write_journal(alloc: Global, journal: &Journal<'_>) -> Result<Vec<u8>, WantOfMemory>
    ensures text { IfOk result (λ text. text.items ≡ journal_text (journal_of journal.now)) }
    ensures spelled { IsJournal (journal_of journal.now)
        → IfOk result (λ text. SpellsJournal text.items (journal_of journal.now)) }
{
    let mut text = Vec::new(alloc);
    text.extend_from_slice(b"osmrepl-journal 1\n")?;
    write_save_head(journal.version, journal.head, &journal.filter, &mut text)?;
    write_numbered(b"objects ", journal.objects, &mut text)?;
    let (number, time) = place_reached(journal.head, journal.batches.as_slice());
    write_place(number, time, &mut text)?;
    write_numbered(b"batches ", journal.batches.len() as u64, &mut text)?;
    write_batches(journal.batches.as_slice(), &mut text)?;
    text.extend_from_slice(b"end\n")?;
    Ok(text)
}

/// The number and the time of the last batch, or of the head if there is no batch.
pub fn place_reached(head: Head, batches: &[Batch<'_>]) -> (u32, Option<u32>)
    ensures number { result.0 ≡ last_number head.number (map batch_of batches.now) }
    ensures time { result.1 ≡ last_time head.time (map batch_of batches.now) }
{
    let Some(batch) = batches.last() else {
        return (head.number, head.time);
    };
    (batch.number, Some(batch.time))
}

/// Tells the prover the laws of journals: bytes spell at most one journal, and the text of a
/// journal spells that journal. The text of a save begins with what its journal says about the
/// save. At least 408,302 bytes of a journal give what the journal says before its batches, and
/// bytes give at most one such opening. Does nothing at run time.
pub fn laws_of_journals()
    ensures one_journal { (bytes : List ℕ) (a b : JournalValue)
        → SpellsJournal bytes a → SpellsJournal bytes b → a ≡ b }
    ensures written { (j : JournalValue) → IsJournal j → SpellsJournal (journal_text j) j }
    ensures save { (version : Version) (v : Saved) → StartsWith (save_text version v)
        (ended (save_start version (head_of v) v.filter (length v.mirror.objects))) }
    ensures opening { (bytes : List ℕ) (j : JournalValue) (most : ℕ) → SpellsJournal bytes j
        → max_opening ≤ most → (o : Opening) × SaysOf o j × OpensJournal (take most bytes) o }
    ensures one_opening { (bytes : List ℕ) (a b : Opening)
        → OpensJournal bytes a → OpensJournal bytes b → a ≡ b }
{}
