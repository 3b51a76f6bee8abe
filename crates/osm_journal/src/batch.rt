//! The batches of a journal: a line for each, and then its bytes as they are.
//!
//! ```text
//! batch 2 2024-01-01T00:00:00Z 3
//! o5c
//! ```

ghost use Rattle.std.specs.Prelude.{◌≡◌, ◌<◌, ◌≤◌, ◌+◌, ◌++◌, ◌∷◌, [], map, IfOk, OnOk};
ghost use Rattle.osm_model.specs.CivilTime.{time_text};
ghost use Rattle.osm_model.specs.Limits.{max_sequence};
ghost use Rattle.osm_opl.specs.Reading.{time_at};
ghost use Rattle.osm_save.specs.Answers.{Finds};
ghost use Rattle.osm_journal.specs.Answers.{Gives};
ghost use Rattle.osm_journal.specs.Journal.{batch_line, batch_of, batches_text};
ghost use Rattle.osm_journal.specs.Reading.{batch_at, batches_at, content_at, is_due, words_at};

use crate::journal::JournalError;
use osm_model::limits::MAX_FILE;
use osm_model::memory::WantOfMemory;
use osm_model::time::{time_read, time_write};
use osm_reading::number_lines::{write_bytes, write_number};
use osm_reading::pieces::cut;
use osm_save::lines::next_line;
use osm_save::numbers::read_number;
use osm_save::stop::Stop;
use std::alloc::Global;

/// A batch, as it was delivered.
#[derive(Clone, Copy, Debug, PartialEq, Eq)]
pub struct Batch<'a> {
    /// The sequence number of the batch.
    pub number: u32,
    /// The time of the batch, in seconds since 1970-01-01T00:00:00Z.
    pub time: u32,
    /// The bytes of the change file; the changes that they spell aren't looked at.
    pub bytes: &'a [u8],
}

// What the line of a batch says.
#[derive(Clone, Copy, Debug, PartialEq, Eq)]
struct Words {
    number: u64,
    time: u32,
    size: u64,
}

/// Reads `many` batches, which come after sequence `number` and of which the last has the time
/// `last`, and gives the bytes after them. Their first line has the number `line`. Memory is taken
/// only for batches that are there.
pub(crate) fn read_batches<'a>(
    alloc: Global,
    many: u64,
    number: u64,
    last: u32,
    line: u64,
    rest: &'a [u8],
) -> Result<(Vec<Batch<'a>>, &'a [u8]), JournalError>
    requires { number + many ≤ max_sequence }
    ensures { Gives (λ r. (map batch_of r.0.items, r.1.now)) result
        (batches_at many number last rest.now) }
{
    let mut batches = Vec::new(alloc);
    let mut rest = rest;
    for i in 0..many {
        let (batch, after) = match read_batch(number + i + 1, many - i - 1, last, rest) {
            Ok(read) => read,
            Err(_stop) => return Err(JournalError::BadLine(line.saturating_add(i))),
        };
        add_batch(batch, &mut batches)?;
        rest = after;
    }
    Ok((batches, rest))
}

fn add_batch<'a>(batch: Batch<'a>, batches: &mut Vec<Batch<'a>>) -> Result<(), WantOfMemory>
    ensures { OnOk result (batches.new.items ≡ batches.old.items ++ batch.entry ∷ []) }
{
    batches.push(batch)?;
    Ok(())
}

// Reads the batch with that number, which `left` others come after, and gives the bytes after it.
// The last of all has the time `last`.
#[tactic(auto, unfolding(crate::specs::Reading::batch_at))]
fn read_batch<'a>(
    number: u64,
    left: u64,
    last: u32,
    rest: &'a [u8],
) -> Result<(Batch<'a>, &'a [u8]), Stop>
    requires { number ≤ max_sequence }
    ensures { Finds (λ r. (batch_of r.0, r.1.now)) result (batch_at number left last rest.now) }
{
    let (line, after) = next_line(rest)?;
    let Some(words) = read_words(line) else {
        return Err(Stop::Wrong(rest.len()));
    };
    if !is_due_batch(number, left, last, words) {
        return Err(Stop::Wrong(rest.len()));
    }
    let (bytes, after) = read_content(words.size, after)?;
    let number = number as u32;
    let time = words.time;
    Ok((
        Batch {
            number,
            time,
            bytes,
        },
        after,
    ))
}

// Whether the line is that of the batch with that number, which `left` others come after.
fn is_due_batch(number: u64, left: u64, last: u32, words: Words) -> bool
    ensures { result ≡ is_due number left last words }
{
    words.number == number && words.size <= MAX_FILE as u64 && (left > 0 || words.time == last)
}

// What the line of a batch says.
#[tactic(auto, unfolding(crate::specs::Reading::words_at))]
fn read_words(line: &[u8]) -> Option<Words>
    ensures { result ≡ words_at line.now }
{
    let words = line.strip_prefix(b"batch ")?;
    let (number, Some(words)) = cut(words, b' ') else {
        return None;
    };
    let number = read_number(number)?;
    let (time, Some(size)) = cut(words, b' ') else {
        return None;
    };
    let time = read_time(time)?;
    let size = read_number(size)?;
    Some(Words { number, time, size })
}

// The time with this text.
pub(crate) fn read_time(text: &[u8]) -> Option<u32>
    ensures { result ≡ time_at text.now }
{
    time_read(text)
}

// The next `size` bytes, and what comes after the LF after them.
#[tactic(auto, unfolding(crate::specs::Reading::content_at))]
fn read_content(size: u64, rest: &[u8]) -> Result<(&[u8], &[u8]), Stop>
    ensures { Finds (λ r. (r.0.now, r.1.now)) result (content_at size rest.now) }
{
    if (rest.len() as u64) < size {
        return Err(Stop::Wrong(rest.len()));
    }
    let (content, after) = rest.split_at(size as usize);
    let Some(after) = after.strip_prefix(b"\n") else {
        return Err(Stop::Wrong(rest.len()));
    };
    Ok((content, after))
}

/// Appends the batches.
pub(crate) fn write_batches(batches: &[Batch], out: &mut Vec<u8>) -> Result<(), WantOfMemory>
    ensures { OnOk result
        (out.new.items ≡ out.old.items ++ batches_text (map batch_of batches.now)) }
{
    for batch in batches {
        write_batch(batch, out)?;
    }
    Ok(())
}

// Appends the line of a batch and its bytes.
fn write_batch(batch: &Batch, out: &mut Vec<u8>) -> Result<(), WantOfMemory>
    ensures { OnOk result
        (out.new.items ≡ out.old.items ++ batches_text (batch_of batch.now ∷ [])) }
{
    write_batch_line(batch, out)?;
    write_bytes(b"\n", out)?;
    write_bytes(batch.bytes, out)?;
    write_bytes(b"\n", out)
}

fn write_batch_line(batch: &Batch, out: &mut Vec<u8>) -> Result<(), WantOfMemory>
    ensures { OnOk result (out.new.items ≡ out.old.items ++ batch_line (batch_of batch.now)) }
{
    write_bytes(b"batch ", out)?;
    write_number(batch.number as u64, out)?;
    write_bytes(b" ", out)?;
    write_bytes(&time_write(batch.time), out)?;
    write_bytes(b" ", out)?;
    write_number(batch.bytes.len() as u64, out)
}
