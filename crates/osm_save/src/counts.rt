//! The counts of edits in a save text: a line `NUMBER COUNT` each.

ghost use Rattle.std.specs.Prelude.{◌≡◌, ◌++◌, ◌∷◌, [], None, OnOk};
ghost use Rattle.osm_save.specs.Lines.{ended, list_lines};
ghost use Rattle.osm_save.specs.Save.{count_text};
ghost use Rattle.osm_save.specs.Answers.{Gives};
ghost use Rattle.osm_save.specs.Reading.{count_at, counts_at, items_at};

use crate::lines::{next_line, numbered_line, write_numbered};
use crate::numbers::read_number;
use crate::order::is_number_above;
use crate::stop::Stop;
use osm_mirror::counts::Counts;
use osm_model::memory::WantOfMemory;
use osm_reading::number_lines;
use osm_reading::pieces::cut;
use std::alloc::Global;

/// Appends the list of all counts, beginning with its word.
pub(crate) fn write_counts(
    word: &[u8],
    counts: &Counts,
    out: &mut Vec<u8>,
) -> Result<(), WantOfMemory>
    ensures { OnOk result (out.new.items ≡ out.old.items
        ++ ended (list_lines word.now count_text counts.now)) }
{
    write_numbered(word, counts.len() as u64, out)?;
    for (number, count) in counts.iter() {
        write_count(*number, *count, out)?;
    }
    Ok(())
}

/// Appends the line `NUMBER COUNT` of a user or a changeset.
pub fn write_count(number: u32, count: u64, out: &mut Vec<u8>) -> Result<(), WantOfMemory>
    ensures { OnOk result
        (out.new.items ≡ out.old.items ++ ended (count_text (number, count) ∷ [])) }
{
    number_lines::write_count(number, count, out)
}

/// Reads the list of counts that begins with `word`, each count at most `most`, and gives the bytes
/// after the list.
#[tactic(auto, unfolding(crate::specs::Reading::counts_at))]
pub fn read_counts<'a>(
    alloc: Global,
    word: &[u8],
    most: u64,
    rest: &'a [u8],
) -> Result<(Counts, &'a [u8]), Stop>
    ensures { Gives (λ r. (r.0, r.1.now)) result (counts_at word.now most rest.now) }
{
    let (many, rest) = numbered_line(word, most, rest)?;
    read_count_lines(alloc, many, most, rest)
}

// Reads `many` lines. Memory is taken only for lines that are there.
fn read_count_lines(
    alloc: Global,
    many: u64,
    most: u64,
    rest: &[u8],
) -> Result<(Counts, &[u8]), Stop>
    ensures { Gives (λ r. (r.0, r.1.now)) result
        (items_at (λ e. e.0) (count_at most) many None rest.now) }
{
    let mut counts = Counts::new(alloc);
    let mut last = None;
    let mut rest = rest;
    for _ in 0..many {
        let (line, after) = match next_line(rest) {
            Ok(cut) => cut,
            Err(stop) => return Err(stop),
        };
        let Some((number, count)) = read_count(last, most, line) else {
            return Err(Stop::Wrong(rest.len()));
        };
        last = Some(number);
        counts.push(number, count)?;
        rest = after;
    }
    Ok((counts, rest))
}

/// Reads a line `NUMBER COUNT`, in which the number is above `last` and the count at most `most`.
#[tactic(auto, unfolding(crate::specs::Reading::count_at))]
pub fn read_count(last: Option<u32>, most: u64, line: &[u8]) -> Option<(u32, u64)>
    ensures { result ≡ count_at most last line.now }
{
    let (number, Some(count)) = cut(line, b' ') else {
        return None;
    };
    let number = read_number(number)?;
    let count = read_number(count)?;
    if number < 1 || number > u32::MAX as u64 || count < 1 || count > most {
        return None;
    }
    let number = number as u32;
    if !is_number_above(last, number) {
        return None;
    }
    Some((number, count))
}
