//! The lines of a journal before its batches: the lines about the save that the journal belongs to,
//! and how far the batches reach.

ghost use Rattle.std.specs.Prelude.{◌≡◌, ℕ, ◌+◌, ◌-◌, ◌<◌, ◌≤◌, ◌++◌, ◌∷◌, [], IfErr, IfOk};
ghost use Rattle.std.specs.Prelude.{OnOk, codes, decimal};
ghost use Rattle.osm_model.specs.Limits.{max_sequence};
ghost use Rattle.osm_save.specs.Answers.{Finds, Gives, WantsOnlyIf};
ghost use Rattle.osm_save.specs.Head.{first_lines, head_lines, maybe_time_text};
ghost use Rattle.osm_save.specs.Lines.{ended};
ghost use Rattle.osm_save.specs.Reading.{numbered_at};
ghost use Rattle.osm_save.specs.Save.{most_objects};
ghost use Rattle.osm_save.specs.declared.version.Version.TheVariants.{Two};
ghost use Rattle.osm_journal.specs.Openings.{OpeningStops, OpensJournal};
ghost use Rattle.osm_journal.specs.Reading.{many_at, opening_at, reach_at, sequence_at};
ghost use Rattle.osm_journal.specs.Reading.{time_line_at};
ghost use Rattle.osm_journal.specs.Refusal.{BeginsJournal};

use crate::batch::read_time;
use crate::journal::JournalError;
use osm_model::filter::Filter;
use osm_model::limits::MAX_SEQUENCE;
use osm_model::memory::WantOfMemory;
use osm_save::head::{Head, read_head, write_head, write_time_line};
use osm_save::lines::{fixed_line, line_number, next_line, numbered_line, write_numbered};
use osm_save::save::objects_limit;
use osm_save::stop::Stop;
use osm_save::version::Version;
use std::alloc::Global;

/// What a journal says before its batches.
#[derive(Debug, Drop)]
pub struct Opening {
    /// The version of the save that the journal belongs to.
    pub version: Version,
    /// The head of that save.
    pub head: Head,
    /// The filter of that save.
    pub filter: Filter,
    /// How many objects that save has.
    pub objects: u64,
    /// How many batches there are.
    pub many: u64,
    /// The time of the last batch, in seconds since 1970-01-01T00:00:00Z.
    pub last: u32,
}

/// Reads what a journal says before its batches, from the whole text or a prefix of it: 408,302
/// bytes are enough. The bytes after the line with the number of batches aren't looked at.
pub fn journal_opening(alloc: Global, bytes: &[u8]) -> Result<Opening, JournalError>
    ensures opens { IfOk result (OpensJournal bytes.now) }
    ensures refused { IfErr result (OpeningStops bytes.now) }
{
    match read_opening(alloc, bytes) {
        Ok((opening, _rest)) => Ok(opening),
        Err(Stop::WantOfMemory) => Err(JournalError::WantOfMemory),
        Err(Stop::Wrong(left)) => Err(JournalError::BadLine(line_number(bytes, left))),
    }
}

/// Reads what a journal says before its batches, and gives the bytes after that.
#[tactic(auto, unfolding(crate::specs::Reading::opening_at))]
pub(crate) fn read_opening(alloc: Global, bytes: &[u8]) -> Result<(Opening, &[u8]), Stop>
    ensures value { Gives (λ r. (r.0, r.1.now)) result (opening_at bytes.now) }
    ensures wants { WantsOnlyIf (BeginsJournal bytes.now) result }
    ensures limit { IfOk result (λ r. r.0.head.number + r.0.many ≤ max_sequence) }
{
    let rest = fixed_line(b"osmrepl-journal 1", bytes)?;
    let (version, head, filter, rest) = read_head(alloc, rest)?;
    let (objects, rest) = objects_line(version, head.number, rest)?;
    let (many, last, rest) = read_reach(head.number as u64, rest)?;
    let opening = Opening {
        version,
        head,
        filter,
        objects,
        many,
        last,
    };
    Ok((opening, rest))
}

// Reads how many objects a save of that version and number has.
fn objects_line(version: Version, number: u32, rest: &[u8]) -> Result<(u64, &[u8]), Stop>
    requires { number ≤ max_sequence }
    ensures { Finds (λ r. (r.0, r.1.now)) result
        (numbered_at (codes "objects ") (most_objects version number) rest.now) }
{
    numbered_line(b"objects ", objects_limit(version, number), rest)
}

// Reads how many batches come after sequence `number`, and the time of the last.
#[tactic(auto, unfolding(crate::specs::Reading::reach_at))]
fn read_reach(number: u64, rest: &[u8]) -> Result<(u64, u32, &[u8]), Stop>
    ensures value { Finds (λ r. (r.0, r.1, r.2.now)) result (reach_at number rest.now) }
    ensures limit { IfOk result (λ r. number + r.0 ≤ max_sequence) }
{
    let (reached, rest) = sequence_line(number, rest)?;
    let (last, rest) = time_line(rest)?;
    let many = reached - number;
    let rest = many_line(many, rest)?;
    Ok((many, last, rest))
}

// Reads the number of the last batch, which is above `number`.
#[tactic(auto, unfolding(crate::specs::Reading::sequence_at))]
fn sequence_line(number: u64, rest: &[u8]) -> Result<(u64, &[u8]), Stop>
    ensures value { Finds (λ r. (r.0, r.1.now)) result (sequence_at number rest.now) }
    ensures above { IfOk result (λ r. number < r.0) }
    ensures limit { IfOk result (λ r. r.0 ≤ max_sequence) }
{
    let (reached, after) = numbered_line(b"sequence ", MAX_SEQUENCE as u64, rest)?;
    if reached <= number {
        return Err(Stop::Wrong(rest.len()));
    }
    Ok((reached, after))
}

// Reads the time of the last batch.
#[tactic(auto, unfolding(crate::specs::Reading::time_line_at))]
fn time_line(rest: &[u8]) -> Result<(u32, &[u8]), Stop>
    ensures { Finds (λ r. (r.0, r.1.now)) result (time_line_at rest.now) }
{
    let (line, after) = next_line(rest)?;
    let Some(text) = line.strip_prefix(b"time ") else {
        return Err(Stop::Wrong(rest.len()));
    };
    let Some(time) = read_time(text) else {
        return Err(Stop::Wrong(rest.len()));
    };
    Ok((time, after))
}

// Reads the line that says that there are `many` batches.
#[tactic(auto, unfolding(crate::specs::Reading::many_at))]
fn many_line(many: u64, rest: &[u8]) -> Result<&[u8], Stop>
    ensures { Finds (λ after. after.now) result (many_at many rest.now) }
{
    let (said, after) = numbered_line(b"batches ", MAX_SEQUENCE as u64, rest)?;
    if said != many {
        return Err(Stop::Wrong(rest.len()));
    }
    Ok(after)
}

/// Appends the head of a save of that version.
pub(crate) fn write_save_head(
    version: Version,
    head: Head,
    filter: &Filter,
    out: &mut Vec<u8>,
) -> Result<(), WantOfMemory>
    ensures { OnOk result
        (out.new.items ≡ out.old.items ++ ended (head_lines version head filter.now)) }
{
    match version {
        Version::Three => write_head(head, filter, out),
        Version::Two => write_second_head(head, out),
        Version::One => {
            out.extend_from_slice(b"osmrepl-save 1\n")?;
            write_place(head.number, head.time, out)
        }
    }
}

// Appends the head of version 2.
fn write_second_head(head: Head, out: &mut Vec<u8>) -> Result<(), WantOfMemory>
    ensures { OnOk result (out.new.items ≡ out.old.items ++ ended (first_lines Two head.base
        ++ (codes "sequence " ++ decimal head.number)
        ∷ (codes "time " ++ maybe_time_text head.time) ∷ [])) }
{
    out.extend_from_slice(b"osmrepl-save 2\n")?;
    write_numbered(b"base ", head.base as u64, out)?;
    write_place(head.number, head.time, out)?;
    Ok(())
}

/// Appends the lines with a number and its time.
pub(crate) fn write_place(
    number: u32,
    time: Option<u32>,
    out: &mut Vec<u8>,
) -> Result<(), WantOfMemory>
    ensures { OnOk result (out.new.items ≡ out.old.items
        ++ ended ((codes "sequence " ++ decimal number)
        ∷ (codes "time " ++ maybe_time_text time) ∷ [])) }
{
    write_numbered(b"sequence ", number as u64, out)?;
    write_time_line(time, out)
}
