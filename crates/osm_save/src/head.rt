//! The head of a save text: the lines before its objects, each read and written by a function of
//! its own.

ghost use Rattle.std.specs.Prelude.{◌≡◌, ℕ, List, ◌∷◌, [], ◌++◌, ◌≤◌, codes, take};
ghost use Rattle.std.specs.Prelude.{◌<◌, length, IfErr, IfOk, OnOk};
ghost use Rattle.osm_model.specs.Limits.{max_sequence};
ghost use Rattle.osm_opl.specs.Reading.{time_at};
ghost use Rattle.osm_save.specs.Head.{BeginsSave, HasKeys, head_lines, head_of, max_head};
ghost use Rattle.osm_save.specs.Head.{maybe_time_text};
ghost use Rattle.osm_save.specs.Lines.{ended};
ghost use Rattle.osm_save.specs.Refusal.{HeadStops};
ghost use Rattle.osm_save.specs.Save.{SpellsSave};
ghost use Rattle.osm_save.specs.Answers.{Finds, Gives, WantsOnlyIf};
ghost use Rattle.osm_save.specs.Reading.{base_at, head_at, sequence_at, time_line_at};
ghost use Rattle.osm_save.specs.Reading.{version_at};
ghost use Rattle.osm_save.specs.declared.save.Saved.{Saved};
ghost use Rattle.osm_save.specs.declared.version.Version.TheVariants.{Three};

use crate::filter::{read_filter, write_filter};
use crate::lines::{fixed_line, line_number, next_line, numbered_line, write_numbered};
use crate::stop::Stop;
use crate::version::Version;
use osm_model::filter::Filter;
use osm_model::limits::MAX_SEQUENCE;
use osm_model::memory::WantOfMemory;
use osm_model::time::{time_read, time_write};
use std::alloc::Global;
use thiserror::Error;

/// What the head of a save text says.
#[derive(Clone, Copy, Debug, PartialEq, Eq)]
pub struct Head {
    /// The number of the last sequence that was applied; 0 at the start.
    pub number: u32,
    /// The number after which edits are counted: the sequence number of the data with which the
    /// follower began, or 0.
    pub base: u32,
    /// The time of the last sequence, in seconds since 1970-01-01T00:00:00Z; none at number 0.
    pub time: Option<u32>,
}

/// Why a head can't be read.
#[derive(Clone, Copy, Debug, PartialEq, Eq, Error)]
pub enum HeadError {
    /// The bytes don't begin with the head of a save text. The line, counted from 1, is the first
    /// that can't follow the lines before it, or one past the last line if the bytes end too early.
    #[error("BadHead")]
    BadHead { line: u64 },
    /// Memory was refused, which only the keys of a filter need.
    #[error("WantOfMemory")]
    WantOfMemory,
}

/// Reads the head of a save text of any version, from the whole text or a prefix of it: 408,194
/// bytes are enough. The lines of the filter must be right too. The bytes after the head aren't
/// looked at.
pub fn head_read(alloc: Global, bytes: &[u8]) -> Result<Head, HeadError>
    ensures begins { IfOk result (BeginsSave bytes.now) }
    ensures refused { IfErr result (HeadStops bytes.now) }
{
    match read_head(alloc, bytes) {
        Ok((_version, head, _filter, _rest)) => Ok(head),
        Err(Stop::Wrong(left)) => Err(HeadError::BadHead {
            line: line_number(bytes, left),
        }),
        Err(Stop::WantOfMemory) => Err(HeadError::WantOfMemory),
    }
}

/// Reads the version, the head and the filter of a save text, and gives the bytes after the head.
#[tactic(auto, unfolding(crate::specs::Reading::head_at))]
pub fn read_head(alloc: Global, bytes: &[u8]) -> Result<(Version, Head, Filter, &[u8]), Stop>
    ensures value { Gives (λ r. (r.0, r.1, r.2, r.3.now)) result (head_at bytes.now) }
    ensures wants { WantsOnlyIf (HasKeys bytes.now) result }
    ensures limit { IfOk result (λ r. r.1.number ≤ max_sequence) }
    ensures base { IfOk result (λ r. r.1.base ≤ r.1.number) }
{
    let (version, rest) = version_line(bytes)?;
    let (base, rest) = base_line(version, rest)?;
    let (filter, rest) = read_filter(alloc, version, rest)?;
    let (number, rest) = sequence_line(base, rest)?;
    let (time, rest) = time_line(number, rest)?;
    let number = number as u32;
    let base = base as u32;
    Ok((version, Head { number, base, time }, filter, rest))
}

// Reads the line that names the version.
#[tactic(auto, unfolding(crate::specs::Reading::version_at))]
fn version_line(bytes: &[u8]) -> Result<(Version, &[u8]), Stop>
    ensures { Finds (λ r. (r.0, r.1.now)) result (version_at bytes.now) }
{
    let (line, rest) = next_line(bytes)?;
    if line == b"osmrepl-save 3".as_slice() {
        return Ok((Version::Three, rest));
    }
    if line == b"osmrepl-save 2".as_slice() {
        return Ok((Version::Two, rest));
    }
    if line == b"osmrepl-save 1".as_slice() {
        return Ok((Version::One, rest));
    }
    Err(Stop::Wrong(bytes.len()))
}

// Reads the line with the base, which version 1 doesn't have.
fn base_line(version: Version, rest: &[u8]) -> Result<(u64, &[u8]), Stop>
    ensures value { Finds (λ r. (r.0, r.1.now)) result (base_at version rest.now) }
    ensures limit { IfOk result (λ r. r.0 ≤ max_sequence) }
{
    match version {
        Version::One => Ok((0, rest)),
        Version::Two | Version::Three => numbered_line(b"base ", MAX_SEQUENCE as u64, rest),
    }
}

// Reads the line with the number, which isn't below the base.
#[tactic(auto, unfolding(crate::specs::Reading::sequence_at))]
fn sequence_line(base: u64, rest: &[u8]) -> Result<(u64, &[u8]), Stop>
    ensures value { Finds (λ r. (r.0, r.1.now)) result (sequence_at base rest.now) }
    ensures limit { IfOk result (λ r. r.0 ≤ max_sequence) }
    ensures base { IfOk result (λ r. base ≤ r.0) }
{
    let (number, after) = numbered_line(b"sequence ", MAX_SEQUENCE as u64, rest)?;
    if number < base {
        return Err(Stop::Wrong(rest.len()));
    }
    Ok((number, after))
}

// Reads the line with the time of a number.
#[tactic(auto, unfolding(crate::specs::Reading::time_line_at))]
fn time_line(number: u64, rest: &[u8]) -> Result<(Option<u32>, &[u8]), Stop>
    ensures { Finds (λ r. (r.0, r.1.now)) result (time_line_at number rest.now) }
{
    if number == 0 {
        let after = fixed_line(b"time none", rest)?;
        return Ok((None, after));
    }
    let (line, after) = next_line(rest)?;
    let Some(text) = line.strip_prefix(b"time ") else {
        return Err(Stop::Wrong(rest.len()));
    };
    let Some(time) = read_time(text) else {
        return Err(Stop::Wrong(rest.len()));
    };
    Ok((Some(time), after))
}

// The time with this text.
fn read_time(text: &[u8]) -> Option<u32>
    ensures { result ≡ time_at text.now }
{
    time_read(text)
}

/// Appends the head of version 3.
pub fn write_head(head: Head, filter: &Filter, out: &mut Vec<u8>) -> Result<(), WantOfMemory>
    ensures { OnOk result
        (out.new.items ≡ out.old.items ++ ended (head_lines Three head filter.now)) }
{
    out.extend_from_slice(b"osmrepl-save 3\n")?;
    write_numbered(b"base ", head.base as u64, out)?;
    write_filter(filter, out)?;
    write_numbered(b"sequence ", head.number as u64, out)?;
    write_time_line(head.time, out)?;
    Ok(())
}

/// Appends the line `time TIME` with the time of a number.
pub fn write_time_line(time: Option<u32>, out: &mut Vec<u8>) -> Result<(), WantOfMemory>
    ensures { OnOk result (out.new.items ≡ out.old.items
        ++ ended ((codes "time " ++ maybe_time_text time) ∷ [])) }
{
    match time {
        None => {
            out.extend_from_slice(b"time none\n")?;
            Ok(())
        }
        Some(time) => {
            out.extend_from_slice(b"time ")?;
            out.extend_from_slice(&time_write(time))?;
            out.push(b'\n')?;
            Ok(())
        }
    }
}

/// Tells the prover the laws of heads: bytes begin with at most one head, and the first 408,194
/// bytes or more of a save text begin with its head. A prefix of a save text has keys only if its
/// filter has keys. Does nothing at run time.
pub fn laws_of_heads()
    ensures one_head { (bytes : List ℕ) (a b : Head)
        → BeginsSave bytes a → BeginsSave bytes b → a ≡ b }
    ensures begins { (bytes : List ℕ) (v : Saved) (most : ℕ)
        → SpellsSave bytes v → max_head ≤ most → BeginsSave (take most bytes) (head_of v) }
    ensures keys { (bytes : List ℕ) (v : Saved) (most : ℕ)
        → SpellsSave bytes v → HasKeys (take most bytes) → 0 < length v.filter.keys }
{}
