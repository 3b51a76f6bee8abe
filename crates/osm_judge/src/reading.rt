//! Reads reply texts, without a promise: a caller that needs one writes the replies again and
//! compares the texts.

use osm_follow::view::View;
use osm_model::memory::WantOfMemory;
use osm_model::time::time_read;
use osm_opl::lines::{LineError, read_line};
use osm_reading::lines::split_line;
use osm_world::event::Reply;
use std::alloc::{AllocError, AllocFailed, Global};

/// Why a text can't be read.
#[derive(Clone, Copy, Debug, PartialEq, Eq)]
pub enum NotAReply {
    WantOfMemory,
    NoReply,
}

impl From<AllocError> for NotAReply {
    fn from(_error: AllocError) -> NotAReply {
        NotAReply::WantOfMemory
    }
}

impl<T: Drop> From<AllocFailed<T>> for NotAReply {
    fn from(_error: AllocFailed<T>) -> NotAReply {
        NotAReply::WantOfMemory
    }
}

impl From<WantOfMemory> for NotAReply {
    fn from(_error: WantOfMemory) -> NotAReply {
        NotAReply::WantOfMemory
    }
}

impl From<LineError> for NotAReply {
    fn from(error: LineError) -> NotAReply {
        match error {
            LineError::WantOfMemory => NotAReply::WantOfMemory,
            LineError::Fault(_) => NotAReply::NoReply,
        }
    }
}

// A reply whose line is always the same.
#[derive(Clone, Copy)]
enum Plain {
    Edited,
    BatchFull,
    WantOfMemory,
    SequenceFull,
    TimeBack,
    TooLarge,
    NotPublished,
    Broken,
    Old,
    Again,
    TooEarly,
    Held,
    Broke,
}

// The lines of these replies. A search is much cheaper to prove than a match over words.
const PLAIN: &[(&str, Plain)] = &[
    ("edited", Plain::Edited),
    ("batch full", Plain::BatchFull),
    ("no memory", Plain::WantOfMemory),
    ("sequence full", Plain::SequenceFull),
    ("time back", Plain::TimeBack),
    ("too large", Plain::TooLarge),
    ("not published", Plain::NotPublished),
    ("broken", Plain::Broken),
    ("old", Plain::Old),
    ("again", Plain::Again),
    ("too early", Plain::TooEarly),
    ("held", Plain::Held),
    ("broke", Plain::Broke),
];

/// Reads a reply, and gives the text after it.
pub fn read_reply(alloc: Global, text: &[u8]) -> Result<(Reply, &[u8]), NotAReply> {
    let (line, rest) = next_line(text)?;
    match plain_in(line) {
        Some(plain) => Ok((reply_of(plain), rest)),
        None => read_longer(alloc, text),
    }
}

fn plain_in(line: &[u8]) -> Option<Plain> {
    for (name, plain) in PLAIN {
        if name.as_bytes() == line {
            return Some(*plain);
        }
    }
    None
}

fn reply_of(plain: Plain) -> Reply {
    match plain {
        Plain::Edited => Reply::Edited,
        Plain::BatchFull => Reply::BatchFull,
        Plain::WantOfMemory => Reply::WantOfMemory,
        Plain::SequenceFull => Reply::SequenceFull,
        Plain::TimeBack => Reply::TimeBack,
        Plain::TooLarge => Reply::TooLarge,
        Plain::NotPublished => Reply::NotPublished,
        Plain::Broken => Reply::Broken,
        Plain::Old => Reply::Old,
        Plain::Again => Reply::Again,
        Plain::TooEarly => Reply::TooEarly,
        Plain::Held => Reply::Held,
        Plain::Broke => Reply::Broke,
    }
}

fn read_longer(alloc: Global, text: &[u8]) -> Result<(Reply, &[u8]), NotAReply> {
    let (line, rest) = next_line(text)?;
    if let Some(number) = line.strip_prefix(b"closed ") {
        return Ok((Reply::Closed(small(number)?), rest));
    }
    if let Some(number) = line.strip_prefix(b"saved ") {
        return Ok((Reply::Saved(small(number)?), rest));
    }
    if let Some(number) = line.strip_prefix(b"restarted ") {
        return Ok((Reply::Restarted(small(number)?), rest));
    }
    if let Some(number) = line.strip_prefix(b"begun ") {
        return Ok((Reply::Begun(small(number)?), rest));
    }
    if let Some(range) = line.strip_prefix(b"applied ") {
        let (low, high) = halves(range, b'.')?;
        let low = small(low)?;
        let high = small(after_prefix(high, b".")?)?;
        return Ok((Reply::Applied { low, high }, rest));
    }
    let (view, rest) = read_view(alloc, text)?;
    Ok((Reply::Shown(view), rest))
}

fn read_view(alloc: Global, text: &[u8]) -> Result<(View, &[u8]), NotAReply> {
    let (line, rest) = next_line(text)?;
    let number = small(after_prefix(line, b"number ")?)?;
    let (base, rest) = read_base(rest)?;
    let (line, rest) = next_line(rest)?;
    let time = time_read(after_prefix(line, b"time ")?);
    let (line, mut rest) = next_line(rest)?;
    let mut objects = Vec::new(alloc);
    for _ in 0..count(after_prefix(line, b"objects ")?)? {
        let (line, after) = next_line(rest)?;
        objects.push(read_line(alloc, line)?)?;
        rest = after;
    }
    let (users, rest) = read_counts(alloc, rest, b"users ")?;
    let (changesets, rest) = read_counts(alloc, rest, b"changesets ")?;
    let (line, mut rest) = next_line(rest)?;
    let mut held = Vec::new(alloc);
    for _ in 0..count(after_prefix(line, b"held ")?)? {
        let (line, after) = next_line(rest)?;
        held.push(small(line)?)?;
        rest = after;
    }
    Ok((
        View::new(number, base, time, objects, users, changesets, held),
        rest,
    ))
}

// The base, which is 0 if the next line tells none.
fn read_base(text: &[u8]) -> Result<(u32, &[u8]), NotAReply> {
    let (line, rest) = next_line(text)?;
    match line.strip_prefix(b"base ") {
        Some(base) => Ok((small(base)?, rest)),
        None => Ok((0, text)),
    }
}

fn read_counts<'a>(
    alloc: Global,
    text: &'a [u8],
    name: &[u8],
) -> Result<(Vec<(u32, u64)>, &'a [u8]), NotAReply> {
    let (line, mut rest) = next_line(text)?;
    let mut counts = Vec::new(alloc);
    for _ in 0..count(after_prefix(line, name)?)? {
        let (line, after) = next_line(rest)?;
        let (number, edits) = halves(line, b' ')?;
        counts.push((small(number)?, count(edits)?))?;
        rest = after;
    }
    Ok((counts, rest))
}

fn next_line(text: &[u8]) -> Result<(&[u8], &[u8]), NotAReply> {
    match split_line(text) {
        (line, Some(rest)) => Ok((line, rest)),
        (_, None) => Err(NotAReply::NoReply),
    }
}

fn after_prefix<'a>(line: &'a [u8], prefix: &[u8]) -> Result<&'a [u8], NotAReply> {
    line.strip_prefix(prefix).ok_or(NotAReply::NoReply)
}

fn halves(line: &[u8], at: u8) -> Result<(&[u8], &[u8]), NotAReply> {
    match line.iter().position(|byte| *byte == at) {
        Some(index) => Ok((&line[..index], &line[index + 1..])),
        None => Err(NotAReply::NoReply),
    }
}

fn count(digits: &[u8]) -> Result<u64, NotAReply> {
    let text = str::from_utf8(digits).map_err(|_| NotAReply::NoReply)?;
    text.parse::<u64>().map_err(|_| NotAReply::NoReply)
}

fn small(digits: &[u8]) -> Result<u32, NotAReply> {
    u32::try_from(count(digits)?).map_err(|_| NotAReply::NoReply)
}
