//! What is printed of a fault besides its text, in brackets after it: the path, what the system
//! said, and a hint.

ghost use Rattle.std.specs.Prelude.{◌≡◌, IfOk, string_bytes};
ghost use Rattle.std.specs.List.{flat_map};
ghost use Rattle.std.specs.Str.{chars};
ghost use Rattle.osm_words.specs.Echo.{shown_char};

use crate::numbers::number_of;
use osm_kept::names::journal_name;
use osm_model::form::Why;
use osm_model::memory::WantOfMemory;
use osm_model::time::time_write;
use osm_runs::fault::{FileName, RunFault};
use osm_runs::form::form_of;
use osm_script::fault::ScriptFault;
use osm_state::paths::Suffix;
use osm_words::echo::push_shown;
use osm_words::orders::Order;
use std::alloc::{AllocError, Global};
use std::io;

/// What is known of a fault.
#[derive(Clone, Copy)]
pub struct Cause<'a> {
    /// The path that the fault is about; empty if there is none.
    pub path: &'a str,
    /// What the system said.
    pub said: Option<io::Error>,
    /// What may help; empty if there is no hint.
    pub hint: &'a str,
}

/// Gives the text after a fault, ` (PATH: WHAT THE SYSTEM SAID; HINT)`, without the parts that
/// aren't known. The text is empty if no part is known. It has no control character.
pub fn cause_text(alloc: Global, cause: Cause<'_>) -> Result<String, AllocError> {
    let mut parts = shown(alloc, cause.path)?;
    if let Some(error) = cause.said {
        let said = said(alloc, error)?;
        add_part(&mut parts, ": ", shown(alloc, said.as_str())?.as_str())?;
    }
    add_part(&mut parts, "; ", shown(alloc, cause.hint)?.as_str())?;
    if parts.is_empty() {
        return Ok(parts);
    }
    format!(in alloc; " ({parts})")
}

fn add_part(parts: &mut String, between: &str, part: &str) -> Result<(), AllocError> {
    if part.is_empty() {
        return Ok(());
    }
    if !parts.is_empty() {
        parts.push_str(between)?;
    }
    parts.push_str(part)
}

// What the system said, without the number of the error and its first letter's case, as it is in
// the middle of a line.
fn said(alloc: Global, error: io::Error) -> Result<String, AllocError> {
    let whole = format!(in alloc; "{error}")?;
    let mut said = String::new(alloc);
    for character in without_number(whole.as_str()).chars() {
        if said.is_empty() {
            said.push(character.to_ascii_lowercase())?;
        } else {
            said.push(character)?;
        }
    }
    Ok(said)
}

fn without_number(text: &str) -> &str {
    match text.rsplit_once(" (os error ") {
        Some((message, _)) => message,
        None => text,
    }
}

// A text with control characters as escapes.
fn shown(alloc: Global, text: &str) -> Result<String, AllocError>
    ensures { IfOk result (λ shown. string_bytes shown ≡ flat_map shown_char (chars text.now)) }
{
    let mut shown = String::new(alloc);
    for character in text.chars() {
        push_shown(character, &mut shown)?;
    }
    Ok(shown)
}

/// Gives the path or the word that the fault of an order's run is about; empty if there is none.
/// `said` is what the system said of the last call on a file that failed, and `word` is the object
/// or the id that was refused.
pub fn path_of(
    alloc: Global,
    order: Order<'_>,
    fault: RunFault,
    said: Option<io::Error>,
    word: &str,
) -> Result<String, AllocError> {
    match (file_of(fault), order, said) {
        // OUT is written, since no call on a file failed: the report isn't.
        (Some(FileName::Output), Order::Changes { .. }, None) => {
            String::from_str(alloc, Order::Replay.output())
        }
        (Some(file), _, _) => path_of_file(alloc, order, file),
        (None, _, _) => String::from_str(alloc, word_of(order, fault, word)),
    }
}

// The file that a fault is about.
fn file_of(fault: RunFault) -> Option<FileName> {
    match fault {
        RunFault::ReadFault(file) | RunFault::WriteFault(file) => Some(file),
        RunFault::TooLarge(file) | RunFault::Absent(file) | RunFault::Changed(file) => Some(file),
        RunFault::BadState(file, _) | RunFault::BadChange(file, _, _) => Some(file),
        RunFault::Mismatch(number) => Some(FileName::Sequence(number, Suffix::State)),
        RunFault::Differs(number) => Some(FileName::Sequence(number, Suffix::State)),
        RunFault::OlderNumber(number) => Some(FileName::Sequence(number, Suffix::State)),
        RunFault::ZeroBase | RunFault::OlderState(_, _) => Some(FileName::State),
        RunFault::BadSave(_) | RunFault::BadSaveAt(_) => Some(FileName::Save),
        RunFault::OtherFilter => Some(FileName::Save),
        RunFault::BadJournal(_) | RunFault::OtherJournal(_) => Some(FileName::Journal),
        RunFault::TopBehind | RunFault::TimeBehind => Some(FileName::Top),
        RunFault::TimeBack | RunFault::SequenceFull => Some(FileName::Top),
        RunFault::TopAt(_) => Some(FileName::Top),
        _ => None,
    }
}

/// Gives the stream that the fault of a replay is about; empty if there is none.
pub fn stream_of(fault: ScriptFault) -> &'static str {
    match fault {
        ScriptFault::WantOfMemory => "",
        ScriptFault::ReadFault | ScriptFault::TooLarge => Order::Replay.input(),
        ScriptFault::BadScript(_) => Order::Replay.input(),
        ScriptFault::WriteFault => Order::Replay.output(),
    }
}

/// Gives the path of a file of an order.
pub fn path_of_file(alloc: Global, order: Order<'_>, file: FileName) -> Result<String, AllocError> {
    let word = match file {
        FileName::Top | FileName::Sequence(_, _) => return path_in(alloc, order.dir(), file),
        FileName::Journal => return path_of_journal(alloc, order.save()),
        FileName::Save => order.save(),
        FileName::Base => order.base().0,
        FileName::State => order.base().1,
        FileName::Changes => order.changes(),
        FileName::Input => order.input(),
        FileName::Output => order.output(),
    };
    String::from_str(alloc, word)
}

fn path_of_journal(alloc: Global, save: &str) -> Result<String, AllocError> {
    match journal_name(alloc, save) {
        Ok(name) => Ok(name),
        Err(WantOfMemory) => Err(AllocError),
    }
}

fn path_in(alloc: Global, dir: &str, file: FileName) -> Result<String, AllocError> {
    if dir.ends_with('/') {
        format!(in alloc; "{dir}{file}")
    } else {
        format!(in alloc; "{dir}/{file}")
    }
}

// The word that is wrong in itself; `refused` is the object or the id that was refused.
fn word_of<'a>(order: Order<'a>, fault: RunFault, refused: &'a str) -> &'a str {
    match (fault, order) {
        (RunFault::BadObject | RunFault::BadId, _) => refused,
        (RunFault::BadNow, _) => order.now(),
        (RunFault::BadSequence, Order::PublishAs { sequence, .. }) => sequence,
        (RunFault::BadSequence, Order::Audit { from, to, .. }) => word_of_range(from, to),
        (RunFault::BadSequence, Order::Changes { from, to, .. } | Order::Tally { from, to, .. }) =>
            word_of_range(Some(from), Some(to)),
        (RunFault::BadColumns, Order::Tally { by, .. } | Order::Counts { by, .. }) => {
            by.unwrap_or("")
        }
        (RunFault::UnknownForm, Order::Convert { input, output }) => match form_of(input) {
            None => input,
            Some(_) => output,
        },
        (RunFault::UnknownForm, Order::Export { output, .. } | Order::Changes { output, .. }) => {
            output
        }
        (RunFault::UnknownForm, Order::Begin { base, .. }) => base,
        _ => "",
    }
}

// The word of a range that says no number.
fn word_of_range<'a>(from: Option<&'a str>, to: Option<&'a str>) -> &'a str {
    match (number_of(from), from, to) {
        (Err(_), Some(word), _) | (Ok(_), _, Some(word)) => word,
        _ => "",
    }
}

/// Gives a hint on the fault of an order's run; empty if there is none.
pub fn hint_of(order: Order<'_>, fault: RunFault) -> &'static str {
    match (fault, order) {
        (RunFault::BadNow, _) => {
            "a time is written as 2024-01-01T00:00:00Z, and is at most 2106-02-07T06:28:15Z"
        }
        (RunFault::BadSequence, _) => "a number has 1 to 9 digits",
        (RunFault::BadLimit, Order::Counts { .. }) => {
            "--top takes a number from 1 to 999999999, and no ID beside it"
        }
        (RunFault::BadLimit, Order::Fingerprint { .. }) =>
            "--keys takes a number from 1 to 999999999",
        (RunFault::BadLimit, _) => "a limit is a number from 1 to 999999999",
        (RunFault::BadRange, Order::Audit { .. }) => {
            "--from is at least 1, and at most --to or the folder's newest number"
        }
        (RunFault::BadRange, _) => {
            "--from is at least 1, and at most --to and the newest number, that of state.txt"
        }
        (RunFault::BadObject, _) => "an object is written as n123, w123 or r123",
        (RunFault::BadColumns, Order::Counts { .. }) => "--by takes user or changeset",
        (RunFault::BadColumns, _) => {
            "--by takes some of day, user, changeset and kind, each once, with commas"
        }
        (RunFault::BadId, _) => "an id is a number below 4294967296",
        (RunFault::BadFilter, _) => {
            "kinds are some of n, w and r in this order, keys at most 100 of at most 1020 bytes"
        }
        (RunFault::OtherFilter, _) => "its first lines say its kinds and keys",
        (RunFault::BadJournal(_), _) => "without this file the save is at its own number",
        (RunFault::OtherJournal(_), Order::Begin { .. }) => "the same words again empty it",
        (RunFault::OtherJournal(_), _) => {
            "put back the save that it belongs to, or take it away"
        }
        (RunFault::UnknownForm, Order::Convert { .. } | Order::Changes { .. }) => {
            "the name of a change file ends in .opl or .o5c"
        }
        (RunFault::UnknownForm, _) => "the name of a data file ends in .opl or .o5m",
        (RunFault::TimeBack, _) => "its time is after that of --now",
        (RunFault::OlderNumber(_), _) => "the folder may be of another server than the save",
        _ => "",
    }
}

/// Gives the times of a state that is too old and of its data file's newest object, and a hint.
pub fn hint_of_times(alloc: Global, time: u32, newest: u32) -> Result<String, AllocError> {
    let (time, newest) = (time_write(time), time_write(newest));
    let (time, newest) = (text_of(&time), text_of(&newest));
    format!(in alloc; "it is of {time}, the newest object of {newest}; --any-time takes it")
}

fn text_of(time: &[u8; 20]) -> &str {
    str::from_utf8(time).unwrap_or("")
}

/// Gives the line of an OPL file that has a bad field, if that is the fault; `name` is the name of
/// the file.
pub fn line_of_field(name: &str, fault: RunFault) -> Option<u64> {
    match fault {
        RunFault::BadChange(FileName::Changes, line, Why::BadField) => Some(line),
        RunFault::BadChange(_, line, Why::BadField) if name.ends_with(".opl") => Some(line),
        _ => None,
    }
}

/// Whether a fault is about the content of a file.
pub fn is_of_content(fault: RunFault) -> bool {
    match fault {
        RunFault::BadState(_, _) | RunFault::BadChange(_, _, _) | RunFault::BadSave(_) => true,
        RunFault::BadSaveAt(_) => true,
        _ => false,
    }
}

/// Says what a file looks like by its first bytes; empty if nothing is recognised, or if its name
/// says the same.
pub fn look_of(name: &str, bytes: &[u8]) -> &'static str {
    let name = name.as_bytes();
    if bytes.starts_with(b"\x1f\x8b") {
        "gzip data"
    } else if bytes.starts_with(b"BZh") {
        "bzip2 data"
    } else if bytes.starts_with(b"<") || bytes.starts_with(b"\xef\xbb\xbf<") {
        "XML"
    } else if bytes.starts_with(b"\xff\xe0\x04o5c") && !name.ends_with(b".o5c") {
        "o5c data"
    } else if bytes.starts_with(b"\xff\xe0\x04o5m") && !name.ends_with(b".o5m") {
        "o5m data"
    } else {
        ""
    }
}
