//! The field at which a line of an OPL file can't be read.

use osm_model::form::Why;
use osm_opl::lines::{LineError, read_line};
use osm_reading::lines::split_line;
use osm_reading::pieces::cut;
use std::alloc::{AllocError, Global};

// Longer fields are cut.
const MOST_SHOWN: usize = 60;

// A field more than a line has.
const MOST_FIELDS: usize = 11;

// A line of each kind that is right.
const NODE: &[u8] = b"n1 v1 dV c1 t2024-01-01T00:00:00Z i1 ua T x1 y1";

const WAY: &[u8] = b"w1 v1 dV c1 t2024-01-01T00:00:00Z i1 ua T N";

const RELATION: &[u8] = b"r1 v1 dV c1 t2024-01-01T00:00:00Z i1 ua T M";

/// Describes the bad field of an OPL file's line `place`, counted from 1. The text is `field` and
/// up to 60 characters of the field, or `no field` and the letter of the missing field. It is empty
/// if no bad field is found.
///
/// The bad field is the first one with which the line can't be read even if all fields after it are
/// replaced by good ones.
pub fn field_text(alloc: Global, bytes: &[u8], place: u64) -> Result<String, AllocError> {
    match line_at(bytes, place) {
        Some(line) => field_of_line(alloc, line),
        None => Ok(String::new(alloc)),
    }
}

fn line_at(bytes: &[u8], place: u64) -> Option<&[u8]> {
    let mut rest = Some(bytes);
    for _ in 1..place {
        rest = split_line(rest?).1;
    }
    Some(split_line(rest?).0)
}

fn field_of_line(alloc: Global, line: &[u8]) -> Result<String, AllocError> {
    let mut right = Some(right_line(line));
    let mut read = Vec::new(alloc);
    for field in line.split(|byte| *byte == b' ').take(MOST_FIELDS) {
        right = right.and_then(|fields| cut(fields, b' ').1);
        read.extend_from_slice(field)?;
        if is_bad(alloc, read.as_slice(), right)? {
            return bad_text(alloc, field);
        }
        read.push(b' ')?;
    }
    missing_text(alloc, right)
}

// The right line of the line's kind.
fn right_line(line: &[u8]) -> &'static [u8] {
    match line.first() {
        Some(b'w') => WAY,
        Some(b'r') => RELATION,
        _ => NODE,
    }
}

// Whether the line of the fields that are read and of the right ones after them has a bad field.
fn is_bad(alloc: Global, read: &[u8], right: Option<&[u8]>) -> Result<bool, AllocError> {
    let mut line = Vec::from_slice(alloc, read)?;
    if let Some(fields) = right {
        line.push(b' ')?;
        line.extend_from_slice(fields)?;
    }
    match read_line(alloc, line.as_slice()) {
        Err(LineError::Fault(Why::BadField)) => Ok(true),
        _ => Ok(false),
    }
}

fn bad_text(alloc: Global, field: &[u8]) -> Result<String, AllocError> {
    let mut text = String::from_str(alloc, "field ")?;
    if let Ok(field) = std::str::from_utf8(field) {
        for character in field.chars().take(MOST_SHOWN) {
            text.push(character)?;
        }
    }
    Ok(text)
}

// The letter of the first right field that the line lacks.
fn missing_text(alloc: Global, right: Option<&[u8]>) -> Result<String, AllocError> {
    match right {
        Some([letter, ..]) => {
            let letter = char::from(*letter);
            format!(in alloc; "no field {letter}")
        }
        _ => Ok(String::new(alloc)),
    }
}
