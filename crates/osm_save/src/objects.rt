//! The objects of a save text, one a line, as `write_line` of OPL writes it.

ghost use Rattle.std.specs.Prelude.{◌≡◌, ◌++◌, ◌∷◌, ◌&&◌, [], None, Some, codes, length, map};
ghost use Rattle.std.specs.Prelude.{IfOk, IfSome, OnOk};
ghost use Rattle.osm_model.specs.Filter.{keeps};
ghost use Rattle.osm_model.specs.KeyOrder.{key_cmp};
ghost use Rattle.osm_opl.specs.Reading.{line_at};
ghost use Rattle.osm_opl.specs.Written.{line_text};
ghost use Rattle.osm_save.specs.Left.{left_in, left_of};
ghost use Rattle.osm_save.specs.Lines.{ended, list_lines};
ghost use Rattle.osm_save.specs.Answers.{StopsPlainly, Gives, Stops};
ghost use Rattle.osm_save.specs.Reading.{IsKeyOf, IsWritten, is_above, items_at, object_at};
ghost use Rattle.osm_save.specs.Reading.{objects_at};

use crate::lines::{next_line, numbered_line, write_numbered};
use crate::numbers::MOST_DIGITS;
use crate::order::is_key_above;
use crate::stop::Stop;
use osm_mirror::objects::Objects;
use osm_model::change::Change;
use osm_model::filter::Filter;
use osm_model::kind::Key;
use osm_model::memory::WantOfMemory;
use osm_opl::lines::{LineError, read_line, write_line};
use osm_opl::written::{read_written, written_key};
use std::alloc::Global;

/// The most objects of a text, from version 2 on.
pub const MOST_OBJECTS: u64 = 999_999_999_999_999_999;

/// Appends the list of all objects.
pub fn write_objects(objects: &Objects, out: &mut Vec<u8>) -> Result<(), WantOfMemory>
    ensures { OnOk result (out.new.items ≡ out.old.items
        ++ ended (list_lines (codes "objects ") line_text objects.now)) }
{
    write_numbered(b"objects ", objects.len() as u64, out)?;
    for change in objects.iter() {
        write_object(change, out)?;
    }
    Ok(())
}

/// Appends the list of the objects that are left in entries.
pub(crate) fn write_left(
    entries: &[(Key, Option<Change>)],
    out: &mut Vec<u8>,
) -> Result<(), WantOfMemory>
    ensures { OnOk result (out.new.items ≡ out.old.items
        ++ ended (list_lines (codes "objects ") line_text (left_in entries.now))) }
{
    write_numbered(b"objects ", count_left(entries), out)?;
    for (_key, left) in entries {
        write_one_left(left, out)?;
    }
    Ok(())
}

// Appends the line of what is left of an object, if anything.
fn write_one_left(left: &Option<Change>, out: &mut Vec<u8>) -> Result<(), WantOfMemory>
    ensures { OnOk result (out.new.items
        ≡ out.old.items ++ ended (map line_text (left_of left.now))) }
{
    match left {
        None => Ok(()),
        Some(object) => write_object(object, out),
    }
}

/// How many objects are left in entries.
pub(crate) fn count_left(entries: &[(Key, Option<Change>)]) -> u64
    ensures { result ≡ length (left_in entries.now) }
{
    let mut count: u64 = 0;
    for (_key, left) in entries {
        count += count_one_left(left);
    }
    count
}

fn count_one_left(left: &Option<Change>) -> u64
    ensures { result ≡ length (left_of left.now) }
{
    match left {
        None => 0,
        Some(_) => 1,
    }
}

/// Appends the line of an object, as `write_line` of OPL writes it, and LF.
pub fn write_object(change: &Change, out: &mut Vec<u8>) -> Result<(), WantOfMemory>
    ensures { OnOk result (out.new.items ≡ out.old.items ++ ended (line_text change.now ∷ [])) }
{
    write_line(change, out)?;
    out.push(b'\n')?;
    Ok(())
}

/// Reads the list of at most `most` objects, all of which the filter keeps, and gives the bytes
/// after the list.
#[tactic(auto, unfolding(crate::specs::Reading::objects_at))]
pub fn read_objects<'a>(
    alloc: Global,
    filter: &Filter,
    most: u64,
    rest: &'a [u8],
) -> Result<(Objects, &'a [u8]), Stop>
    ensures { Gives (λ r. (r.0, r.1.now)) result (objects_at filter.now most rest.now) }
{
    match numbered_line(b"objects ", most, rest) {
        Ok((many, after)) => read_object_lines(alloc, filter, many, after),
        Err(stop) => Err(refused_at(alloc, filter, most, rest, stop)),
    }
}

// Where the list is refused whose number was refused with `stop`.
fn refused_at(alloc: Global, filter: &Filter, most: u64, rest: &[u8], stop: Stop) -> Stop
    requires { StopsPlainly stop (objects_at filter.now most rest.now) }
    ensures { Stops result (objects_at filter.now most rest.now) }
{
    if most < MOST_OBJECTS {
        return stop;
    }
    end_of_objects(alloc, filter, rest, stop)
}

// `stop`, or the line where the objects end if their number has only too many digits: the number of
// objects has no bound of its own from version 2 on, so more than there can be are missed there.
fn end_of_objects(alloc: Global, filter: &Filter, rest: &[u8], stop: Stop) -> Stop {
    if !has_long_number(rest) {
        return stop;
    }
    let Ok((_line, after)) = next_line(rest) else {
        return stop;
    };
    match read_object_lines(alloc, filter, u64::MAX, after) {
        Ok(_) => stop,
        Err(end) => end,
    }
}

// Whether the next line has a number of objects with more digits than any text can have objects.
fn has_long_number(rest: &[u8]) -> bool {
    let Ok((line, _after)) = next_line(rest) else {
        return false;
    };
    match line.strip_prefix(b"objects ") {
        Some(digits) => {
            digits.len() > MOST_DIGITS
                && !digits.starts_with(b"0")
                && digits.iter().all(|digit| digit.is_ascii_digit())
        }
        None => false,
    }
}

// Reads `many` lines. Memory is taken only for lines that are there.
fn read_object_lines<'a>(
    alloc: Global,
    filter: &Filter,
    many: u64,
    rest: &'a [u8],
) -> Result<(Objects, &'a [u8]), Stop>
    ensures { Gives (λ r. (r.0, r.1.now)) result
        (items_at (λ c. c.key) (object_at filter.now) many None rest.now) }
{
    let mut objects = Objects::new(alloc);
    let mut written = Vec::new(alloc);
    let mut last = None;
    let mut rest = rest;
    for _ in 0..many {
        let (line, after) = match next_line(rest) {
            Ok(cut) => cut,
            Err(stop) => return Err(stop),
        };
        let object = match read_object(alloc, filter, last, line, &mut written) {
            Ok(Some(object)) => object,
            Ok(None) => return Err(Stop::Wrong(rest.len())),
            Err(WantOfMemory) => return Err(Stop::WantOfMemory),
        };
        last = Some(object.key());
        objects.push(object)?;
        rest = after;
    }
    Ok((objects, rest))
}

/// Reads the object that is written as this line, if the filter keeps the object and its key is
/// above `last`. All lines share the buffer `written`: its contents are overwritten, with the line
/// if the line is an object's.
pub fn read_object(
    alloc: Global,
    filter: &Filter,
    last: Option<Key>,
    line: &[u8],
    written: &mut Vec<u8>,
) -> Result<Option<Change>, WantOfMemory>
    ensures read { IfOk result (λ r. r ≡ object_at filter.now last line.now) }
    ensures written { IfOk result (λ r. IfSome r (λ c. written.new.items ≡ line_text c)) }
{
    let Some(object) = written_change(alloc, line, written)? else {
        return Ok(None);
    };
    object.limits();
    if !is_chosen(&object, filter, last) {
        return Ok(None);
    }
    Ok(Some(object))
}

// The change that is written as this line. Nearly all lines are exactly what is written of their
// objects, so these aren't written again to be compared.
fn written_change(
    alloc: Global,
    line: &[u8],
    written: &mut Vec<u8>,
) -> Result<Option<Change>, WantOfMemory>
    ensures { IfOk result (IsWritten line.now written.new.items) }
{
    written.clear();
    written.extend_from_slice(line)?;
    match read_written(alloc, line)? {
        Some(object) => Ok(Some(object)),
        None => spelled_change(alloc, line, written),
    }
}

// The same by reading the line in any spelling, and by writing what it spells.
// Never inlined: nearly all lines are read without it.
#[inline(never)]
fn spelled_change(
    alloc: Global,
    line: &[u8],
    written: &mut Vec<u8>,
) -> Result<Option<Change>, WantOfMemory>
    ensures { IfOk result (IsWritten line.now written.new.items) }
{
    let Some(change) = change_of(alloc, line)? else {
        return Ok(None);
    };
    written.clear();
    write_line(&change, written)?;
    if written.as_slice() == line {
        Ok(Some(change))
    } else {
        Ok(None)
    }
}

// Whether the filter keeps the object, and its key comes after the last one.
fn is_chosen(object: &Change, filter: &Filter, last: Option<Key>) -> bool
    ensures { result ≡ (keeps filter.now object.now && is_above key_cmp last object.now.key) }
{
    filter.keeps(object) && is_key_above(last, object.key())
}

/// Gives the key of an object's line, as `read_object` does but without the object, if the filter
/// keeps the object and its key is above `last`. For nearly all lines no object is built if the
/// filter has no keys.
pub fn checked_key(
    alloc: Global,
    filter: &Filter,
    last: Option<Key>,
    line: &[u8],
    written: &mut Vec<u8>,
) -> Result<Option<Key>, WantOfMemory>
    ensures { IfOk result (λ r. IsKeyOf filter.now last line.now r) }
{
    if let Some(key) = plain_key(filter, last, line) {
        return Ok(Some(key));
    }
    let Some(object) = read_object(alloc, filter, last, line, written)? else {
        return Ok(None);
    };
    Ok(Some(object.key()))
}

// The fast path of `checked_key`: a filter without keys, and a line that is recognised as it is.
fn plain_key(filter: &Filter, last: Option<Key>, line: &[u8]) -> Option<Key>
    ensures { IfSome result (λ key. IsKeyOf filter.now last line.now (Some key)) }
{
    if !filter.keys().is_empty() {
        return None;
    }
    let key = written_key(line)?;
    if !filter.chooses(key.kind) {
        return None;
    }
    if !is_key_above(last, key) {
        return None;
    }
    Some(key)
}

// The change that the line spells.
fn change_of(alloc: Global, line: &[u8]) -> Result<Option<Change>, WantOfMemory>
    ensures { IfOk result (λ r. r ≡ line_at line.now) }
{
    match read_line(alloc, line) {
        Ok(change) => Ok(Some(change)),
        Err(LineError::Fault(_)) => Ok(None),
        Err(LineError::WantOfMemory) => Err(WantOfMemory),
    }
}
