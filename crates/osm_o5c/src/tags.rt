//! Tags up to the end of an object.

ghost use Rattle.std.specs.Prelude.{◌≡◌, ◌<◌, ◌≤◌, ◌+◌, [], ◌∷◌, ◌++◌, length, IfOk, OnOk};
ghost use Rattle.std.specs.Prelude.{vec_capacity};
ghost use Rattle.osm_o5c.specs.ObjectReading.{tags_at};
ghost use Rattle.osm_reading.specs.Answers.{Gives};
ghost use Rattle.osm_o5c.specs.StringReading.{tag_at};
ghost use Rattle.osm_o5c.specs.Written.{tags_text, after_tags};

use crate::file_string::{flat_text, text};
use crate::string_index::StringIndex;
use crate::strings::{StringTable, write_pair};
use osm_model::flat::FlatTag;
use osm_model::form::Why;
use osm_model::limits::MAX_TAGS;
use osm_model::lists::{Tag, Tags};
use osm_model::memory::WantOfMemory;
use osm_reading::pieces::cut;
use osm_reading::refusal::Refusal;
use std::alloc::Global;

// The tag at the start, and the bytes after it.
#[tactic(auto, unfolding(crate::specs::StringReading::tag_at))]
fn tag<'a>(
    strings: &mut StringTable<'a>,
    alloc: Global,
    bytes: &'a [u8],
) -> Result<(Tag, &'a [u8]), Refusal>
    ensures { Gives (λ r. (r.0, strings.new, r.1.now)) result (tag_at strings.old bytes.now) }
{
    let (key, value, rest) = strings.pair(alloc, bytes)?;
    let key = text(alloc, &key)?;
    let value = text(alloc, &value)?;
    Ok((Tag { key, value }, rest))
}

// The most tags that a new list gets room for; a longer one grows.
const MAX_ROOM: usize = 16;

// The bytes after the first 00; none if there is no 00.
fn after_nul(bytes: &[u8]) -> &[u8]
    ensures { length result.now ≤ length bytes.now }
{
    match cut(bytes, 0).1 {
        Some(rest) => rest,
        None => &[],
    }
}

// The bytes after the number at the start, which ends with the first byte below 128; none if there
// is no such byte.
fn after_number(bytes: &[u8]) -> &[u8]
    ensures { 0 < length bytes.now → length result.now < length bytes.now }
{
    match bytes.iter().position(|byte| *byte < 128) {
        Some(last) => &bytes[last + 1..],
        None => &[],
    }
}

// The bytes after the tag at the start: `00 key 00 value 00`, or a number that names one. The tag
// isn't read. If it is cut off, no bytes are left.
fn after_tag(bytes: &[u8]) -> &[u8]
    ensures { 0 < length bytes.now → length result.now < length bytes.now }
{
    match bytes.split_first() {
        Some((0, rest)) => after_nul(after_nul(rest)),
        _ => after_number(bytes),
    }
}

// How many tags there are, or 15 if there are more.
fn count_tags(bytes: &[u8]) -> usize
    ensures most { result ≤ 15 }
    ensures bytes { result ≤ length bytes.now }
{
    let mut rest = bytes;
    for count in 0..MAX_ROOM - 1 {
        if rest.is_empty() {
            return count;
        }
        rest = after_tag(rest);
    }
    MAX_ROOM - 1
}

// An empty list with room for one tag and those after it, 16 at most.
fn room_for_tags(alloc: Global, after: &[u8]) -> Result<Vec<Tag>, WantOfMemory>
    ensures empty { IfOk result (λ v. v.items ≡ []) }
    ensures most { IfOk result (λ v. vec_capacity v ≤ 16) }
    ensures room { IfOk result (λ v. vec_capacity v ≤ 1 + length after.now) }
{
    Ok(Vec::with_capacity(alloc, 1 + count_tags(after))?)
}

// Appends a tag. The first one makes room for itself and the tags in the bytes after it.
fn add_tag(found: &mut Vec<Tag>, alloc: Global, one: Tag, after: &[u8]) -> Result<(), WantOfMemory>
    ensures { OnOk result (found.new.items ≡ found.old.items ++ one ∷ []) }
{
    if found.is_empty() {
        *found = room_for_tags(alloc, after)?;
    }
    found.push(one)?;
    Ok(())
}

/// The tags up to the end of the bytes, at most 5,000.
// Most nodes have none, so that this case is inlined.
#[inline(always)]
pub fn tags<'a>(
    strings: &mut StringTable<'a>,
    alloc: Global,
    bytes: &'a [u8],
) -> Result<Tags, Refusal>
    ensures { Gives (λ t. (t, strings.new)) result (tags_at strings.old bytes.now) }
{
    if bytes.is_empty() {
        return Ok(Tags::from_vec(Vec::new(alloc)));
    }
    some_tags(strings, alloc, bytes)
}

// The same, if there are any.
#[inline(never)]
fn some_tags<'a>(
    strings: &mut StringTable<'a>,
    alloc: Global,
    bytes: &'a [u8],
) -> Result<Tags, Refusal>
    ensures { Gives (λ t. (t, strings.new)) result (tags_at strings.old bytes.now) }
{
    let mut found = Vec::new(alloc);
    let mut rest = bytes;
    while !rest.is_empty() {
        if found.len() >= MAX_TAGS {
            return Err(Refusal::Fault(Why::TooMany));
        }
        let (one, after) = match tag(strings, alloc, rest) {
            Ok(read) => read,
            Err(refusal) => return Err(refusal),
        };
        if add_tag(&mut found, alloc, one, after).is_err() {
            return Err(Refusal::WantOfMemory);
        }
        rest = after;
    }
    Ok(Tags::from_vec(found))
}

// The tag at the start, of which nothing is owned, and the bytes after it.
#[inline(always)]
#[tactic(auto, unfolding(crate::specs::StringReading::tag_at))]
fn flat_tag<'a>(
    strings: &mut StringTable<'a>,
    alloc: Global,
    bytes: &'a [u8],
) -> Result<(FlatTag<'a>, &'a [u8]), Refusal>
    ensures { Gives (λ r. (r.0, strings.new, r.1.now)) result (tag_at strings.old bytes.now) }
{
    let (key, value, rest) = strings.pair(alloc, bytes)?;
    let key = flat_text(&key)?;
    let value = flat_text(&value)?;
    Ok((FlatTag::within_limits(key, value), rest))
}

/// Puts the tags up to the end of the bytes, at most 5,000 and with borrowed texts, into the list,
/// which must be empty.
// Most nodes have none, so that this case is inlined.
#[inline(always)]
pub(crate) fn read_flat_tags<'a>(
    strings: &mut StringTable<'a>,
    alloc: Global,
    bytes: &'a [u8],
    found: &mut Vec<FlatTag<'a>>,
) -> Result<(), Refusal>
    requires { found.old.items ≡ [] }
    ensures { Gives (λ _. (found.new.items, strings.new)) result (tags_at strings.old bytes.now) }
{
    if bytes.is_empty() {
        return Ok(());
    }
    read_some_flat_tags(strings, alloc, bytes, found)
}

// The same, if there are any.
#[inline(never)]
fn read_some_flat_tags<'a>(
    strings: &mut StringTable<'a>,
    alloc: Global,
    bytes: &'a [u8],
    found: &mut Vec<FlatTag<'a>>,
) -> Result<(), Refusal>
    requires { found.old.items ≡ [] }
    ensures { Gives (λ _. (found.new.items, strings.new)) result (tags_at strings.old bytes.now) }
{
    let mut rest = bytes;
    while !rest.is_empty() {
        if found.len() >= MAX_TAGS {
            return Err(Refusal::Fault(Why::TooMany));
        }
        let (one, after) = match flat_tag(strings, alloc, rest) {
            Ok(read) => read,
            Err(refusal) => return Err(refusal),
        };
        if found.push(one).is_err() {
            return Err(Refusal::WantOfMemory);
        }
        rest = after;
    }
    Ok(())
}

/// Appends tags, each a pair.
// Most nodes have none, so that this case is inlined.
#[inline(always)]
pub fn write_tags(
    out: &mut Vec<u8>,
    strings: &mut StringIndex,
    tags: &[Tag],
) -> Result<(), WantOfMemory>
    ensures text { OnOk result
        (out.new.items ≡ out.old.items ++ tags_text strings.old tags.now) }
    ensures strings_are { OnOk result (strings.new ≡ after_tags strings.old tags.now) }
{
    if tags.is_empty() {
        return Ok(());
    }
    write_some_tags(out, strings, tags)
}

// The same, if there are any.
#[inline(never)]
fn write_some_tags(
    out: &mut Vec<u8>,
    strings: &mut StringIndex,
    tags: &[Tag],
) -> Result<(), WantOfMemory>
    ensures text { OnOk result
        (out.new.items ≡ out.old.items ++ tags_text strings.old tags.now) }
    ensures strings_are { OnOk result (strings.new ≡ after_tags strings.old tags.now) }
{
    for tag in tags {
        write_pair(
            out,
            strings,
            tag.key.as_str().as_bytes(),
            tag.value.as_str().as_bytes(),
        )?;
    }
    Ok(())
}
