//! Lists: tags, the nodes of a way and the members of a relation, separated by commas.

ghost use Rattle.std.specs.Prelude.{◌≡◌, ◌+◌, ◌<◌, ◌≤◌, ◌++◌, ◌∷◌, [], drop, length, if◌then◌else◌};
ghost use Rattle.std.specs.Prelude.{IfOk, IfSome, OnOk, OnErr, Some, true, vec_capacity};
ghost use Rattle.std.specs.Io.{StartsWith};
ghost use Rattle.std.specs.List.{list_all};
ghost use Rattle.osm_opl.specs.Lists.{letter_of};
ghost use Rattle.osm_opl.specs.Room.{LacksRoom, WantsOnlyIf};
ghost use Rattle.osm_opl.specs.Steps.Plain.{first_at};
ghost use Rattle.osm_opl.specs.Reading.{kind_at, list_at, list_pieces, member_at};
ghost use Rattle.osm_opl.specs.Reading.{ref_at, tag_at};
ghost use Rattle.osm_opl.specs.Steps.Writing.{items_left, pair_text, role_text};
ghost use Rattle.osm_opl.specs.Written.{is_written_bare, items_text, member_text, ref_text};
ghost use Rattle.osm_opl.specs.Written.{tag_text};
ghost use Rattle.osm_reading.specs.Pieces.{pieces, pieces_after};
ghost use Rattle.osm_reading.specs.Answers.{Finds, Gives};

use crate::escapes::{is_short, read_text, write_text};
use crate::numbers::read_id;
use crate::plain::leading_id;
use crate::prepend::{ROOM, prepend, prepend_comma, prepend_id, prepend_key};
use osm_model::flat::FlatTag;
use osm_model::form::Why;
use osm_model::kind::{Key, Kind};
use osm_model::limits::{MAX_REFS, MAX_TAGS};
use osm_model::lists::{Member, Members, Refs, Tag, Tags};
use osm_model::memory::WantOfMemory;
use osm_reading::pieces::cut;
use osm_reading::refusal::Refusal;
use std::alloc::{AllocError, Global};

// How many nodes of a way are appended at once. The room takes them, each with its comma.
const FEW: usize = 8;

// What there is to read of a list: nothing if the list is empty.
fn first_item(bytes: &[u8]) -> Option<&[u8]>
    ensures { pieces_after 44 result ≡ list_pieces bytes.now }
{
    if bytes.is_empty() { None } else { Some(bytes) }
}

/// An empty vector with room for as many items as the bytes have pieces, but for no more than may
/// be read.
pub(crate) fn room_for<T>(alloc: Global, bytes: &[u8], most: usize) -> Result<Vec<T>, AllocError>
    ensures none { IfOk result (λ v. v.items ≡ []) }
    ensures room { IfOk result (λ v. (vec_capacity v ≤ most)
        × (vec_capacity v ≤ length bytes.now + 1)) }
    ensures refused { OnErr result (0 < length bytes.now) }
{
    if bytes.is_empty() {
        return Ok(Vec::new(alloc));
    }
    Vec::with_capacity(alloc, commas(bytes).saturating_add(1).min(most))
}

fn commas(bytes: &[u8]) -> usize
    ensures { result ≤ length bytes.now }
{
    let mut count = 0;
    for byte in bytes {
        count += (*byte == b',') as usize;
    }
    count
}

/// Reads at most 5,000 tags.
pub(crate) fn read_tags(alloc: Global, bytes: &[u8]) -> Result<Tags, Refusal>
    ensures { Gives (λ t. t) result (list_at tag_at 5000 bytes.now) }
{
    let mut tags = room_for(alloc, bytes, MAX_TAGS)?;
    let mut rest = first_item(bytes);
    while let Some(items) = rest {
        if tags.len() >= MAX_TAGS {
            return Err(Refusal::Fault(Why::TooMany));
        }
        let (item, after) = cut(items, b',');
        match read_tag(alloc, item) {
            Ok(tag) => tags.push(tag)?,
            Err(error) => return Err(error),
        }
        rest = after;
    }
    Ok(Tags::from_vec(tags))
}

// `KEY=VALUE`
#[tactic(auto, unfolding(crate::specs::Reading::tag_at))]
fn read_tag(alloc: Global, bytes: &[u8]) -> Result<Tag, Refusal>
    ensures value { Gives (λ t. t) result (tag_at bytes.now) }
    ensures wants { WantsOnlyIf (0 < length bytes.now) result }
{
    let (key, value) = cut(bytes, b'=');
    let Some(value) = value else {
        return Err(Refusal::Fault(Why::BadField));
    };
    Ok(Tag {
        key: read_text(alloc, key)?,
        value: read_text(alloc, value)?,
    })
}

/// Reads at most 32,000 nodes of a way.
pub(crate) fn read_refs(alloc: Global, bytes: &[u8]) -> Result<Refs, Refusal>
    ensures { Gives (λ r. r) result (list_at ref_at 32000 bytes.now) }
{
    let mut refs = room_for(alloc, bytes, MAX_REFS)?;
    let mut rest = first_item(bytes);
    while let Some(items) = rest {
        if refs.len() >= MAX_REFS {
            return Err(Refusal::Fault(Why::TooMany));
        }
        match next_ref(items) {
            Ok((id, after)) => {
                refs.push(id)?;
                rest = after;
            }
            Err(why) => return Err(Refusal::Fault(why)),
        }
    }
    Ok(Refs::from_vec(refs))
}

/// The first node, and what follows the comma after it.
pub(crate) fn next_ref(items: &[u8]) -> Result<(i64, Option<&[u8]>), Why>
    ensures value { Finds (λ r. (r.0, pieces_after 44 r.1)) result
        (first_at ref_at (pieces 44 items.now)) }
    ensures shorter { IfOk result (λ r.
        IfSome r.1 (λ rest. length rest.now < length items.now)) }
{
    match plain_ref(items) {
        Some(found) => Ok(found),
        None => cut_ref(items),
    }
}

fn plain_ref(items: &[u8]) -> Option<(i64, Option<&[u8]>)>
    ensures value { IfSome result (λ r.
        first_at ref_at (pieces 44 items.now) ≡ Some (r.0, pieces_after 44 r.1)) }
    ensures shorter { IfSome result (λ r.
        IfSome r.1 (λ rest. length rest.now < length items.now)) }
{
    match items.split_first() {
        Some((b'n', id)) => leading_id(id, b','),
        _ => None,
    }
}

fn cut_ref(items: &[u8]) -> Result<(i64, Option<&[u8]>), Why>
    ensures value { Finds (λ r. (r.0, pieces_after 44 r.1)) result
        (first_at ref_at (pieces 44 items.now)) }
    ensures shorter { IfOk result (λ r.
        IfSome r.1 (λ rest. length rest.now < length items.now)) }
{
    let (item, after) = cut(items, b',');
    Ok((read_ref(item)?, after))
}

// `nID`
#[tactic(auto, unfolding(crate::specs::Reading::ref_at))]
fn read_ref(bytes: &[u8]) -> Result<i64, Why>
    ensures { Finds (λ z. z) result (ref_at bytes.now) }
{
    match bytes.split_first() {
        Some((b'n', id)) => read_id(id),
        _ => Err(Why::BadField),
    }
}

/// Reads at most 32,000 members of a relation.
pub(crate) fn read_members(alloc: Global, bytes: &[u8]) -> Result<Members, Refusal>
    ensures { Gives (λ m. m) result (list_at member_at 32000 bytes.now) }
{
    let mut members = room_for(alloc, bytes, MAX_REFS)?;
    let mut rest = first_item(bytes);
    while let Some(items) = rest {
        if members.len() >= MAX_REFS {
            return Err(Refusal::Fault(Why::TooMany));
        }
        let (item, after) = cut(items, b',');
        match read_member(alloc, item) {
            Ok(member) => members.push(member)?,
            Err(error) => return Err(error),
        }
        rest = after;
    }
    Ok(Members::from_vec(members))
}

// `nID@ROLE`, `wID@ROLE` or `rID@ROLE`
#[tactic(auto, unfolding(crate::specs::Reading::member_at))]
fn read_member(alloc: Global, bytes: &[u8]) -> Result<Member, Refusal>
    ensures value { Gives (λ m. m) result (member_at bytes.now) }
    ensures wants { WantsOnlyIf (0 < length bytes.now) result }
{
    let Some((letter, rest)) = bytes.split_first() else {
        return Err(Refusal::Fault(Why::BadKind));
    };
    let kind = read_kind(*letter)?;
    let (id, role) = cut(rest, b'@');
    let Some(role) = role else {
        return Err(Refusal::Fault(Why::BadField));
    };
    Ok(Member {
        key: Key {
            kind,
            id: read_id(id)?,
        },
        role: read_text(alloc, role)?,
    })
}

/// The kind that a letter names.
pub(crate) fn read_kind(letter: u8) -> Result<Kind, Why>
    ensures { Finds (λ k. k) result (kind_at letter) }
{
    match letter {
        b'n' => Ok(Kind::Node),
        b'w' => Ok(Kind::Way),
        b'r' => Ok(Kind::Relation),
        _ => Err(Why::BadKind),
    }
}

/// `n`, `w` or `r`.
pub(crate) fn kind_letter(kind: Kind) -> u8
    ensures { result ≡ letter_of kind }
{
    match kind {
        Kind::Node => b'n',
        Kind::Way => b'w',
        Kind::Relation => b'r',
    }
}

// Inlined, since most objects have no tags.
#[inline(always)]
pub(crate) fn write_tags(tags: &[Tag], out: &mut Vec<u8>) -> Result<(), WantOfMemory>
    ensures ok { OnOk result (out.new.items ≡ out.old.items ++ items_text tag_text tags.now) }
    ensures err { OnErr result (StartsWith out.new.items out.old.items) }
    ensures room { vec_capacity out.old ≤ vec_capacity out.new }
    ensures refused { OnErr result (LacksRoom out.old (items_text tag_text tags.now)) }
{
    let mut is_first = true;
    for tag in tags {
        write_tag(is_first, tag.key.as_str(), tag.value.as_str(), out)?;
        is_first = false;
    }
    Ok(())
}

/// `write_tags`, of tags whose texts aren't owned.
pub(crate) fn write_flat_tags(tags: &[FlatTag<'_>], out: &mut Vec<u8>) -> Result<(), WantOfMemory>
    ensures ok { OnOk result (out.new.items ≡ out.old.items ++ items_text tag_text tags.now) }
    ensures err { OnErr result (StartsWith out.new.items out.old.items) }
    ensures room { vec_capacity out.old ≤ vec_capacity out.new }
    ensures refused { OnErr result (LacksRoom out.old (items_text tag_text tags.now)) }
{
    let mut is_first = true;
    for tag in tags {
        write_tag(is_first, tag.key(), tag.value(), out)?;
        is_first = false;
    }
    Ok(())
}

// `KEY=VALUE`, after a comma unless it is the first
fn write_tag(is_first: bool, key: &str, value: &str, out: &mut Vec<u8>) -> Result<(), WantOfMemory>
    ensures ok { OnOk result (out.new.items ≡ out.old.items
        ++ ((if is_first then [] else 44 ∷ []) ++ pair_text key.now value.now)) }
    ensures err { OnErr result (StartsWith out.new.items out.old.items) }
    ensures room { vec_capacity out.old ≤ vec_capacity out.new }
    ensures refused { OnErr result (LacksRoom out.old
        ((if is_first then [] else 44 ∷ []) ++ pair_text key.now value.now)) }
{
    if is_short(key) && is_short(value) {
        write_short_tag(is_first, key, value, out)
    } else {
        write_long_tag(is_first, key, value, out)
    }
}

// The fast path of `write_tag`: key and value are short and need no escape, so all is appended at
// once.
fn write_short_tag(
    is_first: bool,
    key: &str,
    value: &str,
    out: &mut Vec<u8>,
) -> Result<(), WantOfMemory>
    requires short { (length key.now ≤ 64) × (length value.now ≤ 64) }
    requires key { list_all is_written_bare key.now ≡ true }
    requires value { list_all is_written_bare value.now ≡ true }
    ensures ok { OnOk result (out.new.items ≡ out.old.items
        ++ ((if is_first then [] else 44 ∷ []) ++ pair_text key.now value.now)) }
    ensures err { OnErr result (StartsWith out.new.items out.old.items) }
    ensures room { vec_capacity out.old ≤ vec_capacity out.new }
    ensures refused { OnErr result (LacksRoom out.old
        ((if is_first then [] else 44 ∷ []) ++ pair_text key.now value.now)) }
{
    let mut room = [0; ROOM];
    let value = prepend(value.as_bytes(), &mut room, ROOM);
    let equals = prepend(b"=", &mut room, value);
    let key = prepend(key.as_bytes(), &mut room, equals);
    let start = prepend_comma(is_first, &mut room, key);
    out.extend_from_slice(&room[start..])?;
    Ok(())
}

#[tactic(auto, using(crate::proofs::WrittenLemmas::starts_back, crate::proofs::RoomLemmas::lacks))]
fn write_long_tag(
    is_first: bool,
    key: &str,
    value: &str,
    out: &mut Vec<u8>,
) -> Result<(), WantOfMemory>
    ensures ok { OnOk result (out.new.items ≡ out.old.items
        ++ ((if is_first then [] else 44 ∷ []) ++ pair_text key.now value.now)) }
    ensures err { OnErr result (StartsWith out.new.items out.old.items) }
    ensures room { vec_capacity out.old ≤ vec_capacity out.new }
    ensures refused { OnErr result (LacksRoom out.old
        ((if is_first then [] else 44 ∷ []) ++ pair_text key.now value.now)) }
{
    write_comma(is_first, out)?;
    write_pair(key, value, out)?;
    Ok(())
}

// `KEY=VALUE`
fn write_pair(key: &str, value: &str, out: &mut Vec<u8>) -> Result<(), WantOfMemory>
    ensures ok { OnOk result (out.new.items ≡ out.old.items ++ pair_text key.now value.now) }
    ensures err { OnErr result (StartsWith out.new.items out.old.items) }
    ensures room { vec_capacity out.old ≤ vec_capacity out.new }
    ensures refused { OnErr result (LacksRoom out.old (pair_text key.now value.now)) }
{
    write_text(key, out)?;
    out.push(b'=')?;
    write_text(value, out)?;
    Ok(())
}

// Writes a comma before each item except the first.
fn write_comma(is_first: bool, out: &mut Vec<u8>) -> Result<(), WantOfMemory>
    ensures ok { OnOk result (out.new.items ≡ out.old.items ++ (if is_first then [] else 44 ∷ [])) }
    ensures err { OnErr result (StartsWith out.new.items out.old.items) }
    ensures room { vec_capacity out.old ≤ vec_capacity out.new }
    ensures refused { OnErr result (LacksRoom out.old (if is_first then [] else 44 ∷ [])) }
{
    if !is_first {
        out.push(b',')?;
    }
    Ok(())
}

pub(crate) fn write_refs(refs: &[i64], out: &mut Vec<u8>) -> Result<(), WantOfMemory>
    ensures ok { OnOk result (out.new.items ≡ out.old.items ++ items_text ref_text refs.now) }
    ensures err { OnErr result (StartsWith out.new.items out.old.items) }
    ensures room { vec_capacity out.old ≤ vec_capacity out.new }
    ensures refused { OnErr result (LacksRoom out.old (items_text ref_text refs.now)) }
{
    let mut room = [0; ROOM];
    let mut is_first = true;
    let mut rest = refs;
    while !rest.is_empty() {
        let (few, after) = rest.split_at(rest.len().min(FEW));
        write_few_refs(is_first, few, &mut room, out)?;
        is_first = false;
        rest = after;
    }
    Ok(())
}

// Writes a few nodes with one append. The caller's room is cleared once for all nodes.
fn write_few_refs(
    is_first: bool,
    refs: &[i64],
    room: &mut [u8; ROOM],
    out: &mut Vec<u8>,
) -> Result<(), WantOfMemory>
    requires { (1 ≤ length refs.now) × (length refs.now ≤ 8) }
    ensures ok { OnOk result
        (out.new.items ≡ out.old.items ++ items_left ref_text is_first refs.now) }
    ensures err { OnErr result (StartsWith out.new.items out.old.items) }
    ensures room { vec_capacity out.old ≤ vec_capacity out.new }
    ensures refused { OnErr result (LacksRoom out.old (items_left ref_text is_first refs.now)) }
{
    let start = prepend_refs(is_first, refs, room);
    out.extend_from_slice(&room[start..])?;
    Ok(())
}

// A comma and `nID` for each node, at the end of the room; the first comma counts only if it is
// wanted.
fn prepend_refs(is_first: bool, refs: &[i64], room: &mut [u8; ROOM]) -> usize
    requires { (1 ≤ length refs.now) × (length refs.now ≤ 8) }
    ensures start { result ≤ 192 }
    ensures written { drop result room.new ≡ items_left ref_text is_first refs.now }
{
    let mut start = ROOM;
    let mut left = refs.len();
    while left > 0 {
        left -= 1;
        let digits = prepend_id(refs[left], room, start);
        start = prepend(b",n", room, digits);
    }
    if is_first { start + 1 } else { start }
}

pub(crate) fn write_members(members: &[Member], out: &mut Vec<u8>) -> Result<(), WantOfMemory>
    ensures ok { OnOk result (out.new.items ≡ out.old.items ++ items_text member_text members.now) }
    ensures err { OnErr result (StartsWith out.new.items out.old.items) }
    ensures room { vec_capacity out.old ≤ vec_capacity out.new }
    ensures refused { OnErr result (LacksRoom out.old (items_text member_text members.now)) }
{
    let mut is_first = true;
    for member in members {
        write_member(is_first, member, out)?;
        is_first = false;
    }
    Ok(())
}

// `nID@ROLE`, `wID@ROLE` or `rID@ROLE`, after a comma unless it is the first
fn write_member(is_first: bool, member: &Member, out: &mut Vec<u8>) -> Result<(), WantOfMemory>
    ensures ok { OnOk result (out.new.items
        ≡ out.old.items ++ ((if is_first then [] else 44 ∷ []) ++ member_text member.now)) }
    ensures err { OnErr result (StartsWith out.new.items out.old.items) }
    ensures room { vec_capacity out.old ≤ vec_capacity out.new }
    ensures refused { OnErr result (LacksRoom out.old
        ((if is_first then [] else 44 ∷ []) ++ member_text member.now)) }
{
    let role = member.role.as_str();
    if is_short(role) {
        write_short_member(is_first, member.key, role, out)
    } else {
        write_long_member(is_first, member.key, role, out)
    }
}

// The fast path of `write_member`: the role is short and needs no escape, so all is appended at
// once.
fn write_short_member(
    is_first: bool,
    key: Key,
    role: &str,
    out: &mut Vec<u8>,
) -> Result<(), WantOfMemory>
    requires short { length role.now ≤ 64 }
    requires bare { list_all is_written_bare role.now ≡ true }
    ensures ok { OnOk result (out.new.items
        ≡ out.old.items ++ ((if is_first then [] else 44 ∷ []) ++ role_text key role.now)) }
    ensures err { OnErr result (StartsWith out.new.items out.old.items) }
    ensures room { vec_capacity out.old ≤ vec_capacity out.new }
    ensures refused { OnErr result (LacksRoom out.old
        ((if is_first then [] else 44 ∷ []) ++ role_text key role.now)) }
{
    let mut room = [0; ROOM];
    let text = prepend(role.as_bytes(), &mut room, ROOM);
    let at = prepend(b"@", &mut room, text);
    let letter = prepend_key(key, &mut room, at);
    let start = prepend_comma(is_first, &mut room, letter);
    out.extend_from_slice(&room[start..])?;
    Ok(())
}

#[tactic(auto, using(crate::proofs::WrittenLemmas::starts_back, crate::proofs::RoomLemmas::lacks))]
fn write_long_member(
    is_first: bool,
    key: Key,
    role: &str,
    out: &mut Vec<u8>,
) -> Result<(), WantOfMemory>
    ensures ok { OnOk result (out.new.items
        ≡ out.old.items ++ ((if is_first then [] else 44 ∷ []) ++ role_text key role.now)) }
    ensures err { OnErr result (StartsWith out.new.items out.old.items) }
    ensures room { vec_capacity out.old ≤ vec_capacity out.new }
    ensures refused { OnErr result (LacksRoom out.old
        ((if is_first then [] else 44 ∷ []) ++ role_text key role.now)) }
{
    let mut room = [0; ROOM];
    let at = prepend(b"@", &mut room, ROOM);
    let letter = prepend_key(key, &mut room, at);
    let start = prepend_comma(is_first, &mut room, letter);
    out.extend_from_slice(&room[start..])?;
    write_text(role, out)?;
    Ok(())
}
