//! The reference part of a way or a relation.

ghost use Rattle.std.specs.Prelude.{◌≡◌, ◌≤◌, [], ◌++◌, ◌+ℤ◌, true, false, length, IfOk, OnOk};
ghost use Rattle.std.specs.Prelude.{OnErr, vec_capacity};
ghost use Rattle.osm_o5c.specs.Context.{kind_digit};
ghost use Rattle.osm_o5c.specs.ObjectReading.{refs_at, ref_at, role_of, member_at};
ghost use Rattle.osm_o5c.specs.ObjectReading.{members_at};
ghost use Rattle.osm_o5c.specs.NumberReading.{is_id};
ghost use Rattle.osm_reading.specs.Answers.{Gives, Finds};
ghost use Rattle.osm_o5c.specs.Written.{difference_text, refs_text, last_ref, member_text};
ghost use Rattle.osm_o5c.specs.Written.{after_member, members_text, after_members};

use crate::counters::{Counters, id};
use crate::file_string::{FileString, text};
use crate::numbers::{signed, write_difference};
use crate::reader::Reader;
use crate::strings::write_single;
use crate::writer::State;
use osm_model::form::Why;
use osm_model::kind::{Key, Kind};
use osm_model::limits::{MAX_ID, MAX_REFS};
use osm_model::lists::{Member, Members, Refs};
use osm_model::memory::WantOfMemory;
use osm_model::text::Text;
use osm_reading::refusal::Refusal;
use std::alloc::Global;

// The reference at the start, which becomes the counter of way nodes, and the bytes after it.
#[tactic(auto, unfolding(crate::specs::ObjectReading::ref_at))]
fn reference<'b>(counters: &mut Counters, bytes: &'b [u8]) -> Result<(i64, &'b [u8]), Why>
    ensures finds { Finds (λ r. (r.0, counters.new.way_node, r.1.now)) result
        (ref_at counters.old.way_node bytes.now) }
    ensures others { OnOk result
        (counters.new ≡ record counters.old { way_node = counters.new.way_node }) }
{
    let (id, rest) = id(counters.way_node, bytes)?;
    counters.way_node = id;
    Ok((id, rest))
}

// How many numbers there are: each ends with a byte below 128.
fn count_numbers(part: &[u8]) -> usize
    ensures { result ≤ length part.now }
{
    let mut count = 0;
    for byte in part {
        count += (*byte < 128) as usize;
    }
    count
}

// An empty list with room for the references of the part, but no more than may be read.
fn room_for_refs(alloc: Global, part: &[u8]) -> Result<Vec<i64>, WantOfMemory>
    ensures empty { IfOk result (λ v. v.items ≡ []) }
    ensures room { IfOk result (λ v. vec_capacity v ≤ length part.now) }
{
    Ok(Vec::with_capacity(alloc, count_numbers(part).min(MAX_REFS))?)
}

/// The references up to the end of the part, at most 32,000; the counter of way nodes moves on.
pub(crate) fn refs(counters: &mut Counters, alloc: Global, part: &[u8]) -> Result<Refs, Refusal>
    ensures gives { Gives (λ r. (r, counters.new.way_node)) result
        (refs_at counters.old.way_node part.now) }
    ensures others { OnOk result
        (counters.new ≡ record counters.old { way_node = counters.new.way_node }) }
{
    let mut found = room_for_refs(alloc, part)?;
    let mut rest = part;
    while !rest.is_empty() {
        if found.len() >= MAX_REFS {
            return Err(Refusal::Fault(Why::TooMany));
        }
        let (one, after) = match reference(counters, rest) {
            Ok(read) => read,
            Err(why) => return Err(Refusal::Fault(why)),
        };
        if found.push(one).is_err() {
            return Err(Refusal::WantOfMemory);
        }
        rest = after;
    }
    Ok(Refs::from_vec(found))
}

// The kind that the digit before a role names, and the role.
#[tactic(auto, unfolding(crate::specs::ObjectReading::role_of))]
fn role(alloc: Global, bytes: &[u8]) -> Result<(Kind, Text), Refusal>
    ensures { Gives (λ r. (r.0, r.1)) result (role_of bytes.now) }
{
    let Some((digit, rest)) = bytes.split_first() else {
        return Err(Refusal::Fault(Why::BadKind));
    };
    let kind = match *digit {
        b'0' => Kind::Node,
        b'1' => Kind::Way,
        b'2' => Kind::Relation,
        _ => return Err(Refusal::Fault(Why::BadKind)),
    };
    let role = text(alloc, &FileString::new(rest))?;
    Ok((kind, role))
}

// The id that the counter and the difference add up to.
fn moved(counter: i64, difference: i64) -> Result<i64, Why>
    ensures found { IfOk result (λ id. (id ≡ counter +ℤ difference) × (is_id id ≡ true)) }
    ensures refused { OnErr result (is_id (counter +ℤ difference) ≡ false) }
{
    match counter.checked_add(difference) {
        Some(id) if -MAX_ID <= id && id <= MAX_ID => Ok(id),
        _ => Err(Why::OutOfRange),
    }
}

impl<'a> Reader<'a> {
    // The member at the start, and the bytes after it.
    #[tactic(auto, unfolding(crate::specs::ObjectReading::member_at))]
    fn member(&mut self, alloc: Global, bytes: &'a [u8]) -> Result<(Member, &'a [u8]), Refusal>
        ensures { Gives (λ r. (r.0, self.new, r.1.now)) result (member_at self.old bytes.now) }
    {
        let (difference, rest) = signed(bytes)?;
        let (string, rest) = self.strings.single(alloc, rest)?;
        let (kind, role) = role(alloc, string)?;
        let id = moved(self.counters.member(kind), difference)?;
        self.counters.set_member(kind, id);
        let key = Key { kind, id };
        Ok((Member { key, role }, rest))
    }

    /// The members up to the end of the part, at most 32,000.
    pub(crate) fn members(&mut self, alloc: Global, part: &'a [u8]) -> Result<Members, Refusal>
        ensures { Gives (λ m. (m, self.new)) result (members_at self.old part.now) }
    {
        let mut found = Vec::new(alloc);
        let mut rest = part;
        while !rest.is_empty() {
            if found.len() >= MAX_REFS {
                return Err(Refusal::Fault(Why::TooMany));
            }
            let (one, after) = match self.member(alloc, rest) {
                Ok(read) => read,
                Err(refusal) => return Err(refusal),
            };
            if found.push(one).is_err() {
                return Err(Refusal::WantOfMemory);
            }
            rest = after;
        }
        Ok(Members::from_vec(found))
    }
}

/// Appends a reference as its difference from the counter of way nodes, and sets the counter to the
/// reference.
#[inline(always)]
pub fn write_reference(
    out: &mut Vec<u8>,
    counters: &mut Counters,
    id: &i64,
) -> Result<(), WantOfMemory>
    ensures text { OnOk result
        (out.new.items ≡ out.old.items ++ difference_text counters.old.way_node id.now) }
    ensures counters_are { OnOk result (counters.new ≡ record counters.old { way_node = id.now }) }
{
    write_difference(out, counters.way_node, *id)?;
    counters.way_node = *id;
    Ok(())
}

/// Appends references, each as its difference from the one before it.
pub(crate) fn write_refs(
    out: &mut Vec<u8>,
    counters: &mut Counters,
    refs: &[i64],
) -> Result<(), WantOfMemory>
    ensures text { OnOk result
        (out.new.items ≡ out.old.items ++ refs_text counters.old.way_node refs.now) }
    ensures counters_are { OnOk result
        (counters.new
        ≡ record counters.old { way_node = last_ref counters.old.way_node refs.now }) }
{
    for id in refs {
        write_reference(out, counters, id)?;
    }
    Ok(())
}

fn digit_of(kind: Kind) -> u8
    ensures { result ≡ kind_digit kind }
{
    match kind {
        Kind::Node => b'0',
        Kind::Way => b'1',
        Kind::Relation => b'2',
    }
}

/// Appends a member, with its id as the difference from the counter of its kind, and sets the
/// counter to the id.
#[inline(always)]
pub fn write_member_parts(
    out: &mut Vec<u8>,
    state: &mut State,
    key: Key,
    role: &[u8],
) -> Result<(), WantOfMemory>
    ensures text { OnOk result (out.new.items ≡ out.old.items
        ++ member_text state.old (record { key = key; role = role.now })) }
    ensures state_is { OnOk result
        (state.new ≡ after_member state.old (record { key = key; role = role.now })) }
{
    write_difference(out, state.counters.member(key.kind), key.id)?;
    write_single(out, &mut state.strings, digit_of(key.kind), role)?;
    state.counters.set_member(key.kind, key.id);
    Ok(())
}

/// Appends members, each with its id as the difference from the one of its kind before it.
pub(crate) fn write_members(
    out: &mut Vec<u8>,
    state: &mut State,
    members: &[Member],
) -> Result<(), WantOfMemory>
    ensures text { OnOk result
        (out.new.items ≡ out.old.items ++ members_text state.old members.now) }
    ensures state_is { OnOk result (state.new ≡ after_members state.old members.now) }
{
    for member in members {
        write_member_parts(out, state, member.key, member.role.as_str().as_bytes())?;
    }
    Ok(())
}
