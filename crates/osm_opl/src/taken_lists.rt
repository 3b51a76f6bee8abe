//! Lists whose items are spelled as `write_line` writes them, and what follows them.

ghost use Rattle.std.specs.Prelude.{◌≡◌, ◌≤◌, [], IfOk, IfSome, vec_capacity};
ghost use Rattle.osm_model.specs.Change.{AreMembers, AreRefs, AreTags};
ghost use Rattle.osm_model.specs.Limits.{IsId};
ghost use Rattle.osm_model.specs.Lists.{IsTag};
ghost use Rattle.osm_opl.specs.Flat.{IsMember};
ghost use Rattle.osm_opl.specs.Steps.Begins.{BeginsWith};
ghost use Rattle.osm_opl.specs.Written.{member_text, members_field, ref_text, refs_field};
ghost use Rattle.osm_opl.specs.Written.{items_text, tag_text, tags_field};

use crate::after::{after_byte, after_key, after_mark};
use crate::after_lists::{after_ref, is_list_end};
use crate::after_texts::take_text;
use crate::lists::room_for;
use osm_model::limits::{MAX_REFS, MAX_TAGS};
use osm_model::lists::{Member, Members, Refs, Tag, Tags};
use osm_model::memory::WantOfMemory;
use osm_reading::pieces::cut;
use std::alloc::{AllocError, Global};

// An empty vector with room for the tags that come first. A way and a relation have commas after
// them too.
fn room_for_tags(alloc: Global, bytes: &[u8]) -> Result<Vec<Tag>, AllocError>
    ensures none { IfOk result (λ v. v.items ≡ []) }
    ensures room { IfOk result (λ v. vec_capacity v ≤ 5000) }
{
    let (tags, _rest) = cut(bytes, b' ');
    room_for(alloc, tags, MAX_TAGS)
}

/// The tags of ` TTAGS`, and what follows them.
// Here and below only the test for an empty list is inlined: most nodes have no tags.
#[inline(always)]
pub(crate) fn take_tags_field(
    alloc: Global,
    bytes: &[u8],
) -> Result<Option<(Tags, &[u8])>, WantOfMemory>
    ensures { IfOk result (λ found. IfSome found (λ r.
        BeginsWith tags_field AreTags r.0 bytes.now r.1.now)) }
{
    let Some(items) = after_mark(b'T', bytes) else {
        return Ok(None);
    };
    if is_list_end(items) {
        return Ok(Some((Tags::new(alloc), items)));
    }
    take_tags(alloc, items)
}

#[inline(never)]
fn take_tags(alloc: Global, bytes: &[u8]) -> Result<Option<(Tags, &[u8])>, WantOfMemory>
    ensures { IfOk result (λ found. IfSome found (λ r.
        BeginsWith (items_text tag_text) AreTags r.0 bytes.now r.1.now)) }
{
    let mut tags = room_for_tags(alloc, bytes)?;
    let Some((tag, after)) = take_tag(alloc, bytes)? else {
        return Ok(None);
    };
    tags.push(tag)?;
    let mut rest = after;
    while tags.len() < MAX_TAGS {
        let Some(items) = after_byte(b',', rest) else {
            return Ok(Some((Tags::from_vec(tags), rest)));
        };
        let Some((tag, after)) = take_tag(alloc, items)? else {
            return Ok(None);
        };
        tags.push(tag)?;
        rest = after;
    }
    Ok(Some((Tags::from_vec(tags), rest)))
}

// `KEY=VALUE`
// Inlined, like `take_member`, so that what is taken is moved once less.
#[inline(always)]
fn take_tag(alloc: Global, bytes: &[u8]) -> Result<Option<(Tag, &[u8])>, WantOfMemory>
    ensures { IfOk result (λ found. IfSome found (λ r.
        BeginsWith tag_text IsTag r.0 bytes.now r.1.now)) }
{
    let Some((key, rest)) = take_text(alloc, bytes)? else {
        return Ok(None);
    };
    let Some(rest) = after_byte(b'=', rest) else {
        return Ok(None);
    };
    let Some((value, rest)) = take_text(alloc, rest)? else {
        return Ok(None);
    };
    Ok(Some((Tag { key, value }, rest)))
}

/// The nodes of ` NREFS`, and what follows them.
#[inline(always)]
pub(crate) fn take_refs_field(
    alloc: Global,
    bytes: &[u8],
) -> Result<Option<(Refs, &[u8])>, WantOfMemory>
    ensures { IfOk result (λ found. IfSome found (λ r.
        BeginsWith refs_field AreRefs r.0 bytes.now r.1.now)) }
{
    let Some(items) = after_mark(b'N', bytes) else {
        return Ok(None);
    };
    if is_list_end(items) {
        return Ok(Some((Refs::new(alloc), items)));
    }
    take_refs(alloc, items)
}

#[inline(never)]
fn take_refs(alloc: Global, bytes: &[u8]) -> Result<Option<(Refs, &[u8])>, WantOfMemory>
    ensures { IfOk result (λ found. IfSome found (λ r.
        BeginsWith (items_text ref_text) AreRefs r.0 bytes.now r.1.now)) }
{
    let mut refs = room_for(alloc, bytes, MAX_REFS)?;
    let Some((id, after)) = after_ref(bytes) else {
        return Ok(None);
    };
    refs.push(id)?;
    let mut rest = after;
    while refs.len() < MAX_REFS {
        let Some(items) = after_byte(b',', rest) else {
            return Ok(Some((Refs::from_vec(refs), rest)));
        };
        let Some((id, after)) = after_ref(items) else {
            return Ok(None);
        };
        refs.push(id)?;
        rest = after;
    }
    Ok(Some((Refs::from_vec(refs), rest)))
}

/// The members of ` MMEMBERS`, and what follows them.
#[inline(always)]
pub(crate) fn take_members_field(
    alloc: Global,
    bytes: &[u8],
) -> Result<Option<(Members, &[u8])>, WantOfMemory>
    ensures { IfOk result (λ found. IfSome found (λ r.
        BeginsWith members_field AreMembers r.0 bytes.now r.1.now)) }
{
    let Some(items) = after_mark(b'M', bytes) else {
        return Ok(None);
    };
    if is_list_end(items) {
        return Ok(Some((Members::new(alloc), items)));
    }
    take_members(alloc, items)
}

#[inline(never)]
fn take_members(alloc: Global, bytes: &[u8]) -> Result<Option<(Members, &[u8])>, WantOfMemory>
    ensures { IfOk result (λ found. IfSome found (λ r.
        BeginsWith (items_text member_text) AreMembers r.0 bytes.now r.1.now)) }
{
    let mut members = room_for(alloc, bytes, MAX_REFS)?;
    let Some((member, after)) = take_member(alloc, bytes)? else {
        return Ok(None);
    };
    members.push(member)?;
    let mut rest = after;
    while members.len() < MAX_REFS {
        let Some(items) = after_byte(b',', rest) else {
            return Ok(Some((Members::from_vec(members), rest)));
        };
        let Some((member, after)) = take_member(alloc, items)? else {
            return Ok(None);
        };
        members.push(member)?;
        rest = after;
    }
    Ok(Some((Members::from_vec(members), rest)))
}

// `nID@ROLE`, `wID@ROLE` or `rID@ROLE`
#[inline(always)]
fn take_member(alloc: Global, bytes: &[u8]) -> Result<Option<(Member, &[u8])>, WantOfMemory>
    ensures { IfOk result (λ found. IfSome found (λ r.
        BeginsWith member_text IsMember r.0 bytes.now r.1.now)) }
{
    let Some((key, rest)) = after_key(bytes) else {
        return Ok(None);
    };
    let Some(rest) = after_byte(b'@', rest) else {
        return Ok(None);
    };
    let Some((role, rest)) = take_text(alloc, rest)? else {
        return Ok(None);
    };
    Ok(Some((Member { key, role }, rest)))
}
