//! Takes lines apart without building their objects: the lines that are exactly what `write_line`
//! writes, if no id in them is negative and no text has an escape.

ghost use Rattle.std.specs.Prelude.{IfSome, IsFalse, codes};
ghost use Rattle.osm_model.specs.Change.{AreMembers, AreRefs, AreTags};
ghost use Rattle.osm_model.specs.Limits.{IsId};
ghost use Rattle.osm_model.specs.Lists.{IsTag};
ghost use Rattle.osm_model.specs.Text.{IsText};
ghost use Rattle.osm_model.specs.declared.kind.Kind.TheVariants.{Node, Relation, Way};
ghost use Rattle.osm_opl.specs.Flat.{IsBare, IsFlat, IsMember};
ghost use Rattle.osm_opl.specs.Steps.Begins.{BeginsWith};
ghost use Rattle.osm_opl.specs.Steps.BeginsFlat.{BeginsFlat, BeginsItems};
ghost use Rattle.osm_opl.specs.Written.{escaped_text, member_text, ref_text, tag_text};

use crate::after::{after_key, after_mark, after_numbers};
use crate::after_coordinates::after_coordinate;
use crate::after_lists::{after_members, after_refs, after_tags, is_list_end};
use crate::after_texts::bare_count;
use crate::flat_parts::{FlatLine, FlatWhat};
use crate::last_time::LastTime;
use osm_model::kind::Kind;
use osm_model::limits::{MAX_LAT, MAX_LON, MAX_TEXT};
use osm_reading::pieces::cut;

/// The parts of a line that `write_line` writes of an object without negative ids and escapes.
/// None decides nothing about the line. A time that is spelled like the last time isn't read
/// again.
pub fn flat_line<'a>(line: &'a [u8], last: &mut LastTime) -> Option<FlatLine<'a>>
    ensures { IfSome result (λ flat. IsFlat line.now flat) }
{
    let (key, rest) = after_key(line)?;
    let (numbers, rest) = after_numbers(rest, last)?;
    let (user, rest) = split_bare(rest);
    let (tags, what, rest) = flat_what(key.kind, rest)?;
    if !rest.is_empty() {
        return None;
    }
    Some(FlatLine {
        key,
        numbers,
        user,
        tags,
        what,
    })
}

// The characters that are written bare, and what follows them: an escape is no part of them.
#[inline(always)]
fn split_bare(bytes: &[u8]) -> (&[u8], &[u8])
    ensures { BeginsWith escaped_text IsText result.0.now bytes.now result.1.now }
{
    let count = bare_count(bytes, MAX_TEXT);
    (&bytes[..count], &bytes[count..])
}

// What an object of that kind is: its tags as they are spelled, and the rest of it; and what
// follows.
#[inline(always)]
fn flat_what(kind: Kind, bytes: &[u8]) -> Option<(&[u8], FlatWhat<'_>, &[u8])>
    ensures { IfSome result (λ r. BeginsFlat kind r.0.now r.1 bytes.now r.2.now) }
{
    match kind {
        Kind::Node => flat_node(bytes),
        Kind::Way => flat_way(bytes),
        Kind::Relation => flat_relation(bytes),
    }
}

#[inline(always)]
fn flat_node(bytes: &[u8]) -> Option<(&[u8], FlatWhat<'_>, &[u8])>
    ensures { IfSome result (λ r. BeginsFlat Node r.0.now r.1 bytes.now r.2.now) }
{
    let (tags, rest) = flat_tags(bytes)?;
    let (lon, rest) = after_coordinate(b'x', MAX_LON as u32, rest)?;
    let (lat, rest) = after_coordinate(b'y', MAX_LAT as u32, rest)?;
    Some((tags, FlatWhat::Node { lon, lat }, rest))
}

#[inline(always)]
fn flat_way(bytes: &[u8]) -> Option<(&[u8], FlatWhat<'_>, &[u8])>
    ensures { IfSome result (λ r. BeginsFlat Way r.0.now r.1 bytes.now r.2.now) }
{
    let (tags, rest) = flat_tags(bytes)?;
    let (refs, rest) = flat_refs(rest)?;
    let what = FlatWhat::Way { refs };
    Some((tags, what, rest))
}

#[inline(always)]
fn flat_relation(bytes: &[u8]) -> Option<(&[u8], FlatWhat<'_>, &[u8])>
    ensures { IfSome result (λ r. BeginsFlat Relation r.0.now r.1 bytes.now r.2.now) }
{
    let (tags, rest) = flat_tags(bytes)?;
    let (members, rest) = flat_members(rest)?;
    let what = FlatWhat::Relation { members };
    Some((tags, what, rest))
}

// The tags of ` TTAGS` as they are spelled, without escapes, and what follows them.
#[inline(always)]
fn flat_tags(bytes: &[u8]) -> Option<(&[u8], &[u8])>
    ensures { IfSome result (λ r.
        BeginsItems (codes " T") tag_text AreTags IsTag r.0.now bytes.now r.1.now) }
{
    let items = after_mark(b'T', bytes)?;
    if is_list_end(items) {
        return Some((&items[..0], items));
    }
    let rest = after_tags(items)?;
    let tags = &items[..items.len() - rest.len()];
    if has_escape(tags) {
        return None;
    }
    Some((tags, rest))
}

// The nodes of ` NREFS` as they are spelled, and what follows them.
#[inline(always)]
fn flat_refs(bytes: &[u8]) -> Option<(&[u8], &[u8])>
    ensures { IfSome result (λ r.
        BeginsItems (codes " N") ref_text AreRefs IsId r.0.now bytes.now r.1.now) }
{
    let items = after_mark(b'N', bytes)?;
    if is_list_end(items) {
        return Some((&items[..0], items));
    }
    let rest = after_refs(items)?;
    Some((&items[..items.len() - rest.len()], rest))
}

// The members of ` MMEMBERS` as they are spelled, without escapes, and what follows them.
#[inline(always)]
fn flat_members(bytes: &[u8]) -> Option<(&[u8], &[u8])>
    ensures { IfSome result (λ r.
        BeginsItems (codes " M") member_text AreMembers IsMember r.0.now bytes.now r.1.now) }
{
    let items = after_mark(b'M', bytes)?;
    if is_list_end(items) {
        return Some((&items[..0], items));
    }
    let rest = after_members(items)?;
    let members = &items[..items.len() - rest.len()];
    if has_escape(members) {
        return None;
    }
    Some((members, rest))
}

// Whether an escape is among the bytes.
#[inline(always)]
fn has_escape(bytes: &[u8]) -> bool
    ensures { IsFalse result → IsBare bytes.now }
{
    let (_before, after) = cut(bytes, b'%');
    match after {
        Some(_) => true,
        None => false,
    }
}
