//! Lines that are exactly what `write_line` writes of an object, recognised in one pass, with or
//! without building the object.

ghost use Rattle.std.specs.Prelude.{◌≡◌, IfOk, IfSome};
ghost use Rattle.osm_model.specs.declared.kind.Kind.TheVariants.{Node, Relation, Way};
ghost use Rattle.osm_opl.specs.Object.{IsObjectLine};
ghost use Rattle.osm_opl.specs.Steps.Begins.{Begins, BeginsWith, IsThere};
ghost use Rattle.osm_opl.specs.Written.{line_text, what_text};

use crate::after::{after_head, after_key, take_head};
use crate::after_coordinates::after_coordinate;
use crate::after_lists::{after_members_field, after_refs_field, after_tags_field};
use crate::taken_lists::{take_members_field, take_refs_field, take_tags_field};
use osm_model::change::{Change, What};
use osm_model::kind::{Key, Kind};
use osm_model::limits::{MAX_LAT, MAX_LON};
use osm_model::memory::WantOfMemory;
use std::alloc::Global;

/// The key of the object that `write_line` writes as this line, if no id in the line is negative.
/// None decides nothing: `read_line` and `write_line` decide then.
pub fn written_key(line: &[u8]) -> Option<Key>
    ensures { IfSome result (IsObjectLine line.now) }
{
    let (key, rest) = after_key(line)?;
    let rest = after_what(key.kind, after_head(rest)?)?;
    if !rest.is_empty() {
        return None;
    }
    Some(key)
}

/// The object that `write_line` writes as this line, if no id in the line is negative. None
/// decides nothing: `read_line` and `write_line` decide then.
pub fn read_written(alloc: Global, line: &[u8]) -> Result<Option<Change>, WantOfMemory>
    ensures { IfOk result (λ found. IfSome found (λ object. line.now ≡ line_text object)) }
{
    let Some((key, rest)) = after_key(line) else {
        return Ok(None);
    };
    let Some((meta, rest)) = take_head(alloc, rest)? else {
        return Ok(None);
    };
    let Some((what, rest)) = take_what(alloc, key.kind, rest)? else {
        return Ok(None);
    };
    if rest.is_empty() {
        Ok(Some(Change::within_limits(key, meta, what)))
    } else {
        Ok(None)
    }
}

// The fields after the user.
fn after_what(kind: Kind, bytes: &[u8]) -> Option<&[u8]>
    ensures { IfSome result (λ rest.
        Begins (what_text kind) (IsThere kind) bytes.now rest.now) }
{
    match kind {
        Kind::Node => after_node(bytes),
        Kind::Way => after_way(bytes),
        Kind::Relation => after_relation(bytes),
    }
}

fn after_node(bytes: &[u8]) -> Option<&[u8]>
    ensures { IfSome result (λ rest.
        Begins (what_text Node) (IsThere Node) bytes.now rest.now) }
{
    let rest = after_tags_field(bytes)?;
    let (_lon, rest) = after_coordinate(b'x', MAX_LON as u32, rest)?;
    let (_lat, rest) = after_coordinate(b'y', MAX_LAT as u32, rest)?;
    Some(rest)
}

fn after_way(bytes: &[u8]) -> Option<&[u8]>
    ensures { IfSome result (λ rest. Begins (what_text Way) (IsThere Way) bytes.now rest.now) }
{
    let rest = after_refs_field(after_tags_field(bytes)?)?;
    Some(rest)
}

fn after_relation(bytes: &[u8]) -> Option<&[u8]>
    ensures { IfSome result (λ rest.
        Begins (what_text Relation) (IsThere Relation) bytes.now rest.now) }
{
    let rest = after_members_field(after_tags_field(bytes)?)?;
    Some(rest)
}

// What an object of that kind is, and what follows.
fn take_what(alloc: Global, kind: Kind, bytes: &[u8]) -> Result<Option<(What, &[u8])>, WantOfMemory>
    ensures { IfOk result (λ found. IfSome found (λ r.
        BeginsWith (what_text kind) (IsThere kind) r.0 bytes.now r.1.now)) }
{
    match kind {
        Kind::Node => take_node(alloc, bytes),
        Kind::Way => take_way(alloc, bytes),
        Kind::Relation => take_relation(alloc, bytes),
    }
}

fn take_node(alloc: Global, bytes: &[u8]) -> Result<Option<(What, &[u8])>, WantOfMemory>
    ensures { IfOk result (λ found. IfSome found (λ r.
        BeginsWith (what_text Node) (IsThere Node) r.0 bytes.now r.1.now)) }
{
    let Some((tags, rest)) = take_tags_field(alloc, bytes)? else {
        return Ok(None);
    };
    let Some((lon, rest)) = after_coordinate(b'x', MAX_LON as u32, rest) else {
        return Ok(None);
    };
    let Some((lat, rest)) = after_coordinate(b'y', MAX_LAT as u32, rest) else {
        return Ok(None);
    };
    Ok(Some((What::Node { lon, lat, tags }, rest)))
}

fn take_way(alloc: Global, bytes: &[u8]) -> Result<Option<(What, &[u8])>, WantOfMemory>
    ensures { IfOk result (λ found. IfSome found (λ r.
        BeginsWith (what_text Way) (IsThere Way) r.0 bytes.now r.1.now)) }
{
    let Some((tags, rest)) = take_tags_field(alloc, bytes)? else {
        return Ok(None);
    };
    let Some((refs, rest)) = take_refs_field(alloc, rest)? else {
        return Ok(None);
    };
    Ok(Some((What::Way { refs, tags }, rest)))
}

fn take_relation(alloc: Global, bytes: &[u8]) -> Result<Option<(What, &[u8])>, WantOfMemory>
    ensures { IfOk result (λ found. IfSome found (λ r.
        BeginsWith (what_text Relation) (IsThere Relation) r.0 bytes.now r.1.now)) }
{
    let Some((tags, rest)) = take_tags_field(alloc, bytes)? else {
        return Ok(None);
    };
    let Some((members, rest)) = take_members_field(alloc, rest)? else {
        return Ok(None);
    };
    Ok(Some((What::Relation { members, tags }, rest)))
}
