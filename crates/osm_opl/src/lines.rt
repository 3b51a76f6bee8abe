//! Lines of an OPL file, each of them one change of one object, such as
//! `n1 v1 dV c7 t2024-01-01T00:00:00Z i5 uann T x1 y2` (Osmium manual, OPL File Format).

ghost use Rattle.std.specs.Prelude.{◌≡◌, ◌++◌, IfOk, IfErr, OnOk, OnErr, MatchResult};
ghost use Rattle.std.specs.Prelude.{◌≤◌, IfSome, Some, length, true};
ghost use Rattle.std.specs.Prelude.{vec_capacity};
ghost use Rattle.std.specs.Io.{StartsWith};
ghost use Rattle.std.specs.List.{list_all};
ghost use Rattle.osm_model.specs.Change.{ChangeValue};
ghost use Rattle.osm_model.specs.Flat.{flat_node};
ghost use Rattle.osm_model.specs.Limits.{IsId};
ghost use Rattle.osm_opl.specs.Flat.{meta_of};
ghost use Rattle.osm_opl.specs.Line.{LineStops, SpellsLine};
ghost use Rattle.osm_opl.specs.Room.{LacksRoom};
ghost use Rattle.osm_opl.specs.Reading.{key_at, line_at};
ghost use Rattle.osm_opl.specs.Steps.Writing.{line_start, location_text, node_text};
ghost use Rattle.osm_opl.specs.Written.{is_written_bare, items_text, line_text, tag_text};
ghost use Rattle.osm_reading.specs.Pieces.{pieces, pieces_after};
ghost use Rattle.osm_reading.specs.Refusal.{IsWant};
ghost use Rattle.osm_reading.specs.Answers.{Finds, Gives};

use crate::coordinates::prepend_location;
use crate::escapes::is_short;
use crate::flat_parts::Numbers;
use crate::lists::read_kind;
use crate::metadata::{numbers_in, numbers_of, prepend_start, read_head, write_start};
use crate::numbers::read_id;
use crate::objects::{read_what, write_node_rest, write_rest};
use crate::plain::leading_id;
use crate::prepend::ROOM;
use osm_model::change::{Change, What};
use osm_model::flat::{FlatNode, FlatTag};
use osm_model::form::Why;
use osm_model::kind::{Key, Kind};
use osm_model::memory::WantOfMemory;
use osm_model::meta::Meta;
use osm_reading::pieces::cut;
use std::alloc::Global;

/// Why a line can't be read.
pub use osm_reading::refusal::Refusal as LineError;

/// Appends the line of a change (Osmium manual, OPL File Format), without a line end. On an error
/// the vector is left as it was.
pub fn write_line(change: &Change, out: &mut Vec<u8>) -> Result<(), WantOfMemory>
    ensures ok { OnOk result (out.new.items ≡ out.old.items ++ line_text change.now) }
    ensures err { OnErr result (out.new.items ≡ out.old.items) }
    ensures room { vec_capacity out.old ≤ vec_capacity out.new }
    ensures refused { OnErr result (LacksRoom out.old (line_text change.now)) }
{
    let before = out.len();
    let result = append_line(change, out);
    if result.is_err() {
        out.truncate(before);
    }
    result
}

/// Appends the line of a node whose texts are borrowed, without a line end. On an error the vector
/// is left as it was.
pub fn write_flat_node(
    node: &FlatNode<'_>,
    tags: &[FlatTag<'_>],
    out: &mut Vec<u8>,
) -> Result<(), WantOfMemory>
    ensures ok { OnOk result
        (out.new.items ≡ out.old.items ++ line_text (flat_node node.now tags.now)) }
    ensures err { OnErr result (out.new.items ≡ out.old.items) }
    ensures room { vec_capacity out.old ≤ vec_capacity out.new }
    ensures refused { OnErr result (LacksRoom out.old (line_text (flat_node node.now tags.now))) }
{
    let before = out.len();
    let result = append_flat_node(node, tags, out);
    if result.is_err() {
        out.truncate(before);
    }
    result
}

fn append_line(change: &Change, out: &mut Vec<u8>) -> Result<(), WantOfMemory>
    ensures ok { OnOk result (out.new.items ≡ out.old.items ++ line_text change.now) }
    ensures err { OnErr result (StartsWith out.new.items out.old.items) }
    ensures room { vec_capacity out.old ≤ vec_capacity out.new }
    ensures refused { OnErr result (LacksRoom out.old (line_text change.now)) }
{
    let name = change.meta().user().as_str();
    match change.what() {
        What::Node { lon, lat, tags } if tags.as_slice().is_empty() && is_short(name) => {
            write_short_node(change.key(), change.meta(), name, *lon, *lat, out)
        }
        _ => append_parts(change, out),
    }
}

// The fast path of `append_line`: a node has no tags, and the user's name is short and needs no
// escape, so all is appended at once.
fn write_short_node(
    key: Key,
    meta: &Meta,
    name: &str,
    lon: i32,
    lat: i32,
    out: &mut Vec<u8>,
) -> Result<(), WantOfMemory>
    requires name { name.now ≡ meta.now.user }
    requires short { length name.now ≤ 64 }
    requires bare { list_all is_written_bare name.now ≡ true }
    ensures ok { OnOk result
        (out.new.items ≡ out.old.items ++ node_text key meta.now lon lat) }
    ensures err { OnErr result (StartsWith out.new.items out.old.items) }
    ensures room { vec_capacity out.old ≤ vec_capacity out.new }
    ensures refused { OnErr result (LacksRoom out.old (node_text key meta.now lon lat)) }
{
    let numbers = numbers_of(meta);
    append_short_node(key, numbers, name.as_bytes(), lon, lat, out)
}

fn append_flat_node(
    node: &FlatNode<'_>,
    tags: &[FlatTag<'_>],
    out: &mut Vec<u8>,
) -> Result<(), WantOfMemory>
    ensures ok { OnOk result
        (out.new.items ≡ out.old.items ++ line_text (flat_node node.now tags.now)) }
    ensures err { OnErr result (StartsWith out.new.items out.old.items) }
    ensures room { vec_capacity out.old ≤ vec_capacity out.new }
    ensures refused { OnErr result (LacksRoom out.old (line_text (flat_node node.now tags.now))) }
{
    let key = Key {
        kind: Kind::Node,
        id: node.id,
    };
    let numbers = numbers_in(&node.meta);
    let user = node.meta.user;
    if tags.is_empty() && is_short(user) {
        append_short_node(key, numbers, user.as_bytes(), node.lon, node.lat, out)
    } else {
        append_node_parts(key, numbers, user, node.lon, node.lat, tags, out)
    }
}

fn append_node_parts(
    key: Key,
    numbers: Numbers,
    user: &str,
    lon: i32,
    lat: i32,
    tags: &[FlatTag<'_>],
    out: &mut Vec<u8>,
) -> Result<(), WantOfMemory>
    ensures ok { OnOk result (out.new.items ≡ out.old.items
        ++ (line_start key true (meta_of numbers user.now)
        ++ (items_text tag_text tags.now ++ location_text lon lat))) }
    ensures err { OnErr result (StartsWith out.new.items out.old.items) }
    ensures room { vec_capacity out.old ≤ vec_capacity out.new }
    ensures refused { OnErr result (LacksRoom out.old
        (line_start key true (meta_of numbers user.now)
        ++ (items_text tag_text tags.now ++ location_text lon lat))) }
{
    write_start(key, true, numbers, user, out)?;
    write_node_rest(tags, lon, lat, out)?;
    Ok(())
}

// Appends the line of a node without tags whose user's name is short and needs no escape.
#[inline(always)]
fn append_short_node(
    key: Key,
    numbers: Numbers,
    user: &[u8],
    lon: i32,
    lat: i32,
    out: &mut Vec<u8>,
) -> Result<(), WantOfMemory>
    requires short { length user.now ≤ 64 }
    requires bare { list_all is_written_bare user.now ≡ true }
    ensures ok { OnOk result (out.new.items
        ≡ out.old.items ++ node_text key (meta_of numbers user.now) lon lat) }
    ensures err { OnErr result (StartsWith out.new.items out.old.items) }
    ensures room { vec_capacity out.old ≤ vec_capacity out.new }
    ensures refused { OnErr result
        (LacksRoom out.old (node_text key (meta_of numbers user.now) lon lat)) }
{
    let mut room = [0; ROOM];
    let location = prepend_location(lon, lat, &mut room, ROOM);
    let start = prepend_start(key, true, numbers, user, &mut room, location);
    out.extend_from_slice(&room[start..])?;
    Ok(())
}

#[tactic(auto, unfolding(crate::specs::Written::line_text))]
fn append_parts(change: &Change, out: &mut Vec<u8>) -> Result<(), WantOfMemory>
    ensures ok { OnOk result (out.new.items ≡ out.old.items ++ line_text change.now) }
    ensures err { OnErr result (StartsWith out.new.items out.old.items) }
    ensures room { vec_capacity out.old ≤ vec_capacity out.new }
    ensures refused { OnErr result (LacksRoom out.old (line_text change.now)) }
{
    let key = change.key();
    let is_visible = !matches!(change.what(), What::Deleted);
    let meta = change.meta();
    write_start(key, is_visible, numbers_of(meta), meta.user().as_str(), out)?;
    write_rest(key.kind, change.what(), out)?;
    Ok(())
}

/// Reads the change that a line spells, given without its line end (Osmium manual, OPL File
/// Format).
pub fn read_line(alloc: Global, line: &[u8]) -> Result<Change, LineError>
    ensures spelled { IfOk result (λ c. SpellsLine line.now c) }
    ensures refused { IfErr result (LineStops line.now) }
    ensures only { (change : ChangeValue) → SpellsLine line.now change
        → MatchResult result (λ c. c ≡ change) IsWant }
{
    read_change(alloc, line)
}

#[tactic(auto, unfolding(crate::specs::Reading::line_at))]
fn read_change(alloc: Global, line: &[u8]) -> Result<Change, LineError>
    ensures { Gives (λ c. c) result (line_at line.now) }
{
    let (key, rest) = read_key(line)?;
    let (head, rest) = read_head(alloc, rest)?;
    let what = read_what(alloc, key.kind, head.is_visible, rest)?;
    Ok(Change::within_limits(key, head.meta, what))
}

/// Reads the key of the change that a line spells, from the line's first field alone. A line that
/// spells no change may have a key too.
pub fn line_key(line: &[u8]) -> Option<Key>
    ensures { (change : ChangeValue) → SpellsLine line.now change → result ≡ Some change.key }
{
    match read_key(line) {
        Ok(found) => Some(found.0),
        Err(_) => None,
    }
}

// Reads the kind and the id, and gives the fields that follow them.
fn read_key(line: &[u8]) -> Result<(Key, Option<&[u8]>), Why>
    ensures value { Finds (λ r. (r.0, pieces_after 32 r.1)) result (key_at (pieces 32 line.now)) }
    ensures limit { IfOk result (λ r. IsId r.0.id) }
{
    match plain_key(line) {
        Some(found) => Ok(found),
        None => cut_key(line),
    }
}

// The fast path of `read_key`: the id is 1 to 19 digits, without a sign.
fn plain_key(line: &[u8]) -> Option<(Key, Option<&[u8]>)>
    ensures value { IfSome result (λ r.
        key_at (pieces 32 line.now) ≡ Some (r.0, pieces_after 32 r.1)) }
    ensures limit { IfSome result (λ r. IsId r.0.id) }
{
    let Some((letter, id)) = line.split_first() else {
        return None;
    };
    let Ok(kind) = read_kind(*letter) else {
        return None;
    };
    let (id, rest) = leading_id(id, b' ')?;
    Some((Key { kind, id }, rest))
}

#[tactic(auto, unfolding(crate::specs::Reading::key_at))]
fn cut_key(line: &[u8]) -> Result<(Key, Option<&[u8]>), Why>
    ensures value { Finds (λ r. (r.0, pieces_after 32 r.1)) result (key_at (pieces 32 line.now)) }
    ensures limit { IfOk result (λ r. IsId r.0.id) }
{
    let (field, rest) = cut(line, b' ');
    let Some((letter, id)) = field.split_first() else {
        return Err(Why::BadKind);
    };
    let kind = read_kind(*letter)?;
    let id = read_id(id)?;
    Ok((Key { kind, id }, rest))
}
