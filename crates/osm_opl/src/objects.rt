//! The fields after the user, which say what the object is.

ghost use Rattle.std.specs.Prelude.{◌≤◌, vec_capacity};
ghost use Rattle.std.specs.Prelude.{◌≡◌, ◌++◌, IfOk, OnOk, OnErr};
ghost use Rattle.std.specs.Io.{StartsWith};
ghost use Rattle.osm_model.specs.Change.{IsWhat};
ghost use Rattle.osm_opl.specs.Room.{LacksRoom};
ghost use Rattle.osm_opl.specs.Reading.{node_at, node_of, relation_at, way_at, what_at};
ghost use Rattle.osm_opl.specs.Steps.Writing.{location_text, rest_text};
ghost use Rattle.osm_opl.specs.Written.{items_text, members_field, refs_field, tag_text};
ghost use Rattle.osm_reading.specs.Pieces.{pieces_after};
ghost use Rattle.osm_reading.specs.Answers.{Finds, Gives};

use crate::coordinates::{read_maybe_coordinate, write_location};
use crate::fields::{last_field, next_field};
use crate::lists::{
    read_members, read_refs, read_tags, write_flat_tags, write_members, write_refs, write_tags,
};
use osm_model::change::What;
use osm_model::flat::FlatTag;
use osm_model::form::Why;
use osm_model::kind::Kind;
use osm_model::limits::{MAX_LAT, MAX_LON};
use osm_model::lists::{Member, Tags};
use osm_model::memory::WantOfMemory;
use osm_reading::refusal::Refusal;
use std::alloc::Global;

/// Reads what an object of the given kind is. The fields of a deletion are checked, and then
/// dropped.
pub(crate) fn read_what(
    alloc: Global,
    kind: Kind,
    is_visible: bool,
    rest: Option<&[u8]>,
) -> Result<What, Refusal>
    ensures value { Gives (λ w. w) result (what_at kind is_visible (pieces_after 32 rest.entry)) }
    ensures limits { IfOk result (λ w. IsWhat kind w) }
{
    match kind {
        Kind::Node => read_node(alloc, is_visible, rest),
        Kind::Way => read_way(alloc, is_visible, rest),
        Kind::Relation => read_relation(alloc, is_visible, rest),
    }
}

// `T.. x.. y..`
#[tactic(auto, unfolding(crate::specs::Reading::node_at))]
fn read_node(alloc: Global, is_visible: bool, rest: Option<&[u8]>) -> Result<What, Refusal>
    ensures { Gives (λ w. w) result (node_at is_visible (pieces_after 32 rest.entry)) }
{
    let (field, rest) = next_field(rest, b'T')?;
    let tags = read_tags(alloc, field)?;
    let (field, rest) = next_field(rest, b'x')?;
    let lon = read_maybe_coordinate(field, MAX_LON)?;
    let field = last_field(rest, b'y')?;
    let lat = read_maybe_coordinate(field, MAX_LAT)?;
    Ok(node_of(is_visible, lon, lat, tags)?)
}

// A visible node must have a location.
fn node_of(is_visible: bool, lon: Option<i32>, lat: Option<i32>, tags: Tags) -> Result<What, Why>
    ensures { Finds (λ w. w) result (node_of is_visible lon lat tags) }
{
    if !is_visible {
        return Ok(What::Deleted);
    }
    match (lon, lat) {
        (Some(lon), Some(lat)) => Ok(What::Node { lon, lat, tags }),
        _ => Err(Why::NoLocation),
    }
}

// `T.. N..`
#[tactic(auto, unfolding(crate::specs::Reading::way_at))]
fn read_way(alloc: Global, is_visible: bool, rest: Option<&[u8]>) -> Result<What, Refusal>
    ensures { Gives (λ w. w) result (way_at is_visible (pieces_after 32 rest.entry)) }
{
    let (field, rest) = next_field(rest, b'T')?;
    let tags = read_tags(alloc, field)?;
    let field = last_field(rest, b'N')?;
    let refs = read_refs(alloc, field)?;
    Ok(if is_visible {
        What::Way { refs, tags }
    } else {
        What::Deleted
    })
}

// `T.. M..`
#[tactic(auto, unfolding(crate::specs::Reading::relation_at))]
fn read_relation(alloc: Global, is_visible: bool, rest: Option<&[u8]>) -> Result<What, Refusal>
    ensures { Gives (λ w. w) result (relation_at is_visible (pieces_after 32 rest.entry)) }
{
    let (field, rest) = next_field(rest, b'T')?;
    let tags = read_tags(alloc, field)?;
    let field = last_field(rest, b'M')?;
    let members = read_members(alloc, field)?;
    Ok(if is_visible {
        What::Relation { members, tags }
    } else {
        What::Deleted
    })
}

/// Writes the part of a line after ` T`: the tags, and the fields after the tags, each after a
/// space. The fields of a deletion are empty.
#[tactic(auto, using(crate::proofs::WrittenLemmas::starts_back, crate::proofs::RoomLemmas::lacks))]
pub(crate) fn write_rest(kind: Kind, what: &What, out: &mut Vec<u8>) -> Result<(), WantOfMemory>
    ensures ok { OnOk result (out.new.items ≡ out.old.items ++ rest_text kind what.now) }
    ensures err { OnErr result (StartsWith out.new.items out.old.items) }
    ensures room { vec_capacity out.old ≤ vec_capacity out.new }
    ensures refused { OnErr result (LacksRoom out.old (rest_text kind what.now)) }
{
    match what {
        What::Node { lon, lat, tags } => {
            write_tags(tags.as_slice(), out)?;
            write_location(*lon, *lat, out)?;
            Ok(())
        }
        What::Way { refs, tags } => {
            write_tags(tags.as_slice(), out)?;
            write_refs_field(refs.as_slice(), out)
        }
        What::Relation { members, tags } => {
            write_tags(tags.as_slice(), out)?;
            write_members_field(members.as_slice(), out)
        }
        What::Deleted => write_no_fields(kind, out),
    }
}

// The fields after the tags of a deletion, which are empty.
#[tactic(auto, using(crate::proofs::WrittenLemmas::starts_back, crate::proofs::RoomLemmas::lacks))]
fn write_no_fields(kind: Kind, out: &mut Vec<u8>) -> Result<(), WantOfMemory>
    ensures ok { OnOk result (out.new.items ≡ out.old.items ++ rest_text kind What.Deleted) }
    ensures err { OnErr result (StartsWith out.new.items out.old.items) }
    ensures room { vec_capacity out.old ≤ vec_capacity out.new }
    ensures refused { OnErr result (LacksRoom out.old (rest_text kind What.Deleted)) }
{
    out.extend_from_slice(match kind {
        Kind::Node => b" x y",
        Kind::Way => b" N",
        Kind::Relation => b" M",
    })?;
    Ok(())
}

/// `write_rest`, of a node whose tags aren't owned.
#[tactic(auto, using(crate::proofs::WrittenLemmas::starts_back, crate::proofs::RoomLemmas::lacks))]
pub(crate) fn write_node_rest(
    tags: &[FlatTag<'_>],
    lon: i32,
    lat: i32,
    out: &mut Vec<u8>,
) -> Result<(), WantOfMemory>
    ensures ok { OnOk result (out.new.items
        ≡ out.old.items ++ (items_text tag_text tags.now ++ location_text lon lat)) }
    ensures err { OnErr result (StartsWith out.new.items out.old.items) }
    ensures room { vec_capacity out.old ≤ vec_capacity out.new }
    ensures refused { OnErr result
        (LacksRoom out.old (items_text tag_text tags.now ++ location_text lon lat)) }
{
    write_flat_tags(tags, out)?;
    write_location(lon, lat, out)
}

// ` NREFS`
#[tactic(auto, using(crate::proofs::WrittenLemmas::starts_back, crate::proofs::RoomLemmas::lacks))]
fn write_refs_field(refs: &[i64], out: &mut Vec<u8>) -> Result<(), WantOfMemory>
    ensures ok { OnOk result (out.new.items ≡ out.old.items ++ refs_field refs.now) }
    ensures err { OnErr result (StartsWith out.new.items out.old.items) }
    ensures room { vec_capacity out.old ≤ vec_capacity out.new }
    ensures refused { OnErr result (LacksRoom out.old (refs_field refs.now)) }
{
    out.extend_from_slice(b" N")?;
    write_refs(refs, out)
}

// ` MMEMBERS`
#[tactic(auto, using(crate::proofs::WrittenLemmas::starts_back, crate::proofs::RoomLemmas::lacks))]
fn write_members_field(members: &[Member], out: &mut Vec<u8>) -> Result<(), WantOfMemory>
    ensures ok { OnOk result (out.new.items ≡ out.old.items ++ members_field members.now) }
    ensures err { OnErr result (StartsWith out.new.items out.old.items) }
    ensures room { vec_capacity out.old ≤ vec_capacity out.new }
    ensures refused { OnErr result (LacksRoom out.old (members_field members.now)) }
{
    out.extend_from_slice(b" M")?;
    write_members(members, out)
}
