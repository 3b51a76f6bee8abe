//! Objects as lines of JSON, with the names that the OSM API has for their parts (OSM wiki, API
//! v0.6).

ghost use Rattle.std.specs.Prelude.{◌≡◌, ◌++◌, ◌∷◌, ◌/◌, ◌%◌, ◌<◌, ◌≤◌, ◌^◌, [], OnOk, IfOk};
ghost use Rattle.std.specs.Prelude.{codes, decimal, if◌then◌else◌, unsigned_abs};
ghost use Rattle.std.specs.Fmt.{sign_text, signed_decimal};
ghost use Rattle.std.specs.Int.{is_negative};
ghost use Rattle.osm_opl.specs.Written.{coordinate_text, decimals, fraction_text, items_text};
ghost use Rattle.osm_asking.specs.Json.{begin_json, key_json, kind_json, lists_json};
ghost use Rattle.osm_asking.specs.Json.{location_json, member_json, members_json, meta_json};
ghost use Rattle.osm_asking.specs.Json.{nodes_json, number_json, object_json, role_json};
ghost use Rattle.osm_asking.specs.Json.{tag_json, tags_json, text_json, time_json, user_json};
ghost use Rattle.osm_asking.specs.Json.{version_json};

use osm_model::change::{Change, What};
use osm_model::kind::{Key, Kind};
use osm_model::lists::{Member, Tag};
use osm_model::memory::WantOfMemory;
use osm_model::meta::Meta;
use osm_model::time::time_write;
use osm_reading::number_lines::{write_bytes, write_number};
use serde_json::Value;
use std::alloc::Global;

/// Appends an object as JSON, without a line end.
#[tactic(auto, unfolding(crate::specs::Json::object_json))]
pub(crate) fn write_json(
    alloc: Global,
    object: &Change,
    out: &mut Vec<u8>,
) -> Result<(), WantOfMemory>
    ensures { OnOk result (out.new.items ≡ out.old.items ++ object_json object.now) }
{
    write_begin(alloc, object, out)?;
    write_lists(alloc, object.what(), out)?;
    write_bytes(b"}", out)
}

// The object before its lists.
#[tactic(auto, unfolding(crate::specs::Json::begin_json))]
fn write_begin(alloc: Global, object: &Change, out: &mut Vec<u8>) -> Result<(), WantOfMemory>
    ensures { OnOk result (out.new.items ≡ out.old.items ++ begin_json object.now) }
{
    write_key(b",\"id\":", object.key(), out)?;
    write_location(object.what(), out)?;
    write_meta(alloc, object.meta(), out)
}

// `{"type":KIND,NAME:ID`
#[tactic(auto, unfolding(crate::specs::Json::key_json))]
fn write_key(name: &[u8], key: Key, out: &mut Vec<u8>) -> Result<(), WantOfMemory>
    ensures { OnOk result (out.new.items ≡ out.old.items ++ key_json name.now key) }
{
    write_bytes(b"{\"type\":", out)?;
    write_bytes(kind_name(key.kind), out)?;
    write_bytes(name, out)?;
    write_signed(key.id, out)
}

// `"node"`, `"way"` or `"relation"`
fn kind_name(kind: Kind) -> &'static [u8]
    ensures { result.now ≡ kind_json kind }
{
    match kind {
        Kind::Node => b"\"node\"",
        Kind::Way => b"\"way\"",
        Kind::Relation => b"\"relation\"",
    }
}

// A number with its sign.
#[tactic(auto, using(crate::proofs::JsonLemmas::signed_is))]
fn write_signed(number: i64, out: &mut Vec<u8>) -> Result<(), WantOfMemory>
    ensures { OnOk result (out.new.items ≡ out.old.items ++ signed_decimal number) }
{
    write_sign(number.is_negative(), out)?;
    write_number(number.unsigned_abs(), out)
}

// A `-` before a number below 0.
fn write_sign(is_negative: bool, out: &mut Vec<u8>) -> Result<(), WantOfMemory>
    ensures { OnOk result (out.new.items ≡ out.old.items ++ sign_text is_negative) }
{
    if !is_negative {
        return Ok(());
    }
    write_bytes(b"-", out)
}

// `,"lat":LATITUDE,"lon":LONGITUDE` of a node
#[tactic(auto, unfolding(crate::specs::Json::location_json))]
fn write_location(what: &What, out: &mut Vec<u8>) -> Result<(), WantOfMemory>
    ensures { OnOk result (out.new.items ≡ out.old.items ++ location_json what.now) }
{
    match what {
        What::Node { lon, lat, .. } => write_both(*lon, *lat, out),
        What::Way { .. } | What::Relation { .. } | What::Deleted => Ok(()),
    }
}

fn write_both(lon: i32, lat: i32, out: &mut Vec<u8>) -> Result<(), WantOfMemory>
    ensures { OnOk result (out.new.items ≡ out.old.items
        ++ (codes ",\"lat\":" ++ (coordinate_text lat
        ++ (codes ",\"lon\":" ++ coordinate_text lon)))) }
{
    write_bytes(b",\"lat\":", out)?;
    write_degrees(lat, out)?;
    write_bytes(b",\"lon\":", out)?;
    write_degrees(lon, out)
}

// Units in a degree.
const UNITS: u32 = 10_000_000;

// A coordinate in degrees, with no more decimals than it needs.
#[tactic(auto, unfolding(osm_opl::specs::Written::coordinate_text))]
fn write_degrees(units: i32, out: &mut Vec<u8>) -> Result<(), WantOfMemory>
    ensures { OnOk result (out.new.items ≡ out.old.items ++ coordinate_text units) }
{
    let size = units.unsigned_abs();
    write_sign(units.is_negative(), out)?;
    write_number((size / UNITS) as u64, out)?;
    write_fraction(size % UNITS, out)
}

// A point and the decimals of a part of a degree, up to the last that isn't 0.
fn write_fraction(part: u32, out: &mut Vec<u8>) -> Result<(), WantOfMemory>
    requires { part < 10 ^ 7 }
    ensures { OnOk result (out.new.items ≡ out.old.items ++ fraction_text part) }
{
    if part == 0 {
        return Ok(());
    }
    write_bytes(b".", out)?;
    write_decimals(part, out)
}

// At most 7 decimals of a part of a degree, up to the last that isn't 0.
fn write_decimals(part: u32, out: &mut Vec<u8>) -> Result<(), WantOfMemory>
    requires { part < 10 ^ 7 }
    ensures { OnOk result (out.new.items ≡ out.old.items ++ decimals 7 part) }
{
    let mut left = part;
    let mut places: u32 = 7;
    while left > 0 {
        places -= 1;
        let scale = scale_of(places);
        out.push(b'0' + (left / scale) as u8)?;
        left %= scale;
    }
    Ok(())
}

// What a unit counts that is followed by that many decimals.
fn scale_of(places: u32) -> u32
    requires { places ≤ 6 }
    ensures { result ≡ 10 ^ places }
{
    match places {
        0 => 1,
        1 => 10,
        2 => 100,
        3 => 1_000,
        4 => 10_000,
        5 => 100_000,
        _ => 1_000_000,
    }
}

// `,"timestamp":TIME,"version":V,"changeset":C,"user":NAME,"uid":I`
#[tactic(auto, unfolding(crate::specs::Json::meta_json))]
fn write_meta(alloc: Global, meta: &Meta, out: &mut Vec<u8>) -> Result<(), WantOfMemory>
    ensures { OnOk result (out.new.items ≡ out.old.items ++ meta_json meta.now) }
{
    write_time(meta.time(), out)?;
    write_version(meta, out)?;
    write_user(alloc, meta, out)
}

// `,"timestamp":TIME`
#[tactic(auto, unfolding(crate::specs::Json::time_json))]
fn write_time(time: u32, out: &mut Vec<u8>) -> Result<(), WantOfMemory>
    ensures { OnOk result (out.new.items ≡ out.old.items ++ time_json time) }
{
    write_bytes(b",\"timestamp\":\"", out)?;
    write_bytes(&time_write(time), out)?;
    write_bytes(b"\"", out)
}

// `,"version":V,"changeset":C`
#[tactic(auto, unfolding(crate::specs::Json::version_json))]
fn write_version(meta: &Meta, out: &mut Vec<u8>) -> Result<(), WantOfMemory>
    ensures { OnOk result (out.new.items ≡ out.old.items ++ version_json meta.now) }
{
    write_after(b",\"version\":", meta.version() as u64, out)?;
    write_after(b",\"changeset\":", meta.changeset() as u64, out)
}

// A name and the number after it.
fn write_after(name: &[u8], number: u64, out: &mut Vec<u8>) -> Result<(), WantOfMemory>
    ensures { OnOk result (out.new.items ≡ out.old.items ++ number_json name.now number) }
{
    write_bytes(name, out)?;
    write_number(number, out)
}

// `,"user":NAME,"uid":I`
#[tactic(auto, unfolding(crate::specs::Json::user_json))]
fn write_user(alloc: Global, meta: &Meta, out: &mut Vec<u8>) -> Result<(), WantOfMemory>
    ensures { OnOk result (out.new.items ≡ out.old.items ++ user_json meta.now) }
{
    write_bytes(b",\"user\":", out)?;
    write_text(alloc, meta.user().as_str(), out)?;
    write_bytes(b",\"uid\":", out)?;
    write_number(meta.uid() as u64, out)
}

// A text, quoted and escaped.
fn write_text(alloc: Global, text: &str, out: &mut Vec<u8>) -> Result<(), WantOfMemory>
    ensures { OnOk result (out.new.items ≡ out.old.items ++ text_json text.now) }
{
    let value = Value::try_from_str(alloc, text)?;
    let quoted = value.to_string(alloc)?;
    write_bytes(quoted.as_bytes(), out)
}

// The nodes of a way or the members of a relation, and the tags.
#[tactic(auto, unfolding(crate::specs::Json::lists_json))]
fn write_lists(alloc: Global, what: &What, out: &mut Vec<u8>) -> Result<(), WantOfMemory>
    ensures { OnOk result (out.new.items ≡ out.old.items ++ lists_json what.now) }
{
    match what {
        What::Node { tags, .. } => write_tags(alloc, tags.as_slice(), out),
        What::Way { refs, tags } => write_way(alloc, refs.as_slice(), tags.as_slice(), out),
        What::Relation { members, tags } => {
            write_relation(alloc, members.as_slice(), tags.as_slice(), out)
        }
        What::Deleted => Ok(()),
    }
}

fn write_way(
    alloc: Global,
    ids: &[i64],
    tags: &[Tag],
    out: &mut Vec<u8>,
) -> Result<(), WantOfMemory>
    ensures { OnOk result
        (out.new.items ≡ out.old.items ++ (nodes_json ids.now ++ tags_json tags.now)) }
{
    write_nodes(ids, out)?;
    write_tags(alloc, tags, out)
}

fn write_relation(
    alloc: Global,
    members: &[Member],
    tags: &[Tag],
    out: &mut Vec<u8>,
) -> Result<(), WantOfMemory>
    ensures { OnOk result
        (out.new.items ≡ out.old.items ++ (members_json members.now ++ tags_json tags.now)) }
{
    write_members(alloc, members, out)?;
    write_tags(alloc, tags, out)
}

// `,"nodes":[ID,..]`
fn write_nodes(ids: &[i64], out: &mut Vec<u8>) -> Result<(), WantOfMemory>
    ensures { OnOk result (out.new.items ≡ out.old.items ++ nodes_json ids.now) }
{
    write_bytes(b",\"nodes\":[", out)?;
    write_ids(ids, out)?;
    write_bytes(b"]", out)
}

fn write_ids(ids: &[i64], out: &mut Vec<u8>) -> Result<(), WantOfMemory>
    ensures { OnOk result (out.new.items ≡ out.old.items ++ items_text signed_decimal ids.now) }
{
    let mut is_first = true;
    for id in ids {
        write_id(is_first, id, out)?;
        is_first = false;
    }
    Ok(())
}

fn write_id(is_first: bool, id: &i64, out: &mut Vec<u8>) -> Result<(), WantOfMemory>
    ensures { OnOk result (out.new.items
        ≡ out.old.items ++ ((if is_first then [] else 44 ∷ []) ++ signed_decimal id.now)) }
{
    write_comma(is_first, out)?;
    write_signed(*id, out)
}

// A comma, except before the first of a list.
fn write_comma(is_first: bool, out: &mut Vec<u8>) -> Result<(), WantOfMemory>
    ensures { OnOk result
        (out.new.items ≡ out.old.items ++ (if is_first then [] else 44 ∷ [])) }
{
    if is_first {
        return Ok(());
    }
    write_bytes(b",", out)
}

// `,"members":[{"type":KIND,"ref":ID,"role":ROLE},..]`
fn write_members(alloc: Global, members: &[Member], out: &mut Vec<u8>) -> Result<(), WantOfMemory>
    ensures { OnOk result (out.new.items ≡ out.old.items ++ members_json members.now) }
{
    write_bytes(b",\"members\":[", out)?;
    write_each(alloc, members, out)?;
    write_bytes(b"]", out)
}

fn write_each(alloc: Global, members: &[Member], out: &mut Vec<u8>) -> Result<(), WantOfMemory>
    ensures { OnOk result (out.new.items ≡ out.old.items ++ items_text member_json members.now) }
{
    let mut is_first = true;
    for member in members {
        write_member(alloc, is_first, member, out)?;
        is_first = false;
    }
    Ok(())
}

#[tactic(auto, unfolding(crate::specs::Json::member_json))]
fn write_member(
    alloc: Global,
    is_first: bool,
    member: &Member,
    out: &mut Vec<u8>,
) -> Result<(), WantOfMemory>
    ensures { OnOk result (out.new.items
        ≡ out.old.items ++ ((if is_first then [] else 44 ∷ []) ++ member_json member.now)) }
{
    write_comma(is_first, out)?;
    write_key(b",\"ref\":", member.key, out)?;
    write_role(alloc, member.role.as_str(), out)
}

// `,"role":ROLE}`
#[tactic(auto, unfolding(crate::specs::Json::role_json))]
fn write_role(alloc: Global, role: &str, out: &mut Vec<u8>) -> Result<(), WantOfMemory>
    ensures { OnOk result (out.new.items ≡ out.old.items ++ role_json role.now) }
{
    write_bytes(b",\"role\":", out)?;
    write_text(alloc, role, out)?;
    write_bytes(b"}", out)
}

// `,"tags":{KEY:VALUE,..}`
fn write_tags(alloc: Global, tags: &[Tag], out: &mut Vec<u8>) -> Result<(), WantOfMemory>
    ensures { OnOk result (out.new.items ≡ out.old.items ++ tags_json tags.now) }
{
    write_bytes(b",\"tags\":{", out)?;
    write_pairs(alloc, tags, out)?;
    write_bytes(b"}", out)
}

fn write_pairs(alloc: Global, tags: &[Tag], out: &mut Vec<u8>) -> Result<(), WantOfMemory>
    ensures { OnOk result (out.new.items ≡ out.old.items ++ items_text tag_json tags.now) }
{
    let mut is_first = true;
    for tag in tags {
        write_pair(alloc, is_first, tag, out)?;
        is_first = false;
    }
    Ok(())
}

fn write_pair(
    alloc: Global,
    is_first: bool,
    tag: &Tag,
    out: &mut Vec<u8>,
) -> Result<(), WantOfMemory>
    ensures { OnOk result (out.new.items
        ≡ out.old.items ++ ((if is_first then [] else 44 ∷ []) ++ tag_json tag.now)) }
{
    write_comma(is_first, out)?;
    write_text(alloc, tag.key.as_str(), out)?;
    write_bytes(b":", out)?;
    write_text(alloc, tag.value.as_str(), out)
}
