//! Objects in the form o5m, written directly from their lines, so that no object has to be built.

ghost use Rattle.std.specs.Prelude.{◌≡◌, ◌<◌, List, MatchOption, OnOk, ℤ, length, pos};
ghost use Rattle.osm_model.specs.Filter.{tags_of};
ghost use Rattle.osm_model.specs.declared.change.What.{What};
ghost use Rattle.osm_model.specs.declared.change.What.TheVariants as whats;
ghost use Rattle.osm_model.specs.declared.lists.Member.{Member};
ghost use Rattle.osm_model.specs.declared.lists.Tag.{Tag};
ghost use Rattle.osm_opl.specs.Flat.{AreFlatMembers, AreFlatRefs, AreFlatTags, IsFlatWhat};
ghost use Rattle.osm_opl.specs.Flat.{flat_object};
ghost use Rattle.osm_exporting.specs.Steps.Flat.{WritesChange, WritesMembers, WritesObject};
ghost use Rattle.osm_exporting.specs.Steps.Flat.{WritesRefs, WritesTags, WritesWhat};

use osm_model::memory::WantOfMemory;
use osm_o5c::counters::Counters;
use osm_o5c::metadata::write_meta_parts;
use osm_o5c::numbers::{write_coordinate, write_difference};
use osm_o5c::references::{write_member_parts, write_reference};
use osm_o5c::strings::write_pair;
use osm_o5c::writer::{Buffers, State, Writer};
use osm_opl::flat_lists::{first_member, first_ref, first_tag};
use osm_opl::flat_parts::{FlatLine, FlatWhat};

/// Appends the object of a line that was read, after a reset if its kind differs from that of the
/// object before it.
#[inline(always)]
pub(crate) fn write_flat(writer: &mut Writer, flat: &FlatLine<'_>) -> Result<(), WantOfMemory>
    ensures { (what : What) → AreFlatTags flat.now.tags.now (tags_of what)
        → IsFlatWhat flat.now.what what
        → OnOk result (WritesChange writer.old writer.new (flat_object flat.now what)) }
{
    let kind = flat.key.kind;
    writer.write_reset(kind)?;
    write_object(&mut writer.buffers, &mut writer.state, flat)?;
    writer.write_content(kind)
}

// Replaces the content with that of the object.
#[inline(always)]
fn write_object(
    buffers: &mut Buffers,
    state: &mut State,
    flat: &FlatLine<'_>,
) -> Result<(), WantOfMemory>
    ensures { (what : What) → AreFlatTags flat.now.tags.now (tags_of what)
        → IsFlatWhat flat.now.what what
        → OnOk result (WritesObject buffers.new.content.items state.old state.new
        (flat_object flat.now what)) }
{
    let numbers = flat.numbers;
    let out = &mut buffers.content;
    out.clear();
    write_difference(out, state.counters.id, flat.key.id)?;
    write_meta_parts(
        out,
        state,
        numbers.version,
        numbers.time,
        numbers.changeset,
        numbers.uid,
        flat.user,
    )?;
    count_meta(&mut state.counters, flat);
    write_what(buffers, state, flat.tags, &flat.what)
}

// Sets the counters of the id and the metadata.
#[inline(always)]
fn count_meta(counters: &mut Counters, flat: &FlatLine<'_>)
    ensures { counters.new ≡ record counters.old {
      id = flat.now.key.id;
      time = pos flat.now.numbers.time;
      changeset = pos flat.now.numbers.changeset;
    } }
{
    counters.id = flat.key.id;
    counters.time = flat.numbers.time as i64;
    counters.changeset = flat.numbers.changeset as i64;
}

// Appends what the object is.
#[inline(always)]
fn write_what(
    buffers: &mut Buffers,
    state: &mut State,
    tags: &[u8],
    flat: &FlatWhat<'_>,
) -> Result<(), WantOfMemory>
    ensures { (what : What) → AreFlatTags tags.now (tags_of what) → IsFlatWhat flat.now what
        → OnOk result (WritesWhat buffers.old.content.items buffers.new.content.items
        state.old state.new what) }
{
    match flat {
        FlatWhat::Node { lon, lat } => write_node(buffers, state, *lon, *lat, tags),
        FlatWhat::Way { refs } => write_way(buffers, state, refs, tags),
        FlatWhat::Relation { members } => write_relation(buffers, state, members, tags),
    }
}

#[inline(always)]
fn write_node(
    buffers: &mut Buffers,
    state: &mut State,
    lon: i32,
    lat: i32,
    tags: &[u8],
) -> Result<(), WantOfMemory>
    ensures { (ts : List Tag) → AreFlatTags tags.now ts
        → OnOk result (WritesWhat buffers.old.content.items buffers.new.content.items
        state.old state.new (whats.Node lon lat ts)) }
{
    let out = &mut buffers.content;
    write_coordinate(out, state.counters.lon, lon)?;
    write_coordinate(out, state.counters.lat, lat)?;
    count_location(&mut state.counters, lon, lat);
    write_tags(out, state, tags)
}

// Sets the counters of the location.
#[inline(always)]
fn count_location(counters: &mut Counters, lon: i32, lat: i32)
    ensures { counters.new ≡ record counters.old { lon = lon; lat = lat } }
{
    counters.lon = lon;
    counters.lat = lat;
}

fn write_way(
    buffers: &mut Buffers,
    state: &mut State,
    refs: &[u8],
    tags: &[u8],
) -> Result<(), WantOfMemory>
    ensures { (ids : List ℤ) (ts : List Tag) → AreFlatRefs refs.now ids → AreFlatTags tags.now ts
        → OnOk result (WritesWhat buffers.old.content.items buffers.new.content.items
        state.old state.new (whats.Way ids ts)) }
{
    buffers.part.clear();
    write_refs(&mut buffers.part, &mut state.counters, refs)?;
    buffers.write_part()?;
    write_tags(&mut buffers.content, state, tags)
}

fn write_relation(
    buffers: &mut Buffers,
    state: &mut State,
    members: &[u8],
    tags: &[u8],
) -> Result<(), WantOfMemory>
    ensures { (ms : List Member) (ts : List Tag) → AreFlatMembers members.now ms
        → AreFlatTags tags.now ts
        → OnOk result (WritesWhat buffers.old.content.items buffers.new.content.items
        state.old state.new (whats.Relation ms ts)) }
{
    buffers.part.clear();
    write_members(&mut buffers.part, state, members)?;
    buffers.write_part()?;
    write_tags(&mut buffers.content, state, tags)
}

// Appends tags. Most nodes have none, so that this case is inlined.
#[inline(always)]
fn write_tags(out: &mut Vec<u8>, state: &mut State, tags: &[u8]) -> Result<(), WantOfMemory>
    ensures { (ts : List Tag) → AreFlatTags tags.now ts
        → OnOk result (WritesTags out.old.items out.new.items state.old state.new ts) }
{
    if tags.is_empty() {
        return Ok(());
    }
    write_some_tags(out, state, tags)
}

// The same, if there are any.
#[inline(never)]
fn write_some_tags(out: &mut Vec<u8>, state: &mut State, tags: &[u8]) -> Result<(), WantOfMemory>
    ensures { (ts : List Tag) → AreFlatTags tags.now ts
        → OnOk result (WritesTags out.old.items out.new.items state.old state.new ts) }
{
    let mut rest = some_items(tags);
    while let Some(items) = rest {
        let (key, value, more) = first_tag(items);
        write_pair(out, &mut state.strings, key, value)?;
        rest = more;
    }
    Ok(())
}

// Appends nodes.
fn write_refs(out: &mut Vec<u8>, counters: &mut Counters, refs: &[u8]) -> Result<(), WantOfMemory>
    ensures { (ids : List ℤ) → AreFlatRefs refs.now ids
        → OnOk result (WritesRefs out.old.items out.new.items counters.old counters.new ids) }
{
    let mut rest = some_items(refs);
    while let Some(items) = rest {
        let Some((id, more)) = first_ref(items) else {
            return Ok(());
        };
        write_reference(out, counters, &id)?;
        rest = more;
    }
    Ok(())
}

// Appends members.
fn write_members(out: &mut Vec<u8>, state: &mut State, members: &[u8]) -> Result<(), WantOfMemory>
    ensures { (ms : List Member) → AreFlatMembers members.now ms
        → OnOk result (WritesMembers out.old.items out.new.items state.old state.new ms) }
{
    let mut rest = some_items(members);
    while let Some(items) = rest {
        let Some((key, role, more)) = first_member(items) else {
            return Ok(());
        };
        write_member_parts(out, state, key, role)?;
        rest = more;
    }
    Ok(())
}

// The items of a list, if there are any.
#[inline(always)]
fn some_items(bytes: &[u8]) -> Option<&[u8]>
    ensures { MatchOption result (length bytes.now ≡ 0)
        (λ items. (items.now ≡ bytes.now) × (0 < length bytes.now)) }
{
    if bytes.is_empty() { None } else { Some(bytes) }
}
