//! The fields that follow the id of every object: version, status, changeset, time and user.

ghost use Rattle.std.specs.Prelude.{[], vec_capacity};
ghost use Rattle.std.specs.Prelude.{◌≡◌, ◌≢◌, ◌<◌, ◌++◌, IfOk, IfSome, Some, codes};
ghost use Rattle.std.specs.Prelude.{◌+◌, ◌≤◌, drop, length, true, OnOk, OnErr};
ghost use Rattle.std.specs.Io.{StartsWith};
ghost use Rattle.std.specs.List.{list_all};
ghost use Rattle.osm_model.specs.Flat.{flat_meta};
ghost use Rattle.osm_opl.specs.Flat.{meta_of};
ghost use Rattle.osm_opl.specs.Room.{LacksRoom};
ghost use Rattle.osm_opl.specs.Reading.{head_at, positive_field_at, status_at};
ghost use Rattle.osm_opl.specs.Reading.{status_field_at, time_at, time_field_at};
ghost use Rattle.osm_opl.specs.Reading.{user_field_at};
ghost use Rattle.osm_opl.specs.Steps.Writing.{line_start, user_start};
ghost use Rattle.osm_opl.specs.Written.{is_written_bare, key_text, version_fields, visible_text};
ghost use Rattle.osm_reading.specs.Pieces.{pieces_after};
ghost use Rattle.osm_reading.specs.Answers.{Finds, Gives};

use crate::escapes::{is_short, read_text, write_text};
use crate::fields::next_field;
use crate::flat_parts::Numbers;
use crate::numbers::read_positive;
use crate::plain::leading_number;
use crate::prepend::{ROOM, prepend, prepend_key, prepend_number};
use osm_model::flat::FlatMeta;
use osm_model::form::Why;
use osm_model::kind::Key;
use osm_model::memory::WantOfMemory;
use osm_model::meta::Meta;
use osm_model::text::Text;
use osm_model::time::{time_read, time_write};
use osm_reading::refusal::Refusal;
use std::alloc::Global;

/// Whether the object is visible, and the metadata of the change.
#[derive(Drop)]
pub(crate) struct Head {
    pub(crate) is_visible: bool,
    pub(crate) meta: Meta,
}

/// Reads the fields `vVERSION dV cCHANGESET tTIME iUID uUSER`, and gives what follows them.
#[tactic(auto, unfolding(crate::specs::Reading::head_at))]
pub(crate) fn read_head<'a>(
    alloc: Global,
    rest: Option<&'a [u8]>,
) -> Result<(Head, Option<&'a [u8]>), Refusal>
    ensures { Gives (λ r. (r.0.is_visible, r.0.meta, pieces_after 32 r.1)) result
        (head_at (pieces_after 32 rest.entry)) }
{
    let (version, rest) = positive_field(rest, b'v')?;
    let (is_visible, rest) = status_field(rest)?;
    let (changeset, rest) = positive_field(rest, b'c')?;
    let (time, rest) = time_field(rest)?;
    let (uid, rest) = positive_field(rest, b'i')?;
    let (user, rest) = user_field(alloc, rest)?;
    let Ok(meta) = Meta::new(version, time, changeset, uid, user) else {
        return Err(Refusal::Fault(Why::NoMetadata));
    };
    Ok((Head { is_visible, meta }, rest))
}

// `vVERSION`, `cCHANGESET` or `iUID`
fn positive_field<'a>(rest: Option<&'a [u8]>, letter: u8) -> Result<(u32, Option<&'a [u8]>), Why>
    requires { letter ≢ 32 }
    ensures value { Finds (λ r. (r.0, pieces_after 32 r.1)) result
        (positive_field_at letter (pieces_after 32 rest.entry)) }
    ensures limit { IfOk result (λ r. 0 < r.0) }
{
    match plain_field(rest, letter) {
        Some(found) => Ok(found),
        None => cut_field(rest, letter),
    }
}

// The fast path of `positive_field`: the number is 1 to 19 digits.
fn plain_field<'a>(rest: Option<&'a [u8]>, letter: u8) -> Option<(u32, Option<&'a [u8]>)>
    requires { letter ≢ 32 }
    ensures value { IfSome result (λ r. positive_field_at letter (pieces_after 32 rest.entry)
        ≡ Some (r.0, pieces_after 32 r.1)) }
    ensures limit { IfSome result (λ r. 0 < r.0) }
{
    let Some(fields) = rest else {
        return None;
    };
    let Some((first, content)) = fields.split_first() else {
        return None;
    };
    if *first != letter {
        return None;
    }
    let (number, rest) = leading_number(content, b' ')?;
    if number == 0 || number > u32::MAX as u64 {
        return None;
    }
    Some((number as u32, rest))
}

#[tactic(auto, unfolding(crate::specs::Reading::positive_field_at))]
fn cut_field<'a>(rest: Option<&'a [u8]>, letter: u8) -> Result<(u32, Option<&'a [u8]>), Why>
    ensures value { Finds (λ r. (r.0, pieces_after 32 r.1)) result
        (positive_field_at letter (pieces_after 32 rest.entry)) }
    ensures limit { IfOk result (λ r. 0 < r.0) }
{
    let (field, rest) = next_field(rest, letter)?;
    Ok((read_positive(field)?, rest))
}

// `dV` or `dD`
#[tactic(auto, unfolding(crate::specs::Reading::status_field_at))]
fn status_field<'a>(rest: Option<&'a [u8]>) -> Result<(bool, Option<&'a [u8]>), Why>
    ensures { Finds (λ r. (r.0, pieces_after 32 r.1)) result
        (status_field_at (pieces_after 32 rest.entry)) }
{
    let (field, rest) = next_field(rest, b'd')?;
    Ok((read_status(field)?, rest))
}

// `tTIME`
#[tactic(auto, unfolding(crate::specs::Reading::time_field_at))]
fn time_field<'a>(rest: Option<&'a [u8]>) -> Result<(u32, Option<&'a [u8]>), Why>
    ensures value { Finds (λ r. (r.0, pieces_after 32 r.1)) result
        (time_field_at (pieces_after 32 rest.entry)) }
    ensures limit { IfOk result (λ r. 0 < r.0) }
{
    let (field, rest) = next_field(rest, b't')?;
    Ok((read_time(field)?, rest))
}

// `uUSER`
#[tactic(auto, unfolding(crate::specs::Reading::user_field_at))]
fn user_field<'a>(
    alloc: Global,
    rest: Option<&'a [u8]>,
) -> Result<(Text, Option<&'a [u8]>), Refusal>
    ensures { Gives (λ r. (r.0, pieces_after 32 r.1)) result
        (user_field_at (pieces_after 32 rest.entry)) }
{
    let (field, rest) = next_field(rest, b'u')?;
    Ok((read_text(alloc, field)?, rest))
}

// `V` or `D`
#[tactic(auto, unfolding(crate::specs::Reading::status_at))]
fn read_status(bytes: &[u8]) -> Result<bool, Why>
    ensures { Finds (λ b. b) result (status_at bytes.now) }
{
    match bytes {
        [b'V'] => Ok(true),
        [b'D'] => Ok(false),
        _ => Err(Why::BadField),
    }
}

fn read_time(bytes: &[u8]) -> Result<u32, Why>
    ensures value { Finds (λ t. t) result (time_at bytes.now) }
    ensures limit { IfOk result (λ t. 0 < t) }
{
    match time_read(bytes) {
        Some(time) => Ok(time),
        None => Err(Why::BadTime),
    }
}

/// The numbers of metadata.
pub(crate) fn numbers_of(meta: &Meta) -> Numbers
    ensures version { result.version ≡ meta.now.version }
    ensures changeset { result.changeset ≡ meta.now.changeset }
    ensures time { result.time ≡ meta.now.time }
    ensures uid { result.uid ≡ meta.now.uid }
    ensures all { meta_of result meta.now.user ≡ meta.now }
{
    Numbers {
        version: meta.version(),
        changeset: meta.changeset(),
        time: meta.time(),
        uid: meta.uid(),
    }
}

/// The numbers of metadata whose user isn't owned.
pub(crate) fn numbers_in(meta: &FlatMeta<'_>) -> Numbers
    ensures version { result.version ≡ meta.now.version }
    ensures changeset { result.changeset ≡ meta.now.changeset }
    ensures time { result.time ≡ meta.now.time }
    ensures uid { result.uid ≡ meta.now.uid }
    ensures all { meta_of result meta.now.user.now ≡ flat_meta meta.now }
{
    Numbers {
        version: meta.version,
        changeset: meta.changeset,
        time: meta.time,
        uid: meta.uid,
    }
}

/// Writes a line up to its tags: the kind and the id of a change, and the same fields, each after a
/// space, and ` T`.
pub(crate) fn write_start(
    key: Key,
    is_visible: bool,
    numbers: Numbers,
    name: &str,
    out: &mut Vec<u8>,
) -> Result<(), WantOfMemory>
    ensures ok { OnOk result (out.new.items
        ≡ out.old.items ++ line_start key is_visible (meta_of numbers name.now)) }
    ensures err { OnErr result (StartsWith out.new.items out.old.items) }
    ensures room { vec_capacity out.old ≤ vec_capacity out.new }
    ensures refused { OnErr result
        (LacksRoom out.old (line_start key is_visible (meta_of numbers name.now))) }
{
    if is_short(name) {
        write_short_start(key, is_visible, numbers, name, out)
    } else {
        write_long_start(key, is_visible, numbers, name, out)
    }
}

// The fast path of `write_start`: the user's name is short and needs no escape, so all is appended
// at once.
fn write_short_start(
    key: Key,
    is_visible: bool,
    numbers: Numbers,
    name: &str,
    out: &mut Vec<u8>,
) -> Result<(), WantOfMemory>
    requires short { length name.now ≤ 64 }
    requires bare { list_all is_written_bare name.now ≡ true }
    ensures ok { OnOk result (out.new.items
        ≡ out.old.items ++ line_start key is_visible (meta_of numbers name.now)) }
    ensures err { OnErr result (StartsWith out.new.items out.old.items) }
    ensures room { vec_capacity out.old ≤ vec_capacity out.new }
    ensures refused { OnErr result
        (LacksRoom out.old (line_start key is_visible (meta_of numbers name.now))) }
{
    let mut room = [0; ROOM];
    let start = prepend_start(key, is_visible, numbers, name.as_bytes(), &mut room, ROOM);
    out.extend_from_slice(&room[start..])?;
    Ok(())
}

/// Puts a line up to its tags before the index `end`. The user's name is short and needs no escape.
#[inline(always)]
pub(crate) fn prepend_start(
    key: Key,
    is_visible: bool,
    numbers: Numbers,
    name: &[u8],
    room: &mut [u8; ROOM],
    end: usize,
) -> usize
    requires short { length name.now ≤ 64 }
    requires bare { list_all is_written_bare name.now ≡ true }
    requires end { (150 ≤ end) × (end ≤ 192) }
    ensures start { result ≤ end }
    ensures written { drop result room.new
        ≡ line_start key is_visible (meta_of numbers name.now) ++ drop end room.old }
{
    let tags = prepend(b" T", room, end);
    let user = prepend(name, room, tags);
    prepend_head(key, is_visible, numbers, room, user)
}

#[tactic(auto, using(crate::proofs::WrittenLemmas::starts_back, crate::proofs::RoomLemmas::lacks))]
fn write_long_start(
    key: Key,
    is_visible: bool,
    numbers: Numbers,
    name: &str,
    out: &mut Vec<u8>,
) -> Result<(), WantOfMemory>
    ensures ok { OnOk result (out.new.items
        ≡ out.old.items ++ line_start key is_visible (meta_of numbers name.now)) }
    ensures err { OnErr result (StartsWith out.new.items out.old.items) }
    ensures room { vec_capacity out.old ≤ vec_capacity out.new }
    ensures refused { OnErr result
        (LacksRoom out.old (line_start key is_visible (meta_of numbers name.now))) }
{
    let mut room = [0; ROOM];
    let start = prepend_head(key, is_visible, numbers, &mut room, ROOM);
    out.extend_from_slice(&room[start..])?;
    write_text(name, out)?;
    out.extend_from_slice(b" T")?;
    Ok(())
}

// `nID vVERSION dV cCHANGESET tTIME iUID u`
#[inline(always)]
fn prepend_head(
    key: Key,
    is_visible: bool,
    numbers: Numbers,
    room: &mut [u8; ROOM],
    end: usize,
) -> usize
    requires { (84 ≤ end) × (end ≤ 192) }
    ensures start { result ≤ end }
    ensures written { drop result room.new
        ≡ ((key_text key ++ version_fields (visible_text is_visible) (meta_of numbers []))
        ++ user_start (meta_of numbers [])) ++ drop end room.old }
{
    let user = prepend_user(numbers, room, end);
    let version = prepend_version(is_visible, numbers, room, user);
    prepend_key(key, room, version)
}

// ` vVERSION dV cCHANGESET`
#[inline(always)]
fn prepend_version(is_visible: bool, numbers: Numbers, room: &mut [u8; ROOM], end: usize) -> usize
    requires { (27 ≤ end) × (end ≤ 192) }
    ensures start { (end ≤ result + 27) × (result ≤ end) }
    ensures written { drop result room.new
        ≡ version_fields (visible_text is_visible) (meta_of numbers []) ++ drop end room.old }
{
    let changeset = prepend_number(b" c", numbers.changeset, room, end);
    let status = prepend(if is_visible { b" dV" } else { b" dD" }, room, changeset);
    prepend_number(b" v", numbers.version, room, status)
}

// ` tTIME iUID u`
#[inline(always)]
fn prepend_user(numbers: Numbers, room: &mut [u8; ROOM], end: usize) -> usize
    requires { (36 ≤ end) × (end ≤ 192) }
    ensures start { (end ≤ result + 36) × (result ≤ end) }
    ensures written { drop result room.new
        ≡ user_start (meta_of numbers []) ++ drop end room.old }
{
    let name = prepend(b" u", room, end);
    let uid = prepend_number(b" i", numbers.uid, room, name);
    let time = prepend(&time_write(numbers.time), room, uid);
    prepend(b" t", room, time)
}
