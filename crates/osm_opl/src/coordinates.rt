//! Longitudes and latitudes, in units of 10^-7 degree.

ghost use Rattle.std.specs.Prelude.{vec_capacity};
ghost use Rattle.std.specs.Prelude.{◌≡◌, ◌+◌, ◌-◌, ◌^◌, ◌<◌, ◌≤◌, ◌++◌, ◌≤ℤ◌, length, pos};
ghost use Rattle.std.specs.Prelude.{◌/◌, ◌%◌, ◌∷◌, unsigned_abs, option_map, drop};
ghost use Rattle.std.specs.Prelude.{IfOk, OnOk, OnErr};
ghost use Rattle.std.specs.Fmt.{decimal};
ghost use Rattle.std.specs.Io.{StartsWith};
ghost use Rattle.osm_opl.specs.Room.{LacksRoom};
ghost use Rattle.osm_opl.specs.Reading.{coordinate_at, digits_at};
ghost use Rattle.osm_opl.specs.Reading.{maybe_coordinate_at, units_at};
ghost use Rattle.osm_opl.specs.Steps.Writing.{location_text};
ghost use Rattle.osm_opl.specs.Written.{coordinate_field, decimals, fraction_text};
ghost use Rattle.osm_reading.specs.Answers.{Finds};

use crate::numbers::read_digits;
use crate::prepend::{ROOM, prepend};
use itoa::write_digits;
use osm_model::form::Why;
use osm_model::memory::WantOfMemory;
use osm_reading::pieces::cut;

/// Units in a degree.
pub(crate) const UNITS: u32 = 10_000_000;

/// Reads a coordinate in degrees, such as `-0.1`; gives None if the field is empty.
#[tactic(auto, unfolding(crate::specs::Reading::maybe_coordinate_at))]
pub(crate) fn read_maybe_coordinate(bytes: &[u8], most: i32) -> Result<Option<i32>, Why>
    requires { pos 0 ≤ℤ most }
    ensures { Finds (λ z. z) result (maybe_coordinate_at (unsigned_abs most) bytes.now) }
{
    if bytes.is_empty() {
        return Ok(None);
    }
    Ok(Some(read_coordinate(bytes, most)?))
}

#[tactic(auto, unfolding(crate::specs::Reading::coordinate_at))]
fn read_coordinate(bytes: &[u8], most: i32) -> Result<i32, Why>
    requires { pos 0 ≤ℤ most }
    ensures { Finds (λ z. z) result (coordinate_at (unsigned_abs most) bytes.now) }
{
    let Some((first, digits)) = bytes.split_first() else {
        return Err(Why::BadNumber);
    };
    if *first == b'-' {
        let units = read_units(digits, most as u64)?;
        return Ok(-(units as i32));
    }
    let units = read_units(bytes, most as u64)?;
    Ok(units as i32)
}

// Reads degrees without a sign, such as `0.1`.
#[tactic(auto, unfolding(crate::specs::Reading::units_at))]
fn read_units(bytes: &[u8], most: u64) -> Result<u64, Why>
    ensures value { Finds (λ n. n) result (units_at most bytes.now) }
    ensures limit { IfOk result (λ n. n ≤ most) }
{
    let (degrees, decimals) = cut(bytes, b'.');
    let whole = read_few_digits(degrees, 3)?;
    let part = match decimals {
        None => 0,
        Some(decimals) => read_few_digits(decimals, 7)? * scale(decimals.len()),
    };
    let units = whole * UNITS as u64 + part;
    if units > most {
        return Err(Why::OutOfRange);
    }
    Ok(units)
}

// The value of 1 to `most` digits.
fn read_few_digits(bytes: &[u8], most: usize) -> Result<u64, Why>
    requires { most ≤ 7 }
    ensures value { Finds (λ n. n) result (digits_at 10 most bytes.now) }
    ensures limit { IfOk result (λ n. (n < 10 ^ 7) × (length bytes.now ≤ most)) }
{
    read_digits(bytes, most)
}

/// How many units the last of that many decimals counts.
pub(crate) fn scale(decimals: usize) -> u64
    requires { decimals ≤ 7 }
    ensures value { result ≡ 10 ^ (7 - decimals) }
    ensures limit { result ≤ 10 ^ 7 }
{
    match decimals {
        0 => 10_000_000,
        1 => 1_000_000,
        2 => 100_000,
        3 => 10_000,
        4 => 1_000,
        5 => 100,
        6 => 10,
        _ => 1,
    }
}

/// Writes a location, ` xLONGITUDE yLATITUDE`.
pub(crate) fn write_location(lon: i32, lat: i32, out: &mut Vec<u8>) -> Result<(), WantOfMemory>
    ensures ok { OnOk result (out.new.items ≡ out.old.items ++ location_text lon lat) }
    ensures err { OnErr result (StartsWith out.new.items out.old.items) }
    ensures room { vec_capacity out.old ≤ vec_capacity out.new }
    ensures refused { OnErr result (LacksRoom out.old (location_text lon lat)) }
{
    let mut room = [0; ROOM];
    let start = prepend_location(lon, lat, &mut room, ROOM);
    out.extend_from_slice(&room[start..])?;
    Ok(())
}

/// Puts a location before the index `end`.
#[inline(always)]
pub(crate) fn prepend_location(lon: i32, lat: i32, room: &mut [u8; ROOM], end: usize) -> usize
    requires { (42 ≤ end) × (end ≤ 192) }
    ensures start { (end ≤ result + 42) × (result ≤ end) }
    ensures written { drop result room.new ≡ location_text lon lat ++ drop end room.old }
{
    let latitude = prepend_coordinate(b" y", lat, room, end);
    prepend_coordinate(b" x", lon, room, latitude)
}

// A coordinate after its mark, which is a space and the letter of the field.
#[inline(always)]
#[tactic(auto, unfolding(crate::specs::Written::coordinate_text))]
fn prepend_coordinate(mark: &[u8; 2], units: i32, room: &mut [u8; ROOM], end: usize) -> usize
    requires { (21 ≤ end) × (end ≤ 192) }
    ensures start { (end ≤ result + 21) × (result ≤ end) }
    ensures written { drop result room.new ≡ coordinate_field mark.now units ++ drop end room.old }
{
    let size = prepend_size(units.unsigned_abs(), room, end);
    let sign = if units < 0 {
        prepend(b"-", room, size)
    } else {
        size
    };
    prepend(mark, room, sign)
}

// Degrees without a sign.
#[inline(always)]
fn prepend_size(units: u32, room: &mut [u8; ROOM], end: usize) -> usize
    requires { (18 ≤ end) × (end ≤ 192) }
    ensures start { (end ≤ result + 18) × (result ≤ end) }
    ensures written { drop result room.new
        ≡ (decimal (units / 10 ^ 7) ++ fraction_text (units % 10 ^ 7)) ++ drop end room.old }
{
    let fraction = prepend_fraction(units % UNITS, room, end);
    write_digits((units / UNITS) as u64, room, fraction)
}

// A point and the seven digits of `part` without trailing zeros; nothing if all are 0.
#[inline(always)]
fn prepend_fraction(part: u32, room: &mut [u8; ROOM], end: usize) -> usize
    requires part { part < 10 ^ 7 }
    requires end { (8 ≤ end) × (end ≤ 192) }
    ensures start { (end ≤ result + 8) × (result ≤ end) }
    ensures written { drop result room.new ≡ fraction_text part ++ drop end room.old }
{
    if part == 0 {
        return end;
    }
    let start = write_digits(one_before(part) as u64, room, end);
    room[start] = b'.';
    start
}

// The number that has a 1 before the seven digits of `part`, without the trailing zeros. The 1
// keeps the zeros that the digits begin with.
fn one_before(part: u32) -> u32
    requires { (0 < part) × (part < 10 ^ 7) }
    ensures digits { decimal result ≡ 49 ∷ decimals 7 part }
    ensures limit { result < 10 ^ 8 }
{
    let mut number = UNITS + part;
    while number % 100 == 0 {
        number /= 100;
    }
    if number % 10 == 0 {
        number / 10
    } else {
        number
    }
}
