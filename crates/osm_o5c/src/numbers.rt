//! Numbers as varints, signed ones by zigzag (OSM wiki, O5m).

ghost use Rattle.std.specs.Prelude.{◌≡◌, ◌++◌, ◌<◌, ◌≤◌, ◌^◌, ◌-ℤ◌, OnOk, IfOk, IsErr, IfSome};
ghost use Rattle.std.specs.Prelude.{None, Some, drop, get_or, length};
ghost use Rattle.osm_o5c.specs.Number.{zigzag};
ghost use Rattle.osm_o5c.specs.NumberReading.{varint_at, unsigned_at, signed_at, part_at};
ghost use Rattle.osm_o5c.specs.NumberReading.{positive_at, EndsVarint};
ghost use Rattle.osm_reading.specs.Answers.{Finds};
ghost use Rattle.osm_o5c.specs.Written.{varint_text, number_text, difference_text};

use osm_model::form::Why;
use osm_model::memory::WantOfMemory;

/// The bytes of the longest varint.
const MAX_BYTES: usize = 10;

/// Reads the unsigned number at the start, at most 10 bytes long, and gives the bytes after it (OSM
/// wiki, O5m).
// Inlined with its shortest case alone, as are those that call it, so that most numbers stay in
// registers.
#[inline(always)]
#[tactic(auto, unfolding(crate::specs::NumberReading::varint_at))]
pub fn unsigned(bytes: &[u8]) -> Result<(u64, &[u8]), Why>
    ensures { Finds (λ r. (r.0, r.1.now)) result (unsigned_at bytes.now) }
{
    let Some((first, rest)) = bytes.split_first() else {
        return Err(Why::BadLength);
    };
    // Most numbers have one byte.
    if *first < 128 {
        return Ok((*first as u64, rest));
    }
    let (number, size) = sized(bytes);
    if size == 0 {
        return Err(cause(bytes));
    }
    Ok((number, &bytes[size..]))
}

// The unsigned number at the start and its size in bytes, which is 0 if there is none. Numbers of
// up to five bytes, as all differences of coordinates have, are read without a loop, also at the
// end of the bytes: the latitude of a node without tags stands there.
#[inline(never)]
#[tactic(auto, unfolding(crate::specs::NumberReading::varint_at))]
fn sized(bytes: &[u8]) -> (u64, usize)
    requires { 128 ≤ get_or bytes.now 0 0 }
    ensures within { result.1 ≤ length bytes.now }
    ensures some { 0 < result.1 → varint_at 10 bytes.now
        ≡ Some (result.0, drop result.1 bytes.now) }
    ensures none { result.1 ≡ 0 → varint_at 10 bytes.now ≡ None }
{
    if bytes.len() < 2 {
        return varint(bytes);
    }
    let number = (bytes[0] % 128) as u64;
    if bytes[1] < 128 {
        return (number + 128 * bytes[1] as u64, 2);
    }
    if bytes.len() < 3 {
        return varint(bytes);
    }
    let number = number + 128 * (bytes[1] % 128) as u64;
    if bytes[2] < 128 {
        return (number + 16_384 * bytes[2] as u64, 3);
    }
    if bytes.len() < 4 {
        return varint(bytes);
    }
    let number = number + 16_384 * (bytes[2] % 128) as u64;
    if bytes[3] < 128 {
        return (number + 2_097_152 * bytes[3] as u64, 4);
    }
    if bytes.len() < 5 {
        return varint(bytes);
    }
    let number = number + 2_097_152 * (bytes[3] % 128) as u64;
    if bytes[4] < 128 {
        return (number + 268_435_456 * bytes[4] as u64, 5);
    }
    varint(bytes)
}

// Why there is no number at the start, if there is none.
fn cause(bytes: &[u8]) -> Why {
    match last_index(bytes) {
        Ok(_last) => Why::BadNumber,
        Err(why) => why,
    }
}

// The index of the last byte of the varint at the start, the first byte below 128.
fn last_index(bytes: &[u8]) -> Result<usize, Why>
    ensures last { IfOk result (EndsVarint 10 bytes.now) }
    ensures none { IsErr result → varint_at 10 bytes.now ≡ None }
{
    for index in 0..MAX_BYTES {
        match bytes.get(index) {
            Some(byte) if *byte < 128 => return Ok(index),
            Some(_) => {}
            None => return Err(Why::BadLength),
        }
    }
    Err(Why::BadNumber)
}

// The varint at the start, at most 10 bytes long, and its size in bytes, which is 0 if there is
// none.
fn varint(bytes: &[u8]) -> (u64, usize)
    ensures within { result.1 ≤ length bytes.now }
    ensures some { 0 < result.1 → varint_at 10 bytes.now
        ≡ Some (result.0, drop result.1 bytes.now) }
    ensures none { result.1 ≡ 0 → varint_at 10 bytes.now ≡ None }
{
    let Ok(last) = last_index(bytes) else {
        return (0, 0);
    };
    // The last byte holds the highest bits, so the bytes are taken backwards.
    let mut number = bytes[last] as u64;
    for index in (0..last).rev() {
        let Some(shifted) = number.checked_mul(128) else {
            return (0, 0);
        };
        number = shifted + (bytes[index] % 128) as u64;
    }
    (number, last + 1)
}

/// Reads the signed number at the start, and gives the bytes after it (OSM wiki, O5m).
#[inline(always)]
#[tactic(auto, unfolding(crate::specs::NumberReading::signed_at))]
pub fn signed(bytes: &[u8]) -> Result<(i64, &[u8]), Why>
    ensures { Finds (λ r. (r.0, r.1.now)) result (signed_at bytes.now) }
{
    let (zigzag, rest) = unsigned(bytes)?;
    let half = (zigzag / 2) as i64;
    if zigzag % 2 == 0 {
        Ok((half, rest))
    } else {
        Ok((-half - 1, rest))
    }
}

/// Reads the part at the start, a length followed by as many bytes, and gives the bytes after it.
/// `past` is the cause if there are fewer bytes.
#[inline(always)]
#[tactic(auto, unfolding(crate::specs::NumberReading::part_at))]
pub fn part(bytes: &[u8], past: Why) -> Result<(&[u8], &[u8]), Why>
    ensures { Finds (λ r. (r.0.now, r.1.now)) result (part_at bytes.now) }
{
    let (length, rest) = match unsigned(bytes) {
        Ok(found) => found,
        Err(Why::BadLength) => return Err(past),
        Err(why) => return Err(why),
    };
    if length > rest.len() as u64 {
        return Err(past);
    }
    Ok(rest.split_at(length as usize))
}

/// Reads the version at the start, an unsigned number from 1 to 4,294,967,295, and gives the bytes
/// after it.
#[inline(always)]
#[tactic(auto, unfolding(crate::specs::NumberReading::positive_at))]
pub fn positive(bytes: &[u8]) -> Result<(u32, &[u8]), Why>
    ensures finds { Finds (λ r. (r.0, r.1.now)) result (positive_at bytes.now) }
    ensures limits { IfOk result (λ r. 1 ≤ r.0) }
{
    let (number, rest) = unsigned(bytes)?;
    if number == 0 {
        return Err(Why::NoMetadata);
    }
    if number > u32::MAX as u64 {
        return Err(Why::OutOfRange);
    }
    Ok((number as u32, rest))
}

/// Appends an unsigned number in its fewest bytes.
#[inline(always)]
pub fn write_unsigned(out: &mut Vec<u8>, number: u64) -> Result<(), WantOfMemory>
    ensures { OnOk result (out.new.items ≡ out.old.items ++ number_text number) }
{
    // Most numbers have one byte.
    if number < 128 {
        out.push(number as u8)?;
        return Ok(());
    }
    write_long(out, number)
}

// Appends a number of more than one byte. If there is room for five bytes, numbers of up to five,
// as all differences of coordinates have, are written without a loop and without looking for room
// at each byte.
#[inline(never)]
fn write_long(out: &mut Vec<u8>, number: u64) -> Result<(), WantOfMemory>
    requires { 128 ≤ number }
    ensures { OnOk result (out.new.items ≡ out.old.items ++ number_text number) }
{
    if out.capacity() - out.len() < 5 {
        return write_varint(out, number, 10);
    }
    out.push_reserved((number % 128) as u8 + 128);
    let second = number / 128;
    if second < 128 {
        out.push_reserved(second as u8);
        return Ok(());
    }
    out.push_reserved((second % 128) as u8 + 128);
    let third = second / 128;
    if third < 128 {
        out.push_reserved(third as u8);
        return Ok(());
    }
    out.push_reserved((third % 128) as u8 + 128);
    let fourth = third / 128;
    if fourth < 128 {
        out.push_reserved(fourth as u8);
        return Ok(());
    }
    out.push_reserved((fourth % 128) as u8 + 128);
    let fifth = fourth / 128;
    if fifth < 128 {
        out.push_reserved(fifth as u8);
        return Ok(());
    }
    write_varint(out, fifth, 6)
}

// Appends the varint of a number in at most `most` bytes.
#[inline(never)]
fn write_varint(out: &mut Vec<u8>, number: u64, most: usize) -> Result<(), WantOfMemory>
    ensures { OnOk result (out.new.items ≡ out.old.items ++ varint_text most number) }
{
    if most == 0 {
        return Ok(());
    }
    if number < 128 {
        out.push(number as u8)?;
        return Ok(());
    }
    out.push((number % 128) as u8 + 128)?;
    write_varint(out, number / 128, most - 1)
}

/// Appends the difference `value - before` in its fewest bytes.
#[inline(always)]
pub fn write_difference(out: &mut Vec<u8>, before: i64, value: i64) -> Result<(), WantOfMemory>
    ensures { OnOk result (out.new.items ≡ out.old.items ++ difference_text before value) }
{
    let Some(zigzag) = zigzag_64(before, value) else {
        return write_wide_difference(out, before, value);
    };
    write_unsigned(out, zigzag)
}

// Appends a difference of any size.
#[inline(never)]
fn write_wide_difference(out: &mut Vec<u8>, before: i64, value: i64) -> Result<(), WantOfMemory>
    ensures { OnOk result (out.new.items ≡ out.old.items ++ difference_text before value) }
{
    // The zigzag of a difference may have 65 bits; all but the lowest seven fit in 64.
    let zigzag = zigzag_difference(before, value);
    if zigzag < 128 {
        out.push(zigzag as u8)?;
        return Ok(());
    }
    out.push((zigzag % 128) as u8 + 128)?;
    write_varint(out, (zigzag / 128) as u64, 9)
}

/// Appends the exact difference `value - before` of two coordinates in units of 10^-7 degree.
#[inline(always)]
pub fn write_coordinate(out: &mut Vec<u8>, before: i32, value: i32) -> Result<(), WantOfMemory>
    ensures { OnOk result (out.new.items ≡ out.old.items ++ difference_text before value) }
{
    write_difference(out, before as i64, value as i64)
}

// The zigzag of the difference, if it fits in 64 bits, as that of any two ids, times, changesets or
// coordinates does.
#[inline(always)]
fn zigzag_64(before: i64, value: i64) -> Option<u64>
    ensures { IfSome result (λ z. z ≡ zigzag (value -ℤ before)) }
{
    let distance = value.abs_diff(before);
    if distance > i64::MAX as u64 {
        return None;
    }
    if value >= before {
        Some(2 * distance)
    } else {
        Some(2 * distance - 1)
    }
}

// The zigzag of the difference.
fn zigzag_difference(before: i64, value: i64) -> u128
    ensures value { result ≡ zigzag (value -ℤ before) }
    ensures bound { result < 2 ^ 65 }
{
    let distance = value.abs_diff(before) as u128;
    if value >= before {
        2 * distance
    } else {
        2 * distance - 1
    }
}
