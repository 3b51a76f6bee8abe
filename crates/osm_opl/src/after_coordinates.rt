//! A coordinate, and what follows it if it is spelled as `write_line` writes it.

ghost use Rattle.std.specs.Prelude.{◌≡◌, ◌^◌, ◌≤◌, ◌<◌, ◌++◌, ◌∷◌, [], ◌/◌, ◌%◌};
ghost use Rattle.std.specs.Prelude.{IfSome, drop, length, neg_ℤ, pos};
ghost use Rattle.std.specs.Fmt.{decimal};
ghost use Rattle.osm_opl.specs.Steps.Begins.{BeginsWith, IsNear};
ghost use Rattle.osm_opl.specs.Written.{coordinate_field, coordinate_text, fraction_text};

use crate::after::{after_mark, after_number};
use crate::coordinates::{UNITS, scale};
use crate::plain::leading_digits;

// The most whole degrees.
const MAX_DEGREES: u64 = 180;

/// The units of a coordinate, at most `most`, and the bytes after its field.
// Inlined, so that units that aren't used aren't computed.
#[inline(always)]
pub(crate) fn after_coordinate(letter: u8, most: u32, bytes: &[u8]) -> Option<(i32, &[u8])>
    requires { most < 2 ^ 31 }
    ensures { IfSome result (λ r.
        BeginsWith (coordinate_field (32 ∷ letter ∷ [])) (IsNear most) r.0 bytes.now r.1.now) }
{
    after_signed(most, after_mark(letter, bytes)?)
}

#[inline(always)]
fn after_signed(most: u32, bytes: &[u8]) -> Option<(i32, &[u8])>
    requires { most < 2 ^ 31 }
    ensures { IfSome result (λ r.
        BeginsWith coordinate_text (IsNear most) r.0 bytes.now r.1.now) }
{
    let minus = minus_size(bytes);
    let (units, rest) = after_units(&bytes[minus..])?;
    // No minus is written before 0.
    if units < minus as u64 || units > most as u64 {
        return None;
    }
    Some((signed(minus, units as u32), rest))
}

// The number with a minus before it, or without one.
#[inline(always)]
fn signed(minus: usize, units: u32) -> i32
    requires { units < 2 ^ 31 }
    ensures plus { minus ≡ 0 → result ≡ pos units }
    ensures minus { 1 ≤ minus → result ≡ neg_ℤ (pos units) }
{
    if minus == 0 {
        units as i32
    } else {
        -(units as i32)
    }
}

// The bytes of a minus: 1 if one comes first, and otherwise 0.
#[inline(always)]
fn minus_size(bytes: &[u8]) -> usize
    ensures few { (result ≤ 1) × (result ≤ length bytes.now) }
    ensures there { 1 ≤ result → bytes.now ≡ 45 ∷ drop 1 bytes.now }
{
    if bytes.first() == Some(&b'-') { 1 } else { 0 }
}

// The units of degrees without a sign, and what follows them.
#[inline(always)]
fn after_units(bytes: &[u8]) -> Option<(u64, &[u8])>
    ensures { IfSome result (λ r. bytes.now
        ≡ (decimal (r.0 / 10 ^ 7) ++ fraction_text (r.0 % 10 ^ 7)) ++ r.1.now) }
{
    let (degrees, rest) = after_number(bytes)?;
    if degrees > MAX_DEGREES {
        return None;
    }
    let (part, rest) = after_fraction(rest)?;
    Some((degrees * UNITS as u64 + part, rest))
}

// The units of a point and decimals, or none if no point comes first, and what follows them.
#[inline(always)]
fn after_fraction(bytes: &[u8]) -> Option<(u64, &[u8])>
    ensures parts { IfSome result (λ r. bytes.now ≡ fraction_text r.0 ++ r.1.now) }
    ensures small { IfSome result (λ r. r.0 < 10 ^ 7) }
{
    match bytes.split_first() {
        Some((b'.', decimals)) => after_decimals(decimals),
        _ => Some((0, bytes)),
    }
}

// The units of decimals that don't end with a zero, and what follows them.
#[inline(always)]
fn after_decimals(bytes: &[u8]) -> Option<(u64, &[u8])>
    ensures parts { IfSome result (λ r. 46 ∷ bytes.now ≡ fraction_text r.0 ++ r.1.now) }
    ensures small { IfSome result (λ r. r.0 < 10 ^ 7) }
{
    let (number, count) = leading_digits(bytes);
    if count == 0 || count > 7 {
        return None;
    }
    if bytes[count - 1] == b'0' {
        return None;
    }
    Some((number * scale(count), &bytes[count..]))
}
