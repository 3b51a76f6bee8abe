//! A value at the start of the bytes, and the bytes after the value, if the value is spelled
//! exactly as `write_line` writes it. None decides nothing: the value is spelled otherwise, or is
//! one that these functions leave out.

ghost use Rattle.std.specs.Prelude.{◌≡◌, ◌++◌, ◌∷◌, [], IfSome, IfOk, codes};
ghost use Rattle.std.specs.Fmt.{decimal, signed_decimal};
ghost use Rattle.osm_model.specs.Limits.{IsId, IsPositive};
ghost use Rattle.osm_model.specs.Meta.{IsMeta};
ghost use Rattle.osm_opl.specs.Lists.{letter_of};
ghost use Rattle.osm_opl.specs.Steps.Begins.{AreNumbers, Begins, BeginsWith, numbers_text};
ghost use Rattle.osm_opl.specs.Written.{key_text, meta_text, number_field};

use crate::after_texts::{after_text, take_text};
use crate::after_time::{EachTime, TimeReader};
use crate::flat_parts::Numbers;
use crate::plain::leading_digits;
use osm_model::kind::{Key, Kind};
use osm_model::limits::MAX_ID;
use osm_model::memory::WantOfMemory;
use osm_model::meta::Meta;
use std::alloc::Global;

/// What follows a byte.
#[inline(always)]
pub(crate) fn after_byte(byte: u8, bytes: &[u8]) -> Option<&[u8]>
    ensures { IfSome result (λ rest. bytes.now ≡ byte ∷ rest.now) }
{
    match bytes.split_first() {
        Some((first, rest)) if *first == byte => Some(rest),
        _ => None,
    }
}

/// What follows a space and the letter of a field.
#[inline(always)]
pub(crate) fn after_mark(letter: u8, bytes: &[u8]) -> Option<&[u8]>
    ensures { IfSome result (λ rest. bytes.now ≡ 32 ∷ letter ∷ rest.now) }
{
    let rest = after_byte(letter, after_byte(b' ', bytes)?)?;
    Some(rest)
}

/// A number without leading zeros, and what follows it.
// Inlined, as are those that call it, so that the number and the place stay in registers.
#[inline(always)]
pub(crate) fn after_number(bytes: &[u8]) -> Option<(u64, &[u8])>
    ensures { IfSome result (λ r. bytes.now ≡ decimal r.0 ++ r.1.now) }
{
    let (number, count) = leading_digits(bytes);
    if count == 0 {
        return None;
    }
    if bytes[0] == b'0' && count > 1 {
        return None;
    }
    Some((number, &bytes[count..]))
}

/// A version, a changeset or a user id, and what follows its field.
// Inlined, so that a number that isn't used isn't kept.
#[inline(always)]
pub(crate) fn after_number_field(letter: u8, bytes: &[u8]) -> Option<(u32, &[u8])>
    ensures { IfSome result (λ r.
        BeginsWith (number_field (32 ∷ letter ∷ [])) IsPositive r.0 bytes.now r.1.now) }
{
    let (number, rest) = after_number(after_mark(letter, bytes)?)?;
    if number == 0 || number > u32::MAX as u64 {
        return None;
    }
    Some((number as u32, rest))
}

/// An id that isn't negative, and what follows it.
#[inline(always)]
pub(crate) fn after_id(bytes: &[u8]) -> Option<(i64, &[u8])>
    ensures parts { IfSome result (λ r. bytes.now ≡ signed_decimal r.0 ++ r.1.now) }
    ensures limits { IfSome result (λ r. IsId r.0) }
{
    let (number, rest) = after_number(bytes)?;
    if number > MAX_ID as u64 {
        return None;
    }
    Some((number as i64, rest))
}

/// `nID`, `wID` or `rID`, and what follows it.
pub(crate) fn after_key(bytes: &[u8]) -> Option<(Key, &[u8])>
    ensures parts { IfSome result (λ r. bytes.now ≡ key_text r.0 ++ r.1.now) }
    ensures limits { IfSome result (λ r. IsId r.0.id) }
{
    let (letter, id) = bytes.split_first()?;
    let kind = kind_of(*letter)?;
    let (id, rest) = after_id(id)?;
    Some((Key { kind, id }, rest))
}

fn kind_of(letter: u8) -> Option<Kind>
    ensures { IfSome result (λ kind. letter ≡ letter_of kind) }
{
    match letter {
        b'n' => Some(Kind::Node),
        b'w' => Some(Kind::Way),
        b'r' => Some(Kind::Relation),
        _ => None,
    }
}

/// What follows ` vVERSION dV cCHANGESET tTIME iUID uUSER`.
pub(crate) fn after_head(bytes: &[u8]) -> Option<&[u8]>
    ensures { IfSome result (λ rest.
        Begins (meta_text (codes "V")) IsMeta bytes.now rest.now) }
{
    let (_numbers, rest) = after_numbers(bytes, &mut EachTime)?;
    Some(after_text(rest))
}

/// The metadata ` vVERSION dV cCHANGESET tTIME iUID uUSER`, and what follows them.
pub(crate) fn take_head(alloc: Global, bytes: &[u8]) -> Result<Option<(Meta, &[u8])>, WantOfMemory>
    ensures { IfOk result (λ found. IfSome found (λ r.
        BeginsWith (meta_text (codes "V")) IsMeta r.0 bytes.now r.1.now)) }
{
    let Some((numbers, rest)) = after_numbers(bytes, &mut EachTime) else {
        return Ok(None);
    };
    let Some((user, rest)) = take_text(alloc, rest)? else {
        return Ok(None);
    };
    let Numbers {
        version,
        changeset,
        time,
        uid,
    } = numbers;
    let Ok(meta) = Meta::new(version, time, changeset, uid, user) else {
        return Ok(None);
    };
    Ok(Some((meta, rest)))
}

/// The numbers of ` vVERSION dV cCHANGESET tTIME iUID u`, and what follows that.
// Inlined, so that numbers that aren't used aren't computed.
#[inline(always)]
pub(crate) fn after_numbers<'a, T: TimeReader>(
    bytes: &'a [u8],
    times: &mut T,
) -> Option<(Numbers, &'a [u8])>
    ensures { IfSome result (λ r.
        BeginsWith numbers_text AreNumbers r.0 bytes.now r.1.now) }
{
    let (version, rest) = after_number_field(b'v', bytes)?;
    let rest = after_byte(b'V', after_mark(b'd', rest)?)?;
    let (changeset, rest) = after_number_field(b'c', rest)?;
    let (time, rest) = times.after(after_mark(b't', rest)?)?;
    let (uid, rest) = after_number_field(b'i', rest)?;
    let rest = after_mark(b'u', rest)?;
    let numbers = Numbers {
        version,
        changeset,
        time,
        uid,
    };
    Some((numbers, rest))
}
