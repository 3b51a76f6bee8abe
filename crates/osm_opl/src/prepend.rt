//! Short texts that are put together on the stack, from the last to the first, so that one append
//! writes many of them. Each function puts its text before the index `end` and returns the index at
//! which the text starts.

ghost use Rattle.std.specs.Prelude.{◌≡◌, ◌+◌, ◌≤◌, ◌++◌, ◌∷◌, [], length, drop, if◌then◌else◌};
ghost use Rattle.std.specs.Fmt.{signed_decimal};
ghost use Rattle.osm_opl.specs.Written.{key_text, number_field};

use crate::lists::kind_letter;
use itoa::write_digits;
use osm_model::kind::Key;

/// No less than the line of a node without tags can take, a tag or a member, if the texts in it
/// are short.
pub(crate) const ROOM: usize = 192;

/// The most bytes of a short text.
pub(crate) const SHORT: usize = 64;

#[inline(always)]
pub(crate) fn prepend(text: &[u8], room: &mut [u8; ROOM], end: usize) -> usize
    requires { (length text.now ≤ end) × (end ≤ 192) }
    ensures start { result + length text.now ≡ end }
    ensures written { drop result room.new ≡ text.now ++ drop end room.old }
{
    let start = end - text.len();
    room[start..end].copy_from_slice(text);
    start
}

// A number after its mark, which is a space and the letter of the field.
#[inline(always)]
pub(crate) fn prepend_number(mark: &[u8], number: u32, room: &mut [u8; ROOM], end: usize) -> usize
    requires { (length mark.now ≤ 2) × (12 ≤ end) × (end ≤ 192) }
    ensures start { (end ≤ result + 12) × (result ≤ end) }
    ensures written { drop result room.new ≡ number_field mark.now number ++ drop end room.old }
{
    let digits = write_digits(number as u64, room, end);
    prepend(mark, room, digits)
}

// `nID`, `wID` or `rID`
#[inline(always)]
pub(crate) fn prepend_key(key: Key, room: &mut [u8; ROOM], end: usize) -> usize
    requires { (21 ≤ end) × (end ≤ 192) }
    ensures start { (end ≤ result + 21) × (result ≤ end) }
    ensures written { drop result room.new ≡ key_text key ++ drop end room.old }
{
    let id = prepend_id(key.id, room, end);
    prepend(&[kind_letter(key.kind)], room, id)
}

#[inline(always)]
pub(crate) fn prepend_id(id: i64, room: &mut [u8; ROOM], end: usize) -> usize
    requires { (20 ≤ end) × (end ≤ 192) }
    ensures start { (end ≤ result + 20) × (result ≤ end) }
    ensures written { drop result room.new ≡ signed_decimal id ++ drop end room.old }
{
    let digits = write_digits(id.unsigned_abs(), room, end);
    if id >= 0 {
        return digits;
    }
    prepend(b"-", room, digits)
}

// A comma, except before the first item. The byte is always put, and counts only if it is wanted.
#[inline(always)]
pub(crate) fn prepend_comma(is_first: bool, room: &mut [u8; ROOM], end: usize) -> usize
    requires { (1 ≤ end) × (end ≤ 192) }
    ensures start { (end ≤ result + 1) × (result ≤ end) }
    ensures written { drop result room.new
        ≡ (if is_first then [] else 44 ∷ []) ++ drop end room.old }
{
    let comma = prepend(b",", room, end);
    if is_first { end } else { comma }
}
