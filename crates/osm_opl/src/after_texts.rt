//! What follows a text that is spelled as `write_line` writes it: bare characters, and escapes with
//! as many digits as are written.

ghost use Rattle.std.specs.Prelude.{◌≡◌, ◌≤◌, ◌<◌, true, length, take, IfOk, IfSome};
ghost use Rattle.std.specs.Char.{digit_char};
ghost use Rattle.std.specs.List.{list_all};
ghost use Rattle.osm_model.specs.Text.{IsText};
ghost use Rattle.osm_opl.specs.Steps.Begins.{Begins, BeginsChars, BeginsWith, IsEscaped};
ghost use Rattle.osm_opl.specs.Written.{escaped_text, hex_digits, is_written_bare};

use crate::escapes::{digit_count, is_bare_byte, is_written_bare, read_text};
use osm_model::limits::MAX_TEXT;
use osm_model::memory::WantOfMemory;
use osm_model::text::Text;
use osm_reading::refusal::Refusal;
use std::alloc::Global;
use std::str;

// The most digits of an escape.
const HEX_DIGITS: usize = 6;

/// What follows the text that is written first, as far as it goes and within 1,020 bytes. Nearly
/// all texts are bare.
pub(crate) fn after_text(bytes: &[u8]) -> &[u8]
    ensures { Begins escaped_text IsText bytes.now result.now }
{
    let rest = after_bare(bytes);
    if rest.first() == Some(&b'%') {
        return after_escaped(bytes);
    }
    rest
}

/// The same text, and what follows it.
pub(crate) fn take_text(alloc: Global, bytes: &[u8]) -> Result<Option<(Text, &[u8])>, WantOfMemory>
    ensures { IfOk result (λ found. IfSome found (λ r.
        BeginsWith escaped_text IsText r.0 bytes.now r.1.now)) }
{
    let count = bare_count(bytes, MAX_TEXT);
    let rest = &bytes[count..];
    if rest.first() == Some(&b'%') {
        return take_escaped(alloc, bytes);
    }
    let text = bare_text(alloc, &bytes[..count])?;
    Ok(Some((text, rest)))
}

// The text of characters that are written bare.
fn bare_text(alloc: Global, bytes: &[u8]) -> Result<Text, WantOfMemory>
    requires bare { list_all is_written_bare bytes.now ≡ true }
    requires short { length bytes.now ≤ 1020 }
    ensures { IfOk result (λ t. t ≡ bytes.now) }
{
    let text = unsafe { str::from_utf8_unchecked(bytes) };
    Text::within_limits(alloc, text)
}

// A text with escapes, and what follows it.
fn take_escaped(alloc: Global, bytes: &[u8]) -> Result<Option<(Text, &[u8])>, WantOfMemory>
    ensures { IfOk result (λ found. IfSome found (λ r.
        BeginsWith escaped_text IsText r.0 bytes.now r.1.now)) }
{
    let rest = after_escaped(bytes);
    match read_text(alloc, &bytes[..bytes.len() - rest.len()]) {
        Ok(text) => Ok(Some((text, rest))),
        Err(Refusal::Fault(_)) => Ok(None),
        Err(Refusal::WantOfMemory) => Err(WantOfMemory),
    }
}

// What follows the bare characters that come first.
#[inline(always)]
fn after_bare(bytes: &[u8]) -> &[u8]
    ensures { Begins escaped_text IsText bytes.now result.now }
{
    let count = bare_count(bytes, MAX_TEXT);
    &bytes[count..]
}

// What follows a text with escapes.
fn after_escaped(bytes: &[u8]) -> &[u8]
    ensures { Begins escaped_text IsText bytes.now result.now }
{
    let mut rest = bytes;
    let mut room = MAX_TEXT;
    while room > 0 {
        let Some((size, after)) = after_part(rest, room) else {
            return rest;
        };
        room -= size;
        rest = after;
    }
    rest
}

// What follows bare characters or an escape, and how many bytes of a text they are: at least one,
// and no more than there is room for.
fn after_part(bytes: &[u8], room: usize) -> Option<(usize, &[u8])>
    ensures part { IfSome result (λ r. BeginsChars bytes.now r.1.now r.0) }
    ensures fits { IfSome result (λ r. (1 ≤ r.0) × (r.0 ≤ room)) }
{
    let count = bare_count(bytes, room);
    if count > 0 {
        return Some((count, &bytes[count..]));
    }
    let (size, rest) = after_escape(bytes)?;
    if size > room {
        return None;
    }
    Some((size, rest))
}

/// How many bytes, at most `most`, are written bare.
pub(crate) fn bare_count(bytes: &[u8], most: usize) -> usize
    ensures bare { list_all is_written_bare (take result bytes.now) ≡ true }
    ensures few { (result ≤ most) × (result ≤ length bytes.now) }
{
    let most = bytes.len().min(most);
    let mut count = 0;
    while count < most {
        if !is_bare_byte(bytes[count]) {
            return count;
        }
        count += 1;
    }
    count
}

// What follows an escape, and how many bytes its character has in UTF-8.
fn after_escape(bytes: &[u8]) -> Option<(usize, &[u8])>
    ensures part { IfSome result (λ r. BeginsChars bytes.now r.1.now r.0) }
    ensures some { IfSome result (λ r. 1 ≤ r.0) }
{
    let Some((b'%', digits)) = bytes.split_first() else {
        return None;
    };
    let (code, count) = leading_hex(digits);
    if count >= digits.len() {
        return None;
    }
    if digits[count] != b'%' {
        return None;
    }
    let character = escaped_char(code, count)?;
    Some((character.len_utf8(), &digits[count + 1..]))
}

// The character that is written as an escape with that many digits.
fn escaped_char(code: u32, count: usize) -> Option<char>
    ensures { IfSome result (λ c. IsEscaped c code count) }
{
    if code == 0 || is_written_bare(code) {
        return None;
    }
    if digit_count(code) as usize != count {
        return None;
    }
    char::from_u32(code)
}

// The leading hexadecimal digits, at most six of them: their value, and how many there are.
fn leading_hex(bytes: &[u8]) -> (u32, usize)
    ensures digits { hex_digits result.1 result.0 ≡ take result.1 bytes.now }
    ensures few { (result.1 ≤ 6) × (result.1 ≤ length bytes.now) }
{
    let most = bytes.len().min(HEX_DIGITS);
    let mut code: u32 = 0;
    let mut count = 0;
    while count < most {
        let Some(digit) = hex_value(bytes[count]) else {
            return (code, count);
        };
        code = 16 * code + digit as u32;
        count += 1;
    }
    (code, count)
}

// The value of a hexadecimal digit as it is written.
fn hex_value(byte: u8) -> Option<u8>
    ensures { IfSome result (λ d. (d < 16) × (byte ≡ digit_char d)) }
{
    match byte {
        b'0'..=b'9' => Some(byte - b'0'),
        b'a'..=b'f' => Some(byte - b'a' + 10),
        _ => None,
    }
}
