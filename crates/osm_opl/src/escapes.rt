//! Texts: user names, keys and values of tags, and roles. A character is written bare or as an
//! escape `%DIGITS%` with the hexadecimal digits of its code.

ghost use Rattle.std.specs.Prelude.{vec_capacity};
ghost use Rattle.std.specs.Prelude.{◌≡◌, ◌-◌, ◌^◌, ◌<◌, ◌≤◌, ◌++◌, length, min, option_map};
ghost use Rattle.std.specs.Prelude.{true, string_bytes, if◌then◌else◌, Some, None, ◌∷◌, []};
ghost use Rattle.std.specs.Prelude.{IfErr, IfOk, IsTrue, OnOk, OnErr, string_capacity};
ghost use Rattle.std.specs.Char.{digit_char, encode_utf8};
ghost use Rattle.std.specs.Io.{StartsWith};
ghost use Rattle.std.specs.List.{list_all};
ghost use Rattle.osm_opl.specs.Escape.{is_reserved};
ghost use Rattle.osm_opl.specs.Room.{LacksRoom, WantsOnlyIf};
ghost use Rattle.osm_opl.specs.Reading.{PassesLimit, digits_at, escape_at, is_bare_run};
ghost use Rattle.osm_opl.specs.Reading.{is_free, run_at, runs_at, text_at};
ghost use Rattle.osm_opl.specs.Written.{char_text, escaped_text, hex_count, hex_digits};
ghost use Rattle.osm_opl.specs.Written.{is_written_bare};
ghost use Rattle.osm_reading.specs.Pieces.{pieces};
ghost use Rattle.osm_reading.specs.Answers.{Finds, Gives};

use crate::prepend::SHORT;
use osm_model::form::Why;
use osm_model::limits::MAX_TEXT;
use osm_model::memory::WantOfMemory;
use osm_model::text::Text;
use osm_reading::pieces::cut;
use osm_reading::refusal::Refusal;
use std::alloc::{AllocError, Global};

// Each byte that is written bare is at its own index, and a comma is everywhere else.
static BARE: [u8; 256] = *b"\
    ,,,,,,,,,,,,,,,,,,,,,,,,,,,,,,,,\
    ,!\"#$,&'()*+,-./0123456789:;<,>?\
    ,ABCDEFGHIJKLMNOPQRSTUVWXYZ[\\]^_\
    `abcdefghijklmnopqrstuvwxyz{|}~,\
    ,,,,,,,,,,,,,,,,,,,,,,,,,,,,,,,,\
    ,,,,,,,,,,,,,,,,,,,,,,,,,,,,,,,,\
    ,,,,,,,,,,,,,,,,,,,,,,,,,,,,,,,,\
    ,,,,,,,,,,,,,,,,,,,,,,,,,,,,,,,,";

/// Reads a text of at most 1,020 bytes and resolves its escapes.
#[tactic(auto, unfolding(crate::specs::Reading::text_at))]
pub(crate) fn read_text(alloc: Global, bytes: &[u8]) -> Result<Text, Refusal>
    ensures value { Gives (λ t. t) result (text_at bytes.now) }
    ensures wants { WantsOnlyIf (0 < length bytes.now) result }
{
    if is_free_run(bytes) {
        return read_bare(alloc, bytes);
    }
    let text = unescape(alloc, bytes)?;
    Ok(Text::within_limits(alloc, text.as_str())?)
}

// Reads a text that has no escapes.
fn read_bare(alloc: Global, bytes: &[u8]) -> Result<Text, Refusal>
    requires { list_all is_free bytes.now ≡ true }
    ensures value { Gives (λ t. t) result (text_at bytes.now) }
    ensures wants { WantsOnlyIf (22 < length bytes.now) result }
{
    let Ok(text) = std::str::from_utf8(bytes) else {
        return Err(Refusal::Fault(Why::BadText));
    };
    if text.len() > MAX_TEXT {
        return Err(Refusal::Fault(Why::BadText));
    }
    Ok(Text::within_limits(alloc, text)?)
}

// Reads runs of bare characters with escapes between them. The text never grows past the limit.
fn unescape(alloc: Global, bytes: &[u8]) -> Result<String, Refusal>
    ensures { Gives string_bytes result (text_at bytes.now) }
{
    let mut text = room_for_text(alloc, bytes)?;
    let mut rest = bytes;
    loop {
        let (run, after) = cut(rest, b'%');
        append_run(read_run(run)?, &mut text)?;
        let Some(escape) = after else {
            return Ok(text);
        };
        let (digits, after) = cut(escape, b'%');
        let Some(after) = after else {
            return Err(Refusal::Fault(Why::BadEscape));
        };
        append_char(read_escape(digits)?, &mut text)?;
        rest = after;
    }
}

// An empty text with room for that many bytes, but for no more than a text may have.
fn room_for_text(alloc: Global, bytes: &[u8]) -> Result<String, AllocError>
    ensures none { IfOk result (λ text. string_bytes text ≡ []) }
    ensures room { IfOk result (λ text. (string_capacity text ≤ 1020)
        × (string_capacity text ≤ length bytes.now)) }
    ensures refused { OnErr result (0 < length bytes.now) }
{
    String::with_capacity(alloc, bytes.len().min(MAX_TEXT))
}

fn append_run(run: &str, text: &mut String) -> Result<(), Refusal>
    ensures ok { OnOk result (string_bytes text.new ≡ string_bytes text.old ++ run.now) }
    ensures short { OnOk result (length (string_bytes text.new) ≤ 1020) }
    ensures refused { IfErr result (PassesLimit (string_bytes text.old ++ run.now)) }
{
    if text.len().saturating_add(run.len()) > MAX_TEXT {
        return Err(Refusal::Fault(Why::BadText));
    }
    text.push_str(run)?;
    Ok(())
}

fn append_char(character: char, text: &mut String) -> Result<(), Refusal>
    ensures ok { OnOk result (string_bytes text.new
        ≡ string_bytes text.old ++ encode_utf8 character) }
    ensures short { OnOk result (length (string_bytes text.new) ≤ 1020) }
    ensures refused { IfErr result
        (PassesLimit (string_bytes text.old ++ encode_utf8 character)) }
{
    if text.len().saturating_add(character.len_utf8()) > MAX_TEXT {
        return Err(Refusal::Fault(Why::BadText));
    }
    text.push(character)?;
    Ok(())
}

// A run of bare characters.
#[tactic(auto, using(crate::proofs::EscapeLemmas::text_runs))]
fn read_run(run: &[u8]) -> Result<&str, Why>
    ensures { Finds (λ s. s.now) result (run_at run.now) }
{
    if !is_free_run(run) {
        return Err(if run.contains(&0) {
            Why::BadText
        } else {
            Why::BadField
        });
    }
    match std::str::from_utf8(run) {
        Ok(text) => Ok(text),
        Err(_) => Err(Why::BadText),
    }
}

fn is_free_run(run: &[u8]) -> bool
    ensures { result ≡ list_all is_free run.now }
{
    run.iter().all(|byte| !is_reserved(*byte))
}

// Whether a byte can't be bare.
#[inline(always)]
fn is_reserved(byte: u8) -> bool
    ensures { result ≡ is_reserved byte }
{
    matches!(
        byte,
        0 | b'\t' | b'\n' | b'\r' | b' ' | b'%' | b',' | b'=' | b'@'
    )
}

// The character whose code is one to eight hexadecimal digits. U+0000 is refused.
#[tactic(auto, unfolding(crate::specs::Reading::escape_at))]
fn read_escape(digits: &[u8]) -> Result<char, Why>
    ensures { Finds (λ c. c) result (escape_at digits.now) }
{
    let code = read_hex(digits)?;
    match char::from_u32(code) {
        Some(character) if code != 0 => Ok(character),
        _ => Err(Why::BadEscape),
    }
}

// The value of one to eight hexadecimal digits.
fn read_hex(digits: &[u8]) -> Result<u32, Why>
    ensures { Finds (λ n. n) result (option_map (min (2 ^ 32 - 1)) (digits_at 16 8 digits.now)) }
{
    if digits.is_empty() || digits.len() > 8 {
        return Err(Why::BadEscape);
    }
    let mut number: u32 = 0;
    for byte in digits {
        let Some(digit) = (*byte as char).to_digit(16) else {
            return Err(Why::BadEscape);
        };
        number = number.saturating_mul(16).saturating_add(digit);
    }
    Ok(number)
}

/// Writes a text. All characters outside `!` to `~` are escaped, and so are `%`, `,`, `=` and `@`.
pub(crate) fn write_text(text: &str, out: &mut Vec<u8>) -> Result<(), WantOfMemory>
    ensures ok { OnOk result (out.new.items ≡ out.old.items ++ escaped_text text.now) }
    ensures err { OnErr result (StartsWith out.new.items out.old.items) }
    ensures room { vec_capacity out.old ≤ vec_capacity out.new }
    ensures refused { OnErr result (LacksRoom out.old (escaped_text text.now)) }
{
    if is_written_as_it_is(text.as_bytes()) {
        out.extend_from_slice(text.as_bytes())?;
        return Ok(());
    }
    write_chars(text, out)
}

/// Whether a text is short and has no byte that is escaped.
#[inline(always)]
pub(crate) fn is_short(text: &str) -> bool
    ensures { IsTrue result → (length text.now ≤ 64) × (list_all is_written_bare text.now ≡ true) }
{
    text.len() <= SHORT && is_written_as_it_is(text.as_bytes())
}

fn is_written_as_it_is(text: &[u8]) -> bool
    ensures { result ≡ list_all is_written_bare text.now }
{
    text.iter().all(|byte| is_bare_byte(*byte))
}

/// Whether a byte is a character that is written bare.
#[inline(always)]
pub(crate) fn is_bare_byte(byte: u8) -> bool
    ensures { result ≡ is_written_bare byte }
{
    BARE[byte as usize] != b','
}

fn write_chars(text: &str, out: &mut Vec<u8>) -> Result<(), WantOfMemory>
    ensures ok { OnOk result (out.new.items ≡ out.old.items ++ escaped_text text.now) }
    ensures err { OnErr result (StartsWith out.new.items out.old.items) }
    ensures room { vec_capacity out.old ≤ vec_capacity out.new }
    ensures refused { OnErr result (LacksRoom out.old (escaped_text text.now)) }
{
    for character in text.chars() {
        write_char(character, out)?;
    }
    Ok(())
}

/// Whether a character is written bare.
#[inline(always)]
pub(crate) fn is_written_bare(code: u32) -> bool
    ensures { result ≡ is_written_bare code }
{
    0x21 <= code && code <= 0x7e && !is_reserved(code as u8)
}

#[tactic(auto, unfolding(crate::specs::Written::char_text))]
fn write_char(character: char, out: &mut Vec<u8>) -> Result<(), WantOfMemory>
    ensures ok { OnOk result (out.new.items ≡ out.old.items ++ char_text character) }
    ensures err { OnErr result (StartsWith out.new.items out.old.items) }
    ensures room { vec_capacity out.old ≤ vec_capacity out.new }
    ensures refused { OnErr result (LacksRoom out.old (char_text character)) }
{
    let code = character as u32;
    if is_written_bare(code) {
        out.push(code as u8)?;
        return Ok(());
    }
    if code < 0x100 {
        return write_short_escape(code, out);
    }
    out.push(b'%')?;
    write_hex(code, digit_count(code), out)?;
    out.push(b'%')?;
    Ok(())
}

// Writes an escape with two digits.
fn write_short_escape(code: u32, out: &mut Vec<u8>) -> Result<(), WantOfMemory>
    requires { code < 0x100 }
    ensures ok { OnOk result (out.new.items
        ≡ out.old.items ++ (37 ∷ hex_digits (hex_count code) code ++ 37 ∷ [])) }
    ensures err { OnErr result (StartsWith out.new.items out.old.items) }
    ensures room { vec_capacity out.old ≤ vec_capacity out.new }
    ensures refused { OnErr result (LacksRoom out.old
        (37 ∷ hex_digits (hex_count code) code ++ 37 ∷ [])) }
{
    let first = hex_digit((code / 16) as u8);
    let second = hex_digit((code % 16) as u8);
    out.extend_from_slice(&[b'%', first, second, b'%'])?;
    Ok(())
}

/// How many digits the escape of a character has.
pub(crate) fn digit_count(code: u32) -> u32
    ensures { result ≡ hex_count code }
{
    match code {
        0..=0xff => 2,
        0x100..=0xfff => 3,
        0x1000..=0xffff => 4,
        0x1_0000..=0xf_ffff => 5,
        _ => 6,
    }
}

// Writes the last `count` hexadecimal digits of a code.
fn write_hex(code: u32, count: u32, out: &mut Vec<u8>) -> Result<(), WantOfMemory>
    requires { count ≤ 6 }
    ensures ok { OnOk result (out.new.items ≡ out.old.items ++ hex_digits count code) }
    ensures err { OnErr result (StartsWith out.new.items out.old.items) }
    ensures room { vec_capacity out.old ≤ vec_capacity out.new }
    ensures refused { OnErr result (LacksRoom out.old (hex_digits count code)) }
{
    let mut left = count;
    while left > 0 {
        left -= 1;
        out.push(hex_digit((code / 16u32.pow(left) % 16) as u8))?;
    }
    Ok(())
}

fn hex_digit(value: u8) -> u8
    requires { value < 16 }
    ensures { result ≡ digit_char value }
{
    if value < 10 {
        b'0' + value
    } else {
        b'a' + (value - 10)
    }
}
