//! Texts of keys and values, one pair on each line: the part of Java's properties format that state
//! files use.

ghost use Rattle.std.specs.Prelude.{◌≡◌, ◌<◌, ◌≤◌, ◌==◌, [], ◌∷◌, ◌++◌, take, length};
ghost use Rattle.std.specs.Prelude.{Some, None, option_map, MatchOption, IfSome, IsNone};
ghost use Rattle.std.specs.List.{position};
ghost use Rattle.std.specs.Option.{option_copied};
ghost use Rattle.osm_state.specs.Properties.{is_blank, trimmed, trimmed_end, trimmed_start};
ghost use Rattle.osm_state.specs.Properties.{is_note, entry_of, value_of, value_at, unescaped};
ghost use Rattle.osm_state.specs.StateText.{sequence_key, time_key};
ghost use Rattle.osm_state.specs.Steps.Values.{seen_entry, IsPlainPrefix};

use arrayvec::ArrayVec;
use osm_reading::lines::split_line;

/// The values that a text gives to the two keys of a state. None if no line has the key.
#[derive(Clone, Copy)]
pub(crate) struct Values<'a> {
    pub sequence: Option<&'a [u8]>,
    pub time: Option<&'a [u8]>,
}

/// The value of each key in the last line that has the key.
pub(crate) fn values_of(text: &[u8]) -> Values<'_>
    ensures sequence { option_copied result.sequence ≡ value_of text.now sequence_key }
    ensures time { option_copied result.time ≡ value_of text.now time_key }
{
    let mut sequence = None;
    let mut time = None;
    let mut rest = Some(text);
    while let Some(lines) = rest {
        let (line, after) = split_line(lines);
        let entry = entry(line);
        sequence = value_at(entry, b"sequenceNumber").or(sequence);
        time = value_at(entry, b"timestamp").or(time);
        rest = after;
    }
    Values { sequence, time }
}

fn value_at<'a>(entry: Option<(&'a [u8], &'a [u8])>, key: &[u8]) -> Option<&'a [u8]>
    ensures { option_copied result ≡ value_at key.now (seen_entry entry.entry) }
{
    match entry {
        Some((name, value)) if name == key => Some(value),
        _ => None,
    }
}

// The key and the value of a line; None if the line is skipped.
#[tactic(auto, using(crate::proofs::LineLemmas::entries))]
fn entry(line: &[u8]) -> Option<(&[u8], &[u8])>
    ensures { seen_entry result ≡ entry_of line.now }
{
    if is_note(line) {
        return None;
    }
    let end = equals_at(line)?;
    Some((trim(&line[..end]), trim(&line[end + 1..])))
}

fn equals_at(line: &[u8]) -> Option<usize>
    ensures { result ≡ position (λ b. b == 61) line.now }
{
    line.iter().position(|byte| *byte == b'=')
}

fn is_note(line: &[u8]) -> bool
    ensures { result ≡ is_note line.now }
{
    matches!(trim_start(line), [b'#' | b'!', ..])
}

fn is_blank(byte: u8) -> bool
    ensures { result ≡ is_blank byte }
{
    byte == b' ' || byte == b'\t'
}

fn trim_start(bytes: &[u8]) -> &[u8]
    ensures { result.now ≡ trimmed_start bytes.now }
{
    let mut rest = bytes;
    while let Some((first, after)) = rest.split_first()
        && is_blank(*first)
    {
        rest = after;
    }
    rest
}

fn trim_end(bytes: &[u8]) -> &[u8]
    ensures { result.now ≡ trimmed_end bytes.now }
{
    let mut rest = bytes;
    while let Some((last, before)) = rest.split_last()
        && is_blank(*last)
    {
        rest = before;
    }
    rest
}

// Drops the blanks at both ends.
#[tactic(auto, unfolding(crate::specs::Properties::trimmed))]
fn trim(bytes: &[u8]) -> &[u8]
    ensures { result.now ≡ trimmed bytes.now }
{
    trim_end(trim_start(bytes))
}

/// The first 21 bytes of a value without its escapes: any longer value is neither a number nor a
/// time. None if the value ends inside an escape.
#[tactic(auto, using(crate::proofs::EscapeLemmas::values))]
pub(crate) fn unescape(value: &[u8]) -> Option<ArrayVec<u8, 21>>
    ensures { MatchOption result
        (unescaped value.now ≡ None)
        (λ prefix. IsPlainPrefix value.now prefix.items) }
{
    let mut plain = ArrayVec::new();
    let mut rest = value;
    while let Some((first, after)) = rest.split_first() {
        let (byte, after) = plain_byte(*first, after)?;
        keep(&mut plain, byte);
        rest = after;
    }
    Some(plain)
}

// The byte that the first byte or escape stands for, and the bytes after it. None if the escape is
// cut off.
#[tactic(auto, using(crate::proofs::EscapeLemmas::plain_bytes))]
fn plain_byte(first: u8, after: &[u8]) -> Option<(u8, &[u8])>
    ensures some { IfSome result (λ r.
        unescaped (first ∷ after.now) ≡ option_map (λ plain. r.0 ∷ plain) (unescaped r.1.now)) }
    ensures fewer { IfSome result (λ r. length r.1.now ≤ length after.now) }
    ensures none { IsNone result → unescaped (first ∷ after.now) ≡ None }
{
    if first != b'\\' {
        return Some((first, after));
    }
    let (byte, rest) = after.split_first()?;
    Some((*byte, rest))
}

// Appends the byte if there is room for it.
fn keep(prefix: &mut ArrayVec<u8, 21>, byte: u8)
    ensures { prefix.new.items ≡ take 21 (prefix.old.items ++ byte ∷ []) }
{
    if !prefix.is_full() {
        prefix.push(byte);
    }
}
