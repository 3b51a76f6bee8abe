//! Lines of a save text. Every line ends with LF.

ghost use Rattle.std.specs.Prelude.{◌≡◌, ◌≤◌, ◌++◌, ◌∷◌, [], decimal, IfOk, OnOk};
ghost use Rattle.osm_reading.specs.Pieces.{cut_at};
ghost use Rattle.osm_save.specs.Lines.{ended};
ghost use Rattle.osm_save.specs.Answers.{Finds};
ghost use Rattle.osm_save.specs.Reading.{fixed_at, numbered_at};

use crate::numbers::read_number;
use crate::stop::Stop;
use osm_model::memory::WantOfMemory;
use osm_reading::number_lines;
use osm_reading::pieces::cut;

/// Cuts off the next line: the line without its LF, and the bytes after the LF.
pub fn next_line(rest: &[u8]) -> Result<(&[u8], &[u8]), Stop>
    ensures { Finds (λ r. (r.0.now, r.1.now)) result (cut_at 10 rest.now) }
{
    match cut(rest, b'\n') {
        (line, Some(after)) => Ok((line, after)),
        (_, None) => Err(Stop::Wrong(rest.len())),
    }
}

/// The bytes after the next line, which must be `text`.
#[tactic(auto, unfolding(crate::specs::Reading::fixed_at))]
pub fn fixed_line<'a>(text: &[u8], rest: &'a [u8]) -> Result<&'a [u8], Stop>
    ensures { Finds (λ after. after.now) result (fixed_at text.now rest.now) }
{
    let (line, after) = next_line(rest)?;
    if line != text {
        return Err(Stop::Wrong(rest.len()));
    }
    Ok(after)
}

/// Reads the number after `word` in the next line, at most `most`, and gives the bytes after the
/// line.
#[tactic(auto, unfolding(crate::specs::Reading::numbered_at))]
pub fn numbered_line<'a>(word: &[u8], most: u64, rest: &'a [u8]) -> Result<(u64, &'a [u8]), Stop>
    ensures value { Finds (λ r. (r.0, r.1.now)) result (numbered_at word.now most rest.now) }
    ensures limit { IfOk result (λ r. r.0 ≤ most) }
{
    let (line, after) = next_line(rest)?;
    let Some(digits) = line.strip_prefix(word) else {
        return Err(Stop::Wrong(rest.len()));
    };
    let Some(number) = read_number(digits) else {
        return Err(Stop::Wrong(rest.len()));
    };
    if number > most {
        return Err(Stop::Wrong(rest.len()));
    }
    Ok((number, after))
}

/// Appends a line of a word, a number and LF.
pub fn write_numbered(word: &[u8], number: u64, out: &mut Vec<u8>) -> Result<(), WantOfMemory>
    ensures { OnOk result
        (out.new.items ≡ out.old.items ++ ended ((word.now ++ decimal number) ∷ [])) }
{
    number_lines::write_numbered(word, number, out)
}

/// The number, counted from 1, of the line at whose start `left` bytes are left.
pub fn line_number(bytes: &[u8], left: usize) -> u64 {
    let mut number: u64 = 1;
    for byte in bytes.iter().take(bytes.len().saturating_sub(left)) {
        if *byte == b'\n' {
            number = number.saturating_add(1);
        }
    }
    number
}
