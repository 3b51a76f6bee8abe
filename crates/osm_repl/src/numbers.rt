//! The numbers of a range, and ids, read from the words of the command line.

ghost use Rattle.std.specs.Prelude.{◌≡◌, ◌<◌, ◌^◌, ℕ, decimal, IfErr, IfOk, IfSome, Some};
ghost use Rattle.osm_repl.specs.Checks.{IsNumber, RefusesEnds, RefusesNumber};
ghost use Rattle.osm_repl.specs.Ranges.{SpellsRange};

use itoa::Buffer;
use osm_range::range::Range;
use osm_reading::sequence::sequence_read;
use osm_runs::fault::RunFault;

// The number that a word says, if there is one: 1 to 9 digits. Anything else is refused as
// `BadSequence`.
pub(crate) fn number_of(word: Option<&str>) -> Result<Option<u32>, RunFault>
    ensures number { IfOk result (IsNumber word.entry) }
    ensures refused { IfErr result (RefusesNumber word.entry) }
{
    match word {
        None => Ok(None),
        Some(word) => match sequence_read(word.as_bytes()) {
            Some(number) => Ok(Some(number)),
            None => Err(RunFault::BadSequence),
        },
    }
}

// The range between the numbers that two words say, of 1 to 9 digits each. Anything else is refused
// as `BadSequence`.
pub(crate) fn range_of(from: &str, to: &str) -> Result<Range, RunFault>
    ensures range { IfOk result (SpellsRange from.now to.now) }
    ensures refused { IfErr result (RefusesEnds from.now to.now) }
{
    match (sequence_read(from.as_bytes()), sequence_read(to.as_bytes())) {
        (Some(from), Some(to)) => Ok(Range { from, to }),
        _ => Err(RunFault::BadSequence),
    }
}

// The id of a user or of a changeset, a number of 32 bits without leading zeros.
pub(crate) fn id_of(word: &str) -> Option<u32>
    ensures spelled { IfSome result (λ id. word.now ≡ decimal id) }
    ensures only { (id : ℕ) → id < 2 ^ 32 → word.now ≡ decimal id → result ≡ Some id }
{
    match word.parse::<u32>() {
        Ok(id) => if_written(word, id),
        Err(_) => None,
    }
}

// The id if it is written so.
fn if_written(word: &str, id: u32) -> Option<u32>
    ensures spelled { IfSome result (λ found. (found ≡ id) × (word.now ≡ decimal found)) }
    ensures only { word.now ≡ decimal id → result ≡ Some id }
{
    let mut buffer = Buffer::new();
    if word == buffer.format(id) {
        Some(id)
    } else {
        None
    }
}
