//! Reading and writing `state.txt`.

ghost use Rattle.std.specs.Prelude.{◌≡◌, ◌==◌, Ok, Err, ◌++◌, IfOk, OnOk};
ghost use Rattle.std.specs.Prelude.{◌<◌, length, IfErr, MatchResult, OnErr};
ghost use Rattle.osm_model.specs.Time.{TimeText};
ghost use Rattle.osm_reading.specs.Sequence.{SpellsSequence};
ghost use Rattle.osm_state.specs.State.{StateValue};
ghost use Rattle.osm_state.specs.StateFault.{FaultOf};
ghost use Rattle.osm_state.specs.StateText.{StateOf, StandsForNumber, state_text};
ghost use Rattle.osm_state.specs.StateText.{escaped_colons};
ghost use Rattle.osm_state.specs.Steps.Faults.{SequenceFault, TimeFault};

use crate::properties::{unescape, values_of};
use crate::state::State;
use itoa::Buffer;
use osm_model::memory::WantOfMemory;
use osm_model::time::{time_read, time_write};
use osm_reading::sequence::sequence_read;
use std::alloc::Global;
use thiserror::Error;

/// Why a text has no state: the first fault that applies. Faults of the sequence number come before
/// faults of the time.
#[derive(Clone, Copy, Debug, PartialEq, Eq, Error)]
pub enum StateError {
    /// No line has the key `sequenceNumber`.
    #[error("MissingSequence")]
    MissingSequence,
    /// The value of the sequence number or of the time ends with a backslash that escapes nothing.
    #[error("BadEscape")]
    BadEscape,
    /// The value of `sequenceNumber` isn't 1 to 9 digits.
    #[error("BadSequence")]
    BadSequence,
    /// No line has the key `timestamp`.
    #[error("MissingTime")]
    MissingTime,
    /// The value of `timestamp` isn't a time.
    #[error("BadTime")]
    BadTime,
}

/// Reads the state from a text with the lines `sequenceNumber=N` and
/// `timestamp=YYYY-MM-DDTHH:MM:SSZ` (OSM wiki, Planet.osm/diffs).
///
/// The two lines may come in either order, among other lines. Lines end with LF or CR LF. Lines
/// that begin with `#` or `!`, lines without `=` and lines with other keys are skipped. Blanks
/// around a key or a value are dropped. If several lines have the same key, the last one counts. In
/// a value `\c` stands for the byte c (OSM wiki, Planet.osm/diffs; what it leaves open is our
/// choice). It takes no memory.
pub fn state_read(bytes: &[u8]) -> Result<State, StateError>
    ensures found { IfOk result (λ s. StateOf bytes.now s) }
    ensures only { (s : StateValue) → StateOf bytes.now s → result ≡ Ok s }
    ensures refused { IfErr result (λ e. FaultOf bytes.now e) }
    ensures exact { (e : StateError) → FaultOf bytes.now e → result ≡ Err e }
{
    let values = values_of(bytes);
    let sequence = sequence_in(values.sequence.ok_or(StateError::MissingSequence)?)?;
    let time = time_in(values.time.ok_or(StateError::MissingTime)?)?;
    Ok(State::within_limits(sequence, time))
}

fn sequence_in(value: &[u8]) -> Result<u32, StateError>
    ensures { MatchResult result
        (StandsForNumber SpellsSequence value.now)
        (SequenceFault value.now) }
{
    let plain = unescape(value).ok_or(StateError::BadEscape)?;
    sequence_read(&plain).ok_or(StateError::BadSequence)
}

fn time_in(value: &[u8]) -> Result<u32, StateError>
    ensures { MatchResult result (StandsForNumber TimeText value.now) (TimeFault value.now) }
{
    let plain = unescape(value).ok_or(StateError::BadEscape)?;
    time_read(&plain).ok_or(StateError::BadTime)
}

/// Writes the lines `sequenceNumber=N` and `timestamp=YYYY-MM-DDTHH\:MM\:SSZ`, each ended by LF,
/// and no others (OSM wiki, Planet.osm/diffs).
pub fn state_write(alloc: Global, state: &State) -> Result<Vec<u8>, WantOfMemory>
    ensures { IfOk result (λ text. text.items ≡ state_text state.now) }
{
    let mut text = Vec::new(alloc);
    text.extend_from_slice(b"sequenceNumber=")?;
    text.extend_from_slice(Buffer::new().format(state.sequence()).as_bytes())?;
    text.extend_from_slice(b"\ntimestamp=")?;
    append_escaped(&mut text, &time_write(state.time()))?;
    text.extend_from_slice(b"\n")?;
    Ok(text)
}

// Appends the bytes with a backslash before each colon.
fn append_escaped(text: &mut Vec<u8>, bytes: &[u8]) -> Result<(), WantOfMemory>
    ensures ok { OnOk result (text.new.items ≡ text.old.items ++ escaped_colons bytes.now) }
    ensures refused { OnErr result (0 < length bytes.now) }
{
    for byte in bytes {
        if needs_backslash(*byte) {
            text.push(b'\\')?;
        }
        text.push(*byte)?;
    }
    Ok(())
}

fn needs_backslash(byte: u8) -> bool
    ensures { result ≡ (byte == 58) }
{
    byte == b':'
}
