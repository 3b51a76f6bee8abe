//! What is wrong with the state file of a number.

ghost use Rattle.std.specs.Prelude.{◌≡◌, ℕ, ◌≤◌, List, Option, Some, None, IfErr, IfOk, length};
ghost use Rattle.osm_model.specs.Limits.{max_sequence};
ghost use Rattle.osm_store.specs.Frames.{IsKnown};
ghost use Rattle.osm_runs.specs.Names.{file_name_of};
ghost use Rattle.osm_runs.specs.Runs.{Reads};
ghost use Rattle.osm_audit.specs.Steps.Looking.{IsContents, IsStateSaid, IsTimeSaid};
ghost use Rattle.osm_audit.specs.Steps.Looking.{IsWithinLimit, ReadStops};
ghost use Rattle.osm_runs.specs.Folder.{IsStateFile, max_state};

use crate::contents::{Contents, read_numbered};
use crate::finding::Cause;
use osm_runs::fault::{FileName, RunFault};
use osm_state::paths::Suffix;
use osm_state::state_text::state_read;
use osm_store::store::Store;
use std::alloc::Global;

// What is said of a state file.
#[derive(Clone, Copy)]
pub(crate) struct StateSaid {
    // Why it is wrong, if it is.
    pub(crate) cause: Option<Cause>,
    // Its time, if it is the number's.
    pub(crate) time: Option<u32>,
}

// What is said of the state file of a number; `before` is the time of the number before, if that is
// one of the range and has a state.
pub(crate) fn check_state<S: Store>(
    alloc: Global,
    store: &mut S,
    dir: &str,
    number: u32,
    before: Option<u32>,
) -> Result<StateSaid, RunFault>
    requires { number ≤ max_sequence }
    ensures said { IfOk result (λ said. IsKnown (S.state store.old) → IsStateSaid
        ((S.state store.old).files (file_name_of dir.now number Suffix.State)) number before
        said.cause said.time) }
    ensures stops { IfErr result (ReadStops (FileName.Sequence number Suffix.State)) }
    ensures frame { Reads 1 (S.state store.old) (S.state store.new) result }
{
    let read = read_numbered(alloc, store, dir, number, Suffix::State)?;
    Ok(say(&read, number, before))
}

fn say(read: &Contents, number: u32, before: Option<u32>) -> StateSaid
    requires { IsWithinLimit max_state read.now }
    ensures { (told : Option (List ℕ)) → IsContents max_state told read.now
        → IsStateSaid told number before result.cause result.time }
{
    match read {
        Contents::Absent => wrong(Cause::Absent),
        Contents::TooLarge => wrong(Cause::TooLarge),
        Contents::Bytes(text) => say_of_text(text.as_slice(), number, before),
    }
}

fn say_of_text(text: &[u8], number: u32, before: Option<u32>) -> StateSaid
    requires { length text.now ≤ max_state }
    ensures { IsStateSaid (Some text.now) number before result.cause result.time }
{
    match state_read(text) {
        Ok(state) if state.sequence() == number => say_of_time(state.time(), before),
        Ok(_) => wrong(Cause::Mismatch),
        Err(cause) => wrong(Cause::BadState(cause)),
    }
}

// The state is the number's.
fn say_of_time(time: u32, before: Option<u32>) -> StateSaid
    ensures said { IsTimeSaid time before result.cause }
    ensures time { result.time ≡ Some time }
{
    match before {
        Some(before) if time < before => StateSaid {
            cause: Some(Cause::TimeBack),
            time: Some(time),
        },
        _ => StateSaid {
            cause: None,
            time: Some(time),
        },
    }
}

// It isn't the number's.
fn wrong(cause: Cause) -> StateSaid
    ensures { result ≡ record { cause = Some cause; time = None } }
{
    StateSaid {
        cause: Some(cause),
        time: None,
    }
}
