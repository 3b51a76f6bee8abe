//! The state at which a save begins.

ghost use Rattle.std.specs.Prelude.{◌≡◌, ◌<◌, ◌≤◌, Some, IfErr, IfOk, length};
ghost use Rattle.osm_beginning.specs.Beginning.{IsStart};
ghost use Rattle.osm_beginning.specs.Steps.Beginning.{StartStops, StartTextStops, compared};
ghost use Rattle.osm_beginning.specs.Steps.Beginning.{head_from};
ghost use Rattle.osm_runs.specs.Folder.{max_state};
ghost use Rattle.osm_runs.specs.Runs.{Reads};
ghost use Rattle.osm_state.specs.State.{IsState};
ghost use Rattle.osm_store.specs.Frames.{IsKnown};

use osm_runs::fault::{FileName, RunFault};
use osm_runs::files::{MAX_STATE, read_present};
use osm_save::head::Head;
use osm_state::state::State;
use osm_state::state_text::state_read;
use osm_store::store::Store;
use std::alloc::Global;

/// Reads the state that belongs to a data file. Its sequence number has to be above 0.
pub(crate) fn read_start<S: Store>(
    alloc: Global,
    store: &mut S,
    state: &str,
) -> Result<State, RunFault>
    ensures start { IfOk result (λ s. IsKnown (S.state store.old)
        → IsStart ((S.state store.old).files state.now) s) }
    ensures above { IfOk result (λ s. 0 < s.sequence) }
    ensures stops { IfErr result
        (StartStops (IsKnown (S.state store.old)) ((S.state store.old).files state.now)) }
    ensures frame { Reads 1 (S.state store.old) (S.state store.new) result }
{
    match read_present(alloc, store, FileName::State, state, MAX_STATE) {
        Ok(text) => start_of(text.as_slice()),
        Err(fault) => Err(fault),
    }
}

fn start_of(text: &[u8]) -> Result<State, RunFault>
    requires { length text.now ≤ max_state }
    ensures start { IfOk result (λ s. IsStart (Some text.now) s) }
    ensures stops { IfErr result (StartTextStops text.now) }
{
    match state_read(text) {
        Ok(state) if state.sequence() == 0 => Err(RunFault::ZeroBase),
        Ok(state) => Ok(state),
        Err(cause) => Err(RunFault::BadState(FileName::State, cause)),
    }
}

/// Gives the head of a save that begins at a state.
pub(crate) fn head_from(state: &State) -> Head
    ensures head { result ≡ head_from state.now }
    ensures limits { IsState state.now }
{
    Head {
        number: state.sequence(),
        base: state.sequence(),
        time: Some(state.time()),
    }
}

/// Gives the time of a state to compare with that of the newest object; None if any time is
/// allowed.
pub(crate) fn compared(state: &State, any_time: bool) -> Option<u32>
    ensures { result ≡ compared any_time state.now }
{
    if any_time { None } else { Some(state.time()) }
}
