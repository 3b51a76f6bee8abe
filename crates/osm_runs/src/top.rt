//! The newest state of a folder.

ghost use Rattle.std.specs.Prelude.{◌≤◌, IfErr, IfOk, length};
ghost use Rattle.osm_runs.specs.Folder.{IsStateFile, max_state};
ghost use Rattle.osm_runs.specs.Following.{FindTopStops, FindsTop, IsTopState, TopStateStops};
ghost use Rattle.osm_runs.specs.Names.{top_name_of};
ghost use Rattle.osm_runs.specs.Runs.{IfFileKnown, Reads, StopsAt};
ghost use Rattle.osm_runs.specs.Following.{TopTextStops};

use crate::fault::{FileName, RunFault};
use crate::files::{MAX_STATE, read_file};
use crate::names::top_name;
use osm_state::state::State;
use osm_state::state_text::state_read;
use osm_store::store::Store;
use std::alloc::Global;

/// Reads the newest state of a folder, which has to be there.
pub fn read_top<S: Store>(alloc: Global, store: &mut S, dir: &str) -> Result<State, RunFault>
    ensures top { IfOk result (IfFileKnown (S.state store.old) (top_name_of dir.now) IsTopState) }
    ensures stops { IfErr result (StopsAt (S.state store.old) (top_name_of dir.now) TopStateStops) }
    ensures frame { Reads 1 (S.state store.old) (S.state store.new) result }
{
    match find_top(alloc, store, dir) {
        Ok(Some(state)) => Ok(state),
        Ok(None) => Err(RunFault::Absent(FileName::Top)),
        Err(fault) => Err(fault),
    }
}

/// Reads the newest state of a folder; None if nothing was published.
pub fn find_top<S: Store>(
    alloc: Global,
    store: &mut S,
    dir: &str,
) -> Result<Option<State>, RunFault>
    ensures top { IfOk result (IfFileKnown (S.state store.old) (top_name_of dir.now) FindsTop) }
    ensures stops { IfErr result (StopsAt (S.state store.old) (top_name_of dir.now) FindTopStops) }
    ensures frame { Reads 1 (S.state store.old) (S.state store.new) result }
{
    let name = top_name(alloc, dir)?;
    match read_file(alloc, store, FileName::Top, name.as_str(), MAX_STATE) {
        Ok(Some(text)) => Ok(Some(top_state(text.as_slice())?)),
        Ok(None) => Ok(None),
        Err(fault) => Err(fault),
    }
}

fn top_state(text: &[u8]) -> Result<State, RunFault>
    requires { length text.now ≤ max_state }
    ensures named { IfOk result (λ s. IsStateFile s.sequence s.time text.now) }
    ensures stops { IfErr result (TopTextStops text.now) }
{
    match state_read(text) {
        Ok(state) => Ok(state),
        Err(cause) => Err(RunFault::BadState(FileName::Top, cause)),
    }
}
