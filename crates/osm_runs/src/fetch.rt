//! Reading the files of a sequence.

ghost use Rattle.std.specs.Prelude.{◌≡◌, ◌≤◌, ℕ, IfErr, IfOk, Option, length};
ghost use Rattle.osm_model.specs.Limits.{IsPositive, max_sequence};
ghost use Rattle.osm_store.specs.Files.{IsWithin};
ghost use Rattle.osm_runs.specs.Folder.{IsStateFile, max_state};
ghost use Rattle.osm_runs.specs.Following.{HasStateIn, IsEarlier, IsOnward, NumberStopsIn};
ghost use Rattle.osm_runs.specs.Following.{limit_of};
ghost use Rattle.osm_runs.specs.Names.{file_name_of};
ghost use Rattle.osm_runs.specs.Runs.{Reads, ReadsUpTo};
ghost use Rattle.osm_runs.specs.Steps.Following.{AreChangesReadIn, FetchesIn, IsStateReadIn};
ghost use Rattle.osm_runs.specs.Steps.Following.{LookStopsIn, StateTextStops, TellsIfLost};
ghost use Rattle.osm_runs.specs.Reading.{FileStopsIn, TellsIfThere, TellsIn, ThereStops};

use crate::fault::{FileName, RunFault};
use crate::files::{is_there, limit, read_file};
use crate::form::Form;
use crate::names::file_name;
use osm_state::laws::laws_of_state;
use osm_state::paths::Suffix;
use osm_state::state_text::state_read;
use osm_store::store::Store;
use std::alloc::Global;

// The time that the state of a sequence names, and its changes in one of the two forms.
#[derive(Drop)]
pub(crate) struct Fetched {
    pub(crate) time: u32,
    pub(crate) form: Form,
    pub(crate) changes: Vec<u8>,
}

// The files of a number; None if it is lost. The OPL file is read only if there is no o5c file.
// `before` is the time of the number before, if that has one.
pub(crate) fn fetch<S: Store>(
    alloc: Global,
    store: &mut S,
    dir: &str,
    before: Option<u32>,
    number: u32,
) -> Result<Option<Fetched>, RunFault>
    requires { number ≤ max_sequence }
    ensures fetched { IfOk result (FetchesIn (S.state store.old) dir.now before number) }
    ensures stops { IfErr result (NumberStopsIn (S.state store.old) dir.now before number) }
    ensures frame { ReadsUpTo 3 (S.state store.old) (S.state store.new) result }
{
    let Some(time) = read_state(alloc, store, dir, before, number)? else {
        return Ok(None);
    };
    let Some((form, changes)) = read_changes(alloc, store, dir, number)? else {
        return Ok(None);
    };
    Ok(Some(Fetched {
        time,
        form,
        changes,
    }))
}

// The time that the state of a number names; None if the state isn't there. A text that names
// another number, or a time before that of the number before, is refused.
fn read_state<S: Store>(
    alloc: Global,
    store: &mut S,
    dir: &str,
    before: Option<u32>,
    number: u32,
) -> Result<Option<u32>, RunFault>
    requires { number ≤ max_sequence }
    ensures read { IfOk result (IsStateReadIn (S.state store.old) dir.now before number) }
    ensures stops { IfErr result (NumberStopsIn (S.state store.old) dir.now before number) }
    ensures frame { Reads 1 (S.state store.old) (S.state store.new) result }
{
    let Some(text) = read_numbered(alloc, store, dir, number, Suffix::State)? else {
        return Ok(None);
    };
    let time = time_in(text.as_slice(), before, number)?;
    Ok(Some(time))
}

// The time in a text that is to be the state of a number after a number of that time.
fn time_in(text: &[u8], before: Option<u32>, number: u32) -> Result<u32, RunFault>
    requires { length text.now ≤ max_state }
    ensures names { IfOk result (λ time. IsStateFile number time text.now) }
    ensures positive { IfOk result IsPositive }
    ensures onward { IfOk result (IsOnward before) }
    ensures stops { IfErr result (StateTextStops text.now before number) }
{
    laws_of_state();
    match state_read(text) {
        Ok(state) if state.sequence() == number => onward(before, state.time(), number),
        Ok(_) => Err(RunFault::Mismatch(number)),
        Err(cause) => Err(RunFault::BadState(FileName::Sequence(number, Suffix::State), cause)),
    }
}

// The time of a number, unless it is before that of the number before.
fn onward(before: Option<u32>, time: u32, number: u32) -> Result<u32, RunFault>
    ensures time { IfOk result (λ same. (same ≡ time) × IsOnward before time) }
    ensures stops { IfErr result
        (λ fault. (fault ≡ RunFault.OlderNumber number) × IsEarlier before time) }
{
    match before {
        Some(before) if time < before => Err(RunFault::OlderNumber(number)),
        _ => Ok(time),
    }
}

// The changes of a number whose state is right: its o5c file, or if there is none, its OPL file.
fn read_changes<S: Store>(
    alloc: Global,
    store: &mut S,
    dir: &str,
    number: u32,
) -> Result<Option<(Form, Vec<u8>)>, RunFault>
    requires { number ≤ max_sequence }
    ensures read { IfOk result (AreChangesReadIn (S.state store.old) dir.now number) }
    ensures stops { IfErr result (λ fault. (before : Option ℕ)
        → HasStateIn (S.state store.old) dir.now before number
        → NumberStopsIn (S.state store.old) dir.now before number fault) }
    ensures frame { ReadsUpTo 2 (S.state store.old) (S.state store.new) result }
{
    if let Some(bytes) = read_numbered(alloc, store, dir, number, Suffix::O5c)? {
        return Ok(Some((Form::O5c, bytes)));
    }
    match read_numbered(alloc, store, dir, number, Suffix::Opl)? {
        Some(bytes) => Ok(Some((Form::Opl, bytes))),
        None => Ok(None),
    }
}

// A file of a number, if it is there.
fn read_numbered<S: Store>(
    alloc: Global,
    store: &mut S,
    dir: &str,
    number: u32,
    suffix: Suffix,
) -> Result<Option<Vec<u8>>, RunFault>
    requires { number ≤ max_sequence }
    ensures read { IfOk result (TellsIn (S.state store.old) (file_name_of dir.now number suffix)) }
    ensures within { IfOk result (IsWithin (limit_of suffix)) }
    ensures stops { IfErr result (FileStopsIn (S.state store.old)
        (file_name_of dir.now number suffix) (FileName.Sequence number suffix) (limit_of suffix)) }
    ensures frame { Reads 1 (S.state store.old) (S.state store.new) result }
{
    let name = file_name(alloc, dir, number, suffix)?;
    let file = FileName::Sequence(number, suffix);
    read_file(alloc, store, file, name.as_str(), limit(suffix))
}

// Whether a number is lost, from which of its files are there. The OPL file is looked for only if
// the state is there and the o5c file isn't.
pub(crate) fn lacks_files<S: Store>(
    alloc: Global,
    store: &mut S,
    dir: &str,
    number: u32,
) -> Result<bool, RunFault>
    requires { number ≤ max_sequence }
    ensures lost { IfOk result (TellsIfLost (S.state store.old) dir.now number) }
    ensures stops { IfErr result (LookStopsIn (S.state store.old) dir.now number) }
    ensures frame { ReadsUpTo 3 (S.state store.old) (S.state store.new) result }
{
    let has_state = has_file(alloc, store, dir, number, Suffix::State)?;
    if !has_state {
        return Ok(true);
    }
    let has_o5c = has_file(alloc, store, dir, number, Suffix::O5c)?;
    if has_o5c {
        return Ok(false);
    }
    let has_opl = has_file(alloc, store, dir, number, Suffix::Opl)?;
    Ok(!has_opl)
}

// Whether a file of a number is there.
fn has_file<S: Store>(
    alloc: Global,
    store: &mut S,
    dir: &str,
    number: u32,
    suffix: Suffix,
) -> Result<bool, RunFault>
    requires { number ≤ max_sequence }
    ensures there { IfOk result (TellsIfThere (S.state store.old)
        (file_name_of dir.now number suffix)) }
    ensures stops { IfErr result (ThereStops (FileName.Sequence number suffix)) }
    ensures frame { Reads 1 (S.state store.old) (S.state store.new) result }
{
    let name = file_name(alloc, dir, number, suffix)?;
    is_there(store, FileName::Sequence(number, suffix), name.as_str())
}
