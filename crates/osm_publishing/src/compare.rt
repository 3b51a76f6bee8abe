//! Comparing the files of a published sequence with what it should be.

ghost use Rattle.std.specs.Prelude.{◌≡◌, ◌≤◌, ◌↔◌, IsTrue, IfErr, IfOk, OnOk, length};
ghost use Rattle.osm_model.specs.Limits.{max_file, max_sequence};
ghost use Rattle.osm_store.specs.Files.{IsWithin};
ghost use Rattle.osm_runs.specs.Folder.{IsAbsentOr, IsStateFile, IsThere, max_state};
ghost use Rattle.osm_store.specs.Frames.{IsKnown};
ghost use Rattle.osm_runs.specs.Names.{file_name_of};
ghost use Rattle.osm_runs.specs.Runs.{Reads, RunsOut};
ghost use Rattle.osm_runs.specs.Forms.{suffix_of};
ghost use Rattle.osm_publishing.specs.Steps.Numbering.{AreFilesIn, BytesDiffer, CheckOut};
ghost use Rattle.osm_publishing.specs.Steps.Numbering.{CheckStops};
ghost use Rattle.osm_publishing.specs.Steps.Numbering.{FileDiffersIn, HoldsChanges, IsComparedIn};
ghost use Rattle.osm_publishing.specs.Steps.Numbering.{IsStateIn, OverDiffersIn};
ghost use Rattle.osm_runs.specs.Reading.{TellsIn};

use osm_model::batch::Batch;
use osm_model::form::FormError;
use osm_model::limits::MAX_FILE;
use osm_runs::fault::{FileName, RunFault};
use osm_runs::files::{MAX_STATE, read_file};
use osm_runs::form::{Form, read_form, suffix};
use osm_runs::names::file_name;
use osm_runs::same::are_same;
use osm_state::laws::laws_of_state;
use osm_state::paths::Suffix;
use osm_state::state::State;
use osm_state::state_text::state_read;
use osm_store::store::Store;
use std::alloc::Global;

// Refuses as `Differs` unless the files of the number are there: its state with that time, and
// those changes in one form at least, and in the other nothing else. The first that isn't so is the
// last that is read.
pub(crate) fn check_published<S: Store>(
    alloc: Global,
    store: &mut S,
    dir: &str,
    number: u32,
    time: u32,
    batch: &Batch,
) -> Result<(), RunFault>
    requires { number ≤ max_sequence }
    ensures published { OnOk result (AreFilesIn (S.state store.old) dir.now
        (record { number = number; changes = batch.now; time = time })) }
    ensures stops { IfErr result (CheckStops (IsKnown (S.state store.old)) dir.now
        (S.state store.old).files (record { number = number; changes = batch.now; time = time })) }
    ensures out { RunsOut (S.state store.old) result (CheckOut number) }
    ensures frame { Reads 3 (S.state store.old) (S.state store.new) result }
{
    check_state(alloc, store, dir, number, time)?;
    let o5c = check_changes(alloc, store, dir, number, Form::O5c, batch)?;
    let opl = check_changes(alloc, store, dir, number, Form::Opl, batch)?;
    if !o5c && !opl {
        return Err(RunFault::Differs(number));
    }
    Ok(())
}

// Refuses unless the number's state is there and has that time.
fn check_state<S: Store>(
    alloc: Global,
    store: &mut S,
    dir: &str,
    number: u32,
    time: u32,
) -> Result<(), RunFault>
    requires { number ≤ max_sequence }
    ensures there { OnOk result (IsStateIn (S.state store.old) dir.now number time) }
    ensures stops { IfErr result (FileDiffersIn (S.state store.old) dir.now number Suffix.State
        (λ told. IsThere told (IsStateFile number time))) }
    ensures frame { Reads 1 (S.state store.old) (S.state store.new) result }
{
    match read_of(alloc, store, dir, number, Suffix::State, MAX_STATE) {
        Ok(Some(text)) => check_text(text.as_slice(), number, time),
        Ok(None) => Err(RunFault::Differs(number)),
        Err(fault) => Err(fault),
    }
}

fn check_text(text: &[u8], number: u32, time: u32) -> Result<(), RunFault>
    requires { length text.now ≤ max_state }
    ensures names { OnOk result (IsStateFile number time text.now) }
    ensures stops { IfErr result (BytesDiffer number (IsStateFile number time text.now)) }
{
    laws_of_state();
    let Ok(state) = state_read(text) else {
        return Err(RunFault::Differs(number));
    };
    if !names(&state, number, time) {
        return Err(RunFault::Differs(number));
    }
    Ok(())
}

// Whether a state has that number and that time.
fn names(state: &State, number: u32, time: u32) -> bool
    ensures { IsTrue result ↔ (state.now ≡ record { sequence = number; time = time }) }
{
    state.sequence() == number && state.time() == time
}

// Whether the number's file of that form is there; refuses one that holds other changes.
fn check_changes<S: Store>(
    alloc: Global,
    store: &mut S,
    dir: &str,
    number: u32,
    form: Form,
    batch: &Batch,
) -> Result<bool, RunFault>
    requires { number ≤ max_sequence }
    ensures there { IfOk result (IsComparedIn (S.state store.old) dir.now number form batch.now) }
    ensures stops { IfErr result (FileDiffersIn (S.state store.old) dir.now number (suffix_of form)
        (λ told. IsAbsentOr told (HoldsChanges form batch.now))) }
    ensures frame { Reads 1 (S.state store.old) (S.state store.new) result }
{
    let suffix = suffix(form);
    let Some(bytes) = read_of(alloc, store, dir, number, suffix, MAX_FILE as u64)? else {
        return Ok(false);
    };
    check_bytes(alloc, form, bytes.as_slice(), number, batch)?;
    Ok(true)
}

fn check_bytes(
    alloc: Global,
    form: Form,
    bytes: &[u8],
    number: u32,
    batch: &Batch,
) -> Result<(), RunFault>
    requires { length bytes.now ≤ max_file }
    ensures spelled { OnOk result (HoldsChanges form batch.now bytes.now) }
    ensures stops { IfErr result (BytesDiffer number (HoldsChanges form batch.now bytes.now)) }
{
    let held = match read_form(alloc, form, bytes) {
        Ok(held) => held,
        Err(FormError::WantOfMemory) => return Err(RunFault::WantOfMemory),
        Err(FormError::TooLarge) => unreachable!(),
        Err(FormError::Fault { place: _, why: _ }) => return Err(RunFault::Differs(number)),
    };
    if !are_same(&held, batch) {
        return Err(RunFault::Differs(number));
    }
    Ok(())
}

// A file of the number, if it is there; one over its limit differs.
fn read_of<S: Store>(
    alloc: Global,
    store: &mut S,
    dir: &str,
    number: u32,
    suffix: Suffix,
    limit: u64,
) -> Result<Option<Vec<u8>>, RunFault>
    requires { number ≤ max_sequence }
    ensures read { IfOk result (TellsIn (S.state store.old) (file_name_of dir.now number suffix)) }
    ensures within { IfOk result (IsWithin limit) }
    ensures stops { IfErr result (OverDiffersIn (S.state store.old) dir.now number suffix limit) }
    ensures frame { Reads 1 (S.state store.old) (S.state store.new) result }
{
    let name = file_name(alloc, dir, number, suffix)?;
    let file = FileName::Sequence(number, suffix);
    match read_file(alloc, store, file, name.as_str(), limit) {
        Ok(bytes) => Ok(bytes),
        Err(RunFault::TooLarge(_)) => Err(RunFault::Differs(number)),
        Err(fault) => Err(fault),
    }
}
