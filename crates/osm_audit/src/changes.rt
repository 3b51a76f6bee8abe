//! What is wrong with the change files of a number.

ghost use Rattle.std.specs.Prelude.{◌≡◌, ℕ, ◌≤◌, List, Option, Some, None, IfErr, IfOk};
ghost use Rattle.std.specs.Prelude.{length};
ghost use Rattle.osm_model.specs.Limits.{max_file, max_sequence};
ghost use Rattle.osm_store.specs.Frames.{IsKnown};
ghost use Rattle.osm_runs.specs.Forms.{suffix_of};
ghost use Rattle.osm_runs.specs.Names.{file_name_of};
ghost use Rattle.osm_runs.specs.Runs.{Reads};
ghost use Rattle.osm_audit.specs.Steps.Looking.{AreChangesSaid, IsHeld, NumberStops, ReadStops};
ghost use Rattle.osm_audit.specs.Steps.Looking.{IsOplSaid, cause_in};
ghost use Rattle.osm_audit.specs.Findings.{HasChanges};
ghost use Rattle.osm_runs.specs.Folder.{IsThere};

use crate::contents::{Contents, read_numbered};
use crate::finding::Cause;
use osm_model::batch::Batch;
use osm_model::form::FormError;
use osm_model::memory::WantOfMemory;
use osm_runs::fault::{FileName, RunFault};
use osm_runs::form::{Form, read_form, suffix};
use osm_runs::same::are_same;
use osm_state::paths::Suffix;
use osm_store::store::Store;
use std::alloc::Global;

// What is said of the two change files of a number: why each is wrong, if it is.
#[derive(Clone, Copy)]
pub(crate) struct ChangesSaid {
    pub(crate) o5c: Option<Cause>,
    pub(crate) opl: Option<Cause>,
}

// What a change file holds.
#[derive(Drop)]
enum Held {
    // There is no such file.
    Absent,
    // It can't be read.
    Wrong(Cause),
    Changes(Batch),
}

// What is said of the change files of a number. The changes of both are held at once, but not the
// bytes of both.
pub(crate) fn check_changes<S: Store>(
    alloc: Global,
    store: &mut S,
    dir: &str,
    number: u32,
) -> Result<ChangesSaid, RunFault>
    requires { number ≤ max_sequence }
    ensures said { IfOk result (λ said. IsKnown (S.state store.old) → AreChangesSaid
        ((S.state store.old).files (file_name_of dir.now number Suffix.O5c))
        ((S.state store.old).files (file_name_of dir.now number Suffix.Opl)) said.o5c said.opl) }
    ensures stops { IfErr result (NumberStops number) }
    ensures frame { Reads 2 (S.state store.old) (S.state store.new) result }
{
    let o5c = read_held(alloc, store, dir, number, Form::O5c)?;
    let opl = read_held(alloc, store, dir, number, Form::Opl)?;
    Ok(say(&o5c, &opl))
}

fn read_held<S: Store>(
    alloc: Global,
    store: &mut S,
    dir: &str,
    number: u32,
    form: Form,
) -> Result<Held, RunFault>
    requires { number ≤ max_sequence }
    ensures held { IfOk result (λ held. IsKnown (S.state store.old) → IsHeld form
        ((S.state store.old).files (file_name_of dir.now number (suffix_of form))) held) }
    ensures stops { IfErr result (ReadStops (FileName.Sequence number (suffix_of form))) }
    ensures frame { Reads 1 (S.state store.old) (S.state store.new) result }
{
    match read_numbered(alloc, store, dir, number, suffix(form)) {
        Ok(Contents::Absent) => Ok(Held::Absent),
        Ok(Contents::TooLarge) => Ok(Held::Wrong(Cause::TooLarge)),
        Ok(Contents::Bytes(bytes)) => Ok(held_in(alloc, form, bytes.as_slice())?),
        Err(fault) => Err(fault),
    }
}

fn held_in(alloc: Global, form: Form, bytes: &[u8]) -> Result<Held, WantOfMemory>
    requires { length bytes.now ≤ max_file }
    ensures { IfOk result (IsHeld form (Some bytes.now)) }
{
    match read_form(alloc, form, bytes) {
        Ok(batch) => Ok(Held::Changes(batch)),
        Err(FormError::Fault { place, why }) => Ok(Held::Wrong(Cause::BadChange(place, why))),
        Err(FormError::WantOfMemory) => Err(WantOfMemory),
        Err(FormError::TooLarge) => unreachable!(),
    }
}

// What is said of the two files, from what each holds.
fn say(o5c: &Held, opl: &Held) -> ChangesSaid
    ensures { (in_o5c in_opl : Option (List ℕ)) → IsHeld Form.O5c in_o5c o5c.now
        → IsHeld Form.Opl in_opl opl.now → AreChangesSaid in_o5c in_opl result.o5c result.opl }
{
    match o5c {
        Held::Absent => say_without_o5c(opl),
        Held::Wrong(cause) => ChangesSaid {
            o5c: Some(*cause),
            opl: cause_of(opl),
        },
        Held::Changes(batch) => ChangesSaid {
            o5c: None,
            opl: compare(batch, opl),
        },
    }
}

// There is no o5c file, which is wrong only if there is no OPL file either.
fn say_without_o5c(opl: &Held) -> ChangesSaid
    ensures { (in_opl : Option (List ℕ)) → IsHeld Form.Opl in_opl opl.now
        → AreChangesSaid None in_opl result.o5c result.opl }
{
    match opl {
        Held::Absent => ChangesSaid {
            o5c: Some(Cause::Absent),
            opl: None,
        },
        _ => ChangesSaid {
            o5c: None,
            opl: cause_of(opl),
        },
    }
}

// Why a file that may be absent is wrong by itself.
fn cause_of(held: &Held) -> Option<Cause>
    ensures { result ≡ cause_in held.now }
{
    match held {
        Held::Wrong(cause) => Some(*cause),
        Held::Absent | Held::Changes(_) => None,
    }
}

// Why the OPL file is wrong beside the changes of the o5c file.
fn compare(batch: &Batch, opl: &Held) -> Option<Cause>
    ensures { (in_o5c in_opl : Option (List ℕ)) → IsThere in_o5c (HasChanges Form.O5c batch.now)
        → IsHeld Form.Opl in_opl opl.now → IsOplSaid in_o5c in_opl result }
{
    match opl {
        Held::Changes(other) if are_same(batch, other) => None,
        Held::Changes(_) => Some(Cause::Differs),
        Held::Absent | Held::Wrong(_) => cause_of(opl),
    }
}
