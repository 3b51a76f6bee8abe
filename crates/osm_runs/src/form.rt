//! The form of a change file, which its name says, and conversion between forms.

ghost use Rattle.std.specs.Prelude.{◌≡◌, ◌≤◌, Some, IfSome, IfNone, IfOk, OnOk, IfErr, length};
ghost use Rattle.osm_model.specs.Limits.{max_file};
ghost use Rattle.osm_runs.specs.Forms.{BytesStop, Converts, HasEnd, FormReadStops, HasNoForm};
ghost use Rattle.osm_runs.specs.Forms.{FormWriteStops};
ghost use Rattle.osm_runs.specs.Forms.{spells_of, suffix_of, text_of};
ghost use Rattle.osm_runs.specs.declared.form.Form.{Form};

use crate::fault::{FileName, RunFault};
use osm_model::batch::Batch;
use osm_model::form::{ChangeForm, FormError};
use osm_o5c::o5c::O5c;
use osm_opl::opl::Opl;
use osm_state::paths::Suffix;
use std::alloc::Global;

/// The two forms of change files.
#[derive(Clone, Copy, Debug, PartialEq, Eq)]
pub enum Form {
    /// `.opl`
    Opl,
    /// `.o5c`
    O5c,
}

/// Gives the form of a change file by the ending of its name, `.opl` or `.o5c`; None for any other
/// ending.
pub fn form_of(name: &str) -> Option<Form>
    ensures found { IfSome result (HasEnd name.now) }
    ensures only { (form : Form) → HasEnd name.now form → result ≡ Some form }
    ensures none { IfNone result (HasNoForm name.now) }
{
    let bytes = name.as_bytes();
    if bytes.ends_with(b".opl") {
        return Some(Form::Opl);
    }
    if bytes.ends_with(b".o5c") {
        return Some(Form::O5c);
    }
    None
}

/// Converts the bytes of a change file from one form to another. The bytes are dropped before the
/// new text is written, so that the two are never in memory at once. A fault is that of the input,
/// unless the output would have more than 64 MiB.
pub fn convert(alloc: Global, from: Form, to: Form, bytes: Vec<u8>) -> Result<Vec<u8>, RunFault>
    ensures converted { IfOk result (λ text. Converts from to bytes.items text.items) }
    ensures refused { IfErr result (BytesStop from to bytes.items) }
{
    let read = read_form(alloc, from, bytes.as_slice());
    drop(bytes);
    let batch = match read {
        Ok(batch) => batch,
        Err(FormError::WantOfMemory) => return Err(RunFault::WantOfMemory),
        Err(FormError::TooLarge) => return Err(RunFault::TooLarge(FileName::Input)),
        Err(FormError::Fault { place, why }) => {
            return Err(RunFault::BadChange(FileName::Input, place, why));
        }
    };
    match write_form(alloc, to, &batch) {
        Ok(text) => Ok(text),
        Err(FormError::WantOfMemory) => Err(RunFault::WantOfMemory),
        Err(FormError::TooLarge) => Err(RunFault::TooLarge(FileName::Output)),
        Err(FormError::Fault { place: _, why: _ }) => unreachable!(),
    }
}

/// Reads the bytes of a change file in this form, of at most 64 MiB, and gives their batch of
/// changes.
pub fn read_form(alloc: Global, form: Form, bytes: &[u8]) -> Result<Batch, FormError>
    ensures spelled { IfOk result (λ batch. spells_of form bytes.now batch) }
    ensures small { OnOk result (length bytes.now ≤ max_file) }
    ensures refused { IfErr result (FormReadStops form bytes.now) }
{
    match form {
        Form::Opl => Opl::read(alloc, bytes),
        Form::O5c => O5c::read(alloc, bytes),
    }
}

fn write_form(alloc: Global, form: Form, batch: &Batch) -> Result<Vec<u8>, FormError>
    ensures text { IfOk result (λ text. text.items ≡ text_of form batch.now) }
    ensures small { IfOk result (λ text. length text.items ≤ max_file) }
    ensures refused { IfErr result (FormWriteStops form batch.now) }
{
    match form {
        Form::Opl => Opl::write(alloc, batch),
        Form::O5c => O5c::write(alloc, batch),
    }
}

/// The suffix of a sequence's file of changes in that form.
pub fn suffix(form: Form) -> Suffix
    ensures { result ≡ suffix_of form }
{
    match form {
        Form::O5c => Suffix::O5c,
        Form::Opl => Suffix::Opl,
    }
}
