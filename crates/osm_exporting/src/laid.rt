//! A save with net changes laid over its objects, written as a data file.

ghost use Rattle.std.specs.Prelude.{◌≡◌, ◌↔◌, ◌+◌, ◌≤◌, [], ℕ, List, None, Some};
ghost use Rattle.std.specs.Prelude.{IfErr, IsTrue, OnErr, OnOk};
ghost use Rattle.osm_model.specs.Limits.{max_sequence};
ghost use Rattle.osm_blocks.specs.Calls.{Advances};
ghost use Rattle.osm_blocks.specs.Frames.{ReadsOften};
ghost use Rattle.osm_blocks.specs.Places.{HasFile};
ghost use Rattle.osm_merge.specs.Frames.{ReplacesOften};
ghost use Rattle.osm_store.specs.Files.{Puts, Spends};
ghost use Rattle.osm_store.specs.Frames.{IsKnown, MakesAtMost};
ghost use Rattle.osm_runs.specs.DataForms.{data_text_of};
ghost use Rattle.osm_runs.specs.Runs.{IsDeviceFault};
ghost use Rattle.osm_exporting.specs.Steps.Copying.{Copies, IsAllRead, IsOfOutput, IsStaged};
ghost use Rattle.osm_exporting.specs.Steps.Copying.{OutputStops, PassStops, StageStops};
ghost use Rattle.osm_exporting.specs.Steps.Copying.{all_in, copies_ahead};
ghost use Rattle.osm_exporting.specs.Steps.Laying.{Exports, LaidStops, LaysOn, laid_calls};
ghost use Rattle.osm_exporting.specs.Steps.Laying.{staged_calls, written_calls};

use crate::copy::copy_form;
use crate::objects::{SavedObjects, open_objects, pass_rest};
use osm_kept::laid::Laid;
use osm_merge::opening::Opening;
use osm_merged::laws::laws_of_merged_saves;
use osm_runs::check::check;
use osm_runs::data_form::DataForm;
use osm_runs::fault::{FileName, RunFault};
use osm_store::store::{Store, StoreError};
use std::alloc::Global;

/// Writes the objects of a save with net changes laid over them to a data file. If the output can't
/// be written, the save is still checked as a whole, since a fault of the save comes first.
pub(crate) fn export_laid<S: Store>(
    alloc: Global,
    store: &mut S,
    save: &str,
    output: &str,
    form: DataForm,
    laid: &Laid,
) -> Result<(), RunFault>
    requires { LaysOn (S.state store.old) save.now laid.now }
    ensures { Exports LaidStops laid_calls (S.state store.old) (S.state store.new) save.now
        output.now form laid.now result }
{
    match export_objects(alloc, store, save, output, form, laid) {
        Ok(()) => Ok(()),
        Err(fault) => {
            if !is_of_output(&fault) {
                return Err(fault);
            }
            match check(alloc, store, save) {
                Ok(()) => Err(fault),
                Err(found) => Err(found),
            }
        }
    }
}

// Whether a fault is one of the output, which can come before the last line of the save was read.
fn is_of_output(fault: &RunFault) -> bool
    ensures { IsTrue result ↔ IsOfOutput fault.now }
{
    matches!(fault, RunFault::WriteFault(_))
}

// Writes the objects, while all of the save is read and checked. A file that was begun is dropped
// after a fault.
fn export_objects<S: Store>(
    alloc: Global,
    store: &mut S,
    save: &str,
    output: &str,
    form: DataForm,
    laid: &Laid,
) -> Result<(), RunFault>
    requires { LaysOn (S.state store.old) save.now laid.now }
    ensures exported { Exports StageStops written_calls (S.state store.old) (S.state store.new)
        save.now output.now form laid.now result }
    ensures dropped { OnErr result
        (IsKnown (S.state store.old) → (S.state store.new).stage ≡ None) }
{
    match write_output(alloc, store, save, output, form, laid) {
        Ok(()) => Ok(()),
        Err(fault) => {
            store.abandon();
            Err(fault)
        }
    }
}

// Begins the output, writes the objects to it, and puts it into its place.
fn write_output<S: Store>(
    alloc: Global,
    store: &mut S,
    save: &str,
    output: &str,
    form: DataForm,
    laid: &Laid,
) -> Result<(), RunFault>
    requires { LaysOn (S.state store.old) save.now laid.now }
    ensures { Exports StageStops written_calls (S.state store.old) (S.state store.new) save.now
        output.now form laid.now result }
{
    match stage_output(alloc, store, save, output, form, laid) {
        Ok(()) => {}
        Err(fault) => return Err(fault),
    }
    match commit(store) {
        Ok(()) => Ok(()),
        Err(fault) => Err(fault),
    }
}

// Begins the output, and writes the objects to it. All of the save was read then.
fn stage_output<S: Store>(
    alloc: Global,
    store: &mut S,
    save: &str,
    output: &str,
    form: DataForm,
    laid: &Laid,
) -> Result<(), RunFault>
    requires { LaysOn (S.state store.old) save.now laid.now }
    ensures staged { OnOk result (IsKnown (S.state store.old)
        → IsStaged ((S.state store.old).files save.now) output.now form
        laid.now.lists.objects.items (S.state store.new).stage) }
    ensures stops { IfErr result (StageStops (IsKnown (S.state store.old))
        ((S.state store.old).files save.now)) }
    ensures frame { ReadsOften IsDeviceFault (S.state store.old) (S.state store.new) result }
    ensures spends { OnOk result (Spends 2 (S.state store.old).left (S.state store.new).left) }
    ensures calls { IsKnown (S.state store.old) → MakesAtMost IsDeviceFault
        (staged_calls ((S.state store.old).files save.now) laid.now)
        (S.state store.old) (S.state store.new) result }
{
    laws_of_merged_saves();
    let (mut objects, opening) = match open_objects(alloc, store, save, laid) {
        Ok(opened) => opened,
        Err(fault) => return Err(fault),
    };
    match begin(alloc, store, output) {
        Ok(()) => {}
        Err(fault) => return Err(fault),
    }
    match write_objects(alloc, store, save, &opening, &mut objects, form) {
        Ok(()) => Ok(()),
        Err(fault) => Err(fault),
    }
}

// Writes the objects that are ahead to the file that was begun, and reads what follows them.
fn write_objects<S: Store>(
    alloc: Global,
    store: &mut S,
    save: &str,
    opening: &Opening,
    objects: &mut SavedObjects<'_>,
    form: DataForm,
) -> Result<(), RunFault>
    requires number { opening.now.head.number ≤ max_sequence }
    requires base { opening.now.head.base ≤ opening.now.head.number }
    ensures written { OnOk result (Copies (S.state store.old) (S.state store.new)
        (λ values. (file : List ℕ) → HasFile (S.state store.old) save.now file
        → IsAllRead opening.now objects.old file values) (data_text_of form)) }
    ensures stops { IfErr result (PassStops (S.state store.old) save.now
        (λ file. all_in opening.now objects.old file ≡ None)) }
    ensures frame { ReadsOften IsDeviceFault (S.state store.old) (S.state store.new) result }
    ensures calls { (file : List ℕ) → HasFile (S.state store.old) save.now file
        → Advances IsDeviceFault (copies_ahead objects.old file + 1) (λ _. 0)
        (S.state store.old) (S.state store.new) result }
{
    let filter = &opening.filter;
    match copy_form(alloc, store, save, filter, objects, form) {
        Ok(()) => {}
        Err(fault) => return Err(fault),
    }
    match pass_rest(alloc, store, save, opening, objects) {
        Ok(()) => Ok(()),
        Err(fault) => Err(fault),
    }
}

// Begins the output.
fn begin<S: Store>(alloc: Global, store: &mut S, output: &str) -> Result<(), RunFault>
    ensures begun { OnOk result (IsKnown (S.state store.old)
        → (S.state store.new).stage ≡ Some (output.now, [])) }
    ensures stops { IfErr result OutputStops }
    ensures frame { ReadsOften IsDeviceFault (S.state store.old) (S.state store.new) result }
    ensures spends { OnOk result (Spends 1 (S.state store.old).left (S.state store.new).left) }
    ensures calls { MakesAtMost IsDeviceFault 1 (S.state store.old) (S.state store.new) result }
{
    match store.begin(alloc, output) {
        Ok(()) => Ok(()),
        Err(StoreError::Device) => Err(RunFault::WriteFault(FileName::Output)),
        Err(StoreError::TooLarge) => unreachable!(),
        Err(StoreError::WantOfMemory) => Err(RunFault::WantOfMemory),
    }
}

// Puts the file that was begun into its place.
fn commit<S: Store>(store: &mut S) -> Result<(), RunFault>
    ensures put { OnOk result (IsKnown (S.state store.old) → (name text : List ℕ)
        → (S.state store.old).stage ≡ Some (name, text)
        → Puts (S.state store.old).files name (Some text) (S.state store.new).files) }
    ensures stops { IfErr result OutputStops }
    ensures frame { ReplacesOften IsDeviceFault (S.state store.old) (S.state store.new) result }
    ensures calls { MakesAtMost IsDeviceFault 1 (S.state store.old) (S.state store.new) result }
{
    match store.commit() {
        Ok(()) => Ok(()),
        Err(StoreError::Device) => Err(RunFault::WriteFault(FileName::Output)),
        Err(StoreError::TooLarge) => unreachable!(),
        Err(StoreError::WantOfMemory) => Err(RunFault::WantOfMemory),
    }
}
