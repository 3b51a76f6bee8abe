//! The objects of a save after net changes, written to a data file that was begun.

ghost use Rattle.std.specs.Prelude.{◌≡◌, ◌++◌, ◌∷◌, ℕ, List, [], IfErr, OnOk};
ghost use Rattle.osm_model.specs.Change.{ChangeValue};
ghost use Rattle.osm_blocks.specs.Frames.{ReadsOften};
ghost use Rattle.osm_opl.specs.Written.{line_text};
ghost use Rattle.osm_store.specs.Frames.{MakesAtMost};
ghost use Rattle.osm_runs.specs.DataForms.{data_text_of};
ghost use Rattle.osm_runs.specs.Runs.{IsDeviceFault};
ghost use Rattle.osm_runs.specs.Filling.{Fills};
ghost use Rattle.osm_exporting.specs.Steps.Copying.{CopiesAll, CopiesOne, OutputStops};

use crate::data_writer::{DataWriter, O5mWriter, OplWriter};
use crate::objects::{SavedObjects, next_object, pass_line};
use osm_model::change::Change;
use osm_model::filter::Filter;
use osm_model::memory::WantOfMemory;
use osm_runs::data_form::DataForm;
use osm_runs::fault::{FileName, RunFault};
use osm_store::store::{Store, StoreError};
use std::alloc::Global;

// What was made is appended as soon as it has as many bytes.
const BLOCK: usize = 65_536;

/// Writes the objects that are left to read to the file that was begun, in that form.
pub(crate) fn copy_form<S: Store>(
    alloc: Global,
    store: &mut S,
    save: &str,
    filter: &Filter,
    objects: &mut SavedObjects<'_>,
    form: DataForm,
) -> Result<(), RunFault>
    ensures { CopiesAll (S.state store.old) (S.state store.new) save.now filter.now
        objects.old objects.new (data_text_of form) result }
{
    match form {
        DataForm::Opl => {
            let mut writer = OplWriter::new(alloc);
            copy_objects(alloc, store, save, filter, objects, &mut writer)
        }
        DataForm::O5m => {
            let mut writer = match O5mWriter::new(alloc) {
                Ok(writer) => writer,
                Err(WantOfMemory) => return Err(RunFault::WantOfMemory),
            };
            copy_objects(alloc, store, save, filter, objects, &mut writer)
        }
    }
}

// The same with a writer of that form.
fn copy_objects<S: Store, W: DataWriter>(
    alloc: Global,
    store: &mut S,
    save: &str,
    filter: &Filter,
    objects: &mut SavedObjects<'_>,
    writer: &mut W,
) -> Result<(), RunFault>
    ensures { CopiesAll (S.state store.old) (S.state store.new) save.now filter.now
        objects.old objects.new (W.ahead writer.old) result }
{
    'objects: loop {
        match copy_next(alloc, store, save, filter, objects, writer) {
            Ok(true) => {}
            Ok(false) => return put_end(store, writer),
            Err(fault) => return Err(fault),
        }
    }
}

// Writes the next object; whether there is one. Nearly all objects are taken as lines. Less than a
// block may wait in the writer then.
fn copy_next<S: Store, W: DataWriter>(
    alloc: Global,
    store: &mut S,
    save: &str,
    filter: &Filter,
    objects: &mut SavedObjects<'_>,
    writer: &mut W,
) -> Result<bool, RunFault>
    ensures { CopiesOne (S.state store.old) (S.state store.new) save.now filter.now
        objects.old objects.new (W.ahead writer.old) (W.ahead writer.new) result }
{
    match pass_line(alloc, store, save, filter, objects, writer) {
        Ok(true) => {}
        Ok(false) => return copy_object(alloc, store, save, filter, objects, writer),
        Err(fault) => return Err(fault),
    }
    match put_block(store, writer) {
        Ok(()) => Ok(true),
        Err(fault) => Err(fault),
    }
}

// The same for an object that isn't taken as a line.
// Never inlined, since there are few of them.
#[inline(never)]
fn copy_object<S: Store, W: DataWriter>(
    alloc: Global,
    store: &mut S,
    save: &str,
    filter: &Filter,
    objects: &mut SavedObjects<'_>,
    writer: &mut W,
) -> Result<bool, RunFault>
    ensures { CopiesOne (S.state store.old) (S.state store.new) save.now filter.now
        objects.old objects.new (W.ahead writer.old) (W.ahead writer.new) result }
{
    let object = match next_object(alloc, store, save, filter, objects) {
        Ok(Some(object)) => object,
        Ok(None) => return Ok(false),
        Err(fault) => return Err(fault),
    };
    match put_object(alloc, store, writer, &object, objects.spelled.as_slice()) {
        Ok(()) => Ok(true),
        Err(fault) => Err(fault),
    }
}

// Makes the text of an object, and appends what was made if that is a block.
fn put_object<S: Store, W: DataWriter>(
    alloc: Global,
    store: &mut S,
    writer: &mut W,
    object: &Change,
    line: &[u8],
) -> Result<(), RunFault>
    requires { line.now ≡ line_text object.now }
    ensures put { OnOk result ((objects : List ChangeValue)
        → Fills (S.state store.old) (S.state store.new)
        (W.ahead writer.old (object.now ∷ objects)) (W.ahead writer.new objects)) }
    ensures stops { IfErr result OutputStops }
    ensures frame { ReadsOften IsDeviceFault (S.state store.old) (S.state store.new) result }
    ensures calls { MakesAtMost IsDeviceFault 1 (S.state store.old) (S.state store.new) result }
{
    match writer.write(alloc, object, line) {
        Ok(()) => {}
        Err(WantOfMemory) => return Err(RunFault::WantOfMemory),
    }
    put_block(store, writer)
}

// Appends what was made if that is a block.
#[inline(always)]
fn put_block<S: Store, W: DataWriter>(store: &mut S, writer: &mut W) -> Result<(), RunFault>
    ensures put { OnOk result ((objects : List ChangeValue)
        → Fills (S.state store.old) (S.state store.new)
        (W.ahead writer.old objects) (W.ahead writer.new objects)) }
    ensures stops { IfErr result OutputStops }
    ensures frame { ReadsOften IsDeviceFault (S.state store.old) (S.state store.new) result }
    ensures calls { MakesAtMost IsDeviceFault 1 (S.state store.old) (S.state store.new) result }
{
    if writer.bytes().len() < BLOCK {
        return Ok(());
    }
    match append(store, writer.bytes()) {
        Ok(()) => {}
        Err(fault) => return Err(fault),
    }
    writer.clear();
    Ok(())
}

// Makes the end of the file, and appends all that was made.
fn put_end<S: Store, W: DataWriter>(store: &mut S, writer: &mut W) -> Result<(), RunFault>
    ensures put { OnOk result (Fills (S.state store.old) (S.state store.new)
        (W.ahead writer.old []) []) }
    ensures stops { IfErr result OutputStops }
    ensures frame { ReadsOften IsDeviceFault (S.state store.old) (S.state store.new) result }
    ensures calls { MakesAtMost IsDeviceFault 1 (S.state store.old) (S.state store.new) result }
{
    match writer.end() {
        Ok(()) => {}
        Err(WantOfMemory) => return Err(RunFault::WantOfMemory),
    }
    match append(store, writer.bytes()) {
        Ok(()) => Ok(()),
        Err(fault) => Err(fault),
    }
}

// Appends bytes to the file that was begun.
fn append<S: Store>(store: &mut S, bytes: &[u8]) -> Result<(), RunFault>
    ensures appended { OnOk result ((rest : List ℕ)
        → Fills (S.state store.old) (S.state store.new) (bytes.now ++ rest) rest) }
    ensures stops { IfErr result OutputStops }
    ensures frame { ReadsOften IsDeviceFault (S.state store.old) (S.state store.new) result }
    ensures calls { MakesAtMost IsDeviceFault 1 (S.state store.old) (S.state store.new) result }
{
    match store.append(bytes) {
        Ok(()) => Ok(()),
        Err(StoreError::Device) => Err(RunFault::WriteFault(FileName::Output)),
        Err(StoreError::TooLarge) => unreachable!(),
        Err(StoreError::WantOfMemory) => Err(RunFault::WantOfMemory),
    }
}
