//! Writing changes to a file, block by block.

ghost use Rattle.std.specs.Prelude.{◌≡◌, ◌∷◌, [], List, Some, None, IfErr, OnErr, OnOk};
ghost use Rattle.osm_model.specs.Change.{ChangeValue};
ghost use Rattle.osm_blocks.specs.Frames.{ReadsOften};
ghost use Rattle.osm_merge.specs.Frames.{ReplacesOften};
ghost use Rattle.osm_store.specs.Files.{NeverTooLarge, Puts};
ghost use Rattle.osm_store.specs.Frames.{IsDevice, IsKnown};
ghost use Rattle.osm_runs.specs.Forms.{text_of};
ghost use Rattle.osm_range.specs.Steps.Rising.{changes_in_rows};
ghost use Rattle.osm_runs.specs.Filling.{Fills};

use crate::text::{O5cMaker, OplMaker, TextMaker};
use osm_model::change::Change;
use osm_model::kind::Key;
use osm_model::memory::WantOfMemory;
use osm_runs::form::Form;
use osm_store::store::{Store, StoreError};
use std::alloc::Global;

// What was made is appended as soon as it has as many bytes.
const BLOCK: usize = 65_536;

/// Replaces a file with the changes in that form. After an error all files are as they were, and a
/// file that was begun is dropped.
pub(crate) fn write_latest<S: Store>(
    alloc: Global,
    store: &mut S,
    output: &str,
    form: Form,
    changes: &[(Key, &Change)],
) -> Result<(), StoreError>
    ensures put { OnOk result (IsKnown (S.state store.old) → Puts (S.state store.old).files
        output.now (Some (text_of form (changes_in_rows changes.now))) (S.state store.new).files) }
    ensures refused { IfErr result NeverTooLarge }
    ensures dropped { OnErr result
        (IsKnown (S.state store.old) → (S.state store.new).stage ≡ None) }
    ensures frame { ReplacesOften IsDevice (S.state store.old) (S.state store.new) result }
{
    match put_latest(alloc, store, output, form, changes) {
        Ok(()) => Ok(()),
        Err(error) => {
            store.abandon();
            Err(error)
        }
    }
}

// The same, with a file that was begun left after an error.
fn put_latest<S: Store>(
    alloc: Global,
    store: &mut S,
    output: &str,
    form: Form,
    changes: &[(Key, &Change)],
) -> Result<(), StoreError>
    ensures put { OnOk result (IsKnown (S.state store.old) → Puts (S.state store.old).files
        output.now (Some (text_of form (changes_in_rows changes.now))) (S.state store.new).files) }
    ensures refused { IfErr result NeverTooLarge }
    ensures frame { ReplacesOften IsDevice (S.state store.old) (S.state store.new) result }
{
    match store.begin(alloc, output) {
        Ok(()) => {}
        Err(error) => return Err(error),
    }
    match put_form(alloc, store, form, changes) {
        Ok(()) => {}
        Err(error) => return Err(error),
    }
    match store.commit() {
        Ok(()) => Ok(()),
        Err(error) => Err(error),
    }
}

// Writes the changes to the file that was begun, in that form.
fn put_form<S: Store>(
    alloc: Global,
    store: &mut S,
    form: Form,
    changes: &[(Key, &Change)],
) -> Result<(), StoreError>
    ensures put { OnOk result (Fills (S.state store.old) (S.state store.new)
        (text_of form (changes_in_rows changes.now)) []) }
    ensures refused { IfErr result NeverTooLarge }
    ensures frame { ReadsOften IsDevice (S.state store.old) (S.state store.new) result }
{
    match form {
        Form::Opl => {
            let mut maker = OplMaker::new(alloc);
            put_all(alloc, store, changes, &mut maker)
        }
        Form::O5c => {
            let mut maker = match O5cMaker::new(alloc) {
                Ok(maker) => maker,
                Err(WantOfMemory) => return Err(StoreError::WantOfMemory),
            };
            put_all(alloc, store, changes, &mut maker)
        }
    }
}

// The same with a maker of that form.
fn put_all<S: Store, M: TextMaker>(
    alloc: Global,
    store: &mut S,
    changes: &[(Key, &Change)],
    maker: &mut M,
) -> Result<(), StoreError>
    ensures put { OnOk result (Fills (S.state store.old) (S.state store.new)
        (M.ahead maker.old (changes_in_rows changes.now)) []) }
    ensures refused { IfErr result NeverTooLarge }
    ensures frame { ReadsOften IsDevice (S.state store.old) (S.state store.new) result }
{
    for row in changes {
        match put_change(alloc, store, row.1, maker) {
            Ok(()) => {}
            Err(error) => return Err(error),
        }
    }
    match put_end(store, maker) {
        Ok(()) => Ok(()),
        Err(error) => Err(error),
    }
}

// Makes the text of a change, and appends what was made if that is a block.
fn put_change<S: Store, M: TextMaker>(
    alloc: Global,
    store: &mut S,
    change: &Change,
    maker: &mut M,
) -> Result<(), StoreError>
    ensures put { OnOk result ((changes : List ChangeValue)
        → Fills (S.state store.old) (S.state store.new)
        (M.ahead maker.old (change.now ∷ changes)) (M.ahead maker.new changes)) }
    ensures refused { IfErr result NeverTooLarge }
    ensures frame { ReadsOften IsDevice (S.state store.old) (S.state store.new) result }
{
    match maker.write(alloc, change) {
        Ok(()) => {}
        Err(WantOfMemory) => return Err(StoreError::WantOfMemory),
    }
    if maker.bytes().len() < BLOCK {
        return Ok(());
    }
    match store.append(maker.bytes()) {
        Ok(()) => {}
        Err(error) => return Err(error),
    }
    maker.clear();
    Ok(())
}

// Makes the end of the file, and appends all that was made.
fn put_end<S: Store, M: TextMaker>(store: &mut S, maker: &mut M) -> Result<(), StoreError>
    ensures put { OnOk result (Fills (S.state store.old) (S.state store.new)
        (M.ahead maker.old []) []) }
    ensures refused { IfErr result NeverTooLarge }
    ensures frame { ReadsOften IsDevice (S.state store.old) (S.state store.new) result }
{
    match maker.end() {
        Ok(()) => {}
        Err(WantOfMemory) => return Err(StoreError::WantOfMemory),
    }
    match store.append(maker.bytes()) {
        Ok(()) => Ok(()),
        Err(error) => Err(error),
    }
}
