//! Whole files: what change files and data files have in common.

ghost use Rattle.std.specs.Prelude.{◌≡◌, ◌∷◌, [], ◌++◌, ◌≤◌, ◌*◌, length, IfOk, OnOk, IfErr};
ghost use Rattle.std.specs.Prelude.{vec_capacity};
ghost use Rattle.osm_model.specs.ChangeForm.{ReadStops};
ghost use Rattle.osm_model.specs.Limits.{max_file};
ghost use Rattle.osm_o5c.specs.Datasets.{new_reader};
ghost use Rattle.osm_o5c.specs.File.{FaultIn, SpellsFile, end_byte};
ghost use Rattle.osm_o5c.specs.Written.{WriteStops, file_text, objects_text};

use crate::datasets::END;
use crate::reader::Reader;
use crate::writer::Writer;
use osm_model::change::Change;
use osm_model::files::{FileLimits, WriteError};
use osm_model::form::{FormError, Why};
use osm_model::limits::MAX_FILE;
use osm_reading::refusal::Refusal;
use std::alloc::Global;

// The most changes for which room is made at once.
const MOST_AT_ONCE: usize = 131_072;

// No changes, with room for as many as the bytes have if each takes 16 of them, so that the list
// needn't grow while it is read. If memory is refused for it, there is no room yet.
fn room_for_changes(alloc: Global, bytes: &[u8]) -> Vec<Change>
    ensures none { result.items ≡ [] }
    ensures room { vec_capacity result ≤ 131072 }
    ensures few { vec_capacity result * 16 ≤ length bytes.now }
{
    match Vec::with_capacity(alloc, (bytes.len() / 16).min(MOST_AT_ONCE)) {
        Ok(changes) => changes,
        Err(_) => Vec::new(alloc),
    }
}

/// Reads the changes of a file that begins with `start`, within the limits of `F`.
pub fn read_changes<F: FileLimits>(
    alloc: Global,
    start: &[u8],
    bytes: &[u8],
) -> Result<Vec<Change>, FormError>
    ensures spelled { IfOk result (λ v. SpellsFile start.now F.limits bytes.now v.items) }
    ensures right { IfOk result (λ v. F.limits v.items) }
    ensures small { OnOk result (length bytes.now ≤ max_file) }
    ensures refused { IfErr result (ReadStops (SpellsFile start.now F.limits)
        (FaultIn start.now F.limits) bytes.now) }
{
    if bytes.len() > MAX_FILE {
        return Err(FormError::TooLarge);
    }
    let mut changes = room_for_changes(alloc, bytes);
    match add_all::<F>(alloc, start, bytes, &mut Reader::new(), &mut changes) {
        Ok(()) => Ok(changes),
        Err(error) => {
            drop(changes);
            Err(error)
        }
    }
}

// Reads all changes of a file that has this beginning.
fn add_all<'a, F: FileLimits>(
    alloc: Global,
    start: &[u8],
    bytes: &'a [u8],
    reader: &mut Reader<'a>,
    changes: &mut Vec<Change>,
) -> Result<(), FormError>
    requires small { length bytes.now ≤ max_file }
    requires new { reader.old ≡ new_reader }
    requires none { changes.old.items ≡ [] }
    ensures spelled { OnOk result (SpellsFile start.now F.limits bytes.now changes.new.items) }
    ensures right { OnOk result (F.limits changes.new.items) }
    ensures refused { IfErr result (ReadStops (SpellsFile start.now F.limits)
        (FaultIn start.now F.limits) bytes.now) }
{
    F::laws();
    let Some(mut rest) = bytes.strip_prefix(start) else {
        return Err(FormError::Fault {
            place: 0,
            why: Why::BadHeader,
        });
    };
    'datasets: while !rest.is_empty() && rest[0] != END {
        match reader.next::<F>(alloc, changes, rest) {
            Ok(after) => {
                rest = after;
            }
            Err(Refusal::WantOfMemory) => return Err(FormError::WantOfMemory),
            Err(Refusal::Fault(why)) => {
                let place = (bytes.len() - rest.len()) as u64;
                return Err(FormError::Fault { place, why });
            }
        }
    }
    if rest.is_empty() {
        let place = bytes.len() as u64;
        return Err(FormError::Fault {
            place,
            why: Why::Truncated,
        });
    }
    if rest.len() == 1 {
        return Ok(());
    }
    let place = (bytes.len() - rest.len()) as u64 + 1;
    Err(FormError::Fault {
        place,
        why: Why::TrailingBytes,
    })
}

// For how many changes room is made: for all of them, but for no more than fit into `most` bytes at
// the usual size of 32.
fn changes_within(changes: usize, most: usize) -> usize
    ensures all { result ≤ changes }
    ensures fit { 32 * result ≤ most }
{
    changes.min(most / 32)
}

/// Writes the text of a file that begins with `start`, if the text has at most `most` bytes. Stops
/// as too large soon after the text exceeds `most`.
pub fn write_changes(
    alloc: Global,
    start: &[u8],
    changes: &[Change],
    most: usize,
) -> Result<Vec<u8>, WriteError>
    ensures text { IfOk result (λ v. v.items ≡ file_text start.now changes.now) }
    ensures small { IfOk result (λ v. length v.items ≤ most) }
    ensures refused { IfErr result (WriteStops most (file_text start.now changes.now)) }
{
    let room = changes_within(changes.len(), most);
    let Ok(mut writer) = Writer::new(alloc, start, room) else {
        return Err(WriteError::WantOfMemory);
    };
    match append_all(&mut writer, changes, most) {
        Ok(()) => Ok(writer.out),
        Err(error) => {
            drop(writer);
            Err(error)
        }
    }
}

// Appends all changes and the end byte.
fn append_all(writer: &mut Writer, changes: &[Change], most: usize) -> Result<(), WriteError>
    ensures text { OnOk result (writer.new.out.items ≡ writer.old.out.items
        ++ objects_text writer.old.kind writer.old.state changes.now ++ end_byte ∷ []) }
    ensures small { OnOk result (length writer.new.out.items ≤ most) }
    ensures refused { IfErr result (WriteStops most (writer.old.out.items
        ++ objects_text writer.old.kind writer.old.state changes.now ++ end_byte ∷ [])) }
{
    for change in changes {
        if writer.write_change(change).is_err() {
            return Err(WriteError::WantOfMemory);
        }
        if writer.out.len() > most {
            return Err(WriteError::TooLarge);
        }
    }
    if writer.out.push(END).is_err() {
        return Err(WriteError::WantOfMemory);
    }
    if writer.out.len() > most {
        return Err(WriteError::TooLarge);
    }
    Ok(())
}
