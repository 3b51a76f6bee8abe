//! Files of lines, each of them one change: what change files and data files have in common.

ghost use Rattle.std.specs.Prelude.{◌≡◌, ◌∷◌, [], ◌++◌, ◌≤◌, ◌<◌, length};
ghost use Rattle.std.specs.Prelude.{◌*◌, IfOk, OnOk, OnErr, IfErr, vec_capacity};
ghost use Rattle.osm_model.specs.ChangeForm.{ReadStops};
ghost use Rattle.osm_model.specs.Limits.{max_file};
ghost use Rattle.osm_opl.specs.File.{FaultIn, SpellsFile};
ghost use Rattle.osm_opl.specs.Room.{LacksRoom};
ghost use Rattle.osm_opl.specs.Steps.Adding.{AddsLine, NextLineStops, WriteStops};
ghost use Rattle.osm_opl.specs.Written.{line_text, opl_text};

use crate::lines::{read_line, write_line};
use osm_model::change::Change;
use osm_model::files::{FileLimits, WriteError};
use osm_model::form::FormError;
use osm_model::limits::MAX_FILE;
use osm_model::memory::WantOfMemory;
use osm_reading::lines::{is_skipped_line, split_line};
use osm_reading::refusal::Refusal;
use std::alloc::{AllocError, Global};

// The bytes of the shortest line, with its line feed: that of a deleted way or relation.
const SHORTEST_LINE: usize = 43;

/// Writes the text of the changes. Stops soon after the text exceeds 64 MiB.
pub fn write_changes(alloc: Global, changes: &[Change]) -> Result<Vec<u8>, WriteError>
    ensures text { IfOk result (λ v. v.items ≡ opl_text changes.now) }
    ensures small { IfOk result (λ v. length v.items ≤ max_file) }
    ensures refused { IfErr result (WriteStops (opl_text changes.now)) }
{
    let Ok(mut text) = room_for_lines(alloc, changes) else {
        return Err(WriteError::WantOfMemory);
    };
    for change in changes {
        match add_change(change, &mut text) {
            Ok(()) => {}
            Err(WantOfMemory) => return Err(WriteError::WantOfMemory),
        }
        if text.len() > MAX_FILE {
            return Err(WriteError::TooLarge);
        }
    }
    Ok(text)
}

// An empty text with room for that many of the shortest lines.
fn room_for_lines(alloc: Global, changes: &[Change]) -> Result<Vec<u8>, AllocError>
    ensures none { IfOk result (λ text. text.items ≡ []) }
    ensures room { IfOk result (λ text. vec_capacity text ≤ 43 * length changes.now) }
    ensures refused { OnErr result (0 < length changes.now) }
{
    Vec::with_capacity(alloc, changes.len().saturating_mul(SHORTEST_LINE))
}

#[tactic(auto, using(crate::proofs::RoomLemmas::lacks))]
fn add_change(change: &Change, text: &mut Vec<u8>) -> Result<(), WantOfMemory>
    ensures ok { OnOk result (text.new.items
        ≡ text.old.items ++ (line_text change.now ++ 10 ∷ [])) }
    ensures refused { OnErr result (LacksRoom text.old (line_text change.now ++ 10 ∷ [])) }
{
    write_line(change, text)?;
    text.push(b'\n')?;
    Ok(())
}

/// Reads one change from each line that isn't skipped, within the limits of `F`.
pub fn read_changes<F: FileLimits>(alloc: Global, bytes: &[u8]) -> Result<Vec<Change>, FormError>
    ensures spelled { IfOk result (λ v. SpellsFile F.limits bytes.now v.items) }
    ensures small { OnOk result (length bytes.now ≤ max_file) }
    ensures refused { IfErr result
        (ReadStops (SpellsFile F.limits) (FaultIn F.limits) bytes.now) }
{
    if bytes.len() > MAX_FILE {
        return Err(FormError::TooLarge);
    }
    F::laws();
    let mut changes = Vec::new(alloc);
    let mut rest = Some(bytes);
    let mut place: u64 = 0;
    while let Some(lines) = rest {
        let (line, after) = split_line(lines);
        place += 1;
        match add_line::<F>(alloc, line, place, &mut changes) {
            Ok(()) => {}
            Err(error) => return Err(error),
        }
        rest = after;
    }
    Ok(changes)
}

// Adds the change of one more line, unless the line is skipped.
fn add_line<F: FileLimits>(
    alloc: Global,
    line: &[u8],
    place: u64,
    changes: &mut Vec<Change>,
) -> Result<(), FormError>
    requires { F.limits changes.old.items }
    ensures ok { OnOk result (AddsLine line.now changes.old.items changes.new.items) }
    ensures right { OnOk result (F.limits changes.new.items) }
    ensures refused { IfErr result (NextLineStops F.limits line.now place changes.old.items) }
{
    if is_skipped_line(line) {
        return Ok(());
    }
    let change = match read_line(alloc, line) {
        Ok(change) => change,
        Err(Refusal::WantOfMemory) => return Err(FormError::WantOfMemory),
        Err(Refusal::Fault(why)) => return Err(FormError::Fault { place, why }),
    };
    match F::check_next(changes.as_slice(), &change) {
        Ok(()) => {}
        Err(why) => return Err(FormError::Fault { place, why }),
    }
    match append(change, changes) {
        Ok(()) => Ok(()),
        Err(WantOfMemory) => Err(FormError::WantOfMemory),
    }
}

fn append(change: Change, changes: &mut Vec<Change>) -> Result<(), WantOfMemory>
    ensures { OnOk result (changes.new.items ≡ changes.old.items ++ change ∷ []) }
{
    changes.push(change)?;
    Ok(())
}
