//! The missing numbers after the one that a follower reached.

ghost use Rattle.std.specs.Prelude.{◌≡◌, ◌+◌, ◌-◌, ◌*◌, ◌≤◌, ◌↔◌, ◌++◌, ◌∷◌, [], IfErr, IfOk, OnOk};
ghost use Rattle.std.specs.Prelude.{cond, filter, length, min};
ghost use Rattle.osm_model.specs.Limits.{max_sequence};
ghost use Rattle.osm_store.specs.Frames.{IsKnown};
ghost use Rattle.osm_runs.specs.Following.{AreLostIn, MissingStopsIn, is_lost};
ghost use Rattle.osm_runs.specs.Runs.{ReadsUpTo};
ghost use Rattle.osm_runs.specs.Steps.Following.{LookStopsIn};

use crate::fault::RunFault;
use crate::fetch::lacks_files;
use osm_model::memory::WantOfMemory;
use osm_store::store::Store;
use std::alloc::Global;

// How far after the number that was reached lost numbers are named.
const WINDOW: u32 = 64;

/// Gives the missing numbers up to 64 after `reached`, which is `top` or comes just before a
/// missing number. A number is missing if it has no state file, or neither change file. No file is
/// read; only which files are there is asked.
pub fn missing<S: Store>(
    alloc: Global,
    store: &mut S,
    dir: &str,
    reached: u32,
    top: u32,
) -> Result<Vec<u32>, RunFault>
    requires until { reached ≤ top }
    requires most { top ≤ max_sequence }
    ensures missing { IfOk result (AreLostIn (S.state store.old) dir.now reached top) }
    ensures gap { IfOk result (λ missing. (missing.items ≡ []) ↔ (reached ≡ top)) }
    ensures stops { IfErr result (MissingStopsIn (S.state store.old) dir.now reached top) }
    ensures frame { ReadsUpTo (3 * (top - (reached + 1)))
        (S.state store.old) (S.state store.new) result }
{
    if reached == top {
        return Ok(Vec::new(alloc));
    }
    let mut missing = first_lost(alloc, reached + 1)?;
    let last = window_end(reached, top);
    for before in reached + 1..last {
        match look(alloc, store, dir, before + 1, &mut missing) {
            Ok(()) => {}
            Err(stop) => return Err(stop),
        }
    }
    Ok(missing)
}

// The last number that is looked for.
fn window_end(reached: u32, top: u32) -> u32
    requires { reached ≤ max_sequence }
    ensures { result ≡ min top (reached + 64) }
{
    top.min(reached + WINDOW)
}

fn first_lost(alloc: Global, number: u32) -> Result<Vec<u32>, WantOfMemory>
    ensures { IfOk result (λ missing. missing.items ≡ number ∷ []) }
{
    let mut missing = Vec::new(alloc);
    missing.push(number)?;
    Ok(missing)
}

// Adds the number if it is lost.
fn look<S: Store>(
    alloc: Global,
    store: &mut S,
    dir: &str,
    number: u32,
    missing: &mut Vec<u32>,
) -> Result<(), RunFault>
    requires most { number ≤ max_sequence }
    ensures looked { OnOk result (IsKnown (S.state store.old) → missing.new.items
        ≡ missing.old.items ++ filter (is_lost (S.state store.old).files dir.now) (number ∷ [])) }
    ensures more { OnOk result (length missing.old.items ≤ length missing.new.items) }
    ensures stops { IfErr result (LookStopsIn (S.state store.old) dir.now number) }
    ensures frame { ReadsUpTo 3 (S.state store.old) (S.state store.new) result }
{
    let lost = lacks_files(alloc, store, dir, number)?;
    note_lost(lost, number, missing)?;
    Ok(())
}

fn note_lost(lost: bool, number: u32, missing: &mut Vec<u32>) -> Result<(), WantOfMemory>
    ensures { OnOk result (missing.new.items ≡ missing.old.items ++ cond lost (number ∷ []) []) }
{
    if lost {
        missing.push(number)?;
    }
    Ok(())
}
