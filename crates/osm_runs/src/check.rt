//! Whether a save is a save text.

ghost use Rattle.std.specs.Prelude.{IfErr, OnOk};
ghost use Rattle.osm_store.specs.Files.{Spends};
ghost use Rattle.osm_store.specs.Frames.{IsKnown, MakesAtMost};
ghost use Rattle.osm_blocks.specs.Frames.{ReadsOften};
ghost use Rattle.osm_merge.specs.Calls.{bytes_in, check_calls};
ghost use Rattle.osm_runs.specs.Runs.{IsDeviceFault};
ghost use Rattle.osm_runs.specs.Checking.{IsSaveText, ReadStops};

use crate::fault::RunFault;
use crate::save_fault::read_fault;
use osm_merge::check::check_save;
use osm_store::store::Store;
use std::alloc::Global;

/// Checks that a save is a save text, line by line and in blocks. The save has to be there. No file
/// changes.
pub fn check<S: Store>(alloc: Global, store: &mut S, save: &str) -> Result<(), RunFault>
    ensures checked { OnOk result (IsKnown (S.state store.old)
        → IsSaveText ((S.state store.old).files save.now)) }
    ensures stops { IfErr result (ReadStops (IsKnown (S.state store.old))
        ((S.state store.old).files save.now)) }
    ensures frame { ReadsOften IsDeviceFault (S.state store.old) (S.state store.new) result }
    ensures spends { OnOk result (Spends 1 (S.state store.old).left (S.state store.new).left) }
    ensures calls { IsKnown (S.state store.old) → MakesAtMost IsDeviceFault
        (check_calls (bytes_in ((S.state store.old).files save.now)))
        (S.state store.old) (S.state store.new) result }
{
    match check_save(alloc, store, save) {
        Ok(_checked) => Ok(()),
        Err(fault) => Err(read_fault(fault)),
    }
}
