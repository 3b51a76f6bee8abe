//! What the journal of a save lays over it.

ghost use Rattle.std.specs.Prelude.{IfErr, IfOk, OnOk};
ghost use Rattle.osm_kept.specs.Laying.{LaysOver};
ghost use Rattle.osm_kept.specs.Names.{journal_name_of};
ghost use Rattle.osm_kept.specs.Refusal.{HasNoOther};
ghost use Rattle.osm_runs.specs.Runs.{IsDeviceFault};
ghost use Rattle.osm_store.specs.Frames.{IsKnown, ReadsBetween};
ghost use Rattle.osm_asking.specs.Steps.Laying.{IsLaidOn};
ghost use Rattle.osm_asking.specs.Stopping.{SumStops};

use osm_kept::laid::{Laid, read_laid};
use osm_runs::fault::{FileName, RunFault};
use osm_runs::kept::kept_fault;
use osm_store::store::Store;
use std::alloc::Global;

/// Reads what the journal of a save lays over it; the save has to be there.
pub(crate) fn laid_of_save<S: Store>(
    alloc: Global,
    store: &mut S,
    save: &str,
) -> Result<Laid, RunFault>
    ensures laid { IfOk result (λ laid. IsKnown (S.state store.old)
        → LaysOver ((S.state store.old).files save.now)
        ((S.state store.old).files (journal_name_of save.now)) laid) }
    ensures free { OnOk result (IsKnown (S.state store.old)
        → HasNoOther ((S.state store.old).files save.now)
        ((S.state store.old).files (journal_name_of save.now))) }
    ensures fits { IfOk result
        (IsLaidOn (IsKnown (S.state store.old)) ((S.state store.old).files save.now)) }
    ensures stops { IfErr result (SumStops (IsKnown (S.state store.old)) save.now
        (S.state store.old).files) }
    ensures frame { ReadsBetween IsDeviceFault 2 4 (S.state store.old) (S.state store.new) result }
{
    match read_laid(alloc, store, save) {
        Ok(Some(laid)) => Ok(laid),
        Ok(None) => Err(RunFault::Absent(FileName::Save)),
        Err(fault) => Err(kept_fault(fault)),
    }
}
