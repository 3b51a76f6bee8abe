//! The first pass over a data file: counting the objects that a filter keeps.

ghost use Rattle.std.specs.Prelude.{◌≡◌, [], IfOk, OnOk};
ghost use Rattle.osm_store.specs.Frames.{IsKnown};
ghost use Rattle.osm_data.specs.Counting.{IsCountOf};
ghost use Rattle.osm_beginning.specs.Steps.Passes.{IsKept, IsRight};
ghost use Rattle.osm_beginning.specs.Steps.Storing.{CountsFirst, ReadsData};

use crate::base::{count_chosen, next_objects, open_base};
use crate::sinks::KeptCount;
use osm_data::data_reader::DataReader;
use osm_model::filter::Filter;
use osm_runs::fault::RunFault;
use osm_store::store::Store;
use std::alloc::Global;

/// Counts the objects of a data file that the filter keeps. If the filter has keys, all objects are
/// read. Otherwise no object is read, and the count may be wrong if the file isn't a data file: the
/// later reading of the objects finds its fault.
pub(crate) fn count_first<S: Store, D: DataReader + Drop>(
    alloc: Global,
    store: &mut S,
    base: &str,
    filter: &Filter,
) -> Result<u64, RunFault>
    ensures counted { IfOk result (CountsFirst D.spells filter.now base.now (S.state store.old)) }
    ensures read { OnOk result ((filter.now.keys ≡ [] → ⊥) → IsKnown (S.state store.old)
        → IsRight D.spells filter.now ((S.state store.old).files base.now)) }
    ensures reads { ReadsData D.goes_wrong D.is_long base.now
        (S.state store.old) (S.state store.new) result }
{
    D::laws();
    if filter.keys().is_empty() {
        return match count_chosen::<S, D>(alloc, store, base, filter) {
            Ok(count) => Ok(count),
            Err(fault) => Err(fault),
        };
    }
    match count_kept::<S, D>(alloc, store, base, filter) {
        Ok(count) => Ok(count),
        Err(fault) => Err(fault),
    }
}

/// Reads all objects of a data file, and counts those that the filter keeps.
pub(crate) fn count_kept<S: Store, D: DataReader + Drop>(
    alloc: Global,
    store: &mut S,
    base: &str,
    filter: &Filter,
) -> Result<u64, RunFault>
    ensures counted { IfOk result (λ count. IsKnown (S.state store.old)
        → IsKept D.spells filter.now ((S.state store.old).files base.now) (IsCountOf count)) }
    ensures reads { ReadsData D.goes_wrong D.is_long base.now
        (S.state store.old) (S.state store.new) result }
{
    let mut reader: D = match open_base(alloc, store, base) {
        Ok(reader) => reader,
        Err(fault) => return Err(fault),
    };
    let mut kept = KeptCount::new(filter);
    'batches: loop {
        match next_objects(alloc, store, base, &mut reader, &mut kept) {
            Ok(true) => {}
            Ok(false) => return Ok(kept.count),
            Err(fault) => return Err(fault),
        }
    }
}
