//! Running a list.

ghost use Rattle.std.specs.Prelude.{None, IfOk, codes};
ghost use Rattle.osm_store.specs.Stores.{files_of};
ghost use Rattle.osm_operations.specs.Correct.{IsRun};

use osm_model::filter::Filter;
use osm_model::memory::WantOfMemory;
use osm_operations::operation::Operation;
use osm_operations::world::{Outcome, Setup, run_with};
use osm_round::kept::Sizes;
use osm_store::memory_store::MemoryStore;
use std::alloc::Global;

pub(crate) const SETUP: Setup<'static> = Setup {
    dir: "dir",
    save: "save",
    changes: "changes",
    extract: "extract.opl",
    // So few bytes that short lists have large saves, journals, and journals that become too long.
    sizes: Sizes {
        small: 200,
        most: 700,
    },
};

/// The journal of the save.
pub(crate) const JOURNAL: &str = "save.journal";

/// Runs a list in a new store. The names of its files meet the premises of the main statement over
/// folders, so the statement holds for each outcome.
pub(crate) fn outcome_of(
    alloc: Global,
    filter: &Filter,
    operations: Vec<Operation>,
) -> Result<Outcome, WantOfMemory>
    ensures { IfOk result (λ r. IsRun filter.now operations.items r.replies.items
        (codes "dir") (codes "save") (codes "changes") (codes "extract.opl")
        (λ name. None) (files_of r.store)) }
{
    run_with(alloc, MemoryStore::new(alloc), &SETUP, filter, operations)
}
