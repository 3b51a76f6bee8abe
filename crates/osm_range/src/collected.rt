//! What the numbers of a range come to, under a filter.

ghost use Rattle.std.specs.Prelude.{◌≡◌, []};
ghost use Rattle.osm_range.specs.Handed.{HoldsUnder};

use crate::latest::Latest;
use crate::taker::NumberTaker;
use osm_model::change::Change;
use osm_model::filter::Filter;
use osm_model::memory::WantOfMemory;
use std::alloc::Global;
use std::hash::RandomState;

/// The last change of each object, under a filter.
#[derive(Drop)]
pub(crate) struct Collected {
    pub(crate) filter: Filter,
    pub(crate) latest: Latest,
}

impl Collected {
    /// No changes.
    pub(crate) fn new(alloc: Global, filter: Filter, hashing: RandomState) -> Collected
        ensures filter { result.filter ≡ filter }
        ensures none { HoldsUnder filter [] result.latest }
    {
        Collected {
            filter,
            latest: Latest::new(alloc, hashing),
        }
    }
}

impl NumberTaker for Collected {
    ghost use Rattle.osm_model.specs.Filter.{FilterValue};
    ghost use Rattle.osm_range.specs.Handed.{HoldsUnder};

    ghost holds = { λ taker sequences. HoldsUnder taker.filter sequences taker.latest };

    ghost Settings = { FilterValue };

    ghost settings = { λ taker. taker.filter };

    fn take(
        &mut self,
        alloc: Global,
        _number: u32,
        _time: u32,
        changes: Vec<Change>,
    ) -> Result<(), WantOfMemory> {
        self.latest.take(alloc, &self.filter, changes)
    }
}
