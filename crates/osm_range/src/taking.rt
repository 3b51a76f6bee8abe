//! A table takes the changes of the numbers of a range.

use crate::table::Table;
use crate::taker::NumberTaker;
use osm_model::change::Change;
use osm_model::memory::WantOfMemory;
use std::alloc::Global;

impl NumberTaker for Table {
    ghost use Rattle.osm_range.specs.Ranges.{changes_in};
    ghost use Rattle.osm_range.specs.Steps.Counting.{Counts};
    ghost use Rattle.osm_range.specs.declared.columns.Columns.{Columns};

    ghost holds = { λ table sequences. Counts (changes_in sequences) table };

    ghost Settings = { Columns };

    ghost settings = { λ table. table.columns };

    #[tactic(auto, using(crate::proofs::RowLemmas::counts_taken))]
    fn take(
        &mut self,
        alloc: Global,
        _number: u32,
        _time: u32,
        changes: Vec<Change>,
    ) -> Result<(), WantOfMemory> {
        self.add_all(alloc, changes.as_slice())
    }
}
