//! A tally of the changes of a range of numbers of a folder.

ghost use Rattle.std.specs.Prelude.{◌≡◌, IfErr, IfOk, List};
ghost use Rattle.osm_blocks.specs.Frames.{ReadsOften};
ghost use Rattle.osm_model.specs.Change.{ChangeValue};
ghost use Rattle.osm_range.specs.Ranges.{RangeStops};
ghost use Rattle.osm_runs.specs.Runs.{IsDeviceFault};
ghost use Rattle.osm_store.specs.Frames.{IsKnown};
ghost use Rattle.osm_range.specs.Runs.{IsTable, IsTallied, table_text};
ghost use Rattle.osm_range.specs.Steps.Counting.{Counts, names_in};

use crate::columns::Columns;
use crate::csv::csv_of;
use crate::json::write_json;
use crate::range::{Range, Reached, read_range};
use crate::table::Table;
use osm_model::memory::WantOfMemory;
use osm_runs::fault::RunFault;
use osm_runs::options::Layout;
use osm_store::store::Store;
use std::alloc::Global;

/// What a tally came to.
#[derive(Drop)]
pub struct Tallied {
    /// The rows, for standard output: CSV with a head line, or an object of JSON a line.
    pub text: Vec<u8>,
    /// How far the range was read.
    pub reached: Reached,
}

/// Counts the changes of a range of numbers of a folder by these columns: a row for each
/// combination that some change has, rising by the columns as they stand. Before its counts a row
/// has for `day` the day of the change's own time in UTC, as `YYYY-MM-DD`; for `user` two columns,
/// the number and the last name that the user had in the range; for `changeset` its number; for
/// `kind` one of `n`, `w` and `r`. The counts are the changes that created an object (version 1),
/// modified it (a later version) and deleted it (whatever the version), and the different
/// changesets. The user 2147483647 is named `anonymous`.
///
/// The rows are those of the numbers that were read, also if the reading ended before a missing or
/// a faulty number. The range is refused as `read_range` refuses it. In memory are the rows, which
/// changesets each of them has, the last name of each user, and the changes of one number.
#[tactic(auto, using(crate::proofs::RowLemmas::no_memory, crate::proofs::RowLemmas::tallied_of))]
pub fn tally_run<S: Store>(
    alloc: Global,
    store: &mut S,
    dir: &str,
    range: Range,
    columns: Columns,
    layout: Layout,
) -> Result<Tallied, RunFault>
    ensures tallied { IfOk result (λ tallied. IsTallied (IsKnown (S.state store.old))
        (S.state store.old).files dir.now range layout columns tallied.text.items tallied.reached) }
    ensures stops { IfErr result
        (RangeStops (IsKnown (S.state store.old)) (S.state store.old).files dir.now range) }
    ensures frame { ReadsOften IsDeviceFault (S.state store.old) (S.state store.new) result }
{
    let mut table = Table::new(alloc, columns);
    let reached = match read_range(alloc, store, dir, range, &mut table) {
        Ok(reached) => reached,
        Err(fault) => return Err(fault),
    };
    match text_of(alloc, &table, layout) {
        Ok(text) => Ok(Tallied { text, reached }),
        Err(WantOfMemory) => Err(RunFault::WantOfMemory),
    }
}

// The rows of a table as a text.
#[tactic(auto, using(crate::proofs::RowLemmas::table_of))]
fn text_of(alloc: Global, table: &Table, layout: Layout) -> Result<Vec<u8>, WantOfMemory>
    ensures { IfOk result (λ text. (changes : List ChangeValue) → Counts changes table.now
        → IsTable layout table.now.columns changes text.items) }
{
    table.limits();
    rows_text(alloc, table, layout)
}

fn rows_text(alloc: Global, table: &Table, layout: Layout) -> Result<Vec<u8>, WantOfMemory>
    ensures { IfOk result (λ text. text.items ≡ table_text layout table.now.columns
        (names_in table.now.names) table.now.rows.entries) }
{
    let mut text = Vec::new(alloc);
    match layout {
        Layout::Lines => text = csv_of(alloc, table)?,
        Layout::Json => write_json(alloc, table, &mut text)?,
    }
    Ok(text)
}
