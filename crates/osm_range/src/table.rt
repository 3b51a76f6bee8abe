//! A table that counts changes one after the other.

ghost use Rattle.std.specs.Prelude.{◌≡◌, ◌∷◌, ◌++◌, [], ℕ, List, OnOk, IfOk, Some, length};
ghost use Rattle.std.specs.Prelude.{None, false, if◌then◌else◌, not, true, ◌==◌};
ghost use Rattle.std.specs.BTreeMap.{get};
ghost use Rattle.std.specs.BTreeSet.{contains};
ghost use Rattle.std.specs.Ordering.{is_eq, nat_cmp};
ghost use Rattle.osm_model.specs.Change.{ChangeValue};
ghost use Rattle.osm_range.specs.Columns.{Combination, combination_cmp, combination_of};
ghost use Rattle.osm_range.specs.Steps.Counting.{Counts, HasRoom, IsBelow, counted_in, one_more};
ghost use Rattle.osm_range.specs.Columns.{same_combination};
ghost use Rattle.osm_range.specs.Steps.Counting.{has_changeset, is_changeset, pair_cmp, pair_of};
ghost use Rattle.osm_range.specs.Tally.{AreRows};

use crate::columns::{Column, Columns};
use crate::combination::{Combination, combination_of};
use crate::counted::Counted;
use osm_model::change::Change;
use osm_model::memory::WantOfMemory;
use osm_model::text::Text;
use std::alloc::Global;
use std::collections::{BTreeMap, BTreeSet};

/// The rows of the changes so far, by their combinations; which combinations and changesets came
/// together, unless the changeset is a column; and the last name of each user.
#[derive(Drop)]
pub(crate) struct Table {
    pub(crate) columns: Columns,
    pub(crate) rows: BTreeMap<Combination, Counted>,
    pub(crate) seen: BTreeSet<(Combination, u32)>,
    pub(crate) names: BTreeMap<u32, Text>,
}

impl Table {
    /// A table of no changes.
    pub(crate) fn new(alloc: Global, columns: Columns) -> Table
        ensures columns { result.columns ≡ columns }
        ensures none { Counts [] result }
    {
        Table {
            columns,
            rows: BTreeMap::new(alloc),
            seen: BTreeSet::new(alloc),
            names: BTreeMap::new(alloc),
        }
    }

    /// Counts changes. After a refusal some of them may have been counted in part.
    pub(crate) fn add_all(&mut self, alloc: Global, changes: &[Change]) -> Result<(), WantOfMemory>
        requires { HasRoom (length changes.now) self.old }
        ensures columns { self.new.columns ≡ self.old.columns }
        ensures counted { OnOk result ((before : List ChangeValue) → Counts before self.old
            → Counts (before ++ changes.now) self.new) }
    {
        for change in changes {
            self.add(alloc, change)?;
        }
        Ok(())
    }

    /// Tells the prover what the rows are; does nothing at run time.
    pub(crate) fn limits(&self)
        ensures { (changes : List ChangeValue) → Counts changes self.now
            → AreRows self.now.columns changes self.now.rows.entries }
    {
        let _rows = self.rows.iter();
    }

    fn add(&mut self, alloc: Global, change: &Change) -> Result<(), WantOfMemory>
        requires { HasRoom 1 self.old }
        ensures columns { self.new.columns ≡ self.old.columns }
        ensures counted { OnOk result ((before : List ChangeValue) → Counts before self.old
            → Counts (before ++ change.now ∷ []) self.new) }
    {
        let pair = pair_of(self.columns, change);
        let is_first = note_pair(self.columns, &mut self.seen, pair)?;
        count_in(&mut self.rows, pair.0, change, is_first)?;
        note_name(alloc, &mut self.names, change)
    }
}

// The combination and the changeset of a change.
fn pair_of(columns: Columns, change: &Change) -> (Combination, u32)
    ensures { result ≡ pair_of columns change.now }
{
    (combination_of(columns, change), change.meta().changeset())
}

// Notes that the two came together, and gives whether that is the first time. Nothing is noted if
// the changeset is a column: then each row has one changeset.
fn note_pair(
    columns: Columns,
    seen: &mut BTreeSet<(Combination, u32)>,
    pair: (Combination, u32),
) -> Result<Option<bool>, WantOfMemory>
    ensures first { IfOk result (λ first. first ≡ (if has_changeset columns then None
        else Some (not (contains pair_cmp seen.old pair)))) }
    ensures noted { OnOk result (has_changeset columns ≡ false → (p : Combination × ℕ)
        → contains pair_cmp seen.new p
        ≡ (if is_eq (pair_cmp pair p) then true else contains pair_cmp seen.old p)) }
{
    if has_changeset(columns) {
        return Ok(None);
    }
    let is_first = seen.insert(pair)?;
    Ok(Some(is_first))
}

// Whether the changeset is one of the columns.
fn has_changeset(columns: Columns) -> bool
    ensures { result ≡ has_changeset columns }
{
    is_changeset(columns.first)
        || is_changeset(columns.second)
        || is_changeset(columns.third)
        || is_changeset(columns.fourth)
}

fn is_changeset(column: Option<Column>) -> bool
    ensures { result ≡ is_changeset column }
{
    match column {
        Some(Column::Changeset) => true,
        _ => false,
    }
}

// Counts a change in the row of its combination, with one look-up.
fn count_in(
    rows: &mut BTreeMap<Combination, Counted>,
    combination: Combination,
    change: &Change,
    is_first: Option<bool>,
) -> Result<(), WantOfMemory>
    requires { IsBelow (counted_in rows.old combination) }
    ensures { OnOk result ((k : Combination) → get combination_cmp rows.new k
        ≡ (if same_combination combination k
        then Some (one_more (counted_in rows.old combination) change.now is_first)
        else get combination_cmp rows.old k)) }
{
    let row = rows.entry(combination)?.or_insert(Counted::none());
    *row = row.with(change, is_first);
    Ok(())
}

// Notes the name of the user who made a change. A short name is copied sooner than compared.
fn note_name(
    alloc: Global,
    names: &mut BTreeMap<u32, Text>,
    change: &Change,
) -> Result<(), WantOfMemory>
    ensures { OnOk result ((uid : ℕ) → get nat_cmp names.new uid
        ≡ (if change.now.meta.uid == uid then Some change.now.meta.user
        else get nat_cmp names.old uid)) }
{
    let meta = change.meta();
    let name = meta.user().copy(alloc)?;
    match names.insert(meta.uid(), name) {
        Ok(old) => {
            drop(old);
            Ok(())
        }
        Err(_) => Err(WantOfMemory),
    }
}
