//! The slots of ids.

ghost use Rattle.std.specs.Prelude.{◌≡◌, ◌∷◌, ◌↔◌, ◌++◌, [], length, None, IsTrue, MatchOption};
ghost use Rattle.std.specs.Prelude.{IfErr, IfOk, OnErr, OnOk, option_to_list, slice_get};
ghost use Rattle.std.specs.BTreeMap.{insert_entry, is_at};
ghost use Rattle.std.specs.List.{AllByRecursion};
ghost use Rattle.std.specs.List.Sorted.{IsStrictlySortedBy};
ghost use Rattle.std.specs.Map.{keys_of, lookup};
ghost use Rattle.std.specs.Ordering.{int_cmp};
ghost use Rattle.std.specs.declared.cmp.Ordering.TheVariants.{Less};
ghost use Rattle.osm_net.specs.Steps.Index.{numbered};

use osm_model::memory::WantOfMemory;
use std::alloc::Global;
use std::cmp::Ordering;
use std::collections::{BTreeMap, btree_map};
use std::marker::Model;
use std::mem::replace;

/// The slot of each id. As long as each new id is above all others, as in most change files, the
/// ids are in a list, and an id's slot is its position. After the first id that isn't, all new ids
/// go into a map.
#[derive(Debug, Drop)]
pub(crate) struct Index {
    rising: Vec<i64>,
    others: BTreeMap<i64, usize>,
}

impl Model for Index {
    ghost use Rattle.std.specs.Prelude.{ℕ, ℤ, List};
    ghost use Rattle.std.specs.List.Sorted.{IsStrictlySortedBy};
    ghost use Rattle.std.specs.Ordering.{int_cmp};
    ghost use Rattle.osm_net.specs.Steps.Index.{numbered, put_into};

    ghost Value = { List (ℤ × ℕ) };

    ghost view = { λ a. put_into a.others.entries (numbered 0 a.rising.items) };

    ghost invariant = { λ a. IsStrictlySortedBy int_cmp a.rising.items };
}

impl Index {
    /// An index of no ids; takes no memory.
    pub(crate) fn new(alloc: Global) -> Index
        ensures { result ≡ [] }
    {
        Index {
            rising: Vec::new(alloc),
            others: BTreeMap::new(alloc),
        }
    }

    /// The slot of an id.
    pub(crate) fn get(&self, id: i64) -> Option<usize>
        ensures { result ≡ lookup (is_at (int_cmp id)) self.now }
    {
        match self.others.get(&id) {
            Some(slot) => Some(*slot),
            None => position_of(id, self.rising.as_slice()),
        }
    }

    /// Gives a slot to an id. After a refusal nothing has changed.
    pub(crate) fn insert(&mut self, id: i64, slot: usize) -> Result<(), WantOfMemory>
        ensures inserted { OnOk result (self.new ≡ insert_entry int_cmp self.old id slot) }
        ensures unchanged { OnErr result (self.new ≡ self.old) }
    {
        if self.others.is_empty() && comes_next(id, slot, self.rising.as_slice()) {
            self.rising.push(id)?;
            return Ok(());
        }
        self.others.insert(id, slot)?;
        Ok(())
    }

    /// The ids, rising, each with its slot.
    pub(crate) fn into_rows(self) -> Rows
        ensures { result ≡ self }
    {
        let mut others = self.others.into_iter();
        let next = others.next();
        Rows {
            rising: self.rising,
            position: 0,
            next,
            others,
        }
    }

    /// The ids, if all came in order: an id's slot is its position. Otherwise gives the index back.
    pub(crate) fn into_listed(self) -> Result<Vec<i64>, Index>
        ensures listed { IfOk result (λ ids. numbered 0 ids.items ≡ self) }
        ensures other { IfErr result (λ index. index ≡ self) }
    {
        if self.others.is_empty() {
            Ok(self.rising)
        } else {
            Err(self)
        }
    }

    /// Tells the prover that the ids rise; does nothing at run time.
    pub(crate) fn limits(&self)
        ensures { IsStrictlySortedBy int_cmp (keys_of self.now) }
    {
        let _ = &self.rising;
    }
}

// The position of an id among rising ones.
fn position_of(id: i64, rising: &[i64]) -> Option<usize>
    requires { IsStrictlySortedBy int_cmp rising.now }
    ensures { result ≡ lookup (is_at (int_cmp id)) (numbered 0 rising.now) }
{
    if is_above(id, rising) {
        return None;
    }
    rising.binary_search(&id).ok()
}

// Whether an id is above all of rising ones.
fn is_above(id: i64, rising: &[i64]) -> bool
    requires { IsStrictlySortedBy int_cmp rising.now }
    ensures { IsTrue result ↔ AllByRecursion (λ n. int_cmp n id ≡ Less) rising.now }
{
    match rising.last() {
        Some(last) => matches!(last.cmp(&id), Ordering::Less),
        None => true,
    }
}

// Whether an id is above all of rising ones, and its slot the position after them.
fn comes_next(id: i64, slot: usize, rising: &[i64]) -> bool
    requires { IsStrictlySortedBy int_cmp rising.now }
    ensures { IsTrue result ↔ (slot ≡ length rising.now)
        × AllByRecursion (λ n. int_cmp n id ≡ Less) rising.now }
{
    slot == rising.len() && is_above(id, rising)
}

/// Ids, rising, each with its slot: the ids of the list from a position on, and the ids of the map
/// from its next one on.
#[derive(Drop)]
pub(crate) struct Rows {
    rising: Vec<i64>,
    position: usize,
    next: Option<(i64, usize)>,
    others: btree_map::IntoIter<i64, usize>,
}

impl Model for Rows {
    ghost use Rattle.std.specs.Prelude.{ℕ, ℤ, List, ◌++◌, drop, option_to_list};
    ghost use Rattle.osm_net.specs.Steps.Index.{AreRows, numbered, put_into};

    ghost Value = { List (ℤ × ℕ) };

    ghost view = { λ a. put_into (option_to_list a.next ++ a.others)
        (numbered a.position (drop a.position a.rising.items)) };

    ghost invariant = { λ a. AreRows a.next a.others (drop a.position a.rising.items) };
}

impl Rows {
    /// The next id with its slot. If the list and the map have the same id, the slot in the map
    /// counts.
    pub(crate) fn next(&mut self) -> Option<(i64, usize)>
        ensures { MatchOption result ((self.old ≡ []) × (self.new ≡ []))
            (λ r. self.old ≡ r ∷ self.new) }
    {
        let position = self.position;
        let Some(id) = id_at(position, self.rising.as_slice()) else {
            return next_mapped(&mut self.next, &mut self.others);
        };
        match compare(id, self.next) {
            Ordering::Less => {
                self.position += 1;
                Some((id, position))
            }
            Ordering::Equal => {
                self.position += 1;
                next_mapped(&mut self.next, &mut self.others)
            }
            Ordering::Greater => next_mapped(&mut self.next, &mut self.others),
        }
    }
}

// The id at a position.
fn id_at(position: usize, ids: &[i64]) -> Option<i64>
    ensures { result ≡ slice_get ids.now position }
{
    ids.get(position).copied()
}

// How an id compares to that of a row; it comes before none.
fn compare(id: i64, row: Option<(i64, usize)>) -> Ordering
    ensures { MatchOption row (result ≡ Less) (λ r. result ≡ int_cmp id r.0) }
{
    match row {
        Some((other, _slot)) => id.cmp(&other),
        None => Ordering::Less,
    }
}

// The next row of a map; after it comes the first of the others.
fn next_mapped(
    next: &mut Option<(i64, usize)>,
    others: &mut btree_map::IntoIter<i64, usize>,
) -> Option<(i64, usize)>
    requires { next.old ≡ None → others.old ≡ [] }
    ensures row { result ≡ next.old }
    ensures rest { others.old ≡ option_to_list next.new ++ others.new }
    ensures last { next.new ≡ None → others.new ≡ [] }
{
    replace(next, others.next())
}
