//! What is left of objects, each under its key.

ghost use Rattle.std.specs.Prelude.{◌≡◌, ◌++◌, ◌<◌, ◌≤◌, ◌^◌, ◌↔◌, [], length, Some, None};
ghost use Rattle.std.specs.Prelude.{Option, IfOk, IsTrue, MatchOption, OnOk, OnErr, vec_capacity};
ghost use Rattle.std.specs.Prelude.{if◌then◌else◌};
ghost use Rattle.std.specs.List.{AllByRecursion};
ghost use Rattle.osm_model.specs.Filter.{left_by};
ghost use Rattle.osm_model.specs.KeyOrder.{same_key};
ghost use Rattle.osm_model.specs.declared.kind.Key.{Key};
ghost use Rattle.osm_net.specs.Net.{AreKeysRising, HasNewKey, HasOwnKey, LeavesObject};
ghost use Rattle.osm_net.specs.Net.{joined_at, net_at};
ghost use Rattle.osm_net.specs.Steps.Entries.{AreEntries, of_kind, paired};

use crate::slots::{Slots, take_last, take_out};
use osm_model::change::Change;
use osm_model::filter::Filter;
use osm_model::kind::{Key, Kind};
use osm_model::memory::WantOfMemory;
use std::alloc::{AllocError, Global};
use std::marker::Model;

/// What is left of each object that was changed, by its key; none if the object is removed.
#[derive(Debug, Drop)]
pub struct NetObjects {
    // The kinds lie apart, so that a search compares ids alone.
    nodes: Slots,
    ways: Slots,
    relations: Slots,
}

impl Model for NetObjects {
    ghost use Rattle.std.specs.Prelude.{List};
    ghost use Rattle.osm_net.specs.Net.{NetEntry};
    ghost use Rattle.osm_net.specs.Steps.Entries.{AreEntries, of_kinds};

    ghost Value = { List NetEntry };

    ghost view = { λ a. of_kinds a.nodes a.ways a.relations };

    ghost invariant = { λ a. AreEntries (of_kinds a.nodes a.ways a.relations) };
}

impl NetObjects {
    /// No entries; takes no memory.
    pub fn new(alloc: Global) -> NetObjects
        ensures { result ≡ [] }
    {
        NetObjects {
            nodes: Slots::new(alloc),
            ways: Slots::new(alloc),
            relations: Slots::new(alloc),
        }
    }

    /// Takes one change: what the filter keeps of the change becomes the entry of its key. After a
    /// refusal nothing has changed.
    pub fn put(&mut self, filter: &Filter, change: Change) -> Result<(), WantOfMemory>
        ensures put { OnOk result ((k : Key) → net_at self.new k
            ≡ (if same_key change.key k then Some (left_by filter.now change)
            else net_at self.old k)) }
        ensures refused { OnErr result (net_at self.old change.key ≡ None) }
        ensures unchanged { OnErr result (self.new ≡ self.old) }
    {
        let key = change.key();
        let left = left_by(filter, change);
        self.put_left(key, left)
    }

    /// Appends later entries, which replace entries of the same key. After a refusal some of the
    /// later entries may have been appended.
    pub fn append(&mut self, later: NetObjects) -> Result<(), WantOfMemory>
        ensures joined { OnOk result ((k : Key) →
            net_at self.new k ≡ joined_at (net_at self.old k) (net_at later k)) }
        ensures refused { OnErr result (HasNewKey self.old later) }
    {
        self.append_kind(Kind::Node, later.nodes)?;
        self.append_kind(Kind::Way, later.ways)?;
        self.append_kind(Kind::Relation, later.relations)?;
        Ok(())
    }

    // Puts later entries of one kind after these. After a refusal some of them may have been put.
    fn append_kind(&mut self, kind: Kind, later: Slots) -> Result<(), WantOfMemory>
        requires { AreEntries (of_kind kind later) }
        ensures joined { OnOk result ((k : Key) → net_at self.new k
            ≡ joined_at (net_at self.old k) (net_at (of_kind kind later) k)) }
        ensures refused { OnErr result (HasNewKey self.old (of_kind kind later)) }
    {
        later.limits();
        let (mut rows, mut slots) = later.into_parts();
        while let Some((id, slot)) = rows.next() {
            let left = take_out(&mut slots, slot);
            let Ok(()) = self.put_left(Key { kind, id }, left) else {
                return Err(WantOfMemory);
            };
        }
        Ok(())
    }

    // What is left becomes the entry of the key.
    fn put_left(&mut self, key: Key, left: Option<Change>) -> Result<(), WantOfMemory>
        requires own { HasOwnKey (key, left) }
        requires object { LeavesObject (key, left) }
        ensures put { OnOk result ((k : Key) → net_at self.new k
            ≡ (if same_key key k then Some left else net_at self.old k)) }
        ensures refused { OnErr result (net_at self.old key ≡ None) }
        ensures unchanged { OnErr result (self.new ≡ self.old) }
    {
        match key.kind {
            Kind::Node => self.nodes.put(key.id, left),
            Kind::Way => self.ways.put(key.id, left),
            Kind::Relation => self.relations.put(key.id, left),
        }
    }

    /// Whether there are no entries.
    pub fn is_empty(&self) -> bool
        ensures { IsTrue result ↔ (self.now ≡ []) }
    {
        self.nodes.is_empty() && self.ways.is_empty() && self.relations.is_empty()
    }

    /// The entries, their keys rising; no change is copied.
    pub fn into_entries(self, alloc: Global) -> Result<Vec<(Key, Option<Change>)>, WantOfMemory>
        ensures entries { IfOk result (λ v. v.items ≡ self) }
        ensures refused { OnErr result (0 < length self) }
    {
        let Ok(mut entries) = self.room_for_entries(alloc) else {
            drop(self);
            return Err(WantOfMemory);
        };
        self.move_to(&mut entries)?;
        Ok(entries)
    }

    // Moves the entries to the end of a list.
    fn move_to(self, entries: &mut Vec<(Key, Option<Change>)>) -> Result<(), AllocError>
        ensures moved { OnOk result (entries.new.items ≡ entries.old.items ++ self) }
        ensures refused { OnErr result (0 < length self) }
    {
        move_entries(Kind::Node, self.nodes, entries)?;
        move_entries(Kind::Way, self.ways, entries)?;
        move_entries(Kind::Relation, self.relations, entries)
    }

    fn room_for_entries(&self, alloc: Global) -> Result<Vec<(Key, Option<Change>)>, AllocError>
        ensures none { IfOk result (λ v. v.items ≡ []) }
        ensures room { IfOk result (λ v. vec_capacity v ≡ length self.now) }
        ensures refused { OnErr result (0 < length self.now) }
    {
        let Some(count) = self.count() else {
            return Err(AllocError);
        };
        Vec::with_capacity(alloc, count)
    }

    // How many entries there are, if a `usize` can say it.
    fn count(&self) -> Option<usize>
        ensures { MatchOption result (2 ^ 64 ≤ length self.now) (λ n. n ≡ length self.now) }
    {
        let before = self.nodes.len().checked_add(self.ways.len())?;
        before.checked_add(self.relations.len())
    }

    /// Tells the prover that the keys rise, and that each object left has the key of its entry;
    /// does nothing at run time.
    pub fn limits(&self)
        ensures rising { AreKeysRising self.now }
        ensures own { AllByRecursion HasOwnKey self.now }
        ensures objects { AllByRecursion LeavesObject self.now }
    {
        self.nodes.limits();
        self.ways.limits();
        self.relations.limits();
    }
}

// Moves the entries of one kind to the end of a list.
fn move_entries(
    kind: Kind,
    from: Slots,
    entries: &mut Vec<(Key, Option<Change>)>,
) -> Result<(), AllocError>
    ensures moved { OnOk result (entries.new.items ≡ entries.old.items ++ of_kind kind from) }
    ensures refused { OnErr result (0 < length from) }
{
    match from.into_listed() {
        Ok((ids, lefts)) => move_listed(kind, ids, lefts, entries),
        Err(from) => move_rows(kind, from, entries),
    }
}

// Moves entries whose ids came in order. What is left is reversed, so that each is taken off the
// end.
fn move_listed(
    kind: Kind,
    ids: Vec<i64>,
    lefts: Vec<Option<Change>>,
    entries: &mut Vec<(Key, Option<Change>)>,
) -> Result<(), AllocError>
    requires { length ids.items ≡ length lefts.items }
    ensures moved { OnOk result (entries.new.items
        ≡ entries.old.items ++ of_kind kind (paired ids.items lefts.items)) }
    ensures refused { OnErr result (0 < length ids.items) }
{
    let mut lefts = lefts;
    lefts.reverse();
    for id in ids {
        let left = take_last(&mut lefts);
        entries.push((Key { kind, id }, left))?;
    }
    Ok(())
}

// Moves entries whose ids came in any order.
fn move_rows(
    kind: Kind,
    from: Slots,
    entries: &mut Vec<(Key, Option<Change>)>,
) -> Result<(), AllocError>
    ensures moved { OnOk result (entries.new.items ≡ entries.old.items ++ of_kind kind from) }
    ensures refused { OnErr result (0 < length from) }
{
    let (mut rows, mut slots) = from.into_parts();
    while let Some((id, slot)) = rows.next() {
        let left = take_out(&mut slots, slot);
        entries.push((Key { kind, id }, left))?;
    }
    Ok(())
}

// What the filter keeps of what a change leaves.
fn left_by(filter: &Filter, change: Change) -> Option<Change>
    ensures { result ≡ left_by filter.now change }
{
    if filter.keeps(&change) {
        Some(change)
    } else {
        None
    }
}
