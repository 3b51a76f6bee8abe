//! What is left of the objects of one kind, each under its id.

ghost use Rattle.std.specs.Prelude.{◌≡◌, ◌<◌, ◌≤◌, ◌-◌, ◌∷◌, ◌++◌, ◌↔◌, ℕ, [], length, None};
ghost use Rattle.std.specs.Prelude.{Option, Some, IfErr, IfOk, IsTrue, OnOk, OnErr, slice_get};
ghost use Rattle.std.specs.Prelude.{slice_set};
ghost use Rattle.std.specs.BTreeMap.{insert_entry, is_at};
ghost use Rattle.std.specs.List.Sorted.{IsStrictlySortedBy};
ghost use Rattle.std.specs.Map.{keys_of, lookup};
ghost use Rattle.std.specs.Ordering.{int_cmp};
ghost use Rattle.osm_net.specs.Steps.Entries.{AreSlots, FillSlots, entries_of, paired, slot_at};

use crate::index::{Index, Rows};
use osm_model::change::Change;
use osm_model::memory::WantOfMemory;
use std::alloc::Global;
use std::marker::Model;

/// What is left of each object of one kind that was changed, by its id; none if the object is
/// removed.
#[derive(Debug, Drop)]
pub(crate) struct Slots {
    index: Index,
    // What is left, in the order in which the ids came first.
    slots: Vec<Option<Change>>,
}

impl Model for Slots {
    ghost use Rattle.std.specs.Prelude.{List, length};
    ghost use Rattle.osm_net.specs.Steps.Entries.{FillSlots, IdEntry, entries_of};

    ghost Value = { List IdEntry };

    ghost view = { λ a. entries_of a.index a.slots.items };

    ghost invariant = { λ a. FillSlots a.index (length a.slots.items) };
}

impl Slots {
    /// Empty; takes no memory.
    pub(crate) fn new(alloc: Global) -> Slots
        ensures { result ≡ [] }
    {
        Slots {
            index: Index::new(alloc),
            slots: Vec::new(alloc),
        }
    }

    /// Makes what is left of an object the entry of its id. After a refusal nothing has changed.
    pub(crate) fn put(&mut self, id: i64, left: Option<Change>) -> Result<(), WantOfMemory>
        ensures put { OnOk result (self.new ≡ insert_entry int_cmp self.old id left) }
        ensures refused { OnErr result (lookup (is_at (int_cmp id)) self.old ≡ None) }
        ensures unchanged { OnErr result (self.new ≡ self.old) }
    {
        put_slot(&mut self.index, &mut self.slots, id, left)
    }

    /// How many entries there are.
    pub(crate) fn len(&self) -> usize
        ensures { result ≡ length self.now }
    {
        self.slots.len()
    }

    /// Whether there are no entries.
    pub(crate) fn is_empty(&self) -> bool
        ensures { IsTrue result ↔ (self.now ≡ []) }
    {
        self.slots.is_empty()
    }

    /// The ids, rising, each with its slot, and what is left at the slots.
    pub(crate) fn into_parts(self) -> (Rows, Vec<Option<Change>>)
        ensures slots { AreSlots result.0 (length result.1.items) }
        ensures entries { entries_of result.0 result.1.items ≡ self }
    {
        (self.index.into_rows(), self.slots)
    }

    /// The ids, and what is left of each, if all came in order. Otherwise gives the slots back.
    pub(crate) fn into_listed(self) -> Result<(Vec<i64>, Vec<Option<Change>>), Slots>
        ensures entries { IfOk result (λ r. paired r.0.items r.1.items ≡ self) }
        ensures many { IfOk result (λ r. length r.0.items ≡ length r.1.items) }
        ensures other { IfErr result (λ slots. slots ≡ self) }
    {
        match self.index.into_listed() {
            Ok(ids) => Ok((ids, self.slots)),
            Err(index) => Err(Slots {
                index,
                slots: self.slots,
            }),
        }
    }

    /// Tells the prover that the ids rise; does nothing at run time.
    pub(crate) fn limits(&self)
        ensures { IsStrictlySortedBy int_cmp (keys_of self.now) }
    {
        self.index.limits();
    }
}

// What is left goes into the slot of its id, which is a new one if the id has none.
fn put_slot(
    index: &mut Index,
    slots: &mut Vec<Option<Change>>,
    id: i64,
    left: Option<Change>,
) -> Result<(), WantOfMemory>
    requires { FillSlots index.old (length slots.old.items) }
    ensures slots { FillSlots index.new (length slots.new.items) }
    ensures put { OnOk result (entries_of index.new slots.new.items
        ≡ insert_entry int_cmp (entries_of index.old slots.old.items) id left) }
    ensures refused { OnErr result (lookup (is_at (int_cmp id))
        (entries_of index.old slots.old.items) ≡ None) }
    ensures unchanged { OnErr result (entries_of index.new slots.new.items
        ≡ entries_of index.old slots.old.items) }
{
    index.limits();
    if let Some(slot) = index.get(id) {
        slots[slot] = left;
        return Ok(());
    }
    let slot = slots.len();
    slots.push(left)?;
    let Ok(()) = index.insert(id, slot) else {
        drop(slots.pop());
        return Err(WantOfMemory);
    };
    Ok(())
}

// How much more room than it needs a list may have while what is left is moved out of it, in slots.
const MOST_SPARE: usize = 16_384;

/// Moves what is left out of a slot. Then empty slots at the end go.
pub(crate) fn take_out(slots: &mut Vec<Option<Change>>, slot: usize) -> Option<Change>
    ensures taken { result ≡ slot_at slots.old.items slot }
    ensures left { (other : ℕ) → slot_at slots.new.items other
        ≡ slot_at (slice_set slots.old.items slot None) other }
    ensures no_more { length slots.new.items ≤ length slots.old.items }
{
    let left = empty_slot(slots, slot);
    drop_empty_end(slots);
    left
}

// Moves what is left out of a slot; one that went was empty.
fn empty_slot(slots: &mut Vec<Option<Change>>, slot: usize) -> Option<Change>
    ensures taken { result ≡ slot_at slots.old.items slot }
    ensures left { slots.new.items ≡ slice_set slots.old.items slot None }
{
    if slot >= slots.len() {
        return None;
    }
    slots[slot].take()
}

// Drops the empty slots at the end.
fn drop_empty_end(slots: &mut Vec<Option<Change>>)
    ensures same { (slot : ℕ) → slot_at slots.new.items slot ≡ slot_at slots.old.items slot }
    ensures no_more { length slots.new.items ≤ length slots.old.items }
    ensures end { slice_get slots.new.items (length slots.new.items - 1) ≡ Some None → ⊥ }
{
    while let Some(None) = slots.last() {
        drop(slots.pop());
    }
    give_back(slots);
}

/// Moves what is left out of the last slot, which goes.
pub(crate) fn take_last(slots: &mut Vec<Option<Change>>) -> Option<Change>
    requires { 0 < length slots.old.items }
    ensures { slots.old.items ≡ slots.new.items ++ result ∷ [] }
{
    give_back(slots);
    let Some(left) = slots.pop() else {
        unreachable!();
    };
    left
}

// Gives back the memory of slots that went, once they are many.
fn give_back(slots: &mut Vec<Option<Change>>)
    ensures { slots.new.items ≡ slots.old.items }
{
    if slots.capacity() - slots.len() > MOST_SPARE {
        slots.shrink_to_fit();
    }
}
