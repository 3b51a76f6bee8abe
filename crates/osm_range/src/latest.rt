//! The last change of each object.

ghost use Rattle.std.specs.Prelude.{◌≡◌, [], ◌∷◌, IfOk, OnOk, if◌then◌else◌, Some};
ghost use Rattle.std.specs.Map.{values_of};
ghost use Rattle.osm_model.specs.KeyOrder.{same_key};
ghost use Rattle.osm_model.specs.declared.kind.Key.{Key};
ghost use Rattle.osm_mirror.specs.Mirror.{object_at};
ghost use Rattle.osm_range.specs.Handed.{Takes, deletion_by, under};
ghost use Rattle.osm_range.specs.Steps.Rising.{AreRows, HaveOwnLabels, RiseAs, label_of};

use osm_model::change::{Change, What};
use osm_model::filter::Filter;
use osm_model::kind::{Key, Kind};
use osm_model::memory::WantOfMemory;
use std::alloc::Global;
use std::collections::HashMap;
use std::hash::RandomState;
use std::marker::Model;

// The id and the kind of an object, in a form that has a hash. The id comes first, since SipHash
// takes eight bytes at once only while no other byte waits.
type Label = (i64, u8);

/// The last change of each object that changes, in any order. A change that the filter doesn't keep
/// is a deletion, with the metadata of that change.
#[derive(Drop)]
pub struct Latest {
    changes: HashMap<Label, Change, RandomState>,
}

impl Model for Latest {
    ghost use Rattle.std.specs.Prelude.{List};
    ghost use Rattle.osm_model.specs.Change.{ChangeValue};
    ghost use Rattle.std.specs.Map.{values_of};
    ghost use Rattle.osm_range.specs.Steps.Rising.{HaveOwnLabels};

    ghost Value = { List ChangeValue };

    ghost view = { λ a. values_of a.changes.entries };

    ghost invariant = { λ a. HaveOwnLabels a.changes.entries };
}

impl Latest {
    /// No changes; takes no memory.
    pub fn new(alloc: Global, hashing: RandomState) -> Latest
        ensures { result ≡ [] }
    {
        Latest {
            changes: HashMap::with_hasher(alloc, hashing),
        }
    }

    /// Takes changes in order. Each replaces what is known of its object. After a refusal some of
    /// the changes may have been taken.
    pub fn take(
        &mut self,
        alloc: Global,
        filter: &Filter,
        changes: Vec<Change>,
    ) -> Result<(), WantOfMemory>
        ensures { OnOk result (Takes filter.now self.old changes.items self.new) }
    {
        for change in changes {
            match self.take_one(alloc, filter, change) {
                Ok(()) => {}
                Err(WantOfMemory) => return Err(WantOfMemory),
            }
        }
        Ok(())
    }

    fn take_one(
        &mut self,
        alloc: Global,
        filter: &Filter,
        change: Change,
    ) -> Result<(), WantOfMemory>
        ensures { OnOk result (Takes filter.now self.old (change ∷ []) self.new) }
    {
        let change = under(alloc, filter, change)?;
        enter(&mut self.changes, change)
    }

    /// The last change of each object with its key, by rising keys.
    pub fn rising<'a>(&'a self, alloc: Global) -> Result<Vec<(Key, &'a Change)>, WantOfMemory>
        ensures { IfOk result (λ rows. RiseAs self.now rows.items) }
    {
        let mut rows = rows(alloc, &self.changes)?;
        rows.sort_unstable_by_key(|row| row.0);
        Ok(rows)
    }
}

// A change, or a deletion in its place if the filter doesn't keep it.
fn under(alloc: Global, filter: &Filter, change: Change) -> Result<Change, WantOfMemory>
    ensures { IfOk result (λ c. c ≡ under filter.now change) }
{
    if change.is_deletion() || filter.keeps(&change) {
        return Ok(change);
    }
    let deletion = deletion_by(alloc, &change);
    drop(change);
    deletion
}

// A deletion of the object of a change, with the metadata of that change.
fn deletion_by(alloc: Global, change: &Change) -> Result<Change, WantOfMemory>
    ensures { IfOk result (λ c. c ≡ deletion_by change.now) }
{
    change.limits();
    let meta = change.meta().copy(alloc)?;
    Ok(Change::within_limits(change.key(), meta, What::Deleted))
}

// The change becomes what is known of its object.
fn enter(
    changes: &mut HashMap<Label, Change, RandomState>,
    change: Change,
) -> Result<(), WantOfMemory>
    requires { HaveOwnLabels changes.old.entries }
    ensures own { HaveOwnLabels changes.new.entries }
    ensures entered { OnOk result ((k : Key) → object_at (values_of changes.new.entries) k
        ≡ (if same_key change.key k then Some change
        else object_at (values_of changes.old.entries) k)) }
{
    let Ok(old) = changes.insert(label_of(change.key()), change) else {
        return Err(WantOfMemory);
    };
    drop(old);
    Ok(())
}

fn label_of(key: Key) -> Label
    ensures { result ≡ label_of key }
{
    let rank = match key.kind {
        Kind::Node => 0,
        Kind::Way => 1,
        Kind::Relation => 2,
    };
    (key.id, rank)
}

// Each change with its key.
fn rows<'a>(
    alloc: Global,
    changes: &'a HashMap<Label, Change, RandomState>,
) -> Result<Vec<(Key, &'a Change)>, WantOfMemory>
    ensures { IfOk result (λ rows. AreRows changes.now.entries rows.items) }
{
    let mut rows = Vec::with_capacity(alloc, changes.len())?;
    for change in changes.values() {
        rows.push((change.key(), change))?;
    }
    Ok(rows)
}
