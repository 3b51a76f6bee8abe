//! The objects of a mirror, each under its key.

ghost use Rattle.std.specs.Prelude.{◌≡◌, ℕ, ◌+◌, ◌<◌, ◌≤◌, [], ◌∷◌, ◌++◌, length, Some, None};
ghost use Rattle.std.specs.Prelude.{IfOk, OnOk, OnErr, MatchOption, if◌then◌else◌, vec_capacity};
ghost use Rattle.std.specs.BTreeMap.{insert_entry};
ghost use Rattle.std.specs.List.{AllByRecursion};
ghost use Rattle.std.specs.Map.Iter.{ShowsInOrder, deref};
ghost use Rattle.osm_model.specs.Change.{ChangeValue};
ghost use Rattle.osm_model.specs.Content.{object_after};
ghost use Rattle.osm_model.specs.Filter.{left_by};
ghost use Rattle.osm_model.specs.KeyOrder.{key_cmp, same_key};
ghost use Rattle.osm_model.specs.declared.kind.Key.{Key};
ghost use Rattle.osm_mirror.specs.Entries.{AreObjects, objects_of};
ghost use Rattle.osm_mirror.specs.Mirror.{AreRising, IsObject, object_at};

use osm_model::change::Change;
use osm_model::filter::Filter;
use osm_model::kind::Key;
use osm_model::memory::WantOfMemory;
use std::alloc::{AllocError, Global};
use std::collections::BTreeMap;
use std::collections::btree_map::Values;
use std::marker::Model;

/// The last change of each object that isn't deleted, by its key.
#[derive(Debug, Drop)]
pub struct Objects {
    objects: BTreeMap<Key, Change>,
}

impl Model for Objects {
    ghost use Rattle.std.specs.Prelude.{List};
    ghost use Rattle.osm_model.specs.Change.{ChangeValue};

    ghost Value = { List ChangeValue };

    ghost use Rattle.osm_mirror.specs.Entries.{AreObjects, objects_of};

    ghost view = { λ a. objects_of a.objects.entries };

    ghost invariant = { λ a. AreObjects a.objects.entries };
}

impl Objects {
    /// No objects; takes no memory.
    pub fn new(alloc: Global) -> Objects
        ensures { result ≡ [] }
    {
        Objects {
            objects: BTreeMap::new(alloc),
        }
    }

    /// The object with the given key, if there is one.
    pub fn get(&self, key: Key) -> Option<&Change>
        ensures { MatchOption result
            (object_at self.now key ≡ None)
            (λ c. object_at self.now key ≡ Some c.now) }
    {
        self.objects.get(&key)
    }

    /// Applies one change: a change that the filter keeps becomes the object of its key, and any
    /// other change, such as a deletion, removes the object. After a refusal nothing has changed.
    pub fn put(&mut self, filter: &Filter, change: Change) -> Result<(), WantOfMemory>
        ensures put { OnOk result ((k : Key) → object_at self.new k
            ≡ (if same_key change.key k then left_by filter.now change else object_at self.old k)) }
        ensures grown { length self.new ≤ length self.old + 1 }
        ensures refused { OnErr result
            ((left_by filter.now change ≡ Some change) × (object_at self.old change.key ≡ None)) }
        ensures unchanged { OnErr result (self.new ≡ self.old) }
    {
        if filter.keeps(&change) {
            enter(&mut self.objects, change)
        } else {
            take_out(&mut self.objects, change.key());
            Ok(())
        }
    }

    /// Adds an object whose key is above all others. After a refusal nothing has changed.
    pub fn push(&mut self, change: Change) -> Result<(), WantOfMemory>
        requires rising { AreRising (self.old ++ change ∷ []) }
        requires is_left { object_after change ≡ Some change }
        ensures pushed { OnOk result (self.new ≡ self.old ++ change ∷ []) }
        ensures unchanged { OnErr result (self.new ≡ self.old) }
    {
        enter(&mut self.objects, change)?;
        Ok(())
    }

    /// How many objects there are.
    pub fn len(&self) -> usize
        ensures { result ≡ length self.now }
    {
        self.objects.len()
    }

    /// The objects, their keys rising.
    pub fn iter(&self) -> Values<'_, Key, Change>
        ensures rest { result ≡ self.now }
        ensures runs { ShowsInOrder (deref {X = ChangeValue}) }
    {
        self.objects.values()
    }

    /// Tells the prover that the keys rise and that no object is a deletion; does nothing at run
    /// time.
    pub fn limits(&self)
        ensures keys { AreRising self.now }
        ensures objects { AllByRecursion IsObject self.now }
    {
        let _many = self.objects.len();
    }

    /// Copies of all objects, their keys rising.
    pub fn to_vec(&self, alloc: Global) -> Result<Vec<Change>, WantOfMemory>
        ensures copies { IfOk result (λ v. v.items ≡ self.now) }
        ensures refused { OnErr result (0 < length self.now) }
    {
        let mut copies = self.room_for_copies(alloc)?;
        for change in self.objects.values() {
            copies.push(change.copy(alloc)?)?;
        }
        Ok(copies)
    }

    fn room_for_copies(&self, alloc: Global) -> Result<Vec<Change>, AllocError>
        ensures none { IfOk result (λ v. v.items ≡ []) }
        ensures room { IfOk result (λ v. vec_capacity v ≡ length self.now) }
        ensures refused { OnErr result (0 < length self.now) }
    {
        Vec::with_capacity(alloc, self.objects.len())
    }
}

fn take_out(objects: &mut BTreeMap<Key, Change>, key: Key)
    requires { AreObjects objects.old.entries }
    ensures objects { AreObjects objects.new.entries }
    ensures out { (k : Key) → object_at (objects_of objects.new.entries) k
        ≡ (if same_key key k then None else object_at (objects_of objects.old.entries) k) }
    ensures grown { length objects.new.entries ≤ length objects.old.entries }
{
    drop(objects.remove(&key));
}

fn enter(objects: &mut BTreeMap<Key, Change>, change: Change) -> Result<(), WantOfMemory>
    requires objects { AreObjects objects.old.entries }
    requires is_left { object_after change ≡ Some change }
    ensures objects { AreObjects objects.new.entries }
    ensures inserted { OnOk result
        (objects.new.entries ≡ insert_entry key_cmp objects.old.entries change.key change) }
    ensures entered { OnOk result ((k : Key) → object_at (objects_of objects.new.entries) k
        ≡ (if same_key change.key k then Some change
        else object_at (objects_of objects.old.entries) k)) }
    ensures grown { length objects.new.entries ≤ length objects.old.entries + 1 }
    ensures refused { OnErr result (object_at (objects_of objects.old.entries) change.key ≡ None) }
    ensures unchanged { OnErr result (objects.new.entries ≡ objects.old.entries) }
{
    let Ok(old) = objects.insert(change.key(), change) else {
        return Err(WantOfMemory);
    };
    drop(old);
    Ok(())
}
