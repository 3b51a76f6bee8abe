//! The mirror: all objects, with the edits counted by user and by changeset.

ghost use Rattle.std.specs.Prelude.{◌≡◌, ◌<◌, [], ◌∷◌, length, OnOk, OnErr, IfOk, None, Some};
ghost use Rattle.std.specs.Prelude.{MatchOption};
ghost use Rattle.osm_mirror.specs.Mirror.{Applies, IsMirror, NeedsMemory};
ghost use Rattle.osm_mirror.specs.Mirror.{NeedsNewEntry, count_at, no_mirror, object_at};
ghost use Rattle.osm_mirror.specs.Room.{GrowsBy, HasRoom};

use crate::counts::Counts;
use crate::objects::Objects;
use osm_model::change::Change;
use osm_model::filter::Filter;
use osm_model::kind::Key;
use osm_model::memory::WantOfMemory;
use std::alloc::Global;
use std::marker::Model;

/// The objects that aren't deleted, or those of them that a filter keeps, by their keys, and the
/// edits counted by user and by changeset.
#[derive(Debug, Drop)]
pub struct Mirror {
    objects: Objects,
    users: Counts,
    changesets: Counts,
}

impl Model for Mirror {
    ghost use Rattle.osm_mirror.specs.Mirror.{MirrorValue};

    ghost Value = { MirrorValue };

    ghost view = { λ a. record {
      objects = a.objects;
      users = a.users;
      changesets = a.changesets;
    } };
}

impl Mirror {
    /// The empty mirror, with no objects and no counts.
    pub fn new(alloc: Global) -> Mirror
        ensures { result ≡ no_mirror }
    {
        Mirror {
            objects: Objects::new(alloc),
            users: Counts::new(alloc),
            changesets: Counts::new(alloc),
        }
    }

    /// Applies changes in order, and counts each change as an edit of its user and its changeset. A
    /// change that the filter doesn't keep removes its object, as a deletion does, and is counted
    /// all the same. After a refusal some of the changes may have been applied.
    pub fn apply(&mut self, filter: &Filter, changes: Vec<Change>) -> Result<(), WantOfMemory>
        requires { HasRoom (length changes.items) self.old }
        ensures applied { OnOk result (Applies filter.now self.old changes.items self.new) }
        ensures grown { OnOk result (GrowsBy (length changes.items) self.old self.new) }
        ensures refused { OnErr result (NeedsMemory filter.now self.old changes.items) }
    {
        self.limits();
        for change in changes {
            let Ok(()) = self.apply_one(filter, change) else {
                return Err(WantOfMemory);
            };
        }
        Ok(())
    }

    fn apply_one(&mut self, filter: &Filter, change: Change) -> Result<(), WantOfMemory>
        requires { HasRoom 1 self.old }
        ensures applied { OnOk result (Applies filter.now self.old (change ∷ []) self.new) }
        ensures grown { OnOk result (GrowsBy 1 self.old self.new) }
        ensures refused { OnErr result (NeedsNewEntry filter.now self.old [] change) }
    {
        change.meta().limits();
        let Ok(()) = self.users.add_one(change.meta().uid()) else {
            drop(change);
            return Err(WantOfMemory);
        };
        let Ok(()) = self.changesets.add_one(change.meta().changeset()) else {
            drop(change);
            return Err(WantOfMemory);
        };
        let Ok(()) = self.objects.put(filter, change) else {
            return Err(WantOfMemory);
        };
        self.limits();
        Ok(())
    }

    /// Tells the prover what holds of every mirror; does nothing at run time.
    pub fn limits(&self)
        ensures { IsMirror self.now }
    {
        self.objects.limits();
        self.users.limits();
        self.changesets.limits();
    }

    /// The mirror with these parts.
    pub fn from_parts(objects: Objects, users: Counts, changesets: Counts) -> Mirror
        ensures { result ≡ record { objects = objects; users = users; changesets = changesets } }
    {
        Mirror {
            objects,
            users,
            changesets,
        }
    }

    /// All objects, by their keys.
    pub fn objects_by_key(&self) -> &Objects
        ensures { result.now ≡ self.now.objects }
    {
        &self.objects
    }

    /// The counts of edits of all users.
    pub fn user_counts(&self) -> &Counts
        ensures { result.now ≡ self.now.users }
    {
        &self.users
    }

    /// The counts of edits in all changesets.
    pub fn changeset_counts(&self) -> &Counts
        ensures { result.now ≡ self.now.changesets }
    {
        &self.changesets
    }

    /// The object with the given key, if the mirror has one.
    pub fn get(&self, key: Key) -> Option<&Change>
        ensures { MatchOption result
            (object_at self.now.objects key ≡ None)
            (λ c. object_at self.now.objects key ≡ Some c.now) }
    {
        self.objects.get(key)
    }

    /// The count of the edits of a user.
    pub fn user_count(&self, uid: u32) -> u64
        ensures { result ≡ count_at self.now.users uid }
    {
        self.users.get(uid)
    }

    /// The count of the edits in a changeset.
    pub fn changeset_count(&self, id: u32) -> u64
        ensures { result ≡ count_at self.now.changesets id }
    {
        self.changesets.get(id)
    }

    /// Copies of all objects, their keys rising.
    pub fn objects(&self, alloc: Global) -> Result<Vec<Change>, WantOfMemory>
        ensures copies { IfOk result (λ v. v.items ≡ self.now.objects) }
        ensures refused { OnErr result (0 < length self.now.objects) }
    {
        self.objects.to_vec(alloc)
    }

    /// The users with their counts of edits, by rising user.
    pub fn users(&self, alloc: Global) -> Result<Vec<(u32, u64)>, WantOfMemory>
        ensures copies { IfOk result (λ v. v.items ≡ self.now.users) }
        ensures refused { OnErr result (0 < length self.now.users) }
    {
        self.users.to_vec(alloc)
    }

    /// The changesets with their counts of edits, by rising changeset.
    pub fn changesets(&self, alloc: Global) -> Result<Vec<(u32, u64)>, WantOfMemory>
        ensures copies { IfOk result (λ v. v.items ≡ self.now.changesets) }
        ensures refused { OnErr result (0 < length self.now.changesets) }
    {
        self.changesets.to_vec(alloc)
    }
}
