//! Net changes: what changes leave of their objects, and the edits counted by user and by
//! changeset.

ghost use Rattle.std.specs.Prelude.{◌≡◌, ℕ, ◌⊎◌, ◌++◌, ◌↔◌, List, [], ◌∷◌, length, None};
ghost use Rattle.std.specs.Prelude.{IfOk, IsTrue, OnOk, OnErr};
ghost use Rattle.osm_model.specs.Change.{ChangeValue};
ghost use Rattle.osm_model.specs.Content.{last_of};
ghost use Rattle.osm_model.specs.Filter.{FilterValue};
ghost use Rattle.osm_model.specs.declared.kind.Key.{Key};
ghost use Rattle.osm_net.specs.Lists.{net_in};
ghost use Rattle.osm_net.specs.Net.{BringsNew, HasRoomFor, HasRoomForAll, IsJoined, IsNet};
ghost use Rattle.osm_net.specs.Net.{IsNetOf, NeedsEntry, Takes, WidensBy, net_at, no_net, taken_at};
ghost use Rattle.osm_net.specs.Steps.Recent.{Collects, HasRoomIn, NeedsCount, one_edit};

use crate::counting::add_counts;
use crate::lists::NetLists;
use crate::objects::NetObjects;
use crate::recent::Recent;
use osm_mirror::counts::Counts;
use osm_model::change::Change;
use osm_model::filter::Filter;
use osm_model::memory::WantOfMemory;
use std::alloc::Global;
use std::marker::Model;

/// The net of a list of changes: what a filter keeps of the last change of each object, and the
/// edits of all changes by user and by changeset. Of the changes, only the last one of each object
/// stays in memory.
#[derive(Debug, Drop)]
pub struct Net {
    objects: NetObjects,
    users: Counts,
    changesets: Counts,
}

impl Model for Net {
    ghost use Rattle.osm_net.specs.Net.{NetValue};

    ghost Value = { NetValue };

    ghost view = { λ a. record {
      objects = a.objects;
      users = a.users;
      changesets = a.changesets;
    } };
}

impl Net {
    /// The net of no changes; takes no memory.
    pub fn new(alloc: Global) -> Net
        ensures { result ≡ no_net }
    {
        Net {
            objects: NetObjects::new(alloc),
            users: Counts::new(alloc),
            changesets: Counts::new(alloc),
        }
    }

    /// Takes changes in order, and counts each change as an edit of its user and its changeset.
    /// What the filter keeps of a change becomes the entry of its key; a change that isn't kept is
    /// counted all the same. After a refusal some of the changes may have been taken, not all of
    /// them counted.
    pub fn take(&mut self, filter: &Filter, changes: Vec<Change>) -> Result<(), WantOfMemory>
        requires { HasRoomFor (length changes.items) self.old }
        ensures takes { OnOk result (Takes filter.now self.old changes.items self.new) }
        ensures taken { OnOk result ((before : List ChangeValue) →
            IsNetOf filter.now before self.old
            → IsNetOf filter.now (before ++ changes.items) self.new) }
        ensures grown { OnOk result (WidensBy (length changes.items) self.old self.new) }
        ensures refused { OnErr result (NeedsEntry self.old changes.items) }
    {
        let mut users = Recent::new();
        let mut changesets = Recent::new();
        for change in changes {
            let Ok(()) = self.take_one(filter, change, &mut users, &mut changesets) else {
                return Err(WantOfMemory);
            };
        }
        let Ok(()) = users.add_to(&mut self.users) else {
            return Err(WantOfMemory);
        };
        let Ok(()) = changesets.add_to(&mut self.changesets) else {
            return Err(WantOfMemory);
        };
        self.limits();
        Ok(())
    }

    // Takes one change. Its edit may stay in the tables.
    fn take_one(
        &mut self,
        filter: &Filter,
        change: Change,
        users: &mut Recent,
        changesets: &mut Recent,
    ) -> Result<(), WantOfMemory>
        requires users { HasRoomIn self.old.users users.old 1 }
        requires changesets { HasRoomIn self.old.changesets changesets.old 1 }
        ensures objects { OnOk result ((k : Key) → net_at self.new.objects k
            ≡ taken_at filter.now (net_at self.old.objects k) (last_of (change ∷ []) k)) }
        ensures users { OnOk result (Collects self.old.users users.old
            self.new.users users.new (one_edit change.meta.uid) 1) }
        ensures changesets { OnOk result (Collects self.old.changesets changesets.old
            self.new.changesets changesets.new (one_edit change.meta.changeset) 1) }
        ensures refused { OnErr result (NeedsCount self.old.users users.old
            ⊎ NeedsCount self.old.changesets changesets.old
            ⊎ (net_at self.old.objects change.key ≡ None)) }
    {
        change.meta().limits();
        let Ok(()) = users.add_one(&mut self.users, change.meta().uid()) else {
            drop(change);
            return Err(WantOfMemory);
        };
        let Ok(()) = changesets.add_one(&mut self.changesets, change.meta().changeset()) else {
            drop(change);
            return Err(WantOfMemory);
        };
        let Ok(()) = self.objects.put(filter, change) else {
            return Err(WantOfMemory);
        };
        Ok(())
    }

    /// Appends later net changes, as if their changes had been taken: their entries replace entries
    /// of the same key, and their counts are added. After a refusal some of the later entries and
    /// counts may have been added. Appending to the net of no changes costs nothing for each entry.
    pub fn append(&mut self, later: Net) -> Result<(), WantOfMemory>
        requires { HasRoomForAll later self.old }
        ensures joined { OnOk result (IsJoined self.old later self.new) }
        ensures taken { OnOk result ((f : FilterValue) (before after : List ChangeValue) →
            IsNetOf f before self.old → IsNetOf f after later
            → IsNetOf f (before ++ after) self.new) }
        ensures grown { OnOk result ((most : ℕ) →
            WidensBy most no_net later → WidensBy most self.old self.new) }
        ensures refused { OnErr result (BringsNew self.old later) }
    {
        self.limits();
        later.limits();
        if self.is_empty() {
            *self = later;
            return Ok(());
        }
        let Ok(()) = add_counts(&mut self.users, &later.users) else {
            drop(later);
            return Err(WantOfMemory);
        };
        let Ok(()) = add_counts(&mut self.changesets, &later.changesets) else {
            drop(later);
            return Err(WantOfMemory);
        };
        let Ok(()) = self.objects.append(later.objects) else {
            return Err(WantOfMemory);
        };
        self.limits();
        Ok(())
    }

    /// Tells the prover what holds of all net changes; does nothing at run time.
    pub fn limits(&self)
        ensures { IsNet self.now }
    {
        self.objects.limits();
        self.users.limits();
        self.changesets.limits();
    }

    /// Whether these are the net of no changes, which changes no mirror.
    pub fn is_empty(&self) -> bool
        ensures { IsTrue result ↔ (self.now ≡ no_net) }
    {
        self.objects.is_empty() && self.users.len() == 0 && self.changesets.len() == 0
    }

    /// What is left of each object that was changed, by its key.
    pub fn objects(&self) -> &NetObjects
        ensures { result.now ≡ self.now.objects }
    {
        &self.objects
    }

    /// The edits of each user.
    pub fn user_counts(&self) -> &Counts
        ensures { result.now ≡ self.now.users }
    {
        &self.users
    }

    /// The edits in each changeset.
    pub fn changeset_counts(&self) -> &Counts
        ensures { result.now ≡ self.now.changesets }
    {
        &self.changesets
    }

    /// The lists of the net changes; no change is copied.
    pub fn into_lists(self, alloc: Global) -> Result<NetLists, WantOfMemory>
        ensures lists { IfOk result (λ lists. net_in lists ≡ self) }
        ensures net { IfOk result (λ lists. IsNet (net_in lists)) }
    {
        self.limits();
        let Net {
            objects,
            users,
            changesets,
        } = self;
        Ok(NetLists {
            objects: objects.into_entries(alloc)?,
            users: users.to_vec(alloc)?,
            changesets: changesets.to_vec(alloc)?,
        })
    }
}
