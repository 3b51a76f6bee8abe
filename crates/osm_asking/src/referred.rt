//! The keys that objects refer to.

ghost use Rattle.std.specs.Prelude.{◌≡◌, ◌++◌, ◌∷◌, [], IfOk, OnOk, Some, false};
ghost use Rattle.std.specs.Prelude.{if◌then◌else◌};
ghost use Rattle.std.specs.List.{list_any};
ghost use Rattle.osm_model.specs.KeyOrder.{same_key};
ghost use Rattle.osm_model.specs.declared.kind.Key.{Key};
ghost use Rattle.osm_asking.specs.Referring.{AreLeft, also, node_key, noted_at, refers_to};
ghost use Rattle.osm_asking.specs.Steps.Referring.{left_in};

use osm_model::change::{Change, What};
use osm_model::kind::{Key, Kind};
use osm_model::lists::Member;
use osm_model::memory::WantOfMemory;
use std::alloc::Global;
use std::collections::BTreeMap;

/// Keys that were asked for or referred to, each with whether it is still to be asked for.
#[derive(Drop)]
pub struct Referred {
    keys: BTreeMap<Key, bool>,
}

impl Referred {
    /// No keys.
    pub fn new(alloc: Global) -> Referred
        ensures { result.keys.entries ≡ [] }
    {
        Referred {
            keys: BTreeMap::new(alloc),
        }
    }

    /// The key was asked for.
    pub fn asked(&mut self, key: Key) -> Result<(), WantOfMemory>
        ensures { OnOk result ((k : Key) → noted_at self.new.keys.entries k
            ≡ (if same_key key k then Some false else noted_at self.old.keys.entries k)) }
    {
        self.keys.insert(key, false)?;
        Ok(())
    }

    /// Notes the nodes of a way or the members of a relation, unless they were asked for.
    pub fn note(&mut self, object: &Change) -> Result<(), WantOfMemory>
        ensures { OnOk result ((k : Key) → noted_at self.new.keys.entries k
            ≡ also (refers_to object.now.what k) (noted_at self.old.keys.entries k)) }
    {
        match object.what() {
            What::Way { refs, .. } => self.note_nodes(refs.as_slice()),
            What::Relation { members, .. } => self.note_members(members.as_slice()),
            What::Node { .. } | What::Deleted => Ok(()),
        }
    }

    fn note_nodes(&mut self, ids: &[i64]) -> Result<(), WantOfMemory>
        ensures { OnOk result ((k : Key) → noted_at self.new.keys.entries k
            ≡ also (list_any (λ id. same_key (node_key id) k) ids.now)
            (noted_at self.old.keys.entries k)) }
    {
        for id in ids {
            self.note_node(id)?;
        }
        Ok(())
    }

    fn note_node(&mut self, id: &i64) -> Result<(), WantOfMemory>
        ensures { OnOk result ((k : Key) → noted_at self.new.keys.entries k
            ≡ also (same_key (node_key id.now) k) (noted_at self.old.keys.entries k)) }
    {
        self.note_key(Key {
            kind: Kind::Node,
            id: *id,
        })
    }

    fn note_members(&mut self, members: &[Member]) -> Result<(), WantOfMemory>
        ensures { OnOk result ((k : Key) → noted_at self.new.keys.entries k
            ≡ also (list_any (λ m. same_key m.key k) members.now)
            (noted_at self.old.keys.entries k)) }
    {
        for member in members {
            self.note_key(member.key)?;
        }
        Ok(())
    }

    fn note_key(&mut self, key: Key) -> Result<(), WantOfMemory>
        ensures { OnOk result ((k : Key) → noted_at self.new.keys.entries k
            ≡ also (same_key key k) (noted_at self.old.keys.entries k)) }
    {
        if self.keys.contains_key(&key) {
            return Ok(());
        }
        self.keys.insert(key, true)?;
        Ok(())
    }

    /// The keys that are still to be asked for, rising.
    pub fn left(&self, alloc: Global) -> Result<Vec<Key>, WantOfMemory>
        ensures { IfOk result (λ left. AreLeft self.now.keys.entries left.items) }
    {
        let mut left = Vec::new(alloc);
        for (key, is_left) in self.keys.iter() {
            push_left(*key, *is_left, &mut left)?;
        }
        Ok(left)
    }
}

fn push_left(key: Key, is_left: bool, left: &mut Vec<Key>) -> Result<(), WantOfMemory>
    ensures { OnOk result
        (left.new.items ≡ left.old.items ++ left_in ((key, is_left) ∷ [])) }
{
    if !is_left {
        return Ok(());
    }
    left.push(key)?;
    Ok(())
}
