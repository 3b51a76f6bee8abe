//! What a follower shows of itself.

ghost use Rattle.std.specs.Prelude.{◌≡◌, ◌<◌, ◌↔◌, ◌⊎◌, ℕ, IfOk, OnErr, IsSome, Contains, length};
ghost use Rattle.std.specs.List.Sorted.{IsStrictlyIncreasing};
ghost use Rattle.osm_holding.specs.Holding.{held_at, numbers_of};
ghost use Rattle.osm_mirror.specs.Mirror.{HoldsSome, IsOrderly};

use osm_holding::holding::HoldingArea;
use osm_mirror::mirror::Mirror;
use osm_model::change::Change;
use osm_model::memory::WantOfMemory;
use osm_save::head::Head;
use std::alloc::Global;
use std::marker::Model;
use thiserror::Error;

/// Why a follower gives no view, save text or list of missing numbers.
#[derive(Clone, Copy, Debug, PartialEq, Eq, Error)]
pub enum ViewError {
    /// The follower is broken.
    #[error("Broken")]
    Broken,
    /// Memory was refused.
    #[error("WantOfMemory")]
    WantOfMemory,
}

/// A copy of what a follower has: its number, base and time, the objects, the users and the
/// changesets with their counts of edits, and the numbers held. The objects are in the order of
/// their keys; users, changesets and numbers rise.
#[derive(Debug, Drop)]
pub struct View {
    number: u32,
    base: u32,
    time: Option<u32>,
    objects: Vec<Change>,
    users: Vec<(u32, u64)>,
    changesets: Vec<(u32, u64)>,
    held: Vec<u32>,
}

impl Model for View {
    ghost use Rattle.osm_follow.specs.View.{ViewValue};

    ghost Value = { ViewValue };

    ghost view = { λ a. record {
      number = a.number;
      base = a.base;
      time = a.time;
      mirror = record {
        objects = a.objects.items;
        users = a.users.items;
        changesets = a.changesets.items;
      };
      held = a.held.items;
    } };
}

impl View {
    /// The view with these parts.
    pub fn new(
        number: u32,
        base: u32,
        time: Option<u32>,
        objects: Vec<Change>,
        users: Vec<(u32, u64)>,
        changesets: Vec<(u32, u64)>,
        held: Vec<u32>,
    ) -> View
        ensures { result ≡ record {
          number = number;
          base = base;
          time = time;
          mirror = record {
            objects = objects.items;
            users = users.items;
            changesets = changesets.items;
          };
          held = held.items;
        } }
    {
        View {
            number,
            base,
            time,
            objects,
            users,
            changesets,
            held,
        }
    }

    /// The view of a follower with that number, base, time, mirror and holding area.
    pub(crate) fn of(
        alloc: Global,
        head: Head,
        mirror: &Mirror,
        holding: &HoldingArea,
    ) -> Result<View, WantOfMemory>
        ensures copies { IfOk result (λ v. v ≡ record {
          number = head.number;
          base = head.base;
          time = head.time;
          mirror = mirror.now;
          held = numbers_of holding.now;
        }) }
        ensures orderly { IfOk result (λ v. IsOrderly v.mirror) }
        ensures rising { IfOk result (λ v. IsStrictlyIncreasing v.held) }
        ensures held { IfOk result (λ v. (number : ℕ) →
            Contains v.held number ↔ IsSome (held_at holding.now number)) }
        ensures refused { OnErr result
            (HoldsSome mirror.now ⊎ (0 < length (numbers_of holding.now))) }
    {
        mirror.limits();
        let objects = mirror.objects(alloc)?;
        let users = mirror.users(alloc)?;
        let changesets = mirror.changesets(alloc)?;
        let held = holding.numbers(alloc)?;
        Ok(View::new(
            head.number,
            head.base,
            head.time,
            objects,
            users,
            changesets,
            held,
        ))
    }

    /// The follower's number.
    pub fn number(&self) -> u32
        ensures { result ≡ self.now.number }
    {
        self.number
    }

    /// The number after which edits are counted: the sequence number of the data with which the
    /// follower began, or 0.
    pub fn base(&self) -> u32
        ensures { result ≡ self.now.base }
    {
        self.base
    }

    /// The time of the sequence at the follower's number, in seconds since 1970-01-01T00:00:00Z;
    /// none at number 0.
    pub fn time(&self) -> Option<u32>
        ensures { result ≡ self.now.time }
    {
        self.time
    }

    /// The objects, in the order of their keys.
    pub fn objects(&self) -> &[Change]
        ensures { result.now ≡ self.now.mirror.objects }
    {
        self.objects.as_slice()
    }

    /// The objects of the view, in the order of their keys.
    pub fn into_objects(self) -> Vec<Change>
        ensures { result.items ≡ self.mirror.objects }
    {
        self.objects
    }

    /// The users with their counts of edits, rising.
    pub fn users(&self) -> &[(u32, u64)]
        ensures { result.now ≡ self.now.mirror.users }
    {
        self.users.as_slice()
    }

    /// The changesets with their counts of edits, rising.
    pub fn changesets(&self) -> &[(u32, u64)]
        ensures { result.now ≡ self.now.mirror.changesets }
    {
        self.changesets.as_slice()
    }

    /// The numbers of the held sequences, rising.
    pub fn held(&self) -> &[u32]
        ensures { result.now ≡ self.now.held }
    {
        self.held.as_slice()
    }
}
