//! The new changes of a run: net changes, and later changes that aren't part of the net changes
//! yet. A run that writes only the journal needs no net changes, so they aren't made until the save
//! has to be written.

ghost use Rattle.std.specs.Prelude.{◌≡◌, ◌+◌, [], length, IfOk, OnOk};
ghost use Rattle.osm_model.specs.Filter.{FilterValue};
ghost use Rattle.osm_net.specs.Net.{HasRoomFor, IsJoined, IsNet, Takes, no_net};
ghost use Rattle.osm_round.specs.News.{HasRoomAfter, HasRoomForHeld, IsMore, changes_in, net_in};

use osm_model::change::Change;
use osm_model::filter::Filter;
use osm_model::memory::WantOfMemory;
use osm_net::net::Net;
use std::alloc::Global;
use std::mem::replace;

/// Net changes, and the changes of later numbers as they were read: each number's changes are a
/// list of their own, so that none is moved.
#[derive(Drop)]
pub(crate) struct News {
    pub(crate) net: Net,
    pub(crate) held: Vec<Vec<Change>>,
}

impl News {
    /// No changes. Takes no memory.
    pub(crate) fn new(alloc: Global) -> News
        ensures net { result.net ≡ no_net }
        ensures held { result.held.items ≡ [] }
    {
        News {
            net: Net::new(alloc),
            held: Vec::new(alloc),
        }
    }

    /// Holds the changes of one more number.
    pub(crate) fn hold(&mut self, changes: Vec<Change>) -> Result<(), WantOfMemory>
        ensures { OnOk result ((f : FilterValue) → IsMore f changes.items self.old self.new) }
    {
        self.held.push(changes)?;
        Ok(())
    }

    /// Adds the changes that are held to the net changes, and then the changes of one more number.
    /// After a refusal some of them may have been added, and none is held.
    pub(crate) fn take(
        &mut self,
        alloc: Global,
        filter: &Filter,
        changes: Vec<Change>,
    ) -> Result<(), WantOfMemory>
        requires { HasRoomFor (length (changes_in self.old.held.items) + length changes.items)
            self.old.net }
        ensures more { OnOk result (IsMore filter.now changes.items self.old self.new) }
        ensures held { OnOk result (self.new.held.items ≡ []) }
    {
        self.net.limits();
        let held = replace(&mut self.held, Vec::new(alloc));
        take_all(&mut self.net, filter, held)?;
        self.net.take(filter, changes)?;
        Ok(())
    }

    /// Gives the net changes of all changes.
    pub(crate) fn into_net(self, filter: &Filter) -> Result<Net, WantOfMemory>
        requires { HasRoomForHeld self }
        ensures net { IfOk result (λ net. net ≡ net_in filter.now self) }
        ensures limits { IfOk result IsNet }
    {
        self.net.limits();
        let mut net = self.net;
        take_all(&mut net, filter, self.held)?;
        net.limits();
        Ok(net)
    }

    /// Gives earlier net changes with all of these changes after them.
    pub(crate) fn after(self, filter: &Filter, before: Net) -> Result<Net, WantOfMemory>
        requires { HasRoomAfter before self }
        ensures joined { IfOk result (IsJoined before (net_in filter.now self)) }
        ensures limits { IfOk result IsNet }
    {
        self.net.limits();
        let mut net = before;
        net.append(self.net)?;
        take_all(&mut net, filter, self.held)?;
        net.limits();
        Ok(net)
    }
}

// Takes the changes of several numbers, in their order.
fn take_all(net: &mut Net, filter: &Filter, held: Vec<Vec<Change>>) -> Result<(), WantOfMemory>
    requires { HasRoomFor (length (changes_in held.items)) net.old }
    ensures { OnOk result (Takes filter.now net.old (changes_in held.items) net.new) }
{
    net.limits();
    for changes in held {
        net.take(filter, changes)?;
    }
    Ok(())
}
