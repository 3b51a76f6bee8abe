//! Net changes as lists, which are merged with the lists of a save.

ghost use Rattle.std.specs.Prelude.{◌≡◌};
ghost use Rattle.osm_net.specs.Lists.{net_in};
ghost use Rattle.osm_net.specs.Net.{no_net};

use osm_model::change::Change;
use osm_model::kind::Key;
use std::alloc::Global;

/// The lists of net changes.
#[derive(Drop)]
pub struct NetLists {
    /// What is left of each object that was changed, by rising keys; None if it goes away.
    pub objects: Vec<(Key, Option<Change>)>,
    /// The edits of each user, by rising ids.
    pub users: Vec<(u32, u64)>,
    /// The edits in each changeset, by rising ids.
    pub changesets: Vec<(u32, u64)>,
}

impl NetLists {
    /// The lists of no changes; takes no memory.
    pub fn new(alloc: Global) -> NetLists
        ensures { net_in result ≡ no_net }
    {
        NetLists {
            objects: Vec::new(alloc),
            users: Vec::new(alloc),
            changesets: Vec::new(alloc),
        }
    }
}
