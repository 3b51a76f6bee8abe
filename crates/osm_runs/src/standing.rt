//! Where a follower stands beside a folder.

ghost use Rattle.std.specs.Prelude.{◌≡◌};
ghost use Rattle.osm_runs.specs.Following.{standing_from};

use crate::json_line::Standing;
use osm_save::head::Head;
use osm_state::state::State;

/// The head of a follower that has taken no sequence.
pub const NO_HEAD: Head = Head {
    number: 0,
    base: 0,
    time: None,
};

/// Gives where a follower at that head stands beside the folder's newest state.
pub fn standing_from(head: Head, top: &State) -> Standing
    ensures { result ≡ standing_from head top.now }
{
    Standing {
        number: head.number,
        time: head.time,
        base: head.base,
        top: top.sequence(),
        top_time: top.time(),
    }
}
