//! What takes the changes of numbers.

ghost use Rattle.std.specs.Prelude.{◌≡◌, ◌++◌, ◌∷◌, [], List, OnOk};
ghost use Rattle.osm_publisher.specs.Published.{PublishedValue};
ghost use Rattle.osm_range.specs.Taking.{IsTaking};

use osm_model::change::Change;
use osm_model::memory::WantOfMemory;
use std::alloc::Global;

/// Takes the changes of numbers, one number after the other.
pub trait NumberTaker {
    /// The taker holds what these sequences come to.
    ghost holds: { Self → List PublishedValue → Type 0 };

    /// The settings of a taker, as a filter.
    ghost Settings: { Type 0 };

    /// What the taker was set to, which stays while it takes.
    ghost settings: { Self → Self.Settings };

    /// Takes the changes of one more sequence.
    fn take(
        &mut self,
        alloc: Global,
        number: u32,
        time: u32,
        changes: Vec<Change>,
    ) -> Result<(), WantOfMemory>
        requires { IsTaking holds self.old number time changes.items }
        ensures taken { OnOk result ((before : List PublishedValue) → holds self.old before
            → holds self.new (before ++ record {
              number = number;
              changes = changes.items;
              time = time;
            } ∷ [])) }
        ensures same { settings self.new ≡ settings self.old };
}
