//! Why the reader of save texts stops.

use osm_model::memory::WantOfMemory;
use std::alloc::{AllocError, AllocFailed};

/// Why reading stops.
#[derive(Clone, Copy, Debug, PartialEq, Eq)]
pub enum Stop {
    /// A line is wrong. The number is the count of bytes from the start of that line on.
    Wrong(usize),
    /// Memory was refused.
    WantOfMemory,
}

impl From<WantOfMemory> for Stop {
    ghost use Rattle.std.specs.Prelude.{◌≡◌};
    ghost use Rattle.osm_save.specs.declared.stop.Stop.TheVariants as stops;

    ghost from_gives = { λ _ e. e ≡ stops.WantOfMemory };

    fn from(_error: WantOfMemory) -> Stop {
        Stop::WantOfMemory
    }
}
