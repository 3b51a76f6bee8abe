//! Why a reader refuses its input.

use osm_model::form::Why;
use osm_model::memory::WantOfMemory;
use std::alloc::{AllocError, AllocFailed};
use thiserror::Error;

/// Why a line or a part of a file can't be read.
#[derive(Clone, Copy, Debug, PartialEq, Eq, Error)]
pub enum Refusal {
    /// Out of memory.
    #[error("WantOfMemory")]
    WantOfMemory,
    /// The bytes don't match the grammar.
    #[error("Fault")]
    Fault(Why),
}

impl From<Why> for Refusal {
    ghost use Rattle.std.specs.Prelude.{◌≡◌};
    ghost use Rattle.osm_reading.specs.declared.refusal.Refusal.TheVariants.{Fault};

    ghost from_gives = { λ why e. e ≡ Fault why };

    fn from(why: Why) -> Refusal {
        Refusal::Fault(why)
    }
}

impl From<WantOfMemory> for Refusal {
    ghost use Rattle.std.specs.Prelude.{◌≡◌};
    ghost use Rattle.osm_reading.specs.declared.refusal.Refusal.TheVariants as refusals;

    ghost from_gives = { λ _ e. e ≡ refusals.WantOfMemory };

    fn from(_error: WantOfMemory) -> Refusal {
        Refusal::WantOfMemory
    }
}

impl From<AllocError> for Refusal {
    ghost use Rattle.std.specs.Prelude.{◌≡◌};
    ghost use Rattle.osm_reading.specs.declared.refusal.Refusal.TheVariants as refusals;

    ghost from_gives = { λ _ e. e ≡ refusals.WantOfMemory };

    fn from(_error: AllocError) -> Refusal {
        Refusal::WantOfMemory
    }
}

impl<T: Drop> From<AllocFailed<T>> for Refusal {
    ghost use Rattle.std.specs.Prelude.{◌≡◌};
    ghost use Rattle.osm_reading.specs.declared.refusal.Refusal.TheVariants as refusals;

    ghost from_gives = { λ _ e. e ≡ refusals.WantOfMemory };

    fn from(_error: AllocFailed<T>) -> Refusal {
        Refusal::WantOfMemory
    }
}
