//! Why a file couldn't be read or written in blocks.

ghost use Rattle.std.specs.Prelude.{◌↔◌};
ghost use Rattle.osm_blocks.specs.Frames.{IsDeviceFault, IsPlain};
ghost use Rattle.osm_store.specs.Files.{NeverTooLarge};
ghost use Rattle.osm_store.specs.Frames.{IsDevice};

use osm_model::memory::WantOfMemory;
use osm_store::store::StoreError;
use std::alloc::{AllocError, AllocFailed};
use thiserror::Error;

/// Why a file couldn't be read or written in blocks.
#[derive(Clone, Copy, Debug, PartialEq, Eq, Error)]
pub enum BlockFault {
    /// The device failed.
    #[error("Device")]
    Device,
    /// A line has more than 256 MiB.
    #[error("LongLine")]
    LongLine,
    /// The file has more bytes than 64 bits count.
    #[error("TooLarge")]
    TooLarge,
    /// Memory was refused.
    #[error("WantOfMemory")]
    WantOfMemory,
}

impl From<AllocError> for BlockFault {
    ghost use Rattle.std.specs.Prelude.{◌≡◌};
    ghost use Rattle.osm_blocks.specs.declared.fault.BlockFault.TheVariants as faults;

    ghost from_gives = { λ _ e. e ≡ faults.WantOfMemory };

    fn from(_error: AllocError) -> BlockFault {
        BlockFault::WantOfMemory
    }
}

impl<T: Drop> From<AllocFailed<T>> for BlockFault {
    ghost use Rattle.std.specs.Prelude.{◌≡◌};
    ghost use Rattle.osm_blocks.specs.declared.fault.BlockFault.TheVariants as faults;

    ghost from_gives = { λ _ e. e ≡ faults.WantOfMemory };

    fn from(_error: AllocFailed<T>) -> BlockFault {
        BlockFault::WantOfMemory
    }
}

impl From<WantOfMemory> for BlockFault {
    ghost use Rattle.std.specs.Prelude.{◌≡◌};
    ghost use Rattle.osm_blocks.specs.declared.fault.BlockFault.TheVariants as faults;

    ghost from_gives = { λ _ e. e ≡ faults.WantOfMemory };

    fn from(_error: WantOfMemory) -> BlockFault {
        BlockFault::WantOfMemory
    }
}

/// The fault of a store that never calls a file too large.
pub(crate) fn fault_of(error: StoreError) -> BlockFault
    ensures device { IsDevice error ↔ IsDeviceFault result }
    ensures other { NeverTooLarge error → IsPlain result }
{
    match error {
        StoreError::Device => BlockFault::Device,
        StoreError::TooLarge => BlockFault::TooLarge,
        StoreError::WantOfMemory => BlockFault::WantOfMemory,
    }
}
