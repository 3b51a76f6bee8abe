//! Why a save isn't searched.

use osm_model::memory::WantOfMemory;
use thiserror::Error;

/// Why a save isn't searched.
#[derive(Clone, Copy, Debug, PartialEq, Eq, Error)]
pub enum SearchFault {
    /// The device failed.
    #[error("Failed")]
    Failed,
    /// There is no such file.
    #[error("Gone")]
    Gone,
    /// The save doesn't begin with the lines of a save text through the number of its objects. The
    /// line, counted from 1, is the first that can't follow those before it.
    #[error("BadHead")]
    BadHead(u64),
    /// The line at that byte, counted from 0, is no object where one is looked for, or the file
    /// ends there.
    #[error("BadLine")]
    BadLine(u64),
    /// The file has more bytes than 64 bits count.
    #[error("TooLarge")]
    TooLarge,
    /// Memory was refused.
    #[error("WantOfMemory")]
    WantOfMemory,
}

impl From<WantOfMemory> for SearchFault {
    ghost use Rattle.std.specs.Prelude.{◌≡◌};
    ghost use Rattle.osm_asking.specs.declared.fault.SearchFault.TheVariants as faults;

    ghost from_gives = { λ _ e. e ≡ faults.WantOfMemory };

    fn from(_error: WantOfMemory) -> SearchFault {
        SearchFault::WantOfMemory
    }
}
