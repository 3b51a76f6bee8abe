//! Why the objects of a data file couldn't be read.

ghost use Rattle.std.specs.Prelude.{◌≡◌};
ghost use Rattle.osm_data.specs.Reading.{blocks_fault_of};

use osm_blocks::fault::BlockFault;
use osm_model::form::Why;
use thiserror::Error;

/// Why the objects of a data file couldn't be read.
#[derive(Clone, Copy, Debug, PartialEq, Eq, Error)]
pub enum DataFault {
    /// The device failed.
    #[error("Device")]
    Device,
    /// Memory was refused.
    #[error("WantOfMemory")]
    WantOfMemory,
    /// There is no such file.
    #[error("NoFile")]
    NoFile,
    /// The file is no data file. The place is the number of the line or the offset of the dataset,
    /// as the form says.
    #[error("BadData")]
    BadData { place: u64, why: Why },
    /// A line or a dataset of the file has more than 64 MiB.
    #[error("LongPart")]
    LongPart,
    /// The file has more bytes than 64 bits count.
    #[error("TooLarge")]
    TooLarge,
}

/// The fault of a data file whose blocks couldn't be read.
pub fn fault_of_blocks(fault: BlockFault) -> DataFault
    ensures { result ≡ blocks_fault_of fault }
{
    match fault {
        BlockFault::Device => DataFault::Device,
        BlockFault::LongLine => DataFault::LongPart,
        BlockFault::TooLarge => DataFault::TooLarge,
        BlockFault::WantOfMemory => DataFault::WantOfMemory,
    }
}
