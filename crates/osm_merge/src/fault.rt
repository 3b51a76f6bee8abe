//! Why a save text isn't checked or merged.

ghost use Rattle.std.specs.Prelude.{◌≡◌, ◌↔◌};
ghost use Rattle.osm_blocks.specs.Frames as blocks;
ghost use Rattle.osm_merge.specs.Faults.{IsDeviceFault, IsPlain};
ghost use Rattle.osm_merge.specs.declared.fault.MergeFault.TheVariants.{WriteFault};
ghost use Rattle.osm_store.specs.Files.{NeverTooLarge};
ghost use Rattle.osm_store.specs.Frames.{IsDevice};

use osm_blocks::fault::BlockFault;
use osm_model::memory::WantOfMemory;
use osm_store::store::StoreError;
use thiserror::Error;

/// Why a save text isn't checked or merged.
#[derive(Clone, Copy, Debug, PartialEq, Eq, Error)]
pub enum MergeFault {
    /// The device failed while the file was read.
    #[error("ReadFault")]
    ReadFault,
    /// The device failed while the new file was begun, written or put into its place.
    #[error("WriteFault")]
    WriteFault,
    /// Memory was refused.
    #[error("WantOfMemory")]
    WantOfMemory,
    /// There is no such file.
    #[error("NoSave")]
    NoSave,
    /// The file is no save text. The line, counted from 1, is the first that can't follow those
    /// before it, or one past the last line if the text ends too early.
    #[error("BadSave")]
    BadSave { line: u64 },
    /// A line of the file has more than 256 MiB.
    #[error("LongLine")]
    LongLine,
    /// The file has more bytes than 64 bits can count, or the new file would have more objects than
    /// a save text may have.
    #[error("TooLarge")]
    TooLarge,
    /// The file changed between the two passes over it.
    #[error("Changed")]
    Changed,
}

impl From<BlockFault> for MergeFault {
    ghost use Rattle.osm_merge.specs.Faults.{IsCausedBy};

    ghost from_gives = { λ e fault. IsCausedBy e fault };

    fn from(error: BlockFault) -> MergeFault {
        match error {
            BlockFault::Device => MergeFault::ReadFault,
            BlockFault::LongLine => MergeFault::LongLine,
            BlockFault::TooLarge => MergeFault::TooLarge,
            BlockFault::WantOfMemory => MergeFault::WantOfMemory,
        }
    }
}

impl From<WantOfMemory> for MergeFault {
    ghost use Rattle.std.specs.Prelude.{◌≡◌};
    ghost use Rattle.osm_merge.specs.declared.fault.MergeFault.TheVariants as faults;

    ghost from_gives = { λ _ e. e ≡ faults.WantOfMemory };

    fn from(_error: WantOfMemory) -> MergeFault {
        MergeFault::WantOfMemory
    }
}

/// Translates the fault of a writer, which never calls a line or a file too long.
pub(crate) fn unwritten(fault: BlockFault) -> MergeFault
    ensures device { blocks.IsDeviceFault fault ↔ IsDeviceFault result }
    ensures write { blocks.IsDeviceFault fault → result ≡ WriteFault }
    ensures other { blocks.IsPlain fault → IsPlain result }
{
    match fault {
        BlockFault::Device => MergeFault::WriteFault,
        BlockFault::LongLine => MergeFault::LongLine,
        BlockFault::TooLarge => MergeFault::TooLarge,
        BlockFault::WantOfMemory => MergeFault::WantOfMemory,
    }
}

/// Translates the fault of a store that began a file or put it into its place, and never calls the
/// file too large.
pub(crate) fn fault_of(error: StoreError) -> MergeFault
    ensures device { IsDevice error ↔ IsDeviceFault result }
    ensures write { IsDevice error → result ≡ WriteFault }
    ensures other { NeverTooLarge error → IsPlain result }
{
    match error {
        StoreError::Device => MergeFault::WriteFault,
        StoreError::TooLarge => MergeFault::TooLarge,
        StoreError::WantOfMemory => MergeFault::WantOfMemory,
    }
}
