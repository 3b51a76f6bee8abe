//! Why a save and its journal aren't read.

use osm_journal::journal::JournalError;
use osm_model::memory::WantOfMemory;
use thiserror::Error;

/// Why a save and its journal aren't read.
#[derive(Clone, Copy, Debug, PartialEq, Eq, Error)]
pub enum KeptFault {
    /// The device failed while the journal was read.
    #[error("journal: read failed")]
    JournalFailed,
    /// The journal has more than 64 MiB.
    #[error("journal: too large")]
    JournalTooLarge,
    /// The file isn't empty and isn't a journal, as `JournalError` says; or the journal belongs to
    /// the save, but a batch isn't a change file. The line, counted from 1, is then that of the
    /// first such batch.
    #[error("journal: line {0}")]
    BadJournal(u64),
    /// The journal is one of another save, and the number of its last batch, which is given, is
    /// above that of the save; or there is no save.
    #[error("journal: of another save, at {0}")]
    OtherJournal(u32),
    /// The device failed while the save was read.
    #[error("save: read failed")]
    SaveFailed,
    /// The save doesn't begin with the lines of a save text through the number of its objects. The
    /// line, counted from 1, is the first that can't follow those before it, or one past the last
    /// line if the text ends too early.
    #[error("save: line {0}")]
    BadSave(u64),
    /// The two files weren't the same when they were read again.
    #[error("save: changed while it was read")]
    Changed,
    /// Memory was refused.
    #[error("out of memory")]
    WantOfMemory,
}

impl From<WantOfMemory> for KeptFault {
    ghost use Rattle.std.specs.Prelude.{◌≡◌};
    ghost use Rattle.osm_kept.specs.declared.fault.KeptFault.TheVariants as faults;

    ghost from_gives = { λ _ e. e ≡ faults.WantOfMemory };

    fn from(_error: WantOfMemory) -> KeptFault {
        KeptFault::WantOfMemory
    }
}
