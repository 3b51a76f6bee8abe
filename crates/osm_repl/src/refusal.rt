//! Why a run isn't begun.

ghost use Rattle.std.specs.Prelude.{◌≡◌};
ghost use Rattle.osm_repl.specs.Ending.{status_of_refusal};

use crate::twice::{Another, Named};
use thiserror::Error;

/// Why a run isn't begun. Nothing was read or written, except that the lock's file and its folders
/// may have been made.
#[derive(Clone, Copy, Debug, PartialEq, Eq, Error)]
pub enum Refusal {
    /// The time of a publication is more than a day after the clock's time.
    #[error("time ahead")]
    TimeAhead,
    /// Another run holds the folder's lock.
    #[error("folder: in use")]
    FolderInUse,
    /// Another run holds the save's lock.
    #[error("save: in use")]
    SaveInUse,
    /// The file of the folder's lock can't be made or locked.
    #[error("folder: lock failed")]
    FolderLockFailed,
    /// The file of the save's lock can't be made or locked.
    #[error("save: lock failed")]
    SaveLockFailed,
    /// The system gives no random bytes, of which `changes` needs a seed.
    #[error("random bytes: read failed")]
    NoRandomBytes,
    /// Another word names a file that the run writes.
    #[error("{0}: is {1}")]
    SameFile(Named, Another),
    /// The sizes of `follow` aren't two numbers of bytes, or the second is above 64 MiB.
    #[error("bad sizes")]
    BadSizes,
}

impl Refusal {
    /// Gives the exit status of the program: 2 if the words are wrong, 4 if another run is at work
    /// on the folder or the save, otherwise 3.
    pub fn status(self) -> u8
        ensures { result ≡ status_of_refusal self }
    {
        match self {
            Refusal::BadSizes | Refusal::SameFile(_, _) => 2,
            Refusal::FolderInUse | Refusal::SaveInUse => 4,
            _ => 3,
        }
    }
}
