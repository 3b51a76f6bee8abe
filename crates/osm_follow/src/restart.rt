//! Why a restart is refused.

use thiserror::Error;

/// Why a follower didn't restart from a save text. The follower is broken afterwards.
#[derive(Clone, Copy, Debug, PartialEq, Eq, Error)]
pub enum RestartError {
    /// The bytes are no save text. The line, counted from 1, is the first that can't follow the
    /// lines before it, or one past the last line if the text ends too early.
    #[error("BadSave")]
    BadSave { line: u64 },
    /// The bytes are the save text of a follower with another filter.
    #[error("OtherFilter")]
    OtherFilter,
    /// Memory was refused.
    #[error("WantOfMemory")]
    WantOfMemory,
}
