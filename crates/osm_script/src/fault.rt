//! Why a script isn't read or replayed.

use thiserror::Error;

/// Why a script isn't read or replayed. In the texts, `input` is the file that holds the script,
/// and `output` the one that gets the reply text.
#[derive(Clone, Copy, Debug, PartialEq, Eq, Error)]
pub enum ScriptFault {
    /// Memory was refused.
    #[error("out of memory")]
    WantOfMemory,
    /// The reader failed.
    #[error("input: read failed")]
    ReadFault,
    /// The script has more than 64 MiB.
    #[error("input: too large")]
    TooLarge,
    /// A line of the script, counted from 1 over all lines, is neither skipped nor an event.
    #[error("input: line {0}")]
    BadScript(u64),
    /// The writer failed, or took nothing.
    #[error("output: write failed")]
    WriteFault,
}
