//! Why a save and its journal don't answer.

use crate::fault::SearchFault;
use osm_kept::fault::KeptFault;
use thiserror::Error;

/// Why a save and its journal don't answer.
#[derive(Clone, Copy, Debug, PartialEq, Eq, Error)]
pub enum AskFault {
    /// There is no save.
    #[error("NoSave")]
    NoSave,
    /// The journal or the beginning of the save isn't read.
    #[error("Kept: {0}")]
    Kept(KeptFault),
    /// The save isn't searched.
    #[error("Search: {0}")]
    Search(SearchFault),
    /// Not all was written to standard output.
    #[error("NotWritten")]
    NotWritten,
    /// Memory was refused.
    #[error("WantOfMemory")]
    WantOfMemory,
}
