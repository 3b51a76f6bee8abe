//! What an audit finds.

use osm_model::form::Why;
use osm_runs::fault::FileName;
use osm_state::state_text::StateError;

/// Why a file of a folder is wrong. The texts are those of a run's faults, without the name of the
/// file.
#[derive(Clone, Copy, Debug, PartialEq, Eq)]
pub enum Cause {
    /// There is no such file. For an o5c file, there is no OPL file either.
    Absent,
    /// The file is over its limit.
    TooLarge,
    /// The bytes of a state file aren't a state.
    BadState(StateError),
    /// The state file names another number.
    Mismatch,
    /// The time of a state is before that of the number before it.
    TimeBack,
    /// The bytes of a change file spell no batch. They go wrong at that place, as the file's form
    /// counts places.
    BadChange(u64, Why),
    /// The changes of the OPL file aren't those of the o5c file, or the time of the newest state
    /// isn't that of its number's own state.
    Differs,
}

/// One finding of an audit.
#[derive(Clone, Copy, Debug, PartialEq, Eq)]
pub enum Found {
    /// These numbers, from the first to the last, have no file at all. The numbers on both sides of
    /// the range have a file or aren't audited.
    Numbers(u32, u32),
    /// A file is wrong.
    File(Finding),
}

/// A file of a folder that is wrong.
#[derive(Clone, Copy, Debug, PartialEq, Eq)]
pub struct Finding {
    /// The number whose file it is; for the newest state, the last number of the audit.
    pub number: u32,
    /// The file.
    pub file: FileName,
    /// Why it is wrong.
    pub cause: Cause,
}
