//! The outcome of a run of the follower.

ghost use Rattle.std.specs.Prelude.{ℕ, MatchOption};
ghost use Rattle.osm_runs.specs.Progress.{IsOfContent};

use crate::fault::{FileName, RunFault};
use crate::report::Report;
use osm_state::paths::Suffix;

/// What a run of the follower did.
#[derive(Debug, Drop)]
pub enum Progress {
    /// The run reached the newest number, its limit, or the number before the first missing one.
    Whole(Report),
    /// The run took as many bytes of change files as one part may have, and looked at no further
    /// number. The report is that of a run with the limit `count`, the number of sequences that
    /// were taken. `applied` has the lines of the report without the last one, which names the
    /// number.
    Part {
        report: Report,
        applied: Report,
        count: u32,
    },
    /// The run reached the number before a faulty one; the fault is that of the faulty number.
    Before(Report, RunFault),
}

/// Gives the number whose files are faulty, if they are the cause of the fault.
pub fn faulty_number(fault: &RunFault) -> Option<u32>
    ensures { MatchOption result
        ((number : ℕ) → IsOfContent fault.now number → ⊥) (IsOfContent fault.now) }
{
    match fault {
        RunFault::TooLarge(FileName::Sequence(number, _)) => Some(*number),
        RunFault::BadState(FileName::Sequence(number, Suffix::State), _) => Some(*number),
        RunFault::Mismatch(number) | RunFault::OlderNumber(number) => Some(*number),
        RunFault::BadChange(FileName::Sequence(number, _), _, _) => Some(*number),
        _ => None,
    }
}
