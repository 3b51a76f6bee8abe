//! Lines of JSON, each an object followed by LF. All keys are always there, sorted; a value that
//! isn't known is null.

ghost use Rattle.std.specs.Prelude.{◌≡◌, ◌≤◌, IfOk, option_map};
ghost use Rattle.osm_runs.specs.JsonLine.{fault_data, follow_data, json_line, lag_data};

use crate::json_values::{fault_value, follow_value, lag_value, line_of};
use osm_model::memory::WantOfMemory;
use std::alloc::Global;

/// How far a follower of a folder has come.
#[derive(Clone, Copy, Debug, PartialEq, Eq)]
pub struct Standing {
    /// The number of the last sequence that was applied; 0 at the start.
    pub number: u32,
    /// The time of that sequence, in seconds since 1970-01-01T00:00:00Z; none at number 0.
    pub time: Option<u32>,
    /// The number after which edits are counted.
    pub base: u32,
    /// The number of the folder's newest sequence.
    pub top: u32,
    /// The time of the folder's newest sequence, in seconds since 1970-01-01T00:00:00Z.
    pub top_time: u32,
}

/// Writes the line of a run that followed a folder: where the follower stands, the ranges applied,
/// the missing numbers, and the text of the fault that ended the run, if any.
#[tactic(auto, using(crate::proofs::JsonFloatLemmas::no_follow))]
pub fn follow_line(
    alloc: Global,
    standing: Standing,
    applied: &[(u32, u32)],
    missing: &[u32],
    fault: Option<&str>,
) -> Result<Vec<u8>, WantOfMemory>
    requires { standing.number ≤ standing.top }
    ensures { IfOk result (λ line. line.items
        ≡ json_line (follow_data standing applied.now missing.now
        (option_map (λ said. said.now) fault.entry))) }
{
    let value = follow_value(alloc, standing, applied, missing, fault)?;
    Ok(line_of(alloc, &value)?)
}

/// Writes the line of a run that looked how far a follower is behind.
#[tactic(auto, using(crate::proofs::JsonFloatLemmas::no_lag))]
pub fn lag_line(alloc: Global, standing: Standing) -> Result<Vec<u8>, WantOfMemory>
    requires { standing.number ≤ standing.top }
    ensures { IfOk result (λ line. line.items ≡ json_line (lag_data standing)) }
{
    let value = lag_value(alloc, standing)?;
    Ok(line_of(alloc, &value)?)
}

/// Writes the line of a run that was refused: only the text of its fault is known.
#[tactic(auto, using(crate::proofs::JsonFloatLemmas::no_fault))]
pub fn fault_line(alloc: Global, fault: &str) -> Result<Vec<u8>, WantOfMemory>
    ensures { IfOk result (λ line. line.items ≡ json_line (fault_data fault.now)) }
{
    let value = fault_value(alloc, fault)?;
    Ok(line_of(alloc, &value)?)
}
