//! The options of a run of the follower.

ghost use Rattle.std.specs.Prelude.{◌≡◌, ℕ, ◌<◌, IfErr, IfOk};
ghost use Rattle.osm_reading.specs.Sequence.{SpellsSequence};
ghost use Rattle.osm_runs.specs.Following.{last_number, plainly};
ghost use Rattle.osm_runs.specs.declared.fault.RunFault.TheVariants.{BadLimit};

use crate::fault::RunFault;
use osm_model::filter::Filter;
use osm_reading::sequence::sequence_read;

/// What a report looks like.
#[derive(Clone, Copy, Debug, PartialEq, Eq)]
pub enum Layout {
    /// One line for each fact.
    Lines,
    /// One line, a JSON object.
    Json,
}

/// The options of a run of the follower.
#[derive(Debug, Drop)]
pub struct FollowOptions {
    /// The objects that the save keeps.
    pub filter: Filter,
    /// The most numbers that the run takes; None if there is no limit.
    pub limit: Option<u32>,
    /// What the report looks like.
    pub layout: Layout,
    /// The data file that a save begins with may be newer than its state by more than eight days.
    pub any_time: bool,
}

impl FollowOptions {
    /// Options without a limit, with a report in lines, and without `any_time`.
    pub fn new(filter: Filter) -> FollowOptions
        ensures { result ≡ plainly filter }
    {
        FollowOptions {
            filter,
            limit: None,
            layout: Layout::Lines,
            any_time: false,
        }
    }
}

/// Gives the last number that a run from `number` may take: `top`, or `limit` numbers on if that is
/// less.
pub fn last_number(limit: Option<u32>, number: u32, top: u32) -> u32
    ensures { result ≡ last_number limit number top }
{
    match limit {
        None => top,
        Some(limit) => top.min(number.saturating_add(limit)),
    }
}

/// Reads a limit: 1 to 999,999,999, in 1 to 9 digits. Anything else is refused as `BadLimit`.
pub fn limit_of(word: &str) -> Result<u32, RunFault>
    ensures found { IfOk result (λ limit. SpellsSequence word.now limit × (0 < limit)) }
    ensures refused { IfErr result (λ fault. (fault ≡ BadLimit)
        × ((limit : ℕ) → SpellsSequence word.now limit → limit ≡ 0)) }
{
    match sequence_read(word.as_bytes()) {
        Some(limit) if limit > 0 => Ok(limit),
        _ => Err(RunFault::BadLimit),
    }
}
