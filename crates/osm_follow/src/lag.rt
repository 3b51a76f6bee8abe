//! How far a follower is behind what was published.

ghost use Rattle.osm_follow.specs.Lag.{LagsFrom};

use osm_state::state::State;
use thiserror::Error;

/// What a follower still has to apply to reach a state.
#[derive(Clone, Copy, Debug, PartialEq, Eq)]
pub struct Lag {
    /// How many sequences, including those that are held.
    pub behind: u32,
    /// The seconds from the follower's time to the state's; none if the follower has no time.
    pub seconds: Option<u32>,
}

/// Why there is no lag.
#[derive(Clone, Copy, Debug, PartialEq, Eq, Error)]
pub enum LagError {
    /// The follower is broken.
    #[error("Broken")]
    Broken,
    /// The state's sequence is below the follower's number.
    #[error("TopBehind")]
    TopBehind,
    /// The state's time is before the follower's.
    #[error("TimeBehind")]
    TimeBehind,
}

/// How far a follower at the given number and time is behind the given state. The follower isn't
/// broken. Takes no memory.
pub fn lag_from(number: u32, time: Option<u32>, state: &State) -> Result<Lag, LagError>
    ensures { LagsFrom number time state.now result }
{
    if state.sequence() < number {
        return Err(LagError::TopBehind);
    }
    let seconds = match time {
        None => None,
        Some(time) if time <= state.time() => Some(state.time() - time),
        Some(_) => return Err(LagError::TimeBehind),
    };
    Ok(Lag {
        behind: state.sequence() - number,
        seconds,
    })
}
