//! A state: a sequence number, and the time up to which its changes reach.

ghost use Rattle.std.specs.Prelude.{◌≡◌, ◌<◌, ◌⊎◌, ◌↔◌, IsNone, IfSome};
ghost use Rattle.osm_model.specs.Limits.{max_sequence};
ghost use Rattle.osm_state.specs.State.{IsState};

use osm_model::limits::MAX_SEQUENCE;
use std::marker::Model;

/// A sequence number from 0 to 999,999,999, and a time from 1 to 4,294,967,295 in seconds since
/// 1970-01-01T00:00:00Z (the limits are our choice).
#[derive(Clone, Copy, Debug, PartialEq, Eq)]
pub struct State {
    sequence: u32,
    time: u32,
}

impl Model for State {
    ghost use Rattle.osm_state.specs.State.{StateValue, IsState};

    ghost Value = { StateValue };

    ghost view = { λ a. record { sequence = a.sequence; time = a.time } };

    ghost invariant = { λ a. IsState (record { sequence = a.sequence; time = a.time }) };

    ghost inverse = { λ s. record { sequence = s.sequence; time = s.time } };
}

impl State {
    /// The state of the given sequence number and time; none if the number is above 999,999,999 or
    /// the time is 0.
    pub fn new(sequence: u32, time: u32) -> Option<State>
        ensures refused { IsNone result ↔ ((max_sequence < sequence) ⊎ (time ≡ 0)) }
        ensures value { IfSome result (λ s. s ≡ record { sequence = sequence; time = time }) }
        ensures limits { IfSome result (λ s. IsState s) }
    {
        if MAX_SEQUENCE < sequence || time == 0 {
            return None;
        }
        Some(State { sequence, time })
    }

    /// A state whose parts are known to be within the limits.
    pub(crate) fn within_limits(sequence: u32, time: u32) -> State
        requires { IsState (record { sequence = sequence; time = time }) }
        ensures { result ≡ record { sequence = sequence; time = time } }
    {
        State { sequence, time }
    }

    pub fn sequence(&self) -> u32
        ensures sequence { result ≡ self.now.sequence }
        ensures limits { IsState self.now }
    {
        self.sequence
    }

    /// The time, in seconds since 1970-01-01T00:00:00Z.
    pub fn time(&self) -> u32
        ensures time { result ≡ self.now.time }
        ensures limits { IsState self.now }
    {
        self.time
    }
}
