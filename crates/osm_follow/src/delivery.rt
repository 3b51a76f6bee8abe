//! What a follower answers to a delivery.

use osm_model::form::FormError;
use osm_state::state::State;
use osm_state::state_text::StateError;
use thiserror::Error;

/// What became of a sequence that was delivered.
#[derive(Clone, Copy, Debug, PartialEq, Eq)]
pub enum Delivered {
    /// The number was applied before.
    Old,
    /// The number is held already.
    Again,
    /// The sequence is held until the sequences before it are applied.
    Held,
    /// The sequences from `low` to `high` were applied.
    Applied { low: u32, high: u32 },
}

/// Why a delivered sequence was refused. Nothing has changed, except after `Broke`.
#[derive(Clone, Copy, Debug, PartialEq, Eq, Error)]
pub enum DeliverError {
    /// The follower is broken.
    #[error("Broken")]
    Broken,
    /// The state text can't be read.
    #[error("BadState")]
    BadState(StateError),
    /// The state text names sequence 0, the empty start, which has no change file.
    #[error("BadSequence")]
    BadSequence,
    /// The number is more than 64 above the follower's.
    #[error("TooEarly")]
    TooEarly,
    /// The bytes are more than 64 MiB, or spell no batch.
    #[error("BadChange")]
    BadChange(FormError),
    /// Memory was refused while the bytes were read.
    #[error("WantOfMemory")]
    WantOfMemory,
    /// Memory was refused part-way through the application: the follower is now broken.
    #[error("Broke")]
    Broke,
}

/// What is due of a delivery before its bytes are read.
pub(crate) enum Due {
    /// The bytes are read: they are of the sequence of this state.
    Read(State),
    /// This answer, whatever the bytes are.
    Answer(Result<Delivered, DeliverError>),
}
