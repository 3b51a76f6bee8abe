//! A publisher of sequences.

ghost use Rattle.std.specs.Prelude.{◌≡◌, ◌<◌, ◌≤◌, ◌++◌, [], ◌∷◌, length, OnOk, OnErr, IfErr};
ghost use Rattle.osm_model.specs.Batch.{IsBatch};
ghost use Rattle.osm_model.specs.Limits.{IsPositive, max_changes, max_sequence};
ghost use Rattle.osm_publisher.specs.Publisher.{CanClose, CloseBarred, Closes, EditStops};
ghost use Rattle.osm_publisher.specs.Publisher.{new_publisher};

use crate::published::Published;
use osm_model::batch::{Batch, PushError};
use osm_model::change::Change;
use osm_model::limits::MAX_SEQUENCE;
use osm_state::state::State;
use std::alloc::Global;
use std::marker::Model;
use thiserror::Error;

/// The number and the time of the last sequence, and the edits since then.
#[derive(Debug, Drop)]
pub struct Publisher {
    number: u32,
    time: u32,
    pending: Batch,
}

impl Model for Publisher {
    ghost use Rattle.std.specs.Prelude.{◌≤◌};
    ghost use Rattle.osm_model.specs.Limits.{IsPositive, max_sequence};
    ghost use Rattle.osm_publisher.specs.Publisher.{PublisherValue};

    ghost Value = { PublisherValue };

    ghost view = { λ a. record { number = a.number; time = a.time; pending = a.pending } };

    ghost invariant = { λ a. (a.number ≤ max_sequence) × IsPositive a.time };
}

/// Why an edit was refused; the edit is handed back.
#[derive(Debug, Drop, PartialEq, Error)]
pub enum EditError {
    /// 100,000 edits are pending.
    #[error("BatchFull")]
    BatchFull(Change),
    /// Memory was refused.
    #[error("WantOfMemory")]
    WantOfMemory(Change),
}

/// Why the pending edits weren't published; they stay pending.
#[derive(Clone, Copy, Debug, PartialEq, Eq, Error)]
pub enum CloseError {
    /// The last sequence, 999,999,999, is already published.
    #[error("SequenceFull")]
    SequenceFull,
    /// The time is before that of the last sequence, or is 0.
    #[error("TimeBack")]
    TimeBack,
    /// The o5c file or the OPL file would have more than 64 MiB.
    #[error("TooLarge")]
    TooLarge,
    /// Memory was refused.
    #[error("WantOfMemory")]
    WantOfMemory,
}

impl Publisher {
    /// A publisher that has published nothing.
    pub fn new(alloc: Global) -> Publisher
        ensures { result ≡ new_publisher }
    {
        Publisher {
            number: 0,
            time: 1,
            pending: Batch::new(alloc),
        }
    }

    /// A publisher that continues after the sequence of the given state, with nothing pending.
    pub fn resume(alloc: Global, state: &State) -> Publisher
        ensures { result ≡ record {
          number = state.now.sequence;
          time = state.now.time;
          pending = [];
        } }
    {
        Publisher {
            number: state.sequence(),
            time: state.time(),
            pending: Batch::new(alloc),
        }
    }

    /// The number of the last published sequence; 0 before the first.
    pub fn number(&self) -> u32
        ensures number { result ≡ self.now.number }
        ensures most { result ≤ max_sequence }
    {
        self.number
    }

    /// The edits since the last sequence.
    pub fn pending(&self) -> &Batch
        ensures { result.now ≡ self.now.pending }
    {
        &self.pending
    }

    /// Adds an edit after the pending edits.
    pub fn edit(&mut self, change: Change) -> Result<(), EditError>
        ensures taken { OnOk result (self.new
            ≡ record self.old { pending = self.old.pending ++ change ∷ [] }) }
        ensures room { OnOk result (length self.old.pending < max_changes) }
        ensures limits { IsBatch self.new.pending }
        ensures refused { IfErr result (EditStops self.old change) }
        ensures unchanged { OnErr result (self.new ≡ self.old) }
    {
        match self.pending.push(change) {
            Ok(()) => {
                self.pending.limits();
                Ok(())
            }
            Err(PushError::Full(change)) => {
                self.pending.limits();
                Err(EditError::BatchFull(change))
            }
            Err(PushError::WantOfMemory(change)) => {
                self.pending.limits();
                Err(EditError::WantOfMemory(change))
            }
        }
    }

    /// Makes a whole batch the pending edits. No edits may be pending before.
    pub fn take(&mut self, batch: Batch)
        requires { self.old.pending ≡ [] }
        ensures { self.new ≡ record self.old { pending = batch } }
    {
        self.pending = batch;
    }

    /// Checks whether a close at the given time may succeed; an error if it fails whatever is
    /// pending.
    pub fn check_close(&self, time: u32) -> Result<(), CloseError>
        ensures open { OnOk result (CanClose self.now time) }
        ensures time { OnOk result (IsPositive time) }
        ensures pending { IsBatch self.now.pending }
        ensures refused { IfErr result (CloseBarred self.now time) }
    {
        self.pending.limits();
        if self.number >= MAX_SEQUENCE {
            return Err(CloseError::SequenceFull);
        }
        if time < self.time {
            return Err(CloseError::TimeBack);
        }
        Ok(())
    }

    /// Publishes the pending edits as the next sequence, at the given time in seconds since
    /// 1970-01-01T00:00:00Z.
    pub fn close(&mut self, alloc: Global, time: u32) -> Result<Published, CloseError>
        ensures { Closes self.old time result self.new }
    {
        self.check_close(time)?;
        let state = State::new(self.number + 1, time).unwrap();
        let published = Published::write(alloc, &state, &self.pending)?;
        self.number += 1;
        self.time = time;
        self.pending = Batch::new(alloc);
        Ok(published)
    }
}
