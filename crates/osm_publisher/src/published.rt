//! Published sequences, as files.

ghost use Rattle.std.specs.Prelude.{◌≡◌, ◌≤◌, length, IfOk, OnOk, IfErr};
ghost use Rattle.osm_model.specs.Limits.{max_file};
ghost use Rattle.osm_publisher.specs.Published.{written_of};
ghost use Rattle.osm_publisher.specs.Steps.Closing.{TextStops, WriteStops};
ghost use Rattle.osm_publisher.specs.Publisher.{IsSmall, IsTooLarge};

use crate::publisher::CloseError;
use osm_model::batch::Batch;
use osm_model::form::{ChangeForm, FormError};
use osm_o5c::o5c::O5c;
use osm_opl::opl::Opl;
use osm_state::state::State;
use osm_state::state_text::state_write;
use std::alloc::Global;
use std::marker::Model;

/// The files of a sequence: its state text, and its changes in o5c and in OPL.
#[derive(Debug, Drop)]
pub struct Published {
    number: u32,
    state: Vec<u8>,
    o5c: Vec<u8>,
    opl: Vec<u8>,
}

impl Model for Published {
    ghost use Rattle.osm_publisher.specs.Published.{PublishedTexts};

    ghost Value = { PublishedTexts };

    ghost view = { λ a. record {
      number = a.number;
      state = a.state.items;
      o5c = a.o5c.items;
      opl = a.opl.items;
    } };
}

impl Published {
    /// Makes the files of the sequence with that state and those changes.
    pub(crate) fn write(
        alloc: Global,
        state: &State,
        batch: &Batch,
    ) -> Result<Published, CloseError>
        ensures written { IfOk result (λ p. p ≡ written_of (record {
          number = state.now.sequence;
          changes = batch.now;
          time = state.now.time;
        })) }
        ensures small { OnOk result (IsSmall batch.now) }
        ensures refused { IfErr result (WriteStops batch.now) }
    {
        let opl = write_text::<Opl>(alloc, batch)?;
        let o5c = write_text::<O5c>(alloc, batch)?;
        let Ok(text) = state_write(alloc, state) else {
            return Err(CloseError::WantOfMemory);
        };
        Ok(Published {
            number: state.sequence(),
            state: text,
            o5c,
            opl,
        })
    }

    /// The number of the sequence, counted from 1.
    pub fn number(&self) -> u32
        ensures { result ≡ self.now.number }
    {
        self.number
    }

    /// The text of the state file.
    pub fn state(&self) -> &[u8]
        ensures { result.now ≡ self.now.state }
    {
        self.state.as_slice()
    }

    /// The changes as an o5c file.
    pub fn o5c(&self) -> &[u8]
        ensures { result.now ≡ self.now.o5c }
    {
        self.o5c.as_slice()
    }

    /// The changes as an OPL file.
    pub fn opl(&self) -> &[u8]
        ensures { result.now ≡ self.now.opl }
    {
        self.opl.as_slice()
    }
}

// The text of a batch in a form. Writing never meets a fault.
fn write_text<F: ChangeForm>(alloc: Global, batch: &Batch) -> Result<Vec<u8>, CloseError>
    ensures text { IfOk result (λ v. v.items ≡ F.text batch.now) }
    ensures small { OnOk result (length (F.text batch.now) ≤ max_file) }
    ensures refused { IfErr result (TextStops (F.text batch.now)) }
{
    match F::write(alloc, batch) {
        Ok(text) => Ok(text),
        Err(FormError::TooLarge) => Err(CloseError::TooLarge),
        Err(FormError::WantOfMemory) => Err(CloseError::WantOfMemory),
        Err(FormError::Fault { place: _, why: _ }) => unreachable!(),
    }
}
