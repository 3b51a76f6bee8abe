//! The batches of a journal, as the net changes that they come to.

ghost use Rattle.std.specs.Prelude.{◌≤◌, length, map, IfErr, IfOk, OnOk};
ghost use Rattle.std.specs.List.{AllByRecursion};
ghost use Rattle.osm_model.specs.Batch as model;
ghost use Rattle.osm_model.specs.Limits.{max_changes, max_file, max_sequence};
ghost use Rattle.osm_net.specs.Net.{HasRoomFor};
ghost use Rattle.osm_o5c.specs.File.{SpellsO5c};
ghost use Rattle.osm_journal.specs.Journal.{IsBatch, batch_of};
ghost use Rattle.osm_kept.specs.Steps.Taking.{BatchStops, BatchesStop, HasTaken, TakesBatch};

use crate::fault::KeptFault;
use osm_journal::batch::Batch;
use osm_model::change::Change;
use osm_model::filter::Filter;
use osm_model::form::{ChangeForm, FormError};
use osm_net::net::Net;
use osm_o5c::o5c::O5c;
use std::alloc::Global;

/// Reads the change files of a journal's batches, and gives the net changes that they come to under
/// the filter. `first` is the line of the first batch.
pub(crate) fn take_batches(
    alloc: Global,
    filter: &Filter,
    first: u64,
    batches: &[Batch<'_>],
) -> Result<Net, KeptFault>
    requires each { AllByRecursion IsBatch (map batch_of batches.now) }
    requires few { length batches.now ≤ max_sequence }
    requires first { first ≤ max_file }
    ensures taken { IfOk result (HasTaken filter.now (map batch_of batches.now)) }
    ensures stops { IfErr result (BatchesStop first (map batch_of batches.now)) }
{
    let mut net = Net::new(alloc);
    let mut line = first;
    for batch in batches {
        match take_batch(alloc, filter, line, batch, &mut net) {
            Ok(()) => {}
            Err(fault) => return Err(fault),
        }
        line = line + 1;
    }
    Ok(net)
}

// Takes the batch with that line.
fn take_batch(
    alloc: Global,
    filter: &Filter,
    line: u64,
    batch: &Batch<'_>,
    net: &mut Net,
) -> Result<(), KeptFault>
    requires short { length (batch_of batch.now).bytes ≤ max_file }
    requires room { HasRoomFor max_changes net.old }
    ensures taken { OnOk result (TakesBatch filter.now (batch_of batch.now) net.old net.new) }
    ensures stops { IfErr result (BatchStops line (batch_of batch.now)) }
{
    let changes = changes_of(alloc, line, batch)?;
    net.take(filter, changes)?;
    Ok(())
}

// The changes of the batch with that line.
fn changes_of(alloc: Global, line: u64, batch: &Batch<'_>) -> Result<Vec<Change>, KeptFault>
    requires short { length (batch_of batch.now).bytes ≤ max_file }
    ensures spelled { IfOk result
        (λ changes. SpellsO5c (batch_of batch.now).bytes changes.items) }
    ensures limits { IfOk result (λ changes. model.IsBatch changes.items) }
    ensures stops { IfErr result (BatchStops line (batch_of batch.now)) }
{
    match O5c::read(alloc, batch.bytes) {
        Ok(read) => Ok(read.into_changes()),
        Err(FormError::WantOfMemory) => Err(KeptFault::WantOfMemory),
        Err(FormError::TooLarge) => unreachable!(),
        Err(FormError::Fault { place: _, why: _ }) => Err(KeptFault::BadJournal(line)),
    }
}
