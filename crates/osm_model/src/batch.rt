//! The changes of one sequence.

ghost use Rattle.std.specs.Prelude.{◌≡◌, ◌<◌, [], ◌∷◌, ◌++◌, length, OnOk, IfOk, IfErr, OnErr};
ghost use Rattle.osm_model.specs.Batch.{IsBatch};
ghost use Rattle.osm_model.specs.Limits.{max_changes};
ghost use Rattle.osm_model.specs.Push.{PushStops};

use crate::change::Change;
use crate::limits::MAX_CHANGES;
use crate::memory::{WantOfMemory, room_for_copies};
use std::alloc::Global;
use std::marker::Model;
use thiserror::Error;

/// At most 100,000 changes, in order. An object may have several changes.
#[derive(Debug, Drop)]
pub struct Batch {
    changes: Vec<Change>,
}

impl Model for Batch {
    ghost use Rattle.std.specs.Prelude.{List};
    ghost use Rattle.osm_model.specs.Change.{ChangeValue};

    ghost Value = { List ChangeValue };

    ghost use Rattle.osm_model.specs.Batch.{IsBatch};

    ghost view = { λ a. a.changes.items };

    ghost invariant = { λ a. IsBatch a.changes.items };
}

/// Why a change was refused; the change is handed back.
#[derive(Debug, Drop, PartialEq, Error)]
pub enum PushError {
    /// The batch has 100,000 changes.
    #[error("Full")]
    Full(Change),
    /// Memory was refused.
    #[error("WantOfMemory")]
    WantOfMemory(Change),
}

impl Batch {
    /// The empty batch.
    pub fn new(alloc: Global) -> Batch
        ensures { result ≡ [] }
    {
        Batch {
            changes: Vec::new(alloc),
        }
    }

    /// The batch of at most 100,000 changes, which the caller has counted.
    pub fn within_limits(changes: Vec<Change>) -> Batch
        requires { IsBatch changes.items }
        ensures { result ≡ changes.items }
    {
        Batch { changes }
    }

    /// Adds a change at the end of the batch. After a refusal the batch is as before.
    pub fn push(&mut self, change: Change) -> Result<(), PushError>
        ensures ok { OnOk result (self.new ≡ self.old ++ change ∷ []) }
        ensures room { OnOk result (length self.old < max_changes) }
        ensures refused { IfErr result (PushStops self.old change) }
        ensures unchanged { OnErr result (self.new ≡ self.old) }
    {
        if self.changes.len() >= MAX_CHANGES {
            return Err(PushError::Full(change));
        }
        change.limits();
        match self.changes.push(change) {
            Ok(()) => Ok(()),
            Err(refused) => Err(PushError::WantOfMemory(refused.value)),
        }
    }

    /// Tells the prover that the batch is within its limits; does nothing at run time.
    pub fn limits(&self)
        ensures { IsBatch self.now }
    {
        let _changes = self.changes();
    }

    pub fn changes(&self) -> &[Change]
        ensures changes { result.now ≡ self.now }
        ensures limits { IsBatch self.now }
    {
        self.changes.as_slice()
    }

    pub fn into_changes(self) -> Vec<Change>
        ensures changes { result.items ≡ self }
        ensures limits { IsBatch self }
    {
        self.changes
    }

    /// An equal batch, with memory of its own. Copying an empty batch takes no memory.
    pub fn copy(&self, alloc: Global) -> Result<Batch, WantOfMemory>
        ensures ok { IfOk result (λ b. b ≡ self.now) }
        ensures refused { OnErr result (0 < length self.now) }
    {
        if self.changes.is_empty() {
            return Ok(Batch::new(alloc));
        }
        let changes = copy_changes(alloc, self.changes.as_slice())?;
        Ok(Batch { changes })
    }
}

fn copy_changes(alloc: Global, changes: &[Change]) -> Result<Vec<Change>, WantOfMemory>
    ensures ok { IfOk result (λ t. t.items ≡ changes.now) }
    ensures refused { OnErr result (0 < length changes.now) }
{
    let mut copies = room_for_copies(alloc, changes)?;
    for change in changes {
        copies.push(change.copy(alloc)?)?;
    }
    Ok(copies)
}

impl PartialEq for Batch {
    ghost use Rattle.std.specs.Cmp.Lexicographic.{lists_per, pointwise};
    ghost use Rattle.osm_model.specs.contracts.change.ChangePartialEq.TheImpl.Laws.{
      laws-law as element_laws,
    };

    ghost eq = { λ x y. pointwise ⟦<Change as PartialEq>⟧.eq x y };

    ghost laws = { lists_per element_laws };

    fn eq(&self, other: &Batch) -> bool {
        self.changes.as_slice() == other.changes.as_slice()
    }
}
