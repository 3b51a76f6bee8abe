//! What a data file holds: objects that aren't deleted, by rising keys.

ghost use Rattle.std.specs.Prelude.{◌↔◌, IfErr, IsTrue, MatchOption, OnOk, OnErr};
ghost use Rattle.osm_model.specs.Data.{AreBelow, IsData, IsFirstFault, IsNext, NextStops};

use crate::change::Change;
use crate::form::Why;
use thiserror::Error;

/// Why objects weren't written as a data file.
#[derive(Clone, Copy, Debug, PartialEq, Eq, Error)]
pub enum DataError {
    /// The number, counted from 1, of the first change that is a deletion or whose key isn't above
    /// the key before it.
    #[error("NotData")]
    NotData { index: u64 },
    /// The file would have more than 64 MiB.
    #[error("TooLarge")]
    TooLarge,
    /// Memory was refused.
    #[error("WantOfMemory")]
    WantOfMemory,
}

/// Checks whether a change may follow the objects of a data file, and names the cause if it may
/// not.
pub fn check_next(objects: &[Change], change: &Change) -> Result<(), Why>
    requires { IsData objects.now }
    ensures next { OnOk result (IsNext objects.now change.now) }
    ensures other { OnErr result (IsNext objects.now change.now → ⊥) }
    ensures cause { IfErr result (NextStops change.now) }
{
    change.limits();
    if change.is_deletion() {
        return Err(Why::Deleted);
    }
    if !is_above(objects, change) {
        return Err(Why::OutOfOrder);
    }
    Ok(())
}

// Whether the key of a change is above those of the objects.
fn is_above(objects: &[Change], change: &Change) -> bool
    requires { IsData objects.now }
    ensures { IsTrue result ↔ AreBelow objects.now change.now.key }
{
    match objects.last() {
        None => true,
        Some(last) => last.key() < change.key(),
    }
}

/// The number, counted from 1, of the first change that can't follow the changes before it in a
/// data file; none if there is no such change.
pub fn first_fault(changes: &[Change]) -> Option<u64>
    ensures { MatchOption result (IsData changes.now) (IsFirstFault changes.now) }
{
    for index in 0..changes.len() {
        let (before, rest) = changes.split_at(index);
        if check_next(before, &rest[0]).is_err() {
            return Some(index as u64 + 1);
        }
    }
    None
}
