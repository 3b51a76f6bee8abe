//! What a save begins with: everything through the number of its objects.

ghost use Rattle.std.specs.Prelude.{IfErr, IfOk, IfSome};
ghost use Rattle.osm_store.specs.Frames.{IsKnown, ReadsBetween};
ghost use Rattle.osm_save.specs.Answers.{Gives};
ghost use Rattle.osm_kept.specs.Finding.{IsStart};
ghost use Rattle.osm_kept.specs.Refusal.{IsDeviceFault};
ghost use Rattle.osm_kept.specs.Steps.Starting.{ReadsStart, StartStops, StartTextStops};
ghost use Rattle.osm_kept.specs.Steps.Starting.{TellsStart, start_at};

use crate::fault::KeptFault;
use osm_model::filter::Filter;
use osm_save::head::{Head, read_head};
use osm_save::lines::{line_number, numbered_line};
use osm_save::save::objects_limit;
use osm_save::stop::Stop;
use osm_save::version::Version;
use osm_store::store::{Store, StoreError};
use std::alloc::Global;

/// What a save begins with: its version, head, filter and number of objects.
#[derive(Debug, Drop)]
pub struct Start {
    pub version: Version,
    pub head: Head,
    pub filter: Filter,
    /// The number of objects.
    pub objects: u64,
}

// How many bytes of a save are read, if it has as many: a head has at most 408,194, and the line
// after it at most 27.
pub(crate) const START: u64 = 409_600;

/// Reads what a save begins with; None if there is no save. The rest of the save isn't checked.
pub(crate) fn read_start<S: Store>(
    alloc: Global,
    store: &mut S,
    name: &str,
) -> Result<Option<Start>, KeptFault>
    ensures told { IfOk result (λ start. IsKnown (S.state store.old)
        → TellsStart ((S.state store.old).files name.now) start) }
    ensures limits { IfOk result (λ start. IfSome start IsStart) }
    ensures stops { IfErr result (StartStops (IsKnown (S.state store.old))
        ((S.state store.old).files name.now)) }
    ensures frame { ReadsBetween IsDeviceFault 1 1 (S.state store.old) (S.state store.new) result }
{
    match store.read_prefix(alloc, name, START) {
        Ok(Some(bytes)) => match start_of(alloc, bytes.as_slice()) {
            Ok(start) => Ok(Some(start)),
            Err(fault) => Err(fault),
        },
        Ok(None) => Ok(None),
        Err(StoreError::Device) => Err(KeptFault::SaveFailed),
        Err(StoreError::TooLarge) => unreachable!(),
        Err(StoreError::WantOfMemory) => Err(KeptFault::WantOfMemory),
    }
}

// What the first bytes of a save begin with.
fn start_of(alloc: Global, bytes: &[u8]) -> Result<Start, KeptFault>
    ensures read { IfOk result (ReadsStart bytes.now) }
    ensures stops { IfErr result (StartTextStops bytes.now) }
{
    match read_lines(alloc, bytes) {
        Ok((start, _rest)) => Ok(start),
        Err(Stop::Wrong(left)) => Err(KeptFault::BadSave(line_number(bytes, left))),
        Err(Stop::WantOfMemory) => Err(KeptFault::WantOfMemory),
    }
}

// Reads what a save begins with, and gives the bytes after that.
#[tactic(auto, unfolding(crate::specs::Steps::Starting::start_at))]
fn read_lines(alloc: Global, bytes: &[u8]) -> Result<(Start, &[u8]), Stop>
    ensures { Gives (λ r. (r.0, r.1.now)) result (start_at bytes.now) }
{
    let (version, head, filter, rest) = read_head(alloc, bytes)?;
    let (objects, rest) = numbered_line(b"objects ", objects_limit(version, head.number), rest)?;
    let start = Start {
        version,
        head,
        filter,
        objects,
    };
    Ok((start, rest))
}
