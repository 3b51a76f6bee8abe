//! Reading and writing the files of a run.

ghost use Rattle.std.specs.Prelude.{◌≡◌, ◌≤◌, Some, IfErr, IfOk, OnOk, length};
ghost use Rattle.osm_model.specs.Limits.{max_file};
ghost use Rattle.osm_store.specs.Files.{IsWithin, Puts};
ghost use Rattle.osm_store.specs.Frames.{IsKnown};
ghost use Rattle.osm_runs.specs.Following.{limit_of};
ghost use Rattle.osm_runs.specs.Runs.{Reads, Replaces};
ghost use Rattle.osm_runs.specs.Reading.{FileStopsIn, HoldsIn, PresentStopsIn};
ghost use Rattle.osm_runs.specs.Reading.{TellsIfThere, TellsIn, ThereStops};
ghost use Rattle.osm_runs.specs.Writing.{PutStops};

use crate::fault::{FileName, RunFault};
use osm_model::limits::MAX_FILE;
use osm_state::paths::Suffix;
use osm_store::store::{Store, StoreError};
use std::alloc::Global;

/// The most bytes of a state file.
pub const MAX_STATE: u64 = 65_536;

/// The most bytes of a file of a sequence.
pub fn limit(suffix: Suffix) -> u64
    ensures value { result ≡ limit_of suffix }
    ensures small { result ≤ max_file }
{
    match suffix {
        Suffix::State => MAX_STATE,
        Suffix::O5c | Suffix::Opl => MAX_FILE as u64,
    }
}

/// Reads all bytes of a file, or gives `TooLarge` if there are more than the limit. None if there
/// is no such file.
pub fn read_file<S: Store>(
    alloc: Global,
    store: &mut S,
    file: FileName,
    name: &str,
    limit: u64,
) -> Result<Option<Vec<u8>>, RunFault>
    ensures read { IfOk result (TellsIn (S.state store.old) name.now) }
    ensures within { IfOk result (IsWithin limit) }
    ensures stops { IfErr result (FileStopsIn (S.state store.old) name.now file limit) }
    ensures frame { Reads 1 (S.state store.old) (S.state store.new) result }
{
    match store.read(alloc, name, limit) {
        Ok(bytes) => Ok(bytes),
        Err(StoreError::Device) => Err(RunFault::ReadFault(file)),
        Err(StoreError::TooLarge) => Err(RunFault::TooLarge(file)),
        Err(StoreError::WantOfMemory) => Err(RunFault::WantOfMemory),
    }
}

/// Reads all bytes of a file that has to be there and have at most `limit` bytes. Otherwise the
/// file is refused as `Absent` or as `TooLarge`.
pub fn read_present<S: Store>(
    alloc: Global,
    store: &mut S,
    file: FileName,
    name: &str,
    limit: u64,
) -> Result<Vec<u8>, RunFault>
    ensures read { IfOk result (λ bytes. HoldsIn (S.state store.old) name.now bytes.items) }
    ensures within { IfOk result (λ bytes. length bytes.items ≤ limit) }
    ensures stops { IfErr result (PresentStopsIn (S.state store.old) name.now file limit) }
    ensures frame { Reads 1 (S.state store.old) (S.state store.new) result }
{
    match read_file(alloc, store, file, name, limit) {
        Ok(Some(bytes)) => Ok(bytes),
        Ok(None) => Err(RunFault::Absent(file)),
        Err(fault) => Err(fault),
    }
}

/// Whether a file is there.
pub fn is_there<S: Store>(store: &mut S, file: FileName, name: &str) -> Result<bool, RunFault>
    ensures there { IfOk result (TellsIfThere (S.state store.old) name.now) }
    ensures stops { IfErr result (ThereStops file) }
    ensures frame { Reads 1 (S.state store.old) (S.state store.new) result }
{
    match store.is_there(name) {
        Ok(is_there) => Ok(is_there),
        Err(StoreError::Device) => Err(RunFault::ReadFault(file)),
        Err(StoreError::TooLarge) => unreachable!(),
        Err(StoreError::WantOfMemory) => Err(RunFault::WantOfMemory),
    }
}

/// Replaces the whole file with the bytes.
pub fn write_file<S: Store>(
    alloc: Global,
    store: &mut S,
    file: FileName,
    name: &str,
    bytes: &[u8],
) -> Result<(), RunFault>
    ensures written { OnOk result (IsKnown (S.state store.old)
        → Puts (S.state store.old).files name.now (Some bytes.now) (S.state store.new).files) }
    ensures stops { IfErr result (PutStops file) }
    ensures frame { Replaces 1 (S.state store.old) (S.state store.new) result }
{
    match store.write(alloc, name, bytes) {
        Ok(()) => Ok(()),
        Err(StoreError::Device) => Err(RunFault::WriteFault(file)),
        Err(StoreError::TooLarge) => unreachable!(),
        Err(StoreError::WantOfMemory) => Err(RunFault::WantOfMemory),
    }
}
