//! Reading a file up to its limit.

ghost use Rattle.std.specs.Prelude.{◌≡◌, ℕ, ◌≤◌, ◌+◌, List, Option, Some, IfErr, IfOk};
ghost use Rattle.osm_model.specs.Limits.{max_file, max_sequence};
ghost use Rattle.osm_store.specs.Files.{prefix_of};
ghost use Rattle.osm_store.specs.Frames.{IsKnown};
ghost use Rattle.osm_runs.specs.Following.{limit_of};
ghost use Rattle.osm_runs.specs.Names.{file_name_of};
ghost use Rattle.osm_runs.specs.Runs.{Reads};
ghost use Rattle.osm_audit.specs.Steps.Looking.{IsContents, IsWithinLimit, ReadStops};

use osm_runs::fault::{FileName, RunFault};
use osm_runs::files::limit;
use osm_runs::names::file_name;
use osm_state::paths::Suffix;
use osm_store::store::{Store, StoreError};
use std::alloc::Global;

// What was read of a file.
#[derive(Drop)]
pub(crate) enum Contents {
    // There is no such file.
    Absent,
    // It has more bytes than its limit.
    TooLarge,
    // All of it.
    Bytes(Vec<u8>),
}

// A file of a number.
pub(crate) fn read_numbered<S: Store>(
    alloc: Global,
    store: &mut S,
    dir: &str,
    number: u32,
    suffix: Suffix,
) -> Result<Contents, RunFault>
    requires { number ≤ max_sequence }
    ensures read { IfOk result (λ read. IsKnown (S.state store.old) → IsContents (limit_of suffix)
        ((S.state store.old).files (file_name_of dir.now number suffix)) read) }
    ensures within { IfOk result (IsWithinLimit (limit_of suffix)) }
    ensures stops { IfErr result (ReadStops (FileName.Sequence number suffix)) }
    ensures frame { Reads 1 (S.state store.old) (S.state store.new) result }
{
    let name = file_name(alloc, dir, number, suffix)?;
    let file = FileName::Sequence(number, suffix);
    read_contents(alloc, store, file, name.as_str(), limit(suffix))
}

// A file by its name. It reads at most one byte past the limit, so that a file over it takes one
// call too.
pub(crate) fn read_contents<S: Store>(
    alloc: Global,
    store: &mut S,
    file: FileName,
    name: &str,
    limit: u64,
) -> Result<Contents, RunFault>
    requires { limit ≤ max_file }
    ensures read { IfOk result (λ read. IsKnown (S.state store.old)
        → IsContents limit ((S.state store.old).files name.now) read) }
    ensures within { IfOk result (IsWithinLimit limit) }
    ensures stops { IfErr result (ReadStops file) }
    ensures frame { Reads 1 (S.state store.old) (S.state store.new) result }
{
    match store.read_prefix(alloc, name, limit + 1) {
        Ok(Some(bytes)) => Ok(within_limit(bytes, limit)),
        Ok(None) => Ok(Contents::Absent),
        Err(StoreError::Device) => Err(RunFault::ReadFault(file)),
        Err(StoreError::TooLarge) => unreachable!(),
        Err(StoreError::WantOfMemory) => Err(RunFault::WantOfMemory),
    }
}

// What a file is of which that prefix, one byte longer than the limit if it can be, was read.
fn within_limit(bytes: Vec<u8>, limit: u64) -> Contents
    ensures read { (told : Option (List ℕ)) → prefix_of (limit + 1) told ≡ Some bytes.items
        → IsContents limit told result }
    ensures within { IsWithinLimit limit result }
{
    if bytes.len() as u64 > limit {
        return Contents::TooLarge;
    }
    Contents::Bytes(bytes)
}
