//! A block of a file from any place on.

ghost use Rattle.std.specs.Prelude.{◌≡◌, ℕ, ◌≤◌, ◌<◌, List, None, IfErr, IfOk, IsTrue, drop};
ghost use Rattle.std.specs.Prelude.{◌⊎◌, ◌≢◌, false, length, take};
ghost use Rattle.osm_blocks.specs.Frames.{ReadsOften};
ghost use Rattle.osm_blocks.specs.Places.{HasFile};
ghost use Rattle.osm_reading.specs.Pieces.{cut_at};
ghost use Rattle.osm_asking.specs.Refusal.{IsFailed};
ghost use Rattle.osm_asking.specs.Steps.Reading.{BlockStops, IsBlockIn, IsShortBlock, ReadsFew};
ghost use Rattle.osm_store.specs.Frames.{MakesAtMost};

use crate::fault::SearchFault;
use osm_reading::pieces::cut;
use osm_store::store::{Store, StoreError};
use std::alloc::Global;

/// The most bytes of a block that has an LF among them.
pub const BLOCK: u64 = 16_384;

// The most bytes of the next block if that one has no LF.
const LONG_BLOCK: u64 = 4_194_304;

/// Reads a block of a file, which has to be there, from a place on. It has an LF, or reaches to the
/// end of the file.
pub fn read_block<S: Store>(
    alloc: Global,
    store: &mut S,
    name: &str,
    from: u64,
) -> Result<Vec<u8>, SearchFault>
    ensures read { IfOk result (λ block. IsBlockIn (S.state store.old) name.now from block.items) }
    ensures short { IfOk result (λ block.
        IsShortBlock (S.state store.old) name.now from block.items) }
    ensures stops { IfErr result (BlockStops (S.state store.old) name.now) }
    ensures frame { ReadsOften IsFailed (S.state store.old) (S.state store.new) result }
    ensures few { ReadsFew 1 (S.state store.old) (S.state store.new) name.now result }
{
    let block = match block_at(alloc, store, name, from, BLOCK) {
        Ok(block) => block,
        Err(fault) => return Err(fault),
    };
    if is_enough(block.as_slice(), BLOCK) {
        return Ok(block);
    }
    drop(block);
    read_longer(alloc, store, name, from, LONG_BLOCK)
}

// The same with a block of at most so many bytes, or else with one that is four times as long. So
// what is in memory depends on the length of the line, not on that of the file.
fn read_longer<S: Store>(
    alloc: Global,
    store: &mut S,
    name: &str,
    from: u64,
    most: u64,
) -> Result<Vec<u8>, SearchFault>
    requires { 16384 ≤ most }
    ensures read { IfOk result (λ block. IsBlockIn (S.state store.old) name.now from block.items) }
    ensures stops { IfErr result (BlockStops (S.state store.old) name.now) }
    ensures frame { ReadsOften IsFailed (S.state store.old) (S.state store.new) result }
{
    let block = match block_at(alloc, store, name, from, most) {
        Ok(block) => block,
        Err(fault) => return Err(fault),
    };
    if is_enough(block.as_slice(), most) {
        return Ok(block);
    }
    drop(block);
    match most.checked_mul(4) {
        Some(longer) => read_longer(alloc, store, name, from, longer),
        // So many bytes fit no memory.
        None => Err(SearchFault::WantOfMemory),
    }
}

// Whether a block of at most so many bytes has an LF, or fewer bytes.
fn is_enough(block: &[u8], most: u64) -> bool
    ensures enough { IsTrue result → (cut_at 10 block.now ≢ None) ⊎ (length block.now < most) }
    ensures uncut { result ≡ false → cut_at 10 block.now ≡ None }
    ensures full { result ≡ false → most ≤ length block.now }
{
    if (block.len() as u64) < most {
        return true;
    }
    let (_line, after) = cut(block, b'\n');
    after.is_some()
}

/// Reads at most so many bytes of a file, which has to be there, from a place on.
pub(crate) fn block_at<S: Store>(
    alloc: Global,
    store: &mut S,
    name: &str,
    from: u64,
    most: u64,
) -> Result<Vec<u8>, SearchFault>
    ensures read { IfOk result (λ block. (file : List ℕ)
        → HasFile (S.state store.old) name.now file → block.items ≡ take most (drop from file)) }
    ensures stops { IfErr result (BlockStops (S.state store.old) name.now) }
    ensures frame { ReadsOften IsFailed (S.state store.old) (S.state store.new) result }
    ensures calls { MakesAtMost IsFailed 1 (S.state store.old) (S.state store.new) result }
{
    match store.read_at(alloc, name, from, most) {
        Ok(Some(block)) => Ok(block),
        Ok(None) => Err(SearchFault::Gone),
        Err(StoreError::Device) => Err(SearchFault::Failed),
        Err(StoreError::TooLarge) => unreachable!(),
        Err(StoreError::WantOfMemory) => Err(SearchFault::WantOfMemory),
    }
}
