//! A file that is read in blocks.

ghost use Rattle.std.specs.Prelude.{◌≡◌, ℕ, ◌+◌, ◌<◌, ◌≤◌, ◌++◌, List, [], length};
ghost use Rattle.std.specs.Prelude.{IfErr, IfOk, IfSome, IsTrue, None, OnOk, OnErr};
ghost use Rattle.osm_store.specs.Files.{Spends};
ghost use Rattle.osm_store.specs.Frames.{IsKnown, MakesAtMost};
ghost use Rattle.osm_blocks.specs.Calls.{reads_ahead};
ghost use Rattle.osm_blocks.specs.Frames.{IsDeviceFault, IsPlain, ReadsOften};
ghost use Rattle.osm_blocks.specs.Places.{HasFile, IsFirst, IsGrown, Opens, ReadsMore, past};
ghost use Rattle.osm_blocks.specs.Steps.Reading.{IsBlock};

use crate::fault::{BlockFault, fault_of};
use osm_store::store::Store;
use std::alloc::{AllocError, Global};
use std::marker::Model;

/// The most bytes of a file's first block: all of most files, and the head of any save.
pub const MAX_BLOCK: u64 = 1_048_576;

// The most bytes of each block after it. With blocks of 1 MiB, an export took a tenth more time.
const NEXT_BLOCK: u64 = 131_072;

/// How far a file has been read: a buffer of the bytes that were read and not passed yet, and the
/// place in the file after them.
#[derive(Drop)]
pub struct BlockReader {
    buffer: Vec<u8>,
    start: usize,
    from: u64,
}

impl Model for BlockReader {
    ghost use Rattle.std.specs.Prelude.{drop};
    ghost use Rattle.osm_blocks.specs.Places.{Place};
    ghost use Rattle.osm_blocks.specs.Steps.Reading.{IsBuffer};

    ghost Value = { Place };

    ghost view = { λ a. record { unread = drop a.start a.buffer.items; from = a.from } };

    ghost invariant = { λ a. IsBuffer a.buffer.items a.start a.from };
}

impl BlockReader {
    /// Reads the first block of a file; None if there is no such file.
    pub fn open<S: Store>(
        alloc: Global,
        store: &mut S,
        name: &str,
    ) -> Result<Option<BlockReader>, BlockFault>
        ensures opened { IfOk result (λ o. IsKnown (S.state store.old)
            → Opens o ((S.state store.old).files name.now)) }
        ensures first { IfOk result IsFirst }
        ensures refused { IfErr result IsPlain }
        ensures stage { (S.state store.new).stage ≡ (S.state store.old).stage }
        ensures frame { ReadsOften IsDeviceFault (S.state store.old) (S.state store.new) result }
        ensures spends { OnOk result (Spends 1 (S.state store.old).left (S.state store.new).left) }
        ensures calls { MakesAtMost IsDeviceFault 1 (S.state store.old) (S.state store.new) result }
    {
        let Some(buffer) = read_block(alloc, store, name, 0, MAX_BLOCK)? else {
            return Ok(None);
        };
        let from = buffer.len() as u64;
        Ok(Some(BlockReader {
            buffer,
            start: 0,
            from,
        }))
    }

    /// A reader that begins at a place of a file; nothing is read yet.
    pub fn at_place(alloc: Global, place: u64) -> BlockReader
        ensures unread { result.unread ≡ [] }
        ensures from { result.from ≡ place }
    {
        BlockReader {
            buffer: Vec::new(alloc),
            start: 0,
            from: place,
        }
    }

    /// The bytes that were read and not passed yet.
    pub fn unread(&self) -> &[u8]
        ensures { result.now ≡ self.now.unread }
    {
        &self.buffer[self.start..]
    }

    /// The place in the file of the first byte that wasn't passed yet.
    pub fn place(&self) -> u64
        ensures place { result + length self.now.unread ≡ self.now.from }
        ensures fits { self.now.from ≤ 18446744073709551615 }
    {
        self.from - (self.buffer.len() - self.start) as u64
    }

    /// Passes `count` of the bytes that were read.
    pub fn pass(&mut self, count: usize)
        requires { count ≤ length self.old.unread }
        ensures { self.new ≡ past count self.old }
    {
        self.start += count;
    }

    /// Reads the next block of the file; false if the file has no more bytes.
    pub fn read_more<S: Store>(
        &mut self,
        alloc: Global,
        store: &mut S,
        name: &str,
    ) -> Result<bool, BlockFault>
        ensures grown { IfOk result (λ is_more. IsGrown is_more self.old self.new) }
        ensures more { (file : List ℕ) → HasFile (S.state store.old) name.now file
            → ReadsMore file self.old self.new result }
        ensures stage { (S.state store.new).stage ≡ (S.state store.old).stage }
        ensures frame { ReadsOften IsDeviceFault (S.state store.old) (S.state store.new) result }
        ensures calls { MakesAtMost IsDeviceFault 1 (S.state store.old) (S.state store.new) result }
        ensures fewer { (file : List ℕ) → HasFile (S.state store.old) name.now file
            → IfOk result (λ is_more. IsTrue is_more
            → reads_ahead self.new file + 1 ≤ reads_ahead self.old file) }
    {
        let Some(block) = read_block(alloc, store, name, self.from, NEXT_BLOCK)? else {
            return Ok(false);
        };
        if block.is_empty() {
            return Ok(false);
        }
        let Some(from) = after_block(self.from, block.as_slice()) else {
            return Err(BlockFault::TooLarge);
        };
        self.take_block(alloc, block, from)?;
        Ok(true)
    }

    // Takes a block that was read.
    fn take_block(&mut self, alloc: Global, block: Vec<u8>, from: u64) -> Result<(), AllocError>
        requires { from ≡ self.old.from + length block.items }
        ensures unread { OnOk result (self.new.unread ≡ self.old.unread ++ block.items) }
        ensures from { OnOk result (self.new.from ≡ from) }
        ensures unchanged { OnErr result (self.new ≡ self.old) }
    {
        if self.start == self.buffer.len() {
            *self = BlockReader {
                buffer: block,
                start: 0,
                from,
            };
            return Ok(());
        }
        self.drop_passed(alloc)?;
        self.buffer.extend_from_slice(block.as_slice())?;
        self.from = from;
        Ok(())
    }

    // Drops the bytes that were passed.
    fn drop_passed(&mut self, alloc: Global) -> Result<(), AllocError>
        ensures { self.new ≡ self.old }
    {
        if self.start == 0 {
            return Ok(());
        }
        let kept = Vec::from_slice(alloc, self.unread())?;
        self.start = 0;
        self.buffer = kept;
        Ok(())
    }
}

// The place after the block; None if 64 bits don't count it.
fn after_block(from: u64, block: &[u8]) -> Option<u64>
    ensures after { IfSome result (λ after. after ≡ from + length block.now) }
    ensures fits { IfSome result (λ after. after ≤ 18446744073709551615) }
    ensures huge { result ≡ None → 18446744073709551615 < from + length block.now }
{
    from.checked_add(block.len() as u64)
}

// The block at that place of a file, of at most so many bytes; None if there is no such file.
fn read_block<S: Store>(
    alloc: Global,
    store: &mut S,
    name: &str,
    from: u64,
    most: u64,
) -> Result<Option<Vec<u8>>, BlockFault>
    ensures read { IfOk result (λ o. IsKnown (S.state store.old)
        → IsBlock from most ((S.state store.old).files name.now) o) }
    ensures refused { IfErr result IsPlain }
    ensures stage { (S.state store.new).stage ≡ (S.state store.old).stage }
    ensures frame { ReadsOften IsDeviceFault (S.state store.old) (S.state store.new) result }
    ensures spends { OnOk result (Spends 1 (S.state store.old).left (S.state store.new).left) }
    ensures calls { MakesAtMost IsDeviceFault 1 (S.state store.old) (S.state store.new) result }
{
    match store.read_at(alloc, name, from, most) {
        Ok(block) => Ok(block),
        Err(error) => Err(fault_of(error)),
    }
}
