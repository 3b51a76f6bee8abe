//! Lines of a file that is read in blocks.

ghost use Rattle.std.specs.Prelude.{◌≡◌, ℕ, ◌<◌, ◌≤◌, List, length, take};
ghost use Rattle.std.specs.Prelude.{IfOk, IfSome, None};
ghost use Rattle.osm_reading.specs.Pieces.{cut_at};
ghost use Rattle.osm_store.specs.Frames.{MakesAtMost};
ghost use Rattle.osm_blocks.specs.Calls.{Advances, found_ahead, reads_ahead};
ghost use Rattle.osm_blocks.specs.Frames.{IsDeviceFault, ReadsOften};
ghost use Rattle.osm_blocks.specs.Places.{FindsEnd, FindsLine, HasFile, IsAllRead, IsLine};
ghost use Rattle.osm_blocks.specs.Steps.Reading.{LacksFirst};

use crate::block_reader::BlockReader;
pub use crate::block_reader::MAX_BLOCK;
use crate::fault::BlockFault;
use memchr::memchr;
use osm_store::store::Store;
use std::alloc::Global;

/// The most bytes of a line.
pub const MAX_LINE: usize = 268_435_456;

/// A reader of a file's blocks that finds the lines of the file.
pub type LineReader = BlockReader;

impl BlockReader {
    /// The first `count` of the bytes that were read and not passed yet.
    pub fn line(&self, count: usize) -> &[u8]
        requires { count ≤ length self.now.unread }
        ensures { result.now ≡ take count self.now.unread }
    {
        &self.unread()[..count]
    }

    /// Finds the next LF, and reads blocks until the LF is there: gives the count of the bytes
    /// before it. None if the file has no further LF; then the whole file was read.
    pub fn find_line<S: Store>(
        &mut self,
        alloc: Global,
        store: &mut S,
        name: &str,
    ) -> Result<Option<usize>, BlockFault>
        ensures line { IfOk result (λ o. IfSome o (λ count. IsLine self.new count)) }
        ensures found { (file : List ℕ) → HasFile (S.state store.old) name.now file
            → FindsLine file self.old self.new result }
        ensures ended { (file : List ℕ) → HasFile (S.state store.old) name.now file
            → IfOk result (λ o. o ≡ None → IsAllRead file self.old self.new) }
        ensures stage { (S.state store.new).stage ≡ (S.state store.old).stage }
        ensures frame { ReadsOften IsDeviceFault (S.state store.old) (S.state store.new) result }
        ensures calls { (file : List ℕ) → HasFile (S.state store.old) name.now file
            → Advances IsDeviceFault (reads_ahead self.old file) (found_ahead self.new file)
            (S.state store.old) (S.state store.new) result }
    {
        let mut searched = 0;
        'blocks: loop {
            if let Some(count) = self.find_after(searched) {
                return Ok(Some(count));
            }
            searched = self.unread().len();
            if searched > MAX_LINE {
                return Err(BlockFault::LongLine);
            }
            let is_more = match self.read_more(alloc, store, name) {
                Ok(is_more) => is_more,
                Err(fault) => return Err(fault),
            };
            if !is_more {
                return Ok(None);
            }
        }
    }

    /// Whether nothing is left of the file.
    pub fn is_ended<S: Store>(
        &mut self,
        alloc: Global,
        store: &mut S,
        name: &str,
    ) -> Result<bool, BlockFault>
        ensures ended { (file : List ℕ) → HasFile (S.state store.old) name.now file
            → FindsEnd file self.old result }
        ensures stage { (S.state store.new).stage ≡ (S.state store.old).stage }
        ensures frame { ReadsOften IsDeviceFault (S.state store.old) (S.state store.new) result }
        ensures calls { MakesAtMost IsDeviceFault 1 (S.state store.old) (S.state store.new) result }
    {
        if !self.unread().is_empty() {
            return Ok(false);
        }
        match self.read_more(alloc, store, name) {
            Ok(is_more) => Ok(!is_more),
            Err(fault) => Err(fault),
        }
    }

    // The count of the bytes before the next LF, if that was read. The first `searched` bytes have
    // none.
    fn find_after(&self, searched: usize) -> Option<usize>
        requires { LacksFirst searched self.now.unread }
        ensures found { IfSome result (λ count. IsLine self.now count) }
        ensures lacks { result ≡ None → cut_at 10 self.now.unread ≡ None }
    {
        match memchr(b'\n', &self.unread()[searched..]) {
            Some(at) => Some(searched + at),
            None => None,
        }
    }
}
