//! The sums of blocks of objects.

ghost use Rattle.std.specs.Prelude.{◌≡◌, ◌<◌, ◌++◌, ℕ, List, [], ◌∷◌, IfOk, OnOk, IsTrue, false};
ghost use Rattle.osm_model.specs.Change.{ChangeValue};
ghost use Rattle.osm_opl.specs.Written.{line_text};
ghost use Rattle.osm_asking.specs.Fingerprint.{AreBlockLines, block_line, first_word};
ghost use Rattle.osm_asking.specs.Steps.Summing.{AreInBlocks, HasRoom, IsName, IsNoted, IsSumOf};

use crate::sum::Sum;
use crate::words::first_word;
use osm_model::memory::WantOfMemory;
use osm_reading::number_lines::write_bytes;
use std::alloc::Global;
use std::mem::replace;

/// The lines of the blocks that are full, and the sum of the block after them.
#[derive(Drop)]
pub(crate) struct Blocks {
    /// How many objects a block has.
    pub(crate) every: u64,
    /// The sum of the objects of the last block.
    pub(crate) sum: Sum,
    /// The key of its first object; empty if it has none.
    pub(crate) name: Vec<u8>,
    /// The lines of the blocks before it.
    pub(crate) text: Vec<u8>,
}

impl Blocks {
    /// No blocks yet; takes no memory.
    pub(crate) fn new(alloc: Global, every: u64) -> Blocks
        ensures none { AreInBlocks result [] [] }
        ensures every { result.every ≡ every }
        ensures empty { result.sum.count ≡ 0 }
    {
        Blocks {
            every,
            sum: Sum::new(),
            name: Vec::new(alloc),
            text: Vec::new(alloc),
        }
    }

    /// Counts one more object, whose line is the last one of those that wait, and says whether the
    /// block is full now.
    pub(crate) fn note(&mut self, lines: &[u8]) -> Result<bool, WantOfMemory>
        ensures noted { OnOk result ((before : List ℕ) (objects : List ChangeValue)
            (x : ChangeValue) → AreInBlocks self.old before objects → HasRoom self.old
            → lines.now ≡ before ++ (line_text x ++ 10 ∷ [])
            → AreInBlocks self.new lines.now (objects ++ x ∷ [])) }
        ensures room { IfOk result (λ is_full. HasRoom self.old → IsNoted is_full self.new) }
        ensures every { OnOk result (self.new.every ≡ self.old.every) }
    {
        name_first(self.sum.count == 0, lines, &mut self.name)?;
        self.sum.count_one()?;
        Ok(self.sum.count == self.every)
    }

    /// Takes the bytes of the lines that wait.
    pub(crate) fn take(&mut self, lines: &[u8])
        ensures taken { (objects : List ChangeValue)
            → AreInBlocks self.old lines.now objects → AreInBlocks self.new [] objects }
        ensures count { self.new.sum.count ≡ self.old.sum.count }
        ensures every { self.new.every ≡ self.old.every }
    {
        self.sum.take(lines);
    }

    /// Appends the line of the last block, if it has objects, and begins the next one. All lines
    /// have to be taken.
    pub(crate) fn close(&mut self, alloc: Global) -> Result<(), WantOfMemory>
        ensures line { OnOk result ((objects : List ChangeValue) → IsSumOf self.old.sum [] objects
            → IsName objects self.old.name.items
            → self.new.text.items ≡ self.old.text.items ++ block_line objects) }
        ensures next { OnOk result (IsSumOf self.new.sum [] []) }
        ensures count { OnOk result (self.new.sum.count ≡ 0) }
        ensures every { OnOk result (self.new.every ≡ self.old.every) }
    {
        let sum = replace(&mut self.sum, Sum::new());
        if sum.count == 0 {
            return Ok(());
        }
        sum.write(alloc, self.name.as_slice(), &mut self.text)
    }

    /// Gives the lines of all blocks. All lines have to be taken.
    pub(crate) fn finish(mut self, alloc: Global) -> Result<Vec<u8>, WantOfMemory>
        ensures { IfOk result (λ text. (objects : List ChangeValue)
            → AreInBlocks self [] objects → HasRoom self
            → AreBlockLines self.every objects text.items) }
    {
        self.close(alloc)?;
        Ok(self.text)
    }
}

// Names a block by its first object, if that is the one whose line this is.
fn name_first(is_first: bool, line: &[u8], name: &mut Vec<u8>) -> Result<(), WantOfMemory>
    ensures first { OnOk result (IsTrue is_first → (bytes : List ℕ)
        → line.now ≡ bytes ++ 10 ∷ [] → name.new.items ≡ first_word bytes) }
    ensures others { OnOk result (is_first ≡ false → name.new.items ≡ name.old.items) }
{
    if !is_first {
        return Ok(());
    }
    name.clear();
    write_bytes(first_word(without_end(line)), name)
}

// The bytes of a line without its LF.
fn without_end(line: &[u8]) -> &[u8]
    ensures { (bytes : List ℕ) → line.now ≡ bytes ++ 10 ∷ [] → result.now ≡ bytes }
{
    match line.split_last() {
        Some((_end, bytes)) => bytes,
        None => line,
    }
}
