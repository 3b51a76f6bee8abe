//! The sums of all objects, and of blocks of them.

ghost use Rattle.std.specs.Prelude.{◌≡◌, ◌++◌, ℕ, List, [], ◌∷◌, IfOk, OnOk, codes, decimal, true};
ghost use Rattle.osm_model.specs.Change.{ChangeValue};
ghost use Rattle.osm_opl.specs.Written.{line_text};
ghost use Rattle.osm_asking.specs.Fingerprint.{AreKeyLines, IsFingerprint};
ghost use Rattle.osm_asking.specs.Steps.Summing.{AnyHasRoom, AnyIsNoted, AreInAny, AreOfSameKeys};
ghost use Rattle.osm_asking.specs.Steps.Summing.{AreSummed, HaveSameRoom, IsOfKeys, IsSumOf};

use crate::block_sums::Blocks;
use crate::object_lines::Lines;
use crate::sum::Sum;
use osm_model::memory::WantOfMemory;
use osm_reading::number_lines::{write_bytes, write_number};
use std::alloc::Global;

// The bytes of lines are hashed as soon as there are so many.
const BLOCK: usize = 65_536;

/// The sum of all objects that came, and those of blocks of them if any are wanted.
#[derive(Drop)]
pub(crate) struct Sums {
    pub(crate) all: Sum,
    pub(crate) blocks: Option<Blocks>,
}

impl Sums {
    /// The sums of no objects, for blocks of `keys` objects; 0 for no blocks. Takes no memory.
    pub(crate) fn new(alloc: Global, keys: u32) -> Sums
        ensures none { AreSummed result [] [] }
        ensures keys { IsOfKeys keys result.blocks }
    {
        Sums {
            all: Sum::new(),
            blocks: blocks_of(alloc, keys),
        }
    }

    /// Counts one more object, whose line is the last one of the lines that wait.
    pub(crate) fn note(&mut self, alloc: Global, lines: &mut Lines) -> Result<(), WantOfMemory>
        ensures noted { OnOk result ((before : List ℕ) (objects : List ChangeValue)
            (x : ChangeValue) → AreSummed self.old before objects
            → lines.old.out.items ≡ before ++ (line_text x ++ 10 ∷ [])
            → AreSummed self.new lines.new.out.items (objects ++ x ∷ [])) }
        ensures keys { OnOk result (AreOfSameKeys self.old.blocks self.new.blocks) }
    {
        self.all.count_one()?;
        let is_full = note_in(&mut self.blocks, lines.bytes())?;
        if is_full {
            self.take(lines);
            return close_in(alloc, &mut self.blocks);
        }
        if lines.bytes().len() >= BLOCK {
            self.take(lines);
        }
        Ok(())
    }

    /// Takes the lines that wait.
    pub(crate) fn take(&mut self, lines: &mut Lines)
        ensures all { (objects : List ChangeValue)
            → IsSumOf self.old.all lines.old.out.items objects
            → IsSumOf self.new.all [] objects }
        ensures blocks { (objects : List ChangeValue)
            → AreInAny self.old.blocks lines.old.out.items objects
            → AreInAny self.new.blocks [] objects }
        ensures same { HaveSameRoom self.old.blocks self.new.blocks }
        ensures none { lines.new.out.items ≡ [] }
    {
        self.all.take(lines.bytes());
        take_in(&mut self.blocks, lines.bytes());
        lines.clear();
    }

    /// Gives the text of the sums of all objects at that number. All lines have to be taken.
    pub(crate) fn finish(self, alloc: Global, number: u32) -> Result<Vec<u8>, WantOfMemory>
        ensures { IfOk result (λ text. (keys : ℕ) (objects : List ChangeValue)
            → IsOfKeys keys self.blocks → AreSummed self [] objects
            → IsFingerprint keys number objects text.items) }
    {
        let Sums { all, blocks } = self;
        let mut text = lines_of(alloc, blocks)?;
        let name = name_at(alloc, number)?;
        all.write(alloc, name.as_slice(), &mut text)?;
        Ok(text)
    }
}

// The lines of the blocks, if there are any.
fn lines_of(alloc: Global, blocks: Option<Blocks>) -> Result<Vec<u8>, WantOfMemory>
    ensures { IfOk result (λ text. (keys : ℕ) (objects : List ChangeValue)
        → IsOfKeys keys blocks → AreInAny blocks [] objects → AnyHasRoom blocks
        → AreKeyLines keys objects text.items) }
{
    match blocks {
        None => Ok(Vec::new(alloc)),
        Some(blocks) => Ok(blocks.finish(alloc)?),
    }
}

// `number N`
fn name_at(alloc: Global, number: u32) -> Result<Vec<u8>, WantOfMemory>
    ensures { IfOk result (λ name. name.items ≡ codes "number " ++ decimal number) }
{
    let mut name = Vec::new(alloc);
    write_bytes(b"number ", &mut name)?;
    write_number(number as u64, &mut name)?;
    Ok(name)
}

// The blocks of so many objects each; none for 0.
fn blocks_of(alloc: Global, keys: u32) -> Option<Blocks>
    ensures none { AreInAny result [] [] }
    ensures room { AnyHasRoom result }
    ensures keys { IsOfKeys keys result }
{
    if keys == 0 {
        return None;
    }
    Some(Blocks::new(alloc, keys as u64))
}

// Counts one more object in the last block, if there are blocks, and says whether it is full now.
fn note_in(blocks: &mut Option<Blocks>, lines: &[u8]) -> Result<bool, WantOfMemory>
    ensures noted { OnOk result ((before : List ℕ) (objects : List ChangeValue)
        (x : ChangeValue) → AreInAny blocks.old before objects → AnyHasRoom blocks.old
        → lines.now ≡ before ++ (line_text x ++ 10 ∷ [])
        → AreInAny blocks.new lines.now (objects ++ x ∷ [])) }
    ensures room { IfOk result (λ is_full. AnyHasRoom blocks.old → AnyIsNoted is_full blocks.new) }
    ensures keys { OnOk result (AreOfSameKeys blocks.old blocks.new) }
{
    match blocks {
        None => Ok(false),
        Some(blocks) => blocks.note(lines),
    }
}

// Takes the bytes of the lines that wait, if there are blocks.
fn take_in(blocks: &mut Option<Blocks>, lines: &[u8])
    ensures taken { (objects : List ChangeValue)
        → AreInAny blocks.old lines.now objects → AreInAny blocks.new [] objects }
    ensures same { HaveSameRoom blocks.old blocks.new }
{
    match blocks {
        None => {}
        Some(blocks) => blocks.take(lines),
    }
}

// Ends the last block, which is full, if there are blocks.
fn close_in(alloc: Global, blocks: &mut Option<Blocks>) -> Result<(), WantOfMemory>
    ensures closed { OnOk result ((objects : List ChangeValue) → AreInAny blocks.old [] objects
        → AnyIsNoted true blocks.old → AreInAny blocks.new [] objects) }
    ensures room { OnOk result (AnyIsNoted true blocks.old → AnyHasRoom blocks.new) }
    ensures keys { OnOk result (AreOfSameKeys blocks.old blocks.new) }
{
    match blocks {
        None => Ok(()),
        Some(blocks) => blocks.close(alloc),
    }
}
