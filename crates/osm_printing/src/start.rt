//! The second reading of a save text: its head, and the place of its lists.

ghost use Rattle.std.specs.Prelude.{◌≡◌, ℕ, List, IfErr, IfOk, OnOk, drop, take};
ghost use Rattle.osm_save.specs.Save.{SpellsSave};
ghost use Rattle.osm_save.specs.declared.save.Saved.{Saved};
ghost use Rattle.osm_store.specs.Files.{Spends};
ghost use Rattle.osm_store.specs.Frames.{MakesAtMost};
ghost use Rattle.osm_blocks.specs.Frames.{ReadsOften};
ghost use Rattle.osm_blocks.specs.Places.{HasFile, max_block};
ghost use Rattle.osm_printing.specs.Printing.{IsReadFault};
ghost use Rattle.osm_printing.specs.Steps.Copying.{BlockStops, HeadStops, IsStart, StartStops};
ghost use Rattle.osm_printing.specs.Steps.Copying.{StartsAt};

use osm_blocks::line_reader::MAX_BLOCK;
use osm_runs::fault::{FileName, RunFault};
use osm_save::head::{Head, read_head};
use osm_save::stop::Stop;
use osm_store::store::{Store, StoreError};
use std::alloc::Global;

/// The head of a save text, and the place after it.
#[derive(Clone, Copy)]
pub(crate) struct Start {
    pub(crate) head: Head,
    pub(crate) after: u64,
}

/// Reads the head of a save again, from its first block.
pub(crate) fn read_start<S: Store>(
    alloc: Global,
    store: &mut S,
    save: &str,
) -> Result<Start, RunFault>
    ensures starts { IfOk result (λ start. (file : List ℕ) (saved : Saved)
        → HasFile (S.state store.old) save.now file → SpellsSave file saved
        → IsStart file saved start) }
    ensures stops { IfErr result (StartStops (S.state store.old) save.now) }
    ensures frame { ReadsOften IsReadFault (S.state store.old) (S.state store.new) result }
    ensures calls { MakesAtMost IsReadFault 1 (S.state store.old) (S.state store.new) result }
{
    let block = match read_block(alloc, store, save, 0) {
        Ok(block) => block,
        Err(fault) => return Err(fault),
    };
    match start_of(alloc, block.as_slice()) {
        Ok(start) => Ok(start),
        Err(fault) => Err(fault),
    }
}

// The head that a first block begins with, and the place after it.
fn start_of(alloc: Global, block: &[u8]) -> Result<Start, RunFault>
    ensures starts { IfOk result (StartsAt block.now) }
    ensures stops { IfErr result (HeadStops block.now) }
{
    match read_head(alloc, block) {
        Ok((_version, head, _filter, rest)) => Ok(Start {
            head,
            after: (block.len() - rest.len()) as u64,
        }),
        Err(Stop::Wrong(_left)) => Err(RunFault::Changed(FileName::Save)),
        Err(Stop::WantOfMemory) => Err(RunFault::WantOfMemory),
    }
}

/// Reads the block at a place of a save, which has to be there.
pub(crate) fn read_block<S: Store>(
    alloc: Global,
    store: &mut S,
    save: &str,
    from: u64,
) -> Result<Vec<u8>, RunFault>
    ensures read { IfOk result (λ block. (file : List ℕ)
        → HasFile (S.state store.old) save.now file
        → take max_block (drop from file) ≡ block.items) }
    ensures stops { IfErr result (BlockStops (S.state store.old) save.now) }
    ensures frame { ReadsOften IsReadFault (S.state store.old) (S.state store.new) result }
    ensures spends { OnOk result (Spends 1 (S.state store.old).left (S.state store.new).left) }
    ensures calls { MakesAtMost IsReadFault 1 (S.state store.old) (S.state store.new) result }
{
    match store.read_at(alloc, save, from, MAX_BLOCK) {
        Ok(Some(block)) => Ok(block),
        Ok(None) => Err(RunFault::Changed(FileName::Save)),
        Err(StoreError::Device) => Err(RunFault::ReadFault(FileName::Save)),
        Err(StoreError::TooLarge) => unreachable!(),
        Err(StoreError::WantOfMemory) => Err(RunFault::WantOfMemory),
    }
}
