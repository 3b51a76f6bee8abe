//! The second pass over a data file: writing the save text with the objects that a filter keeps,
//! block by block.

ghost use Rattle.std.specs.Prelude.{◌≡◌, ◌↔◌, ◌+◌, ◌++◌, [], ℕ, List, Some, IfErr, IfOk, OnOk};
ghost use Rattle.osm_store.specs.Files.{Puts, Spends};
ghost use Rattle.osm_store.specs.Frames.{IsKnown, MakesAtMost};
ghost use Rattle.osm_blocks.specs.Frames as blocks;
ghost use Rattle.osm_blocks.specs.Frames.{ReadsOften};
ghost use Rattle.osm_blocks.specs.Writing.{IsWritten};
ghost use Rattle.osm_merge.specs.Frames.{ReplacesOften};
ghost use Rattle.osm_merge.specs.Laying.{Writes};
ghost use Rattle.osm_data.specs.Reading.{read_calls};
ghost use Rattle.osm_runs.specs.Runs.{IsDeviceFault};
ghost use Rattle.osm_runs.specs.Writing.{PutStops};
ghost use Rattle.osm_runs.specs.declared.fault.FileName.TheVariants.{Save};
ghost use Rattle.osm_beginning.specs.Steps.Passes.{AreWritten, HasNewest, IsKept, IsStaged};
ghost use Rattle.osm_beginning.specs.Steps.Passes.{WriteStops};
ghost use Rattle.osm_beginning.specs.Steps.Passes.{first_text, last_text};
ghost use Rattle.osm_beginning.specs.Steps.Storing.{Appends, MakesUpTo};

use crate::base::{next_objects, open_base};
use crate::begin::Beginning;
use crate::sinks::KeptLines;
use osm_blocks::block_writer::BlockWriter;
use osm_blocks::fault::BlockFault;
use osm_data::data_reader::DataReader;
use osm_model::filter::Filter;
use osm_model::memory::WantOfMemory;
use osm_runs::fault::{FileName, RunFault};
use osm_save::head::{Head, write_head};
use osm_save::lines::write_numbered;
use osm_store::store::{Store, StoreError};
use std::alloc::Global;

/// The number of objects that were written, and the newest time of all objects of the data file.
#[derive(Clone, Copy)]
pub(crate) struct Written {
    pub(crate) count: u64,
    pub(crate) newest: u32,
}

/// Begins the file of the save, and writes the head, the number of objects `given`, the objects
/// that the filter keeps, and the lines after them.
pub(crate) fn write_kept<S: Store, D: DataReader + Drop>(
    alloc: Global,
    store: &mut S,
    wanted: &Beginning<'_>,
    given: u64,
) -> Result<Written, RunFault>
    ensures staged { IfOk result (λ w. IsKnown (S.state store.old)
        → IsKept D.spells wanted.now.filter.now ((S.state store.old).files wanted.now.base.now)
        (IsStaged (S.state store.new) wanted.now.save.now wanted.now.head wanted.now.filter.now
        given w.count)) }
    ensures newest { IfOk result (λ w. IsKnown (S.state store.old)
        → HasNewest D.spells ((S.state store.old).files wanted.now.base.now) w.newest) }
    ensures stops { IfErr result (WriteStops D.goes_wrong D.is_long (IsKnown (S.state store.old))
        ((S.state store.old).files wanted.now.base.now)) }
    ensures frame { ReadsOften IsDeviceFault (S.state store.old) (S.state store.new) result }
    ensures calls { MakesUpTo (λ n. read_calls n + n + 4) wanted.now.base.now
        (S.state store.old) (S.state store.new) result }
{
    begin(alloc, store, wanted.save)?;
    let mut writer = BlockWriter::new(alloc);
    put_first(alloc, store, &mut writer, wanted.head, wanted.filter, given)?;
    let written = put_objects::<S, D>(alloc, store, wanted.base, &mut writer, wanted.filter)?;
    put_last(store, &mut writer)?;
    Ok(written)
}

// Begins the file.
fn begin<S: Store>(alloc: Global, store: &mut S, save: &str) -> Result<(), RunFault>
    ensures begun { OnOk result (IsKnown (S.state store.old)
        → (S.state store.new).stage ≡ Some (save.now, [])) }
    ensures appends { Appends 1 (S.state store.old) (S.state store.new) result }
{
    match store.begin(alloc, save) {
        Ok(()) => Ok(()),
        Err(StoreError::Device) => Err(RunFault::WriteFault(FileName::Save)),
        Err(StoreError::TooLarge) => unreachable!(),
        Err(StoreError::WantOfMemory) => Err(RunFault::WantOfMemory),
    }
}

/// Puts the file that was begun into its place.
pub(crate) fn commit<S: Store>(store: &mut S) -> Result<(), RunFault>
    ensures put { OnOk result (IsKnown (S.state store.old) → (name text : List ℕ)
        → (S.state store.old).stage ≡ Some (name, text)
        → Puts (S.state store.old).files name (Some text) (S.state store.new).files) }
    ensures stops { IfErr result (PutStops Save) }
    ensures frame { ReplacesOften IsDeviceFault (S.state store.old) (S.state store.new) result }
    ensures spends { OnOk result (Spends 1 (S.state store.old).left (S.state store.new).left) }
    ensures calls { MakesAtMost IsDeviceFault 1 (S.state store.old) (S.state store.new) result }
{
    match store.commit() {
        Ok(()) => Ok(()),
        Err(StoreError::Device) => Err(RunFault::WriteFault(FileName::Save)),
        Err(StoreError::TooLarge) => unreachable!(),
        Err(StoreError::WantOfMemory) => Err(RunFault::WantOfMemory),
    }
}

// Adds bytes to the file.
fn put<S: Store>(store: &mut S, writer: &mut BlockWriter, bytes: &[u8]) -> Result<(), RunFault>
    ensures written { OnOk result (Writes (S.state store.old) writer.old
        (S.state store.new) writer.new bytes.now) }
    ensures appends { Appends 1 (S.state store.old) (S.state store.new) result }
{
    match writer.put(store, bytes) {
        Ok(()) => Ok(()),
        Err(fault) => Err(unwritten(fault)),
    }
}

// Appends what waits to the file.
fn flush<S: Store>(store: &mut S, writer: &mut BlockWriter) -> Result<(), RunFault>
    ensures flushed { OnOk result (IsKnown (S.state store.old) → (name text : List ℕ)
        → IsWritten (S.state store.old).stage writer.old name text
        → (S.state store.new).stage ≡ Some (name, text)) }
    ensures appends { Appends 1 (S.state store.old) (S.state store.new) result }
{
    match writer.flush(store) {
        Ok(()) => Ok(()),
        Err(fault) => Err(unwritten(fault)),
    }
}

// The fault of a writer, which never calls a line or a file too long.
fn unwritten(fault: BlockFault) -> RunFault
    requires { blocks.IsPlain fault }
    ensures stops { PutStops Save result }
    ensures device { blocks.IsDeviceFault fault ↔ IsDeviceFault result }
{
    match fault {
        BlockFault::Device => RunFault::WriteFault(FileName::Save),
        BlockFault::LongLine | BlockFault::TooLarge => unreachable!(),
        BlockFault::WantOfMemory => RunFault::WantOfMemory,
    }
}

// Writes the lines before the objects.
fn put_first<S: Store>(
    alloc: Global,
    store: &mut S,
    writer: &mut BlockWriter,
    head: Head,
    filter: &Filter,
    given: u64,
) -> Result<(), RunFault>
    ensures written { OnOk result (Writes (S.state store.old) writer.old
        (S.state store.new) writer.new (first_text head filter.now given)) }
    ensures appends { Appends 1 (S.state store.old) (S.state store.new) result }
{
    let lines = match first_lines(alloc, head, filter, given) {
        Ok(lines) => lines,
        Err(WantOfMemory) => return Err(RunFault::WantOfMemory),
    };
    put(store, writer, lines.as_slice())
}

/// Gives the lines before the objects of a save with that head, filter and number of objects.
#[tactic(auto, unfolding(crate::specs::Steps::Passes::first_text))]
pub(crate) fn first_lines(
    alloc: Global,
    head: Head,
    filter: &Filter,
    given: u64,
) -> Result<Vec<u8>, WantOfMemory>
    ensures { IfOk result (λ lines. lines.items ≡ first_text head filter.now given) }
{
    let mut lines = Vec::new(alloc);
    write_head(head, filter, &mut lines)?;
    write_numbered(b"objects ", given, &mut lines)?;
    Ok(lines)
}

// Writes the lines of the objects that the filter keeps.
fn put_objects<S: Store, D: DataReader + Drop>(
    alloc: Global,
    store: &mut S,
    base: &str,
    writer: &mut BlockWriter,
    filter: &Filter,
) -> Result<Written, RunFault>
    ensures written { IfOk result (λ w. IsKnown (S.state store.old)
        → IsKept D.spells filter.now ((S.state store.old).files base.now) (AreWritten w.count
        (Writes (S.state store.old) writer.old (S.state store.new) writer.new))) }
    ensures newest { IfOk result (λ w. IsKnown (S.state store.old)
        → HasNewest D.spells ((S.state store.old).files base.now) w.newest) }
    ensures stops { IfErr result (WriteStops D.goes_wrong D.is_long (IsKnown (S.state store.old))
        ((S.state store.old).files base.now)) }
    ensures frame { ReadsOften IsDeviceFault (S.state store.old) (S.state store.new) result }
    ensures calls { MakesUpTo (λ n. read_calls n + n) base.now
        (S.state store.old) (S.state store.new) result }
{
    let mut reader: D = match open_base(alloc, store, base) {
        Ok(reader) => reader,
        Err(fault) => return Err(fault),
    };
    let mut kept = KeptLines::new(alloc, filter);
    'batches: loop {
        match next_objects(alloc, store, base, &mut reader, &mut kept) {
            Ok(true) => {}
            Ok(false) => {
                return Ok(Written {
                    count: kept.count,
                    newest: kept.newest,
                });
            }
            Err(fault) => return Err(fault),
        }
        match put(store, writer, kept.lines.as_slice()) {
            Ok(()) => kept.lines.clear(),
            Err(fault) => return Err(fault),
        }
    }
}

// Writes the lines after the objects, and all that waits.
#[tactic(auto, unfolding(crate::specs::Steps::Passes::last_text))]
fn put_last<S: Store>(store: &mut S, writer: &mut BlockWriter) -> Result<(), RunFault>
    ensures staged { OnOk result (IsKnown (S.state store.old) → (name text : List ℕ)
        → IsWritten (S.state store.old).stage writer.old name text
        → (S.state store.new).stage ≡ Some (name, text ++ last_text)) }
    ensures appends { Appends 2 (S.state store.old) (S.state store.new) result }
{
    put(store, writer, b"users 0\nchangesets 0\nend\n")?;
    flush(store, writer)?;
    Ok(())
}
