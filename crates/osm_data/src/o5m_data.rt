//! Data files in the form o5m: the objects of a mirror, read in blocks.

ghost use Rattle.std.specs.Prelude.{◌≡◌, ◌↔◌, ◌+◌, ◌<◌, ℕ, List, length, take, get_or};
ghost use Rattle.std.specs.Prelude.{IfErr, IfOk, IsTrue, OnOk, false};
ghost use Rattle.std.specs.Str.{bytes_eq};
ghost use Rattle.osm_model.specs.Change.{ChangeValue};
ghost use Rattle.osm_blocks.specs.Calls.{Advances};
ghost use Rattle.osm_blocks.specs.Frames.{ReadsOften};
ghost use Rattle.osm_blocks.specs.Places.{HasFile};
ghost use Rattle.osm_o5c.specs.File.{DataFaultPlace, SpellsData, data_beginning};
ghost use Rattle.osm_data.specs.Reading.{EndsOrGoesOn, IsDeviceFault, NextStops};
ghost use Rattle.osm_data.specs.Sinks.{AreNext};
ghost use Rattle.osm_data.specs.LongDatasets.{HasLong};
ghost use Rattle.osm_data.specs.declared.extents.Extent.TheVariants as extents;
ghost use Rattle.osm_data.specs.Steps.Extents.{extent_at};
ghost use Rattle.osm_data.specs.Steps.O5mObjects.{FillStops, HasRead, Keeps, ahead_of, calls_of};
ghost use Rattle.osm_data.specs.Steps.O5mObjects.{left_in};

use crate::counting::count_objects;
use crate::data_reader::DataReader;
use crate::datasets::{PORTION, Stop, read_datasets};
use crate::extents::{Extent, extent_of};
use crate::fault::{DataFault, fault_of_blocks};
use crate::o5m_counting::O5mCounter;
use crate::o5m_held::Held;
use crate::object_sink::ObjectSink;
use osm_blocks::block_reader::BlockReader;
use osm_model::filter::Filter;
use osm_model::form::Why;
use osm_o5c::datasets::END;
use osm_store::store::Store;
use std::alloc::Global;

// Reset, header, length 4, `o5m2`.
const DATA_BEGINNING: [u8; 7] = [0xff, 0xe0, 4, 0x6f, 0x35, 0x6d, 0x32];

/// A data file in the form o5m (OSM wiki, O5m). The place of a fault is the offset of the first
/// dataset that doesn't fit. If the end byte is missing, the place is the end of the file; if bytes
/// follow it, the place is the offset of the first of them.
#[derive(Drop)]
pub struct O5mData {
    reader: BlockReader,
    is_ended: bool,
    held: Held,
}

impl DataReader for O5mData {
    ghost spells = { SpellsData };

    ghost goes_wrong = { λ bytes place. DataFaultPlace bytes place };

    ghost is_long = { HasLong };

    ghost has_read = { HasRead };

    ghost ahead = { ahead_of };

    ghost bytes_left = { λ reader file. length (left_in reader file) };

    ghost calls_ahead = { calls_of };

    fn open<S: Store>(alloc: Global, store: &mut S, name: &str) -> Result<O5mData, DataFault> {
        let reader = match BlockReader::open(alloc, store, name) {
            Ok(reader) => reader,
            Err(fault) => return Err(fault_of_blocks(fault)),
        };
        let Some(mut reader) = reader else {
            return Err(DataFault::NoFile);
        };
        if !has_beginning(reader.unread()) {
            return Err(DataFault::BadData {
                place: 0,
                why: Why::BadHeader,
            });
        }
        reader.pass(DATA_BEGINNING.len());
        Ok(O5mData {
            reader,
            is_ended: false,
            held: Held::new(alloc),
        })
    }

    fn next<S: Store, K: ObjectSink>(
        &mut self,
        alloc: Global,
        store: &mut S,
        name: &str,
        sink: &mut K,
    ) -> Result<bool, DataFault> {
        let extent = match self.fill(alloc, store, name) {
            Ok(extent) => extent,
            Err(fault) => return Err(fault),
        };
        self.go_on(alloc, extent, sink)
    }

    fn count_chosen<S: Store>(
        alloc: Global,
        store: &mut S,
        name: &str,
        filter: &Filter,
    ) -> Result<u64, DataFault> {
        match count_objects(alloc, store, name, filter, &mut O5mCounter::new()) {
            Ok(count) => Ok(count),
            Err(fault) => Err(fault),
        }
    }

    fn laws() {}
}

impl O5mData {
    // Reads blocks until there are enough datasets for a portion, or one is refused, or the file
    // ends.
    fn fill<S: Store>(
        &mut self,
        alloc: Global,
        store: &mut S,
        name: &str,
    ) -> Result<Extent, DataFault>
        ensures extent { IfOk result (λ extent. extent ≡ extent_at self.new.reader.unread) }
        ensures ended { IfOk result (λ extent. extent ≡ extents.Cut → IsTrue self.new.is_ended) }
        ensures ahead { OnOk result (ahead_of self.new ≡ ahead_of self.old) }
        ensures keeps { OnOk result ((file : List ℕ) → HasFile (S.state store.old) name.now file
            → Keeps file self.old self.new) }
        ensures stops { IfErr result (λ fault. (file : List ℕ)
            → HasFile (S.state store.old) name.now file → FillStops file fault) }
        ensures stage { (S.state store.new).stage ≡ (S.state store.old).stage }
        ensures frame { ReadsOften IsDeviceFault (S.state store.old) (S.state store.new) result }
        ensures calls { (file : List ℕ) → HasFile (S.state store.old) name.now file
            → Advances IsDeviceFault (calls_of self.old file) (λ _. calls_of self.new file)
            (S.state store.old) (S.state store.new) result }
    {
        'blocks: loop {
            let extent = extent_of(self.reader.unread());
            if self.is_ended {
                return Ok(extent);
            }
            if is_enough(extent, self.reader.unread()) {
                return Ok(extent);
            }
            let is_more = match self.reader.read_more(alloc, store, name) {
                Ok(is_more) => is_more,
                Err(fault) => return Err(fault_of_blocks(fault)),
            };
            if !is_more {
                self.is_ended = true;
                return Ok(extent);
            }
        }
    }

    // Reads on where a dataset of that extent begins.
    fn go_on<K: ObjectSink>(
        &mut self,
        alloc: Global,
        extent: Extent,
        sink: &mut K,
    ) -> Result<bool, DataFault>
        requires extent { extent ≡ extent_at self.old.reader.unread }
        requires ended { extent ≡ extents.Cut → IsTrue self.old.is_ended }
        ensures read { IfOk result (λ is_more. (file : List ℕ) (done : List ChangeValue)
            → HasRead self.old file done → EndsOrGoesOn (SpellsData file done)
            (AreNext (HasRead self.new file) (λ objects. K.takes sink.old objects sink.new) done)
            is_more) }
        ensures left { IfOk result (λ is_more. is_more ≡ false → sink.new ≡ sink.old) }
        ensures falls { IfOk result
            (EndsOrGoesOn (Unit {0}) (ahead_of self.new < ahead_of self.old)) }
        ensures fewer { IfOk result (EndsOrGoesOn (Unit {0}) ((file : List ℕ)
            → length (left_in self.new file) < length (left_in self.old file))) }
        ensures calls { OnOk result ((file : List ℕ)
            → calls_of self.new file ≡ calls_of self.old file) }
        ensures stops { IfErr result (λ fault. (file : List ℕ) (done : List ChangeValue)
            → HasRead self.old file done
            → NextStops (λ bytes place. DataFaultPlace bytes place) HasLong file fault) }
        ensures no_device { IfErr result (λ fault. IsDeviceFault fault → ⊥) }
    {
        match extent {
            Extent::Whole => match self.read_datasets(alloc, sink) {
                Ok(()) => Ok(true),
                Err(fault) => Err(fault),
            },
            Extent::Cut => match self.check_end() {
                Ok(()) => Ok(false),
                Err(fault) => Err(fault),
            },
            Extent::Long => Err(DataFault::LongPart),
            Extent::Trailing => Err(DataFault::BadData {
                place: self.reader.place() + 1,
                why: Why::TrailingBytes,
            }),
        }
    }

    // Reads the datasets that are whole, at least the first.
    fn read_datasets<K: ObjectSink>(&mut self, alloc: Global, sink: &mut K) -> Result<(), DataFault>
        requires { extent_at self.old.reader.unread ≡ extents.Whole }
        ensures read { OnOk result ((file : List ℕ) (done : List ChangeValue)
            → HasRead self.old file done → AreNext (HasRead self.new file)
            (λ objects. K.takes sink.old objects sink.new) done) }
        ensures fewer { OnOk result
            (length self.new.reader.unread < length self.old.reader.unread) }
        ensures from { self.new.reader.from ≡ self.old.reader.from }
        ensures ended { self.new.is_ended ≡ self.old.is_ended }
        ensures stops { IfErr result (λ fault. (file : List ℕ) (done : List ChangeValue)
            → HasRead self.old file done
            → NextStops (λ bytes place. DataFaultPlace bytes place) HasLong file fault) }
        ensures no_device { IfErr result (λ fault. IsDeviceFault fault → ⊥) }
    {
        match read_datasets(alloc, &self.held, self.reader.unread(), sink) {
            Ok(found) => {
                self.reader.pass(found.passed);
                self.held = found.held;
                Ok(())
            }
            Err(Stop::WantOfMemory) => Err(DataFault::WantOfMemory),
            Err(Stop::Fault { passed, why }) => {
                let place = self.reader.place() + passed as u64;
                Err(DataFault::BadData { place, why })
            }
        }
    }

    // Whether the file ends as it should, if nothing is left but a cut dataset.
    fn check_end(&self) -> Result<(), DataFault>
        requires cut { extent_at self.now.reader.unread ≡ extents.Cut }
        requires ended { IsTrue self.now.is_ended }
        ensures spelled { OnOk result ((file : List ℕ) (done : List ChangeValue)
            → HasRead self.now file done → SpellsData file done) }
        ensures stops { IfErr result (λ fault. (file : List ℕ) (done : List ChangeValue)
            → HasRead self.now file done
            → NextStops (λ bytes place. DataFaultPlace bytes place) HasLong file fault) }
        ensures no_device { IfErr result (λ fault. IsDeviceFault fault → ⊥) }
    {
        if begins_with_end(self.reader.unread()) {
            return Ok(());
        }
        Err(DataFault::BadData {
            place: self.reader.place(),
            why: Why::Truncated,
        })
    }
}

// Whether no more bytes are read before the datasets are: at least one is whole, and there are
// enough for a portion, or the first is refused.
fn is_enough(extent: Extent, bytes: &[u8]) -> bool
    ensures { IsTrue result → extent ≡ extents.Cut → ⊥ }
{
    match extent {
        Extent::Whole => bytes.len() >= PORTION,
        Extent::Cut => false,
        Extent::Long | Extent::Trailing => true,
    }
}

// Whether the bytes have the beginning of a data file.
fn has_beginning(bytes: &[u8]) -> bool
    ensures { result ≡ bytes_eq (take 7 bytes.now) data_beginning }
{
    bytes.starts_with(&DATA_BEGINNING)
}

// Whether the bytes begin with the end byte.
fn begins_with_end(bytes: &[u8]) -> bool
    ensures { IsTrue result ↔ (get_or bytes.now 0 0 ≡ 254) }
{
    match bytes.first() {
        Some(first) => *first == END,
        None => false,
    }
}
