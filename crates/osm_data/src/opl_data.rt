//! Data files of any size in the form OPL: one line for each object, by rising keys.

ghost use Rattle.std.specs.Prelude.{◌≡◌, ℕ, ◌+◌, ◌-◌, ◌++◌, ◌<◌, ◌≤◌, List, [], length, IfErr};
ghost use Rattle.std.specs.Prelude.{IfOk};
ghost use Rattle.std.specs.Prelude.{IsTrue, OnOk, false, true};
ghost use Rattle.osm_model.specs.Change.{ChangeValue};
ghost use Rattle.osm_blocks.specs.Calls.{Advances};
ghost use Rattle.osm_blocks.specs.Frames.{ReadsOften};
ghost use Rattle.osm_blocks.specs.Places.{HasFile, IsLine, Place};
ghost use Rattle.osm_opl.specs.File.{DataFaultLine, SpellsData};
ghost use Rattle.osm_data.specs.Reading.{IsDeviceFault, NextStops};
ghost use Rattle.osm_data.specs.OplReading.{HasLongLine, HasRead, bytes_after, calls_after};
ghost use Rattle.osm_data.specs.Steps.OplObjects.{AddStops, EndsOrReads};
ghost use Rattle.osm_data.specs.Steps.OplPassing.{Begins, Goes, IsLast, PassesLine};
ghost use Rattle.osm_data.specs.Steps.OplPassing.{line_of};

use crate::counting::count_objects;
use crate::data_reader::DataReader;
use crate::fault::{DataFault, fault_of_blocks};
use crate::object_sink::{ObjectSink, take_all};
use crate::opl_counting::OplCounter;
use crate::opl_so_far::SoFar;
use osm_blocks::line_reader::LineReader;
use osm_model::change::Change;
use osm_model::filter::Filter;
use osm_model::memory::WantOfMemory;
use osm_opl::data::laws_of_data;
use osm_reading::lines::split_line;
use osm_store::store::Store;
use std::alloc::Global;

// The most objects that are read at once.
const MAX_OBJECTS: usize = 8_192;

// Lines are read at once until they have so many bytes.
const MAX_BYTES: u64 = 1_048_576;

/// A data file in the form OPL. The place of a fault is the number of its line, counted from 1 over
/// all lines. A line has at most 64 MiB, not counting its line end; the last line needs no line
/// end.
#[derive(Drop)]
pub struct OplData {
    reader: LineReader,
    so_far: SoFar,
    is_ended: bool,
}

impl DataReader for OplData {
    ghost use Rattle.std.specs.Prelude.{◌-◌};
    ghost use Rattle.osm_opl.specs.File.{DataFaultLine, SpellsData};
    ghost use Rattle.osm_data.specs.OplReading.{HasLongLine, HasRead, bytes_after, calls_after};

    ghost spells = { SpellsData };

    ghost goes_wrong = { DataFaultLine };

    ghost is_long = { HasLongLine };

    ghost has_read = { HasRead };

    ghost ahead = { λ reader. 18446744073709551615 - reader.so_far.bytes };

    ghost bytes_left = { bytes_after };

    ghost calls_ahead = { calls_after };

    fn open<S: Store>(alloc: Global, store: &mut S, name: &str) -> Result<OplData, DataFault> {
        match LineReader::open(alloc, store, name) {
            Ok(Some(reader)) => Ok(OplData::begin(reader)),
            Ok(None) => Err(DataFault::NoFile),
            Err(fault) => Err(fault_of_blocks(fault)),
        }
    }

    fn next<S: Store, K: ObjectSink>(
        &mut self,
        alloc: Global,
        store: &mut S,
        name: &str,
        sink: &mut K,
    ) -> Result<bool, DataFault> {
        let objects = match self.read_lines(alloc, store, name) {
            Ok(Some(objects)) => objects,
            Ok(None) => return Ok(false),
            Err(fault) => return Err(fault),
        };
        match take_all(sink, objects.as_slice()) {
            Ok(()) => Ok(true),
            Err(WantOfMemory) => Err(DataFault::WantOfMemory),
        }
    }

    fn count_chosen<S: Store>(
        alloc: Global,
        store: &mut S,
        name: &str,
        filter: &Filter,
    ) -> Result<u64, DataFault> {
        match count_objects(alloc, store, name, filter, &mut OplCounter::new()) {
            Ok(count) => Ok(count),
            Err(fault) => Err(fault),
        }
    }

    fn laws() {
        laws_of_data();
    }
}

impl OplData {
    // Before the first line of a file. Of an empty file nothing is left.
    fn begin(reader: LineReader) -> OplData
        ensures { Begins reader result }
    {
        let is_ended = reader.unread().is_empty();
        OplData {
            reader,
            so_far: SoFar::new(),
            is_ended,
        }
    }

    // Reads the objects of the next lines; None at the end of the file.
    fn read_lines<S: Store>(
        &mut self,
        alloc: Global,
        store: &mut S,
        name: &str,
    ) -> Result<Option<Vec<Change>>, DataFault>
        ensures read { IfOk result (λ next. (file : List ℕ) (done : List ChangeValue)
            → HasFile (S.state store.old) name.now file → HasRead self.old file done
            → EndsOrReads (SpellsData file done)
            (λ objects. HasRead self.new file (done ++ objects.items)) next) }
        ensures falls { IfOk result (EndsOrReads (Unit {0}) (λ _.
            18446744073709551615 - self.new.so_far.bytes
            < 18446744073709551615 - self.old.so_far.bytes)) }
        ensures fewer { IfOk result (λ next. (file : List ℕ) (done : List ChangeValue)
            → HasFile (S.state store.old) name.now file → HasRead self.old file done
            → EndsOrReads (Unit {0})
            (λ _. bytes_after self.new file < bytes_after self.old file) next) }
        ensures stops { IfErr result (λ fault. (file : List ℕ) (done : List ChangeValue)
            → HasFile (S.state store.old) name.now file → HasRead self.old file done
            → NextStops DataFaultLine HasLongLine file fault) }
        ensures stage { (S.state store.new).stage ≡ (S.state store.old).stage }
        ensures frame { ReadsOften IsDeviceFault (S.state store.old) (S.state store.new) result }
        ensures calls { (file : List ℕ) → HasFile (S.state store.old) name.now file
            → Advances IsDeviceFault (calls_after self.old file) (λ _. calls_after self.new file)
            (S.state store.old) (S.state store.new) result }
    {
        let mut objects = Vec::new(alloc);
        let is_more = match self.next_line(alloc, store, name, &mut objects) {
            Ok(is_more) => is_more,
            Err(fault) => return Err(fault),
        };
        if !is_more {
            return Ok(None);
        }
        match self.fill(alloc, store, name, &mut objects) {
            Ok(()) => Ok(Some(objects)),
            Err(fault) => Err(fault),
        }
    }

    // Reads lines until there are as many objects or bytes as are read at once, or the file ends.
    fn fill<S: Store>(
        &mut self,
        alloc: Global,
        store: &mut S,
        name: &str,
        objects: &mut Vec<Change>,
    ) -> Result<(), DataFault>
        ensures read { OnOk result ((file : List ℕ) (done : List ChangeValue)
            → HasFile (S.state store.old) name.now file
            → HasRead self.old file (done ++ objects.old.items)
            → HasRead self.new file (done ++ objects.new.items)) }
        ensures grows { OnOk result (self.old.so_far.bytes ≤ self.new.so_far.bytes) }
        ensures fits { OnOk result (self.new.so_far.bytes ≤ 18446744073709551615) }
        ensures stops { IfErr result (λ fault. (file : List ℕ) (done : List ChangeValue)
            → HasFile (S.state store.old) name.now file
            → HasRead self.old file (done ++ objects.old.items)
            → NextStops DataFaultLine HasLongLine file fault) }
        ensures stage { (S.state store.new).stage ≡ (S.state store.old).stage }
        ensures frame { ReadsOften IsDeviceFault (S.state store.old) (S.state store.new) result }
        ensures calls { (file : List ℕ) → HasFile (S.state store.old) name.now file
            → Advances IsDeviceFault (calls_after self.old file) (λ _. calls_after self.new file)
            (S.state store.old) (S.state store.new) result }
    {
        let start = self.so_far.bytes;
        'lines: while objects.len() < MAX_OBJECTS && self.so_far.bytes - start < MAX_BYTES {
            let is_more = match self.next_line(alloc, store, name, objects) {
                Ok(is_more) => is_more,
                Err(fault) => return Err(fault),
            };
            if !is_more {
                return Ok(());
            }
        }
        Ok(())
    }

    // Passes the next line, and adds its object, unless it is skipped; false if nothing is left of
    // the file.
    fn next_line<S: Store>(
        &mut self,
        alloc: Global,
        store: &mut S,
        name: &str,
        objects: &mut Vec<Change>,
    ) -> Result<bool, DataFault>
        ensures read { OnOk result ((file : List ℕ) (done : List ChangeValue)
            → HasFile (S.state store.old) name.now file
            → HasRead self.old file (done ++ objects.old.items)
            → HasRead self.new file (done ++ objects.new.items)) }
        ensures goes { IfOk result (λ is_more. Goes is_more self.old self.new
            objects.old.items objects.new.items) }
        ensures stops { IfErr result (λ fault. (file : List ℕ) (done : List ChangeValue)
            → HasFile (S.state store.old) name.now file
            → HasRead self.old file (done ++ objects.old.items)
            → NextStops DataFaultLine HasLongLine file fault) }
        ensures stage { (S.state store.new).stage ≡ (S.state store.old).stage }
        ensures frame { ReadsOften IsDeviceFault (S.state store.old) (S.state store.new) result }
        ensures calls { (file : List ℕ) → HasFile (S.state store.old) name.now file
            → Advances IsDeviceFault (calls_after self.old file) (λ _. calls_after self.new file)
            (S.state store.old) (S.state store.new) result }
    {
        if self.is_ended {
            return Ok(false);
        }
        match self.reader.find_line(alloc, store, name) {
            Ok(Some(count)) => match self.add_line(alloc, count, objects) {
                Ok(()) => Ok(true),
                Err(fault) => Err(fault),
            },
            Ok(None) => match self.add_rest(alloc, objects) {
                Ok(is_more) => Ok(is_more),
                Err(fault) => Err(fault),
            },
            Err(fault) => Err(fault_of_blocks(fault)),
        }
    }

    // Passes the next line, which has so many bytes before its LF, and adds its object, unless it
    // is skipped.
    fn add_line(
        &mut self,
        alloc: Global,
        count: usize,
        objects: &mut Vec<Change>,
    ) -> Result<(), DataFault>
        requires { IsLine self.old.reader count }
        ensures added { OnOk result (PassesLine count self.old self.new
            objects.old.items objects.new.items) }
        ensures stops { IfErr result
            (AddStops (line_of count self.old) (count + 1) self.old.so_far) }
    {
        let _unread = self.reader.unread().len();
        let (line, _rest) = split_line(self.reader.line(count));
        match self.so_far.add(alloc, line, count + 1, objects) {
            Ok(()) => {}
            Err(fault) => return Err(fault),
        }
        self.reader.pass(count + 1);
        Ok(())
    }

    // Adds the object of what follows the last LF of the file, which is unread, unless that is
    // skipped; false if it is empty. Nothing is left then.
    fn add_rest(&mut self, alloc: Global, objects: &mut Vec<Change>) -> Result<bool, DataFault>
        ensures read { OnOk result ((file : List ℕ) (done : List ChangeValue)
            → IsLast self.old file (done ++ objects.old.items)
            → HasRead self.new file (done ++ objects.new.items)) }
        ensures goes { IfOk result (λ is_more. Goes is_more self.old self.new
            objects.old.items objects.new.items) }
        ensures ended { OnOk result (self.new.is_ended ≡ true) }
        ensures stops { IfErr result (λ fault. (file : List ℕ) (done : List ChangeValue)
            → IsLast self.old file (done ++ objects.old.items)
            → NextStops DataFaultLine HasLongLine file fault) }
        ensures no_device { IfErr result (λ fault. IsDeviceFault fault → ⊥) }
    {
        self.is_ended = true;
        let rest = self.reader.unread();
        if rest.is_empty() {
            return Ok(false);
        }
        let (line, _rest) = split_line(rest);
        match self.so_far.add(alloc, line, rest.len(), objects) {
            Ok(()) => Ok(true),
            Err(fault) => Err(fault),
        }
    }
}
