//! Reading a data file of either form, with the faults of a run.

ghost use Rattle.std.specs.Prelude.{◌≡◌, ◌↔◌, ◌+◌, ◌<◌, ◌≤◌, ℕ, List, [], length};
ghost use Rattle.std.specs.Prelude.{IfErr, IfOk, OnOk, false};
ghost use Rattle.osm_model.specs.Change.{ChangeValue};
ghost use Rattle.osm_store.specs.Files.{Spends};
ghost use Rattle.osm_store.specs.Frames.{IsKnown, MakesAtMost};
ghost use Rattle.osm_blocks.specs.Calls.{Advances};
ghost use Rattle.osm_blocks.specs.Frames.{ReadsOften};
ghost use Rattle.osm_blocks.specs.Places.{HasFile};
ghost use Rattle.osm_data.specs.Counting.{IsCountOf, chosen_objects};
ghost use Rattle.osm_data.specs.Reading as reading;
ghost use Rattle.osm_data.specs.Reading.{EndsOrGoesOn, read_calls};
ghost use Rattle.osm_data.specs.Sinks.{AreNext};
ghost use Rattle.osm_runs.specs.Runs.{IsDeviceFault};
ghost use Rattle.osm_beginning.specs.Steps.Passes.{IsReading, base_fault_of};
ghost use Rattle.osm_beginning.specs.Steps.Storing.{DataStops, ReadsData};

use osm_data::data_reader::DataReader;
use osm_data::fault::DataFault;
use osm_data::object_sink::ObjectSink;
use osm_model::filter::Filter;
use osm_runs::fault::{FileName, RunFault};
use osm_store::store::Store;
use std::alloc::Global;

/// Opens a data file.
pub(crate) fn open_base<S: Store, D: DataReader + Drop>(
    alloc: Global,
    store: &mut S,
    base: &str,
) -> Result<D, RunFault>
    ensures there { IfOk result (λ reader. IsKnown (S.state store.old)
        → IsReading D.has_read (S.state store.old) base.now reader) }
    ensures opened { IfOk result (λ reader. (file : List ℕ)
        → HasFile (S.state store.old) base.now file → D.has_read reader file []) }
    ensures left { IfOk result (λ reader. (file : List ℕ)
        → HasFile (S.state store.old) base.now file → D.bytes_left reader file ≤ length file) }
    ensures ahead { IfOk result (λ reader. (file : List ℕ)
        → HasFile (S.state store.old) base.now file
        → D.calls_ahead reader file + 1 ≤ read_calls (length file)) }
    ensures stops { IfErr result (DataStops D.goes_wrong D.is_long base.now (S.state store.old)) }
    ensures stage { (S.state store.new).stage ≡ (S.state store.old).stage }
    ensures frame { ReadsOften IsDeviceFault (S.state store.old) (S.state store.new) result }
    ensures spends { OnOk result (Spends 1 (S.state store.old).left (S.state store.new).left) }
    ensures calls { MakesAtMost IsDeviceFault 1 (S.state store.old) (S.state store.new) result }
{
    match D::open(alloc, store, base) {
        Ok(reader) => Ok(reader),
        Err(fault) => Err(base_fault(fault)),
    }
}

/// Gives the next objects of a data file to a sink; false at its end.
pub(crate) fn next_objects<S: Store, D: DataReader, K: ObjectSink>(
    alloc: Global,
    store: &mut S,
    base: &str,
    reader: &mut D,
    sink: &mut K,
) -> Result<bool, RunFault>
    ensures read { IfOk result (λ is_more. (file : List ℕ) (done : List ChangeValue)
        → HasFile (S.state store.old) base.now file → D.has_read reader.old file done
        → EndsOrGoesOn (D.spells file done) (AreNext (D.has_read reader.new file)
        (λ objects. K.takes sink.old objects sink.new) done) is_more) }
    ensures ended { IfOk result (λ is_more. is_more ≡ false → sink.new ≡ sink.old) }
    ensures falls { IfOk result
        (EndsOrGoesOn (Unit {0}) (D.ahead reader.new < D.ahead reader.old)) }
    ensures fewer { IfOk result (λ is_more. (file : List ℕ) (done : List ChangeValue)
        → HasFile (S.state store.old) base.now file → D.has_read reader.old file done
        → EndsOrGoesOn (Unit {0})
        (D.bytes_left reader.new file < D.bytes_left reader.old file) is_more) }
    ensures stops { IfErr result (λ fault. (IsKnown (S.state store.old)
        → IsReading D.has_read (S.state store.old) base.now reader.old)
        → DataStops D.goes_wrong D.is_long base.now (S.state store.old) fault) }
    ensures stage { (S.state store.new).stage ≡ (S.state store.old).stage }
    ensures frame { ReadsOften IsDeviceFault (S.state store.old) (S.state store.new) result }
    ensures calls { (file : List ℕ) → HasFile (S.state store.old) base.now file
        → Advances IsDeviceFault (D.calls_ahead reader.old file)
        (λ _. D.calls_ahead reader.new file)
        (S.state store.old) (S.state store.new) result }
{
    match reader.next(alloc, store, base, sink) {
        Ok(is_more) => Ok(is_more),
        Err(fault) => Err(base_fault(fault)),
    }
}

/// Counts the objects of a data file whose kinds the filter keeps, without reading the objects.
pub(crate) fn count_chosen<S: Store, D: DataReader>(
    alloc: Global,
    store: &mut S,
    base: &str,
    filter: &Filter,
) -> Result<u64, RunFault>
    ensures counted { IfOk result (λ count. (file : List ℕ) (objects : List ChangeValue)
        → HasFile (S.state store.old) base.now file → D.spells file objects
        → IsCountOf count (chosen_objects filter.now objects)) }
    ensures reads { ReadsData D.goes_wrong D.is_long base.now
        (S.state store.old) (S.state store.new) result }
{
    match D::count_chosen(alloc, store, base, filter) {
        Ok(count) => Ok(count),
        Err(fault) => Err(base_fault(fault)),
    }
}

// The fault of a data file as one of a run.
fn base_fault(fault: DataFault) -> RunFault
    ensures is { result ≡ base_fault_of fault }
    ensures device { reading.IsDeviceFault fault ↔ IsDeviceFault result }
{
    match fault {
        DataFault::Device => RunFault::ReadFault(FileName::Base),
        DataFault::WantOfMemory => RunFault::WantOfMemory,
        DataFault::NoFile => RunFault::Absent(FileName::Base),
        DataFault::BadData { place, why } => RunFault::BadChange(FileName::Base, place, why),
        DataFault::LongPart | DataFault::TooLarge => RunFault::TooLarge(FileName::Base),
    }
}
