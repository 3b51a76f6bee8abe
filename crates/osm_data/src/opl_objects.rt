//! The object of one line, and whether it may follow the objects before it.

ghost use Rattle.std.specs.Prelude.{IfErr, IfOk, OnErr, OnOk};
ghost use Rattle.osm_data.specs.Steps.OplObjects.{GivesObject, LineStops, MayFollow};
ghost use Rattle.osm_data.specs.Steps.OplObjects.{NeverFollows};

use crate::fault::DataFault;
use crate::keys::is_below;
use osm_model::change::Change;
use osm_model::data::check_next;
use osm_model::form::Why;
use osm_model::kind::Key;
use osm_opl::lines::read_line;
use osm_reading::lines::is_skipped_line;
use osm_reading::refusal::Refusal;
use std::alloc::Global;

// The most bytes of a line, without its line end: 64 MiB.
const MAX_LINE: usize = 67_108_864;

/// The object of the line of that number, given without its line end; None if the line is skipped.
/// `last` is the key of the last object before it.
pub(crate) fn read_object(
    alloc: Global,
    line: &[u8],
    number: u64,
    last: Option<Key>,
) -> Result<Option<Change>, DataFault>
    ensures read { IfOk result (GivesObject line.now last) }
    ensures stops { IfErr result (LineStops line.now number last) }
{
    if line.len() > MAX_LINE {
        return Err(DataFault::LongPart);
    }
    if is_skipped_line(line) {
        return Ok(None);
    }
    let object = match read_line(alloc, line) {
        Ok(object) => object,
        Err(Refusal::WantOfMemory) => return Err(DataFault::WantOfMemory),
        Err(Refusal::Fault(why)) => return Err(DataFault::BadData { place: number, why }),
    };
    match check_after(last, &object) {
        Ok(()) => Ok(Some(object)),
        Err(why) => Err(DataFault::BadData { place: number, why }),
    }
}

// Whether an object may follow those of which the last has that key.
fn check_after(last: Option<Key>, object: &Change) -> Result<(), Why>
    ensures follows { OnOk result (MayFollow last object.now) }
    ensures never { OnErr result (NeverFollows last object.now) }
{
    check_next(&[], object)?;
    if !is_below(last, object.key()) {
        return Err(Why::OutOfOrder);
    }
    Ok(())
}
