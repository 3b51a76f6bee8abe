//! Reading one dataset, whose object is given to a sink.

ghost use Rattle.std.specs.Prelude.{◌≡◌, [], IfErr, IfOk, OnOk};
ghost use Rattle.osm_o5c.specs.Datasets.{position};
ghost use Rattle.osm_data.specs.Steps.O5mPassing.{IsPassed};
ghost use Rattle.osm_data.specs.Steps.O5mReading.{PartStops};

use crate::keys::is_below;
use crate::object_sink::ObjectSink;
use osm_model::data::check_next;
use osm_model::flat::FlatTag;
use osm_model::form::Why;
use osm_model::kind::{Key, Kind};
use osm_model::memory::WantOfMemory;
use osm_o5c::reader::Reader;
use osm_reading::refusal::Refusal;
use std::alloc::Global;

/// Reads one dataset, gives its object to the sink if the dataset has one, and returns the bytes
/// after it. `last` is the key of the last object; `tags` is a buffer that all calls share, and is
/// empty.
pub fn pass_dataset<'a, K: ObjectSink>(
    alloc: Global,
    reader: &mut Reader<'a>,
    last: &mut Option<Key>,
    tags: &mut Vec<FlatTag<'a>>,
    sink: &mut K,
    bytes: &'a [u8],
) -> Result<&'a [u8], Refusal>
    requires { tags.old.items ≡ [] }
    ensures passed { IfOk result (λ rest. IsPassed K.takes reader.old last.old sink.old bytes.now
        reader.new last.new sink.new rest.now) }
    ensures none { OnOk result (tags.new.items ≡ []) }
    ensures refused { IfErr result (PartStops last.old (position reader.old [] bytes.now)) }
{
    let found = match reader.flat_node(alloc, tags, bytes) {
        Ok(found) => found,
        Err(refusal) => return Err(refusal),
    };
    let Some((node, rest)) = found else {
        return pass_built(alloc, reader, last, sink, bytes);
    };
    let key = Key {
        kind: Kind::Node,
        id: node.id,
    };
    if !is_below(*last, key) {
        return Err(Refusal::Fault(Why::OutOfOrder));
    }
    match sink.take_node(&node, tags.as_slice()) {
        Ok(()) => {}
        Err(WantOfMemory) => return Err(Refusal::WantOfMemory),
    }
    tags.clear();
    *last = Some(key);
    Ok(rest)
}

// Passes any dataset, of which the object is built.
fn pass_built<'a, K: ObjectSink>(
    alloc: Global,
    reader: &mut Reader<'a>,
    last: &mut Option<Key>,
    sink: &mut K,
    bytes: &'a [u8],
) -> Result<&'a [u8], Refusal>
    ensures passed { IfOk result (λ rest. IsPassed K.takes reader.old last.old sink.old bytes.now
        reader.new last.new sink.new rest.now) }
    ensures refused { IfErr result (PartStops last.old (position reader.old [] bytes.now)) }
{
    K::laws();
    let (object, rest) = match reader.dataset(alloc, bytes) {
        Ok(read) => read,
        Err(refusal) => return Err(refusal),
    };
    let Some(object) = object else {
        return Ok(rest);
    };
    // This refuses deletions; the order is tested below, by the last key.
    match check_next(&[], &object) {
        Ok(()) => {}
        Err(why) => return Err(Refusal::Fault(why)),
    }
    if !is_below(*last, object.key()) {
        return Err(Refusal::Fault(Why::OutOfOrder));
    }
    match sink.take(&object) {
        Ok(()) => {}
        Err(WantOfMemory) => return Err(Refusal::WantOfMemory),
    }
    *last = Some(object.key());
    Ok(rest)
}
