//! The whole datasets among the bytes read of a file.

ghost use Rattle.std.specs.Prelude.{◌≡◌, ◌++◌, ◌<◌, ◌≤◌, ℕ, List, drop, length, IfErr, IfOk};
ghost use Rattle.std.specs.Prelude.{IsTrue, false};
ghost use Rattle.osm_model.specs.Change.{ChangeValue};
ghost use Rattle.osm_data.specs.Sinks.{AreNext};
ghost use Rattle.osm_data.specs.declared.extents.Extent.TheVariants as extents;
ghost use Rattle.osm_data.specs.Steps.Extents.{extent_at};
ghost use Rattle.osm_data.specs.Steps.O5mReading.{HasReadTo};
ghost use Rattle.osm_data.specs.Steps.Blocks.{IsWithin, StopsAt};

use crate::extents::is_whole;
use crate::o5m_held::Held;
use crate::o5m_passing::pass_dataset;
use crate::object_sink::ObjectSink;
use osm_model::form::Why;
use osm_reading::refusal::Refusal;
use std::alloc::Global;

/// What a reader knows after the datasets, and how many bytes were passed.
#[derive(Drop)]
pub struct Found {
    pub held: Held,
    pub passed: usize,
}

/// Why datasets couldn't be read.
pub enum Stop {
    /// Memory was refused.
    WantOfMemory,
    /// The bytes after the first `passed` are no dataset, or their object can't come next.
    Fault { passed: usize, why: Why },
}

/// After this many bytes, 256 KiB, a call reads no further dataset. A reference of one or two bytes
/// may name a string of 250 bytes, so the objects kept by a sink can take some hundred times as
/// much memory.
pub const PORTION: usize = 262_144;

/// Reads the whole datasets at the start of the bytes, until they make up a portion, and gives
/// their objects to the sink. At least the first dataset must be whole.
pub fn read_datasets<K: ObjectSink>(
    alloc: Global,
    held: &Held,
    bytes: &[u8],
    sink: &mut K,
) -> Result<Found, Stop>
    requires { extent_at bytes.now ≡ extents.Whole }
    ensures read { IfOk result (λ found. (file : List ℕ) (done : List ChangeValue) (more : List ℕ)
        → HasReadTo file done held.now (bytes.now ++ more)
        → AreNext (λ all. HasReadTo file all found.held (drop found.passed bytes.now ++ more))
        (λ objects. K.takes sink.old objects sink.new) done) }
    ensures passed { IfOk result (λ found. (0 < found.passed)
        × (found.passed ≤ length bytes.now)) }
    ensures within { IfErr result (IsWithin (length bytes.now)) }
    ensures stops { IfErr result (λ stop. (file : List ℕ) (done : List ChangeValue)
        (more : List ℕ) → HasReadTo file done held.now (bytes.now ++ more)
        → StopsAt file (length (bytes.now ++ more)) stop) }
{
    K::laws();
    let Ok(mut reader) = held.reader(alloc) else {
        return Err(Stop::WantOfMemory);
    };
    let mut last = held.last();
    let mut tags = Vec::new(alloc);
    let mut rest = bytes;
    while is_next(bytes, rest) {
        match pass_dataset(alloc, &mut reader, &mut last, &mut tags, sink, rest) {
            Ok(after) => {
                rest = after;
            }
            Err(Refusal::WantOfMemory) => return Err(Stop::WantOfMemory),
            Err(Refusal::Fault(why)) => {
                let passed = bytes.len() - rest.len();
                return Err(Stop::Fault { passed, why });
            }
        }
    }
    let Ok(held) = Held::of(alloc, &reader, last) else {
        return Err(Stop::WantOfMemory);
    };
    let passed = bytes.len() - rest.len();
    Ok(Found { held, passed })
}

// Whether another dataset is read: the bytes before it aren't a portion, and it is whole.
fn is_next(bytes: &[u8], rest: &[u8]) -> bool
    ensures whole { IsTrue result → extent_at rest.now ≡ extents.Whole }
    ensures passed { result ≡ false → extent_at rest.now ≡ extents.Whole
        → length rest.now < length bytes.now }
{
    bytes.len().saturating_sub(rest.len()) < PORTION && is_whole(rest)
}
