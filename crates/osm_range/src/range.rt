//! A range of the numbers of a folder, read one number at a time.

ghost use Rattle.std.specs.Prelude.{◌≡◌, ◌≤◌, [], IfErr, IfOk, IsTrue, ◌↔◌};
ghost use Rattle.osm_model.specs.Limits.{max_sequence};
ghost use Rattle.osm_blocks.specs.Frames.{ReadsOften};
ghost use Rattle.osm_store.specs.Frames.{IsKnown};
ghost use Rattle.osm_runs.specs.Names.{top_name_of};
ghost use Rattle.osm_runs.specs.Runs.{IsDeviceFault};
ghost use Rattle.osm_range.specs.Ranges.{HasRead, IsRange, IsTopNumber, RangeStops};

use crate::reading::{Place, ending, take_numbers};
use crate::taker::NumberTaker;
use osm_runs::fault::RunFault;
use osm_runs::top::find_top;
use osm_state::laws::laws_of_state;
use osm_store::store::Store;
use std::alloc::Global;

/// The numbers `from` to `to` of a folder, both included.
#[derive(Clone, Copy, Debug, PartialEq, Eq)]
pub struct Range {
    pub from: u32,
    pub to: u32,
}

/// Why no further number was read.
#[derive(Debug, Drop)]
pub enum Ending {
    /// The last number of the range was reached, or the folder's newest one if that is less.
    Whole,
    /// The next number is missing. It is the first of these numbers, which are all missing ones up
    /// to 64 after the last number that was read.
    Missing(Vec<u32>),
    /// A file of the next number is faulty, with this fault.
    Faulty(RunFault),
}

/// How far a range was read.
#[derive(Debug, Drop)]
pub struct Reached {
    /// The last number that was read, or the one before the range if none was.
    pub number: u32,
    /// The time of that number, in seconds since 1970-01-01T00:00:00Z; None if none was read.
    pub time: Option<u32>,
    /// The number of the folder's newest sequence.
    pub top: u32,
    /// Why no further number was read.
    pub ending: Ending,
}

/// Reads the numbers of a range and hands the changes of each to the taker, up to the last number
/// of the range, to the folder's newest number, or to the one before a missing or faulty number.
/// Nothing before the range is read. The changes of one number are in memory at a time, beside what
/// the taker holds.
///
/// The range has to begin at 1 or above, where it ends or below, and at most at the folder's newest
/// number, which is 0 if nothing was published; otherwise it is refused as `BadRange`. A number
/// whose time is before that of the number before it in the range is faulty.
pub fn read_range<S: Store, T: NumberTaker>(
    alloc: Global,
    store: &mut S,
    dir: &str,
    range: Range,
    taker: &mut T,
) -> Result<Reached, RunFault>
    requires { T.holds taker.old [] }
    ensures read { IfOk result (HasRead T.holds (IsKnown (S.state store.old))
        (S.state store.old).files dir.now range taker.new) }
    ensures same { T.settings taker.new ≡ T.settings taker.old }
    ensures stops { IfErr result (RangeStops (IsKnown (S.state store.old))
        (S.state store.old).files dir.now range) }
    ensures frame { ReadsOften IsDeviceFault (S.state store.old) (S.state store.new) result }
{
    laws_of_state();
    if !is_range(range) {
        return Err(RunFault::BadRange);
    }
    let top = match find_top(alloc, store, dir) {
        Ok(Some(top)) => top,
        Ok(None) => return Err(RunFault::BadRange),
        Err(fault) => return Err(fault),
    };
    read_below(alloc, store, dir, range, top.sequence(), taker)
}

// Whether there are numbers of a range.
fn is_range(range: Range) -> bool
    ensures { IsTrue result ↔ IsRange range }
{
    0 < range.from && range.from <= range.to
}

// Reads a range of a folder with that newest number.
fn read_below<S: Store, T: NumberTaker>(
    alloc: Global,
    store: &mut S,
    dir: &str,
    range: Range,
    top: u32,
    taker: &mut T,
) -> Result<Reached, RunFault>
    requires none { T.holds taker.old [] }
    requires range { IsRange range }
    requires most { top ≤ max_sequence }
    requires top { IsKnown (S.state store.old)
        → IsTopNumber ((S.state store.old).files (top_name_of dir.now)) top }
    ensures read { IfOk result (HasRead T.holds (IsKnown (S.state store.old))
        (S.state store.old).files dir.now range taker.new) }
    ensures same { T.settings taker.new ≡ T.settings taker.old }
    ensures stops { IfErr result (RangeStops (IsKnown (S.state store.old))
        (S.state store.old).files dir.now range) }
    ensures frame { ReadsOften IsDeviceFault (S.state store.old) (S.state store.new) result }
{
    if top < range.from {
        return Err(RunFault::BadRange);
    }
    let last = range.to.min(top);
    let mut place = Place::before(range.from);
    let stop = match take_numbers(alloc, store, dir, last, taker, &mut place) {
        Ok(stop) => stop,
        Err(fault) => return Err(fault),
    };
    match ending(alloc, store, dir, last, place, stop) {
        Ok(ending) => Ok(Reached {
            number: place.number,
            time: place.time,
            top,
            ending,
        }),
        Err(fault) => Err(fault),
    }
}
