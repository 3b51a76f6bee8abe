//! The numbers of a range, one after the other.

ghost use Rattle.std.specs.Prelude.{◌≡◌, ℕ, ◌+◌, ◌<◌, ◌≤◌, [], IfErr, IfOk, MatchResult, None};
ghost use Rattle.std.specs.Prelude.{OnOk, Some};
ghost use Rattle.osm_model.specs.Limits.{max_sequence};
ghost use Rattle.osm_blocks.specs.Frames.{ReadsOften};
ghost use Rattle.osm_store.specs.Frames.{IsKnown};
ghost use Rattle.osm_runs.specs.Following.{NumberStops};
ghost use Rattle.osm_runs.specs.Progress.{IsOfContent};
ghost use Rattle.osm_runs.specs.Runs.{IsDeviceFault, ReadsUpTo};
ghost use Rattle.osm_range.specs.Ranges.{EndsAt, StopsAtLost, StopsInside};
ghost use Rattle.osm_range.specs.Steps.Reading.{HasTaken, StopsAtPlace, TakesNumber};
ghost use Rattle.osm_range.specs.Taking.{IsHolding};

use crate::range::Ending;
use crate::taker::NumberTaker;
use osm_runs::fault::RunFault;
use osm_runs::missing::missing;
use osm_runs::number::read_number;
use osm_runs::progress::faulty_number;
use osm_store::store::Store;
use std::alloc::Global;

/// Where a reading stands: the last number that was read, and its time if one was.
#[derive(Clone, Copy)]
pub(crate) struct Place {
    pub(crate) number: u32,
    pub(crate) time: Option<u32>,
}

impl Place {
    /// Before that number; nothing was read.
    pub(crate) fn before(from: u32) -> Place
        requires { 0 < from }
        ensures number { result.number + 1 ≡ from }
        ensures time { result.time ≡ None }
    {
        Place {
            number: from - 1,
            time: None,
        }
    }
}

/// Takes the numbers after a place, up to the last one or to the one before a missing or faulty
/// one, and gives the fault of a faulty one.
pub(crate) fn take_numbers<S: Store, T: NumberTaker>(
    alloc: Global,
    store: &mut S,
    dir: &str,
    last: u32,
    taker: &mut T,
    place: &mut Place,
) -> Result<Option<RunFault>, RunFault>
    requires none { T.holds taker.old [] }
    requires time { place.old.time ≡ None }
    requires below { place.old.number ≤ last }
    requires most { last ≤ max_sequence }
    ensures taken { OnOk result (HasTaken T.holds (IsKnown (S.state store.old))
        (S.state store.old).files dir.now (place.old.number + 1) taker.new place.new) }
    ensures same { T.settings taker.new ≡ T.settings taker.old }
    ensures until { OnOk result (place.new.number ≤ last) }
    ensures ends { IfOk result (StopsAtPlace (IsKnown (S.state store.old))
        (S.state store.old).files dir.now last place.new) }
    ensures stops { IfErr result (StopsInside (IsKnown (S.state store.old))
        (S.state store.old).files dir.now (place.old.number + 1) last) }
    ensures frame { ReadsOften IsDeviceFault (S.state store.old) (S.state store.new) result }
{
    for before in place.number..last {
        match take_number(alloc, store, dir, before + 1, taker, place) {
            Ok(true) => {}
            Ok(false) => return Ok(None),
            Err(fault) => return end_at(fault),
        }
    }
    Ok(None)
}

// Takes a number; whether it is there.
fn take_number<S: Store, T: NumberTaker>(
    alloc: Global,
    store: &mut S,
    dir: &str,
    number: u32,
    taker: &mut T,
    place: &mut Place,
) -> Result<bool, RunFault>
    requires most { number ≤ max_sequence }
    requires holding { IsHolding T.holds taker.old }
    ensures taken { IfOk result (TakesNumber T.holds (IsKnown (S.state store.old))
        (S.state store.old).files dir.now number taker.old taker.new place.old place.new) }
    ensures same { T.settings taker.new ≡ T.settings taker.old }
    ensures unchanged { IfErr result (λ fault. (k : ℕ) → IsOfContent fault k
        → (taker.new ≡ taker.old) × (place.new ≡ place.old)) }
    ensures stops { IfErr result (NumberStops (IsKnown (S.state store.old)) dir.now
        (S.state store.old).files place.old.time number) }
    ensures frame { ReadsUpTo 3 (S.state store.old) (S.state store.new) result }
{
    let Some(numbered) = read_number(alloc, store, dir, place.time, number)? else {
        return Ok(false);
    };
    let time = numbered.time;
    taker.take(alloc, number, time, numbered.changes)?;
    *place = Place {
        number,
        time: Some(time),
    };
    Ok(true)
}

// A fault of what a file of a number holds is where a reading ends. Any other refuses it.
fn end_at(fault: RunFault) -> Result<Option<RunFault>, RunFault>
    ensures faulty { IfOk result (λ end. (end ≡ Some fault) × ((k : ℕ) × IsOfContent fault k)) }
    ensures other { IfErr result (λ refused. (refused ≡ fault)
        × ((k : ℕ) → IsOfContent fault k → ⊥)) }
{
    match faulty_number(&fault) {
        Some(_number) => Ok(Some(fault)),
        None => Err(fault),
    }
}

/// Why no number after the place was taken.
pub(crate) fn ending<S: Store>(
    alloc: Global,
    store: &mut S,
    dir: &str,
    last: u32,
    place: Place,
    fault: Option<RunFault>,
) -> Result<Ending, RunFault>
    requires until { place.number ≤ last }
    requires most { last ≤ max_sequence }
    requires stop { StopsAtPlace (IsKnown (S.state store.old)) (S.state store.old).files dir.now
        last place fault }
    ensures ends { IfOk result (EndsAt (IsKnown (S.state store.old)) (S.state store.old).files
        dir.now last place.number place.time) }
    ensures stops { IfErr result (StopsAtLost (IsKnown (S.state store.old))
        (S.state store.old).files dir.now (place.number + 1) last) }
    ensures frame { ReadsOften IsDeviceFault (S.state store.old) (S.state store.new) result }
{
    if let Some(fault) = fault {
        return Ok(Ending::Faulty(fault));
    }
    if place.number == last {
        return Ok(Ending::Whole);
    }
    match missing(alloc, store, dir, place.number, last) {
        Ok(missing) => Ok(Ending::Missing(missing)),
        Err(fault) => Err(fault),
    }
}
