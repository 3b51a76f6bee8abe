//! What a run takes of a folder: the numbers after a head.

ghost use Rattle.std.specs.Prelude.{◌≡◌, ℕ, ◌+◌, ◌-◌, ◌*◌, ◌<◌, ◌≤◌, IfErr, IfOk, IsTrue};
ghost use Rattle.std.specs.Prelude.{OnOk, [], false, min, true};
ghost use Rattle.osm_model.specs.Limits.{max_changes, max_file, max_sequence};
ghost use Rattle.osm_store.specs.Files.{HasFewer, SpendsAtMost};
ghost use Rattle.osm_store.specs.Frames.{IsKnown};
ghost use Rattle.osm_net.specs.Net.{IsOrderlyNet, no_net};
ghost use Rattle.osm_runs.specs.Following.{NumberStops};
ghost use Rattle.osm_runs.specs.Progress.{IsOfContent};
ghost use Rattle.osm_blocks.specs.Frames.{ReadsOften};
ghost use Rattle.osm_runs.specs.Runs.{IsDeviceFault, ReadsUpTo};
ghost use Rattle.osm_round.specs.Gathering.{HoldsGathered, IsBegunUpTo};
ghost use Rattle.osm_round.specs.News.{HoldsUpTo, came_to};
ghost use Rattle.osm_round.specs.Taking.{Fills, IsRight, TakesNumber, TakesUp};
ghost use Rattle.osm_round.specs.Taking.{LeavesRoom, StopsOnTheWay, counted};

use crate::gathered::Gathered;
use crate::news::News;
use osm_model::filter::Filter;
use osm_runs::fault::RunFault;
use osm_runs::number::read_number;
use osm_runs::progress::faulty_number;
use osm_save::head::Head;
use osm_store::store::Store;
use std::alloc::Global;

/// How far a run came, and the new sequences since the head that it started from.
#[derive(Drop)]
pub(crate) struct Taken {
    pub(crate) head: Head,
    pub(crate) news: News,
}

/// What bounds a run: the last number that it may take, and the bytes of change files with which it
/// takes no further number; None if there is no such bound.
#[derive(Clone, Copy)]
pub(crate) struct Bounds {
    pub(crate) last: u32,
    pub(crate) room: Option<u64>,
}

/// Where a run stops taking.
#[derive(Clone, Copy)]
pub(crate) enum End {
    /// At the last number that the run may take, or before a missing one.
    Reached,
    /// Before the last number, once the change files fill a part.
    Full,
    /// Before a number that has a faulty file.
    Faulty(RunFault),
}

impl Taken {
    /// No sequences after this head.
    pub(crate) fn after(alloc: Global, head: Head) -> Taken
        ensures head { result.head ≡ head }
        ensures net { result.news.net ≡ no_net }
        ensures held { result.news.held.items ≡ [] }
    {
        Taken {
            head,
            news: News::new(alloc),
        }
    }
}

/// Takes the numbers after the head, up to the last one, to the one before a missing or faulty one,
/// or to the one whose change file fills the room. The sequences are gathered for a journal too.
pub(crate) fn take_numbers<S: Store>(
    alloc: Global,
    store: &mut S,
    dir: &str,
    bounds: Bounds,
    filter: &Filter,
    taken: &mut Taken,
    gathered: &mut Gathered,
) -> Result<End, RunFault>
    requires from { taken.old.head.number ≤ bounds.last }
    requires most { bounds.last ≤ max_sequence }
    requires none { taken.old.news.net ≡ no_net }
    requires held { taken.old.news.held.items ≡ [] }
    requires some { LeavesRoom bounds.room 0 }
    requires begun { IsBegunUpTo gathered.old.left gathered.old }
    requires left { gathered.old.left ≤ max_file }
    ensures taken { IfOk result (TakesUp (IsKnown (S.state store.old)) (S.state store.old).files
        dir.now filter.now bounds taken.old.head gathered.old.left taken.new gathered.new) }
    ensures stops { IfErr result (StopsOnTheWay (IsKnown (S.state store.old))
        (S.state store.old).files dir.now filter.now bounds.last taken.old.head) }
    ensures frame { ReadsOften IsDeviceFault (S.state store.old) (S.state store.new) result }
    ensures spent { IfOk result (λ end. IsRight end → SpendsAtMost
        (3 * (min bounds.last (taken.new.head.number + 1) - taken.old.head.number))
        (S.state store.old).left (S.state store.new).left) }
    ensures lacks { IfErr result (λ fault. IsKnown (S.state store.old) → IsDeviceFault fault
        → HasFewer (3 * (bounds.last - taken.old.head.number)) (S.state store.old).left) }
{
    let Bounds { last, room } = bounds;
    let mut size = 0;
    for before in taken.head.number..last {
        match take_number(alloc, store, dir, before + 1, filter, taken, gathered) {
            Ok(Some(more)) => {
                size = add(size, more);
                if is_full(room, size) && before + 1 < last {
                    return Ok(End::Full);
                }
            }
            Ok(None) => return Ok(End::Reached),
            Err(fault) => return end_at(fault),
        }
    }
    Ok(End::Reached)
}

// The sum, or the greatest number that 64 bits count.
fn add(size: u64, more: u64) -> u64
    ensures { result ≡ counted (size + more) }
{
    size.saturating_add(more)
}

// Whether so many bytes fill the room, also if they are more than 64 bits count.
fn is_full(room: Option<u64>, size: u64) -> bool
    ensures full { IsTrue result → Fills (IsTrue true) room size }
    ensures left { result ≡ false → (total : ℕ) → size ≡ counted total → LeavesRoom room total }
{
    match room {
        Some(room) => room <= size,
        None => false,
    }
}

// Takes a number's changes and gathers them, unless it is lost, and gives the bytes of its change
// file. Its time may not be before that of what was taken so far. As long as all are gathered, the
// journal may be all that is written, so they are only held.
fn take_number<S: Store>(
    alloc: Global,
    store: &mut S,
    dir: &str,
    number: u32,
    filter: &Filter,
    taken: &mut Taken,
    gathered: &mut Gathered,
) -> Result<Option<u64>, RunFault>
    requires most { number ≤ max_sequence }
    requires next { number ≡ taken.old.head.number + 1 }
    requires orderly { IsOrderlyNet (came_to filter.now taken.old).net }
    requires few { HoldsUpTo (max_changes * taken.old.head.number) taken.old.news }
    requires held { HoldsGathered taken.old.news gathered.old }
    ensures taken { IfOk result (TakesNumber (IsKnown (S.state store.old)) (S.state store.old).files
        dir.now number filter.now (came_to filter.now taken.old) (came_to filter.now taken.new)
        gathered.old gathered.new) }
    ensures few { OnOk result (HoldsUpTo (max_changes * taken.new.head.number) taken.new.news) }
    ensures held { OnOk result (HoldsGathered taken.new.news gathered.new) }
    ensures unchanged { IfErr result
        (λ fault. (k : ℕ) → IsOfContent fault k → taken.new ≡ taken.old) }
    ensures none_added { IfErr result
        (λ fault. (k : ℕ) → IsOfContent fault k → gathered.new ≡ gathered.old) }
    ensures stops { IfErr result
        (NumberStops (IsKnown (S.state store.old)) dir.now (S.state store.old).files
        taken.old.head.time number) }
    ensures frame { ReadsUpTo 3 (S.state store.old) (S.state store.new) result }
{
    let Some(numbered) = read_number(alloc, store, dir, taken.head.time, number)? else {
        return Ok(None);
    };
    let size = numbered.size;
    let changes = gathered.add(alloc, number, numbered.time, numbered.changes)?;
    if gathered.is_whole {
        taken.news.hold(changes)?;
    } else {
        taken.news.take(alloc, filter, changes)?;
    }
    taken.head = Head {
        number,
        base: taken.head.base,
        time: Some(numbered.time),
    };
    Ok(Some(size))
}

// A fault of what a file of a number holds is where a run stops taking. Any other refuses the run.
fn end_at(fault: RunFault) -> Result<End, RunFault>
    ensures faulty { IfOk result (λ end. end ≡ End.Faulty fault) }
    ensures content { IfOk result (λ end. (number : ℕ) × IsOfContent fault number) }
    ensures other { IfErr result (λ refused. refused ≡ fault) }
    ensures plain { IfErr result (λ refused. (number : ℕ) → IsOfContent refused number → ⊥) }
{
    match faulty_number(&fault) {
        Some(_number) => Ok(End::Faulty(fault)),
        None => Err(fault),
    }
}
