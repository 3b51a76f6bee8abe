//! What a history of events and replies says, one pair at a time.

ghost use Rattle.std.specs.Prelude.{◌≡◌, ℕ, ◌<◌, ◌≤◌, length, true, false, IfOk};
ghost use Rattle.osm_world.specs.History.{accepted_of, accepts, closes, pending_of, published_of};
ghost use Rattle.osm_world.specs.History.{base_of, based_by, bases_of, broken_by, last_saved};
ghost use Rattle.osm_world.specs.History.{saved_by, start_of, started_by, starts, time_of};
ghost use Rattle.osm_world.specs.History as hist;
ghost use Rattle.osm_world.specs.Legal.{IsNumber};
ghost use Rattle.osm_publisher.specs.Published.{changes_after, changes_up_to, last_time, time_at};
ghost use Rattle.osm_follow.specs.Reach.{Reaches};

use osm_model::change::Change;
use osm_model::memory::WantOfMemory;
use osm_world::event::{Event, Reply};
use std::alloc::Global;

/// An event and its reply. A history is a list of pairs, the newest first.
pub type Pair = (Event, Reply);

fn is_closing(pair: &Pair) -> bool
    ensures { result ≡ closes pair.now.0 pair.now.1 }
{
    matches!(pair, (Event::Close(_), Reply::Closed(_)))
}

/// The number of sequences that were published.
pub fn published_count(history: &[Pair]) -> usize
    ensures count { result ≡ length (published_of history.now) }
    ensures most { result ≤ length history.now }
{
    match history {
        [] => 0,
        [pair, before @ ..] => {
            let count = published_count(before);
            if is_closing(pair) { count + 1 } else { count }
        }
    }
}

/// The edits that were taken since the last close that published a sequence.
pub fn pending(alloc: Global, history: &[Pair]) -> Result<Vec<Change>, WantOfMemory>
    ensures { IfOk result (λ v. v.items ≡ pending_of history.now) }
{
    match history {
        [] => Ok(Vec::new(alloc)),
        [pair, before @ ..] => {
            if is_closing(pair) {
                return Ok(Vec::new(alloc));
            }
            let mut changes = pending(alloc, before)?;
            if let (Event::Edit(change), Reply::Edited) = pair {
                changes.push(change.copy(alloc)?)?;
            }
            Ok(changes)
        }
    }
}

fn closing_time(pair: &Pair) -> u32
    ensures { result ≡ time_of pair.now.0 }
{
    match pair.0 {
        Event::Close(time) => time,
        _ => 0,
    }
}

/// The least time that the next close may have: the time of the last close, or 1 before the first
/// close.
#[tactic(auto, using(crate::proofs::HistoryLemmas::last_time_more))]
pub fn least_time(history: &[Pair]) -> u32
    ensures { result ≡ last_time (published_of history.now) }
{
    match history {
        [] => 1,
        [pair, before @ ..] => {
            if is_closing(pair) {
                closing_time(pair)
            } else {
                least_time(before)
            }
        }
    }
}

/// Whether the follower starts anew with the pair: a restart or a beginning that succeeded.
pub fn is_starting(pair: &Pair) -> bool
    ensures { result ≡ starts pair.now.0 pair.now.1 }
{
    matches!(
        pair,
        (Event::Restart, Reply::Restarted(_)) | (Event::Begin(_), Reply::Begun(_))
    )
}

fn saved_after(pair: &Pair, before: Option<u32>) -> Option<u32>
    ensures { result ≡ saved_by pair.now.0 pair.now.1 before }
{
    match pair {
        (Event::Save, Reply::Saved(number)) => Some(*number),
        _ => before,
    }
}

/// The sequence number that was saved last; None if nothing was saved.
pub fn saved_last(history: &[Pair]) -> Option<u32>
    ensures { result ≡ last_saved history.now }
{
    match history {
        [] => None,
        [pair, before @ ..] => saved_after(pair, saved_last(before)),
    }
}

fn started_after(pair: &Pair, saved: u32, before: u32) -> u32
    ensures { result ≡ started_by pair.now.0 pair.now.1 saved before }
{
    match pair {
        (Event::Restart, Reply::Restarted(_)) => saved,
        (Event::Begin(number), Reply::Begun(_)) => *number,
        _ => before,
    }
}

/// The sequence number at which the follower started.
pub fn start(history: &[Pair]) -> u32
    ensures { result ≡ start_of history.now }
{
    match history {
        [] => 0,
        [pair, before @ ..] => {
            let saved = saved_last(before).unwrap_or(0);
            started_after(pair, saved, start(before))
        }
    }
}

fn bases_after(pair: &Pair, before: (u32, u32)) -> (u32, u32)
    ensures { result ≡ based_by pair.now.0 pair.now.1 before }
{
    match pair {
        (Event::Save, Reply::Saved(_)) => (before.0, before.0),
        (Event::Restart, Reply::Restarted(_)) => (before.1, before.1),
        (Event::Begin(number), Reply::Begun(_)) => (*number, before.1),
        _ => before,
    }
}

// The number after which the follower counts edits, and that of what was saved last.
fn bases(history: &[Pair]) -> (u32, u32)
    ensures { result ≡ bases_of history.now }
{
    match history {
        [] => (0, 0),
        [pair, before @ ..] => bases_after(pair, bases(before)),
    }
}

/// The sequence number after which the follower counts edits.
pub fn follower_base(history: &[Pair]) -> u32
    ensures { result ≡ base_of history.now }
{
    bases(history).0
}

fn is_broken_after(pair: &Pair, before: bool) -> bool
    ensures { result ≡ broken_by pair.now.0 pair.now.1 before }
{
    match pair {
        (Event::Deliver { .. }, Reply::Broke) => true,
        (Event::Restart, Reply::WantOfMemory) => true,
        (Event::Restart, Reply::Restarted(_)) => false,
        (Event::Begin(_), Reply::Begun(_)) => false,
        _ => before,
    }
}

/// Whether the follower is broken.
pub fn is_broken(history: &[Pair]) -> bool
    ensures { result ≡ hist.is_broken history.now }
{
    match history {
        [] => false,
        [pair, before @ ..] => is_broken_after(pair, is_broken(before)),
    }
}

fn is_accepting(pair: &Pair, number: u64) -> bool
    ensures { result ≡ accepts pair.now.0 pair.now.1 number }
{
    match pair {
        (
            Event::Deliver {
                number: delivered,
                ..
            },
            Reply::Held | Reply::Applied { .. },
        ) => u64::from(*delivered) == number,
        _ => false,
    }
}

/// Whether the sequence number was accepted since the last restart or beginning.
pub fn is_accepted(history: &[Pair], number: u64) -> bool
    ensures { result ≡ accepted_of history.now number }
{
    match history {
        [] => false,
        [pair, before @ ..] => {
            !is_starting(pair) && (is_accepting(pair, number) || is_accepted(before, number))
        }
    }
}

/// A sequence number above which none was accepted since the last restart or beginning.
fn most_accepted(history: &[Pair]) -> u32
    ensures { (j : ℕ) → result < j → accepted_of history.now j ≡ false }
{
    match history {
        [] => 0,
        [pair, before @ ..] => {
            if is_starting(pair) {
                0
            } else {
                most_accepted(before).max(accepted_by(pair))
            }
        }
    }
}

/// The sequence number that the pair accepts; 0 if it accepts none.
pub fn accepted_by(pair: &Pair) -> u32
    ensures some { 0 < result → accepts pair.now.0 pair.now.1 result ≡ true }
    ensures only { (j : ℕ) → accepts pair.now.0 pair.now.1 j ≡ true → j ≡ result }
{
    match pair {
        (Event::Deliver { number, .. }, Reply::Held | Reply::Applied { .. }) => *number,
        _ => 0,
    }
}

/// The greatest sequence number such that every number above `from` and up to it was accepted since
/// the last restart or beginning.
pub fn reach(history: &[Pair], from: u32) -> u32
    ensures { Reaches (accepted_of history.now) from result }
{
    let most = most_accepted(history).max(from);
    for next in from..most {
        if !is_accepted(history, u64::from(next) + 1) {
            return next;
        }
    }
    most
}

/// The sequence number that the follower has reached, unless it is broken.
pub fn follower_number(history: &[Pair]) -> u32
    ensures { IsNumber history.now result }
{
    reach(history, start(history))
}

/// The changes of the sequences 1 to `number`, joined.
pub fn joined_changes(
    alloc: Global,
    history: &[Pair],
    number: u32,
) -> Result<Vec<Change>, WantOfMemory>
    ensures { IfOk result (λ v. v.items ≡ changes_up_to (published_of history.now) number) }
{
    match history {
        [] => Ok(Vec::new(alloc)),
        [pair, before @ ..] => {
            let mut changes = joined_changes(alloc, before, number)?;
            if is_closing(pair) && published_count(before) < number as usize {
                let mut edits = pending(alloc, before)?;
                changes.append(&mut edits)?;
            }
            Ok(changes)
        }
    }
}

/// The changes of the sequences after `base` and up to `number`, joined.
pub fn counted_changes(
    alloc: Global,
    history: &[Pair],
    base: u32,
    number: u32,
) -> Result<Vec<Change>, WantOfMemory>
    ensures { IfOk result (λ v. v.items ≡ changes_after (published_of history.now) base number) }
{
    match history {
        [] => Ok(Vec::new(alloc)),
        [pair, before @ ..] => {
            let mut changes = counted_changes(alloc, before, base, number)?;
            let count = published_count(before);
            if is_closing(pair) && count < number as usize && base as usize <= count {
                let mut edits = pending(alloc, before)?;
                changes.append(&mut edits)?;
            }
            Ok(changes)
        }
    }
}

/// The time of a sequence, in seconds since 1970-01-01T00:00:00Z. The empty start, number 0, has
/// none.
pub fn time_of_sequence(history: &[Pair], number: u32) -> Option<u32>
    ensures { result ≡ time_at (published_of history.now) number }
{
    if number == 0 {
        return None;
    }
    match history {
        [] => Some(0),
        [(Event::Close(time), Reply::Closed(_)), before @ ..] => {
            if published_count(before) + 1 == number as usize {
                Some(*time)
            } else {
                time_of_sequence(before, number)
            }
        }
        [_, before @ ..] => time_of_sequence(before, number),
    }
}
