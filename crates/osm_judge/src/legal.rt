//! Which replies may follow a history.

ghost use Rattle.std.specs.Prelude.{◌≡◌, ℕ, ◌+◌, ◌-◌, ◌<◌, ◌≤◌, ◌↔◌, true, false, length};
ghost use Rattle.std.specs.Prelude.{IfErr, IfOk, IsTrue};
ghost use Rattle.osm_holding.specs.Holding.{window};
ghost use Rattle.osm_model.specs.Limits.{max_changes, max_file};
ghost use Rattle.osm_world.specs.History.{accepted_of, pending_of, published_of, publisher_of};
ghost use Rattle.osm_world.specs.Legal.{Allowed, AllowedBegin, AllowedClose, AllowedDeliver};
ghost use Rattle.osm_world.specs.Legal.{AllowedEdit};
ghost use Rattle.osm_world.specs.Legal.{AllowedRestart, AllowedSave, AllowedShow, IsLegal};
ghost use Rattle.osm_world.specs.Legal.{IsNumber, IsOpen, IsWanted};
ghost use Rattle.osm_publisher.specs.Published.{changes_up_to};
ghost use Rattle.osm_publisher.specs.Publisher.{CanClose, IsSmall, IsTooLarge};
ghost use Rattle.osm_follow.specs.Reach.{Reaches};
ghost use Rattle.osm_judge.specs.Legal.{IsUnjudged};

use crate::history::{
    Pair, follower_number, is_accepted, is_broken, joined_changes, least_time, pending,
    published_count, reach, saved_last, start,
};
use crate::views::is_view;
use osm_model::batch::{Batch, PushError};
use osm_model::change::Change;
use osm_model::filter::Filter;
use osm_model::form::{ChangeForm, FormError};
use osm_model::limits::{MAX_CHANGES, MAX_SEQUENCE};
use osm_model::memory::WantOfMemory;
use osm_o5c::o5c::O5c;
use osm_opl::opl::Opl;
use osm_world::event::{Event, Reply};
use std::alloc::Global;

// How many numbers after its own a follower accepts: `window` in the definitions.
const WINDOW: u64 = 64;

/// Why a reply can't be judged.
#[derive(Clone, Copy, Debug, PartialEq, Eq)]
pub enum Unjudged {
    /// More than 100,000 edits are pending, which can't be after a legal history.
    TooManyPending,
    /// Out of memory.
    WantOfMemory,
}

impl From<WantOfMemory> for Unjudged {
    ghost use Rattle.std.specs.Prelude.{◌≡◌};
    ghost use Rattle.osm_judge.specs.declared.legal.Unjudged.TheVariants as causes;

    ghost from_gives = { λ _ e. e ≡ causes.WantOfMemory };

    fn from(_error: WantOfMemory) -> Unjudged {
        Unjudged::WantOfMemory
    }
}

/// Whether each reply of a history may follow what came before it, for a follower under that
/// filter. The oldest reply is judged first.
pub fn is_legal(alloc: Global, filter: &Filter, history: &[Pair]) -> Result<bool, WantOfMemory>
    ensures { IfOk result (λ b. IsTrue b ↔ IsLegal filter.now history.now) }
{
    let Some((pair, before)) = history.split_first() else {
        return Ok(true);
    };
    if !is_legal(alloc, filter, before)? {
        return Ok(false);
    }
    is_allowed_next(alloc, filter, before, &pair.0, &pair.1)
}

// Whether the reply may follow a legal history, after which no more edits are pending than a batch
// can have.
#[tactic(auto, using(crate::proofs::LegalLemmas::few_pending))]
fn is_allowed_next(
    alloc: Global,
    filter: &Filter,
    history: &[Pair],
    event: &Event,
    reply: &Reply,
) -> Result<bool, WantOfMemory>
    requires { IsLegal filter.now history.now }
    ensures { IfOk result (λ b. IsTrue b ↔ Allowed filter.now history.now event.now reply.now) }
{
    match is_allowed(alloc, filter, history, event, reply) {
        Ok(is_allowed) => Ok(is_allowed),
        Err(Unjudged::WantOfMemory) => Err(WantOfMemory),
        Err(Unjudged::TooManyPending) => unreachable!(),
    }
}

/// Whether the reply may answer the event after that history, for a follower under that filter.
pub fn is_allowed(
    alloc: Global,
    filter: &Filter,
    history: &[Pair],
    event: &Event,
    reply: &Reply,
) -> Result<bool, Unjudged>
    ensures judged { IfOk result (λ b. IsTrue b
        ↔ Allowed filter.now history.now event.now reply.now) }
    ensures refused { IfErr result (IsUnjudged history.now) }
{
    match event {
        Event::Edit(_) => Ok(is_edit_allowed(alloc, history, reply)?),
        Event::Close(time) => is_close_allowed(alloc, history, *time, reply),
        Event::Deliver { number, .. } => Ok(is_deliver_allowed(alloc, history, *number, reply)?),
        Event::Show => Ok(is_show_allowed(alloc, filter, history, reply)?),
        Event::Save => Ok(is_save_allowed(history, reply)),
        Event::Restart => Ok(is_restart_allowed(history, reply)),
        Event::Begin(number) => Ok(is_begin_allowed(history, *number, reply)),
    }
}

fn is_edit_allowed(alloc: Global, history: &[Pair], reply: &Reply) -> Result<bool, WantOfMemory>
    ensures { IfOk result (λ b. IsTrue b ↔ AllowedEdit history.now reply.now) }
{
    let count = pending(alloc, history)?.len();
    match reply {
        Reply::Edited | Reply::WantOfMemory => Ok(count < MAX_CHANGES),
        Reply::BatchFull => Ok(count == MAX_CHANGES),
        _ => Ok(false),
    }
}

fn is_close_allowed(
    alloc: Global,
    history: &[Pair],
    time: u32,
    reply: &Reply,
) -> Result<bool, Unjudged>
    ensures judged { IfOk result (λ b. IsTrue b ↔ AllowedClose history.now time reply.now) }
    ensures refused { IfErr result (IsUnjudged history.now) }
{
    let count = published_count(history);
    let least = least_time(history);
    match reply {
        Reply::Closed(number) => {
            let is_next = can_close(history, time) && *number as usize == count + 1;
            Ok(is_next && is_small(alloc, history)?)
        }
        Reply::SequenceFull => Ok(count == MAX_SEQUENCE as usize),
        Reply::TimeBack => Ok(count < MAX_SEQUENCE as usize && time < least),
        Reply::TooLarge => Ok(can_close(history, time) && !is_small(alloc, history)?),
        Reply::WantOfMemory => Ok(can_close(history, time)),
        _ => Ok(false),
    }
}

// Whether a number is left, and the time isn't before the last one.
fn can_close(history: &[Pair], time: u32) -> bool
    ensures { IsTrue result ↔ CanClose (publisher_of history.now) time }
{
    published_count(history) < MAX_SEQUENCE as usize && least_time(history) <= time
}

// Whether both files of the pending edits are within 64 MiB. They are written to be measured.
fn is_small(alloc: Global, history: &[Pair]) -> Result<bool, Unjudged>
    ensures small { IfOk result (λ b. IsTrue b ↔ IsSmall (pending_of history.now)) }
    ensures large { IfOk result (λ b. (b ≡ false) ↔ IsTooLarge (pending_of history.now)) }
    ensures refused { IfErr result (IsUnjudged history.now) }
{
    let batch = pending_batch(alloc, history)?;
    let is_opl_small = is_written_small::<Opl>(alloc, &batch)?;
    let is_o5c_small = is_written_small::<O5c>(alloc, &batch)?;
    Ok(is_opl_small && is_o5c_small)
}

fn is_written_small<F: ChangeForm>(alloc: Global, batch: &Batch) -> Result<bool, WantOfMemory>
    ensures { IfOk result (λ b. IsTrue b ↔ (length (F.text batch.now) ≤ max_file)) }
{
    match F::write(alloc, batch) {
        Ok(_) => Ok(true),
        Err(FormError::TooLarge) => Ok(false),
        Err(FormError::WantOfMemory) => Err(WantOfMemory),
        Err(FormError::Fault { place: _, why: _ }) => unreachable!(),
    }
}

// The pending edits as a batch, which holds at most 100,000.
fn pending_batch(alloc: Global, history: &[Pair]) -> Result<Batch, Unjudged>
    ensures batch { IfOk result (λ b. b ≡ pending_of history.now) }
    ensures refused { IfErr result (IsUnjudged history.now) }
{
    let changes = pending(alloc, history)?;
    if changes.len() > MAX_CHANGES {
        return Err(Unjudged::TooManyPending);
    }
    Ok(batch_of(alloc, changes)?)
}

fn batch_of(alloc: Global, changes: Vec<Change>) -> Result<Batch, WantOfMemory>
    requires { length changes.items ≤ max_changes }
    ensures { IfOk result (λ b. b ≡ changes.items) }
{
    let mut batch = Batch::new(alloc);
    for change in changes {
        match batch.push(change) {
            Ok(()) => {}
            Err(PushError::Full(_)) => unreachable!(),
            Err(PushError::WantOfMemory(_)) => return Err(WantOfMemory),
        }
    }
    Ok(batch)
}

fn is_deliver_allowed(
    alloc: Global,
    history: &[Pair],
    number: u32,
    reply: &Reply,
) -> Result<bool, WantOfMemory>
    ensures { IfOk result (λ b. IsTrue b ↔ AllowedDeliver history.now number reply.now) }
{
    let reached = follower_number(history);
    match reply {
        Reply::NotPublished => Ok(!is_published(history, number)),
        Reply::Broken => Ok(is_published(history, number) && is_broken(history)),
        Reply::Old => Ok(is_old(history, number, reached)),
        Reply::Again => Ok(is_again(history, number, reached)),
        Reply::TooEarly => Ok(is_too_early(history, number, reached)),
        Reply::WantOfMemory => is_wanted_with_changes(alloc, history, number, reached, number),
        Reply::Held => Ok(is_early(history, number, reached)),
        Reply::Applied { low, high } => Ok(is_applied(history, number, reached, *low, *high)),
        Reply::Broke => {
            let high = reach(history, number);
            is_next_with_changes(alloc, history, number, reached, high)
        }
        _ => Ok(false),
    }
}

fn is_published(history: &[Pair], number: u32) -> bool
    ensures { IsTrue result ↔ ((0 < number) × (number ≤ length (published_of history.now))) }
{
    0 < number && number as usize <= published_count(history)
}

// Whether the sequence was published, and the follower isn't broken and is at `reached`.
fn is_open(history: &[Pair], number: u32, reached: u32) -> bool
    requires { IsNumber history.now reached }
    ensures { IsTrue result ↔ IsOpen history.now number reached }
{
    is_published(history, number) && !is_broken(history)
}

// Whether the sequence was applied before.
fn is_old(history: &[Pair], number: u32, reached: u32) -> bool
    requires { IsNumber history.now reached }
    ensures { IsTrue result ↔ (IsOpen history.now number reached × (number ≤ reached)) }
{
    is_open(history, number, reached) && number <= reached
}

// Whether the sequence is above `reached` and was accepted.
fn is_again(history: &[Pair], number: u32, reached: u32) -> bool
    requires { IsNumber history.now reached }
    ensures { IsTrue result ↔ (IsOpen history.now number reached
        × (reached < number) × (accepted_of history.now number ≡ true)) }
{
    is_open(history, number, reached) && reached < number && is_accepted(history, u64::from(number))
}

// Whether the sequence is above the window and wasn't accepted.
fn is_too_early(history: &[Pair], number: u32, reached: u32) -> bool
    requires { IsNumber history.now reached }
    ensures { IsTrue result ↔ (IsOpen history.now number reached
        × (reached + window < number) × (accepted_of history.now number ≡ false)) }
{
    is_open(history, number, reached)
        && u64::from(reached) + WINDOW < u64::from(number)
        && !is_accepted(history, u64::from(number))
}

// Whether the sequence is within the window and wasn't accepted.
fn is_wanted(history: &[Pair], number: u32, reached: u32) -> bool
    requires { IsNumber history.now reached }
    ensures { IsTrue result ↔ IsWanted history.now number reached }
{
    let is_within = reached < number && u64::from(number) <= u64::from(reached) + WINDOW;
    is_open(history, number, reached) && is_within && !is_accepted(history, u64::from(number))
}

// Whether the sequence is wanted, and one before it is missing.
fn is_early(history: &[Pair], number: u32, reached: u32) -> bool
    requires { IsNumber history.now reached }
    ensures { IsTrue result ↔ (IsWanted history.now number reached × (reached + 1 < number)) }
{
    is_wanted(history, number, reached) && u64::from(reached) + 1 < u64::from(number)
}

// Whether the sequence is wanted, and none before it is missing.
fn is_next(history: &[Pair], number: u32, reached: u32) -> bool
    requires { IsNumber history.now reached }
    ensures { IsTrue result ↔ (IsWanted history.now number reached × (number ≡ reached + 1)) }
{
    is_wanted(history, number, reached) && u64::from(number) == u64::from(reached) + 1
}

// Whether the sequence is the next, and `low` to `high` are those that can then be applied.
fn is_applied(history: &[Pair], number: u32, reached: u32, low: u32, high: u32) -> bool
    requires { IsNumber history.now reached }
    ensures { IsTrue result ↔ (IsWanted history.now number reached × (number ≡ reached + 1)
        × (low ≡ number) × Reaches (accepted_of history.now) number high) }
{
    is_next(history, number, reached) && low == number && is_reach(history, number, high)
}

fn is_reach(history: &[Pair], from: u32, high: u32) -> bool
    ensures { IsTrue result ↔ Reaches (accepted_of history.now) from high }
{
    high == reach(history, from)
}

// Whether the sequence is wanted, and sequences `number` to `high` aren't all empty.
fn is_wanted_with_changes(
    alloc: Global,
    history: &[Pair],
    number: u32,
    reached: u32,
    high: u32,
) -> Result<bool, WantOfMemory>
    requires { IsNumber history.now reached }
    ensures { IfOk result (λ b. IsTrue b ↔ (IsWanted history.now number reached
        × (length (changes_up_to (published_of history.now) (number - 1))
        < length (changes_up_to (published_of history.now) high)))) }
{
    Ok(is_wanted(history, number, reached) && have_changes(alloc, history, number, high)?)
}

// Whether the sequence is the next, and sequences `number` to `high` aren't all empty.
fn is_next_with_changes(
    alloc: Global,
    history: &[Pair],
    number: u32,
    reached: u32,
    high: u32,
) -> Result<bool, WantOfMemory>
    requires { IsNumber history.now reached }
    ensures { IfOk result (λ b. IsTrue b ↔ (IsWanted history.now number reached
        × (number ≡ reached + 1) × (length (changes_up_to (published_of history.now) (number - 1))
        < length (changes_up_to (published_of history.now) high)))) }
{
    Ok(is_next(history, number, reached) && have_changes(alloc, history, number, high)?)
}

// Whether sequences `number` to `high` aren't all empty.
fn have_changes(
    alloc: Global,
    history: &[Pair],
    number: u32,
    high: u32,
) -> Result<bool, WantOfMemory>
    ensures { IfOk result (λ b. IsTrue b
        ↔ (length (changes_up_to (published_of history.now) (number - 1))
        < length (changes_up_to (published_of history.now) high))) }
{
    let before = joined_changes(alloc, history, number.saturating_sub(1))?;
    let after = joined_changes(alloc, history, high)?;
    Ok(before.len() < after.len())
}

fn is_show_allowed(
    alloc: Global,
    filter: &Filter,
    history: &[Pair],
    reply: &Reply,
) -> Result<bool, WantOfMemory>
    ensures { IfOk result (λ b. IsTrue b ↔ AllowedShow filter.now history.now reply.now) }
{
    match reply {
        Reply::Broken => Ok(is_broken(history)),
        Reply::WantOfMemory => Ok(!is_broken(history)),
        Reply::Shown(view) => Ok(!is_broken(history) && is_view(alloc, filter, history, view)?),
        _ => Ok(false),
    }
}

fn is_save_allowed(history: &[Pair], reply: &Reply) -> bool
    ensures { IsTrue result ↔ AllowedSave history.now reply.now }
{
    match reply {
        Reply::Broken => is_broken(history),
        Reply::WantOfMemory => !is_broken(history),
        Reply::Saved(number) => !is_broken(history) && is_reach(history, start(history), *number),
        _ => false,
    }
}

fn is_restart_allowed(history: &[Pair], reply: &Reply) -> bool
    ensures { IsTrue result ↔ AllowedRestart history.now reply.now }
{
    match reply {
        Reply::WantOfMemory => saved_last(history).is_some(),
        Reply::Restarted(number) => *number == saved_last(history).unwrap_or(0),
        _ => false,
    }
}

fn is_begin_allowed(history: &[Pair], number: u32, reply: &Reply) -> bool
    ensures { IsTrue result ↔ AllowedBegin history.now number reply.now }
{
    match reply {
        Reply::NotPublished => !is_published(history, number),
        Reply::WantOfMemory => is_published(history, number),
        Reply::Begun(begun) => is_published(history, number) && *begun == number,
        _ => false,
    }
}
