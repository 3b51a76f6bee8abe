//! Whether a follower broke only if a change needed memory for a new entry.

ghost use Rattle.std.specs.Prelude.{◌≡◌, IfOk, IsTrue, Some, None, drop};
ghost use Rattle.osm_model.specs.Content.{content_of};
ghost use Rattle.osm_model.specs.Filter.{kept, left_by};
ghost use Rattle.osm_judge.specs.Breaks.{AreBreaksNeeded, BreaksAtNewEntry, HasNewEntry};
ghost use Rattle.osm_judge.specs.Breaks.{IsNeededBreak, IsNewEntry};

use crate::history::{Pair, follower_base, joined_changes, reach};
use crate::plain::{plain_edits_by_changeset, plain_edits_by_user, plain_kept};
use osm_model::change::Change;
use osm_model::filter::Filter;
use osm_model::memory::WantOfMemory;
use osm_world::event::{Event, Reply};
use std::alloc::Global;

/// Whether each reply `broke` of the history answers a delivery with a new entry.
pub fn are_breaks_needed(
    alloc: Global,
    filter: &Filter,
    history: &[Pair],
) -> Result<bool, WantOfMemory>
    ensures { IfOk result (λ b. IsTrue b → AreBreaksNeeded filter.now history.now) }
{
    match history {
        [] => Ok(true),
        [pair, before @ ..] => {
            if !is_needed_break(alloc, filter, before, &pair.0, &pair.1)? {
                return Ok(false);
            }
            are_breaks_needed(alloc, filter, before)
        }
    }
}

fn is_needed_break(
    alloc: Global,
    filter: &Filter,
    history: &[Pair],
    event: &Event,
    reply: &Reply,
) -> Result<bool, WantOfMemory>
    ensures { IfOk result (λ b. IsTrue b
        → IsNeededBreak filter.now history.now event.now reply.now) }
{
    match (event, reply) {
        (Event::Deliver { number, .. }, Reply::Broke) => {
            breaks_at_new_entry(alloc, filter, history, *number)
        }
        (_, Reply::Broke) => Ok(false),
        _ => Ok(true),
    }
}

fn breaks_at_new_entry(
    alloc: Global,
    filter: &Filter,
    history: &[Pair],
    number: u32,
) -> Result<bool, WantOfMemory>
    ensures { IfOk result (λ b. IsTrue b → BreaksAtNewEntry filter.now history.now number) }
{
    let base = joined_changes(alloc, history, follower_base(history))?;
    let old = joined_changes(alloc, history, number.saturating_sub(1))?;
    let high = reach(history, number);
    let changes = joined_changes(alloc, history, high)?;
    Ok(has_new_entry(filter, base.len(), old.len(), changes.as_slice()))
}

// Whether one of the changes after the first `old` is a new entry after those before it, of which
// the first `base` aren't counted.
fn has_new_entry(filter: &Filter, base: usize, old: usize, changes: &[Change]) -> bool
    ensures { IsTrue result → HasNewEntry filter.now base old changes.now }
{
    for index in old..changes.len() {
        let before = &changes[..index];
        if is_new_entry(filter, after_first(base, before), before, &changes[index]) {
            return true;
        }
    }
    false
}

// The changes after the first `count`.
#[tactic(auto, using(crate::proofs::PlainLemmas::after_most))]
fn after_first(count: usize, changes: &[Change]) -> &[Change]
    ensures { result.now ≡ drop count changes.entry.now }
{
    &changes[count.min(changes.len())..]
}

fn is_new_entry(filter: &Filter, counted: &[Change], before: &[Change], change: &Change) -> bool
    ensures { IsTrue result → IsNewEntry filter.now counted.now before.now change.now }
{
    if plain_edits_by_user(counted, change.meta().uid()) == 0 {
        return true;
    }
    if plain_edits_by_changeset(counted, change.meta().changeset()) == 0 {
        return true;
    }
    is_new_object(filter, before, change)
}

#[tactic(auto, using(crate::proofs::PlainLemmas::kept_is_left))]
fn is_new_object(filter: &Filter, before: &[Change], change: &Change) -> bool
    ensures { IsTrue result → (left_by filter.now change.now ≡ Some change.now)
        × (kept filter.now (content_of before.now) change.now.key ≡ None) }
{
    filter.keeps(change) && plain_kept(filter, before, change.key()).is_none()
}
