//! Whether a view is the one that a history calls for.

ghost use Rattle.std.specs.Prelude.{◌≡◌, ℕ, ◌<◌, ◌↔◌, true, map, Contains, IfOk, IsTrue};
ghost use Rattle.std.specs.Prelude.{option_copied};
ghost use Rattle.std.specs.List.{AllByRecursion};
ghost use Rattle.std.specs.List.Sorted.{IsStrictlySortedBy};
ghost use Rattle.std.specs.Ordering.{nat_cmp};
ghost use Rattle.std.specs.declared.cmp.Ordering.TheVariants.{Less};
ghost use Rattle.osm_model.specs.Content.{content_of, edits_by_changeset, edits_by_user};
ghost use Rattle.osm_model.specs.Filter.{kept};
ghost use Rattle.osm_model.specs.KeyOrder.{key_cmp};
ghost use Rattle.osm_model.specs.declared.kind.Key.{Key};
ghost use Rattle.osm_world.specs.History.{accepted_of, base_of, published_of, start_of};
ghost use Rattle.osm_mirror.specs.Mirror.{AreCountsAboveZero, AreRising, IsAboveZero, IsMirrorOf};
ghost use Rattle.osm_mirror.specs.Mirror.{count_at, object_at};
ghost use Rattle.osm_publisher.specs.Published.{changes_up_to, time_at};
ghost use Rattle.osm_follow.specs.View.{IsView};

use crate::history::{
    Pair, accepted_by, counted_changes, follower_base, follower_number, is_accepted, is_starting,
    joined_changes, time_of_sequence,
};
use crate::plain::{plain_edits_by_changeset, plain_edits_by_user, plain_kept};
use osm_follow::view::View;
use osm_model::change::Change;
use osm_model::filter::Filter;
use osm_model::kind::Key;
use osm_model::memory::WantOfMemory;
use osm_opl::lines::write_line;
use std::alloc::Global;

/// Whether the view may be shown after the history, by a follower under that filter.
pub fn is_view(
    alloc: Global,
    filter: &Filter,
    history: &[Pair],
    view: &View,
) -> Result<bool, WantOfMemory>
    ensures { IfOk result (λ b. IsTrue b ↔ IsView filter.now (published_of history.now)
        (base_of history.now) (start_of history.now) (accepted_of history.now) view.now) }
{
    let number = follower_number(history);
    if view.number() != number || view.time() != time_of_sequence(history, number) {
        return Ok(false);
    }
    let base = follower_base(history);
    if view.base() != base || number < base {
        return Ok(false);
    }
    let changes = joined_changes(alloc, history, number)?;
    let counted = counted_changes(alloc, history, base, number)?;
    let is_mirror = is_mirror_of(alloc, filter, view, changes.as_slice(), counted.as_slice())?;
    if !is_mirror {
        return Ok(false);
    }
    Ok(is_held(history, number, view.held()))
}

fn is_mirror_of(
    alloc: Global,
    filter: &Filter,
    view: &View,
    changes: &[Change],
    counted: &[Change],
) -> Result<bool, WantOfMemory>
    ensures { IfOk result (λ b. IsTrue b
        ↔ IsMirrorOf filter.now changes.now counted.now view.now.mirror) }
{
    let is_orderly = are_rising(view.objects())
        && are_counts(view.users())
        && are_counts(view.changesets());
    let is_counted = are_users(view.users(), counted) && are_changesets(view.changesets(), counted);
    Ok(are_objects(alloc, filter, view.objects(), changes)? && is_orderly && is_counted)
}

// Whether the held numbers rise, and are exactly the accepted numbers above `number`.
fn is_held(history: &[Pair], number: u32, held: &[u32]) -> bool
    ensures { IsTrue result ↔ (IsStrictlySortedBy nat_cmp held.now
        × ((j : ℕ) → Contains held.now j ↔ ((number < j) × (accepted_of history.now j ≡ true)))) }
{
    are_numbers_rising(held) && are_exactly_held(history, number, held)
}

fn are_exactly_held(history: &[Pair], number: u32, held: &[u32]) -> bool
    ensures { IsTrue result
        ↔ ((j : ℕ) → Contains held.now j ↔ ((number < j) × (accepted_of history.now j ≡ true))) }
{
    are_accepted(history, number, held) && are_all_held(history, number, held)
}

// Whether each of the held numbers is above `number` and was accepted.
fn are_accepted(history: &[Pair], number: u32, held: &[u32]) -> bool
    ensures { IsTrue result
        ↔ AllByRecursion (λ j. (number < j) × (accepted_of history.now j ≡ true)) held.now }
{
    match held {
        [] => true,
        [first, others @ ..] => {
            number < *first
                && is_accepted(history, u64::from(*first))
                && are_accepted(history, number, others)
        }
    }
}

// Whether each accepted number above `number` is held.
fn are_all_held(history: &[Pair], number: u32, held: &[u32]) -> bool
    ensures { IsTrue result
        ↔ ((j : ℕ) → number < j → accepted_of history.now j ≡ true → Contains held.now j) }
{
    match history {
        [] => true,
        [pair, before @ ..] => {
            if is_starting(pair) {
                return true;
            }
            let delivered = accepted_by(pair);
            let is_missing = number < delivered && !is_listed(held, delivered);
            !is_missing && are_all_held(before, number, held)
        }
    }
}

fn is_listed(numbers: &[u32], number: u32) -> bool
    ensures { IsTrue result ↔ Contains numbers.now number }
{
    numbers.contains(&number)
}

fn are_numbers_rising(numbers: &[u32]) -> bool
    ensures { IsTrue result ↔ IsStrictlySortedBy nat_cmp numbers.now }
{
    match numbers.split_first() {
        None => true,
        Some((first, others)) => is_number_below(*first, others) && are_numbers_rising(others),
    }
}

fn is_number_below(number: u32, others: &[u32]) -> bool
    ensures { IsTrue result ↔ AllByRecursion (λ n. nat_cmp number n ≡ Less) others.now }
{
    match others {
        [] => true,
        [first, rest @ ..] => number < *first && is_number_below(number, rest),
    }
}

fn are_rising(objects: &[Change]) -> bool
    ensures { IsTrue result ↔ AreRising objects.now }
{
    match objects.split_first() {
        None => true,
        Some((first, others)) => is_key_below(first.key(), others) && are_rising(others),
    }
}

fn is_key_below(key: Key, others: &[Change]) -> bool
    ensures { IsTrue result
        ↔ AllByRecursion (λ k. key_cmp key k ≡ Less) (map (λ c. c.key) others.now) }
{
    match others {
        [] => true,
        [first, rest @ ..] => key.cmp(&first.key()).is_lt() && is_key_below(key, rest),
    }
}

fn are_counts(counts: &[(u32, u64)]) -> bool
    ensures { IsTrue result ↔ AreCountsAboveZero counts.now }
{
    are_counts_rising(counts) && are_above_zero(counts)
}

fn are_counts_rising(counts: &[(u32, u64)]) -> bool
    ensures { IsTrue result ↔ IsStrictlySortedBy nat_cmp (map (λ e. e.0) counts.now) }
{
    match counts.split_first() {
        None => true,
        Some((first, others)) => is_count_below(first.0, others) && are_counts_rising(others),
    }
}

fn is_count_below(number: u32, others: &[(u32, u64)]) -> bool
    ensures { IsTrue result
        ↔ AllByRecursion (λ n. nat_cmp number n ≡ Less) (map (λ e. e.0) others.now) }
{
    match others {
        [] => true,
        [first, rest @ ..] => number < first.0 && is_count_below(number, rest),
    }
}

fn are_above_zero(counts: &[(u32, u64)]) -> bool
    ensures { IsTrue result ↔ AllByRecursion IsAboveZero counts.now }
{
    match counts {
        [] => true,
        [first, others @ ..] => 0 < first.1 && are_above_zero(others),
    }
}

// Whether the objects are what the filter keeps of those that the changes leave, at each key.
fn are_objects(
    alloc: Global,
    filter: &Filter,
    objects: &[Change],
    changes: &[Change],
) -> Result<bool, WantOfMemory>
    ensures { IfOk result (λ b. IsTrue b
        ↔ ((k : Key) → object_at objects.now k ≡ kept filter.now (content_of changes.now) k)) }
{
    let is_first = are_objects_at(alloc, filter, objects, changes, objects)?;
    let is_second = are_objects_at(alloc, filter, objects, changes, changes)?;
    Ok(is_first && is_second)
}

// The same, only at the keys of the changes in `list`.
fn are_objects_at(
    alloc: Global,
    filter: &Filter,
    objects: &[Change],
    changes: &[Change],
    list: &[Change],
) -> Result<bool, WantOfMemory>
    ensures { IfOk result (λ b. IsTrue b ↔ AllByRecursion (λ c. object_at objects.now c.key
        ≡ kept filter.now (content_of changes.now) c.key) list.now) }
{
    match list {
        [] => Ok(true),
        [first, others @ ..] => {
            let is_first = is_object(alloc, filter, objects, changes, first.key())?;
            Ok(is_first && are_objects_at(alloc, filter, objects, changes, others)?)
        }
    }
}

fn is_object(
    alloc: Global,
    filter: &Filter,
    objects: &[Change],
    changes: &[Change],
    key: Key,
) -> Result<bool, WantOfMemory>
    ensures { IfOk result (λ b. IsTrue b
        ↔ (object_at objects.now key ≡ kept filter.now (content_of changes.now) key)) }
{
    match (object_with(objects, key), plain_kept(filter, changes, key)) {
        (None, None) => Ok(true),
        (Some(object), Some(change)) => is_same(alloc, object, change),
        _ => Ok(false),
    }
}

fn object_with<'a>(objects: &'a [Change], key: Key) -> Option<&'a Change>
    ensures { option_copied result ≡ object_at objects.entry.now key }
{
    match objects {
        [] => None,
        [object, others @ ..] => {
            if key.cmp(&object.key()).is_eq() {
                Some(object)
            } else {
                object_with(others, key)
            }
        }
    }
}

// Whether two changes are equal, which they are exactly if their lines are.
fn is_same(alloc: Global, change: &Change, other: &Change) -> Result<bool, WantOfMemory>
    ensures { IfOk result (λ b. IsTrue b ↔ (change.now ≡ other.now)) }
{
    change.limits();
    other.limits();
    let mut line = Vec::new(alloc);
    write_line(change, &mut line)?;
    let mut other_line = Vec::new(alloc);
    write_line(other, &mut other_line)?;
    Ok(line.as_slice() == other_line.as_slice())
}

fn count_of(counts: &[(u32, u64)], number: u32) -> u64
    ensures { result ≡ count_at counts.now number }
{
    match counts {
        [] => 0,
        [(first, count), others @ ..] => {
            if number.cmp(first).is_eq() {
                *count
            } else {
                count_of(others, number)
            }
        }
    }
}

// Whether the count of each user is that of the user's edits in the changes.
fn are_users(users: &[(u32, u64)], changes: &[Change]) -> bool
    ensures { IsTrue result ↔ ((uid : ℕ) → count_at users.now uid ≡ edits_by_user changes.now uid) }
{
    are_users_listed(users, changes, users) && are_users_of(users, changes, changes)
}

fn is_user(users: &[(u32, u64)], changes: &[Change], uid: u32) -> bool
    ensures { IsTrue result ↔ (count_at users.now uid ≡ edits_by_user changes.now uid) }
{
    count_of(users, uid) == plain_edits_by_user(changes, uid) as u64
}

// The same, only for the users in `list`.
fn are_users_listed(users: &[(u32, u64)], changes: &[Change], list: &[(u32, u64)]) -> bool
    ensures { IsTrue result
        ↔ AllByRecursion (λ e. count_at users.now e.0 ≡ edits_by_user changes.now e.0) list.now }
{
    match list.split_first() {
        None => true,
        Some((first, others)) => {
            is_user(users, changes, first.0) && are_users_listed(users, changes, others)
        }
    }
}

// The same, only for the users of the changes in `list`.
fn are_users_of(users: &[(u32, u64)], changes: &[Change], list: &[Change]) -> bool
    ensures { IsTrue result ↔ AllByRecursion
        (λ c. count_at users.now c.meta.uid ≡ edits_by_user changes.now c.meta.uid) list.now }
{
    match list.split_first() {
        None => true,
        Some((first, others)) => {
            let uid = first.meta().uid();
            is_user(users, changes, uid) && are_users_of(users, changes, others)
        }
    }
}

// Whether the count of each changeset is that of its edits in the changes.
fn are_changesets(changesets: &[(u32, u64)], changes: &[Change]) -> bool
    ensures { IsTrue result
        ↔ ((id : ℕ) → count_at changesets.now id ≡ edits_by_changeset changes.now id) }
{
    are_changesets_listed(changesets, changes, changesets)
        && are_changesets_of(changesets, changes, changes)
}

fn is_changeset(changesets: &[(u32, u64)], changes: &[Change], id: u32) -> bool
    ensures { IsTrue result ↔ (count_at changesets.now id ≡ edits_by_changeset changes.now id) }
{
    count_of(changesets, id) == plain_edits_by_changeset(changes, id) as u64
}

// The same, only for the changesets in `list`.
fn are_changesets_listed(changesets: &[(u32, u64)], changes: &[Change], list: &[(u32, u64)]) -> bool
    ensures { IsTrue result ↔ AllByRecursion
        (λ e. count_at changesets.now e.0 ≡ edits_by_changeset changes.now e.0) list.now }
{
    match list.split_first() {
        None => true,
        Some((first, others)) => {
            is_changeset(changesets, changes, first.0)
                && are_changesets_listed(changesets, changes, others)
        }
    }
}

// The same, only for the changesets of the changes in `list`.
fn are_changesets_of(changesets: &[(u32, u64)], changes: &[Change], list: &[Change]) -> bool
    ensures { IsTrue result ↔ AllByRecursion (λ c. count_at changesets.now c.meta.changeset
        ≡ edits_by_changeset changes.now c.meta.changeset) list.now }
{
    match list.split_first() {
        None => true,
        Some((first, others)) => {
            let id = first.meta().changeset();
            is_changeset(changesets, changes, id) && are_changesets_of(changesets, changes, others)
        }
    }
}
