//! The counts that are asked for.

ghost use Rattle.std.specs.Prelude.{◌≡◌, ℕ, IfOk, map};
ghost use Rattle.std.specs.List.Sorted.{IsNonDecreasingBy};
ghost use Rattle.osm_asking.specs.Counts.{AreChosen, AreLargest, count_in, place_of};

use crate::choice::Choice;
use osm_model::memory::WantOfMemory;
use std::alloc::Global;

/// Gives those of the counts that are asked for.
pub(crate) fn chosen(
    alloc: Global,
    counts: Vec<(u32, u64)>,
    choice: Choice<'_>,
) -> Result<Vec<(u32, u64)>, WantOfMemory>
    ensures { IfOk result (λ given. AreChosen choice.entry counts.items given.items) }
{
    match choice {
        Choice::All => Ok(counts),
        Choice::Top(most) => Ok(largest(counts, most)),
        Choice::Ids(ids) => counts_of(alloc, counts, ids),
    }
}

// The largest counts, at most so many.
fn largest(mut counts: Vec<(u32, u64)>, most: u64) -> Vec<(u32, u64)>
    ensures { AreLargest most counts.items result.items }
{
    counts.sort_unstable_by_key(|count| place(count));
    counts.truncate(most as usize);
    counts
}

// The place of a count among all, by falling counts, and equal ones by rising ids.
fn place(count: &(u32, u64)) -> u128
    ensures { result ≡ place_of count.now }
{
    (u64::MAX - count.1) as u128 * 4_294_967_296 + count.0 as u128
}

// The counts of those ids.
fn counts_of(
    alloc: Global,
    counts: Vec<(u32, u64)>,
    ids: &[u32],
) -> Result<Vec<(u32, u64)>, WantOfMemory>
    ensures { IfOk result (λ found.
        found.items ≡ map (λ id. (id, count_in counts.items id)) ids.now) }
{
    let rising = by_id(counts)?;
    let mut found = Vec::new(alloc);
    for id in ids {
        found.push((*id, count_of(rising.as_slice(), *id)))?;
    }
    Ok(found)
}

// The counts by rising ids, as those of a save are, which takes one look at each and no memory.
fn by_id(mut counts: Vec<(u32, u64)>) -> Result<Vec<(u32, u64)>, WantOfMemory>
    ensures rising { IfOk result (λ rising. IsNonDecreasingBy (λ e. e.0) rising.items) }
    ensures same { IfOk result (λ rising. (id : ℕ)
        → count_in rising.items id ≡ count_in counts.items id) }
{
    counts.sort_by_key(|count| count.0)?;
    Ok(counts)
}

// The count of an id among rising ones; 0 if it has none.
fn count_of(counts: &[(u32, u64)], id: u32) -> u64
    requires { IsNonDecreasingBy (λ e. e.0) counts.now }
    ensures { result ≡ count_in counts.now id }
{
    let place = counts.partition_point(|count| count.0 < id);
    let first = counts.get(place).copied().unwrap_or((id, 0));
    if first.0 == id { first.1 } else { 0 }
}
