//! Edits counted by a number: the number of a user or of a changeset.

ghost use Rattle.std.specs.Prelude.{◌≡◌, ℕ, ◌+◌, ◌<◌, ◌≤◌, ◌==◌, ◌^◌, [], ◌∷◌, ◌++◌, length};
ghost use Rattle.std.specs.Prelude.{IfOk, OnOk, OnErr, if◌then◌else◌, map, vec_capacity};
ghost use Rattle.std.specs.BTreeMap.{insert_entry};
ghost use Rattle.std.specs.List.{AllByRecursion};
ghost use Rattle.std.specs.List.Sorted.{IsStrictlySortedBy};
ghost use Rattle.std.specs.Map.Iter.{ShowsInOrder, deref_pair};
ghost use Rattle.std.specs.Ordering.{nat_cmp};
ghost use Rattle.osm_model.specs.Limits.{IsPositive};
ghost use Rattle.osm_mirror.specs.Mirror.{AreCountsAboveZero, HasNumber, count_at};

use osm_model::memory::WantOfMemory;
use std::alloc::{AllocError, Global};
use std::collections::BTreeMap;
use std::collections::btree_map::Iter;
use std::marker::Model;

/// The ids of users or of changesets, with their counts of edits; no count is 0.
#[derive(Debug, Drop)]
pub struct Counts {
    counts: BTreeMap<u32, u64>,
}

impl Model for Counts {
    ghost use Rattle.std.specs.Prelude.{List};
    ghost use Rattle.osm_mirror.specs.Mirror.{Counted};
    ghost use Rattle.osm_mirror.specs.Entries.{AreCounts};

    ghost Value = { List Counted };

    ghost view = { λ a. a.counts.entries };

    ghost invariant = { λ a. AreCounts a.counts.entries };
}

impl Counts {
    /// No counts; takes no memory.
    pub fn new(alloc: Global) -> Counts
        ensures { result ≡ [] }
    {
        Counts {
            counts: BTreeMap::new(alloc),
        }
    }

    /// The edits of the given user or changeset; 0 if it has none.
    pub fn get(&self, number: u32) -> u64
        ensures { result ≡ count_at self.now number }
    {
        self.counts.get(&number).copied().unwrap_or(0)
    }

    /// Counts one more edit of the given user or changeset. After a refusal nothing has changed.
    pub fn add_one(&mut self, number: u32) -> Result<(), WantOfMemory>
        requires room { count_at self.old number + 1 < 2 ^ 64 }
        requires number { 0 < number }
        ensures counted { OnOk result ((n : ℕ) →
            count_at self.new n ≡ count_at self.old n + (if number == n then 1 else 0)) }
        ensures grown { length self.new ≤ length self.old + 1 }
        ensures refused { OnErr result (count_at self.old number ≡ 0) }
        ensures unchanged { OnErr result (self.new ≡ self.old) }
    {
        self.add(number, 1)
    }

    /// Counts `more` edits of the given user or changeset. After a refusal nothing has changed.
    pub fn add(&mut self, number: u32, more: u64) -> Result<(), WantOfMemory>
        requires room { count_at self.old number + more < 2 ^ 64 }
        requires number { 0 < number }
        requires more { 0 < more }
        ensures counted { OnOk result ((n : ℕ) →
            count_at self.new n ≡ count_at self.old n + (if number == n then more else 0)) }
        ensures grown { length self.new ≤ length self.old + 1 }
        ensures refused { OnErr result (count_at self.old number ≡ 0) }
        ensures unchanged { OnErr result (self.new ≡ self.old) }
    {
        count_more(&mut self.counts, number, more)
    }

    /// Adds a user or changeset whose number is above all others, with its count. After a refusal
    /// nothing has changed.
    pub fn push(&mut self, number: u32, count: u64) -> Result<(), WantOfMemory>
        requires rising { IsStrictlySortedBy nat_cmp (map (λ e. e.0) self.old ++ number ∷ []) }
        requires number { 0 < number }
        requires count { 0 < count }
        ensures pushed { OnOk result (self.new ≡ self.old ++ (number, count) ∷ []) }
        ensures unchanged { OnErr result (self.new ≡ self.old) }
    {
        self.counts.insert(number, count)?;
        Ok(())
    }

    /// How many users or changesets have a count.
    pub fn len(&self) -> usize
        ensures { result ≡ length self.now }
    {
        self.counts.len()
    }

    /// The numbers with their counts, the numbers rising.
    pub fn iter(&self) -> Iter<'_, u32, u64>
        ensures rest { result ≡ self.now }
        ensures runs { ShowsInOrder (deref_pair {K = ℕ} {X = ℕ}) }
    {
        self.counts.iter()
    }

    /// Tells the prover that the numbers rise and no count is 0; does nothing at run time.
    pub fn limits(&self)
        ensures counts { AreCountsAboveZero self.now }
        ensures numbers { AllByRecursion HasNumber self.now }
    {
        let _many = self.counts.len();
    }

    /// A copy of the numbers with their counts, the numbers rising.
    pub fn to_vec(&self, alloc: Global) -> Result<Vec<(u32, u64)>, WantOfMemory>
        ensures copies { IfOk result (λ v. v.items ≡ self.now) }
        ensures refused { OnErr result (0 < length self.now) }
    {
        let mut copies = self.room_for_copies(alloc)?;
        for (number, count) in self.counts.iter() {
            copies.push((*number, *count))?;
        }
        Ok(copies)
    }

    fn room_for_copies(&self, alloc: Global) -> Result<Vec<(u32, u64)>, AllocError>
        ensures none { IfOk result (λ v. v.items ≡ []) }
        ensures room { IfOk result (λ v. vec_capacity v ≡ length self.now) }
        ensures refused { OnErr result (0 < length self.now) }
    {
        Vec::with_capacity(alloc, self.counts.len())
    }
}

// Counts that many more edits of the number, with one look-up.
fn count_more(counts: &mut BTreeMap<u32, u64>, number: u32, more: u64) -> Result<(), WantOfMemory>
    requires { count_at counts.old.entries number + more < 2 ^ 64 }
    ensures entries { OnOk result (counts.new.entries ≡ insert_entry nat_cmp
        counts.old.entries number (count_at counts.old.entries number + more)) }
    ensures counted { OnOk result ((n : ℕ) → count_at counts.new.entries n
        ≡ count_at counts.old.entries n + (if number == n then more else 0)) }
    ensures grown { length counts.new.entries ≤ length counts.old.entries + 1 }
    ensures refused { OnErr result (count_at counts.old.entries number ≡ 0) }
    ensures unchanged { OnErr result (counts.new.entries ≡ counts.old.entries) }
{
    *counts.entry(number)?.or_insert(0) += more;
    Ok(())
}
