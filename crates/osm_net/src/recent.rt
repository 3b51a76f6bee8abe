//! Tables of edits that aren't in the counts yet.

ghost use Rattle.std.specs.Prelude.{◌≡◌, ℕ, ◌+◌, ◌<◌, ◌≤◌, ◌^◌, [], length, replicate};
ghost use Rattle.std.specs.Prelude.{OnErr, OnOk};
ghost use Rattle.std.specs.List.{All};
ghost use Rattle.osm_mirror.specs.Mirror.{count_at};
ghost use Rattle.osm_net.specs.Steps.Recent.{Collects, HasRoomIn, IsNumbered, NeedsCount};
ghost use Rattle.osm_net.specs.Steps.Recent.{edits_in, edits_of, filled_of, no_edits, one_edit};
ghost use Rattle.osm_net.specs.Steps.Recent.{one_if_filled};

use osm_mirror::counts::Counts;
use osm_model::memory::WantOfMemory;
use std::marker::Model;

// A power of two, so that finding an entry takes no division.
const ENTRIES: usize = 1024;

/// Users or changesets that came lately, each with its edits that aren't in the counts yet. The low
/// bits of a number select its entry. Most numbers come again before another number takes their
/// entry, so most edits need no search in the counts.
#[derive(Debug, Drop)]
pub(crate) struct Recent {
    entries: [(u32, u64); ENTRIES],
}

impl Model for Recent {
    ghost use Rattle.std.specs.Prelude.{List};
    ghost use Rattle.std.specs.List.{All};
    ghost use Rattle.osm_mirror.specs.Mirror.{Counted};
    ghost use Rattle.osm_net.specs.Steps.Recent.{IsNumbered};

    ghost Value = { List Counted };

    ghost view = { λ a. a.entries };

    ghost invariant = { λ a. All IsNumbered a.entries };
}

impl Recent {
    /// A table without edits.
    pub(crate) fn new() -> Recent
        ensures edits { (n : ℕ) → edits_of result n ≡ 0 }
        ensures filled { filled_of result ≡ 0 }
    {
        Recent {
            entries: no_entries(),
        }
    }

    /// Notes one more edit of the number. If its entry has edits of another number, those go into
    /// the counts. After a refusal nothing has changed.
    pub(crate) fn add_one(&mut self, counts: &mut Counts, number: u32) -> Result<(), WantOfMemory>
        requires room { HasRoomIn counts.old self.old 1 }
        requires number { 0 < number }
        ensures collects { OnOk result
            (Collects counts.old self.old counts.new self.new (one_edit number) 1) }
        ensures refused { OnErr result (NeedsCount counts.old self.old) }
        ensures unchanged { OnErr result ((counts.new ≡ counts.old) × (self.new ≡ self.old)) }
    {
        let index = number as usize % ENTRIES;
        let (known, edits) = self.entries[index];
        if known == number {
            self.entries[index].1 = edits + 1;
            return Ok(());
        }
        let Ok(()) = add_entry(counts, known, edits) else {
            return Err(WantOfMemory);
        };
        self.entries[index] = (number, 1);
        Ok(())
    }

    /// Adds all edits to the counts. After a refusal some of them may have been added.
    pub(crate) fn add_to(&self, counts: &mut Counts) -> Result<(), WantOfMemory>
        requires room { HasRoomIn counts.old self.now 0 }
        ensures collects { OnOk result
            (Collects counts.old self.now counts.new [] no_edits 0) }
        ensures refused { OnErr result (NeedsCount counts.old self.now) }
    {
        add_entries(counts, &self.entries)
    }
}

fn no_entries() -> [(u32, u64); ENTRIES]
    ensures { result ≡ replicate 1024 (0, 0) }
{
    [(0, 0); ENTRIES]
}

// Adds the edits of all entries to the counts.
fn add_entries(counts: &mut Counts, entries: &[(u32, u64)]) -> Result<(), WantOfMemory>
    requires room { HasRoomIn counts.old entries.now 0 }
    requires numbers { All IsNumbered entries.now }
    ensures collects { OnOk result
        (Collects counts.old entries.now counts.new [] no_edits 0) }
    ensures refused { OnErr result (NeedsCount counts.old entries.now) }
{
    for (number, edits) in entries {
        let Ok(()) = add_entry(counts, *number, *edits) else {
            return Err(WantOfMemory);
        };
    }
    Ok(())
}

// Adds the edits of an entry to the counts, if it has any.
fn add_entry(counts: &mut Counts, number: u32, edits: u64) -> Result<(), WantOfMemory>
    requires room { count_at counts.old number + edits < 2 ^ 64 }
    requires number { IsNumbered (number, edits) }
    ensures counted { OnOk result ((n : ℕ) →
        count_at counts.new n ≡ count_at counts.old n + edits_in n (number, edits)) }
    ensures grown { length counts.new ≤ length counts.old + one_if_filled (number, edits) }
    ensures refused { OnErr result ((count_at counts.old number ≡ 0) × (0 < edits)) }
    ensures unchanged { OnErr result (counts.new ≡ counts.old) }
{
    if edits == 0 {
        return Ok(());
    }
    counts.add(number, edits)
}
