//! Strings that no chain leads to, each with the number at which it was entered last.

ghost use Rattle.std.specs.Prelude.{◌≡◌, ◌≤◌, ℕ, List, [], length, IfOk, OnOk, OnErr};
ghost use Rattle.std.specs.Prelude.{if◌then◌else◌, nat_lt, vec_capacity};
ghost use Rattle.std.specs.Str.{bytes_eq};
ghost use Rattle.osm_o5c.specs.Steps.Latest.{latest_of, MayHaveForgotten};

use crate::strings::MAX_ENTRIES;
use osm_model::memory::WantOfMemory;
use std::alloc::Global;
use std::collections::BTreeMap;

/// The number of a string is one more than the index at which the string was entered last. After
/// every 15,000 entered strings, those that can't be named any more are forgotten, so the map never
/// has more than about 30,000. `since` is the count of strings when that was last done.
#[derive(Drop)]
pub struct Latest {
    alloc: Global,
    numbers: BTreeMap<Vec<u8>, u32>,
    since: usize,
}

// An empty string with room for a copy of this one.
fn room_for_copy(alloc: Global, text: &[u8]) -> Result<Vec<u8>, WantOfMemory>
    ensures empty { IfOk result (λ v. v.items ≡ []) }
    ensures room { IfOk result (λ v. vec_capacity v ≤ length text.now) }
{
    Ok(Vec::with_capacity(alloc, text.len())?)
}

// The number that a string has from now on, if it has had `kept`.
fn newest_of(kept: u32, last: usize, number: u32) -> u32
    ensures { result ≡ (if nat_lt last kept then kept else number) }
{
    if last < kept as usize { kept } else { number }
}

impl Latest {
    /// Empty; takes no memory.
    pub fn new(alloc: Global) -> Latest
        ensures { result.numbers.entries ≡ [] }
    {
        Latest {
            alloc,
            numbers: BTreeMap::new(alloc),
            since: 0,
        }
    }

    /// Forgets all strings.
    pub fn clear(&mut self)
        ensures { self.new.numbers.entries ≡ [] }
    {
        self.numbers.clear();
        self.since = 0;
    }

    /// Whether no string is here, as for most files.
    pub fn is_empty(&self) -> bool {
        self.numbers.is_empty()
    }

    /// The number of a string, or 0 if it isn't here.
    #[tactic(auto, using(crate::proofs::LatestLemmas::latest_of_empty))]
    pub fn get(&self, text: &[u8]) -> usize
        ensures { result ≡ latest_of self.now text.now }
    {
        // Few files have any string here.
        if self.numbers.is_empty() {
            return 0;
        }
        match self.numbers.get(text) {
            Some(number) => *number as usize,
            None => 0,
        }
    }

    /// Forgets the strings that can't be named any more, if that is due now that `count` strings
    /// have been entered.
    pub fn forget_old(&mut self, count: usize)
        ensures { MayHaveForgotten self.old self.new count }
    {
        if count.saturating_sub(self.since) < MAX_ENTRIES {
            return;
        }
        let last = count.saturating_sub(MAX_ENTRIES);
        self.numbers.retain(|_, number| *number as usize > last);
        self.since = count;
    }

    /// Gives a string a number. After a refusal nothing has changed.
    pub fn put(&mut self, text: &[u8], number: u32) -> Result<(), WantOfMemory>
        ensures put { OnOk result ((t : List ℕ) → latest_of self.new t
            ≡ (if bytes_eq text.now t then number else latest_of self.old t)) }
        ensures unchanged { OnErr result (self.new.numbers.entries ≡ self.old.numbers.entries) }
    {
        let mut key = room_for_copy(self.alloc, text)?;
        key.extend_from_slice(text)?;
        let Ok(_) = self.numbers.insert(key, number) else {
            return Err(WantOfMemory);
        };
        Ok(())
    }

    /// Gives a string a number, unless the string has a number above `last`; returns its number.
    /// After a refusal nothing has changed.
    pub fn keep(&mut self, text: &[u8], last: usize, number: u32) -> Result<usize, WantOfMemory>
        ensures number { IfOk result (λ n. n ≡ (if nat_lt last (latest_of self.old text.now)
            then latest_of self.old text.now else number)) }
        ensures kept { IfOk result (λ n. (t : List ℕ) → latest_of self.new t
            ≡ (if bytes_eq text.now t then n else latest_of self.old t)) }
        ensures unchanged { OnErr result (self.new.numbers.entries ≡ self.old.numbers.entries) }
    {
        let mut key = room_for_copy(self.alloc, text)?;
        key.extend_from_slice(text)?;
        let Ok(entry) = self.numbers.entry(key) else {
            return Err(WantOfMemory);
        };
        let kept = entry.or_insert(number);
        let newest = newest_of(*kept, last, number);
        *kept = newest;
        Ok(newest as usize)
    }
}
