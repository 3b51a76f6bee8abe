//! The strings that a writer has entered, and the least number that names each of them.
//!
//! A search walks the chain of the string's bucket, newest first, so the first equal string has the
//! least number. A chain has at most 8 links, so that strings chosen to fall into one bucket are
//! found as well: those for which there is no link are kept in a map.

ghost use Rattle.std.specs.Prelude.{◌≡◌, ◌-◌, [], ◌∷◌, ◌++◌, ◌<◌, ◌≤◌, drop, length, IfOk, OnOk};
ghost use Rattle.osm_o5c.specs.Steps.Index.{IsLeast};
ghost use Rattle.osm_o5c.specs.Written.{reference_of, entered_by};

use crate::chains::{Chains, is_recent, narrow};
use crate::hashed_string::HashedString;
use crate::latest::Latest;
use crate::strings::MAX_ENTRIES;
use osm_model::memory::WantOfMemory;
use std::alloc::Global;
use std::marker::Model;

/// The most links of a chain.
const MAX_LINKS: usize = 8;

/// The strings entered since the last reset, oldest first, each as its in-line bytes.
#[derive(Drop)]
pub struct StringIndex {
    chains: Chains,
    latest: Latest,
}

impl Model for StringIndex {
    ghost use Rattle.std.specs.Prelude.{ℕ, List};
    ghost use Rattle.osm_o5c.specs.Steps.Index.{IsIndexed};

    ghost Value = { List (List ℕ) };

    ghost view = { λ a. a.chains.strings };

    ghost invariant = { λ a. IsIndexed a.chains a.latest };
}

impl StringIndex {
    /// An empty index, with room for `room` strings of about 16 bytes each.
    pub fn new(alloc: Global, room: usize) -> Result<StringIndex, WantOfMemory>
        requires { room ≤ 200000 }
        ensures { IfOk result (λ i. i ≡ []) }
    {
        let chains = Chains::new(alloc, room)?;
        let latest = Latest::new(alloc);
        Ok(StringIndex { chains, latest })
    }

    /// Forgets all strings but keeps the memory.
    pub fn clear(&mut self)
        ensures { self.new ≡ [] }
    {
        self.chains.clear();
        self.latest.clear();
    }

    /// How many strings there are.
    pub fn len(&self) -> usize
        ensures { result ≡ length self.now }
    {
        self.chains.len()
    }

    /// An index of the strings that can still be named, without the older ones.
    pub fn of_recent(&self, alloc: Global, room: usize) -> Result<StringIndex, WantOfMemory>
        requires { room ≤ 200000 }
        ensures { IfOk result (λ i. i ≡ drop (length self.now - 15000) self.now) }
    {
        let mut recent = StringIndex::new(alloc, room)?;
        let count = self.len();
        for index in count.saturating_sub(MAX_ENTRIES)..count {
            let text = HashedString::new(self.chains.string(index));
            recent.enter(&text)?;
        }
        Ok(recent)
    }

    /// The least number that names the string, or `None` if no number does.
    #[inline(always)]
    pub fn find(&self, text: &HashedString) -> Option<usize>
        ensures least { IsLeast self.now text.now result }
        ensures reference { result ≡ reference_of self.now text.now }
    {
        let kept = self.latest.get(text.as_slice());
        let mut at = self.chains.last_in(text.bucket());
        while kept < at {
            let number = self.chains.len() - (at - 1);
            if number > MAX_ENTRIES {
                return None;
            }
            if self.chains.is_at(at - 1, text) {
                return Some(number);
            }
            at = self.chains.previous(at - 1);
        }
        if !is_recent(kept, self.chains.len()) {
            return None;
        }
        Some(self.chains.len() - (kept - 1))
    }

    // The least number that names the string, or `None` if no number does; then enters the string.
    #[inline(always)]
    fn find_and_enter(&mut self, text: &HashedString) -> Result<Option<usize>, WantOfMemory>
        ensures number { IfOk result (λ r. r ≡ reference_of self.old text.now) }
        ensures strings { IfOk result (λ r. self.new ≡ entered_by r self.old text.now 0) }
    {
        match self.find(text) {
            Some(number) => Ok(Some(number)),
            None => {
                self.enter(text)?;
                Ok(None)
            }
        }
    }

    /// The least number that names the string, or `None` if no number does; then enters the string.
    pub fn find_or_enter(&mut self, text: &HashedString) -> Result<Option<usize>, WantOfMemory>
        ensures number { IfOk result (λ r. r ≡ reference_of self.old text.now) }
        ensures strings { IfOk result (λ r. self.new ≡ entered_by r self.old text.now 0) }
    {
        if !self.latest.is_empty() {
            return self.find_or_keep(text);
        }
        self.find_and_enter(text)
    }

    // The same if the map has any string, so for chosen strings alone. A string that only the map
    // can have is found and entered by one search of the map.
    #[inline(never)]
    fn find_or_keep(&mut self, text: &HashedString) -> Result<Option<usize>, WantOfMemory>
        ensures number { IfOk result (λ r. r ≡ reference_of self.old text.now) }
        ensures strings { IfOk result (λ r. self.new ≡ entered_by r self.old text.now 0) }
    {
        if self.chains.is_full_without(text, MAX_LINKS) {
            let count = self.chains.len();
            let number = narrow(count + 1)?;
            let last = count.saturating_sub(MAX_ENTRIES);
            self.latest.forget_old(count);
            let Ok(kept) = self.latest.keep(text.as_slice(), last, number) else {
                // Without memory for the map, the chain gets another link.
                return self.find_and_enter(text);
            };
            if kept <= count {
                return Ok(Some(count - (kept - 1)));
            }
            let previous = self.chains.last_in(text.bucket());
            let Ok(()) = self.chains.push(text, previous) else {
                // The map has the number of a string that was not entered.
                self.chains.clear();
                self.latest.clear();
                return Err(WantOfMemory);
            };
            return Ok(None);
        }
        self.find_and_enter(text)
    }

    /// Enters a string. Also out of memory if an offset, a size or an index needs more than 32
    /// bits, which never happens with the strings of one file.
    // Not inlined, since most strings are found, and the search then keeps more in registers.
    #[inline(never)]
    pub fn enter(&mut self, text: &HashedString) -> Result<(), WantOfMemory>
        ensures { OnOk result (self.new ≡ self.old ++ text.now ∷ []) }
    {
        let bucket = text.bucket();
        let previous = self.chains.last_in(bucket);
        let is_full = self.chains.has_links(previous, MAX_LINKS);
        let count = self.chains.len();
        let number = narrow(count + 1)?;
        self.chains.push(text, previous)?;
        if !is_full {
            self.chains.set_head(bucket, number);
            return Ok(());
        }
        self.latest.forget_old(count);
        let Ok(()) = self.latest.put(text.as_slice(), number) else {
            // Without memory for the map, the chain gets another link.
            self.chains.set_head(bucket, number);
            return Ok(());
        };
        Ok(())
    }
}
