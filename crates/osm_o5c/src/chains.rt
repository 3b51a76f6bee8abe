//! The strings that a writer has entered, and the chains that lead to them.
//!
//! Strings fall into buckets by their hash. The strings of a bucket form a chain, newest first, in
//! which each string is linked to the one before it.

ghost use Rattle.std.specs.Prelude.{◌≡◌, ◌⊎◌, [], ◌∷◌, ◌++◌, ◌<◌, ◌≤◌, ◌+◌, ◌/◌, ◌↔◌, take, drop};
ghost use Rattle.std.specs.Prelude.{length, get_or, slice_set, ◌^◌, ◌*◌, IfOk, OnOk, OnErr, IsTrue};
ghost use Rattle.std.specs.Prelude.{vec_capacity};
ghost use Rattle.osm_o5c.specs.Steps.Index.{IsLastIn, IsLeftOut, has_links, string_at, hash_of};

use crate::hashed_string::{BUCKETS, HashedString, bucket_for};
use crate::same_bytes::are_same;
use crate::strings::MAX_ENTRIES;
use osm_model::memory::WantOfMemory;
use std::alloc::Global;
use std::marker::Model;

/// Where a string begins in the bytes, its size and its hash. `previous` is one more than the index
/// of the string before it in its bucket, or 0 if there was none that could be named.
#[derive(Clone, Copy)]
struct Slot {
    start: u32,
    size: u32,
    hash: u32,
    previous: u32,
}

/// The strings entered since the last reset, oldest first, each as its in-line bytes.
///
/// `heads` has for each bucket one more than the index of its newest string. A reset leaves the
/// heads alone: a head from before it leads to no string, or to a string in another bucket.
#[derive(Drop)]
pub struct Chains {
    bytes: Vec<u8>,
    slots: Vec<Slot>,
    heads: Vec<u32>,
}

impl Model for Chains {
    ghost use Rattle.osm_o5c.specs.Steps.Index.{Chained, strings_of, links_of, IsStored};

    ghost Value = { Chained };

    ghost view = { λ a. record {
      strings = strings_of a.bytes.items a.slots.items;
      links = links_of a.slots.items;
      heads = a.heads.items;
    } };

    ghost invariant = { λ a. IsStored a.bytes.items a.slots.items a.heads.items };
}

/// The number in 32 bits; out of memory if the number needs more bits.
pub fn narrow(number: usize) -> Result<u32, WantOfMemory>
    ensures value { IfOk result (λ n. n ≡ number) }
    ensures refused { OnErr result (4294967296 ≤ number) }
{
    if number > u32::MAX as usize {
        return Err(WantOfMemory);
    }
    Ok(number as u32)
}

/// Whether `head` leads to one of `count` strings that can still be named.
pub fn is_recent(head: usize, count: usize) -> bool
    ensures { IsTrue result ↔ ((0 < head) × (head ≤ count) × (count < head + 15000)) }
{
    0 < head && head <= count && count - head < MAX_ENTRIES
}

// The slot of a string that begins at `start`.
fn slot_of(text: &HashedString, start: usize, previous: usize) -> Result<Slot, WantOfMemory>
    ensures slot { IfOk result (λ slot. slot ≡ record {
      start = start;
      size = length text.now;
      hash = hash_of text.now;
      previous = previous;
    }) }
    ensures refused { OnErr result ((4294967296 ≤ start) ⊎ (4294967296 ≤ length text.now)
        ⊎ (4294967296 ≤ previous)) }
{
    Ok(Slot {
        start: narrow(start)?,
        size: narrow(text.as_slice().len())?,
        hash: text.hash(),
        previous: narrow(previous)?,
    })
}

// The `size` bytes from `start` on.
fn piece(bytes: &[u8], start: usize, size: usize) -> &[u8]
    requires { start + size ≤ length bytes.now }
    ensures { result.now ≡ take size (drop start bytes.now) }
{
    let (_before, rest) = bytes.split_at(start);
    let (piece, _after) = rest.split_at(size);
    piece
}

// No bytes, with room for those of `room` strings.
fn room_for_bytes(alloc: Global, room: usize) -> Result<Vec<u8>, WantOfMemory>
    requires { room ≤ 200000 }
    ensures empty { IfOk result (λ v. v.items ≡ []) }
    ensures room { IfOk result (λ v. vec_capacity v ≤ 16 * room) }
{
    Ok(Vec::with_capacity(alloc, 16 * room)?)
}

// No slots, with room for those of `room` strings.
fn room_for_slots(alloc: Global, room: usize) -> Result<Vec<Slot>, WantOfMemory>
    ensures empty { IfOk result (λ v. v.items ≡ []) }
    ensures room { IfOk result (λ v. vec_capacity v ≤ room) }
{
    Ok(Vec::with_capacity(alloc, room)?)
}

impl Chains {
    /// No strings, with room for `room` strings of about 16 bytes each.
    pub fn new(alloc: Global, room: usize) -> Result<Chains, WantOfMemory>
        requires { room ≤ 200000 }
        ensures strings { IfOk result (λ c. c.strings ≡ []) }
        ensures links { IfOk result (λ c. c.links ≡ []) }
        ensures heads { IfOk result (λ c. length c.heads ≡ 32768) }
    {
        Ok(Chains {
            bytes: room_for_bytes(alloc, room)?,
            slots: room_for_slots(alloc, room)?,
            heads: Vec::from_elem(alloc, 0, BUCKETS)?,
        })
    }

    /// Forgets all strings but keeps the memory.
    pub fn clear(&mut self)
        ensures { self.new ≡ record { strings = []; links = []; heads = self.old.heads } }
    {
        self.bytes.clear();
        self.slots.clear();
    }

    /// How many strings there are.
    pub fn len(&self) -> usize
        ensures count { result ≡ length self.now.strings }
        ensures small { result < 2 ^ 63 }
    {
        self.slots.len()
    }

    /// One more than the index of the newest string in the bucket, or 0 if none in it can be named.
    // A head from before the last reset may lead to a string in another bucket, or to none.
    pub fn last_in(&self, bucket: usize) -> usize
        requires { bucket < 32768 }
        ensures { IsLastIn self.now bucket result }
    {
        let head = self.heads[bucket] as usize;
        if !is_recent(head, self.slots.len()) {
            return 0;
        }
        if bucket_for(self.slots[head - 1].hash) != bucket {
            return 0;
        }
        head
    }

    /// The string at an index.
    pub fn string(&self, index: usize) -> &[u8]
        requires { index < length self.now.strings }
        ensures { result.now ≡ string_at self.now.strings index }
    {
        let slot = self.slots[index];
        piece(
            self.bytes.as_slice(),
            slot.start as usize,
            slot.size as usize,
        )
    }

    // The hash of the string at an index.
    fn hash_at(&self, index: usize) -> u32
        requires { index < length self.now.strings }
        ensures { result ≡ hash_of (string_at self.now.strings index) }
    {
        self.slots[index].hash
    }

    /// Whether the string at an index is this one. Strings with different hashes differ, so bytes
    /// are rarely compared unless they are equal.
    pub fn is_at(&self, index: usize, text: &HashedString) -> bool
        requires { index < length self.now.strings }
        ensures { IsTrue result ↔ (string_at self.now.strings index ≡ text.now) }
    {
        if self.hash_at(index) != text.hash() {
            return false;
        }
        are_same(self.string(index), text.as_slice())
    }

    /// One more than the index of the string before this one in the same bucket, or 0 if there was
    /// none that could be named.
    pub fn previous(&self, index: usize) -> usize
        requires { index < length self.now.strings }
        ensures link { result ≡ get_or self.now.links index 0 }
        ensures back { result ≤ index }
    {
        self.slots[index].previous as usize
    }

    /// Whether a chain has at least `count` strings that can be named, of which the first is the
    /// one before `at`.
    pub fn has_links(&self, at: usize, count: usize) -> bool
        requires { at ≤ length self.now.strings }
        ensures { result ≡ has_links (length self.now.strings) self.now.links count at }
    {
        if count == 0 {
            return true;
        }
        if !is_recent(at, self.len()) {
            return false;
        }
        self.has_links(self.previous(at - 1), count - 1)
    }

    /// Whether the chain of the string's bucket has at least `count` strings that can be named, of
    /// which none is this one.
    pub fn is_full_without(&self, text: &HashedString, count: usize) -> bool
        ensures { IsTrue result → IsLeftOut self.now text.now }
    {
        let mut links = 0usize;
        let mut at = self.last_in(text.bucket());
        while is_recent(at, self.len()) {
            if self.is_at(at - 1, text) {
                return false;
            }
            at = self.previous(at - 1);
            links = links.saturating_add(1);
        }
        links >= count
    }

    /// Adds a string that is linked to `previous`; no head leads to it yet. Also out of memory if
    /// an offset, a size or a link needs more than 32 bits, which never happens with the strings
    /// of one file. After a refusal nothing has changed.
    pub fn push(&mut self, text: &HashedString, previous: usize) -> Result<(), WantOfMemory>
        requires { previous ≤ length self.old.strings }
        ensures pushed { OnOk result (self.new ≡ record {
          strings = self.old.strings ++ text.now ∷ [];
          links = self.old.links ++ previous ∷ [];
          heads = self.old.heads;
        }) }
        ensures unchanged { OnErr result (self.new ≡ self.old) }
    {
        let slot = slot_of(text, self.bytes.len(), previous)?;
        self.bytes.extend_from_slice(text.as_slice())?;
        self.slots.push(slot)?;
        Ok(())
    }

    /// Makes a string the head of its bucket; `number` is one more than its index.
    pub fn set_head(&mut self, bucket: usize, number: u32)
        requires { bucket < 32768 }
        ensures { self.new ≡ record self.old { heads = slice_set self.old.heads bucket number } }
    {
        self.heads[bucket] = number;
    }
}
