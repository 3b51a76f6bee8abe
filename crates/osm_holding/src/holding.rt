//! The holding area of a follower.

ghost use Rattle.std.specs.Prelude.{◌≡◌, ℕ, ◌+◌, ◌<◌, ◌≤◌, ◌↔◌, [], length, replicate};
ghost use Rattle.std.specs.Prelude.{IfOk, OnErr, OnSome, IsTrue, IsSome, Contains, vec_capacity};
ghost use Rattle.std.specs.Bool.{OnFalse};
ghost use Rattle.std.specs.List.Sorted.{IsStrictlyIncreasing};
ghost use Rattle.circular_buffer.specs.Buffer.{buffer};
ghost use Rattle.osm_model.specs.Limits.{max_sequence};
ghost use Rattle.osm_holding.specs.Holding.{ChangesAt, IsHolding, IsInWindow, held_at, numbers_of};
ghost use Rattle.osm_holding.specs.Holding.{window};

use circular_buffer::HeapCircularBuffer;
use osm_model::batch::Batch;
use osm_model::memory::WantOfMemory;
use std::alloc::Global;
use std::marker::Model;
use std::mem;

/// A sequence that came early: its changes, and its time in seconds since 1970-01-01T00:00:00Z.
#[derive(Debug, Drop)]
pub struct Held {
    pub batch: Batch,
    pub time: u32,
}

/// How many numbers after the number reached an area has room for: `window` of the definitions.
pub const WINDOW: u32 = 64;

/// Room for the 64 sequences after the number that a follower has reached. `new` allocates all of
/// the room; afterwards only `numbers` takes memory. Except for `new`, `reset` and `numbers`, no
/// call looks at more than one slot.
#[derive(Debug, Drop)]
pub struct HoldingArea {
    reached: u32,
    // The slot at index i is for the number reached + 1 + i.
    slots: HeapCircularBuffer<Option<Held>>,
}

impl Model for HoldingArea {
    ghost use Rattle.osm_holding.specs.Holding.{HoldingValue};

    ghost Value = { HoldingValue };

    ghost use Rattle.osm_holding.specs.Steps.Slots.{area_of, AreSlots};

    ghost view = { λ a. area_of a.reached a.slots.items };

    ghost invariant = { λ a. AreSlots a.reached a.slots };
}

impl HoldingArea {
    /// An area that holds nothing, at the number `reached`.
    pub fn new(alloc: Global, reached: u32) -> Result<HoldingArea, WantOfMemory>
        requires { reached ≤ max_sequence }
        ensures { IfOk result (λ area. area ≡ record { reached = reached; entries = [] }) }
    {
        let mut slots = HeapCircularBuffer::with_capacity(alloc, WINDOW as usize)?;
        fill(&mut slots);
        Ok(HoldingArea { reached, slots })
    }

    /// The number of the last sequence that was applied; 0 before the first.
    pub fn reached(&self) -> u32
        ensures reached { result ≡ self.now.reached }
        ensures limits { IsHolding self.now }
    {
        self.reached
    }

    /// Whether the area holds the sequence with the given number.
    pub fn is_held(&self, number: u32) -> bool
        ensures held { IsTrue result ↔ IsSome (held_at self.now number) }
        ensures free { OnFalse result (held_at self.now number ≡ None) }
    {
        if number <= self.reached {
            return false;
        }
        match self.slots.get((number - self.reached - 1) as usize) {
            Some(slot) => slot.is_some(),
            None => false,
        }
    }

    /// Keeps a sequence until the sequences before it are applied. Takes no memory.
    pub fn hold(&mut self, number: u32, held: Held)
        requires early { self.old.reached + 2 ≤ number }
        requires within { number ≤ self.old.reached + window }
        requires limit { number ≤ max_sequence }
        requires free { held_at self.old number ≡ None }
        ensures { ChangesAt self.old self.new number (Some held) }
    {
        let _free = self.replace(number, Some(held));
    }

    /// Takes out the sequence after the number reached, if the area holds that sequence.
    pub fn take_next(&mut self) -> Option<Held>
        ensures value { result ≡ held_at self.old (self.old.reached + 1) }
        ensures taken { ChangesAt self.old self.new (self.old.reached + 1) None }
        ensures room { OnSome result (self.old.reached < max_sequence) }
    {
        let next = self.reached + 1;
        self.replace(next, None)
    }

    // Writes the slot of a number, and gives what the slot held before.
    fn replace(&mut self, number: u32, now: Option<Held>) -> Option<Held>
        requires window { IsInWindow self.old.reached number }
        requires limit { IsSome now → number ≤ max_sequence }
        ensures value { result ≡ held_at self.old number }
        ensures changed { ChangesAt self.old self.new number now }
    {
        match self.slots.get_mut((number - self.reached - 1) as usize) {
            Some(slot) => mem::replace(slot, now),
            None => None,
        }
    }

    /// Moves the number reached to the next one, and the window with it.
    pub fn advance(&mut self)
        requires room { self.old.reached < max_sequence }
        requires free { held_at self.old (self.old.reached + 1) ≡ None }
        ensures { self.new ≡ record self.old { reached = self.old.reached + 1 } }
    {
        self.reached += 1;
        self.slots.push_back(None);
    }

    /// Drops all held sequences, and starts again at the given number. Takes no memory.
    pub fn reset(&mut self, reached: u32)
        requires { reached ≤ max_sequence }
        ensures { self.new ≡ record { reached = reached; entries = [] } }
    {
        self.slots.clear();
        fill(&mut self.slots);
        self.reached = reached;
    }

    /// The numbers of the sequences that are held, rising.
    pub fn numbers(&self, alloc: Global) -> Result<Vec<u32>, WantOfMemory>
        ensures numbers { IfOk result (λ ns. ns.items ≡ numbers_of self.now) }
        ensures rising { IfOk result (λ ns. IsStrictlyIncreasing ns.items) }
        ensures exact { IfOk result (λ ns. (number : ℕ) →
            Contains ns.items number ↔ IsSome (held_at self.now number)) }
        ensures few { IfOk result (λ ns. length ns.items ≤ window) }
        ensures refused { OnErr result (0 < length (numbers_of self.now)) }
    {
        let mut numbers = self.room_for_numbers(alloc)?;
        for index in 0..WINDOW {
            let number = self.reached + 1 + index;
            if self.is_held(number) {
                numbers.push(number)?;
            }
        }
        Ok(numbers)
    }

    // An empty list with room for the numbers of what is held, and for no more.
    fn room_for_numbers(&self, alloc: Global) -> Result<Vec<u32>, WantOfMemory>
        ensures empty { IfOk result (λ ns. ns.items ≡ []) }
        ensures room { IfOk result (λ ns. vec_capacity ns ≡ length (numbers_of self.now)) }
        ensures refused { OnErr result (0 < length (numbers_of self.now)) }
    {
        Ok(Vec::with_capacity(alloc, self.count())?)
    }

    fn count(&self) -> usize
        ensures { result ≡ length (numbers_of self.now) }
    {
        let mut count = 0;
        for index in 0..WINDOW {
            if self.is_held(self.reached + 1 + index) {
                count += 1;
            }
        }
        count
    }
}

// Puts the empty slots of the window into an empty ring with room for them.
fn fill(slots: &mut HeapCircularBuffer<Option<Held>>)
    requires { slots.old ≡ buffer [] window }
    ensures { slots.new ≡ buffer (replicate window None) window }
{
    for _ in 0..WINDOW {
        slots.push_back(None);
    }
}
