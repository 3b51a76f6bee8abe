//! A follower of published sequences.

ghost use Rattle.std.specs.Prelude.{◌≡◌, ◌+◌, ◌*◌, ◌<◌, ◌≤◌, ℕ, Result, Err, None, Some, IfOk, []};
ghost use Rattle.std.specs.Prelude.{IfErr, IsErr, IsSome, IsTrue, MatchOption, ◌↔◌, true, false};
ghost use Rattle.std.specs.Option.{option_map};
ghost use Rattle.std.specs.List.Sorted.{IsStrictlySortedBy};
ghost use Rattle.std.specs.Ordering.{nat_cmp};
ghost use Rattle.osm_model.specs.Data.{IsData};
ghost use Rattle.osm_model.specs.Filter.{AreKept, IsFilter, everything};
ghost use Rattle.osm_model.specs.Limits.{max_sequence};
ghost use Rattle.osm_follow.specs.Begin.{Begins, begun_of};
ghost use Rattle.osm_follow.specs.Delivery.{AnswersUnread, Delivers, Holds, sequence_of};
ghost use Rattle.osm_follow.specs.Follower.{held_at, is_held, most_edits, new_follower};
ghost use Rattle.osm_follow.specs.Follower.{new_follower_of};
ghost use Rattle.osm_follow.specs.Lag.{Lags, MissingStops};
ghost use Rattle.osm_holding.specs.Holding.{window};
ghost use Rattle.osm_mirror.specs.Mirror.{IsOrderly, IsWithin, count_at, no_mirror, object_at};
ghost use Rattle.osm_save.specs.Head.{IsTimeOf, head_of, most_counted};
ghost use Rattle.osm_save.specs.Save.{SpellsSave, save_text};
ghost use Rattle.osm_save.specs.declared.version.Version.TheVariants.{Three};
ghost use Rattle.osm_follow.specs.Reach.{missing_numbers};
ghost use Rattle.osm_save.specs.declared.save.Saved.{Saved};
ghost use Rattle.osm_follow.specs.Restart.{ReadingStops, Restarts, SavingStops};
ghost use Rattle.osm_follow.specs.Restart.{follower_of, saved_of};
ghost use Rattle.osm_follow.specs.Steps.Reading.{IsDueOf};
ghost use Rattle.osm_follow.specs.Steps.Taking.{TakeAnswers};
ghost use Rattle.osm_follow.specs.View.{ViewStops, view_of};
ghost use Rattle.osm_follow.specs.declared.delivery.Delivered.{Delivered};
ghost use Rattle.osm_follow.specs.declared.delivery.DeliverError.{DeliverError};
ghost use Rattle.osm_follow.specs.declared.delivery.Due as Due;
ghost use Rattle.std.specs.Prelude.{OnOk, OnErr, length, Contains, ◌-◌, min, vec_capacity};

use crate::begin::{BeginError, mirror_of};
use crate::delivery::{DeliverError, Delivered, Due};
use crate::drain::drain;
use crate::lag::{Lag, LagError, lag_from};
use crate::restart::RestartError;
use crate::view::{View, ViewError};
use osm_holding::holding::{Held, HoldingArea, WINDOW};
use osm_mirror::mirror::Mirror;
use osm_model::batch::Batch;
use osm_model::change::Change;
use osm_model::data::first_fault;
use osm_model::filter::{Filter, laws_of_filters};
use osm_model::form::{ChangeForm, FormError};
use osm_model::kind::Key;
use osm_model::memory::WantOfMemory;
use osm_save::head::Head;
use osm_save::save::{SaveError, Saved, save_read, save_write};
use osm_state::state::State;
use osm_state::state_text::state_read;
use std::alloc::{AllocError, Global};
use std::marker::Model;
use thiserror::Error;

/// A mirror of sequences 1 to the follower's number, as far as the filter keeps it. A follower also
/// has the counts of all edits of the sequences after its base, and those of the next 64 sequences
/// that came early.
///
/// The filter never changes. A follower is broken after memory ran out part-way through an
/// application, or after a restart was refused. A broken follower shows nothing of its mirror until
/// it is restarted.
#[derive(Debug, Drop)]
pub struct Follower {
    number: u32,
    base: u32,
    time: Option<u32>,
    filter: Filter,
    mirror: Mirror,
    holding: HoldingArea,
    is_broken: bool,
}

impl Model for Follower {
    ghost use Rattle.osm_follow.specs.Follower.{FollowerValue, IsFollower};

    ghost Value = { FollowerValue };

    ghost view = { λ a. record {
      number = a.number;
      base = a.base;
      time = a.time;
      filter = a.filter;
      mirror = a.mirror;
      holding = a.holding;
      is_broken = a.is_broken;
    } };

    ghost invariant = { λ a. IsFollower (record {
      number = a.number;
      base = a.base;
      time = a.time;
      filter = a.filter;
      mirror = a.mirror;
      holding = a.holding;
      is_broken = a.is_broken;
    }) };
}

/// The follower is broken.
#[derive(Clone, Copy, Debug, PartialEq, Eq, Error)]
#[error("Broken")]
pub struct Broken;

impl Follower {
    /// A follower of all objects at sequence 0, with an empty mirror and nothing held. Takes all
    /// the memory that its holding area ever needs.
    pub fn new(alloc: Global) -> Result<Follower, WantOfMemory>
        ensures new { IfOk result (λ f. f ≡ new_follower) }
    {
        Follower::with_filter(alloc, Filter::all(alloc))
    }

    /// A new follower that keeps the objects that the filter keeps, at sequence 0, with an empty
    /// mirror and nothing held.
    pub fn with_filter(alloc: Global, filter: Filter) -> Result<Follower, WantOfMemory>
        ensures new { IfOk result (λ f. f ≡ new_follower_of filter) }
    {
        let holding = HoldingArea::new(alloc, 0)?;
        filter.limits();
        Ok(Follower {
            number: 0,
            base: 0,
            time: None,
            filter,
            mirror: Mirror::new(alloc),
            holding,
            is_broken: false,
        })
    }

    /// A follower that begins with the objects of a mirror at a state, and counts the edits of the
    /// sequences after it. Its number, base and time are those of the state, and nothing is held.
    pub fn begin(alloc: Global, state: &State, objects: Vec<Change>) -> Result<Follower, BeginError>
        ensures begins { Begins everything state.now objects.items result }
        ensures all { IfOk result (λ f. f.mirror.objects ≡ objects.items) }
    {
        Follower::begin_with(alloc, Filter::all(alloc), state, objects)
    }

    /// A follower that begins with the objects of a mirror that the filter keeps, and counts all
    /// edits of the sequences after the state. The objects passed in are those of the whole mirror,
    /// or at least those that the filter keeps.
    pub fn begin_with(
        alloc: Global,
        filter: Filter,
        state: &State,
        objects: Vec<Change>,
    ) -> Result<Follower, BeginError>
        ensures { Begins filter state.now objects.items result }
    {
        if state.sequence() == 0 {
            return Err(BeginError::BadSequence);
        }
        if let Some(index) = first_fault(objects.as_slice()) {
            return Err(BeginError::NotData { index });
        }
        match begun(alloc, filter, state, objects) {
            Ok(follower) => Ok(follower),
            Err(WantOfMemory) => Err(BeginError::WantOfMemory),
        }
    }

    /// Takes a sequence: its state text, and the bytes that spell its changes in the form `F`. The
    /// next sequence is applied, and after it the held sequences up to the first gap. A sequence
    /// among the 63 after the next one is held. The bytes are read only if the sequence is one of
    /// these 64 and isn't held already.
    pub fn deliver<F: ChangeForm>(
        &mut self,
        alloc: Global,
        state: &[u8],
        bytes: &[u8],
    ) -> Result<Delivered, DeliverError>
        ensures answer { Delivers F.spells F.fault_place self.old
            state.now bytes.now result self.new }

        // If an answer is due before the bytes are read, it is given whatever they are.
        ensures before_reading { (answer : Result Delivered DeliverError) →
            AnswersUnread self.old state.now answer → (result ≡ answer) × (self.new ≡ self.old) }
    {
        let state = match self.due(state) {
            Due::Read(state) => state,
            Due::Answer(answer) => return answer,
        };
        let batch = match F::read(alloc, bytes) {
            Ok(batch) => batch,
            Err(FormError::WantOfMemory) => return Err(DeliverError::WantOfMemory),
            Err(fault) => return Err(DeliverError::BadChange(fault)),
        };
        if state.sequence() > self.number + 1 {
            self.hold(&state, batch);
            return Ok(Delivered::Held);
        }
        self.take(&state, batch)
    }

    // What is due of a delivery before its bytes are read.
    fn due(&self, state: &[u8]) -> Due
        ensures due { IsDueOf self.now state.now result }
        ensures only { (answer : Result Delivered DeliverError) →
            AnswersUnread self.now state.now answer → result ≡ Due.Answer answer }
    {
        if self.is_broken {
            return Due::Answer(Err(DeliverError::Broken));
        }
        let state = match state_read(state) {
            Ok(state) => state,
            Err(fault) => return Due::Answer(Err(DeliverError::BadState(fault))),
        };
        let number = state.sequence();
        if number == 0 {
            return Due::Answer(Err(DeliverError::BadSequence));
        }
        if number <= self.number {
            return Due::Answer(Ok(Delivered::Old));
        }
        if self.holding.is_held(number) {
            return Due::Answer(Ok(Delivered::Again));
        }
        if number > self.number + WINDOW {
            return Due::Answer(Err(DeliverError::TooEarly));
        }
        Due::Read(state)
    }

    // Keeps a sequence until the sequences before it are applied. Takes no memory.
    fn hold(&mut self, state: &State, batch: Batch)
        requires whole { self.old.is_broken ≡ false }
        requires early { self.old.number + 1 < state.now.sequence }
        requires within { state.now.sequence ≤ self.old.number + window }
        requires most { state.now.sequence ≤ max_sequence }
        requires fresh { held_at self.old state.now.sequence ≡ None }
        ensures { Holds self.old (sequence_of state.now batch) self.new }
    {
        let time = state.time();
        self.holding.hold(state.sequence(), Held { batch, time });
    }

    // Applies the next sequence, and those held after it up to the first gap.
    fn take(&mut self, state: &State, batch: Batch) -> Result<Delivered, DeliverError>
        requires whole { self.old.is_broken ≡ false }
        requires next { state.now.sequence ≡ self.old.number + 1 }
        requires most { state.now.sequence ≤ max_sequence }
        ensures { TakeAnswers self.old (sequence_of state.now batch) result self.new }
    {
        let low = state.sequence();
        let time = state.time();
        let first = Held { batch, time };
        let Ok(last) = drain(&self.filter, &mut self.mirror, &mut self.holding, first) else {
            self.is_broken = true;
            return Err(DeliverError::Broke);
        };
        let high = self.holding.reached();
        self.number = high;
        self.time = Some(last);
        Ok(Delivered::Applied { low, high })
    }

    /// Whether the follower is broken: an application stopped part-way, or a restart was refused,
    /// since the last restart that succeeded.
    pub fn is_broken(&self) -> bool
        ensures { result ≡ self.now.is_broken }
    {
        self.is_broken
    }

    /// The filter of the follower, broken or not.
    pub fn filter(&self) -> &Filter
        ensures filter { result.now ≡ self.now.filter }
        ensures limits { IsFilter self.now.filter }
    {
        &self.filter
    }

    /// The sequence number that the follower has reached: of the last sequence applied, or of the
    /// data with which the follower began; 0 before the first. Each count, and the number of users
    /// and of changesets, is at most 100,000 times this number less the base.
    pub fn number(&self) -> Result<u32, Broken>
        ensures broken { IsErr result ↔ (self.now.is_broken ≡ true) }
        ensures number { IfOk result (λ n. n ≡ self.now.number) }
        ensures bounded { OnOk result (IsWithin (most_edits self.now) self.now.mirror) }
    {
        self.check_whole()?;
        Ok(self.number)
    }

    /// The number after which edits are counted: the sequence number of the data with which the
    /// follower began, or 0. The base isn't above the follower's number.
    pub fn base(&self) -> Result<u32, Broken>
        ensures broken { IsErr result ↔ (self.now.is_broken ≡ true) }
        ensures base { IfOk result (λ n. n ≡ self.now.base) }
        ensures below { OnOk result (self.now.base ≤ self.now.number) }
    {
        self.check_whole()?;
        Ok(self.base)
    }

    /// The time of the sequence at the follower's number, in seconds since 1970-01-01T00:00:00Z;
    /// none at number 0.
    pub fn time(&self) -> Result<Option<u32>, Broken>
        ensures broken { IsErr result ↔ (self.now.is_broken ≡ true) }
        ensures time { IfOk result (λ t. t ≡ self.now.time) }
    {
        self.check_whole()?;
        Ok(self.time)
    }

    /// The object with the given key, if the mirror has one.
    pub fn get(&self, key: Key) -> Result<Option<&Change>, Broken>
        ensures broken { IsErr result ↔ (self.now.is_broken ≡ true) }
        ensures object { IfOk result (λ o. MatchOption o
            (object_at self.now.mirror.objects key ≡ None)
            (λ c. object_at self.now.mirror.objects key ≡ Some c.now)) }
    {
        self.check_whole()?;
        Ok(self.mirror.get(key))
    }

    /// How many edits the user has in the sequences that were applied after the base.
    pub fn user_count(&self, uid: u32) -> Result<u64, Broken>
        ensures broken { IsErr result ↔ (self.now.is_broken ≡ true) }
        ensures count { IfOk result (λ n. n ≡ count_at self.now.mirror.users uid) }
        ensures bounded { IfOk result (λ n. n ≤ most_edits self.now) }
    {
        self.check_whole()?;
        Ok(self.mirror.user_count(uid))
    }

    /// How many edits the changeset has in the sequences that were applied after the base.
    pub fn changeset_count(&self, id: u32) -> Result<u64, Broken>
        ensures broken { IsErr result ↔ (self.now.is_broken ≡ true) }
        ensures count { IfOk result (λ n. n ≡ count_at self.now.mirror.changesets id) }
        ensures bounded { IfOk result (λ n. n ≤ most_edits self.now) }
    {
        self.check_whole()?;
        Ok(self.mirror.changeset_count(id))
    }

    /// Whether the follower holds the sequence with the given number.
    pub fn is_held(&self, number: u32) -> Result<bool, Broken>
        ensures broken { IsErr result ↔ (self.now.is_broken ≡ true) }
        ensures held { IfOk result (λ b. IsTrue b ↔ IsSome (held_at self.now number)) }
    {
        self.check_whole()?;
        Ok(self.holding.is_held(number))
    }

    /// How far the follower is behind the given state, in sequences and in seconds. Takes no
    /// memory.
    pub fn lag(&self, state: &State) -> Result<Lag, LagError>
        ensures { Lags self.now state.now result }
    {
        if self.is_broken {
            return Err(LagError::Broken);
        }
        lag_from(self.number, self.time, state)
    }

    /// The numbers of the sequences to fetch, rising: among the 64 after the follower's number,
    /// those up to the state's sequence that aren't held. If the state isn't after the follower,
    /// there are no numbers, and no memory is taken.
    pub fn missing(&self, alloc: Global, state: &State) -> Result<Vec<u32>, ViewError>
        ensures whole { OnOk result (self.now.is_broken ≡ false) }
        ensures numbers { IfOk result (λ ns. ns.items
            ≡ missing_numbers (is_held self.now) self.now.number state.now.sequence) }
        ensures refused { IfErr result (MissingStops self.now state.now) }
    {
        if self.is_broken {
            return Err(ViewError::Broken);
        }
        match self.missing_until(alloc, state.sequence()) {
            Ok(missing) => Ok(missing),
            Err(_) => Err(ViewError::WantOfMemory),
        }
    }

    // The missing numbers up to `top`.
    fn missing_until(&self, alloc: Global, top: u32) -> Result<Vec<u32>, WantOfMemory>
        requires whole { self.now.is_broken ≡ false }
        ensures numbers { IfOk result (λ ns. ns.items
            ≡ missing_numbers (is_held self.now) self.now.number top) }
        ensures refused { OnErr result (self.now.number < top) }
    {
        let mut missing = self.room_up_to(alloc, top)?;
        for index in 0..self.count_up_to(top) {
            let number = self.number + 1 + index;
            if !self.holding.is_held(number) {
                missing.push(number)?;
            }
        }
        Ok(missing)
    }

    // An empty list with room for the numbers of the window up to `top`.
    fn room_up_to(&self, alloc: Global, top: u32) -> Result<Vec<u32>, AllocError>
        ensures none { IfOk result (λ ns. ns.items ≡ []) }
        ensures room { IfOk result (λ ns. (vec_capacity ns ≤ window)
            × (vec_capacity ns ≤ top - self.now.number)) }
        ensures refused { OnErr result (self.now.number < top) }
    {
        Vec::with_capacity(alloc, self.count_up_to(top) as usize)
    }

    // How many numbers of the window there are up to `top`.
    fn count_up_to(&self, top: u32) -> u32
        ensures { result ≡ min window (top - self.now.number) }
    {
        WINDOW.min(top.saturating_sub(self.number))
    }

    fn check_whole(&self) -> Result<(), Broken>
        ensures broken { IsErr result ↔ (self.now.is_broken ≡ true) }
        ensures below { OnOk result (self.now.base ≤ self.now.number) }
        ensures bounded { OnOk result (IsWithin (most_edits self.now) self.now.mirror) }
    {
        if self.is_broken {
            return Err(Broken);
        }
        Ok(())
    }

    /// A copy of the follower's number, base, time, mirror and counts, and of the numbers held.
    pub fn view(&self, alloc: Global) -> Result<View, ViewError>
        ensures whole { OnOk result (self.now.is_broken ≡ false) }
        ensures copies { IfOk result (λ v. v ≡ view_of self.now) }
        ensures orderly { IfOk result (λ v. IsOrderly v.mirror) }
        ensures rising { IfOk result (λ v. IsStrictlySortedBy nat_cmp v.held) }
        ensures held { IfOk result (λ v. (number : ℕ) →
            Contains v.held number ↔ IsSome (held_at self.now number)) }
        ensures refused { IfErr result (ViewStops self.now) }
    {
        if self.is_broken {
            return Err(ViewError::Broken);
        }
        match View::of(alloc, self.head(), &self.mirror, &self.holding) {
            Ok(view) => Ok(view),
            Err(_) => Err(ViewError::WantOfMemory),
        }
    }

    /// Writes the save text of the follower's number, base, time, filter, mirror and counts, in the
    /// present version. Held sequences aren't saved.
    pub fn save(&self, alloc: Global) -> Result<Vec<u8>, ViewError>
        ensures whole { OnOk result (self.now.is_broken ≡ false) }
        ensures text { IfOk result (λ text. SpellsSave text.items (saved_of self.now)) }
        ensures present { IfOk result
            (λ text. text.items ≡ save_text Three (saved_of self.now)) }
        ensures refused { IfErr result (SavingStops self.now) }
    {
        if self.is_broken {
            return Err(ViewError::Broken);
        }
        match save_write(alloc, self.head(), &self.filter, &self.mirror) {
            Ok(text) => Ok(text),
            Err(_) => Err(ViewError::WantOfMemory),
        }
    }

    // The head of what is saved or shown.
    fn head(&self) -> Head
        ensures { result ≡ head_of (saved_of self.now) }
    {
        Head {
            number: self.number,
            base: self.base,
            time: self.time,
        }
    }

    /// Restarts the follower from a save text that was saved under an equal filter, or from
    /// sequence 0 if there is no save text. A restart from sequence 0 takes no memory and always
    /// succeeds. The old mirror and all held sequences are dropped before the text is read, so a
    /// refused text leaves the follower broken. A broken follower can be restarted too.
    pub fn restart(&mut self, alloc: Global, saved: Option<&[u8]>) -> Result<(), RestartError>
        ensures { Restarts self.old (option_map (λ text. text.now) saved.entry) result self.new }
    {
        self.drop_all(alloc);
        match saved {
            None => {
                let start = Head {
                    number: 0,
                    base: 0,
                    time: None,
                };
                self.go_on(start, Mirror::new(alloc));
                Ok(())
            }
            Some(text) => self.read(alloc, text),
        }
    }

    // Drops the mirror and all that is held, and leaves the follower broken.
    fn drop_all(&mut self, alloc: Global)
        ensures { self.new ≡ record self.old {
          mirror = no_mirror;
          holding = record { reached = 0; entries = [] };
          is_broken = true;
        } }
    {
        self.is_broken = true;
        self.mirror = Mirror::new(alloc);
        self.holding.reset(0);
    }

    fn read(&mut self, alloc: Global, text: &[u8]) -> Result<(), RestartError>
        requires { self.old.is_broken ≡ true }
        ensures { Restarts self.old (Some text.now) result self.new }
    {
        let Saved {
            number,
            base,
            time,
            filter,
            mirror,
        } = read_saved(alloc, text)?;
        if !are_same(&filter, &self.filter) {
            return Err(RestartError::OtherFilter);
        }
        self.go_on(Head { number, base, time }, mirror);
        Ok(())
    }

    // Continues from what was saved under the follower's filter, not broken, and with nothing held.
    fn go_on(&mut self, head: Head, mirror: Mirror)
        requires most { head.number ≤ max_sequence }
        requires base { head.base ≤ head.number }
        requires time { IsTimeOf head.number head.time }
        requires within { IsWithin (most_counted head) mirror }
        requires kept { AreKept self.old.filter mirror.objects }
        ensures { self.new ≡ follower_of (record {
          number = head.number;
          base = head.base;
          time = head.time;
          filter = self.old.filter;
          mirror = mirror;
        }) }
    {
        self.holding.reset(head.number);
        self.number = head.number;
        self.base = head.base;
        self.time = head.time;
        self.mirror = mirror;
        self.is_broken = false;
    }

    /// A follower that continues from a save text, under the filter of that text, with nothing
    /// held.
    pub fn from_save(alloc: Global, text: &[u8]) -> Result<Follower, RestartError>
        ensures saved { IfOk result (λ f.
            (v : Saved) × SpellsSave text.now v × (f ≡ follower_of v)) }
        ensures refused { IfErr result (ReadingStops text.now) }
    {
        let saved = read_saved(alloc, text)?;
        let Ok(holding) = HoldingArea::new(alloc, saved.number) else {
            return Err(RestartError::WantOfMemory);
        };
        Ok(Follower {
            number: saved.number,
            base: saved.base,
            time: saved.time,
            filter: saved.filter,
            mirror: saved.mirror,
            holding,
            is_broken: false,
        })
    }
}

/// Reads the filter under which a save text was saved. The whole text is read.
pub fn saved_filter(alloc: Global, text: &[u8]) -> Result<Filter, RestartError>
    ensures filter { IfOk result (λ f. (v : Saved) × SpellsSave text.now v × (v.filter ≡ f)) }
    ensures refused { IfErr result (ReadingStops text.now) }
{
    let saved = read_saved(alloc, text)?;
    Ok(saved.filter)
}

// Whether two filters are equal.
fn are_same(filter: &Filter, other: &Filter) -> bool
    ensures { IsTrue result ↔ (filter.now ≡ other.now) }
{
    laws_of_filters();
    filter == other
}

// What a text saves.
fn read_saved(alloc: Global, text: &[u8]) -> Result<Saved, RestartError>
    ensures spelled { IfOk result (λ saved. SpellsSave text.now saved) }
    ensures refused { IfErr result (ReadingStops text.now) }
{
    match save_read(alloc, text) {
        Ok(saved) => Ok(saved),
        Err(SaveError::BadSave { line }) => Err(RestartError::BadSave { line }),
        Err(SaveError::WantOfMemory) => Err(RestartError::WantOfMemory),
    }
}

// The follower with that filter that begins with these objects.
fn begun(
    alloc: Global,
    filter: Filter,
    state: &State,
    objects: Vec<Change>,
) -> Result<Follower, WantOfMemory>
    requires above { 0 < state.now.sequence }
    requires data { IsData objects.items }
    ensures { IfOk result (λ f. f ≡ begun_of filter state.now objects.items) }
{
    filter.limits();
    let mirror = mirror_of(alloc, &filter, objects)?;
    let number = state.sequence();
    let holding = HoldingArea::new(alloc, number)?;
    Ok(Follower {
        number,
        base: number,
        time: Some(state.time()),
        filter,
        mirror,
        holding,
        is_broken: false,
    })
}
