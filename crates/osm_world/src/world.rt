//! A world: a publisher, its archive and a follower, which take events one by one.

ghost use Rattle.std.specs.Prelude.{◌≡◌, ◌<◌, ◌≤◌, ◌⊎◌, ◌↔◌, [], length, vec_capacity, vec_len};
ghost use Rattle.std.specs.Prelude.{IsNone, IfOk, IfSome, Ok, OnErr, OnOk};
ghost use Rattle.osm_model.specs.Batch.{IsBatch};
ghost use Rattle.osm_model.specs.Filter.{everything};
ghost use Rattle.osm_world.specs.Correct.{IsRun};
ghost use Rattle.osm_follow.specs.Delivery.{Delivers};
ghost use Rattle.osm_publisher.specs.Published.{texts_at};
ghost use Rattle.osm_follow.specs.declared.delivery.Delivered.TheVariants.{Applied};
ghost use Rattle.osm_opl.specs.File.{FaultLine, SpellsOpl};
ghost use Rattle.osm_world.specs.Step.{CloseStep, DeliverStep, EditStep, Replies, RestartStep};
ghost use Rattle.osm_world.specs.Step.{BeginStep, BeginsFrom, SaveStep, ShowStep, Step};
ghost use Rattle.osm_world.specs.Step.{bytes_in, fault_in, spells_in};
ghost use Rattle.osm_world.specs.Steps.Archive.{AreReadable, ClosesInto, IsArchive, IsReadable};
ghost use Rattle.osm_world.specs.Steps.Beginning.{AreLeft};
ghost use Rattle.osm_world.specs.World.{new_world, new_world_of};

use crate::event::{Event, Form, Reply};
use crate::laws::laws_of_runs;
use osm_follow::delivery::{DeliverError, Delivered};
use osm_follow::follower::Follower;
use osm_follow::restart::RestartError;
use osm_follow::view::ViewError;
use osm_model::change::Change;
use osm_model::filter::Filter;
use osm_model::form::ChangeForm;
use osm_model::memory::WantOfMemory;
use osm_o5c::o5c::O5c;
use osm_opl::opl::Opl;
use osm_publisher::published::Published;
use osm_publisher::publisher::{CloseError, EditError, Publisher};
use osm_save::save::laws_of_saves;
use osm_state::laws::laws_of_state;
use osm_state::state_text::state_read;
use std::alloc::Global;
use std::marker::Model;

/// A publisher, the files of what it published, a follower of them, and the text that the follower
/// saved last. The filter of the follower never changes.
#[derive(Debug, Drop)]
pub struct World {
    alloc: Global,
    publisher: Publisher,
    archive: Vec<Published>,
    follower: Follower,
    saved: Option<Vec<u8>>,
}

impl Model for World {
    ghost use Rattle.std.specs.Option.{option_map};
    ghost use Rattle.osm_world.specs.Steps.Archive.{IsKept};
    ghost use Rattle.osm_world.specs.World.{WorldValue};

    ghost Value = { WorldValue };

    ghost view = { λ a. record {
      publisher = a.publisher;
      archive = a.archive.items;
      follower = a.follower;
      saved = option_map (λ v. v.items) a.saved;
    } };

    ghost invariant = { λ a. IsKept a.publisher.number a.archive.items a.follower.filter
        (option_map (λ v. v.items) a.saved) };
}

/// A world after some events, and what it replied to each of them.
#[derive(Debug, Drop)]
pub struct Run {
    pub world: World,
    pub replies: Vec<Reply>,
}

impl World {
    /// A new publisher, an empty archive, a new follower that keeps every object, and nothing
    /// saved. Takes all the memory that the follower's holding area ever needs.
    pub fn new(alloc: Global) -> Result<World, WantOfMemory>
        ensures new { IfOk result (λ w. w ≡ new_world) }
    {
        World::with_filter(alloc, Filter::all(alloc))
    }

    /// A new world whose follower keeps the objects that the filter keeps, with an empty archive
    /// and nothing saved. Takes all the memory that the follower's holding area ever needs.
    pub fn with_filter(alloc: Global, filter: Filter) -> Result<World, WantOfMemory>
        ensures new { IfOk result (λ w. w ≡ new_world_of filter) }
    {
        Ok(World {
            alloc,
            publisher: Publisher::new(alloc),
            archive: Vec::new(alloc),
            follower: Follower::with_filter(alloc, filter)?,
            saved: None,
        })
    }

    /// Takes all the events in order, in a new world whose follower keeps every object. After an
    /// error no event was taken.
    pub fn run(alloc: Global, events: Vec<Event>) -> Result<Run, WantOfMemory>
        ensures run { IfOk result (λ r. IsRun everything events.items r.replies.items r.world) }
        ensures none { events.items ≡ [] → IfOk result (λ r. r.world ≡ new_world) }
    {
        World::run_with(alloc, Filter::all(alloc), events)
    }

    /// Takes all the events in order, in a new world whose follower keeps the objects that the
    /// filter keeps. After an error no event was taken.
    pub fn run_with(alloc: Global, filter: Filter, events: Vec<Event>) -> Result<Run, WantOfMemory>
        ensures run { IfOk result (λ r. IsRun filter events.items r.replies.items r.world) }
        ensures none { events.items ≡ [] → IfOk result (λ r. r.world ≡ new_world_of filter) }
    {
        let mut world = World::with_filter(alloc, filter)?;
        let mut replies = room_for_replies(alloc, events.as_slice())?;
        laws_of_runs();
        for event in events {
            let reply = world.step(event);
            replies.push(reply).unwrap();
        }
        Ok(Run { world, replies })
    }

    /// Takes one event, and gives the reply to it.
    pub fn step(&mut self, event: Event) -> Reply
        ensures { Step self.old event result self.new }
    {
        match event {
            Event::Edit(change) => self.edit(change),
            Event::Close(time) => self.close(time),
            Event::Deliver { number, form } => self.deliver(number, form),
            Event::Show => self.show(),
            Event::Save => self.save(),
            Event::Restart => self.restart(),
            Event::Begin(number) => self.begin(number),
        }
    }

    /// The publisher, with its pending edits.
    pub fn publisher(&self) -> &Publisher
        ensures { result.now ≡ self.now.publisher }
    {
        &self.publisher
    }

    /// The follower of what was published.
    pub fn follower(&self) -> &Follower
        ensures { result.now ≡ self.now.follower }
    {
        &self.follower
    }

    /// The files of the sequence with the given number; none if the number is 0 or above the
    /// publisher's.
    pub fn published(&self, number: u32) -> Option<&Published>
        ensures none { IsNone result ↔ ((number ≡ 0) ⊎ (self.now.publisher.number < number)) }
        ensures texts { IfSome result (λ p. p.now ≡ texts_at self.now.archive number) }
    {
        if number == 0 || number > self.publisher.number() {
            return None;
        }
        Some(&self.archive[number as usize - 1])
    }

    fn edit(&mut self, change: Change) -> Reply
        ensures { EditStep self.old change result self.new }
    {
        match self.publisher.edit(change) {
            Ok(()) => Reply::Edited,
            Err(EditError::BatchFull(_)) => Reply::BatchFull,
            Err(EditError::WantOfMemory(_)) => Reply::WantOfMemory,
        }
    }

    fn close(&mut self, time: u32) -> Reply
        ensures { CloseStep self.old time result self.new }
    {
        match close_into(&mut self.publisher, &mut self.archive, self.alloc, time) {
            Ok(number) => Reply::Closed(number),
            Err(CloseError::SequenceFull) => Reply::SequenceFull,
            Err(CloseError::TimeBack) => Reply::TimeBack,
            Err(CloseError::TooLarge) => Reply::TooLarge,
            Err(CloseError::WantOfMemory) => Reply::WantOfMemory,
        }
    }

    #[tactic(auto, using(crate::proofs::ArchiveLemmas::replies_under_it))]
    fn deliver(&mut self, number: u32, form: Form) -> Reply
        ensures { DeliverStep self.old number form result self.new }
    {
        if number == 0 || number > self.publisher.number() {
            return Reply::NotPublished;
        }
        let published = &self.archive[number as usize - 1];
        deliver_text(&mut self.follower, self.alloc, published, form)
    }

    fn show(&mut self) -> Reply
        ensures { ShowStep self.old result self.new }
    {
        match self.follower.view(self.alloc) {
            Ok(view) => Reply::Shown(view),
            Err(ViewError::Broken) => Reply::Broken,
            Err(ViewError::WantOfMemory) => Reply::WantOfMemory,
        }
    }

    fn save(&mut self) -> Reply
        ensures { SaveStep self.old result self.new }
    {
        let Ok(number) = self.follower.number() else {
            return Reply::Broken;
        };
        let Ok(text) = self.follower.save(self.alloc) else {
            return Reply::WantOfMemory;
        };
        self.saved = Some(text);
        Reply::Saved(number)
    }

    // What was saved last is a save text under the follower's filter, so it is never refused as a
    // bad one or as another filter's.
    #[tactic(auto, using(crate::proofs::SaveLemmas::no_bad, crate::proofs::SaveLemmas::no_other))]
    fn restart(&mut self) -> Reply
        ensures { RestartStep self.old result self.new }
    {
        laws_of_saves();
        match self.follower.restart(self.alloc, self.saved.as_deref()) {
            Ok(()) => Reply::Restarted(self.follower.number().unwrap()),
            Err(RestartError::WantOfMemory) => Reply::WantOfMemory,
            Err(RestartError::BadSave { .. }) => unreachable!(),
            Err(RestartError::OtherFilter) => unreachable!(),
        }
    }

    fn begin(&mut self, number: u32) -> Reply
        ensures { BeginStep self.old number result self.new }
    {
        if number == 0 || number > self.publisher.number() {
            return Reply::NotPublished;
        }
        let filter = self.follower.filter();
        match begun_from(self.alloc, filter, self.archive.as_slice(), number) {
            Ok(follower) => {
                self.follower = follower;
                Reply::Begun(number)
            }
            Err(_) => Reply::WantOfMemory,
        }
    }
}

// The follower with that filter that begins at that number with what the archived sequences leave.
// Whatever is refused on the way is refused for memory.
fn begun_from(
    alloc: Global,
    filter: &Filter,
    archive: &[Published],
    number: u32,
) -> Result<Follower, WantOfMemory>
    requires above { 0 < number }
    requires there { number ≤ length archive.now }
    ensures begins { IfOk result (BeginsFrom filter.now archive.now number) }
    ensures filter { IfOk result (λ f. f.filter ≡ filter.now) }
{
    let objects = archived_objects(alloc, filter.copy(alloc)?, archive, number)?;
    let Ok(state) = state_read(archive[number as usize - 1].state()) else {
        return Err(WantOfMemory);
    };
    let Ok(follower) = Follower::begin_with(alloc, filter.copy(alloc)?, &state, objects) else {
        return Err(WantOfMemory);
    };
    Ok(follower)
}

// What the filter keeps of the objects that the archived sequences 1 to `number` leave.
fn archived_objects(
    alloc: Global,
    filter: Filter,
    archive: &[Published],
    number: u32,
) -> Result<Vec<Change>, WantOfMemory>
    requires { number ≤ length archive.now }
    ensures { IfOk result (λ objects. AreLeft filter archive.now number objects.items) }
{
    let mut giver = Follower::with_filter(alloc, filter)?;
    for index in 0..number {
        give(&mut giver, alloc, &archive[index as usize])?;
    }
    let Ok(view) = giver.view(alloc) else {
        return Err(WantOfMemory);
    };
    Ok(view.into_objects())
}

// An empty list with room for one reply to each event, and for no more.
fn room_for_replies(alloc: Global, events: &[Event]) -> Result<Vec<Reply>, WantOfMemory>
    ensures empty { IfOk result (λ replies. replies.items ≡ []) }
    ensures room { IfOk result (λ replies. vec_capacity replies ≡ length events.now) }
    ensures refused { OnErr result (0 < length events.now) }
{
    Ok(Vec::with_capacity(alloc, events.len())?)
}

// Makes room for the files of one more sequence, if there is none.
fn make_room(archive: &mut Vec<Published>) -> Result<(), WantOfMemory>
    ensures kept { archive.new.items ≡ archive.old.items }
    ensures room { OnOk result (vec_len archive.new < vec_capacity archive.new) }
    ensures refused { OnErr result (vec_capacity archive.old ≤ vec_len archive.old) }
{
    archive.reserve(1)?;
    Ok(())
}

// Publishes the pending edits and archives their files. Makes room in the archive first, so that a
// refusal changes nothing.
fn close_into(
    publisher: &mut Publisher,
    archive: &mut Vec<Published>,
    alloc: Global,
    time: u32,
) -> Result<u32, CloseError>
    requires { IsArchive publisher.old.number archive.old.items }
    ensures closes { ClosesInto publisher.old archive.old.items time result
        publisher.new archive.new.items }
    ensures archive { IsArchive publisher.new.number archive.new.items }
{
    publisher.check_close(time)?;
    if make_room(archive).is_err() {
        return Err(CloseError::WantOfMemory);
    }
    let published = publisher.close(alloc, time)?;
    laws_of_state();
    Opl::laws();
    O5c::laws();
    archive.push(published).unwrap();
    Ok(publisher.number())
}

// Delivers a sequence that is to be applied, and gives the numbers of the first and the last one
// that were.
fn give(
    giver: &mut Follower,
    alloc: Global,
    published: &Published,
) -> Result<(u32, u32), WantOfMemory>
    ensures { IfOk result (λ range. Delivers SpellsOpl FaultLine giver.old published.now.state
        published.now.opl (Ok (Applied range.0 range.1)) giver.new) }
{
    match giver.deliver::<Opl>(alloc, published.state(), published.opl()) {
        Ok(Delivered::Applied { low, high }) => Ok((low, high)),
        _ => Err(WantOfMemory),
    }
}

fn deliver_text(follower: &mut Follower, alloc: Global, published: &Published, form: Form) -> Reply
    requires { AreReadable published.now }
    ensures { Replies (spells_in form) (fault_in form) follower.old published.now.state
        (bytes_in form published.now) result follower.new }
{
    let state = published.state();
    match form {
        Form::Opl => deliver_in::<Opl>(follower, alloc, state, published.opl()),
        Form::O5c => deliver_in::<O5c>(follower, alloc, state, published.o5c()),
    }
}

// Texts that can be read are never refused for their state or for their changes.
fn deliver_in<F: ChangeForm>(
    follower: &mut Follower,
    alloc: Global,
    state: &[u8],
    bytes: &[u8],
) -> Reply
    requires { IsReadable F.spells state.now bytes.now }
    ensures { Replies F.spells F.fault_place follower.old state.now bytes.now result follower.new }
{
    match follower.deliver::<F>(alloc, state, bytes) {
        Ok(Delivered::Old) => Reply::Old,
        Ok(Delivered::Again) => Reply::Again,
        Ok(Delivered::Held) => Reply::Held,
        Ok(Delivered::Applied { low, high }) => Reply::Applied { low, high },
        Err(DeliverError::Broken) => Reply::Broken,
        Err(DeliverError::TooEarly) => Reply::TooEarly,
        Err(DeliverError::WantOfMemory) => Reply::WantOfMemory,
        Err(DeliverError::Broke) => Reply::Broke,
        Err(DeliverError::BadState(_)) => unreachable!(),
        Err(DeliverError::BadSequence) => unreachable!(),
        Err(DeliverError::BadChange(_)) => unreachable!(),
    }
}
