//! The objects of a save text with net changes laid over them, read one by one.

ghost use Rattle.std.specs.Prelude.{◌≡◌, ℕ, ◌<◌, ◌≤◌, List, [], None, Some, IfErr, IfOk, IfSome};
ghost use Rattle.std.specs.Prelude.{IsTrue, OnOk};
ghost use Rattle.osm_blocks.specs.Frames.{ReadsOften};
ghost use Rattle.osm_blocks.specs.Places.{HasFile, left_of};
ghost use Rattle.osm_model.specs.Filter.{FilterValue};
ghost use Rattle.osm_opl.specs.Written.{line_text};
ghost use Rattle.osm_merge.specs.Calls.{ReadsTo};
ghost use Rattle.osm_merge.specs.Faults.{IsDeviceFault};
ghost use Rattle.osm_merge.specs.Reading.{Refuses};
ghost use Rattle.osm_merged.specs.Ahead.{Falls, Gives, GivesBy, most_ahead, most_in};
ghost use Rattle.osm_merged.specs.Ahead.{IsGiven, PassesFirst, objects_ahead};
ghost use Rattle.osm_merged.specs.Steps.Turns.{Fills, GivesHeld, GivesLeft, IsFilled, KeepsAhead};
ghost use Rattle.osm_merged.specs.Steps.Turns.{Shrinks};
ghost use Rattle.osm_merged.specs.Steps.Turns.{Turns, TurnsText, key_of_first, rank_of};
ghost use Rattle.osm_merged.specs.Steps.Turns.{without_held};

use osm_merge::fault::MergeFault;
use osm_merge::objects::{Between, LineTaker, first_entry, next_object, pass_object};
use osm_merge::source::Source;
use osm_model::change::Change;
use osm_model::filter::Filter;
use osm_model::kind::Key;
use osm_model::memory::WantOfMemory;
use osm_opl::lines::write_line;
use osm_store::store::Store;
use std::alloc::Global;
use std::cmp::Ordering;
use std::marker::Model;
use std::mem::swap;

/// A reading of objects: where it stands, and the entries of net changes that aren't laid yet. In
/// memory are one object of the save and its line.
#[derive(Drop)]
pub struct MergedObjects<'a> {
    entries: &'a [(Key, Option<Change>)],
    lines: u64,
    last: Option<Key>,
    held: Option<Change>,
    line: Vec<u8>,
}

impl<'a> Model for MergedObjects<'a> {
    ghost use Rattle.std.specs.Prelude.{◌≡◌, IfSome};
    ghost use Rattle.osm_model.specs.Change.{ChangeValue};
    ghost use Rattle.osm_model.specs.declared.kind.Key.{Key};
    ghost use Rattle.osm_net.specs.Net.{NetEntry};
    ghost use Rattle.osm_opl.specs.Written.{line_text};
    ghost use Rattle.osm_merged.specs.Ahead.{Ahead};

    ghost Value = { Ahead NetEntry ChangeValue Key };

    ghost view = { λ a. record {
      changes = a.entries.now;
      lines = a.lines;
      last = a.last;
      held = a.held;
    } };

    ghost invariant = { λ a. IfSome a.held (λ c. a.line.items ≡ line_text c) };
}

// What the first of the objects that are ahead is.
#[derive(Drop)]
enum Turn {
    // That one.
    Object(Change),
    // An entry that leaves nothing: the first of the others is to be looked at.
    Gone,
    // There is none.
    End,
}

impl<'a> MergedObjects<'a> {
    /// Begins to read `lines` lines of objects, over which the entries are laid. The keys of the
    /// entries rise.
    pub fn new(alloc: Global, entries: &'a [(Key, Option<Change>)], lines: u64) -> MergedObjects<'a>
        ensures { result ≡ record {
          changes = entries.now;
          lines = lines;
          last = None;
          held = None;
        } }
    {
        MergedObjects {
            entries,
            lines,
            last: None,
            held: None,
            line: Vec::new(alloc),
        }
    }

    /// Gives the next object, and leaves its line in `spelled`; None at the end. Each line that is
    /// read has to be an object that the filter keeps, with a key after that of the line before.
    /// After a fault, the reading can't go on.
    pub fn next<S: Store>(
        &mut self,
        alloc: Global,
        store: &mut S,
        name: &str,
        source: &mut Source,
        filter: &Filter,
        spelled: &mut Vec<u8>,
    ) -> Result<Option<Change>, MergeFault>
        ensures given { (file : List ℕ) → HasFile (S.state store.old) name.now file
            → Gives file (left_of source.new file)
            (objects_ahead filter.now self.old (left_of source.old file))
            (objects_ahead filter.now self.new (left_of source.new file)) result }
        ensures exact { (file : List ℕ) → HasFile (S.state store.old) name.now file
            → IfOk result (GivesBy (λ bytes. objects_ahead filter.now self.old bytes)
            (λ bytes. objects_ahead filter.now self.new bytes)
            (left_of source.old file) (left_of source.new file)) }
        ensures spelled { IfOk result (λ given. IfSome given (λ object.
            spelled.new.items ≡ line_text object)) }
        ensures fewer { IfOk result (Falls (most_ahead self.old) (most_ahead self.new)) }
        ensures shorter { (file : List ℕ) → HasFile (S.state store.old) name.now file
            → IfOk result (Falls (most_in self.old (left_of source.old file))
            (most_in self.new (left_of source.new file))) }
        ensures stage { (S.state store.new).stage ≡ (S.state store.old).stage }
        ensures frame { ReadsOften IsDeviceFault (S.state store.old) (S.state store.new) result }
        ensures calls { ReadsTo (S.state store.old) (S.state store.new) name.now source.old
            source.new result }
    {
        if self.entries.is_empty() && self.held.is_none() && self.lines > 0 {
            match self.next_line(alloc, store, name, source, filter, spelled) {
                Ok(object) => return Ok(Some(object)),
                Err(fault) => return Err(fault),
            }
        }
        'entries: loop {
            match self.fill(alloc, store, name, source, filter) {
                Ok(()) => {}
                Err(fault) => return Err(fault),
            }
            match self.turn(alloc, spelled) {
                Ok(Turn::Object(object)) => return Ok(Some(object)),
                Ok(Turn::Gone) => {}
                Ok(Turn::End) => return Ok(None),
                Err(WantOfMemory) => return Err(MergeFault::WantOfMemory),
            }
        }
    }

    /// Passes the next line if its object is the next one and the taker takes the line, and says
    /// whether it did. If not, nothing has changed: `next` gives the next object, or None.
    #[inline(always)]
    pub fn pass_line<S: Store, T: LineTaker>(
        &mut self,
        alloc: Global,
        store: &mut S,
        name: &str,
        source: &mut Source,
        filter: &Filter,
        taker: &mut T,
    ) -> Result<bool, MergeFault>
        ensures passed { IfOk result (PassesFirst
            (λ object. (file : List ℕ) → HasFile (S.state store.old) name.now file
            → IsGiven (left_of source.new file)
            (objects_ahead filter.now self.old (left_of source.old file))
            (objects_ahead filter.now self.new (left_of source.new file)) (Some object))
            ((self.new ≡ self.old) × ((file : List ℕ) → HasFile (S.state store.old) name.now file
            → left_of source.new file ≡ left_of source.old file))
            (T.ahead taker.old) (T.ahead taker.new)) }
        ensures refused { IfErr result (Refuses (S.state store.old) name.now source.old
            (objects_ahead filter.now self.old)) }
        ensures fewer { IfOk result (λ is_passed. IsTrue is_passed
            → most_ahead self.new < most_ahead self.old) }
        ensures shorter { IfOk result (λ is_passed. IsTrue is_passed → (file : List ℕ)
            → HasFile (S.state store.old) name.now file
            → most_in self.new (left_of source.new file)
            < most_in self.old (left_of source.old file)) }
        ensures stage { (S.state store.new).stage ≡ (S.state store.old).stage }
        ensures frame { ReadsOften IsDeviceFault (S.state store.old) (S.state store.new) result }
        ensures calls { ReadsTo (S.state store.old) (S.state store.new) name.now source.old
            source.new result }
    {
        if self.held.is_some() || self.lines == 0 {
            return Ok(false);
        }
        let between = Between {
            last: self.last,
            bound: self.first_key(),
        };
        match pass_object(alloc, store, name, source, filter, between, taker) {
            Ok(Some(key)) => {
                self.lines -= 1;
                self.last = Some(key);
                Ok(true)
            }
            Ok(None) => Ok(false),
            Err(fault) => Err(fault),
        }
    }

    // The key of the first entry, if there is one.
    #[inline(always)]
    fn first_key(&self) -> Option<Key>
        ensures { result ≡ key_of_first self.now.changes }
    {
        match first_entry(self.entries) {
            None => None,
            Some((key, _left, _after)) => Some(key),
        }
    }

    // The object of the next line, which is given without being held: nothing is laid over it.
    #[inline(always)]
    fn next_line<S: Store>(
        &mut self,
        alloc: Global,
        store: &mut S,
        name: &str,
        source: &mut Source,
        filter: &Filter,
        spelled: &mut Vec<u8>,
    ) -> Result<Change, MergeFault>
        requires none { self.old.changes ≡ [] }
        requires empty { self.old.held ≡ None }
        requires some { 0 < self.old.lines }
        ensures exact { (file : List ℕ) → HasFile (S.state store.old) name.now file
            → IfOk result (λ object. GivesBy (λ bytes. objects_ahead filter.now self.old bytes)
            (λ bytes. objects_ahead filter.now self.new bytes)
            (left_of source.old file) (left_of source.new file) (Some object)) }
        ensures spelled { IfOk result (λ object. spelled.new.items ≡ line_text object) }
        ensures refused { IfErr result (Refuses (S.state store.old) name.now source.old
            (objects_ahead filter.now self.old)) }
        ensures fewer { OnOk result (most_ahead self.new < most_ahead self.old) }
        ensures shorter { OnOk result ((file : List ℕ)
            → HasFile (S.state store.old) name.now file
            → most_in self.new (left_of source.new file)
            < most_in self.old (left_of source.old file)) }
        ensures stage { (S.state store.new).stage ≡ (S.state store.old).stage }
        ensures frame { ReadsOften IsDeviceFault (S.state store.old) (S.state store.new) result }
        ensures calls { ReadsTo (S.state store.old) (S.state store.new) name.now source.old
            source.new result }
    {
        match next_object(alloc, store, name, source, filter, self.last, spelled) {
            Ok(object) => {
                self.lines -= 1;
                self.last = Some(object.key());
                Ok(object)
            }
            Err(fault) => Err(fault),
        }
    }

    // Reads the next object of the save if none is held and a line is left.
    fn fill<S: Store>(
        &mut self,
        alloc: Global,
        store: &mut S,
        name: &str,
        source: &mut Source,
        filter: &Filter,
    ) -> Result<(), MergeFault>
        ensures filled { OnOk result (IsFilled self.new) }
        ensures fills { OnOk result (Fills self.old self.new) }
        ensures same { OnOk result ((file : List ℕ) → HasFile (S.state store.old) name.now file
            → KeepsAhead (λ bytes. objects_ahead filter.now self.old bytes)
            (λ bytes. objects_ahead filter.now self.new bytes)
            (left_of source.old file) (left_of source.new file)) }
        ensures refused { IfErr result (Refuses (S.state store.old) name.now source.old
            (objects_ahead filter.now self.old)) }
        ensures shorter { OnOk result ((file : List ℕ)
            → HasFile (S.state store.old) name.now file
            → most_in self.new (left_of source.new file)
            ≤ most_in self.old (left_of source.old file)) }
        ensures stage { (S.state store.new).stage ≡ (S.state store.old).stage }
        ensures frame { ReadsOften IsDeviceFault (S.state store.old) (S.state store.new) result }
        ensures calls { ReadsTo (S.state store.old) (S.state store.new) name.now source.old
            source.new result }
    {
        if self.held.is_some() || self.lines == 0 {
            return Ok(());
        }
        let last = self.last;
        match next_object(alloc, store, name, source, filter, last, &mut self.line) {
            Ok(object) => {
                self.lines -= 1;
                self.last = Some(object.key());
                self.held = Some(object);
                Ok(())
            }
            Err(fault) => Err(fault),
        }
    }

    // What is next, if no line has to be read for that: the first entry goes before an object that
    // is held with a greater key, and in the place of one with its own.
    fn turn(&mut self, alloc: Global, spelled: &mut Vec<u8>) -> Result<Turn, WantOfMemory>
        requires { IsFilled self.old }
        ensures turned { IfOk result (λ turn. (f : FilterValue) (bytes : List ℕ)
            → Turns (objects_ahead f self.old bytes) (objects_ahead f self.new bytes) bytes turn) }
        ensures spelled { IfOk result (TurnsText spelled.new.items) }
        ensures fewer { IfOk result (Shrinks self.old self.new) }
    {
        let Some((key, left, after)) = first_entry(self.entries) else {
            return Ok(self.give_held(spelled));
        };
        match self.rank(key) {
            Ordering::Greater => Ok(self.give_held(spelled)),
            Ordering::Equal => {
                self.drop_held();
                match self.take_entry(alloc, left, after, spelled) {
                    Ok(turn) => Ok(turn),
                    Err(WantOfMemory) => Err(WantOfMemory),
                }
            }
            Ordering::Less => match self.take_entry(alloc, left, after, spelled) {
                Ok(turn) => Ok(turn),
                Err(WantOfMemory) => Err(WantOfMemory),
            },
        }
    }

    // Gives what the first entry leaves, if anything; the entries after it are next.
    fn take_entry(
        &mut self,
        alloc: Global,
        left: &Option<Change>,
        after: &'a [(Key, Option<Change>)],
        spelled: &mut Vec<u8>,
    ) -> Result<Turn, WantOfMemory>
        ensures given { IfOk result (GivesLeft left.now) }
        ensures spelled { IfOk result (TurnsText spelled.new.items) }
        ensures after { self.new ≡ record {
          changes = after.now;
          lines = self.old.lines;
          last = self.old.last;
          held = self.old.held;
        } }
    {
        self.entries = after;
        match left_turn(alloc, left, spelled) {
            Ok(turn) => Ok(turn),
            Err(WantOfMemory) => Err(WantOfMemory),
        }
    }

    // Drops the object that is held.
    fn drop_held(&mut self)
        ensures { self.new ≡ without_held self.old }
    {
        self.held = None;
    }

    // How a key is to that of the object that is held: below it if none is.
    fn rank(&self, key: Key) -> Ordering
        ensures { result ≡ rank_of key self.now.held }
    {
        match &self.held {
            None => Ordering::Less,
            Some(object) => key.cmp(&object.key()),
        }
    }

    // Gives the object that is held, if one is.
    fn give_held(&mut self, spelled: &mut Vec<u8>) -> Turn
        ensures given { GivesHeld self.old self.new result }
        ensures spelled { TurnsText spelled.new.items result }
    {
        match self.held.take() {
            None => Turn::End,
            Some(object) => {
                swap(spelled, &mut self.line);
                Turn::Object(object)
            }
        }
    }
}

// What an entry leaves, if anything, with its line in `spelled`.
fn left_turn(
    alloc: Global,
    left: &Option<Change>,
    spelled: &mut Vec<u8>,
) -> Result<Turn, WantOfMemory>
    ensures given { IfOk result (GivesLeft left.now) }
    ensures spelled { IfOk result (TurnsText spelled.new.items) }
{
    match left {
        None => Ok(Turn::Gone),
        Some(object) => {
            spelled.clear();
            write_line(object, spelled)?;
            Ok(Turn::Object(object.copy(alloc)?))
        }
    }
}
