//! What a writer keeps between datasets.

ghost use Rattle.std.specs.Prelude.{◌≡◌, ◌<◌, ◌≤◌, ◌*◌, List, [], Option, IfOk, OnErr, OnOk};
ghost use Rattle.std.specs.Prelude.{length, vec_capacity};
ghost use Rattle.osm_model.specs.Change.{ChangeValue};
ghost use Rattle.osm_model.specs.Limits.{max_file};
ghost use Rattle.osm_o5c.specs.Written.{new_state, objects_text};

use crate::counters::Counters;
use crate::string_index::StringIndex;
use osm_model::kind::Kind;
use osm_model::limits::{MAX_CHANGES, MAX_FILE};
use osm_model::memory::WantOfMemory;
use std::alloc::Global;

/// The counters and the entered strings since the last reset.
#[derive(Drop)]
pub struct State {
    pub counters: Counters,
    pub strings: StringIndex,
}

/// The file so far, the state since the last reset, and the kind of the last object.
#[derive(Drop)]
pub struct Writer {
    pub out: Vec<u8>,
    pub buffers: Buffers,
    pub state: State,
    pub kind: Option<Kind>,
}

/// The content of an object and its reference part. Their lengths go before them in the file, so
/// they are written here first.
#[derive(Drop)]
pub struct Buffers {
    pub content: Vec<u8>,
    pub part: Vec<u8>,
}

// With more strings than this, those that can't be named any more are forgotten: often enough that
// they take little memory, and seldom enough that entering the others again takes little time.
const MOST_STRINGS: usize = 65_536;

impl State {
    /// The state after a reset, with room for `room` strings.
    pub fn new(alloc: Global, room: usize) -> Result<State, WantOfMemory>
        requires { room ≤ 200000 }
        ensures { IfOk result (λ s. s ≡ new_state) }
    {
        Ok(State {
            counters: Counters::new(),
            strings: StringIndex::new(alloc, room)?,
        })
    }

    /// Sets all counters to 0 and forgets all strings.
    pub fn reset(&mut self)
        ensures { self.new ≡ new_state }
    {
        self.counters = Counters::new();
        self.strings.clear();
    }
}

// An empty file with room for `changes` changes of the usual size, and for no more than a file has.
fn room_for_file(alloc: Global, changes: usize) -> Result<Vec<u8>, WantOfMemory>
    ensures empty { IfOk result (λ v. v.items ≡ []) }
    ensures room { IfOk result (λ v. vec_capacity v ≤ 32 * changes) }
    ensures most { IfOk result (λ v. vec_capacity v ≤ max_file) }
{
    Ok(Vec::with_capacity(alloc, changes.saturating_mul(32).min(MAX_FILE))?)
}

impl Writer {
    /// A file with only its beginning, and room for `changes` changes of the usual size.
    pub fn new(alloc: Global, start: &[u8], changes: usize) -> Result<Writer, WantOfMemory>
        ensures { IfOk result (λ w. (w.out.items ≡ start.now) × (w.state ≡ new_state)
            × (w.kind ≡ Option.None)) }
    {
        let mut out = room_for_file(alloc, changes)?;
        out.extend_from_slice(start)?;
        Ok(Writer {
            out,
            buffers: Buffers::new(alloc),
            state: State::new(alloc, 2 * changes.min(MAX_CHANGES))?,
            kind: None,
        })
    }

    /// Forgets the strings that can't be named any more, if more than 65,536 are kept. The bytes
    /// written from here on stay the same, so a file of any length can be written. After a refusal
    /// nothing has changed.
    // Only the test is inlined.
    #[inline(always)]
    pub fn forget_old(&mut self, alloc: Global) -> Result<(), WantOfMemory>
        ensures out { self.new.out ≡ self.old.out }
        ensures same { (objects : List ChangeValue)
            → objects_text self.new.kind self.new.state objects
            ≡ objects_text self.old.kind self.old.state objects }
        ensures few { OnOk result (length self.new.state.strings ≤ 65536) }
        ensures unchanged { OnErr result (self.new ≡ self.old) }
    {
        if self.state.strings.len() <= MOST_STRINGS {
            return Ok(());
        }
        self.keep_recent(alloc)
    }

    // Forgets the strings that can't be named any more.
    #[inline(never)]
    fn keep_recent(&mut self, alloc: Global) -> Result<(), WantOfMemory>
        requires { 65536 < length self.old.state.strings }
        ensures out { self.new.out ≡ self.old.out }
        ensures same { (objects : List ChangeValue)
            → objects_text self.new.kind self.new.state objects
            ≡ objects_text self.old.kind self.old.state objects }
        ensures few { OnOk result (length self.new.state.strings ≤ 65536) }
        ensures unchanged { OnErr result (self.new ≡ self.old) }
    {
        self.state.strings = self.state.strings.of_recent(alloc, MOST_STRINGS)?;
        Ok(())
    }
}

impl Buffers {
    /// Two empty buffers.
    pub fn new(alloc: Global) -> Buffers
        ensures content { result.content.items ≡ [] }
        ensures part { result.part.items ≡ [] }
    {
        Buffers {
            content: Vec::new(alloc),
            part: Vec::new(alloc),
        }
    }
}
