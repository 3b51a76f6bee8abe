//! What a reader knows between two blocks of a file.

ghost use Rattle.std.specs.Prelude.{◌≡◌, IfOk, None};
ghost use Rattle.osm_o5c.specs.Datasets.{new_reader};
ghost use Rattle.osm_data.specs.Steps.O5mReading.{reader_in};

use crate::o5m_carried::Carried;
use osm_model::kind::Key;
use osm_model::memory::WantOfMemory;
use osm_o5c::counters::Counters;
use osm_o5c::reader::Reader;
use std::alloc::Global;

/// The counters and the string table since the last reset, and the key of the last object.
#[derive(Drop)]
pub struct Held {
    counters: Counters,
    strings: Carried,
    last: Option<Key>,
}

impl Held {
    /// What a reader knows at the beginning of a file; takes no memory.
    pub fn new(alloc: Global) -> Held
        ensures reader { reader_in result ≡ new_reader }
        ensures last { result.last ≡ None }
    {
        Held {
            counters: Counters::new(),
            strings: Carried::new(alloc),
            last: None,
        }
    }

    /// What the given reader knows, after an object with the key `last`, if there was one.
    pub fn of(alloc: Global, reader: &Reader, last: Option<Key>) -> Result<Held, WantOfMemory>
        ensures reader { IfOk result (λ held. reader_in held ≡ reader.now) }
        ensures last { IfOk result (λ held. held.last ≡ last) }
    {
        Ok(Held {
            counters: reader.counters,
            strings: Carried::of(alloc, &reader.strings)?,
            last,
        })
    }

    /// A reader that goes on from here; it borrows its strings from this value.
    pub fn reader(&self, alloc: Global) -> Result<Reader<'_>, WantOfMemory>
        ensures { IfOk result (λ reader. reader ≡ reader_in self.now) }
    {
        Ok(Reader {
            counters: self.counters,
            strings: self.strings.table(alloc)?,
        })
    }

    /// The key of the last object, if there is one.
    pub fn last(&self) -> Option<Key>
        ensures { result ≡ self.now.last }
    {
        self.last
    }
}
