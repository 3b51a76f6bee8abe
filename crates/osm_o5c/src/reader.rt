//! What a reader keeps between datasets.

ghost use Rattle.std.specs.Prelude.{◌≡◌};
ghost use Rattle.osm_o5c.specs.Datasets.{new_reader};

use crate::counters::Counters;
use crate::strings::StringTable;

/// The counters and the string table since the last reset.
#[derive(Drop)]
pub struct Reader<'a> {
    pub counters: Counters,
    pub strings: StringTable<'a>,
}

impl<'a> Reader<'a> {
    /// A reader at the beginning of a file; takes no memory.
    pub fn new() -> Reader<'a>
        ensures { result ≡ new_reader }
    {
        Reader {
            counters: Counters::new(),
            strings: StringTable::new(),
        }
    }

    /// Sets all counters to 0 and forgets all strings.
    pub fn reset(&mut self)
        ensures { self.new ≡ new_reader }
    {
        self.counters = Counters::new();
        self.strings.clear();
    }
}
