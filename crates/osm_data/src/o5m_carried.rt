//! The strings of a table, kept between two blocks of a file.

ghost use Rattle.std.specs.Prelude.{◌≡◌, ◌≤◌, [], ◌∷◌, ◌++◌, length, drop, IfOk, OnOk, IsTrue};
ghost use Rattle.circular_buffer.specs.Buffer.{keep_last};
ghost use Rattle.osm_model.specs.Text.{IsText};
ghost use Rattle.osm_data.specs.Steps.Strings.{AreSizesOf, AreTexts, bytes_of, entry_at};
ghost use Rattle.osm_data.specs.Steps.Strings.{size_in};

use osm_model::memory::WantOfMemory;
use osm_o5c::file_string::FileString;
use osm_o5c::strings::{Entry, StringTable};
use std::alloc::Global;
use std::marker::Model;

/// The sizes of an entry's strings in bytes, and which of the strings are known to be texts, so
/// that they aren't tested again after each block.
#[derive(Clone, Copy)]
pub enum Sizes {
    Pair {
        first: usize,
        second: usize,
        is_first_text: bool,
        is_second_text: bool,
    },
    Single {
        text: usize,
        is_text: bool,
    },
}

/// The strings of a table, oldest first, in bytes of its own. A table borrows its strings from the
/// bytes of the file, which are dropped after each block.
#[derive(Drop)]
pub struct Carried {
    bytes: Vec<u8>,
    sizes: Vec<Sizes>,
}

impl Model for Carried {
    ghost use Rattle.std.specs.Prelude.{List};
    ghost use Rattle.osm_o5c.specs.declared.strings.Entry.{Entry};
    ghost use Rattle.osm_data.specs.Steps.Strings.{AreCarried, entries_in};

    ghost Value = { List Entry };

    ghost view = { λ a. entries_in a.sizes.items a.bytes.items };

    ghost invariant = { λ a. AreCarried a.sizes.items a.bytes.items };
}

impl Carried {
    /// No strings; takes no memory.
    pub fn new(alloc: Global) -> Carried
        ensures { result ≡ [] }
    {
        Carried {
            bytes: Vec::new(alloc),
            sizes: Vec::new(alloc),
        }
    }

    /// The strings of a table.
    // Not inlined, nor is `table`, so that their loops have the registers to themselves.
    #[inline(never)]
    pub fn of(alloc: Global, table: &StringTable) -> Result<Carried, WantOfMemory>
        ensures { IfOk result (λ c. c ≡ table.now) }
    {
        let count = table.len();
        let mut bytes = Vec::new(alloc);
        let Ok(mut sizes) = Vec::with_capacity(alloc, count) else {
            return Err(WantOfMemory);
        };
        for index in 0..count {
            let entry = table.get((count - index) as u64).unwrap();
            if append(&mut bytes, entry).is_err() || sizes.push(sizes_of(entry)).is_err() {
                return Err(WantOfMemory);
            }
        }
        Ok(Carried { bytes, sizes })
    }

    /// A table of the strings, which borrows them from this value.
    #[inline(never)]
    pub fn table(&self, alloc: Global) -> Result<StringTable<'_>, WantOfMemory>
        ensures { IfOk result (λ t. t ≡ self.now) }
    {
        let mut table = StringTable::new();
        let mut rest = self.bytes.as_slice();
        for sizes in self.sizes.as_slice() {
            let Ok(after) = enter_next(&mut table, alloc, *sizes, rest) else {
                return Err(WantOfMemory);
            };
            rest = after;
        }
        Ok(table)
    }
}

// Appends the bytes of an entry.
fn append(bytes: &mut Vec<u8>, entry: &Entry) -> Result<(), WantOfMemory>
    ensures { OnOk result (bytes.new.items ≡ bytes.old.items ++ bytes_of entry.now) }
{
    match entry {
        Entry::Pair { first, second } => {
            bytes.extend_from_slice(first.as_slice())?;
            bytes.extend_from_slice(second.as_slice())?;
        }
        Entry::Single { text } => {
            bytes.extend_from_slice(text.as_slice())?;
        }
    }
    Ok(())
}

// The sizes of an entry.
fn sizes_of(entry: &Entry) -> Sizes
    ensures sizes { AreSizesOf result entry.now }
    ensures texts { AreTexts result entry.now }
{
    match entry {
        Entry::Pair { first, second } => Sizes::Pair {
            first: first.as_slice().len(),
            second: second.as_slice().len(),
            is_first_text: first.is_known_text(),
            is_second_text: second.is_known_text(),
        },
        Entry::Single { text } => Sizes::Single {
            text: text.as_slice().len(),
            is_text: text.is_known_text(),
        },
    }
}

// Enters the entry of those sizes at the start of the bytes, and returns the bytes after it.
fn enter_next<'a>(
    table: &mut StringTable<'a>,
    alloc: Global,
    sizes: Sizes,
    bytes: &'a [u8],
) -> Result<&'a [u8], WantOfMemory>
    requires within { size_in sizes ≤ length bytes.now }
    requires texts { AreTexts sizes (entry_at sizes bytes.now) }
    ensures table { OnOk result
        (table.new ≡ keep_last 15000 (table.old ++ entry_at sizes bytes.now ∷ [])) }
    ensures rest { IfOk result (λ rest. rest.now ≡ drop (size_in sizes) bytes.now) }
{
    match sizes {
        Sizes::Pair {
            first,
            second,
            is_first_text,
            is_second_text,
        } => {
            let (first, rest) = bytes.split_at(first);
            let (second, rest) = rest.split_at(second);
            let first = string_of(first, is_first_text);
            let second = string_of(second, is_second_text);
            table.push(alloc, Entry::Pair { first, second })?;
            Ok(rest)
        }
        Sizes::Single { text, is_text } => {
            let (text, rest) = bytes.split_at(text);
            let text = string_of(text, is_text);
            table.push(alloc, Entry::Single { text })?;
            Ok(rest)
        }
    }
}

// The string of those bytes, which isn't tested if it is known to be a text.
fn string_of(bytes: &[u8], is_text: bool) -> FileString<'_>
    requires { IsTrue is_text → IsText bytes.now }
    ensures { result ≡ bytes.now }
{
    if is_text {
        FileString::of_text(bytes)
    } else {
        FileString::new(bytes)
    }
}
