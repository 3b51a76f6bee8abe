//! Strings, in line or by reference, and the table of those that references name (OSM wiki, O5m).

ghost use Rattle.std.specs.Prelude.{◌≡◌, ◌≤◌, [], ◌∷◌, ◌++◌, length, take, drop, OnOk};
ghost use Rattle.std.specs.Prelude.{IfOk};
ghost use Rattle.std.specs.Prelude.{option_copied};
ghost use Rattle.circular_buffer.specs.Buffer.{keep_last};
ghost use Rattle.osm_reading.specs.Answers.{Gives};
ghost use Rattle.osm_o5c.specs.StringReading.{entered, latest, pair_at};
ghost use Rattle.osm_o5c.specs.StringReading.{single_at};
ghost use Rattle.osm_o5c.specs.Written.{pair_in_line, single_in_line, reference_of, by_reference};
ghost use Rattle.osm_o5c.specs.Written.{entered_by, pair_text, after_pair, single_text};
ghost use Rattle.osm_o5c.specs.Written.{after_single};

use crate::file_string::{FileString, until_nul};
use crate::hashed_string::HashedString;
use crate::numbers::{unsigned, write_unsigned};
use crate::string_index::StringIndex;
use circular_buffer::HeapCircularBuffer;
use osm_model::form::Why;
use osm_model::memory::WantOfMemory;
use osm_reading::refusal::Refusal;
use std::alloc::Global;
use std::marker::Model;

/// A string that was in line: a pair, or a single one.
#[derive(Drop)]
pub enum Entry<'a> {
    Pair {
        first: FileString<'a>,
        second: FileString<'a>,
    },
    Single {
        text: FileString<'a>,
    },
}

/// The size in bytes of the longest string that is entered; a pair counts with both its strings.
const MAX_SIZE: usize = 250;

/// How many of the latest entries can be named.
pub const MAX_ENTRIES: usize = 15_000;

/// The last 15,000 strings in line since the last reset, not counting those of more than 250 bytes.
/// The table borrows them from the file, and makes its ring when the first one is entered.
#[derive(Drop)]
pub struct StringTable<'a> {
    ring: Option<HeapCircularBuffer<Entry<'a>>>,
}

impl<'a> Model for StringTable<'a> {
    ghost use Rattle.std.specs.Prelude.{List};
    ghost use Rattle.osm_o5c.specs.declared.strings.Entry.{Entry};

    ghost Value = { List Entry };

    ghost use Rattle.osm_o5c.specs.Steps.Ring.{items_of, IsRing};

    ghost view = { λ a. items_of a.ring };

    ghost invariant = { λ a. IsRing a.ring };
}

impl<'a> StringTable<'a> {
    /// The empty table; takes no memory.
    pub fn new() -> StringTable<'a>
        ensures { result ≡ [] }
    {
        StringTable { ring: None }
    }

    /// Forgets all strings but keeps the ring.
    pub fn clear(&mut self)
        ensures { self.new ≡ [] }
    {
        if let Some(ring) = &mut self.ring {
            ring.clear();
        }
    }

    /// How many strings can be named.
    pub fn len(&self) -> usize
        ensures value { result ≡ length self.now }
        ensures most { result ≤ 15000 }
    {
        match &self.ring {
            None => 0,
            Some(ring) => ring.len(),
        }
    }

    /// Enters a string, and forgets the oldest string if there are more than 15,000.
    pub fn push(&mut self, alloc: Global, item: Entry<'a>) -> Result<(), WantOfMemory>
        ensures { OnOk result (self.new ≡ keep_last 15000 (self.old ++ item.entry ∷ [])) }
    {
        match &mut self.ring {
            Some(ring) => {
                ring.push_back(item);
            }
            None => {
                let mut ring = HeapCircularBuffer::with_capacity(alloc, MAX_ENTRIES)?;
                ring.push_back(item);
                self.ring = Some(ring);
            }
        }
        Ok(())
    }

    /// The k-th most recent entry, counted from 1.
    #[tactic(auto, unfolding(crate::specs::StringReading::latest))]
    pub fn get(&self, k: u64) -> Option<&Entry<'a>>
        ensures { option_copied result ≡ latest self.now k }
    {
        if k == 0 {
            return None;
        }
        match &self.ring {
            None => None,
            Some(ring) => ring.nth_back(k as usize - 1),
        }
    }

    // Enters a pair, unless it is too long.
    #[inline(always)]
    #[tactic(auto, unfolding(crate::specs::StringReading::entered))]
    fn enter_pair(
        &mut self,
        alloc: Global,
        first: &FileString<'a>,
        second: &FileString<'a>,
    ) -> Result<(), WantOfMemory>
        ensures { OnOk result (self.new ≡ entered self.old (Entry.Pair first.now second.now)) }
    {
        if first.as_slice().len() + second.as_slice().len() <= MAX_SIZE {
            let first = first.copy();
            let second = second.copy();
            self.push(alloc, Entry::Pair { first, second })?;
        }
        Ok(())
    }

    // Enters a single string, unless it is too long.
    #[tactic(auto, unfolding(crate::specs::StringReading::entered))]
    fn enter_single(&mut self, alloc: Global, text: &FileString<'a>) -> Result<(), WantOfMemory>
        ensures { OnOk result (self.new ≡ entered self.old (Entry.Single text.now)) }
    {
        if text.as_slice().len() <= MAX_SIZE {
            let text = text.copy();
            self.push(alloc, Entry::Single { text })?;
        }
        Ok(())
    }

    // The pair in line of which the first byte, 00, has been passed, and the bytes after it. Its
    // strings are tested here, and not each time that they are named, except for the id of a user.
    // Not inlined, since most pairs are named by reference.
    #[inline(never)]
    #[tactic(auto, unfolding(crate::specs::StringReading::pair_at))]
    fn pair_in_line(
        &mut self,
        alloc: Global,
        bytes: &'a [u8],
        is_user: bool,
    ) -> Result<(FileString<'a>, FileString<'a>, &'a [u8]), Refusal>
        ensures { Gives (λ r. ((r.0, r.1), self.new, r.2.now)) result
            (pair_at self.old (0 ∷ bytes.now)) }
    {
        let (first, rest) = until_nul(bytes)?;
        let (second, rest) = until_nul(rest)?;
        let first = if is_user { first } else { first.tested() };
        let second = second.tested();
        self.enter_pair(alloc, &first, &second)?;
        Ok((first, second, rest))
    }

    // The pair at the start, of a user or a tag, and the bytes after it.
    // Inlined, so that the strings stay in registers.
    #[inline(always)]
    #[tactic(auto, unfolding(crate::specs::StringReading::pair_at))]
    fn any_pair(
        &mut self,
        alloc: Global,
        bytes: &'a [u8],
        is_user: bool,
    ) -> Result<(FileString<'a>, FileString<'a>, &'a [u8]), Refusal>
        ensures { Gives (λ r. ((r.0, r.1), self.new, r.2.now)) result
            (pair_at self.old bytes.now) }
    {
        let Some((first, rest)) = bytes.split_first() else {
            return Err(Refusal::Fault(Why::BadLength));
        };
        if *first == 0 {
            return self.pair_in_line(alloc, rest, is_user);
        }
        let (k, rest) = unsigned(bytes)?;
        match self.get(k) {
            Some(Entry::Pair { first, second }) => Ok((first.copy(), second.copy(), rest)),
            _ => Err(Refusal::Fault(Why::BadReference)),
        }
    }

    /// The pair of strings at the start, and the bytes after it.
    #[inline(always)]
    pub fn pair(
        &mut self,
        alloc: Global,
        bytes: &'a [u8],
    ) -> Result<(FileString<'a>, FileString<'a>, &'a [u8]), Refusal>
        ensures { Gives (λ r. ((r.0, r.1), self.new, r.2.now)) result
            (pair_at self.old bytes.now) }
    {
        self.any_pair(alloc, bytes, false)
    }

    /// The same, if it is a user: the first string is the id, which is never used as a text, so it
    /// isn't tested when it is entered.
    #[inline(always)]
    pub(crate) fn user_pair(
        &mut self,
        alloc: Global,
        bytes: &'a [u8],
    ) -> Result<(FileString<'a>, FileString<'a>, &'a [u8]), Refusal>
        ensures { Gives (λ r. ((r.0, r.1), self.new, r.2.now)) result
            (pair_at self.old bytes.now) }
    {
        self.any_pair(alloc, bytes, true)
    }

    /// The single string at the start, and the bytes after it.
    #[tactic(auto, unfolding(crate::specs::StringReading::single_at))]
    pub fn single(
        &mut self,
        alloc: Global,
        bytes: &'a [u8],
    ) -> Result<(&'a [u8], &'a [u8]), Refusal>
        ensures { Gives (λ r. (r.0.now, self.new, r.1.now)) result (single_at self.old bytes.now) }
    {
        let Some((first, rest)) = bytes.split_first() else {
            return Err(Refusal::Fault(Why::BadLength));
        };
        if *first == 0 {
            let (text, rest) = until_nul(rest)?;
            self.enter_single(alloc, &text)?;
            return Ok((text.as_slice(), rest));
        }
        let (k, rest) = unsigned(bytes)?;
        match self.get(k) {
            Some(Entry::Single { text }) => Ok((text.as_slice(), rest)),
            _ => Err(Refusal::Fault(Why::BadReference)),
        }
    }
}

// Appends a pair in line: `00 first 00 second 00`.
fn write_pair_in_line(out: &mut Vec<u8>, first: &[u8], second: &[u8]) -> Result<(), WantOfMemory>
    ensures { OnOk result (out.new.items ≡ out.old.items ++ pair_in_line first.now second.now) }
{
    out.push(0)?;
    out.extend_from_slice(first)?;
    out.push(0)?;
    out.extend_from_slice(second)?;
    out.push(0)?;
    Ok(())
}

// Appends a single string in line: `00 digit role 00`.
fn write_single_in_line(out: &mut Vec<u8>, digit: u8, role: &[u8]) -> Result<(), WantOfMemory>
    ensures { OnOk result (out.new.items ≡ out.old.items ++ single_in_line (digit ∷ role.now)) }
{
    out.push(0)?;
    out.push(digit)?;
    out.extend_from_slice(role)?;
    out.push(0)?;
    Ok(())
}

// The least number that names the string, if there is one; otherwise enters the string, unless it
// is too long. `size` is its size without the bytes 00 of the in-line form.
fn find_or_enter(
    strings: &mut StringIndex,
    text: &[u8],
    size: usize,
) -> Result<Option<usize>, WantOfMemory>
    ensures number { IfOk result (λ r. r ≡ reference_of strings.old text.now) }
    ensures strings_are { OnOk result (strings.new
        ≡ entered_by (reference_of strings.old text.now) strings.old text.now size) }
{
    let text = HashedString::new(text);
    if size <= MAX_SIZE {
        return strings.find_or_enter(&text);
    }
    Ok(strings.find(&text))
}

/// Replaces the in-line string that begins at `start` with the least number that names it, if there
/// is one; otherwise enters the string, unless it is too long. `size` is its size without the bytes
/// 00 of the in-line form.
pub fn name_or_enter(
    out: &mut Vec<u8>,
    strings: &mut StringIndex,
    start: usize,
    size: usize,
) -> Result<(), WantOfMemory>
    requires { start ≤ length out.old.items }
    ensures text { OnOk result (out.new.items ≡ take start out.old.items
        ++ by_reference (reference_of strings.old (drop start out.old.items))
        (drop start out.old.items)) }
    ensures strings_are { OnOk result (strings.new
        ≡ entered_by (reference_of strings.old (drop start out.old.items)) strings.old
        (drop start out.old.items) size) }
{
    match find_or_enter(strings, &out.as_slice()[start..], size)? {
        Some(number) => {
            out.truncate(start);
            write_unsigned(out, number as u64)
        }
        None => Ok(()),
    }
}

/// Appends a pair: the least number that names it if there is one, otherwise the pair in line.
pub fn write_pair(
    out: &mut Vec<u8>,
    strings: &mut StringIndex,
    first: &[u8],
    second: &[u8],
) -> Result<(), WantOfMemory>
    ensures text { OnOk result
        (out.new.items ≡ out.old.items ++ pair_text strings.old first.now second.now) }
    ensures strings_are { OnOk result (strings.new ≡ after_pair strings.old first.now second.now) }
{
    let start = out.len();
    write_pair_in_line(out, first, second)?;
    name_or_enter(out, strings, start, first.len() + second.len())
}

/// Appends a single string, a digit and a role: the least number that names it if there is one,
/// otherwise the string in line.
pub fn write_single(
    out: &mut Vec<u8>,
    strings: &mut StringIndex,
    digit: u8,
    role: &[u8],
) -> Result<(), WantOfMemory>
    ensures text { OnOk result
        (out.new.items ≡ out.old.items ++ single_text strings.old (digit ∷ role.now)) }
    ensures strings_are { OnOk result
        (strings.new ≡ after_single strings.old (digit ∷ role.now)) }
{
    let start = out.len();
    write_single_in_line(out, digit, role)?;
    name_or_enter(out, strings, start, role.len() + 1)
}
