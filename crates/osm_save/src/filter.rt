//! The lines of a filter in a save text, each read and written by a function of its own. Version 3
//! has them:
//!
//! ```text
//! kinds nw
//! keys 2
//! highway
//! is%20%in
//! ```
//!
//! A line of a key is empty if the key is.

ghost use Rattle.std.specs.Prelude.{◌≡◌, ◌<◌, ◌∷◌, [], ◌++◌, ◌&&◌, None, codes, IfOk, OnOk};
ghost use Rattle.std.specs.Str.{bytes_eq};
ghost use Rattle.osm_model.specs.Filter.{IsFilter};
ghost use Rattle.osm_model.specs.Text.{bytes_cmp};
ghost use Rattle.osm_opl.specs.Reading.{text_at};
ghost use Rattle.osm_opl.specs.Written.{escaped_text};
ghost use Rattle.osm_save.specs.Filters.{filter_lines, kinds_text};
ghost use Rattle.osm_save.specs.Lines.{ended, list_lines};
ghost use Rattle.osm_save.specs.Answers.{Finds, Gives, WantsOnlyIf};
ghost use Rattle.osm_save.specs.Reading.{ListsKeys, SaysKeys, TellsKeys, filter_at};
ghost use Rattle.osm_save.specs.Reading.{filter_lines_at, filter_with, is_above, items_at};
ghost use Rattle.osm_save.specs.Reading.{key_at, keys_at, kinds_at, last_of, letters_at};

use crate::lines::{next_line, numbered_line, write_numbered};
use crate::order::is_text_above;
use crate::stop::Stop;
use crate::version::Version;
use osm_model::filter::Filter;
use osm_model::limits::MAX_KEYS;
use osm_model::memory::WantOfMemory;
use osm_model::text::Text;
use osm_opl::lines::LineError;
use osm_opl::texts::{read_text, write_text};
use std::alloc::Global;

// The kinds that a filter keeps.
#[derive(Clone, Copy, Debug, PartialEq, Eq)]
struct Kinds {
    nodes: bool,
    ways: bool,
    relations: bool,
}

/// Appends the lines of a filter.
pub(crate) fn write_filter(filter: &Filter, out: &mut Vec<u8>) -> Result<(), WantOfMemory>
    ensures { OnOk result
        (out.new.items ≡ out.old.items ++ ended (filter_lines filter.now)) }
{
    let kinds = Kinds {
        nodes: filter.nodes(),
        ways: filter.ways(),
        relations: filter.relations(),
    };
    write_kinds(kinds, out)?;
    write_keys(filter.keys(), out)
}

/// Reads the filter of a text of that version, and gives the bytes after its lines. A version
/// without such lines keeps everything. Memory is taken only for keys.
pub(crate) fn read_filter(
    alloc: Global,
    version: Version,
    rest: &[u8],
) -> Result<(Filter, &[u8]), Stop>
    ensures value { Gives (λ r. (r.0, r.1.now)) result (filter_at version rest.now) }
    ensures wants { WantsOnlyIf (TellsKeys version rest.now) result }
{
    match version {
        Version::One | Version::Two => Ok((Filter::all(alloc), rest)),
        Version::Three => read_filter_lines(alloc, rest),
    }
}

#[tactic(auto, unfolding(crate::specs::Reading::filter_lines_at))]
fn read_filter_lines(alloc: Global, rest: &[u8]) -> Result<(Filter, &[u8]), Stop>
    ensures value { Gives (λ r. (r.0, r.1.now)) result (filter_lines_at rest.now) }
    ensures wants { WantsOnlyIf (ListsKeys rest.now) result }
{
    let (kinds, rest) = kinds_line(rest)?;
    let (keys, rest) = read_keys(alloc, rest)?;
    Ok((filter_of(kinds, keys), rest))
}

// The filter of kinds and keys that are known to make one.
fn filter_of(kinds: Kinds, keys: Vec<Text>) -> Filter
    requires { IsFilter (filter_with kinds keys.items) }
    ensures { result ≡ filter_with kinds keys.items }
{
    match Filter::new(kinds.nodes, kinds.ways, kinds.relations, keys) {
        Ok(filter) => filter,
        Err(_) => unreachable!(),
    }
}

fn write_kinds(kinds: Kinds, out: &mut Vec<u8>) -> Result<(), WantOfMemory>
    ensures { OnOk result (out.new.items ≡ out.old.items
        ++ ended ((codes "kinds " ++ kinds_text kinds.nodes kinds.ways kinds.relations) ∷ [])) }
{
    out.extend_from_slice(b"kinds ")?;
    out.extend_from_slice(letters_of(kinds))?;
    out.push(b'\n')?;
    Ok(())
}

// Reads the line with the kinds.
#[tactic(auto, unfolding(crate::specs::Reading::kinds_at))]
fn kinds_line(rest: &[u8]) -> Result<(Kinds, &[u8]), Stop>
    ensures value { Finds (λ r. (r.0, r.1.now)) result (kinds_at rest.now) }
{
    let (line, after) = next_line(rest)?;
    let Some(letters) = line.strip_prefix(b"kinds ") else {
        return Err(Stop::Wrong(rest.len()));
    };
    let Some(kinds) = kinds_with(letters) else {
        return Err(Stop::Wrong(rest.len()));
    };
    Ok((kinds, after))
}

// The letters of kinds, in their order.
fn letters_of(kinds: Kinds) -> &'static [u8]
    ensures { result.now ≡ kinds_text kinds.nodes kinds.ways kinds.relations }
{
    match (kinds.nodes, kinds.ways, kinds.relations) {
        (true, true, true) => b"nwr",
        (true, true, false) => b"nw",
        (true, false, true) => b"nr",
        (true, false, false) => b"n",
        (false, true, true) => b"wr",
        (false, true, false) => b"w",
        (false, false, true) => b"r",
        (false, false, false) => b"",
    }
}

// The kinds with these letters, of which there is one at least.
#[tactic(auto, unfolding(crate::specs::Reading::letters_at))]
fn kinds_with(letters: &[u8]) -> Option<Kinds>
    ensures { result ≡ letters_at letters.now }
{
    let kinds = Kinds {
        nodes: letters.contains(&b'n'),
        ways: letters.contains(&b'w'),
        relations: letters.contains(&b'r'),
    };
    let some = kinds.nodes || kinds.ways || kinds.relations;
    if some && letters_of(kinds) == letters {
        Some(kinds)
    } else {
        None
    }
}

fn write_keys(keys: &[Text], out: &mut Vec<u8>) -> Result<(), WantOfMemory>
    ensures { OnOk result (out.new.items ≡ out.old.items
        ++ ended (list_lines (codes "keys ") escaped_text keys.now)) }
{
    write_numbered(b"keys ", keys.len() as u64, out)?;
    for key in keys {
        write_key(key, out)?;
    }
    Ok(())
}

fn write_key(key: &Text, out: &mut Vec<u8>) -> Result<(), WantOfMemory>
    ensures { OnOk result (out.new.items ≡ out.old.items ++ ended (escaped_text key.now ∷ [])) }
{
    write_text(key, out)?;
    out.push(b'\n')?;
    Ok(())
}

// Reads the list of keys, and gives the bytes after it.
#[tactic(auto, unfolding(crate::specs::Reading::keys_at))]
fn read_keys(alloc: Global, rest: &[u8]) -> Result<(Vec<Text>, &[u8]), Stop>
    ensures value { Gives (λ r. (r.0.items, r.1.now)) result (keys_at rest.now) }
    ensures wants { WantsOnlyIf (SaysKeys rest.now) result }
{
    let (many, rest) = numbered_line(b"keys ", MAX_KEYS as u64, rest)?;
    read_key_lines(alloc, many, rest)
}

// Reads `many` lines. Memory is taken only for lines that are there.
fn read_key_lines(alloc: Global, many: u64, rest: &[u8]) -> Result<(Vec<Text>, &[u8]), Stop>
    ensures value { Gives (λ r. (r.0.items, r.1.now)) result
        (items_at (λ key. key) key_at many None rest.now) }
    ensures wants { WantsOnlyIf (0 < many) result }
{
    let mut keys = Vec::new(alloc);
    let mut written = Vec::new(alloc);
    let mut rest = rest;
    for _ in 0..many {
        let (line, after) = match next_line(rest) {
            Ok(cut) => cut,
            Err(stop) => return Err(stop),
        };
        let key = match read_key(alloc, keys.as_slice(), line, &mut written) {
            Ok(Some(key)) => key,
            Ok(None) => return Err(Stop::Wrong(rest.len())),
            Err(WantOfMemory) => return Err(Stop::WantOfMemory),
        };
        add_key(key, &mut keys)?;
        rest = after;
    }
    Ok((keys, rest))
}

fn add_key(key: Text, keys: &mut Vec<Text>) -> Result<(), WantOfMemory>
    ensures { OnOk result (keys.new.items ≡ keys.old.items ++ key ∷ []) }
{
    keys.push(key)?;
    Ok(())
}

// The key that is written as this line, if it comes after those before it. `written` is a buffer
// that all lines share; its contents are overwritten.
#[tactic(auto, unfolding(crate::specs::Reading::key_at))]
fn read_key(
    alloc: Global,
    before: &[Text],
    line: &[u8],
    written: &mut Vec<u8>,
) -> Result<Option<Text>, WantOfMemory>
    ensures { IfOk result (λ r. r ≡ key_at (last_of before.now) line.now) }
{
    let Some(key) = text_of(alloc, line)? else {
        return Ok(None);
    };
    if is_next(&key, before, line, written)? {
        Ok(Some(key))
    } else {
        Ok(None)
    }
}

// The text that the line spells.
fn text_of(alloc: Global, line: &[u8]) -> Result<Option<Text>, WantOfMemory>
    ensures { IfOk result (λ r. r ≡ text_at line.now) }
{
    match read_text(alloc, line) {
        Ok(text) => {
            text.limits();
            Ok(Some(text))
        }
        Err(LineError::Fault(_)) => Ok(None),
        Err(LineError::WantOfMemory) => Err(WantOfMemory),
    }
}

// Whether the key is written as this line, and comes after those before it.
fn is_next(
    key: &Text,
    before: &[Text],
    line: &[u8],
    written: &mut Vec<u8>,
) -> Result<bool, WantOfMemory>
    ensures { IfOk result (λ r. r ≡ (bytes_eq (escaped_text key.now) line.now
        && is_above bytes_cmp (last_of before.now) key.now)) }
{
    written.clear();
    write_text(key, written)?;
    Ok(written.as_slice() == line && is_text_above(before, key))
}
