//! Merging the objects of a save text with net changes.

ghost use Rattle.std.specs.Prelude.{◌≡◌, ℕ, ◌+◌, ◌++◌, ◌≤◌, ◌<◌, ◌∷◌, List, [], MatchOption};
ghost use Rattle.std.specs.Prelude.{length, map, take, None, Some, IfErr, IfOk, IsTrue, OnOk};
ghost use Rattle.osm_model.specs.Change.{ChangeValue};
ghost use Rattle.osm_opl.specs.Written.{line_text};
ghost use Rattle.osm_store.specs.Frames.{MakesAtMost};
ghost use Rattle.osm_blocks.specs.Calls.{puts_of};
ghost use Rattle.osm_merge.specs.Calls.{ReadsTo};
ghost use Rattle.osm_blocks.specs.Frames.{ReadsOften};
ghost use Rattle.osm_blocks.specs.Places.{HasFile, left_of, past};
ghost use Rattle.osm_net.specs.Laid.{laid_over, put_before};
ghost use Rattle.osm_save.specs.Lines.{ended};
ghost use Rattle.osm_save.specs.Reading.{object_at, object_of};
ghost use Rattle.osm_merge.specs.Faults.{IsDeviceFault, IsPlain};
ghost use Rattle.osm_merge.specs.Laying.{Appends, IsSpelled, Lays, LaysRest, Writes};
ghost use Rattle.osm_merge.specs.Laying.{next_at};
ghost use Rattle.osm_merge.specs.Parts.{MergesPart, lines_part};
ghost use Rattle.osm_merge.specs.Reading.{Follows, Refuses};
ghost use Rattle.osm_merge.specs.Taking.{PassesObject, Takes};

use crate::fault::{MergeFault, unwritten};
use crate::lists::Merge;
use crate::source::Source;
use osm_blocks::block_writer::BlockWriter;
use osm_model::change::Change;
use osm_model::filter::Filter;
use osm_model::kind::Key;
use osm_model::memory::WantOfMemory;
use osm_save::objects::{checked_key, read_object, write_object};
use osm_store::store::Store;
use std::alloc::Global;
use std::cmp::Ordering;

/// Passes the next line, which has to be an object that the filter keeps, with a key after `last`,
/// and gives the object. The object's line is then in `spelled`.
// Inlined, here and where it is called, so that the object is moved once less each time.
#[inline(always)]
pub fn next_object<S: Store>(
    alloc: Global,
    store: &mut S,
    name: &str,
    source: &mut Source,
    filter: &Filter,
    last: Option<Key>,
    spelled: &mut Vec<u8>,
) -> Result<Change, MergeFault>
    ensures read { (file : List ℕ) → HasFile (S.state store.old) name.now file
        → Follows (λ c. c) file source.new result
        (next_at (object_at filter.now) last (left_of source.old file)) }
    ensures spelled { IfOk result (λ c. spelled.new.items ≡ line_text c) }
    ensures stage { (S.state store.new).stage ≡ (S.state store.old).stage }
    ensures frame { ReadsOften IsDeviceFault (S.state store.old) (S.state store.new) result }
    ensures calls { ReadsTo (S.state store.old) (S.state store.new) name.now source.old source.new
        result }
{
    let count = match source.next(alloc, store, name) {
        Ok(count) => count,
        Err(fault) => return Err(fault),
    };
    match read_object(alloc, filter, last, source.line(count), spelled) {
        Ok(Some(object)) => {
            source.pass(count);
            Ok(object)
        }
        Ok(None) => Err(source.wrong()),
        Err(WantOfMemory) => Err(MergeFault::WantOfMemory),
    }
}

/// Takes lines of objects as they are, so that not every line has to become an object.
pub trait LineTaker {
    /// What the taker will have made once these objects have come.
    ghost ahead: { Self → List ChangeValue → List ℕ };

    /// Takes a line and gives its key, if the line is an object that the filter keeps, with a key
    /// after `last` and before `bound`. A line that the taker doesn't take leaves the taker as it
    /// was.
    fn take(
        &mut self,
        alloc: Global,
        filter: &Filter,
        last: Option<Key>,
        bound: Option<Key>,
        line: &[u8],
    ) -> Result<Option<Key>, WantOfMemory>
        ensures { IfOk result (Takes filter.now last bound line.now (ahead self.old)
            (ahead self.new)) };
}

/// The keys between which a key has to be: after the last one and before the bound, if there are
/// such.
#[derive(Clone, Copy)]
pub struct Between {
    pub last: Option<Key>,
    pub bound: Option<Key>,
}

/// Passes the next line and gives its key, if the line is an object that the filter keeps, with a
/// key between those, and the taker takes it. Otherwise the line stays next.
// Inlined, like `next_object`.
#[inline(always)]
pub fn pass_object<S: Store, T: LineTaker>(
    alloc: Global,
    store: &mut S,
    name: &str,
    source: &mut Source,
    filter: &Filter,
    between: Between,
    taker: &mut T,
) -> Result<Option<Key>, MergeFault>
    ensures passed { IfOk result (PassesObject
        (λ object. (file : List ℕ) → HasFile (S.state store.old) name.now file
        → next_at (object_at filter.now) between.last (left_of source.old file)
        ≡ Some (object, left_of source.new file))
        ((file : List ℕ) → HasFile (S.state store.old) name.now file
        → left_of source.new file ≡ left_of source.old file)
        between.bound (T.ahead taker.old) (T.ahead taker.new)) }
    ensures refused { IfErr result (Refuses (S.state store.old) name.now source.old
        (next_at (object_at filter.now) between.last)) }
    ensures stage { (S.state store.new).stage ≡ (S.state store.old).stage }
    ensures frame { ReadsOften IsDeviceFault (S.state store.old) (S.state store.new) result }
    ensures calls { ReadsTo (S.state store.old) (S.state store.new) name.now source.old source.new
        result }
{
    let Between { last, bound } = between;
    let count = match source.next(alloc, store, name) {
        Ok(count) => count,
        Err(fault) => return Err(fault),
    };
    match taker.take(alloc, filter, last, bound, source.line(count)) {
        Ok(Some(key)) => {
            source.pass(count);
            Ok(Some(key))
        }
        Ok(None) => Ok(None),
        Err(WantOfMemory) => Err(MergeFault::WantOfMemory),
    }
}

// Finds the next line, which has to be that of an object that the filter keeps, with a key after
// the last one, and gives the count of its bytes and the key. For nearly all lines no object is
// built if the filter has no keys. `written` is a buffer that all lines share.
fn find_object<S: Store>(
    alloc: Global,
    store: &mut S,
    name: &str,
    source: &mut Source,
    filter: &Filter,
    last: Option<Key>,
    written: &mut Vec<u8>,
) -> Result<(usize, Key), MergeFault>
    ensures within { IfOk result (λ r. r.0 < length source.new.unread) }
    ensures read { IfOk result (λ r. (file : List ℕ) → HasFile (S.state store.old) name.now file
        → next_at (object_at filter.now) last (left_of source.old file)
        ≡ Some (object_of (take r.0 source.new.unread), left_of (past (r.0 + 1) source.new) file)) }
    ensures refused { IfErr result (Refuses (S.state store.old) name.now source.old
        (next_at (object_at filter.now) last)) }
    ensures spelled { IfOk result (λ r. IsSpelled r.1 (take r.0 source.new.unread)) }
    ensures stage { (S.state store.new).stage ≡ (S.state store.old).stage }
    ensures frame { ReadsOften IsDeviceFault (S.state store.old) (S.state store.new) result }
    ensures calls { ReadsTo (S.state store.old) (S.state store.new) name.now source.old source.new
        result }
{
    let count = match source.next(alloc, store, name) {
        Ok(count) => count,
        Err(fault) => return Err(fault),
    };
    match checked_key(alloc, filter, last, source.line(count), written) {
        Ok(Some(key)) => Ok((count, key)),
        Ok(None) => Err(source.wrong()),
        Err(WantOfMemory) => Err(MergeFault::WantOfMemory),
    }
}

// Appends the line of what is left of an object, if anything, and gives the number of lines.
fn put_left(left: &Option<Change>, out: &mut Vec<u8>) -> Result<u64, WantOfMemory>
    ensures out { IfOk result (λ many. out.new.items
        ≡ out.old.items ++ ended (map line_text (put_before left.now []))) }
    ensures many { IfOk result (λ many. many ≡ length (put_before left.now [])) }
{
    match left {
        None => Ok(0),
        Some(object) => {
            write_object(object, out)?;
            Ok(1)
        }
    }
}

/// Splits off the first entry: gives its key, what is left of its object, and the entries after it;
/// None if there is none.
pub fn first_entry(
    entries: &[(Key, Option<Change>)],
) -> Option<(Key, &Option<Change>, &[(Key, Option<Change>)])>
    ensures { MatchOption result (entries.now ≡ [])
        (λ r. entries.now ≡ (r.0, r.1.now) ∷ r.2.now) }
{
    let (entry, after) = entries.split_first()?;
    Some((entry.0, &entry.1, after))
}

// Appends a line.
fn put_line(line: &[u8], out: &mut Vec<u8>) -> Result<(), WantOfMemory>
    ensures { OnOk result (out.new.items ≡ out.old.items ++ ended (line.now ∷ [])) }
{
    out.extend_from_slice(line)?;
    out.push(b'\n')?;
    Ok(())
}

// Appends the lines of what the entries leave up to an object's key, and that of the object, which
// is `line`, if no entry has its key. Gives the entries after that, and the number of lines.
fn lay_object<'a>(
    entries: &'a [(Key, Option<Change>)],
    object: Key,
    line: &[u8],
    out: &mut Vec<u8>,
) -> Result<(&'a [(Key, Option<Change>)], u64), WantOfMemory>
    requires { IsSpelled object line.now }
    ensures { IfOk result (λ r. Lays laid_over line_text entries.now (object_of line.now) r.0.now
        r.1 (Appends out.old.items out.new.items)) }
{
    let mut rest = entries;
    let mut many = 0;
    while let Some((key, left, after)) = first_entry(rest) {
        match key.cmp(&object) {
            Ordering::Less => {
                many += put_left(left, out)?;
                rest = after;
            }
            Ordering::Equal => {
                many += put_left(left, out)?;
                return Ok((after, many));
            }
            Ordering::Greater => {
                put_line(line, out)?;
                return Ok((rest, many + 1));
            }
        }
    }
    put_line(line, out)?;
    Ok((rest, many + 1))
}

// Appends the lines of what the entries leave, and gives their number.
fn lay_rest(entries: &[(Key, Option<Change>)], out: &mut Vec<u8>) -> Result<u64, WantOfMemory>
    ensures { IfOk result (λ many. LaysRest laid_over line_text entries.now many
        (Appends out.old.items out.new.items)) }
{
    let mut rest = entries;
    let mut many = 0;
    while let Some((_key, left, after)) = first_entry(rest) {
        many += put_left(left, out)?;
        rest = after;
    }
    Ok(many)
}

// Whether no entry has an object's key or one before it.
fn is_before_all(object: Key, entries: &[(Key, Option<Change>)]) -> bool
    ensures { IsTrue result → (c : ChangeValue) → c.key ≡ object → (cs : List ChangeValue)
        → laid_over entries.now (c ∷ cs) ≡ c ∷ laid_over entries.now cs }
{
    match first_entry(entries) {
        None => true,
        Some((key, _left, _after)) => match key.cmp(&object) {
            Ordering::Less | Ordering::Equal => false,
            Ordering::Greater => true,
        },
    }
}

// Writes what the entries leave up to an object's key, and the object, whose line this is, if no
// entry has its key. Gives the entries after that, and the number of lines. `out` is a buffer that
// all objects share.
fn put_object<'a, S: Store>(
    store: &mut S,
    writer: &mut BlockWriter,
    entries: &'a [(Key, Option<Change>)],
    object: Key,
    line: &[u8],
    out: &mut Vec<u8>,
) -> Result<(&'a [(Key, Option<Change>)], u64), MergeFault>
    requires { IsSpelled object line.now }
    ensures laid { IfOk result (λ r. Lays laid_over line_text entries.now (object_of line.now)
        r.0.now r.1 (Writes (S.state store.old) writer.old (S.state store.new) writer.new)) }
    ensures refused { IfErr result IsPlain }
    ensures frame { ReadsOften IsDeviceFault (S.state store.old) (S.state store.new) result }
    ensures calls { MakesAtMost IsDeviceFault (puts_of writer.old)
        (S.state store.old) (S.state store.new) result }
    ensures keeps { OnOk result (writer.new.is_writing ≡ writer.old.is_writing) }
{
    if is_before_all(object, entries) {
        return match writer.put_line(store, line) {
            Ok(()) => Ok((entries, 1)),
            Err(fault) => Err(unwritten(fault)),
        };
    }
    out.clear();
    let (rest, many) = match lay_object(entries, object, line, out) {
        Ok(laid) => laid,
        Err(WantOfMemory) => return Err(MergeFault::WantOfMemory),
    };
    match writer.put(store, out.as_slice()) {
        Ok(()) => Ok((rest, many)),
        Err(fault) => Err(unwritten(fault)),
    }
}

// Writes what `lay_rest` appends.
fn put_rest<S: Store>(
    store: &mut S,
    writer: &mut BlockWriter,
    entries: &[(Key, Option<Change>)],
    out: &mut Vec<u8>,
) -> Result<u64, MergeFault>
    ensures laid { IfOk result (λ many. LaysRest laid_over line_text entries.now many
        (Writes (S.state store.old) writer.old (S.state store.new) writer.new)) }
    ensures refused { IfErr result IsPlain }
    ensures frame { ReadsOften IsDeviceFault (S.state store.old) (S.state store.new) result }
    ensures calls { MakesAtMost IsDeviceFault (puts_of writer.old)
        (S.state store.old) (S.state store.new) result }
    ensures keeps { OnOk result (writer.new.is_writing ≡ writer.old.is_writing) }
{
    out.clear();
    let many = match lay_rest(entries, out) {
        Ok(many) => many,
        Err(WantOfMemory) => return Err(MergeFault::WantOfMemory),
    };
    match writer.put(store, out.as_slice()) {
        Ok(()) => Ok(many),
        Err(fault) => Err(unwritten(fault)),
    }
}

/// Passes the lines of `many` objects, writes the objects with the entries laid over them, and
/// gives the number of objects written.
pub(crate) fn merge_objects<S: Store>(
    alloc: Global,
    store: &mut S,
    name: &str,
    source: &mut Source,
    writer: &mut BlockWriter,
    many: u64,
    merge: &Merge<'_>,
) -> Result<u64, MergeFault>
    requires { many ≤ 999999999999999999 }
    ensures { MergesPart name.now (lines_part laid_over line_text (λ c. c.key)
        (object_at merge.now.opening.now.filter) merge.now.lists.now.objects.items many) result
        (S.state store.old) source.old writer.old (S.state store.new) source.new writer.new }
{
    let mut written = Vec::new(alloc);
    let mut out = Vec::new(alloc);
    let mut last = None;
    let mut rest = merge.lists.objects.as_slice();
    let mut count: u64 = 0;
    for _ in 0..many {
        let (length, object) = match find_object(
            alloc,
            store,
            name,
            source,
            &merge.opening.filter,
            last,
            &mut written,
        ) {
            Ok(found) => found,
            Err(fault) => return Err(fault),
        };
        let line = source.line(length);
        let (after, put) = match put_object(store, writer, rest, object, line, &mut out) {
            Ok(laid) => laid,
            Err(fault) => return Err(fault),
        };
        source.pass(length);
        last = Some(object);
        rest = after;
        count += put;
    }
    match put_rest(store, writer, rest, &mut out) {
        Ok(put) => Ok(count + put),
        Err(fault) => Err(fault),
    }
}
