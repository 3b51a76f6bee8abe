//! The text of a data file, made object by object.

ghost use Rattle.std.specs.Prelude.{◌≡◌, ℕ, List, [], ◌∷◌, ◌++◌, IfOk, IfSome, IsTrue, OnOk};
ghost use Rattle.osm_model.specs.Change.{ChangeValue};
ghost use Rattle.osm_merge.specs.Taking.{IsBelow, Takes};
ghost use Rattle.osm_o5c.specs.Written.{o5m_text};
ghost use Rattle.osm_opl.specs.Flat.{IsFlat};
ghost use Rattle.osm_opl.specs.Written.{line_text};
ghost use Rattle.osm_exporting.specs.Steps.Copying.{o5m_ahead};
ghost use Rattle.osm_exporting.specs.Steps.Flat.{KeepsAll};

use crate::flat_writer::write_flat;
use osm_merge::objects::LineTaker;
use osm_model::change::Change;
use osm_model::filter::Filter;
use osm_model::kind::Key;
use osm_model::memory::WantOfMemory;
use osm_o5c::datasets::END;
use osm_o5c::writer::Writer;
use osm_opl::flat::flat_line;
use osm_opl::flat_parts::FlatLine;
use osm_opl::last_time::LastTime;
use osm_opl::written::read_written;
use osm_save::objects::checked_key;
use osm_save::order::is_key_above;
use std::alloc::Global;

// What a file in the form o5m begins with: reset, header, length 4, `o5m2`.
const O5M_BEGINNING: [u8; 7] = [0xff, 0xe0, 4, 0x6f, 0x35, 0x6d, 0x32];

// So many objects of the usual size fill a block of 64 KiB.
const OBJECTS_IN_A_BLOCK: usize = 2_048;

/// Makes the text of a data file; the caller takes the bytes that were made from time to time. As a
/// taker of lines, a writer has `ahead` what the file has from here on if those objects come, which
/// begins with the bytes that were made and not dropped yet.
pub(crate) trait DataWriter: LineTaker {
    /// The bytes that were made and not dropped yet.
    ghost made: { Self → List ℕ };

    /// The bytes that were made and not dropped yet.
    fn bytes(&self) -> &[u8]
        ensures { result.now ≡ made self.now };

    /// Drops the bytes that were made.
    fn clear(&mut self)
        ensures { (objects : List ChangeValue)
            → Self.ahead self.old objects ≡ made self.old ++ Self.ahead self.new objects };

    /// Makes the text of an object; `line` is its line in OPL.
    fn write(&mut self, alloc: Global, object: &Change, line: &[u8]) -> Result<(), WantOfMemory>
        requires { line.now ≡ line_text object.now }
        ensures { OnOk result ((objects : List ChangeValue)
            → Self.ahead self.old (object.now ∷ objects) ≡ Self.ahead self.new objects) };

    /// Makes the end of the file.
    fn end(&mut self) -> Result<(), WantOfMemory>
        ensures { OnOk result (Self.ahead self.old [] ≡ made self.new) };
}

/// A data file in the form OPL.
#[derive(Drop)]
pub(crate) struct OplWriter {
    out: Vec<u8>,
    // A buffer for the lines whose objects have to be built.
    written: Vec<u8>,
}

impl OplWriter {
    /// An empty file; takes no memory.
    pub fn new(alloc: Global) -> OplWriter
        ensures { result.out.items ≡ [] }
    {
        OplWriter {
            out: Vec::new(alloc),
            written: Vec::new(alloc),
        }
    }
}

impl LineTaker for OplWriter {
    ghost use Rattle.std.specs.Prelude.{◌++◌};
    ghost use Rattle.osm_opl.specs.Written.{opl_text};

    ghost ahead = { λ writer objects. writer.out.items ++ opl_text objects };

    // The line is written as it is; for nearly all lines no object is built.
    fn take(
        &mut self,
        alloc: Global,
        filter: &Filter,
        last: Option<Key>,
        bound: Option<Key>,
        line: &[u8],
    ) -> Result<Option<Key>, WantOfMemory> {
        let Some(key) = checked_key(alloc, filter, last, line, &mut self.written)? else {
            return Ok(None);
        };
        if !is_below(key, bound) {
            return Ok(None);
        }
        put_line(line, &mut self.out)?;
        Ok(Some(key))
    }
}

impl DataWriter for OplWriter {
    ghost made = { λ writer. writer.out.items };

    fn bytes(&self) -> &[u8] {
        self.out.as_slice()
    }

    fn clear(&mut self) {
        self.out.clear();
    }

    fn write(&mut self, _alloc: Global, _object: &Change, line: &[u8]) -> Result<(), WantOfMemory> {
        put_line(line, &mut self.out)?;
        Ok(())
    }

    fn end(&mut self) -> Result<(), WantOfMemory> {
        Ok(())
    }
}

// Appends a line and its LF.
fn put_line(line: &[u8], out: &mut Vec<u8>) -> Result<(), WantOfMemory>
    ensures { OnOk result (out.new.items ≡ out.old.items ++ line.now ++ 10 ∷ []) }
{
    out.extend_from_slice(line)?;
    out.push(b'\n')?;
    Ok(())
}

// Whether a key is below a bound, if there is one.
fn is_below(key: Key, bound: Option<Key>) -> bool
    ensures { IsTrue result → IsBelow bound key }
{
    match bound {
        None => true,
        Some(bound) => key.cmp(&bound).is_lt(),
    }
}

/// A data file in the form o5m.
#[derive(Drop)]
pub(crate) struct O5mWriter {
    writer: Writer,
    last_time: LastTime,
}

impl O5mWriter {
    /// A file with its beginning.
    pub fn new(alloc: Global) -> Result<O5mWriter, WantOfMemory>
        ensures { IfOk result (λ writer. (objects : List ChangeValue)
            → o5m_ahead writer.writer objects ≡ o5m_text objects) }
    {
        let writer = Writer::new(alloc, &O5M_BEGINNING, OBJECTS_IN_A_BLOCK)?;
        Ok(O5mWriter {
            writer,
            last_time: LastTime::new(),
        })
    }

    // Makes the text of the object of which the line says this, if its key comes after the last one
    // and before `bound`.
    #[inline(always)]
    fn take_flat(
        &mut self,
        alloc: Global,
        filter: &Filter,
        last: Option<Key>,
        bound: Option<Key>,
        line: &[u8],
        flat: &FlatLine<'_>,
    ) -> Result<Option<Key>, WantOfMemory>
        requires flat { IsFlat line.now flat.now }
        requires kept { KeepsAll filter.now flat.now.key.kind }
        ensures { IfOk result (Takes filter.now last bound line.now (o5m_ahead self.old.writer)
            (o5m_ahead self.new.writer)) }
    {
        if !is_key_above(last, flat.key) {
            return Ok(None);
        }
        if !is_below(flat.key, bound) {
            return Ok(None);
        }
        self.writer.forget_old(alloc)?;
        write_flat(&mut self.writer, flat)?;
        Ok(Some(flat.key))
    }

    // Makes the text of the object that is written as this line, if it is one and the filter keeps
    // it, and its key comes after the last one and before `bound`.
    fn take_built(
        &mut self,
        alloc: Global,
        filter: &Filter,
        last: Option<Key>,
        bound: Option<Key>,
        line: &[u8],
    ) -> Result<Option<Key>, WantOfMemory>
        ensures { IfOk result (Takes filter.now last bound line.now (o5m_ahead self.old.writer)
            (o5m_ahead self.new.writer)) }
    {
        match read_written(alloc, line)? {
            Some(object) => self.take_object(alloc, filter, last, bound, line, &object),
            None => Ok(None),
        }
    }

    // Makes the text of the object that is written as this line, if the filter keeps it and its
    // key comes after the last one and before `bound`.
    #[inline(always)]
    fn take_object(
        &mut self,
        alloc: Global,
        filter: &Filter,
        last: Option<Key>,
        bound: Option<Key>,
        line: &[u8],
        object: &Change,
    ) -> Result<Option<Key>, WantOfMemory>
        requires { line.now ≡ line_text object.now }
        ensures { IfOk result (Takes filter.now last bound line.now (o5m_ahead self.old.writer)
            (o5m_ahead self.new.writer)) }
    {
        object.limits();
        let key = object.key();
        if !filter.keeps(object) {
            return Ok(None);
        }
        if !is_key_above(last, key) {
            return Ok(None);
        }
        if !is_below(key, bound) {
            return Ok(None);
        }
        self.put(alloc, object)?;
        Ok(Some(key))
    }

    // Makes the text of an object. Without the strings that can't be named any more, what it holds
    // doesn't grow with the file.
    fn put(&mut self, alloc: Global, object: &Change) -> Result<(), WantOfMemory>
        ensures { OnOk result ((objects : List ChangeValue)
            → o5m_ahead self.old.writer (object.now ∷ objects)
            ≡ o5m_ahead self.new.writer objects) }
    {
        self.writer.forget_old(alloc)?;
        self.writer.write_change(object)?;
        Ok(())
    }
}

impl LineTaker for O5mWriter {
    ghost use Rattle.osm_exporting.specs.Steps.Copying.{o5m_ahead};

    ghost ahead = { λ writer objects. o5m_ahead writer.writer objects };

    // Most objects are written from what their lines say of them, and the others are built.
    fn take(
        &mut self,
        alloc: Global,
        filter: &Filter,
        last: Option<Key>,
        bound: Option<Key>,
        line: &[u8],
    ) -> Result<Option<Key>, WantOfMemory> {
        match flat_if_kept(filter, line, &mut self.last_time) {
            Some(flat) => self.take_flat(alloc, filter, last, bound, line, &flat),
            None => self.take_built(alloc, filter, last, bound, line),
        }
    }
}

// What the line says of its object, if the filter keeps the object whatever its tags are.
#[inline(always)]
fn flat_if_kept<'a>(
    filter: &Filter,
    line: &'a [u8],
    last_time: &mut LastTime,
) -> Option<FlatLine<'a>>
    ensures flat { IfSome result (λ flat. IsFlat line.now flat) }
    ensures kept { IfSome result (λ flat. KeepsAll filter.now flat.key.kind) }
{
    if !filter.keys().is_empty() {
        return None;
    }
    let flat = flat_line(line, last_time)?;
    if !filter.chooses(flat.key.kind) {
        return None;
    }
    Some(flat)
}

impl DataWriter for O5mWriter {
    ghost made = { λ writer. writer.writer.out.items };

    fn bytes(&self) -> &[u8] {
        self.writer.out.as_slice()
    }

    fn clear(&mut self) {
        self.writer.out.clear();
    }

    fn write(&mut self, alloc: Global, object: &Change, _line: &[u8]) -> Result<(), WantOfMemory> {
        self.put(alloc, object)
    }

    fn end(&mut self) -> Result<(), WantOfMemory> {
        self.writer.out.push(END)?;
        Ok(())
    }
}
