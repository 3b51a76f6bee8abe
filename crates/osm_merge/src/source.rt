//! The lines of a save text, read in blocks and counted.

ghost use Rattle.std.specs.Prelude.{◌≡◌, ℕ, ◌+◌, ◌<◌, ◌≤◌, List, [], length, take, Some};
ghost use Rattle.std.specs.Prelude.{IfErr, IfOk};
ghost use Rattle.std.specs.Prelude.{OnOk};
ghost use Rattle.osm_store.specs.Files.{Spends};
ghost use Rattle.osm_store.specs.Frames.{IsKnown, MakesAtMost};
ghost use Rattle.osm_blocks.specs.Calls.{Advances, reads_ahead};
ghost use Rattle.osm_blocks.specs.Frames.{ReadsOften};
ghost use Rattle.osm_blocks.specs.Places.{HasFile, IsLine, Opens, left_of, past};
ghost use Rattle.osm_save.specs.Reading.{fixed_at, numbered_at};
ghost use Rattle.osm_merge.specs.Calls.{AsksOnce, ReadsTo};
ghost use Rattle.osm_merge.specs.Faults.{IsBadLine, IsDeviceFault};
ghost use Rattle.osm_merge.specs.Mirrors.{Closes, end_at};
ghost use Rattle.osm_merge.specs.Reading.{Ends, FindsNext, Follows, OpenStops, Passes};

use crate::fault::MergeFault;
use osm_blocks::line_reader::LineReader;
use osm_save::lines::{fixed_line, line_number, numbered_line};
use osm_store::store::Store;
use std::alloc::Global;
use std::marker::Model;

/// The reading of a save text: where it stands, and the number of the next line.
#[derive(Drop)]
pub struct Source {
    reader: LineReader,
    line: u64,
}

impl Model for Source {
    ghost use Rattle.osm_blocks.specs.Places.{Place};

    ghost Value = { Place };

    ghost view = { λ a. a.reader };
}

impl Source {
    /// Reads the first block of a file.
    pub(crate) fn open<S: Store>(
        alloc: Global,
        store: &mut S,
        name: &str,
    ) -> Result<Source, MergeFault>
        ensures opened { IfOk result (λ source. IsKnown (S.state store.old)
            → Opens (Some source) ((S.state store.old).files name.now)) }
        ensures refused { IfErr result (λ fault. IsKnown (S.state store.old)
            → OpenStops ((S.state store.old).files name.now) fault) }
        ensures stage { (S.state store.new).stage ≡ (S.state store.old).stage }
        ensures frame { ReadsOften IsDeviceFault (S.state store.old) (S.state store.new) result }
        ensures spends { OnOk result (Spends 1 (S.state store.old).left (S.state store.new).left) }
        ensures absent { IfErr result (λ fault.
            AsksOnce fault (S.state store.old).left (S.state store.new).left) }
        ensures calls { MakesAtMost IsDeviceFault 1 (S.state store.old) (S.state store.new) result }
    {
        match LineReader::open(alloc, store, name) {
            Ok(Some(reader)) => Ok(Source { reader, line: 1 }),
            Ok(None) => Err(MergeFault::NoSave),
            Err(fault) => Err(MergeFault::from(fault)),
        }
    }

    /// A source that begins with the line at a place of a file; nothing is read yet. Faults count
    /// the lines from there.
    pub fn at_place(alloc: Global, place: u64) -> Source
        ensures unread { result.unread ≡ [] }
        ensures from { result.from ≡ place }
    {
        Source {
            reader: LineReader::at_place(alloc, place),
            line: 1,
        }
    }

    /// The bytes that were read but not passed yet.
    pub(crate) fn unread(&self) -> &[u8]
        ensures { result.now ≡ self.now.unread }
    {
        self.reader.unread()
    }

    /// The first `count` bytes that were read but not passed yet.
    pub(crate) fn line(&self, count: usize) -> &[u8]
        requires { count ≤ length self.now.unread }
        ensures { result.now ≡ take count self.now.unread }
    {
        self.reader.line(count)
    }

    /// Passes a line of `count` bytes, and its LF.
    pub(crate) fn pass(&mut self, count: usize)
        requires { count < length self.old.unread }
        ensures { self.new ≡ past (count + 1) self.old }
    {
        let _unread = self.reader.unread().len();
        self.reader.pass(count + 1);
        self.line = self.line.saturating_add(1);
    }

    /// Passes `count` bytes, and counts their lines.
    pub(crate) fn pass_lines(&mut self, count: usize)
        requires { count ≤ length self.old.unread }
        ensures { self.new ≡ past count self.old }
    {
        let left = self.reader.unread().len() - count;
        self.line = line_number(self.reader.unread(), left);
        self.reader.pass(count);
    }

    /// The fault of the next line.
    pub(crate) fn wrong(&self) -> MergeFault
        ensures { IsBadLine result }
    {
        MergeFault::BadSave { line: self.line }
    }

    /// The fault of the line that starts where `left` of the bytes read are left.
    pub(crate) fn wrong_at(&self, left: usize) -> MergeFault
        ensures { IsBadLine result }
    {
        MergeFault::BadSave {
            line: line_number(self.reader.unread(), left),
        }
    }

    /// Finds the next line, and gives the number of its bytes.
    pub(crate) fn next<S: Store>(
        &mut self,
        alloc: Global,
        store: &mut S,
        name: &str,
    ) -> Result<usize, MergeFault>
        ensures line { IfOk result (λ count. IsLine self.new count) }
        ensures found { (file : List ℕ) → HasFile (S.state store.old) name.now file
            → FindsNext file self.old self.new result }
        ensures stage { (S.state store.new).stage ≡ (S.state store.old).stage }
        ensures frame { ReadsOften IsDeviceFault (S.state store.old) (S.state store.new) result }
        ensures calls { ReadsTo (S.state store.old) (S.state store.new) name.now self.old self.new
            result }
    {
        match self.reader.find_line(alloc, store, name) {
            Ok(Some(count)) => Ok(count),
            Ok(None) => Err(MergeFault::BadSave { line: self.line }),
            Err(fault) => Err(MergeFault::from(fault)),
        }
    }

    /// Passes the next line, which has to be `word` and a number of at most `most`, and gives the
    /// number. Any other line is refused.
    pub fn numbered<S: Store>(
        &mut self,
        alloc: Global,
        store: &mut S,
        name: &str,
        word: &[u8],
        most: u64,
    ) -> Result<u64, MergeFault>
        ensures read { (file : List ℕ) → HasFile (S.state store.old) name.now file
            → length word.now ≤ 100
            → Follows (λ n. n) file self.new result
            (numbered_at word.now most (left_of self.old file)) }
        ensures limit { IfOk result (λ n. n ≤ most) }
        ensures stage { (S.state store.new).stage ≡ (S.state store.old).stage }
        ensures frame { ReadsOften IsDeviceFault (S.state store.old) (S.state store.new) result }
        ensures calls { ReadsTo (S.state store.old) (S.state store.new) name.now self.old self.new
            result }
    {
        let count = match self.next(alloc, store, name) {
            Ok(count) => count,
            Err(fault) => return Err(fault),
        };
        let Ok((number, _rest)) = numbered_line(word, most, self.unread()) else {
            return Err(MergeFault::BadSave { line: self.line });
        };
        self.pass(count);
        Ok(number)
    }

    /// Passes the next line, which has to be this text.
    pub(crate) fn fixed<S: Store>(
        &mut self,
        alloc: Global,
        store: &mut S,
        name: &str,
        text: &[u8],
    ) -> Result<(), MergeFault>
        ensures read { (file : List ℕ) → HasFile (S.state store.old) name.now file
            → length text.now ≤ 100
            → Passes file self.new result (fixed_at text.now (left_of self.old file)) }
        ensures stage { (S.state store.new).stage ≡ (S.state store.old).stage }
        ensures frame { ReadsOften IsDeviceFault (S.state store.old) (S.state store.new) result }
        ensures calls { ReadsTo (S.state store.old) (S.state store.new) name.now self.old self.new
            result }
    {
        let count = match self.next(alloc, store, name) {
            Ok(count) => count,
            Err(fault) => return Err(fault),
        };
        let Ok(_rest) = fixed_line(text, self.unread()) else {
            return Err(MergeFault::BadSave { line: self.line });
        };
        self.pass(count);
        Ok(())
    }

    /// Whether the end of the file is reached.
    pub(crate) fn is_ended<S: Store>(
        &mut self,
        alloc: Global,
        store: &mut S,
        name: &str,
    ) -> Result<bool, MergeFault>
        ensures ended { (file : List ℕ) → HasFile (S.state store.old) name.now file
            → Ends file self.old result }
        ensures stage { (S.state store.new).stage ≡ (S.state store.old).stage }
        ensures frame { ReadsOften IsDeviceFault (S.state store.old) (S.state store.new) result }
        ensures calls { MakesAtMost IsDeviceFault 1 (S.state store.old) (S.state store.new) result }
    {
        match self.reader.is_ended(alloc, store, name) {
            Ok(is_ended) => Ok(is_ended),
            Err(fault) => Err(MergeFault::from(fault)),
        }
    }

    /// Passes the line `end`, after which the file has to end.
    pub fn end<S: Store>(
        &mut self,
        alloc: Global,
        store: &mut S,
        name: &str,
    ) -> Result<(), MergeFault>
        ensures read { (file : List ℕ) → HasFile (S.state store.old) name.now file
            → Closes file result (end_at (left_of self.old file)) }
        ensures stage { (S.state store.new).stage ≡ (S.state store.old).stage }
        ensures frame { ReadsOften IsDeviceFault (S.state store.old) (S.state store.new) result }
        ensures calls { (file : List ℕ) → HasFile (S.state store.old) name.now file
            → Advances IsDeviceFault (reads_ahead self.old file)
            (λ _. 0)
            (S.state store.old) (S.state store.new) result }
    {
        match self.fixed(alloc, store, name, b"end") {
            Ok(()) => {}
            Err(fault) => return Err(fault),
        }
        let is_ended = match self.is_ended(alloc, store, name) {
            Ok(is_ended) => is_ended,
            Err(fault) => return Err(fault),
        };
        if !is_ended {
            return Err(self.wrong());
        }
        Ok(())
    }
}
