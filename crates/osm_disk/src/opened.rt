//! A file that stays open while it is read in blocks.

ghost use Rattle.std.specs.Prelude.{◌≡◌, ◌+◌, ◌≤◌, IfOk, IfSome, MatchBool, Some, length, take};
ghost use Rattle.std.specs.Prelude.{string_bytes};

use crate::opening::{Sort, open_file};
use crate::reading::read_first;
use std::alloc::Global;
use std::fs::Files;
use std::io::{self, ErrorKind, Read, Seek, SeekFrom};

/// An open file, with the name by which it was opened. All its blocks are of that one file, even if
/// another file is renamed over it.
#[derive(Drop)]
pub struct Opened<F> {
    name: String,
    file: F,
    // Where its next read begins; None if that isn't known.
    place: Option<u64>,
}

/// Opens a file; None if there is no such file.
pub fn open<R: Files>(
    alloc: Global,
    files: &R,
    name: &str,
    sort: Sort,
) -> io::Result<Option<Opened<R::File>>>
    ensures named { IfOk result
        (λ o. IfSome o (λ opened. string_bytes opened.name ≡ name.now)) }
    ensures placed { IfOk result (λ o. IfSome o (λ opened. opened.place ≡ Some 0)) }
{
    match open_file(files, name, sort)? {
        Some(file) => Ok(Some(Opened {
            name: String::from_str(alloc, name)?,
            file,
            place: Some(0),
        })),
        None => Ok(None),
    }
}

impl<F: Read + Seek + Drop> Opened<F> {
    /// Whether the file was opened by the given name.
    pub fn is_named(&self, name: &str) -> bool
        ensures { MatchBool result
            (string_bytes self.now.name ≡ name.now) (string_bytes self.now.name ≡ name.now → ⊥) }
    {
        self.name.as_str() == name
    }

    /// Reads at most `most` bytes from the place `from` on. There are fewer bytes only at the end
    /// of the file. A file that is read from its beginning on, block after block, may be a pipe.
    pub fn read_at(&mut self, alloc: Global, from: u64, most: u64) -> io::Result<Vec<u8>>
        ensures within { IfOk result (λ bytes. length bytes.items ≤ most) }
        ensures next { self.old.place ≡ Some from → IfOk result (λ bytes.
            IfSome (F.Read.remaining self.old.file) (λ all. bytes.items ≡ take most all)) }
        ensures placed { IfOk result (λ bytes.
            IfSome self.new.place (λ place. place ≡ from + length bytes.items)) }
    {
        if self.place.take() != Some(from) && is_past(self.file.seek(SeekFrom::Start(from)))? {
            return Ok(Vec::new(alloc));
        }
        let bytes = read_first(alloc, &mut self.file, most)?;
        self.place = from.checked_add(bytes.len() as u64);
        Ok(bytes)
    }
}

// Whether a place is past all that the file system lets a file have, so that none is there.
fn is_past(sought: io::Result<u64>) -> io::Result<bool> {
    match sought {
        Ok(_) => Ok(false),
        Err(error) if error.kind() == ErrorKind::InvalidInput => Ok(true),
        Err(error) => Err(error),
    }
}
