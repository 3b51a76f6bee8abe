//! Reading a whole file, up to a limit, reading a prefix of a file, and asking whether a file is
//! there.

ghost use Rattle.std.specs.Prelude.{◌≡◌, ℕ, ◌+◌, ◌*◌, ◌≤◌, ◌<◌, length, max, take};
ghost use Rattle.std.specs.Prelude.{IfErr, IfOk, IfSome, OnOk, vec_capacity};
ghost use Rattle.osm_disk.specs.Reading.{IsTooLongOnly, cause};
ghost use Rattle.osm_disk.specs.Steps.Chunks.{AddsChunk};
ghost use Rattle.osm_store.specs.Files.{IsWithin};

use crate::opening::{Sort, open_file};
use osm_store::store::StoreError;
use std::alloc::{AllocError, Global};
use std::fs::{self, Files};
use std::io::{self, ErrorKind, Read};

// The most bytes that are read at once.
const CHUNK: usize = 65_536;

// A quarter of the block in which large files are read.
const QUARTER: usize = 262_144;

/// Why a file couldn't be read whole.
#[derive(Clone, Copy, Debug)]
pub enum ReadError {
    /// The file has more bytes than the limit.
    TooLarge,
    /// The system gave this error.
    Failed(io::Error),
}

/// Reads all bytes of a file, or gives `TooLarge` if there are more than the limit. None if there
/// is no such file.
pub fn read_file<R: Files>(
    alloc: Global,
    files: &R,
    path: &str,
    sort: Sort,
    limit: u64,
) -> Result<Option<Vec<u8>>, ReadError>
    ensures within { IfOk result (IsWithin limit) }
{
    match open_file(files, path, sort) {
        Ok(Some(file)) => Ok(Some(read_limited(alloc, file, limit)?)),
        Ok(None) => Ok(None),
        Err(error) => Err(ReadError::Failed(error)),
    }
}

/// Reads the first bytes of a file, at most `most`; None if there is no such file.
pub fn read_prefix<R: Files>(
    alloc: Global,
    files: &R,
    path: &str,
    sort: Sort,
    most: u64,
) -> io::Result<Option<Vec<u8>>>
    ensures within { IfOk result (IsWithin most) }
{
    match open_file(files, path, sort)? {
        Some(file) => Ok(Some(read_first(alloc, file, most)?)),
        None => Ok(None),
    }
}

/// Reads the first bytes of the reader, at most `most`, and no more. Asks for memory as the bytes
/// come.
pub fn read_first<R: Read + Drop>(alloc: Global, reader: R, most: u64) -> io::Result<Vec<u8>>
    ensures read { IfOk result
        (λ bytes. IfSome (R.remaining reader) (λ all. bytes.items ≡ take most all)) }
    ensures within { IfOk result (λ bytes. length bytes.items ≤ most) }
{
    let mut reader = reader;
    let mut bytes = Vec::new(alloc);
    let mut chunk = [0u8; CHUNK];
    for _ in 0..=most {
        let left = most - bytes.len() as u64;
        if !add_chunk(&mut reader, left, &mut chunk, &mut bytes)? {
            return Ok(bytes);
        }
    }
    Err(io::Error::from(ErrorKind::Interrupted))
}

// Adds what one read gives, at most so many bytes. False if no more come. The chunk is room for one
// read; the caller keeps it, so that it isn't filled with zeros again for each.
fn add_chunk<R: Read>(
    reader: &mut R,
    left: u64,
    chunk: &mut [u8; CHUNK],
    bytes: &mut Vec<u8>,
) -> io::Result<bool>
    ensures adds { IfOk result (λ is_more. AddsChunk left is_more
        (R.remaining reader.old) (R.remaining reader.new) bytes.old.items bytes.new.items) }
{
    let room = room_in_chunk(left);
    if room == 0 {
        return Ok(false);
    }
    match reader.read(&mut chunk[..room]) {
        Ok(count) => {
            make_room(bytes, count)?;
            bytes.extend_from_slice(&chunk[..count])?;
            Ok(count > 0)
        }
        Err(error) => match error.kind() {
            ErrorKind::Interrupted => Ok(true),
            _ => Err(error),
        },
    }
}

// Makes room for so many bytes more. Up to a block of 1 MiB it asks for four times what was read,
// so that less is copied while the room grows; above that it doubles.
fn make_room(bytes: &mut Vec<u8>, count: usize) -> Result<(), AllocError>
    ensures same { bytes.new.items ≡ bytes.old.items }
    ensures enough { OnOk result (length bytes.old.items + count ≤ vec_capacity bytes.new) }
    ensures bound { vec_capacity bytes.new
        ≤ max (vec_capacity bytes.old) (4 * length bytes.old.items + count) }
{
    let len = bytes.len();
    if count <= bytes.capacity() - len {
        return Ok(());
    }
    bytes.reserve_exact(count.max(len).max(3 * len.min(QUARTER)))
}

// How many of so many bytes are read at once.
fn room_in_chunk(left: u64) -> usize
    ensures some { result ≡ 0 → left ≡ 0 }
    ensures within { result ≤ left }
    ensures fits { result ≤ 65536 }
{
    if left < CHUNK as u64 {
        left as usize
    } else {
        CHUNK
    }
}

/// Whether there is a file or a folder at the path. Links are followed.
pub fn is_there<R: Files>(files: &R, path: &str) -> io::Result<bool> {
    fs::exists(files, path)
}

/// Reads all bytes of the reader, or gives `TooLarge` if there are more than the limit. Reads at
/// most one byte past the limit, and asks for memory as the bytes come.
pub fn read_limited<R: Read + Drop>(
    alloc: Global,
    reader: R,
    limit: u64,
) -> Result<Vec<u8>, ReadError>
    ensures read { IfOk result (λ bytes. IfSome (R.remaining reader) (λ all. bytes.items ≡ all)) }
    ensures within { IfOk result (λ bytes. length bytes.items ≤ limit) }
    ensures over { IfErr result
        (λ e. IfSome (R.remaining reader) (λ all. IsTooLongOnly limit all e)) }
{
    let bytes = match read_first(alloc, reader, limit.saturating_add(1)) {
        Ok(bytes) => bytes,
        Err(error) => return Err(ReadError::Failed(error)),
    };
    if bytes.len() as u64 > limit {
        return Err(ReadError::TooLarge);
    }
    Ok(bytes)
}

/// Why a call on files failed: refused memory, or else the device.
pub fn cause_of(error: &io::Error) -> StoreError
    ensures { result ≡ cause error.now }
{
    match error.kind() {
        ErrorKind::OutOfMemory => StoreError::WantOfMemory,
        _ => StoreError::Device,
    }
}
