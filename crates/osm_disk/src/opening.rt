//! Opening a file to read it, and what doesn't count as a file.

use crate::replacing::found;
use std::fs::{self, Files, Metadata};
use std::io::{self, Error, ErrorKind};

/// What may be opened at a path.
#[derive(Clone, Copy, Debug, PartialEq, Eq)]
pub enum Sort {
    /// A file that is no pipe, no socket and no device.
    File,
    /// Also a pipe, a socket or a device.
    Stream,
}

/// Opens a file to be read; None if there is no such file. If only a file may be opened, its sort
/// is looked at first, since opening a pipe waits until something writes to it.
pub fn open_file<R: Files>(files: &R, path: &str, sort: Sort) -> io::Result<Option<R::File>> {
    if sort == Sort::File && found(files.metadata(path))?.is_some_and(|there| is_stream(&there)) {
        return Err(not_a_file());
    }
    found(fs::open(files, path))
}

/// Whether the metadata are those of a pipe, a socket or a device.
pub fn is_stream(there: &Metadata) -> bool {
    !there.is_file() && !there.is_dir()
}

/// The error if a pipe, a socket or a device is in the place of a file.
pub fn not_a_file() -> Error {
    Error::new(ErrorKind::InvalidInput, "not a file")
}
