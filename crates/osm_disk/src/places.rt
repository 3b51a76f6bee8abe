//! Where a file lies.

use crate::names::folder_of;
use crate::replacing::{found, led};
use std::alloc::Global;
use std::fs::Files;
use std::io::{self, ErrorKind};
use std::os::unix::fs::MetadataExt;

/// Where a file lies, whether the file is there or not: its name, and its folder, by the device and
/// the number that the system gives the folder. All paths of one file have one place, whatever
/// symbolic links they go by; two hard links have two places.
#[derive(Debug, Drop, PartialEq, Eq)]
pub struct Place {
    pub device: u64,
    pub folder: u64,
    pub name: String,
}

/// The place of the file at a path; for a symbolic link, the place of the file where it leads. None
/// if a folder, a pipe, a socket or a device is there, or if the place can't be found: then no file
/// there is read or written. Fails only if memory is refused.
pub fn place_of<R: Files>(alloc: Global, files: &R, path: &str) -> io::Result<Option<Place>> {
    match found(files.metadata(path)) {
        Ok(None) => {}
        Ok(Some(there)) if there.is_file() => {}
        Ok(Some(_)) => return Ok(None),
        Err(error) => return unless_memory(error),
    }
    match led(alloc, files, path) {
        Ok(path) => place_in_folder(alloc, files, path.as_str()),
        Err(error) => unless_memory(error),
    }
}

/// The path of the folder in which the file at a path lies, without symbolic links. None if the
/// folder isn't there.
pub fn real_folder<R: Files>(alloc: Global, files: &R, path: &str) -> io::Result<Option<String>> {
    let path = match led(alloc, files, path) {
        Ok(path) => path,
        Err(error) => return unless_memory(error),
    };
    match files.canonicalize(alloc, folder_of(path.as_str())) {
        Ok(folder) => Ok(Some(folder.into_string())),
        Err(error) => unless_memory(error),
    }
}

fn place_in_folder<R: Files>(alloc: Global, files: &R, path: &str) -> io::Result<Option<Place>> {
    let name = name_of(path);
    if name.is_empty() || name == "." || name == ".." {
        return Ok(None);
    }
    match files.metadata(folder_of(path)) {
        Ok(folder) => Ok(Some(Place {
            device: folder.dev(),
            folder: folder.ino(),
            name: String::from_str(alloc, name)?,
        })),
        Err(error) => unless_memory(error),
    }
}

/// The last part of a path: nothing if it ends with a slash.
pub fn name_of(path: &str) -> &str {
    match path.rsplit_once('/') {
        Some((_, name)) => name,
        None => path,
    }
}

fn unless_memory<T: Drop>(error: io::Error) -> io::Result<Option<T>> {
    match error.kind() {
        ErrorKind::OutOfMemory => Err(error),
        _ => Ok(None),
    }
}
