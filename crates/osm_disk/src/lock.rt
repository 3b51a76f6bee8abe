//! Advisory locks, which keep a second run away from the files that a run is working on.

use crate::names::{lock_of_file, lock_of_folder};
use crate::opening::{Sort, open_file};
use crate::replacing::{found, led, make_folders};
use std::alloc::Global;
use std::fs::{File, Files, OpenOptions, TryLockError};
use std::io::{self, ErrorKind};

/// Why a lock couldn't be taken.
#[derive(Clone, Copy, Debug)]
pub enum LockError {
    /// Another process holds the lock.
    InUse,
    /// The file of the lock can't be made, opened or locked.
    Failed(io::Error),
}

impl From<io::Error> for LockError {
    fn from(error: io::Error) -> LockError {
        LockError::Failed(error)
    }
}

/// A lock that is held until this value is dropped. The system frees the lock when the process
/// ends, however it ends. The file of the lock is never removed, since another process may have
/// opened it already.
#[derive(Drop)]
pub struct Lock {
    _file: File,
}

/// The path at which a save lies. If the save is a symbolic link, this is the path where the link
/// leads: the file there is read and replaced, and its journal and its lock lie beside it. None if
/// the save isn't a plain file, but for example a device.
pub fn save_path<R: Files>(alloc: Global, files: &R, save: &str) -> io::Result<Option<String>> {
    match found(files.metadata(save))? {
        Some(there) if !there.is_file() => Ok(None),
        None if save.ends_with('/') => Ok(None),
        _ => Ok(Some(led(alloc, files, save)?)),
    }
}

/// The path of a save's lock, beside the file that is replaced. None if the save isn't a plain
/// file.
pub fn save_lock<R: Files>(alloc: Global, files: &R, save: &str) -> io::Result<Option<String>> {
    match save_path(alloc, files, save)? {
        Some(path) => Ok(Some(lock_of_file(alloc, path.as_str())?)),
        None => Ok(None),
    }
}

/// The path of a folder's lock.
pub fn folder_lock(alloc: Global, dir: &str) -> io::Result<String> {
    Ok(lock_of_folder(alloc, dir)?)
}

/// Takes the lock at the given path, unless another process holds it. Makes the file of the lock,
/// and the folders that the file needs.
pub fn take_lock<R: Files<File = File>>(files: &R, path: &str) -> Result<Lock, LockError> {
    let file = open_or_make(files, path)?;
    match file.try_lock() {
        Ok(()) => Ok(Lock { _file: file }),
        Err(TryLockError::WouldBlock) => Err(LockError::InUse),
        Err(TryLockError::Error(error)) => Err(LockError::Failed(error)),
    }
}

// It is opened for reading alone, so that another user's lock serves too.
fn open_or_make<R: Files<File = File>>(files: &R, path: &str) -> io::Result<File> {
    if let Some(file) = open_file(files, path, Sort::File)? {
        return Ok(file);
    }
    make_file(files, path)?;
    match open_file(files, path, Sort::File)? {
        Some(file) => Ok(file),
        None => Err(ErrorKind::NotFound.into()),
    }
}

// Makes an empty file, and the folders that it needs.
fn make_file<R: Files<File = File>>(files: &R, path: &str) -> io::Result<()> {
    match make(files, path) {
        Ok(_file) => return Ok(()),
        Err(error) if error.kind() == ErrorKind::NotFound => {}
        Err(error) => return Err(error),
    }
    make_folders(files, path)?;
    let _file = make(files, path)?;
    Ok(())
}

fn make<R: Files<File = File>>(files: &R, path: &str) -> io::Result<File> {
    OpenOptions::new()
        .write(true)
        .create(true)
        .open(files, path)
}
