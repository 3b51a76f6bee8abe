//! Replacing a whole file: a temporary file is written beside it, synced and renamed over it.

use crate::names::{folder_of, led_by, process_of, start_of, temporary_of};
use crate::opening::{Sort, is_stream, not_a_file};
use crate::rights::{Model, model_of};
use std::alloc::Global;
use std::fs::{self, Files, Metadata, OpenFile, OpenOptions};
use std::io::{self, ErrorKind, Read, Write};
use std::os::unix::fs::OpenOptionsExt;

// As many links as Linux follows.
const MOST_LINKS: u32 = 40;

// How many names of temporary files are tried: those of this process, of the next one, and so on.
const MOST_NAMES: u32 = 100;

// More blocks of names than a folder has.
const MOST_BLOCKS: u64 = 1 << 40;

/// Who writes a file.
#[derive(Clone, Copy, Debug)]
pub struct Writer {
    /// The process, whose id names its temporary files. If a file has such a name already, the next
    /// id is used: it may belong to a process in another container.
    pub process: u32,
    /// The process holds the lock, so no other process writes the file.
    pub is_alone: bool,
    /// What may be written to.
    pub sort: Sort,
}

/// A file that is being written.
#[derive(Drop)]
pub struct Staged<F> {
    file: F,
    // None if its bytes go at once where they belong, as those of a device or a pipe do.
    names: Option<Names>,
}

// What a file is called while it is written, and where it is renamed to.
#[derive(Drop)]
struct Names {
    temporary: String,
    path: String,
}

/// Writes the bytes as a whole file, which is begun, written and put in place.
pub fn write_file<R: Files>(
    alloc: Global,
    files: &R,
    writer: Writer,
    path: &str,
    bytes: &[u8],
) -> io::Result<()> {
    let mut staged = begin_file(alloc, files, writer, path)?;
    match append(&mut staged, bytes) {
        Ok(()) => commit_file(files, staged),
        Err(error) => {
            abandon_file(files, staged);
            Err(error)
        }
    }
}

/// Begins a file that will replace the one at the given path, and makes the folders that the file
/// needs. An existing file keeps its mode, and its group if the system allows it; a new journal
/// gets those of its save. A symbolic link stays, and the file that it leads to is replaced; it is
/// refused as `NotFound` if it has no name any more. A device or a pipe is written directly, or
/// refused if it has to be a file. A folder is refused as `IsADirectory`. A writer that is alone
/// removes the temporary files that killed processes left.
pub fn begin_file<R: Files>(
    alloc: Global,
    files: &R,
    writer: Writer,
    path: &str,
) -> io::Result<Staged<R::File>> {
    match found(files.metadata(path))? {
        Some(there) if there.is_dir() => Err(ErrorKind::IsADirectory.into()),
        Some(there) if is_stream(&there) => match writer.sort {
            Sort::File => Err(not_a_file()),
            Sort::Stream => begin_directly(files, path),
        },
        before => {
            let was_there = before.is_some();
            let model = model_of(files, path, before)?;
            let End { path, is_there } = end_of(alloc, files, path)?;
            if was_there && !is_there {
                return Err(ErrorKind::NotFound.into());
            }
            begin_beside(alloc, files, writer, path, model.as_ref())
        }
    }
}

/// Appends the bytes to the file that was begun.
pub fn append<F: Write>(staged: &mut Staged<F>, bytes: &[u8]) -> io::Result<()> {
    staged.file.write_all(bytes)
}

/// Syncs the file, renames it to its path, and syncs the folder. If a step up to the rename fails,
/// removes the temporary file.
pub fn commit_file<R: Files>(files: &R, staged: Staged<R::File>) -> io::Result<()> {
    let Staged { file, names } = staged;
    let Some(names) = names else {
        return Ok(());
    };
    let renamed = sync_and_rename(files, file, &names);
    if renamed.is_err() {
        let _ = files.remove_file(names.temporary.as_str());
    }
    renamed?;
    sync_folder(files, folder_of(names.path.as_str()))
}

/// Drops the file that was begun, and removes it if it is a temporary file.
pub fn abandon_file<R: Files>(files: &R, staged: Staged<R::File>) {
    if let Some(names) = closed(staged) {
        let _ = files.remove_file(names.temporary.as_str());
    }
}

fn closed<F: Drop>(staged: Staged<F>) -> Option<Names> {
    staged.names
}

// None if there is no such file.
pub(crate) fn found<T: Drop>(answer: io::Result<T>) -> io::Result<Option<T>> {
    match answer {
        Ok(there) => Ok(Some(there)),
        Err(error) if error.kind() == ErrorKind::NotFound => Ok(None),
        Err(error) => Err(error),
    }
}

fn begin_directly<R: Files>(files: &R, path: &str) -> io::Result<Staged<R::File>> {
    let file = OpenOptions::new().write(true).open(files, path)?;
    Ok(Staged { file, names: None })
}

// Where symbolic links end, and whether something is there.
#[derive(Drop)]
struct End {
    path: String,
    is_there: bool,
}

// The path after all symbolic links at its end.
pub(crate) fn led<R: Files>(alloc: Global, files: &R, path: &str) -> io::Result<String> {
    Ok(end_of(alloc, files, path)?.path)
}

// Follows all symbolic links at the end of the path, and looks at what the last one leads to.
fn end_of<R: Files>(alloc: Global, files: &R, path: &str) -> io::Result<End> {
    let mut path = String::from_str(alloc, path)?;
    for _ in 0..=MOST_LINKS {
        match found(files.symlink_metadata(path.as_str()))? {
            Some(there) if there.is_symlink() => path = followed(alloc, files, path.as_str())?,
            there => {
                let is_there = there.is_some();
                return Ok(End { path, is_there });
            }
        }
    }
    Err(ErrorKind::FilesystemLoop.into())
}

// The path that the symbolic link leads to.
fn followed<R: Files>(alloc: Global, files: &R, link: &str) -> io::Result<String> {
    let text = files.read_link(alloc, link)?;
    Ok(led_by(alloc, link, text.as_str())?)
}

// Makes the temporary file, beside the path.
fn begin_beside<R: Files>(
    alloc: Global,
    files: &R,
    writer: Writer,
    path: String,
    model: Option<&Model>,
) -> io::Result<Staged<R::File>> {
    if path.is_empty() || path.ends_with('/') {
        return Err(ErrorKind::IsADirectory.into());
    }
    if writer.is_alone {
        remove_left(alloc, files, path.as_str());
    }
    let mut process = writer.process;
    for _ in 0..MOST_NAMES {
        let temporary = temporary_of(alloc, path.as_str(), process)?;
        match create(files, temporary.as_str(), model) {
            Ok(file) => return begun(files, file, Names { temporary, path }, model),
            Err(error) if error.kind() == ErrorKind::AlreadyExists => {}
            Err(error) => return Err(error),
        }
        process = process.wrapping_add(1);
    }
    Err(ErrorKind::AlreadyExists.into())
}

// Gives a new file the rights of its model. If that fails, the file is removed.
fn begun<R: Files>(
    files: &R,
    file: R::File,
    names: Names,
    model: Option<&Model>,
) -> io::Result<Staged<R::File>> {
    if let Some(model) = model {
        if let Err(error) = model.give(files, &file, names.temporary.as_str()) {
            let _ = files.remove_file(names.temporary.as_str());
            return Err(error);
        }
    }
    Ok(Staged {
        file,
        names: Some(names),
    })
}

// Removes the temporary files of a file. What can't be read or removed stays.
fn remove_left<R: Files>(alloc: Global, files: &R, path: &str) {
    let Ok(start) = start_of(alloc, path) else {
        return;
    };
    let Ok(mut names) = files.open_dir(folder_of(path)) else {
        return;
    };
    let mut block = [0u8; 4096];
    for _ in 0..MOST_BLOCKS {
        match names.read(&mut block) {
            Ok(0) | Err(_) => return,
            Ok(count) => remove_named(alloc, files, path, start.as_str(), &block[..count]),
        }
    }
}

// Removes those whose names are among these, each of which is ended by a NUL.
fn remove_named<R: Files>(alloc: Global, files: &R, path: &str, start: &str, names: &[u8]) {
    for name in names.split(|byte| *byte == 0) {
        if let Some(process) = process_of(start, name) {
            remove_of(alloc, files, path, process);
        }
    }
}

fn remove_of<R: Files>(alloc: Global, files: &R, path: &str, process: u32) {
    if let Ok(temporary) = temporary_of(alloc, path, process) {
        let _ = files.remove_file(temporary.as_str());
    }
}

// Closes the file, too.
fn sync_and_rename<R: Files>(files: &R, file: R::File, names: &Names) -> io::Result<()> {
    file.sync_all()?;
    files.rename(names.temporary.as_str(), names.path.as_str())
}

// Makes a new file, with the folders that it needs.
fn create<R: Files>(files: &R, path: &str, model: Option<&Model>) -> io::Result<R::File> {
    match create_new(files, path, model) {
        Err(error) if error.kind() == ErrorKind::NotFound => {
            make_folders(files, path)?;
            create_new(files, path, model)
        }
        made => made,
    }
}

fn create_new<R: Files>(files: &R, path: &str, model: Option<&Model>) -> io::Result<R::File> {
    let mut options = OpenOptions::new();
    options.write(true).create_new(true);
    if let Some(model) = model {
        options.mode(model.first_mode());
    }
    options.open(files, path)
}

// Makes the folders of a path, and syncs the entry of each, so that none is lost along with the
// file.
pub(crate) fn make_folders<R: Files>(files: &R, path: &str) -> io::Result<()> {
    fs::create_dir_all(files, folder_of(path))?;
    for end in 1..path.len() {
        sync_entry(files, path, end)?;
    }
    Ok(())
}

// If there is a slash at `end`, syncs the folder that holds the folder named before it.
fn sync_entry<R: Files>(files: &R, path: &str, end: usize) -> io::Result<()> {
    match path.split_at_checked(end) {
        Some((folder, rest)) if rest.starts_with('/') => sync_folder(files, folder_of(folder)),
        _ => Ok(()),
    }
}

// Syncs a folder, if it may be read and its file system can sync folders.
fn sync_folder<R: Files>(files: &R, folder: &str) -> io::Result<()> {
    match open_and_sync(files, folder) {
        Err(error) if is_unable(error.kind()) => Ok(()),
        synced => synced,
    }
}

fn open_and_sync<R: Files>(files: &R, folder: &str) -> io::Result<()> {
    fs::open(files, folder)?.sync_all()
}

pub(crate) fn is_unable(kind: ErrorKind) -> bool {
    match kind {
        ErrorKind::PermissionDenied | ErrorKind::InvalidInput | ErrorKind::Unsupported => true,
        _ => false,
    }
}
