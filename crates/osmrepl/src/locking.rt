//! The lock of a run, and the clock.

use crate::saying::{refuse, report, tell};
use osm_disk::lock::{self, LockError, folder_lock, save_lock, take_lock};
use osm_repl::refusal::Refusal;
use osm_runs::fault::RunFault;
use osm_runs::options::Layout;
use osm_words::locks::Lock;
use std::io::{self, ErrorKind};
use std::time::Clock;

// Takes the lock; None for a save that needs none. If it can't be taken, says so, in JSON too if
// that is the layout, and gives the status.
pub(crate) fn locked(
    rt: &HostRuntime,
    lock: Lock<'_>,
    layout: Layout,
) -> Result<Option<lock::Lock>, u8> {
    let path = match path_of(rt, lock) {
        Ok(Some(path)) => path,
        Ok(None) => return Ok(None),
        Err(error) => {
            let error = LockError::Failed(error);
            return Err(unlocked(rt, lock, layout, word_of(lock), error));
        }
    };
    match take_lock(rt, path.as_str()) {
        Ok(held) => Ok(Some(held)),
        Err(error) => Err(unlocked(rt, lock, layout, path.as_str(), error)),
    }
}

// The path of the lock's file; None for a save that needs no lock.
fn path_of(rt: &HostRuntime, lock: Lock<'_>) -> io::Result<Option<String>> {
    match lock {
        Lock::Folder(dir) => Ok(Some(folder_lock(rt.alloc(), dir)?)),
        Lock::Save(save) => save_lock(rt.alloc(), rt, save),
    }
}

// The word that the lock is for.
fn word_of<'a>(lock: Lock<'a>) -> &'a str {
    match lock {
        Lock::Folder(dir) => dir,
        Lock::Save(save) => save,
    }
}

// Says why the lock isn't held, and gives the status.
pub(crate) fn unlocked(
    rt: &HostRuntime,
    lock: Lock<'_>,
    layout: Layout,
    path: &str,
    error: LockError,
) -> u8 {
    let said = match error {
        LockError::InUse => None,
        LockError::Failed(error) => Some(error),
    };
    if let Some(error) = said {
        if error.kind() == ErrorKind::OutOfMemory {
            return report(rt, RunFault::WantOfMemory);
        }
    }
    let refusal = match (lock, said.is_some()) {
        (Lock::Folder(_), false) => Refusal::FolderInUse,
        (Lock::Folder(_), true) => Refusal::FolderLockFailed,
        (Lock::Save(_), false) => Refusal::SaveInUse,
        (Lock::Save(_), true) => Refusal::SaveLockFailed,
    };
    if layout == Layout::Json {
        tell(rt, refusal);
    }
    let hint = if said.is_some() {
        "--no-lock runs without the lock"
    } else {
        ""
    };
    refuse(rt, refusal, path, said, hint)
}

// The clock, in seconds since 1970. If it can't be read, no time is ahead of it.
pub(crate) fn seconds(rt: &HostRuntime) -> u64 {
    match rt.since_1970() {
        Ok(since) => since.as_secs(),
        Err(_) => u64::MAX,
    }
}
