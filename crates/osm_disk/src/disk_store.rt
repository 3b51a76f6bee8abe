//! A store over the files of the disk.

ghost use Rattle.std.specs.Prelude.{◌≡◌, ◌≤◌, IfErr, IfOk, OnOk};
ghost use Rattle.osm_disk.specs.Counts.{Counts, state_of};
ghost use Rattle.osm_store.specs.Files.{HasFailed, IsWithin, NeverTooLarge};
ghost use Rattle.osm_store.specs.Frames.{Abandons, IsDevice, ReadsBetween, ReplacesBetween};

use crate::opened::{Opened, open};
use crate::opening::Sort;
use crate::reading::{ReadError, cause_of, is_there, read_file};
use crate::replacing::{Staged, Writer, abandon_file, append, begin_file, commit_file, write_file};
use osm_store::store::{Store, StoreError};
use std::alloc::Global;
use std::fs::Files;
use std::io;

/// The files of the disk, by their paths. Each write replaces a whole file. A killed process leaves
/// at most a temporary file beside it.
///
/// The file that `read_prefix` opens, or `read_at` if none of that name is open, stays open until
/// `commit`, `abandon`, a `write`, another `read_prefix`, or a `read_at` of another name. So all
/// that is read of it in between is of one file, even if another file is renamed over it.
#[derive(Drop)]
#[derive_where(Debug; R)]
pub struct DiskStore<R: Files> {
    files: R,
    writer: Writer,
    failures: u64,
    said: Option<io::Error>,
    // The only names that may be those of pipes and devices; None if any may.
    streams: Option<Vec<String>>,
    #[derive_where(skip)]
    opened: Option<Opened<R::File>>,
    #[derive_where(skip)]
    staged: Option<Staged<R::File>>,
}

impl<R: Files> DiskStore<R> {
    ghost use Rattle.osm_disk.specs.Counts.{failures_of, process_of};

    /// A store for the process with the given id, which names the temporary files of the store
    /// unless another file has such a name.
    pub fn new(files: R, process: u32) -> DiskStore<R>
        ensures none { failures_of result ≡ 0 }
        ensures named { process_of result ≡ process }
    {
        DiskStore {
            files,
            writer: Writer {
                process,
                is_alone: false,
                sort: Sort::File,
            },
            failures: 0,
            said: None,
            streams: None,
            opened: None,
            staged: None,
        }
    }

    /// From now on, removes the temporary files that killed processes left beside each file that is
    /// written. Only for a process that holds a lock: without one, another process may be using
    /// them.
    pub fn set_alone(&mut self)
        ensures none { failures_of self.new ≡ failures_of self.old }
        ensures named { process_of self.new ≡ process_of self.old }
    {
        self.writer.is_alone = true;
    }

    /// From now on, refuses to open a pipe, a socket or a device, except by the given names.
    pub fn set_streams(&mut self, names: Vec<String>)
        ensures none { failures_of self.new ≡ failures_of self.old }
        ensures named { process_of self.new ≡ process_of self.old }
    {
        self.streams = Some(names);
    }

    // What may be opened by that name.
    fn sort_of(&self, name: &str) -> Sort {
        match &self.streams {
            Some(names) if !names.iter().any(|stream| stream.as_str() == name) => Sort::File,
            _ => Sort::Stream,
        }
    }

    // Who writes a file of that name.
    fn writer_of(&self, name: &str) -> Writer {
        Writer {
            sort: self.sort_of(name),
            ..self.writer
        }
    }

    /// The system's error of the last call that failed; None if no call failed.
    pub fn said(&self) -> Option<io::Error> {
        self.said
    }

    /// How many calls failed because of the device.
    pub fn failures(&self) -> u64
        ensures { result ≡ failures_of self.now }
    {
        self.failures
    }

    // Keeps what the system said, and counts a failure of the device.
    fn fail(&mut self, error: io::Error) -> StoreError
        ensures refused { NeverTooLarge result }
        ensures counted { Counts self.old.failures self.new.failures result }
        ensures kept { self.old.failures ≤ self.new.failures }
        ensures failed { result ≡ StoreError.Device
            → HasFailed self.old.failures self.new.failures }
    {
        self.said = Some(error);
        self.count_failure(cause_of(&error))
    }

    // Counts a failure of the device.
    fn count_failure(&mut self, error: StoreError) -> StoreError
        ensures same { result ≡ error }
        ensures counted { Counts self.old.failures self.new.failures error }
        ensures kept { self.old.failures ≤ self.new.failures }
        ensures failed { error ≡ StoreError.Device
            → HasFailed self.old.failures self.new.failures }
    {
        if error == StoreError::Device {
            self.failures = self.failures.saturating_add(1);
        }
        error
    }

    // Reads a block of the file that is open by that name, which is opened first if it isn't.
    fn read_block(
        &mut self,
        alloc: Global,
        name: &str,
        from: u64,
        most: u64,
    ) -> io::Result<Option<Vec<u8>>>
        ensures within { IfOk result (IsWithin most) }
        ensures none { self.new.failures ≡ self.old.failures }
    {
        if !self.is_open(name) {
            self.opened = None;
            self.opened = open(alloc, &self.files, name, self.sort_of(name))?;
        }
        match &mut self.opened {
            Some(opened) => Ok(Some(opened.read_at(alloc, from, most)?)),
            None => Ok(None),
        }
    }

    fn is_open(&self, name: &str) -> bool {
        match &self.opened {
            Some(opened) => opened.is_named(name),
            None => false,
        }
    }

    // Drops the file that was begun, if there is one.
    fn drop_staged(&mut self)
        ensures none { self.new.failures ≡ self.old.failures }
    {
        if let Some(staged) = self.staged.take() {
            abandon_file(&self.files, staged);
        }
    }

    // Appends to the file that was begun, if there is one.
    fn append_to_staged(&mut self, bytes: &[u8]) -> io::Result<()>
        ensures none { self.new.failures ≡ self.old.failures }
    {
        match &mut self.staged {
            Some(staged) => append(staged, bytes),
            None => Ok(()),
        }
    }

    // Puts the file that was begun in its place, if there is one.
    fn commit_staged(&mut self) -> io::Result<()>
        ensures none { self.new.failures ≡ self.old.failures }
    {
        match self.staged.take() {
            Some(staged) => commit_file(&self.files, staged),
            None => Ok(()),
        }
    }
}

impl<R: Files> Store for DiskStore<R> {
    ghost state = { state_of };

    fn read(&mut self, alloc: Global, name: &str, limit: u64) -> Result<Option<Vec<u8>>, StoreError>
        ensures within { IfOk result (IsWithin limit) }
        ensures frame { ReadsBetween IsDevice 1 1
            (state_of self.old) (state_of self.new) result }
        ensures none { OnOk result (self.new.failures ≡ self.old.failures) }
        ensures counted { IfErr result (Counts self.old.failures self.new.failures) }
    {
        match read_file(alloc, &self.files, name, self.sort_of(name), limit) {
            Ok(found) => Ok(found),
            Err(ReadError::TooLarge) => Err(StoreError::TooLarge),
            Err(ReadError::Failed(error)) => Err(self.fail(error)),
        }
    }

    fn read_prefix(
        &mut self,
        alloc: Global,
        name: &str,
        most: u64,
    ) -> Result<Option<Vec<u8>>, StoreError>
        ensures within { IfOk result (IsWithin most) }
        ensures refused { IfErr result NeverTooLarge }
        ensures frame { ReadsBetween IsDevice 1 1
            (state_of self.old) (state_of self.new) result }
        ensures none { OnOk result (self.new.failures ≡ self.old.failures) }
        ensures counted { IfErr result (Counts self.old.failures self.new.failures) }
    {
        self.opened = None;
        match self.read_block(alloc, name, 0, most) {
            Ok(found) => Ok(found),
            Err(error) => Err(self.fail(error)),
        }
    }

    fn is_there(&mut self, name: &str) -> Result<bool, StoreError>
        ensures refused { IfErr result NeverTooLarge }
        ensures frame { ReadsBetween IsDevice 1 1
            (state_of self.old) (state_of self.new) result }
        ensures none { OnOk result (self.new.failures ≡ self.old.failures) }
        ensures counted { IfErr result (Counts self.old.failures self.new.failures) }
    {
        match is_there(&self.files, name) {
            Ok(is_there) => Ok(is_there),
            Err(error) => Err(self.fail(error)),
        }
    }

    fn write(&mut self, alloc: Global, name: &str, bytes: &[u8]) -> Result<(), StoreError>
        ensures refused { IfErr result NeverTooLarge }
        ensures frame { ReplacesBetween IsDevice 1 1
            (state_of self.old) (state_of self.new) result }
        ensures none { OnOk result (self.new.failures ≡ self.old.failures) }
        ensures counted { IfErr result (Counts self.old.failures self.new.failures) }
    {
        self.opened = None;
        match write_file(alloc, &self.files, self.writer_of(name), name, bytes) {
            Ok(()) => Ok(()),
            Err(error) => Err(self.fail(error)),
        }
    }

    fn read_at(
        &mut self,
        alloc: Global,
        name: &str,
        from: u64,
        most: u64,
    ) -> Result<Option<Vec<u8>>, StoreError>
        ensures within { IfOk result (IsWithin most) }
        ensures refused { IfErr result NeverTooLarge }
        ensures frame { ReadsBetween IsDevice 1 1
            (state_of self.old) (state_of self.new) result }
        ensures none { OnOk result (self.new.failures ≡ self.old.failures) }
        ensures counted { IfErr result (Counts self.old.failures self.new.failures) }
    {
        match self.read_block(alloc, name, from, most) {
            Ok(found) => Ok(found),
            Err(error) => Err(self.fail(error)),
        }
    }

    fn begin(&mut self, alloc: Global, name: &str) -> Result<(), StoreError>
        ensures refused { IfErr result NeverTooLarge }
        ensures frame { ReadsBetween IsDevice 1 1
            (state_of self.old) (state_of self.new) result }
        ensures none { OnOk result (self.new.failures ≡ self.old.failures) }
        ensures counted { IfErr result (Counts self.old.failures self.new.failures) }
    {
        self.drop_staged();
        match begin_file(alloc, &self.files, self.writer_of(name), name) {
            Ok(staged) => {
                self.staged = Some(staged);
                Ok(())
            }
            Err(error) => Err(self.fail(error)),
        }
    }

    fn append(&mut self, bytes: &[u8]) -> Result<(), StoreError>
        ensures refused { IfErr result NeverTooLarge }
        ensures frame { ReadsBetween IsDevice 1 1
            (state_of self.old) (state_of self.new) result }
        ensures none { OnOk result (self.new.failures ≡ self.old.failures) }
        ensures counted { IfErr result (Counts self.old.failures self.new.failures) }
    {
        match self.append_to_staged(bytes) {
            Ok(()) => Ok(()),
            Err(error) => {
                self.drop_staged();
                Err(self.fail(error))
            }
        }
    }

    fn commit(&mut self) -> Result<(), StoreError>
        ensures refused { IfErr result NeverTooLarge }
        ensures frame { ReplacesBetween IsDevice 1 1
            (state_of self.old) (state_of self.new) result }
        ensures none { OnOk result (self.new.failures ≡ self.old.failures) }
        ensures counted { IfErr result (Counts self.old.failures self.new.failures) }
    {
        self.opened = None;
        match self.commit_staged() {
            Ok(()) => Ok(()),
            Err(error) => Err(self.fail(error)),
        }
    }

    fn abandon(&mut self)
        ensures dropped { Abandons (state_of self.old) (state_of self.new) }
        ensures none { self.new.failures ≡ self.old.failures }
    {
        self.opened = None;
        self.drop_staged();
    }
}
