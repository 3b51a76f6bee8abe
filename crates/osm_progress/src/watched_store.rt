//! A store that tells a watcher what is read and written.

ghost use Rattle.std.specs.Prelude.{◌≡◌, ◌++◌, ℕ, List, [], Some, None, IfErr, IfOk, OnOk, is_some};
ghost use Rattle.osm_store.specs.Files.{IsWithin, NeverTooLarge, Puts, ReadStops, Tells};
ghost use Rattle.osm_store.specs.Files.{block_of, prefix_of};
ghost use Rattle.osm_store.specs.Frames.{Abandons, IsDevice, IsKnown, ReadsBetween};
ghost use Rattle.osm_store.specs.Frames.{ReplacesBetween};
ghost use Rattle.osm_progress.specs.Watching.{watched_state};

use osm_store::store::{Store, StoreError};
use std::alloc::Global;

/// A watcher, which is told of the calls of a store. It can't change what the store does.
pub trait Watch {
    /// A file was read: its bytes, or the prefix that was asked for.
    fn was_read(&mut self, name: &str, bytes: &[u8]);

    /// A block of a file was read: `count` bytes from the place `from` on.
    fn was_read_at(&mut self, name: &str, from: u64, count: u64);

    /// A file is about to be replaced.
    fn will_write(&mut self);
}

/// Passes each call on to the store inside, and tells the watcher.
#[derive(Debug, Drop)]
pub struct WatchedStore<S: Store, W: Watch> {
    inner: S,
    watch: W,
}

impl<S: Store, W: Watch> WatchedStore<S, W> {
    ghost use Rattle.osm_progress.specs.Watching.{inner_of};

    pub fn new(inner: S, watch: W) -> WatchedStore<S, W>
        ensures inner { inner_of result ≡ inner }
    {
        WatchedStore { inner, watch }
    }

    /// Gives back the store inside and the watcher.
    pub fn into_parts(self) -> (S, W)
        ensures { result.0 ≡ inner_of self }
    {
        (self.inner, self.watch)
    }
}

impl<S: Store, W: Watch> Store for WatchedStore<S, W> {
    ghost state = { watched_state S.Store.state };

    fn read(
        &mut self,
        alloc: Global,
        name: &str,
        limit: u64,
    ) -> Result<Option<Vec<u8>>, StoreError> {
        let told = self.inner.read(alloc, name, limit)?;
        if let Some(bytes) = &told {
            self.watch.was_read(name, bytes.as_slice());
        }
        Ok(told)
    }

    fn read_prefix(
        &mut self,
        alloc: Global,
        name: &str,
        most: u64,
    ) -> Result<Option<Vec<u8>>, StoreError> {
        let told = self.inner.read_prefix(alloc, name, most)?;
        if let Some(bytes) = &told {
            self.watch.was_read(name, bytes.as_slice());
        }
        Ok(told)
    }

    fn is_there(&mut self, name: &str) -> Result<bool, StoreError> {
        self.inner.is_there(name)
    }

    fn write(&mut self, alloc: Global, name: &str, bytes: &[u8]) -> Result<(), StoreError> {
        self.watch.will_write();
        self.inner.write(alloc, name, bytes)
    }

    fn read_at(
        &mut self,
        alloc: Global,
        name: &str,
        from: u64,
        most: u64,
    ) -> Result<Option<Vec<u8>>, StoreError> {
        let told = self.inner.read_at(alloc, name, from, most)?;
        if let Some(bytes) = &told {
            self.watch.was_read_at(name, from, bytes.len() as u64);
        }
        Ok(told)
    }

    fn begin(&mut self, alloc: Global, name: &str) -> Result<(), StoreError> {
        self.inner.begin(alloc, name)
    }

    fn append(&mut self, bytes: &[u8]) -> Result<(), StoreError> {
        self.inner.append(bytes)
    }

    fn commit(&mut self) -> Result<(), StoreError> {
        self.watch.will_write();
        self.inner.commit()
    }

    fn abandon(&mut self) {
        self.inner.abandon()
    }
}
