//! A store in memory, whose files contracts see.

ghost use Rattle.std.specs.Prelude.{◌≡◌, ◌++◌, ℕ, ◌<◌, ◌≤◌, List, [], length, take, drop, Option};
ghost use Rattle.std.specs.Prelude.{Some, None, true, false, is_some};
ghost use Rattle.std.specs.Prelude.{IfOk, IfErr, string_bytes, OnOk, OnErr, MatchOption};
ghost use Rattle.osm_store.specs.Files.{Puts, Tells, IsWithin, block_of, prefix_of};
ghost use Rattle.osm_store.specs.Steps.Copying.{CopyStops};

use crate::begun::Begun;
use crate::store::{Store, StoreError};
use osm_model::memory::WantOfMemory;
use std::alloc::Global;
use std::collections::BTreeMap;
use std::marker::Model;
use std::mem::swap;

/// The bytes of a file.
#[derive(Debug, Drop)]
struct Content {
    bytes: Vec<u8>,
}

impl Model for Content {
    ghost Value = { List ℕ };

    ghost view = { λ a. a.bytes.items };
}

impl Content {
    fn of(alloc: Global, bytes: &[u8]) -> Result<Content, WantOfMemory>
        ensures { IfOk result (λ content. content ≡ bytes.now) }
    {
        let bytes = Vec::from_slice(alloc, bytes)?;
        Ok(Content { bytes })
    }

    fn bytes(&self) -> &[u8]
        ensures { result.now ≡ self.now }
    {
        self.bytes.as_slice()
    }

    fn exchange(&mut self, bytes: &mut Vec<u8>)
        ensures put { self.new ≡ bytes.old.items }
        ensures taken { bytes.new.items ≡ self.old }
    {
        swap(&mut self.bytes, bytes);
    }
}

/// Files in memory. The device never fails.
#[derive(Debug, Drop)]
pub struct MemoryStore {
    files: BTreeMap<String, Content>,
    begun: Option<Begun>,
}

impl MemoryStore {
    ghost use Rattle.osm_store.specs.Stores.{files_of, stage_of};

    /// A store with no files.
    pub fn new(alloc: Global) -> MemoryStore
        ensures { files_of result ≡ (λ name. None) }
    {
        MemoryStore {
            files: BTreeMap::new(alloc),
            begun: None,
        }
    }

    /// The bytes of a file; None if there is no such file.
    pub fn get(&self, name: &str) -> Option<&[u8]>
        ensures { MatchOption result
            (files_of self.now name.now ≡ None)
            (λ bytes. files_of self.now name.now ≡ Some bytes.now) }
    {
        match self.files.get(name) {
            None => None,
            Some(content) => Some(content.bytes()),
        }
    }

    /// Replaces the whole file with the bytes, or makes the file.
    pub fn put(&mut self, alloc: Global, name: &str, bytes: &[u8]) -> Result<(), WantOfMemory>
        ensures put { OnOk result
            (Puts (files_of self.old) name.now (Some bytes.now) (files_of self.new)) }
        ensures refused { OnErr result (files_of self.new ≡ files_of self.old) }
    {
        let content = Content::of(alloc, bytes)?;
        let name = String::from_str(alloc, name)?;
        self.insert(name, content)
    }

    /// Removes a file; does nothing if there is no such file.
    pub fn remove(&mut self, name: &str)
        ensures { Puts (files_of self.old) name.now None (files_of self.new) }
    {
        self.files.remove(name);
    }

    /// Swaps the bytes of a file with the given bytes, and returns whether the file is there. If it
    /// isn't, nothing changes. Takes no memory.
    pub fn exchange(&mut self, name: &str, bytes: &mut Vec<u8>) -> bool
        ensures there { result ≡ is_some (files_of self.old name.now) }
        ensures put { result ≡ true
            → Puts (files_of self.old) name.now (Some bytes.old.items) (files_of self.new) }
        ensures taken { result ≡ true → files_of self.old name.now ≡ Some bytes.new.items }
        ensures kept { result ≡ false
            → (files_of self.new ≡ files_of self.old) × (bytes.new.items ≡ bytes.old.items) }
    {
        match self.files.get_mut(name) {
            Some(content) => {
                content.exchange(bytes);
                true
            }
            None => false,
        }
    }

    fn insert(&mut self, name: String, content: Content) -> Result<(), WantOfMemory>
        ensures put { OnOk result
            (Puts (files_of self.old) (string_bytes name) (Some content) (files_of self.new)) }
        ensures refused { OnErr result (files_of self.new ≡ files_of self.old) }
        ensures stage { stage_of self.new ≡ stage_of self.old }
    {
        self.files.insert(name, content)?;
        Ok(())
    }

    // A copy of a file, or `TooLarge` above the limit; None if there is no such file.
    fn copy_of(&self, alloc: Global, name: &str, limit: u64) -> Result<Option<Vec<u8>>, StoreError>
        ensures read { IfOk result (λ o. Tells o (files_of self.now name.now)) }
        ensures within { IfOk result (λ o. IsWithin limit o) }
        ensures stops { IfErr result (CopyStops limit (files_of self.now name.now)) }
    {
        let Some(bytes) = self.get(name) else {
            return Ok(None);
        };
        if bytes.len() as u64 > limit {
            return Err(StoreError::TooLarge);
        }
        match Vec::from_slice(alloc, bytes) {
            Ok(copy) => Ok(Some(copy)),
            Err(_) => Err(StoreError::WantOfMemory),
        }
    }

    // A copy of the first bytes of a file, at most so many; None if there is no such file.
    fn copy_of_prefix(
        &self,
        alloc: Global,
        name: &str,
        most: u64,
    ) -> Result<Option<Vec<u8>>, WantOfMemory>
        ensures read { IfOk result (λ o. Tells o (prefix_of most (files_of self.now name.now))) }
        ensures within { IfOk result (λ o. IsWithin most o) }
    {
        let Some(bytes) = self.get(name) else {
            return Ok(None);
        };
        let copy = Vec::from_slice(alloc, first(bytes, most))?;
        Ok(Some(copy))
    }

    // A copy of at most so many bytes of a file, from a place on; None if there is no such file.
    fn copy_of_block(
        &self,
        alloc: Global,
        name: &str,
        from: u64,
        most: u64,
    ) -> Result<Option<Vec<u8>>, WantOfMemory>
        ensures read { IfOk result
            (λ o. Tells o (block_of from most (files_of self.now name.now))) }
        ensures within { IfOk result (λ o. IsWithin most o) }
    {
        let Some(bytes) = self.get(name) else {
            return Ok(None);
        };
        let copy = Vec::from_slice(alloc, first(rest(bytes, from), most))?;
        Ok(Some(copy))
    }

    // Begins a file, in place of one that was begun before.
    fn begin_new(&mut self, alloc: Global, name: &str) -> Result<(), WantOfMemory>
        ensures begun { OnOk result (stage_of self.new ≡ Some (name.now, [])) }
        ensures files { files_of self.new ≡ files_of self.old }
    {
        self.begun = Some(Begun::new(alloc, name)?);
        Ok(())
    }

    // Appends to the file that was begun, if there is one.
    fn append_to_begun(&mut self, bytes: &[u8]) -> Result<(), WantOfMemory>
        ensures appended { OnOk result ((name text : List ℕ)
            → stage_of self.old ≡ Some (name, text)
            → stage_of self.new ≡ Some (name, text ++ bytes.now)) }
        ensures nothing { OnOk result
            (stage_of self.old ≡ None → stage_of self.new ≡ None) }
        ensures files { files_of self.new ≡ files_of self.old }
    {
        match &mut self.begun {
            Some(begun) => begun.append(bytes),
            None => Ok(()),
        }
    }

    // Puts the file that was begun in its place, if there is one.
    fn put_begun(&mut self) -> Result<(), WantOfMemory>
        ensures put { OnOk result ((name text : List ℕ)
            → stage_of self.old ≡ Some (name, text)
            → Puts (files_of self.old) name (Some text) (files_of self.new)) }
        ensures nothing { OnOk result
            (stage_of self.old ≡ None → files_of self.new ≡ files_of self.old) }
        ensures ended { stage_of self.new ≡ None }
        ensures refused { OnErr result (files_of self.new ≡ files_of self.old) }
    {
        let Some(begun) = self.begun.take() else {
            return Ok(());
        };
        let (name, bytes) = begun.into_parts();
        self.insert(name, Content { bytes })
    }
}

// What comes after so many bytes.
fn rest(bytes: &[u8], from: u64) -> &[u8]
    ensures { result.now ≡ drop from bytes.now }
{
    match bytes.get(from as usize..) {
        Some(rest) => rest,
        None => &[],
    }
}

// The first bytes, at most so many.
#[tactic(auto, using(crate::proofs::FileLemmas::take_whole))]
fn first(bytes: &[u8], most: u64) -> &[u8]
    ensures first { result.now ≡ take most bytes.now }
    ensures within { length result.now ≤ most }
{
    if bytes.len() as u64 <= most {
        return bytes;
    }
    &bytes[..most as usize]
}

impl Store for MemoryStore {
    ghost use Rattle.osm_store.specs.Stores.{memory_state};

    ghost state = { memory_state };

    fn read(
        &mut self,
        alloc: Global,
        name: &str,
        limit: u64,
    ) -> Result<Option<Vec<u8>>, StoreError> {
        self.copy_of(alloc, name, limit)
    }

    fn read_prefix(
        &mut self,
        alloc: Global,
        name: &str,
        most: u64,
    ) -> Result<Option<Vec<u8>>, StoreError> {
        match self.copy_of_prefix(alloc, name, most) {
            Ok(found) => Ok(found),
            Err(WantOfMemory) => Err(StoreError::WantOfMemory),
        }
    }

    fn is_there(&mut self, name: &str) -> Result<bool, StoreError> {
        Ok(self.get(name).is_some())
    }

    fn write(&mut self, alloc: Global, name: &str, bytes: &[u8]) -> Result<(), StoreError> {
        match self.put(alloc, name, bytes) {
            Ok(()) => Ok(()),
            Err(WantOfMemory) => Err(StoreError::WantOfMemory),
        }
    }

    fn read_at(
        &mut self,
        alloc: Global,
        name: &str,
        from: u64,
        most: u64,
    ) -> Result<Option<Vec<u8>>, StoreError> {
        match self.copy_of_block(alloc, name, from, most) {
            Ok(found) => Ok(found),
            Err(WantOfMemory) => Err(StoreError::WantOfMemory),
        }
    }

    fn begin(&mut self, alloc: Global, name: &str) -> Result<(), StoreError> {
        match self.begin_new(alloc, name) {
            Ok(()) => Ok(()),
            Err(WantOfMemory) => Err(StoreError::WantOfMemory),
        }
    }

    fn append(&mut self, bytes: &[u8]) -> Result<(), StoreError> {
        match self.append_to_begun(bytes) {
            Ok(()) => Ok(()),
            Err(WantOfMemory) => Err(StoreError::WantOfMemory),
        }
    }

    fn commit(&mut self) -> Result<(), StoreError> {
        match self.put_begun() {
            Ok(()) => Ok(()),
            Err(WantOfMemory) => Err(StoreError::WantOfMemory),
        }
    }

    fn abandon(&mut self) {
        self.begun = None;
    }
}
