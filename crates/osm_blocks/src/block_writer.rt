//! A file that is written in blocks.

ghost use Rattle.std.specs.Prelude.{◌≡◌, ◌<◌, ℕ, ◌++◌, ◌∷◌, [], List, Some, false, true};
ghost use Rattle.std.specs.Prelude.{IfErr, IsTrue, OnOk};
ghost use Rattle.std.specs.Prelude.{length};
ghost use Rattle.osm_store.specs.Frames.{IsKnown, MakesAtMost};
ghost use Rattle.osm_blocks.specs.Calls.{puts_of};
ghost use Rattle.osm_blocks.specs.Frames.{IsDeviceFault, IsPlain, ReadsOften};
ghost use Rattle.osm_blocks.specs.Places.{max_block};
ghost use Rattle.osm_blocks.specs.Writing.{IsWritten};

use crate::fault::{BlockFault, fault_of};
use osm_store::store::Store;
use std::alloc::Global;
use std::marker::Model;

const BLOCK: usize = 1_048_576;

/// Collects the bytes of a file that was begun, and appends them in blocks. A dropping writer
/// writes nothing and drops the bytes.
#[derive(Drop)]
pub struct BlockWriter {
    buffer: Vec<u8>,
    is_writing: bool,
}

impl Model for BlockWriter {
    ghost use Rattle.osm_blocks.specs.Writing.{Waiting};

    ghost Value = { Waiting };

    ghost view = { λ a. record { bytes = a.buffer.items; is_writing = a.is_writing } };
}

impl BlockWriter {
    /// A writer with nothing to append; takes no memory.
    pub fn new(alloc: Global) -> BlockWriter
        ensures { result ≡ record { bytes = []; is_writing = true } }
    {
        BlockWriter {
            buffer: Vec::new(alloc),
            is_writing: true,
        }
    }

    /// A writer that drops all bytes; takes no memory.
    pub fn dropping(alloc: Global) -> BlockWriter
        ensures { result ≡ record { bytes = []; is_writing = false } }
    {
        BlockWriter {
            buffer: Vec::new(alloc),
            is_writing: false,
        }
    }

    /// Adds bytes at the end of the file that was begun. Afterwards less than a block waits to be
    /// appended.
    pub fn put<S: Store>(&mut self, store: &mut S, bytes: &[u8]) -> Result<(), BlockFault>
        ensures put { OnOk result (IsKnown (S.state store.old) → (name text : List ℕ)
            → IsWritten (S.state store.old).stage self.old name text
            → IsWritten (S.state store.new).stage self.new name (text ++ bytes.now)) }
        ensures refused { IfErr result IsPlain }
        ensures frame { ReadsOften IsDeviceFault (S.state store.old) (S.state store.new) result }
        ensures calls { MakesAtMost IsDeviceFault (puts_of self.old)
            (S.state store.old) (S.state store.new) result }
        ensures waits { OnOk result (IsTrue self.new.is_writing
            → length self.new.bytes < max_block) }
        ensures keeps { self.new.is_writing ≡ self.old.is_writing }
    {
        if !self.is_writing {
            return Ok(());
        }
        // A block or more needn't wait if nothing does, which spares a copy.
        if self.buffer.len() == 0 && bytes.len() >= BLOCK {
            match append(store, bytes) {
                Ok(()) => return Ok(()),
                Err(fault) => return Err(fault),
            }
        }
        self.buffer.extend_from_slice(bytes)?;
        self.flush_block(store)
    }

    /// Adds a line and its LF, as `put` does.
    pub fn put_line<S: Store>(&mut self, store: &mut S, line: &[u8]) -> Result<(), BlockFault>
        ensures put { OnOk result (IsKnown (S.state store.old) → (name text : List ℕ)
            → IsWritten (S.state store.old).stage self.old name text
            → IsWritten (S.state store.new).stage self.new name (text ++ (line.now ++ 10 ∷ []))) }
        ensures refused { IfErr result IsPlain }
        ensures frame { ReadsOften IsDeviceFault (S.state store.old) (S.state store.new) result }
        ensures calls { MakesAtMost IsDeviceFault (puts_of self.old)
            (S.state store.old) (S.state store.new) result }
        ensures waits { OnOk result (IsTrue self.new.is_writing
            → length self.new.bytes < max_block) }
        ensures keeps { self.new.is_writing ≡ self.old.is_writing }
    {
        if !self.is_writing {
            return Ok(());
        }
        self.buffer.extend_from_slice(line)?;
        self.buffer.push(b'\n')?;
        self.flush_block(store)
    }

    // Appends what waits if that is a block.
    fn flush_block<S: Store>(&mut self, store: &mut S) -> Result<(), BlockFault>
        ensures flushed { OnOk result (IsKnown (S.state store.old) → (name text : List ℕ)
            → IsWritten (S.state store.old).stage self.old name text
            → IsWritten (S.state store.new).stage self.new name text) }
        ensures refused { IfErr result IsPlain }
        ensures frame { ReadsOften IsDeviceFault (S.state store.old) (S.state store.new) result }
        ensures calls { MakesAtMost IsDeviceFault 1 (S.state store.old) (S.state store.new) result }
        ensures waits { OnOk result (length self.new.bytes < max_block) }
        ensures keeps { self.new.is_writing ≡ self.old.is_writing }
    {
        if self.buffer.len() < BLOCK {
            return Ok(());
        }
        self.flush(store)
    }

    /// Appends the waiting bytes to the file that was begun.
    pub fn flush<S: Store>(&mut self, store: &mut S) -> Result<(), BlockFault>
        ensures flushed { OnOk result (IsKnown (S.state store.old) → (name text : List ℕ)
            → IsWritten (S.state store.old).stage self.old name text
            → IsWritten (S.state store.new).stage self.new name text) }
        ensures empty { OnOk result (self.new.bytes ≡ []) }
        ensures refused { IfErr result IsPlain }
        ensures frame { ReadsOften IsDeviceFault (S.state store.old) (S.state store.new) result }
        ensures calls { MakesAtMost IsDeviceFault 1 (S.state store.old) (S.state store.new) result }
        ensures keeps { self.new.is_writing ≡ self.old.is_writing }
    {
        match append(store, self.buffer.as_slice()) {
            Ok(()) => {
                self.buffer.clear();
                Ok(())
            }
            Err(fault) => Err(fault),
        }
    }
}

// Appends bytes to the file that was begun.
fn append<S: Store>(store: &mut S, bytes: &[u8]) -> Result<(), BlockFault>
    ensures appended { OnOk result (IsKnown (S.state store.old) → (name text : List ℕ)
        → (S.state store.old).stage ≡ Some (name, text)
        → (S.state store.new).stage ≡ Some (name, text ++ bytes.now)) }
    ensures refused { IfErr result IsPlain }
    ensures frame { ReadsOften IsDeviceFault (S.state store.old) (S.state store.new) result }
    ensures calls { MakesAtMost IsDeviceFault 1 (S.state store.old) (S.state store.new) result }
{
    match store.append(bytes) {
        Ok(()) => Ok(()),
        Err(error) => Err(fault_of(error)),
    }
}
