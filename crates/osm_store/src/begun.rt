//! A file of a store in memory that is being written.

ghost use Rattle.std.specs.Prelude.{◌≡◌, ◌++◌, [], IfOk, OnOk, string_bytes};
ghost use Rattle.osm_store.specs.Files.{Stage};

use osm_model::memory::WantOfMemory;
use std::alloc::Global;
use std::marker::Model;

/// A file that was begun.
#[derive(Debug, Drop)]
pub struct Begun {
    name: String,
    bytes: Vec<u8>,
}

impl Model for Begun {
    ghost Value = { Stage };

    ghost view = { λ begun. (string_bytes begun.name, begun.bytes.items) };
}

impl Begun {
    /// A file of the given name, with no bytes.
    pub fn new(alloc: Global, name: &str) -> Result<Begun, WantOfMemory>
        ensures { IfOk result (λ begun. begun ≡ (name.now, [])) }
    {
        let name = String::from_str(alloc, name)?;
        let bytes = Vec::new(alloc);
        Ok(Begun { name, bytes })
    }

    /// Appends bytes to the file.
    pub fn append(&mut self, bytes: &[u8]) -> Result<(), WantOfMemory>
        ensures { OnOk result (self.new ≡ (self.old.0, self.old.1 ++ bytes.now)) }
    {
        self.bytes.extend_from_slice(bytes)?;
        Ok(())
    }

    /// The name and the bytes of the file.
    pub fn into_parts(self) -> (String, Vec<u8>)
        ensures { self ≡ (string_bytes result.0, result.1.items) }
    {
        (self.name, self.bytes)
    }
}
