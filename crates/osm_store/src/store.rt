//! Files behind a trait.

ghost use Rattle.std.specs.Prelude.{◌≡◌, ◌++◌, ℕ, List, [], Some, None, IfErr, IfOk, OnOk, is_some};
ghost use Rattle.osm_store.specs.Files.{IsWithin, NeverTooLarge, Puts, ReadStops, Tells};
ghost use Rattle.osm_store.specs.Files.{block_of, prefix_of};
ghost use Rattle.osm_store.specs.Frames.{Abandons, IsDevice, IsKnown, ReadsBetween};
ghost use Rattle.osm_store.specs.Frames.{ReplacesBetween, StoreState};

use std::alloc::Global;
use thiserror::Error;

/// Why a file wasn't read or written.
#[derive(Clone, Copy, Debug, PartialEq, Eq, Error)]
pub enum StoreError {
    /// The device failed.
    #[error("Device")]
    Device,
    /// The file has more bytes than were asked for.
    #[error("TooLarge")]
    TooLarge,
    /// Memory was refused.
    #[error("WantOfMemory")]
    WantOfMemory,
}

/// Files by their names.
///
/// Contracts see how often the device failed, and may see what the files hold: they do for a store
/// in memory, and don't for a disk. A file is replaced at once by `write`, or in parts by `begin`,
/// calls of `append`, and `commit`. Only the commit changes what the files hold.
pub trait Store {
    /// What contracts see of the store. A killed run is a run over a store that stops. If the
    /// contents of the files are known, the device fails only when no call is left.
    ghost state: { Self → StoreState };

    /// Reads all bytes of a file, or gives `TooLarge` if there are more than `limit`. None if there
    /// is no such file.
    fn read(&mut self, alloc: Global, name: &str, limit: u64) -> Result<Option<Vec<u8>>, StoreError>
        ensures read { IfOk result
            (λ o. IsKnown (state self.old) → Tells o ((state self.old).files name.now)) }
        ensures within { IfOk result (λ o. IsWithin limit o) }
        ensures refused { IfErr result
            (ReadStops (IsKnown (state self.old)) limit ((state self.old).files name.now)) }
        ensures frame { ReadsBetween IsDevice 1 1 (state self.old) (state self.new) result };

    /// Reads the first bytes of a file, at most `most`, or the whole file if it has fewer. None if
    /// there is no such file.
    fn read_prefix(
        &mut self,
        alloc: Global,
        name: &str,
        most: u64,
    ) -> Result<Option<Vec<u8>>, StoreError>
        ensures read { IfOk result (λ o. IsKnown (state self.old)
            → Tells o (prefix_of most ((state self.old).files name.now))) }
        ensures within { IfOk result (λ o. IsWithin most o) }
        ensures refused { IfErr result NeverTooLarge }
        ensures frame { ReadsBetween IsDevice 1 1 (state self.old) (state self.new) result };

    /// Whether there is a file or a folder of the given name, which isn't opened. Links are
    /// followed. A name that isn't found is absent, and so is a name in a folder that isn't there.
    fn is_there(&mut self, name: &str) -> Result<bool, StoreError>
        ensures there { IfOk result (λ is_there. IsKnown (state self.old)
            → is_there ≡ is_some ((state self.old).files name.now)) }
        ensures refused { IfErr result NeverTooLarge }
        ensures frame { ReadsBetween IsDevice 1 1 (state self.old) (state self.new) result };

    /// Replaces the whole file with the bytes, and makes the folders that the file needs.
    fn write(&mut self, alloc: Global, name: &str, bytes: &[u8]) -> Result<(), StoreError>
        ensures written { OnOk result (IsKnown (state self.old)
            → Puts (state self.old).files name.now (Some bytes.now) (state self.new).files) }
        ensures refused { IfErr result NeverTooLarge }
        ensures frame { ReplacesBetween IsDevice 1 1 (state self.old) (state self.new) result };

    /// Reads at most `most` bytes of a file, from the place `from` on. There are fewer bytes only
    /// at the end of the file, and none at or past its end. None if there is no such file.
    fn read_at(
        &mut self,
        alloc: Global,
        name: &str,
        from: u64,
        most: u64,
    ) -> Result<Option<Vec<u8>>, StoreError>
        ensures read { IfOk result (λ o. IsKnown (state self.old)
            → Tells o (block_of from most ((state self.old).files name.now))) }
        ensures within { IfOk result (λ o. IsWithin most o) }
        ensures refused { IfErr result NeverTooLarge }
        ensures stage { (state self.new).stage ≡ (state self.old).stage }
        ensures frame { ReadsBetween IsDevice 1 1 (state self.old) (state self.new) result };

    /// Begins a new file, which will replace the file of the given name, and makes the folders that
    /// the new file needs. A file that was begun before is dropped.
    fn begin(&mut self, alloc: Global, name: &str) -> Result<(), StoreError>
        ensures begun { OnOk result (IsKnown (state self.old)
            → (state self.new).stage ≡ Some (name.now, [])) }
        ensures refused { IfErr result NeverTooLarge }
        ensures frame { ReadsBetween IsDevice 1 1 (state self.old) (state self.new) result };

    /// Appends to the file that was begun; does nothing if no file was begun.
    fn append(&mut self, bytes: &[u8]) -> Result<(), StoreError>
        ensures appended { OnOk result (IsKnown (state self.old) → (name text : List ℕ)
            → (state self.old).stage ≡ Some (name, text)
            → (state self.new).stage ≡ Some (name, text ++ bytes.now)) }
        ensures nothing { OnOk result (IsKnown (state self.old) → (state self.old).stage ≡ None
            → (state self.new).stage ≡ None) }
        ensures refused { IfErr result NeverTooLarge }
        ensures frame { ReadsBetween IsDevice 1 1 (state self.old) (state self.new) result };

    /// Replaces the whole file with the file that was begun; does nothing if no file was begun.
    /// Afterwards no file is begun.
    fn commit(&mut self) -> Result<(), StoreError>
        ensures put { OnOk result (IsKnown (state self.old) → (name text : List ℕ)
            → (state self.old).stage ≡ Some (name, text)
            → Puts (state self.old).files name (Some text) (state self.new).files) }
        ensures nothing { OnOk result (IsKnown (state self.old) → (state self.old).stage ≡ None
            → (state self.new).files ≡ (state self.old).files) }
        ensures ended { OnOk result (IsKnown (state self.old) → (state self.new).stage ≡ None) }
        ensures refused { IfErr result NeverTooLarge }
        ensures frame { ReplacesBetween IsDevice 1 1 (state self.old) (state self.new) result };

    /// Drops the file that was begun, if there is one. This isn't a call of the device, so a store
    /// that refuses every call drops the file too.
    fn abandon(&mut self)
        ensures { Abandons (state self.old) (state self.new) };
}
