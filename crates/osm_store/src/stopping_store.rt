//! A store that stops after a number of calls, as a killed process does.

ghost use Rattle.std.specs.Prelude.{◌≡◌, ◌+◌, ◌≤◌, ◌++◌, ℕ, List, [], Some, None, OnOk, OnErr};
ghost use Rattle.std.specs.Prelude.{IfErr, IfOk, is_some};
ghost use Rattle.osm_store.specs.Files.{HasFailed, IsWithin, NeverTooLarge, Puts, ReadStops};
ghost use Rattle.osm_store.specs.Files.{Tells, block_of, prefix_of};
ghost use Rattle.osm_store.specs.Frames.{Abandons, IsDevice, IsKnown, ReadsBetween};
ghost use Rattle.osm_store.specs.Frames.{ReplacesBetween};
ghost use Rattle.osm_store.specs.Stores.{IsStopped, stopping_state};

use crate::store::{Store, StoreError};
use std::alloc::Global;

/// Passes a number of calls on to another store, and refuses every call after them.
#[derive(Debug, Drop)]
pub struct StoppingStore<S: Store> {
    inner: S,
    calls: u64,
    refused: u64,
}

impl<S: Store> StoppingStore<S> {
    ghost use Rattle.osm_store.specs.Stores.{inner_of, calls_of};

    pub fn new(inner: S, calls: u64) -> StoppingStore<S>
        ensures inner { inner_of result ≡ inner }
        ensures calls { calls_of result ≡ calls }
    {
        StoppingStore {
            inner,
            calls,
            refused: 0,
        }
    }

    /// How many more calls the store passes on.
    pub fn calls(&self) -> u64
        ensures { result ≡ calls_of self.now }
    {
        self.calls
    }

    /// The store to which the calls were passed on.
    pub fn into_inner(self) -> S
        ensures { result ≡ inner_of self }
    {
        self.inner
    }
}

// Counts one call less, or one refusal more.
fn spend(calls: &mut u64, refused: &mut u64) -> Result<(), StoreError>
    ensures left { OnOk result (calls.new + 1 ≡ calls.old) }
    ensures same { OnOk result (refused.new ≡ refused.old) }
    ensures none { OnErr result (calls.old ≡ 0) }
    ensures none_after { OnErr result (calls.new ≡ 0) }
    ensures kept { refused.old ≤ refused.new }
    ensures failed { IfErr result (λ e. e ≡ StoreError.Device) }
    ensures counted { OnErr result (HasFailed refused.old refused.new) }
{
    if *calls == 0 {
        *refused = refused.saturating_add(1);
        return Err(StoreError::Device);
    }
    *calls -= 1;
    Ok(())
}

impl<S: Store> Store for StoppingStore<S> {
    ghost state = { stopping_state S.Store.state };

    fn read(&mut self, alloc: Global, name: &str, limit: u64) -> Result<Option<Vec<u8>>, StoreError>
        ensures read { IfOk result (λ o. IsKnown (S.Store.state self.old.inner)
            → Tells o ((S.Store.state self.old.inner).files name.now)) }
        ensures within { IfOk result (IsWithin limit) }
        ensures refused { IfErr result (ReadStops (IsKnown (S.Store.state self.old.inner)) limit
            ((S.Store.state self.old.inner).files name.now)) }
        ensures stopped { IfErr result (IsStopped self.old.calls
            (S.Store.state self.old.inner) (S.Store.state self.new.inner)) }
        ensures frame { ReadsBetween IsDevice 1 1
            (stopping_state S.Store.state self.old) (stopping_state S.Store.state self.new) result }
    {
        spend(&mut self.calls, &mut self.refused)?;
        self.inner.read(alloc, name, limit)
    }

    fn read_prefix(
        &mut self,
        alloc: Global,
        name: &str,
        most: u64,
    ) -> Result<Option<Vec<u8>>, StoreError>
        ensures read { IfOk result (λ o. IsKnown (S.Store.state self.old.inner)
            → Tells o (prefix_of most ((S.Store.state self.old.inner).files name.now))) }
        ensures within { IfOk result (IsWithin most) }
        ensures refused { IfErr result NeverTooLarge }
        ensures stopped { IfErr result (IsStopped self.old.calls
            (S.Store.state self.old.inner) (S.Store.state self.new.inner)) }
        ensures frame { ReadsBetween IsDevice 1 1
            (stopping_state S.Store.state self.old) (stopping_state S.Store.state self.new) result }
    {
        spend(&mut self.calls, &mut self.refused)?;
        self.inner.read_prefix(alloc, name, most)
    }

    fn is_there(&mut self, name: &str) -> Result<bool, StoreError>
        ensures there { IfOk result (λ is_there. IsKnown (S.Store.state self.old.inner)
            → is_there ≡ is_some ((S.Store.state self.old.inner).files name.now)) }
        ensures refused { IfErr result NeverTooLarge }
        ensures stopped { IfErr result (IsStopped self.old.calls
            (S.Store.state self.old.inner) (S.Store.state self.new.inner)) }
        ensures frame { ReadsBetween IsDevice 1 1
            (stopping_state S.Store.state self.old) (stopping_state S.Store.state self.new) result }
    {
        spend(&mut self.calls, &mut self.refused)?;
        self.inner.is_there(name)
    }

    fn write(&mut self, alloc: Global, name: &str, bytes: &[u8]) -> Result<(), StoreError>
        ensures written { OnOk result (IsKnown (S.Store.state self.old.inner)
            → Puts (S.Store.state self.old.inner).files name.now (Some bytes.now)
            (S.Store.state self.new.inner).files) }
        ensures refused { IfErr result NeverTooLarge }
        ensures stopped { IfErr result (IsStopped self.old.calls
            (S.Store.state self.old.inner) (S.Store.state self.new.inner)) }
        ensures frame { ReplacesBetween IsDevice 1 1
            (stopping_state S.Store.state self.old) (stopping_state S.Store.state self.new) result }
    {
        spend(&mut self.calls, &mut self.refused)?;
        self.inner.write(alloc, name, bytes)
    }

    fn read_at(
        &mut self,
        alloc: Global,
        name: &str,
        from: u64,
        most: u64,
    ) -> Result<Option<Vec<u8>>, StoreError>
        ensures read { IfOk result (λ o. IsKnown (S.Store.state self.old.inner)
            → Tells o (block_of from most ((S.Store.state self.old.inner).files name.now))) }
        ensures within { IfOk result (IsWithin most) }
        ensures refused { IfErr result NeverTooLarge }
        ensures stopped { IfErr result (IsStopped self.old.calls
            (S.Store.state self.old.inner) (S.Store.state self.new.inner)) }
        ensures stage { (S.Store.state self.new.inner).stage
            ≡ (S.Store.state self.old.inner).stage }
        ensures frame { ReadsBetween IsDevice 1 1
            (stopping_state S.Store.state self.old) (stopping_state S.Store.state self.new) result }
    {
        spend(&mut self.calls, &mut self.refused)?;
        self.inner.read_at(alloc, name, from, most)
    }

    fn begin(&mut self, alloc: Global, name: &str) -> Result<(), StoreError>
        ensures begun { OnOk result (IsKnown (S.Store.state self.old.inner)
            → (S.Store.state self.new.inner).stage ≡ Some (name.now, [])) }
        ensures refused { IfErr result NeverTooLarge }
        ensures stopped { IfErr result (IsStopped self.old.calls
            (S.Store.state self.old.inner) (S.Store.state self.new.inner)) }
        ensures frame { ReadsBetween IsDevice 1 1
            (stopping_state S.Store.state self.old) (stopping_state S.Store.state self.new) result }
    {
        spend(&mut self.calls, &mut self.refused)?;
        self.inner.begin(alloc, name)
    }

    fn append(&mut self, bytes: &[u8]) -> Result<(), StoreError>
        ensures appended { OnOk result (IsKnown (S.Store.state self.old.inner)
            → (name text : List ℕ) → (S.Store.state self.old.inner).stage ≡ Some (name, text)
            → (S.Store.state self.new.inner).stage ≡ Some (name, text ++ bytes.now)) }
        ensures nothing { OnOk result (IsKnown (S.Store.state self.old.inner)
            → (S.Store.state self.old.inner).stage ≡ None
            → (S.Store.state self.new.inner).stage ≡ None) }
        ensures refused { IfErr result NeverTooLarge }
        ensures stopped { IfErr result (IsStopped self.old.calls
            (S.Store.state self.old.inner) (S.Store.state self.new.inner)) }
        ensures frame { ReadsBetween IsDevice 1 1
            (stopping_state S.Store.state self.old) (stopping_state S.Store.state self.new) result }
    {
        spend(&mut self.calls, &mut self.refused)?;
        self.inner.append(bytes)
    }

    fn commit(&mut self) -> Result<(), StoreError>
        ensures put { OnOk result (IsKnown (S.Store.state self.old.inner)
            → (name text : List ℕ) → (S.Store.state self.old.inner).stage ≡ Some (name, text)
            → Puts (S.Store.state self.old.inner).files name (Some text)
            (S.Store.state self.new.inner).files) }
        ensures nothing { OnOk result (IsKnown (S.Store.state self.old.inner)
            → (S.Store.state self.old.inner).stage ≡ None
            → (S.Store.state self.new.inner).files ≡ (S.Store.state self.old.inner).files) }
        ensures ended { OnOk result (IsKnown (S.Store.state self.old.inner)
            → (S.Store.state self.new.inner).stage ≡ None) }
        ensures refused { IfErr result NeverTooLarge }
        ensures stopped { IfErr result (IsStopped self.old.calls
            (S.Store.state self.old.inner) (S.Store.state self.new.inner)) }
        ensures frame { ReplacesBetween IsDevice 1 1
            (stopping_state S.Store.state self.old) (stopping_state S.Store.state self.new) result }
    {
        spend(&mut self.calls, &mut self.refused)?;
        self.inner.commit()
    }

    fn abandon(&mut self)
        ensures { Abandons
            (stopping_state S.Store.state self.old) (stopping_state S.Store.state self.new) }
    {
        self.inner.abandon();
    }
}
