//! Who made a change, and when.

ghost use Rattle.std.specs.Prelude.{◌≡◌, ◌<◌, ◌↔◌, IsErr, IfOk, ◌⊎◌};
ghost use Rattle.osm_model.specs.Meta.{IsMeta};

use crate::memory::WantOfMemory;
use crate::text::Text;
use std::alloc::Global;
use std::marker::Model;
use thiserror::Error;

/// The metadata of a change. The time is in seconds since 1970-01-01T00:00:00Z.
#[derive(Debug, Drop, PartialEq)]
pub struct Meta {
    version: u32,
    time: u32,
    changeset: u32,
    uid: u32,
    user: Text,
}

impl Model for Meta {
    ghost use Rattle.osm_model.specs.Meta.{MetaValue, IsMeta};

    ghost Value = { MetaValue };

    ghost view = { λ a. record {
      version = a.version;
      time = a.time;
      changeset = a.changeset;
      uid = a.uid;
      user = a.user;
    } };

    ghost invariant = { λ a. IsMeta (record {
      version = a.version;
      time = a.time;
      changeset = a.changeset;
      uid = a.uid;
      user = a.user;
    }) };

    ghost inverse = { λ m. record {
      version = m.version;
      time = m.time;
      changeset = m.changeset;
      uid = m.uid;
      user = m.user;
    } };
}

/// A number of the metadata is 0.
#[derive(Clone, Copy, Debug, PartialEq, Eq, Error)]
#[error("OutOfRange")]
pub struct OutOfRange;

impl Meta {
    /// The metadata of the given numbers and user. Refused exactly if one of the four numbers is 0;
    /// the user is then dropped.
    // Inlined, so that the user is moved once.
    #[inline(always)]
    pub fn new(
        version: u32,
        time: u32,
        changeset: u32,
        uid: u32,
        user: Text,
    ) -> Result<Meta, OutOfRange>
        ensures refused { IsErr result
            ↔ ((version ≡ 0) ⊎ (time ≡ 0) ⊎ (changeset ≡ 0) ⊎ (uid ≡ 0)) }
        ensures value { IfOk result (λ m. m ≡ record {
          version = version;
          time = time;
          changeset = changeset;
          uid = uid;
          user = user;
        }) }
        ensures limits { IfOk result (λ m. IsMeta m) }
    {
        user.limits();
        if version == 0 || time == 0 || changeset == 0 || uid == 0 {
            return Err(OutOfRange);
        }
        Ok(Meta {
            version,
            time,
            changeset,
            uid,
            user,
        })
    }

    /// Tells the prover that the metadata are within their limits; does nothing at run time.
    pub fn limits(&self)
        ensures { IsMeta self.now }
    {
        let _version = self.version();
    }

    pub fn version(&self) -> u32
        ensures version { result ≡ self.now.version }
        ensures limits { IsMeta self.now }
    {
        self.version
    }

    /// The time, in seconds since 1970-01-01T00:00:00Z.
    pub fn time(&self) -> u32
        ensures { result ≡ self.now.time }
    {
        self.time
    }

    pub fn changeset(&self) -> u32
        ensures { result ≡ self.now.changeset }
    {
        self.changeset
    }

    /// The user's number.
    pub fn uid(&self) -> u32
        ensures { result ≡ self.now.uid }
    {
        self.uid
    }

    /// The user's name, which may be empty.
    pub fn user(&self) -> &Text
        ensures { result.now ≡ self.now.user }
    {
        &self.user
    }

    /// A copy, with memory of its own.
    pub fn copy(&self, alloc: Global) -> Result<Meta, WantOfMemory>
        ensures { IfOk result (λ m. m ≡ self.now) }
    {
        let user = self.user.copy(alloc)?;
        Ok(Meta {
            version: self.version,
            time: self.time,
            changeset: self.changeset,
            uid: self.uid,
            user,
        })
    }
}
