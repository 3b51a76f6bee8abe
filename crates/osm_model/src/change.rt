//! One change of one object.

ghost use Rattle.std.specs.Prelude.{◌≡◌, ◌<◌, ◌↔◌, length, IfOk, IsErrOf, IsTrue, OnErr, Some};
ghost use Rattle.std.specs.Prelude.{None};
ghost use Rattle.std.specs.List.{AllByRecursion};
ghost use Rattle.osm_model.specs.Limits.{IsId, IsLocation, max_tags, max_refs};
ghost use Rattle.osm_model.specs.Change.{IsChange, IsWhat, HasMemberId};
ghost use Rattle.osm_model.specs.Content.{object_after};
ghost use Rattle.osm_model.specs.Steps.Parts.{HasParts};

use crate::kind::{Key, Kind};
use crate::limits::{MAX_ID, MAX_LAT, MAX_LON, MAX_REFS, MAX_TAGS};
use crate::lists::{Member, Members, Refs, Tags};
use crate::memory::WantOfMemory;
use crate::meta::Meta;
use std::alloc::Global;
use std::marker::Model;
use thiserror::Error;

/// What an object is after a change. A location is in units of 10^-7 degree.
#[derive(Debug, Drop, PartialEq)]
pub enum What {
    Node { lon: i32, lat: i32, tags: Tags },
    Way { refs: Refs, tags: Tags },
    Relation { members: Members, tags: Tags },
    Deleted,
}

impl What {
    // Whether a list has much unused room.
    #[inline(always)]
    fn has_spare(&self) -> bool {
        match self {
            What::Node { tags, .. } => tags.has_spare(),
            What::Way { refs, tags } => refs.has_spare() || tags.has_spare(),
            What::Relation { members, tags } => members.has_spare() || tags.has_spare(),
            What::Deleted => false,
        }
    }

    // The same, with little unused room in its lists.
    #[inline(never)]
    fn fitted(self) -> What
        ensures { result ≡ self }
    {
        match self {
            What::Node { lon, lat, tags } => What::Node {
                lon,
                lat,
                tags: tags.fitted(),
            },
            What::Way { refs, tags } => What::Way {
                refs: refs.fitted(),
                tags: tags.fitted(),
            },
            What::Relation { members, tags } => What::Relation {
                members: members.fitted(),
                tags: tags.fitted(),
            },
            What::Deleted => What::Deleted,
        }
    }

    fn copy(&self, alloc: Global) -> Result<What, WantOfMemory>
        ensures ok { IfOk result (λ w. w ≡ self.now) }
        ensures refused { OnErr result (HasParts self.now) }
    {
        match self {
            What::Node { lon, lat, tags } => Ok(What::Node {
                lon: *lon,
                lat: *lat,
                tags: tags.copy(alloc)?,
            }),
            What::Way { refs, tags } => Ok(What::Way {
                refs: refs.copy(alloc)?,
                tags: tags.copy(alloc)?,
            }),
            What::Relation { members, tags } => Ok(What::Relation {
                members: members.copy(alloc)?,
                tags: tags.copy(alloc)?,
            }),
            What::Deleted => Ok(What::Deleted),
        }
    }
}

/// One change of one object: who made it and when, and what the object is from then on.
#[derive(Debug, Drop, PartialEq)]
pub struct Change {
    key: Key,
    meta: Meta,
    what: What,
}

impl Model for Change {
    ghost use Rattle.osm_model.specs.Change.{ChangeValue, IsChange};

    ghost Value = { ChangeValue };

    ghost view = { λ a. record { key = a.key; meta = a.meta; what = a.what } };

    ghost invariant = { λ a. IsChange (record { key = a.key; meta = a.meta; what = a.what }) };

    ghost inverse = { λ c. record { key = c.key; meta = c.meta; what = c.what } };
}

/// Why a change was refused; the parts of the change are dropped.
#[derive(Clone, Copy, Debug, PartialEq, Eq, Error)]
pub enum ChangeError {
    /// The id, the location, or the id of a node or a member is outside its limits.
    #[error("OutOfRange")]
    OutOfRange,
    /// There are more than 5,000 tags.
    #[error("TooManyTags")]
    TooManyTags,
    /// There are more than 32,000 nodes or members.
    #[error("TooManyRefs")]
    TooManyRefs,
}

fn is_id(id: i64) -> bool
    ensures { IsTrue result ↔ IsId id }
{
    -MAX_ID <= id && id <= MAX_ID
}

fn are_ids(ids: &[i64]) -> bool
    ensures { IsTrue result ↔ AllByRecursion IsId ids.now }
{
    for id in ids {
        if !is_id(*id) {
            return false;
        }
    }
    true
}

fn have_ids(members: &[Member]) -> bool
    ensures { IsTrue result ↔ AllByRecursion HasMemberId members.now }
{
    for member in members {
        if !is_id(member.key.id) {
            return false;
        }
    }
    true
}

fn is_location(lon: i32, lat: i32) -> bool
    ensures { IsTrue result ↔ IsLocation lon lat }
{
    -MAX_LON <= lon && lon <= MAX_LON && -MAX_LAT <= lat && lat <= MAX_LAT
}

impl Change {
    /// The change that leaves a node at the given location, in units of 10^-7 degree. Refuses an id
    /// or a location outside its limits, and more than 5,000 tags.
    pub fn node(id: i64, meta: Meta, lon: i32, lat: i32, tags: Tags) -> Result<Change, ChangeError>
        ensures out_of_range { IsErrOf result ChangeError.OutOfRange
            ↔ ¬ (IsId id × IsLocation lon lat) }
        ensures too_many_tags { IsErrOf result ChangeError.TooManyTags
            ↔ (IsId id × IsLocation lon lat × (max_tags < length tags)) }
        ensures never { ¬ IsErrOf result ChangeError.TooManyRefs }
        ensures value { IfOk result (λ c. c ≡ record {
          key = record { kind = Kind.Node; id = id };
          meta = meta;
          what = What.Node lon lat tags;
        }) }
    {
        meta.limits();
        if !is_id(id) || !is_location(lon, lat) {
            return Err(ChangeError::OutOfRange);
        }
        if tags.as_slice().len() > MAX_TAGS {
            return Err(ChangeError::TooManyTags);
        }
        Ok(Change {
            key: Key {
                kind: Kind::Node,
                id,
            },
            meta,
            what: What::Node { lon, lat, tags },
        })
    }

    /// The change that leaves a way along the given nodes. Refuses an id or a reference outside its
    /// limits, more than 5,000 tags, and more than 32,000 nodes.
    pub fn way(id: i64, meta: Meta, refs: Refs, tags: Tags) -> Result<Change, ChangeError>
        ensures out_of_range { IsErrOf result ChangeError.OutOfRange
            ↔ ¬ (IsId id × AllByRecursion IsId refs) }
        ensures too_many_tags { IsErrOf result ChangeError.TooManyTags
            ↔ (IsId id × AllByRecursion IsId refs × (max_tags < length tags)) }
        ensures too_many_refs { IsErrOf result ChangeError.TooManyRefs
            ↔ (IsId id × AllByRecursion IsId refs × ¬ (max_tags < length tags)
            × (max_refs < length refs)) }
        ensures value { IfOk result (λ c. c ≡ record {
          key = record { kind = Kind.Way; id = id };
          meta = meta;
          what = What.Way refs tags;
        }) }
    {
        meta.limits();
        if !is_id(id) || !are_ids(refs.as_slice()) {
            return Err(ChangeError::OutOfRange);
        }
        if tags.as_slice().len() > MAX_TAGS {
            return Err(ChangeError::TooManyTags);
        }
        if refs.as_slice().len() > MAX_REFS {
            return Err(ChangeError::TooManyRefs);
        }
        Ok(Change {
            key: Key {
                kind: Kind::Way,
                id,
            },
            meta,
            what: What::Way { refs, tags },
        })
    }

    /// The change that leaves a relation of the given members. Refuses an id outside its limits,
    /// also that of a member, more than 5,000 tags, and more than 32,000 members.
    pub fn relation(
        id: i64,
        meta: Meta,
        members: Members,
        tags: Tags,
    ) -> Result<Change, ChangeError>
        ensures out_of_range { IsErrOf result ChangeError.OutOfRange
            ↔ ¬ (IsId id × AllByRecursion HasMemberId members) }
        ensures too_many_tags { IsErrOf result ChangeError.TooManyTags
            ↔ (IsId id × AllByRecursion HasMemberId members × (max_tags < length tags)) }
        ensures too_many_refs { IsErrOf result ChangeError.TooManyRefs
            ↔ (IsId id × AllByRecursion HasMemberId members × ¬ (max_tags < length tags)
            × (max_refs < length members)) }
        ensures value { IfOk result (λ c. c ≡ record {
          key = record { kind = Kind.Relation; id = id };
          meta = meta;
          what = What.Relation members tags;
        }) }
    {
        meta.limits();
        if !is_id(id) || !have_ids(members.as_slice()) {
            return Err(ChangeError::OutOfRange);
        }
        if tags.as_slice().len() > MAX_TAGS {
            return Err(ChangeError::TooManyTags);
        }
        if members.as_slice().len() > MAX_REFS {
            return Err(ChangeError::TooManyRefs);
        }
        Ok(Change {
            key: Key {
                kind: Kind::Relation,
                id,
            },
            meta,
            what: What::Relation { members, tags },
        })
    }

    /// The change that deletes the object with the given key; refuses an id outside its limits.
    pub fn deleted(key: Key, meta: Meta) -> Result<Change, ChangeError>
        ensures out_of_range { IsErrOf result ChangeError.OutOfRange ↔ ¬ IsId key.id }
        ensures never { ¬ IsErrOf result ChangeError.TooManyTags
            × ¬ IsErrOf result ChangeError.TooManyRefs }
        ensures value { IfOk result (λ c.
            c ≡ record { key = key; meta = meta; what = What.Deleted }) }
    {
        meta.limits();
        if !is_id(key.id) {
            return Err(ChangeError::OutOfRange);
        }
        Ok(Change {
            key,
            meta,
            what: What::Deleted,
        })
    }

    /// The change with the given parts, which the caller has checked against the limits.
    // Inlined, so that the parts are moved once: nearly all lists fit.
    #[inline(always)]
    pub fn within_limits(key: Key, meta: Meta, what: What) -> Change
        requires { IsId key.id × IsWhat key.kind what }
        ensures { result ≡ record { key = key; meta = meta; what = what } }
    {
        meta.limits();
        if what.has_spare() {
            let what = what.fitted();
            return Change { key, meta, what };
        }
        Change { key, meta, what }
    }

    /// Tells the prover that the change is within its limits; does nothing at run time.
    pub fn limits(&self)
        ensures { IsChange self.now }
    {
        let _key = self.key();
    }

    pub fn key(&self) -> Key
        ensures key { result ≡ self.now.key }
        ensures limits { IsChange self.now }
    {
        self.key
    }

    pub fn meta(&self) -> &Meta
        ensures { result.now ≡ self.now.meta }
    {
        &self.meta
    }

    /// Whether the change is a deletion, which leaves nothing of the object.
    pub fn is_deletion(&self) -> bool
        ensures deletion { IsTrue result → object_after self.now ≡ None }
        ensures other { ¬ IsTrue result → object_after self.now ≡ Some self.now }
    {
        matches!(self.what, What::Deleted)
    }

    pub fn what(&self) -> &What
        ensures { result.now ≡ self.now.what }
    {
        &self.what
    }

    /// A copy, with memory of its own.
    pub fn copy(&self, alloc: Global) -> Result<Change, WantOfMemory>
        ensures { IfOk result (λ c. c ≡ self.now) }
    {
        let meta = self.meta.copy(alloc)?;
        let what = self.what.copy(alloc)?;
        Ok(Change {
            key: self.key,
            meta,
            what,
        })
    }
}
