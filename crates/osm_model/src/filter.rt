//! Filters: which objects of a mirror an extract keeps, by kind and by the keys of tags, such as
//! the ways with a tag `highway` (Osmium manual, osmium-tags-filter).

ghost use Rattle.std.specs.Prelude.{◌≡◌, ◌<◌, ◌≤◌, ◌↔◌, ◌&&◌, true, false, length};
ghost use Rattle.std.specs.Prelude.{IfOk, IsErrOf, IsTrue, OnErr};
ghost use Rattle.std.specs.List.{list_any};
ghost use Rattle.osm_model.specs.Filter.{AreRising, IsFilter, chooses, everything, has_kind};
ghost use Rattle.osm_model.specs.Filter.{is_among, keeps, keeps_tags};
ghost use Rattle.osm_model.specs.FilterLaws.{DeletionsAreDropped, EverythingIsKept};
ghost use Rattle.osm_model.specs.FilterLaws.{EverythingIsLeft};
ghost use Rattle.osm_model.specs.FilterLaws.{ExtractsAreEnough, ExtractsAreKeptUp, FiltersAreTold};
ghost use Rattle.osm_model.specs.FilterLaws.{KeptAreObjects};
ghost use Rattle.osm_model.specs.Limits.{max_keys};
ghost use Rattle.osm_model.specs.Text.{bytes_cmp};

use crate::change::{Change, What};
use crate::flat::FlatTag;
use crate::kind::Kind;
use crate::limits::MAX_KEYS;
use crate::lists::{Parts, Tag};
use crate::memory::WantOfMemory;
use crate::text::Text;
use std::alloc::Global;
use std::cmp::Ordering;
use std::marker::Model;
use thiserror::Error;

/// Keeps the objects of the chosen kinds that have a tag with one of the keys, or all objects of
/// these kinds if there are no keys. There are at most 100 keys, rising by their bytes.
#[derive(Debug, Drop, PartialEq)]
pub struct Filter {
    nodes: bool,
    ways: bool,
    relations: bool,
    keys: Parts<Text>,
}

impl Model for Filter {
    ghost use Rattle.osm_model.specs.Filter.{FilterValue, IsFilter};

    ghost Value = { FilterValue };

    ghost view = { λ a. record {
      nodes = a.nodes;
      ways = a.ways;
      relations = a.relations;
      keys = a.keys;
    } };

    ghost invariant = { λ a. IsFilter (record {
      nodes = a.nodes;
      ways = a.ways;
      relations = a.relations;
      keys = a.keys;
    }) };

    ghost inverse = { λ f. record {
      nodes = f.nodes;
      ways = f.ways;
      relations = f.relations;
      keys = f.keys;
    } };
}

/// Why a filter was refused; the keys passed in are dropped.
#[derive(Clone, Copy, Debug, PartialEq, Eq, Error)]
pub enum FilterError {
    /// No kind is chosen.
    #[error("NoKind")]
    NoKind,
    /// There are more than 100 keys.
    #[error("TooManyKeys")]
    TooManyKeys,
    /// A key isn't above the key before it, compared by bytes.
    #[error("Unsorted")]
    Unsorted,
}

impl Filter {
    /// The filter that keeps every object; takes no memory.
    pub fn all(alloc: Global) -> Filter
        ensures { result ≡ everything }
    {
        Filter {
            nodes: true,
            ways: true,
            relations: true,
            keys: Parts::new(alloc),
        }
    }

    /// The filter of the given kinds and keys. Refuses a filter without kinds, more than 100 keys,
    /// and keys that don't rise by their bytes. Takes no memory.
    pub fn new(
        nodes: bool,
        ways: bool,
        relations: bool,
        keys: Vec<Text>,
    ) -> Result<Filter, FilterError>
        ensures no_kind { IsErrOf result FilterError.NoKind
            ↔ (has_kind nodes ways relations ≡ false) }
        ensures too_many_keys { IsErrOf result FilterError.TooManyKeys
            ↔ ((has_kind nodes ways relations ≡ true) × (max_keys < length keys.items)) }
        ensures unsorted { IsErrOf result FilterError.Unsorted
            ↔ ((has_kind nodes ways relations ≡ true) × (length keys.items ≤ max_keys)
            × ¬ AreRising keys.items) }
        ensures value { IfOk result (λ f. f ≡ record {
          nodes = nodes;
          ways = ways;
          relations = relations;
          keys = keys.items;
        }) }
    {
        if !nodes && !ways && !relations {
            return Err(FilterError::NoKind);
        }
        let keys = Parts::from_vec(keys);
        if keys.as_slice().len() > MAX_KEYS {
            return Err(FilterError::TooManyKeys);
        }
        if !are_rising(keys.as_slice()) {
            return Err(FilterError::Unsorted);
        }
        Ok(Filter {
            nodes,
            ways,
            relations,
            keys,
        })
    }

    /// Whether a change leaves an object that the filter keeps; a deletion leaves no object. Takes
    /// no memory.
    // Inlined, since it is asked of each object that is read or written.
    #[inline(always)]
    #[tactic(auto, unfolding(crate::specs::Filter::keeps))]
    pub fn keeps(&self, change: &Change) -> bool
        ensures { result ≡ keeps self.now change.now }
    {
        change.limits();
        match change.what() {
            What::Node { tags, .. } => self.nodes && self.keeps_tags(tags.as_slice()),
            What::Way { tags, .. } => self.ways && self.keeps_tags(tags.as_slice()),
            What::Relation { tags, .. } => self.relations && self.keeps_tags(tags.as_slice()),
            What::Deleted => false,
        }
    }

    // Whether there are no keys, or one of the tags has one of them.
    fn keeps_tags(&self, tags: &[Tag]) -> bool
        ensures { result ≡ keeps_tags self.now.keys tags.now }
    {
        let keys = self.keys();
        keys.is_empty() || have_key_among(tags, keys)
    }

    /// Whether the filter keeps a node with the given tags. Takes no memory.
    #[inline(always)]
    pub fn keeps_node(&self, tags: &[FlatTag<'_>]) -> bool
        ensures { result ≡ (self.now.nodes && keeps_tags self.now.keys tags.now) }
    {
        let keys = self.keys();
        self.nodes && (keys.is_empty() || have_flat_key_among(tags, keys))
    }

    /// Tells the prover that the filter is within its limits; does nothing at run time.
    pub fn limits(&self)
        ensures { IsFilter self.now }
    {
        let _keys = self.keys();
    }

    /// Whether nodes are one of the chosen kinds.
    pub fn nodes(&self) -> bool
        ensures { result ≡ self.now.nodes }
    {
        self.nodes
    }

    /// Whether ways are one of the chosen kinds.
    pub fn ways(&self) -> bool
        ensures { result ≡ self.now.ways }
    {
        self.ways
    }

    /// Whether relations are one of the chosen kinds.
    pub fn relations(&self) -> bool
        ensures { result ≡ self.now.relations }
    {
        self.relations
    }

    /// Whether the given kind is one of the chosen kinds.
    pub fn chooses(&self, kind: Kind) -> bool
        ensures { result ≡ chooses self.now kind }
    {
        match kind {
            Kind::Node => self.nodes,
            Kind::Way => self.ways,
            Kind::Relation => self.relations,
        }
    }

    /// The keys, rising by their bytes. If there are no keys, tags make no difference.
    pub fn keys(&self) -> &[Text]
        ensures keys { result.now ≡ self.now.keys }
        ensures limits { IsFilter self.now }
    {
        self.keys.as_slice()
    }

    /// An equal filter, with memory of its own. Copying a filter without keys takes no memory.
    pub fn copy(&self, alloc: Global) -> Result<Filter, WantOfMemory>
        ensures ok { IfOk result (λ f. f ≡ self.now) }
        ensures refused { OnErr result (0 < length self.now.keys) }
    {
        let keys = self.keys.copy(alloc)?;
        Ok(Filter {
            nodes: self.nodes,
            ways: self.ways,
            relations: self.relations,
            keys,
        })
    }
}

/// Tells the prover that applying changes to an extract and filtering the result gives the extract
/// of the whole mirror with the same changes applied. Two filters are equal exactly if they choose
/// the same kinds and the same keys. The filter of all objects keeps every object that a change
/// leaves, and no filter keeps a deletion. Does nothing at run time.
pub fn laws_of_filters()
    ensures told { FiltersAreTold }
    ensures all { EverythingIsKept }
    ensures deletions { DeletionsAreDropped }
    ensures kept { KeptAreObjects }
    ensures left { EverythingIsLeft }
    ensures kept_up { ExtractsAreKeptUp }
    ensures enough { ExtractsAreEnough }
{}

// Whether each key is above the one before it.
fn are_rising(keys: &[Text]) -> bool
    ensures { IsTrue result ↔ AreRising keys.now }
{
    keys.is_sorted_by(|key, next| key < next)
}

// Whether one of the tags has one of the keys.
fn have_key_among(tags: &[Tag], keys: &[Text]) -> bool
    requires { AreRising keys.now }
    ensures { result ≡ list_any (λ t. is_among keys.now t.key) tags.now }
{
    tags.iter().any(|tag| is_among(keys, tag.key.as_str()))
}

// The same of tags that aren't owned.
fn have_flat_key_among(tags: &[FlatTag<'_>], keys: &[Text]) -> bool
    requires { AreRising keys.now }
    ensures { result ≡ list_any (λ t. is_among keys.now t.key) tags.now }
{
    tags.iter().any(|tag| is_among(keys, tag.key()))
}

// Whether a text is one of the keys.
fn is_among(keys: &[Text], text: &str) -> bool
    requires { AreRising keys.now }
    ensures { result ≡ is_among keys.now text.now }
{
    keys.binary_search_by(
        |key: &Text| -> Ordering
            ensures { result ≡ bytes_cmp key.now text.entry.now }
        { key.as_str().cmp(text) },
    )
    .is_ok()
}
