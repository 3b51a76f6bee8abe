//! Nodes that are read without being built: those whose user is named by reference.

ghost use Rattle.std.specs.Prelude.{◌≡◌, ◌≤◌, ℤ, List, [], IfErr, IfNone, IfOk, IfSome, Some, pos};
ghost use Rattle.osm_model.specs.Change.{IsChange};
ghost use Rattle.osm_model.specs.Flat.{flat_meta, flat_node};
ghost use Rattle.osm_model.specs.Meta.{IsMeta};
ghost use Rattle.osm_model.specs.Text.{IsText};
ghost use Rattle.osm_model.specs.declared.change.What.TheVariants.{Node};
ghost use Rattle.osm_model.specs.declared.kind.Kind.TheVariants as kinds;
ghost use Rattle.osm_reading.specs.Answers.{Stops, and_then};
ghost use Rattle.osm_o5c.specs.Datasets.{dataset_at};
ghost use Rattle.osm_o5c.specs.FlatNodes.{IsRead, after_node, node_with};
ghost use Rattle.osm_o5c.specs.ObjectReading.{meta_at, object_at, tags_at, what_at};
ghost use Rattle.osm_o5c.specs.StringReading.{pair_at, user_at};
ghost use Rattle.osm_o5c.specs.declared.counters.Counters.{Counters};
ghost use Rattle.osm_o5c.specs.declared.strings.Entry.{Entry};

use crate::counters::{Counters, id, latitude, longitude, positive_sum};
use crate::datasets::NODE;
use crate::file_string::FileString;
use crate::metadata::uid;
use crate::numbers::{part, positive, unsigned};
use crate::reader::Reader;
use crate::strings::{Entry, StringTable};
use crate::tags::read_flat_tags;
use osm_model::flat::{FlatMeta, FlatNode, FlatTag};
use osm_model::form::Why;
use osm_reading::refusal::Refusal;
use std::alloc::Global;

impl<'a> Reader<'a> {
    /// Reads the node in the dataset at the start, if its user is named by reference, and gives the
    /// bytes after it. The tags go into the list, which must be empty. None decides nothing about
    /// the bytes; nothing is read then.
    pub fn flat_node(
        &mut self,
        alloc: Global,
        tags: &mut Vec<FlatTag<'a>>,
        bytes: &'a [u8],
    ) -> Result<Option<(FlatNode<'a>, &'a [u8])>, Refusal>
        requires { tags.old.items ≡ [] }
        ensures node { IfOk result (λ found. IfSome found (λ r. dataset_at self.old bytes.now
            ≡ Some (Some (flat_node r.0 tags.new.items), self.new, r.1.now))) }
        ensures limits { IfOk result (λ found. IfSome found (λ r.
            IsChange (flat_node r.0 tags.new.items))) }
        ensures unread { IfOk result (λ found. IfNone found (self.new ≡ self.old)) }
        ensures no_tags { IfOk result (λ found. IfNone found (tags.new.items ≡ [])) }
        ensures refused { IfErr result (λ refusal. Stops refusal (dataset_at self.old bytes.now)) }
    {
        let Some((node, spelled, rest)) = self.named_node(bytes) else {
            return Ok(None);
        };
        read_flat_tags(&mut self.strings, alloc, spelled, tags)?;
        self.pass(&node);
        Ok(Some((node, rest)))
    }

    // The node, the bytes of its tags, and the bytes after it.
    #[tactic(auto, unfolding(crate::specs::Datasets::dataset_at, crate::specs::Datasets::object_dataset_at))]
    fn named_node(&self, bytes: &'a [u8]) -> Option<(FlatNode<'a>, &'a [u8], &'a [u8])>
        ensures node { IfSome result (λ r. dataset_at self.now bytes.now
            ≡ and_then (node_with self.now r.0 r.1.now) (λ x. Some (Some x.0, x.1, r.2.now))) }
        ensures limits { IfSome result (λ r. IsRead self.now r.0 r.1.now) }
    {
        let (kind, rest) = bytes.split_first()?;
        if *kind != NODE {
            return None;
        }
        let Ok((content, rest)) = part(rest, Why::Truncated) else {
            return None;
        };
        let (node, tags) = self.named_content(content)?;
        Some((node, tags, rest))
    }

    // The same of the bytes of a dataset after its length.
    #[tactic(auto, unfolding(crate::specs::ObjectReading::object_at))]
    fn named_content(&self, bytes: &'a [u8]) -> Option<(FlatNode<'a>, &'a [u8])>
        ensures node { IfSome result (λ r.
            object_at kinds.Node self.now bytes.now ≡ node_with self.now r.0 r.1.now) }
        ensures limits { IfSome result (λ r. IsRead self.now r.0 r.1.now) }
    {
        let Ok((id, rest)) = id(self.counters.id, bytes) else {
            return None;
        };
        let (meta, rest) = named_meta(&self.strings, &self.counters, rest)?;
        let (lon, lat, tags) = location(&self.counters, rest)?;
        Some((FlatNode { id, meta, lon, lat }, tags))
    }

    // Sets the counters to what they are after that node.
    fn pass(&mut self, node: &FlatNode<'_>)
        ensures { self.new ≡ after_node self.old node.now self.old.strings }
    {
        self.counters.id = node.id;
        self.counters.time = node.meta.time as i64;
        self.counters.changeset = node.meta.changeset as i64;
        self.counters.lon = node.lon;
        self.counters.lat = node.lat;
    }
}

// The metadata at the start, if the user is named by reference, and the bytes after it. The counter
// of ids makes no difference.
#[tactic(auto, unfolding(crate::specs::ObjectReading::meta_at))]
fn named_meta<'a>(
    strings: &StringTable<'a>,
    counters: &Counters,
    bytes: &'a [u8],
) -> Option<(FlatMeta<'a>, &'a [u8])>
    ensures meta { IfSome result (λ r. (id : ℤ) → meta_at (record {
      counters = record counters.now { id = id };
      strings = strings.now;
    }) bytes.now ≡ Some (
      flat_meta r.0,
      record {
        counters = record counters.now {
          id = id;
          time = pos r.0.time;
          changeset = pos r.0.changeset;
        };
        strings = strings.now;
      },
      r.1.now,
    )) }
    ensures limits { IfSome result (λ r. IsMeta (flat_meta r.0)) }
{
    let Ok((version, rest)) = positive(bytes) else {
        return None;
    };
    let Ok((time, rest)) = positive_sum(counters.time, rest) else {
        return None;
    };
    let Ok((changeset, rest)) = positive_sum(counters.changeset, rest) else {
        return None;
    };
    let (uid, user, rest) = named_user(strings, rest)?;
    let meta = FlatMeta {
        version,
        time,
        changeset,
        uid,
        user,
    };
    Some((meta, rest))
}

// The user who is named by reference at the start, and the bytes after that.
#[tactic(auto, unfolding(crate::specs::StringReading::user_at), using(crate::proofs::StringLemmas::text_again))]
fn named_user<'a>(strings: &StringTable<'a>, bytes: &'a [u8]) -> Option<(u32, &'a str, &'a [u8])>
    ensures user { IfSome result (λ r.
        user_at strings.now bytes.now ≡ Some ((r.0, r.1.now), strings.now, r.2.now)) }
    ensures text { IfSome result (λ r. IsText r.1.now) }
    ensures limits { IfSome result (λ r. 1 ≤ r.0) }
{
    let (first, second, rest) = named_pair(strings, bytes)?;
    let user = second.characters()?;
    let Ok(uid) = uid(first.as_slice()) else {
        return None;
    };
    Some((uid, user, rest))
}

// The pair that is named by reference at the start, and the bytes after that.
#[tactic(auto, unfolding(crate::specs::StringReading::pair_at))]
fn named_pair<'a>(
    strings: &StringTable<'a>,
    bytes: &'a [u8],
) -> Option<(FileString<'a>, FileString<'a>, &'a [u8])>
    ensures { IfSome result (λ r.
        pair_at strings.now bytes.now ≡ Some ((r.0, r.1), strings.now, r.2.now)) }
{
    let (first, _rest) = bytes.split_first()?;
    if *first == 0 {
        return None;
    }
    let Ok((k, rest)) = unsigned(bytes) else {
        return None;
    };
    match strings.get(k) {
        Some(Entry::Pair { first, second }) => Some((first.copy(), second.copy(), rest)),
        _ => None,
    }
}

// The location at the start, and the bytes after it, which are the tags.
#[tactic(auto, unfolding(crate::specs::ObjectReading::what_at, crate::specs::ObjectReading::node_at))]
fn location<'a>(counters: &Counters, bytes: &'a [u8]) -> Option<(i32, i32, &'a [u8])>
    ensures { IfSome result (λ r. (strings : List Entry) (c : Counters) → c.lon ≡ counters.now.lon
        → c.lat ≡ counters.now.lat
        → what_at kinds.Node (record { counters = c; strings = strings }) bytes.now
        ≡ and_then (tags_at strings r.2.now) (λ t. Some (
          Node r.0 r.1 t.0,
          record { counters = record c { lon = r.0; lat = r.1 }; strings = t.1 },
        ))) }
{
    if bytes.is_empty() {
        return None;
    }
    let Ok((lon, rest)) = longitude(counters.lon, bytes) else {
        return None;
    };
    let Ok((lat, rest)) = latitude(counters.lat, rest) else {
        return None;
    };
    Some((lon, lat, rest))
}
