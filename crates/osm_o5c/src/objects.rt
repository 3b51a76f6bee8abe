//! Objects: nodes, ways, relations, and their deletions.

ghost use Rattle.std.specs.Prelude.{◌≡◌, ◌++◌, OnOk};
ghost use Rattle.osm_o5c.specs.ObjectReading.{node_at, way_at, relation_at, what_at};
ghost use Rattle.osm_o5c.specs.ObjectReading.{object_at};
ghost use Rattle.osm_reading.specs.Answers.{Gives};
ghost use Rattle.osm_o5c.specs.Written.{part_text, what_text, after_what};
ghost use Rattle.osm_o5c.specs.Written.{object_text, after_object};

use crate::counters::{id, latitude, longitude};
use crate::metadata::write_meta;
use crate::numbers::{part, write_coordinate, write_difference, write_unsigned};
use crate::reader::Reader;
use crate::references::{refs, write_members, write_refs};
use crate::tags::{tags, write_tags};
use crate::writer::{Buffers, State};
use osm_model::change::{Change, What};
use osm_model::form::Why;
use osm_model::kind::{Key, Kind};
use osm_model::lists::{Members, Refs, Tags};
use osm_model::memory::WantOfMemory;
use osm_reading::refusal::Refusal;
use std::alloc::Global;

impl<'a> Reader<'a> {
    // `longitude latitude tags`
    #[tactic(auto, unfolding(crate::specs::ObjectReading::node_at))]
    fn node(&mut self, alloc: Global, bytes: &'a [u8]) -> Result<What, Refusal>
        ensures { Gives (λ w. (w, self.new)) result (node_at self.old bytes.now) }
    {
        let (lon, rest) = longitude(self.counters.lon, bytes)?;
        let (lat, rest) = latitude(self.counters.lat, rest)?;
        self.counters.lon = lon;
        self.counters.lat = lat;
        let tags = tags(&mut self.strings, alloc, rest)?;
        Ok(What::Node { lon, lat, tags })
    }

    // `length references tags`
    #[tactic(auto, unfolding(crate::specs::ObjectReading::way_at))]
    fn way(&mut self, alloc: Global, bytes: &'a [u8]) -> Result<What, Refusal>
        ensures { Gives (λ w. (w, self.new)) result (way_at self.old bytes.now) }
    {
        let (references, rest) = part(bytes, Why::BadLength)?;
        let refs = refs(&mut self.counters, alloc, references)?;
        let tags = tags(&mut self.strings, alloc, rest)?;
        Ok(What::Way { refs, tags })
    }

    // `length members tags`
    #[tactic(auto, unfolding(crate::specs::ObjectReading::relation_at))]
    fn relation(&mut self, alloc: Global, bytes: &'a [u8]) -> Result<What, Refusal>
        ensures { Gives (λ w. (w, self.new)) result (relation_at self.old bytes.now) }
    {
        let (references, rest) = part(bytes, Why::BadLength)?;
        let members = self.members(alloc, references)?;
        let tags = tags(&mut self.strings, alloc, rest)?;
        Ok(What::Relation { members, tags })
    }

    // What an object of this kind is; a deletion if no bytes are left.
    #[tactic(auto, unfolding(crate::specs::ObjectReading::what_at))]
    fn what(&mut self, alloc: Global, kind: Kind, bytes: &'a [u8]) -> Result<What, Refusal>
        ensures { Gives (λ w. (w, self.new)) result (what_at kind self.old bytes.now) }
    {
        if bytes.is_empty() {
            return Ok(What::Deleted);
        }
        match kind {
            Kind::Node => self.node(alloc, bytes),
            Kind::Way => self.way(alloc, bytes),
            Kind::Relation => self.relation(alloc, bytes),
        }
    }

    /// Reads the change that all of the bytes spell.
    #[tactic(auto, unfolding(crate::specs::ObjectReading::object_at))]
    pub fn object(&mut self, alloc: Global, kind: Kind, bytes: &'a [u8]) -> Result<Change, Refusal>
        ensures { Gives (λ c. (c, self.new)) result (object_at kind self.old bytes.now) }
    {
        let (id, rest) = id(self.counters.id, bytes)?;
        self.counters.id = id;
        let (meta, rest) = self.meta(alloc, rest)?;
        let what = self.what(alloc, kind, rest)?;
        Ok(Change::within_limits(Key { kind, id }, meta, what))
    }
}

impl Buffers {
    /// Appends the length of the reference part, and the part.
    pub fn write_part(&mut self) -> Result<(), WantOfMemory>
        ensures { OnOk result
            (self.new.content.items ≡ self.old.content.items ++ part_text self.old.part.items) }
    {
        write_unsigned(&mut self.content, self.part.len() as u64)?;
        self.content.extend_from_slice(self.part.as_slice())?;
        Ok(())
    }

    // Appends a location and tags.
    fn write_node(
        &mut self,
        state: &mut State,
        lon: &i32,
        lat: &i32,
        tags: &Tags,
    ) -> Result<(), WantOfMemory>
        ensures text { OnOk result
            (self.new.content.items ≡ self.old.content.items ++ what_text state.old
            (What.Node lon.now lat.now tags.now)) }
        ensures state_is { OnOk result
            (state.new ≡ after_what state.old (What.Node lon.now lat.now tags.now)) }
    {
        write_coordinate(&mut self.content, state.counters.lon, *lon)?;
        write_coordinate(&mut self.content, state.counters.lat, *lat)?;
        state.counters.lon = *lon;
        state.counters.lat = *lat;
        write_tags(&mut self.content, &mut state.strings, tags.as_slice())
    }

    // Appends references and tags.
    fn write_way(&mut self, state: &mut State, refs: &Refs, tags: &Tags) -> Result<(), WantOfMemory>
        ensures text { OnOk result
            (self.new.content.items ≡ self.old.content.items ++ what_text state.old
            (What.Way refs.now tags.now)) }
        ensures state_is { OnOk result
            (state.new ≡ after_what state.old (What.Way refs.now tags.now)) }
    {
        self.part.clear();
        write_refs(&mut self.part, &mut state.counters, refs.as_slice())?;
        self.write_part()?;
        write_tags(&mut self.content, &mut state.strings, tags.as_slice())
    }

    // Appends members and tags.
    fn write_relation(
        &mut self,
        state: &mut State,
        members: &Members,
        tags: &Tags,
    ) -> Result<(), WantOfMemory>
        ensures text { OnOk result
            (self.new.content.items ≡ self.old.content.items ++ what_text state.old
            (What.Relation members.now tags.now)) }
        ensures state_is { OnOk result
            (state.new ≡ after_what state.old (What.Relation members.now tags.now)) }
    {
        self.part.clear();
        write_members(&mut self.part, state, members.as_slice())?;
        self.write_part()?;
        write_tags(&mut self.content, &mut state.strings, tags.as_slice())
    }

    // Appends what an object is.
    fn write_what(&mut self, state: &mut State, what: &What) -> Result<(), WantOfMemory>
        ensures text { OnOk result
            (self.new.content.items ≡ self.old.content.items ++ what_text state.old what.now) }
        ensures state_is { OnOk result (state.new ≡ after_what state.old what.now) }
    {
        match what {
            What::Node { lon, lat, tags } => self.write_node(state, lon, lat, tags),
            What::Way { refs, tags } => self.write_way(state, refs, tags),
            What::Relation { members, tags } => self.write_relation(state, members, tags),
            What::Deleted => Ok(()),
        }
    }

    /// Replaces the content with that of the given object.
    pub fn write_object(&mut self, state: &mut State, change: &Change) -> Result<(), WantOfMemory>
        ensures text { OnOk result (self.new.content.items ≡ object_text state.old change.now) }
        ensures state_is { OnOk result (state.new ≡ after_object state.old change.now) }
    {
        self.content.clear();
        let id = change.key().id;
        write_difference(&mut self.content, state.counters.id, id)?;
        let meta = change.meta();
        write_meta(&mut self.content, state, meta)?;
        state.counters.id = id;
        state.counters.time = meta.time() as i64;
        state.counters.changeset = meta.changeset() as i64;
        self.write_what(state, change.what())
    }
}
