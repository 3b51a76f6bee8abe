//! Sinks for the objects of a data file: one counts the objects that a filter keeps, the other also
//! collects their lines.

ghost use Rattle.std.specs.Prelude.{◌≡◌, ◌++◌, [], List};
ghost use Rattle.osm_model.specs.Change.{ChangeValue};
ghost use Rattle.osm_beginning.specs.Steps.Sinks.{Counts, Lays};
ghost use Rattle.osm_beginning.specs.declared.sinks.KeptCount.{KeptCount};
ghost use Rattle.osm_beginning.specs.declared.sinks.KeptLines.{KeptLines};

use osm_data::object_sink::ObjectSink;
use osm_model::change::Change;
use osm_model::filter::Filter;
use osm_model::flat::{FlatNode, FlatTag};
use osm_model::memory::WantOfMemory;
use osm_opl::lines::write_flat_node;
use osm_save::objects::write_object;
use std::alloc::Global;

/// Counts the objects that a filter keeps; the count stops at its greatest value.
#[derive(Drop)]
pub(crate) struct KeptCount<'a> {
    filter: &'a Filter,
    pub(crate) count: u64,
}

impl<'a> KeptCount<'a> {
    /// No objects so far.
    pub(crate) fn new(filter: &'a Filter) -> KeptCount<'a>
        ensures filter { result.filter.now ≡ filter.now }
        ensures count { result.count ≡ 0 }
    {
        KeptCount { filter, count: 0 }
    }
}

impl<'a> ObjectSink for KeptCount<'a> {
    ghost takes = { Counts };

    fn take(&mut self, object: &Change) -> Result<(), WantOfMemory> {
        if self.filter.keeps(object) {
            self.count = self.count.saturating_add(1);
        }
        Ok(())
    }

    fn take_node(
        &mut self,
        _node: &FlatNode<'_>,
        tags: &[FlatTag<'_>],
    ) -> Result<(), WantOfMemory> {
        if self.filter.keeps_node(tags) {
            self.count = self.count.saturating_add(1);
        }
        Ok(())
    }

    fn laws()
        ensures none { (sink : KeptCount) → Counts sink [] sink }
        ensures more { (a b c : KeptCount) (xs ys : List ChangeValue)
            → Counts a xs b → Counts b ys c → Counts a (xs ++ ys) c }
    {}
}

/// The lines of the objects that a filter keeps, as a save has them, and their number, which isn't
/// reset when the lines are cleared. Also the newest time of all objects, kept or not.
#[derive(Drop)]
pub(crate) struct KeptLines<'a> {
    filter: &'a Filter,
    pub(crate) lines: Vec<u8>,
    pub(crate) count: u64,
    pub(crate) newest: u32,
}

impl<'a> KeptLines<'a> {
    /// No objects so far. Takes no memory.
    pub(crate) fn new(alloc: Global, filter: &'a Filter) -> KeptLines<'a>
        ensures filter { result.filter.now ≡ filter.now }
        ensures lines { result.lines.items ≡ [] }
        ensures count { result.count ≡ 0 }
        ensures newest { result.newest ≡ 0 }
    {
        KeptLines {
            filter,
            lines: Vec::new(alloc),
            count: 0,
            newest: 0,
        }
    }
}

impl<'a> ObjectSink for KeptLines<'a> {
    ghost takes = { Lays };

    fn take(&mut self, object: &Change) -> Result<(), WantOfMemory> {
        self.newest = self.newest.max(object.meta().time());
        if !self.filter.keeps(object) {
            return Ok(());
        }
        write_object(object, &mut self.lines)?;
        self.count = self.count.saturating_add(1);
        Ok(())
    }

    fn take_node(&mut self, node: &FlatNode<'_>, tags: &[FlatTag<'_>]) -> Result<(), WantOfMemory> {
        self.newest = self.newest.max(node.meta.time);
        if !self.filter.keeps_node(tags) {
            return Ok(());
        }
        write_flat_node(node, tags, &mut self.lines)?;
        self.lines.push(b'\n')?;
        self.count = self.count.saturating_add(1);
        Ok(())
    }

    fn laws()
        ensures none { (sink : KeptLines) → Lays sink [] sink }
        ensures more { (a b c : KeptLines) (xs ys : List ChangeValue)
            → Lays a xs b → Lays b ys c → Lays a (xs ++ ys) c }
    {}
}
