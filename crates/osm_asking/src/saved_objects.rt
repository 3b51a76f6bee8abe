//! The objects of a save, taken one after the other.

ghost use Rattle.std.specs.Prelude.{◌≡◌, ◌↔◌, ◌≤◌, ◌<◌, [], IfErr, IfOk, IfSome, IsTrue, OnOk};
ghost use Rattle.osm_model.specs.Limits.{max_sequence};
ghost use Rattle.osm_blocks.specs.Frames.{ReadsOften};
ghost use Rattle.osm_merge.specs.Checking.{CheckStops};
ghost use Rattle.osm_merge.specs.Faults.{IsDeviceFault};
ghost use Rattle.osm_merged.specs.Ahead.{most_ahead, objects_ahead};
ghost use Rattle.osm_merged.specs.Opening.{BeginsMerged};
ghost use Rattle.osm_store.specs.Frames.{IsKnown};
ghost use Rattle.osm_asking.specs.Steps.Going.{NextStops};
ghost use Rattle.osm_asking.specs.Steps.Laying.{FitsSave};
ghost use Rattle.osm_asking.specs.Steps.SavedObjects.{ReadsNext, SumsAhead, TakesNext};
ghost use Rattle.osm_asking.specs.Steps.Summing.{AreOfSameKeys, AreSummed};

use crate::object_lines::Lines;
use crate::sums::Sums;
use osm_merge::fault::MergeFault;
use osm_merge::opening::Opening;
use osm_merge::source::Source;
use osm_merged::objects::MergedObjects;
use osm_merged::opening::open_objects;
use osm_model::change::Change;
use osm_model::filter::Filter;
use osm_model::kind::Key;
use osm_model::memory::WantOfMemory;
use osm_save::head::Head;
use osm_store::store::Store;
use std::alloc::Global;

/// How far the objects of a save, over which net changes are laid, were taken.
#[derive(Drop)]
pub(crate) struct SavedObjects<'a> {
    pub(crate) source: Source,
    objects: MergedObjects<'a>,
    // The lines that were taken and wait.
    lines: Lines,
    // A buffer that all objects share.
    spelled: Vec<u8>,
}

/// Opens a save, and passes everything before the lines of its objects, over which the entries are
/// laid. A save that doesn't begin with the head `start` is refused, if one is given: it was
/// rewritten since its journal was read.
pub(crate) fn open<'a, S: Store>(
    alloc: Global,
    store: &mut S,
    save: &str,
    start: Option<Head>,
    entries: &'a [(Key, Option<Change>)],
) -> Result<(SavedObjects<'a>, Opening), MergeFault>
    requires { FitsSave (IsKnown (S.state store.old)) ((S.state store.old).files save.now) start }
    ensures opened { IfOk result (λ r. IsKnown (S.state store.old)
        → BeginsMerged ((S.state store.old).files save.now) entries.now r.0.source r.1
        r.0.objects) }
    ensures empty { IfOk result (λ r. r.0.lines.out.items ≡ []) }
    ensures number { IfOk result (λ r. r.1.head.number ≤ max_sequence) }
    ensures base { IfOk result (λ r. r.1.head.base ≤ r.1.head.number) }
    ensures refused { IfErr result (λ fault. IsKnown (S.state store.old)
        → CheckStops ((S.state store.old).files save.now) fault) }
    ensures frame { ReadsOften IsDeviceFault (S.state store.old) (S.state store.new) result }
{
    let (source, opening, objects) = match open_objects(alloc, store, save, entries) {
        Ok(opened) => opened,
        Err(fault) => return Err(fault),
    };
    if !has_head(opening.head, start) {
        return Err(MergeFault::Changed);
    }
    let objects = SavedObjects {
        source,
        objects,
        lines: Lines::new(alloc),
        spelled: Vec::new(alloc),
    };
    Ok((objects, opening))
}

/// Whether a save begins with the head that it has to have, if any.
pub(crate) fn has_head(head: Head, start: Option<Head>) -> bool
    ensures { IsTrue result ↔ IfSome start (λ before. before ≡ head) }
{
    match start {
        Some(before) => before == head,
        None => true,
    }
}

impl<'a> SavedObjects<'a> {
    /// Sums the objects that are left. None may have been taken yet.
    pub(crate) fn sum<S: Store>(
        &mut self,
        alloc: Global,
        store: &mut S,
        save: &str,
        filter: &Filter,
        sums: &mut Sums,
    ) -> Result<(), MergeFault>
        requires empty { self.old.lines.out.items ≡ [] }
        requires none { AreSummed sums.old [] [] }
        ensures summed { OnOk result (SumsAhead (S.state store.old) save.now filter.now
            self.old.objects self.old.source self.new.source sums.new) }
        ensures keys { OnOk result (AreOfSameKeys sums.old.blocks sums.new.blocks) }
        ensures refused { IfErr result (NextStops (S.state store.old) save.now
            (objects_ahead filter.now self.old.objects) self.old.source) }
        ensures frame { ReadsOften IsDeviceFault (S.state store.old) (S.state store.new) result }
    {
        'objects: loop {
            match self.next(alloc, store, save, filter) {
                Ok(true) => {}
                Ok(false) => {
                    sums.take(&mut self.lines);
                    return Ok(());
                }
                Err(fault) => return Err(fault),
            }
            match sums.note(alloc, &mut self.lines) {
                Ok(()) => {}
                Err(WantOfMemory) => return Err(MergeFault::WantOfMemory),
            }
        }
    }

    // Adds the line of the next object to the lines; whether there is one. Nearly all lines are
    // taken as they are.
    fn next<S: Store>(
        &mut self,
        alloc: Global,
        store: &mut S,
        save: &str,
        filter: &Filter,
    ) -> Result<bool, MergeFault>
        ensures taken { IfOk result (TakesNext (ReadsNext (S.state store.old) save.now filter.now
            self.old.objects self.new.objects self.old.source self.new.source)
            self.old.lines.out.items self.new.lines.out.items) }
        ensures fewer { IfOk result (λ is_next. IsTrue is_next
            → most_ahead self.new.objects < most_ahead self.old.objects) }
        ensures refused { IfErr result (NextStops (S.state store.old) save.now
            (objects_ahead filter.now self.old.objects) self.old.source) }
        ensures frame { ReadsOften IsDeviceFault (S.state store.old) (S.state store.new) result }
    {
        let source = &mut self.source;
        let lines = &mut self.lines;
        match self
            .objects
            .pass_line(alloc, store, save, source, filter, lines)
        {
            Ok(true) => return Ok(true),
            Ok(false) => {}
            Err(fault) => return Err(fault),
        }
        match self.next_spelled(alloc, store, save, filter) {
            Ok(is_next) => Ok(is_next),
            Err(fault) => Err(fault),
        }
    }

    // The same for an object that isn't taken as a line.
    // Never inlined, since there are few of them.
    #[inline(never)]
    fn next_spelled<S: Store>(
        &mut self,
        alloc: Global,
        store: &mut S,
        save: &str,
        filter: &Filter,
    ) -> Result<bool, MergeFault>
        ensures taken { IfOk result (TakesNext (ReadsNext (S.state store.old) save.now filter.now
            self.old.objects self.new.objects self.old.source self.new.source)
            self.old.lines.out.items self.new.lines.out.items) }
        ensures fewer { IfOk result (λ is_next. IsTrue is_next
            → most_ahead self.new.objects < most_ahead self.old.objects) }
        ensures refused { IfErr result (NextStops (S.state store.old) save.now
            (objects_ahead filter.now self.old.objects) self.old.source) }
        ensures frame { ReadsOften IsDeviceFault (S.state store.old) (S.state store.new) result }
    {
        let source = &mut self.source;
        let spelled = &mut self.spelled;
        match self
            .objects
            .next(alloc, store, save, source, filter, spelled)
        {
            Ok(Some(_object)) => {}
            Ok(None) => return Ok(false),
            Err(fault) => return Err(fault),
        }
        match self.lines.add(self.spelled.as_slice()) {
            Ok(()) => Ok(true),
            Err(WantOfMemory) => Err(MergeFault::WantOfMemory),
        }
    }
}
