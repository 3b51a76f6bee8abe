//! A folder and a save over a list of operations.

ghost use Rattle.std.specs.Prelude.{◌≡◌, ◌<◌, ◌≤◌, [], length, vec_capacity, IfOk, OnErr, OnOk};
ghost use Rattle.std.specs.Prelude.{Some, string_bytes};
ghost use Rattle.osm_model.specs.Filter.{everything};
ghost use Rattle.osm_model.specs.Limits.{max_file};
ghost use Rattle.osm_store.specs.Stores.{files_of};
ghost use Rattle.osm_operations.specs.Correct.{AreApart, IsNew, IsRun};
ghost use Rattle.osm_operations.specs.Stepping.{BeginTo, ExportTo, FollowTo};
ghost use Rattle.osm_operations.specs.Stepping.{HasBeginCalls, HasExportCalls};
ghost use Rattle.osm_operations.specs.Stepping.{HasFollowCalls, HasPublishCalls, IsNumber};
ghost use Rattle.osm_operations.specs.Stepping.{KeepsExported};
ghost use Rattle.osm_operations.specs.Stepping.{KeepsOthers, Leads, LeavesFiles, LoseTo};
ghost use Rattle.osm_operations.specs.Stepping.{OtherTo};
ghost use Rattle.osm_operations.specs.Stepping.{PublishAsTo, PublishTo, PutBackTo, SettleTo};
ghost use Rattle.osm_operations.specs.Stepping.{Step};
ghost use Rattle.osm_operations.specs.Stepping.{HasSpoiledCalls, SpoiledTo, exported_reply};
ghost use Rattle.osm_operations.specs.Stepping.{begun_reply as begun};
ghost use Rattle.osm_operations.specs.Stepping.{progress_reply as replied};
ghost use Rattle.osm_operations.specs.Stepping.{stopped_reply as settled};

use crate::operation::{Operation, Reply};
use crate::runs::{
    FormNames, begin, export, follow, form_names, kept_number, mend, move_file, publish,
    publish_as, returns, spoil,
};
use osm_model::batch::Batch;
use osm_model::filter::{Filter, laws_of_filters};
use osm_model::limits::MAX_SEQUENCE;
use osm_model::memory::WantOfMemory;
use osm_round::kept::Sizes;
use osm_runs::fault::RunFault;
use osm_runs::progress::Progress;
use osm_runs::report::Report;
use osm_state::laws::laws_of_state;
use osm_state::paths::Suffix;
use osm_store::memory_store::MemoryStore;
use std::alloc::Global;

// A store, the files that are lost, each under its name, how many sequences are published, and the
// number that was exported last, 0 if nothing was.
#[derive(Drop)]
struct World {
    alloc: Global,
    store: MemoryStore,
    lost: MemoryStore,
    published: u32,
    exported: u32,
}

/// What the operations of a list share: the names of a folder and three files, and the sizes of the
/// save and its journal.
#[derive(Clone, Copy)]
pub struct Setup<'a> {
    pub dir: &'a str,
    pub save: &'a str,
    /// A publication first writes its changes, in OPL, to this file.
    pub changes: &'a str,
    /// An export writes this data file, and a beginning reads it, with the state in the folder of
    /// the number that was exported last.
    pub extract: &'a str,
    pub sizes: Sizes,
}

/// A store after some operations, and the reply to each of them.
#[derive(Debug, Drop)]
pub struct Outcome {
    pub store: MemoryStore,
    pub replies: Vec<Reply>,
}

/// Carries out a list of operations in order, on a folder and a SAVE of all objects, and returns
/// the store that they leave and the reply to each. If memory for the list of replies is refused,
/// no operation was carried out.
pub fn run(
    alloc: Global,
    store: MemoryStore,
    setup: &Setup<'_>,
    operations: Vec<Operation>,
) -> Result<Outcome, WantOfMemory>
    requires most { setup.now.sizes.most ≤ max_file }
    ensures one_each { IfOk result (λ r. length r.replies.items ≡ length operations.items) }
    ensures steps { IfOk result (λ r. Leads everything operations.items r.replies.items
        setup.now.dir.now setup.now.save.now setup.now.changes.now setup.now.extract.now
        (files_of store) (files_of r.store)) }
    ensures run { IfOk result (λ r. AreApart setup.now.dir.now setup.now.save.now
        setup.now.changes.now setup.now.extract.now
        → IsNew setup.now.dir.now setup.now.save.now (files_of store)
        → IsRun everything operations.items r.replies.items
        setup.now.dir.now setup.now.save.now setup.now.changes.now setup.now.extract.now
        (files_of store) (files_of r.store)) }
{
    run_with(alloc, store, setup, &Filter::all(alloc), operations)
}

/// Carries out a list of operations in order, as [`run`] does, on a folder and a SAVE of the
/// objects that a filter keeps: follower and beginnings run under the filter.
pub fn run_with(
    alloc: Global,
    store: MemoryStore,
    setup: &Setup<'_>,
    filter: &Filter,
    operations: Vec<Operation>,
) -> Result<Outcome, WantOfMemory>
    requires most { setup.now.sizes.most ≤ max_file }
    ensures one_each { IfOk result (λ r. length r.replies.items ≡ length operations.items) }
    ensures steps { IfOk result (λ r. Leads filter.now operations.items r.replies.items
        setup.now.dir.now setup.now.save.now setup.now.changes.now setup.now.extract.now
        (files_of store) (files_of r.store)) }
    ensures run { IfOk result (λ r. AreApart setup.now.dir.now setup.now.save.now
        setup.now.changes.now setup.now.extract.now
        → IsNew setup.now.dir.now setup.now.save.now (files_of store)
        → IsRun filter.now operations.items r.replies.items
        setup.now.dir.now setup.now.save.now setup.now.changes.now setup.now.extract.now
        (files_of store) (files_of r.store)) }
{
    let mut world = World {
        alloc,
        store,
        lost: MemoryStore::new(alloc),
        published: 0,
        exported: 0,
    };
    let mut replies = room_for_replies(alloc, operations.as_slice())?;
    for operation in operations {
        let reply = world.step(setup, filter, operation);
        replies.push(reply).unwrap();
    }
    Ok(Outcome {
        store: world.store,
        replies,
    })
}

// An empty list with room for one reply to each operation, and for no more.
fn room_for_replies(alloc: Global, operations: &[Operation]) -> Result<Vec<Reply>, WantOfMemory>
    ensures empty { IfOk result (λ replies. replies.items ≡ []) }
    ensures room { IfOk result (λ replies. vec_capacity replies ≡ length operations.now) }
    ensures refused { OnErr result (0 < length operations.now) }
{
    Ok(Vec::with_capacity(alloc, operations.len())?)
}

impl World {
    fn step(&mut self, setup: &Setup<'_>, filter: &Filter, operation: Operation) -> Reply
        requires most { setup.now.sizes.most ≤ max_file }
        ensures step { Step filter.now setup.now.dir.now setup.now.save.now setup.now.changes.now
            setup.now.extract.now operation result self.old self.new }
        ensures exported { KeepsExported result self.old self.new }
        ensures leaves { LeavesFiles operation result (files_of self.old.store)
            (files_of self.new.store) }
    {
        match operation {
            Operation::Publish {
                changes: batch,
                time,
                calls,
            } => self.publish(setup, &batch, time, calls),
            Operation::PublishAs {
                changes: batch,
                time,
                number,
                calls,
            } => self.publish_as(setup, &batch, time, number, calls),
            Operation::Follow { calls } => self.follow(setup, filter, calls),
            Operation::FollowOther { filter: other } => self.follow_other(setup, filter, other),
            Operation::FollowSpoiled {
                number,
                suffix,
                calls,
            } => self.follow_spoiled(setup, filter, number, suffix, calls),
            Operation::Export { calls } => self.export(setup.save, setup.extract, calls),
            Operation::Begin { calls } => self.begin(setup, filter, calls),
            Operation::Lose { number, suffix } => self.lose(setup.dir, number, suffix),
            Operation::PutBack { number, suffix } => self.put_back(setup.dir, number, suffix),
        }
    }

    fn publish(&mut self, setup: &Setup<'_>, batch: &Batch, time: u32, calls: Option<u64>) -> Reply
        ensures step { PublishTo calls setup.now.dir.now setup.now.changes.now batch.now time result
            self.old self.new }
        ensures left { HasPublishCalls calls result }
        ensures exported { self.new.exported ≡ self.old.exported }
    {
        match publish(self.alloc, &mut self.store, setup, batch, time, calls) {
            Err(fault) => Reply::Refused(fault),
            Ok(report) => {
                self.published = self.published.saturating_add(1);
                Reply::Published(report)
            }
        }
    }

    fn publish_as(
        &mut self,
        setup: &Setup<'_>,
        batch: &Batch,
        time: u32,
        number: u32,
        calls: Option<u64>,
    ) -> Reply
        ensures step { PublishAsTo calls setup.now.dir.now setup.now.changes.now batch.now time
            number result self.old self.new }
        ensures exported { self.new.exported ≡ self.old.exported }
    {
        let alloc = self.alloc;
        let Ok(names) = form_names(alloc, setup.dir, number) else {
            return Reply::Refused(RunFault::WantOfMemory);
        };
        let answer = publish_as(alloc, &mut self.store, setup, batch, time, number, calls);
        self.settle(&names, number, answer)
    }

    // The reply to a publication by number. Its run may have put lost files back.
    fn settle(&mut self, names: &FormNames, number: u32, answer: Result<Report, RunFault>) -> Reply
        ensures step { SettleTo answer (string_bytes names.now.o5c) (string_bytes names.now.opl)
            number result self.old self.new }
        ensures store { self.new.store ≡ self.old.store }
        ensures exported { self.new.exported ≡ self.old.exported }
    {
        let o5c = returns(names.o5c.as_str(), &self.store, &mut self.lost);
        let opl = returns(names.opl.as_str(), &self.store, &mut self.lost);
        match answer {
            Ok(report) => {
                self.published = self.published.max(number);
                Reply::Published(report)
            }
            Err(fault) => stopped_reply(fault, o5c, opl),
        }
    }

    fn follow(&mut self, setup: &Setup<'_>, filter: &Filter, calls: Option<u64>) -> Reply
        requires most { setup.now.sizes.most ≤ max_file }
        ensures step { FollowTo filter.now setup.now.dir.now setup.now.save.now result
            self.old self.new }
        ensures left { HasFollowCalls filter.now setup.now.dir.now setup.now.save.now calls result
            (files_of self.old.store) }
        ensures exported { self.new.exported ≡ self.old.exported }
    {
        let answer = follow(self.alloc, &mut self.store, setup, filter, calls);
        progress_reply(answer)
    }

    fn follow_other(&mut self, setup: &Setup<'_>, filter: &Filter, other: Filter) -> Reply
        requires most { setup.now.sizes.most ≤ max_file }
        ensures step { OtherTo filter.now other setup.now.dir.now setup.now.save.now result
            self.old self.new }
        ensures exported { KeepsExported result self.old self.new }
    {
        laws_of_filters();
        if self.store.get(setup.save).is_none() || other == *filter {
            return Reply::NotThere;
        }
        let answer = follow(self.alloc, &mut self.store, setup, &other, None);
        progress_reply(answer)
    }

    fn follow_spoiled(
        &mut self,
        setup: &Setup<'_>,
        filter: &Filter,
        number: u32,
        suffix: Suffix,
        calls: Option<u64>,
    ) -> Reply
        requires most { setup.now.sizes.most ≤ max_file }
        ensures step { SpoiledTo filter.now setup.now.dir.now setup.now.save.now number suffix
            result self.old self.new }
        ensures left { HasSpoiledCalls calls result }
        ensures exported { KeepsExported result self.old self.new }
    {
        laws_of_state();
        if !is_number(self.published, number) {
            return Reply::NotThere;
        }
        match spoil(self.alloc, &mut self.store, setup.dir, number, suffix) {
            Err(WantOfMemory) => Reply::Refused(RunFault::WantOfMemory),
            Ok(None) => Reply::NotThere,
            Ok(Some(spoiled)) => {
                let answer = follow(self.alloc, &mut self.store, setup, filter, calls);
                mend(&mut self.store, spoiled);
                progress_reply(answer)
            }
        }
    }

    fn export(&mut self, save: &str, extract: &str, calls: Option<u64>) -> Reply
        ensures step { ExportTo save.now extract.now result self.old self.new }
        ensures left { HasExportCalls save.now calls result (files_of self.old.store) }
        ensures exported { KeepsExported result self.old self.new }
    {
        let Ok(number) = kept_number(self.alloc, &mut self.store, save) else {
            return Reply::Refused(RunFault::WantOfMemory);
        };
        let answer = export(self.alloc, &mut self.store, save, extract, calls);
        self.export_reply(number, answer)
    }

    // The reply to an export of what is kept, of that number. One that is done exported the number.
    fn export_reply(&mut self, number: u32, answer: Result<Report, RunFault>) -> Reply
        ensures reply { result ≡ exported_reply answer }
        ensures number { OnOk answer (self.new.exported ≡ number) }
        ensures kept { OnErr answer (self.new.exported ≡ self.old.exported) }
        ensures others { KeepsOthers self.old self.new }
    {
        match answer {
            Ok(report) => {
                self.exported = number;
                Reply::Exported(report)
            }
            Err(fault) => Reply::Refused(fault),
        }
    }

    fn begin(&mut self, setup: &Setup<'_>, filter: &Filter, calls: Option<u64>) -> Reply
        ensures step { BeginTo filter.now setup.now.dir.now setup.now.save.now setup.now.extract.now
            result self.old self.new }
        ensures left { HasBeginCalls setup.now.extract.now calls result (files_of self.old.store) }
        ensures exported { self.new.exported ≡ self.old.exported }
    {
        let number = self.exported;
        let answer = begin(self.alloc, &mut self.store, setup, filter, number, calls);
        begun_reply(answer)
    }

    fn lose(&mut self, dir: &str, number: u32, suffix: Suffix) -> Reply
        ensures step { LoseTo dir.now number suffix result self.old self.new }
        ensures exported { self.new.exported ≡ self.old.exported }
    {
        if !is_number(self.published, number) {
            return Reply::NotThere;
        }
        let alloc = self.alloc;
        match move_file(alloc, &mut self.store, &mut self.lost, dir, number, suffix) {
            Ok(true) => Reply::Lost,
            Ok(false) => Reply::NotThere,
            Err(WantOfMemory) => Reply::Refused(RunFault::WantOfMemory),
        }
    }

    fn put_back(&mut self, dir: &str, number: u32, suffix: Suffix) -> Reply
        ensures step { PutBackTo dir.now number suffix result self.old self.new }
        ensures exported { self.new.exported ≡ self.old.exported }
    {
        if !is_number(self.published, number) {
            return Reply::NotThere;
        }
        let alloc = self.alloc;
        match move_file(alloc, &mut self.lost, &mut self.store, dir, number, suffix) {
            Ok(true) => Reply::IsBack,
            Ok(false) => Reply::NotThere,
            Err(WantOfMemory) => Reply::Refused(RunFault::WantOfMemory),
        }
    }
}

// The reply to a run of the follower.
fn progress_reply(answer: Result<Progress, RunFault>) -> Reply
    ensures { result ≡ replied (Some answer) }
{
    match answer {
        Ok(Progress::Whole(report)) => Reply::Followed(report),
        Ok(Progress::Part { report, count, .. }) => Reply::FollowedPart { report, count },
        Ok(Progress::Before(report, fault)) => Reply::FollowedBefore { report, fault },
        Err(fault) => Reply::Refused(fault),
    }
}

// The reply to a beginning. One that leaves a journal of another save above its own is cut short.
fn begun_reply(answer: Result<Report, RunFault>) -> Reply
    ensures { result ≡ begun answer }
{
    match answer {
        Ok(report) => Reply::Begun(report),
        Err(RunFault::OtherJournal(number)) => Reply::CutShort(number),
        Err(fault) => Reply::Refused(fault),
    }
}

// The reply to a publication by number that stopped, and what it says is there again.
fn stopped_reply(fault: RunFault, o5c: bool, opl: bool) -> Reply
    ensures { result ≡ settled fault o5c opl }
{
    if o5c {
        Reply::CutOff {
            fault,
            back: Suffix::O5c,
        }
    } else if opl {
        Reply::CutOff {
            fault,
            back: Suffix::Opl,
        }
    } else {
        Reply::Refused(fault)
    }
}

// Whether a number is that of a published sequence, if that many are published.
fn is_number(published: u32, number: u32) -> bool
    ensures { IsNumber result published number }
{
    number > 0 && number <= published && number <= MAX_SEQUENCE
}
