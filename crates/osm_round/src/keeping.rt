//! Writing what a run took to a save or to its journal.

ghost use Rattle.std.specs.Prelude.{◌≡◌, ℕ, ◌*◌, ◌<◌, ◌≤◌, List, length, map, Option, Some};
ghost use Rattle.std.specs.Prelude.{None, IfErr, IfOk, IfSome, OnOk};
ghost use Rattle.osm_model.specs.Filter.{FilterValue};
ghost use Rattle.osm_model.specs.Limits.{max_changes, max_sequence};
ghost use Rattle.osm_net.specs.Net.{IsNet};
ghost use Rattle.osm_save.specs.declared.save.Saved.{Saved};
ghost use Rattle.osm_store.specs.Files.{Puts};
ghost use Rattle.osm_store.specs.Frames.{IsKnown, MakesAtMost, ReplacesBetween};
ghost use Rattle.osm_merge.specs.Frames.{ReplacesOften};
ghost use Rattle.osm_journal.specs.Journal.{BatchValue, batch_of};
ghost use Rattle.osm_kept.specs.Kept.{AddsBatches, Keeps};
ghost use Rattle.osm_kept.specs.Names.{journal_name_of};
ghost use Rattle.osm_kept.specs.Reaching.{FindsEnds, IsReach, ends_of};
ghost use Rattle.osm_runs.specs.Following.{no_head};
ghost use Rattle.osm_runs.specs.Runs.{IsDeviceFault};
ghost use Rattle.osm_round.specs.Gathering.{Gathers, KeepsUpTo, batch_in};
ghost use Rattle.osm_round.specs.Keeping.{IsLongWith, IsUnder, WasKept, head_in};
ghost use Rattle.osm_round.specs.KeepingSteps.{AreEnds, HasNeither, IsJournalFault, IsTextOf};
ghost use Rattle.osm_round.specs.KeepingSteps.{JoinStops, JoinsTo, MergesWithin, PutStops};
ghost use Rattle.osm_round.specs.KeepingSteps.{PutsKept, PutsSave, bound_of};
ghost use Rattle.osm_round.specs.News.{HoldsUpTo, TakenValue, came_to};
ghost use Rattle.osm_round.specs.Starting.{IsMakingFault};
ghost use Rattle.osm_round.specs.Taking.{IsTaken};

use crate::gathered::{Gathered, Text};
use crate::put::{make, merge};
use crate::taken::Taken;
use osm_journal::batch::Batch;
use osm_kept::found::{Ends, JournalFile, Reach};
use osm_kept::laws::laws_of_kept;
use osm_kept::names::journal_name;
use osm_kept::net::net_of;
use osm_kept::next::next_journal;
use osm_model::filter::Filter;
use osm_model::memory::WantOfMemory;
use osm_net::laws::laws_of_nets;
use osm_net::net::Net;
use osm_runs::check::check;
use osm_runs::fault::{FileName, RunFault};
use osm_runs::files::write_file;
use osm_runs::kept::kept_fault;
use osm_store::store::Store;
use std::alloc::Global;

/// What a run took, and what it gathered of that for a journal.
#[derive(Drop)]
pub(crate) struct Intake {
    pub(crate) taken: Taken,
    pub(crate) gathered: Gathered,
}

/// Writes what a run took: to the journal beside a large save, if that isn't too long then, or else
/// to the save, with what the journal has. If the run took nothing, a small save is only checked,
/// and nothing of a large one is read. `most` is the most bytes of a journal; beside a small save
/// none is written.
pub(crate) fn put_kept<S: Store>(
    alloc: Global,
    store: &mut S,
    save: &str,
    filter: &Filter,
    most: Option<u64>,
    ends: Ends,
    intake: Intake,
) -> Result<(), RunFault>
    requires ends { AreEnds (IsKnown (S.state store.old)) save.now (S.state store.old).files ends }
    requires under { IsUnder filter.now ends.kept }
    requires taken { (count : ℕ)
        × IsTaken filter.now (head_in ends.kept) count (came_to filter.now intake.taken) }
    requires few { HoldsUpTo (max_changes * intake.taken.head.number) intake.taken.news }
    requires number { intake.taken.head.number ≤ max_sequence }
    requires gathers { Gathers filter.now (head_in ends.kept) (bound_of most)
        (came_to filter.now intake.taken) intake.gathered }
    ensures puts { OnOk result (IsKnown (S.state store.old) → PutsKept most filter.now save.now
        (came_to filter.now intake.taken) intake.gathered
        (S.state store.old).files (S.state store.new).files) }
    ensures still { intake.taken.head.number ≡ (head_in ends.kept).number
        → (S.state store.new).files ≡ (S.state store.old).files }
    ensures stops { IfErr result (PutStops filter.now save.now (came_to filter.now intake.taken)
        (S.state store.old)) }
    ensures calls { MergesWithin save.now (S.state store.old) (S.state store.new) result }
    ensures frame { ReplacesOften IsDeviceFault (S.state store.old) (S.state store.new) result }
{
    laws_of_kept();
    let Intake { taken, gathered } = intake;
    let Ends {
        kept,
        journal: file,
    } = ends;
    let Some(reach) = kept else {
        return begin(alloc, store, save, filter, taken);
    };
    if taken.head.number == reach.head.number {
        if most.is_some() {
            return Ok(());
        }
        return check(alloc, store, save);
    }
    match text_with(alloc, &reach, &file, gathered, most.unwrap_or(0)) {
        Ok(Some(text)) => write_journal(alloc, store, save, text.as_slice()),
        Ok(None) => merge_both(alloc, store, save, filter, reach, file, taken),
        Err(refused) => Err(RunFault::from(refused)),
    }
}

// Makes the first save, if something was taken.
fn begin<S: Store>(
    alloc: Global,
    store: &mut S,
    save: &str,
    filter: &Filter,
    taken: Taken,
) -> Result<(), RunFault>
    requires none { IsKnown (S.state store.old) → HasNeither save.now (S.state store.old).files }
    requires taken { (count : ℕ) × IsTaken filter.now no_head count (came_to filter.now taken) }
    requires few { HoldsUpTo (max_changes * taken.head.number) taken.news }
    requires number { taken.head.number ≤ max_sequence }
    ensures puts { OnOk result (IsKnown (S.state store.old) → PutsSave filter.now save.now
        (came_to filter.now taken) (S.state store.old).files (S.state store.new).files) }
    ensures still { taken.head.number ≡ 0
        → (S.state store.new).files ≡ (S.state store.old).files }
    ensures stops { IfErr result IsMakingFault }
    ensures frame { ReplacesOften IsDeviceFault (S.state store.old) (S.state store.new) result }
    ensures calls { MakesAtMost IsDeviceFault 1 (S.state store.old) (S.state store.new) result }
{
    laws_of_kept();
    if taken.head.number == 0 {
        return Ok(());
    }
    make(alloc, store, save, filter, taken)
}

// The text of the journal with what was gathered; none if it would be too long. What was gathered
// is dropped, so that a merge has its memory.
fn text_with(
    alloc: Global,
    reach: &Reach,
    file: &JournalFile,
    gathered: Gathered,
    most: u64,
) -> Result<Option<Vec<u8>>, WantOfMemory>
    requires reach { IsReach reach.now file.now }
    requires gathers { (f : FilterValue) × (taken : TakenValue)
        × (reach.now.head.number < taken.head.number)
        × Gathers f reach.now.head most taken gathered }
    ensures text { IfOk result (λ o. IfSome o (λ text. (batches : List BatchValue)
        → KeepsUpTo most batches gathered gathered.is_whole
        → (told journal : Option (List ℕ)) (v w : Saved)
        → FindsEnds told journal (ends_of reach.now file.now) → Keeps told journal v
        → AddsBatches batches v w → Keeps told (Some text.items) w)) }
    ensures journal { IfOk result (λ o. IfSome o
        (λ text. IsTextOf reach.now file.now gathered text.items)) }
    ensures short { IfOk result (λ o. IfSome o (λ text. length text.items ≤ most)) }
    ensures long { IfOk result (λ o. o ≡ None → (batches : List BatchValue)
        → KeepsUpTo most batches gathered gathered.is_whole
        → (told journal : Option (List ℕ)) → FindsEnds told journal (ends_of reach.now file.now)
        → IsLongWith most told journal batches) }
{
    if !gathered.is_whole {
        return Ok(None);
    }
    let batches = batches_of(alloc, gathered.texts.as_slice())?;
    next_journal(alloc, reach, file, batches.as_slice(), most)
}

// The batches of a journal, which borrow their change files.
fn batches_of(alloc: Global, texts: &[Text]) -> Result<Vec<Batch<'_>>, WantOfMemory>
    ensures { IfOk result (λ batches. map batch_of batches.items ≡ map batch_in texts.now) }
{
    let mut batches = Vec::new(alloc);
    for text in texts {
        batches.push(batch_from(text))?;
    }
    Ok(batches)
}

fn batch_from(text: &Text) -> Batch<'_>
    ensures { batch_of result ≡ batch_in text.now }
{
    Batch {
        number: text.number,
        time: text.time,
        bytes: text.bytes.as_slice(),
    }
}

// Writes the journal.
fn write_journal<S: Store>(
    alloc: Global,
    store: &mut S,
    save: &str,
    text: &[u8],
) -> Result<(), RunFault>
    ensures written { OnOk result (IsKnown (S.state store.old)
        → Puts (S.state store.old).files (journal_name_of save.now) (Some text.now)
        (S.state store.new).files) }
    ensures stops { IfErr result IsJournalFault }
    ensures frame { ReplacesBetween IsDeviceFault 1 1
        (S.state store.old) (S.state store.new) result }
{
    let journal = journal_name(alloc, save)?;
    write_file(alloc, store, FileName::Journal, journal.as_str(), text)
}

// Lays what the journal has, and what was taken after it, over the save. The journal stays as one
// of the save of before. What was read of it is dropped first, so that the merge has its memory.
fn merge_both<S: Store>(
    alloc: Global,
    store: &mut S,
    save: &str,
    filter: &Filter,
    reach: Reach,
    file: JournalFile,
    taken: Taken,
) -> Result<(), RunFault>
    requires ends { AreEnds (IsKnown (S.state store.old)) save.now (S.state store.old).files
        (ends_of reach file) }
    requires under { reach.start.filter ≡ filter.now }
    requires taken { (count : ℕ) × (0 < count)
        × IsTaken filter.now reach.head count (came_to filter.now taken) }
    requires few { HoldsUpTo (max_changes * taken.head.number) taken.news }
    requires number { taken.head.number ≤ max_sequence }
    ensures puts { OnOk result (IsKnown (S.state store.old) → PutsSave filter.now save.now
        (came_to filter.now taken) (S.state store.old).files (S.state store.new).files
        × WasKept filter.now save.now (S.state store.old).files) }
    ensures stops { IfErr result (PutStops filter.now save.now (came_to filter.now taken)
        (S.state store.old)) }
    ensures calls { MergesWithin save.now (S.state store.old) (S.state store.new) result }
    ensures frame { ReplacesOften IsDeviceFault (S.state store.old) (S.state store.new) result }
{
    laws_of_nets();
    laws_of_kept();
    let head = taken.head;
    let net = match join(alloc, filter, &reach, &file, taken) {
        Ok(net) => net,
        Err(fault) => return Err(fault),
    };
    drop(file);
    merge(alloc, store, save, head, net)
}

// The net changes of the journal, with those of what was taken after them.
fn join(
    alloc: Global,
    filter: &Filter,
    reach: &Reach,
    file: &JournalFile,
    taken: Taken,
) -> Result<Net, RunFault>
    requires reach { IsReach reach.now file.now }
    requires under { reach.now.start.filter ≡ filter.now }
    requires taken { (count : ℕ) × (0 < count)
        × IsTaken filter.now reach.now.head count (came_to filter.now taken) }
    requires few { HoldsUpTo (max_changes * taken.head.number) taken.news }
    requires number { taken.head.number ≤ max_sequence }
    ensures joined { IfOk result (λ net. JoinsTo filter.now reach.now file.now
        (came_to filter.now taken) (record { head = taken.head; net = net })) }
    ensures limits { IfOk result IsNet }
    ensures stops { IfErr result (JoinStops reach.now file.now) }
{
    laws_of_nets();
    let before = match net_of(alloc, reach, file) {
        Ok(net) => net,
        Err(fault) => return Err(kept_fault(fault)),
    };
    let net = taken.news.after(filter, before)?;
    Ok(net)
}
