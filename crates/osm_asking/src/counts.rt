//! The counts of edits that a save and its journal keep.

ghost use Rattle.std.specs.Prelude.{◌≡◌, ◌≤◌, ℕ, List, Some, IfErr, IfOk, OnOk, codes};
ghost use Rattle.std.specs.List.{AllByRecursion};
ghost use Rattle.osm_blocks.specs.Frames.{ReadsOften};
ghost use Rattle.osm_blocks.specs.Places.{HasFile, left_of};
ghost use Rattle.osm_kept.specs.Names.{journal_name_of};
ghost use Rattle.osm_merge.specs.Checking.{CheckStops};
ghost use Rattle.osm_merge.specs.Faults as merges;
ghost use Rattle.osm_merge.specs.Laying.{IsFew};
ghost use Rattle.osm_merge.specs.Lists.{AreFew};
ghost use Rattle.osm_merge.specs.Mirrors.{both_at};
ghost use Rattle.osm_merged.specs.Ahead.{counts_ahead, laid_after};
ghost use Rattle.osm_mirror.specs.Mirror.{Counted};
ghost use Rattle.osm_model.specs.Limits.{max_sequence};
ghost use Rattle.osm_net.specs.Laid.{added};
ghost use Rattle.osm_net.specs.Lists.{net_in};
ghost use Rattle.osm_runs.specs.Runs.{IsDeviceFault};
ghost use Rattle.osm_save.specs.Head.{most_counted};
ghost use Rattle.osm_save.specs.Reading.{counts_at};
ghost use Rattle.osm_save.specs.declared.save.Saved.{Saved};
ghost use Rattle.osm_store.specs.Frames.{IsKnown, MakesAtMost};
ghost use Rattle.osm_asking.specs.Asking.{FitTogether};
ghost use Rattle.osm_asking.specs.Counts.{GivesCounts, IsCountsReport, IsReportOfCounts};
ghost use Rattle.osm_asking.specs.Reads.{IsPlainSave, most_counting};
ghost use Rattle.osm_asking.specs.Steps.Counting.{AreCounted, CountsAfter, ReadsCounts};
ghost use Rattle.osm_asking.specs.Steps.Counting.{most_at_end};
ghost use Rattle.osm_asking.specs.Steps.Going.{NextStops, ReadsOn};
ghost use Rattle.osm_asking.specs.Steps.Laying.{IsLaidOn};
ghost use Rattle.osm_asking.specs.Stopping.{SumStops};

use crate::at_end::counts_at_end;
use crate::choice::{By, Choice, Form};
use crate::chosen::chosen;
use crate::laid::laid_of_save;
use crate::rows::text_of;
use crate::saved_objects::open;
use crate::sums::Sums;
use osm_kept::laid::Laid;
use osm_kept::laws::laws_of_kept;
use osm_merge::fault::MergeFault;
use osm_merge::opening::Opening;
use osm_merge::source::Source;
use osm_merged::counts::MergedCounts;
use osm_merged::laws::laws_of_merged_saves;
use osm_merged::opening::{open_changesets, open_users};
use osm_model::memory::WantOfMemory;
use osm_runs::fault::RunFault;
use osm_runs::report::Report;
use osm_runs::save_fault::read_fault;
use osm_store::store::Store;
use std::alloc::Global;

/// Gives the counts of edits that a save and its journal keep, by user or by changeset, those that
/// are asked for, in that form.
///
/// The journal is read, and of the save its head and the counts at its end, whose place is found by
/// halving its bytes. Only if a line that is met is at fault, or the save changes meanwhile, are
/// all lines up to the counts read, and the first that is at fault is named as by `show`. What
/// isn't read isn't judged, nor what follows the counts. A journal of another save that ends above
/// the save is refused, and so is any journal without a save. In memory are, beside blocks of the
/// files and the journal, all counts of one kind at a time, and the text. No file changes.
///
/// Of a save text of up to 2^40 bytes without a line of more than 16,352 bytes, that takes at most
/// 65 calls of the store, and one for each 128 KiB of the lines after the objects.
pub fn counts_run<S: Store>(
    alloc: Global,
    store: &mut S,
    save: &str,
    by: By,
    choice: Choice<'_>,
    form: Form,
) -> Result<Report, RunFault>
    ensures given { IfOk result (λ report. IsKnown (S.state store.old)
        → GivesCounts by choice.entry form ((S.state store.old).files save.now)
        ((S.state store.old).files (journal_name_of save.now)) report) }
    ensures report { IfOk result (IsReportOfCounts by choice.entry form) }
    ensures fits { OnOk result (IsKnown (S.state store.old)
        → FitTogether ((S.state store.old).files save.now)
        ((S.state store.old).files (journal_name_of save.now))) }
    ensures stops { IfErr result (SumStops (IsKnown (S.state store.old)) save.now
        (S.state store.old).files) }
    ensures frame { ReadsOften IsDeviceFault (S.state store.old) (S.state store.new) result }
    ensures calls { (file : List ℕ) (v : Saved) → IsPlainSave (S.state store.old) save.now file v
        → MakesAtMost IsDeviceFault (most_counting v)
        (S.state store.old) (S.state store.new) result }
{
    laws_of_kept();
    let laid = match laid_of_save(alloc, store, save) {
        Ok(laid) => laid,
        Err(fault) => return Err(fault),
    };
    let counts = match read_counts(alloc, store, save, &laid, by) {
        Ok(counts) => counts,
        Err(fault) => return Err(read_fault(fault)),
    };
    match report_of(alloc, counts, by, choice, form) {
        Ok(report) => Ok(report),
        Err(WantOfMemory) => Err(RunFault::WantOfMemory),
    }
}

// The report of those counts that are asked for.
fn report_of(
    alloc: Global,
    counts: Vec<(u32, u64)>,
    by: By,
    choice: Choice<'_>,
    form: Form,
) -> Result<Report, WantOfMemory>
    ensures { IfOk result (IsCountsReport by choice.entry form counts.items) }
{
    let given = chosen(alloc, counts, choice)?;
    let text = text_of(alloc, by, form, given.as_slice())?;
    Ok(Report::new(0, text))
}

// The counts of a save with those of its journal. They are looked for at the end of the save, and
// if they aren't found there, all lines up to them are read, and the bad one is named.
fn read_counts<S: Store>(
    alloc: Global,
    store: &mut S,
    save: &str,
    laid: &Laid,
    by: By,
) -> Result<Vec<(u32, u64)>, MergeFault>
    requires { IsLaidOn (IsKnown (S.state store.old)) ((S.state store.old).files save.now)
        laid.now }
    ensures counted { IfOk result (λ counts. IsKnown (S.state store.old)
        → AreCounted ((S.state store.old).files save.now) by (net_in laid.now.lists) counts.items) }
    ensures refused { IfErr result (λ fault. IsKnown (S.state store.old)
        → CheckStops ((S.state store.old).files save.now) fault) }
    ensures frame { ReadsOften merges.IsDeviceFault (S.state store.old) (S.state store.new)
        result }
    ensures calls { (file : List ℕ) (v : Saved) → IsPlainSave (S.state store.old) save.now file v
        → MakesAtMost merges.IsDeviceFault (most_at_end v)
        (S.state store.old) (S.state store.new) result }
{
    let found = match counts_at_end(alloc, store, save, laid, by) {
        Ok(found) => found,
        Err(fault) => return Err(fault),
    };
    match found {
        Some(counts) => Ok(counts),
        None => match counts_in_all(alloc, store, save, laid, by) {
            Ok(counts) => Ok(counts),
            Err(fault) => Err(fault),
        },
    }
}

// The same, once all lines before the counts were read.
fn counts_in_all<S: Store>(
    alloc: Global,
    store: &mut S,
    save: &str,
    laid: &Laid,
    by: By,
) -> Result<Vec<(u32, u64)>, MergeFault>
    requires { IsLaidOn (IsKnown (S.state store.old)) ((S.state store.old).files save.now)
        laid.now }
    ensures counted { IfOk result (λ counts. IsKnown (S.state store.old)
        → AreCounted ((S.state store.old).files save.now) by (net_in laid.now.lists) counts.items) }
    ensures refused { IfErr result (λ fault. IsKnown (S.state store.old)
        → CheckStops ((S.state store.old).files save.now) fault) }
    ensures frame { ReadsOften merges.IsDeviceFault (S.state store.old) (S.state store.new)
        result }
{
    laws_of_merged_saves();
    let (mut objects, opening) = match open(alloc, store, save, laid.start, &[]) {
        Ok(opened) => opened,
        Err(fault) => return Err(fault),
    };
    // Their sum isn't used.
    let mut sums = Sums::new(alloc, 0);
    match objects.sum(alloc, store, save, &opening.filter, &mut sums) {
        Ok(()) => {}
        Err(fault) => return Err(fault),
    }
    match counts_after(alloc, store, save, &mut objects.source, &opening, laid, by) {
        Ok(counts) => Ok(counts),
        Err(fault) => Err(fault),
    }
}

/// The counts that follow the objects of a save, with those of its journal.
pub(crate) fn counts_after<S: Store>(
    alloc: Global,
    store: &mut S,
    save: &str,
    source: &mut Source,
    opening: &Opening,
    laid: &Laid,
    by: By,
) -> Result<Vec<(u32, u64)>, MergeFault>
    requires number { opening.now.head.number ≤ max_sequence }
    requires base { opening.now.head.base ≤ opening.now.head.number }
    requires few { AreFew (net_in laid.now.lists) }
    ensures counted { IfOk result (λ counts. (file : List ℕ)
        → HasFile (S.state store.old) save.now file → CountsAfter by (net_in laid.now.lists)
        (most_counted opening.now.head) (left_of source.old file) counts.items) }
    ensures refused { IfErr result (NextStops (S.state store.old) save.now
        (both_at (most_counted opening.now.head)) source.old) }
    ensures frame { ReadsOften merges.IsDeviceFault (S.state store.old) (S.state store.new)
        result }
    ensures calls { ReadsOn (S.state store.old) (S.state store.new) save.now source.old
        source.new result }
{
    laws_of_merged_saves();
    let lists = &laid.lists;
    match by {
        By::User => users_after(alloc, store, save, source, opening, lists.users.as_slice()),
        By::Changeset => {
            let more = lists.changesets.as_slice();
            changesets_after(alloc, store, save, source, opening, more)
        }
    }
}

// The counts of users, which are next, with more of them added.
fn users_after<S: Store>(
    alloc: Global,
    store: &mut S,
    save: &str,
    source: &mut Source,
    opening: &Opening,
    more: &[(u32, u64)],
) -> Result<Vec<(u32, u64)>, MergeFault>
    requires number { opening.now.head.number ≤ max_sequence }
    requires base { opening.now.head.base ≤ opening.now.head.number }
    requires few { AllByRecursion IsFew more.now }
    ensures given { IfOk result (λ counts. ReadsCounts (S.state store.old) save.now
        (λ bytes. laid_after added more.now
        (counts_at (codes "users ") (most_counted opening.now.head) bytes))
        source.old source.new counts.items) }
    ensures refused { IfErr result (NextStops (S.state store.old) save.now
        (counts_at (codes "users ") (most_counted opening.now.head)) source.old) }
    ensures frame { ReadsOften merges.IsDeviceFault (S.state store.old) (S.state store.new)
        result }
    ensures calls { ReadsOn (S.state store.old) (S.state store.new) save.now source.old
        source.new result }
{
    let mut counts = match open_users(alloc, store, save, source, opening, more) {
        Ok(counts) => counts,
        Err(fault) => return Err(fault),
    };
    match gather(alloc, store, save, source, &mut counts) {
        Ok(given) => Ok(given),
        Err(fault) => Err(fault),
    }
}

// The counts of changesets, which follow those of users, with more of them added.
fn changesets_after<S: Store>(
    alloc: Global,
    store: &mut S,
    save: &str,
    source: &mut Source,
    opening: &Opening,
    more: &[(u32, u64)],
) -> Result<Vec<(u32, u64)>, MergeFault>
    requires number { opening.now.head.number ≤ max_sequence }
    requires base { opening.now.head.base ≤ opening.now.head.number }
    requires few { AllByRecursion IsFew more.now }
    ensures given { IfOk result (λ counts. (file : List ℕ)
        → HasFile (S.state store.old) save.now file → (users : List Counted) (after : List ℕ)
        → counts_at (codes "users ") (most_counted opening.now.head) (left_of source.old file)
        ≡ Some (users, after)
        → laid_after added more.now
        (counts_at (codes "changesets ") (most_counted opening.now.head) after)
        ≡ Some (counts.items, left_of source.new file)) }
    ensures refused { IfErr result (NextStops (S.state store.old) save.now
        (both_at (most_counted opening.now.head)) source.old) }
    ensures frame { ReadsOften merges.IsDeviceFault (S.state store.old) (S.state store.new)
        result }
    ensures calls { ReadsOn (S.state store.old) (S.state store.new) save.now source.old
        source.new result }
{
    match users_after(alloc, store, save, source, opening, &[]) {
        Ok(_users) => {}
        Err(fault) => return Err(fault),
    }
    let mut counts = match open_changesets(alloc, store, save, source, opening, more) {
        Ok(counts) => counts,
        Err(fault) => return Err(fault),
    };
    match gather(alloc, store, save, source, &mut counts) {
        Ok(given) => Ok(given),
        Err(fault) => Err(fault),
    }
}

// The counts that are ahead.
fn gather<S: Store>(
    alloc: Global,
    store: &mut S,
    save: &str,
    source: &mut Source,
    counts: &mut MergedCounts<'_>,
) -> Result<Vec<(u32, u64)>, MergeFault>
    ensures gathered { IfOk result (λ gathered. ReadsCounts (S.state store.old) save.now
        (λ bytes. counts_ahead counts.old bytes) source.old source.new gathered.items) }
    ensures refused { IfErr result (NextStops (S.state store.old) save.now
        (counts_ahead counts.old) source.old) }
    ensures frame { ReadsOften merges.IsDeviceFault (S.state store.old) (S.state store.new)
        result }
    ensures calls { ReadsOn (S.state store.old) (S.state store.new) save.now source.old
        source.new result }
{
    let mut gathered = Vec::new(alloc);
    'counts: loop {
        let count = match counts.next(alloc, store, save, source) {
            Ok(Some(count)) => count,
            Ok(None) => return Ok(gathered),
            Err(fault) => return Err(fault),
        };
        match gathered.push(count) {
            Ok(()) => {}
            Err(_) => return Err(MergeFault::WantOfMemory),
        }
    }
}
