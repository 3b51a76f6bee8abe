//! The head that a save and its journal come to.

ghost use Rattle.std.specs.Prelude.{◌≡◌, ◌↔◌, ◌+◌, ◌<◌, ◌≤◌, ℕ, List, [], Option, IfErr, IfOk};
ghost use Rattle.std.specs.Prelude.{IfSome, IsTrue, OnOk};
ghost use Rattle.osm_model.specs.Limits.{max_sequence};
ghost use Rattle.osm_store.specs.Files.{SpendsAtMost};
ghost use Rattle.osm_store.specs.Frames.{IsKnown, ReadsBetween};
ghost use Rattle.osm_journal.specs.Openings.{OpensJournal};
ghost use Rattle.osm_kept.specs.Finding.{IsStart};
ghost use Rattle.osm_kept.specs.Heads.{ComesToHead, FindsHead, IsHead, head_said, start_said};
ghost use Rattle.osm_kept.specs.Refusal.{HeadsStop, IsDeviceFault, IsOfFirstLines, IsOfOnce};
ghost use Rattle.osm_kept.specs.Refusal.{IsOfOtherJournal, LacksCalls, OpensAbove, OpensNoOther};
ghost use Rattle.osm_kept.specs.Steps.Heading.{BesideStops, FirstStops, HoldsFirst, JudgeStops};
ghost use Rattle.osm_kept.specs.Steps.Heading.{OpeningStops, first_of};
ghost use Rattle.osm_kept.specs.Steps.Taking.{IsOfText};

use crate::fault::KeptFault;
use crate::own::is_start;
use crate::start::{START, Start, read_start};
use osm_journal::journal::JournalError;
use osm_journal::opening::{Opening, journal_opening};
use osm_save::head::Head;
use osm_store::store::{Store, StoreError};
use std::alloc::Global;

/// Reads the head that a save and its journal come to: the sequence number, the time and the base;
/// None if there is no save, and no journal or an empty one. Only the first 400 KiB of each file
/// are read, first of the journal and then of the save, as in `read_ends_unlocked`. Both are read
/// again before a journal is refused as one of another save. The journal is judged only by the
/// lines before its batches.
pub fn read_heads<S: Store>(
    alloc: Global,
    store: &mut S,
    save: &str,
    journal: &str,
) -> Result<Option<Head>, KeptFault>
    ensures found { IfOk result (λ head. IsKnown (S.state store.old) → FindsHead
        ((S.state store.old).files save.now) ((S.state store.old).files journal.now) head) }
    ensures limits { IfOk result (λ head. IfSome head IsHead) }
    ensures refused { IfErr result (λ fault. IsKnown (S.state store.old) → HeadsStop
        ((S.state store.old).files save.now) ((S.state store.old).files journal.now) fault) }
    ensures plain { IfErr result IsOfFirstLines }
    ensures frame { ReadsBetween IsDeviceFault 2 4 (S.state store.old) (S.state store.new) result }
    ensures spends { OnOk result
        (SpendsAtMost 2 (S.state store.old).left (S.state store.new).left) }
    ensures lacks { IfErr result (λ fault. IsKnown (S.state store.old) → OpensNoOther
        ((S.state store.old).files save.now) ((S.state store.old).files journal.now)
        → LacksCalls fault (S.state store.old).left) }
{
    match read_once(alloc, store, save, journal) {
        Ok(head) => Ok(head),
        Err(KeptFault::OtherJournal(_number)) => read_again(alloc, store, save, journal),
        Err(fault) => Err(fault),
    }
}

// Reads two files again of which the journal was one of another save: it still is, or they changed.
fn read_again<S: Store>(
    alloc: Global,
    store: &mut S,
    save: &str,
    journal: &str,
) -> Result<Option<Head>, KeptFault>
    ensures never { IfOk result (λ head. ⊥) }
    ensures refused { IfErr result (λ fault. IsKnown (S.state store.old) → (number : ℕ)
        → OpensAbove
        ((S.state store.old).files save.now) ((S.state store.old).files journal.now) number
        → HeadsStop
        ((S.state store.old).files save.now) ((S.state store.old).files journal.now) fault) }
    ensures plain { IfErr result IsOfFirstLines }
    ensures frame { ReadsBetween IsDeviceFault 2 2 (S.state store.old) (S.state store.new) result }
{
    read_once(alloc, store, save, journal)?;
    Err(KeptFault::Changed)
}

// Reads the head that the two files come to, by one call each.
fn read_once<S: Store>(
    alloc: Global,
    store: &mut S,
    save: &str,
    journal: &str,
) -> Result<Option<Head>, KeptFault>
    ensures found { IfOk result (λ head. IsKnown (S.state store.old) → FindsHead
        ((S.state store.old).files save.now) ((S.state store.old).files journal.now) head) }
    ensures free { IfOk result (λ head. IsKnown (S.state store.old) → OpensNoOther
        ((S.state store.old).files save.now) ((S.state store.old).files journal.now)) }
    ensures limits { IfOk result (λ head. IfSome head IsHead) }
    ensures refused { IfErr result (λ fault. IsKnown (S.state store.old) → HeadsStop
        ((S.state store.old).files save.now) ((S.state store.old).files journal.now) fault) }
    ensures plain { IfErr result IsOfFirstLines }
    ensures once { IfErr result IsOfOnce }
    ensures frame { ReadsBetween IsDeviceFault 2 2 (S.state store.old) (S.state store.new) result }
    ensures spends { IfErr result (λ fault. IsOfOtherJournal fault
        → SpendsAtMost 2 (S.state store.old).left (S.state store.new).left) }
    ensures lacks { IfErr result (λ fault. IsKnown (S.state store.old)
        → LacksCalls fault (S.state store.old).left) }
{
    let bytes = read_first(alloc, store, journal)?;
    let start = read_start(alloc, store, save)?;
    head_of_both(alloc, start, bytes.as_slice())
}

// The first bytes of a journal; none if there is no such file.
fn read_first<S: Store>(alloc: Global, store: &mut S, name: &str) -> Result<Vec<u8>, KeptFault>
    ensures read { IfOk result (λ bytes. IsKnown (S.state store.old)
        → first_of ((S.state store.old).files name.now) ≡ bytes.items) }
    ensures stops { IfErr result FirstStops }
    ensures frame { ReadsBetween IsDeviceFault 1 1 (S.state store.old) (S.state store.new) result }
{
    match store.read_prefix(alloc, name, START) {
        Ok(Some(bytes)) => Ok(bytes),
        Ok(None) => Ok(Vec::new(alloc)),
        Err(StoreError::Device) => Err(KeptFault::JournalFailed),
        Err(StoreError::TooLarge) => unreachable!(),
        Err(StoreError::WantOfMemory) => Err(KeptFault::WantOfMemory),
    }
}

// The head that a save, if there is one, and the first bytes of a journal come to.
fn head_of_both(
    alloc: Global,
    start: Option<Start>,
    bytes: &[u8],
) -> Result<Option<Head>, KeptFault>
    requires { IfSome start IsStart }
    ensures found { IfOk result (λ head. (told journal : Option (List ℕ))
        → HoldsFirst told journal start bytes.now → FindsHead told journal head) }
    ensures limits { IfOk result (λ head. IfSome head IsHead) }
    ensures refused { IfErr result (λ fault. (told journal : Option (List ℕ))
        → HoldsFirst told journal start bytes.now → HeadsStop told journal fault) }
    ensures plain { IfErr result IsOfText }
{
    match start {
        Some(start) => match head_beside(alloc, &start, bytes) {
            Ok(head) => Ok(Some(head)),
            Err(fault) => Err(fault),
        },
        None => match judge(alloc, bytes) {
            Ok(()) => Ok(None),
            Err(fault) => Err(fault),
        },
    }
}

// Without a save the journal has to be empty.
fn judge(alloc: Global, bytes: &[u8]) -> Result<(), KeptFault>
    ensures empty { IfOk result (λ _. bytes.now ≡ []) }
    ensures stops { IfErr result (JudgeStops bytes.now) }
{
    if bytes.is_empty() {
        return Ok(());
    }
    let opening = opening_of(alloc, bytes)?;
    Err(KeptFault::OtherJournal(last_head(&opening).number))
}

// The head that the first bytes of a journal come to beside a save that begins so.
fn head_beside(alloc: Global, start: &Start, bytes: &[u8]) -> Result<Head, KeptFault>
    requires { IsStart start.now }
    ensures comes { IfOk result (ComesToHead bytes.now start.now) }
    ensures limits { IfOk result IsHead }
    ensures stops { IfErr result (BesideStops start.now bytes.now) }
{
    if bytes.is_empty() {
        return Ok(start.head);
    }
    let opening = opening_of(alloc, bytes)?;
    let last = last_head(&opening);
    if opens(&opening, start) {
        return Ok(last);
    }
    if last.number > start.head.number {
        return Err(KeptFault::OtherJournal(last.number));
    }
    Ok(start.head)
}

// Whether a journal that opens so is one of a save that begins so.
fn opens(opening: &Opening, start: &Start) -> bool
    ensures { IsTrue result ↔ (start_said opening.now ≡ start.now) }
{
    is_start(
        opening.version,
        opening.head,
        &opening.filter,
        opening.objects,
        start,
    )
}

// The head of the last batch of a journal that opens so.
fn last_head(opening: &Opening) -> Head
    requires { opening.now.head.number + opening.now.many ≤ max_sequence }
    ensures { result ≡ head_said opening.now }
{
    Head {
        number: opening.head.number + opening.many as u32,
        base: opening.head.base,
        time: Some(opening.last),
    }
}

// What a journal that begins with the bytes says before its batches.
fn opening_of(alloc: Global, bytes: &[u8]) -> Result<Opening, KeptFault>
    ensures opens { IfOk result (OpensJournal bytes.now) }
    ensures stops { IfErr result (OpeningStops bytes.now) }
{
    match journal_opening(alloc, bytes) {
        Ok(opening) => Ok(opening),
        Err(JournalError::BadLine(line)) => Err(KeptFault::BadJournal(line)),
        Err(JournalError::WantOfMemory) => Err(KeptFault::WantOfMemory),
    }
}
