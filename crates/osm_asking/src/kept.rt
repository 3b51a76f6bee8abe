//! What a save and its journal keep, opened to be asked for one object after the other.

ghost use Rattle.std.specs.Prelude.{◌≡◌, ◌<◌, List, ℕ, Option, Some, IfErr, IfOk, IfSome, length};
ghost use Rattle.std.specs.Option.{option_copied};
ghost use Rattle.osm_blocks.specs.Frames.{ReadsOften};
ghost use Rattle.osm_blocks.specs.Places.{HasFile};
ghost use Rattle.osm_model.specs.KeyOrder.{key_cmp};
ghost use Rattle.osm_opl.specs.Written.{line_text};
ghost use Rattle.osm_net.specs.Net.{AreKeysRising, net_at};
ghost use Rattle.osm_save.specs.declared.save.Saved.{Saved};
ghost use Rattle.osm_store.specs.Frames.{IsKnown, MakesAtMost};
ghost use Rattle.osm_kept.specs.Names.{journal_name_of};
ghost use Rattle.osm_asking.specs.Asking.{AnswerStops, HasKey, HasLineOf, IsAnswer, IsAskFailed};
ghost use Rattle.osm_asking.specs.Asking.{IsOpened, OpenStops};
ghost use Rattle.osm_asking.specs.Finding.{IsWhole};
ghost use Rattle.osm_asking.specs.Reads.{IsPlainText, NoneBegins, most_reads};
ghost use Rattle.osm_asking.specs.Refusal.{IsFailed};
ghost use Rattle.osm_asking.specs.Steps.Answering.{IsEntryAt, IsSaved, IsTaken, OwnStops};
ghost use Rattle.osm_asking.specs.Steps.Answering.{SavedStops, TakenStops};

use crate::ask_fault::AskFault;
use crate::fault::SearchFault;
use crate::find::{Spot, Wanted, find_line};
use crate::opening::{Opened, open_lines};
use osm_kept::laid::read_laid;
use osm_kept::laws::laws_of_kept;
use osm_model::change::Change;
use osm_model::kind::Key;
use osm_model::memory::WantOfMemory;
use osm_opl::lines::write_line;
use osm_save::objects::read_object;
use osm_store::store::Store;
use std::alloc::Global;
use std::cmp::Ordering;

/// A save and its journal that were opened.
#[derive(Drop)]
pub struct Sources {
    /// What the save begins with, and where the lines of its objects begin.
    pub opened: Opened,
    /// What the journal leaves of the objects that it changes, by rising keys.
    pub entries: Vec<(Key, Option<Change>)>,
}

/// Opens a save and its journal. The save has to be there. The journal is read as a whole, and of
/// the save the lines before the objects. A journal of another save is refused as `show` refuses
/// it.
pub fn open_sources<S: Store>(alloc: Global, store: &mut S, save: &str) -> Result<Sources, AskFault>
    ensures opened { IfOk result (IsOpened (IsKnown (S.state store.old))
        ((S.state store.old).files save.now)
        ((S.state store.old).files (journal_name_of save.now))) }
    ensures stops { IfErr result (OpenStops (S.state store.old) save.now
        ((S.state store.old).files (journal_name_of save.now))) }
    ensures frame { ReadsOften IsAskFailed (S.state store.old) (S.state store.new) result }
{
    laws_of_kept();
    let entries = match read_laid(alloc, store, save) {
        Ok(Some(laid)) => laid.lists.objects,
        Ok(None) => return Err(AskFault::NoSave),
        Err(fault) => return Err(AskFault::Kept(fault)),
    };
    match open_lines(alloc, store, save) {
        Ok(opened) => Ok(Sources { opened, entries }),
        Err(fault) => Err(AskFault::Search(fault)),
    }
}

/// Gives the object with that key, and leaves its line in `spelled`; None if it isn't there. What
/// the journal leaves counts, and otherwise the line of the save. `end` is what `find_line` takes.
pub fn answer<S: Store>(
    alloc: Global,
    store: &mut S,
    save: &str,
    sources: &Sources,
    key: Key,
    end: &mut u64,
    spelled: &mut Vec<u8>,
) -> Result<Option<Change>, AskFault>
    ensures answered { IfOk result (λ o. (journal : Option (List ℕ))
        → IsOpened (IsKnown (S.state store.old)) ((S.state store.old).files save.now) journal
        sources.now
        → IsAnswer (IsKnown (S.state store.old)) ((S.state store.old).files save.now) journal
        sources.now key o) }
    ensures line { IfOk result (λ o. IfSome o (λ c. spelled.new.items ≡ line_text c)) }
    ensures stops { IfErr result (λ fault. (journal : Option (List ℕ))
        → IsOpened (IsKnown (S.state store.old)) ((S.state store.old).files save.now) journal
        sources.now
        → AnswerStops (S.state store.old) save.now fault) }
    ensures frame { ReadsOften IsAskFailed (S.state store.old) (S.state store.new) result }
    ensures calls { (file : List ℕ) (v : Saved)
        → IsPlainText (S.state store.old) save.now sources.now.opened.place file v
        → NoneBegins file end.old
        → MakesAtMost IsAskFailed most_reads (S.state store.old) (S.state store.new) result }
    ensures ended { (file : List ℕ) (v : Saved)
        → IsPlainText (S.state store.old) save.now sources.now.opened.place file v
        → NoneBegins file end.old → NoneBegins file end.new }
{
    match entry_at(sources.entries.as_slice(), key) {
        Some(left) => match left_of(alloc, left, spelled) {
            Ok(left) => Ok(left),
            Err(WantOfMemory) => Err(AskFault::WantOfMemory),
        },
        None => match saved(alloc, store, save, &sources.opened, key, end, spelled) {
            Ok(object) => Ok(object),
            Err(fault) => Err(AskFault::Search(fault)),
        },
    }
}

// What an entry leaves of an object, with its line.
fn left_of(
    alloc: Global,
    left: &Option<Change>,
    spelled: &mut Vec<u8>,
) -> Result<Option<Change>, WantOfMemory>
    ensures left { IfOk result (λ o. o ≡ left.now) }
    ensures line { IfOk result (λ o. IfSome o (λ c. spelled.new.items ≡ line_text c)) }
{
    match left {
        None => Ok(None),
        Some(object) => {
            spelled.clear();
            write_line(object, spelled)?;
            Ok(Some(object.copy(alloc)?))
        }
    }
}

// The entry of a key; None if there is none.
fn entry_at(entries: &[(Key, Option<Change>)], key: Key) -> Option<&Option<Change>>
    ensures { AreKeysRising entries.now → option_copied result ≡ net_at entries.now key }
{
    match place_of(entries, key) {
        Some(at) => Some(&entries[at].1),
        None => None,
    }
}

// The index of the entry of a key.
fn place_of(entries: &[(Key, Option<Change>)], key: Key) -> Option<usize>
    ensures within { IfSome result (λ at. at < length entries.now) }
    ensures there { AreKeysRising entries.now → IsEntryAt entries.now key result }
{
    entries
        .binary_search_by(
            |entry: &(Key, Option<Change>)| -> Ordering
                ensures { result ≡ key_cmp entry.now.0 key }
            { entry.0.cmp(&key) },
        )
        .ok()
}

// The object with that key in a save, with its line.
fn saved<S: Store>(
    alloc: Global,
    store: &mut S,
    save: &str,
    opened: &Opened,
    key: Key,
    end: &mut u64,
    spelled: &mut Vec<u8>,
) -> Result<Option<Change>, SearchFault>
    ensures saved { IfOk result (IsSaved (S.state store.old) save.now opened.now key) }
    ensures own { IfOk result (HasKey key) }
    ensures whole { IfOk result (λ o. IfSome o (λ c. (file : List ℕ)
        → HasFile (S.state store.old) save.now file → HasLineOf file c)) }
    ensures line { IfOk result (λ o. IfSome o (λ c. spelled.new.items ≡ line_text c)) }
    ensures stops { IfErr result (SavedStops (S.state store.old) save.now opened.now) }
    ensures frame { ReadsOften IsFailed (S.state store.old) (S.state store.new) result }
    ensures calls { (file : List ℕ) (v : Saved)
        → IsPlainText (S.state store.old) save.now opened.now.place file v
        → NoneBegins file end.old
        → MakesAtMost IsFailed most_reads (S.state store.old) (S.state store.new) result }
    ensures ended { (file : List ℕ) (v : Saved)
        → IsPlainText (S.state store.old) save.now opened.now.place file v
        → NoneBegins file end.old → NoneBegins file end.new }
{
    let spot = match find_line(alloc, store, save, opened.place, Wanted::Object(key), end) {
        Ok(spot) => spot,
        Err(fault) => return Err(fault),
    };
    match taken(alloc, opened, key, &spot, spelled) {
        Ok(object) => Ok(object),
        Err(fault) => Err(fault),
    }
}

// The object of a line that was found, with the line; None if it isn't there.
fn taken(
    alloc: Global,
    opened: &Opened,
    key: Key,
    spot: &Spot,
    spelled: &mut Vec<u8>,
) -> Result<Option<Change>, SearchFault>
    ensures taken { IfOk result (IsTaken opened.now key spot.now) }
    ensures own { IfOk result (HasKey key) }
    ensures whole { IfOk result (λ o. IfSome o (λ c. (file : List ℕ)
        → IsWhole file spot.now → HasLineOf file c)) }
    ensures line { IfOk result (λ o. IfSome o (λ c. spelled.new.items ≡ line_text c)) }
    ensures stops { IfErr result (TakenStops opened.now key spot.now) }
{
    if !spot.is_there {
        return Ok(None);
    }
    match read_object(alloc, &opened.filter, None, spot.line.as_slice(), spelled) {
        Ok(Some(object)) => match own(object, key, spot.place) {
            Ok(object) => Ok(object),
            Err(fault) => Err(fault),
        },
        Ok(None) => Err(SearchFault::BadLine(spot.place)),
        Err(WantOfMemory) => Err(SearchFault::WantOfMemory),
    }
}

// The object of a line, which has to have the key.
fn own(object: Change, key: Key, place: u64) -> Result<Option<Change>, SearchFault>
    ensures own { IfOk result (λ o. (o ≡ Some object) × (object.key ≡ key)) }
    ensures stops { IfErr result (OwnStops key object place) }
{
    if object.key() == key {
        return Ok(Some(object));
    }
    drop(object);
    Err(SearchFault::BadLine(place))
}
