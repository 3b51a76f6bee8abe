//! What the journal of a save lays over it.

ghost use Rattle.std.specs.Prelude.{◌≡◌, ℕ, List, Option, IfErr, IfOk, IfSome, OnOk};
ghost use Rattle.osm_store.specs.Files.{SpendsAtMost};
ghost use Rattle.osm_store.specs.Frames.{IsKnown, ReadsBetween};
ghost use Rattle.osm_kept.specs.Laying.{IsLaid, IsLaidIn, LaysOver, start_for};
ghost use Rattle.osm_kept.specs.Names.{journal_name_of};
ghost use Rattle.osm_kept.specs.Reaching.{FindsEnds, IsReach, ends_of};
ghost use Rattle.osm_kept.specs.Refusal.{HasNoOther, IsDeviceFault, IsOfBatches, KeptStops};
ghost use Rattle.osm_kept.specs.Refusal.{NetStops};

use crate::ends::read_ends_unlocked;
use crate::fault::KeptFault;
use crate::found::{Ends, JournalFile, Reach};
use crate::names::journal_name;
use crate::net::net_of;
use osm_net::lists::NetLists;
use osm_save::head::Head;
use osm_store::store::Store;
use std::alloc::Global;

/// What a journal lays over its save.
#[derive(Drop)]
pub struct Laid {
    /// The head that the save had when its journal was read, and has to have still. None if the
    /// journal says nothing, so that nothing is laid over the save: any save will do then, also one
    /// that another run has written since.
    pub start: Option<Head>,
    /// The number and the time that the two files come to, with the base of the save.
    pub head: Head,
    /// The net changes of the journal's batches under the filter of the save.
    pub lists: NetLists,
}

/// Reads what the journal of a save lays over it, while other runs may write the two files: first
/// the journal, as a whole, and then what the save begins with. None if there is no save and no
/// journal, or an empty one. A journal of another save is refused as `read_ends_unlocked` refuses
/// it.
pub fn read_laid<S: Store>(
    alloc: Global,
    store: &mut S,
    save: &str,
) -> Result<Option<Laid>, KeptFault>
    ensures laid { IfOk result (λ laid. IsKnown (S.state store.old)
        → IsLaidIn ((S.state store.old).files save.now)
        ((S.state store.old).files (journal_name_of save.now)) laid) }
    ensures plain { IfOk result (λ laid. IfSome laid IsLaid) }
    ensures free { IfOk result (λ laid. IsKnown (S.state store.old) → HasNoOther
        ((S.state store.old).files save.now)
        ((S.state store.old).files (journal_name_of save.now))) }
    ensures refused { IfErr result (λ fault. IsKnown (S.state store.old) → KeptStops
        ((S.state store.old).files save.now)
        ((S.state store.old).files (journal_name_of save.now)) fault) }
    ensures frame { ReadsBetween IsDeviceFault 2 4 (S.state store.old) (S.state store.new) result }
    ensures spends { OnOk result
        (SpendsAtMost 2 (S.state store.old).left (S.state store.new).left) }
{
    let journal = journal_name(alloc, save)?;
    let Ends { kept, journal } = match read_ends_unlocked(alloc, store, save, &journal) {
        Ok(ends) => ends,
        Err(fault) => return Err(fault),
    };
    let Some(reach) = kept else {
        return Ok(None);
    };
    match laid_of(alloc, &reach, &journal) {
        Ok(laid) => Ok(Some(laid)),
        Err(fault) => Err(fault),
    }
}

// What the batches of a journal lay over its save.
fn laid_of(alloc: Global, reach: &Reach, journal: &JournalFile) -> Result<Laid, KeptFault>
    requires { IsReach reach.now journal.now }
    ensures laid { IfOk result (λ laid. (told file : Option (List ℕ))
        → FindsEnds told file (ends_of reach.now journal.now) → LaysOver told file laid) }
    ensures plain { IfOk result IsLaid }
    ensures refused { IfErr result (λ fault. (told file : Option (List ℕ))
        → FindsEnds told file (ends_of reach.now journal.now) → NetStops told file fault) }
    ensures batches { IfErr result IsOfBatches }
{
    let net = net_of(alloc, reach, journal)?;
    let lists = net.into_lists(alloc)?;
    Ok(Laid {
        start: start_for(journal, reach.start.head),
        head: reach.head,
        lists,
    })
}

// The head that a save has to have for that journal to be laid over it, if it had this one when the
// journal was read. Beside a journal that says nothing any save will do.
fn start_for(journal: &JournalFile, head: Head) -> Option<Head>
    ensures { result ≡ start_for journal.now head }
{
    match journal {
        JournalFile::Counts(_) => Some(head),
        JournalFile::Nothing | JournalFile::OfAnother => None,
    }
}
