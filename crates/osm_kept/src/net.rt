//! The net changes of a journal.

ghost use Rattle.std.specs.Prelude.{◌≡◌, ◌<◌, ℕ, List, Option, length, IfErr, IfOk};
ghost use Rattle.osm_model.specs.Limits.{max_file};
ghost use Rattle.osm_journal.specs.Journal.{JournalValue, SpellsJournal, journal_of, opening_lines};
ghost use Rattle.osm_kept.specs.Finding.{Finds, IsTakenOn};
ghost use Rattle.osm_kept.specs.Laying.{IsNetIn};
ghost use Rattle.osm_kept.specs.Reaching.{FindsEnds, IsReach, ends_of, found_of, kept_of};
ghost use Rattle.osm_kept.specs.Refusal.{IsOfBatches, NetStops};
ghost use Rattle.osm_kept.specs.Steps.Taking.{IsTaken, TakingStops};

use crate::batches::take_batches;
use crate::fault::KeptFault;
use crate::found::{JournalFile, Reach};
use crate::own::read_text;
use osm_journal::journal::Journal;
use osm_model::filter::Filter;
use osm_net::net::Net;
use osm_save::version::Version;
use std::alloc::Global;

/// Reads the batches of a journal, and gives the net changes that they come to under the filter of
/// the save. The net changes are empty if the journal says nothing. The lines of the journal are
/// read again.
pub fn net_of(alloc: Global, reach: &Reach, journal: &JournalFile) -> Result<Net, KeptFault>
    requires { IsReach reach.now journal.now }
    ensures found { IfOk result (λ net. (told file : Option (List ℕ))
        → FindsEnds told file (ends_of reach.now journal.now)
        → Finds told file (found_of reach.now net journal.now)) }
    ensures from { IfOk result (λ net. (told file : Option (List ℕ))
        → FindsEnds told file (ends_of reach.now journal.now)
        → IsNetIn told file reach.now.start.filter net) }
    ensures taken { IfOk result (λ net. IsTakenOn (kept_of reach.now net)) }
    ensures refused { IfErr result (λ fault. (told file : Option (List ℕ))
        → FindsEnds told file (ends_of reach.now journal.now) → NetStops told file fault) }
    ensures plain { IfErr result IsOfBatches }
{
    match journal {
        JournalFile::Counts(bytes) => take_text(alloc, &reach.start.filter, bytes.as_slice()),
        JournalFile::Nothing | JournalFile::OfAnother => Ok(Net::new(alloc)),
    }
}

// What the batches of the journal that the bytes spell come to.
fn take_text(alloc: Global, filter: &Filter, bytes: &[u8]) -> Result<Net, KeptFault>
    requires spelled { (value : JournalValue) × SpellsJournal bytes.now value }
    ensures taken { IfOk result (IsTaken filter.now bytes.now) }
    ensures stops { IfErr result (TakingStops bytes.now) }
{
    let journal = read_text(alloc, bytes)?;
    let first = count_opening(&journal) + 1;
    take_batches(alloc, filter, first, journal.batches.as_slice())
}

// How many lines a journal has before its batches.
fn count_opening(journal: &Journal<'_>) -> u64
    ensures count { result ≡ length (opening_lines (journal_of journal.now)) }
    ensures few { result < max_file }
{
    journal.filter.limits();
    match journal.version {
        Version::One => 8,
        Version::Two => 9,
        Version::Three => 11 + journal.filter.keys().len() as u64,
    }
}
