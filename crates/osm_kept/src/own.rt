//! The text of a journal, and whether the journal belongs to a save.

ghost use Rattle.std.specs.Prelude.{◌≡◌, ◌↔◌, IfErr, IfOk, IsTrue};
ghost use Rattle.osm_journal.specs.Journal.{SpellsJournal, journal_of};
ghost use Rattle.osm_kept.specs.Steps.Starting.{start_in};
ghost use Rattle.osm_kept.specs.Steps.Taking.{TextStops};

use crate::fault::KeptFault;
use crate::start::Start;
use osm_journal::journal::{Journal, JournalError, read_journal};
use osm_model::filter::{Filter, laws_of_filters};
use osm_save::head::Head;
use osm_save::version::Version;
use std::alloc::Global;

/// Reads a journal from its bytes.
pub(crate) fn read_text(alloc: Global, bytes: &[u8]) -> Result<Journal<'_>, KeptFault>
    ensures spelled { IfOk result (λ journal. SpellsJournal bytes.now (journal_of journal)) }
    ensures stops { IfErr result (TextStops bytes.now) }
{
    match read_journal(alloc, bytes) {
        Ok(journal) => Ok(journal),
        Err(JournalError::BadLine(line)) => Err(KeptFault::BadJournal(line)),
        Err(JournalError::WantOfMemory) => Err(KeptFault::WantOfMemory),
    }
}

/// Whether the journal belongs to a save that begins with `start`.
pub(crate) fn belongs(journal: &Journal<'_>, start: &Start) -> bool
    ensures { IsTrue result ↔ (start_in (journal_of journal.now) ≡ start.now) }
{
    is_start(
        journal.version,
        journal.head,
        &journal.filter,
        journal.objects,
        start,
    )
}

/// Whether a save with that version, head, filter and number of objects begins with `start`.
pub(crate) fn is_start(
    version: Version,
    head: Head,
    filter: &Filter,
    objects: u64,
    start: &Start,
) -> bool
    ensures { IsTrue result ↔ (record {
      version = version;
      head = head;
      filter = filter.now;
      objects = objects;
    } ≡ start.now) }
{
    has_head(version, head, start) && has_lists(filter, objects, start)
}

// Whether the version and the head are those of a save that begins so.
fn has_head(version: Version, head: Head, start: &Start) -> bool
    ensures { IsTrue result ↔ (version ≡ start.now.version) × (head ≡ start.now.head) }
{
    version == start.version && head == start.head
}

// Whether the filter and the number of objects are those of a save that begins so.
fn has_lists(filter: &Filter, objects: u64, start: &Start) -> bool
    ensures { IsTrue result ↔ (filter.now ≡ start.now.filter) × (objects ≡ start.now.objects) }
{
    are_same(filter, &start.filter) && objects == start.objects
}

// Whether two filters are equal.
fn are_same(filter: &Filter, other: &Filter) -> bool
    ensures { IsTrue result ↔ (filter.now ≡ other.now) }
{
    laws_of_filters();
    filter == other
}
