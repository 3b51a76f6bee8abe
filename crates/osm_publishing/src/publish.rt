//! Publishing the next sequence in a folder.

ghost use Rattle.std.specs.Prelude.{◌≡◌, ℕ, ◌≤◌, [], IfErr, IfOk, OnOk};
ghost use Rattle.osm_publisher.specs.Published.{written_of};
ghost use Rattle.osm_publisher.specs.Publisher.{CanClose, IsSmall, closing};
ghost use Rattle.osm_model.specs.Limits.{max_sequence};
ghost use Rattle.osm_opl.specs.File.{SpellsOpl};
ghost use Rattle.osm_runs.specs.Folder.{KeepsOthers, OverFolder};
ghost use Rattle.osm_store.specs.Frames.{IsKnown};
ghost use Rattle.osm_runs.specs.Names.{top_name_of};
ghost use Rattle.osm_publishing.specs.Publication.{GoesOnFrom, IsPublished, NotReadyIn, PublishOut};
ghost use Rattle.osm_publishing.specs.Publication.{PublishStops, PublishesOver, Writes};
ghost use Rattle.osm_runs.specs.Reports.{publish_report_of};
ghost use Rattle.osm_runs.specs.Runs.{Calls, IfFileKnown, IfFilesKnown, Reads, RunsOut, StopsAt};
ghost use Rattle.osm_publishing.specs.Steps.Publishing.{AreNames, ChangesStop, CloseStops};
ghost use Rattle.osm_publishing.specs.Steps.Publishing.{IsChangesOf};
ghost use Rattle.osm_publishing.specs.Steps.Publishing.{IsCut, IsMadeIn, IsMadeOf, ParseStops};
ghost use Rattle.osm_publishing.specs.Steps.Publishing.{ReadsOut, TopStops, WritesOut, from_top};
ghost use Rattle.osm_publishing.specs.Steps.Publishing.{writes_to};

use osm_model::batch::Batch;
use osm_model::form::{ChangeForm, FormError};
use osm_model::limits::MAX_FILE;
use osm_model::memory::WantOfMemory;
use osm_model::time::time_read;
use osm_opl::opl::Opl;
use osm_publisher::published::Published;
use osm_publisher::publisher::{CloseError, Publisher};
use osm_runs::fault::{FileName, RunFault};
use osm_runs::files::{read_present, write_file};
use osm_runs::names::{file_name, top_name};
use osm_runs::report::{Report, publish_report};
use osm_runs::top::find_top;
use osm_state::laws::laws_of_state;
use osm_state::paths::Suffix;
use osm_state::state::State;
use osm_store::store::Store;
use std::alloc::Global;

// The names of the files of one sequence, and of the newest state.
#[derive(Drop)]
pub(crate) struct FolderNames {
    o5c: String,
    opl: String,
    state: String,
    top: String,
}

// All that a publication writes and prints.
#[derive(Drop)]
pub(crate) struct Publication {
    pub(crate) published: Published,
    pub(crate) names: FolderNames,
    pub(crate) report: Report,
}

/// Publishes the changes of an OPL file as the folder's next sequence, at the time `now`, which is
/// `YYYY-MM-DDTHH:MM:SSZ`. The number's three files are written first and `state.txt` last, so a
/// refused run leaves the folder with the sequences that were published before.
pub fn publish_run<S: Store>(
    alloc: Global,
    store: &mut S,
    dir: &str,
    changes: &str,
    now: &str,
) -> Result<Report, RunFault>
    ensures published { IfOk result (λ report. IfFilesKnown (S.state store.old) (S.state store.new)
        (λ old new. IsPublished dir.now changes.now now.now old new report)) }
    ensures report { IfOk result (λ report. (n : ℕ) × (report ≡ publish_report_of n)) }
    ensures stops { IfErr result (PublishStops (IsKnown (S.state store.old))
        dir.now changes.now now.now (S.state store.old).files (S.state store.new).files) }
    ensures over { OverFolder (S.state store.old) dir.now (λ published. PublishesOver published
        dir.now changes.now now.now (S.state store.old).files (S.state store.new).files result) }
    ensures out { RunsOut (S.state store.old) result
        (PublishOut dir.now (S.state store.old).files) }
    ensures others { KeepsOthers (S.state store.old) (S.state store.new) dir.now }
    ensures frame { Calls 6 (S.state store.old) (S.state store.new) result }
{
    laws_of_state();
    let made = prepare(alloc, store, dir, changes, now)?;
    write_files(alloc, store, &made.names, &made.published)?;
    Ok(made.report)
}

// Reads all that a publication needs, and makes all that it writes and prints.
fn prepare<S: Store>(
    alloc: Global,
    store: &mut S,
    dir: &str,
    changes: &str,
    now: &str,
) -> Result<Publication, RunFault>
    ensures made { IfOk result (IsMadeIn (S.state store.old) dir.now changes.now now.now) }
    ensures stops { IfErr result (NotReadyIn (S.state store.old) dir.now changes.now now.now) }
    ensures out { RunsOut (S.state store.old) result ReadsOut }
    ensures frame { Reads 2 (S.state store.old) (S.state store.new) result }
{
    let Some(time) = time_read(now.as_bytes()) else {
        return Err(RunFault::BadNow);
    };
    let top = newest(alloc, store, dir)?;
    let batch = read_changes(alloc, store, changes)?;
    make(alloc, dir, publisher_from(alloc, top), batch, time)
}

// Makes the files of the publisher's next sequence, which has those changes and that time.
pub(crate) fn make(
    alloc: Global,
    dir: &str,
    mut publisher: Publisher,
    batch: Batch,
    time: u32,
) -> Result<Publication, RunFault>
    requires { publisher.pending ≡ [] }
    ensures made { IfOk result
        (IsMadeOf dir.now (closing (record publisher { pending = batch }) time)) }
    ensures can_close { OnOk result (CanClose (record publisher { pending = batch }) time) }
    ensures stops { IfErr result (CloseStops (record publisher { pending = batch }) time) }
{
    publisher.take(batch);
    let published = close(alloc, &mut publisher, time)?;
    let names = names_of(alloc, dir, published.number())?;
    let report = publish_report(alloc, published.number())?;
    Ok(Publication {
        published,
        names,
        report,
    })
}

// The publisher that goes on from the newest state.
pub(crate) fn publisher_from(alloc: Global, top: Option<State>) -> Publisher
    ensures { result ≡ from_top top }
{
    match top {
        Some(state) => Publisher::resume(alloc, &state),
        None => Publisher::new(alloc),
    }
}

// The newest state, if there is one.
#[tactic(auto, using(crate::proofs::PublishLemmas::goes_on_from_found, crate::proofs::PublishLemmas::not_found))]
pub(crate) fn newest<S: Store>(
    alloc: Global,
    store: &mut S,
    dir: &str,
) -> Result<Option<State>, RunFault>
    ensures goes_on { IfOk result (IfFileKnown (S.state store.old) (top_name_of dir.now)
        (λ told top. GoesOnFrom told (from_top top).number (from_top top).time)) }
    ensures stops { IfErr result (StopsAt (S.state store.old) (top_name_of dir.now) TopStops) }
    ensures frame { Reads 1 (S.state store.old) (S.state store.new) result }
{
    find_top(alloc, store, dir)
}

// The changes of an OPL file.
pub(crate) fn read_changes<S: Store>(
    alloc: Global,
    store: &mut S,
    name: &str,
) -> Result<Batch, RunFault>
    ensures read { IfOk result (IfFileKnown (S.state store.old) name.now IsChangesOf) }
    ensures stops { IfErr result (StopsAt (S.state store.old) name.now ChangesStop) }
    ensures frame { Reads 1 (S.state store.old) (S.state store.new) result }
{
    let bytes = read_present(alloc, store, FileName::Changes, name, MAX_FILE as u64)?;
    parse(alloc, bytes.as_slice())
}

fn parse(alloc: Global, bytes: &[u8]) -> Result<Batch, RunFault>
    ensures spelled { IfOk result (λ batch. SpellsOpl bytes.now batch) }
    ensures stops { IfErr result (ParseStops bytes.now) }
{
    match Opl::read(alloc, bytes) {
        Ok(batch) => Ok(batch),
        Err(FormError::WantOfMemory) => Err(RunFault::WantOfMemory),
        Err(FormError::TooLarge) => Err(RunFault::TooLarge(FileName::Changes)),
        Err(FormError::Fault { place, why }) => {
            Err(RunFault::BadChange(FileName::Changes, place, why))
        }
    }
}

fn close(alloc: Global, publisher: &mut Publisher, time: u32) -> Result<Published, RunFault>
    ensures published { IfOk result (λ p. p ≡ written_of (closing publisher.old time)) }
    ensures can_close { OnOk result (CanClose publisher.old time) }
    ensures fits { OnOk result (IsSmall publisher.old.pending) }
    ensures stops { IfErr result (CloseStops publisher.old time) }
{
    match publisher.close(alloc, time) {
        Ok(published) => Ok(published),
        Err(CloseError::SequenceFull) => Err(RunFault::SequenceFull),
        Err(CloseError::TimeBack) => Err(RunFault::TimeBack),
        Err(CloseError::TooLarge) => Err(RunFault::TooLarge(FileName::Changes)),
        Err(CloseError::WantOfMemory) => Err(RunFault::WantOfMemory),
    }
}

fn names_of(alloc: Global, dir: &str, number: u32) -> Result<FolderNames, WantOfMemory>
    requires { number ≤ max_sequence }
    ensures { IfOk result (AreNames dir.now number) }
{
    Ok(FolderNames {
        o5c: file_name(alloc, dir, number, Suffix::O5c)?,
        opl: file_name(alloc, dir, number, Suffix::Opl)?,
        state: file_name(alloc, dir, number, Suffix::State)?,
        top: top_name(alloc, dir)?,
    })
}

// Writes the files of the number, and the newest state last.
pub(crate) fn write_files<S: Store>(
    alloc: Global,
    store: &mut S,
    names: &FolderNames,
    published: &Published,
) -> Result<(), RunFault>
    ensures written { OnOk result (IfFilesKnown (S.state store.old) (S.state store.new)
        (Writes (writes_to names.now published.now))) }
    ensures cut { IfErr result (IsCut (IsKnown (S.state store.old))
        names.now published.now (S.state store.old).files (S.state store.new).files) }
    ensures out { RunsOut (S.state store.old) result (WritesOut published.now.number) }
    ensures frame { Calls 4 (S.state store.old) (S.state store.new) result }
{
    let number = published.number();
    let o5c = FileName::Sequence(number, Suffix::O5c);
    write_file(alloc, store, o5c, names.o5c.as_str(), published.o5c())?;
    let opl = FileName::Sequence(number, Suffix::Opl);
    write_file(alloc, store, opl, names.opl.as_str(), published.opl())?;
    let state = FileName::Sequence(number, Suffix::State);
    write_file(alloc, store, state, names.state.as_str(), published.state())?;
    let top = names.top.as_str();
    write_file(alloc, store, FileName::Top, top, published.state())
}
