//! How far a save is behind a folder.

ghost use Rattle.std.specs.Prelude.{◌≡◌, ℕ, List, None, IfErr, IfOk, OnOk};
ghost use Rattle.osm_model.specs.Filter.{FilterValue};
ghost use Rattle.osm_publisher.specs.Published.{PublishedValue};
ghost use Rattle.osm_runs.specs.Folder.{IsFolderOf};
ghost use Rattle.osm_store.specs.Files.{SpendsAtMost};
ghost use Rattle.osm_store.specs.Frames.{IsKnown, ReadsBetween};
ghost use Rattle.osm_kept.specs.Names.{journal_name_of};
ghost use Rattle.osm_kept.specs.Refusal.{OpensNoOther};
ghost use Rattle.osm_runs.specs.Keeping.{IsKeptOf};
ghost use Rattle.osm_publishing.specs.KeptLag.{IsKeptHead, IsKeptLagIn, KeptHeadStops, KeptLagOut};
ghost use Rattle.osm_publishing.specs.KeptLag.{KeptLagStopsIn, LagsAlone};
ghost use Rattle.osm_publishing.specs.Lagging.{IsLagReport, LagsOver};
ghost use Rattle.osm_runs.specs.Following.{standing_from};
ghost use Rattle.osm_runs.specs.Runs.{IsDeviceFault};
ghost use Rattle.osm_publishing.specs.Steps.Lagging.{IsTold, ToldStops};

use osm_follow::lag::{LagError, lag_from};
use osm_kept::heads::read_heads;
use osm_kept::laws::laws_of_kept;
use osm_kept::names::journal_name;
use osm_runs::fault::RunFault;
use osm_runs::kept::kept_fault;
use osm_runs::options::Layout;
use osm_runs::report::{Report, lag_in};
use osm_runs::standing::{NO_HEAD, standing_from};
use osm_runs::top::read_top;
use osm_save::head::Head;
use osm_state::laws::laws_of_state;
use osm_state::state::State;
use osm_store::store::Store;
use std::alloc::Global;

/// Reports how many numbers and seconds a save with its journal is behind the folder's newest
/// state. If there is no save, the lag is that of the start, sequence number 0. The filter of the
/// save makes no difference, and no file changes. Only the first lines of the two files are read,
/// first those of the journal, so a fault after these lines isn't found. Without a save, a journal
/// that isn't empty is refused.
pub fn lag_run<S: Store>(
    alloc: Global,
    store: &mut S,
    dir: &str,
    save: &str,
    layout: Layout,
) -> Result<Report, RunFault>
    ensures lag { IfOk result (IsKeptLagIn (S.state store.old) layout dir.now save.now) }
    ensures report { IfOk result (IsLagReport layout) }
    ensures stops { IfErr result (KeptLagStopsIn (S.state store.old) dir.now save.now) }
    ensures over { IsKnown (S.state store.old)
        → (published : List PublishedValue) (given : FilterValue) (base number : ℕ)
        → IsFolderOf published (S.state store.old).files dir.now
        → IsKeptOf published given base number save.now (S.state store.old).files
        → LagsOver layout published base number save.now (S.state store.old).files result }
    ensures alone { IsKnown (S.state store.old) → (S.state store.old).files save.now ≡ None
        → LagsAlone layout dir.now ((S.state store.old).files (journal_name_of save.now))
        (S.state store.old).files result }
    ensures out { IfErr result (λ fault. IsKnown (S.state store.old)
        → OpensNoOther ((S.state store.old).files save.now)
        ((S.state store.old).files (journal_name_of save.now))
        → KeptLagOut (S.state store.old).left fault) }
    ensures frame { ReadsBetween IsDeviceFault 3 4 (S.state store.old) (S.state store.new) result }
    ensures spends { OnOk result
        (SpendsAtMost 3 (S.state store.old).left (S.state store.new).left) }
{
    laws_of_state();
    laws_of_kept();
    let start = read_kept(alloc, store, save)?;
    let top = read_top(alloc, store, dir)?;
    tell(alloc, layout, start, &top)
}

// The head of what a save and its journal keep, or that of the start if there is no save.
fn read_kept<S: Store>(alloc: Global, store: &mut S, save: &str) -> Result<Head, RunFault>
    ensures head { IfOk result (λ head. IsKnown (S.state store.old)
        → IsKeptHead save.now (S.state store.old).files head) }
    ensures stops { IfErr result
        (KeptHeadStops (IsKnown (S.state store.old)) save.now (S.state store.old).files) }
    ensures out { IfErr result (λ fault. IsKnown (S.state store.old)
        → OpensNoOther ((S.state store.old).files save.now)
        ((S.state store.old).files (journal_name_of save.now))
        → KeptLagOut (S.state store.old).left fault) }
    ensures frame { ReadsBetween IsDeviceFault 2 4 (S.state store.old) (S.state store.new) result }
    ensures spends { OnOk result
        (SpendsAtMost 2 (S.state store.old).left (S.state store.new).left) }
{
    let journal = journal_name(alloc, save)?;
    match read_heads(alloc, store, save, journal.as_str()) {
        Ok(Some(head)) => Ok(head),
        Ok(None) => Ok(NO_HEAD),
        Err(fault) => Err(kept_fault(fault)),
    }
}

fn tell(alloc: Global, layout: Layout, start: Head, top: &State) -> Result<Report, RunFault>
    ensures told { IfOk result (IsTold layout start top.now) }
    ensures stops { IfErr result (ToldStops start top.now) }
{
    match lag_from(start.number, start.time, top) {
        Ok(lag) => Ok(lag_in(alloc, layout, standing_from(start, top), lag)?),
        Err(LagError::TopBehind) => Err(RunFault::TopBehind),
        Err(LagError::TimeBehind) => Err(RunFault::TimeBehind),
        Err(LagError::Broken) => unreachable!(),
    }
}
