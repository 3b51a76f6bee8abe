//! Saving what a run took, merged into the save or as a new save.

ghost use Rattle.std.specs.Prelude.{IfErr, IfOk, OnOk};
ghost use Rattle.osm_mirror.specs.Mirror.{no_mirror};
ghost use Rattle.osm_net.specs.Laid.{laid_on};
ghost use Rattle.osm_save.specs.Save.{SpellsSave, saved_with};
ghost use Rattle.osm_store.specs.Frames.{IsKnown, MakesAtMost};
ghost use Rattle.osm_merge.specs.Frames.{ReplacesOften};
ghost use Rattle.osm_merge.specs.Lists.{AreFew};
ghost use Rattle.osm_merge.specs.Merging.{IsMerged};
ghost use Rattle.osm_runs.specs.Runs.{IsDeviceFault};
ghost use Rattle.osm_round.specs.KeepingSteps.{MergesWithin};
ghost use Rattle.osm_round.specs.News.{HasRoomForHeld, came_to};
ghost use Rattle.osm_round.specs.Putting.{IsMadeOf, IsSavableAlone};
ghost use Rattle.osm_round.specs.Starting.{IsMakingFault, MergeStops};

use crate::taken::Taken;
use osm_merge::merge::merge_save;
use osm_model::filter::Filter;
use osm_model::memory::WantOfMemory;
use osm_net::laws::laws_of_nets;
use osm_net::net::Net;
use osm_runs::fault::{FileName, RunFault};
use osm_runs::files::write_file;
use osm_runs::save_fault::write_fault;
use osm_save::head::Head;
use osm_save::save::save_write_left;
use osm_store::store::Store;
use std::alloc::Global;

// Lays net changes over the save, which has that head then.
pub(crate) fn merge<S: Store>(
    alloc: Global,
    store: &mut S,
    save: &str,
    head: Head,
    net: Net,
) -> Result<(), RunFault>
    requires { AreFew net }
    ensures merged { OnOk result (IsKnown (S.state store.old)
        → IsMerged head net save.now (S.state store.old).files (S.state store.new).files) }
    ensures stops { IfErr result (MergeStops (IsKnown (S.state store.old))
        ((S.state store.old).files save.now) net) }
    ensures frame { ReplacesOften IsDeviceFault (S.state store.old) (S.state store.new) result }
    ensures calls { MergesWithin save.now (S.state store.old) (S.state store.new) result }
{
    let lists = net.into_lists(alloc)?;
    match merge_save(alloc, store, save, head, &lists) {
        Ok(()) => Ok(()),
        Err(fault) => {
            store.abandon();
            Err(write_fault(fault))
        }
    }
}

// Writes what was taken as a save of its own.
pub(crate) fn make<S: Store>(
    alloc: Global,
    store: &mut S,
    save: &str,
    filter: &Filter,
    taken: Taken,
) -> Result<(), RunFault>
    requires { HasRoomForHeld taken.news }
    ensures made { OnOk result (IsKnown (S.state store.old)
        → IsSavableAlone filter.now (came_to filter.now taken)
        → IsMadeOf filter.now (came_to filter.now taken) save.now (S.state store.old).files
        (S.state store.new).files) }
    ensures stops { IfErr result IsMakingFault }
    ensures frame { ReplacesOften IsDeviceFault (S.state store.old) (S.state store.new) result }
    ensures calls { MakesAtMost IsDeviceFault 1 (S.state store.old) (S.state store.new) result }
{
    let text = text_of(alloc, filter, taken)?;
    write_file(alloc, store, FileName::Save, save, text.as_slice())
}

// The save text of what was taken where there was no save.
fn text_of(alloc: Global, filter: &Filter, taken: Taken) -> Result<Vec<u8>, WantOfMemory>
    requires { HasRoomForHeld taken.news }
    ensures { IsSavableAlone filter.now (came_to filter.now taken)
        → IfOk result (λ text. SpellsSave text.items (saved_with taken.head filter.now
        (laid_on (came_to filter.now taken).net no_mirror))) }
{
    laws_of_nets();
    let head = taken.head;
    let net = taken.news.into_net(filter)?;
    let lists = net.into_lists(alloc)?;
    let objects = lists.objects.as_slice();
    let users = lists.users.as_slice();
    let changesets = lists.changesets.as_slice();
    save_write_left(alloc, head, filter, objects, users, changesets)
}
