//! Save texts of any size, checked in blocks.

ghost use Rattle.std.specs.Prelude.{IfErr, IfOk, OnOk};
ghost use Rattle.osm_store.specs.Files.{Spends};
ghost use Rattle.osm_store.specs.Frames.{IsKnown, MakesAtMost};
ghost use Rattle.osm_merge.specs.Calls.{bytes_in, check_calls};
ghost use Rattle.osm_blocks.specs.Frames.{ReadsOften};
ghost use Rattle.osm_net.specs.Lists.{net_in};
ghost use Rattle.osm_merge.specs.Checking.{CheckStops, IsChecked, IsCheckedWith};
ghost use Rattle.osm_merge.specs.Faults.{IsDeviceFault};
ghost use Rattle.osm_merge.specs.Lists.{AreFew};

use crate::fault::MergeFault;
use crate::lists::{Merge, Totals, merge_lists};
use crate::opening::open_save;
use osm_blocks::block_writer::BlockWriter;
use osm_model::filter::Filter;
use osm_net::lists::NetLists;
use osm_save::head::Head;
use osm_save::version::Version;
use osm_store::store::Store;
use std::alloc::Global;

/// What a check found in a save text: its version, head and filter, and its numbers of objects,
/// users and changesets.
#[derive(Debug, Drop)]
pub struct Checked {
    pub version: Version,
    pub head: Head,
    pub filter: Filter,
    pub totals: Totals,
}

/// Checks that a file of any size is a save text, and gives its version, head, filter and numbers
/// of objects, users and changesets. Only a block, a line and its object are in memory.
pub fn check_save<S: Store>(alloc: Global, store: &mut S, name: &str) -> Result<Checked, MergeFault>
    ensures checked { IfOk result (λ checked. IsKnown (S.state store.old)
        → IsChecked ((S.state store.old).files name.now) checked) }
    ensures refused { IfErr result (λ fault. IsKnown (S.state store.old)
        → CheckStops ((S.state store.old).files name.now) fault) }
    ensures frame { ReadsOften IsDeviceFault (S.state store.old) (S.state store.new) result }
    ensures spends { OnOk result (Spends 1 (S.state store.old).left (S.state store.new).left) }
    ensures calls { IsKnown (S.state store.old) → MakesAtMost IsDeviceFault
        (check_calls (bytes_in ((S.state store.old).files name.now)))
        (S.state store.old) (S.state store.new) result }
{
    let none = NetLists::new(alloc);
    match check_merged(alloc, store, name, &none) {
        Ok(checked) => Ok(checked),
        Err(fault) => Err(fault),
    }
}

/// Checks that a file of any size is a save text, and counts the objects, users and changesets that
/// it would have after net changes. Only a block, a line and its object are in memory.
pub fn check_merged<S: Store>(
    alloc: Global,
    store: &mut S,
    name: &str,
    lists: &NetLists,
) -> Result<Checked, MergeFault>
    requires { AreFew (net_in lists.now) }
    ensures checked { IfOk result (λ checked. IsKnown (S.state store.old)
        → IsCheckedWith ((S.state store.old).files name.now) (net_in lists.now) checked) }
    ensures refused { IfErr result (λ fault. IsKnown (S.state store.old)
        → CheckStops ((S.state store.old).files name.now) fault) }
    ensures frame { ReadsOften IsDeviceFault (S.state store.old) (S.state store.new) result }
    ensures spends { OnOk result (Spends 1 (S.state store.old).left (S.state store.new).left) }
    ensures calls { IsKnown (S.state store.old) → MakesAtMost IsDeviceFault
        (check_calls (bytes_in ((S.state store.old).files name.now)))
        (S.state store.old) (S.state store.new) result }
{
    let (mut source, opening) = match open_save(alloc, store, name) {
        Ok(opened) => opened,
        Err(fault) => return Err(fault),
    };
    let mut writer = BlockWriter::dropping(alloc);
    let none = Totals {
        objects: 0,
        users: 0,
        changesets: 0,
    };
    let merge = Merge {
        opening: &opening,
        totals: none,
        lists,
    };
    match merge_lists(alloc, store, name, &mut source, &mut writer, &merge) {
        Ok(totals) => Ok(Checked {
            version: opening.version,
            head: opening.head,
            filter: opening.filter,
            totals,
        }),
        Err(fault) => Err(fault),
    }
}
