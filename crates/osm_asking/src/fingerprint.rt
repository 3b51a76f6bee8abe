//! The fingerprint of what a save and its journal keep.

ghost use Rattle.std.specs.Prelude.{◌≡◌, IfErr, IfOk};
ghost use Rattle.osm_blocks.specs.Frames.{ReadsOften};
ghost use Rattle.osm_kept.specs.Names.{journal_name_of};
ghost use Rattle.osm_merge.specs.Checking.{CheckStops};
ghost use Rattle.osm_merge.specs.Faults as merges;
ghost use Rattle.osm_runs.specs.Runs.{IsDeviceFault};
ghost use Rattle.osm_store.specs.Frames.{IsKnown};
ghost use Rattle.osm_asking.specs.Fingerprint.{HasFingerprint};
ghost use Rattle.osm_asking.specs.Steps.Laying.{FitsSave};
ghost use Rattle.osm_asking.specs.Steps.Summing.{IsSummed};
ghost use Rattle.osm_asking.specs.Stopping.{SumStops};

use crate::laid::laid_of_save;
use crate::saved_objects::open;
use crate::sums::Sums;
use osm_kept::laid::Laid;
use osm_merge::fault::MergeFault;
use osm_merge::passing::pass_rest;
use osm_merged::laws::laws_of_merged_saves;
use osm_model::memory::WantOfMemory;
use osm_runs::fault::RunFault;
use osm_runs::report::Report;
use osm_runs::save_fault::read_fault;
use osm_store::store::Store;
use std::alloc::Global;

/// Gives the fingerprint of what a save and its journal keep, under any filter and of any size:
/// `number N objects C sha256 HEX`, the SHA-256 of the lines of the objects as `show` prints them,
/// each with its LF. Before it comes a line `KEY objects N sha256 HEX` for each `keys` objects,
/// with the key of the first of them, as `n1`; the last block may have fewer. None if `keys` is 0.
///
/// Both files are read once, and judged as a whole, as `show` does before it prints. A journal of
/// another save that ends above the save is refused, and so is any journal without a save. In
/// memory are, beside blocks of the files and the journal, the lines of the report. No file
/// changes.
pub fn fingerprint_run<S: Store>(
    alloc: Global,
    store: &mut S,
    save: &str,
    keys: u32,
) -> Result<Report, RunFault>
    ensures given { IfOk result (λ report. IsKnown (S.state store.old)
        → HasFingerprint keys ((S.state store.old).files save.now)
        ((S.state store.old).files (journal_name_of save.now)) report) }
    ensures status { IfOk result (λ report. report.status ≡ 0) }
    ensures stops { IfErr result (SumStops (IsKnown (S.state store.old)) save.now
        (S.state store.old).files) }
    ensures frame { ReadsOften IsDeviceFault (S.state store.old) (S.state store.new) result }
{
    let laid = match laid_of_save(alloc, store, save) {
        Ok(laid) => laid,
        Err(fault) => return Err(fault),
    };
    match sum_save(alloc, store, save, &laid, keys) {
        Ok(text) => Ok(Report::new(0, text)),
        Err(fault) => Err(read_fault(fault)),
    }
}

// The text of the sums of a save with what its journal lays over it.
fn sum_save<S: Store>(
    alloc: Global,
    store: &mut S,
    save: &str,
    laid: &Laid,
    keys: u32,
) -> Result<Vec<u8>, MergeFault>
    requires { FitsSave (IsKnown (S.state store.old)) ((S.state store.old).files save.now)
        laid.now.start }
    ensures summed { IfOk result (λ text. IsKnown (S.state store.old)
        → IsSummed keys ((S.state store.old).files save.now) laid.now text.items) }
    ensures refused { IfErr result (λ fault. IsKnown (S.state store.old)
        → CheckStops ((S.state store.old).files save.now) fault) }
    ensures frame { ReadsOften merges.IsDeviceFault (S.state store.old) (S.state store.new)
        result }
{
    laws_of_merged_saves();
    let entries = laid.lists.objects.as_slice();
    let (mut objects, opening) = match open(alloc, store, save, laid.start, entries) {
        Ok(opened) => opened,
        Err(fault) => return Err(fault),
    };
    let mut sums = Sums::new(alloc, keys);
    match objects.sum(alloc, store, save, &opening.filter, &mut sums) {
        Ok(()) => {}
        Err(fault) => return Err(fault),
    }
    match pass_rest(alloc, store, save, &mut objects.source, &opening) {
        Ok(()) => {}
        Err(fault) => return Err(fault),
    }
    match sums.finish(alloc, laid.head.number) {
        Ok(text) => Ok(text),
        Err(WantOfMemory) => Err(MergeFault::WantOfMemory),
    }
}
