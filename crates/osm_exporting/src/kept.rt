//! Exporting the objects that a save and its journal keep.

ghost use Rattle.std.specs.Prelude.{◌≡◌, ℕ, List, IfErr, IfOk, OnOk};
ghost use Rattle.osm_model.specs.Filter.{FilterValue};
ghost use Rattle.osm_publisher.specs.Published.{PublishedValue};
ghost use Rattle.osm_merge.specs.Calls.{bytes_in};
ghost use Rattle.osm_merge.specs.Frames.{ReplacesOften};
ghost use Rattle.osm_store.specs.Files.{Spends, SpendsAtMost};
ghost use Rattle.osm_store.specs.Frames.{IsKnown, MakesAtMost, ReadsBetween};
ghost use Rattle.osm_kept.specs.Laying.{IsLaid};
ghost use Rattle.osm_kept.specs.Names.{journal_name_of};
ghost use Rattle.osm_kept.specs.Refusal.{HasNoOther};
ghost use Rattle.osm_runs.specs.DataForms.{HasDataForm};
ghost use Rattle.osm_runs.specs.Keeping.{IsKeptOf};
ghost use Rattle.osm_runs.specs.Reports.{convert_report_of};
ghost use Rattle.osm_runs.specs.Runs.{IsDeviceFault};
ghost use Rattle.osm_exporting.specs.Exporting.{IsExportOf};
ghost use Rattle.osm_exporting.specs.Keeping.{ExportKeptStops, IsExportedKept, KeepsAfter};
ghost use Rattle.osm_exporting.specs.Keeping.{export_after_calls, export_kept_calls};
ghost use Rattle.osm_exporting.specs.Steps.Laying.{LaysOn};

use crate::laid::export_laid;
use osm_kept::laid::{self, Laid};
use osm_kept::laws::laws_of_kept;
use osm_runs::data_form::data_form_of;
use osm_runs::fault::{FileName, RunFault};
use osm_runs::kept::kept_fault;
use osm_runs::report::{Report, convert_report};
use osm_store::store::Store;
use std::alloc::Global;

/// Writes the objects that a save and its journal keep to a data file, under any filter and of any
/// size. The save has to be there. The name of the output says the form: it ends in `.opl` or
/// `.o5m`; any other is refused as `UnknownForm`. All of the save and of the journal is checked
/// before the output is put into its place. A journal of another save that ends above the save is
/// refused, and so is any journal without a save, once a second reading refuses the two files too.
/// A refusal leaves all files as they were.
pub fn export_kept<S: Store>(
    alloc: Global,
    store: &mut S,
    save: &str,
    output: &str,
) -> Result<Report, RunFault>
    ensures exported { OnOk result (IsKnown (S.state store.old)
        → IsExportedKept save.now output.now (S.state store.old).files (S.state store.new).files) }
    ensures in_step { OnOk result (IsKnown (S.state store.old)
        → (published : List PublishedValue) (given : FilterValue) (base number : ℕ)
        → IsKeptOf published given base number save.now (S.state store.old).files
        → IsExportOf published given number output.now ((S.state store.new).files output.now)) }
    ensures free { OnOk result (IsKnown (S.state store.old)
        → HasNoOther ((S.state store.old).files save.now)
        ((S.state store.old).files (journal_name_of save.now))) }
    ensures report { IfOk result (λ report. report ≡ convert_report_of) }
    ensures stops { IfErr result (ExportKeptStops (IsKnown (S.state store.old)) save.now output.now
        (S.state store.old).files) }
    ensures frame { ReplacesOften IsDeviceFault (S.state store.old) (S.state store.new) result }
    ensures spends { OnOk result (Spends 4 (S.state store.old).left (S.state store.new).left) }
    ensures calls { IsKnown (S.state store.old) → MakesAtMost IsDeviceFault
        (export_kept_calls (bytes_in ((S.state store.old).files save.now))
        (bytes_in ((S.state store.old).files (journal_name_of save.now))))
        (S.state store.old) (S.state store.new) result }
    ensures calls_after { IsKnown (S.state store.old) → (numbers : ℕ)
        → KeepsAfter ((S.state store.old).files save.now)
        ((S.state store.old).files (journal_name_of save.now)) numbers
        → MakesAtMost IsDeviceFault
        (export_after_calls (bytes_in ((S.state store.old).files save.now)) numbers)
        (S.state store.old) (S.state store.new) result }
{
    laws_of_kept();
    let Some(form) = data_form_of(output) else {
        return Err(RunFault::UnknownForm);
    };
    let laid = match read_laid(alloc, store, save) {
        Ok(laid) => laid,
        Err(fault) => return Err(fault),
    };
    match export_laid(alloc, store, save, output, form, &laid) {
        Ok(()) => Ok(convert_report(alloc)),
        Err(fault) => Err(fault),
    }
}

// Reads what the journal of a save, which has to be there, lays over it.
fn read_laid<S: Store>(alloc: Global, store: &mut S, save: &str) -> Result<Laid, RunFault>
    ensures kept { IfOk result (LaysOn (S.state store.old) save.now) }
    ensures plain { IfOk result IsLaid }
    ensures free { IfOk result (λ laid. IsKnown (S.state store.old)
        → HasNoOther ((S.state store.old).files save.now)
        ((S.state store.old).files (journal_name_of save.now))) }
    ensures stops { IfErr result (λ fault. (output : List ℕ) → HasDataForm output
        → ExportKeptStops (IsKnown (S.state store.old)) save.now output
        (S.state store.old).files fault) }
    ensures frame { ReadsBetween IsDeviceFault 2 4 (S.state store.old) (S.state store.new) result }
    ensures spends { OnOk result
        (SpendsAtMost 2 (S.state store.old).left (S.state store.new).left) }
{
    match laid::read_laid(alloc, store, save) {
        Ok(Some(laid)) => Ok(laid),
        Ok(None) => Err(RunFault::Absent(FileName::Save)),
        Err(fault) => Err(kept_fault(fault)),
    }
}
