//! What is printed of changes that are handed on.

ghost use Rattle.std.specs.Prelude.{◌≡◌, ◌++◌, ℕ, List, IfOk, OnOk, Some, option_map};
ghost use Rattle.serde_json.specs.View.{view};
ghost use Rattle.osm_runs.specs.Faults.{status_of};
ghost use Rattle.osm_runs.specs.JsonLine.{json_line};
ghost use Rattle.osm_runs.specs.Reports.{gap_status};
ghost use Rattle.osm_range.specs.Printed.{changed_data, changed_line, changes_data};
ghost use Rattle.osm_range.specs.Printed.{changes_report_of, changes_text, fault_data};
ghost use Rattle.osm_range.specs.Printed.{fault_report_of};

use osm_model::memory::WantOfMemory;
use osm_reading::number_lines::{write_bytes, write_number, write_numbered_lines};
use osm_runs::fault::RunFault;
use osm_runs::json_values::{line_of, numbers, text_or_null};
use osm_runs::options::Layout;
use osm_runs::report::{Report, fault_text};
use serde_json::{Value, json};
use std::alloc::{AllocError, Global};

/// How many objects the numbers `from` to `to` change.
#[derive(Clone, Copy, Debug, PartialEq, Eq)]
pub struct Changed {
    pub from: u32,
    pub to: u32,
    pub objects: u64,
}

/// Gives the report of changes that were handed on, and of the numbers that are missing after them:
/// `changes FROM..TO: OBJECTS objects`, unless no number was read, and `missing K` for each missing
/// number. The status is 1 exactly if a number is missing. In JSON it is one line, with the text of
/// the fault of a number too.
pub fn changes_report(
    alloc: Global,
    layout: Layout,
    changed: Option<Changed>,
    missing: &[u32],
    fault: Option<&str>,
) -> Result<Report, WantOfMemory>
    ensures { IfOk result (λ report. report ≡ changes_report_of layout changed missing.now
        (option_map (λ said. said.now) fault.entry)) }
{
    let status = status_of_gap(missing);
    match layout {
        Layout::Lines => Ok(Report::new(status, changes_text(alloc, changed, missing)?)),
        Layout::Json => Ok(Report::new(status, changes_line(alloc, changed, missing, fault)?)),
    }
}

/// Gives the JSON report of a run that was refused: only the text of its fault is known. The status
/// is that of the fault.
pub fn changes_fault_report(alloc: Global, fault: RunFault) -> Result<Report, WantOfMemory>
    ensures { IfOk result
        (λ report. (said : List ℕ) × (report ≡ fault_report_of (status_of fault) said)) }
{
    let said = fault_text(alloc, fault)?;
    let text = fault_line(alloc, said.as_str())?;
    Ok(Report::new(fault.status(), text))
}

fn status_of_gap(missing: &[u32]) -> u8
    ensures { result ≡ gap_status missing.now }
{
    match missing {
        [] => 0,
        [_, ..] => 1,
    }
}

fn changes_text(
    alloc: Global,
    changed: Option<Changed>,
    missing: &[u32],
) -> Result<Vec<u8>, WantOfMemory>
    ensures { IfOk result (λ text. text.items ≡ changes_text changed missing.now) }
{
    let mut text = Vec::new(alloc);
    write_changed(changed, &mut text)?;
    write_numbered_lines(b"missing ", missing, &mut text)?;
    Ok(text)
}

fn write_changed(changed: Option<Changed>, text: &mut Vec<u8>) -> Result<(), WantOfMemory>
    ensures { OnOk result (text.new.items ≡ text.old.items ++ changed_line changed) }
{
    match changed {
        None => Ok(()),
        Some(changed) => write_line(changed, text),
    }
}

// `changes FROM..TO: OBJECTS objects`
fn write_line(changed: Changed, text: &mut Vec<u8>) -> Result<(), WantOfMemory>
    ensures { OnOk result (text.new.items ≡ text.old.items ++ changed_line (Some changed)) }
{
    write_bytes(b"changes ", text)?;
    write_number(changed.from as u64, text)?;
    write_bytes(b"..", text)?;
    write_number(changed.to as u64, text)?;
    write_bytes(b": ", text)?;
    write_number(changed.objects, text)?;
    write_bytes(b" objects\n", text)
}

#[tactic(auto, using(crate::proofs::PrintedLemmas::no_changes))]
fn changes_line(
    alloc: Global,
    changed: Option<Changed>,
    missing: &[u32],
    fault: Option<&str>,
) -> Result<Vec<u8>, WantOfMemory>
    ensures { IfOk result (λ line. line.items ≡ json_line (changes_data changed missing.now
        (option_map (λ said. said.now) fault.entry))) }
{
    let missing = numbers(alloc, missing)?;
    let fault = text_or_null(alloc, fault)?;
    let value = changed_value(alloc, changed, missing, fault)?;
    Ok(line_of(alloc, &value)?)
}

#[tactic(auto, using(crate::proofs::PrintedLemmas::no_fault))]
fn fault_line(alloc: Global, fault: &str) -> Result<Vec<u8>, WantOfMemory>
    ensures { IfOk result (λ line. line.items ≡ json_line (fault_data fault.now)) }
{
    let fault = Value::try_from_str(alloc, fault)?;
    let value = changed_value(alloc, None, Value::Null, fault)?;
    Ok(line_of(alloc, &value)?)
}

fn changed_value(
    alloc: Global,
    changed: Option<Changed>,
    missing: Value,
    fault: Value,
) -> Result<Value, AllocError>
    ensures { IfOk result (λ v. view v ≡ changed_data changed (view missing) (view fault)) }
{
    match changed {
        None => json!(in alloc; {
            "changes": null,
            "fault": fault,
            "from": null,
            "missing": missing,
            "to": null
        }),
        Some(changed) => json!(in alloc; {
            "changes": changed.objects,
            "fault": fault,
            "from": changed.from,
            "missing": missing,
            "to": changed.to
        }),
    }
}
