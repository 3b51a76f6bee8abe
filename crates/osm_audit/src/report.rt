//! What an audit prints: lines, or one line of JSON.

ghost use Rattle.std.specs.Prelude.{◌≡◌, ◌++◌, ◌∷◌, ℕ, List, [], IfOk, OnOk, false, map};
ghost use Rattle.std.specs.List.{flat_map};
ghost use Rattle.serde_json.specs.Data.{array};
ghost use Rattle.serde_json.specs.View.{items_of, view};
ghost use Rattle.serde_json.specs.Written.{has_float};
ghost use Rattle.osm_runs.specs.JsonLine.{json_line};
ghost use Rattle.osm_audit.specs.Reports.{IsAuditLine, IsAuditText, audit_data, fault_data};
ghost use Rattle.osm_audit.specs.Reports.{file_data, finding_data, finding_line, findings_data};
ghost use Rattle.osm_audit.specs.Reports.{findings_status, ok_line, range_data, range_line};
ghost use Rattle.osm_audit.specs.Reports.{told_line};
ghost use Rattle.osm_audit.specs.Texts.{cause_of, name_of};

use crate::audit::Audit;
use crate::finding::{Finding, Found};
use crate::texts::{cause_text, name_text};
use osm_model::memory::WantOfMemory;
use osm_reading::number_lines::{write_bytes, write_number};
use osm_runs::fault::RunFault;
use osm_runs::json_values::line_of;
use osm_runs::report::fault_text;
use serde_json::{Value, json};
use std::alloc::{AllocError, Global};

/// Gives the exit status of an audit: 1 if there is a finding, otherwise 0.
pub fn audit_status(audit: &Audit) -> u8
    ensures { result ≡ findings_status audit.now.findings }
{
    match audit.findings() {
        [] => 0,
        [_, ..] => 1,
    }
}

/// Gives the text of an audit: `ok FROM..TO` if nothing is wrong, otherwise a line for each
/// finding, in order. The line is `FILE: CAUSE`, or `FIRST..LAST: not there` for numbers without
/// any file. Each line ends with LF.
pub fn audit_text(alloc: Global, audit: &Audit) -> Result<Vec<u8>, WantOfMemory>
    ensures { IfOk result (λ text. IsAuditText audit.now text.items) }
{
    let mut text = Vec::new(alloc);
    match audit.findings() {
        [] => write_ok(audit.from(), audit.to(), &mut text)?,
        findings => write_findings(alloc, findings, &mut text)?,
    }
    Ok(text)
}

fn write_ok(from: u32, to: u32, text: &mut Vec<u8>) -> Result<(), WantOfMemory>
    ensures { OnOk result (text.new.items ≡ text.old.items ++ ok_line from to) }
{
    write_bytes(b"ok ", text)?;
    write_number(from as u64, text)?;
    write_bytes(b"..", text)?;
    write_number(to as u64, text)?;
    write_bytes(b"\n", text)
}

fn write_findings(alloc: Global, findings: &[Found], text: &mut Vec<u8>) -> Result<(), WantOfMemory>
    ensures { OnOk result (text.new.items ≡ text.old.items ++ flat_map told_line findings.now) }
{
    for finding in findings {
        write_finding(alloc, finding, text)?;
    }
    Ok(())
}

fn write_finding(alloc: Global, finding: &Found, text: &mut Vec<u8>) -> Result<(), WantOfMemory>
    ensures { OnOk result (text.new.items ≡ text.old.items ++ told_line finding.now) }
{
    match finding {
        Found::Numbers(first, last) => write_range(*first, *last, text),
        Found::File(finding) => write_file(alloc, finding, text),
    }
}

// `FIRST..LAST: not there`
fn write_range(first: u32, last: u32, text: &mut Vec<u8>) -> Result<(), WantOfMemory>
    ensures { OnOk result (text.new.items ≡ text.old.items ++ range_line first last) }
{
    write_number(first as u64, text)?;
    write_bytes(b"..", text)?;
    write_number(last as u64, text)?;
    write_bytes(b": not there\n", text)
}

fn write_file(alloc: Global, finding: &Finding, text: &mut Vec<u8>) -> Result<(), WantOfMemory>
    ensures { OnOk result (text.new.items ≡ text.old.items
        ++ finding_line (name_of finding.now.file) (cause_of finding.now.cause)) }
{
    let file = name_text(alloc, finding.file)?;
    let cause = cause_text(alloc, finding.cause)?;
    write_line(file.as_str(), cause.as_str(), text)
}

fn write_line(file: &str, cause: &str, text: &mut Vec<u8>) -> Result<(), WantOfMemory>
    ensures { OnOk result
        (text.new.items ≡ text.old.items ++ finding_line file.now cause.now) }
{
    write_bytes(file.as_bytes(), text)?;
    write_bytes(b": ", text)?;
    write_bytes(cause.as_bytes(), text)?;
    write_bytes(b"\n", text)
}

/// Gives the line of JSON of an audit: the range, and each finding with its number, file and cause.
/// The keys are sorted.
#[tactic(auto, using(crate::proofs::ReportLemmas::no_audit))]
pub fn audit_line(alloc: Global, audit: &Audit) -> Result<Vec<u8>, WantOfMemory>
    ensures { IfOk result (λ line. IsAuditLine audit.now line.items) }
{
    let findings = findings_value(alloc, audit.findings())?;
    let value = audit_value(alloc, audit.from(), audit.to(), findings)?;
    Ok(line_of(alloc, &value)?)
}

/// Gives the line of JSON of an audit that stopped: only the text of its fault is known.
#[tactic(auto, using(crate::proofs::ReportLemmas::no_fault))]
pub fn audit_fault_line(alloc: Global, fault: RunFault) -> Result<Vec<u8>, WantOfMemory>
    ensures { IfOk result
        (λ line. (said : List ℕ) × (line.items ≡ json_line (fault_data said))) }
{
    let said = fault_text(alloc, fault)?;
    let value = fault_value(alloc, said.as_str())?;
    Ok(line_of(alloc, &value)?)
}

fn audit_value(alloc: Global, from: u32, to: u32, findings: Value) -> Result<Value, AllocError>
    ensures { IfOk result (λ v. view v ≡ audit_data from to (view findings)) }
{
    json!(in alloc; {
        "fault": null,
        "findings": findings,
        "from": from,
        "to": to
    })
}

fn fault_value(alloc: Global, fault: &str) -> Result<Value, AllocError>
    ensures { IfOk result (λ v. view v ≡ fault_data fault.now) }
{
    json!(in alloc; {
        "fault": fault,
        "findings": null,
        "from": null,
        "to": null
    })
}

fn findings_value(alloc: Global, findings: &[Found]) -> Result<Value, WantOfMemory>
    ensures { IfOk result (λ v. view v ≡ findings_data findings.now) }
{
    let mut values = Vec::with_capacity(alloc, findings.len())?;
    for finding in findings {
        let value = told_value(alloc, finding)?;
        push_value(value, &mut values)?;
    }
    Ok(array_value(values))
}

fn array_value(values: Vec<Value>) -> Value
    ensures { view result ≡ array (items_of (map view values.items)) }
{
    Value::Array(values)
}

fn push_value(value: Value, values: &mut Vec<Value>) -> Result<(), AllocError>
    ensures { OnOk result (map view values.new.items
        ≡ map view values.old.items ++ view value ∷ []) }
{
    Ok(values.push(value)?)
}

fn told_value(alloc: Global, finding: &Found) -> Result<Value, WantOfMemory>
    ensures { IfOk result (λ v. view v ≡ finding_data finding.now) }
{
    match finding {
        Found::Numbers(first, last) => Ok(range_value(alloc, *first, *last)?),
        Found::File(finding) => file_value(alloc, finding),
    }
}

fn range_value(alloc: Global, first: u32, last: u32) -> Result<Value, AllocError>
    ensures { IfOk result (λ v. view v ≡ range_data first last) }
{
    json!(in alloc; {
        "cause": "not there",
        "number": first,
        "to": last
    })
}

fn file_value(alloc: Global, finding: &Finding) -> Result<Value, WantOfMemory>
    ensures { IfOk result (λ v. view v ≡ file_data finding.now.number
        (name_of finding.now.file) (cause_of finding.now.cause)) }
{
    let file = name_text(alloc, finding.file)?;
    let cause = cause_text(alloc, finding.cause)?;
    Ok(finding_value(alloc, finding.number, file.as_str(), cause.as_str())?)
}

fn finding_value(alloc: Global, number: u32, file: &str, cause: &str) -> Result<Value, AllocError>
    ensures { IfOk result (λ v. view v ≡ file_data number file.now cause.now) }
{
    json!(in alloc; {
        "cause": cause,
        "file": file,
        "number": number
    })
}
