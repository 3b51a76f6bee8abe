//! What a run prints, and its exit status.

ghost use Rattle.std.specs.Prelude.{option_map, ◌≡◌, ◌≤◌, ◌++◌, ℕ, List, [], IfOk, OnOk, length};
ghost use Rattle.std.specs.List.{flat_map};
ghost use Rattle.osm_reading.specs.NumberLines.{applied_line};
ghost use Rattle.osm_runs.specs.Faults.{status_of};
ghost use Rattle.osm_runs.specs.Reports.{applied_report_of, begin_report_of, convert_report_of};
ghost use Rattle.osm_runs.specs.Reports.{fault_report_of};
ghost use Rattle.osm_runs.specs.Reports.{follow_report_of, follow_text, gap_status};
ghost use Rattle.osm_runs.specs.Reports.{lag_report_of, lag_told, publish_report_of, report_of};
ghost use Rattle.osm_runs.specs.Reports.{seconds_line};

use crate::fault::RunFault;
use crate::json_line::{Standing, fault_line, follow_line, lag_line};
use crate::options::Layout;
use osm_follow::lag::Lag;
use osm_model::memory::WantOfMemory;
use osm_reading::number_lines::{write_applied, write_bytes, write_numbered, write_numbered_lines};
use std::alloc::Global;
use std::marker::Model;

/// What a run prints, lines that each end with LF, and the exit status of the program.
#[derive(Debug, Drop)]
pub struct Report {
    status: u8,
    text: Vec<u8>,
}

impl Model for Report {
    ghost use Rattle.osm_runs.specs.Reports.{ReportValue};

    ghost Value = { ReportValue };

    ghost view = { λ a. record { status = a.status; text = a.text.items } };
}

impl Report {
    /// Makes the report of a run with that exit status and text.
    pub fn new(status: u8, text: Vec<u8>) -> Report
        ensures { result ≡ record { status = status; text = text.items } }
    {
        Report { status, text }
    }

    pub fn status(&self) -> u8
        ensures { result ≡ self.now.status }
    {
        self.status
    }

    pub fn text(&self) -> &[u8]
        ensures { result.now ≡ self.now.text }
    {
        self.text.as_slice()
    }
}

/// Gives the report of a conversion, which prints nothing. Takes no memory.
pub fn convert_report(alloc: Global) -> Report
    ensures { result ≡ convert_report_of }
{
    Report {
        status: 0,
        text: Vec::new(alloc),
    }
}

/// Gives the report of a publication: `published N`.
pub fn publish_report(alloc: Global, number: u32) -> Result<Report, WantOfMemory>
    ensures { IfOk result (λ report. report ≡ publish_report_of number) }
{
    let mut text = Vec::new(alloc);
    write_numbered(b"published ", number as u64, &mut text)?;
    Ok(Report { status: 0, text })
}

/// Gives the report of a beginning: `number N`.
pub fn begin_report(alloc: Global, number: u32) -> Result<Report, WantOfMemory>
    ensures { IfOk result (λ report. report ≡ begin_report_of number) }
{
    let mut text = Vec::new(alloc);
    write_numbered(b"number ", number as u64, &mut text)?;
    Ok(Report { status: 0, text })
}

/// Gives the report of a lag in lines: `behind B`, then `seconds S`, or `seconds none` if the
/// follower has no time.
pub fn lag_report(alloc: Global, behind: u32, seconds: Option<u32>) -> Result<Report, WantOfMemory>
    ensures { IfOk result (λ report. report ≡ lag_report_of behind seconds) }
{
    let mut text = Vec::new(alloc);
    write_numbered(b"behind ", behind as u64, &mut text)?;
    write_seconds(seconds, &mut text)?;
    Ok(Report { status: 0, text })
}

/// Gives the report of a lag in that layout: as `lag_report` does, or as JSON.
pub fn lag_in(
    alloc: Global,
    layout: Layout,
    standing: Standing,
    lag: Lag,
) -> Result<Report, WantOfMemory>
    requires { standing.number ≤ standing.top }
    ensures { IfOk result (λ report. report ≡ lag_told layout standing lag.behind lag.seconds) }
{
    match layout {
        Layout::Lines => lag_report(alloc, lag.behind, lag.seconds),
        Layout::Json => Ok(Report {
            status: 0,
            text: lag_line(alloc, standing)?,
        }),
    }
}

/// Gives the JSON report of a run that was refused: only the text of its fault is known. The status
/// is that of the fault.
pub fn fault_report(alloc: Global, fault: RunFault) -> Result<Report, WantOfMemory>
    ensures { IfOk result
        (λ report. (said : List ℕ) × (report ≡ fault_report_of (status_of fault) said)) }
{
    let said = fault_text(alloc, fault)?;
    let text = fault_line(alloc, said.as_str())?;
    let status = fault.status();
    Ok(Report { status, text })
}

/// Gives the text of a fault.
pub fn fault_text(alloc: Global, fault: RunFault) -> Result<String, WantOfMemory> {
    Ok(format!(in alloc; "{fault}")?)
}

fn write_seconds(seconds: Option<u32>, text: &mut Vec<u8>) -> Result<(), WantOfMemory>
    ensures { OnOk result (text.new.items ≡ text.old.items ++ seconds_line seconds) }
{
    match seconds {
        None => write_bytes(b"seconds none\n", text),
        Some(seconds) => write_numbered(b"seconds ", seconds as u64, text),
    }
}

#[tactic(auto, unfolding(crate::specs::Reports::follow_text))]
/// Gives the report of a follower's run in lines: `applied LOW..HIGH` for each applied delivery in
/// order, `missing K` for each missing number, then `number N`. The status is 1 exactly if a number
/// is missing.
pub fn follow_report(
    alloc: Global,
    applied: &[(u32, u32)],
    missing: &[u32],
    number: u32,
) -> Result<Report, WantOfMemory>
    ensures { IfOk result (λ report. report ≡ follow_report_of applied.now missing.now number) }
{
    let mut text = Vec::new(alloc);
    write_ranges(applied, &mut text)?;
    write_numbered_lines(b"missing ", missing, &mut text)?;
    write_numbered(b"number ", number as u64, &mut text)?;
    let status = status_of_gap(missing);
    Ok(Report { status, text })
}

/// Gives the lines `applied LOW..HIGH`, one for each applied delivery in order.
pub fn applied_report(alloc: Global, applied: &[(u32, u32)]) -> Result<Report, WantOfMemory>
    ensures { IfOk result (λ report. report ≡ applied_report_of applied.now) }
{
    let mut text = Vec::new(alloc);
    write_ranges(applied, &mut text)?;
    Ok(Report { status: 0, text })
}

/// Gives the report of a follower's run, with the text of its fault if it has one, in that layout:
/// as `follow_report` does, or as JSON.
pub fn follow_in(
    alloc: Global,
    layout: Layout,
    standing: Standing,
    applied: &[(u32, u32)],
    missing: &[u32],
    fault: Option<&str>,
) -> Result<Report, WantOfMemory>
    requires { standing.number ≤ standing.top }
    ensures { IfOk result (λ report.
        report ≡ report_of layout (option_map (λ said. said.now) fault.entry)
        (record { standing = standing; applied = applied.now; missing = missing.now })) }
{
    match layout {
        Layout::Lines => follow_report(alloc, applied, missing, standing.number),
        Layout::Json => Ok(Report {
            status: status_of_gap(missing),
            text: follow_line(alloc, standing, applied, missing, fault)?,
        }),
    }
}

fn status_of_gap(missing: &[u32]) -> u8
    ensures { result ≡ gap_status missing.now }
{
    match missing {
        [] => 0,
        [_, ..] => 1,
    }
}

fn write_ranges(applied: &[(u32, u32)], text: &mut Vec<u8>) -> Result<(), WantOfMemory>
    ensures { OnOk result (text.new.items ≡ text.old.items ++ flat_map applied_line applied.now) }
{
    for (low, high) in applied {
        write_applied(*low, *high, text)?;
    }
    Ok(())
}
