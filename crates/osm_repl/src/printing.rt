//! Printing a report, and the line of a fault.

ghost use Rattle.std.specs.Prelude.{◌≡◌, ◌⊎◌, ℕ, List, IfErr, IfOk};
ghost use Rattle.std.specs.Io.KnownBytes.{Appends};
ghost use Rattle.osm_runs.specs.Writing.{WritingFault};
ghost use Rattle.osm_repl.specs.Execution.{IsFaultLine, TellsFault, fault_line_of};

use osm_model::memory::WantOfMemory;
use osm_range::report::changes_fault_report;
use osm_runs::fault::RunFault;
use osm_runs::options::Layout;
use osm_runs::report::{Report, fault_report};
use osm_runs::writing::write_text;
use osm_words::orders::Order;
use std::alloc::Global;
use std::io::Write;

// Prints a report, and gives its status.
pub(crate) fn print<W: Write>(writer: &mut W, report: &Report) -> Result<u8, RunFault>
    ensures printed { IfOk result (λ status. (status ≡ report.now.status)
        × Appends (W.contents writer.old) (W.contents writer.new) report.now.text) }
    ensures cut { IfErr result
        (WritingFault (W.contents writer.old) (W.contents writer.new) report.now.text) }
{
    write_text(writer, report.text())?;
    Ok(report.status())
}

// In JSON, prints the line of the fault of an order's run, and gives the fault. What isn't written
// of the line is left out, and so is all of it if there is no memory for it: the fault stands
// anyhow.
pub(crate) fn tell_fault<W: Write>(
    alloc: Global,
    order: Order<'_>,
    layout: Layout,
    fault: RunFault,
    writer: &mut W,
) -> RunFault
    ensures told { TellsFault order.entry layout fault (W.contents writer.old)
        (W.contents writer.new) }
    ensures stands { result ≡ fault }
{
    match (layout, fault) {
        (Layout::Lines, _) | (_, RunFault::WantOfMemory) => {}
        _ => print_fault(alloc, order, fault, writer),
    }
    fault
}

fn print_fault<W: Write>(alloc: Global, order: Order<'_>, fault: RunFault, writer: &mut W)
    ensures { (W.contents writer.new ≡ W.contents writer.old)
        ⊎ IsFaultLine order.entry (W.contents writer.old) (W.contents writer.new) }
{
    if let Ok(report) = report_of_fault(alloc, order, fault) {
        let _ = write_text(writer, report.text());
    }
}

// The line of JSON of a fault, as a report.
fn report_of_fault(alloc: Global, order: Order<'_>, fault: RunFault) -> Result<Report, WantOfMemory>
    ensures { IfOk result
        (λ report. (said : List ℕ) × (report.text ≡ fault_line_of order.entry said)) }
{
    match order {
        Order::Changes { .. } => changes_fault_report(alloc, fault),
        _ => fault_report(alloc, fault),
    }
}
