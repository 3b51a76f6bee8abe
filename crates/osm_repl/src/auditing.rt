//! Auditing a folder, and printing the findings.

ghost use Rattle.std.specs.Prelude.{◌≡◌, ℕ, ◌≤◌, ◌⊎◌, IfErr, IfOk};
ghost use Rattle.osm_store.specs.Files.{Spends};
ghost use Rattle.osm_repl.specs.Auditing.{IsAudited, IsAuditFaultLine, IsAuditPrinted};
ghost use Rattle.osm_repl.specs.Auditing.{IsAuditUnprinted, IsNotAudited, IsRangeAudited};
ghost use Rattle.osm_repl.specs.Auditing.{IsRangeNotAudited, IsToldIn, TellsAuditFault};

use crate::numbers::number_of;
use osm_audit::audit::{Audit, audit_run};
use osm_audit::report::{audit_fault_line, audit_line, audit_status, audit_text};
use osm_model::memory::WantOfMemory;
use osm_runs::fault::RunFault;
use osm_runs::options::Layout;
use osm_runs::writing::write_text;
use osm_store::store::Store;
use std::alloc::Global;
use std::io::Write;

// Checks whether a folder is whole, prints what it found, and gives the status. The range is that
// of the words.
pub(crate) fn audit_and_print<S: Store, W: Write>(
    alloc: Global,
    dir: &str,
    from: Option<&str>,
    to: Option<&str>,
    layout: Layout,
    store: &mut S,
    writer: &mut W,
) -> Result<u8, RunFault>
    ensures done { IfOk result (IsAudited (S.state store.old) (S.state store.new) layout dir.now
        from.entry to.entry (W.contents writer.old) (W.contents writer.new)) }
    ensures not_done { IfErr result (IsNotAudited (S.state store.old) (S.state store.new) layout
        dir.now from.entry to.entry (W.contents writer.old) (W.contents writer.new)) }
    ensures files { (S.state store.new).files ≡ (S.state store.old).files }
    ensures known { (S.state store.new).is_known ≡ (S.state store.old).is_known }
    ensures left { Spends 0 (S.state store.old).left (S.state store.new).left }
    ensures kept { (S.state store.old).failures ≤ (S.state store.new).failures }
{
    let first = number_of(from)?;
    let last = number_of(to)?;
    print_audit(alloc, dir, first, last, layout, store, writer)
}

fn print_audit<S: Store, W: Write>(
    alloc: Global,
    dir: &str,
    from: Option<u32>,
    to: Option<u32>,
    layout: Layout,
    store: &mut S,
    writer: &mut W,
) -> Result<u8, RunFault>
    ensures done { IfOk result (IsRangeAudited (S.state store.old) (S.state store.new) layout
        dir.now from to (W.contents writer.old) (W.contents writer.new)) }
    ensures not_done { IfErr result (IsRangeNotAudited (S.state store.old) (S.state store.new)
        layout dir.now from to (W.contents writer.old) (W.contents writer.new)) }
    ensures files { (S.state store.new).files ≡ (S.state store.old).files }
    ensures known { (S.state store.new).is_known ≡ (S.state store.old).is_known }
    ensures left { Spends 0 (S.state store.old).left (S.state store.new).left }
    ensures kept { (S.state store.old).failures ≤ (S.state store.new).failures }
{
    match audit_run(alloc, store, dir, from, to) {
        Ok(audit) => print(alloc, &audit, layout, writer),
        Err(fault) => Err(tell(alloc, layout, fault, writer)),
    }
}

// Prints what was found, and gives the status.
fn print<W: Write>(
    alloc: Global,
    audit: &Audit,
    layout: Layout,
    writer: &mut W,
) -> Result<u8, RunFault>
    ensures printed { IfOk result (IsAuditPrinted layout audit.now (W.contents writer.old)
        (W.contents writer.new)) }
    ensures cut { IfErr result (IsAuditUnprinted layout audit.now (W.contents writer.old)
        (W.contents writer.new)) }
{
    let text = text_of(alloc, audit, layout)?;
    write_text(writer, text.as_slice())?;
    Ok(audit_status(audit))
}

fn text_of(alloc: Global, audit: &Audit, layout: Layout) -> Result<Vec<u8>, WantOfMemory>
    ensures { IfOk result (λ text. IsToldIn layout audit.now text.items) }
{
    match layout {
        Layout::Lines => audit_text(alloc, audit),
        Layout::Json => audit_line(alloc, audit),
    }
}

// In JSON, prints the line of a fault, and gives the fault. What isn't written of the line is left
// out, and so is all of it if there is no memory for it: the fault stands anyhow.
fn tell<W: Write>(alloc: Global, layout: Layout, fault: RunFault, writer: &mut W) -> RunFault
    ensures told { TellsAuditFault layout fault (W.contents writer.old) (W.contents writer.new) }
    ensures stands { result ≡ fault }
{
    match (layout, fault) {
        (Layout::Lines, _) | (_, RunFault::WantOfMemory) => {}
        _ => print_fault(alloc, fault, writer),
    }
    fault
}

fn print_fault<W: Write>(alloc: Global, fault: RunFault, writer: &mut W)
    ensures { (W.contents writer.new ≡ W.contents writer.old)
        ⊎ IsAuditFaultLine (W.contents writer.old) (W.contents writer.new) }
{
    if let Ok(line) = audit_fault_line(alloc, fault) {
        let _ = write_text(writer, line.as_slice());
    }
}
