//! The output for a list: its replies, and the files after it.

ghost use Rattle.std.specs.Prelude.{◌≤◌};
ghost use Rattle.osm_model.specs.Limits.{max_sequence};

use crate::outcome::{JOURNAL, SETUP};
use anyhow::Result;
use osm_model::limits::MAX_SEQUENCE;
use osm_operations::operation::Reply;
use osm_operations::world::Outcome;
use osm_runs::fault::RunFault;
use osm_runs::names::{file_name, top_name};
use osm_runs::report::Report;
use osm_state::paths::Suffix;
use osm_store::memory_store::MemoryStore;
use std::alloc::Global;
use std::io::{self, Write};

/// Writes the replies, then the files that are there, and a line `end`.
pub(crate) fn write_outcome<W: Write>(alloc: Global, outcome: &Outcome, out: &mut W) -> Result<()> {
    for reply in &outcome.replies {
        write_reply(reply, out)?;
    }
    write_files(alloc, outcome, out)?;
    writeln!(out, "end")?;
    Ok(())
}

// A line for the reply. After `done STATUS LENGTH`, after `part STATUS LENGTH COUNT`, and after
// `before STATUS LENGTH FAULT`, comes the text of the report.
fn write_reply<W: Write>(reply: &Reply, out: &mut W) -> io::Result<()> {
    match reply {
        Reply::Published(report)
        | Reply::Followed(report)
        | Reply::Exported(report)
        | Reply::Begun(report) => write_report(report, out),
        Reply::FollowedPart { report, count } => {
            let (status, text) = (report.status(), report.text());
            writeln!(out, "part {status} {} {count}", text.len())?;
            out.write_all(text)
        }
        Reply::FollowedBefore { report, fault } => {
            let (status, text) = (fault.status(), report.text());
            writeln!(out, "before {status} {} {fault}", text.len())?;
            out.write_all(text)
        }
        Reply::Refused(fault) => writeln!(out, "refused {} {fault}", fault.status()),
        Reply::CutOff { fault, back } => {
            writeln!(out, "cut off {} {} {fault}", fault.status(), word_of(*back))
        }
        Reply::CutShort(number) => {
            let fault = RunFault::OtherJournal(*number);
            writeln!(out, "cut short {} {fault}", fault.status())
        }
        Reply::Lost => writeln!(out, "lost"),
        Reply::IsBack => writeln!(out, "back"),
        Reply::NotThere => writeln!(out, "not there"),
    }
}

fn word_of(suffix: Suffix) -> &'static str {
    match suffix {
        Suffix::O5c => "o5c",
        Suffix::Opl => "opl",
        Suffix::State => "state",
    }
}

fn write_report<W: Write>(report: &Report, out: &mut W) -> io::Result<()> {
    let text = report.text();
    writeln!(out, "done {} {}", report.status(), text.len())?;
    out.write_all(text)
}

// All files that the operations may have made: each operation adds at most one sequence.
fn write_files<W: Write>(alloc: Global, outcome: &Outcome, out: &mut W) -> Result<()> {
    write_file(&outcome.store, SETUP.changes, out)?;
    write_file(&outcome.store, SETUP.save, out)?;
    write_file(&outcome.store, JOURNAL, out)?;
    write_file(&outcome.store, SETUP.extract, out)?;
    write_file(&outcome.store, top_name(alloc, SETUP.dir)?.as_str(), out)?;
    let most = outcome.replies.len().min(MAX_SEQUENCE as usize) as u32;
    for number in 1..=most {
        write_sequence(alloc, &outcome.store, number, out)?;
    }
    Ok(())
}

fn write_sequence<W: Write>(
    alloc: Global,
    store: &MemoryStore,
    number: u32,
    out: &mut W,
) -> Result<()>
    requires { number ≤ max_sequence }
{
    for suffix in [Suffix::O5c, Suffix::Opl, Suffix::State] {
        let name = file_name(alloc, SETUP.dir, number, suffix)?;
        write_file(store, name.as_str(), out)?;
    }
    Ok(())
}

// A line `file NAME LENGTH`, and the bytes and a line feed after it; nothing if there is no such
// file.
fn write_file<W: Write>(store: &MemoryStore, name: &str, out: &mut W) -> io::Result<()> {
    let Some(bytes) = store.get(name) else {
        return Ok(());
    };
    writeln!(out, "file {name} {}", bytes.len())?;
    out.write_all(bytes)?;
    writeln!(out)
}
