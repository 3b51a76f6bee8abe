//! The word `operations`, which runs lists of operations on a folder and a save, each list in a new
//! store in memory, and writes the replies and the files after each list. Standard input has a line
//! for each operation:
//!
//! - publications: `publish TIME`, `killed publish CALLS TIME`, `publish as 1 TIME`, `killed
//!   publish as 1 CALLS TIME`;
//! - runs of the follower: `follow`, `killed follow CALLS`, `follow other KINDS KEY..`, `follow
//!   spoiled 1 o5c`, `killed follow spoiled 1 o5c CALLS`;
//! - exports and beginnings: `export`, `killed export CALLS`, `begin`, `killed begin CALLS`;
//! - files: `lose 1 o5c`, `put back 1 state`.
//!
//! Before a publication there is a line `edit OPL` for each of its changes, and after each list a
//! line `run`. A list may begin with a line `filter KINDS KEY..`. A TIME is written as
//! 2024-01-01T00:00:00Z.

use crate::answers::write_outcome;
use crate::list::List;
use crate::outcome::outcome_of;
use anyhow::{Result, bail};
use std::alloc::Global;
use std::io::{self, BufRead, BufReader, BufWriter, Write};

/// Runs the lists of standard input. Fails at the first line that says nothing, with its number.
pub(crate) fn run(rt: &HostRuntime) -> Result<()> {
    let alloc = rt.alloc();
    let lines = BufReader::new(alloc, rt.reader())?.lines(alloc);
    let mut out = BufWriter::new(alloc, io::writer(rt))?;
    let mut list = List::new(alloc);
    for (index, line) in lines.enumerate() {
        if let Err(error) = take_line(alloc, line?.as_str(), &mut list, &mut out) {
            bail!("line {}: {error}", index + 1);
        }
    }
    if !list.is_empty() {
        bail!("the last list has no line `run`");
    }
    out.flush()?;
    Ok(())
}

// Runs the list at the line `run`; every other line belongs to the list.
fn take_line<W: Write>(alloc: Global, line: &str, list: &mut List, out: &mut W) -> Result<()> {
    if line == "run" {
        let filter = list.take_filter();
        let outcome = outcome_of(alloc, &filter, list.take())?;
        return write_outcome(alloc, &outcome, out);
    }
    list.read(line)
}
