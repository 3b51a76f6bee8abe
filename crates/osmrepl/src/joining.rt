//! Joining the numbers of a report into ranges, for a terminal.

use osm_model::memory::WantOfMemory;
use osm_reading::number_lines::{write_applied, write_bytes};
use osm_reading::sequence::sequence_read;
use std::alloc::Global;

/// Gives the lines of a report with neighbouring numbers joined into one line: `applied 7..7` and
/// `applied 8..8` become `applied 7..8`.
pub(crate) fn joined(alloc: Global, text: &[u8]) -> Result<Vec<u8>, WantOfMemory> {
    let mut lines = Vec::new(alloc);
    let Ok(report) = str::from_utf8(text) else {
        write_bytes(text, &mut lines)?;
        return Ok(lines);
    };
    let mut before: Option<(u32, u32)> = None;
    for line in report.lines() {
        let range = range_of(line);
        before = match (before, range) {
            (Some((low, high)), Some((next, last))) if next == high.saturating_add(1) => {
                Some((low, last))
            }
            _ => {
                write_range(before, &mut lines)?;
                range
            }
        };
        if range.is_none() {
            write_bytes(line.as_bytes(), &mut lines)?;
            write_bytes(b"\n", &mut lines)?;
        }
    }
    write_range(before, &mut lines)?;
    Ok(lines)
}

fn write_range(range: Option<(u32, u32)>, lines: &mut Vec<u8>) -> Result<(), WantOfMemory> {
    match range {
        Some((low, high)) => write_applied(low, high, lines),
        None => Ok(()),
    }
}

// The range of a line `applied LOW..HIGH`.
fn range_of(line: &str) -> Option<(u32, u32)> {
    let (low, high) = line.strip_prefix("applied ")?.split_once("..")?;
    Some((
        sequence_read(low.as_bytes())?,
        sequence_read(high.as_bytes())?,
    ))
}
