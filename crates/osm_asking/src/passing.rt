//! The lines of a block that come before what is looked for.

ghost use Rattle.std.specs.Prelude.{ℕ, None, IfErr, IfOk, drop};
ghost use Rattle.osm_asking.specs.Steps.Passing.{HasSide, Passes, StopsAt};

use crate::side::{Wanted, side_of};
use osm_save::lines::next_line;
use std::cmp::Ordering;

/// Passes the lines of a block that come before what is wanted, and gives the count of their bytes
/// and where the next line lies; None if the next line isn't in the block as a whole. The fault is
/// the count of the bytes before a line that has no key.
pub(crate) fn pass_lines(block: &[u8], wanted: Wanted) -> Result<(usize, Option<Ordering>), usize>
    ensures passed { IfOk result (λ r. Passes wanted block.now r.0) }
    ensures stopped { IfOk result (λ r. StopsAt wanted (drop r.0 block.now) r.1) }
    ensures bad { IfErr result (λ count. Passes wanted block.now count) }
    ensures no_key { IfErr result (λ count. HasSide wanted (drop count block.now) None) }
{
    let mut rest = block;
    for _ in 0..block.len() {
        let (line, after) = match next_line(rest) {
            Ok(cut) => cut,
            Err(_stop) => return Ok((block.len() - rest.len(), None)),
        };
        match side_of(line, wanted) {
            None => return Err(block.len() - rest.len()),
            Some(Ordering::Less) => rest = after,
            Some(Ordering::Equal) => {
                return Ok((block.len() - rest.len(), Some(Ordering::Equal)));
            }
            Some(Ordering::Greater) => {
                return Ok((block.len() - rest.len(), Some(Ordering::Greater)));
            }
        }
    }
    Ok((block.len() - rest.len(), None))
}
