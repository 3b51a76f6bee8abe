//! The lists of a save, copied block by block.

ghost use Rattle.std.specs.Prelude.{◌≡◌, ◌≢◌, ◌+◌, ◌≤◌, ◌<◌, None, IfErr, IfSome, OnOk};
ghost use Rattle.osm_blocks.specs.Frames.{ReadsOften};
ghost use Rattle.osm_runs.specs.declared.fault.FileName.TheVariants.{Save};
ghost use Rattle.osm_runs.specs.declared.fault.RunFault.TheVariants.{Changed};
ghost use Rattle.osm_printing.specs.Printing.{IsReadFault};
ghost use Rattle.osm_printing.specs.Steps.Copying.{IsCopied, IsCopiedInPart, end_line};

use crate::start::read_block;
use osm_runs::fault::{FileName, RunFault};
use osm_runs::writing::write_text;
use osm_store::store::Store;
use std::alloc::Global;
use std::io::Write;

// The bytes of the last line, `end` and LF.
const END: usize = 4;

/// Writes the rest of a save from a place on, except its last line. The last bytes of each block
/// may be that line, so they are read again with the next block.
pub(crate) fn copy_lists<S: Store, W: Write>(
    alloc: Global,
    store: &mut S,
    save: &str,
    place: u64,
    writer: &mut W,
) -> Result<(), RunFault>
    ensures copied { OnOk result (IsCopied (S.state store.old) save.now place
        (W.contents writer.old) (W.contents writer.new)) }
    ensures stops { IfErr result (IsCopiedInPart (S.state store.old) save.now place
        (W.contents writer.old) (W.contents writer.new)) }
    ensures frame { ReadsOften IsReadFault (S.state store.old) (S.state store.new) result }
{
    let mut from = place;
    'blocks: loop {
        let block = match read_block(alloc, store, save, from) {
            Ok(block) => block,
            Err(fault) => return Err(fault),
        };
        if block.len() <= END {
            return check_end(block.as_slice());
        }
        let count = block.len() - END;
        match write_text(writer, &block[..count]) {
            Ok(()) => {}
            Err(fault) => return Err(fault),
        }
        let Some(after) = place_after(from, count) else {
            return Err(RunFault::TooLarge(FileName::Save));
        };
        from = after;
    }
}

// The place after so many bytes; None if 64 bits don't count it.
fn place_after(from: u64, count: usize) -> Option<u64>
    ensures after { IfSome result (λ after. after ≡ from + count) }
    ensures fits { IfSome result (λ after. after ≤ 18446744073709551615) }
    ensures huge { result ≡ None → 18446744073709551615 < from + count }
{
    from.checked_add(count as u64)
}

// Refuses bytes that aren't the last line of a save.
fn check_end(bytes: &[u8]) -> Result<(), RunFault>
    ensures is_end { OnOk result (bytes.now ≡ end_line) }
    ensures other { IfErr result (λ fault. (fault ≡ Changed Save) × (bytes.now ≢ end_line)) }
{
    if bytes != b"end\n".as_slice() {
        return Err(RunFault::Changed(FileName::Save));
    }
    Ok(())
}
