//! Writing a whole text to standard output.

ghost use Rattle.std.specs.Prelude.{OnOk, IfErr};
ghost use Rattle.std.specs.Io.KnownBytes.{Appends};
ghost use Rattle.osm_runs.specs.Writing.{WritingFault};

use crate::fault::{FileName, RunFault};
use osm_reading::writing::{NotWritten, write_whole};
use std::io::Write;

/// Writes the whole text, and flushes it. After a fault a prefix of the text was written.
pub fn write_text<W: Write>(writer: &mut W, text: &[u8]) -> Result<(), RunFault>
    ensures written { OnOk result
        (Appends (W.contents writer.old) (W.contents writer.new) text.now) }
    ensures fault { IfErr result
        (WritingFault (W.contents writer.old) (W.contents writer.new) text.now) }
{
    match write_whole(writer, text) {
        Ok(()) => Ok(()),
        Err(NotWritten) => Err(RunFault::WriteFault(FileName::Output)),
    }
}
