//! Writing a whole text.

ghost use Rattle.std.specs.Prelude.{OnErr, OnOk};
ghost use Rattle.std.specs.Io.KnownBytes.{Appends};
ghost use Rattle.osm_reading.specs.Writing.{AppendsPart};

use std::io::Write;

/// Not all of a text was written and flushed.
#[derive(Clone, Copy, Debug, PartialEq, Eq)]
pub struct NotWritten;

/// Writes the whole text and flushes it. After a fault, a prefix of the text was written.
pub fn write_whole<W: Write>(writer: &mut W, text: &[u8]) -> Result<(), NotWritten>
    ensures written { OnOk result
        (Appends (W.contents writer.old) (W.contents writer.new) text.now) }
    ensures fault { OnErr result
        (AppendsPart (W.contents writer.old) (W.contents writer.new) text.now) }
{
    let mut at = 0usize;
    while at < text.len() {
        match writer.write(&text[at..]) {
            Ok(0) => return Err(NotWritten),
            Ok(count) => at += count,
            Err(_) => return Err(NotWritten),
        }
    }
    match writer.flush() {
        Ok(()) => Ok(()),
        Err(_) => Err(NotWritten),
    }
}
