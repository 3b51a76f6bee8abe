//! Printing a text block by block.

ghost use Rattle.std.specs.Prelude.{◌≡◌, ◌++◌, ◌∷◌, [], IfErr, OnOk};
ghost use Rattle.osm_reading.specs.NumberLines.{count_line, numbered_line};
ghost use Rattle.osm_printing.specs.Steps.Parts.{IsPut, PutFails};

use osm_model::memory::WantOfMemory;
use osm_reading::number_lines::{write_bytes, write_count, write_numbered};
use osm_runs::fault::RunFault;
use osm_runs::writing::write_text;
use std::alloc::Global;
use std::io::Write;
use std::marker::Model;

// How many bytes are printed at once, at least.
const BLOCK: usize = 1_048_576;

/// Collects the bytes of a text, and prints them in blocks. After a fault the printer isn't used
/// again.
#[derive(Drop)]
pub(crate) struct Printer {
    buffer: Vec<u8>,
}

impl Model for Printer {
    ghost use Rattle.std.specs.Prelude.{ℕ, List};

    ghost Value = { List ℕ };

    ghost view = { λ a. a.buffer.items };
}

impl Printer {
    /// Makes a printer whose first bytes are those of the buffer.
    pub(crate) fn new(buffer: Vec<u8>) -> Printer
        ensures { result ≡ buffer.items }
    {
        Printer { buffer }
    }

    /// Adds a line with a name and a number.
    pub(crate) fn put_numbered<W: Write>(
        &mut self,
        writer: &mut W,
        name: &[u8],
        number: u64,
    ) -> Result<(), RunFault>
        ensures put { OnOk result (IsPut (W.contents writer.old) (W.contents writer.new)
            self.old self.new (numbered_line name.now number)) }
        ensures fails { IfErr result (PutFails (W.contents writer.old) (W.contents writer.new)
            self.old (numbered_line name.now number)) }
    {
        let Ok(()) = write_numbered(name, number, &mut self.buffer) else {
            return Err(RunFault::WantOfMemory);
        };
        self.spill(writer)?;
        Ok(())
    }

    /// Adds the line of a count.
    pub(crate) fn put_count<W: Write>(
        &mut self,
        writer: &mut W,
        count: (u32, u64),
    ) -> Result<(), RunFault>
        ensures put { OnOk result (IsPut (W.contents writer.old) (W.contents writer.new)
            self.old self.new (count_line count)) }
        ensures fails { IfErr result (PutFails (W.contents writer.old) (W.contents writer.new)
            self.old (count_line count)) }
    {
        let Ok(()) = write_count(count.0, count.1, &mut self.buffer) else {
            return Err(RunFault::WantOfMemory);
        };
        self.spill(writer)?;
        Ok(())
    }

    /// Adds a line and its LF.
    pub(crate) fn put_line<W: Write>(&mut self, writer: &mut W, line: &[u8]) -> Result<(), RunFault>
        ensures put { OnOk result (IsPut (W.contents writer.old) (W.contents writer.new)
            self.old self.new (line.now ++ 10 ∷ [])) }
        ensures fails { IfErr result (PutFails (W.contents writer.old) (W.contents writer.new)
            self.old (line.now ++ 10 ∷ [])) }
    {
        let Ok(()) = add_line(line, &mut self.buffer) else {
            return Err(RunFault::WantOfMemory);
        };
        self.spill(writer)?;
        Ok(())
    }

    // Prints what waits if it is a block.
    fn spill<W: Write>(&mut self, writer: &mut W) -> Result<(), RunFault>
        ensures put { OnOk result (IsPut (W.contents writer.old) (W.contents writer.new)
            self.old self.new []) }
        ensures fails { IfErr result (PutFails (W.contents writer.old) (W.contents writer.new)
            self.old []) }
    {
        if self.buffer.len() < BLOCK {
            return Ok(());
        }
        self.flush(writer)?;
        Ok(())
    }

    /// Prints the bytes that were collected.
    pub(crate) fn flush<W: Write>(&mut self, writer: &mut W) -> Result<(), RunFault>
        ensures put { OnOk result (IsPut (W.contents writer.old) (W.contents writer.new)
            self.old self.new []) }
        ensures none { OnOk result (self.new ≡ []) }
        ensures fails { IfErr result (PutFails (W.contents writer.old) (W.contents writer.new)
            self.old []) }
    {
        match write_text(writer, self.buffer.as_slice()) {
            Ok(()) => {
                self.buffer.clear();
                Ok(())
            }
            Err(fault) => Err(fault),
        }
    }
}

// Appends a line and LF.
fn add_line(line: &[u8], text: &mut Vec<u8>) -> Result<(), WantOfMemory>
    ensures { OnOk result (text.new.items ≡ text.old.items ++ (line.now ++ 10 ∷ [])) }
{
    write_bytes(line, text)?;
    write_bytes(b"\n", text)
}
