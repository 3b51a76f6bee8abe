//! The text of a change file of any size, made change by change.

ghost use Rattle.std.specs.Prelude.{◌≡◌, ℕ, List, [], ◌∷◌, ◌++◌, IfOk, OnOk};
ghost use Rattle.osm_model.specs.Change.{ChangeValue};
ghost use Rattle.osm_o5c.specs.Written.{o5c_text};
ghost use Rattle.osm_range.specs.Steps.Writing.{o5c_ahead};

use osm_model::change::Change;
use osm_model::memory::WantOfMemory;
use osm_o5c::datasets::END;
use osm_o5c::writer::Writer;
use osm_opl::lines::write_line;
use std::alloc::Global;

// What a file in the form o5c begins with: reset, header, length 4, `o5c2`.
const BEGINNING: [u8; 7] = [0xff, 0xe0, 4, 0x6f, 0x35, 0x63, 0x32];

// So many changes of the usual size fill a block of 64 KiB.
const CHANGES_IN_A_BLOCK: usize = 2_048;

/// Makes the text of a change file. The caller takes the bytes that were made from time to time.
pub(crate) trait TextMaker {
    /// What the file has from here on if these changes come; first the bytes that were made.
    ghost ahead: { Self → List ChangeValue → List ℕ };

    /// The bytes that were made and not dropped yet.
    ghost made: { Self → List ℕ };

    /// The bytes that were made and not dropped yet.
    fn bytes(&self) -> &[u8]
        ensures { result.now ≡ made self.now };

    /// Drops the bytes that were made.
    fn clear(&mut self)
        ensures { (changes : List ChangeValue)
            → ahead self.old changes ≡ made self.old ++ ahead self.new changes };

    /// Makes the text of a change.
    fn write(&mut self, alloc: Global, change: &Change) -> Result<(), WantOfMemory>
        ensures { OnOk result ((changes : List ChangeValue)
            → ahead self.old (change.now ∷ changes) ≡ ahead self.new changes) };

    /// Makes the end of the file.
    fn end(&mut self) -> Result<(), WantOfMemory>
        ensures { OnOk result (ahead self.old [] ≡ made self.new) };
}

/// A change file in the form OPL.
#[derive(Drop)]
pub(crate) struct OplMaker {
    out: Vec<u8>,
}

impl OplMaker {
    /// An empty file; takes no memory.
    pub(crate) fn new(alloc: Global) -> OplMaker
        ensures { result.out.items ≡ [] }
    {
        OplMaker {
            out: Vec::new(alloc),
        }
    }
}

impl TextMaker for OplMaker {
    ghost use Rattle.std.specs.Prelude.{◌++◌};
    ghost use Rattle.osm_opl.specs.Written.{opl_text};

    ghost ahead = { λ maker changes. maker.out.items ++ opl_text changes };

    ghost made = { λ maker. maker.out.items };

    fn bytes(&self) -> &[u8] {
        self.out.as_slice()
    }

    fn clear(&mut self) {
        self.out.clear();
    }

    fn write(&mut self, _alloc: Global, change: &Change) -> Result<(), WantOfMemory> {
        write_line(change, &mut self.out)?;
        self.out.push(b'\n')?;
        Ok(())
    }

    fn end(&mut self) -> Result<(), WantOfMemory> {
        Ok(())
    }
}

/// A change file in the form o5c.
#[derive(Drop)]
pub(crate) struct O5cMaker {
    writer: Writer,
}

impl O5cMaker {
    /// A file with its beginning.
    pub(crate) fn new(alloc: Global) -> Result<O5cMaker, WantOfMemory>
        ensures { IfOk result (λ maker. (changes : List ChangeValue)
            → o5c_ahead maker.writer changes ≡ o5c_text changes) }
    {
        let writer = Writer::new(alloc, &BEGINNING, CHANGES_IN_A_BLOCK)?;
        Ok(O5cMaker { writer })
    }
}

impl TextMaker for O5cMaker {
    ghost use Rattle.osm_range.specs.Steps.Writing.{o5c_ahead};

    ghost ahead = { λ maker changes. o5c_ahead maker.writer changes };

    ghost made = { λ maker. maker.writer.out.items };

    fn bytes(&self) -> &[u8] {
        self.writer.out.as_slice()
    }

    fn clear(&mut self) {
        self.writer.out.clear();
    }

    // Without the strings that can't be named any more, what it holds doesn't grow with the file.
    fn write(&mut self, alloc: Global, change: &Change) -> Result<(), WantOfMemory> {
        self.writer.forget_old(alloc)?;
        self.writer.write_change(change)?;
        Ok(())
    }

    fn end(&mut self) -> Result<(), WantOfMemory> {
        self.writer.out.push(END)?;
        Ok(())
    }
}
