//! The sum of the lines of some objects.

ghost use Rattle.std.specs.Prelude.{◌≡◌, ◌+◌, ◌++◌, ℕ, List, [], ◌∷◌, OnOk};
ghost use Rattle.osm_model.specs.Change.{ChangeValue};
ghost use Rattle.osm_opl.specs.Written.{line_text};
ghost use Rattle.osm_asking.specs.Fingerprint.{sum_line, sum_line_of};
ghost use Rattle.osm_asking.specs.Steps.Summing.{IsSumOf};

use osm_model::memory::WantOfMemory;
use osm_reading::number_lines::{write_bytes, write_number};
use sha2::{Digest, Sha256};
use std::alloc::Global;

/// The number of some objects, and the hash of the bytes of their lines that were taken.
#[derive(Drop)]
pub(crate) struct Sum {
    pub(crate) hasher: Sha256,
    pub(crate) count: u64,
}

impl Sum {
    /// The sum of no objects.
    pub(crate) fn new() -> Sum
        ensures sum { IsSumOf result [] [] }
        ensures count { result.count ≡ 0 }
    {
        Sum {
            hasher: Sha256::new(),
            count: 0,
        }
    }

    /// Counts one more object, whose line waits after those that aren't taken yet.
    pub(crate) fn count_one(&mut self) -> Result<(), WantOfMemory>
        ensures sum { OnOk result ((before : List ℕ) (objects : List ChangeValue) (x : ChangeValue)
            → IsSumOf self.old before objects
            → IsSumOf self.new (before ++ (line_text x ++ 10 ∷ [])) (objects ++ x ∷ [])) }
        ensures count { OnOk result (self.new.count ≡ self.old.count + 1) }
    {
        // No memory holds the lines of 2^64 objects.
        let Some(count) = self.count.checked_add(1) else {
            return Err(WantOfMemory);
        };
        self.count = count;
        Ok(())
    }

    /// Takes the bytes of the lines that wait.
    pub(crate) fn take(&mut self, lines: &[u8])
        ensures sum { (objects : List ChangeValue)
            → IsSumOf self.old lines.now objects → IsSumOf self.new [] objects }
        ensures count { self.new.count ≡ self.old.count }
    {
        self.hasher.update(lines);
    }

    /// Appends the line of the sum: `NAME objects N sha256 HEX`. All lines have to be taken.
    pub(crate) fn write(
        self,
        alloc: Global,
        name: &[u8],
        text: &mut Vec<u8>,
    ) -> Result<(), WantOfMemory>
        ensures { OnOk result ((objects : List ChangeValue) → IsSumOf self [] objects
            → text.new.items ≡ text.old.items ++ sum_line name.now objects) }
    {
        let Sum { hasher, count } = self;
        let digest = hasher.finalize();
        let digits = hex::encode(alloc, digest)?;
        write_line(name, count, digits.as_bytes(), text)?;
        Ok(())
    }
}

// Appends `NAME objects COUNT sha256 DIGITS`.
fn write_line(
    name: &[u8],
    count: u64,
    digits: &[u8],
    text: &mut Vec<u8>,
) -> Result<(), WantOfMemory>
    ensures { OnOk result
        (text.new.items ≡ text.old.items ++ sum_line_of name.now count digits.now) }
{
    write_bytes(name, text)?;
    write_bytes(b" objects ", text)?;
    write_number(count, text)?;
    write_bytes(b" sha256 ", text)?;
    write_bytes(digits, text)?;
    write_bytes(b"\n", text)
}
