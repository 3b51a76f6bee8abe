//! How much of a data file was passed, and the key of its last object.

ghost use Rattle.std.specs.Prelude.{◌≡◌, ◌+◌, ◌++◌, ◌<◌, ◌≤◌, ◌∷◌, [], None};
ghost use Rattle.std.specs.Prelude.{IfErr, IfSome, OnOk};
ghost use Rattle.osm_data.specs.Steps.OplObjects.{AddStops, Adds, Keeps};

use crate::fault::DataFault;
use crate::opl_objects::read_object;
use osm_model::change::Change;
use osm_model::kind::Key;
use osm_model::memory::WantOfMemory;
use std::alloc::Global;

/// The bytes and the lines that were passed, and the key of the last object that they spell.
#[derive(Drop)]
pub(crate) struct SoFar {
    pub bytes: u64,
    pub lines: u64,
    pub last: Option<Key>,
}

impl SoFar {
    /// Nothing was passed.
    pub fn new() -> SoFar
        ensures { result ≡ record { bytes = 0; lines = 0; last = None } }
    {
        SoFar {
            bytes: 0,
            lines: 0,
            last: None,
        }
    }

    /// Passes one more line, which is so many bytes of the file, and adds its object, unless it is
    /// skipped. The line is given without its line end.
    pub fn add(
        &mut self,
        alloc: Global,
        line: &[u8],
        count: usize,
        objects: &mut Vec<Change>,
    ) -> Result<(), DataFault>
        requires { 0 < count }
        ensures added { OnOk result (Adds line.now count self.old self.new
            objects.old.items objects.new.items) }
        ensures stops { IfErr result (AddStops line.now count self.old) }
    {
        let Some((bytes, lines)) = after_line(self.bytes, self.lines, count) else {
            return Err(DataFault::TooLarge);
        };
        let object = match read_object(alloc, line, lines, self.last) {
            Ok(object) => object,
            Err(fault) => return Err(fault),
        };
        let Ok(()) = keep(object, &mut self.last, objects) else {
            return Err(DataFault::WantOfMemory);
        };
        self.bytes = bytes;
        self.lines = lines;
        Ok(())
    }
}

// The bytes and the lines that were passed after one more line of so many bytes; None if 64 bits
// don't count them.
fn after_line(bytes: u64, lines: u64, count: usize) -> Option<(u64, u64)>
    ensures bytes { IfSome result (λ r. r.0 ≡ bytes + count) }
    ensures lines { IfSome result (λ r. r.1 ≡ lines + 1) }
    ensures fits { IfSome result (λ r. r.0 ≤ 18446744073709551615) }
    ensures huge { result ≡ None → 0 < count → lines ≤ bytes
        → 18446744073709551615 < bytes + count }
{
    let after = bytes.checked_add(count as u64)?;
    let number = lines.checked_add(1)?;
    Some((after, number))
}

// Adds an object, if there is one; its key is the last one then.
fn keep(
    object: Option<Change>,
    last: &mut Option<Key>,
    objects: &mut Vec<Change>,
) -> Result<(), WantOfMemory>
    ensures { OnOk result (Keeps object last.old last.new objects.old.items objects.new.items) }
{
    if let Some(object) = object {
        *last = Some(object.key());
        objects.push(object)?;
    }
    Ok(())
}
