//! The lines of objects, taken as they are.

ghost use Rattle.std.specs.Prelude.{◌≡◌, ◌++◌, ◌∷◌, [], IsTrue, OnOk};
ghost use Rattle.osm_merge.specs.Taking.{IsBelow, Takes};

use osm_merge::objects::LineTaker;
use osm_model::filter::Filter;
use osm_model::kind::Key;
use osm_model::memory::WantOfMemory;
use osm_save::objects::checked_key;
use std::alloc::Global;

/// The lines that were taken, each with its LF.
#[derive(Drop)]
pub(crate) struct Lines {
    out: Vec<u8>,
    // A buffer for the lines whose objects have to be built.
    written: Vec<u8>,
}

impl Lines {
    /// No lines; takes no memory.
    pub(crate) fn new(alloc: Global) -> Lines
        ensures { result.out.items ≡ [] }
    {
        Lines {
            out: Vec::new(alloc),
            written: Vec::new(alloc),
        }
    }

    /// The bytes of the lines.
    pub(crate) fn bytes(&self) -> &[u8]
        ensures { result.now ≡ self.now.out.items }
    {
        self.out.as_slice()
    }

    /// Drops the lines.
    pub(crate) fn clear(&mut self)
        ensures { self.new.out.items ≡ [] }
    {
        self.out.clear();
    }

    /// Adds a line and its LF.
    pub(crate) fn add(&mut self, line: &[u8]) -> Result<(), WantOfMemory>
        ensures { OnOk result
            (self.new.out.items ≡ self.old.out.items ++ (line.now ++ 10 ∷ [])) }
    {
        add_line(line, &mut self.out)
    }
}

impl LineTaker for Lines {
    ghost use Rattle.std.specs.Prelude.{◌++◌};
    ghost use Rattle.osm_opl.specs.Written.{opl_text};

    ghost ahead = { λ lines objects. lines.out.items ++ opl_text objects };

    // For nearly all lines no object is built.
    fn take(
        &mut self,
        alloc: Global,
        filter: &Filter,
        last: Option<Key>,
        bound: Option<Key>,
        line: &[u8],
    ) -> Result<Option<Key>, WantOfMemory> {
        let Some(key) = checked_key(alloc, filter, last, line, &mut self.written)? else {
            return Ok(None);
        };
        if !is_below(key, bound) {
            return Ok(None);
        }
        add_line(line, &mut self.out)?;
        Ok(Some(key))
    }
}

// Whether the key is below the bound, if there is one.
fn is_below(key: Key, bound: Option<Key>) -> bool
    ensures { IsTrue result → IsBelow bound key }
{
    match bound {
        None => true,
        Some(bound) => key.cmp(&bound).is_lt(),
    }
}

// Appends a line and LF.
fn add_line(line: &[u8], out: &mut Vec<u8>) -> Result<(), WantOfMemory>
    ensures { OnOk result (out.new.items ≡ out.old.items ++ (line.now ++ 10 ∷ [])) }
{
    out.extend_from_slice(line)?;
    out.push(b'\n')?;
    Ok(())
}
