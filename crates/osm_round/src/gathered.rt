//! The sequences that a run takes, as o5c, for a journal.

ghost use Rattle.std.specs.Prelude.{◌≡◌, false, IfOk, OnOk};
ghost use Rattle.osm_model.specs.Batch as model;
ghost use Rattle.osm_o5c.specs.Written.{o5c_text};
ghost use Rattle.osm_round.specs.Gathering.{Grows, IsBegunUpTo};

use osm_model::batch::Batch;
use osm_model::change::Change;
use osm_model::files::WriteError;
use osm_model::memory::WantOfMemory;
use osm_o5c::o5c::O5c;
use std::alloc::Global;

/// A sequence as a journal holds it: its number, its time, and its changes as o5c.
#[derive(Drop)]
pub(crate) struct Text {
    pub(crate) number: u32,
    pub(crate) time: u32,
    pub(crate) bytes: Vec<u8>,
}

/// The sequences that a run took, as long as all together fit into the journal. Once they don't
/// fit, none is kept any more.
#[derive(Drop)]
pub(crate) struct Gathered {
    pub(crate) texts: Vec<Text>,
    /// The number of bytes that are left for more sequences.
    pub(crate) left: u64,
    /// Whether all sequences that the run took are here.
    pub(crate) is_whole: bool,
}

impl Gathered {
    /// No sequences so far; together they may have `most` bytes. If `most` is 0, none is kept.
    pub(crate) fn up_to(alloc: Global, most: u64) -> Gathered
        ensures begun { IsBegunUpTo most result }
        ensures most { result.left ≡ most }
    {
        Gathered {
            texts: Vec::new(alloc),
            left: most,
            is_whole: most > 0,
        }
    }

    /// Keeps one more sequence, with its changes written as o5c, if there is room, and gives the
    /// changes back. If there is no room, no sequence is kept any more.
    pub(crate) fn add(
        &mut self,
        alloc: Global,
        number: u32,
        time: u32,
        changes: Vec<Change>,
    ) -> Result<Vec<Change>, WantOfMemory>
        requires { model.IsBatch changes.items }
        ensures same { IfOk result (λ c. c.items ≡ changes.items) }
        ensures grown { OnOk result (Grows (record {
          number = number;
          time = time;
          bytes = o5c_text changes.items;
        }) self.old self.new) }
    {
        if !self.is_whole {
            return Ok(changes);
        }
        let batch = Batch::within_limits(changes);
        match O5c::write_within(alloc, &batch, self.left) {
            Ok(bytes) => {
                let size = bytes.len() as u64;
                self.texts.push(Text {
                    number,
                    time,
                    bytes,
                })?;
                self.left -= size;
            }
            Err(WriteError::TooLarge) => self.drop_all(alloc),
            Err(WriteError::WantOfMemory) => return Err(WantOfMemory),
        }
        Ok(batch.into_changes())
    }

    // Keeps none any more.
    fn drop_all(&mut self, alloc: Global)
        ensures { self.new.is_whole ≡ false }
    {
        self.texts = Vec::new(alloc);
        self.is_whole = false;
    }
}
