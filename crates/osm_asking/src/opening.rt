//! What a save begins with, and where the lines of its objects begin.

ghost use Rattle.std.specs.Prelude.{ℕ, List, IfErr, IfOk};
ghost use Rattle.osm_blocks.specs.Frames.{ReadsOften};
ghost use Rattle.osm_blocks.specs.Places.{HasFile};
ghost use Rattle.osm_save.specs.Answers.{Gives};
ghost use Rattle.osm_save.specs.Save.{SpellsSave};
ghost use Rattle.osm_save.specs.declared.save.Saved.{Saved};
ghost use Rattle.osm_store.specs.Frames.{MakesAtMost};
ghost use Rattle.osm_asking.specs.Lines.{IsOpening};
ghost use Rattle.osm_asking.specs.Refusal.{IsFailed, SearchStops};
ghost use Rattle.osm_asking.specs.Steps.Opening.{OpensAt, OpeningStops, opening_at};

use crate::block::block_at;
use crate::fault::SearchFault;
use osm_model::filter::Filter;
use osm_save::head::{Head, read_head};
use osm_save::lines::{line_number, numbered_line};
use osm_save::save::objects_limit;
use osm_save::stop::Stop;
use osm_store::store::Store;
use std::alloc::Global;

/// What a save begins with, and where the lines of its objects begin.
#[derive(Drop)]
pub struct Opened {
    pub head: Head,
    pub filter: Filter,
    /// The number of objects.
    pub objects: u64,
    /// The byte, counted from 0, at which the line of the first object begins, or the line after
    /// the objects if there are none.
    pub place: u64,
}

// How many bytes of a save are read, if it has as many: a head has at most 408,194, and the line
// after it at most 27.
const START: u64 = 409_600;

/// Reads what a save begins with. The save has to be there, and the rest of it isn't checked.
pub fn open_lines<S: Store>(alloc: Global, store: &mut S, save: &str) -> Result<Opened, SearchFault>
    ensures opened { IfOk result (λ opened. (file : List ℕ) (v : Saved)
        → HasFile (S.state store.old) save.now file → SpellsSave file v
        → IsOpening file opened v) }
    ensures stops { IfErr result (SearchStops (S.state store.old) save.now) }
    ensures frame { ReadsOften IsFailed (S.state store.old) (S.state store.new) result }
    ensures calls { MakesAtMost IsFailed 1 (S.state store.old) (S.state store.new) result }
{
    let bytes = match block_at(alloc, store, save, 0, START) {
        Ok(bytes) => bytes,
        Err(fault) => return Err(fault),
    };
    match opening_of(alloc, bytes.as_slice()) {
        Ok(opened) => Ok(opened),
        Err(fault) => Err(fault),
    }
}

// What the first bytes of a save begin with.
fn opening_of(alloc: Global, bytes: &[u8]) -> Result<Opened, SearchFault>
    ensures opened { IfOk result (OpensAt bytes.now) }
    ensures stops { IfErr result (OpeningStops bytes.now) }
{
    match read_opening(alloc, bytes) {
        Ok((opened, _rest)) => Ok(opened),
        Err(Stop::Wrong(left)) => Err(SearchFault::BadHead(line_number(bytes, left))),
        Err(Stop::WantOfMemory) => Err(SearchFault::WantOfMemory),
    }
}

// Reads the lines before the objects, and gives the bytes after them.
#[tactic(auto, unfolding(crate::specs::Steps::Opening::opening_at))]
fn read_opening(alloc: Global, bytes: &[u8]) -> Result<(Opened, &[u8]), Stop>
    ensures { Gives (λ r. (r.0, r.1.now)) result (opening_at bytes.now) }
{
    let (version, head, filter, rest) = read_head(alloc, bytes)?;
    let (objects, rest) = numbered_line(b"objects ", objects_limit(version, head.number), rest)?;
    let opened = Opened {
        head,
        filter,
        objects,
        place: bytes.len().saturating_sub(rest.len()) as u64,
    };
    Ok((opened, rest))
}
