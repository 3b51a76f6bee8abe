//! Counting the objects of a data file by its bytes, block by block, without reading the objects.

ghost use Rattle.std.specs.Prelude.{◌≡◌, ◌++◌, ◌+◌, ◌≤◌, ℕ, List, None, drop, length, min};
ghost use Rattle.std.specs.Prelude.{IfErr, IfOk, IfSome, OnOk};
ghost use Rattle.osm_model.specs.Filter.{FilterValue};
ghost use Rattle.osm_store.specs.Files.{Spends};
ghost use Rattle.osm_store.specs.Frames.{IsKnown, MakesAtMost};
ghost use Rattle.osm_blocks.specs.Frames.{ReadsOften};
ghost use Rattle.osm_blocks.specs.Places.{HasFile};
ghost use Rattle.osm_data.specs.Counting.{CountStops, count_calls, most_counted, one_of};
ghost use Rattle.osm_data.specs.Reading.{IsDeviceFault};

use crate::fault::{DataFault, fault_of_blocks};
use osm_blocks::block_reader::BlockReader;
use osm_model::filter::Filter;
use osm_model::kind::Kind;
use osm_store::store::Store;
use std::alloc::Global;

/// Counts the objects of a data file of one form from the bytes of the file, which are given in
/// order, some at a time.
pub trait ObjectCounter {
    /// With those bytes, which are all that follow, it comes to that number.
    ghost comes_to: { FilterValue → Self → List ℕ → ℕ → Type 0 };

    /// The number so far.
    ghost number: { Self → ℕ };

    /// Counts on, and gives how many of the bytes were passed; the other bytes come again, before
    /// those that follow. None if the following bytes make no difference.
    fn pass(&mut self, filter: &Filter, bytes: &[u8]) -> Option<usize>
        ensures within { IfSome result (λ passed. passed ≤ length bytes.now) }
        ensures goes_on { IfSome result (λ passed. (more : List ℕ) (total : ℕ)
            → comes_to filter.now self.old (bytes.now ++ more) total
            → comes_to filter.now self.new (drop passed bytes.now ++ more) total) }
        ensures ends { IfSome result (λ passed. (total : ℕ)
            → comes_to filter.now self.new (drop passed bytes.now) total
            → number self.new ≡ total) }
        ensures over { result ≡ None → (more : List ℕ) (total : ℕ)
            → comes_to filter.now self.old (bytes.now ++ more) total
            → number self.new ≡ total };

    /// The number of objects counted so far.
    fn number(&self) -> u64
        ensures { result ≡ number self.now };
}

/// Adds one to the count if the filter chooses the given kind. The count stops at its greatest
/// value.
pub fn count_one(filter: &Filter, kind: Option<Kind>, count: u64) -> u64
    ensures { result ≡ min (count + one_of filter.now kind) most_counted }
{
    let is_chosen = match kind {
        Some(Kind::Node) => filter.nodes(),
        Some(Kind::Way) => filter.ways(),
        Some(Kind::Relation) => filter.relations(),
        None => false,
    };
    if is_chosen {
        return count.saturating_add(1);
    }
    count
}

/// Counts the objects of a whole file, with a counter that has seen none of its bytes.
pub fn count_objects<S: Store, C: ObjectCounter>(
    alloc: Global,
    store: &mut S,
    name: &str,
    filter: &Filter,
    counter: &mut C,
) -> Result<u64, DataFault>
    ensures counted { IfOk result (λ count. (file : List ℕ) (total : ℕ)
        → HasFile (S.state store.old) name.now file
        → C.comes_to filter.now counter.old file total → count ≡ total) }
    ensures stops { IfErr result (CountStops (S.state store.old) name.now) }
    ensures stage { (S.state store.new).stage ≡ (S.state store.old).stage }
    ensures frame { ReadsOften IsDeviceFault (S.state store.old) (S.state store.new) result }
    ensures spends { OnOk result (Spends 1 (S.state store.old).left (S.state store.new).left) }
    ensures calls { IsKnown (S.state store.old) → MakesAtMost IsDeviceFault
        (count_calls ((S.state store.old).files name.now))
        (S.state store.old) (S.state store.new) result }
{
    let mut reader = match BlockReader::open(alloc, store, name) {
        Ok(Some(reader)) => reader,
        Ok(None) => return Err(DataFault::NoFile),
        Err(fault) => return Err(fault_of_blocks(fault)),
    };
    'blocks: loop {
        let Some(passed) = counter.pass(filter, reader.unread()) else {
            return Ok(counter.number());
        };
        reader.pass(passed);
        let is_more = match reader.read_more(alloc, store, name) {
            Ok(is_more) => is_more,
            Err(fault) => return Err(fault_of_blocks(fault)),
        };
        if !is_more {
            return Ok(counter.number());
        }
    }
}
