//! Counting the objects of a data file by the types of its datasets.

ghost use Rattle.std.specs.Prelude.{◌≡◌, ◌++◌, ◌-◌, ◌<◌, ◌≤◌, ℕ, List, [], Some, None};
ghost use Rattle.std.specs.Prelude.{MatchOption, drop, length};
ghost use Rattle.osm_o5c.specs.Datasets.{kind_of_byte};
ghost use Rattle.osm_data.specs.Steps.O5mCounting.{BeginsCounter, ComesTo, content_at, head_at};

use crate::counting::{ObjectCounter, count_one};
use crate::extents::FIRST_LONE;
use osm_model::filter::Filter;
use osm_model::kind::Kind;
use osm_o5c::datasets::END;
use osm_o5c::numbers::unsigned;

/// The most bytes of a type and a length.
const MAX_HEAD: usize = 11;

/// The number of the objects whose types and lengths were passed, and how many bytes of the last
/// dataset weren't.
#[derive(Drop)]
pub(crate) struct O5mCounter {
    pub count: u64,
    pub skip: u64,
}

impl ObjectCounter for O5mCounter {
    ghost use Rattle.osm_data.specs.Steps.O5mCounting.{ComesTo};

    ghost comes_to = { ComesTo };

    ghost number = { λ counter. counter.count };

    fn pass(&mut self, filter: &Filter, bytes: &[u8]) -> Option<usize> {
        let rest = self.pass_datasets(filter, bytes);
        if rest.len() >= MAX_HEAD {
            return None;
        }
        Some(bytes.len() - rest.len())
    }

    fn number(&self) -> u64 {
        self.count
    }
}

impl O5mCounter {
    /// Before the first dataset of a file.
    pub fn new() -> O5mCounter
        ensures { BeginsCounter result }
    {
        O5mCounter { count: 0, skip: 0 }
    }

    // Passes the datasets of which the bytes have the type and the length, and gives what follows.
    fn pass_datasets<'a>(&mut self, filter: &Filter, bytes: &'a [u8]) -> &'a [u8]
        ensures counted { (more : List ℕ) (total : ℕ)
            → ComesTo filter.now self.old (bytes.now ++ more) total
            → ComesTo filter.now self.new (result.now ++ more) total }
        ensures shorter { length result.now ≤ length bytes.now }
        ensures rest { result.now ≡ drop (length bytes.now - length result.now) bytes.now }
        ensures over { head_at result.now ≡ None }
        ensures skipped { 0 < self.new.skip → result.now ≡ [] }
    {
        let mut rest = self.skip_in(bytes);
        'datasets: loop {
            let Some((kind, size, after)) = head(rest) else {
                return rest;
            };
            self.count = count_one(filter, kind, self.count);
            self.skip = size;
            rest = self.skip_in(after);
        }
    }

    // Passes those of the bytes that belong to the last dataset, and gives what follows.
    fn skip_in<'a>(&mut self, bytes: &'a [u8]) -> &'a [u8]
        ensures rest { result.now ≡ drop self.old.skip bytes.now }
        ensures skip { self.new.skip ≡ self.old.skip - length bytes.now }
        ensures count { self.new.count ≡ self.old.count }
    {
        let length = bytes.len() as u64;
        if self.skip >= length {
            self.skip -= length;
            return &[];
        }
        let rest = &bytes[self.skip as usize..];
        self.skip = 0;
        rest
    }
}

// The kind of the dataset at the start of the bytes, if it is an object, the number of the bytes
// after its type and its length, and all that follows these two. None if they don't begin one.
#[tactic(auto, unfolding(crate::specs::Steps::O5mCounting::head_at))]
fn head(bytes: &[u8]) -> Option<(Option<Kind>, u64, &[u8])>
    ensures { MatchOption result (head_at bytes.now ≡ None)
        (λ r. head_at bytes.now ≡ Some (r.0, r.1, r.2.now)) }
{
    let (first, rest) = bytes.split_first()?;
    let (size, after) = content(*first, rest)?;
    Some((kind_of(*first), size, after))
}

// The number of the bytes of a dataset after its type and its length, and all that follows these.
#[tactic(auto, unfolding(crate::specs::Steps::O5mCounting::content_at))]
fn content(first: u8, bytes: &[u8]) -> Option<(u64, &[u8])>
    ensures { MatchOption result (content_at first bytes.now ≡ None)
        (λ r. content_at first bytes.now ≡ Some (r.0, r.1.now)) }
{
    if first >= FIRST_LONE {
        return if first == END { None } else { Some((0, bytes)) };
    }
    match unsigned(bytes) {
        Ok((size, after)) => Some((size, after)),
        Err(_) => None,
    }
}

fn kind_of(first: u8) -> Option<Kind>
    ensures { result ≡ kind_of_byte first }
{
    match first {
        0x10 => Some(Kind::Node),
        0x11 => Some(Kind::Way),
        0x12 => Some(Kind::Relation),
        _ => None,
    }
}
