//! Counting the objects of a data file by the first bytes of its lines.

ghost use Rattle.std.specs.Prelude.{◌≡◌, ◌+◌, ◌++◌, ◌<◌, ℕ, List, Some, None, length, IfSome};
ghost use Rattle.osm_reading.specs.Pieces.{cut_at};
ghost use Rattle.osm_data.specs.Counting.{IsTotal};
ghost use Rattle.osm_data.specs.Steps.OplCounting.{BeginsCounter, ComesTo, kind_of_letter};
ghost use Rattle.osm_data.specs.Steps.OplCounting.{number_at};

use crate::counting::{ObjectCounter, count_one};
use osm_model::filter::Filter;
use osm_model::kind::Kind;
use osm_reading::pieces::cut;

/// The number of objects counted in the lines that began, and whether the last line is still open:
/// bytes of it were passed, but its LF wasn't.
#[derive(Drop)]
pub(crate) struct OplCounter {
    pub count: u64,
    pub is_inside: bool,
}

impl ObjectCounter for OplCounter {
    ghost use Rattle.osm_data.specs.Steps.OplCounting.{ComesTo};

    ghost comes_to = { ComesTo };

    ghost number = { λ counter. counter.count };

    fn pass(&mut self, filter: &Filter, bytes: &[u8]) -> Option<usize> {
        let mut rest = bytes;
        'lines: while !rest.is_empty() {
            rest = self.pass_line(filter, rest);
        }
        Some(bytes.len())
    }

    fn number(&self) -> u64 {
        self.count
    }
}

impl OplCounter {
    /// Before the first line of a file.
    pub fn new() -> OplCounter
        ensures { BeginsCounter result }
    {
        OplCounter {
            count: 0,
            is_inside: false,
        }
    }

    // Passes the bytes up to the next LF, with it, or all if there is none, and gives what follows.
    fn pass_line<'a>(&mut self, filter: &Filter, bytes: &'a [u8]) -> &'a [u8]
        requires { 0 < length bytes.now }
        ensures counted { (more : List ℕ) (total : ℕ)
            → ComesTo filter.now self.old (bytes.now ++ more) total
            → ComesTo filter.now self.new (result.now ++ more) total }
        ensures shorter { length result.now < length bytes.now }
    {
        self.begin_line(filter, bytes[0]);
        match after_line(bytes) {
            Some(rest) => {
                self.is_inside = false;
                rest
            }
            None => {
                self.is_inside = true;
                &[]
            }
        }
    }

    // Counts the line that begins with that byte, unless the byte is inside one.
    fn begin_line(&mut self, filter: &Filter, first: u8)
        ensures { (after : ℕ) (total : ℕ)
            → IsTotal self.old.count (number_at filter.now self.old.is_inside first + after) total
            → IsTotal self.new.count after total }
    {
        if self.is_inside {
            return;
        }
        self.count = count_one(filter, kind_of(first), self.count);
    }
}

// What follows the first LF, if there is one.
fn after_line(bytes: &[u8]) -> Option<&[u8]>
    ensures found { IfSome result (λ rest. (line : List ℕ)
        × (cut_at 10 bytes.now ≡ Some (line, rest.now))) }
    ensures lacks { result ≡ None → cut_at 10 bytes.now ≡ None }
    ensures shorter { IfSome result (λ rest. length rest.now < length bytes.now) }
{
    let (_line, rest) = cut(bytes, b'\n');
    rest
}

// The kind of the object of a line that begins with that byte. Other lines spell none.
fn kind_of(first: u8) -> Option<Kind>
    ensures { result ≡ kind_of_letter first }
{
    match first {
        b'n' => Some(Kind::Node),
        b'w' => Some(Kind::Way),
        b'r' => Some(Kind::Relation),
        _ => None,
    }
}
