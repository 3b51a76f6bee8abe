//! What a run tells besides its report and its fault.

ghost use Rattle.std.specs.Prelude.{◌≡◌, [], None, string_bytes};

use std::alloc::Global;

/// What a run tells besides its report and its fault. The program prints it on standard error.
#[derive(Drop)]
pub struct Notes {
    /// The number at which a journal ended that `begin` emptied.
    pub dropped: Option<u32>,
    /// A line `missing K` for each number of `tally`, and a line `n7: not there` for each object of
    /// `get`, that wasn't there.
    pub lines: Vec<u8>,
    /// The object or the id that was refused, as it is shown; empty if none was.
    pub word: String,
}

impl Notes {
    /// Gives notes of nothing.
    pub fn new(alloc: Global) -> Notes
        ensures dropped { result.dropped ≡ None }
        ensures lines { result.lines.items ≡ [] }
        ensures word { string_bytes result.word ≡ [] }
    {
        Notes {
            dropped: None,
            lines: Vec::new(alloc),
            word: String::new(alloc),
        }
    }
}
