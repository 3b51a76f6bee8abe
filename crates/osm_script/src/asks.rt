//! Counting how often a reader is asked.

ghost use Rattle.std.specs.Prelude.{◌≡◌, ◌+◌, ◌<◌};
ghost use Rattle.std.specs.Io.{ReadsAtMost};
ghost use Rattle.std.specs.Io.KnownBytes.{ReadConsumes};
ghost use Rattle.osm_script.specs.Steps.Replaying.{most_reads};

use std::io::{self, Read};
use std::marker::Model;

/// How often a reader was asked: never more than 67,108,866 times. Only `ask` adds to it, and a
/// script is read only through `ask`.
#[derive(Debug, Drop)]
pub(crate) struct Asks {
    count: u64,
}

impl Model for Asks {
    ghost use Rattle.std.specs.Prelude.{ℕ, ◌≤◌};
    ghost use Rattle.osm_script.specs.Steps.Replaying.{most_reads};

    ghost Value = { ℕ };

    ghost view = { λ a. a.count };

    ghost invariant = { λ a. a.count ≤ most_reads };
}

impl Asks {
    /// No asks so far.
    pub(crate) fn none() -> Asks
        ensures { result ≡ 0 }
    {
        Asks { count: 0 }
    }

    /// Asks the reader once.
    pub(crate) fn ask<R: Read>(&mut self, reader: &mut R, buffer: &mut [u8]) -> io::Result<usize>
        requires { self.old < most_reads }
        ensures counted { self.new ≡ self.old + 1 }
        ensures bound { ReadsAtMost result buffer.new }
        ensures bytes { ReadConsumes (R.remaining reader.old) (R.remaining reader.new)
            result buffer.new }
    {
        self.count += 1;
        reader.read(buffer)
    }
}
