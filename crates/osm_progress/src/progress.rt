//! The progress of a run.

ghost use Rattle.std.specs.Prelude.{◌≡◌, ◌<◌, ◌≤◌, ◌⊎◌, ◌↔◌, IfSome, None};
ghost use Rattle.osm_progress.specs.Progress.{IsProgressOf, least_time};

use std::fmt;

// Nothing is said of a run before it took half a second.
const LEAST_MILLIS: u32 = 500;

/// The unit in which progress is counted.
#[derive(Clone, Copy, Debug, PartialEq, Eq)]
pub enum Unit {
    /// The numbers of a folder.
    Numbers,
    /// The bytes of a file, in mebibytes (1,048,576 bytes).
    Mebibytes,
}

impl fmt::Display for Unit {
    fn fmt<W: fmt::Write>(&self, f: &mut fmt::Formatter<W>) -> fmt::Result {
        f.write_str(match self {
            Unit::Numbers => "numbers",
            Unit::Mebibytes => "MiB",
        })
    }
}

/// How many of a run's numbers or mebibytes are done, how many a second, and how long the rest
/// takes at that rate.
#[derive(Clone, Copy, Debug, PartialEq, Eq)]
pub struct Progress {
    pub unit: Unit,
    pub done: u32,
    pub all: u32,
    /// Units a second, rounded down.
    pub rate: u64,
    /// The time that is left, in seconds, rounded down.
    pub left: u64,
}

impl fmt::Display for Progress {
    fn fmt<W: fmt::Write>(&self, f: &mut fmt::Formatter<W>) -> fmt::Result {
        let (minutes, seconds) = (self.left / 60, self.left % 60);
        write!(f, "{} of {} {}, ", self.done, self.all, self.unit)?;
        write!(f, "{} a second, {minutes}:{seconds:02} left", self.rate)
    }
}

/// Gives the progress of a run that did `done` of `all` units in `millis` milliseconds. None in the
/// first half second, and before one unit is done.
pub fn progress_of(unit: Unit, done: u32, all: u32, millis: u32) -> Option<Progress>
    requires { done ≤ all }
    ensures progress { IfSome result (IsProgressOf unit done all millis) }
    ensures early { (result ≡ None) ↔ ((millis < least_time) ⊎ (done ≡ 0)) }
{
    if millis < LEAST_MILLIS || done == 0 {
        return None;
    }
    Some(Progress {
        unit,
        done,
        all,
        rate: u64::from(done) * 1000 / u64::from(millis),
        left: u64::from(all - done) * u64::from(millis) / (u64::from(done) * 1000),
    })
}
