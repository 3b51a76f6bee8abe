//! What stops a run of the program.

ghost use Rattle.std.specs.Prelude.{◌≡◌};
ghost use Rattle.osm_runs.specs.Faults.{status_of};

use osm_model::form::Why;
use osm_model::memory::WantOfMemory;
use osm_state::paths::Suffix;
use osm_state::state_text::StateError;
use std::fmt;
use thiserror::Error;

/// The file that a fault is about. Showing its name takes no memory.
#[derive(Clone, Copy, Debug, PartialEq, Eq)]
pub enum FileName {
    /// The newest state of a folder.
    Top,
    /// A file of a sequence, by its number.
    Sequence(u32, Suffix),
    /// A follower's save.
    Save,
    /// The journal beside that save.
    Journal,
    /// The data file that a save begins with.
    Base,
    /// The state that belongs to that data file.
    State,
    /// The file of changes to publish.
    Changes,
    /// The input of a conversion.
    Input,
    /// The output of a conversion or an export, or standard output.
    Output,
}

impl fmt::Display for FileName {
    fn fmt<W: fmt::Write>(&self, f: &mut fmt::Formatter<W>) -> fmt::Result {
        match self {
            FileName::Top => f.write_str("state.txt"),
            FileName::Sequence(number, suffix) => write_path(*number, *suffix, f),
            FileName::Save => f.write_str("save"),
            FileName::Journal => f.write_str("save: journal"),
            FileName::Base => f.write_str("base"),
            FileName::State => f.write_str("state"),
            FileName::Changes => f.write_str("changes"),
            FileName::Input => f.write_str("input"),
            FileName::Output => f.write_str("output"),
        }
    }
}

// Writes the path of a sequence's file, without taking memory.
fn write_path<W: fmt::Write>(
    number: u32,
    suffix: Suffix,
    f: &mut fmt::Formatter<W>,
) -> fmt::Result {
    let (millions, thousands, ones) = (number / 1_000_000, number / 1000 % 1000, number % 1000);
    let end = match suffix {
        Suffix::O5c => "o5c",
        Suffix::Opl => "opl",
        Suffix::State => "state.txt",
    };
    write!(f, "{millions:03}/{thousands:03}/{ones:03}.{end}")
}

/// Why a run of the program stops.
#[derive(Clone, Copy, Debug, PartialEq, Eq, Error)]
pub enum RunFault {
    /// Memory was refused.
    #[error("out of memory")]
    WantOfMemory,
    /// The device failed while the file was read.
    #[error("{0}: read failed")]
    ReadFault(FileName),
    /// The device failed while the file was written.
    #[error("{0}: write failed")]
    WriteFault(FileName),
    /// The file is over its limit.
    #[error("{0}: too large")]
    TooLarge(FileName),
    /// The file changed while it was read.
    #[error("{0}: changed while it was read")]
    Changed(FileName),
    /// There is no such file.
    #[error("{0}: not there")]
    Absent(FileName),
    /// The bytes of a state file aren't a state.
    #[error("{0}: bad state: {1}")]
    BadState(FileName, StateError),
    /// The state file of that number names another number.
    #[error("sequence {0}: wrong number in state")]
    Mismatch(u32),
    /// The state file of that number has a time before that of the number before it.
    #[error("sequence {0}: older than the number before it")]
    OlderNumber(u32),
    /// The state of a data file names sequence 0, the empty start.
    #[error("state: no sequence to begin at")]
    ZeroBase,
    /// The state of a data file is older than its newest object by more than eight days. The two
    /// are the time of the state and the time of the object.
    #[error("state: older than the data file")]
    OlderState(u32, u32),
    /// The bytes of a change file spell no batch, or those of a data file no objects. They go wrong
    /// at that place, as the file's form counts places.
    #[error("{0}: at {1}: {2}")]
    BadChange(FileName, u64, Why),
    /// A line of a save, counted from 1, is wrong.
    #[error("save: line {0}")]
    BadSave(u64),
    /// The line of a save that begins at that byte, counted from 0, is wrong.
    #[error("save: line at byte {0}")]
    BadSaveAt(u64),
    /// A line of the journal beside a save is wrong. Lines are counted from 1; the bytes of a batch
    /// count as none.
    #[error("save: journal: line {0}")]
    BadJournal(u64),
    /// The journal beside the save is one of another save, and its last number, which is given, is
    /// above that of the save; or there is no save.
    #[error("save: journal: of another save, at {0}")]
    OtherJournal(u32),
    /// The save was written under another filter.
    #[error("save: other filter")]
    OtherFilter,
    /// The folder's newest sequence number is below that of the save.
    #[error("state.txt: older than the save")]
    TopBehind,
    /// The time of the folder's newest sequence is before that of the save.
    #[error("state.txt: older than the save")]
    TimeBehind,
    /// The time of a publication is before that of the newest sequence.
    #[error("close refused: TimeBack")]
    TimeBack,
    /// The last sequence, 999,999,999, is published.
    #[error("close refused: SequenceFull")]
    SequenceFull,
    /// The ending of a file's name says no form: of a change file it is `.opl` or `.o5c`, of a data
    /// file `.opl` or `.o5m`.
    #[error("unknown form")]
    UnknownForm,
    /// The time isn't `YYYY-MM-DDTHH:MM:SSZ`.
    #[error("bad time")]
    BadNow,
    /// The number isn't 1 to 9 digits.
    #[error("bad sequence")]
    BadSequence,
    /// The kinds aren't some of `n`, `w` and `r` in this order, a key isn't a text, or there are
    /// more than 100 different keys.
    #[error("bad filter")]
    BadFilter,
    /// The limit isn't a number from 1 to 999,999,999.
    #[error("bad limit")]
    BadLimit,
    /// The first number isn't one from 1 to the folder's newest, or is above the last one.
    #[error("bad range")]
    BadRange,
    /// An object isn't written as `n`, `w` or `r` and its id.
    #[error("bad object")]
    BadObject,
    /// The columns aren't some of `day`, `user`, `changeset` and `kind`, each once.
    #[error("bad columns")]
    BadColumns,
    /// An id of a user or a changeset isn't a number below 2^32.
    #[error("bad id")]
    BadId,
    /// The number was published with other changes or at another time, or some of its files are
    /// gone.
    #[error("sequence {0}: already published, and differs")]
    Differs(u32),
    /// The number asked for is neither published nor the next one. The newest state has the number
    /// that is given.
    #[error("state.txt: at {0}")]
    TopAt(u32),
}

impl RunFault {
    /// Gives the exit status of the program: 2 if a word of the command line is wrong, otherwise 3.
    pub fn status(&self) -> u8
        ensures { result ≡ status_of self.now }
    {
        match self {
            RunFault::UnknownForm
            | RunFault::BadNow
            | RunFault::BadSequence
            | RunFault::BadFilter
            | RunFault::BadLimit
            | RunFault::BadRange
            | RunFault::BadObject
            | RunFault::BadColumns
            | RunFault::BadId => 2,
            _ => 3,
        }
    }
}

impl From<WantOfMemory> for RunFault {
    ghost use Rattle.std.specs.Prelude.{◌≡◌};
    ghost use Rattle.osm_runs.specs.declared.fault.RunFault.TheVariants.{WantOfMemory as refused};

    ghost from_gives = { λ _ fault. fault ≡ refused };

    fn from(_refused: WantOfMemory) -> RunFault {
        RunFault::WantOfMemory
    }
}
