//! The last text that the program prints, and its exit status.

ghost use Rattle.std.specs.Prelude.{◌≡◌};
ghost use Rattle.osm_repl.specs.Ending.{ending_of_error, ending_of_fault, ending_of_refusal};
ghost use Rattle.osm_repl.specs.Ending.{ending_of_script, ending_of_unread};

use crate::refusal::Refusal;
use clap::Error;
use clap::error::ErrorKind;
use osm_runs::fault::RunFault;
use osm_script::fault::ScriptFault;
use std::io;

/// Where the last text goes.
#[derive(Clone, Copy, Debug, PartialEq, Eq)]
pub enum Stream {
    Output,
    Error,
}

/// The last text that the program prints.
#[derive(Clone, Copy)]
pub enum Message<'a> {
    /// The text that `clap` makes of the words.
    ByClap(&'a Error),
    /// One line, `osmrepl: ` and the fault.
    Fault(RunFault),
    /// One line, `osmrepl: ` and why the script isn't replayed.
    Script(ScriptFault),
    /// One line, `osmrepl: ` and why the run isn't begun.
    Refusal(Refusal),
    /// One line: a word of the command line isn't text.
    NotText,
}

/// How a run ends that has no report to print, or can't print it.
#[derive(Clone, Copy)]
pub struct Ending<'a> {
    pub message: Message<'a>,
    pub stream: Stream,
    pub status: u8,
}

/// Gives the ending for an error of `clap`: help and the version go to standard output with status
/// 0, a refusal of the words to standard error with status 2.
pub fn ending_of_error<'a>(error: &'a Error) -> Ending<'a>
    ensures { result ≡ ending_of_error error.entry }
{
    match error.kind() {
        ErrorKind::OutOfMemory => ending_of_fault(RunFault::WantOfMemory),
        ErrorKind::DisplayHelp | ErrorKind::DisplayVersion => Ending {
            message: Message::ByClap(error),
            stream: Stream::Output,
            status: 0,
        },
        _ => Ending {
            message: Message::ByClap(error),
            stream: Stream::Error,
            status: 2,
        },
    }
}

/// Gives the ending if reading the words of the command line fails with an error of that kind.
/// Unless memory was refused, a word isn't text, which counts as a refusal of the words.
pub fn ending_of_unread<'a>(kind: io::ErrorKind) -> Ending<'a>
    ensures { result ≡ ending_of_unread kind }
{
    match kind {
        io::ErrorKind::OutOfMemory => ending_of_fault(RunFault::WantOfMemory),
        _ => Ending {
            message: Message::NotText,
            stream: Stream::Error,
            status: 2,
        },
    }
}

/// Gives the ending of a run that stops with a fault: the fault's text goes to standard error, and
/// its status is that of the fault.
pub fn ending_of_fault<'a>(fault: RunFault) -> Ending<'a>
    ensures { result ≡ ending_of_fault fault }
{
    Ending {
        message: Message::Fault(fault),
        stream: Stream::Error,
        status: fault.status(),
    }
}

/// Gives the ending of a replay that stops with a fault: the fault's text goes to standard error,
/// and the status is 3.
pub fn ending_of_script<'a>(fault: ScriptFault) -> Ending<'a>
    ensures { result ≡ ending_of_script fault }
{
    Ending {
        message: Message::Script(fault),
        stream: Stream::Error,
        status: 3,
    }
}

/// Gives the ending of a run that isn't begun: the refusal's text goes to standard error, and the
/// status is that of the refusal.
pub fn ending_of_refusal<'a>(refusal: Refusal) -> Ending<'a>
    ensures { result ≡ ending_of_refusal refusal }
{
    Ending {
        message: Message::Refusal(refusal),
        stream: Stream::Error,
        status: refusal.status(),
    }
}
