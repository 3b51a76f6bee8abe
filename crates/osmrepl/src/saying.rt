//! The last text that the program prints.

use clap::Error;
use osm_disk::opening::Sort;
use osm_disk::reading::{read_file, read_prefix};
use osm_model::memory::WantOfMemory;
use osm_repl::causes::{
    Cause, cause_text, hint_of, hint_of_times, is_of_content, line_of_field, look_of, path_of,
    path_of_file, stream_of,
};
use osm_repl::ending::{
    Ending, Message, Stream, ending_of_error, ending_of_fault, ending_of_refusal, ending_of_script,
};
use osm_repl::fields::field_text;
use osm_repl::refusal::Refusal;
use osm_runs::fault::{FileName, RunFault};
use osm_runs::json_line::fault_line;
use osm_runs::options::Layout;
use osm_script::fault::ScriptFault;
use osm_words::command_line::asked;
use osm_words::echo::echoes;
use osm_words::orders::Order;
use std::alloc::{AllocError, Global};
use std::fmt::Display;
use std::io::{self, ErrorKind, Write};

const NOT_TEXT: &str = "the words of the command line aren't text";

// The first bytes of a file say what it is.
const LOOKED_AT: u64 = 7;

// No file of changes or data is larger.
const MOST_READ: u64 = 67_108_864;

// Says why the words gave no order. `clap` makes the text from the words' echoes, since it repeats
// a word that it refuses.
pub(crate) fn explain(rt: &HostRuntime, error: &Error, words: &[&str]) -> u8 {
    let alloc = rt.alloc();
    let Ok(echoes) = echoes(alloc, words) else {
        return report(rt, RunFault::WantOfMemory);
    };
    let Ok(echoed) = echoes
        .iter()
        .map(|word| word.as_str())
        .collect::<Vec<&str>>(alloc)
    else {
        return report(rt, RunFault::WantOfMemory);
    };
    match asked(alloc, echoed.as_slice()) {
        Ok(_) => end(rt, ending_of_error(error), ""),
        Err(shown) => end(rt, ending_of_error(&shown), ""),
    }
}

pub(crate) fn report(rt: &HostRuntime, fault: RunFault) -> u8 {
    end(rt, ending_of_fault(fault), "")
}

// Reports the fault of an order's run with its cause; `word` is the object or the id that was
// refused. If there is no memory for the cause, it is left out.
pub(crate) fn report_of_run(
    rt: &HostRuntime,
    order: Order<'_>,
    fault: RunFault,
    said: Option<io::Error>,
    word: &str,
) -> u8 {
    match cause_of(rt, order, fault, said, word) {
        Ok(cause) => end(rt, ending_of_fault(fault), cause.as_str()),
        Err(_) => report(rt, fault),
    }
}

// Says at which number the journal ended that a beginning emptied. If there is no memory for its
// path, it is left out.
pub(crate) fn tell_dropped(rt: &HostRuntime, order: Order<'_>, number: u32) {
    let journal = FileName::Journal;
    let cause = match dropped_cause(rt.alloc(), order, journal) {
        Ok(cause) => cause,
        Err(_) => String::new(rt.alloc()),
    };
    let _ = eprintln!(rt; "osmrepl: {journal}: dropped, at {number}{cause}");
}

fn dropped_cause(alloc: Global, order: Order<'_>, journal: FileName) -> Result<String, AllocError> {
    let path = path_of_file(alloc, order, journal)?;
    let (path, said, hint) = (path.as_str(), None, "");
    cause_text(alloc, Cause { path, said, hint })
}

// Says what wasn't there.
pub(crate) fn tell_lines(rt: &HostRuntime, lines: &[u8]) {
    let _ = rt.stderr().write_all(lines);
}

// Says that no save is there from which a run of the follower could go on.
pub(crate) fn tell_unbegun(rt: &HostRuntime) {
    let fault = ending_of_fault(RunFault::Absent(FileName::Save));
    let _ = say(
        rt,
        fault.message,
        fault.stream,
        " (begin it with a data file)",
    );
}

// Says, in JSON too if that is the layout, that it couldn't be found where the save lies.
pub(crate) fn unread_save(
    rt: &HostRuntime,
    order: Order<'_>,
    layout: Layout,
    error: io::Error,
) -> u8 {
    if error.kind() == ErrorKind::OutOfMemory {
        return report(rt, RunFault::WantOfMemory);
    }
    let fault = RunFault::ReadFault(FileName::Save);
    if layout == Layout::Json && has_line(order) {
        tell(rt, fault);
    }
    report_of_run(rt, order, fault, Some(error), "")
}

// Whether a line of JSON says of the order where its save stands.
fn has_line(order: Order<'_>) -> bool {
    matches!(order, Order::Follow { .. } | Order::Lag { .. })
}

// Reports the fault of a replay with the stream that it is about.
pub(crate) fn report_of_replay(rt: &HostRuntime, fault: ScriptFault) -> u8 {
    let (path, said, hint) = (stream_of(fault), None, "");
    end_with(rt, ending_of_script(fault), Cause { path, said, hint })
}

// The cause of a fault. What the system said last belongs to it only if a call on files failed.
fn cause_of(
    rt: &HostRuntime,
    order: Order<'_>,
    fault: RunFault,
    said: Option<io::Error>,
    word: &str,
) -> Result<String, AllocError> {
    let path = path_of(rt.alloc(), order, fault, said, word)?;
    let said = match (fault, order) {
        (RunFault::ReadFault(_) | RunFault::WriteFault(_), _) => said,
        (RunFault::OtherJournal(_), Order::Begin { .. }) => said,
        _ => None,
    };
    let hint = hint(rt, order, fault, path.as_str())?;
    let (path, hint) = (path.as_str(), hint.as_str());
    cause_text(rt.alloc(), Cause { path, said, hint })
}

// The field of an OPL file that isn't read, the two times of an older state, what a file looks
// like, or what may help; or nothing.
fn hint(
    rt: &HostRuntime,
    order: Order<'_>,
    fault: RunFault,
    path: &str,
) -> Result<String, AllocError> {
    let field = field(rt, path, fault)?;
    if !field.is_empty() {
        return Ok(field);
    }
    if let RunFault::OlderState(time, newest) = fault {
        return hint_of_times(rt.alloc(), time, newest);
    }
    let hint = if is_of_content(fault) {
        look(rt, path)
    } else {
        hint_of(order, fault)
    };
    String::from_str(rt.alloc(), hint)
}

// The field of an OPL file that isn't read, or nothing.
fn field(rt: &HostRuntime, path: &str, fault: RunFault) -> Result<String, AllocError> {
    let Some(line) = line_of_field(path, fault) else {
        return Ok(String::new(rt.alloc()));
    };
    match read_file(rt.alloc(), rt, path, Sort::File, MOST_READ) {
        Ok(Some(bytes)) => field_text(rt.alloc(), bytes.as_slice(), line),
        _ => Ok(String::new(rt.alloc())),
    }
}

// What a file looks like by its first bytes, or nothing.
fn look(rt: &HostRuntime, path: &str) -> &'static str {
    match read_prefix(rt.alloc(), rt, path, Sort::File, LOOKED_AT) {
        Ok(Some(bytes)) => look_of(path, bytes.as_slice()),
        _ => "",
    }
}

// Prints the line of JSON of a run that isn't begun, as far as standard output takes it, if there
// is memory for it.
pub(crate) fn tell<F: Display + Drop>(rt: &HostRuntime, fault: F) {
    if let Ok(line) = line_of(rt.alloc(), fault) {
        let _ = rt.stdout().write_all(line.as_slice());
    }
}

fn line_of<F: Display + Drop>(alloc: Global, fault: F) -> Result<Vec<u8>, WantOfMemory> {
    let fault = format!(in alloc; "{fault}")?;
    fault_line(alloc, fault.as_str())
}

// Says why the run isn't begun.
pub(crate) fn refuse(
    rt: &HostRuntime,
    refusal: Refusal,
    path: &str,
    said: Option<io::Error>,
    hint: &str,
) -> u8 {
    end_with(rt, ending_of_refusal(refusal), Cause { path, said, hint })
}

// Ends with a cause. If there is no memory for its text, it is left out.
fn end_with(rt: &HostRuntime, ending: Ending<'_>, cause: Cause<'_>) -> u8 {
    match cause_text(rt.alloc(), cause) {
        Ok(text) => end(rt, ending, text.as_str()),
        Err(_) => end(rt, ending, ""),
    }
}

// Prints the text of the ending and the cause, and gives its status. It is a fault if standard
// output doesn't take the text. Nothing is said of it if the output is a pipe that nobody reads any
// more, as after `head`.
pub(crate) fn end(rt: &HostRuntime, ending: Ending<'_>, cause: &str) -> u8 {
    match (say(rt, ending.message, ending.stream, cause), ending.stream) {
        (Err(error), Stream::Output) => {
            let fault = ending_of_fault(RunFault::WriteFault(FileName::Output));
            if error.kind() != ErrorKind::BrokenPipe {
                let _ = say(rt, fault.message, fault.stream, " (standard output)");
            }
            fault.status
        }
        _ => ending.status,
    }
}

// What the program says by itself goes to standard error, whatever the stream.
fn say(rt: &HostRuntime, message: Message<'_>, stream: Stream, cause: &str) -> io::Result<()> {
    match (message, stream) {
        (Message::ByClap(error), Stream::Output) => print!(rt; "{error}"),
        (Message::ByClap(error), Stream::Error) => eprint!(rt; "{error}"),
        (Message::Fault(fault), _) => eprintln!(rt; "osmrepl: {fault}{cause}"),
        (Message::Script(fault), _) => eprintln!(rt; "osmrepl: {fault}{cause}"),
        (Message::Refusal(refusal), _) => eprintln!(rt; "osmrepl: {refusal}{cause}"),
        (Message::NotText, _) => eprintln!(rt; "osmrepl: {NOT_TEXT}"),
    }
}
