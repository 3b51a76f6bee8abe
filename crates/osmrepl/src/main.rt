//! The program `osmrepl`, over the library `osm_repl`.
#![tactic(auto)]

mod joining;
mod locking;
mod naming;
mod saying;
mod seeding;
mod streams;
mod watching;

ghost use Rattle.std.specs.Prelude.{◌≤◌};
ghost use Rattle.osm_model.specs.Limits.{max_file};

use crate::locking::{locked, seconds, unlocked};
use crate::naming::{refusal_of, streams_of};
use crate::saying::{
    end, explain, refuse, report, report_of_replay, report_of_run, tell_dropped, tell_lines,
    tell_unbegun, unread_save,
};
use crate::seeding::hashing_of;
use crate::streams::keep_closed;
use crate::watching::{Line, Output, Screen, Shown};
use osm_disk::disk_store::DiskStore;
use osm_disk::lock::{LockError, save_path};
use osm_disk::reading::is_there;
use osm_progress::watched_store::WatchedStore;
use osm_reading::sequence::sequence_read;
use osm_repl::checks::{check_words, is_ahead};
use osm_repl::ending::ending_of_unread;
use osm_repl::execution::{Settings, execute};
use osm_repl::notes::Notes;
use osm_repl::order_fault::OrderFault;
use osm_repl::refusal::Refusal;
use osm_repl::sizes::check_sizes;
use osm_round::kept::Sizes;
use osm_runs::fault::{FileName, RunFault};
use osm_runs::options::{FollowOptions, Layout};
use osm_words::command_line::asked;
use osm_words::locks::lock_of;
use osm_words::orders::{Asked, Order};
use std::io::IsTerminal;
use std::process::ExitCode;
use std::{env, io, process};

fn main(rt: HostRuntime) -> ExitCode {
    let closed = keep_closed(&rt);
    let status = run(&rt);
    drop(closed);
    ExitCode::from(status)
}

// The exit status of a run.
fn run(rt: &HostRuntime) -> u8 {
    let alloc = rt.alloc();
    let given = match env::args(rt) {
        Ok(given) => given,
        Err(error) => return end(rt, ending_of_unread(error.kind()), ""),
    };
    let Ok(arguments) = given.collect::<Vec<String>>(alloc) else {
        return report(rt, RunFault::WantOfMemory);
    };
    let Ok(words) = arguments
        .iter()
        .map(|word| word.as_str())
        .collect::<Vec<&str>>(alloc)
    else {
        return report(rt, RunFault::WantOfMemory);
    };
    match asked(alloc, words.as_slice()) {
        Ok(asked) => begun(rt, &asked),
        Err(error) => explain(rt, &error, words.as_slice()),
    }
}

// Looks at the words, and where the save lies, and does what was asked for there.
fn begun(rt: &HostRuntime, asked: &Asked<'_>) -> u8 {
    let options = match check_words(rt.alloc(), asked) {
        Ok(options) => options,
        Err(fault) => return report_of_run(rt, asked.order, fault, None, ""),
    };
    let sizes = match check_sizes(asked.sizes) {
        Ok(sizes) => sizes,
        Err(refusal) => {
            let hint = "--sizes takes the bytes of a small save, a colon and those of a journal";
            return refuse(rt, refusal, asked.sizes.unwrap_or(""), None, hint);
        }
    };
    if !asked.options.any_time && is_ahead(asked.order, seconds(rt)) {
        let hint = "--any-time takes it";
        return refuse(rt, Refusal::TimeAhead, asked.order.now(), None, hint);
    }
    let real = match real_save(rt, asked.order) {
        Ok(real) => real,
        Err(error) => return unfound(rt, asked, options.layout, error),
    };
    let order = match &real {
        Some(path) => asked.order.with_save(path.as_str()),
        None => asked.order,
    };
    match refusal_of(rt, order) {
        Ok(None) => alone(rt, asked, order, options, sizes),
        Ok(Some((refusal, path))) => refuse(rt, refusal, path.as_str(), None, ""),
        Err(_) => report(rt, RunFault::WantOfMemory),
    }
}

// The path of the save where it lies; None if the command has no save, or one that is no plain
// file.
fn real_save(rt: &HostRuntime, order: Order<'_>) -> io::Result<Option<String>> {
    match order.save() {
        "" => Ok(None),
        save => save_path(rt.alloc(), rt, save),
    }
}

// Says that it can't be found where the save lies, and so no lock can be taken there, and gives the
// status.
fn unfound(rt: &HostRuntime, asked: &Asked<'_>, layout: Layout, error: io::Error) -> u8 {
    let order = asked.order;
    match lock_of(order, asked.options) {
        Some(lock) => unlocked(rt, lock, layout, order.save(), LockError::Failed(error)),
        None => unread_save(rt, order, layout, error),
    }
}

// Takes the lock, and does what was asked for; `order` has the path of the save where it lies. The
// lock is held to the end.
fn alone(
    rt: &HostRuntime,
    asked: &Asked<'_>,
    order: Order<'_>,
    options: FollowOptions,
    sizes: Sizes,
) -> u8
    requires { sizes.most ≤ max_file }
{
    let Some(lock) = lock_of(order, asked.options) else {
        return done(rt, asked, order, options, sizes, false);
    };
    match locked(rt, lock, options.layout) {
        Ok(held) => done(rt, asked, order, options, sizes, held.is_some()),
        Err(status) => status,
    }
}

// Does what was asked for, over the files on the disk. A run that holds its lock is alone there.
fn done(
    rt: &HostRuntime,
    asked: &Asked<'_>,
    order: Order<'_>,
    options: FollowOptions,
    sizes: Sizes,
    is_alone: bool,
) -> u8
    requires { sizes.most ≤ max_file }
{
    let hashing = match hashing_of(rt, order) {
        Ok(hashing) => hashing,
        Err(error) => return refuse(rt, Refusal::NoRandomBytes, "", Some(error), ""),
    };
    let Ok(streams) = streams_of(rt.alloc(), order) else {
        return report(rt, RunFault::WantOfMemory);
    };
    let mut disk = DiskStore::new(rt, process::id(rt.process()));
    disk.set_streams(streams);
    if is_alone {
        disk.set_alone();
    }
    let layout = options.layout;
    let mut notes = Notes::new(rt.alloc());
    let line = Line::new(rt);
    let mut store = WatchedStore::new(disk, Screen::new(rt, &line, shown(rt, asked, order)));
    let mut output = Output::new(rt.alloc(), rt.stdout(), &line, is_joined(asked));
    let result = execute(
        rt.alloc(),
        order,
        Settings {
            options,
            sizes,
            sought: asked.sought.as_slice(),
            hashing,
        },
        &mut store,
        &mut rt.stdin(),
        &mut output,
        &mut notes,
    );
    line.clear();
    let (disk, _) = store.into_parts();
    if let Some(number) = notes.dropped {
        tell_dropped(rt, order, number);
    }
    tell_lines(rt, notes.lines.as_slice());
    match result {
        Ok(status) => {
            if layout == Layout::Lines && is_unbegun(rt, order) {
                tell_unbegun(rt);
            }
            status
        }
        Err(OrderFault::Run(fault)) if is_over(order, fault) && output.is_cut() => fault.status(),
        Err(OrderFault::Run(fault)) => {
            report_of_run(rt, order, fault, disk.said(), notes.word.as_str())
        }
        Err(OrderFault::Script(fault)) => report_of_replay(rt, fault),
    }
}

// Whether a run of `follow` took nothing, and no save was there.
fn is_unbegun(rt: &HostRuntime, order: Order<'_>) -> bool {
    match order {
        Order::Follow { save, .. } => matches!(is_there(rt, save), Ok(false)),
        _ => false,
    }
}

// Whether the fault is that not all is read of what a command prints of a save or a folder, as
// `head` doesn't.
fn is_over(order: Order<'_>, fault: RunFault) -> bool {
    let is_printed = matches!(
        order,
        Order::Show { .. }
            | Order::Get { .. }
            | Order::Counts { .. }
            | Order::Fingerprint { .. }
            | Order::Tally { .. }
    );
    is_printed && fault == RunFault::WriteFault(FileName::Output)
}

// Whether a person reads the numbers that were taken, if on a terminal.
fn is_joined(asked: &Asked<'_>) -> bool {
    matches!(asked.order, Order::Follow { .. }) && !asked.options.json
}

// The run, if its progress may be shown. A mirror that is printed on a terminal shows itself.
fn shown<'a>(rt: &HostRuntime, asked: &Asked<'_>, order: Order<'a>) -> Option<Shown<'a>> {
    if asked.options.quiet || asked.options.json {
        return None;
    }
    match order {
        Order::Follow { dir, .. } => Some(Shown::Numbers { dir, last: None }),
        Order::Audit { dir, to, .. } => Some(Shown::Numbers {
            dir,
            last: sequence_read(to.unwrap_or("").as_bytes()),
        }),
        Order::Changes { dir, to, .. } | Order::Tally { dir, to, .. } => Some(Shown::Range {
            dir,
            last: sequence_read(to.as_bytes()).unwrap_or(0),
        }),
        Order::Fingerprint { save } => Some(Shown::Bytes {
            name: save,
            times: 1,
        }),
        Order::Begin { base, .. } => Some(Shown::Bytes {
            name: base,
            times: 2,
        }),
        Order::Export { save, .. } => Some(Shown::Bytes {
            name: save,
            times: 1,
        }),
        Order::Show { save } if !rt.stdout().is_terminal() => Some(Shown::Bytes {
            name: save,
            times: 2,
        }),
        _ => None,
    }
}
