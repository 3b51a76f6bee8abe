//! The standard streams that were closed before the program began.

use std::fs::{self, File};
use std::os::fd::AsFd;

/// Keeps the numbers of the standard streams that are closed. A file that is opened later would get
/// one of them, and be read or written in place of the stream. The root folder takes them, since no
/// bytes can be read from it or written to it. If it can't be opened, `/dev/null` does, which reads
/// as an empty file; if that can't be either, the stream stays closed.
pub(crate) fn keep_closed(rt: &HostRuntime) -> [Option<File>; 3] {
    let input = kept(rt, is_closed(&rt.stdin()));
    let output = kept(rt, is_closed(&rt.stdout()));
    let error = kept(rt, is_closed(&rt.stderr()));
    [input, output, error]
}

// Whether a stream is closed: then no copy of it can be made.
fn is_closed<S: AsFd>(stream: &S) -> bool {
    stream.as_fd().try_clone_to_owned().is_err()
}

// What takes the number of a stream that is closed: it is the lowest one that is free.
fn kept(rt: &HostRuntime, is_closed: bool) -> Option<File> {
    if !is_closed {
        return None;
    }
    match fs::open(rt, "/") {
        Ok(root) => Some(root),
        Err(_) => fs::open(rt, "/dev/null").ok(),
    }
}
