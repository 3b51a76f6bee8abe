//! The line on a terminal that shows how far a run is.

ghost use Rattle.std.specs.Prelude.{◌≤◌, IfOk, length};

use crate::joining::joined;
use osm_progress::course::{Course, Said, said_by};
use osm_progress::progress::{Progress, Unit, progress_of};
use osm_progress::watched_store::Watch;
use std::alloc::Global;
use std::cell::Cell;
use std::fs::Files;
use std::io::{self, Error, ErrorKind, IsTerminal, Write};
use std::time::Instant;

// How many milliseconds pass at least before the line is written again.
const EACH_MILLIS: u32 = 100;

// Goes back to the start of the line, and clears it.
const CLEAR: &str = "\r\x1b[K";

/// A line on standard error, which is cleared before anything else is printed.
#[derive(Drop)]
pub(crate) struct Line<'a> {
    rt: &'a HostRuntime,
    is_shown: Cell<bool>,
}

impl<'a> Line<'a> {
    pub(crate) fn new(rt: &'a HostRuntime) -> Line<'a> {
        Line {
            rt,
            is_shown: Cell::new(false),
        }
    }

    fn show(&self, progress: Progress) {
        let _ = eprint!(self.rt; "{CLEAR}{progress}");
        self.is_shown.set(true);
    }

    pub(crate) fn clear(&self) {
        if self.is_shown.replace(false) {
            let _ = eprint!(self.rt; "{CLEAR}");
        }
    }
}

/// Standard output. On a terminal the progress line is cleared before text is printed.
#[derive(Drop)]
pub(crate) struct Output<'a, W: Write> {
    alloc: Global,
    inner: W,
    line: &'a Line<'a>,
    is_terminal: bool,
    joins: bool,
    is_cut: bool,
}

impl<'a, W: Write + IsTerminal> Output<'a, W> {
    /// If `joins` holds, the numbers of a report are joined into ranges on a terminal.
    pub(crate) fn new(alloc: Global, inner: W, line: &'a Line<'a>, joins: bool) -> Output<'a, W> {
        let is_terminal = inner.is_terminal();
        Output {
            alloc,
            inner,
            line,
            is_terminal,
            joins: joins && is_terminal,
            is_cut: false,
        }
    }
}

impl<W: Write> Output<'_, W> {
    fn write_text(&mut self, text: &[u8]) -> io::Result<usize>
        ensures { IfOk result (λ count. count ≤ length text.now) }
    {
        if !self.joins {
            return self.inner.write(text);
        }
        let Ok(lines) = joined(self.alloc, text) else {
            return Err(Error::from(ErrorKind::OutOfMemory));
        };
        self.inner.write_all(lines.as_slice())?;
        Ok(text.len())
    }

    /// Whether nobody reads the output any more: it is a pipe whose other end is closed.
    pub(crate) fn is_cut(&self) -> bool {
        self.is_cut
    }
}

impl<W: Write> Write for Output<'_, W> {
    fn write(&mut self, text: &[u8]) -> io::Result<usize> {
        if self.is_terminal {
            self.line.clear();
        }
        match self.write_text(text) {
            Ok(count) => Ok(count),
            Err(error) => {
                self.is_cut = error.kind() == ErrorKind::BrokenPipe;
                Err(error)
            }
        }
    }

    fn flush(&mut self) -> io::Result<()> {
        self.inner.flush()
    }
}

/// A run whose progress is shown.
#[derive(Clone, Copy)]
pub(crate) enum Shown<'a> {
    /// The run takes the numbers of a folder up to `last`, or up to the folder's newest if `last`
    /// is None.
    Numbers { dir: &'a str, last: Option<u32> },
    /// The run takes the numbers of a folder up to `last`, or up to the folder's newest if that is
    /// less.
    Range { dir: &'a str, last: u32 },
    /// The run reads a large file from beginning to end, `times` times.
    Bytes { name: &'a str, times: u64 },
}

/// Shows on standard error how far a run is, once the run takes a while. The line is cleared before
/// a file is replaced, before a report on the same terminal, and at the end.
#[derive(Drop)]
pub(crate) struct Screen<'a> {
    rt: &'a HostRuntime,
    line: &'a Line<'a>,
    run: Option<Shown<'a>>,
    course: Course,
    passes: Passes,
    start: Option<Instant>,
    shown_at: Option<u32>,
    // How much is done at most: the line never goes back.
    most: u32,
}

// How far a file is read that is read several times.
#[derive(Clone, Copy)]
struct Passes {
    size: u64,
    // The bytes of the passes before this one.
    before: u64,
    // The end of the block that was read last.
    place: u64,
}

impl Passes {
    fn new(size: u64) -> Passes {
        Passes {
            size,
            before: 0,
            place: 0,
        }
    }

    // Takes note of a block, and gives how many bytes are read in all. A pass begins at the first
    // byte; a block may begin before the end of the last one.
    fn note(&mut self, from: u64, count: u64) -> u64 {
        if from == 0 && self.place > 0 {
            self.before = self.before.saturating_add(self.size);
        }
        self.place = from.saturating_add(count);
        self.before.saturating_add(self.place)
    }
}

impl<'a> Screen<'a> {
    /// Shows the progress of the run; shows nothing if there is no such run, or no terminal.
    pub(crate) fn new(
        rt: &'a HostRuntime,
        line: &'a Line<'a>,
        run: Option<Shown<'a>>,
    ) -> Screen<'a> {
        let mut screen = Screen {
            rt,
            line,
            run: run.filter(|_| rt.stderr().is_terminal()),
            course: Course::new(),
            passes: Passes::new(0),
            start: None,
            shown_at: None,
            most: 0,
        };
        match screen.run {
            Some(
                Shown::Numbers {
                    last: Some(last),
                    ..
                },
            ) => screen.begin(last),
            Some(Shown::Bytes { name, .. }) => screen.begin_file(name),
            _ => {}
        }
        screen
    }

    // The run begins, and goes to that number.
    fn begin(&mut self, last: u32) {
        self.course.note_top(last);
        self.start = Instant::now(self.rt).ok();
    }

    // The run begins to read the file.
    fn begin_file(&mut self, name: &str) {
        if let Ok(there) = self.rt.metadata(name) {
            self.passes = Passes::new(there.len());
            self.start = Instant::now(self.rt).ok();
        }
    }

    // Takes note of a block of the file that is read so many times.
    fn note_block(&mut self, from: u64, count: u64, times: u64) {
        let all = mebibytes(self.passes.size.saturating_mul(times));
        let done = mebibytes(self.passes.note(from, count));
        if done < all {
            self.show(Unit::Mebibytes, done, all);
        }
    }

    fn note(&mut self, said: Said, last: Option<u32>) {
        match said {
            // Each further part of a run reads it again.
            Said::Top(number) if self.start.is_none() => self.begin(last.unwrap_or(number)),
            Said::Top(_) => {}
            Said::Number(number) => {
                if let Some((done, all)) = self.course.note_number(number) {
                    self.show(Unit::Numbers, done, all);
                }
            }
            Said::Nothing => {}
        }
    }

    // Writes the line again, unless it was written a moment ago or goes back.
    fn show(&mut self, unit: Unit, done: u32, all: u32)
        requires { done ≤ all }
    {
        if self.shown_at.is_some() && done <= self.most {
            return;
        }
        self.most = done;
        let Some(millis) = self.millis() else {
            return;
        };
        if millis < self.shown_at.map_or(0, |at| at.saturating_add(EACH_MILLIS)) {
            return;
        }
        if let Some(progress) = progress_of(unit, done, all, millis) {
            self.line.show(progress);
            self.shown_at = Some(millis);
        }
    }

    // How long the run goes on, if the clock says so.
    fn millis(&self) -> Option<u32> {
        let passed = self.start?.elapsed(self.rt).ok()?;
        u32::try_from(passed.as_millis()).ok()
    }

    fn clear(&mut self) {
        self.shown_at = None;
        self.line.clear();
    }
}

impl Watch for Screen<'_> {
    fn was_read(&mut self, name: &str, bytes: &[u8]) {
        match self.run {
            Some(Shown::Numbers { dir, last }) => self.note(said_by(dir, name, bytes), last),
            Some(Shown::Range { dir, last }) => match said_by(dir, name, bytes) {
                Said::Top(number) => self.note(Said::Top(number.min(last)), None),
                said => self.note(said, None),
            },
            _ => {}
        }
    }

    fn was_read_at(&mut self, name: &str, from: u64, count: u64) {
        if let Some(Shown::Bytes { name: shown, times }) = self.run {
            if name == shown {
                self.note_block(from, count, times);
            }
        }
    }

    fn will_write(&mut self) {
        self.clear();
    }
}

fn mebibytes(bytes: u64) -> u32 {
    u32::try_from(bytes >> 20).unwrap_or(u32::MAX)
}
