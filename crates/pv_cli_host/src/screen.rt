//! The terminal on which the progress of a search is shown.
ghost use Rattle.std.specs.Prelude.{◌≡◌, None};

use pv_cli_commands::Progress;
use std::cell::Cell;
use std::io::{IsTerminal, Write};
use std::time::{Duration, Instant};
use std::{fmt, io};

// The delay in milliseconds before a search first shows its progress.
const FIRST: u64 = 1_000;

// The minimum interval in milliseconds between two reports.
const NEXT: u64 = 200;

// The bytes that erase a line: blanks over the longest line.
const WIPE: &[u8] = b"\r                                                            \r";

/// The terminal of the standard error, on which one line is rewritten in place. If the standard error is not a
/// terminal, nothing is shown. After a failed write, nothing more is shown.
#[derive(Drop)]
pub struct Screen<'a> {
    rt: &'a HostRuntime,
    // Whether the standard output is also a terminal.
    is_shared: bool,
    // Whether a line may be shown.
    is_free: Cell<bool>,
    // Whether a line is currently shown.
    is_shown: Cell<bool>,
    // Whether the last byte on the standard output, if there is one, is the end of a line.
    is_at_start: Cell<bool>,
    // Whether a search is running.
    is_searching: Cell<bool>,
}

impl<'a> Screen<'a> {
    /// Returns the screen of a runtime, on which nothing is shown.
    pub fn new(rt: &'a HostRuntime) -> Screen<'a>
        ensures { result.rt ≡ rt.entry }
    {
        Screen {
            rt,
            is_shared: rt.stdout().is_terminal(),
            is_free: Cell::new(rt.stderr().is_terminal()),
            is_shown: Cell::new(false),
            is_at_start: Cell::new(true),
            is_searching: Cell::new(false),
        }
    }

    /// Returns whether a search is running.
    pub(crate) fn is_searching(&self) -> bool {
        self.is_searching.get()
    }

    // Writes to the terminal. If that fails, nothing more is shown.
    fn write(&self, bytes: &[u8]) {
        if self.rt.stderr().write_all(bytes).is_err() {
            self.is_free.set(false);
        }
    }

    // Shows the progress of a search in place of the current line.
    fn show(&self, found: usize, left: usize) {
        let (found, left) = (Grouped(found), Grouped(left));
        let Ok(text) = format!(in self.rt.alloc(); "pvsim: {found} visited, {left} queued") else {
            return;
        };
        let Ok(line) = format!(in self.rt.alloc(); "\r{text:<60}") else {
            return;
        };
        self.is_shown.set(true);
        self.write(line.as_bytes());
    }

    /// Erases the current line.
    pub fn wipe(&self) {
        if self.is_shown.replace(false) {
            self.write(WIPE);
        }
    }
}

// A number with its digits in groups of three.
#[derive(Clone, Copy)]
struct Grouped(usize);

impl fmt::Display for Grouped {
    fn fmt<W: fmt::Write>(&self, f: &mut fmt::Formatter<W>) -> fmt::Result {
        let (thousands, rest) = (self.0 / 1_000, self.0 % 1_000);
        let (millions, middle) = (thousands / 1_000, thousands % 1_000);
        if millions > 0 {
            write!(f, "{millions},{middle:03},{rest:03}")
        } else if thousands > 0 {
            write!(f, "{thousands},{rest:03}")
        } else {
            write!(f, "{rest}")
        }
    }
}

/// The progress of a search on a screen. It shows nothing in the first second, and then at most five reports a second,
/// each on a line of its own.
#[derive(Drop)]
pub struct Shown<'a> {
    screen: &'a Screen<'a>,
    // The time from which the next report may be shown, once the search has begun.
    due: Option<Instant>,
}

impl<'a> Shown<'a> {
    /// Returns the progress of a search that has not begun.
    pub fn new(screen: &'a Screen<'a>) -> Shown<'a>
        ensures screen { result.screen ≡ screen.entry }
        ensures due { result.due ≡ None }
    {
        Shown { screen, due: None }
    }

    // Returns whether the next report is due. If the clock fails, no report is due.
    fn is_due(&mut self) -> bool {
        let Ok(now) = Instant::now(self.screen.rt) else {
            return false;
        };
        let Some(due) = self.due else {
            self.due = now.checked_add(Duration::from_millis(FIRST));
            return false;
        };
        if now < due {
            return false;
        }
        self.due = now.checked_add(Duration::from_millis(NEXT));
        true
    }
}

impl Progress for Shown<'_> {
    fn show(&mut self, found: usize, left: usize) {
        self.screen.is_searching.set(true);
        if self.screen.is_free.get() && self.screen.is_at_start.get() && self.is_due() {
            self.screen.show(found, left);
        }
    }

    fn end(&mut self) {
        self.due = None;
        self.screen.is_searching.set(false);
        self.screen.wipe();
    }
}

/// A writer to the standard output. If that is a terminal, a write first erases the progress line.
#[derive(Drop)]
pub struct ScreenWriter<'a, W: Drop> {
    screen: &'a Screen<'a>,
    writer: W,
}

impl<'a, W: Write + Drop> ScreenWriter<'a, W> {
    /// Returns a writer over a writer to the standard output.
    pub fn new(screen: &'a Screen<'a>, writer: W) -> ScreenWriter<'a, W>
        ensures screen { result.screen ≡ screen.entry }
        ensures writer { result.writer ≡ writer }
    {
        ScreenWriter { screen, writer }
    }
}

impl<W: Write + Drop> Write for ScreenWriter<'_, W> {
    fn write(&mut self, buffer: &[u8]) -> io::Result<usize> {
        if !self.screen.is_shared {
            return self.writer.write(buffer);
        }
        self.screen.wipe();
        let count = self.writer.write(buffer)?;
        if let Some(last) = buffer.get(count.saturating_sub(1)) {
            self.screen.is_at_start.set(*last == b'\n');
        }
        Ok(count)
    }

    fn flush(&mut self) -> io::Result<()> {
        self.writer.flush()
    }
}
