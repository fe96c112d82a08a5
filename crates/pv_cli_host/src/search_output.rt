//! The standard output of a search.
ghost use Rattle.std.specs.Prelude.{◌≡◌, [], length, None};
ghost use Rattle.pv_model.specs.Stream.{WritesAtMost};

use crate::output::{Output, counted};
use crate::screen::Screen;
use pv_streams::{Buffered, Failed, Sink};
use std::alloc::Global;
use std::io::Write;

/// A sink over two writers to one output. It buffers its output, but during a search each write goes to the output at
/// once: a search that is interrupted has written its findings. Its contract does not know the bytes that it received.
#[derive(Drop)]
pub struct SearchOutput<'a, W: Write + Drop>
where
    Output<W>: Sink,
{
    screen: &'a Screen<'a>,
    waiting: Buffered<Output<W>>,
    direct: Output<W>,
    failures: u64,
}

impl<'a, W: Write + Drop> SearchOutput<'a, W>
where
    Output<W>: Sink,
{
    /// Returns a sink over two writers to one output, with nothing buffered and no failures. The screen knows whether a
    /// search is running.
    pub fn new(alloc: Global, screen: &'a Screen<'a>, waiting: W, direct: W) -> SearchOutput<'a, W>
        ensures screen { result.screen ≡ screen.entry }
        ensures empty { result.waiting.waiting.items ≡ [] }
        ensures waiting { result.waiting.sink.writer ≡ waiting }
        ensures direct { result.direct.writer ≡ direct }
        ensures failures { result.failures ≡ 0 }
    {
        SearchOutput {
            screen,
            waiting: Buffered::new(alloc, Output::new(waiting)),
            direct: Output::new(direct),
            failures: 0,
        }
    }

    // Writes to the buffer, or during a search to the output, after the bytes in the buffer.
    fn write_bytes(&mut self, buffer: &[u8]) -> Result<usize, Failed>
        ensures bound { WritesAtMost result buffer.now }
        ensures failures { self.new.failures ≡ self.old.failures }
    {
        if !self.screen.is_searching() {
            return self.waiting.write(buffer);
        }
        self.waiting.flush()?;
        self.direct.write(buffer)
    }
}

impl<W: Write + Drop> Sink for SearchOutput<'_, W>
where
    Output<W>: Sink,
{
    ghost written = { λ _. None };

    ghost buffered = { λ s. length s.waiting.waiting.items };

    ghost failures = { λ s. s.failures };

    fn write(&mut self, buffer: &[u8]) -> Result<usize, Failed> {
        let written = self.write_bytes(buffer);
        counted(written, buffer, &mut self.failures)
    }

    fn flush(&mut self) -> Result<(), Failed> {
        match self.waiting.flush() {
            Ok(()) => Ok(()),
            Err(Failed) => {
                self.failures = self.failures.saturating_add(1);
                Err(Failed)
            }
        }
    }
}
