//! Sinks over writers of the operating system.
ghost use Rattle.std.specs.Prelude.{◌≡◌, None};
ghost use Rattle.pv_model.specs.Stream.{CountsZeroWrites};

use pv_streams::{Failed, Sink};
use std::io::Write;

// Counts a write that failed or took no byte of a nonempty buffer, and returns its result.
pub(crate) fn counted(
    written: Result<usize, Failed>,
    buffer: &[u8],
    failures: &mut u64,
) -> Result<usize, Failed>
    ensures same { result ≡ written }
    ensures counted { CountsZeroWrites failures.old failures.new result buffer.now }
{
    match written {
        Ok(0) if buffer.is_empty() => {}
        Ok(0) | Err(Failed) => *failures = failures.saturating_add(1),
        Ok(_) => {}
    }
    written
}

/// A sink over a writer. Its contract does not know the bytes that it received.
#[derive(Drop)]
pub struct Output<W: Drop> {
    writer: W,
    failures: u64,
}

impl<W: Write + Drop> Output<W> {
    /// Returns a sink over a writer, with no failures.
    pub fn new(writer: W) -> Output<W>
        ensures writer { result.writer ≡ writer }
        ensures failures { result.failures ≡ 0 }
    {
        Output {
            writer,
            failures: 0,
        }
    }
}

impl<W: Write + Drop> Sink for Output<W> {
    ghost written = { λ _. None };

    ghost buffered = { λ _. 0 };

    ghost failures = { λ s. s.failures };

    fn write(&mut self, buffer: &[u8]) -> Result<usize, Failed> {
        let written = match self.writer.write(buffer) {
            Ok(count) => Ok(count),
            Err(_) => Err(Failed),
        };
        counted(written, buffer, &mut self.failures)
    }

    fn flush(&mut self) -> Result<(), Failed> {
        Ok(())
    }
}
