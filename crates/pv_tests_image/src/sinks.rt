//! Sinks of limited and of unlimited capacity.
ghost use Rattle.std.specs.Prelude.{None};

use pv_streams::{Failed, Sink};
use std::alloc::Global;

/// A sink that accepts at most `room` bytes in total and `width` bytes per write.
#[derive(Drop)]
pub(crate) struct Narrow {
    /// The bytes that it accepted.
    pub(crate) bytes: Vec<u8>,
    room: usize,
    width: usize,
    /// The number of its failures.
    pub(crate) failures: u64,
}

impl Sink for Narrow {
    ghost written = { λ _. None };

    ghost buffered = { λ _. 0 };

    ghost failures = { λ s. s.failures };

    fn write(&mut self, buffer: &[u8]) -> Result<usize, Failed> {
        let count = buffer.len().min(self.room).min(self.width);
        if count > 0 && self.bytes.extend_from_slice(&buffer[..count]).is_ok() {
            self.room -= count;
            return Ok(count);
        }
        self.failures = self.failures.saturating_add(1);
        Err(Failed)
    }

    fn flush(&mut self) -> Result<(), Failed> {
        Ok(())
    }
}

/// Creates a sink that accepts at most `room` bytes in total and `width` bytes per write.
pub(crate) fn sink_of(alloc: Global, room: usize, width: usize) -> Narrow {
    Narrow {
        bytes: Vec::new(alloc),
        room,
        width,
        failures: 0,
    }
}

/// Creates a sink that accepts all bytes.
pub(crate) fn wide_sink(alloc: Global) -> Narrow {
    sink_of(alloc, usize::MAX, usize::MAX)
}
