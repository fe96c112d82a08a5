//! Sinks of limited capacity.
ghost use Rattle.std.specs.Prelude.{None};

use pv_streams::{Failed, Sink};

// A sink that accepts at most `room` bytes in total and `width` bytes per write, and counts its writes.
#[derive(Drop)]
pub(crate) struct Narrow {
    pub(crate) bytes: Vec<u8>,
    room: usize,
    width: usize,
    pub(crate) writes: u64,
    pub(crate) failures: u64,
}

impl Sink for Narrow {
    ghost written = { λ _. None };

    ghost buffered = { λ _. 0 };

    ghost failures = { λ s. s.failures };

    fn write(&mut self, buffer: &[u8]) -> Result<usize, Failed> {
        self.writes = self.writes.saturating_add(1);
        let count = buffer.len().min(self.room).min(self.width);
        if count > 0 && self.bytes.extend_from_slice(&buffer[..count]).is_ok() {
            self.room -= count;
            return Ok(count);
        }
        self.failures = self.failures.saturating_add(1);
        Err(Failed)
    }

    fn flush(&mut self) -> Result<(), Failed> {
        Ok(())
    }
}

// Creates a sink that accepts at most `room` bytes in total and `width` bytes per write.
pub(crate) fn sink_of<R: AllocGlobal>(rt: &R, room: usize, width: usize) -> Narrow {
    Narrow {
        bytes: Vec::new(rt.alloc()),
        room,
        width,
        writes: 0,
        failures: 0,
    }
}
