//! Streams that fail: a source after its last byte, and a sink without room. Also a source without end.
ghost use Rattle.std.specs.Prelude.{None};

use pv_streams::{Failed, Gathered, Sink, Source};
use std::process::Abort;

// A source that fails after its last byte, and gives a limited number of bytes at each read.
#[derive(Drop)]
pub(crate) struct Cut<'a> {
    rest: &'a [u8],
    pace: usize,
    given: u64,
    failures: u64,
}

impl<'a> Source for Cut<'a> {
    ghost remaining = { λ _. None };

    ghost given = { λ source. source.given };

    ghost failures = { λ source. source.failures };

    fn read(&mut self, buffer: &mut [u8]) -> Result<usize, Failed> {
        let count = self.rest.len().min(buffer.len()).min(self.pace);
        if count == 0 {
            self.failures = self.failures.saturating_add(1);
            return Err(Failed);
        }
        let (front, rest) = self.rest.split_at(count);
        buffer[..count].copy_from_slice(front);
        self.rest = rest;
        self.given = self.given.saturating_add(count as u64);
        Ok(count)
    }
}

// Returns a source of the first `end` bytes, followed by a failure.
pub(crate) fn front_of(bytes: &[u8], end: usize) -> Cut<'_> {
    Cut {
        rest: bytes.get(..end).unwrap_or(bytes),
        pace: 1_000,
        given: 0,
        failures: 0,
    }
}

// Returns the same source, which gives one byte at each read.
pub(crate) fn slow_front_of(bytes: &[u8], end: usize) -> Cut<'_> {
    Cut {
        pace: 1,
        ..front_of(bytes, end)
    }
}

// Checks that the source failed once.
pub(crate) fn expect_cut(rt: &impl Abort, source: &Cut<'_>) {
    assert_eq!(rt; source.failures, 1);
}

// A source of zeros without end.
#[derive(Drop)]
pub(crate) struct Endless {
    pub(crate) given: u64,
}

impl Source for Endless {
    ghost remaining = { λ _. None };

    ghost given = { λ source. source.given };

    ghost failures = { λ _. 0 };

    fn read(&mut self, buffer: &mut [u8]) -> Result<usize, Failed> {
        buffer.fill(0);
        self.given = self.given.saturating_add(buffer.len() as u64);
        Ok(buffer.len())
    }
}

// A sink that takes a number of bytes and then fails, with an error or by taking nothing.
#[derive(Drop)]
pub(crate) struct Narrow {
    taken: Gathered,
    room: usize,
    takes_nothing: bool,
    failures: u64,
}

impl Sink for Narrow {
    ghost written = { λ _. None };

    ghost buffered = { λ _. 0 };

    ghost failures = { λ sink. sink.failures };

    fn write(&mut self, buffer: &[u8]) -> Result<usize, Failed> {
        let count = self.room.min(buffer.len());
        if count > 0 && self.taken.write(&buffer[..count]).is_ok() {
            self.room -= count;
            return Ok(count);
        }
        self.failures = self.failures.saturating_add(1);
        if self.takes_nothing {
            return Ok(0);
        }
        Err(Failed)
    }

    fn flush(&mut self) -> Result<(), Failed> {
        Ok(())
    }
}

// Returns a sink with this room. It fails by taking nothing if the room is a multiple of three.
pub(crate) fn sink_of(rt: &impl AllocGlobal, room: usize) -> Narrow {
    Narrow {
        taken: Gathered::new(rt.alloc()),
        room,
        takes_nothing: room % 3 == 0,
        failures: 0,
    }
}

// Checks that the sink failed once and has exactly the prefix of the text.
pub(crate) fn expect_front(rt: &impl Abort, sink: &Narrow, text: &[u8], room: usize) {
    expect_count(rt, sink, room);
    assert!(rt; sink.taken.bytes.as_slice() == text.get(..room).unwrap_or(text));
}

// Checks that the sink failed once and has this many bytes.
pub(crate) fn expect_count(rt: &impl Abort, sink: &Narrow, room: usize) {
    assert_eq!(rt; sink.failures, 1);
    assert_eq!(rt; sink.taken.bytes.len(), room);
}
