//! A source and a sink over bytes in memory.
ghost use Rattle.std.specs.Prelude.{◌≡◌, [], Some};

use pv_model::{Failed, Sink, Source};
use std::alloc::Global;

/// A source that reads from a slice of bytes.
#[derive(Drop)]
pub struct Bytes<'a> {
    rest: &'a [u8],
    given: u64,
}

impl<'a> Bytes<'a> {
    /// Creates a source of `bytes`.
    pub fn new(bytes: &'a [u8]) -> Bytes<'a>
        ensures bytes { result.rest.now ≡ bytes.now }
        ensures count { result.given ≡ 0 }
    {
        Bytes {
            rest: bytes,
            given: 0,
        }
    }
}

impl<'a> Source for Bytes<'a> {
    ghost remaining = { λ s. Some s.rest.now };

    ghost given = { λ s. s.given };

    ghost failures = { λ _. 0 };

    fn read(&mut self, buffer: &mut [u8]) -> Result<usize, Failed> {
        let count = self.rest.len().min(buffer.len());
        let (front, rest) = self.rest.split_at(count);
        buffer[..count].copy_from_slice(front);
        self.rest = rest;
        self.given = self.given.saturating_add(count as u64);
        Ok(count)
    }
}

/// A sink that collects bytes in memory. If memory cannot be allocated, a write fails.
#[derive(Drop)]
pub struct Gathered {
    /// The bytes that were written so far.
    pub bytes: Vec<u8>,
    failures: u64,
}

impl Gathered {
    /// Creates an empty sink.
    pub fn new(alloc: Global) -> Gathered
        ensures bytes { result.bytes.items ≡ [] }
        ensures failures { result.failures ≡ 0 }
    {
        Gathered {
            bytes: Vec::new(alloc),
            failures: 0,
        }
    }
}

impl Sink for Gathered {
    ghost written = { λ s. Some s.bytes.items };

    ghost buffered = { λ _. 0 };

    ghost failures = { λ s. s.failures };

    fn write(&mut self, buffer: &[u8]) -> Result<usize, Failed> {
        match self.bytes.extend_from_slice(buffer) {
            Ok(()) => Ok(buffer.len()),
            Err(_) => {
                self.failures = self.failures.saturating_add(1);
                Err(Failed)
            }
        }
    }

    fn flush(&mut self) -> Result<(), Failed> {
        Ok(())
    }
}
