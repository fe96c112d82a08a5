//! Sources over readers of the operating system.
ghost use Rattle.std.specs.Prelude.{◌≡◌, None};

use pv_streams::{Failed, Source};
use std::io::Read;

/// A source over a reader. Its contract does not know the bytes that it will give.
#[derive(Drop)]
pub struct Input<R: Drop> {
    reader: R,
    given: u64,
    failures: u64,
}

impl<R: Read + Drop> Input<R> {
    /// Returns a source over a reader, with no bytes given and no failures.
    pub fn new(reader: R) -> Input<R>
        ensures given { result.given ≡ 0 }
        ensures failures { result.failures ≡ 0 }
    {
        Input {
            reader,
            given: 0,
            failures: 0,
        }
    }
}

impl<R: Read + Drop> Source for Input<R> {
    ghost remaining = { λ _. None };

    ghost given = { λ s. s.given };

    ghost failures = { λ s. s.failures };

    fn read(&mut self, buffer: &mut [u8]) -> Result<usize, Failed> {
        match self.reader.read(buffer) {
            Ok(count) => {
                self.given = self.given.saturating_add(count as u64);
                Ok(count)
            }
            Err(_) => {
                self.failures = self.failures.saturating_add(1);
                Err(Failed)
            }
        }
    }
}
