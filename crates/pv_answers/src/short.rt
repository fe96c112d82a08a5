//! Short lines, buffered in place.
ghost use Rattle.std.specs.Prelude.{◌≡◌, [], Some};

use pv_streams::{Failed, FixedBuffer, Sink};

/// The maximum length of a line that is buffered before it is written.
const SHORT: usize = 512;

/// A sink that buffers the bytes of a line in place. A write that does not fit fails.
#[derive(Drop)]
pub(crate) struct ShortLine {
    bytes: FixedBuffer<SHORT>,
    failures: u64,
}

impl ShortLine {
    /// Returns an empty sink.
    #[inline]
    pub(crate) fn new() -> ShortLine
        ensures bytes { result.bytes.items ≡ [] }
        ensures failures { result.failures ≡ 0 }
    {
        ShortLine {
            bytes: FixedBuffer::new(),
            failures: 0,
        }
    }

    /// Returns the bytes written so far.
    #[inline]
    pub(crate) fn as_slice(&self) -> &[u8]
        ensures { result.now ≡ self.now.bytes.items }
    {
        self.bytes.as_slice()
    }
}

impl Sink for ShortLine {
    ghost written = { λ s. Some s.bytes.items };

    ghost buffered = { λ _. 0 };

    ghost failures = { λ s. s.failures };

    #[inline]
    fn write(&mut self, buffer: &[u8]) -> Result<usize, Failed> {
        if buffer.len() > SHORT - self.bytes.as_slice().len() {
            self.failures = self.failures.saturating_add(1);
            return Err(Failed);
        }
        self.bytes.extend(buffer);
        Ok(buffer.len())
    }

    fn flush(&mut self) -> Result<(), Failed> {
        Ok(())
    }
}
