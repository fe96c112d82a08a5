//! A sink that buffers bytes and writes them in large blocks.
ghost use Rattle.std.specs.Prelude.{◌≡◌, ◌+◌, ◌++◌, ◌≤◌, [], drop, length, vec_len, OnOk, OnErr};
ghost use Rattle.pv_model.specs.Machine.{Rose};
ghost use Rattle.pv_streams.specs.Sinks.{and_all};
ghost use Rattle.pv_streams.specs.declared.buffered.TheConstants.{CHUNK};

use crate::writing::write_some;
use pv_model::{Failed, Sink};
use std::alloc::Global;

/// The capacity of the buffer, in bytes.
pub const CHUNK: usize = 65_536;

/// A sink that buffers bytes and writes them to another sink when the buffer is full or `flush` is called. If memory
/// for the buffer cannot be allocated, it flushes at once.
///
/// Dropping the buffer does not flush it: the owner calls `flush` at the end.
#[derive(Drop)]
pub struct Buffered<W: Sink + Drop> {
    sink: W,
    waiting: Vec<u8>,
    ghost few: { vec_len waiting ≤ CHUNK },
}

impl<W: Sink + Drop> Buffered<W> {
    /// Creates an empty buffer that flushes to `sink`.
    pub fn new(alloc: Global, sink: W) -> Buffered<W>
        ensures sink { result.sink ≡ sink }
        ensures empty { result.waiting.items ≡ [] }
    {
        // The capacity that is not written uses no page of memory.
        let waiting = match Vec::with_capacity(alloc, CHUNK) {
            Ok(waiting) => waiting,
            Err(_) => Vec::new(alloc),
        };
        Buffered { sink, waiting }
    }

    /// Returns the sink that the buffer flushes to.
    pub fn sink(&self) -> &W
        ensures { result.now ≡ self.now.sink }
    {
        &self.sink
    }

    // Removes the first `count` bytes of the buffer, which are flushed.
    fn forget(&mut self, count: usize)
        requires { count ≤ length self.old.waiting.items }
        ensures waiting { self.new.waiting.items ≡ drop count self.old.waiting.items }
        ensures sink { self.new.sink ≡ self.old.sink }
    {
        let left = self.waiting.len() - count;
        self.waiting.rotate_left(count);
        self.waiting.truncate(left);
    }

    // Flushes the whole buffer. If a write fails, the bytes that were not written stay in the buffer.
    #[tactic(auto, using(crate::proofs::SinkWrites::flushed_part, crate::proofs::SinkWrites::flushed_all, crate::proofs::SinkWrites::written_more))]
    fn flush_buffer(&mut self) -> Result<(), Failed>
        ensures written { and_all (W.written self.new.sink) self.new.waiting.items ≡ and_all (W.written self.old.sink) self.old.waiting.items }
        ensures empty { OnOk result (self.new.waiting.items ≡ []) }
        ensures quiet { OnOk result (W.failures self.new.sink ≡ W.failures self.old.sink) }
        ensures failed { OnErr result (Rose (W.failures self.old.sink) (W.failures self.new.sink)) }
    {
        let mut at = 0;
        while at < self.waiting.as_slice().len() {
            match write_some(&mut self.sink, &self.waiting.as_slice()[at..]) {
                Ok(count) => at += count,
                Err(Failed) => {
                    self.forget(at);
                    return Err(Failed);
                }
            }
        }
        self.waiting.clear();
        Ok(())
    }
}

impl<W: Sink + Drop> Sink for Buffered<W> {
    ghost written = { λ s. and_all (W.written s.sink) s.waiting.items };

    ghost buffered = { λ s. length s.waiting.items + W.buffered s.sink };

    ghost failures = { λ s. W.failures s.sink };

    #[tactic(auto, using(crate::proofs::SinkWrites::more_buffered, crate::proofs::SinkWrites::written_nothing))]
    fn write(&mut self, buffer: &[u8]) -> Result<usize, Failed> {
        let mut bytes = buffer;
        if bytes.len() > CHUNK - self.waiting.len() {
            self.flush_buffer()?;
            bytes = &buffer[..buffer.len().min(CHUNK)];
        }
        match self.waiting.extend_from_slice(bytes) {
            Ok(()) => Ok(bytes.len()),
            Err(_) => {
                self.flush_buffer()?;
                self.sink.write(bytes)
            }
        }
    }

    fn flush(&mut self) -> Result<(), Failed> {
        self.flush_buffer()?;
        self.sink.flush()
    }
}
