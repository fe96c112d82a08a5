//! Byte streams: the input and output of a run.
ghost use Rattle.std.specs.Prelude.{◌≡◌, ℕ, List, IfOk, OnOk, OnErr, Option};
ghost use Rattle.pv_model.specs.Stream.{Rose, and_front, front_and, ReadsAtMost, CountsBytes, EndsIfEmpty, WritesAtMost, CountsZeroWrites};

/// An error of a read or a write. The stream itself counts its failures and reports the details.
#[derive(Clone, Copy, Debug, PartialEq, Eq)]
pub struct Failed;

/// A source of bytes.
///
/// A contract may cite the bytes that remain (if the type knows them; a file does not), the number of bytes that were
/// read, and the number of reads that failed.
pub trait Source {
    /// The bytes that remain to be read, if they are known.
    ghost remaining: { Self → Option (List ℕ) };

    /// The number of bytes that were read, which saturates at 2^64 - 1.
    ghost given: { Self → ℕ };

    /// The number of reads that failed, which saturates at 2^64 - 1.
    ghost failures: { Self → ℕ };

    /// Reads the next bytes into the start of the buffer and returns how many it read. If the buffer is not empty, 0
    /// means the end.
    ///
    /// # Errors
    ///
    /// `Failed` if the read failed. The source has counted the failure.
    fn read(&mut self, buffer: &mut [u8]) -> Result<usize, Failed>
        ensures bound { ReadsAtMost result buffer.new }
        ensures bytes { IfOk result (λ n. remaining self.old ≡ front_and n buffer.new (remaining self.new)) }
        ensures end { EndsIfEmpty (remaining self.new) result buffer.new }
        ensures counted { CountsBytes (given self.old) (given self.new) result }
        ensures quiet { OnOk result (failures self.new ≡ failures self.old) }
        ensures failed { OnErr result (Rose (failures self.old) (failures self.new)) };
}

/// A sink of bytes.
///
/// A contract may cite the bytes that were written (if the type knows them; a file does not), the number of them that
/// are buffered, and the number of writes that failed.
pub trait Sink {
    /// The bytes that were written, if they are known.
    ghost written: { Self → Option (List ℕ) };

    /// The number of written bytes that are not yet flushed: 0 unless the sink buffers.
    ghost buffered: { Self → ℕ };

    /// The number of writes that failed, which saturates at 2^64 - 1.
    ghost failures: { Self → ℕ };

    /// Writes bytes from the start of the buffer and returns how many it took. Taking no byte of a nonempty buffer
    /// counts as a failure.
    ///
    /// # Errors
    ///
    /// `Failed` if the write failed. The sink took no byte, and has counted the failure.
    fn write(&mut self, buffer: &[u8]) -> Result<usize, Failed>
        ensures bound { WritesAtMost result buffer.now }
        ensures bytes { IfOk result (λ n. written self.new ≡ and_front (written self.old) n buffer.now) }
        ensures preserved { OnErr result (written self.new ≡ written self.old) }
        ensures failed { CountsZeroWrites (failures self.old) (failures self.new) result buffer.now };

    /// Flushes all buffered bytes.
    ///
    /// # Errors
    ///
    /// `Failed` if the flush failed. The sink has counted the failure, and some bytes may still be buffered.
    fn flush(&mut self) -> Result<(), Failed>
        ensures preserved { written self.new ≡ written self.old }
        ensures empty { OnOk result (buffered self.new ≡ 0) }
        ensures quiet { OnOk result (failures self.new ≡ failures self.old) }
        ensures failed { OnErr result (Rose (failures self.old) (failures self.new)) };
}
