//! Files of a host.
ghost use Rattle.std.specs.Prelude.{◌≡◌, ℕ, List, Option, IfOk, IsOk, IsSome};
ghost use Rattle.pv_model.specs.Stream.{EndsIfEmpty, ReadsAtMost, front_and};

use pv_streams::Failed;

/// An open file of a host: a reader of its bytes.
///
/// Contracts see the bytes that remain, if they are known. Those of a file of the real system are unknown.
pub trait HostFile {
    /// The bytes that remain, if they are known.
    ghost bytes: { Self → Option (List ℕ) };

    /// Copies the next bytes to the front of `buffer` and returns their number. If `buffer` is not empty, 0 means the
    /// end of the file. If the bytes of a file are known, reading it does not fail.
    ///
    /// # Errors
    ///
    /// Returns `Failed` if the file cannot be read.
    fn read(&mut self, buffer: &mut [u8]) -> Result<usize, Failed>
        ensures bound { ReadsAtMost result buffer.new }
        ensures front { IfOk result (λ n. bytes self.old ≡ front_and n buffer.new (bytes self.new)) }
        ensures end { EndsIfEmpty (bytes self.new) result buffer.new }
        ensures known { IsSome (bytes self.old) → IsOk result };
}
