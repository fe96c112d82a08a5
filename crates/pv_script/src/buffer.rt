//! The buffer of a process, 4,096 bytes.
ghost use Rattle.std.specs.Prelude.{◌≡◌, ◌≤◌, ◌++◌, IfOk, length, drop, replicate};
ghost use Rattle.std.specs.Borrow.{sem};
ghost use Rattle.pv_model.specs.declared.limits.TheConstants.{BUFFER};

use pv_model::limits::BUFFER;
use std::alloc::{AllocError, Global};
use std::marker::Model;

/// The 4,096 bytes of a process's buffer. The bytes from `used` on were never written and are zero, so a copy can skip
/// them. Contracts see the bytes.
#[derive(Drop)]
pub(crate) struct Buffer {
    bytes: Vec<u8>,
    used: usize,
}

impl Model for Buffer {
    ghost use Rattle.pv_model.specs.Bytes.{Bytes};

    ghost Value = { Bytes };

    ghost use Rattle.pv_script.specs.Written.{IsZeroAfter};

    ghost view = { λ b. b.bytes.items };

    ghost invariant = { λ b. IsZeroAfter b.bytes.items b.used };
}

// Overwrites the front of a buffer with `bytes`.
fn put_to_front(buffer: &mut [u8], bytes: &[u8])
    requires { length bytes.now ≤ length buffer.old }
    ensures { buffer.new ≡ bytes.now ++ drop (length bytes.now) buffer.old }
{
    buffer[..bytes.len()].copy_from_slice(bytes);
}

// Writes `count` zeros to the front of a buffer.
fn clear_front(buffer: &mut [u8], count: usize)
    requires { count ≤ length buffer.old }
    ensures { buffer.new ≡ replicate count 0 ++ drop count buffer.old }
{
    buffer[..count].fill(0);
}

impl Buffer {
    ghost use Rattle.pv_script.specs.Lent.{LendsBytes};

    // Creates a buffer of zeros.
    pub(crate) fn new(alloc: Global) -> Result<Buffer, AllocError>
        ensures { IfOk result (λ b. b ≡ replicate BUFFER 0) }
    {
        Ok(Buffer {
            bytes: vec![in alloc; 0; BUFFER]?,
            used: 0,
        })
    }

    // Sets all bytes to zero.
    pub(crate) fn clear(&mut self)
        ensures { self.new ≡ replicate BUFFER 0 }
    {
        clear_front(&mut self.bytes, self.used);
        self.used = 0;
    }

    // Copies another buffer.
    pub(crate) fn copy_from(&mut self, other: &Buffer)
        ensures { self.new ≡ other.now }
    {
        let most = self.used.max(other.used);
        put_to_front(&mut self.bytes, &other.bytes[..most]);
        self.used = other.used;
    }

    // Returns the bytes.
    pub(crate) fn as_slice(&self) -> &[u8]
        ensures value { result.now ≡ self.now }
        ensures size { length result.now ≡ BUFFER }
    {
        &self.bytes
    }

    // Returns the bytes for modification. All of them may be written.
    pub(crate) fn as_mut_slice(&mut self) -> &mut [u8]
        ensures* writes_back { sem 𝓛 (LendsBytes self.entry result) }
        ensures value { result.now ≡ self.old }
        ensures size { length result.now ≡ BUFFER }
    {
        self.used = BUFFER;
        &mut self.bytes
    }

    // Overwrites the front of the buffer with `bytes`.
    pub(crate) fn put_front(&mut self, bytes: &[u8])
        requires { length bytes.now ≤ BUFFER }
        ensures { self.new ≡ bytes.now ++ drop (length bytes.now) self.old }
    {
        put_to_front(&mut self.bytes, bytes);
        self.used = self.used.max(bytes.len());
    }
}
