//! Byte buffers of fixed capacity.
ghost use Rattle.std.specs.Prelude.{◌≡◌, ◌+◌, ◌++◌, ◌≤◌, [], length};

use std::marker::Model;

/// A buffer of at most `N` bytes, stored inline. `clear` costs nothing, while that of an `ArrayVec` overwrites all
/// elements. Contracts see the bytes as those of an `ArrayVec`.
#[derive(Drop)]
pub struct FixedBuffer<const N: usize> {
    bytes: [u8; N],
    len: usize,
}

impl<const N: usize> Model for FixedBuffer<N> {
    ghost use Rattle.std.specs.Prelude.{◌≤◌, ℕ, take};
    ghost use Rattle.arrayvec.specs.ArrayVec.{ArrayVec};

    ghost Value = { ArrayVec ℕ };

    ghost view = { λ p. record { items = take p.len p.bytes } };

    ghost invariant = { λ p. p.len ≤ N };
}

impl<const N: usize> FixedBuffer<N> {
    /// Creates an empty buffer.
    pub fn new() -> FixedBuffer<N>
        ensures { result.items ≡ [] }
    {
        FixedBuffer {
            bytes: [0; N],
            len: 0,
        }
    }

    /// Removes all bytes.
    pub fn clear(&mut self)
        ensures { self.new.items ≡ [] }
    {
        self.len = 0;
    }

    /// Returns the bytes.
    pub fn as_slice(&self) -> &[u8]
        ensures value { result.now ≡ self.now.items }
        ensures fits { length result.now ≤ N }
    {
        &self.bytes[..self.len]
    }

    /// Appends bytes, for which there must be room.
    #[inline]
    pub fn extend(&mut self, bytes: &[u8])
        requires { length self.old.items + length bytes.now ≤ N }
        ensures { self.new.items ≡ self.old.items ++ bytes.now }
    {
        let start = self.len;
        let end = start + bytes.len();
        let all = &mut self.bytes[..];
        all[start..end].copy_from_slice(bytes);
        self.len = end;
    }
}
