//! Names of at most 255 bytes, stored inline.
ghost use Rattle.std.specs.Prelude.{◌≡◌, ◌≤◌, [], length};

use pv_model::limits::NAME_V2;
use std::hash::{Hash, Hasher};
use std::marker::Model;

/// A name of at most 255 bytes. `set` writes only the bytes of the new name, while an `ArrayVec` would first clear each
/// old element. The bytes are hashed as one slice.
#[derive(Drop)]
pub(crate) struct ShortName {
    bytes: [u8; NAME_V2],
    len: u8,
}

impl Model for ShortName {
    ghost use Rattle.std.specs.Prelude.{take};
    ghost use Rattle.pv_model.specs.Bytes.{Bytes};

    ghost Value = { Bytes };

    ghost view = { λ n. take n.len n.bytes };
}

impl ShortName {
    /// Creates an empty name.
    pub(crate) fn empty() -> ShortName
        ensures { result ≡ [] }
    {
        ShortName {
            bytes: [0; NAME_V2],
            len: 0,
        }
    }

    /// Sets the name, which has at most 255 bytes.
    pub(crate) fn set(&mut self, name: &[u8])
        requires { length name.now ≤ NAME_V2 }
        ensures { self.new ≡ name.now }
    {
        self.bytes[..name.len()].copy_from_slice(name);
        self.len = name.len() as u8;
    }

    /// Returns the bytes of the name.
    #[inline]
    pub(crate) fn as_slice(&self) -> &[u8]
        ensures { result.now ≡ self.now }
    {
        &self.bytes[..self.len as usize]
    }
}

impl PartialEq for ShortName {
    ghost use Rattle.std.specs.Prelude.{nat_eq};
    ghost use Rattle.std.specs.Cmp.Lexicographic.{pointwise};
    ghost use Rattle.std.specs.Cmp.Rules.{comparing};
    ghost use Rattle.std.proofs.Common.{rules};

    ghost eq = { pointwise nat_eq };

    ghost laws = { Prim.search (comparing, rules) };

    #[inline]
    fn eq(&self, other: &ShortName) -> bool {
        self.as_slice() == other.as_slice()
    }
}

impl Eq for ShortName {
    ghost use Rattle.std.specs.Cmp.Rules.{comparing};
    ghost use Rattle.std.proofs.Common.{rules};

    ghost laws = { Prim.search (comparing, rules) };
}

impl Hash for ShortName {
    ghost use Rattle.std.specs.Prelude.{◌∷◌, []};
    ghost use Rattle.std.specs.Cmp.Rules.{hashing};
    ghost use Rattle.std.proofs.Common.{rules};

    ghost hash_input = { λ n. n ∷ [] };

    ghost respects_eq = { Prim.search (hashing, rules) };

    #[inline]
    fn hash<H: Hasher>(&self, state: &mut H) {
        state.write(self.as_slice());
    }
}
