//! Keys of entries.
ghost use Rattle.std.specs.Prelude.{◌≡◌};
ghost use Rattle.pv_unveil.specs.Keys.{key_of, is_own, is_name_in};

use pv_model::Target;

/// The target of an entry without the name. A search compares keys, because they are small and contiguous in memory.
#[derive(Clone, Copy)]
pub(crate) enum Key {
    /// The directory with this number.
    Directory(u16),
    /// A name in the directory with this number.
    Name(u16),
}

/// A placeholder for unused elements of an array: no node has number 0.
impl Default for Key {
    ghost use Rattle.std.specs.Prelude.{◌≡◌};
    ghost use Rattle.pv_unveil.specs.declared.key.Key.TheVariants.{Directory};

    ghost is_default = { λ key. key ≡ Directory 0 };

    fn default() -> Key {
        Key::Directory(0)
    }
}

impl Key {
    /// Returns the key of an entry for a target.
    pub(crate) fn of(target: &Target) -> Key
        ensures { result ≡ key_of target.now }
    {
        match target {
            Target::Directory(directory) => Key::Directory(*directory),
            Target::Name { dir, .. } => Key::Name(*dir),
        }
    }

    /// Returns whether the entry is for the directory itself.
    #[inline]
    pub(crate) fn is_own(self, directory: u16) -> bool
        ensures { result ≡ is_own directory self }
    {
        match self {
            Key::Directory(number) => number == directory,
            Key::Name(_) => false,
        }
    }

    /// Returns whether the entry is for a name in the directory.
    #[inline]
    pub(crate) fn is_name_in(self, directory: u16) -> bool
        ensures { result ≡ is_name_in directory self }
    {
        match self {
            Key::Directory(_) => false,
            Key::Name(number) => number == directory,
        }
    }
}
