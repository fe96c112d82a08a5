//! A filter that rules out most targets without an entry.
ghost use Rattle.std.specs.Prelude.{◌≡◌, ℕ, true};
ghost use Rattle.pv_model.specs.Machine.{Bytes};
ghost use Rattle.pv_unveil.specs.Marks.{is_marked, has_mark};

use pv_model::Target;

// Returns whether a number has a mark in a row of 64 bits. Numbers that are equal modulo 64 share a mark.
#[inline]
fn is_marked(row: u64, number: usize) -> bool
    ensures { result ≡ is_marked row number }
{
    (row >> (number % 64)) & 1 == 1
}

// Returns the row with the mark of `number` set.
fn with_mark(row: u64, number: usize) -> u64
    ensures own { is_marked result number ≡ true }
    ensures others { (other : ℕ) → is_marked row other ≡ true → is_marked result other ≡ true }
{
    row | 1 << (number % 64)
}

/// The marks of targets. The mark of a directory depends on its number; that of a name depends on the number of its
/// directory and on the length of the name.
#[derive(Drop)]
pub(crate) struct Marks {
    directories: u64,
    names: u64,
}

impl Marks {
    /// Creates an empty set of marks.
    pub(crate) fn none() -> Marks {
        Marks {
            directories: 0,
            names: 0,
        }
    }

    /// Returns whether the mark of a directory is set.
    #[inline]
    pub(crate) fn has_directory(&self, directory: u16) -> bool
        ensures { result ≡ has_mark self.now (Target.Directory directory) }
    {
        is_marked(self.directories, directory as usize)
    }

    /// Returns whether the mark of a name in a directory is set.
    #[inline]
    pub(crate) fn has_name(&self, directory: u16, name: &[u8]) -> bool
        ensures { result ≡ has_mark self.now (Target.Name directory name.now) }
    {
        is_marked(self.names, directory as usize + name.len())
    }

    /// Sets the mark of a target. The other marks do not change.
    pub(crate) fn set(&mut self, target: &Target)
        ensures own { has_mark self.new target.now ≡ true }
        ensures others { (other : Target) → has_mark self.old other ≡ true → has_mark self.new other ≡ true }
    {
        match target {
            Target::Directory(directory) => {
                self.directories = with_mark(self.directories, *directory as usize);
            }
            Target::Name { dir, name } => {
                self.names = with_mark(self.names, *dir as usize + name.as_slice().len());
            }
        }
    }
}
