//! Targets of unveil entries.
ghost use Rattle.std.specs.Prelude.{◌≡◌};

use crate::Name;

/// The target of an unveil entry, unveil(2).
#[derive(Drop)]
pub enum Target {
    /// The directory with this number.
    Directory(u16),
    /// A name in a directory, whether or not the entry exists.
    Name { dir: u16, name: Name },
}

/// Returns a placeholder for the unused places of a table. No node has number 0.
impl Default for Target {
    ghost use Rattle.std.specs.Prelude.{◌≡◌};
    ghost use Rattle.pv_model.specs.declared.target.Target.TheVariants.{Directory};

    ghost is_default = { λ target. target ≡ Directory 0 };

    fn default() -> Target {
        Target::Directory(0)
    }
}

impl Target {
    /// Returns a copy of the target.
    pub fn copy(&self) -> Target
        ensures { result ≡ self.now }
    {
        match self {
            Target::Directory(number) => Target::Directory(*number),
            Target::Name { dir, name } => Target::Name {
                dir: *dir,
                name: name.copy(),
            },
        }
    }
}
