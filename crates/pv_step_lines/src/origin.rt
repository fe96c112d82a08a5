//! The line at which a table entry was set.

/// The origin of an unveil entry.
#[derive(Clone, Copy)]
pub struct Origin {
    /// The line of the process that called unveil(2), from 1.
    pub line: u16,
    /// Whether the table was kept over an execve(2) since then.
    pub earlier: bool,
}

/// A filler for the unused elements of an array. Line 0 is not a line of any program.
impl Default for Origin {
    ghost use Rattle.std.specs.Prelude.{◌≡◌, false};

    ghost is_default = { λ origin. origin ≡ record { line = 0; earlier = false } };

    fn default() -> Origin {
        Origin {
            line: 0,
            earlier: false,
        }
    }
}
