//! The trait of the text about the nodes of a tree.
ghost use Rattle.std.specs.Prelude.{◌≡◌, ℕ, List};
ghost use Rattle.pv_streams.specs.Sinks.{Writes};

use pv_streams::{Failed, Sink};

/// The text about each node of a tree, at each path that leads to it.
pub trait Remarks {
    /// The line of a node at a path, including its line feed. It can be empty.
    ghost line: { Self → List ℕ → ℕ → List ℕ };

    /// Writes the line of a node at a path. The path of the root is empty.
    ///
    /// # Errors
    ///
    /// Returns `Failed` if a write fails. The sink then has received a prefix of the line.
    fn write<W: Sink>(&self, out: &mut W, path: &[u8], node: u16) -> Result<(), Failed>
        ensures { Writes W.Sink (line self.now path.now node) out.old out.new result };
}
