//! Paths in lines.
ghost use Rattle.std.specs.Prelude.{◌≡◌};
ghost use Rattle.pv_model.specs.Machine.{listed_path as path_of_line, quote};
ghost use Rattle.pv_streams.specs.Sinks.{Writes};

use pv_streams::{Failed, Fragment, Sink, write_quoted};

// Returns a path as it appears in a line: the root is a slash.
fn listed_path(path: &[u8]) -> &[u8]
    ensures { result.now ≡ path_of_line path.now }
{
    if path.is_empty() { b"/" } else { path }
}

/// A path of any length as it appears in a line: as a quoted text in its shortest form, with a slash for the root.
#[derive(Clone, Copy)]
pub struct ListedPath<'a>(pub &'a [u8]);

impl<'a> Fragment for ListedPath<'a> {
    ghost text = { λ p. quote (path_of_line p.0.now) };

    fn write<W: Sink>(&self, out: &mut W) -> Result<(), Failed> {
        write_quoted(out, listed_path(self.0))
    }
}

/// Writes a path as a `ListedPath`. No memory is allocated.
///
/// # Errors
///
/// Returns `Failed` if a write fails. The sink then has received a prefix of the text.
pub fn write_path<W: Sink>(out: &mut W, path: &[u8]) -> Result<(), Failed>
    ensures { Writes W.Sink (quote (path_of_line path.now)) out.old out.new result }
{
    ListedPath(path).write(out)
}
