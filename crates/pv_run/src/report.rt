//! Reports on all files.
ghost use Rattle.std.specs.Prelude.{◌≡◌, Some, Ok};
ghost use Rattle.pv_model.specs.Machine.{report, audit_node};
ghost use Rattle.pv_model.specs.Listing.{found_line};
ghost use Rattle.pv_streams.specs.Sinks.{FailsBy, Writes, WritesOr};

use pv_listing::{Remarks, write_lines, write_path, write_verdict};
use pv_model::Verdict;
use pv_session::Session;
use pv_streams::{Failed, Sink, Stop, write_whole};
use std::alloc::Global;

/// Writes the line of a file at a path in a report: the path as a quoted text, a space, and the verdict.
///
/// # Errors
///
/// `Failed`, if a write failed. The sink received a prefix of the line.
pub fn write_found<W: Sink>(out: &mut W, path: &[u8], found: &Verdict) -> Result<(), Failed>
    ensures { Writes W.Sink (found_line path.now (Ok found.now)) out.old out.new result }
{
    write_path(out, path)?;
    write_whole(out, b" ")?;
    write_verdict(out, found)
}

// The remarks of a report: for each file its path and its verdict.
#[derive(Clone, Copy)]
struct FoundLines<'a> {
    session: &'a Session,
}

impl<'a> Remarks for FoundLines<'a> {
    ghost line = { λ s path n. found_line path (audit_node s.session.now (Some n)) };

    fn write<W: Sink>(&self, out: &mut W, path: &[u8], node: u16) -> Result<(), Failed> {
        match self.session.audit_node(node) {
            Ok(found) => write_found(out, path, &found),
            Err(_) => Ok(()),
        }
    }
}

/// Writes the verdicts on all files of a machine: a line for each name of a file, in the order of a listing, with the
/// path of the name as a quoted text, a space, and the verdict. Directories and links have no line.
///
/// Memory is needed only for the path.
///
/// # Errors
///
/// - `Write`, if a write failed. The sink received a prefix of the report.
/// - `Memory`, if there is no memory for a path. The sink received a prefix of the report.
pub fn write_report<W: Sink>(alloc: Global, session: &Session, out: &mut W) -> Result<(), Stop>
    ensures { WritesOr W.Sink FailsBy (report session.now) out.old out.new result }
{
    write_lines(alloc, session.parts().tree(), &FoundLines { session }, out)
}
