//! The lines that report skipped entries, entries that could not be added, and nodes that were not created.
ghost use Rattle.std.specs.Prelude.{◌≡◌, flat_map, map, OnOk};
ghost use Rattle.pv_streams.specs.Sinks.{and_all};
ghost use Rattle.pv_host_copy.specs.Firsts.{skipped_pair};
ghost use Rattle.pv_host_copy.specs.Lines.{ending, import_path_line, refused_ending, refused_line, skipped_line, line_of_missing_node};
ghost use Rattle.pv_host_copy.specs.Stopped.{refused_pair};

use crate::fault::{Refused, SkipReason};
use crate::skipped::Skipped;
use pv_image_manifest::EntryFault;
use pv_listing::ListedPath;
use pv_streams::{Failed, Fragment, Plain, Sink};

// Returns the end of the line of a skipped path: the reason in a word.
fn ending(why: SkipReason) -> &'static [u8]
    ensures { result.now ≡ ending why }
{
    match why {
        SkipReason::Name => b": name\n",
        SkipReason::Size => b": size\n",
        SkipReason::Text => b": text\n",
        SkipReason::Kind => b": kind\n",
    }
}

// Returns the end of the line of a path that could not be added.
fn refused_ending(fault: EntryFault) -> &'static [u8]
    ensures { result.now ≡ refused_ending fault }
{
    match fault {
        EntryFault::Parent => b": parent\n",
        EntryFault::Exists => b": exists\n",
        EntryFault::Source => b": source\n",
        EntryFault::Room => b": room\n",
    }
}

// Writes the line of a path with this end.
fn write_path_line<W: Sink>(out: &mut W, path: &[u8], end: &[u8]) -> Result<(), Failed>
    ensures { OnOk result (W.written out.new ≡ and_all (W.written out.old) (import_path_line path.now end.now)) }
{
    (Plain(b"pvsim: import: "), ListedPath(path), Plain(end)).write(out)
}

// Writes the line of a skipped path.
fn write_line<W: Sink>(out: &mut W, reported: &Skipped) -> Result<(), Failed>
    ensures { OnOk result (W.written out.new ≡ and_all (W.written out.old) (skipped_line (skipped_pair reported.now))) }
{
    write_path_line(out, &reported.path, ending(reported.why))
}

/// Writes a line for each skipped path: `pvsim: import: `, the path as in a listing, and the reason in a word.
///
/// # Errors
///
/// Returns `Failed` if a write fails.
pub fn write_skipped<W: Sink>(out: &mut W, reported: &[Skipped]) -> Result<(), Failed>
    ensures { OnOk result (W.written out.new ≡ and_all (W.written out.old) (flat_map skipped_line (map skipped_pair reported.now))) }
{
    for one in reported {
        write_line(out, one)?;
    }
    Ok(())
}

/// Writes such a line for a path that could not be added.
///
/// # Errors
///
/// Returns `Failed` if a write fails.
pub fn write_refused<W: Sink>(out: &mut W, refused: &Refused) -> Result<(), Failed>
    ensures { OnOk result (W.written out.new ≡ and_all (W.written out.old) (refused_line (refused_pair refused.now))) }
{
    write_path_line(out, &refused.path, refused_ending(refused.fault))
}

/// Writes the line of a path whose node was not created, or not completely: `pvsim: export: `, the path as in a
/// listing, and `write`.
///
/// # Errors
///
/// Returns `Failed` if a write fails.
pub fn write_unmade<W: Sink>(out: &mut W, path: &[u8]) -> Result<(), Failed>
    ensures { OnOk result (W.written out.new ≡ and_all (W.written out.old) (line_of_missing_node path.now)) }
{
    (
        Plain(b"pvsim: export: "),
        ListedPath(path),
        Plain(b": write\n"),
    )
        .write(out)
}
