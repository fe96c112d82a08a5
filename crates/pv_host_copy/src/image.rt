//! Writing the image of a host directory and the entries of a source.
ghost use Rattle.std.specs.Prelude.{◌≡◌, map, Err, OnOk};
ghost use Rattle.pv_model.specs.Machine.{Rose};
ghost use Rattle.pv_image_manifest.specs.Entries.{entry_of_line};
ghost use Rattle.pv_image_write.specs.Written.{WritesTree};
ghost use Rattle.pv_host_copy.specs.Firsts.{skipped_pair};
ghost use Rattle.pv_host_copy.specs.Written.{Imports, ReportsPairs, ReportsStop};
ghost use Rattle.pv_host_copy.specs.declared.fault.CopyStop.TheVariants.{Entry as EntryStop};

use crate::directory::HostDirectory;
use crate::fault::{CopyStop, Refused};
use crate::import::{Imported, import_beside};
use crate::lines::{write_refused, write_skipped};
use crate::skipped::Skipped;
use pv_image_manifest::Entry;
use pv_image_write::{WriteFault, write_tree};
use pv_model::Version;
use pv_streams::{Gathered, Sink, write_through};
use pv_tree::Store;
use std::alloc::Global;

/// Why no image of a host directory was written, or not completely.
#[derive(Clone, Copy, Debug)]
pub enum ImportStop {
    /// A part of the directory cannot be read.
    Read,
    /// Memory cannot be allocated.
    Memory,
    /// An entry was skipped, which `skips` did not allow, or an entry could not be added. It was reported.
    Refused,
    /// A write of the report of skipped entries, or of the entry that could not be added, failed.
    WriteLines,
    /// The image was not written. The sink has received a prefix of it.
    WriteImage,
}

// Writes the image of a tree.
fn write_store<W: Sink>(alloc: Global, store: &Store, image: &mut W) -> Result<(), WriteFault>
    ensures { WritesTree W.Sink store.now image.old image.new result }
{
    store.invariant();
    write_tree(alloc, store.tree(), image)
}

// Reports the skipped entries. Fails if there are some and `skips` is false.
fn report_left_out<E: Sink>(
    alloc: Global,
    reported: &[Skipped],
    skips: bool,
    errors: &mut E,
) -> Result<(), ImportStop>
    ensures reports { ReportsPairs (map skipped_pair reported.now) skips (E.written errors.old) result (E.written errors.new) }
    ensures failed { result ≡ Err ImportStop.WriteLines → Rose (E.failures errors.old) (E.failures errors.new) }
{
    let mut lines = Gathered::new(alloc);
    let Ok(()) = write_skipped(&mut lines, reported) else {
        return Err(ImportStop::Memory);
    };
    let Ok(()) = write_through(errors, &lines.bytes) else {
        return Err(ImportStop::WriteLines);
    };
    if !skips && !reported.is_empty() {
        return Err(ImportStop::Refused);
    }
    Ok(())
}

// Reports a path that could not be added.
fn report_refused<E: Sink>(alloc: Global, refused: &Refused, errors: &mut E) -> ImportStop
    ensures reports { ReportsStop (EntryStop refused.now) (E.written errors.old) result (E.written errors.new) }
    ensures failed { result ≡ ImportStop.WriteLines → Rose (E.failures errors.old) (E.failures errors.new) }
{
    let mut lines = Gathered::new(alloc);
    let Ok(()) = write_refused(&mut lines, refused) else {
        return ImportStop::Memory;
    };
    match write_through(errors, &lines.bytes) {
        Ok(()) => ImportStop::Refused,
        Err(_) => ImportStop::WriteLines,
    }
}

// Reports why a directory was not copied, if the reason requires a line.
fn report_stop<E: Sink>(alloc: Global, stop: &CopyStop, errors: &mut E) -> ImportStop
    ensures reports { ReportsStop stop.now (E.written errors.old) result (E.written errors.new) }
    ensures failed { result ≡ ImportStop.WriteLines → Rose (E.failures errors.old) (E.failures errors.new) }
{
    match stop {
        CopyStop::Read => ImportStop::Read,
        CopyStop::Memory => ImportStop::Memory,
        CopyStop::Entry(refused) => report_refused(alloc, refused, errors),
    }
}

/// Writes the image of a host directory and of the entries of a source, which may be none: that of the tree that
/// `import_beside` builds. Each skipped entry is reported in a line on `errors`. If `skips` is false, no entry may be
/// skipped.
///
/// # Errors
///
/// - `Read`: a part of the directory cannot be read.
/// - `Memory`: memory cannot be allocated.
/// - `Refused`: entries were skipped although `skips` is false, and each was reported; or a path could not be added to
///   the tree of the paths before it, which was reported.
/// - `WriteLines`: a write to `errors` failed. It has received a prefix of the lines.
/// - `WriteImage`: a write to `image` failed. It has received a prefix of the image.
///
/// For all errors except the last, nothing was written to `image`.
pub fn import_image<D: HostDirectory, W: Sink, E: Sink>(
    alloc: Global,
    version: Version,
    skips: bool,
    directory: D,
    given: &[Entry],
    image: &mut W,
    errors: &mut E,
) -> Result<(), ImportStop>
    ensures imports { Imports version (map entry_of_line given.now) skips (D.rest directory) result (W.written image.old) (W.written image.new) (E.written errors.old) (E.written errors.new) }
    ensures write_lines { result ≡ Err ImportStop.WriteLines → Rose (E.failures errors.old) (E.failures errors.new) }
    ensures write_image { result ≡ Err ImportStop.WriteImage → Rose (W.failures image.old) (W.failures image.new) }
    ensures flushed { OnOk result (W.buffered image.new ≡ 0) }
{
    let Imported { store, reported } = match import_beside(alloc, version, directory, given) {
        Ok(imported) => imported,
        Err(stop) => return Err(report_stop(alloc, &stop, errors)),
    };
    report_left_out(alloc, &reported, skips, errors)?;
    match write_store(alloc, &store, image) {
        Ok(()) => Ok(()),
        Err(WriteFault::Memory) => Err(ImportStop::Memory),
        Err(WriteFault::Write) => Err(ImportStop::WriteImage),
    }
}
