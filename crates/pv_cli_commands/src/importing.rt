//! Import of directories as images, with the entries of sources.
ghost use Rattle.std.specs.Prelude.{◌≡◌, map, Some};
ghost use Rattle.pv_image_manifest.specs.Entries.{entry_of_line};
ghost use Rattle.pv_cli_commands.specs.Directories.{ImportsDirectory, ImportsGiven, ImportsSource, of_import};
ghost use Rattle.pv_cli_commands.specs.Created.{CreatesOnly};
ghost use Rattle.pv_cli_commands.specs.Streams.{KeepsKnown, disk_of};

use crate::command::Import;
use crate::directories::Directories;
use crate::system::Files;
use pv_host_copy::{HostFault, ImportStop, import_image};
use pv_image_manifest::Entry;
use pv_questions::{Failure, Input, Origin, Refusal, Target, manifest_of};
use pv_streams::Sink;
use std::alloc::Global;

// Returns the failure of an import.
fn of_import(stop: ImportStop) -> Failure
    ensures { result ≡ of_import stop }
{
    match stop {
        ImportStop::Read => Failure::Read(Origin::Directory),
        ImportStop::Memory => Failure::Memory,
        ImportStop::Refused => Failure::Refused(Refusal::Entries),
        ImportStop::WriteLines => Failure::Write(Target::Errors),
        ImportStop::WriteImage => Failure::Write(Target::File),
    }
}

// Makes the image of a directory and of some entries, in a file.
fn import_entries<F: Files + Directories, E: Sink>(
    alloc: Global,
    files: &mut F,
    import: Import<'_>,
    given: &[Entry],
    errors: &mut E,
) -> Result<(), Failure>
    ensures imports { ImportsGiven (disk_of F.Files F.Reader.Source F.Writer.Sink) E.Sink (F.entries files.old) import.entry (map entry_of_line given.now) errors.old errors.new result }
    ensures created { CreatesOnly (Some import.entry.image.now) (F.created files.old) (F.created files.new) }
    ensures known { KeepsKnown F.Files files.old files.new }
{
    let directory = match files.open_directory(alloc, import.directory) {
        Ok(directory) => directory,
        Err(HostFault::Read) => return Err(Failure::Read(Origin::Directory)),
        Err(HostFault::Memory) => return Err(Failure::Memory),
    };
    let mut image = files.create(alloc, import.image)?;
    let Import { version, skips, .. } = import;
    match import_image(alloc, version, skips, directory, given, &mut image, errors) {
        Ok(()) => Ok(()),
        Err(stop) => Err(of_import(stop)),
    }
}

// Makes the image of a directory and of the entries of a manifest or bundle, in a file.
fn import_source<F: Files + Directories, E: Sink>(
    alloc: Global,
    files: &mut F,
    import: Import<'_>,
    source: Input,
    errors: &mut E,
) -> Result<(), Failure>
    ensures imports { ImportsSource (disk_of F.Files F.Reader.Source F.Writer.Sink) E.Sink (F.entries files.old) import.entry source errors.old errors.new result }
    ensures created { CreatesOnly (Some import.entry.image.now) (F.created files.old) (F.created files.new) }
    ensures known { KeepsKnown F.Files files.old files.new }
{
    let manifest = manifest_of(alloc, &source.bytes)?;
    import_entries(alloc, files, import, &manifest.entries, errors)
}

// Makes the image of a directory, and of the entries of a manifest or bundle if one is given.
pub(crate) fn import_directory<F: Files + Directories, E: Sink>(
    alloc: Global,
    files: &mut F,
    import: Import<'_>,
    source: Input,
    errors: &mut E,
) -> Result<(), Failure>
    ensures imports { ImportsDirectory (disk_of F.Files F.Reader.Source F.Writer.Sink) E.Sink (F.entries files.old) import.entry source errors.old errors.new result }
    ensures created { CreatesOnly (Some import.entry.image.now) (F.created files.old) (F.created files.new) }
    ensures known { KeepsKnown F.Files files.old files.new }
{
    match import.source {
        None => import_entries(alloc, files, import, &[], errors),
        Some(_) => import_source(alloc, files, import, source, errors),
    }
}
