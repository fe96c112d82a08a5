//! The commands that write an image or the output for a source.
ghost use Rattle.std.specs.Prelude.{◌≡◌, Some};
ghost use Rattle.pv_questions.specs.Failures.{failure_of_image};
ghost use Rattle.pv_cli_commands.specs.Writing.{MakesImageFile, MigratesFile, RunsFiles, WritesSource, of_migration};
ghost use Rattle.pv_cli_commands.specs.Created.{CreatesOnly};
ghost use Rattle.pv_cli_commands.specs.Streams.{KeepsKnown, disk_of};

use crate::reading::of_source;
use crate::system::Files;
use pv_image::{MigratingStop, write_migrated};
use pv_model::{ImageFault, MigrateFault};
use pv_questions::run::{make_image, run_image};
use pv_questions::{Failure, Input, Refusal, Target};
use pv_source::{Output, write_source};
use pv_streams::Sink;
use std::alloc::Global;

// Makes the image of a manifest, in the file with a name.
pub(crate) fn make_file<F: Files>(
    alloc: Global,
    files: &mut F,
    manifest: Input,
    image: &str,
) -> Result<(), Failure>
    ensures makes { MakesImageFile (disk_of F.Files F.Reader.Source F.Writer.Sink) manifest image.now result }
    ensures created { CreatesOnly (Some image.now) (F.created files.old) (F.created files.new) }
    ensures known { KeepsKnown F.Files files.old files.new }
{
    let mut image = files.create(alloc, image)?;
    Ok(make_image(alloc, &manifest.bytes, &mut image)?)
}

// Runs a schedule on an image, and writes the image after the run to the file with a name.
pub(crate) fn run_files<F: Files, W: Sink>(
    alloc: Global,
    files: &mut F,
    image: Input,
    schedule: Input,
    out: &str,
    trace: &mut W,
) -> Result<(), Failure>
    ensures runs { RunsFiles (disk_of F.Files F.Reader.Source F.Writer.Sink) W.Sink image schedule out.now trace.old trace.new result }
    ensures created { CreatesOnly (Some out.now) (F.created files.old) (F.created files.new) }
    ensures known { KeepsKnown F.Files files.old files.new }
{
    let mut out = files.create(alloc, out)?;
    run_image(alloc, image.bytes, &schedule.bytes, trace, &mut out)?;
    Ok(())
}

// Returns the failure of a migration.
fn of_migration(stop: MigratingStop) -> Failure
    ensures { result ≡ of_migration stop }
{
    match stop {
        MigratingStop::Write => Failure::Write(Target::File),
        MigratingStop::Refused(MigrateFault::Small) => Failure::Refused(Refusal::Small),
        MigratingStop::Refused(MigrateFault::Memory) => Failure::Memory,
        MigratingStop::Refused(MigrateFault::Image(fault)) => of_old_image(fault),
    }
}

// Returns the failure of an image that is not migrated.
fn of_old_image(fault: ImageFault) -> Failure
    ensures { result ≡ failure_of_image fault }
{
    Failure::from(fault)
}

// Makes an image of version 2 from an image of version 1, in the file with a name.
pub(crate) fn migrate_file<F: Files>(
    alloc: Global,
    files: &mut F,
    image: Input,
    out: &str,
    blocks: u32,
    inodes: u32,
) -> Result<(), Failure>
    ensures migrates { MigratesFile (disk_of F.Files F.Reader.Source F.Writer.Sink) image out.now blocks inodes result }
    ensures created { CreatesOnly (Some out.now) (F.created files.old) (F.created files.new) }
    ensures known { KeepsKnown F.Files files.old files.new }
{
    let mut out = files.create(alloc, out)?;
    match write_migrated(alloc, image.bytes, blocks, inodes, &mut out) {
        Ok(()) => Ok(()),
        Err(stop) => Err(of_migration(stop)),
    }
}

// Writes the output for a source, or reports its lines in error under a name.
pub(crate) fn write_output<W: Sink, E: Sink>(
    alloc: Global,
    kind: Output,
    name: &str,
    source: Input,
    out: &mut W,
    errors: &mut E,
) -> Result<(), Failure>
    ensures { WritesSource W.Sink E.Sink kind name.now source out.old out.new errors.old errors.new result }
{
    match write_source(alloc, kind, name.as_bytes(), &source.bytes, out, errors) {
        Ok(()) => Ok(()),
        Err(stop) => Err(of_source(stop, Target::Output)),
    }
}
