//! Export of the tree of an input to a directory.
ghost use Rattle.std.specs.Prelude.{◌≡◌, Some};
ghost use Rattle.pv_cli_commands.specs.Created.{CreatesOnly};
ghost use Rattle.pv_cli_commands.specs.Directories.{ExportsInput, of_export};
ghost use Rattle.pv_cli_commands.specs.Streams.{host_of};

use crate::directories::Directories;
use pv_host_copy::{ExportFault, TargetFault, export_tree};
use pv_questions::{Failure, Input, Target, store_of};
use pv_streams::Sink;
use std::alloc::Global;

// Returns the failure of an export.
fn of_export(fault: ExportFault) -> Failure
    ensures { result ≡ of_export fault }
{
    match fault {
        ExportFault::Memory => Failure::Memory,
        ExportFault::Make => Failure::Write(Target::Node),
        ExportFault::WriteLine => Failure::Write(Target::Errors),
    }
}

// Makes the tree of an input in the directory with a name.
pub(crate) fn export_input<F: Directories, E: Sink>(
    alloc: Global,
    files: &mut F,
    input: Input,
    directory: &str,
    errors: &mut E,
) -> Result<(), Failure>
    ensures exports { ExportsInput (host_of F.entries F.targets F.target_of F.Target.made) E.Sink directory.now input errors.old errors.new result }
    ensures targets { CreatesOnly (Some directory.now) (F.targets files.old) (F.targets files.new) }
    ensures created { F.created files.new ≡ F.created files.old }
    ensures known { (F.bytes files.new ≡ F.bytes files.old) × (F.entries files.new ≡ F.entries files.old) }
{
    let store = store_of(alloc, input, true)?;
    let mut target = match files.create_directory(alloc, directory) {
        Ok(target) => target,
        Err(TargetFault::Make) => return Err(Failure::Write(Target::Directory)),
        Err(TargetFault::Memory) => return Err(Failure::Memory),
    };
    match export_tree(alloc, store.tree(), &mut target, errors) {
        Ok(()) => Ok(()),
        Err(fault) => Err(of_export(fault)),
    }
}
