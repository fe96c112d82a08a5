//! Exporting a tree to a host directory.
ghost use Rattle.std.specs.Prelude.{◌≡◌, Err};
ghost use Rattle.pv_model.specs.Machine.{Rose};
ghost use Rattle.pv_host_copy.specs.Encoded.{encoded_entries};
ghost use Rattle.pv_host_copy.specs.Unpacked.{WritesExport, ReportsUnmade};

use crate::exporting::{ExportStop, export};
use crate::lines::write_unmade;
use crate::target::HostTarget;
use pv_streams::{Gathered, Sink, write_through};
use pv_tree::Tree;
use std::alloc::Global;

/// Why a tree was not exported, or not completely.
#[derive(Clone, Copy, Debug)]
pub enum ExportFault {
    /// Memory cannot be allocated.
    Memory,
    /// A node of the tree was not created, or not completely. It was reported.
    Make,
    /// A write of the report of a node that was not created failed.
    WriteLine,
}

// Reports the path of a node that was not created.
fn report_unmade<E: Sink>(alloc: Global, path: &[u8], errors: &mut E) -> ExportFault
    ensures reports { ReportsUnmade path.now (E.written errors.old) result (E.written errors.new) }
    ensures failed { result ≡ ExportFault.WriteLine → Rose (E.failures errors.old) (E.failures errors.new) }
{
    let mut line = Gathered::new(alloc);
    let Ok(()) = write_unmade(&mut line, path) else {
        return ExportFault::Memory;
    };
    match write_through(errors, &line.bytes) {
        Ok(()) => ExportFault::Make,
        Err(_) => ExportFault::WriteLine,
    }
}

/// Creates the tree of an image in an empty host directory, as `export` does. If a node is not created, its path is
/// reported in a line.
///
/// # Errors
///
/// - `Memory`: memory cannot be allocated. The nodes before some path were created, and nothing was reported.
/// - `Make`: a node was not created, or not completely, which was reported. All nodes before it were created.
/// - `WriteLine`: a node was not created, or not completely, and a write to `errors` failed. `errors` has received a
///   prefix of the line.
pub fn export_tree<T: HostTarget, E: Sink>(
    alloc: Global,
    tree: &Tree,
    target: &mut T,
    errors: &mut E,
) -> Result<(), ExportFault>
    ensures exports { WritesExport (encoded_entries tree.now.tree) (T.made target.old) (T.made target.new) (E.written errors.old) result (E.written errors.new) }
    ensures failed { result ≡ Err ExportFault.WriteLine → Rose (E.failures errors.old) (E.failures errors.new) }
{
    match export(alloc, tree, target) {
        Ok(()) => Ok(()),
        Err(ExportStop::Make(path)) => Err(report_unmade(alloc, &path, errors)),
        Err(ExportStop::Memory) => Err(ExportFault::Memory),
    }
}
