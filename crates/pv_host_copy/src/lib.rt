//! Importing a host directory as the image of a tree, and exporting the tree of an image to a host directory.
//!
//! `directory`, `entry` and `file` define the traits and types of a host directory, and `fault` the errors. For
//! imports, `importing` has the tree so far, with the first paths of its files (`first`) and the skipped entries
//! (`skipped`, with their lines in `lines`). `reading` reads the bytes of a file, `walking` descends into directories,
//! and `import` imports a directory. `given` adds the entries of a source, which replace some of the directory's
//! (`beside`), and `image` writes the image. For exports, `target` defines the trait of a directory in which a tree is created, `exporting`
//! creates the tree, and `unpacking` reports errors. `laws` states the result of an import of an export, and of a
//! directory merged with the entries of a source.
#![tactic(auto)]

mod beside;
mod directory;
mod entry;
mod exporting;
mod fault;
mod file;
mod first;
mod given;
mod image;
mod import;
mod importing;
mod laws;
mod lines;
mod reading;
mod skipped;
mod target;
mod unpacking;
mod walking;

pub use directory::HostDirectory;
pub use entry::{HostEntry, HostNode, Identity};
pub use exporting::{ExportStop, export};
pub use fault::{CopyStop, HostFault, Refused, SkipReason};
pub use file::HostFile;
pub use image::{ImportStop, import_image};
pub use import::{Imported, import_beside, import_tree};
pub use laws::{
    export_is_imported, import_needs_no_source, worked_imports_are_as_they_are_written,
};
pub use lines::{write_refused, write_skipped, write_unmade};
pub use skipped::Skipped;
pub use target::{HostTarget, TargetFault};
pub use unpacking::{ExportFault, export_tree};
