//! Manifests and bundles: parsing their texts, and building the tree of a manifest.
//!
//! A manifest has the sizes of an image and the entries of its tree. A bundle is a manifest, the line `schedule`, and a
//! schedule. `manifest` and `entry` define the values, and `reading` and `bundle` parse complete texts. `entry_lines`
//! parses a line with the lines that belong to it (`read_entry`), `lines` the first line and skipped lines, and `paths`
//! the paths of entries. `adding` adds an entry to a tree, and `fault` defines its errors. `building` builds the tree of
//! a manifest entry by entry, and `growing` is a tree under construction. Each parser returns exactly what the grammar of `pv_model` defines, and an error contains the number
//! of the first invalid line.
#![tactic(auto)]

mod adding;
mod building;
mod bundle;
mod entry;
mod entry_lines;
mod fault;
mod growing;
mod lines;
mod manifest;
mod paths;
mod read_entry;
mod reading;

pub use adding::add_entry;
pub use building::build;
pub use bundle::Bundle;
pub use entry::{Content, Entry};
pub use entry_lines::taken_by;
pub use fault::EntryFault;
pub use growing::Growing;
pub use lines::{are_image_sizes, sizes};
pub use manifest::Manifest;
pub use paths::{is_link_text, is_manifest_path, is_path};
pub use read_entry::ReadEntry;
