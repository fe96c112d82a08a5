//! The operations of `pvsim` on bundles and images, from bytes to bytes.
//!
//! `bundle` has `run_tree`, which runs a bundle, and `image` has `run`, which runs a schedule on an image; `turns`
//! starts and makes a run. Their `start_bundle`, `start_image` and `start_on` return the start of a run to callers with
//! another question, and `run_image` runs an image and a schedule in memory. `list` (`listing`) writes the listing of an
//! image's tree, `make_image` (`making`) the image of a manifest, and `write_report` (`report`) the verdicts on the files
//! of a machine. Contracts cite the tree that bytes hold (`mounted`), the tree that a manifest makes (`tree_made`), the
//! start of a run (`image_started`, `bundle_started`), the bytes that sources give and those that sinks receive.
//!
//! The contract of a function that reads sources and writes to sinks is one relation between them and its result, as
//! `RunsBundle`, `RunsImage` and `ListsImage`.
#![tactic(auto)]

pub mod bundle;
pub mod image;
pub mod listing;
pub mod making;
pub mod report;
pub mod turns;

pub use bundle::{run_tree, start_bundle};
pub use image::{run, run_image, start_image, write_image};
pub use listing::list;
pub use making::make_image;
pub use pv_listing::write_verdict;
pub use pv_session as session_crate;
pub use pv_session::{Session, audit};
pub use report::{write_found, write_report};
pub use turns::{Ready, Summary, start_on};
