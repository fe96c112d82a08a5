//! Laws of single steps: the part of a state on which a step depends, the steps that commute, and the changes in a
//! larger image.
//!
//! Steps of two processes commute if, in either order, each has the same outcome and lines and the final state is the
//! same. Each law is a function with an empty body whose contract is the statement, defined in `specs/`.
//!
//! - Dependence: `seen`, `beside` (other processes), `offsets` (open files), `tableless` (unveil tables).
//! - Commuting steps: `commuting`, and by calls `asking`, `offsets`, `writes`, `growing`, `holding`, `entries`.
//! - Larger images: `larger_room`, `larger_runs`, `larger_images`. A larger image is of version 2 and has at least five
//!   times the data blocks and at least the inodes.
//! - `*examples`: worked runs and counterexamples.
#![tactic(auto)]

pub mod asking;
pub mod beside;
pub mod commute_examples;
pub mod commuting;
pub mod entries;
pub mod examples;
pub mod growing;
pub mod holding;
pub mod larger_examples;
pub mod larger_images;
pub mod larger_room;
pub mod larger_runs;
pub mod offsets;
pub mod seen;
pub mod tableless;
pub mod writes;
