//! Laws of the answers over every schedule: the conclusions that a reader may draw from the texts of `compare`,
//! `access`, `exposure` and `policy`.
//!
//! Each law is a function with an empty body whose contract is the statement, defined in `specs/`.
//!
//! - `compare`: two images with the same programs.
//! - `access`: the accesses of each process, and the files that no step reads.
//! - `exposure`: the lines of a program at which a process is not closed to a file.
//! - `about_files`: `exposure` about given files.
//! - `policy`: the promises and permissions that a program needs; `granted_policy`: those that its granted calls need.
//! - `reasons`: the reasons why a process is not closed to a file.
//! - `reduced_access`, `reduced_exposure`, `reduced_policy`: the same by the reduced search.
//! - `reduced_runs`: worked runs of the texts by the reduced search.
#![tactic(auto)]

pub mod about_files;
pub mod access;
pub mod compare;
pub mod exposure;
pub mod granted_policy;
pub mod policy;
pub mod reasons;
pub mod reduced_access;
pub mod reduced_exposure;
pub mod reduced_policy;
pub mod reduced_runs;
