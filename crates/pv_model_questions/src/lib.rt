//! Definitions of answers that `pv_model` does not have: those that only the crates of questions cite.
//!
//! `specs/` has one module for each subject. A change of a definition here unproves the crates of questions, but none of
//! the kernel.
#![tactic(auto)]

pub mod edit_reason;
pub mod finding_kind;

pub use edit_reason::EditReason;
pub use finding_kind::FindingKind;
