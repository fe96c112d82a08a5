//! A cache of transitions, keyed by the parts of the state that a step depends on.
//!
//! `tables` has byte strings in insertion order. `cells` represents a state as a list of cells, one for each of its
//! groups, and a transition as a list of edits of cells. `steps` has the cache. The lemmas in `proofs/Keys.antt` and
//! `proofs/Again.antt` prove that a cached transition is valid for every step with the same key.
#![tactic(auto)]

pub mod cells;
pub mod steps;
pub mod tables;

pub use cells::{
    Cell, Edit, edited_cells, edits_of, has_owner, live_owners, row_of_cells, step_key,
};
pub use pv_state_encoding as state_encoding;
pub use pv_state_encoding::tree;
pub use steps::{CachedStep, CachedSteps, Recalled};
