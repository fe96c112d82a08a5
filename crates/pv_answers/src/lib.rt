//! Answers about a state, as trace lines that are written straight to a sink.
//!
//! `state` writes the state of each process: its location (`location`), its next call (`calls`), and its restraints,
//! descriptors and memory (`holding`). `reach` writes the permissions that the next call of each process has at each
//! place. The texts are built from fragments: lines and their words (`lines`), short lines that are buffered (`short`),
//! lists of numbers and bytes (`numbers`), and nodes, names and targets with their paths (`nodes`). Nothing is allocated.
//! Contracts cite the lines that the definitions in `pv_model` give.
#![tactic(auto)]

mod calls;
mod holding;
mod lines;
mod location;
mod nodes;
mod numbers;
mod reach;
mod short;
mod state;

pub use calls::{is_pledge, is_unveil};
pub use lines::{
    Letters, Line, ModeLetters, Pledged, write_front, write_mode, write_permissions, write_pledged,
    write_promises,
};
pub use nodes::{
    NameWords, NodeBrief, NodeWords, PathOf, TargetWords, has_path, write_name, write_node,
    write_path_of, write_target,
};
pub use pv_calls_state as calls_state;
pub use pv_calls_state::{files, procs, script, tree, unveil};
pub use pv_listing as listing;
pub use reach::{write_reach, write_reach_of};
pub use state::{write_locations, write_state};
