//! Exhaustive search of all schedules, and the state graph.
//!
//! `first_machine` has a machine before its first step, which can be rebuilt; `position` has a machine at the end of a
//! schedule, and `checkpoints` keeps machines along the schedule that was followed last. `search` visits the states:
//! `states` stores each as a row of indices into tables of its parts, and `witnesses` stores the schedule that leads to
//! each. A step whose transition is in the cache is not made. Any other step is made on a copy of a checkpoint.
//!
//! `observer` has the trait of the observations of steps, and `searched` the search with an observer: each text
//! observed is written with a witness. `explore` observes the trace lines of each step, and `graph` writes each state
//! with its transitions. `visited` gives the visited states one at a time, and `side` the states of one machine for a
//! search of pairs. `witness` writes a schedule, `numbers` sorts numbers, `unheard` is a sink that discards, and
//! `progress` is the trait for progress reports. `specs/Plan` specifies the search, and `proofs/Planned` proves that it
//! visits the states and writes the texts of the definitions.
#![tactic(auto)]

mod after;
mod checkpoints;
mod explore;
mod first_machine;
mod graph;
mod numbers;
mod observer;
mod position;
mod progress;
mod search;
mod searched;
mod side;
mod states;
mod unheard;
mod visited;
mod witness;
mod witnesses;

pub use checkpoints::Checkpoints;
pub use explore::{completeness, write_endings, write_explore, write_states};
pub use first_machine::FirstMachine;
pub use graph::write_graph;
pub use numbers::{ascending, greatest};
pub use observer::{Observer, TraceLines, Unobserved};
pub use position::{ObservedStep, Position};
pub use progress::{Progress, Unshown};
pub use pv_step_cache as step_cache;
pub use pv_step_cache::state_encoding;
pub use pv_step_lines::{answers, audit, calls_path, calls_plain, session};
pub use search::{add_ending, first_endings, report};
pub use searched::{Searched, search_observed};
pub use side::{Side, SideStep};
pub use states::learn_row;
pub use unheard::Unheard;
pub use visited::{SearchedStates, VisitedState};
pub use witness::{Count, Witness, write_by};
pub use witnesses::Witnesses;
