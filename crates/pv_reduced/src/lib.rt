//! A search of all schedules that visits fewer states, and the answer of `explore` by it.
//!
//! It identifies states that are equal up to the numbers of open files and for dead variables, and after a step of a
//! process on registers, the next step is of the same process. `liveness` computes which variables of a program are live
//! at each line, `live_tables` stores this for each program, `order` numbers the open files in the order of their first
//! reference, and `parts` encodes the representative of a state. `part_lists` is a table of such encodings, `search`
//! visits the states in breadth-first order, `searched` has the search with an observer and the states that it visits,
//! `explore` writes the answer, and `kind` has the choice between this search and that of `pv_explore`.
//!
//! `specs/Plan` specifies the search, and `proofs/Planned` proves that it visits the states and writes the texts of the
//! definitions in `pv_laws_classes`. Unlike the search of `pv_explore`, it has no cache of transitions.
#![tactic(auto)]

mod explore;
mod kind;
mod live_tables;
mod liveness;
mod order;
mod part_lists;
mod parts;
mod search;
mod searched;

pub use kind::SearchKind;
pub use pv_explore as explore_crate;
pub use pv_explore::{audit, calls_path, calls_plain, session};
pub use pv_state_encoding::{answers, calls_state, procs};
