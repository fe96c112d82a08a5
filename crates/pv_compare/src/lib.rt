//! The comparison of two images under all schedules.
//!
//! `search` visits pairs of states, one state of each image, and makes the steps of both: `pairs` stores each pair as the
//! numbers of its two states. `observer` observes the trace lines of each step, and whether it is a call of pledge(2) or
//! unveil(2). `differences` compares the texts of two steps, and `compare` writes the result.
#![tactic(auto)]

mod compare;
mod differences;
mod observer;
mod pairs;
mod search;

pub use compare::{Compared, write_compare};
pub use pv_explore as explore;
