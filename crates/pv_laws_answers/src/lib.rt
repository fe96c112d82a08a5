//! Laws of the answers: the conclusions that a reader may draw from the texts of `reach`, `needs`, `explain`, `explore`
//! and `graph`.
//!
//! Each law is a function with an empty body whose contract is the statement, defined in `specs/`.
//!
//! - One state: `reach` (names, and permissions at each place), `over_time` (their changes), `levels` (decisions of a table).
//! - A run: `explained` (its text), `settings` (where entries were set), `wanted` (the lines PLDG and UNVL),
//!   `process_images`, `counts` and `begun` (the needs of a program).
//! - All schedules: `search` (states and texts), `observed` (the reports on steps), `graph` (its paths are the runs),
//!   `unread` (files that no step reads), `waits` (no deadlocks). The modules `*examples` have worked runs.
#![tactic(auto)]

pub mod begun;
pub mod counts;
pub mod examples;
pub mod explained;
pub mod graph;
pub mod levels;
pub mod observed;
pub mod over_time;
pub mod process_images;
pub mod reach;
pub mod search;
pub mod search_examples;
pub mod settings;
pub mod unread;
pub mod waits;
pub mod wanted;
