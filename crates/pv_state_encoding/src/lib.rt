//! The canonical encoding of a state as bytes: two states are equal if and only if their encodings are equal.
//!
//! `states` encodes a state as groups of parts (`parts`). A part that many states share, such as a program, is then
//! stored once. `encoded` pairs the group of each process with its owner and its outside view (`outsides`), the part of
//! the process on which the steps of other processes depend. `processes`, `instructions`, `files` and `trees` encode
//! parts. `numbers` encodes numbers, in one byte each if they are below 128.
#![tactic(auto)]

mod encoded;
mod files;
mod instructions;
mod numbers;
mod outsides;
mod parts;
mod processes;
mod states;
mod trees;

pub use encoded::{EncodedGroup, encoded_process};
pub use files::push_file;
pub use numbers::{push_bool, push_items, push_number};
pub use processes::{
    count, group_ended, part_of_program, push_promises, push_registers, push_table,
};
pub use pv_answers as answers;
pub use pv_answers::{calls_state, procs};
pub use pv_image_write::tree;
pub use states::{encoded_counts, encoded_state, encoded_trees, state_groups};
pub use trees::{group_of_nodes, part_of_sizes, push_tree};
