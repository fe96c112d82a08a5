//! Programs: their comparison, and the line with their name.
//!
//! A program is a list of instructions. Two programs are the same if their numbers are equal: `program` gives the
//! numbers of a program, `instructions` those of an instruction, and `numbers` those of its parts. `naming` finds the
//! first executable file of a tree that parses as a program, in the order of a listing, and `line` appends the line with
//! its path.
#![tactic(auto)]

mod instructions;
mod line;
mod naming;
mod numbers;
mod program;

pub use line::append_program_line;
pub use program::{program_numbers, same_program};
pub use pv_answers as answers;
pub use pv_answers::calls_state;
