//! The lines of a trace, in the format of kdump(1), byte by byte.
//!
//! `line` represents lines as values, and `steps` formats the lines of a step. They are formatted in a line buffer of
//! fixed size and written to the sink at once. `line_buffer` formats numbers, texts and bytes, `calls`
//! calls with their arguments, and `words` the line of each word. `verdicts` has the decisions about a call that a
//! trace reports, as values. No call allocates memory.
//!
//! Contracts see a line as `pv_model` defines it.
#![tactic(auto)]

mod calls;
mod line;
mod line_buffer;
mod steps;
mod verdicts;
mod words;

pub use calls::{write_call, write_call_name};
pub use line::{
    Direction, Line, PromiseVerdict, Returned, UnveilVerdict, Word, write_line, write_line_on,
};
pub use line_buffer::{LineBuffer, put, put_decimal};
pub use steps::{write_call_lines, write_first_lines, write_gone_line, write_last_line};
pub use verdicts::{reported_bytes, reported_promise, reported_table_verdict};
