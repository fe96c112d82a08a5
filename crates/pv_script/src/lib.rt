//! Programs and schedules: parsing their texts, and the context in which the instructions of a program run.
//!
//! Texts are parsed line by line with the word and argument parsers of `pv_text`: `instruction` parses a line of a
//! program, `program` a program, and `schedule` a schedule. The parsers return exactly what the grammar of `pv_model`
//! defines. `context` is the part of a process that its instructions change: the next line, the registers and the
//! buffer. `buffer` records how many bytes of a buffer may have been written, and `texts` is storage for the texts of a
//! call. Contracts see programs and schedules as lists.
#![tactic(auto)]

mod buffer;
pub mod context;
pub mod instruction;
pub mod program;
pub mod schedule;
pub mod texts;

pub use context::Context;
pub use program::Program;
pub use schedule::Schedule;
pub use texts::CallTexts;
