//! The message of an error: the text that was found, and the expected text.
//!
//! The message of a line explains its leftmost error. `saying` formats bytes, `texts` and `words` explain an argument,
//! `instructions` a line of a program, and `entries` a line of a manifest. The contracts state that a message is one
//! line of printable bytes. They do not state its words.
mod entries;
mod instructions;
mod nearest;
mod saying;
mod texts;
mod words;

pub use entries::{line, no_image, turn};
pub use instructions::{instruction, second_label, taken_instruction, unknown_word};
pub use saying::Saying;
