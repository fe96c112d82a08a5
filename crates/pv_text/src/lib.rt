//! Parsers for the texts of programs, schedules and manifests: lines, words and arguments.
//!
//! `lines` splits a text into lines, and a line into its first word and the rest. `words` parses an argument that is
//! one word, `texts` one in quotation marks, and `arguments` all arguments of a line. `components` splits a path. Each
//! parser returns exactly what the grammar of `pv_model` defines. If the bytes do not have the form, it returns `None`.
//! Nothing allocates memory.
#![tactic(auto)]

pub mod arguments;
pub mod components;
pub mod lines;
pub mod texts;
pub mod words;
