//! Tests of the text and trace crates: parsers of programs, lines and words, and formatters of traces.
//!
//! Each test module tests one crate: `text`, `script` and `trace`. `answers` has assertions, and `streams` the sinks
//! that tests write to.
#![tactic(auto)]

#[cfg(test)]
mod answers;
#[cfg(test)]
mod script;
#[cfg(test)]
mod streams;
#[cfg(test)]
mod text;
#[cfg(test)]
mod trace;
