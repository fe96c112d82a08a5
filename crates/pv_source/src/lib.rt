//! Sources: manifests and bundles with comments, free use of blanks, and labels in programs. A source is checked and
//! translated to a plain manifest or bundle.
//!
//! A source is read line by line: `words` and `lines` find the words of each line, and `blocks` groups a line with
//! those that belong to it. `programs` handles labels and instructions, and `entries` the entry of a block. `judging`
//! checks the lines of programs and of the schedule, `so_far` the lines of the manifest with the tree that they build,
//! and `whole` the whole source. `faults` collects the errors, and `explaining` writes their messages, each proved to
//! be one printable line. `warnings` finds valid lines that fail in every run. `texts` produces the translated text,
//! `located` the lines of the programs with their places, and `source` reads a source and writes the result;
//! `translation` does so in memory. `worked` states the values of the definitions on small sources.
#![tactic(auto)]

mod blocks;
mod entries;
mod explaining;
mod faults;
mod judging;
mod lines;
mod located;
mod programs;
mod so_far;
mod source;
mod texts;
mod translation;
mod warnings;
mod whole;
mod words;
mod worked;

pub use explaining::Saying;
pub use faults::{Fault, Faults, REPORTED};
pub use located::{located_lines, numbers_are_of_the_translation};
pub use source::{Output, SourceStop, write_source};
pub use texts::text_of;
pub use translation::translate;
pub use warnings::warnings_of;
pub use whole::faults_of;
pub use worked::worked_sources_are_as_they_are_written;
