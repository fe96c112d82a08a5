//! Laws of the text formats: the parsing functions of `pv_model` agree with its relations between bytes and values.
//!
//! Each format is defined twice in `pv_model`: by functions, which compute, and by relations, which read like the
//! manual. The laws state that both accept the same texts with the same meaning. Each law is a function with an empty
//! body whose contract is the statement.
//!
//! - `words`: numbers, registers, operands, flags and quoted texts. `lines`: one line of a program.
//! - `programs`, `schedules`: complete texts, and the first invalid line.
//! - `manifests`: manifests and bundles, their entries, and the tree that the entries make.
//! - `sources`: the bundle or manifest that a source denotes.
#![tactic(auto)]

pub mod lines;
pub mod manifests;
pub mod programs;
pub mod schedules;
pub mod sources;
pub mod words;
