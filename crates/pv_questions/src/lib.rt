//! Answers to questions about runs and trees, from bytes to bytes.
//!
//! `question` has the questions, `input` the bytes that they are about, and `failure` the one reason why a command fails,
//! with its message and its exit status. `answering` has `answer`, which writes the answer to a question, and `comparing`
//! compares two inputs. `trees` returns the tree of an input and the machines on it, `starting` the start of a run and
//! the machine after it, and `schedules` cuts a schedule and converts the turns of a witness. `file` finds the file at a
//! path, `reasons` writes verdicts with every reason, and `notes` makes the notes on an answer. `laws` states that a
//! bundle, a manifest and their image give the same answers.
//!
//! Contracts cite the answer that the bytes determine (`answer_to`, `compared_to`): a text, with the result that it
//! reports, or a refusal. `Answered` is the one relation between an answer, a sink and a result.
#![tactic(auto)]

mod answering;
mod comparing;
pub mod failure;
mod file;
pub mod input;
pub mod laws;
mod notes;
pub mod question;
mod reasons;
pub mod schedules;
mod starting;
pub mod trees;

pub use answering::answer;
pub use comparing::compare;
pub use failure::{Failure, Origin, Refusal, Target};
pub use input::{Format, Input, Inputs, Turns, is_source};
pub use laws::{
    bundles_answer_under_their_schedules, cuts_keep_first_steps, images_answer_as_their_manifests,
    images_are_no_sources, images_boot_as_manifests, manifests_are_sources, manifests_stand_alone,
    witnesses_are_read_back,
};
pub use pv_compare::explore::{Progress, Unshown};
pub use pv_policy::reduced::SearchKind;
pub use pv_run as run;
pub use question::{Files, Question};
pub use schedules::{is_turns, text_of_turns};
pub use starting::FAIR_STEPS;
pub use trees::{manifest_of, store_of};
