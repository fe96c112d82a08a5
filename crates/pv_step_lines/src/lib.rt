//! Steps that are made with their explained lines: the lines of each call, the meaning of bytes, and the reason why a
//! promise or a table refused.
//!
//! `making` makes one step, and `before` captures the state before its call. `explained` writes the lines of a step that
//! was made. `reasons` writes why a promise or a table decided, `levels` derives the decision of a table from the place
//! upwards, and `moved` decodes bytes. `origin` has the line at which a table entry was set. Contracts cite the lines
//! that the definitions in `pv_model` give.
#![tactic(auto)]

mod before;
mod explained;
mod levels;
mod making;
mod moved;
mod origin;
mod reasons;

pub use before::Before;
pub use explained::{write_call, write_made};
pub use making::{MadeCall, MadeStep, make_call, make_register, make_step};
pub use origin::Origin;
pub use pv_answers as answers;
pub use pv_answers::{calls_state, listing, procs, script};
pub use pv_session as session;
pub use pv_session::{audit, calls_path, calls_plain};
