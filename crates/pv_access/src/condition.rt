//! Conditions on the outcome of a call.
ghost use Rattle.std.specs.Prelude.{◌≡◌};
ghost use Rattle.pv_access.specs.Candidates.{is_satisfied};

use pv_model::{Errno, Outcome};

/// A condition on the outcome of a call, under which the call has an access.
#[derive(Clone, Copy)]
pub(crate) enum Condition {
    /// An execve(2) found a file that is not a program.
    NoProgram,
    /// The call returned a value.
    AnyValue,
    /// The call returned a number other than 0.
    SomeCount,
    /// The call returned at least one byte.
    SomeBytes,
    /// The call returned a value or bytes.
    Success,
}

impl Condition {
    /// Returns whether an outcome satisfies the condition.
    pub(crate) fn holds(self, outcome: Outcome) -> bool
        ensures { result ≡ is_satisfied self outcome }
    {
        match (self, outcome) {
            (Condition::NoProgram, Outcome::Failed(Errno::ENOEXEC, _))
            | (Condition::AnyValue, Outcome::Value(_))
            | (Condition::Success, Outcome::Value(_) | Outcome::Text(_)) => true,
            (Condition::SomeCount, Outcome::Value(count)) => count != 0,
            (Condition::SomeBytes, Outcome::Text(taken)) => taken.len != 0,
            _ => false,
        }
    }
}
