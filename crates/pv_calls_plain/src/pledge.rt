//! Narrowing of promises: pledge(2).
ghost use Rattle.std.specs.Prelude.{◌≡◌, IsSome, MatchResult, Some, option_copied};
ghost use Rattle.pv_laws_states.specs.States.{IsValid};
ghost use Rattle.pv_model.specs.declared.outcome.Cause.TheVariants.{Plain};
ghost use Rattle.pv_model.specs.Machine.{give, refused, asked_promises, pledge, process_at};
ghost use Rattle.pv_promises.specs.Pledge.{bits_of};
ghost use Rattle.pv_calls_plain.specs.Performed.{IsPerformed};

use crate::answer::{Done, Refused, answer_of, refusal};
use pv_calls_state::Parts;
use pv_model::{Cause, Errno, Promises, Text};
use pv_promises::read_promises;

// Parses the promises that a text asks for, if there is a text.
fn asked(text: Option<&Text>) -> Result<Option<Promises>, Errno>
    ensures { MatchResult result
        (λ set. asked_promises (option_copied text.entry) ≡ give (bits_of set))
        (λ e. asked_promises (option_copied text.entry) ≡ refused 0 e Plain) }
{
    match text {
        None => Ok(None),
        Some(text) => Ok(Some(read_promises(text.as_slice())?)),
    }
}

/// Narrows the promises and the execpromises of a live process to the keywords of two texts, as pledge(2), and returns
/// 0.
///
/// # Errors
///
/// - `EINVAL`, if a text has an unknown keyword. The promises are checked first.
/// - `EPERM`, with the promise as its cause, if a keyword is not held and `error` is not promised.
///
/// The state is unchanged after an error.
pub fn pledge(
    parts: &mut Parts,
    pid: u32,
    promises: Option<&Text>,
    execpromises: Option<&Text>,
) -> Result<Done, Refused>
    requires whole { IsValid parts.old }
    requires live { IsSome (process_at parts.old pid) }
    ensures performed { IsPerformed
        (λ s me. pledge s pid me (option_copied promises.entry) (option_copied execpromises.entry))
        parts.old pid parts.new result }
{
    let asked_now = match asked(promises) {
        Ok(set) => set,
        Err(errno) => return Err(refusal(0, errno)),
    };
    let asked_later = match asked(execpromises) {
        Ok(set) => set,
        Err(errno) => return Err(refusal(0, errno)),
    };
    let mut pledge = parts.record(pid).pledge;
    match pledge.narrow(asked_now, asked_later) {
        Ok(()) => {
            parts.set_pledge(pid, pledge);
            parts.invariant();
            answer_of(0, 0)
        }
        Err(promise) => Err(Refused {
            walks: 0,
            errno: Errno::EPERM,
            cause: Cause::Promise(promise),
        }),
    }
}
