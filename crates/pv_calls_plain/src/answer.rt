//! The answer of a call, and its delivery to the calling process.
ghost use Rattle.std.specs.Prelude.{◌≡◌, ◌+◌, ◌≤◌, length, IsSome, IfOk, OnErr, Some, Ok};
ghost use Rattle.pv_model.specs.declared.limits.TheConstants.{NUMBER};
ghost use Rattle.pv_model.specs.declared.outcome.Cause.TheVariants.{Plain};
ghost use Rattle.pv_model.specs.Machine.{answer_by_attempt, update, with_front, Attempt, done as done_attempt, Bytes, Effect, returns_bytes, collect, Process, State, process_at};
ghost use Rattle.pv_calls_state.specs.Attempts.{collected_attempt};
ghost use Rattle.pv_calls_plain.specs.Performed.{attempt_of, answered};
ghost use Rattle.pv_calls_plain.specs.Space.{space_errno};

use pv_calls_state::Parts;
use pv_calls_state::tree::Space;
use pv_model::limits::BUFFER;
use pv_model::{Cause, Errno, Outcome, Taken};

/// The result of a call: its outcome and the number of path walks that it began.
#[derive(Clone, Copy)]
pub struct Answer {
    /// The outcome.
    pub outcome: Outcome,
    /// The number of walks that the call began, from 0 to 2.
    pub walks: u8,
}

/// The result of a call that succeeded, before it is reported to the process.
#[derive(Clone, Copy)]
pub struct Done {
    /// The number of walks that the call began, from 0 to 2.
    pub walks: u8,
    /// The value that the call returns.
    pub value: u32,
}

/// The result of a call that was refused, before it is reported to the process.
#[derive(Clone, Copy)]
pub struct Refused {
    /// The number of walks that the call began, from 0 to 2.
    pub walks: u8,
    /// The error.
    pub errno: Errno,
    /// The cause: a promise, an unveil entry, the lock, or the call itself.
    pub cause: Cause,
}

/// Returns success with `value`.
pub fn answer_of(walks: u8, value: u32) -> Result<Done, Refused>
    ensures { result ≡ Ok (record { walks = walks; value = value }) }
{
    Ok(Done { walks, value })
}

/// Returns a refusal whose cause is the call itself.
pub fn refusal(walks: u8, errno: Errno) -> Refused
    ensures { result ≡ record { walks = walks; errno = errno; cause = Plain } }
{
    Refused {
        walks,
        errno,
        cause: Cause::Plain,
    }
}

/// Returns the error for a lack of space: `EFBIG` if a file or directory would be too long, `ENOSPC` if the image is
/// full.
pub fn space_errno(why: Space) -> Errno
    ensures { result ≡ space_errno why }
{
    match why {
        Space::TooBig => Errno::EFBIG,
        Space::Full => Errno::ENOSPC,
    }
}

/// Reports the result of a call to a live process in r0 and r1, and returns the answer.
#[inline(always)]
pub fn report(parts: &mut Parts, pid: u32, performed: Result<Done, Refused>) -> Answer
    requires live { IsSome (process_at parts.old pid) }
    requires small { IfOk performed (λ d. d.value ≤ NUMBER) }
    ensures reported { (before s : State) (me : Process) (a : Attempt Effect)
        → collected_attempt a ≡ attempt_of parts.old performed → OnErr performed (parts.old ≡ s)
        → answer_by_attempt before s pid me a ≡ answered parts.new result }
    ensures tree { parts.new.tree ≡ parts.old.tree }
{
    parts.invariant();
    match performed {
        Ok(Done { walks, value }) => {
            parts.report(pid, value as i32, 0);
            Answer {
                outcome: Outcome::Value(value),
                walks,
            }
        }
        Err(
            Refused {
                walks,
                errno,
                cause,
            },
        ) => {
            parts.report(pid, -1, errno.number());
            Answer {
                outcome: Outcome::Failed(errno, cause),
                walks,
            }
        }
    }
}

/// Reports a value to a live process, copies `bytes` to the front of its buffer, and returns the answer.
pub fn report_bytes(parts: &mut Parts, pid: u32, reported: Done, bytes: &[u8]) -> Answer
    requires live { IsSome (process_at parts.old pid) }
    requires small { reported.value ≤ NUMBER }
    requires size { length bytes.now ≤ BUFFER }
    ensures { (before s after : State) (me : Process) → collect after ≡ parts.old
        → answer_by_attempt before s pid me
        (done_attempt reported.walks (after, returns_bytes reported.value bytes.now))
        ≡ answered parts.new result }
{
    parts.invariant();
    parts.put_front(pid, bytes);
    report_front(parts, pid, reported, bytes.len())
}

/// Reports a value to a live process whose buffer already has `len` bytes of the answer at its front, and returns the
/// answer.
pub fn report_front(parts: &mut Parts, pid: u32, reported: Done, len: usize) -> Answer
    requires live { IsSome (process_at parts.old pid) }
    requires small { reported.value ≤ NUMBER }
    requires size { len ≤ BUFFER }
    ensures { (before s after : State) (me : Process) (bytes : Bytes) → len ≡ length bytes
        → collect (update after pid (with_front bytes)) ≡ parts.old
        → answer_by_attempt before s pid me
        (done_attempt reported.walks (after, returns_bytes reported.value bytes))
        ≡ answered parts.new result }
{
    parts.invariant();
    parts.report(pid, reported.value as i32, 0);
    Answer {
        outcome: Outcome::Text(Taken {
            value: reported.value,
            len: len as u16,
        }),
        walks: reported.walks,
    }
}
