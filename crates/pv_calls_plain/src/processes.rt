//! Process numbers, children and exit: getpid(2), getppid(2), fork(2), wait(2), exit(3).
ghost use Rattle.std.specs.Prelude.{◌≡◌, ◌≢◌, ◌↔◌, IsSome, IsTrue, MatchResult, Ok, Err, Some};
ghost use Rattle.pv_laws_states.specs.States.{IsValid};
ghost use Rattle.pv_model.specs.declared.outcome.Cause.TheVariants.{Plain};
ghost use Rattle.pv_model.specs.Machine.{give, fork, wait, waits, Process, process_at};
ghost use Rattle.pv_model.specs.Calls.Processes.{exit_status, getpid, getppid};
ghost use Rattle.pv_calls_plain.specs.Performed.{IsAnswered, IsPerformed};

use crate::answer::{Answer, Done, Refused, answer_of, refusal, report, report_bytes};
use crate::status::four_bytes;
use pv_calls_state::Parts;
use pv_calls_state::procs::Reap;
use pv_model::Errno;

/// Converts the result of a call that walks no path.
pub(crate) fn plain(performed: Result<u32, Errno>) -> Result<Done, Refused>
    ensures { MatchResult performed (λ value. result ≡ Ok (record { walks = 0; value = value }))
        (λ errno. result ≡ Err (record { walks = 0; errno = errno; cause = Plain })) }
{
    match performed {
        Ok(value) => answer_of(0, value),
        Err(errno) => Err(refusal(0, errno)),
    }
}

/// Returns the status that exit(3) leaves: 256 times the low byte of the code.
pub fn exit_status(code: i32) -> u32
    ensures { result ≡ exit_status code }
{
    code.rem_euclid(256) as u32 * 256
}

/// Returns the number of a live process, as getpid(2).
pub fn getpid(parts: &Parts, pid: u32) -> Result<Done, Refused>
    requires whole { IsValid parts.now }
    requires live { IsSome (process_at parts.now pid) }
    ensures performed { IsPerformed (λ s me. getpid s pid me) parts.now pid parts.now result }
{
    parts.invariant();
    answer_of(0, pid)
}

/// Returns the number of a live process's parent, as getppid(2), or 0 if it has none.
pub fn getppid(parts: &Parts, pid: u32) -> Result<Done, Refused>
    requires whole { IsValid parts.now }
    requires live { IsSome (process_at parts.now pid) }
    ensures performed { IsPerformed (λ s me. getppid s pid me) parts.now pid parts.now result }
{
    parts.invariant();
    answer_of(0, parts.processes().parent_of(pid).unwrap_or(0))
}

/// Makes a child of a live process, as fork(2), and returns its number.
///
/// # Errors
///
/// `EAGAIN`, if there are 32 processes, live or ended and not yet waited for, or if the last number given was 99,999.
/// The state is then unchanged.
pub fn fork(parts: &mut Parts, pid: u32) -> Result<Done, Refused>
    requires whole { IsValid parts.old }
    requires live { IsSome (process_at parts.old pid) }
    ensures performed { IsPerformed (λ s me. fork s pid me) parts.old pid parts.new result }
{
    plain(parts.fork(pid))
}

/// Returns whether wait(2) would block a live process: it has children, and all of them are live.
pub fn would_wait(parts: &Parts, pid: u32) -> bool
    requires live { IsSome (process_at parts.now pid) }
    ensures { (me : Process) → process_at parts.now pid ≡ Some me
        → IsTrue result ↔ (wait parts.now pid me ≡ give (parts.now, waits)) }
{
    parts.processes().waits(pid)
}

/// Waits for an ended child, as wait(2). The ended child with the lowest number is removed, its number is the answer,
/// and the four bytes of its status are stored at the start of the buffer. The caller must first check that `would_wait` is
/// false.
///
/// The call is refused with `ECHILD` if the process has no children.
pub fn wait(parts: &mut Parts, pid: u32) -> Answer
    requires whole { IsValid parts.old }
    requires live { IsSome (process_at parts.old pid) }
    requires continues { (me : Process) → process_at parts.old pid ≡ Some me
        → wait parts.old pid me ≢ give (parts.old, waits) }
    ensures performed { IsAnswered (λ s me. wait s pid me) parts.old pid parts.new result }
{
    match parts.reap(pid) {
        Reap::Child(number, status) => {
            let reported = Done {
                walks: 0,
                value: number,
            };
            report_bytes(parts, pid, reported, &four_bytes(status))
        }
        Reap::NoChild => report(parts, pid, Err(refusal(0, Errno::ECHILD))),
        Reap::Blocked => unreachable!(),
    }
}
