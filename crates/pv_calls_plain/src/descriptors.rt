//! Descriptors: close(2), dup(2), fchdir(2).
ghost use Rattle.std.specs.Prelude.{◌≡◌, IfSome, IsSome, MatchOption, None, Some};
ghost use Rattle.pv_laws_states.specs.States.{IsValid};
ghost use Rattle.pv_model.specs.Machine.{close, dup, dup2, fchdir, open_file, at_number, Process, process_at};
ghost use Rattle.pv_calls_plain.specs.Performed.{IsOn, IsPerformed};

use crate::answer::{Done, Refused, answer_of, refusal};
use crate::processes::plain;
use pv_calls_state::Parts;
use pv_model::Errno;

/// Returns the number of the open file of a live process's descriptor, or `None` if the descriptor is not open.
pub fn open_file(parts: &Parts, pid: u32, d: i32) -> Option<usize>
    requires whole { IsValid parts.now }
    requires live { IsSome (process_at parts.now pid) }
    ensures opened { IfSome result (λ k. IsSome (at_number parts.now.files k)) }
    ensures file { (me : Process) → process_at parts.now pid ≡ Some me
        → MatchOption result (open_file parts.now me d ≡ None) (λ k. IsOn parts.now me d k) }
{
    parts.record(pid).descriptors.at(d).ok()
}

/// Closes a descriptor of a live process, as close(2), and returns 0.
///
/// # Errors
///
/// `EBADF`, if the descriptor is not open. The state is then unchanged.
pub fn close(parts: &mut Parts, pid: u32, d: i32) -> Result<Done, Refused>
    requires whole { IsValid parts.old }
    requires live { IsSome (process_at parts.old pid) }
    ensures performed { IsPerformed (λ s me. close s pid me d) parts.old pid parts.new result }
{
    plain(parts.close(pid, d))
}

/// Duplicates a descriptor onto the lowest free number, as dup(2), and returns that number.
///
/// # Errors
///
/// - `EBADF`, if the descriptor is not open.
/// - `EMFILE`, if no number is free.
///
/// The state is unchanged after an error.
pub fn dup(parts: &mut Parts, pid: u32, d: i32) -> Result<Done, Refused>
    requires whole { IsValid parts.old }
    requires live { IsSome (process_at parts.old pid) }
    ensures performed { IsPerformed (λ s me. dup s pid me d) parts.old pid parts.new result }
{
    plain(parts.dup(pid, d))
}

/// Duplicates descriptor `d` onto number `e`, as dup2(2), and returns `e`.
///
/// # Errors
///
/// `EBADF`, if `d` is not open or `e` is not from 0 to 15. The state is then unchanged.
pub fn dup2(parts: &mut Parts, pid: u32, d: i32, e: i32) -> Result<Done, Refused>
    requires whole { IsValid parts.old }
    requires live { IsSome (process_at parts.old pid) }
    ensures performed { IsPerformed (λ s me. dup2 s pid me d e) parts.old pid parts.new result }
{
    plain(parts.dup2(pid, d, e))
}

/// Makes the directory of a descriptor the working directory, as fchdir(2), and returns 0.
///
/// # Errors
///
/// - `EBADF`, if the descriptor is not open.
/// - `ENOTDIR`, if the descriptor does not refer to a directory.
///
/// The state is unchanged after an error.
pub fn fchdir(parts: &mut Parts, pid: u32, d: i32) -> Result<Done, Refused>
    requires whole { IsValid parts.old }
    requires live { IsSome (process_at parts.old pid) }
    ensures performed { IsPerformed (λ s me. fchdir s pid me d) parts.old pid parts.new result }
{
    let Some(file) = open_file(parts, pid, d) else {
        return Err(refusal(0, Errno::EBADF));
    };
    let node = parts.files().node(file);
    if !parts.tree().is_directory(node) {
        return Err(refusal(0, Errno::ENOTDIR));
    }
    parts.set_directory(pid, node);
    answer_of(0, 0)
}
