//! The promise that a call lacks.
ghost use Rattle.std.specs.Prelude.{◌≡◌, [], ◌∷◌};
ghost use Rattle.pv_model.specs.Machine.{call_of, needs, needs_of_mode, is_lenient, missing_promise};
ghost use Rattle.pv_model.specs.Needs.{needs_of_open};
ghost use Rattle.pv_model.specs.Promises.{holds};
ghost use Rattle.pv_promises.specs.Pledge.{bits_of};

use crate::order::has;
use pv_model::{CallRef, Mode, OpenFlags, Promise, Promises};

/// Returns whether the set contains `error`.
pub(crate) fn is_lenient(held: Option<Promises>) -> bool
    ensures { result ≡ is_lenient (bits_of held) }
{
    match held {
        None => false,
        Some(held) => has(held, Promise::Error),
    }
}

/// Returns whether a process has a promise. A process that is not pledged has all promises.
fn holds(held: Option<Promises>, promise: Promise) -> bool
    ensures { result ≡ holds (bits_of held) promise }
{
    match held {
        None => true,
        Some(held) => has(held, promise),
    }
}

// Returns the promise if the process does not have it.
fn missing(held: Option<Promises>, promise: Promise) -> Option<Promise>
    ensures { result ≡ missing_promise (bits_of held) ((promise ∷ []) ∷ []) }
{
    if holds(held, promise) {
        None
    } else {
        Some(promise)
    }
}

// Returns the first of two promises if the process has neither.
fn missing_both(held: Option<Promises>, first: Promise, second: Promise) -> Option<Promise>
    ensures { result ≡ missing_promise (bits_of held) ((first ∷ second ∷ []) ∷ []) }
{
    if holds(held, second) {
        None
    } else {
        missing(held, first)
    }
}

fn missing_of_mode(held: Option<Promises>, mode: Mode) -> Option<Promise>
    ensures { result ≡ missing_promise (bits_of held) (needs_of_mode mode) }
{
    match mode {
        Mode::Read => missing(held, Promise::Rpath),
        Mode::Write => missing(held, Promise::Wpath),
        Mode::ReadWrite => missing(held, Promise::Rpath).or(missing(held, Promise::Wpath)),
    }
}

fn missing_of_open(held: Option<Promises>, flags: OpenFlags) -> Option<Promise>
    ensures { result ≡ missing_promise (bits_of held) (needs_of_open flags) }
{
    let of_mode = missing_of_mode(held, flags.mode);
    if flags.create {
        of_mode.or(missing(held, Promise::Cpath))
    } else {
        of_mode
    }
}

/// Returns the first promise that a call needs and the process does not have.
#[tactic(auto, unfolding(pv_model::specs::Needs::needs))]
pub(crate) fn missing_for(held: Option<Promises>, call: CallRef<'_>) -> Option<Promise>
    ensures { result ≡ missing_promise (bits_of held) (needs (call_of call.entry)) }
{
    match call {
        CallRef::Exit(_) | CallRef::Pledge(_, _) => None,
        CallRef::Fork => missing(held, Promise::Proc),
        CallRef::Execve(_) => missing(held, Promise::Exec),
        CallRef::Unveil(_, _) => missing(held, Promise::Unveil),
        CallRef::Open(_, flags) | CallRef::OpenAt(_, _, flags) => missing_of_open(held, flags),
        CallRef::Chdir(_) => missing(held, Promise::Rpath),
        CallRef::Stat(_) | CallRef::Lstat(_) | CallRef::Readlink(_) => {
            missing_both(held, Promise::Rpath, Promise::Wpath)
        }
        CallRef::Mkdir(_)
        | CallRef::Symlink(_, _)
        | CallRef::Link(_, _)
        | CallRef::Unlink(_)
        | CallRef::Rmdir(_)
        | CallRef::Rename(_, _) => missing(held, Promise::Cpath),
        CallRef::GetPid
        | CallRef::GetPpid
        | CallRef::Wait
        | CallRef::Close(_)
        | CallRef::Dup(_)
        | CallRef::Dup2(_, _)
        | CallRef::Read(_, _)
        | CallRef::Write(_, _)
        | CallRef::Lseek(_, _, _)
        | CallRef::Fstat(_)
        | CallRef::Ftruncate(_, _)
        | CallRef::Getdents(_)
        | CallRef::Fchdir(_) => missing(held, Promise::Stdio),
    }
}
