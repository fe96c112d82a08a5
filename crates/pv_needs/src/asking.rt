//! The demands of a call on its sandbox: the promises that it needs, and its walks that are checked against the table.
ghost use Rattle.std.specs.Prelude.{◌≡◌, IfOk, IsSome, OnOk, Some};
ghost use Rattle.std.specs.List.{list_any};
ghost use Rattle.pv_needs.specs.Asking.{either_need, ends_before, has_need, judged_begun, promises_of, promises_of_open};
ghost use Rattle.pv_laws_states.specs.States.{IsValid};
ghost use Rattle.pv_model.specs.Machine.{promises_needed as needed_by_definition, call_of, walk_of, Process, process_at};
ghost use Rattle.pv_model.specs.Answers.Needs.{begins_program as begins_by_definition};
ghost use Rattle.pv_model.specs.Answers.Policy.{same_need};
ghost use Rattle.pv_model.specs.Needs.{needs_of_open};

use crate::process_images::{JudgedWalk, JudgedWalks};
use crate::wording::{TargetText, TargetTexts};
use pv_answers::calls_state::Parts;
use pv_answers::is_unveil;
use pv_model::{CallRef, Mode, OpenFlags, Outcome, Promise, Walk, Walks};
use pv_session::calls_path::ends::end_of;
use pv_session::calls_path::unveil::target_of;
use std::alloc::AllocError;

// Returns the promises that an open needs.
fn needed_to_open(flags: OpenFlags) -> &'static [Promise]
    ensures { result.now ≡ promises_of_open flags }
{
    match (flags.mode, flags.create) {
        (Mode::Read, false) => &[Promise::Rpath],
        (Mode::Read, true) => &[Promise::Rpath, Promise::Cpath],
        (Mode::Write, false) => &[Promise::Wpath],
        (Mode::Write, true) => &[Promise::Wpath, Promise::Cpath],
        (Mode::ReadWrite, false) => &[Promise::Rpath, Promise::Wpath],
        (Mode::ReadWrite, true) => &[Promise::Rpath, Promise::Wpath, Promise::Cpath],
    }
}

/// Returns the promises that a call needs, or the two of which it needs either.
#[tactic(auto, unfolding(pv_model::specs::Needs::needs))]
pub fn promises_of(call: CallRef<'_>) -> &'static [Promise]
    ensures { result.now ≡ promises_of (call_of call.entry) }
{
    match call {
        CallRef::Exit(_) | CallRef::Pledge(_, _) => &[],
        CallRef::Fork => &[Promise::Proc],
        CallRef::Execve(_) => &[Promise::Exec],
        CallRef::Unveil(_, _) => &[Promise::Unveil],
        CallRef::Open(_, flags) | CallRef::OpenAt(_, _, flags) => needed_to_open(flags),
        CallRef::Chdir(_) => &[Promise::Rpath],
        CallRef::Stat(_) | CallRef::Lstat(_) | CallRef::Readlink(_) => {
            &[Promise::Rpath, Promise::Wpath]
        }
        CallRef::Mkdir(_)
        | CallRef::Symlink(_, _)
        | CallRef::Link(_, _)
        | CallRef::Unlink(_)
        | CallRef::Rmdir(_)
        | CallRef::Rename(_, _) => &[Promise::Cpath],
        CallRef::GetPid
        | CallRef::GetPpid
        | CallRef::Wait
        | CallRef::Close(_)
        | CallRef::Dup(_)
        | CallRef::Dup2(_, _)
        | CallRef::Read(_, _)
        | CallRef::Write(_, _)
        | CallRef::Lseek(_, _, _)
        | CallRef::Fstat(_)
        | CallRef::Ftruncate(_, _)
        | CallRef::Getdents(_)
        | CallRef::Fchdir(_) => &[Promise::Stdio],
    }
}

// Returns whether an open needs either of rpath and wpath: it never does.
fn open_needs_either(flags: OpenFlags) -> bool
    ensures { result ≡ list_any (same_need either_need) (needs_of_open flags) }
{
    match (flags.mode, flags.create) {
        (Mode::Read, false) => false,
        (Mode::Read, true) => false,
        (Mode::Write, false) => false,
        (Mode::Write, true) => false,
        (Mode::ReadWrite, false) => false,
        (Mode::ReadWrite, true) => false,
    }
}

/// Returns whether a call needs either of rpath and wpath.
#[tactic(auto, unfolding(pv_model::specs::Needs::needs))]
pub fn needs_either(call: CallRef<'_>) -> bool
    ensures { result ≡ has_need either_need (call_of call.entry) }
{
    match call {
        CallRef::Open(_, flags) | CallRef::OpenAt(_, _, flags) => open_needs_either(flags),
        CallRef::Stat(_) | CallRef::Lstat(_) | CallRef::Readlink(_) => true,
        _ => false,
    }
}

/// Returns the promises that a call needs. If either of two promises is enough, the first is returned.
pub(crate) fn promises_needed(call: CallRef<'_>) -> &'static [Promise]
    ensures { result.now ≡ needed_by_definition (call_of call.entry) }
{
    if needs_either(call) {
        &[Promise::Rpath]
    } else {
        promises_of(call)
    }
}

/// Returns whether a call with this outcome has loaded a program.
pub(crate) fn begins_program(call: CallRef<'_>, outcome: Outcome) -> bool
    ensures { result ≡ begins_by_definition (call_of call.entry) outcome }
{
    match (call, outcome) {
        (CallRef::Execve(_), Outcome::Value(_)) => true,
        _ => false,
    }
}

// Returns the demand of a walk in the current state, or `None` if the walk fails or cannot start.
fn judged<'a>(
    text: &'a mut TargetText,
    parts: &Parts,
    pid: u32,
    walk: Walk<'_>,
) -> Result<Option<JudgedWalk<'a>>, AllocError>
    requires whole { IsValid parts.now }
    requires live { IsSome (process_at parts.now pid) }
    ensures { IfOk result (λ found. (me : Process) → process_at parts.now pid ≡ Some me → found ≡ judged_begun parts.now pid me (walk_of walk.entry)) }
{
    let Some(place) = end_of(parts, pid, walk) else {
        return Ok(None);
    };
    text.put(parts.tree(), target_of(parts.tree(), place))?;
    Ok(Some(text.walk(walk.needed)))
}

/// Returns the demands of the walks of a live process's call, in the state before it. The walk of an unveil(2) is not
/// checked. The targets are written in words to `texts`.
///
/// # Errors
///
/// `AllocError`, if there is no memory for the words.
pub(crate) fn judged_walks<'a>(
    texts: &'a mut TargetTexts,
    parts: &Parts,
    pid: u32,
    call: CallRef<'_>,
) -> Result<JudgedWalks<'a>, AllocError>
    requires whole { IsValid parts.now }
    requires live { IsSome (process_at parts.now pid) }
    ensures { IfOk result (λ walks. (me : Process) → process_at parts.now pid ≡ Some me → walks ≡ ends_before parts.now pid me (call_of call.entry)) }
{
    if is_unveil(call) {
        return Ok(JudgedWalks::none());
    }
    match call.walks() {
        Walks::Zero => Ok(JudgedWalks::none()),
        Walks::One(walk) => Ok(JudgedWalks {
            first: judged(&mut texts.first, parts, pid, walk)?,
            second: None,
        }),
        Walks::Two(first, second) => Ok(JudgedWalks {
            first: judged(&mut texts.first, parts, pid, first)?,
            second: judged(&mut texts.second, parts, pid, second)?,
        }),
    }
}
