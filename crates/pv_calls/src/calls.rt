//! Calls, from the pledge check to the answer.
ghost use Rattle.std.specs.Prelude.{◌≡◌, IfErr, IfOk, OnErr, IsTrue, IsSome, true, false};
ghost use Rattle.pv_calls.specs.Calls.{IsBlocked, IsCarriedOut, IsReply, DoesNotBlock, is_execve};
ghost use Rattle.pv_calls.specs.Loading.{LoadsIfLive, LoadsProgram};
ghost use Rattle.pv_laws_states.specs.States.{IsValid, is_call};
ghost use Rattle.pv_model.specs.declared.call.Call.TheVariants.{Execve, Exit};
ghost use Rattle.pv_model.specs.Machine.{answer, effect, call_of, program_of, process_at, find_entry};
ghost use Rattle.pv_calls_path.specs.OfCallsPlain.Performed.{answered, IsAnswered};
ghost use Rattle.pv_calls_path.specs.Caller.{IsCaller};

use Reply::{Performed, Reported};
use pv_audit::calls_state::Parts;
use pv_audit::namei::Lookup;
use pv_calls_path::calls_plain::answer::{Answer, Done, Refused, report};
use pv_calls_path::calls_plain::descriptors::{close, dup, dup2, fchdir};
use pv_calls_path::calls_plain::files::{fstat, ftruncate, getdents, lseek, read, write};
use pv_calls_path::calls_plain::pledge::pledge;
use pv_calls_path::calls_plain::processes::{exit_status, fork, getpid, getppid, wait, would_wait};
use pv_calls_path::chdir::chdir;
use pv_calls_path::execve::{ExecveFault, execve};
use pv_calls_path::looking::{lstat, readlink, stat};
use pv_calls_path::names::{link, mkdir, rmdir, symlink, unlink};
use pv_calls_path::opening::open_at;
use pv_calls_path::rename::rename;
use pv_calls_path::system::System;
use pv_calls_path::unveil::unveil;
use pv_model::{CallRef, Cause, Errno, Outcome, Start, StepFault, Text};
use pv_promises::Decision;
use std::alloc::Global;

/// The result of a dispatched call.
pub(crate) enum Reply {
    /// A value or a refusal that is not yet reported to the process.
    Performed(Result<Done, Refused>),
    /// An answer that is already reported to the process, or the process has ended.
    Reported(Answer),
}

// Ends a process, as exit(3).
fn exit(parts: &mut Parts, pid: u32, code: i32) -> Answer
    requires whole { IsValid parts.old }
    requires live { IsSome (process_at parts.old pid) }
    ensures performed { IsAnswered (λ s me. effect program_of s pid me (Exit code))
        parts.old pid parts.new result }
{
    parts.end(pid, exit_status(code));
    Answer {
        outcome: Outcome::Exited,
        walks: 0,
    }
}

// Makes a call that the promises allow, after its process has moved to the next line. Must not be used for execve(2),
// nor for a wait(2) that would block.
#[inline(always)]
fn dispatch_call<L: Lookup + Drop>(system: &mut System<L>, pid: u32, call: CallRef<'_>) -> Reply
    requires caller { IsCaller (L.agrees system.old.lookup) system.old.parts pid }
    requires call { IsTrue (is_call (call_of call)) }
    requires no_execve { is_execve (call_of call) ≡ false }
    requires continues { DoesNotBlock system.old.parts pid (call_of call) }
    ensures replied { IsReply (λ s me. effect program_of s pid me (call_of call.entry))
        system.old.parts pid system.new.parts result }
    ensures agrees { L.agrees system.new.lookup (find_entry system.new.parts.tree) }
{
    match call {
        CallRef::Exit(code) => Reported(exit(&mut system.parts, pid, code)),
        CallRef::GetPid => Performed(getpid(&mut system.parts, pid)),
        CallRef::GetPpid => Performed(getppid(&mut system.parts, pid)),
        CallRef::Fork => Performed(fork(&mut system.parts, pid)),
        CallRef::Wait => Reported(wait(&mut system.parts, pid)),
        CallRef::Pledge(now, later) => Performed(pledge(&mut system.parts, pid, now, later)),
        CallRef::Unveil(path, perms) => Performed(unveil(system, pid, path, perms)),
        CallRef::Execve(_) => unreachable!(),
        CallRef::Open(path, flags) => Performed(open_at(
            system,
            pid,
            Start::WorkingDirectory,
            path,
            flags,
        )),
        CallRef::OpenAt(start, path, flags) => Performed(open_at(system, pid, start, path, flags)),
        CallRef::Close(d) => Performed(close(&mut system.parts, pid, d)),
        CallRef::Dup(d) => Performed(dup(&mut system.parts, pid, d)),
        CallRef::Dup2(d, e) => Performed(dup2(&mut system.parts, pid, d, e)),
        CallRef::Read(d, n) => Reported(read(&mut system.parts, pid, d, n)),
        CallRef::Write(d, n) => Performed(write(&mut system.parts, pid, d, n)),
        CallRef::Lseek(d, by, whence) => Performed(lseek(&mut system.parts, pid, d, by, whence)),
        CallRef::Fstat(d) => Reported(fstat(&mut system.parts, pid, d)),
        CallRef::Ftruncate(d, n) => Performed(ftruncate(&mut system.parts, pid, d, n)),
        CallRef::Getdents(d) => Reported(getdents(&mut system.parts, pid, d)),
        CallRef::Fchdir(d) => Performed(fchdir(&mut system.parts, pid, d)),
        CallRef::Chdir(path) => Performed(chdir(system, pid, path)),
        CallRef::Stat(path) => Reported(stat(system, pid, path)),
        CallRef::Lstat(path) => Reported(lstat(system, pid, path)),
        CallRef::Readlink(path) => Reported(readlink(system, pid, path)),
        CallRef::Mkdir(path) => Performed(mkdir(system, pid, path)),
        CallRef::Symlink(text, path) => Performed(symlink(system, pid, text.as_slice(), path)),
        CallRef::Link(path, new) => Performed(link(system, pid, path, new)),
        CallRef::Unlink(path) => Performed(unlink(system, pid, path)),
        CallRef::Rmdir(path) => Performed(rmdir(system, pid, path)),
        CallRef::Rename(path, new) => Performed(rename(system, pid, path, new)),
    }
}

// Makes such a call and reports its result to the process.
#[inline(always)]
fn make_other_call<L: Lookup + Drop>(system: &mut System<L>, pid: u32, call: CallRef<'_>) -> Answer
    requires caller { IsCaller (L.agrees system.old.lookup) system.old.parts pid }
    requires call { IsTrue (is_call (call_of call)) }
    requires no_execve { is_execve (call_of call) ≡ false }
    requires continues { DoesNotBlock system.old.parts pid (call_of call) }
    ensures performed { IsAnswered (λ s me. effect program_of s pid me (call_of call.entry))
        system.old.parts pid system.new.parts result }
    ensures agrees { L.agrees system.new.lookup (find_entry system.new.parts.tree) }
{
    match dispatch_call(system, pid, call) {
        Performed(performed) => report(&mut system.parts, pid, performed),
        Reported(answer) => answer,
    }
}

// Makes an execve(2) that the promises allow, before its process moves to the next line.
fn make_execve<L: Lookup + Drop>(
    alloc: Global,
    system: &mut System<L>,
    pid: u32,
    path: &Text,
) -> Result<Answer, StepFault>
    requires caller { IsCaller (L.agrees system.old.lookup) system.old.parts pid }
    requires call { IsTrue (is_call (Execve path.now)) }
    ensures carried { IfOk result (λ a. IsCarriedOut system.old.parts pid (Execve path.now)
        system.new.parts a) }
    ensures agrees { L.agrees system.new.lookup (find_entry system.new.parts.tree) }
    ensures unchanged { OnErr result (system.new.parts ≡ system.old.parts) }
    ensures memory { IfErr result (λ _. LoadsIfLive system.old.parts pid (Execve path.now)) }
{
    match execve(alloc, system, pid, path) {
        Ok(reported) => Ok(report(&mut system.parts, pid, Ok(reported))),
        Err(ExecveFault::Refused(why)) => {
            system.parts.advance(pid);
            Ok(report(&mut system.parts, pid, Err(why)))
        }
        Err(ExecveFault::Memory) => Err(StepFault::NoMemory),
    }
}

// Returns whether a call is a wait(2) that would block.
fn is_blocked(parts: &Parts, pid: u32, call: CallRef<'_>) -> bool
    requires { IsSome (process_at parts.now pid) }
    ensures blocked { result ≡ true → IsBlocked parts.now pid (call_of call.entry) }
    ensures continues { result ≡ false → DoesNotBlock parts.now pid (call_of call.entry) }
{
    match call {
        CallRef::Wait => would_wait(parts, pid),
        _ => false,
    }
}

// Makes a call that the promises allow.
#[inline(always)]
fn make_allowed_call<L: Lookup + Drop>(
    alloc: Global,
    system: &mut System<L>,
    pid: u32,
    call: CallRef<'_>,
) -> Result<Answer, StepFault>
    requires caller { IsCaller (L.agrees system.old.lookup) system.old.parts pid }
    requires call { IsTrue (is_call (call_of call)) }
    ensures carried { IfOk result (λ a. IsCarriedOut system.old.parts pid (call_of call.entry)
        system.new.parts a) }
    ensures agrees { L.agrees system.new.lookup (find_entry system.new.parts.tree) }
    ensures unchanged { OnErr result (system.new.parts ≡ system.old.parts) }
    ensures memory { IfErr result (λ _. LoadsIfLive system.old.parts pid (call_of call.entry)) }
{
    if let CallRef::Execve(path) = call {
        return make_execve(alloc, system, pid, path);
    }
    if is_blocked(&system.parts, pid, call) {
        return Ok(Answer {
            outcome: Outcome::Blocked,
            walks: 0,
        });
    }
    system.parts.advance(pid);
    Ok(make_other_call(system, pid, call))
}

/// Makes a call of a process. The promises are checked first, as pledge(2): a missing promise kills the process, or is
/// ENOSYS if `error` is promised. A call that blocks leaves its process at its line; every other call moves it to the
/// next.
///
/// # Errors
///
/// `NoMemory`, if there is no memory for the program of an execve(2), which would otherwise have succeeded or failed
/// with `ENOEXEC`. The state is then unchanged.
pub fn make_call<L: Lookup + Drop>(
    alloc: Global,
    system: &mut System<L>,
    pid: u32,
    call: CallRef<'_>,
) -> Result<Answer, StepFault>
    requires whole { IsValid system.old.parts }
    requires call { IsTrue (is_call (call_of call)) }
    requires agrees { L.agrees system.old.lookup (find_entry system.old.parts.tree) }
    ensures answered { IfOk result (λ a. answer program_of system.old.parts pid (call_of call.entry)
        ≡ answered system.new.parts a) }
    ensures whole { IsValid system.new.parts }
    ensures agrees { L.agrees system.new.lookup (find_entry system.new.parts.tree) }
    ensures unchanged { OnErr result (system.new.parts ≡ system.old.parts) }
    ensures memory { IfErr result (λ _. LoadsProgram system.old.parts pid (call_of call.entry)) }
{
    let Some(record) = system.parts.live_record(pid) else {
        return Ok(Answer {
            outcome: Outcome::Gone,
            walks: 0,
        });
    };
    match record.pledge.decide(call) {
        Decision::Allowed => make_allowed_call(alloc, system, pid, call),
        Decision::Kill(promise) => {
            system.parts.end(pid, 6);
            Ok(Answer {
                outcome: Outcome::Killed(promise),
                walks: 0,
            })
        }
        Decision::Refuse(promise) => {
            system.parts.advance(pid);
            let refused = Refused {
                walks: 0,
                errno: Errno::ENOSYS,
                cause: Cause::Promise(promise),
            };
            Ok(report(&mut system.parts, pid, Err(refused)))
        }
    }
}
