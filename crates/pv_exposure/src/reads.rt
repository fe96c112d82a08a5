//! The file that the next step of a process reads.
ghost use Rattle.std.specs.Prelude.{◌≡◌, length, IfOk, IsSome, Some, option_and_then, option_map, option_to_list, slice_get};
ghost use Rattle.pv_exposure.specs.Reading.{file_to_read, has_read, may_read};
ghost use Rattle.pv_laws_states.specs.States.{IsValid};
ghost use Rattle.pv_model.specs.declared.call.Call.{Call};
ghost use Rattle.pv_model.specs.Machine.{call_of, Found, calls_for, next, node_of, open_file, Process, process_at};
ghost use Rattle.pv_model_questions.specs.Exposure.{read_observer};
ghost use Rattle.pv_reduced.specs.OfProcs.Turns.{CallsNext};
ghost use Rattle.pv_reduced.specs.OfSession.Running.{stepped};

use pv_model::{CallRef, Errno, Outcome, Place, StepFault, Walk};
use pv_programs::calls_state::Parts;
use pv_reduced::calls_path::ends::end_of;
use pv_reduced::calls_plain::descriptors::open_file;
use pv_reduced::explore_crate::{SearchedStates, VisitedState};
use pv_reduced::session::Session;
use pv_script::CallTexts;
use std::alloc::Global;

// Returns the node of a descriptor of a live process, if the descriptor is open.
fn node_at_descriptor(parts: &Parts, pid: u32, d: i32) -> Option<u16>
    requires whole { IsValid parts.now }
    requires live { IsSome (process_at parts.now pid) }
    ensures { (p : Process) → process_at parts.now pid ≡ Some p → result ≡ option_map (λ file. file.1.node) (open_file parts.now p d) }
{
    match open_file(parts, pid, d) {
        Some(file) => Some(parts.files().node(file)),
        None => None,
    }
}

// Returns the node at a place, if there are both.
fn node_at(place: &Option<Place>) -> Option<u16>
    ensures { result ≡ option_and_then node_of place.now }
{
    match place {
        Some(Place::At { node, .. }) => *node,
        Some(Place::Node(node)) => Some(*node),
        None => None,
    }
}

// Returns the file that a call of a live process reads, if it reads one.
fn file_of(parts: &Parts, pid: u32, call: CallRef<'_>) -> Option<u16>
    requires whole { IsValid parts.now }
    requires live { IsSome (process_at parts.now pid) }
    ensures { (p : Process) → process_at parts.now pid ≡ Some p → option_to_list result ≡ file_to_read parts.now p (call_of call.entry) }
{
    match call {
        CallRef::Read(d, _) => node_at_descriptor(parts, pid, d),
        CallRef::Execve(path) => node_at(&end_of(parts, pid, Walk::execve(path))),
        _ => None,
    }
}

// Returns whether a call can read a file.
fn may_read(call: CallRef<'_>) -> bool
    ensures { result ≡ may_read (call_of call.entry) }
{
    matches!(call, CallRef::Read(_, _) | CallRef::Execve(_))
}

// Returns whether a call with an outcome has read bytes of its file.
fn has_read(call: CallRef<'_>, outcome: Outcome) -> bool
    ensures { result ≡ has_read (call_of call.entry) outcome }
{
    match (call, outcome) {
        (CallRef::Read(_, _), Outcome::Text(taken)) => taken.len != 0,
        (CallRef::Execve(_), Outcome::Failed(Errno::ENOEXEC, _)) => true,
        _ => false,
    }
}

// Makes the next call of a process, and returns the file that it read.
fn read_by_call(
    alloc: Global,
    session: &mut Session,
    pid: u32,
    call: CallRef<'_>,
) -> Result<Option<u16>, StepFault>
    requires { CallsNext call (process_at session.old pid) }
    ensures { IfOk result (λ read. option_to_list read ≡ read_observer session.old pid (stepped session.old pid)) }
{
    let file = file_of(session.parts(), pid, call);
    let answer = session.call(alloc, pid, call)?;
    if has_read(call, answer.outcome) {
        Ok(file)
    } else {
        Ok(None)
    }
}

// Makes the next step of a process if it is a call, and returns the file that it read.
fn read_by_step(alloc: Global, session: &mut Session, pid: u32) -> Result<Option<u16>, StepFault>
    ensures { IfOk result (λ read. option_to_list read ≡ read_observer session.old pid (stepped session.old pid)) }
{
    let mut texts = CallTexts::new();
    match session.next_call(pid, &mut texts) {
        Some(call) => read_by_call(alloc, session, pid, call),
        None => Ok(None),
    }
}

// Returns the file that the next step of a process in a visited state reads.
fn read_from(
    alloc: Global,
    states: &mut SearchedStates<'_>,
    visited: VisitedState,
    pid: u32,
) -> Result<Option<u16>, StepFault>
    ensures unchanged { states.new ≡ states.old }
    ensures read { IfOk result (λ read. option_to_list read ≡ read_observer visited.machine pid (stepped visited.machine pid)) }
{
    let VisitedState { machine, .. } = visited;
    let mut session = machine.into_session();
    let read = read_by_step(alloc, &mut session, pid)?;
    states.take_back(session);
    Ok(read)
}

// Returns the file that the next step of a process in visited state `number` reads.
fn read_at(
    alloc: Global,
    states: &mut SearchedStates<'_>,
    number: usize,
    pid: u32,
) -> Result<Option<u16>, StepFault>
    ensures unchanged { states.new ≡ states.old }
    ensures read { IfOk result (λ read. (f : Found) → slice_get states.old.found number ≡ Some f → option_to_list read ≡ read_observer f.state pid (stepped f.state pid)) }
{
    match states.at(alloc, number)? {
        Some(visited) => read_from(alloc, states, visited, pid),
        None => Ok(None),
    }
}

/// Returns the file that the next step of a process reads, if there is one. The process is in visited state `number`.
///
/// # Errors
///
/// `NoMemory`, if there is no memory.
pub(crate) fn read_of(
    alloc: Global,
    states: &mut SearchedStates<'_>,
    number: usize,
    parts: &Parts,
    pid: u32,
) -> Result<Option<u16>, StepFault>
    requires { option_map (λ f. f.state) (slice_get states.old.found number) ≡ Some parts.now }
    ensures unchanged { states.new ≡ states.old }
    ensures read { IfOk result (λ read. option_to_list read ≡ read_observer parts.now pid (stepped parts.now pid)) }
{
    let mut texts = CallTexts::new();
    match parts.processes().next_call(pid, &mut texts) {
        Some(call) => {
            if may_read(call) {
                return read_at(alloc, states, number, pid);
            }
            Ok(None)
        }
        None => Ok(None),
    }
}
