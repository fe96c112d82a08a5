//! The policy of each program under all schedules.
ghost use Rattle.std.specs.Prelude.{◌≡◌, ◌≤◌, ◌++◌, [], ◌∷◌, codes, flat_map, slice_get, IfOk, OnOk, Some, IsErrOf};
ghost use Rattle.pv_reduced.specs.OfExplore.Visiting.{found_of};
ghost use Rattle.pv_laws_states.specs.States.{IsValid};
ghost use Rattle.pv_model.specs.declared.call.Call.{Call};
ghost use Rattle.pv_model.specs.Machine.{answer, Found, witness_text, answer_bytes, answer_line, answer_line_bytes, program_of, calls_for, next, Process, process_at};
ghost use Rattle.pv_policy.specs.Collecting.{calls_at, calls_of, calls_of_process, visited_bytes, walks_counted};
ghost use Rattle.pv_policy.specs.Usage.{and_calls};
ghost use Rattle.pv_reduced.specs.Kinds.{is_complete_by, policy_lines_by};
ghost use Rattle.pv_streams.specs.Sinks.{FailsBy, WritesOr};

use crate::note::note_call;
use crate::program_use::ProgramUse;
use crate::walks::walks_of_call;
use crate::writing::push_programs;
use pv_model::StepFault;
use pv_needs::calls_state::Parts;
use pv_procs::Fetched;
use pv_reduced::SearchKind;
use pv_reduced::explore_crate::{FirstMachine, Progress, SearchedStates, VisitedState, write_by};
use pv_script::CallTexts;
use pv_streams::{Gathered, Sink, Stop, write_whole};
use pv_tree::Tree;
use std::alloc::{AllocError, Global};

// Returns the line BY of a step of a process, given the schedule that leads to the state before it.
fn by_bytes(alloc: Global, witness: &[u32], pid: u32) -> Result<Vec<u8>, AllocError>
    ensures { IfOk result (λ bytes. bytes.items ≡ answer_line_bytes (answer_line pid (codes "BY") (witness_text (witness.now ++ pid ∷ [])))) }
{
    let mut steps = witness.to_vec(alloc)?;
    steps.push(pid)?;
    let mut text = Gathered::new(alloc);
    match write_by(&mut text, pid, &steps) {
        Ok(()) => Ok(text.bytes),
        Err(_) => Err(AllocError),
    }
}

// Returns the number of walks that the next call of a process in a visited state begins, if the call counts.
fn walks_from(
    alloc: Global,
    granted: bool,
    visits: &mut SearchedStates<'_>,
    visited: VisitedState,
    pid: u32,
) -> Result<Option<u8>, StepFault>
    ensures unchanged { visits.new ≡ visits.old }
    ensures walks { IfOk result (λ walks. (me : Process) (call : Call) → process_at visited.machine pid ≡ Some me → next me ≡ calls_for call → walks ≡ walks_counted granted (answer program_of visited.machine pid call)) }
{
    let VisitedState { machine, .. } = visited;
    let mut session = machine.into_session();
    let walks = walks_of_call(alloc, granted, &mut session, pid)?;
    visits.take_back(session);
    Ok(walks)
}

// Returns the number of walks that the next call of a process in visited state `number` begins, if the call counts.
fn walks_at(
    alloc: Global,
    granted: bool,
    visits: &mut SearchedStates<'_>,
    number: usize,
    pid: u32,
) -> Result<Option<u8>, StepFault>
    ensures unchanged { visits.new ≡ visits.old }
    ensures walks { IfOk result (λ walks. (f : Found) (me : Process) (call : Call) → slice_get visits.old.found number ≡ Some f → process_at f.state pid ≡ Some me → next me ≡ calls_for call → walks ≡ walks_counted granted (answer program_of f.state pid call)) }
{
    match visits.at(alloc, number)? {
        Some(visited) => walks_from(alloc, granted, visits, visited, pid),
        None => Ok(None),
    }
}

// Adds the next call of a process in a visited state, if its next step is a call that counts.
fn collect_process(
    alloc: Global,
    granted: bool,
    visits: &mut SearchedStates<'_>,
    programs: &mut Vec<ProgramUse>,
    number: usize,
    parts: &Parts,
    witness: &[u32],
    pid: u32,
) -> Result<(), StepFault>
    requires whole { IsValid parts.now }
    requires at { slice_get visits.old.found number ≡ Some (record { witness = witness.now; state = parts.now }) }
    ensures unchanged { visits.new ≡ visits.old }
    ensures collected { OnOk result (programs.new.items ≡ and_calls programs.old.items (calls_of_process granted (record { witness = witness.now; state = parts.now }) pid)) }
{
    let mut texts = CallTexts::new();
    match parts.processes().fetch(pid, &mut texts) {
        Fetched::Call(call) => {
            let Some(walks) = walks_at(alloc, granted, visits, number, pid)? else {
                return Ok(());
            };
            let by = by_bytes(alloc, witness, pid)?;
            Ok(note_call(alloc, programs, parts, pid, call, walks, &by)?)
        }
        Fetched::Register => Ok(()),
        Fetched::Gone => Ok(()),
    }
}

// Adds the next calls of some live processes in a visited state.
#[tactic(auto, using(crate::proofs::CollectedCalls::calls_next, crate::proofs::CollectedCalls::calls_all))]
fn collect_processes(
    alloc: Global,
    granted: bool,
    visits: &mut SearchedStates<'_>,
    programs: &mut Vec<ProgramUse>,
    number: usize,
    parts: &Parts,
    witness: &[u32],
    pids: &[u32],
) -> Result<(), StepFault>
    requires whole { IsValid parts.now }
    requires at { slice_get visits.old.found number ≡ Some (record { witness = witness.now; state = parts.now }) }
    ensures unchanged { visits.new ≡ visits.old }
    ensures collected { OnOk result (programs.new.items ≡ and_calls programs.old.items (flat_map (calls_of_process granted (record { witness = witness.now; state = parts.now })) pids.now)) }
{
    for pid in pids {
        collect_process(
            alloc, granted, visits, programs, number, parts, witness, *pid,
        )?;
    }
    Ok(())
}

// Adds the calls of a visited state.
fn collect_visited(
    alloc: Global,
    granted: bool,
    visits: &mut SearchedStates<'_>,
    programs: &mut Vec<ProgramUse>,
    number: usize,
    visited: VisitedState,
) -> Result<(), StepFault>
    requires { slice_get visits.old.found number ≡ Some (found_of visited) }
    ensures unchanged { visits.new ≡ visits.old }
    ensures collected { OnOk result (programs.new.items ≡ and_calls programs.old.items (calls_of granted (found_of visited))) }
{
    let VisitedState { machine, witness } = visited;
    let pids = machine.live(alloc)?;
    let parts = machine.parts();
    collect_processes(
        alloc, granted, visits, programs, number, parts, &witness, &pids,
    )?;
    visits.release(machine);
    Ok(())
}

// Adds the calls of visited state `number`.
fn collect_state(
    alloc: Global,
    granted: bool,
    visits: &mut SearchedStates<'_>,
    programs: &mut Vec<ProgramUse>,
    number: usize,
) -> Result<(), StepFault>
    ensures unchanged { visits.new ≡ visits.old }
    ensures collected { OnOk result (programs.new.items ≡ and_calls programs.old.items (calls_at granted (slice_get visits.old.found number))) }
{
    match visits.at(alloc, number)? {
        Some(visited) => collect_visited(alloc, granted, visits, programs, number, visited),
        None => Ok(()),
    }
}

// Returns the uses of all programs by the calls of the visited states.
#[tactic(auto, using(crate::proofs::CollectedCalls::states_next, crate::proofs::CollectedCalls::states_all))]
fn collect(
    alloc: Global,
    granted: bool,
    visits: &mut SearchedStates<'_>,
) -> Result<Vec<ProgramUse>, StepFault>
    ensures unchanged { visits.new ≡ visits.old }
    ensures collected { IfOk result (λ programs. programs.items ≡ and_calls [] (flat_map (calls_of granted) visits.old.found)) }
{
    let mut programs = Vec::new(alloc);
    for number in 0..visits.len() {
        collect_state(alloc, granted, visits, &mut programs, number)?;
    }
    Ok(programs)
}

// Returns the lines of a search.
fn bytes_of(
    alloc: Global,
    kind: SearchKind,
    granted: bool,
    tree: &Tree,
    visits: &mut SearchedStates<'_>,
) -> Result<Vec<u8>, StepFault>
    ensures unchanged { visits.new ≡ visits.old }
    ensures bytes { IfOk result (λ bytes. bytes.items ≡ visited_bytes granted kind tree.now.tree visits.old) }
{
    let programs = collect(alloc, granted, visits)?;
    let complete = visits.is_complete();
    let mut out = Gathered::new(alloc);
    push_programs(alloc, &mut out, tree, complete, &programs)?;
    match kind.write_count(&mut out, visits.len(), complete) {
        Ok(()) => Ok(out.bytes),
        Err(_) => Err(StepFault::NoMemory),
    }
}

/// Writes the needs of each program under any schedule, and the promises and permissions that it holds and never uses.
/// The search, of the given kind, visits at most `states` states, in breadth-first order from the first state of a
/// machine. For each program that makes a call, in the order of its first call, it writes a line PROG, and
/// then:
///
/// - PLDG, for each promise that a call needs: the promise and the line of the first such call;
/// - UNVL, for each walk that asked for permissions at a target in words for which no earlier walk had asked: those
///   permissions and the target;
/// - IDLE, only if no state was left out: the promises that a process holds at a call other than pledge(2) and that
///   no call needs, and the permissions that the entries of a table give at a call other than unveil(2) and that no
///   walk uses.
///
/// With `granted`, the calls that a promise or a table refused do not count.
///
/// Before each PLDG and UNVL line there is a BY line with a shortest witness, that is, a schedule that leads to the
/// call. The last line, DONE, has the number of visited states, and whether no state was left out. Returns whether no state
/// was left out.
///
/// `progress` shows the state of the search, and ends with it, also if the search fails.
///
/// # Errors
///
/// - `Memory`, if there is no memory. Nothing was written.
/// - `Write`, if a write failed. The sink received a prefix of the lines.
pub fn write_policy<W: Sink, P: Progress>(
    alloc: Global,
    kind: SearchKind,
    granted: bool,
    first_machine: &FirstMachine,
    states: u32,
    progress: &mut P,
    out: &mut W,
) -> Result<bool, Stop>
    requires { 1 ≤ states }
    ensures written { WritesOr W.Sink FailsBy (answer_bytes (policy_lines_by granted kind states first_machine.now)) out.old out.new result }
    ensures complete { IfOk result (λ complete. complete ≡ is_complete_by kind states first_machine.now) }
    ensures nothing { IsErrOf result Stop.Memory → W.written out.new ≡ W.written out.old }
{
    let mut visits = kind.states(alloc, first_machine, states, progress)?;
    let lines = bytes_of(alloc, kind, granted, first_machine.tree(), &mut visits)?;
    write_whole(out, &lines)?;
    Ok(visits.is_complete())
}
