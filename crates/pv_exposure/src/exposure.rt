//! The exposure of the programs under all schedules.
ghost use Rattle.std.specs.Prelude.{◌≡◌, ◌≤◌, [], flat_map, length, slice_get, IfOk, IsSome, OnOk, Some, IsErrOf};
ghost use Rattle.pv_exposure.specs.Answers.{exposed_lines_by, all_exposed_lines};
ghost use Rattle.pv_exposure.specs.Collected.{exposed_after, exposed_with};
ghost use Rattle.pv_exposure.specs.Seen.{IsSeenState, found_seen};
ghost use Rattle.pv_exposure.specs.Stored.{located_by, located_if};
ghost use Rattle.pv_model.specs.Machine.{Found, named_files, answer_bytes, Process, process_at};
ghost use Rattle.pv_model.specs.Answers.Exposure.{located_at};
ghost use Rattle.pv_named_files.specs.FirstPaths.{files_given, first_tree, path_texts};
ghost use Rattle.pv_reduced.specs.Kinds.{is_complete_by};
ghost use Rattle.pv_reduced.specs.OfExplore.Visiting.{found_of};
ghost use Rattle.pv_streams.specs.Sinks.{FailsBy, WritesOr};

use crate::files::StateFiles;
use crate::programs::{ProgramRecord, add_process};
use crate::reads::read_of;
use crate::reasons::Visit;
use crate::text::text_of_all;
use pv_model::StepFault;
use pv_named_files::{FirstPaths, named_files};
use pv_programs::calls_state::Parts;
use pv_reduced::SearchKind;
use pv_reduced::explore_crate::{FirstMachine, Progress, SearchedStates, VisitedState};
use pv_streams::{Sink, Stop, write_whole};
use pv_tree::Tree;
use std::alloc::Global;

// A visited state, its number and files, and the schedule that leads to it.
#[derive(Clone, Copy)]
struct SeenState<'a> {
    paths: &'a FirstPaths<'a>,
    number: usize,
    parts: &'a Parts,
    files: &'a StateFiles,
    witness: &'a [u32],
}

// Adds a live process of a visited state.
fn add_live(
    alloc: Global,
    records: &mut Vec<ProgramRecord>,
    named: &[u16],
    states: &mut SearchedStates<'_>,
    seen: &SeenState<'_>,
    pid: u32,
) -> Result<(), StepFault>
    requires live { IsSome (process_at seen.now.parts.now pid) }
    requires seen { IsSeenState states.old seen.now }
    ensures unchanged { states.new ≡ states.old }
    ensures added { OnOk result ((p : Process) → process_at seen.now.parts.now pid ≡ Some p → records.new.items ≡ exposed_with (files_given seen.now.paths.now) (first_tree seen.now.paths.now) named.now records.old.items (located_by (found_seen seen.now) pid p)) }
{
    let read = read_of(alloc, states, seen.number, seen.parts, pid)?;
    let visit = Visit {
        paths: seen.paths,
        parts: seen.parts,
        files: seen.files,
        witness: seen.witness,
        pid,
        read,
    };
    Ok(add_process(alloc, records, named, &visit)?)
}

// Adds a process of a visited state, if it is live.
fn add_number(
    alloc: Global,
    records: &mut Vec<ProgramRecord>,
    named: &[u16],
    states: &mut SearchedStates<'_>,
    seen: &SeenState<'_>,
    pid: u32,
) -> Result<(), StepFault>
    requires { IsSeenState states.old seen.now }
    ensures unchanged { states.new ≡ states.old }
    ensures added { OnOk result (records.new.items ≡ exposed_after (files_given seen.now.paths.now) (first_tree seen.now.paths.now) named.now records.old.items (located_if (found_seen seen.now) pid (process_at seen.now.parts.now pid))) }
{
    if seen.parts.processes().live(pid) {
        return add_live(alloc, records, named, states, seen, pid);
    }
    Ok(())
}

// Adds the live processes of a visited state, given the named files of the first tree.
fn add_state(
    alloc: Global,
    records: &mut Vec<ProgramRecord>,
    named: &[u16],
    states: &mut SearchedStates<'_>,
    seen: &SeenState<'_>,
) -> Result<(), StepFault>
    requires { IsSeenState states.old seen.now }
    ensures unchanged { states.new ≡ states.old }
    ensures added { OnOk result (records.new.items ≡ exposed_after (files_given seen.now.paths.now) (first_tree seen.now.paths.now) named.now records.old.items (located_at (found_seen seen.now))) }
{
    // The contract of `invariant` states that the numbers ascend.
    seen.parts.invariant();
    let mut last = 0;
    while let Some(pid) = seen.parts.processes().next_number(last) {
        add_number(alloc, records, named, states, seen, pid)?;
        last = pid;
    }
    Ok(())
}

// Adds the live processes of a visited state, given its number.
fn add_visited(
    alloc: Global,
    records: &mut Vec<ProgramRecord>,
    paths: &FirstPaths<'_>,
    named: &[u16],
    states: &mut SearchedStates<'_>,
    number: usize,
    visited: VisitedState,
) -> Result<(), StepFault>
    requires { slice_get states.old.found number ≡ Some (found_of visited) }
    ensures unchanged { states.new ≡ states.old }
    ensures added { OnOk result (records.new.items ≡ exposed_after (files_given paths.now) (first_tree paths.now) named.now records.old.items (located_at (found_of visited))) }
{
    let VisitedState { machine, witness } = visited;
    let files = StateFiles::of(alloc, paths, machine.parts())?;
    let seen = SeenState {
        paths,
        number,
        parts: machine.parts(),
        files: &files,
        witness: &witness,
    };
    add_state(alloc, records, named, states, &seen)?;
    states.release(machine);
    Ok(())
}

// Adds the live processes of visited state `number`.
fn add_at(
    alloc: Global,
    records: &mut Vec<ProgramRecord>,
    paths: &FirstPaths<'_>,
    named: &[u16],
    states: &mut SearchedStates<'_>,
    number: usize,
) -> Result<(), StepFault>
    ensures unchanged { states.new ≡ states.old }
    ensures added { OnOk result ((f : Found) → slice_get states.old.found number ≡ Some f → records.new.items ≡ exposed_after (files_given paths.now) (first_tree paths.now) named.now records.old.items (located_at f)) }
{
    match states.at(alloc, number)? {
        Some(visited) => add_visited(alloc, records, paths, named, states, number, visited),
        None => Ok(()),
    }
}

// Returns the records of the programs of all visited states.
fn records_of(
    alloc: Global,
    paths: &FirstPaths<'_>,
    named: &[u16],
    states: &mut SearchedStates<'_>,
) -> Result<Vec<ProgramRecord>, StepFault>
    ensures unchanged { states.new ≡ states.old }
    ensures records { IfOk result (λ records. records.items ≡ exposed_after (files_given paths.now) (first_tree paths.now) named.now [] (flat_map located_at states.old.found)) }
{
    let mut records = Vec::new(alloc);
    for number in 0..states.len() {
        add_at(alloc, &mut records, paths, named, states, number)?;
    }
    Ok(records)
}

// Returns the lines of the visited states, given the first tree and the files that they are about.
fn text_about(
    alloc: Global,
    kind: SearchKind,
    paths: &FirstPaths<'_>,
    states: &mut SearchedStates<'_>,
) -> Result<Vec<u8>, StepFault>
    ensures unchanged { states.new ≡ states.old }
    ensures text { IfOk result (λ text. text.items ≡ answer_bytes (all_exposed_lines kind (files_given paths.now) (first_tree paths.now) states.old.complete (length states.old.found) (exposed_after (files_given paths.now) (first_tree paths.now) (named_files (first_tree paths.now)) [] (flat_map located_at states.old.found)))) }
{
    let named = named_files(alloc, paths.tree)?;
    let records = records_of(alloc, paths, &named, states)?;
    let complete = states.is_complete();
    let count = states.len();
    Ok(text_of_all(alloc, kind, paths, complete, count, &records)?)
}

// Returns the lines of the visited states, given the first tree and the paths of the files that they are about.
fn text_of_states(
    alloc: Global,
    kind: SearchKind,
    tree: &Tree,
    files: &[Option<&[u8]>],
    states: &mut SearchedStates<'_>,
) -> Result<Vec<u8>, StepFault>
    ensures unchanged { states.new ≡ states.old }
    ensures text { IfOk result (λ text. text.items ≡ answer_bytes (all_exposed_lines kind (path_texts files.now) tree.now.tree states.old.complete (length states.old.found) (exposed_after (path_texts files.now) tree.now.tree (named_files tree.now.tree) [] (flat_map located_at states.old.found)))) }
{
    let paths = FirstPaths::new(alloc, tree, files)?;
    text_about(alloc, kind, &paths, states)
}

/// Writes the gains of an attacker who takes over a process, at each line of its program. The search, of the given
/// kind, visits at most `states` states, in breadth-first order from the first state of a machine. For each program
/// that a live process of a visited state has, it writes a line PROG, and then four lists:
///
/// - LEAK: the process is not closed to the file, with the first reason;
/// - PEER: the process is closed to the file, but another live process is not, with its number and first reason;
/// - EDIT: the process is not fixed to the file, with the first reason;
/// - READ: the next step of the process reads the file.
///
/// For each file text of a list it writes a line BY with the schedule that leads to the first visited state in which the list
/// has a process at the greatest line with this text, and then a line with all lines at which the list has it.
///
/// Then, if no state was left out, it writes a line SAFE for each file of the first tree to which every live process is
/// closed in each visited state with a live process of this program. The last line, DONE, has the number of visited states,
/// and whether no state was left out. Returns whether no state was left out.
///
/// If so, a process of a program at a line that LEAK does not list for a text is closed to each file with that text: see
/// `pv_laws_schedules` and `pv_laws_classes::shown`.
///
/// If `files` has a path, there are only findings and SAFE lines about files that had such a path in the first tree, and
/// findings about those that have it.
///
/// `progress` shows the state of the search, and ends with it.
///
/// # Errors
///
/// - `Memory`, if there is no memory. Nothing was written.
/// - `Write`, if a write failed. The sink received a prefix of the lines.
pub fn write_exposure<W: Sink, P: Progress>(
    alloc: Global,
    kind: SearchKind,
    first_machine: &FirstMachine,
    states: u32,
    files: &[Option<&[u8]>],
    progress: &mut P,
    out: &mut W,
) -> Result<bool, Stop>
    requires { 1 ≤ states }
    ensures written { WritesOr W.Sink FailsBy (answer_bytes (exposed_lines_by (path_texts files.now) kind states first_machine.now)) out.old out.new result }
    ensures complete { IfOk result (λ complete. complete ≡ is_complete_by kind states first_machine.now) }
    ensures nothing { IsErrOf result Stop.Memory → W.written out.new ≡ W.written out.old }
{
    let mut visits = kind.states(alloc, first_machine, states, progress)?;
    let lines = text_of_states(alloc, kind, first_machine.tree(), files, &mut visits)?;
    write_whole(out, &lines)?;
    Ok(visits.is_complete())
}
