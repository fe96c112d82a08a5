//! The state graph: the states that are reachable from a machine's first state, and their transitions.
ghost use Rattle.std.specs.Prelude.{◌≡◌, ◌≤◌, [], Some, codes, length, IfOk};
ghost use Rattle.std.specs.Fmt.{decimal};
ghost use Rattle.pv_explore.specs.Observing.{no_text};
ghost use Rattle.pv_streams.specs.ProperPrefixes.{StopsInside};
ghost use Rattle.pv_explore.specs.Searches.{all_visited, visited_of};
ghost use Rattle.pv_explore.specs.Vertices.{all_steps_at, all_vertices, found_lines, listed_bytes, vertex_at};
ghost use Rattle.pv_model.specs.Machine.{is_complete, graph_lines, answer_bytes, answer_line, answer_line_bytes, lines_of, program_of, listing};
ghost use Rattle.pv_model.specs.Answers.Graph.{tree_lines};
ghost use Rattle.pv_streams.specs.Sinks.{and_all, FailsBy, Writes, WritesOr};

use crate::checkpoints::Checkpoints;
use crate::explore::write_states;
use crate::first_machine::FirstMachine;
use crate::observer::{Observer, Unobserved};
use crate::progress::Progress;
use crate::search::Search;
use crate::searched::search_all;
use crate::states::States;
use crate::unheard::Unheard;
use crate::witness::Count;
use pv_image::tree::Tree;
use pv_model::StepFault;
use pv_step_lines::answers::{Line, write_reach, write_state};
use pv_step_lines::calls_state::Parts;
use pv_step_lines::listing::write_listing;
use pv_streams::{Failed, Fragment, Gathered, Plain, Sink, Stop};
use pv_text::lines::split_line;
use pv_trace::LineBuffer;
use std::alloc::Global;

// ---- a tree

// Returns the listing of a tree.
fn listing_of(alloc: Global, tree: &Tree) -> Result<Vec<u8>, StepFault>
    ensures { IfOk result (λ text. Some text.items ≡ and_all (Some []) (listing tree.now.tree)) }
{
    let mut text = Gathered::new(alloc);
    match write_listing(alloc, tree, &mut text) {
        Ok(()) => Ok(text.bytes),
        Err(_) => Err(StepFault::NoMemory),
    }
}

// Writes an LS line for a line of a listing.
#[tactic(auto, unfolding(pv_model::specs::Trace::text_line))]
fn write_listing_line<W: Sink>(out: &mut W, line: &[u8]) -> Result<(), Failed>
    ensures { Writes W.Sink (answer_line_bytes (answer_line 0 (codes "LS") line.now)) out.old out.new result }
{
    let line = Line {
        pid: 0,
        word: *b"LS  ",
        text: Plain(line),
    };
    line.write(out)
}

// Writes an LS line for each line of a listing.
fn write_listed<W: Sink>(out: &mut W, listing: &[u8]) -> Result<(), Failed>
    ensures { Writes W.Sink (listed_bytes (lines_of listing.now)) out.old out.new result }
{
    let mut rest = listing;
    while let Some((line, following)) = split_line(rest) {
        write_listing_line(out, line)?;
        rest = following;
    }
    Ok(())
}

// Writes the tree of a state and the permissions of its processes, if `tree` is set.
fn write_tree<W: Sink>(alloc: Global, parts: &Parts, tree: bool, out: &mut W) -> Result<(), Stop>
    ensures { WritesOr W.Sink FailsBy (answer_bytes (tree_lines tree parts.now)) out.old out.new result }
{
    if !tree {
        return Ok(());
    }
    let listing = listing_of(alloc, parts.tree())?;
    write_listed(out, &listing)?;
    Ok(write_reach(out, parts)?)
}

// ---- a state with its steps

// Writes the steps from the state at the end of a witness.
fn write_steps<O: Observer + Drop, W: Sink>(
    alloc: Global,
    checkpoints: &mut Checkpoints<'_>,
    states: &States<O>,
    witness: &[u32],
    line_buffer: &mut LineBuffer,
    out: &mut W,
) -> Result<(), Stop>
    ensures unchanged { checkpoints.new ≡ checkpoints.old }
    ensures written { WritesOr W.Sink FailsBy (answer_bytes (all_steps_at states.now checkpoints.old witness.now)) out.old out.new result }
{
    let machine = checkpoints.position(alloc, witness)?;
    let pids = machine.live(alloc)?;
    checkpoints.release(machine);
    let live = pids.as_slice();
    for pid in live {
        let mut machine = checkpoints.position(alloc, witness)?;
        machine.write_step(alloc, states, *pid, line_buffer, out)?;
        checkpoints.release(machine);
    }
    Ok(())
}

// Writes the line of a state's number.
#[tactic(auto, unfolding(pv_model::specs::Trace::text_line))]
fn write_number<W: Sink>(out: &mut W, number: usize) -> Result<(), Failed>
    ensures { Writes W.Sink (answer_line_bytes (answer_line 0 (codes "AT") (decimal number))) out.old out.new result }
{
    let line = Line {
        pid: 0,
        word: *b"AT  ",
        text: Count(number),
    };
    line.write(out)
}

// Writes the state at the end of a witness, with its number and its steps.
fn write_vertex<O: Observer + Drop, W: Sink>(
    alloc: Global,
    checkpoints: &mut Checkpoints<'_>,
    states: &States<O>,
    tree: bool,
    number: usize,
    witness: &[u32],
    line_buffer: &mut LineBuffer,
    out: &mut W,
) -> Result<(), Stop>
    ensures unchanged { checkpoints.new ≡ checkpoints.old }
    ensures written { WritesOr W.Sink FailsBy (answer_bytes (vertex_at states.now checkpoints.old tree number witness.now)) out.old out.new result }
{
    let machine = checkpoints.position(alloc, witness)?;
    write_number(out, number)?;
    write_state(out, machine.parts())?;
    write_tree(alloc, machine.parts(), tree, out)?;
    checkpoints.release(machine);
    write_steps(alloc, checkpoints, states, witness, line_buffer, out)
}

// Writes the states of a search.
fn write_vertices<O: Observer + Drop, W: Sink>(
    alloc: Global,
    first_machine: &FirstMachine,
    search: &Search<O>,
    tree: bool,
    out: &mut W,
) -> Result<(), Stop>
    requires { length (visited_of search.now).witnesses ≡ length search.now.states }
    ensures { WritesOr W.Sink FailsBy (answer_bytes (all_vertices (visited_of search.now) first_machine.now tree)) out.old out.new result }
{
    let mut line_buffer = new_line_buffer(alloc)?;
    let mut checkpoints = Checkpoints::new(alloc, first_machine);
    for number in 0..search.states.len() {
        let Some(witness) = search.witness(alloc, number)? else {
            return Ok(());
        };
        write_vertex(
            alloc,
            &mut checkpoints,
            &search.states,
            tree,
            number,
            &witness,
            &mut *line_buffer,
            out,
        )?;
    }
    Ok(())
}

// Returns the buffer in which trace lines are built.
fn new_line_buffer(alloc: Global) -> Result<Box<LineBuffer>, StepFault> {
    match Box::new(alloc, LineBuffer::new()) {
        Ok(line_buffer) => Ok(line_buffer),
        Err(_) => Err(StepFault::NoMemory),
    }
}

/// Searches all states without observing the steps.
///
/// # Errors
///
/// `NoMemory`, if there is no memory.
pub(crate) fn search_states<P: Progress>(
    alloc: Global,
    first_machine: &FirstMachine,
    states: u32,
    progress: &mut P,
) -> Result<Search<Unobserved>, StepFault>
    ensures { IfOk result (λ search. visited_of search ≡ all_visited no_text states first_machine.now) }
{
    let mut search = Search::new(alloc, Unobserved, first_machine)?;
    match search_all(
        alloc,
        first_machine,
        states,
        &mut search,
        progress,
        &mut Unheard,
    ) {
        Ok(()) => Ok(search),
        Err(_) => Err(StepFault::NoMemory),
    }
}

// Writes the states that a search visited, and whether these are all.
fn write_found<O: Observer + Drop, W: Sink>(
    alloc: Global,
    first_machine: &FirstMachine,
    search: &Search<O>,
    tree: bool,
    out: &mut W,
) -> Result<(), Stop>
    requires { length (visited_of search.now).witnesses ≡ length search.now.states }
    ensures written { WritesOr W.Sink FailsBy (answer_bytes (found_lines (visited_of search.now) first_machine.now tree)) out.old out.new result }
    ensures part { StopsInside W.Sink (answer_bytes (found_lines (visited_of search.now) first_machine.now tree)) out.old out.new result }
{
    write_vertices(alloc, first_machine, search, tree, out)?;
    Ok(write_states(out, search.states.len(), search.complete)?)
}

/// Writes the state graph: the states that are reachable from a machine's first state, at most `states` of them, in the
/// order in which the search visits them. Each state has an AT line with its number, from 0, and the lines of the state
/// of each process. If `tree` is set, the listing of its tree and the permissions of its processes follow. Each live
/// process then has a STEP line with the number of the state after its step, or `left out`, and the explained lines of
/// the step. The last line, DONE, has the number of visited states and whether these are all.
///
/// The search is complete before the first line is written. `progress` shows the state of the search. It ends with the
/// search, also if the search fails. Returns whether the visited states are all.
///
/// # Errors
///
/// - `Memory`, if there is no memory. The sink received a proper prefix of the lines.
/// - `Write`, if a write failed. The sink received a prefix of the lines.
pub fn write_graph<W: Sink, P: Progress>(
    alloc: Global,
    first_machine: &FirstMachine,
    states: u32,
    tree: bool,
    progress: &mut P,
    out: &mut W,
) -> Result<bool, Stop>
    requires { 1 ≤ states }
    ensures written { WritesOr W.Sink FailsBy (answer_bytes (graph_lines program_of states tree first_machine.now)) out.old out.new result }
    ensures complete { IfOk result (λ complete. complete ≡ is_complete program_of states first_machine.now) }
    ensures part { StopsInside W.Sink (answer_bytes (graph_lines program_of states tree first_machine.now)) out.old out.new result }
{
    let search = search_states(alloc, first_machine, states, progress)?;
    write_found(alloc, first_machine, &search, tree, out)?;
    Ok(search.complete)
}
