//! The reduced search with an observer, its result, and the states that it visits.
ghost use Rattle.std.specs.Prelude.{◌≡◌, ◌≤◌, IfOk, OnOk};
ghost use Rattle.pv_reduced.specs.Lines.{IsReducedSearched, reduced_observed_bytes, reduced_states};
ghost use Rattle.pv_reduced.specs.Plan.{reduced_first_visited};
ghost use Rattle.pv_reduced.specs.Searches.{reduced_all_reported, reduced_all_visited, reduced_visited_of};
ghost use Rattle.pv_streams.specs.Sinks.{FailsBy, WritesOr};

use crate::search::ReducedSearch;
use pv_explore::{FirstMachine, Observer, Progress, Searched, SearchedStates, Unheard, Unobserved};
use pv_model::StepFault;
use pv_streams::{Sink, Stop};
use std::alloc::Global;

// Searches from the first state, and ends the progress report.
fn search_all<O: Observer + Drop, W: Sink, P: Progress>(
    alloc: Global,
    first_machine: &FirstMachine,
    states: u32,
    search: &mut ReducedSearch<O>,
    progress: &mut P,
    out: &mut W,
) -> Result<(), Stop>
    requires { reduced_visited_of search.old ≡ reduced_first_visited first_machine.now }
    ensures visited { OnOk result (reduced_visited_of search.new ≡ reduced_all_visited O.observe states first_machine.now) }
    ensures written { WritesOr W.Sink FailsBy (reduced_all_reported O.observe states first_machine.now) out.old out.new result }
{
    let end = search.search(alloc, first_machine, states, progress, out);
    progress.end();
    end
}

/// Searches all schedules with an observer, by the reduced search: it visits at most `states` states, in breadth-first
/// order from the first state of a machine; it identifies states that are equal up to the numbers of open files and for
/// dead variables; and after a step of a process on registers, the next step is of the same process. Of the texts
/// observed, each that no earlier step had is recorded, and is written unless it is empty or begins with byte 0: first a
/// BY line with a shortest witness, that is, a schedule that leads to the step, and then the text. Returns the result of
/// the search; its states are those visited.
///
/// `progress` shows the state of the search, and ends with it, also if the search fails.
///
/// # Errors
///
/// - `Memory`, if there is no memory.
/// - `Write`, if a write failed. The sink received a prefix of the bytes.
pub(crate) fn search_reduced<O: Observer + Drop, W: Sink, P: Progress>(
    alloc: Global,
    first_machine: &FirstMachine,
    states: u32,
    observer: O,
    progress: &mut P,
    out: &mut W,
) -> Result<Searched, Stop>
    requires { 1 ≤ states }
    ensures written { WritesOr W.Sink FailsBy (reduced_observed_bytes O.observe states first_machine.now) out.old out.new result }
    ensures found { IfOk result (λ r. IsReducedSearched O.observe states first_machine.now r.states r.complete r.endings r.texts) }
{
    let mut search = ReducedSearch::new(alloc, observer, first_machine)?;
    search_all(alloc, first_machine, states, &mut search, progress, out)?;
    Ok(search.end())
}

/// Returns the states that the reduced search visits, at most `states`. `progress` shows the state of the search, and ends
/// with it, also if the search fails.
///
/// # Errors
///
/// `NoMemory`, if there is no memory.
pub(crate) fn reduced_states<'a, P: Progress>(
    alloc: Global,
    first_machine: &'a FirstMachine,
    states: u32,
    progress: &mut P,
) -> Result<SearchedStates<'a>, StepFault>
    requires { 1 ≤ states }
    ensures { IfOk result (λ visits. visits ≡ reduced_states states first_machine.now) }
{
    let mut search = ReducedSearch::new(alloc, Unobserved, first_machine)?;
    match search_all(
        alloc,
        first_machine,
        states,
        &mut search,
        progress,
        &mut Unheard,
    ) {
        Ok(()) => {
            let (witnesses, complete) = search.into_witnesses();
            Ok(SearchedStates::new(alloc, first_machine, witnesses, complete))
        }
        Err(_) => Err(StepFault::NoMemory),
    }
}
