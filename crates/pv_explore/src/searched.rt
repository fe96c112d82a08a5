//! The search with an observer, and its result.
ghost use Rattle.std.specs.Prelude.{◌≡◌, ◌≤◌, bytes_eq, IfOk, OnOk};
ghost use Rattle.std.specs.List.{list_any};
ghost use Rattle.pv_explore.specs.Observing.{IsSearched, observed_bytes};
ghost use Rattle.pv_explore.specs.Plan.{first_visited};
ghost use Rattle.pv_explore.specs.Searches.{all_reported, all_visited, visited_of};
ghost use Rattle.pv_streams.specs.Sinks.{FailsBy, WritesOr};

use crate::first_machine::FirstMachine;
use crate::observer::Observer;
use crate::progress::Progress;
use crate::search::Search;
use pv_step_cache::tables::Keys;
use pv_streams::{Sink, Stop};
use std::alloc::Global;

/// The result of a search.
#[derive(Drop)]
pub struct Searched {
    /// The number of visited states.
    pub states: usize,
    /// Whether no state was left out.
    pub complete: bool,
    /// The number of different trees in which no process is live.
    pub endings: usize,
    /// The texts observed, each once.
    pub texts: Keys,
}

impl Searched {
    /// Returns whether a text was observed of any step.
    pub fn has_text(&self, text: &[u8]) -> bool
        ensures { result ≡ list_any (bytes_eq text.now) self.now.texts }
    {
        self.texts.contains(text)
    }
}

/// Searches from the first state, and ends the progress report.
pub(crate) fn search_all<O: Observer + Drop, W: Sink, P: Progress>(
    alloc: Global,
    first_machine: &FirstMachine,
    states: u32,
    search: &mut Search<O>,
    progress: &mut P,
    out: &mut W,
) -> Result<(), Stop>
    requires { visited_of search.old ≡ first_visited first_machine.now }
    ensures visited { OnOk result (visited_of search.new ≡ all_visited O.observe states first_machine.now) }
    ensures written { WritesOr W.Sink FailsBy (all_reported O.observe states first_machine.now) out.old out.new result }
{
    let end = search.search(alloc, first_machine, states, progress, out);
    progress.end();
    end
}

/// Searches all schedules with an observer. The search visits at most `states` states, in breadth-first order from the
/// first state of a machine, and makes a step of each live process in each. Of the texts observed, each that no earlier
/// step had is recorded, and is written unless it is empty or begins with byte 0: first a BY line with a shortest
/// witness, that is, a schedule that leads to the step, and then the text. Returns the result of the search.
///
/// `progress` shows the state of the search, and ends with it, also if the search fails.
///
/// # Errors
///
/// - `Memory`, if there is no memory.
/// - `Write`, if a write failed. The sink received a prefix of the bytes.
pub fn search_observed<O: Observer + Drop, W: Sink, P: Progress>(
    alloc: Global,
    first_machine: &FirstMachine,
    states: u32,
    observer: O,
    progress: &mut P,
    out: &mut W,
) -> Result<Searched, Stop>
    requires { 1 ≤ states }
    ensures written { WritesOr W.Sink FailsBy (observed_bytes O.observe states first_machine.now) out.old out.new result }
    ensures found { IfOk result (λ r. IsSearched O.observe states first_machine.now r.states r.complete r.endings r.texts) }
{
    let mut search = Search::new(alloc, observer, first_machine)?;
    search_all(alloc, first_machine, states, &mut search, progress, out)?;
    Ok(search.end())
}
