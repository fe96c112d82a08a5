//! The reduced search.
ghost use Rattle.std.specs.Prelude.{◌≡◌, ◌<◌, ◌++◌, ◌∷◌, [], true, filter, length, IfOk, IfSome, OnOk};
ghost use Rattle.pv_reduced.specs.Keys.{reduced_parts};
ghost use Rattle.pv_reduced.specs.Plan.{reduced_first_visited, reduced_reported_from, reduced_visited_from, reduced_with_found_at};
ghost use Rattle.pv_reduced.specs.Searches.{MakesReducedStep, MakesReducedSteps, HaveWitnesses, moving_of, reduced_state_of, reduced_text_of_move, reduced_text_of_moves, reduced_visited_of};
ghost use Rattle.pv_explore.specs.Rows.{parts_in};
ghost use Rattle.pv_explore.specs.Witnesses.{longer};
ghost use Rattle.pv_laws_classes.specs.Reduced.{bound_by, may_step};
ghost use Rattle.pv_model.specs.Machine.{program_of, State};
ghost use Rattle.pv_streams.specs.Sinks.{FailsBy, WritesOr};

use crate::live_tables::LiveTables;
use crate::part_lists::{Addition, PartLists};
use crate::parts::reduced_parts;
use pv_explore::step_cache::tables::Keys;
use pv_explore::{
    Checkpoints, FirstMachine, ObservedStep, Observer, Position, Progress, Searched, Witnesses,
    add_ending, first_endings, report,
};
use pv_model::StepFault;
use pv_script::CallTexts;
use pv_state_encoding::calls_state::Parts;
use pv_state_encoding::procs::Fetched;
use pv_streams::{Sink, Stop};
use std::alloc::{AllocError, Global};

/// The data of a search.
#[derive(Drop)]
pub(crate) struct ReducedSearch<O: Observer + Drop> {
    observer: O,
    // The live variables of the programs.
    tables: LiveTables,
    // For each visited state the process that must make the next step, or 0.
    bounds: Vec<u32>,
    // The parts of each visited state, in the order in which the states were visited.
    lists: PartLists,
    // A witness for each state.
    witnesses: Witnesses,
    // The texts observed, in the order in which they were.
    reported: Keys,
    // The encodings of the trees in which no process is live.
    endings: Keys,
    // Whether no state was left out.
    complete: bool,
}

// ---- steps on registers

// Returns the process that must make the step after a step of a process, or 0 if each process may.
fn bound_by(state: &Parts, pid: u32) -> u32
    ensures { result ≡ bound_by state.now pid }
{
    let mut texts = CallTexts::new();
    match state.processes().fetch(pid, &mut texts) {
        Fetched::Register => pid,
        Fetched::Gone | Fetched::Call(_) => 0,
    }
}

// Returns whether a process may make the step after a schedule, given the process that must, or 0.
fn may_step(bound: u32, pid: u32) -> bool
    ensures { result ≡ may_step bound pid }
{
    bound == 0 || bound == pid
}

// Appends a process if it may make the next step.
fn push_moving(may: &mut Vec<u32>, bound: u32, pid: u32) -> Result<(), AllocError>
    ensures { OnOk result (may.new.items ≡ may.old.items ++ filter (may_step bound) (pid ∷ [])) }
{
    if !may_step(bound, pid) {
        return Ok(());
    }
    may.push(pid)?;
    Ok(())
}

// Returns the processes that may make the next step.
fn those_moving(alloc: Global, bound: u32, pids: &[u32]) -> Result<Vec<u32>, AllocError>
    ensures { IfOk result (λ may. may.items ≡ filter (may_step bound) pids.now) }
{
    let mut may = Vec::new(alloc);
    for pid in pids {
        push_moving(&mut may, bound, *pid)?;
    }
    Ok(may)
}

// ---- the first state

// Returns the parts of the state of a machine.
fn parts_at(
    alloc: Global,
    tables: &mut LiveTables,
    bound: u32,
    position: &Position,
) -> Result<Vec<Vec<u8>>, StepFault>
    ensures { IfOk result (λ parts. parts_in parts.items ≡ reduced_parts bound position.now) }
{
    Ok(reduced_parts(alloc, tables, bound, position.parts())?)
}

// Returns a set of the parts of the first state alone.
fn first_lists(
    alloc: Global,
    tables: &mut LiveTables,
    position: &Position,
) -> Result<PartLists, StepFault>
    ensures { IfOk result (λ lists. lists ≡ reduced_parts 0 position.now ∷ []) }
{
    let parts = parts_at(alloc, tables, 0, position)?;
    let mut lists = PartLists::new(alloc);
    let _ = lists.add(alloc, 1, &parts)?;
    Ok(lists)
}

// Appends a bound.
fn push_bound(bounds: &mut Vec<u32>, bound: u32) -> Result<(), AllocError>
    ensures { OnOk result (bounds.new.items ≡ bounds.old.items ++ bound ∷ []) }
{
    bounds.push(bound)?;
    Ok(())
}

// Returns the bound of the first state: each process may make the next step.
fn first_bounds(alloc: Global) -> Result<Vec<u32>, StepFault>
    ensures { IfOk result (λ bounds. bounds.items ≡ 0 ∷ []) }
{
    let mut bounds = Vec::new(alloc);
    push_bound(&mut bounds, 0)?;
    Ok(bounds)
}

impl<O: Observer + Drop> ReducedSearch<O> {
    /// Returns the data with the first state of a machine alone.
    ///
    /// # Errors
    ///
    /// `NoMemory`, if there is no memory.
    pub(crate) fn new(
        alloc: Global,
        observer: O,
        first_machine: &FirstMachine,
    ) -> Result<ReducedSearch<O>, StepFault>
        ensures { IfOk result (λ search. reduced_visited_of search ≡ reduced_first_visited first_machine.now) }
    {
        let position = first_machine.machine();
        let mut tables = LiveTables::new(alloc);
        let lists = first_lists(alloc, &mut tables, position)?;
        let bounds = first_bounds(alloc)?;
        let endings = first_endings(alloc, position)?;
        Ok(ReducedSearch {
            observer,
            tables,
            bounds,
            lists,
            witnesses: Witnesses::new(alloc),
            reported: Keys::new(alloc),
            endings,
            complete: true,
        })
    }

    /// Returns the result of the search.
    pub(crate) fn end(self) -> Searched
        ensures states { result.states ≡ length (reduced_visited_of self).keys }
        ensures complete { result.complete ≡ (reduced_visited_of self).complete }
        ensures endings { result.endings ≡ length (reduced_visited_of self).endings }
        ensures texts { result.texts ≡ (reduced_visited_of self).reported }
    {
        let ReducedSearch {
            observer: _,
            tables: _,
            bounds: _,
            lists,
            witnesses: _,
            reported,
            endings,
            complete,
        } = self;
        Searched {
            states: lists.len(),
            complete,
            endings: endings.len(),
            texts: reported,
        }
    }

    /// Returns the witnesses of the visited states, and whether no state was left out.
    pub(crate) fn into_witnesses(self) -> (Witnesses, bool)
        ensures witnesses { result.0 ≡ (reduced_visited_of self).witnesses }
        ensures complete { result.1 ≡ (reduced_visited_of self).complete }
    {
        let ReducedSearch {
            observer: _,
            tables: _,
            bounds: _,
            lists: _,
            witnesses,
            reported: _,
            endings: _,
            complete,
        } = self;
        (witnesses, complete)
    }

    // Visits the state of a machine after a step of state `number`, given the process that must make the next step, or
    // 0. The state is added if it is new and the limit is not reached.
    fn visit(
        &mut self,
        alloc: Global,
        limit: u32,
        number: u32,
        pid: u32,
        bound: u32,
        position: &Position,
    ) -> Result<(), StepFault>
        requires { number < length (reduced_visited_of self.old).witnesses }
        ensures { OnOk result (reduced_visited_of self.new ≡ reduced_with_found_at limit (reduced_visited_of self.old) bound (longer (reduced_visited_of self.old).witnesses number pid) position.now) }
    {
        let parts = parts_at(alloc, &mut self.tables, bound, position)?;
        let addition = self.lists.add(alloc, limit as usize, &parts)?;
        match addition {
            Addition::Known => Ok(()),
            Addition::Full => {
                self.complete = false;
                Ok(())
            }
            Addition::New => {
                add_ending(alloc, &mut self.endings, position)?;
                push_bound(&mut self.bounds, bound)?;
                self.witnesses.push(number, pid)?;
                Ok(())
            }
        }
    }

    // Returns the machine in state `number`.
    fn position(
        &self,
        alloc: Global,
        checkpoints: &mut Checkpoints<'_>,
        number: u32,
    ) -> Result<Position, StepFault>
        requires { number < length (reduced_visited_of self.now).witnesses }
        ensures unchanged { checkpoints.new ≡ checkpoints.old }
        ensures at { IfOk result (λ position. position ≡ reduced_state_of checkpoints.old self.now number) }
    {
        let witness = self.witnesses.at(alloc, number)?;
        checkpoints.position(alloc, &witness)
    }

    // Makes a step of a process with a machine in state `number`. Writes its texts if they are new, and visits the state
    // after it.
    fn make_move<W: Sink>(
        &mut self,
        alloc: Global,
        checkpoints: &mut Checkpoints<'_>,
        limit: u32,
        number: u32,
        from: Position,
        pid: u32,
        out: &mut W,
    ) -> Result<(), Stop>
        requires found { number < length (reduced_visited_of self.old).witnesses }
        requires at { from ≡ reduced_state_of checkpoints.old self.old number }
        ensures unchanged { checkpoints.new ≡ checkpoints.old }
        ensures visited { OnOk result (MakesReducedStep O.observe limit checkpoints.old number pid self.old self.new) }
        ensures written { WritesOr W.Sink FailsBy (reduced_text_of_move O.observe limit checkpoints.old number pid self.old) out.old out.new result }
    {
        let bound = bound_by(from.parts(), pid);
        let ObservedStep {
            position,
            texts,
            ..
        } = from.observe(alloc, &mut self.observer, pid)?;
        report(
            alloc,
            &mut self.reported,
            &self.witnesses,
            number,
            pid,
            &texts,
            out,
        )?;
        self.visit(alloc, limit, number, pid, bound, &position)?;
        checkpoints.release(position);
        Ok(())
    }

    // Returns the processes that make a step in state `number`, given a machine in this state.
    fn moving(&self, alloc: Global, machine: &Position, number: u32) -> Result<Vec<u32>, StepFault>
        requires found { number < length (reduced_visited_of self.now).witnesses }
        requires bounds { HaveWitnesses (reduced_visited_of self.now) }
        ensures { IfOk result (λ pids. (s : State) → machine.now ≡ reduced_state_of s self.now number → pids.items ≡ moving_of s self.now number) }
    {
        let pids = machine.live(alloc)?;
        Ok(those_moving(alloc, self.bounds[number as usize], &pids)?)
    }

    // Returns a machine in state `number`: the one given, if there is one.
    fn position_or(
        &self,
        alloc: Global,
        checkpoints: &mut Checkpoints<'_>,
        number: u32,
        machine: Option<Position>,
    ) -> Result<Position, StepFault>
        requires found { number < length (reduced_visited_of self.now).witnesses }
        requires at { IfSome machine (λ m. m ≡ reduced_state_of checkpoints.old self.now number) }
        ensures unchanged { checkpoints.new ≡ checkpoints.old }
        ensures at { IfOk result (λ position. position ≡ reduced_state_of checkpoints.old self.now number) }
    {
        match machine {
            Some(machine) => Ok(machine),
            None => self.position(alloc, checkpoints, number),
        }
    }

    // Makes a step of each process that may in state `number`.
    fn make_moves<W: Sink>(
        &mut self,
        alloc: Global,
        checkpoints: &mut Checkpoints<'_>,
        limit: u32,
        number: u32,
        out: &mut W,
    ) -> Result<(), Stop>
        requires found { number < length (reduced_visited_of self.old).witnesses }
        requires bounds { HaveWitnesses (reduced_visited_of self.old) }
        ensures unchanged { checkpoints.new ≡ checkpoints.old }
        ensures visited { OnOk result (MakesReducedSteps O.observe limit checkpoints.old number self.old self.new) }
        ensures written { WritesOr W.Sink FailsBy (reduced_text_of_moves O.observe limit checkpoints.old number self.old) out.old out.new result }
    {
        let machine = self.position(alloc, checkpoints, number)?;
        let pids = self.moving(alloc, &machine, number)?;
        let mut machine = Some(machine);
        let moving = pids.as_slice();
        for pid in moving {
            let from = self.position_or(alloc, checkpoints, number, machine.take())?;
            self.make_move(alloc, checkpoints, limit, number, from, *pid, out)?;
        }
        Ok(())
    }

    /// Searches from the first state, and visits at most `limit` states. Makes the steps of all visited states in the
    /// order in which they were visited, and writes those whose text is new. Shows the progress before the steps of each
    /// state.
    ///
    /// # Errors
    ///
    /// - `Memory`, if there is no memory.
    /// - `Write`, if a write failed. The sink received a prefix of the lines.
    pub(crate) fn search<W: Sink, P: Progress>(
        &mut self,
        alloc: Global,
        first_machine: &FirstMachine,
        limit: u32,
        progress: &mut P,
        out: &mut W,
    ) -> Result<(), Stop>
        requires { HaveWitnesses (reduced_visited_of self.old) }
        ensures visited { OnOk result (reduced_visited_of self.new ≡ reduced_visited_from O.observe limit program_of first_machine.now limit 0 (reduced_visited_of self.old)) }
        ensures written { WritesOr W.Sink FailsBy (reduced_reported_from O.observe limit program_of first_machine.now limit 0 (reduced_visited_of self.old)) out.old out.new result }
    {
        let mut checkpoints = Checkpoints::new(alloc, first_machine);
        for number in 0..limit {
            let found = self.lists.len();
            if number as usize >= found {
                return Ok(());
            }
            progress.show(found, found - number as usize);
            self.make_moves(alloc, &mut checkpoints, limit, number, out)?;
        }
        Ok(())
    }
}
