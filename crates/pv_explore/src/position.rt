//! Machines at the end of a schedule.
ghost use Rattle.std.specs.Prelude.{◌≡◌, ◌+◌, ◌++◌, ◌∷◌, [], true, codes, map, is_some, IfOk, OnOk};
ghost use Rattle.pv_explore.specs.FirstMachines.{GaveNumber, one_if};
ghost use Rattle.pv_step_lines.specs.OfProcs.ProcessTable.{number_after, process_in};
ghost use Rattle.std.specs.FinMap.Entries.{find};
ghost use Rattle.std.specs.Ordering.{nat_cmp};
ghost use Rattle.pv_explore.specs.Plan.{state_at, tree_key};
ghost use Rattle.pv_explore.specs.Vertices.{vertex_step};
ghost use Rattle.pv_model.specs.Answers.Graph.{leads_to_text};
ghost use Rattle.pv_model.specs.Machine.{answer_bytes, answer_line, answer_line_bytes, has_ended, program_of, live_processes, named_tree, call_of, process_at};
ghost use Rattle.pv_laws_states.specs.States.{IsValid};
ghost use Rattle.pv_step_lines.specs.OfSession.Running.{stepped};
ghost use Rattle.pv_step_cache.specs.OfStateEncoding.Groups.{groups_of, state_groups};
ghost use Rattle.pv_step_cache.specs.OfStateEncoding.Encoded.{counts_group, encoded, encoded_all, encoded_of, numbered_encoded, plain, tree_groups};
ghost use Rattle.pv_explore.specs.Observing.{stays_inside};
ghost use Rattle.pv_step_cache.specs.OfLawsSteps.Commuting.{only_queries};
ghost use Rattle.pv_step_cache.specs.Steps.{texts_in};
ghost use Rattle.pv_streams.specs.Sinks.{FailsBy, Writes, WritesOr};
ghost use Rattle.pv_image.specs.OfTree.Sizes.{HaveSameSizes};

use crate::observer::Observer;
use crate::states::States;
use crate::witness::Count;
use pv_model::limits::LAST_PROCESS;
use pv_model::{CallRef, StepFault};
use pv_step_cache::state_encoding::{
    EncodedGroup, encoded_counts, encoded_process, encoded_state, encoded_trees, push_tree,
    state_groups,
};
use pv_step_lines::answers::Line;
use pv_step_lines::calls_state::Parts;
use pv_step_lines::procs::{Fetched, Processes};
use pv_step_lines::script::CallTexts;
use pv_step_lines::session::Session;
use pv_step_lines::{make_step, write_made};
use pv_streams::{Failed, Fragment, Plain, Sink, Stop};
use pv_trace::LineBuffer;
use std::alloc::Global;
use std::marker::Model;

/// A machine at the end of a schedule, with the last process number that it has given. A contract sees its state.
#[derive(Drop)]
pub struct Position {
    session: Session,
    last: u32,
}

impl Model for Position {
    ghost use Rattle.std.specs.Prelude.{◌≡◌};
    ghost use Rattle.pv_model.specs.State.{State};

    ghost Value = { State };

    ghost view = { λ p. p.session };

    ghost invariant = { λ p. p.last ≡ p.session.last_process };
}

/// A step that a machine made.
#[derive(Drop)]
pub struct ObservedStep {
    /// The machine after the step.
    pub position: Position,
    /// The texts observed of the step.
    pub texts: Vec<Vec<u8>>,
    /// Whether the step changes at most the inside of its process, unless it kills the process.
    pub inside: bool,
}

// Returns whether a call changes at most the registers, the buffer and the promises of its process.
fn only_asks(call: CallRef<'_>) -> bool
    ensures { result ≡ only_queries (call_of call.entry) }
{
    match call {
        CallRef::GetPid
        | CallRef::GetPpid
        | CallRef::Pledge(_, _)
        | CallRef::Stat(_)
        | CallRef::Lstat(_)
        | CallRef::Readlink(_)
        | CallRef::Fstat(_) => true,
        _ => false,
    }
}

// Returns whether the next step of a process changes at most the inside of that process, unless it kills the process.
fn stays_inside(session: &Session, pid: u32) -> bool
    ensures { result ≡ stays_inside (process_at session.now pid) }
{
    let mut texts = CallTexts::new();
    match session.parts().processes().fetch(pid, &mut texts) {
        Fetched::Register => true,
        Fetched::Call(call) => only_asks(call),
        Fetched::Gone => false,
    }
}

// Returns the last process number that a state has given. `known` is that number before the last step.
fn last_number(parts: &Parts, known: u32) -> u32
    requires gave { GaveNumber parts.now known }
    requires whole { IsValid parts.now }
    ensures { result ≡ parts.now.last_process }
{
    parts.invariant();
    if known >= LAST_PROCESS {
        return known;
    }
    if parts.processes().live(known + 1) {
        known + 1
    } else {
        known
    }
}

// Appends a process number.
pub(crate) fn push_number(pids: &mut Vec<u32>, pid: u32) -> Result<(), StepFault>
    ensures { OnOk result (pids.new.items ≡ pids.old.items ++ pid ∷ []) }
{
    match pids.push(pid) {
        Ok(()) => Ok(()),
        Err(_) => Err(StepFault::NoMemory),
    }
}

// Appends a process number if the process is live.
fn push_live(pids: &mut Vec<u32>, processes: &Processes, pid: u32) -> Result<(), StepFault>
    ensures { OnOk result (pids.new.items ≡ pids.old.items ++ one_if (is_some (process_in processes.now pid)) pid) }
{
    if processes.live(pid) {
        return push_number(pids, pid);
    }
    Ok(())
}

// Returns the numbers of the live processes in ascending order.
fn live_numbers(alloc: Global, processes: &Processes) -> Result<Vec<u32>, StepFault>
    ensures { IfOk result (λ pids. pids.items ≡ map (λ p. p.0) (live_processes processes.now.processes)) }
{
    processes.invariant();
    let mut pids = Vec::new(alloc);
    let mut last = 0;
    while let Some(pid) = processes.next_number(last) {
        push_live(&mut pids, processes, pid)?;
        last = pid;
    }
    Ok(pids)
}

// Returns the groups of a state's encoding. `last` is the last process number given.
fn encoded_groups(alloc: Global, parts: &Parts, last: u32) -> Result<Vec<Vec<Vec<u8>>>, StepFault>
    requires last { last ≡ parts.now.last_process }
    requires whole { IsValid parts.now }
    ensures { IfOk result (λ groups. groups_of groups.items ≡ state_groups parts.now) }
{
    Ok(state_groups(alloc, parts, last)?)
}

// The number of the state after a step, or `left out`.
#[derive(Clone, Copy)]
struct Leads(Option<usize>);

impl Fragment for Leads {
    ghost use Rattle.pv_model.specs.Answers.Graph.{leads_to_text};

    ghost text = { λ p. leads_to_text p.0 };

    fn write<W: Sink>(&self, out: &mut W) -> Result<(), Failed> {
        match self.0 {
            Some(number) => (Plain(b"to "), Count(number)).write(out),
            None => Plain(b"left out").write(out),
        }
    }
}

// Writes the STEP line of a step: the number of the state after it.
#[tactic(auto, unfolding(pv_model::specs::Trace::text_line))]
fn write_leads<W: Sink>(out: &mut W, pid: u32, number: Option<usize>) -> Result<(), Failed>
    ensures { Writes W.Sink (answer_line_bytes (answer_line pid (codes "STEP") (leads_to_text number))) out.old out.new result }
{
    let line = Line {
        pid,
        word: *b"STEP",
        text: Leads(number),
    };
    line.write(out)
}

impl Position {
    /// Returns the machine of a session.
    pub(crate) fn of_session(session: Session) -> Position
        ensures { result ≡ session }
    {
        let last = session.parts().processes().last_number();
        Position { session, last }
    }

    /// Returns whether the images of two machines have the same sizes, so that one machine can be set to the state of
    /// the other.
    pub(crate) fn fits(&self, other: &Position) -> bool
        ensures { result ≡ true → HaveSameSizes self.now.tree other.now.tree }
    {
        self.session.parts().tree().sizes() == other.session.parts().tree().sizes()
    }

    /// Sets the machine to the state of another one. Allocates no memory.
    ///
    /// # Errors
    ///
    /// `NoMemory`, if the reference count of a program is at its limit. The machine is then unchanged.
    pub(crate) fn copy_from(&mut self, other: &Position) -> Result<(), StepFault>
        requires { HaveSameSizes self.old.tree other.now.tree }
        ensures { OnOk result (self.new ≡ other.now) }
    {
        self.session.copy_from(&other.session)?;
        self.last = other.last;
        Ok(())
    }

    /// Makes a step of a process.
    ///
    /// # Errors
    ///
    /// `NoMemory`, if there is no memory. The state is then unchanged.
    pub(crate) fn step(&mut self, alloc: Global, pid: u32) -> Result<(), StepFault>
        ensures { OnOk result (self.new ≡ (stepped self.old pid).after) }
    {
        let _ = self.session.parts();
        self.session.step(alloc, pid)?;
        self.last = last_number(self.session.parts(), self.last);
        Ok(())
    }

    /// Makes a step for each process number of a schedule.
    ///
    /// # Errors
    ///
    /// `NoMemory`, if there is no memory.
    pub(crate) fn replay(&mut self, alloc: Global, schedule: &[u32]) -> Result<(), StepFault>
        ensures { OnOk result (self.new ≡ state_at program_of self.old schedule.now) }
    {
        for pid in schedule {
            self.step(alloc, *pid)?;
        }
        Ok(())
    }

    /// Makes a step of a process, and observes it.
    ///
    /// # Errors
    ///
    /// `NoMemory`, if there is no memory.
    pub fn observe<O: Observer>(
        self,
        alloc: Global,
        observer: &mut O,
        pid: u32,
    ) -> Result<ObservedStep, StepFault>
        ensures after { IfOk result (λ made. made.position ≡ (stepped self pid).after) }
        ensures texts { IfOk result (λ made. texts_in made.texts.items ≡ O.observe self pid (stepped self pid)) }
        ensures inside { IfOk result (λ made. made.inside ≡ stays_inside (process_at self pid)) }
    {
        let Position { mut session, last } = self;
        let _ = session.parts();
        let inside = stays_inside(&session, pid);
        let texts = observer.step(alloc, &mut session, pid)?;
        let last = last_number(session.parts(), last);
        Ok(ObservedStep {
            position: Position { session, last },
            texts,
            inside,
        })
    }

    /// Returns the session of the machine.
    pub fn into_session(self) -> Session
        ensures { result ≡ self }
    {
        let Position { session, .. } = self;
        session
    }

    /// Returns the state.
    pub fn parts(&self) -> &Parts
        ensures value { result.now ≡ self.now }
        ensures whole { IsValid self.now }
    {
        self.session.parts()
    }

    /// Returns the groups of the state's encoding, each with its owner and, for a live process, its outside view.
    ///
    /// # Errors
    ///
    /// `NoMemory`, if there is no memory.
    pub(crate) fn encoded(&self, alloc: Global) -> Result<Vec<EncodedGroup>, StepFault>
        ensures { IfOk result (λ groups. encoded_all groups.items ≡ encoded self.now) }
    {
        Ok(encoded_state(alloc, self.session.parts(), self.last)?)
    }

    /// Returns the group of a process, with its outside view if it is live.
    ///
    /// # Errors
    ///
    /// `NoMemory`, if there is no memory.
    pub(crate) fn encoded_process(&self, alloc: Global, pid: u32) -> Result<EncodedGroup, StepFault>
        ensures { IfOk result (λ group. encoded_of group ≡ numbered_encoded pid (find nat_cmp pid self.now.processes)) }
    {
        Ok(encoded_process(alloc, self.session.parts().processes(), pid)?)
    }

    /// Returns the group of the state's counts.
    ///
    /// # Errors
    ///
    /// `NoMemory`, if there is no memory.
    pub(crate) fn encoded_counts(&self, alloc: Global) -> Result<EncodedGroup, StepFault>
        ensures { IfOk result (λ group. encoded_of group ≡ plain (counts_group self.now)) }
    {
        Ok(encoded_counts(alloc, self.session.parts(), self.last)?)
    }

    /// Returns the groups of the state's open files and tree.
    ///
    /// # Errors
    ///
    /// `NoMemory`, if there is no memory.
    pub(crate) fn encoded_trees(&self, alloc: Global) -> Result<Vec<EncodedGroup>, StepFault>
        ensures { IfOk result (λ groups. encoded_all groups.items ≡ map plain (tree_groups self.now)) }
    {
        Ok(encoded_trees(alloc, self.session.parts())?)
    }

    /// Returns the number of the first process after `last`, live or ended, if there is one.
    pub(crate) fn next_process(&self, last: u32) -> Option<u32>
        ensures { result ≡ number_after last self.now.processes }
    {
        self.session.parts().processes().next_number(last)
    }

    /// Returns whether a process is live.
    pub(crate) fn is_live(&self, pid: u32) -> bool
        ensures { result ≡ is_some (process_at self.now pid) }
    {
        self.session.parts().processes().live(pid)
    }

    /// Returns the encoding of the tree. No process may be live.
    ///
    /// # Errors
    ///
    /// `NoMemory`, if there is no memory.
    pub(crate) fn tree_key(&self, alloc: Global) -> Result<Vec<u8>, StepFault>
        requires { has_ended self.now ≡ true }
        ensures { IfOk result (λ key. key.items ≡ tree_key (named_tree self.now.tree)) }
    {
        let mut key = Vec::new(alloc);
        push_tree(&mut key, self.session.parts().tree())?;
        Ok(key)
    }

    /// Returns the numbers of the live processes in ascending order.
    ///
    /// # Errors
    ///
    /// `NoMemory`, if there is no memory.
    pub fn live(&self, alloc: Global) -> Result<Vec<u32>, StepFault>
        ensures { IfOk result (λ pids. pids.items ≡ map (λ p. p.0) (live_processes self.now.processes)) }
    {
        live_numbers(alloc, self.session.parts().processes())
    }

    /// Returns whether no process is live.
    ///
    /// # Errors
    ///
    /// `NoMemory`, if there is no memory.
    pub(crate) fn has_ended(&self, alloc: Global) -> Result<bool, StepFault>
        ensures { IfOk result (λ ended. ended ≡ has_ended self.now) }
    {
        Ok(self.live(alloc)?.is_empty())
    }

    /// Makes a step of a process. Writes the number of the state after it among the visited states, and the explained
    /// lines of the step, without the lines at which entries were set.
    ///
    /// # Errors
    ///
    /// - `Memory`, if there is no memory.
    /// - `Write`, if a write failed. The sink received a prefix of the lines.
    pub(crate) fn write_step<O: Observer + Drop, W: Sink>(
        &mut self,
        alloc: Global,
        states: &States<O>,
        pid: u32,
        line_buffer: &mut LineBuffer,
        out: &mut W,
    ) -> Result<(), Stop>
        ensures { WritesOr W.Sink FailsBy (answer_bytes (vertex_step states.now self.old pid)) out.old out.new result }
    {
        let _ = self.session.parts();
        let mut texts = CallTexts::new();
        let made = make_step(alloc, &mut self.session, &mut texts, pid)?;
        self.last = last_number(self.session.parts(), self.last);
        let groups = encoded_groups(alloc, self.session.parts(), self.last)?;
        let number = states.find(alloc, &groups)?;
        write_leads(out, pid, number)?;
        Ok(write_made(out, line_buffer, &self.session, pid, &made, &[])?)
    }
}
