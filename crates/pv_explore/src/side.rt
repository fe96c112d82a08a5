//! One side of a search of pairs: a machine and its visited states.
ghost use Rattle.std.specs.Prelude.{◌≡◌, ◌∷◌, [], IfOk, OnOk, length};
ghost use Rattle.pv_explore.specs.Plan.{live_at, state_at, state_key};
ghost use Rattle.pv_explore.specs.Sides.{IsNumbered, visit_number};
ghost use Rattle.pv_explore.specs.VisitedStates.{HasNumber, IsObservedStep};
ghost use Rattle.pv_laws_states.specs.States.{IsValid};
ghost use Rattle.pv_model.specs.Machine.{program_of};
ghost use Rattle.pv_step_lines.specs.OfSession.Running.{stepped};
ghost use Rattle.pv_step_cache.specs.OfStateEncoding.Encoded.{encoded};
ghost use Rattle.pv_step_cache.specs.Steps.{texts_in};

use crate::checkpoints::Checkpoints;
use crate::first_machine::FirstMachine;
use crate::observer::Observer;
use crate::position::{ObservedStep, Position};
use crate::search::first_states;
use crate::states::{Followed, States, Visit};
use pv_model::StepFault;
use std::alloc::{AllocError, Global};
use std::marker::Model;
use std::rc::Rc;

/// One side of a search of pairs of states: a machine and its visited states. A contract sees the state before the first
/// step, and the encoding of each visited state.
#[derive(Drop)]
pub struct Side<'a, O: Observer + Drop> {
    states: States<O>,
    checkpoints: Checkpoints<'a>,
}

impl<'a, O: Observer + Drop> Model for Side<'a, O> {
    ghost use Rattle.pv_explore.specs.Sides.{SideStates};
    ghost use Rattle.pv_laws_states.specs.States.{IsValid};

    ghost Value = { SideStates };

    ghost view = { λ s. record { first = s.checkpoints; keys = s.states } };

    ghost invariant = { λ s. IsValid s.checkpoints };
}

/// The result of a step of a process in a visited state.
#[derive(Drop)]
pub struct SideStep {
    /// The texts observed of the step.
    pub texts: Rc<Vec<Vec<u8>>>,
    /// The number of the state after the step, or `None` if that state is new and the limit is reached.
    pub number: Option<usize>,
}

// Returns the number of a visited state, given the number of states before the visit.
fn number_of(found: Visit, before: usize) -> Option<usize>
    ensures { result ≡ visit_number found before }
{
    match found {
        Visit::Known(number) => Some(number),
        Visit::Full => None,
        Visit::New => Some(before),
    }
}

// Returns a copy of a list of texts.
fn copy_of_texts(alloc: Global, texts: &[Vec<u8>]) -> Result<Vec<Vec<u8>>, AllocError>
    ensures { IfOk result (λ copy. texts_in copy.items ≡ texts_in texts.now) }
{
    let mut copy = Vec::new(alloc);
    for text in texts {
        let one = Vec::from_slice(alloc, text)?;
        copy.push(one)?;
    }
    Ok(copy)
}

// Returns a copy of a list of texts, which can be shared.
fn shared_copy_of(alloc: Global, texts: &[Vec<u8>]) -> Result<Rc<Vec<Vec<u8>>>, AllocError>
    ensures { IfOk result (λ copy. texts_in copy.value.items ≡ texts_in texts.now) }
{
    let copy = copy_of_texts(alloc, texts)?;
    Ok(Rc::new(alloc, copy)?)
}

impl<'a, O: Observer + Drop> Side<'a, O> {
    /// Returns a side on which the first state of a machine is visited.
    ///
    /// # Errors
    ///
    /// `NoMemory`, if there is no memory.
    pub fn new(
        alloc: Global,
        observer: O,
        first_machine: &'a FirstMachine,
    ) -> Result<Side<'a, O>, StepFault>
        ensures { IfOk result (λ side. side ≡ record { first = first_machine.now; keys = state_key first_machine.now ∷ [] }) }
    {
        let _ = first_machine.machine().parts();
        let states = first_states(alloc, observer, first_machine.machine())?;
        let checkpoints = Checkpoints::new(alloc, first_machine);
        Ok(Side {
            states,
            checkpoints,
        })
    }

    /// Does nothing. Its contract states the invariant: the state before the first step is valid.
    pub fn invariant(&self)
        ensures { IsValid self.now.first }
    {
        let _ = &self.checkpoints;
    }

    // Returns the live processes at the end of a schedule, by a machine.
    fn live_of_machine(&mut self, alloc: Global, witness: &[u32]) -> Result<Vec<u32>, StepFault>
        ensures unchanged { self.new ≡ self.old }
        ensures live { IfOk result (λ pids. pids.items ≡ live_at program_of self.old.first witness.now) }
    {
        let machine = self.checkpoints.position(alloc, witness)?;
        let pids = machine.live(alloc)?;
        self.checkpoints.release(machine);
        Ok(pids)
    }

    /// Returns the live processes of visited state `number` in ascending order. `witness` is a schedule that leads to
    /// that state.
    ///
    /// # Errors
    ///
    /// `NoMemory`, if there is no memory.
    pub fn live(
        &mut self,
        alloc: Global,
        number: usize,
        witness: &[u32],
    ) -> Result<Vec<u32>, StepFault>
        requires there { HasNumber self.old.keys number (state_at program_of self.old.first witness.now) }
        ensures unchanged { self.new ≡ self.old }
        ensures live { IfOk result (λ pids. pids.items ≡ live_at program_of self.old.first witness.now) }
    {
        match self.states.live(alloc, number)? {
            Some(pids) => Ok(pids),
            None => self.live_of_machine(alloc, witness),
        }
    }

    // Makes a step of a process in visited state `number` with a machine in that state. Returns the machine, in an
    // unspecified state, and the result of the step.
    fn make_step(
        &mut self,
        alloc: Global,
        limit: usize,
        number: usize,
        from: Position,
        pid: u32,
    ) -> Result<(Position, SideStep), StepFault>
        requires there { HasNumber self.old.keys number from }
        ensures first { self.new.first ≡ self.old.first }
        ensures texts { IfOk result (λ made. texts_in made.1.texts.value.items ≡ O.observe from pid (stepped from pid)) }
        ensures number { IfOk result (λ made. IsNumbered limit self.old.keys self.new.keys (state_key (stepped from pid).after) made.1.number) }
    {
        let _ = from.parts();
        let ObservedStep {
            position,
            texts,
            inside,
        } = self.states.observe(alloc, from, pid)?;
        let copy = shared_copy_of(alloc, &texts)?;
        let before = self.states.len();
        let found = self
            .states
            .arrive(alloc, limit, number, pid, texts, inside, &position)?;
        let number = number_of(found, before);
        Ok((
            position,
            SideStep {
                texts: copy,
                number,
            },
        ))
    }

    /// Makes a step of a process in visited state `number`, and visits the state after it. That state is added if it is
    /// new and there are fewer than `limit` states. `witness` is a schedule that leads to state `number`.
    ///
    /// # Errors
    ///
    /// `NoMemory`, if there is no memory.
    pub fn step(
        &mut self,
        alloc: Global,
        limit: usize,
        number: usize,
        witness: &[u32],
        pid: u32,
    ) -> Result<SideStep, StepFault>
        requires there { HasNumber self.old.keys number (state_at program_of self.old.first witness.now) }
        ensures first { self.new.first ≡ self.old.first }
        ensures texts { IfOk result (λ made. texts_in made.texts.value.items ≡ O.observe (state_at program_of self.old.first witness.now) pid (stepped (state_at program_of self.old.first witness.now) pid)) }
        ensures number { IfOk result (λ made. IsNumbered limit self.old.keys self.new.keys (state_key (stepped (state_at program_of self.old.first witness.now) pid).after) made.number) }
    {
        let before = self.states.len();
        let Some(followed) = self.states.follow(alloc, limit, number, pid)? else {
            let from = self.checkpoints.position(alloc, witness)?;
            let (machine, made) = self.make_step(alloc, limit, number, from, pid)?;
            self.checkpoints.release(machine);
            return Ok(made);
        };
        let Followed { texts, found } = followed;
        let number = number_of(found, before);
        Ok(SideStep { texts, number })
    }
}
