//! The search.
ghost use Rattle.std.specs.Prelude.{◌≡◌, ◌<◌, ◌++◌, ◌∷◌, [], true, bytes_eq, length, if◌then◌else◌, slice_get, IfOk, OnOk};
ghost use Rattle.std.specs.List.{list_any};
ghost use Rattle.pv_explore.specs.Observing.{is_shown};
ghost use Rattle.pv_explore.specs.Plan.{added_to, endings_after, first_visited, move_bytes, new_bytes, reported_after, reported_bytes, reported_from, shown_bytes, state_key, visited_from, with_found_at};
ghost use Rattle.pv_explore.specs.VisitedStates.{HasNumber, IsObservedStep};
ghost use Rattle.pv_explore.specs.Searches.{AreAt, endings_found, HasMoved, HasMovedAll, HasMovedFrom, IsAt, live_of, state_of_number, text_from, text_of_move, text_of_moves, visited_of, with_witness};
ghost use Rattle.pv_explore.specs.Witnesses.{longer, witness_of};
ghost use Rattle.pv_laws_states.specs.States.{IsValid};
ghost use Rattle.pv_model.specs.Machine.{program_of};
ghost use Rattle.pv_step_cache.specs.Steps.{texts_in};
ghost use Rattle.pv_streams.specs.Sinks.{FailsBy, Writes, WritesOr};

use crate::checkpoints::Checkpoints;
use crate::first_machine::FirstMachine;
use crate::observer::Observer;
use crate::position::{ObservedStep, Position};
use crate::progress::Progress;
use crate::searched::Searched;
use crate::states::{Followed, States, Visit};
use crate::witness::Witness;
use crate::witnesses::Witnesses;
use pv_model::StepFault;
use pv_step_cache::tables::Keys;
use pv_step_lines::answers::Line;
use pv_streams::{Failed, Fragment, Plain, Sink, Stop};
use std::alloc::Global;

/// The data of a search.
#[derive(Drop)]
pub(crate) struct Search<O: Observer + Drop> {
    /// The visited states, in the order in which they were visited.
    pub(crate) states: States<O>,
    // A witness for each state.
    witnesses: Witnesses,
    // The texts observed, in the order in which they were.
    reported: Keys,
    // The encodings of the trees in which no process is live.
    endings: Keys,
    /// Whether no state was left out.
    pub(crate) complete: bool,
}

// ---- lists

// Appends a byte string if the set does not contain it.
fn push_key(keys: &mut Keys, key: Vec<u8>) -> Result<(), StepFault>
    ensures { OnOk result (keys.new ≡ (if list_any (bytes_eq key.items) keys.old then keys.old else keys.old ++ key.items ∷ [])) }
{
    keys.add(key)?;
    Ok(())
}

// ---- texts

// Returns whether a text is written: it is neither empty nor a note.
fn is_shown(text: &[u8]) -> bool
    ensures { result ≡ is_shown text.now }
{
    match text.first() {
        Some(byte) => *byte != 0,
        None => false,
    }
}

// Writes the BY line with a step's witness, and a text of the step.
#[tactic(auto, unfolding(pv_model::specs::Trace::text_line))]
fn write_move<W: Sink>(out: &mut W, pid: u32, witness: &[u32], text: &[u8]) -> Result<(), Failed>
    ensures { Writes W.Sink (move_bytes pid witness.now text.now) out.old out.new result }
{
    let line = Line {
        pid,
        word: *b"BY  ",
        text: Witness(witness),
    };
    (line, Plain(text)).write(out)
}

// Appends a copy of a byte string if the set does not contain it.
fn learn_key(alloc: Global, keys: &mut Keys, key: &[u8]) -> Result<(), StepFault>
    ensures { OnOk result (keys.new ≡ (if list_any (bytes_eq key.now) keys.old then keys.old else keys.old ++ key.now ∷ [])) }
{
    keys.learn(alloc, key)?;
    Ok(())
}

// Returns the witness of state `number`, extended by a step.
fn longer_witness(
    alloc: Global,
    witnesses: &Witnesses,
    number: u32,
    pid: u32,
) -> Result<Vec<u32>, StepFault>
    requires { number < length witnesses.now }
    ensures { IfOk result (λ witness. witness.items ≡ longer witnesses.now number pid) }
{
    Ok(witnesses.longer(alloc, number, pid)?)
}

// Writes a text of a step from state `number` with the witness of the step, if the text is shown.
fn show<W: Sink>(
    alloc: Global,
    witnesses: &Witnesses,
    number: u32,
    pid: u32,
    text: &[u8],
    out: &mut W,
) -> Result<(), Stop>
    requires { number < length witnesses.now }
    ensures { WritesOr W.Sink FailsBy (shown_bytes pid (longer witnesses.now number pid) text.now) out.old out.new result }
{
    if !is_shown(text) {
        return Ok(());
    }
    let witness = longer_witness(alloc, witnesses, number, pid)?;
    Ok(write_move(out, pid, &witness, text)?)
}

// Records a text of a step from state `number`, and writes it if it is new and shown.
fn report_text<W: Sink>(
    alloc: Global,
    reported: &mut Keys,
    witnesses: &Witnesses,
    number: u32,
    pid: u32,
    text: &[u8],
    out: &mut W,
) -> Result<(), Stop>
    requires { number < length witnesses.now }
    ensures reported { OnOk result (reported.new ≡ added_to reported.old text.now) }
    ensures written { WritesOr W.Sink FailsBy (new_bytes reported.old pid (longer witnesses.now number pid) text.now) out.old out.new result }
{
    if reported.contains(text) {
        return Ok(());
    }
    show(alloc, witnesses, number, pid, text, out)?;
    learn_key(alloc, reported, text)?;
    Ok(())
}

/// Records the texts of a step from state `number`, and writes those that are new and shown.
///
/// # Errors
///
/// - `Memory`, if there is no memory.
/// - `Write`, if a write failed. The sink received a prefix of the bytes.
pub fn report<W: Sink>(
    alloc: Global,
    reported: &mut Keys,
    witnesses: &Witnesses,
    number: u32,
    pid: u32,
    texts: &[Vec<u8>],
    out: &mut W,
) -> Result<(), Stop>
    requires { number < length witnesses.now }
    ensures reported { OnOk result (reported.new ≡ reported_after reported.old (texts_in texts.now)) }
    ensures written { WritesOr W.Sink FailsBy (reported_bytes reported.old pid (longer witnesses.now number pid) (texts_in texts.now)) out.old out.new result }
{
    for text in texts {
        report_text(alloc, reported, witnesses, number, pid, text, out)?;
    }
    Ok(())
}

// ---- records

/// Records the tree of a state in which no process is live.
///
/// # Errors
///
/// `NoMemory`, if there is no memory.
pub fn add_ending(alloc: Global, endings: &mut Keys, position: &Position) -> Result<(), StepFault>
    ensures { OnOk result (endings.new ≡ endings_after endings.old position.now) }
{
    if !position.has_ended(alloc)? {
        return Ok(());
    }
    push_key(endings, position.tree_key(alloc)?)
}

// Records the tree of a state if the state was added and no process is live in it.
fn add_found_ending(
    alloc: Global,
    endings: &mut Keys,
    position: &Position,
    found: Visit,
) -> Result<(), StepFault>
    ensures { OnOk result (endings.new ≡ endings_found found endings.old position.now) }
{
    match found {
        Visit::Known(_) | Visit::Full => Ok(()),
        Visit::New => add_ending(alloc, endings, position),
    }
}

/// Returns a set of the first state alone.
///
/// # Errors
///
/// `NoMemory`, if there is no memory.
pub(crate) fn first_states<O: Observer + Drop>(
    alloc: Global,
    observer: O,
    position: &Position,
) -> Result<States<O>, StepFault>
    ensures { IfOk result (λ states. states ≡ state_key position.now ∷ []) }
{
    let encoded = position.encoded(alloc)?;
    let mut states = States::new(alloc, observer);
    let _ = states.find_or_add(alloc, 1, &encoded)?;
    Ok(states)
}

/// Returns the tree of the first state if no process is live in it.
///
/// # Errors
///
/// `NoMemory`, if there is no memory.
pub fn first_endings(alloc: Global, position: &Position) -> Result<Keys, StepFault>
    ensures { IfOk result (λ endings. endings ≡ endings_after [] position.now) }
{
    let mut endings = Keys::new(alloc);
    add_ending(alloc, &mut endings, position)?;
    Ok(endings)
}

impl<O: Observer + Drop> Search<O> {
    /// Returns a search that has visited the first state only.
    ///
    /// # Errors
    ///
    /// `NoMemory`, if there is no memory.
    pub(crate) fn new(
        alloc: Global,
        observer: O,
        first_machine: &FirstMachine,
    ) -> Result<Search<O>, StepFault>
        ensures { IfOk result (λ search. visited_of search ≡ first_visited first_machine.now) }
    {
        let position = first_machine.machine();
        let states = first_states(alloc, observer, position)?;
        let endings = first_endings(alloc, position)?;
        Ok(Search {
            states,
            witnesses: Witnesses::new(alloc),
            reported: Keys::new(alloc),
            endings,
            complete: true,
        })
    }

    /// Returns the result of the search.
    pub(crate) fn end(self) -> Searched
        ensures states { result.states ≡ length self.states }
        ensures complete { result.complete ≡ self.complete }
        ensures endings { result.endings ≡ length self.endings }
        ensures texts { result.texts ≡ self.reported }
    {
        let Search {
            states,
            witnesses: _,
            reported,
            endings,
            complete,
        } = self;
        Searched {
            states: states.len(),
            complete,
            endings: endings.len(),
            texts: reported,
        }
    }

    /// Returns the witnesses of the visited states, and whether no state was left out.
    pub(crate) fn into_witnesses(self) -> (Witnesses, bool)
        ensures witnesses { result.0 ≡ self.witnesses }
        ensures complete { result.1 ≡ self.complete }
    {
        let Search {
            states: _,
            witnesses,
            reported: _,
            endings: _,
            complete,
        } = self;
        (witnesses, complete)
    }

    // Records the result of visiting the state after a step of state `number`: if the state is new, its witness; if it
    // is left out, that the search is not complete.
    fn keep_witness(&mut self, number: u32, pid: u32, found: Visit) -> Result<(), StepFault>
        requires { number < length (visited_of self.old).witnesses }
        ensures { OnOk result (visited_of self.new ≡ with_witness found (longer (visited_of self.old).witnesses number pid) (visited_of self.old)) }
    {
        match found {
            Visit::Known(_) => Ok(()),
            Visit::Full => {
                self.complete = false;
                Ok(())
            }
            Visit::New => {
                self.witnesses.push(number, pid)?;
                Ok(())
            }
        }
    }

    // Visits the state of a machine after a step of state `number`, and caches the transition. `texts` are the texts
    // observed of the step. The state is added if it is new and the limit is not reached.
    fn visit(
        &mut self,
        alloc: Global,
        limit: u32,
        number: u32,
        pid: u32,
        texts: Vec<Vec<u8>>,
        inside: bool,
        position: &Position,
    ) -> Result<(), StepFault>
        requires made { IsObservedStep O.observe self.old.states number pid (texts_in texts.items) inside position.now }
        requires found { number < length (visited_of self.old).witnesses }
        ensures { OnOk result (visited_of self.new ≡ with_found_at limit (visited_of self.old) (longer (visited_of self.old).witnesses number pid) position.now) }
    {
        let found = self.states.arrive(
            alloc,
            limit as usize,
            number as usize,
            pid,
            texts,
            inside,
            position,
        )?;
        add_found_ending(alloc, &mut self.endings, position, found)?;
        self.keep_witness(number, pid, found)
    }

    // Makes a step of a process with a machine in state `number`. Writes its texts if they are new, caches the transition,
    // and visits the state after it. Returns the machine, in an unspecified state.
    fn make_new_move<W: Sink>(
        &mut self,
        alloc: Global,
        limit: u32,
        number: u32,
        from: Position,
        pid: u32,
        out: &mut W,
    ) -> Result<Position, Stop>
        requires there { HasNumber self.old.states number from }
        requires found { number < length (visited_of self.old).witnesses }
        ensures visited { OnOk result (HasMovedFrom O.observe limit from number pid self.old self.new) }
        ensures written { WritesOr W.Sink FailsBy (text_from O.observe from number pid self.old) out.old out.new result }
    {
        let _ = from.parts();
        let ObservedStep {
            position,
            texts,
            inside,
        } = self.states.observe(alloc, from, pid)?;
        report(
            alloc,
            &mut self.reported,
            &self.witnesses,
            number,
            pid,
            &texts,
            out,
        )?;
        self.visit(alloc, limit, number, pid, texts, inside, &position)?;
        Ok(position)
    }

    // Returns the machine in state `number`.
    fn position(
        &self,
        alloc: Global,
        checkpoints: &mut Checkpoints<'_>,
        number: u32,
    ) -> Result<Position, StepFault>
        requires { number < length (visited_of self.now).witnesses }
        ensures unchanged { checkpoints.new ≡ checkpoints.old }
        ensures at { IfOk result (λ position. position ≡ state_of_number checkpoints.old self.now number) }
    {
        let witness = self.witnesses.at(alloc, number)?;
        checkpoints.position(alloc, &witness)
    }

    // Makes a step of a process in state `number` with a machine. Writes its texts if they are new, caches the transition,
    // and visits the state after it.
    fn make_uncached_move<W: Sink>(
        &mut self,
        alloc: Global,
        checkpoints: &mut Checkpoints<'_>,
        limit: u32,
        number: u32,
        pid: u32,
        out: &mut W,
    ) -> Result<(), Stop>
        requires there { IsAt checkpoints.old self.old number }
        requires found { number < length (visited_of self.old).witnesses }
        ensures unchanged { checkpoints.new ≡ checkpoints.old }
        ensures visited { OnOk result (HasMoved O.observe limit checkpoints.old number pid self.old self.new) }
        ensures written { WritesOr W.Sink FailsBy (text_of_move O.observe limit checkpoints.old number pid self.old) out.old out.new result }
    {
        let from = self.position(alloc, checkpoints, number)?;
        let machine = self.make_new_move(alloc, limit, number, from, pid, out)?;
        checkpoints.release(machine);
        Ok(())
    }

    // Takes a step of a process in state `number`, from the cache if possible. Writes its texts if they are new, and visits
    // the state after it.
    fn make_move<W: Sink>(
        &mut self,
        alloc: Global,
        checkpoints: &mut Checkpoints<'_>,
        limit: u32,
        number: u32,
        pid: u32,
        out: &mut W,
    ) -> Result<(), Stop>
        requires whole { IsValid checkpoints.old }
        requires there { IsAt checkpoints.old self.old number }
        requires found { number < length (visited_of self.old).witnesses }
        ensures unchanged { checkpoints.new ≡ checkpoints.old }
        ensures visited { OnOk result (HasMoved O.observe limit checkpoints.old number pid self.old self.new) }
        ensures written { WritesOr W.Sink FailsBy (text_of_move O.observe limit checkpoints.old number pid self.old) out.old out.new result }
    {
        let limited = limit as usize;
        let Some(followed) = self.states.follow(alloc, limited, number as usize, pid)? else {
            return self.make_uncached_move(alloc, checkpoints, limit, number, pid, out);
        };
        let Followed { texts, found } = followed;
        report(
            alloc,
            &mut self.reported,
            &self.witnesses,
            number,
            pid,
            &texts,
            out,
        )?;
        self.keep_witness(number, pid, found)?;
        Ok(())
    }

    // Returns the live processes of state `number`.
    fn live(
        &self,
        alloc: Global,
        checkpoints: &mut Checkpoints<'_>,
        number: u32,
    ) -> Result<Vec<u32>, StepFault>
        requires whole { IsValid checkpoints.old }
        requires there { IsAt checkpoints.old self.now number }
        requires found { number < length (visited_of self.now).witnesses }
        ensures unchanged { checkpoints.new ≡ checkpoints.old }
        ensures live { IfOk result (λ pids. pids.items ≡ live_of checkpoints.old self.now number) }
    {
        match self.states.live(alloc, number as usize)? {
            Some(pids) => Ok(pids),
            None => {
                let machine = self.position(alloc, checkpoints, number)?;
                let pids = machine.live(alloc)?;
                checkpoints.release(machine);
                Ok(pids)
            }
        }
    }

    // Takes a step of each live process in state `number`.
    fn make_moves<W: Sink>(
        &mut self,
        alloc: Global,
        checkpoints: &mut Checkpoints<'_>,
        limit: u32,
        number: u32,
        out: &mut W,
    ) -> Result<(), Stop>
        requires whole { IsValid checkpoints.old }
        requires there { IsAt checkpoints.old self.old number }
        requires found { number < length (visited_of self.old).witnesses }
        ensures unchanged { checkpoints.new ≡ checkpoints.old }
        ensures visited { OnOk result (HasMovedAll O.observe limit checkpoints.old number self.old self.new) }
        ensures written { WritesOr W.Sink FailsBy (text_of_moves O.observe limit checkpoints.old number self.old) out.old out.new result }
    {
        let pids = self.live(alloc, checkpoints, number)?;
        let live = pids.as_slice();
        for pid in live {
            self.make_move(alloc, checkpoints, limit, number, *pid, out)?;
        }
        Ok(())
    }

    /// Returns the witness of state `number`, if that state was visited.
    ///
    /// # Errors
    ///
    /// `NoMemory`, if there is no memory.
    pub(crate) fn witness(
        &self,
        alloc: Global,
        number: usize,
    ) -> Result<Option<Vec<u32>>, StepFault>
        ensures { IfOk result (λ witness. witness_of witness ≡ slice_get (visited_of self.now).witnesses number) }
    {
        Ok(self.witnesses.witness(alloc, number)?)
    }

    /// Searches from the first state, and visits at most `limit` states. Makes the steps of all visited states in the
    /// order in which they were visited, and writes those whose text is new. Shows the progress before the steps of
    /// each state.
    ///
    /// # Errors
    ///
    /// - `Memory`, if there is no memory.
    /// - `Write`, if a write failed. The sink received a prefix of the lines.
    pub(crate) fn search<W: Sink, P: Progress>(
        &mut self,
        alloc: Global,
        first_machine: &FirstMachine,
        limit: u32,
        progress: &mut P,
        out: &mut W,
    ) -> Result<(), Stop>
        requires { AreAt first_machine.now (visited_of self.old) }
        ensures visited { OnOk result (visited_of self.new ≡ visited_from O.observe limit program_of first_machine.now limit 0 (visited_of self.old)) }
        ensures written { WritesOr W.Sink FailsBy (reported_from O.observe limit program_of first_machine.now limit 0 (visited_of self.old)) out.old out.new result }
    {
        let _ = first_machine.machine().parts();
        let mut checkpoints = Checkpoints::new(alloc, first_machine);
        for number in 0..limit {
            let found = self.states.len();
            if number as usize >= found {
                return Ok(());
            }
            progress.show(found, found - number as usize);
            self.make_moves(alloc, &mut checkpoints, limit, number, out)?;
            self.states.unreference(alloc, number as usize);
        }
        Ok(())
    }
}
