//! The visited states, each as a row of small numbers.
ghost use Rattle.std.specs.Prelude.{◌≡◌, ◌++◌, ◌∷◌, [], length, position, bytes_eq, IfOk, IfSome, OnErr, OnOk};
ghost use Rattle.std.specs.List.{AllByRecursion};
ghost use Rattle.pv_explore.specs.Rows.{AreOfState, Grew, IsAmong, IsGroupVisited, group_row, number_in, parts_in, state_row};
ghost use Rattle.pv_explore.specs.VisitedStates.{AreCellsIn, AreReleased, AreLiveAt, ArePlaced, ArePushed, AreStoredAt, AreEncoded, IsFoundBy, IsFoundIn, IsObservedStep, IsRecalled, IsValidAt, MayFollow, MayKeep, cells_row, group_number};
ghost use Rattle.pv_explore.specs.Observing.{stays_inside};
ghost use Rattle.pv_explore.specs.Plan.{state_key};
ghost use Rattle.pv_model.specs.Machine.{process_at};
ghost use Rattle.pv_step_lines.specs.OfSession.Running.{stepped};
ghost use Rattle.pv_step_cache.specs.Steps.{texts_in};
ghost use Rattle.pv_step_cache.specs.OfStateEncoding.Groups.{groups_of, concatenated_groups};
ghost use Rattle.pv_step_cache.specs.OfStateEncoding.Encoded.{encoded_all, encoded_of};

use crate::after::cells_after;
use crate::observer::Observer;
use crate::position::{ObservedStep, Position};
use pv_model::StepFault;
use pv_step_cache::state_encoding::{EncodedGroup, push_number};
use pv_step_cache::tables::Keys;
use pv_step_cache::{CachedSteps, Cell, Recalled, has_owner, live_owners, row_of_cells};
use std::alloc::{AllocError, Global};
use std::marker::Model;
use std::rc::Rc;

/// A set of states, in the order in which they were visited. A contract sees the encoding of each.
///
/// A state is stored as a row of the numbers of its groups, and a group as a row of the numbers of its parts. Each
/// part, group and row is stored once.
#[derive(Drop)]
pub(crate) struct States<O: Observer + Drop> {
    // The observer of the steps.
    observer: O,
    // The encodings of parts.
    parts: Keys,
    // Rows of part numbers.
    groups: Keys,
    // Rows of group numbers.
    rows: Keys,
    // The cells of each state whose steps are not all made yet.
    cells: Vec<Vec<Cell>>,
    // The cached transitions.
    steps: CachedSteps,
}

/// The result of visiting a state.
#[derive(Clone, Copy)]
pub(crate) enum Visit {
    /// The state was visited before. It has this number.
    Known(usize),
    /// The state is new, but the limit is reached.
    Full,
    /// The state is new and was added.
    New,
}

/// The result of a step that was taken from the cache.
#[derive(Drop)]
pub(crate) struct Followed {
    /// The texts observed of the step.
    pub(crate) texts: Rc<Vec<Vec<u8>>>,
    /// The result of visiting the state after the step.
    pub(crate) found: Visit,
}

impl<O: Observer + Drop> Model for States<O> {
    ghost use Rattle.std.specs.Prelude.{List, map};
    ghost use Rattle.pv_explore.specs.VisitedStates.{IsFine};
    ghost use Rattle.pv_explore.specs.Rows.{state_bytes};
    ghost use Rattle.pv_model.specs.Bytes.{Bytes};

    ghost Value = { List Bytes };

    ghost view = { λ s. map (state_bytes s.parts s.groups) s.rows };

    ghost invariant = { λ s. IsFine O.observe s.parts s.groups s.rows s.cells.items s.steps.steps.items };
}

// Returns the row of a group: the number of each part. A part that is not stored has the number of stored parts.
fn row_of_group(alloc: Global, parts: &Keys, group: &[Vec<u8>]) -> Result<Vec<u8>, AllocError>
    ensures { IfOk result (λ row. row.items ≡ group_row parts.now (parts_in group.now)) }
{
    let mut row = Vec::new(alloc);
    for part in group {
        push_number(&mut row, parts.find_or_len(part) as u64)?;
    }
    Ok(row)
}

// Returns the number of a group, or the number of stored groups if the group is not stored.
fn number_of_group(
    alloc: Global,
    parts: &Keys,
    groups: &Keys,
    group: &[Vec<u8>],
) -> Result<usize, AllocError>
    ensures { IfOk result (λ number. number ≡ number_in groups.now (group_row parts.now (parts_in group.now))) }
{
    let row = row_of_group(alloc, parts, group)?;
    Ok(groups.find_or_len(&row))
}

// Returns the row of a state: the number of each group.
fn row_of_state(
    alloc: Global,
    parts: &Keys,
    groups: &Keys,
    encoded: &[Vec<Vec<u8>>],
) -> Result<Vec<u8>, AllocError>
    ensures { IfOk result (λ row. row.items ≡ state_row parts.now groups.now (groups_of encoded.now)) }
{
    let mut row = Vec::new(alloc);
    for group in encoded {
        let number = number_of_group(alloc, parts, groups, group)?;
        push_number(&mut row, number as u64)?;
    }
    Ok(row)
}

// ---- cells

/// Stores the parts of a group, and returns its row.
///
/// # Errors
///
/// `AllocError`, if there is no memory. Some parts may be stored then.
pub fn learn_row(alloc: Global, parts: &mut Keys, group: &[Vec<u8>]) -> Result<Vec<u8>, AllocError>
    ensures grew { Grew parts.old parts.new }
    ensures visited { OnOk result (AllByRecursion (IsAmong parts.new) (parts_in group.now)) }
    ensures row { IfOk result (λ row. row.items ≡ group_row parts.new (parts_in group.now)) }
{
    let mut row = Vec::new(alloc);
    for part in group {
        let number = parts.number(alloc, part)?;
        push_number(&mut row, number as u64)?;
    }
    Ok(row)
}

// Stores a group and its parts, and returns its number.
fn learn_group(
    alloc: Global,
    parts: &mut Keys,
    groups: &mut Keys,
    group: &[Vec<u8>],
) -> Result<usize, AllocError>
    ensures parts_grew { Grew parts.old parts.new }
    ensures groups_grew { Grew groups.old groups.new }
    ensures visited { OnOk result (IsGroupVisited parts.new groups.new (parts_in group.now)) }
    ensures number { IfOk result (λ number. number ≡ group_number parts.new groups.new (parts_in group.now)) }
{
    let row = learn_row(alloc, parts, group)?;
    groups.number(alloc, &row)
}

// Stores a group and its outside view, and returns its cell.
pub(crate) fn learn_cell(
    alloc: Global,
    parts: &mut Keys,
    groups: &mut Keys,
    group: &EncodedGroup,
) -> Result<Cell, AllocError>
    ensures parts_grew { Grew parts.old parts.new }
    ensures groups_grew { Grew groups.old groups.new }
    ensures cell { IfOk result (λ cell. AreCellsIn parts.new groups.new (encoded_of group.now ∷ []) (cell ∷ [])) }
{
    match group {
        EncodedGroup::Plain(all) => {
            let number = learn_group(alloc, parts, groups, all)?;
            Ok(Cell {
                number,
                owner: 0,
                outside: number,
            })
        }
        EncodedGroup::Live(owner, all, outside) => {
            let number = learn_group(alloc, parts, groups, all)?;
            let outside = learn_group(alloc, parts, groups, outside)?;
            Ok(Cell {
                number,
                owner: *owner,
                outside,
            })
        }
    }
}

// Stores the groups of a state and their outside views, and returns the cells.
pub(crate) fn learn_cells(
    alloc: Global,
    parts: &mut Keys,
    groups: &mut Keys,
    encoded: &[EncodedGroup],
) -> Result<Vec<Cell>, AllocError>
    ensures parts_grew { Grew parts.old parts.new }
    ensures groups_grew { Grew groups.old groups.new }
    ensures cells { IfOk result (λ cells. AreCellsIn parts.new groups.new (encoded_all encoded.now) cells.items) }
{
    let mut cells = Vec::new(alloc);
    for group in encoded {
        let cell = learn_cell(alloc, parts, groups, group)?;
        cells.push(cell)?;
    }
    Ok(cells)
}

// Returns the cells of state `number`, or none if they are not stored.
fn cells_at(cells: &[Vec<Cell>], number: usize) -> &[Cell]
    ensures { AreStoredAt cells.now number result.now }
{
    match cells.get(number) {
        Some(cells) => cells.as_slice(),
        None => &[],
    }
}

// ---- steps

// Returns the result of a process's step in state `number` if the transition is cached and leaves some process live.
fn recalled(
    alloc: Global,
    cells: &[Vec<Cell>],
    steps: &CachedSteps,
    number: usize,
    pid: u32,
) -> Result<Option<Recalled>, AllocError>
    ensures { IfOk result (λ made. IfSome made (λ r. IsRecalled cells.now steps.now.steps.items number pid (texts_in r.texts.value.items) r.cells.items)) }
{
    let Some(before) = cells.get(number) else {
        return Ok(None);
    };
    if before.is_empty() {
        return Ok(None);
    }
    let Some(made) = steps.recall(alloc, before, pid)? else {
        return Ok(None);
    };
    if has_owner(&made.cells) {
        return Ok(Some(made));
    }
    Ok(None)
}

// Caches the transition of a process's step in state `number`, if the cells of that state are stored.
fn keep_made(
    alloc: Global,
    cells: &[Vec<Cell>],
    steps: &mut CachedSteps,
    number: usize,
    pid: u32,
    after: &[Cell],
    texts: Vec<Vec<u8>>,
) -> Result<(), AllocError>
    ensures { MayKeep cells.now number pid after.now (texts_in texts.items) steps.old.steps.items steps.new.steps.items }
{
    let Some(before) = cells.get(number) else {
        return Ok(());
    };
    if before.is_empty() {
        return Ok(());
    }
    steps.keep(alloc, before, after, pid, texts)
}

// Releases the cells of state `number`.
fn empty_cells(alloc: Global, all: &mut Vec<Vec<Cell>>, number: usize)
    ensures { AreReleased all.old.items all.new.items }
{
    if number < all.len() {
        all[number] = Vec::new(alloc);
    }
}

// ---- rows

// Appends the cells of state `number` if that is the next one.
fn push_cells(all: &mut Vec<Vec<Cell>>, number: usize, cells: Vec<Cell>) -> Result<(), AllocError>
    ensures { ArePushed number cells all.old.items all.new.items }
{
    if all.len() == number {
        all.push(cells)?;
    }
    Ok(())
}

// Visits the state of a row. The row and its cells are added if the row is new and the limit is not reached.
fn place_row(
    rows: &mut Keys,
    all: &mut Vec<Vec<Cell>>,
    limit: usize,
    row: Vec<u8>,
    cells: Vec<Cell>,
) -> Result<Visit, AllocError>
    ensures found { IfOk result (IsFoundIn limit rows.old rows.new row.items) }
    ensures placed { ArePlaced row.items cells rows.old rows.new all.old.items all.new.items }
{
    if let Some(number) = rows.find(&row) {
        return Ok(Visit::Known(number));
    }
    let number = rows.len();
    if number >= limit {
        return Ok(Visit::Full);
    }
    rows.add(row)?;
    push_cells(all, number, cells)?;
    Ok(Visit::New)
}

// Visits the state of a list of cells. The state is added if it is new and the limit is not reached.
fn place(
    alloc: Global,
    rows: &mut Keys,
    all: &mut Vec<Vec<Cell>>,
    limit: usize,
    cells: Vec<Cell>,
) -> Result<Visit, AllocError>
    ensures found { IfOk result (IsFoundIn limit rows.old rows.new (cells_row cells.items)) }
    ensures placed { ArePlaced (cells_row cells.items) cells rows.old rows.new all.old.items all.new.items }
{
    let row = row_of_cells(alloc, &cells)?;
    place_row(rows, all, limit, row, cells)
}

impl<O: Observer + Drop> States<O> {
    /// Returns an empty set.
    pub(crate) fn new(alloc: Global, observer: O) -> States<O>
        ensures { result ≡ [] }
    {
        States {
            observer,
            parts: Keys::new(alloc),
            groups: Keys::new(alloc),
            rows: Keys::new(alloc),
            cells: Vec::new(alloc),
            steps: CachedSteps::new(alloc),
        }
    }

    /// Returns the number of states.
    pub(crate) fn len(&self) -> usize
        ensures { result ≡ length self.now }
    {
        self.rows.len()
    }

    /// Returns the live processes of state `number` in ascending order, or `None` if the cells of the state are not
    /// stored.
    ///
    /// # Errors
    ///
    /// `NoMemory`, if there is no memory.
    pub(crate) fn live(&self, alloc: Global, number: usize) -> Result<Option<Vec<u32>>, StepFault>
        ensures { IfOk result (λ made. IfSome made (λ pids. AreLiveAt self.now number pids.items)) }
    {
        let Some(cells) = self.cells.get(number) else {
            return Ok(None);
        };
        if cells.is_empty() {
            return Ok(None);
        }
        Ok(Some(live_owners(alloc, cells)?))
    }

    /// Returns the number of a state, from 0, given its groups, if it was visited.
    ///
    /// # Errors
    ///
    /// `NoMemory`, if there is no memory.
    pub(crate) fn find(
        &self,
        alloc: Global,
        encoded: &[Vec<Vec<u8>>],
    ) -> Result<Option<usize>, StepFault>
        requires { AreOfState (groups_of encoded.now) }
        ensures { IfOk result (λ number. number ≡ position (bytes_eq (concatenated_groups (groups_of encoded.now))) self.now) }
    {
        let row = row_of_state(alloc, &self.parts, &self.groups, encoded)?;
        Ok(self.rows.find(&row))
    }

    /// Visits a state, given its groups. The state is appended if it is new and there are fewer than `limit` states.
    ///
    /// # Errors
    ///
    /// `NoMemory`, if there is no memory.
    pub(crate) fn find_or_add(
        &mut self,
        alloc: Global,
        limit: usize,
        encoded: &[EncodedGroup],
    ) -> Result<Visit, StepFault>
        requires { AreEncoded (encoded_all encoded.now) }
        ensures { IfOk result (IsFoundBy limit self.old self.new (encoded_all encoded.now)) }
    {
        let cells = learn_cells(alloc, &mut self.parts, &mut self.groups, encoded)?;
        let found = place(alloc, &mut self.rows, &mut self.cells, limit, cells)?;
        Ok(found)
    }

    /// Makes a step of a process with a machine, and observes it.
    ///
    /// # Errors
    ///
    /// `NoMemory`, if there is no memory.
    pub(crate) fn observe(
        &mut self,
        alloc: Global,
        position: Position,
        pid: u32,
    ) -> Result<ObservedStep, StepFault>
        ensures unchanged { self.new ≡ self.old }
        ensures after { IfOk result (λ made. made.position ≡ (stepped position pid).after) }
        ensures texts { IfOk result (λ made. texts_in made.texts.items ≡ O.observe position pid (stepped position pid)) }
        ensures inside { IfOk result (λ made. made.inside ≡ stays_inside (process_at position pid)) }
    {
        position.observe(alloc, &mut self.observer, pid)
    }

    /// Visits the state of a machine after a process's step in state `number`, and caches the transition. `texts` are
    /// the texts observed of the step, and `inside` is whether it changes at most the inside of its process, unless it
    /// kills the process. The state is appended if it is new and there are fewer than `limit` states.
    ///
    /// # Errors
    ///
    /// `NoMemory`, if there is no memory.
    pub(crate) fn arrive(
        &mut self,
        alloc: Global,
        limit: usize,
        number: usize,
        pid: u32,
        texts: Vec<Vec<u8>>,
        inside: bool,
        position: &Position,
    ) -> Result<Visit, StepFault>
        requires { IsObservedStep O.observe self.old number pid (texts_in texts.items) inside position.now }
        ensures { IfOk result (IsFoundIn limit self.old self.new (state_key position.now)) }
    {
        let before = cells_at(&self.cells, number);
        let (parts, groups) = (&mut self.parts, &mut self.groups);
        let cells = cells_after(alloc, parts, groups, before, pid, inside, position)?;
        keep_made(
            alloc,
            &self.cells,
            &mut self.steps,
            number,
            pid,
            &cells,
            texts,
        )?;
        let found = place(alloc, &mut self.rows, &mut self.cells, limit, cells)?;
        Ok(found)
    }

    /// Releases the cells of state `number`. Its steps can then no longer be taken from the cache.
    pub(crate) fn unreference(&mut self, alloc: Global, number: usize)
        ensures { self.new ≡ self.old }
    {
        empty_cells(alloc, &mut self.cells, number);
    }

    /// Takes a step of a process in state `number` from the cache, if its transition is cached and leaves some process
    /// live. The state after the step is added if it is new and there are fewer than `limit` states.
    ///
    /// # Errors
    ///
    /// `NoMemory`, if there is no memory.
    pub(crate) fn follow(
        &mut self,
        alloc: Global,
        limit: usize,
        number: usize,
        pid: u32,
    ) -> Result<Option<Followed>, StepFault>
        requires { IsValidAt self.old number }
        ensures { IfOk result (MayFollow O.observe limit self.old self.new number pid) }
    {
        let Some(made) = recalled(alloc, &self.cells, &self.steps, number, pid)? else {
            return Ok(None);
        };
        let Recalled { texts, cells } = made;
        let found = place(alloc, &mut self.rows, &mut self.cells, limit, cells)?;
        Ok(Some(Followed { texts, found }))
    }
}
