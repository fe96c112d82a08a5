//! States as lists of cells.
ghost use Rattle.std.specs.Prelude.{◌≡◌, ◌++◌, ◌∷◌, [], map, position, IfOk, IfSome, OnOk};
ghost use Rattle.std.specs.List.{list_any};
ghost use Rattle.pv_step_cache.specs.Edits.{AreCellEdits, IsCellEdit, edited, is_owned, number_of_cell, owners, seen_number, appears_as, step_key};
ghost use Rattle.pv_state_encoding.specs.Packed.{packed_all};

use pv_state_encoding::push_number;
use std::alloc::{AllocError, Global};

/// A group of a state. The numbers in it are the indices of byte strings in tables.
#[derive(Clone, Copy)]
pub struct Cell {
    /// The number of the group.
    pub number: usize,
    /// The live process that owns the group, or 0.
    pub owner: u32,
    /// The number of its outside view, the part on which the steps of other processes depend.
    pub outside: usize,
}

/// The origin of a cell after a step.
#[derive(Clone, Copy)]
pub enum Edit {
    /// The cell at this index before the step.
    Keep(usize),
    /// This new cell.
    Put(Cell),
}

// Returns the number of the part of a cell on which a step of a process depends.
fn seen_number(cell: &Cell, pid: u32) -> usize
    ensures { result ≡ seen_number pid cell.now }
{
    if cell.owner == pid {
        cell.number
    } else {
        cell.outside
    }
}

/// Returns the key of a step: the bytes that encode the part of the state on which the step depends.
///
/// # Errors
///
/// `AllocError`, if there is no memory.
pub fn step_key(alloc: Global, cells: &[Cell], pid: u32) -> Result<Vec<u8>, AllocError>
    ensures { IfOk result (λ key. key.items ≡ step_key pid cells.now) }
{
    // A number below 16,384 takes at most 2 bytes.
    let mut key = Vec::with_capacity(alloc, cells.len().saturating_add(1).saturating_mul(2))?;
    push_number(&mut key, u64::from(pid))?;
    for cell in cells {
        push_number(&mut key, seen_number(cell, pid) as u64)?;
    }
    Ok(key)
}

/// Returns the row of a list of cells: the number of each group.
///
/// # Errors
///
/// `AllocError`, if there is no memory.
pub fn row_of_cells(alloc: Global, cells: &[Cell]) -> Result<Vec<u8>, AllocError>
    ensures { IfOk result (λ row. row.items ≡ packed_all (map number_of_cell cells.now)) }
{
    let mut row = Vec::with_capacity(alloc, cells.len().saturating_mul(2))?;
    for cell in cells {
        push_number(&mut row, cell.number as u64)?;
    }
    Ok(row)
}

// Appends the live process that owns a cell, if there is one.
fn push_owner(pids: &mut Vec<u32>, cell: &Cell) -> Result<(), AllocError>
    ensures { OnOk result (pids.new.items ≡ pids.old.items ++ owners (cell.now ∷ [])) }
{
    if cell.owner != 0 {
        pids.push(cell.owner)?;
    }
    Ok(())
}

/// Returns the live processes, by process number.
///
/// # Errors
///
/// `AllocError`, if there is no memory.
#[tactic(auto, using(crate::proofs::CellLists::owners_next))]
pub fn live_owners(alloc: Global, cells: &[Cell]) -> Result<Vec<u32>, AllocError>
    ensures { IfOk result (λ pids. pids.items ≡ owners cells.now) }
{
    let mut pids = Vec::new(alloc);
    for cell in cells {
        push_owner(&mut pids, cell)?;
    }
    Ok(pids)
}

/// Returns whether any process is live.
pub fn has_owner(cells: &[Cell]) -> bool
    ensures { result ≡ list_any is_owned cells.now }
{
    cells.iter().any(|cell| cell.owner != 0)
}

// Returns a cell after a step.
fn edited(cells: &[Cell], edit: &Edit) -> Cell
    ensures { result ≡ edited cells.now edit.now }
{
    match edit {
        Edit::Put(cell) => *cell,
        Edit::Keep(place) => match cells.get(*place) {
            Some(cell) => *cell,
            None => Cell {
                number: 0,
                owner: 0,
                outside: 0,
            },
        },
    }
}

/// Applies edits to the cells before a step, and returns the cells after it.
///
/// # Errors
///
/// `AllocError`, if there is no memory.
pub fn edited_cells(alloc: Global, cells: &[Cell], edits: &[Edit]) -> Result<Vec<Cell>, AllocError>
    ensures { IfOk result (λ after. after.items ≡ map (edited cells.now) edits.now) }
{
    let mut after = Vec::with_capacity(alloc, edits.len())?;
    for edit in edits {
        after.push(edited(cells, edit))?;
    }
    Ok(after)
}

// Returns the index of a cell with the same group and owner.
fn place_of(cells: &[Cell], cell: &Cell) -> Option<usize>
    ensures { result ≡ position (appears_as cell.now) cells.now }
{
    cells.iter().position(|there| there.number == cell.number && there.owner == cell.owner)
}

// Returns the edit that yields a cell after a step of a process. A cell of another live process must be among the cells
// before the step; otherwise the function returns `None`.
#[tactic(auto, using(crate::proofs::CellLists::appeared_at))]
fn edit_of(before: &[Cell], cell: &Cell, pid: u32) -> Option<Edit>
    ensures { IfSome result (IsCellEdit pid before.now cell.now) }
{
    if cell.owner == 0 || cell.owner == pid {
        return Some(Edit::Put(*cell));
    }
    match place_of(before, cell) {
        Some(place) => Some(Edit::Keep(place)),
        None => None,
    }
}

/// Returns the edits that yield the cells after a step of a process from those before it. Returns `None` if the step
/// changed the cell of another live process.
///
/// # Errors
///
/// `AllocError`, if there is no memory.
pub fn edits_of(
    alloc: Global,
    before: &[Cell],
    after: &[Cell],
    pid: u32,
) -> Result<Option<Vec<Edit>>, AllocError>
    ensures { IfOk result (λ made. IfSome made (λ edits. AreCellEdits pid before.now after.now edits.items)) }
{
    let mut edits = Vec::new(alloc);
    for cell in after {
        let Some(edit) = edit_of(before, cell, pid) else {
            return Ok(None);
        };
        edits.push(edit)?;
    }
    Ok(Some(edits))
}
