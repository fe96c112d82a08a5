//! The first name of a program, in the order of a listing.
ghost use Rattle.std.specs.Prelude.{◌≡◌, ◌++◌, codes, length, option_map, IfOk, IsSome, IsTrue};
ghost use Rattle.pv_model.specs.Machine.{program_numbers, bytes_of, read_program as program_encoded, is_file, IsWellFormed, node_at, root};
ghost use Rattle.pv_programs.specs.Naming.{first_within, holds_numbers, program_at};
ghost use Rattle.pv_script.specs.Reading.{GivesProgram};

use crate::program::program_numbers;
use pv_answers::tree::Tree;
use pv_model::limits::ROOT;
use pv_model::{Kind, ParseFault};
use pv_script::Program;
use std::alloc::{AllocError, Global};

// Parses the bytes of a file as a program.
fn read_program(alloc: Global, tree: &Tree, node: u16) -> Result<Program, ParseFault>
    requires { IsTrue (is_file (node_at tree.now.tree node)) }
    ensures { GivesProgram result (program_encoded (bytes_of (node_at tree.now.tree node))) }
{
    let size = tree.size(node) as usize;
    let mut bytes = vec![in alloc; 0; size]?;
    let _read = tree.read_at(node, 0, &mut bytes);
    Program::parse(alloc, &bytes)
}

// Returns the program that an executable file parses as, if the node is one and its bytes parse.
fn program_at(alloc: Global, tree: &Tree, node: u16) -> Result<Option<Program>, AllocError>
    ensures { IfOk result (λ program. program ≡ program_at tree.now.tree node) }
{
    if !tree.is_used(node) || tree.kind(node) != Kind::Executable {
        return Ok(None);
    }
    match read_program(alloc, tree, node) {
        Ok(program) => Ok(Some(program)),
        Err(ParseFault::Line(..)) => Ok(None),
        Err(ParseFault::Memory) => Err(AllocError),
    }
}

// Returns whether a node is an executable file that parses as the program with these numbers.
fn has_program(alloc: Global, tree: &Tree, node: u16, numbers: &[u64]) -> Result<bool, AllocError>
    ensures { IfOk result (λ has. has ≡ holds_numbers tree.now.tree numbers.now node) }
{
    let Some(program) = program_at(alloc, tree, node)? else {
        return Ok(false);
    };
    let own = program_numbers(alloc, &program)?;
    Ok(own.as_slice() == numbers)
}

// Returns a path that continues below a name.
fn below(alloc: Global, name: &[u8], rest: &[u8]) -> Result<Vec<u8>, AllocError>
    ensures { IfOk result (λ path. path.items ≡ codes "/" ++ name.now ++ rest.now) }
{
    let mut path = Vec::new(alloc);
    path.extend_from_slice(b"/")?;
    path.extend_from_slice(name)?;
    path.extend_from_slice(rest)?;
    Ok(path)
}

// Returns the path from a node to the first executable file that parses as the program with these numbers, in the order
// of a listing. The path is at most `depth` names long.
fn path_within(
    alloc: Global,
    tree: &Tree,
    depth: u16,
    node: u16,
    numbers: &[u64],
) -> Result<Option<Vec<u8>>, AllocError>
    requires { IsWellFormed tree.now.tree }
    ensures { IfOk result (λ path. option_map (λ p. p.items) path ≡ first_within (holds_numbers tree.now.tree numbers.now) tree.now.tree depth node) }
{
    if depth == 0 {
        return Ok(None);
    }
    if has_program(alloc, tree, node, numbers)? {
        return Ok(Some(Vec::new(alloc)));
    }
    if !tree.is_directory(node) {
        return Ok(None);
    }
    let mut before = 0;
    let mut next = tree.next_entry(node, None, before);
    while let Some((name, child)) = next {
        if let Some(rest) = path_within(alloc, tree, depth - 1, child, numbers)? {
            return Ok(Some(below(alloc, name.as_slice(), &rest)?));
        }
        before = before.saturating_add(1);
        next = tree.next_entry(node, Some(name.as_slice()), before);
    }
    Ok(None)
}

/// Returns the path of the first executable file of a tree that parses as a program, in the order of a listing. The path
/// of the root is empty.
///
/// # Errors
///
/// `AllocError`, if there is no memory.
pub(crate) fn path_of_program(
    alloc: Global,
    tree: &Tree,
    program: &Program,
) -> Result<Option<Vec<u8>>, AllocError>
    ensures { IfOk result (λ path. option_map (λ p. p.items) path ≡ first_within (holds_numbers tree.now.tree (program_numbers program.now)) tree.now.tree (length tree.now.tree.nodes) root) }
{
    let numbers = program_numbers(alloc, program)?;
    let depth = tree.sizes().inodes + 1;
    path_within(alloc, tree, depth, ROOT, &numbers)
}
