//! Programs as lists of numbers.
ghost use Rattle.std.specs.Prelude.{◌≡◌, bytes_eq, flat_map, IfOk, OnOk};
ghost use Rattle.pv_model.specs.Machine.{instruction_numbers, program_numbers};
ghost use Rattle.pv_programs.specs.Appending.{AppendsNumbers};

use crate::instructions::push_instruction;
use crate::numbers::Numbered;
use pv_script::Program;
use std::alloc::{AllocError, Global};

// Appends the numbers of instructions, line by line.
#[tactic(auto, using(crate::proofs::AppendedNumbers::appends_none, crate::proofs::AppendedNumbers::appends_list))]
fn push_each_line(out: &mut Vec<u64>, program: &Program) -> Result<(), AllocError>
    ensures { OnOk result (AppendsNumbers (flat_map instruction_numbers program.now) out.old.items out.new.items) }
{
    for number in 0..program.len() as u16 {
        let Some(instruction) = program.at(number + 1) else {
            unreachable!()
        };
        push_instruction(out, instruction)?;
    }
    Ok(())
}

/// Returns the numbers of a program, by which programs are compared: the number of its instructions, and the numbers of
/// each.
///
/// # Errors
///
/// `AllocError`, if there is no memory.
#[tactic(auto, using(crate::proofs::AppendedNumbers::appends_then, crate::proofs::AppendedNumbers::appends_to_none))]
pub fn program_numbers(alloc: Global, program: &Program) -> Result<Vec<u64>, AllocError>
    ensures { IfOk result (λ numbers. numbers.items ≡ program_numbers program.now) }
{
    let mut numbers = Vec::new(alloc);
    (program.len() as u64).push(&mut numbers)?;
    push_each_line(&mut numbers, program)?;
    Ok(numbers)
}

/// Returns whether two programs are the same: they have the same numbers.
///
/// # Errors
///
/// `AllocError`, if there is no memory.
pub fn same_program(alloc: Global, a: &Program, b: &Program) -> Result<bool, AllocError>
    ensures { IfOk result (λ same. same ≡ bytes_eq (program_numbers a.now) (program_numbers b.now)) }
{
    let first = program_numbers(alloc, a)?;
    let second = program_numbers(alloc, b)?;
    Ok(first.as_slice() == second.as_slice())
}
