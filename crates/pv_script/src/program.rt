//! Programs.
ghost use Rattle.std.specs.Prelude.{◌≡◌, ◌-◌, ◌≤◌, ◌↔◌, [], length, slice_get, vec_len, IsTrue, IfOk};
ghost use Rattle.std.specs.Option.{option_copied};
ghost use Rattle.pv_model.specs.Machine.{read_program};
ghost use Rattle.pv_script.specs.Reading.{GivesProgram};

use crate::instruction::instruction;
use pv_model::limits::LINES;
use pv_model::{Instruction, ParseFault, What};
use pv_text::lines::{count_lines, split_line};
use std::alloc::{AllocError, Global};
use std::marker::Model;
use std::rc::Rc;

// The number of the first line that exceeds the limit, counted from 1.
const TOO_MANY: u16 = LINES as u16 + 1;

/// A program: at most 256 instructions. Contracts see their list.
#[derive(Drop)]
pub struct Program {
    // Shared by a reference count, since machines that are copies of each other run the same programs.
    lines: Rc<Vec<Instruction>>,
}

// Returns the program of these lines.
fn shared(alloc: Global, lines: Vec<Instruction>) -> Result<Program, AllocError>
    requires { vec_len lines ≤ LINES }
    ensures { IfOk result (λ program. program ≡ lines.items) }
{
    Ok(Program {
        lines: Rc::new(alloc, lines)?,
    })
}

impl Model for Program {
    ghost use Rattle.pv_model.specs.declared.limits.TheConstants.{LINES};
    ghost use Rattle.std.specs.Prelude.{length, ◌≤◌};
    ghost use Rattle.pv_model.specs.State.{Program as Instructions};

    ghost Value = { Instructions };

    ghost view = { λ p. p.lines.value.items };

    ghost invariant = { λ p. length p.lines.value.items ≤ LINES };
}

impl Program {
    /// Creates a program without lines.
    ///
    /// # Errors
    ///
    /// Returns `AllocError` if memory cannot be allocated.
    pub fn empty(alloc: Global) -> Result<Program, AllocError>
        ensures { IfOk result (λ program. program ≡ []) }
    {
        shared(alloc, Vec::new(alloc))
    }

    /// Parses a program: at most 256 lines, each an instruction.
    ///
    /// # Errors
    ///
    /// Returns `Line(n, what)` for the first line that is not an instruction, counted from 1; `what` is its error. If
    /// the first 256 lines are instructions and more lines follow, the error is `Line(257, TooMany)`. Returns `Memory`
    /// if memory cannot be allocated.
    pub fn parse(alloc: Global, bytes: &[u8]) -> Result<Program, ParseFault>
        ensures exact { GivesProgram result (read_program bytes.now) }
    {
        let line_count = count_lines(bytes, LINES as u16);
        let mut lines = Vec::new(alloc);
        let mut rest = bytes;
        let mut line_number: u16 = 1;
        while let Some((line, following)) = split_line(rest) {
            if line_number == TOO_MANY {
                return Err(ParseFault::Line(TOO_MANY, What::TooMany));
            }
            match instruction(line_count, line) {
                Ok(instruction) => lines.push(instruction)?,
                Err(what) => return Err(ParseFault::Line(line_number, what)),
            }
            line_number += 1;
            rest = following;
        }
        Ok(shared(alloc, lines)?)
    }

    /// Returns the number of lines, at most 256.
    pub fn len(&self) -> usize
        ensures value { result ≡ length self.now }
        ensures few { result ≤ LINES }
    {
        self.lines.len()
    }

    /// Returns whether the program has no lines.
    pub fn is_empty(&self) -> bool
        ensures { IsTrue result ↔ (self.now ≡ []) }
    {
        self.lines.is_empty()
    }

    /// Returns the same program. It shares the lines, so it allocates no memory.
    ///
    /// # Errors
    ///
    /// Returns `AllocError` if the reference count of the lines is at its limit.
    pub fn share(&self) -> Result<Program, AllocError>
        ensures { IfOk result (λ program. program ≡ self.now) }
    {
        Ok(Program {
            lines: self.lines.clone()?,
        })
    }

    /// Returns the instruction of a line, counted from 1, or `None` if there is no such line. Line 0 is the same as
    /// line 1.
    pub fn at(&self, line: u16) -> Option<&Instruction>
        ensures { option_copied result ≡ slice_get self.now (line - 1) }
    {
        self.lines.get(usize::from(line).saturating_sub(1))
    }
}
