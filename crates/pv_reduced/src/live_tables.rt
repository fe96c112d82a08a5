//! The live variables of each program of a search, computed once for each program.
ghost use Rattle.std.specs.Prelude.{◌≡◌, ◌<◌, false, bytes_eq, length, slice_get, IfOk, Some};
ghost use Rattle.std.specs.List.{list_any};
ghost use Rattle.pv_model.specs.Machine.{instruction_numbers, list_numbers, Program as Instructions};
ghost use Rattle.pv_reduced.specs.Live.{AreTables, lists_of, live_line, live_lines, packed_program};
ghost use Rattle.pv_state_encoding.specs.Packed.{packed_all};

use crate::liveness::{LiveLine, live_at, live_lines};
use pv_explore::step_cache::tables::Keys;
use pv_script::Program;
use std::alloc::{AllocError, Global};
use std::marker::Model;

/// The live variables of programs. A contract sees the encodings of the programs.
#[derive(Drop)]
pub(crate) struct LiveTables {
    // The encodings of the programs.
    programs: Keys,
    // The live variables of each line of each program, in the same order.
    lines: Vec<Vec<LiveLine>>,
}

impl Model for LiveTables {
    ghost use Rattle.std.specs.Prelude.{List};
    ghost use Rattle.pv_model.specs.Bytes.{Bytes};
    ghost use Rattle.pv_reduced.specs.Live.{AreTables, lists_of};

    ghost Value = { List Bytes };

    ghost view = { λ t. t.programs };

    ghost invariant = { λ t. AreTables t.programs (lists_of t.lines.items) };
}

// Appends a program that is new, and returns its number.
fn add_program(
    alloc: Global,
    programs: &mut Keys,
    lines: &mut Vec<Vec<LiveLine>>,
    part: &[u8],
    program: &Program,
) -> Result<usize, AllocError>
    requires tables { AreTables programs.old (lists_of lines.old.items) }
    requires encoded { part.now ≡ packed_program program.now }
    requires other { list_any (bytes_eq part.now) programs.old ≡ false }
    ensures tables { AreTables programs.new (lists_of lines.new.items) }
    ensures there { IfOk result (λ number. slice_get (lists_of lines.new.items) number ≡ Some (live_lines program.now)) }
{
    let live = live_lines(alloc, program)?;
    let number = lines.len();
    lines.push(live)?;
    match programs.learn(alloc, part) {
        Ok(()) => Ok(number),
        Err(error) => {
            lines.truncate(number);
            Err(error)
        }
    }
}

// Returns the number of a program, and appends it first if it is new.
fn program_number(
    alloc: Global,
    programs: &mut Keys,
    lines: &mut Vec<Vec<LiveLine>>,
    part: &[u8],
    program: &Program,
) -> Result<usize, AllocError>
    requires tables { AreTables programs.old (lists_of lines.old.items) }
    requires encoded { part.now ≡ packed_program program.now }
    ensures tables { AreTables programs.new (lists_of lines.new.items) }
    ensures there { IfOk result (λ number. slice_get (lists_of lines.new.items) number ≡ Some (live_lines program.now)) }
{
    match programs.find(part) {
        Some(number) => Ok(number),
        None => add_program(alloc, programs, lines, part, program),
    }
}

// Returns the live variables of a line, given the number of the program.
fn line_at(lines: &[Vec<LiveLine>], number: usize, line: u16) -> LiveLine
    requires { number < length lines.now }
    ensures { (program : Instructions) → slice_get (lists_of lines.now) number ≡ Some (live_lines program) → result ≡ live_line program line }
{
    live_at(&lines[number], line)
}

impl LiveTables {
    /// Returns the tables of no program.
    pub(crate) fn new(alloc: Global) -> LiveTables {
        LiveTables {
            programs: Keys::new(alloc),
            lines: Vec::new(alloc),
        }
    }

    /// Returns the live variables of a line of a program. `part` is the encoding of the program.
    ///
    /// # Errors
    ///
    /// `AllocError`, if there is no memory.
    pub(crate) fn live_line(
        &mut self,
        alloc: Global,
        part: &[u8],
        program: &Program,
        line: u16,
    ) -> Result<LiveLine, AllocError>
        requires { part.now ≡ packed_all (list_numbers instruction_numbers program.now) }
        ensures { IfOk result (λ live. live ≡ live_line program.now line) }
    {
        let number = program_number(alloc, &mut self.programs, &mut self.lines, part, program)?;
        Ok(line_at(&self.lines, number, line))
    }
}
