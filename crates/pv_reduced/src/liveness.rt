//! The variables of a program that are live at each line: some path from the line reads the variable before setting it.
//!
//! The computation begins with a variable that is dead at each line, and repeats a round as often as the program has lines:
//! a line needs the variable if its instruction reads it, or if it does not set it and a next line needs it.
ghost use Rattle.std.specs.Prelude.{◌≡◌, ◌<◌, ◌||◌, false, length, replicate, IfOk};
ghost use Rattle.std.specs.List.{list_any};
ghost use Rattle.pv_laws_classes.specs.Liveness.{bytes_taken, line_after, has_line, is_byte_at, is_byte_below, is_needed, is_register, is_result, next_table, operand_reads, origin_reads, read_bound, reads_variable, sets_variable, targets};
ghost use Rattle.pv_model.specs.Machine.{Program as Instructions};
ghost use Rattle.pv_reduced.specs.Live.{bound_in, bound_of, bound_table, bound_tables, bounds_of, greatest_in, last_table, live_line_in, lines_in, live_line, live_lines, register_tables, registers_in, table_in, liveness_of, tables_of, variable_of};

use pv_model::limits::{BUFFER, REGISTERS};
use pv_model::{Instruction, Operand, Origin};
use pv_script::Program;
use std::alloc::{AllocError, Global};

/// The variables that are live at a line.
#[derive(Clone, Copy)]
pub(crate) struct LiveLine {
    /// Whether each register is live, from r0 on.
    pub(crate) registers: [bool; REGISTERS],
    /// The number of bytes of the buffer below which all live bytes are.
    pub(crate) bytes: usize,
}

// A variable of a process: a register by its number, or a byte of the buffer by its offset.
#[derive(Clone, Copy)]
enum Variable {
    Register(usize),
    Byte(usize),
}

// A bound of the bytes that an instruction may read, and for each line whether the last byte below the bound is live.
#[derive(Drop)]
struct BoundTable {
    bound: usize,
    table: Vec<bool>,
}

// ---- instructions

// Returns whether a variable is the register with a number.
fn is_register(number: usize, variable: Variable) -> bool
    ensures { result ≡ is_register number (variable_of variable) }
{
    match variable {
        Variable::Register(register) => register == number,
        Variable::Byte(_) => false,
    }
}

// Returns whether a variable is the byte at an offset.
fn is_byte(offset: usize, variable: Variable) -> bool
    ensures { result ≡ is_byte_at offset (variable_of variable) }
{
    match variable {
        Variable::Register(_) => false,
        Variable::Byte(byte) => byte == offset,
    }
}

// Returns whether a variable is a byte below an offset.
fn is_byte_below(offset: usize, variable: Variable) -> bool
    ensures { result ≡ is_byte_below offset (variable_of variable) }
{
    match variable {
        Variable::Register(_) => false,
        Variable::Byte(byte) => byte < offset,
    }
}

// Returns whether an operand is a variable.
fn operand_reads(operand: Operand, variable: Variable) -> bool
    ensures { result ≡ operand_reads operand (variable_of variable) }
{
    match operand {
        Operand::Number(_) => false,
        Operand::Register(register) => is_register(register.number(), variable),
    }
}

// Returns whether one of two operands is a variable.
fn operands_read(first: Operand, second: Operand, variable: Variable) -> bool
    ensures { result ≡ (operand_reads first (variable_of variable) || operand_reads second (variable_of variable)) }
{
    operand_reads(first, variable) || operand_reads(second, variable)
}

// Returns whether the descriptor of an origin is a variable.
fn origin_reads(origin: Origin, variable: Variable) -> bool
    ensures { result ≡ origin_reads origin (variable_of variable) }
{
    match origin {
        Origin::WorkingDirectory => false,
        Origin::Descriptor(descriptor) => operand_reads(descriptor, variable),
    }
}

// Returns the number of bytes that a write may read from the buffer: all if the count is in a register.
fn bytes_read(count: Operand) -> usize
    ensures { result ≡ bytes_taken count }
{
    match count {
        Operand::Number(number) => { if number < 0 { 0 } else { number as usize } }
        Operand::Register(_) => BUFFER,
    }
}

// Returns whether an instruction may read a variable.
fn reads(instruction: &Instruction, variable: Variable) -> bool
    ensures { result ≡ reads_variable instruction.now (variable_of variable) }
{
    match instruction {
        Instruction::Add(register, _) => is_register(register.number(), variable),
        Instruction::Peek(_, offset) => is_byte(usize::from(*offset), variable),
        Instruction::JumpIfZero(register, _) => is_register(register.number(), variable),
        Instruction::JumpIfNotZero(register, _) => is_register(register.number(), variable),
        Instruction::JumpIfNegative(register, _) => is_register(register.number(), variable),
        Instruction::Exit(code) => operand_reads(*code, variable),
        Instruction::Close(d) => operand_reads(*d, variable),
        Instruction::Dup(d) => operand_reads(*d, variable),
        Instruction::Fstat(d) => operand_reads(*d, variable),
        Instruction::Getdents(d) => operand_reads(*d, variable),
        Instruction::Fchdir(d) => operand_reads(*d, variable),
        Instruction::Dup2(d, e) => operands_read(*d, *e, variable),
        Instruction::Read(d, n) => operands_read(*d, *n, variable),
        Instruction::Write(d, n) => {
            operands_read(*d, *n, variable) || is_byte_below(bytes_read(*n), variable)
        }
        Instruction::Ftruncate(d, n) => operands_read(*d, *n, variable),
        Instruction::Lseek(d, by, _) => operands_read(*d, *by, variable),
        Instruction::OpenAt(origin, _, _) => origin_reads(*origin, variable),
        _ => false,
    }
}

// Returns whether a variable is a register where a call returns its result.
fn is_result(variable: Variable) -> bool
    ensures { result ≡ is_result (variable_of variable) }
{
    is_register(0, variable) || is_register(1, variable)
}

// Returns whether an instruction sets a variable whenever the process continues after it.
fn sets(instruction: &Instruction, variable: Variable) -> bool
    ensures { result ≡ sets_variable instruction.now (variable_of variable) }
{
    match instruction {
        Instruction::Set(register, _) => is_register(register.number(), variable),
        Instruction::Add(register, _) => is_register(register.number(), variable),
        Instruction::Put(text) => is_byte_below(text.as_slice().len(), variable),
        Instruction::Peek(register, _) => is_register(register.number(), variable),
        Instruction::Jump(_) => false,
        Instruction::JumpIfZero(_, _) => false,
        Instruction::JumpIfNotZero(_, _) => false,
        Instruction::JumpIfNegative(_, _) => false,
        _ => is_result(variable),
    }
}

// Returns a number above all bytes that an instruction may read.
fn read_bound(instruction: &Instruction) -> usize
    ensures { result ≡ read_bound instruction.now }
{
    match instruction {
        Instruction::Peek(_, offset) => usize::from(*offset) + 1,
        Instruction::Write(_, count) => bytes_read(*count),
        _ => 0,
    }
}

// ---- the lines where a variable is live

// Returns whether a table contains a line. Each table contains line 0, which does not exist.
#[tactic(auto, using(crate::proofs::LivenessComputation::line_there))]
fn has_line(table: &[bool], line: usize) -> bool
    ensures { result ≡ has_line table.now line }
{
    if line == 0 {
        return true;
    }
    table.get(line - 1).copied().unwrap_or(false)
}

// Returns the line after a line, at most the one after the last.
fn following(program: &Program, line: usize) -> usize
    ensures { result ≡ line_after program.now line }
{
    program.len().min(line) + 1
}

// Returns whether a table contains a line where a program may continue after an instruction.
#[tactic(auto, using(crate::proofs::LivenessComputation::or_nothing))]
fn has_target(program: &Program, table: &[bool], line: usize, instruction: &Instruction) -> bool
    ensures { result ≡ list_any (has_line table.now) (targets program.now line instruction.now) }
{
    let next = has_line(table, following(program, line));
    match instruction {
        Instruction::Jump(target) => has_line(table, usize::from(*target)),
        Instruction::JumpIfZero(_, target) => has_line(table, usize::from(*target)) || next,
        Instruction::JumpIfNotZero(_, target) => has_line(table, usize::from(*target)) || next,
        Instruction::JumpIfNegative(_, target) => has_line(table, usize::from(*target)) || next,
        Instruction::Exit(_) => false,
        _ => next,
    }
}

// Returns whether a line needs a variable, if a table contains the lines that need it later.
fn is_needed(
    program: &Program,
    variable: Variable,
    table: &[bool],
    line: usize,
    instruction: &Instruction,
) -> bool
    ensures { result ≡ is_needed program.now (variable_of variable) table.now line instruction.now }
{
    reads(instruction, variable)
        || (!sets(instruction, variable) && has_target(program, table, line, instruction))
}

// Returns the lines that need a variable, if a table contains the lines that need it later.
fn next_table(
    alloc: Global,
    program: &Program,
    variable: Variable,
    table: &[bool],
) -> Result<Vec<bool>, AllocError>
    ensures { IfOk result (λ next. next.items ≡ next_table program.now (variable_of variable) table.now 1 program.now) }
{
    let mut next = Vec::with_capacity(alloc, program.len())?;
    let mut line: u16 = 1;
    while let Some(instruction) = program.at(line) {
        next.push(is_needed(program, variable, table, usize::from(line), instruction))?;
        line += 1;
    }
    Ok(next)
}

// Returns a table of a program that contains no line.
fn no_lines(alloc: Global, program: &Program) -> Result<Vec<bool>, AllocError>
    ensures { IfOk result (λ table. table.items ≡ replicate (length program.now) false) }
{
    vec![in alloc; false; program.len()]
}

// Returns the lines where a variable is live.
fn rounds(alloc: Global, program: &Program, variable: Variable) -> Result<Vec<bool>, AllocError>
    ensures { IfOk result (λ table. table.items ≡ liveness_of program.now (variable_of variable)) }
{
    let mut table = no_lines(alloc, program)?;
    for _ in 0..program.len() {
        table = next_table(alloc, program, variable, &table)?;
    }
    Ok(table)
}

// ---- tables of a program

// Returns the lines where each register is live, from r0 on.
fn register_tables(alloc: Global, program: &Program) -> Result<Vec<Vec<bool>>, AllocError>
    ensures { IfOk result (λ tables. tables_of tables.items ≡ register_tables program.now REGISTERS) }
{
    let mut tables = Vec::with_capacity(alloc, REGISTERS)?;
    for register in 0..REGISTERS {
        let table = rounds(alloc, program, Variable::Register(register))?;
        tables.push(table)?;
    }
    Ok(tables)
}

// Returns the lines where the last byte below a bound is live, or no line if the bound is 0.
#[tactic(auto, using(crate::proofs::LivenessComputation::no_last, crate::proofs::LivenessComputation::last_there))]
fn last_table(alloc: Global, program: &Program, bound: usize) -> Result<Vec<bool>, AllocError>
    ensures { IfOk result (λ table. table.items ≡ last_table program.now bound) }
{
    if bound == 0 {
        return Ok(Vec::new(alloc));
    }
    rounds(alloc, program, Variable::Byte(bound - 1))
}

// Returns the bound of the bytes that an instruction may read, with its table.
fn bound_table(
    alloc: Global,
    program: &Program,
    instruction: &Instruction,
) -> Result<BoundTable, AllocError>
    ensures { IfOk result (λ bound. bound_of bound ≡ bound_table program.now (read_bound instruction.now)) }
{
    let bound = read_bound(instruction);
    let table = last_table(alloc, program, bound)?;
    Ok(BoundTable { bound, table })
}

// Returns the bounds of all instructions, with their tables.
fn bound_tables(alloc: Global, program: &Program) -> Result<Vec<BoundTable>, AllocError>
    ensures { IfOk result (λ bounds. bounds_of bounds.items ≡ bound_tables program.now program.now) }
{
    let mut bounds = Vec::with_capacity(alloc, program.len())?;
    let mut line: u16 = 1;
    while let Some(instruction) = program.at(line) {
        let bound = bound_table(alloc, program, instruction)?;
        bounds.push(bound)?;
        line += 1;
    }
    Ok(bounds)
}

// ---- lines of a program

// Returns whether the table of a register contains a line.
fn has_register(tables: &[Vec<bool>], register: usize, line: usize) -> bool
    requires { register < length tables.now }
    ensures { result ≡ has_line (table_in (tables_of tables.now) register) line }
{
    has_line(&tables[register], line)
}

// Returns the live registers of a line.
fn registers_in(tables: &[Vec<bool>], line: usize) -> [bool; REGISTERS]
    requires { length tables.now ≡ REGISTERS }
    ensures { result ≡ registers_in (tables_of tables.now) line }
{
    [
        has_register(tables, 0, line),
        has_register(tables, 1, line),
        has_register(tables, 2, line),
        has_register(tables, 3, line),
        has_register(tables, 4, line),
        has_register(tables, 5, line),
        has_register(tables, 6, line),
        has_register(tables, 7, line),
    ]
}

// Returns a bound if its table contains a line, otherwise 0.
fn bound_in(bound: &BoundTable, line: usize) -> usize
    ensures { result ≡ bound_in line (bound_of bound.now) }
{
    if has_line(&bound.table, line) {
        bound.bound
    } else {
        0
    }
}

// Returns the greatest bound whose table contains a line, or 0 if there is none.
fn greatest_in(bounds: &[BoundTable], line: usize) -> usize
    ensures { result ≡ greatest_in line (bounds_of bounds.now) }
{
    let mut bytes: usize = 0;
    for bound in bounds {
        bytes = bytes.max(bound_in(bound, line));
    }
    bytes
}

// Returns the live variables of a line.
fn line_in(tables: &[Vec<bool>], bounds: &[BoundTable], line: usize) -> LiveLine
    requires { length tables.now ≡ REGISTERS }
    ensures { result ≡ live_line_in (tables_of tables.now) (bounds_of bounds.now) line }
{
    LiveLine {
        registers: registers_in(tables, line),
        bytes: greatest_in(bounds, line),
    }
}

// Returns the live variables of a number of lines, from line 0 on.
fn lines_in(
    alloc: Global,
    tables: &[Vec<bool>],
    bounds: &[BoundTable],
    count: usize,
) -> Result<Vec<LiveLine>, AllocError>
    requires { length tables.now ≡ REGISTERS }
    ensures { IfOk result (λ lines. lines.items ≡ lines_in (tables_of tables.now) (bounds_of bounds.now) count) }
{
    let mut lines = Vec::with_capacity(alloc, count)?;
    for line in 0..count {
        lines.push(line_in(tables, bounds, line))?;
    }
    Ok(lines)
}

/// Returns the live variables of each line of a program, after those of line 0, which does not exist.
///
/// # Errors
///
/// `AllocError`, if there is no memory.
pub(crate) fn live_lines(alloc: Global, program: &Program) -> Result<Vec<LiveLine>, AllocError>
    ensures { IfOk result (λ lines. lines.items ≡ live_lines program.now) }
{
    let tables = register_tables(alloc, program)?;
    let bounds = bound_tables(alloc, program)?;
    lines_in(alloc, &tables, &bounds, program.len() + 1)
}

/// Returns the live variables of a line, given those of each line of the program. Past the last line nothing is live.
pub(crate) fn live_at(lines: &[LiveLine], line: u16) -> LiveLine
    ensures { (program : Instructions) → lines.now ≡ live_lines program → result ≡ live_line program line }
{
    match lines.get(usize::from(line)) {
        Some(live) => *live,
        None => LiveLine {
            registers: [false; REGISTERS],
            bytes: 0,
        },
    }
}
