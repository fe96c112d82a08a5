//! The context of a process: the next line, eight registers and a buffer of 4,096 bytes.
ghost use Rattle.std.specs.Prelude.{◌≡◌, ◌-◌, ◌<◌, ◌≤◌, ◌+ℤ◌, ◌++◌, true, false, Some, length, drop, take, slice_get, slice_index, IfOk, IfSome, OnSome};
ghost use Rattle.std.specs.Option.{IfNone, option_copied, is_some};
ghost use Rattle.std.specs.Borrow.{sem};
ghost use Rattle.pv_model.specs.declared.limits.TheConstants.{BUFFER};
ghost use Rattle.pv_model.specs.Machine.{at_next_line, with_front, call_of, with_result, jump_if, inside, calls_for, perform, next, Process, Program as Instructions};
ghost use Rattle.pv_model.specs.Program.{operand, clamp, is_zero, is_negative, register, start_of_origin, with_register};

use crate::buffer::Buffer;
use crate::{CallTexts, Program};
use pv_model::limits::REGISTERS;
use pv_model::{CallRef, Instruction, Operand, Origin, Register, Start};
use std::alloc::{AllocError, Global};
use std::marker::Model;

/// The next line, the registers and the buffer of a process.
#[derive(Drop)]
pub struct Context {
    line: u16,
    registers: [i32; REGISTERS],
    buffer: Buffer,
}

impl Model for Context {
    ghost use Rattle.pv_script.specs.Context.{Context};

    ghost Value = { Context };

    ghost view = { λ m. record { line = m.line; registers = m.registers; buffer = m.buffer } };
}

// Returns the sum of two numbers, saturated to 32 bits.
#[tactic(auto, using(crate::proofs::ContextEffects::clamped))]
fn held_sum(a: i32, b: i32) -> i32
    ensures { result ≡ clamp (a +ℤ b) }
{
    a.saturating_add(b)
}

// Returns whether a number is zero.
fn is_zero(value: i32) -> bool
    ensures { result ≡ is_zero value }
{
    value == 0
}

// Returns whether a number is negative.
fn is_negative(value: i32) -> bool
    ensures { result ≡ is_negative value }
{
    value < 0
}

// Returns the byte at an offset, or 0 if there is none.
fn byte_at(bytes: &[u8], place: u16) -> u8
    ensures { result ≡ slice_index bytes.now place }
{
    bytes.get(usize::from(place)).copied().unwrap_or(0)
}

// Returns whether an instruction is one on registers or a jump.
fn is_on_registers(instruction: &Instruction) -> bool
    ensures { result ≡ is_on_registers instruction.now }
{
    matches!(
        instruction,
        Instruction::Set(_, _)
            | Instruction::Add(_, _)
            | Instruction::Put(_)
            | Instruction::Peek(_, _)
            | Instruction::Jump(_)
            | Instruction::JumpIfZero(_, _)
            | Instruction::JumpIfNotZero(_, _)
            | Instruction::JumpIfNegative(_, _)
    )
}

// Returns the instruction of a line if it is one on registers or a jump.
#[inline]
fn inside_at(program: &Program, line: u16) -> Option<&Instruction>
    ensures there { IfSome (option_copied result) (λ i. slice_get program.now (line - 1) ≡ Some i) }
    ensures comes { is_some result ≡ is_some_on_registers (slice_get program.now (line - 1)) }
{
    match program.at(line) {
        Some(instruction) if is_on_registers(instruction) => Some(instruction),
        _ => None,
    }
}

// Returns the next line, at most the one after the last.
#[inline]
fn line_after(line: u16, program: &Program) -> u16
    ensures { (c : Context) → Changes at_next_line program.now (context_at_line line c) (context_at_line result c) }
{
    let count = program.len() as u16;
    if line <= count { line + 1 } else { count + 1 }
}

// Returns `target` if `holds` is true, otherwise the next line.
#[inline]
fn jump_if(holds: bool, line: u16, target: u16, program: &Program) -> u16
    ensures { (c : Context) → Changes (λ p. jump_if holds p target) program.now (context_at_line line c) (context_at_line result c) }
{
    if holds {
        target
    } else {
        line_after(line, program)
    }
}

ghost use Rattle.pv_script.specs.Context.{Context, first_context, in_context, context_at_line, Changes, is_on_registers, is_some_on_registers, is_inside, IsNext, is_without_texts};
ghost use Rattle.pv_script.specs.Passing.{Passes};

impl Context {
    ghost use Rattle.pv_script.specs.Lent.{LendsBuffer};

    /// Creates a context at line 1 with registers and buffer of zeros. No other method allocates memory.
    ///
    /// # Errors
    ///
    /// Returns `AllocError` if memory for the buffer cannot be allocated.
    pub fn new(alloc: Global) -> Result<Context, AllocError>
        ensures { IfOk result (λ m. m ≡ first_context) }
    {
        Ok(Context {
            line: 1,
            registers: [0; REGISTERS],
            buffer: Buffer::new(alloc)?,
        })
    }

    /// Resets the context to that of a new process.
    pub fn reset(&mut self)
        ensures { self.new ≡ first_context }
    {
        self.line = 1;
        self.registers = [0; REGISTERS];
        self.buffer.clear();
    }

    /// Copies another context.
    pub fn copy_from(&mut self, other: &Context)
        ensures { self.new ≡ other.now }
    {
        self.line = other.line;
        self.registers = other.registers;
        self.buffer.copy_from(&other.buffer);
    }

    /// Returns the 4,096 bytes of the buffer.
    pub fn buffer(&self) -> &[u8]
        ensures value { result.now ≡ self.now.buffer }
        ensures size { length result.now ≡ BUFFER }
    {
        self.buffer.as_slice()
    }

    /// Returns the next line, counted from 1. It is at most the one after the last.
    pub fn line(&self) -> u16
        ensures { result ≡ self.now.line }
    {
        self.line
    }

    /// Returns the eight registers, from r0 on.
    pub fn registers(&self) -> [i32; REGISTERS]
        ensures { result ≡ self.now.registers }
    {
        self.registers
    }

    /// Advances to the next line, at most to the one after the last.
    pub fn advance(&mut self, program: &Program)
        ensures { Changes at_next_line program.now self.old self.new }
    {
        self.line = line_after(self.line, program);
    }

    /// Stores the result of a call in the registers: the value in r0 and the error in r1, or 0 if there is no error.
    pub fn report(&mut self, value: i32, error: u16)
        ensures { (program : Instructions) → Changes (λ p. with_result p value error) program self.old self.new }
    {
        self.registers[0] = value;
        self.registers[1] = i32::from(error);
    }

    /// Returns the 4,096 bytes of the buffer for modification.
    pub fn buffer_mut(&mut self) -> &mut [u8]
        ensures* writes_back { sem 𝓛 (LendsBuffer self.entry result) }
        ensures value { result.now ≡ self.old.buffer }
        ensures size { length result.now ≡ BUFFER }
    {
        self.buffer.as_mut_slice()
    }

    /// Copies at most 4,096 bytes to the front of the buffer.
    pub fn put_front(&mut self, bytes: &[u8])
        requires { length bytes.now ≤ BUFFER }
        ensures { (program : Instructions) → Changes (with_front bytes.now) program self.old self.new }
    {
        self.buffer.put_front(bytes);
    }

    // Returns the value of an operand: a literal number or the value of a register.
    fn operand(&self, written: Operand) -> i32
        ensures { (p : Process) (program : Instructions) → result ≡ operand (in_context p program self.now) written }
    {
        match written {
            Operand::Number(n) => n,
            Operand::Register(register) => self.registers[register.number()],
        }
    }

    // Returns the directory from which an openat starts.
    fn start(&self, origin: Origin) -> Start
        ensures { (p : Process) (program : Instructions) → result ≡ start_of_origin (in_context p program self.now) origin }
    {
        match origin {
            Origin::WorkingDirectory => Start::WorkingDirectory,
            Origin::Descriptor(d) => Start::Descriptor(self.operand(d)),
        }
    }

    // Returns the call of an instruction without texts.
    #[tactic(auto, unfolding(pv_model::specs::Program::perform))]
    fn plain_call<'a>(&self, instruction: &Instruction) -> CallRef<'a>
        requires { is_without_texts instruction.now ≡ true }
        ensures { (p : Process) (program : Instructions) → perform (in_context p program self.now) instruction.now ≡ calls_for (call_of result) }
    {
        match instruction {
            Instruction::Fork => CallRef::Fork,
            Instruction::Wait => CallRef::Wait,
            Instruction::GetPid => CallRef::GetPid,
            Instruction::GetPpid => CallRef::GetPpid,
            Instruction::Exit(code) => CallRef::Exit(self.operand(*code)),
            Instruction::Close(d) => CallRef::Close(self.operand(*d)),
            Instruction::Dup(d) => CallRef::Dup(self.operand(*d)),
            Instruction::Fstat(d) => CallRef::Fstat(self.operand(*d)),
            Instruction::Getdents(d) => CallRef::Getdents(self.operand(*d)),
            Instruction::Fchdir(d) => CallRef::Fchdir(self.operand(*d)),
            Instruction::Dup2(d, e) => CallRef::Dup2(self.operand(*d), self.operand(*e)),
            Instruction::Read(d, n) => CallRef::Read(self.operand(*d), self.operand(*n)),
            Instruction::Write(d, n) => CallRef::Write(self.operand(*d), self.operand(*n)),
            Instruction::Ftruncate(d, n) => CallRef::Ftruncate(self.operand(*d), self.operand(*n)),
            Instruction::Lseek(d, by, whence) => {
                CallRef::Lseek(self.operand(*d), self.operand(*by), *whence)
            }
            _ => unreachable!(),
        }
    }

    // Returns the call of an instruction, with its texts copied to `texts`. It is not inlined, so that `step_or_fetch`
    // stays small enough to be inlined into loops over steps.
    #[inline(never)]
    #[tactic(auto, unfolding(pv_model::specs::Program::perform))]
    fn call<'a>(&self, instruction: &Instruction, texts: &'a mut CallTexts) -> CallRef<'a>
        requires { is_on_registers instruction.now ≡ false }
        ensures { (p : Process) (program : Instructions) → perform (in_context p program self.now) instruction.now ≡ calls_for (call_of result) }
    {
        match instruction {
            Instruction::Pledge(promises, execpromises) => {
                let (first, second) = texts.options(promises.as_ref(), execpromises.as_ref());
                CallRef::Pledge(first, second)
            }
            Instruction::Unveil(path, permissions) => {
                let (path, permissions) = texts.options(path.as_ref(), permissions.as_ref());
                CallRef::Unveil(path, permissions)
            }
            Instruction::Execve(path) => CallRef::Execve(texts.one(path)),
            Instruction::Chdir(path) => CallRef::Chdir(texts.one(path)),
            Instruction::Stat(path) => CallRef::Stat(texts.one(path)),
            Instruction::Lstat(path) => CallRef::Lstat(texts.one(path)),
            Instruction::Readlink(path) => CallRef::Readlink(texts.one(path)),
            Instruction::Unlink(path) => CallRef::Unlink(texts.one(path)),
            Instruction::Mkdir(path) => CallRef::Mkdir(texts.one(path)),
            Instruction::Rmdir(path) => CallRef::Rmdir(texts.one(path)),
            Instruction::Open(path, flags) => CallRef::Open(texts.one(path), *flags),
            Instruction::OpenAt(origin, path, flags) => {
                CallRef::OpenAt(self.start(*origin), texts.one(path), *flags)
            }
            Instruction::Rename(path, new) => {
                let (path, new) = texts.two(path, new);
                CallRef::Rename(path, new)
            }
            Instruction::Link(path, new) => {
                let (path, new) = texts.two(path, new);
                CallRef::Link(path, new)
            }
            Instruction::Symlink(text, path) => {
                let (text, path) = texts.two(text, path);
                CallRef::Symlink(text, path)
            }
            _ => self.plain_call(instruction),
        }
    }

    // Returns the value of a register.
    fn value(&self, number: Register) -> i32
        ensures { (p : Process) (program : Instructions) → result ≡ register (in_context p program self.now) number }
    {
        self.registers[number.number()]
    }

    // Sets a register.
    fn assign(&mut self, number: Register, value: i32)
        ensures { (program : Instructions) → Changes (λ p. with_register p number value) program self.old self.new }
    {
        self.registers[number.number()] = value;
    }

    // Sets a register and returns the next line.
    #[inline]
    fn set(&mut self, line: u16, number: Register, value: i32, program: &Program) -> u16
        ensures { Changes (λ p. at_next_line (with_register p number value)) program.now (context_at_line line self.old) (context_at_line result self.new) }
    {
        self.assign(number, value);
        line_after(line, program)
    }

    // Executes an instruction on registers or a jump that is on this line, and returns the next line.
    #[inline]
    #[tactic(auto, unfolding(pv_model::specs::Program::perform))]
    fn make(&mut self, line: u16, instruction: &Instruction, program: &Program) -> u16
        requires { is_on_registers instruction.now ≡ true }
        ensures { (p : Process) → perform (in_context p program.now (context_at_line line self.old)) instruction.now ≡ inside (in_context p program.now (context_at_line result self.new)) }
    {
        match instruction {
            Instruction::Set(register, n) => self.set(line, *register, *n, program),
            Instruction::Add(register, n) => {
                let sum = held_sum(self.value(*register), *n);
                self.set(line, *register, sum, program)
            }
            Instruction::Put(text) => {
                self.put_front(text.as_slice());
                line_after(line, program)
            }
            Instruction::Peek(register, place) => {
                let byte = byte_at(self.buffer(), *place);
                self.set(line, *register, i32::from(byte), program)
            }
            Instruction::Jump(target) => *target,
            Instruction::JumpIfZero(register, target) => {
                let holds = is_zero(self.value(*register));
                jump_if(holds, line, *target, program)
            }
            Instruction::JumpIfNotZero(register, target) => {
                let holds = !is_zero(self.value(*register));
                jump_if(holds, line, *target, program)
            }
            Instruction::JumpIfNegative(register, target) => {
                let holds = is_negative(self.value(*register));
                jump_if(holds, line, *target, program)
            }
            _ => unreachable!(),
        }
    }

    /// Returns the next call without executing it, with its texts copied to `texts`. After the last line, it is exit.
    /// Returns `None` if the next instruction is one on registers or a jump.
    #[inline]
    pub fn fetch<'a>(&self, program: &Program, texts: &'a mut CallTexts) -> Option<CallRef<'a>>
        ensures { IsNext program.now self.now result }
    {
        match program.at(self.line) {
            Some(instruction) if is_on_registers(instruction) => None,
            Some(instruction) => Some(self.call(instruction, texts)),
            None => Some(CallRef::Exit(0)),
        }
    }

    /// Returns the next call like `fetch`. If the next instruction is one on registers or a jump, executes it and
    /// returns `None`.
    pub fn step_or_fetch<'a>(
        &mut self,
        program: &Program,
        texts: &'a mut CallTexts,
    ) -> Option<CallRef<'a>>
        ensures call { IsNext program.now self.old result }
        ensures preserved { OnSome result (self.new ≡ self.old) }
        ensures made { IfNone result ((p : Process) → next (in_context p program.now self.old) ≡ inside (in_context p program.now self.new)) }
    {
        match self.fetch(program, texts) {
            Some(call) => Some(call),
            None => {
                // It calls `pass`, so that `make` has one caller and is inlined into its loop.
                self.pass(program, 1);
                None
            }
        }
    }

    /// Executes the next instructions on registers and jumps, at most `most`, and returns their number.
    pub fn pass(&mut self, program: &Program, most: u32) -> u32
        ensures few { result ≤ most }
        ensures made { (p : Process) → Passes result (in_context p program.now self.old) (in_context p program.now self.new) }
        ensures whole { result < most → is_inside program.now self.new ≡ false }
    {
        let mut made = 0;
        // The line is in a local variable, because a field would be written and read again at each instruction.
        let mut line = self.line;
        while made < most {
            let Some(instruction) = inside_at(program, line) else {
                break;
            };
            line = self.make(line, instruction, program);
            made += 1;
        }
        self.line = line;
        made
    }
}
