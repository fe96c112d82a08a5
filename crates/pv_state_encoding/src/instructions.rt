//! Instructions of programs.
ghost use Rattle.std.specs.Prelude.{◌≡◌, ◌∷◌, ◌++◌, OnOk};
ghost use Rattle.pv_model.specs.Machine.{bool_numbers, bytes_numbers, instruction_numbers, integer_numbers, number_numbers};
ghost use Rattle.pv_model.specs.Answers.Numbers.{flags_numbers, mode_numbers, operand_numbers, origin_numbers, text_numbers, whence_numbers};
ghost use Rattle.pv_state_encoding.specs.Packed.{IsAdded};

use crate::numbers::{push_bool, push_bytes, push_integer, push_mode, push_number};
use pv_model::{Instruction, OpenFlags, Operand, Origin, Register, Text, Whence};
use std::alloc::AllocError;

// Appends a register.
fn push_register(key: &mut Vec<u8>, register: Register) -> Result<(), AllocError>
    ensures { OnOk result (IsAdded (number_numbers register) key.old.items key.new.items) }
{
    push_number(key, register.number() as u64)
}

// Appends a text.
fn push_text(key: &mut Vec<u8>, text: &Text) -> Result<(), AllocError>
    ensures { OnOk result (IsAdded (bytes_numbers text.now) key.old.items key.new.items) }
{
    push_bytes(key, text.as_slice())
}

// Appends an optional text.
#[tactic(auto, using(crate::proofs::AppendedNumbers::added_then))]
fn push_text_or_none(key: &mut Vec<u8>, text: &Option<Text>) -> Result<(), AllocError>
    ensures { OnOk result (IsAdded (text_numbers text.now) key.old.items key.new.items) }
{
    match text {
        None => push_number(key, 0),
        Some(text) => {
            push_number(key, 1)?;
            push_text(key, text)
        }
    }
}

// Appends an operand.
#[tactic(auto, using(crate::proofs::AppendedNumbers::added_then))]
fn push_operand(key: &mut Vec<u8>, operand: Operand) -> Result<(), AllocError>
    ensures { OnOk result (IsAdded (operand_numbers operand) key.old.items key.new.items) }
{
    match operand {
        Operand::Number(number) => {
            push_number(key, 0)?;
            push_integer(key, number)
        }
        Operand::Register(register) => {
            push_number(key, 1)?;
            push_register(key, register)
        }
    }
}

// Appends the origin from which a path starts.
#[tactic(auto, using(crate::proofs::AppendedNumbers::added_then))]
fn push_origin(key: &mut Vec<u8>, origin: Origin) -> Result<(), AllocError>
    ensures { OnOk result (IsAdded (origin_numbers origin) key.old.items key.new.items) }
{
    match origin {
        Origin::WorkingDirectory => push_number(key, 0),
        Origin::Descriptor(operand) => {
            push_number(key, 1)?;
            push_operand(key, operand)
        }
    }
}

// Appends the base from which an offset counts.
fn push_whence(key: &mut Vec<u8>, whence: Whence) -> Result<(), AllocError>
    ensures { OnOk result (IsAdded (whence_numbers whence) key.old.items key.new.items) }
{
    match whence {
        Whence::Set => push_number(key, 0),
        Whence::Current => push_number(key, 1),
        Whence::End => push_number(key, 2),
    }
}

// Appends the mode of an open, and the flags that change the file or its writes.
#[tactic(auto, using(crate::proofs::AppendedNumbers::added_both))]
fn push_access(key: &mut Vec<u8>, flags: OpenFlags) -> Result<(), AllocError>
    ensures { OnOk result (IsAdded (mode_numbers flags.mode ++ bool_numbers flags.append ++ bool_numbers flags.create ++ bool_numbers flags.truncate) key.old.items key.new.items) }
{
    push_mode(key, flags.mode)?;
    push_bool(key, flags.append)?;
    push_bool(key, flags.create)?;
    push_bool(key, flags.truncate)
}

// Appends the same, then the flags that restrict the node at the path.
#[tactic(auto, using(crate::proofs::AppendedNumbers::added_both))]
fn push_finding(key: &mut Vec<u8>, flags: OpenFlags) -> Result<(), AllocError>
    ensures { OnOk result (IsAdded (mode_numbers flags.mode ++ bool_numbers flags.append ++ bool_numbers flags.create ++ bool_numbers flags.truncate ++ bool_numbers flags.exclusive ++ bool_numbers flags.no_follow) key.old.items key.new.items) }
{
    push_access(key, flags)?;
    push_bool(key, flags.exclusive)?;
    push_bool(key, flags.no_follow)
}

// Appends all flags of an open.
#[tactic(auto, using(crate::proofs::AppendedNumbers::added_both))]
fn push_flags(key: &mut Vec<u8>, flags: OpenFlags) -> Result<(), AllocError>
    ensures { OnOk result (IsAdded (flags_numbers flags) key.old.items key.new.items) }
{
    push_finding(key, flags)?;
    push_bool(key, flags.directory)?;
    push_bool(key, flags.close_on_exec)
}

// ---- opcodes with their arguments

// Appends an instruction with a register and a number.
#[tactic(auto, using(crate::proofs::AppendedNumbers::added_then, crate::proofs::AppendedNumbers::added_both))]
fn push_counting(
    key: &mut Vec<u8>,
    which: u64,
    register: Register,
    number: i32,
) -> Result<(), AllocError>
    ensures { OnOk result (IsAdded (which ∷ number_numbers register ++ integer_numbers number) key.old.items key.new.items) }
{
    push_number(key, which)?;
    push_register(key, register)?;
    push_integer(key, number)
}

// Appends an instruction with a register, and a line or an index in the buffer.
#[tactic(auto, using(crate::proofs::AppendedNumbers::added_then, crate::proofs::AppendedNumbers::added_both))]
fn push_placed(
    key: &mut Vec<u8>,
    which: u64,
    register: Register,
    place: u16,
) -> Result<(), AllocError>
    ensures { OnOk result (IsAdded (which ∷ number_numbers register ++ number_numbers place) key.old.items key.new.items) }
{
    push_number(key, which)?;
    push_register(key, register)?;
    push_number(key, u64::from(place))
}

// Appends an instruction with an operand.
#[tactic(auto, using(crate::proofs::AppendedNumbers::added_then))]
fn push_one(key: &mut Vec<u8>, which: u64, operand: Operand) -> Result<(), AllocError>
    ensures { OnOk result (IsAdded (which ∷ operand_numbers operand) key.old.items key.new.items) }
{
    push_number(key, which)?;
    push_operand(key, operand)
}

// Appends an instruction with two operands.
#[tactic(auto, using(crate::proofs::AppendedNumbers::added_then, crate::proofs::AppendedNumbers::added_both))]
fn push_two(
    key: &mut Vec<u8>,
    which: u64,
    first: Operand,
    second: Operand,
) -> Result<(), AllocError>
    ensures { OnOk result (IsAdded (which ∷ operand_numbers first ++ operand_numbers second) key.old.items key.new.items) }
{
    push_number(key, which)?;
    push_operand(key, first)?;
    push_operand(key, second)
}

// Appends an instruction with a text.
#[tactic(auto, using(crate::proofs::AppendedNumbers::added_then))]
fn push_path(key: &mut Vec<u8>, which: u64, path: &Text) -> Result<(), AllocError>
    ensures { OnOk result (IsAdded (which ∷ bytes_numbers path.now) key.old.items key.new.items) }
{
    push_number(key, which)?;
    push_text(key, path)
}

// Appends an instruction with two texts.
#[tactic(auto, using(crate::proofs::AppendedNumbers::added_then, crate::proofs::AppendedNumbers::added_both))]
fn push_paths(key: &mut Vec<u8>, which: u64, path: &Text, new: &Text) -> Result<(), AllocError>
    ensures { OnOk result (IsAdded (which ∷ bytes_numbers path.now ++ bytes_numbers new.now) key.old.items key.new.items) }
{
    push_number(key, which)?;
    push_text(key, path)?;
    push_text(key, new)
}

// Appends an instruction with two optional texts.
#[tactic(auto, using(crate::proofs::AppendedNumbers::added_then, crate::proofs::AppendedNumbers::added_both))]
fn push_asked(
    key: &mut Vec<u8>,
    which: u64,
    first: &Option<Text>,
    second: &Option<Text>,
) -> Result<(), AllocError>
    ensures { OnOk result (IsAdded (which ∷ text_numbers first.now ++ text_numbers second.now) key.old.items key.new.items) }
{
    push_number(key, which)?;
    push_text_or_none(key, first)?;
    push_text_or_none(key, second)
}

// Appends an lseek.
#[tactic(auto, using(crate::proofs::AppendedNumbers::added_then, crate::proofs::AppendedNumbers::added_both))]
fn push_seek(
    key: &mut Vec<u8>,
    descriptor: Operand,
    by: Operand,
    whence: Whence,
) -> Result<(), AllocError>
    ensures { OnOk result (IsAdded (22 ∷ operand_numbers descriptor ++ operand_numbers by ++ whence_numbers whence) key.old.items key.new.items) }
{
    push_two(key, 22, descriptor, by)?;
    push_whence(key, whence)
}

// Appends an open.
#[tactic(auto, using(crate::proofs::AppendedNumbers::added_then, crate::proofs::AppendedNumbers::added_both))]
fn push_open(key: &mut Vec<u8>, path: &Text, flags: OpenFlags) -> Result<(), AllocError>
    ensures { OnOk result (IsAdded (33 ∷ bytes_numbers path.now ++ flags_numbers flags) key.old.items key.new.items) }
{
    push_path(key, 33, path)?;
    push_flags(key, flags)
}

// Appends the opcode, the start and the path of an openat.
#[tactic(auto, using(crate::proofs::AppendedNumbers::added_then, crate::proofs::AppendedNumbers::added_both))]
fn push_start(key: &mut Vec<u8>, origin: Origin, path: &Text) -> Result<(), AllocError>
    ensures { OnOk result (IsAdded (34 ∷ origin_numbers origin ++ bytes_numbers path.now) key.old.items key.new.items) }
{
    push_number(key, 34)?;
    push_origin(key, origin)?;
    push_text(key, path)
}

// Appends an openat.
#[tactic(auto, using(crate::proofs::AppendedNumbers::added_then, crate::proofs::AppendedNumbers::added_both))]
fn push_open_at(
    key: &mut Vec<u8>,
    origin: Origin,
    path: &Text,
    flags: OpenFlags,
) -> Result<(), AllocError>
    ensures { OnOk result (IsAdded (34 ∷ origin_numbers origin ++ bytes_numbers path.now ++ flags_numbers flags) key.old.items key.new.items) }
{
    push_start(key, origin, path)?;
    push_flags(key, flags)
}

/// Appends an instruction: its opcode and its arguments.
///
/// # Errors
///
/// As for `push_number`.
#[tactic(auto, unfolding(pv_model::specs::Answers::Numbers::instruction_numbers))]
pub fn push_instruction(key: &mut Vec<u8>, instruction: &Instruction) -> Result<(), AllocError>
    ensures { OnOk result (IsAdded (instruction_numbers instruction.now) key.old.items key.new.items) }
{
    match instruction {
        Instruction::Set(register, number) => push_counting(key, 0, *register, *number),
        Instruction::Add(register, number) => push_counting(key, 1, *register, *number),
        Instruction::Put(bytes) => push_path(key, 2, bytes),
        Instruction::Peek(register, place) => push_placed(key, 3, *register, *place),
        Instruction::Jump(line) => push_jump(key, *line),
        Instruction::JumpIfZero(register, line) => push_placed(key, 5, *register, *line),
        Instruction::JumpIfNotZero(register, line) => push_placed(key, 6, *register, *line),
        Instruction::JumpIfNegative(register, line) => push_placed(key, 7, *register, *line),
        Instruction::Fork => push_number(key, 8),
        Instruction::Wait => push_number(key, 9),
        Instruction::GetPid => push_number(key, 10),
        Instruction::GetPpid => push_number(key, 11),
        Instruction::Exit(code) => push_one(key, 12, *code),
        Instruction::Close(descriptor) => push_one(key, 13, *descriptor),
        Instruction::Dup(descriptor) => push_one(key, 14, *descriptor),
        Instruction::Fstat(descriptor) => push_one(key, 15, *descriptor),
        Instruction::Getdents(descriptor) => push_one(key, 16, *descriptor),
        Instruction::Fchdir(descriptor) => push_one(key, 17, *descriptor),
        Instruction::Dup2(descriptor, number) => push_two(key, 18, *descriptor, *number),
        Instruction::Read(descriptor, count) => push_two(key, 19, *descriptor, *count),
        Instruction::Write(descriptor, count) => push_two(key, 20, *descriptor, *count),
        Instruction::Ftruncate(descriptor, size) => push_two(key, 21, *descriptor, *size),
        Instruction::Lseek(descriptor, by, whence) => push_seek(key, *descriptor, *by, *whence),
        Instruction::Pledge(promises, execpromises) => push_asked(key, 23, promises, execpromises),
        Instruction::Unveil(path, permissions) => push_asked(key, 24, path, permissions),
        Instruction::Execve(path) => push_path(key, 25, path),
        Instruction::Chdir(path) => push_path(key, 26, path),
        Instruction::Stat(path) => push_path(key, 27, path),
        Instruction::Lstat(path) => push_path(key, 28, path),
        Instruction::Readlink(path) => push_path(key, 29, path),
        Instruction::Unlink(path) => push_path(key, 30, path),
        Instruction::Mkdir(path) => push_path(key, 31, path),
        Instruction::Rmdir(path) => push_path(key, 32, path),
        Instruction::Open(path, flags) => push_open(key, path, *flags),
        Instruction::OpenAt(origin, path, flags) => push_open_at(key, *origin, path, *flags),
        Instruction::Rename(path, new) => push_paths(key, 35, path, new),
        Instruction::Link(path, new) => push_paths(key, 36, path, new),
        Instruction::Symlink(text, path) => push_paths(key, 37, text, path),
    }
}

// Appends a jump.
#[tactic(auto, using(crate::proofs::AppendedNumbers::added_then))]
fn push_jump(key: &mut Vec<u8>, line: u16) -> Result<(), AllocError>
    ensures { OnOk result (IsAdded (4 ∷ number_numbers line) key.old.items key.new.items) }
{
    push_number(key, 4)?;
    push_number(key, u64::from(line))
}
