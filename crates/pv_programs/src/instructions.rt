//! Instructions as lists of numbers.
ghost use Rattle.std.specs.Prelude.{◌≡◌, OnOk};
ghost use Rattle.pv_model.specs.Machine.{instruction_numbers};
ghost use Rattle.pv_programs.specs.Appending.{AppendsNumbers};

use crate::numbers::Numbered;
use pv_model::Instruction;
use std::alloc::AllocError;

/// Appends the numbers of an instruction: its opcode and its arguments.
///
/// # Errors
///
/// `AllocError`, if there is no memory.
#[tactic(auto, unfolding(pv_model::specs::Answers::Numbers::instruction_numbers))]
pub(crate) fn push_instruction(
    out: &mut Vec<u64>,
    instruction: &Instruction,
) -> Result<(), AllocError>
    ensures { OnOk result (AppendsNumbers (instruction_numbers instruction.now) out.old.items out.new.items) }
{
    match instruction {
        Instruction::Set(register, number) => (0u64, register, number).push(out),
        Instruction::Add(register, number) => (1u64, register, number).push(out),
        Instruction::Put(bytes) => (2u64, bytes).push(out),
        Instruction::Peek(register, place) => (3u64, register, place).push(out),
        Instruction::Jump(line) => (4u64, line).push(out),
        Instruction::JumpIfZero(register, line) => (5u64, register, line).push(out),
        Instruction::JumpIfNotZero(register, line) => (6u64, register, line).push(out),
        Instruction::JumpIfNegative(register, line) => (7u64, register, line).push(out),
        Instruction::Fork => 8u64.push(out),
        Instruction::Wait => 9u64.push(out),
        Instruction::GetPid => 10u64.push(out),
        Instruction::GetPpid => 11u64.push(out),
        Instruction::Exit(code) => (12u64, code).push(out),
        Instruction::Close(descriptor) => (13u64, descriptor).push(out),
        Instruction::Dup(descriptor) => (14u64, descriptor).push(out),
        Instruction::Fstat(descriptor) => (15u64, descriptor).push(out),
        Instruction::Getdents(descriptor) => (16u64, descriptor).push(out),
        Instruction::Fchdir(descriptor) => (17u64, descriptor).push(out),
        Instruction::Dup2(descriptor, number) => (18u64, descriptor, number).push(out),
        Instruction::Read(descriptor, count) => (19u64, descriptor, count).push(out),
        Instruction::Write(descriptor, count) => (20u64, descriptor, count).push(out),
        Instruction::Ftruncate(descriptor, size) => (21u64, descriptor, size).push(out),
        Instruction::Lseek(descriptor, by, whence) => (22u64, descriptor, by, whence).push(out),
        Instruction::Pledge(promises, execpromises) => (23u64, promises, execpromises).push(out),
        Instruction::Unveil(path, permissions) => (24u64, path, permissions).push(out),
        Instruction::Execve(path) => (25u64, path).push(out),
        Instruction::Chdir(path) => (26u64, path).push(out),
        Instruction::Stat(path) => (27u64, path).push(out),
        Instruction::Lstat(path) => (28u64, path).push(out),
        Instruction::Readlink(path) => (29u64, path).push(out),
        Instruction::Unlink(path) => (30u64, path).push(out),
        Instruction::Mkdir(path) => (31u64, path).push(out),
        Instruction::Rmdir(path) => (32u64, path).push(out),
        Instruction::Open(path, flags) => (33u64, path, flags).push(out),
        Instruction::OpenAt(origin, path, flags) => (34u64, origin, path, flags).push(out),
        Instruction::Rename(path, new) => (35u64, path, new).push(out),
        Instruction::Link(path, new) => (36u64, path, new).push(out),
        Instruction::Symlink(text, path) => (37u64, text, path).push(out),
    }
}
