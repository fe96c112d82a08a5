//! Parsing a line of a program: an instruction.
ghost use Rattle.std.specs.Prelude.{◌≡◌, ℕ, Some, Result, Ok, Err, MatchResult, unwrap_or, bytes_eq};
ghost use Rattle.pv_model.specs.declared.fault.What.TheVariants.{Argument};
ghost use Rattle.pv_model.specs.declared.instruction.Instruction.{Instruction};
ghost use Rattle.pv_model.specs.declared.instruction.Instruction.TheVariants.{JumpIfZero as JumpIfZeroLine, JumpIfNotZero as JumpIfNotZeroLine, JumpIfNegative as JumpIfNegativeLine};
ghost use Rattle.pv_model.specs.Machine.{one_argument, two_arguments, instruction_of};
ghost use Rattle.pv_model.specs.Grammar.Arguments.{number_at, register_at, no_argument};
ghost use Rattle.pv_model.specs.Grammar.Instructions.{or_argument, line_within, peek_by, jump_by, jump_if_by, on_registers, on_processes, on_descriptors, on_paths, instruction_by};

use pv_model::limits::BUFFER;
use pv_model::{Instruction, Register, What};
use pv_text::arguments::{
    no_argument, one_number, one_operand, one_text, origin_text_and_flags, register_and_number,
    text_and_flags, two_operands, two_operands_and_whence, two_texts, two_texts_or_null,
};
use pv_text::lines::split_word;

// Returns whether a word is this name.
fn is(word: &[u8], name: &[u8]) -> bool
    ensures { result ≡ bytes_eq word.now name.now }
{
    word == name
}

// Returns the instruction, or `Argument` as an error if its arguments do not parse.
fn or_argument(instruction: Option<Instruction>) -> Option<Result<Instruction, What>>
    ensures { result ≡ Some (or_argument instruction) }
{
    Some(instruction.ok_or(What::Argument))
}

// Parses the arguments of `peek`.
fn peek(rest: &[u8]) -> Option<Instruction>
    ensures { result ≡ peek_by (two_arguments register_at number_at rest.now) }
{
    let (register, place) = register_and_number(rest)?;
    if place < 0 || place >= BUFFER as i32 {
        return None;
    }
    Some(Instruction::Peek(register, place as u16))
}

// Returns the line number if the program has such a line. Lines are counted from 1.
fn target(lines: u16, number: i32) -> Option<u16>
    ensures { result ≡ line_within lines number }
{
    if number < 1 || number > i32::from(lines) {
        return None;
    }
    Some(number as u16)
}

// Parses the arguments of `jmp`.
fn jump(lines: u16, rest: &[u8]) -> Result<Instruction, What>
    ensures { result ≡ jump_by lines (one_argument number_at rest.now) }
{
    let Some(number) = one_number(rest) else {
        return Err(What::Argument);
    };
    match target(lines, number) {
        Some(line) => Ok(Instruction::Jump(line)),
        None => Err(What::Target),
    }
}

// Parses the arguments of a conditional jump: a register and a line of the program.
fn jump_if(lines: u16, rest: &[u8]) -> Result<(Register, u16), What>
    ensures { (jump : ℕ → ℕ → Instruction) → let it = jump_if_by lines jump (two_arguments register_at number_at rest.now) in MatchResult result (λ p. it ≡ Ok (jump p.0 p.1)) (λ what. it ≡ Err what) }
{
    let Some((register, number)) = register_and_number(rest) else {
        return Err(What::Argument);
    };
    match target(lines, number) {
        Some(line) => Ok((register, line)),
        None => Err(What::Target),
    }
}

// Parses the arguments of `jz`.
fn jump_if_zero(lines: u16, rest: &[u8]) -> Result<Instruction, What>
    ensures { result ≡ jump_if_by lines JumpIfZeroLine (two_arguments register_at number_at rest.now) }
{
    match jump_if(lines, rest) {
        Ok((register, line)) => Ok(Instruction::JumpIfZero(register, line)),
        Err(what) => Err(what),
    }
}

// Parses the arguments of `jnz`.
fn jump_if_not_zero(lines: u16, rest: &[u8]) -> Result<Instruction, What>
    ensures { result ≡ jump_if_by lines JumpIfNotZeroLine (two_arguments register_at number_at rest.now) }
{
    match jump_if(lines, rest) {
        Ok((register, line)) => Ok(Instruction::JumpIfNotZero(register, line)),
        Err(what) => Err(what),
    }
}

// Parses the arguments of `jneg`.
fn jump_if_negative(lines: u16, rest: &[u8]) -> Result<Instruction, What>
    ensures { result ≡ jump_if_by lines JumpIfNegativeLine (two_arguments register_at number_at rest.now) }
{
    match jump_if(lines, rest) {
        Ok((register, line)) => Ok(Instruction::JumpIfNegative(register, line)),
        Err(what) => Err(what),
    }
}

// Parses an instruction on registers or a jump. Returns `None` if the word does not name one.
fn register_line(lines: u16, word: &[u8], rest: &[u8]) -> Option<Result<Instruction, What>>
    ensures { (other : Result Instruction What) → on_registers lines word.now rest.now other ≡ unwrap_or result other }
{
    if is(word, b"set") {
        return or_argument(register_and_number(rest).map(|(register, n)| Instruction::Set(
            register, n,
        )));
    }
    if is(word, b"add") {
        return or_argument(register_and_number(rest).map(|(register, n)| Instruction::Add(
            register, n,
        )));
    }
    if is(word, b"put") {
        return or_argument(one_text(rest).map(Instruction::Put));
    }
    if is(word, b"peek") {
        return or_argument(peek(rest));
    }
    if is(word, b"jmp") {
        return Some(jump(lines, rest));
    }
    if is(word, b"jz") {
        return Some(jump_if_zero(lines, rest));
    }
    if is(word, b"jnz") {
        return Some(jump_if_not_zero(lines, rest));
    }
    if is(word, b"jneg") {
        return Some(jump_if_negative(lines, rest));
    }
    None
}

// Parses a call on processes, promises or the unveil table. Returns `None` if the word does not name one.
fn process_call(word: &[u8], rest: &[u8]) -> Option<Result<Instruction, What>>
    ensures { (other : Result Instruction What) → on_processes word.now rest.now other ≡ unwrap_or result other }
{
    if is(word, b"fork") {
        return or_argument(no_argument(rest).map(|()| Instruction::Fork));
    }
    if is(word, b"wait") {
        return or_argument(no_argument(rest).map(|()| Instruction::Wait));
    }
    if is(word, b"getpid") {
        return or_argument(no_argument(rest).map(|()| Instruction::GetPid));
    }
    if is(word, b"getppid") {
        return or_argument(no_argument(rest).map(|()| Instruction::GetPpid));
    }
    if is(word, b"exit") {
        return or_argument(one_operand(rest).map(Instruction::Exit));
    }
    if is(word, b"pledge") {
        return or_argument(two_texts_or_null(rest).map(|(
            promises,
            execpromises,
        )| Instruction::Pledge(promises, execpromises)));
    }
    if is(word, b"unveil") {
        return or_argument(two_texts_or_null(rest).map(|(path, permissions)| Instruction::Unveil(
            path,
            permissions,
        )));
    }
    if is(word, b"execve") {
        return or_argument(one_text(rest).map(Instruction::Execve));
    }
    None
}

// Parses a call on descriptors. Returns `None` if the word does not name one.
fn descriptor_call(word: &[u8], rest: &[u8]) -> Option<Result<Instruction, What>>
    ensures { (other : Result Instruction What) → on_descriptors word.now rest.now other ≡ unwrap_or result other }
{
    if is(word, b"open") {
        return or_argument(text_and_flags(rest).map(|(path, flags)| Instruction::Open(
            path, flags,
        )));
    }
    if is(word, b"openat") {
        return or_argument(origin_text_and_flags(rest).map(|(
            start,
            path,
            flags,
        )| Instruction::OpenAt(start, path, flags)));
    }
    if is(word, b"close") {
        return or_argument(one_operand(rest).map(Instruction::Close));
    }
    if is(word, b"dup") {
        return or_argument(one_operand(rest).map(Instruction::Dup));
    }
    if is(word, b"dup2") {
        return or_argument(two_operands(rest).map(|(d, e)| Instruction::Dup2(d, e)));
    }
    if is(word, b"read") {
        return or_argument(two_operands(rest).map(|(d, n)| Instruction::Read(d, n)));
    }
    if is(word, b"write") {
        return or_argument(two_operands(rest).map(|(d, n)| Instruction::Write(d, n)));
    }
    if is(word, b"lseek") {
        return or_argument(two_operands_and_whence(rest).map(|(d, by, whence)| Instruction::Lseek(
            d, by, whence,
        )));
    }
    if is(word, b"fstat") {
        return or_argument(one_operand(rest).map(Instruction::Fstat));
    }
    if is(word, b"ftruncate") {
        return or_argument(two_operands(rest).map(|(d, n)| Instruction::Ftruncate(d, n)));
    }
    if is(word, b"getdents") {
        return or_argument(one_operand(rest).map(Instruction::Getdents));
    }
    if is(word, b"fchdir") {
        return or_argument(one_operand(rest).map(Instruction::Fchdir));
    }
    None
}

// Parses a call on paths. Returns `None` if the word does not name one.
fn path_call(word: &[u8], rest: &[u8]) -> Option<Result<Instruction, What>>
    ensures { (other : Result Instruction What) → on_paths word.now rest.now other ≡ unwrap_or result other }
{
    if is(word, b"chdir") {
        return or_argument(one_text(rest).map(Instruction::Chdir));
    }
    if is(word, b"stat") {
        return or_argument(one_text(rest).map(Instruction::Stat));
    }
    if is(word, b"lstat") {
        return or_argument(one_text(rest).map(Instruction::Lstat));
    }
    if is(word, b"readlink") {
        return or_argument(one_text(rest).map(Instruction::Readlink));
    }
    if is(word, b"unlink") {
        return or_argument(one_text(rest).map(Instruction::Unlink));
    }
    if is(word, b"mkdir") {
        return or_argument(one_text(rest).map(Instruction::Mkdir));
    }
    if is(word, b"rmdir") {
        return or_argument(one_text(rest).map(Instruction::Rmdir));
    }
    if is(word, b"rename") {
        return or_argument(two_texts(rest).map(|(path, new)| Instruction::Rename(path, new)));
    }
    if is(word, b"link") {
        return or_argument(two_texts(rest).map(|(path, new)| Instruction::Link(path, new)));
    }
    if is(word, b"symlink") {
        return or_argument(two_texts(rest).map(|(text, path)| Instruction::Symlink(text, path)));
    }
    None
}

// Parses the instruction with this name and the arguments `rest`.
#[tactic(auto, unfolding(pv_model::specs::Grammar::Instructions::instruction_by))]
fn by_word(lines: u16, word: &[u8], rest: &[u8]) -> Result<Instruction, What>
    ensures { result ≡ instruction_by lines word.now rest.now }
{
    if let Some(instruction) = register_line(lines, word, rest) {
        return instruction;
    }
    if let Some(instruction) = process_call(word, rest) {
        return instruction;
    }
    if let Some(instruction) = descriptor_call(word, rest) {
        return instruction;
    }
    path_call(word, rest).unwrap_or(Err(What::Word))
}

/// Parses a line of a program. `lines` is the number of lines of the program, counted up to 256.
///
/// # Errors
///
/// Returns `Word` if the first word does not name an instruction, `Argument` if the arguments do not have the form that
/// the instruction requires, and `Target` if it is a jump to a line that the program does not have.
pub fn instruction(lines: u16, line: &[u8]) -> Result<Instruction, What>
    ensures { result ≡ instruction_of lines line.now }
{
    let (word, rest) = split_word(line);
    by_word(lines, word, rest)
}
