//! Parsing arguments that are one word: numbers, registers, and the flags of open.
ghost use Rattle.std.specs.Prelude.{◌≡◌, ◌||◌};
ghost use Rattle.pv_model.specs.Machine.{word_at, is_empty};
ghost use Rattle.pv_model.specs.Grammar.Arguments.{register_of, register_at, parsed_number, number_at, operand_of, operand_at, whence_of, whence_at, origin_of, origin_at, parsed_flags, flags_at, flag_or_none, without_front, mode_at};
ghost use Rattle.pv_model.specs.Grammar.Lines.{has_leading_zero};
ghost use Rattle.pv_text.specs.Reading.{Reads, saturated_number};

use crate::lines::split_word;
use pv_model::{Mode, OpenFlags, Operand, Origin, Register, Whence};

// Returns whether there are no digits or the digits have a leading zero.
fn is_padded(digits: &[u8]) -> bool
    ensures { result ≡ (is_empty digits.now || has_leading_zero digits.now) }
{
    matches!(digits, [] | [b'0', _, ..])
}

/// Parses a decimal number without leading zeros. A number greater than 4,294,967,295 is parsed as 4,294,967,295.
pub fn decimal(digits: &[u8]) -> Option<u32>
    ensures { result ≡ saturated_number digits.now }
{
    if is_padded(digits) {
        return None;
    }
    let mut value: u32 = 0;
    for digit in digits {
        if !digit.is_ascii_digit() {
            return None;
        }
        value = value
            .saturating_mul(10)
            .saturating_add((*digit - b'0') as u32);
    }
    Some(value)
}

// Parses a word as a number of 32 bits.
fn number_of_word(word: &[u8]) -> Option<i32>
    ensures { result ≡ parsed_number word.now }
{
    match word {
        [b'-', digits @ ..] => {
            let size = decimal(digits)?;
            if size == 0 || size > 2_147_483_648 {
                return None;
            }
            Some(-1 - (size - 1) as i32)
        }
        _ => {
            let size = decimal(word)?;
            if size > 2_147_483_647 {
                return None;
            }
            Some(size as i32)
        }
    }
}

// Parses a word as a register.
fn register_of_word(word: &[u8]) -> Option<Register>
    ensures { result ≡ register_of word.now }
{
    match word {
        [b'r', digit @ b'0'..=b'7'] => Register::new(*digit - b'0'),
        _ => None,
    }
}

/// Parses a number from -2,147,483,648 to 2,147,483,647.
pub fn number(bytes: &[u8]) -> Option<(i32, &[u8])>
    ensures { Reads result (number_at bytes.now) }
{
    let (word, rest) = split_word(bytes);
    let number = number_of_word(word)?;
    Some((number, rest))
}

/// Parses a register, `r0` to `r7`.
pub fn register(bytes: &[u8]) -> Option<(Register, &[u8])>
    ensures { Reads result (register_at bytes.now) }
{
    let (word, rest) = split_word(bytes);
    let register = register_of_word(word)?;
    Some((register, rest))
}

// Parses a word as a number or a register.
fn operand_of_word(word: &[u8]) -> Option<Operand>
    ensures { result ≡ operand_of word.now }
{
    if let Some(register) = register_of_word(word) {
        return Some(Operand::Register(register));
    }
    let number = number_of_word(word)?;
    Some(Operand::Number(number))
}

/// Parses a number or a register.
pub fn operand(bytes: &[u8]) -> Option<(Operand, &[u8])>
    ensures { Reads result (operand_at bytes.now) }
{
    let (word, rest) = split_word(bytes);
    let operand = operand_of_word(word)?;
    Some((operand, rest))
}

// Parses a word as the start of openat.
fn origin_of_word(word: &[u8]) -> Option<Origin>
    ensures { result ≡ origin_of word.now }
{
    if word == b"cwd".as_slice() {
        return Some(Origin::WorkingDirectory);
    }
    let descriptor = operand_of_word(word)?;
    Some(Origin::Descriptor(descriptor))
}

/// Parses the start of openat: `cwd`, the number of a descriptor, or the register that contains it.
pub fn origin(bytes: &[u8]) -> Option<(Origin, &[u8])>
    ensures { Reads result (origin_at bytes.now) }
{
    let (word, rest) = split_word(bytes);
    let origin = origin_of_word(word)?;
    Some((origin, rest))
}

// Parses a flag, with its leading `+`, at the start of a word. Returns whether it is present, and the rest of the word.
fn flag<'a>(name: &[u8], word: &'a [u8]) -> (bool, &'a [u8])
    ensures flag { result.0 ≡ (flag_or_none word.now (without_front name.now word.now)).0 }
    ensures rest { result.1.now ≡ (flag_or_none word.now (without_front name.now word.now)).1 }
{
    match word.strip_prefix(name) {
        Some(rest) => (true, rest),
        None => (false, word),
    }
}

// Parses the mode at the start of a word, and returns it with the rest of the word.
fn mode(word: &[u8]) -> Option<(Mode, &[u8])>
    ensures { Reads result (mode_at word.now) }
{
    match word {
        [b'r', b'w', rest @ ..] => Some((Mode::ReadWrite, rest)),
        [b'r', rest @ ..] => Some((Mode::Read, rest)),
        [b'w', rest @ ..] => Some((Mode::Write, rest)),
        _ => None,
    }
}

// Parses a word as the flags of open.
#[tactic(auto, unfolding(pv_model::specs::Grammar::Arguments::parsed_flags))]
fn flags_of_word(word: &[u8]) -> Option<OpenFlags>
    ensures { result ≡ parsed_flags word.now }
{
    let (mode, rest) = mode(word)?;
    let (append, rest) = flag(b"+append", rest);
    let (create, rest) = flag(b"+create", rest);
    let (truncate, rest) = flag(b"+trunc", rest);
    let (exclusive, rest) = flag(b"+excl", rest);
    let (no_follow, rest) = flag(b"+nofollow", rest);
    let (directory, rest) = flag(b"+dir", rest);
    let (close_on_exec, rest) = flag(b"+cloexec", rest);
    match rest {
        [] => Some(OpenFlags {
            mode,
            append,
            create,
            truncate,
            exclusive,
            no_follow,
            directory,
            close_on_exec,
        }),
        _ => None,
    }
}

/// Parses the flags of open.
pub fn flags(bytes: &[u8]) -> Option<(OpenFlags, &[u8])>
    ensures { Reads result (flags_at bytes.now) }
{
    let (word, rest) = split_word(bytes);
    let flags = flags_of_word(word)?;
    Some((flags, rest))
}

// Parses a word as the `whence` of lseek.
fn whence_of_word(word: &[u8]) -> Option<Whence>
    ensures { result ≡ whence_of word.now }
{
    if word == b"set".as_slice() {
        Some(Whence::Set)
    } else if word == b"cur".as_slice() {
        Some(Whence::Current)
    } else if word == b"end".as_slice() {
        Some(Whence::End)
    } else {
        None
    }
}

/// Parses the `whence` of lseek: `set`, `cur` or `end`.
pub fn whence(bytes: &[u8]) -> Option<(Whence, &[u8])>
    ensures { Reads result (whence_at bytes.now) }
{
    let (word, rest) = split_word(bytes);
    let whence = whence_of_word(word)?;
    Some((whence, rest))
}

/// Parses a decimal number. A number greater than 4,294,967,295 is parsed as 4,294,967,295.
pub fn size(bytes: &[u8]) -> Option<(u32, &[u8])>
    ensures { Reads result (word_at saturated_number bytes.now) }
{
    let (word, rest) = split_word(bytes);
    let size = decimal(word)?;
    Some((size, rest))
}
