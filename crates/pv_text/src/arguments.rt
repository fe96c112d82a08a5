//! Parsing the arguments of a line. A space precedes each argument, and nothing follows the last.
ghost use Rattle.std.specs.Prelude.{◌≡◌};
ghost use Rattle.pv_model.specs.Machine.{text_at, word_at, one_argument, two_arguments};
ghost use Rattle.pv_model.specs.Grammar.Arguments.{text_or_null_at, operand_at, register_at, number_at, whence_at, origin_at, flags_at, no_argument, three_arguments};
ghost use Rattle.pv_text.specs.Reading.{saturated_number};

use crate::lines::after_one_space;
use crate::texts::{text, text_or_null};
use crate::words::{flags, number, operand, origin, register, size, whence};
use pv_model::{OpenFlags, Operand, Origin, Register, Text, Whence};

/// Parses an empty list of arguments.
pub fn no_argument(bytes: &[u8]) -> Option<()>
    ensures { result ≡ no_argument bytes.now }
{
    if bytes.is_empty() { Some(()) } else { None }
}

/// Parses one argument, a number or a register.
pub fn one_operand(bytes: &[u8]) -> Option<Operand>
    ensures { result ≡ one_argument operand_at bytes.now }
{
    let Some((operand, rest)) = operand(after_one_space(bytes)?) else {
        return None;
    };
    if rest.is_empty() { Some(operand) } else { None }
}

/// Parses two arguments, each a number or a register.
pub fn two_operands(bytes: &[u8]) -> Option<(Operand, Operand)>
    ensures { result ≡ two_arguments operand_at operand_at bytes.now }
{
    let Some((first, rest)) = operand(after_one_space(bytes)?) else {
        return None;
    };
    let second = one_operand(rest)?;
    Some((first, second))
}

/// Parses one argument, a number.
pub fn one_number(bytes: &[u8]) -> Option<i32>
    ensures { result ≡ one_argument number_at bytes.now }
{
    let (number, rest) = number(after_one_space(bytes)?)?;
    if rest.is_empty() { Some(number) } else { None }
}

/// Parses two arguments, a register and a number.
pub fn register_and_number(bytes: &[u8]) -> Option<(Register, i32)>
    ensures { result ≡ two_arguments register_at number_at bytes.now }
{
    let Some((first, rest)) = register(after_one_space(bytes)?) else {
        return None;
    };
    let second = one_number(rest)?;
    Some((first, second))
}

// Parses one argument, the `whence` of lseek.
fn one_whence(bytes: &[u8]) -> Option<Whence>
    ensures { result ≡ one_argument whence_at bytes.now }
{
    let (first, rest) = whence(after_one_space(bytes)?)?;
    if rest.is_empty() { Some(first) } else { None }
}

// Parses two arguments, a number or register and the `whence` of lseek.
fn operand_and_whence(bytes: &[u8]) -> Option<(Operand, Whence)>
    ensures { result ≡ two_arguments operand_at whence_at bytes.now }
{
    let Some((first, rest)) = operand(after_one_space(bytes)?) else {
        return None;
    };
    let second = one_whence(rest)?;
    Some((first, second))
}

/// Parses three arguments: two numbers or registers, and the `whence` of lseek.
pub fn two_operands_and_whence(bytes: &[u8]) -> Option<(Operand, Operand, Whence)>
    ensures { result ≡ three_arguments operand_at operand_at whence_at bytes.now }
{
    let Some((first, rest)) = operand(after_one_space(bytes)?) else {
        return None;
    };
    let (second, third) = operand_and_whence(rest)?;
    Some((first, second, third))
}

/// Parses one argument, a text.
pub fn one_text(bytes: &[u8]) -> Option<Text>
    ensures { result ≡ one_argument text_at bytes.now }
{
    let (text, rest) = text(after_one_space(bytes)?)?;
    if rest.is_empty() { Some(text) } else { None }
}

/// Parses two arguments, both texts.
pub fn two_texts(bytes: &[u8]) -> Option<(Text, Text)>
    ensures { result ≡ two_arguments text_at text_at bytes.now }
{
    let (first, rest) = text(after_one_space(bytes)?)?;
    let second = one_text(rest)?;
    Some((first, second))
}

// Parses one argument, a text or `null`.
fn one_text_or_null(bytes: &[u8]) -> Option<Option<Text>>
    ensures { result ≡ one_argument text_or_null_at bytes.now }
{
    let (first, rest) = text_or_null(after_one_space(bytes)?)?;
    if rest.is_empty() { Some(first) } else { None }
}

/// Parses two arguments, each a text or `null`.
pub fn two_texts_or_null(bytes: &[u8]) -> Option<(Option<Text>, Option<Text>)>
    ensures { result ≡ two_arguments text_or_null_at text_or_null_at bytes.now }
{
    let (first, rest) = text_or_null(after_one_space(bytes)?)?;
    let second = one_text_or_null(rest)?;
    Some((first, second))
}

// Parses one argument, the flags of open.
fn one_flags(bytes: &[u8]) -> Option<OpenFlags>
    ensures { result ≡ one_argument flags_at bytes.now }
{
    let (first, rest) = flags(after_one_space(bytes)?)?;
    if rest.is_empty() { Some(first) } else { None }
}

/// Parses two arguments, a text and the flags of open.
pub fn text_and_flags(bytes: &[u8]) -> Option<(Text, OpenFlags)>
    ensures { result ≡ two_arguments text_at flags_at bytes.now }
{
    let (first, rest) = text(after_one_space(bytes)?)?;
    let second = one_flags(rest)?;
    Some((first, second))
}

/// Parses three arguments: the start of openat, a text, and the flags of open.
pub fn origin_text_and_flags(bytes: &[u8]) -> Option<(Origin, Text, OpenFlags)>
    ensures { result ≡ three_arguments origin_at text_at flags_at bytes.now }
{
    let Some((first, rest)) = origin(after_one_space(bytes)?) else {
        return None;
    };
    let (second, third) = text_and_flags(rest)?;
    Some((first, second, third))
}

// Parses one argument, a decimal number.
fn one_size(bytes: &[u8]) -> Option<u32>
    ensures { result ≡ one_argument (word_at saturated_number) bytes.now }
{
    let (first, rest) = size(after_one_space(bytes)?)?;
    if rest.is_empty() { Some(first) } else { None }
}

/// Parses two arguments, decimal numbers without leading zeros. A number greater than 4,294,967,295 is parsed as
/// 4,294,967,295.
pub fn two_sizes(bytes: &[u8]) -> Option<(u32, u32)>
    ensures { result ≡ two_arguments (word_at saturated_number) (word_at saturated_number) bytes.now }
{
    let (first, rest) = size(after_one_space(bytes)?)?;
    let second = one_size(rest)?;
    Some((first, second))
}

/// Parses two arguments, a text and a decimal number without leading zeros. A number greater than 4,294,967,295 is
/// parsed as 4,294,967,295.
pub fn text_and_size(bytes: &[u8]) -> Option<(Text, u32)>
    ensures { result ≡ two_arguments text_at (word_at saturated_number) bytes.now }
{
    let (text, rest) = text(after_one_space(bytes)?)?;
    let size = one_size(rest)?;
    Some((text, size))
}
