//! Programs in a source: labels and instructions.
ghost use Rattle.std.specs.Prelude.{◌≡◌, ◌+◌, ◌<◌, ◌≤◌, ◌^◌, ◌++◌, [], length, IfOk, IfSome, OnOk, option_map};
ghost use Rattle.std.specs.List.{list_all};
ghost use Rattle.pv_model.specs.Machine.{spaced, labels_from, instructions_of, last_word};
ghost use Rattle.pv_model.specs.Source.Programs.{is_label_byte, is_label, label_of, labelled_words, or_exit, count_words, onto_labels, number_of_label, is_jump, begins_with_letter, target_word, without_labels};
ghost use Rattle.pv_model.specs.Source.Words.{with_last_word};
ghost use Rattle.pv_source.specs.Reading.{spaced_more, IsWithin, words_in};
ghost use Rattle.pv_source.specs.ReadPrograms.{name_value, labelled_value, then_labelled, program_lines_in, labelled_in, label_values};
ghost use Rattle.pv_source.specs.Appending.{AppendsText, AppendsLines};

use crate::lines::{Line, Lines, next_line};
use crate::words::{
    before_last, has_no_word, is_letter, last_word, next_word, push_more_with_last, push_words,
};
use itoa::Buffer;
use std::alloc::{AllocError, Global};

/// A line of a program: the label that it sets, and its instruction.
#[derive(Clone, Copy)]
pub struct Labelled<'a> {
    /// Its number in the source.
    pub number: u32,
    /// The label, if it sets one.
    pub label: Option<&'a [u8]>,
    /// The text of the words of its instruction. There may be none.
    pub words: &'a [u8],
}

/// A label with the number of the instruction that it refers to.
#[derive(Clone, Copy)]
pub struct Label<'a> {
    /// The label.
    pub name: &'a [u8],
    /// The number of the instruction, counted from 1.
    pub number: u32,
}

// Returns whether a label can contain a byte after its first.
fn is_label_byte(byte: u8) -> bool
    ensures { result ≡ is_label_byte byte }
{
    is_letter(byte) || byte.is_ascii_digit() || byte == b'_' || byte == b'-'
}

// Returns whether a label can contain all of the bytes.
fn are_label_bytes(bytes: &[u8]) -> bool
    ensures { result ≡ list_all is_label_byte bytes.now }
{
    bytes.iter().all(|byte| is_label_byte(*byte))
}

// Returns whether a name is a valid label.
fn is_label(name: &[u8]) -> bool
    ensures { result ≡ is_label name.now }
{
    match name {
        [first, following @ ..] => is_letter(*first) && are_label_bytes(following),
        [] => false,
    }
}

/// Returns the label that a word sets, if it sets one.
pub fn label_of(word: &[u8]) -> Option<&[u8]>
    ensures { option_map (λ name. name.now) result ≡ label_of word.now }
{
    let Some(name) = before_last(b':', word) else {
        return None;
    };
    if is_label(name) { Some(name) } else { None }
}

// Separates the label of a line from its instruction.
fn with_label_apart<'a>(line: Line<'a>) -> Labelled<'a>
    ensures { labelled_value result ≡ labelled_words line.entry.number (words_in line.entry.words.now) }
{
    let whole = Labelled {
        number: line.number,
        label: None,
        words: line.words,
    };
    let Some((word, words)) = next_word(line.words) else {
        return whole;
    };
    let Some(name) = label_of(word) else {
        return whole;
    };
    Labelled {
        number: line.number,
        label: Some(name),
        words,
    }
}

// Replaces the instruction of a line by `exit 0`.
fn with_exit<'a>(line: Labelled<'a>) -> Labelled<'a>
    ensures { labelled_value result ≡ record (labelled_value line.entry) { words = or_exit [] } }
{
    Labelled {
        number: line.number,
        label: line.label,
        words: b"exit 0",
    }
}

/// Returns the first line of a program that has a word, with the lines after it. If this line is the last and has no
/// instruction, it receives an `exit 0`.
pub fn next_labelled<'a>(lines: Lines<'a>) -> Option<(Labelled<'a>, Lines<'a>)>
    requires { lines.number + length lines.text.now < 2 ^ 31 }
    ensures line { labelled_in lines.entry ≡ then_labelled result }
    ensures room { IfSome result (λ p. IsWithin p.1 lines.entry) }
    ensures shorter { IfSome result (λ p. length p.1.text.now < length lines.entry.text.now) }
{
    let Some((line, rest)) = next_line(lines) else {
        return None;
    };
    let line = with_label_apart(line);
    if has_no_word(line.words) {
        return match next_line(rest) {
            Some(_) => Some((line, rest)),
            None => Some((with_exit(line), rest)),
        };
    }
    Some((line, rest))
}

/// Returns the number of instructions of a line with these words: one or zero.
pub fn instruction_count(words: &[u8]) -> u32
    ensures value { result ≡ count_words (words_in words.now) }
    ensures few { result ≤ 1 }
{
    if has_no_word(words) { 0 } else { 1 }
}

// Appends the label that a line sets, if it sets one.
fn push_label<'a>(
    labels: &mut Vec<Label<'a>>,
    label: Option<&'a [u8]>,
    number: u32,
) -> Result<(), AllocError>
    ensures { OnOk result (label_values labels.new.items ≡ label_values labels.old.items ++ onto_labels (name_value label.entry) number []) }
{
    if let Some(name) = label {
        labels.push(Label { name, number })?;
    }
    Ok(())
}

/// Returns the labels of a program, each with the number of its instruction, and the number of instructions.
///
/// # Errors
///
/// Returns `AllocError` if memory cannot be allocated.
pub fn labels_of<'a>(alloc: Global, body: Lines<'a>) -> Result<(Vec<Label<'a>>, u32), AllocError>
    requires { body.number + length body.text.now < 2 ^ 31 }
    ensures labels { IfOk result (λ p. label_values p.0.items ≡ labels_from 1 (labelled_in body.entry)) }
    ensures count { IfOk result (λ p. p.1 ≡ length (instructions_of (program_lines_in body.entry))) }
{
    let mut labels = Vec::new(alloc);
    let mut count: u32 = 0;
    let mut rest = body;
    while let Some((line, following)) = next_labelled(rest) {
        push_label(&mut labels, line.label, count + 1)?;
        count += instruction_count(line.words);
        rest = following;
    }
    Ok((labels, count))
}

// Returns the number of the instruction that a label refers to, if the label is set.
fn number_of(labels: &[Label], name: &[u8]) -> Option<u32>
    ensures { result ≡ number_of_label name.now (label_values labels.now) }
{
    for label in labels {
        if label.name == name {
            return Some(label.number);
        }
    }
    None
}

/// Returns whether a word begins with a letter.
pub fn begins_with_letter(word: &[u8]) -> bool
    ensures { result ≡ begins_with_letter word.now }
{
    match word {
        [first, ..] => is_letter(*first),
        [] => false,
    }
}

/// Returns whether a word is the name of a jump.
pub fn is_jump(word: &[u8]) -> bool
    ensures { result ≡ is_jump word.now }
{
    word == b"jmp".as_slice()
        || word == b"jz".as_slice()
        || word == b"jnz".as_slice()
        || word == b"jneg".as_slice()
}

// Appends the words of a jump after its name. If the last word, the target, is a label, its number is appended instead.
fn push_jump(labels: &[Label], words: &[u8], out: &mut Vec<u8>) -> Result<(), AllocError>
    ensures { OnOk result (let given = words_in words.now in out.new.items ≡ out.old.items ++ spaced_more (with_last_word (target_word (label_values labels.now) (last_word given)) given)) }
{
    let last = last_word(words);
    if !begins_with_letter(last) {
        return push_more_with_last(words, last, out);
    }
    let Some(number) = number_of(labels, last) else {
        return push_more_with_last(words, last, out);
    };
    let mut buffer = Buffer::new();
    push_more_with_last(words, buffer.format(number).as_bytes(), out)
}

/// Appends an instruction to `out`: its words separated by single spaces, with labels replaced by numbers.
///
/// # Errors
///
/// Returns `AllocError` if memory cannot be allocated.
pub fn push_instruction(labels: &[Label], words: &[u8], out: &mut Vec<u8>) -> Result<(), AllocError>
    ensures { AppendsText (spaced (without_labels (label_values labels.now) (words_in words.now))) out.old out.new result }
{
    let Some((first, rest)) = next_word(words) else {
        return Ok(());
    };
    if !is_jump(first) {
        return push_words(words, out);
    }
    out.extend_from_slice(first)?;
    push_jump(labels, rest, out)
}

/// Appends the instructions of a program to `out`, each with a line feed.
///
/// # Errors
///
/// Returns `AllocError` if memory cannot be allocated.
pub fn push_program(labels: &[Label], body: Lines, out: &mut Vec<u8>) -> Result<(), AllocError>
    requires few { body.number + length body.text.now < 2 ^ 31 }
    requires labels { label_values labels.now ≡ labels_from 1 (labelled_in body) }
    ensures { AppendsLines (instructions_of (program_lines_in body.entry)) out.old out.new result }
{
    let mut rest = body;
    while let Some((line, following)) = next_labelled(rest) {
        if !has_no_word(line.words) {
            push_instruction(labels, line.words, out)?;
            out.push(b'\n')?;
        }
        rest = following;
    }
    Ok(())
}
