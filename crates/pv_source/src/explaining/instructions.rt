//! Messages for the lines of programs.
use super::nearest::nearest;
use super::saying::Part::{Marked, Number, Plain};
use super::saying::{Saying, say, say_all, say_word};
use super::texts::{say_after_text, say_no_text};
use super::words::{NAMES, Want, say_invalid, wants_of};
use crate::programs::{Label, begins_with_letter, is_jump, label_of};
use crate::words::{content, last_word, next_word, push_words};
use pv_model::limits::LINES;
use pv_model::{Instruction, Perms, Text};
use pv_promises::{ALL, read_promises};
use pv_script::instruction::instruction as parsed;
use pv_text::lines::{after_one_space, split_word};
use pv_text::texts::text;
use pv_text::words::{flags, number, operand, origin, register, whence};
use std::alloc::{AllocError, Global};

/// Returns the message that a label is already set.
///
/// # Errors
///
/// Returns `AllocError` if memory cannot be allocated.
pub fn second_label(alloc: Global, label: Option<&[u8]>) -> Result<Saying, AllocError> {
    let mut out = Saying::new(alloc);
    let after = b" is already defined above in this program";
    say_word(&mut out, b"label ", label.unwrap_or(b""), after)?;
    Ok(out)
}

// Returns the first word of a promises argument that is not a keyword.
fn unknown_keyword(promises: &Option<Text>) -> Option<&[u8]> {
    let Some(promises) = promises else {
        return None;
    };
    promises
        .as_slice()
        .split(|byte| *byte == b' ')
        .find(|word| read_promises(word).is_err())
}

// Writes that a word is not a keyword of pledge(2).
fn say_unknown_promise(alloc: Global, out: &mut Saying, word: &[u8]) -> Result<(), AllocError> {
    let mut keywords = Vec::new(alloc);
    for promise in ALL {
        keywords.push(promise.name().as_bytes())?;
    }
    say_word(out, b"warning: unknown promise ", word, b"")?;
    say_nearest(alloc, out, word, &keywords)
}

// Writes that a byte is not a permission of unveil(2).
fn say_unknown_permission(out: &mut Saying, permissions: &Option<Text>) -> Result<(), AllocError> {
    let text = match permissions {
        Some(text) => text.as_slice(),
        None => b"",
    };
    let mut letters = text.windows(1);
    let letter = letters.find(|letter| Perms::read(letter).is_none());
    let after = b": expected r, w, x and c";
    say_word(
        out,
        b"warning: unknown permission ",
        letter.unwrap_or(b""),
        after,
    )
}

/// Returns the message that a line is a pledge(2) with a word that is not a keyword, or an unveil(2) with a byte that
/// is not a permission.
///
/// # Errors
///
/// Returns `AllocError` if memory cannot be allocated.
pub fn unknown_word(alloc: Global, line: &[u8]) -> Result<Saying, AllocError> {
    let mut out = Saying::new(alloc);
    match parsed(LINES as u16, line) {
        Ok(Instruction::Pledge(promises, execpromises)) => {
            let word = unknown_keyword(&promises).or(unknown_keyword(&execpromises));
            say_unknown_promise(alloc, &mut out, word.unwrap_or(b""))?;
        }
        Ok(Instruction::Unveil(_, permissions)) => say_unknown_permission(&mut out, &permissions)?,
        _ => {}
    }
    Ok(out)
}

// Writes a similar name as a suggestion, if there is one.
fn say_nearest(
    alloc: Global,
    out: &mut Saying,
    word: &[u8],
    names: &[&[u8]],
) -> Result<(), AllocError> {
    if let Some(name) = nearest(alloc, word, names)? {
        say_all(out, &[Plain(b"; did you mean "), Marked(name), Plain(b"?")])?;
    }
    Ok(())
}

// Writes that the first word of a line does not name an instruction.
fn say_no_name(
    alloc: Global,
    out: &mut Saying,
    word: &[u8],
    rest: &[u8],
) -> Result<(), AllocError> {
    if word.is_empty() {
        return say(out, b"the line does not begin with an instruction");
    }
    if let [.., b':'] = word {
        let after =
            b" is not allowed here: expected one label a line, a letter followed by letters, digits, '_' or '-'";
        return say_word(out, b"label ", word, after);
    }
    if is_manifest_word(word) {
        let after = b" is not allowed in a program; the line END is missing above";
        return say_word(out, b"manifest line ", word, after);
    }
    say_word(out, b"unknown call or instruction ", word, b"")?;
    if let [b' ', b':', ..] = rest {
        return say(out, b"; write a label and its colon as one word");
    }
    if matches!(word, [b'E' | b'e', b'N' | b'n', b'D' | b'd']) {
        return say(out, b"; did you mean 'END'?");
    }
    say_nearest(alloc, out, word, &NAMES)
}

// Returns whether a word starts lines of manifests and does not name an instruction.
fn is_manifest_word(word: &[u8]) -> bool {
    word == b"exec".as_slice()
        || word == b"dir".as_slice()
        || word == b"bytes".as_slice()
        || word == b"name".as_slice()
        || word == b"image".as_slice()
        || word == b"schedule".as_slice()
}

// Returns the bytes after a text, if the argument is one.
fn after_text(bytes: &[u8]) -> Option<&[u8]> {
    let Some((_, rest)) = text(bytes) else {
        return None;
    };
    Some(rest)
}

// Returns the bytes after a register, if the argument is one.
fn after_register(bytes: &[u8]) -> Option<&[u8]> {
    let Some((_, rest)) = register(bytes) else {
        return None;
    };
    Some(rest)
}

// Returns the bytes after a number, if the argument is one.
fn after_number(bytes: &[u8]) -> Option<&[u8]> {
    let Some((_, rest)) = number(bytes) else {
        return None;
    };
    Some(rest)
}

// Returns the bytes after a number or register, if the argument is one.
fn after_operand(bytes: &[u8]) -> Option<&[u8]> {
    let Some((_, rest)) = operand(bytes) else {
        return None;
    };
    Some(rest)
}

// Returns the bytes after the flags of open, if the argument is valid.
fn after_flags(bytes: &[u8]) -> Option<&[u8]> {
    let Some((_, rest)) = flags(bytes) else {
        return None;
    };
    Some(rest)
}

// Returns the bytes after the `whence` of lseek, if the argument is valid.
fn after_whence(bytes: &[u8]) -> Option<&[u8]> {
    let Some((_, rest)) = whence(bytes) else {
        return None;
    };
    Some(rest)
}

// Returns the bytes after the start of openat, if the argument is valid.
fn after_origin(bytes: &[u8]) -> Option<&[u8]> {
    let Some((_, rest)) = origin(bytes) else {
        return None;
    };
    Some(rest)
}

// Returns the bytes after a text or `null`, if the argument is one.
fn after_text_or_null(bytes: &[u8]) -> Option<&[u8]> {
    if let [b'"', ..] = bytes {
        return after_text(bytes);
    }
    let (word, rest) = split_word(bytes);
    if word == b"null".as_slice() {
        Some(rest)
    } else {
        None
    }
}

// Returns the bytes after an argument, if it is valid.
fn after_argument(want: Want, bytes: &[u8]) -> Option<&[u8]> {
    match want {
        Want::Nothing => None,
        Want::Text => after_text(bytes),
        Want::TextOrNull => after_text_or_null(bytes),
        Want::Register => after_register(bytes),
        Want::Number | Want::Place | Want::Line => after_number(bytes),
        Want::Operand => after_operand(bytes),
        Want::Flags => after_flags(bytes),
        Want::Whence => after_whence(bytes),
        Want::Origin => after_origin(bytes),
    }
}

// Returns the name of an argument in the form of an instruction.
fn form_of(want: Want) -> &'static [u8] {
    match want {
        Want::Nothing => b"",
        Want::Register => b" REG",
        Want::Number => b" NUM",
        Want::Place => b" OFFSET",
        Want::Line => b" LINE",
        Want::Operand => b" NUM|REG",
        Want::Text => b" \"TEXT\"",
        Want::TextOrNull => b" \"TEXT\"|null",
        Want::Flags => b" FLAGS",
        Want::Whence => b" WHENCE",
        Want::Origin => b" START",
    }
}

// Writes the form of an instruction.
fn say_usage(out: &mut Saying, name: &[u8], wants: [Want; 3]) -> Result<(), AllocError> {
    let [first, second, third] = wants;
    let (first, second) = (Plain(form_of(first)), Plain(form_of(second)));
    let third = Plain(form_of(third));
    say_all(
        out,
        &[Plain(b"; usage: "), Plain(name), first, second, third],
    )
}

// Writes that an instruction requires one more argument.
fn say_missing(out: &mut Saying, name: &[u8], wants: [Want; 3]) -> Result<(), AllocError> {
    say_all(out, &[Plain(name), Plain(b": missing argument")])?;
    say_usage(out, name, wants)
}

// Returns whether a label is set.
fn is_set(labels: &[Label], name: &[u8]) -> bool {
    labels.iter().any(|label| label.name == name)
}

// Writes the error of the target of a jump.
fn say_target(
    alloc: Global,
    out: &mut Saying,
    word: &[u8],
    labels: &[Label],
) -> Result<(), AllocError> {
    if !begins_with_letter(word) {
        return say_invalid(out, Want::Line, word);
    }
    if is_set(labels, word) {
        return say_word(out, b"label ", word, b" must be the last word of the line");
    }
    say_word(out, b"undefined label ", word, b"")?;
    let mut names: Vec<&[u8]> = Vec::new(alloc);
    for label in labels.iter().take(LINES) {
        names.push(label.name)?;
    }
    say_nearest(alloc, out, word, &names)
}

// Writes the error of an argument of an instruction.
fn say_argument(
    alloc: Global,
    out: &mut Saying,
    name: &[u8],
    want: Want,
    bytes: &[u8],
    labels: &[Label],
) -> Result<(), AllocError> {
    say_all(out, &[Plain(name), Plain(b": ")])?;
    let (word, _) = split_word(bytes);
    if word.is_empty() {
        return say(
            out,
            b"two adjacent blanks, or a blank at the end of the line",
        );
    }
    match want {
        Want::Text => say_no_text(out, bytes),
        Want::TextOrNull => {
            if let [b'"', ..] = bytes {
                return say_no_text(out, bytes);
            }
            say_invalid(out, want, word)?;
            say_nearest(alloc, out, word, &[b"null"])
        }
        Want::Line => say_target(alloc, out, word, labels),
        _ => say_invalid(out, want, word),
    }
}

// Writes the error after all arguments are parsed: a number out of range, or an extra word.
fn say_rest<'a>(
    out: &mut Saying,
    name: &'a [u8],
    wants: [Want; 3],
    rest: &'a [u8],
    count: u32,
    last: &'a [u8],
) -> Result<(), AllocError> {
    if let Some(more) = after_one_space(rest) {
        let (word, _) = split_word(more);
        let before = Plain(b": unexpected argument ");
        say_all(out, &[Plain(name), before, Marked(word)])?;
        return say_usage(out, name, wants);
    }
    if name == b"peek".as_slice() {
        say(out, b"peek: ")?;
        return say_invalid(out, Want::Place, last);
    }
    let what = Plain(b": the program has lines 1 to ");
    let count = Number(count.min(LINES as u32));
    say_all(
        out,
        &[
            Plain(name),
            Plain(b": invalid line "),
            Marked(last),
            what,
            count,
        ],
    )
}

// Writes the error in the arguments of an instruction.
fn say_arguments(
    alloc: Global,
    out: &mut Saying,
    name: &[u8],
    wants: [Want; 3],
    arguments: &[u8],
    count: u32,
    labels: &[Label],
) -> Result<(), AllocError> {
    let mut rest = arguments;
    let mut last = arguments;
    for want in &wants {
        if *want == Want::Nothing {
            continue;
        }
        let Some(bytes) = after_one_space(rest) else {
            if !rest.is_empty() {
                return say_after_text(out, rest);
            }
            return say_missing(out, name, wants);
        };
        let Some(following) = after_argument(*want, bytes) else {
            return say_argument(alloc, out, name, *want, bytes, labels);
        };
        last = bytes;
        rest = following;
    }
    if !rest.is_empty() && after_one_space(rest).is_none() {
        return say_after_text(out, rest);
    }
    let (word, _) = split_word(last);
    say_rest(out, name, wants, rest, count, word)
}

// Writes the error of an instruction. `count` is the number of instructions of the program, and `before` the number of
// previous ones.
fn say_instruction(
    alloc: Global,
    out: &mut Saying,
    count: u32,
    before: u32,
    labels: &[Label],
    text: &[u8],
) -> Result<(), AllocError> {
    if before == LINES as u32 {
        return say(out, b"a program has at most 256 lines");
    }
    let (word, arguments) = split_word(text);
    match wants_of(word) {
        Some(wants) => say_arguments(alloc, out, word, wants, arguments, count, labels),
        None => say_no_name(alloc, out, word, arguments),
    }
}

/// Returns the message for an instruction. `count` is the number of instructions of the program, and `before` the
/// number of previous ones.
///
/// # Errors
///
/// Returns `AllocError` if memory cannot be allocated.
pub fn instruction(
    alloc: Global,
    count: u32,
    before: u32,
    labels: &[Label],
    text: &[u8],
) -> Result<Saying, AllocError> {
    let mut out = Saying::new(alloc);
    say_instruction(alloc, &mut out, count, before, labels, text)?;
    Ok(out)
}

// Returns whether a line uses a feature of sources that is not allowed in lines that are copied unchanged: a label, a
// jump to a label, a comment, a carriage return, or extra blanks.
fn is_written_freely(alloc: Global, line: &[u8]) -> Result<bool, AllocError> {
    let mut words = Vec::new(alloc);
    push_words(content(line), &mut words)?;
    if words.as_slice() != line {
        return Ok(true);
    }
    let Some((first, _)) = next_word(line) else {
        return Ok(false);
    };
    Ok(label_of(first).is_some() || is_jump(first) && begins_with_letter(last_word(line)))
}

/// Returns the message for a line that is copied unchanged and must be an instruction. `count` is the number of lines
/// of the program, and `before` the number of previous ones.
///
/// # Errors
///
/// Returns `AllocError` if memory cannot be allocated.
pub fn taken_instruction(
    alloc: Global,
    count: u32,
    before: u32,
    line: &[u8],
) -> Result<Saying, AllocError> {
    let mut out = Saying::new(alloc);
    say_instruction(alloc, &mut out, count, before, &[], line)?;
    if is_written_freely(alloc, line)? {
        say(
            &mut out,
            b" (labels, comments and extra blanks are allowed only between <<END and END)",
        )?;
    }
    Ok(out)
}
