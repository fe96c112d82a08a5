//! Messages for the lines of manifests and schedules.
use super::nearest::nearest;
use super::saying::Part::{Marked, Number, Plain};
use super::saying::{Saying, say, say_all, say_word};
use super::texts::{say_after_text, say_link, say_no_text, say_path};
use super::words::wants_of;
use crate::blocks::{Block, Kind};
use crate::so_far::LineCheck;
use crate::words::{mark_of, next_word};
use pv_model::ManifestFault;
use pv_model::limits::{BLOCKS_V1, INODES, LAST_PROCESS, PROGRAM_LINES, SCHEDULE_LINES};
use pv_text::texts::text;
use pv_text::words::decimal;
use std::alloc::{AllocError, Global};

// The first words of the lines of manifests.
const WORDS: [&[u8]; 7] = [
    b"dir",
    b"bytes",
    b"exec",
    b"link",
    b"name",
    b"image",
    b"schedule",
];

// Returns the form of a line with this first word.
fn usage(word: &[u8]) -> &'static [u8] {
    if word == b"dir".as_slice() {
        return b"dir \"PATH\"";
    }
    if word == b"bytes".as_slice() {
        return b"bytes \"PATH\" \"BYTES\"";
    }
    if word == b"link".as_slice() {
        return b"link \"PATH\" \"TEXT\"";
    }
    if word == b"name".as_slice() {
        return b"name \"NEW\" \"PATH\"";
    }
    if word == b"image".as_slice() {
        return b"image BLOCKS INODES";
    }
    b"exec \"PATH\" <<END, or exec \"PATH\" K followed by K lines"
}

// Writes the missing part of a line with this first word.
fn say_missing<'a>(out: &mut Saying, name: &'a [u8], what: &'a [u8]) -> Result<(), AllocError> {
    let (before, form) = (Plain(b": missing "), Plain(usage(name)));
    say_all(
        out,
        &[Plain(name), before, Plain(what), Plain(b"; usage: "), form],
    )
}

// Writes that a line with this first word has an extra word.
fn say_too_many<'a>(out: &mut Saying, name: &'a [u8], word: &'a [u8]) -> Result<(), AllocError> {
    let (before, form) = (Plain(b": unexpected argument "), Plain(usage(name)));
    say_all(
        out,
        &[Plain(name), before, Marked(word), Plain(b"; usage: "), form],
    )
}

/// Returns the message that no line of a source has a word.
///
/// # Errors
///
/// Returns `AllocError` if memory cannot be allocated.
pub fn no_image(alloc: Global) -> Result<Saying, AllocError> {
    let mut out = Saying::new(alloc);
    say(
        &mut out,
        b"missing first line: expected image BLOCKS INODES",
    )?;
    Ok(out)
}

// Writes the error of the first line.
fn say_image(out: &mut Saying, words: &[u8]) -> Result<(), AllocError> {
    let Some((first, mut rest)) = next_word(words) else {
        return Ok(());
    };
    if first != b"image".as_slice() {
        let before = b"expected image BLOCKS INODES in the first line, found ";
        return say_word(out, before, first, b"");
    }
    for _ in 0..2 {
        let Some((word, following)) = next_word(rest) else {
            return say_missing(out, first, b"number");
        };
        if decimal(word).is_none() {
            let after = b": expected digits without a sign or leading zeros";
            return say_word(out, b"image: invalid number ", word, after);
        }
        rest = following;
    }
    if let Some((word, _)) = next_word(rest) {
        return say_too_many(out, first, word);
    }
    say(out, b"expected image BLOCKS INODES")
}

// Writes which sizes an image can have.
fn say_sizes(out: &mut Saying) -> Result<(), AllocError> {
    say_all(
        out,
        &[
            Plain(b"image sizes out of range: expected 1 to "),
            Number(INODES as u32),
            Plain(b" INODES and at most "),
            Number(BLOCKS_V1 as u32),
            Plain(b" BLOCKS, with at least 1 + INODES / 16 (rounded up) BLOCKS"),
        ],
    )
}

// Writes the error of a word that must be a text, and returns whether there is one.
fn say_text(out: &mut Saying, word: &[u8], is_path: bool) -> Result<bool, AllocError> {
    let Some((value, rest)) = text(word) else {
        say_no_text(out, word)?;
        return Ok(true);
    };
    if !rest.is_empty() {
        say_after_text(out, rest)?;
        return Ok(true);
    }
    if is_path {
        return say_path(out, value.as_slice());
    }
    Ok(false)
}

// Writes the error of a line with `count` texts, where the first is a path.
fn say_texts(
    out: &mut Saying,
    name: &[u8],
    arguments: &[u8],
    count: u32,
) -> Result<(), AllocError> {
    let mut rest = arguments;
    for index in 0..count {
        let Some((word, following)) = next_word(rest) else {
            return say_missing(out, name, b"text");
        };
        let is_path = index == 0 || name == b"name".as_slice();
        if say_text(out, word, is_path)? {
            return Ok(());
        }
        rest = following;
    }
    if let Some((word, _)) = next_word(rest) {
        return say_too_many(out, name, word);
    }
    say_link(out)
}

// Writes that a word does not start a line of a manifest.
fn say_no_word(alloc: Global, out: &mut Saying, word: &[u8]) -> Result<(), AllocError> {
    if let [.., b':'] = word {
        let after = b" is outside a program; write it between exec \"PATH\" <<END and END";
        return say_word(out, b"label ", word, after);
    }
    if wants_of(word).is_some() {
        let after = b" is outside a program; write it between exec \"PATH\" <<END and END";
        return say_word(out, b"instruction ", word, after);
    }
    let what = b"unknown manifest line ";
    let Some(name) = nearest(alloc, word, &WORDS)? else {
        let after = b": expected dir, bytes, exec, link, name or schedule";
        return say_word(out, what, word, after);
    };
    say_word(out, what, word, b"; did you mean ")?;
    say_all(out, &[Marked(name), Plain(b"?")])
}

// Writes the error of a single line.
fn say_single(alloc: Global, out: &mut Saying, words: &[u8]) -> Result<(), AllocError> {
    let Some((word, rest)) = next_word(words) else {
        return Ok(());
    };
    if word == b"dir".as_slice() {
        return say_texts(out, word, rest, 1);
    }
    if word == b"bytes".as_slice() || word == b"link".as_slice() || word == b"name".as_slice() {
        return say_texts(out, word, rest, 2);
    }
    if word == b"image".as_slice() {
        return say(out, b"image is allowed only in the first line");
    }
    say_no_word(alloc, out, word)
}

// Returns whether a word specifies the lines of an `exec` line.
fn takes_lines(word: &[u8]) -> bool {
    mark_of(word).is_some() || decimal(word).is_some()
}

// Writes that a word does not specify the lines of an `exec` line.
fn say_no_end(out: &mut Saying, word: &[u8]) -> Result<(), AllocError> {
    if let [b'<', b'<', ..] = word {
        let after = b": expected << followed by letters, as in <<END";
        return say_word(out, b"exec: invalid end mark ", word, after);
    }
    let after = b" is neither <<END nor a number of lines; usage: ";
    say_word(out, b"exec: ", word, after)?;
    say(out, usage(b"exec"))
}

// Writes the error of the last word of an `exec` line, which specifies its lines.
fn say_lines(out: &mut Saying, is_cut_off: bool, word: &[u8]) -> Result<(), AllocError> {
    if let Some(mark) = mark_of(word) {
        let after = b" at the end of the program";
        return say_word(out, b"exec: missing line ", mark, after);
    }
    if is_cut_off {
        let after = Plain(b" lines follow");
        return say_all(out, &[Plain(b"exec: fewer than "), Plain(word), after]);
    }
    let (what, most) = (Plain(b" lines; at most "), Number(PROGRAM_LINES as u32));
    say_all(
        out,
        &[
            Plain(b"exec: "),
            Plain(word),
            what,
            most,
            Plain(b" are allowed"),
        ],
    )
}

// Writes the error of an `exec` line.
fn say_exec(out: &mut Saying, is_cut_off: bool, words: &[u8]) -> Result<(), AllocError> {
    let Some((_, rest)) = next_word(words) else {
        return Ok(());
    };
    let Some((path, rest)) = next_word(rest) else {
        return say_missing(out, b"exec", b"path");
    };
    if takes_lines(path) {
        return say_missing(out, b"exec", b"path");
    }
    if say_text(out, path, true)? {
        return Ok(());
    }
    let Some((word, rest)) = next_word(rest) else {
        return say_missing(out, b"exec", b"<<END or number of lines");
    };
    if !takes_lines(word) {
        return say_no_end(out, word);
    }
    let Some((more, _)) = next_word(rest) else {
        return say_lines(out, is_cut_off, word);
    };
    say_too_many(out, b"exec", more)
}

// Writes why the entry of a line cannot be created.
fn say_tree(out: &mut Saying, words: &[u8], fault: ManifestFault) -> Result<(), AllocError> {
    let Some((_, rest)) = next_word(words) else {
        return Ok(());
    };
    let Some((first, rest)) = next_word(rest) else {
        return Ok(());
    };
    match fault {
        ManifestFault::Parent(_) => say_parent(out, first),
        ManifestFault::Exists(_) => say_of_path(out, b"", first, b" is already created above"),
        ManifestFault::Source(_) => {
            let Some((source, _)) = next_word(rest) else {
                return Ok(());
            };
            let after =
                b" is not a file or symbolic link in this image; a line above must create it";
            say_of_path(out, b"", source, after)
        }
        _ => {
            let after = b"; use more BLOCKS or INODES in the first line, or a shorter file";
            say_of_path(out, b"no room in the image for ", first, after)
        }
    }
}

// Writes the path of a text between two phrases.
fn say_of_path(
    out: &mut Saying,
    before: &[u8],
    word: &[u8],
    after: &[u8],
) -> Result<(), AllocError> {
    let Some((path, _)) = text(word) else {
        return Ok(());
    };
    say_word(out, before, path.as_slice(), after)
}

// Writes that the parent of a path is not a directory.
fn say_parent(out: &mut Saying, word: &[u8]) -> Result<(), AllocError> {
    let Some((path, _)) = text(word) else {
        return Ok(());
    };
    let bytes = path.as_slice();
    let mut end = 0;
    for (at, byte) in bytes.iter().enumerate() {
        if *byte == b'/' {
            end = at;
        }
    }
    let after = b" is not a directory in this image; a dir line above must create it";
    say_word(out, b"", &bytes[..end.min(bytes.len())], after)
}

// Writes the error in the form of a block's first line.
fn say_form(
    alloc: Global,
    out: &mut Saying,
    block: &Block,
    is_first: bool,
) -> Result<(), AllocError> {
    if is_first {
        return say_image(out, block.words);
    }
    match block.kind {
        Kind::Single => say_single(alloc, out, block.words),
        Kind::Program | Kind::Taken => say_exec(out, false, block.words),
        Kind::CutOff => say_exec(out, true, block.words),
        Kind::Schedule => say(
            out,
            b"schedule: expected no other word on this line, and a turn, PID or PID COUNT, on each line below",
        ),
    }
}

/// Returns the message for the first line of a block.
///
/// # Errors
///
/// Returns `AllocError` if memory cannot be allocated.
pub fn line(
    alloc: Global,
    block: &Block,
    is_first: bool,
    found: LineCheck,
) -> Result<Saying, AllocError> {
    let mut out = Saying::new(alloc);
    match found {
        LineCheck::Right | LineCheck::RoomAgain => {}
        LineCheck::Form => say_form(alloc, &mut out, block, is_first)?,
        LineCheck::Size => say_sizes(&mut out)?,
        LineCheck::Init => say(
            &mut out,
            b"/init is not an executable file: expected exec \"/init\" <<END",
        )?,
        LineCheck::Tree(fault) => say_tree(&mut out, block.words, fault)?,
    }
    Ok(out)
}

// Returns whether a word is a valid number of a turn.
fn is_count(word: &[u8]) -> bool {
    match decimal(word) {
        Some(count) => count >= 1 && count <= LAST_PROCESS,
        None => false,
    }
}

// Writes that a word is not a valid number of a turn.
fn say_no_count(out: &mut Saying, word: &[u8]) -> Result<(), AllocError> {
    let what = Plain(b": expected PID or PID COUNT, each from 1 to ");
    let (before, most) = (Plain(b"turn: invalid number "), Number(LAST_PROCESS));
    say_all(out, &[before, Marked(word), what, most])
}

// Writes the error of a turn.
fn say_turn(out: &mut Saying, text: &[u8]) -> Result<(), AllocError> {
    let mut rest = text;
    for _ in 0..2 {
        let Some((word, following)) = next_word(rest) else {
            return Ok(());
        };
        if !is_count(word) {
            return say_no_count(out, word);
        }
        rest = following;
    }
    let Some((word, _)) = next_word(rest) else {
        return Ok(());
    };
    let after = b": expected PID or PID COUNT";
    say_word(out, b"turn: unexpected word ", word, after)
}

/// Returns the message for a line of a schedule. `before` is the number of previous turns.
///
/// # Errors
///
/// Returns `AllocError` if memory cannot be allocated.
pub fn turn(alloc: Global, before: u32, text: &[u8]) -> Result<Saying, AllocError> {
    let mut out = Saying::new(alloc);
    if before == SCHEDULE_LINES as u32 {
        say(&mut out, b"a schedule has at most 65536 lines")?;
        return Ok(out);
    }
    say_turn(&mut out, text)?;
    Ok(out)
}
