//! The blocks of a source: each is a line with the lines after it that belong to it.
ghost use Rattle.std.specs.Prelude.{◌≡◌, ◌+◌, ◌<◌, ◌^◌, [], length, None, Some, IfSome};
ghost use Rattle.pv_model.specs.Machine.{blocks_from};
ghost use Rattle.pv_model.specs.Source.Blocks.{exec_by, exec_block};
ghost use Rattle.pv_source.specs.Reading.{numbered_lines, words_in};
ghost use Rattle.pv_source.specs.ReadBlocks.{blocks_read, ReadsBlock, IsInside};

use crate::lines::{Line, Lines, lines_before_mark, next_line, next_lines};
use crate::words::{last_word, mark_of};
use pv_text::words::decimal;

/// The kind of a block.
#[derive(Clone, Copy, PartialEq, Eq)]
pub enum Kind {
    /// A single line.
    Single,
    /// `exec TEXT <<END`, and the lines up to END.
    Program,
    /// `exec TEXT K`, and the next K lines.
    Taken,
    /// An `exec` line whose lines are missing. The lines after it are not read.
    CutOff,
    /// The line `schedule`, and all lines after it.
    Schedule,
}

/// A line with the lines that belong to it.
#[derive(Clone, Copy)]
pub struct Block<'a> {
    /// The kind.
    pub kind: Kind,
    /// The number of the first line.
    pub number: u32,
    /// The text of the words of the first line.
    pub words: &'a [u8],
    /// The text of the following lines that belong to the block. It is empty unless the kind is `Program`, `Taken` or
    /// `Schedule`.
    pub body: &'a [u8],
}

impl<'a> Block<'a> {
    /// Returns the lines that belong to the block.
    pub fn lines(&self) -> Lines<'a>
        requires { self.now.number < 2 ^ 31 }
        ensures number { result.number ≡ self.now.number + 1 }
        ensures text { result.text.now ≡ self.now.body.now }
    {
        Lines {
            text: self.body,
            number: self.number + 1,
        }
    }
}

// Returns the block of a program up to its end mark, with the lines after it.
fn program_block<'a>(
    line: Line<'a>,
    mark: &[u8],
    lines: Lines<'a>,
) -> Option<(Block<'a>, Lines<'a>)>
    requires next { lines.number ≡ line.number + 1 }
    requires few { lines.number + length lines.text.now < 2 ^ 31 }
    ensures reads { ReadsBlock result (exec_by line.entry.number (words_in line.entry.words.now) (numbered_lines lines.entry) (Some mark.now) None) (numbered_lines lines.entry) }
    ensures inside { IsInside result lines.entry }
{
    let Some((body, rest)) = lines_before_mark(mark, lines) else {
        return None;
    };
    let block = Block {
        kind: Kind::Program,
        number: line.number,
        words: line.words,
        body,
    };
    Some((block, rest))
}

// Returns the block of an `exec` line with a line count, with the lines after it.
fn taken_block<'a>(line: Line<'a>, count: u32, lines: Lines<'a>) -> Option<(Block<'a>, Lines<'a>)>
    requires next { lines.number ≡ line.number + 1 }
    requires few { lines.number + length lines.text.now < 2 ^ 31 }
    ensures reads { ReadsBlock result (exec_by line.entry.number (words_in line.entry.words.now) (numbered_lines lines.entry) None (Some count)) (numbered_lines lines.entry) }
    ensures inside { IsInside result lines.entry }
{
    let Some((body, rest)) = next_lines(count, lines) else {
        return None;
    };
    let block = Block {
        kind: Kind::Taken,
        number: line.number,
        words: line.words,
        body,
    };
    Some((block, rest))
}

// Returns the block of an `exec` line, with the lines after it, or `None` if its lines are missing.
fn exec_block<'a>(line: Line<'a>, lines: Lines<'a>) -> Option<(Block<'a>, Lines<'a>)>
    requires next { lines.number ≡ line.number + 1 }
    requires few { lines.number + length lines.text.now < 2 ^ 31 }
    ensures reads { ReadsBlock result (exec_block line.entry.number (words_in line.entry.words.now) (numbered_lines lines.entry)) (numbered_lines lines.entry) }
    ensures inside { IsInside result lines.entry }
{
    let last = last_word(line.words);
    if let Some(mark) = mark_of(last) {
        return program_block(line, mark, lines);
    }
    let Some(count) = decimal(last) else {
        return None;
    };
    taken_block(line, count, lines)
}

// Returns the empty sequence of lines at the end of a text.
fn no_lines<'a>(lines: Lines<'a>) -> Lines<'a>
    ensures none { numbered_lines result ≡ [] }
    ensures number { result.number ≡ lines.entry.number }
    ensures text { result.text.now ≡ [] }
{
    Lines {
        text: &lines.text[..0],
        number: lines.number,
    }
}

/// Returns the first block, with the lines after it, or `None` if no line has a word.
pub fn next_block<'a>(lines: Lines<'a>) -> Option<(Block<'a>, Lines<'a>)>
    requires { lines.number + length lines.text.now < 2 ^ 31 }
    ensures block { blocks_from (numbered_lines lines.entry) 0 ≡ blocks_read result }
    ensures inside { IsInside result lines.entry }
    ensures shorter { IfSome result (λ p. length p.1.text.now < length lines.entry.text.now) }
{
    let Some((line, rest)) = next_line(lines) else {
        return None;
    };
    if line.first == b"schedule".as_slice() {
        let block = Block {
            kind: Kind::Schedule,
            number: line.number,
            words: line.words,
            body: rest.text,
        };
        return Some((block, no_lines(rest)));
    }
    if line.first != b"exec".as_slice() {
        let block = Block {
            kind: Kind::Single,
            number: line.number,
            words: line.words,
            body: b"",
        };
        return Some((block, rest));
    }
    if let Some(read) = exec_block(line, rest) {
        return Some(read);
    }
    let block = Block {
        kind: Kind::CutOff,
        number: line.number,
        words: line.words,
        body: b"",
    };
    Some((block, no_lines(rest)))
}
