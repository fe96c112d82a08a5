//! The lines of a source.
ghost use Rattle.std.specs.Prelude.{◌≡◌, ◌+◌, ◌<◌, ◌≤◌, ◌^◌, length, None, MatchOption, IfSome, option_map};
ghost use Rattle.pv_model.specs.Machine.{lines_of};
ghost use Rattle.pv_model.specs.Source.Blocks.{lines_up_to};
ghost use Rattle.pv_source.specs.Reading.{first_that_counts, numbered_lines, worded, HasFirstWord, Ends, Takes, IsWithin, words_in};

use crate::words::{content, is_alone, next_word};
use pv_text::lines::split_line;

/// The lines that remain: their text, and the number of the first.
#[derive(Clone, Copy)]
pub struct Lines<'a> {
    /// The text of the lines.
    pub text: &'a [u8],
    /// The number of the first line, counted from 1 at the start of the source.
    pub number: u32,
}

/// A line that has a word: its number, and its bytes without a carriage return at the end.
#[derive(Clone, Copy)]
pub struct Line<'a> {
    /// Its number in the source, counted from 1.
    pub number: u32,
    /// Its first word.
    pub first: &'a [u8],
    /// The text of its words.
    pub words: &'a [u8],
}

/// Returns the first line that has a word, with the lines after it, or `None` if no line has one.
pub fn next_line<'a>(lines: Lines<'a>) -> Option<(Line<'a>, Lines<'a>)>
    requires { lines.number + length lines.text.now < 2 ^ 32 }
    ensures counts { first_that_counts (numbered_lines lines.entry) ≡ option_map (λ p. (worded p.0, numbered_lines p.1)) result }
    ensures first { IfSome result (λ p. HasFirstWord p.0.first.now (words_in p.0.words.now)) }
    ensures next { IfSome result (λ p. p.1.number ≡ p.0.number + 1) }
    ensures room { IfSome result (λ p. IsWithin p.1 lines.entry) }
    ensures shorter { IfSome result (λ p. length p.1.text.now < length lines.entry.text.now) }
{
    let mut rest = lines.text;
    let mut number = lines.number;
    while let Some((line, following)) = split_line(rest) {
        let words = content(line);
        if let Some((first, _)) = next_word(words) {
            let line = Line {
                number,
                first,
                words,
            };
            let rest = Lines {
                text: following,
                number: number + 1,
            };
            return Some((line, rest));
        }
        rest = following;
        number += 1;
    }
    None
}

/// Returns the text of the lines before the first that consists of `mark` alone, with the lines after that one. Returns
/// `None` if there is no such line.
pub fn lines_before_mark<'a>(mark: &[u8], lines: Lines<'a>) -> Option<(&'a [u8], Lines<'a>)>
    requires { lines.number + length lines.text.now < 2 ^ 32 }
    ensures found { MatchOption result (lines_up_to mark.now (numbered_lines lines.entry) ≡ None) (λ p. Ends mark.now lines.entry p.0.now p.1) }
    ensures within { IfSome result (λ p. length p.0.now ≤ length lines.entry.text.now) }
    ensures room { IfSome result (λ p. IsWithin p.1 lines.entry) }
    ensures shorter { IfSome result (λ p. length p.1.text.now < length lines.entry.text.now) }
{
    let mut rest = lines.text;
    let mut number = lines.number;
    while let Some((line, following)) = split_line(rest) {
        if is_alone(mark, content(line)) {
            let body = &lines.text[..lines.text.len() - rest.len()];
            let rest = Lines {
                text: following,
                number: number + 1,
            };
            return Some((body, rest));
        }
        rest = following;
        number += 1;
    }
    None
}

/// Returns the text of the next `count` lines, with the lines after them, or `None` if there are fewer.
pub fn next_lines<'a>(count: u32, lines: Lines<'a>) -> Option<(&'a [u8], Lines<'a>)>
    requires { lines.number + length lines.text.now < 2 ^ 32 }
    ensures found { MatchOption result (length (lines_of lines.entry.text.now) < count) (λ p. Takes count lines.entry p.0.now p.1) }
    ensures within { IfSome result (λ p. length p.0.now ≤ length lines.entry.text.now) }
    ensures room { IfSome result (λ p. IsWithin p.1 lines.entry) }
    ensures shorter { IfSome result (λ p. length p.1.text.now ≤ length lines.entry.text.now) }
{
    let mut rest = lines.text;
    let mut number = lines.number;
    for _ in 0..count {
        let Some((_, following)) = split_line(rest) else {
            return None;
        };
        rest = following;
        number += 1;
    }
    let body = &lines.text[..lines.text.len() - rest.len()];
    Some((body, Lines { text: rest, number }))
}

/// Returns the number of lines of a text.
pub fn line_count(text: &[u8]) -> u32
    requires { length text.now < 2 ^ 32 }
    ensures value { result ≡ length (lines_of text.now) }
    ensures few { result ≤ length text.now }
{
    let mut count = 0;
    let mut rest = text;
    while let Some((_, following)) = split_line(rest) {
        rest = following;
        count += 1;
    }
    count
}
