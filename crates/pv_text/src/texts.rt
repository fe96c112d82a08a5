//! Parsing texts in quotation marks.
ghost use Rattle.std.specs.Prelude.{◌≡◌, ◌<◌, length, not, position, None, MatchOption, IfSome};
ghost use Rattle.pv_model.specs.Machine.{text_at, is_plain as parses_as_itself};
ghost use Rattle.pv_model.specs.Grammar.Arguments.{text_or_null_at, hex_value, text_rest, if_short, onto_text, outside, after_backslash};
ghost use Rattle.pv_text.specs.Reading.{IsFront, Reads, text_end};

use crate::lines::split_word;
use pv_model::limits::TEXT;
use pv_model::{Text, is_plain};

// Returns the value of a lowercase hexadecimal digit.
fn hex_digit(byte: u8) -> Option<u8>
    ensures value { result ≡ hex_value byte }
    ensures below { IfSome result (λ n. n < 16) }
{
    match byte {
        b'0'..=b'9' => Some(byte - b'0'),
        b'a'..=b'f' => Some(byte - b'a' + 10),
        _ => None,
    }
}

// Parses an escape after its backslash, and returns its byte with the bytes after it.
fn escape(bytes: &[u8]) -> Option<(u8, &[u8])>
    ensures read { MatchOption result (text_rest bytes.now after_backslash ≡ None) (λ p. text_rest bytes.now after_backslash ≡ onto_text p.0 (text_rest p.1.now outside)) }
    ensures shorter { IfSome result (λ p. length p.1.now < length bytes.now) }
{
    let [first, high, low, rest @ ..] = bytes else {
        return None;
    };
    if *first != b'x' {
        return None;
    }
    let byte = 16 * hex_digit(*high)? + hex_digit(*low)?;
    if byte == 0 {
        return None;
    }
    Some((byte, rest))
}

// Returns the index of the first byte that does not represent itself.
fn plain_end(bytes: &[u8]) -> Option<usize>
    ensures { result ≡ position (λ byte. not (parses_as_itself byte)) bytes.now }
{
    bytes.iter().position(|byte| !is_plain(*byte))
}

// Splits off the leading bytes that represent themselves.
fn split_plain(bytes: &[u8]) -> (&[u8], &[u8])
    ensures { IsFront result.0.now result.1.now bytes.now }
{
    bytes.split_at(plain_end(bytes).unwrap_or(bytes.len()))
}

// Parses a character of a text, and returns it with the bytes after it. Returns `None` at the end of the text and if
// the bytes are not a character.
fn character(bytes: &[u8]) -> Option<(u8, &[u8])>
    ensures read { MatchOption result (text_rest bytes.now outside ≡ text_end bytes.now) (λ p. text_rest bytes.now outside ≡ onto_text p.0 (text_rest p.1.now outside)) }
    ensures shorter { IfSome result (λ p. length p.1.now < length bytes.now) }
{
    match bytes {
        [] => None,
        [first, rest @ ..] => match *first {
            b'"' => None,
            b'\\' => escape(rest),
            b' '..=b'~' => Some((*first, rest)),
            _ => None,
        },
    }
}

// Parses the rest of a text after its opening quotation mark, up to the closing one. Bytes that represent themselves
// are copied in runs.
fn text_after(bytes: &[u8]) -> Option<(Text, &[u8])>
    ensures { Reads result (if_short (text_rest bytes.now outside)) }
{
    let (plain, mut rest) = split_plain(bytes);
    let mut text = Text::new(plain)?;
    while let Some((byte, following)) = character(rest) {
        if text.len() == TEXT {
            return None;
        }
        text.push(byte);
        rest = following;
    }
    match rest {
        [b'"', following @ ..] => Some((text, following)),
        _ => None,
    }
}

/// Parses the text in quotation marks, of at most 1,100 bytes, at the start of `bytes`.
#[tactic(auto, unfolding(pv_model::specs::Grammar::Arguments::text_at))]
pub fn text(bytes: &[u8]) -> Option<(Text, &[u8])>
    ensures { Reads result (text_at bytes.now) }
{
    match bytes {
        [b'"', rest @ ..] => text_after(rest),
        _ => None,
    }
}

/// Parses a text, or the word `null`.
pub fn text_or_null(bytes: &[u8]) -> Option<(Option<Text>, &[u8])>
    ensures { Reads result (text_or_null_at bytes.now) }
{
    if let [b'"', ..] = bytes {
        let (text, rest) = text(bytes)?;
        return Some((Some(text), rest));
    }
    let (word, rest) = split_word(bytes);
    if word == b"null".as_slice() {
        Some((None, rest))
    } else {
        None
    }
}
