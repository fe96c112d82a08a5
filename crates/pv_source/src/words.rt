//! The words of a line of a source.
ghost use Rattle.std.specs.Prelude.{◌≡◌, ◌≢◌, ◌==◌, ◌<◌, ◌≤◌, ◌∷◌, [], true, false, length, take, drop, MatchOption, MatchBool, IfSome, option_map};
ghost use Rattle.std.specs.List.{list_all, list_any, position, position_or_len};
ghost use Rattle.pv_model.specs.Machine.{spaced, between, words_from, words_of, last_word};
ghost use Rattle.pv_model.specs.Source.Blocks.{mark_of};
ghost use Rattle.pv_model.specs.Source.Words.{is_blank, is_letter, in_text, begun, before_last, with_last_word, is_alone};
ghost use Rattle.pv_source.specs.Reading.{DoesNotBeginWithBlank, spaced_more, words_in};
ghost use Rattle.pv_source.specs.Appending.{AppendsText};

use pv_text::lines::first_of;
use std::alloc::AllocError;

// Returns whether a byte is a space or a tab.
fn is_blank(byte: u8) -> bool
    ensures { result ≡ is_blank byte }
{
    byte == b' ' || byte == b'\t'
}

/// Returns whether a byte is a letter of either case.
pub fn is_letter(byte: u8) -> bool
    ensures { result ≡ is_letter byte }
{
    matches!(byte, b'A'..=b'Z' | b'a'..=b'z')
}

/// Returns the bytes before a last byte that is `last`, or `None` if they do not end with it.
#[tactic(auto, using(crate::proofs::SourceWords::last_here, crate::proofs::SourceWords::last_other, crate::proofs::SourceWords::no_last))]
pub fn before_last(last: u8, bytes: &[u8]) -> Option<&[u8]>
    ensures { option_map (λ front. front.now) result ≡ before_last last bytes.now }
{
    let Some((byte, front)) = bytes.split_last() else {
        return None;
    };
    if *byte == last { Some(front) } else { None }
}

/// Returns a line without a carriage return at its end. Its words are those of the result.
#[tactic(auto, unfolding(pv_model::specs::Source::Words::words_of))]
pub fn content(line: &[u8]) -> &[u8]
    ensures { words_in result.now ≡ words_of line.now }
{
    before_last(b'\r', line).unwrap_or(line)
}

// Returns the index of the first blank, if there is one.
fn blank_at(bytes: &[u8]) -> Option<usize>
    ensures { result ≡ position is_blank bytes.now }
{
    bytes.iter().position(|byte| is_blank(*byte))
}

// Returns the index of the first blank, or the number of bytes if there is none.
fn first_blank(bytes: &[u8]) -> usize
    ensures within { result ≤ length bytes.now }
    ensures first { result ≡ position_or_len is_blank bytes.now }
{
    blank_at(bytes).unwrap_or(bytes.len())
}

// Returns the bytes from the first that is not a blank.
fn after_blanks(bytes: &[u8]) -> &[u8]
    ensures same { words_in result.now ≡ words_in bytes.now }
    ensures begins { DoesNotBeginWithBlank result.now }
    ensures shorter { length result.now ≤ length bytes.now }
{
    let mut rest = bytes;
    while let [first, following @ ..] = rest {
        if !is_blank(*first) {
            return rest;
        }
        rest = following;
    }
    rest
}

// Returns the length of a text after its opening quotation mark, including any bytes directly after the closing one.
// Returns `None` if there is no closing quotation mark.
#[tactic(auto, using(crate::proofs::SourceWords::no_quote, crate::proofs::SourceWords::a_quote))]
fn text_length(bytes: &[u8]) -> Option<usize>
    ensures some { MatchOption result (list_any (λ c. c == 34) bytes.now ≡ false) (λ n. list_any (λ c. c == 34) bytes.now ≡ true) }
    ensures within { IfSome result (λ n. n ≤ length bytes.now) }
    ensures word { IfSome result (λ n. words_from bytes.now in_text ≡ take n bytes.now ∷ words_from (drop n bytes.now) between) }
{
    let quote = first_of(bytes, b'"');
    if quote == bytes.len() {
        return None;
    }
    let (_, after) = bytes.split_at(quote + 1);
    Some(quote + 1 + first_blank(after))
}

// Returns the length of a word after its first byte. A text extends to its closing quotation mark, if there is one.
fn rest_length(first: u8, bytes: &[u8]) -> usize
    ensures within { result ≤ length bytes.now }
    ensures word { words_from bytes.now (begun first bytes.now) ≡ take result bytes.now ∷ words_from (drop result bytes.now) between }
{
    if first != b'"' {
        return first_blank(bytes);
    }
    match text_length(bytes) {
        Some(length) => length,
        None => first_blank(bytes),
    }
}

/// Returns the first word, with the bytes after it, or `None` if there are only blanks and a comment.
pub fn next_word(words: &[u8]) -> Option<(&[u8], &[u8])>
    ensures word { MatchOption result (words_in words.now ≡ []) (λ p. words_in words.now ≡ p.0.now ∷ words_in p.1.now) }
    ensures shorter { IfSome result (λ p. length p.1.now < length words.now) }
{
    let bytes = after_blanks(words);
    let Some((first, following)) = bytes.split_first() else {
        return None;
    };
    if *first == b'#' {
        return None;
    }
    Some(bytes.split_at(1 + rest_length(*first, following)))
}

/// Returns whether there is no word.
pub fn has_no_word(words: &[u8]) -> bool
    ensures { MatchBool result (words_in words.now ≡ []) (words_in words.now ≢ []) }
{
    next_word(words).is_none()
}

/// Returns the last word, or an empty slice if there is none.
pub fn last_word(words: &[u8]) -> &[u8]
    ensures { result.now ≡ last_word (words_in words.now) }
{
    let Some((first, following)) = next_word(words) else {
        return &words[..0];
    };
    let mut last = first;
    let mut rest = following;
    while let Some((word, following)) = next_word(rest) {
        last = word;
        rest = following;
    }
    last
}

/// Returns whether `word` is the only word.
pub fn is_alone(word: &[u8], words: &[u8]) -> bool
    ensures { result ≡ is_alone word.now (words_in words.now) }
{
    let Some((first, rest)) = next_word(words) else {
        return false;
    };
    has_no_word(rest) && first == word
}

// Appends further words, with a space before each.
fn push_more(words: &[u8], out: &mut Vec<u8>) -> Result<(), AllocError>
    ensures { AppendsText (spaced_more (words_in words.now)) out.old out.new result }
{
    let mut rest = words;
    while let Some((word, following)) = next_word(rest) {
        out.push(b' ')?;
        out.extend_from_slice(word)?;
        rest = following;
    }
    Ok(())
}

/// Appends words to `out`, separated by single spaces.
///
/// # Errors
///
/// Returns `AllocError` if memory cannot be allocated.
pub fn push_words(words: &[u8], out: &mut Vec<u8>) -> Result<(), AllocError>
    ensures { AppendsText (spaced (words_in words.now)) out.old out.new result }
{
    let Some((first, rest)) = next_word(words) else {
        return Ok(());
    };
    out.extend_from_slice(first)?;
    push_more(rest, out)
}

/// Appends further words to `out`, with a space before each, and `last` instead of the last word.
///
/// # Errors
///
/// Returns `AllocError` if memory cannot be allocated.
pub fn push_more_with_last(words: &[u8], last: &[u8], out: &mut Vec<u8>) -> Result<(), AllocError>
    ensures { AppendsText (spaced_more (with_last_word last.now (words_in words.now))) out.old out.new result }
{
    let mut rest = words;
    while let Some((word, following)) = next_word(rest) {
        out.push(b' ')?;
        if has_no_word(following) {
            return out.extend_from_slice(last);
        }
        out.extend_from_slice(word)?;
        rest = following;
    }
    Ok(())
}

/// Appends words to `out`, separated by single spaces, and `last` instead of the last word.
///
/// # Errors
///
/// Returns `AllocError` if memory cannot be allocated.
pub fn push_with_last(words: &[u8], last: &[u8], out: &mut Vec<u8>) -> Result<(), AllocError>
    ensures { AppendsText (spaced (with_last_word last.now (words_in words.now))) out.old out.new result }
{
    let Some((first, rest)) = next_word(words) else {
        return Ok(());
    };
    if has_no_word(rest) {
        return out.extend_from_slice(last);
    }
    out.extend_from_slice(first)?;
    push_more_with_last(rest, last, out)
}

// Returns whether each byte is a letter.
fn are_letters(bytes: &[u8]) -> bool
    ensures { result ≡ list_all is_letter bytes.now }
{
    bytes.iter().all(|byte| is_letter(*byte))
}

/// Returns the end mark of a word `<<END`: one or more letters.
pub fn mark_of(word: &[u8]) -> Option<&[u8]>
    ensures { option_map (λ mark. mark.now) result ≡ mark_of word.now }
{
    let mark = word.strip_prefix(b"<<")?;
    if mark.is_empty() || !are_letters(mark) {
        return None;
    }
    Some(mark)
}
