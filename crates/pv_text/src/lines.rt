//! Lines of a text, and words of a line.
ghost use Rattle.std.specs.Prelude.{◌≡◌, ◌+◌, ◌<◌, ◌≤◌, ◌==◌, ◌∷◌, [], min, length, MatchOption, IfSome, Option, option_map};
ghost use Rattle.std.specs.List.{position, position_or_len};
ghost use Rattle.pv_model.specs.Machine.{lines_of};
ghost use Rattle.pv_model.specs.Grammar.Lines.{word_of, after_word, after_space};
ghost use Rattle.pv_text.specs.Lines.{IsSplit};

use memchr::memchr;

// Returns the index of the first occurrence of a byte.
fn position_of(bytes: &[u8], byte: u8) -> Option<usize>
    ensures { result ≡ position (λ b. b == byte) bytes.now }
{
    memchr(byte, bytes)
}

/// Returns the index of the first occurrence of a byte, or the number of bytes if it does not occur.
pub fn first_of(bytes: &[u8], byte: u8) -> usize
    ensures within { result ≤ length bytes.now }
    ensures first { result ≡ position_or_len (λ b. b == byte) bytes.now }
{
    position_of(bytes, byte).unwrap_or(bytes.len())
}

/// Returns the first line of a text, without its line feed, and the text after it. Returns `None` if the text is empty.
///
/// A line feed ends each line. At the end of the text it may be missing.
pub fn split_line(text: &[u8]) -> Option<(&[u8], &[u8])>
    ensures lines { MatchOption result (lines_of text.now ≡ []) (λ p. lines_of text.now ≡ p.0.now ∷ lines_of p.1.now) }
    ensures bytes { IfSome result (λ p. IsSplit text.now p.0.now p.1.now) }
    ensures shorter { IfSome result (λ p. length p.1.now < length text.now) }
{
    if text.is_empty() {
        return None;
    }
    let (line, rest) = text.split_at(first_of(text, b'\n'));
    match rest {
        [_, following @ ..] => Some((line, following)),
        [] => Some((line, rest)),
    }
}

/// Returns the first word of a line and the rest, which starts at the first space.
pub fn split_word(line: &[u8]) -> (&[u8], &[u8])
    ensures word { result.0.now ≡ word_of line.now }
    ensures following { result.1.now ≡ after_word line.now }
{
    line.split_at(first_of(line, b' '))
}

/// Returns the bytes after a leading space, or `None` if the first byte is not a space.
pub fn after_one_space(bytes: &[u8]) -> Option<&[u8]>
    ensures { option_map (λ r. r.now) result ≡ after_space bytes.now }
{
    match bytes {
        [b' ', rest @ ..] => Some(rest),
        _ => None,
    }
}

/// Returns the number of lines of a text, or `limit` if there are more.
pub fn count_lines(text: &[u8], limit: u16) -> u16
    ensures { result ≡ min (length (lines_of text.now)) limit }
{
    let mut rest = text;
    for count in 0..limit {
        let Some((_, following)) = split_line(rest) else {
            return count;
        };
        rest = following;
    }
    limit
}
