//! The inputs of a question, as bytes.
ghost use Rattle.std.specs.Prelude.{◌≡◌, ◌≤◌, vec_len};
ghost use Rattle.pv_model.specs.declared.limits.TheConstants.{SOURCE_BYTES};
ghost use Rattle.pv_questions.specs.Formats.{is_headed, is_nothing, is_source, is_word_end};

use pv_text::lines::split_line;

/// The format of an input that has a tree.
#[derive(Clone, Copy, Debug, PartialEq, Eq)]
pub enum Format {
    /// An image.
    Image,
    /// A manifest or a bundle.
    Text,
}

/// An input that has a tree.
#[derive(Drop)]
pub struct Input {
    /// The format.
    pub format: Format,
    /// The bytes.
    pub bytes: Vec<u8>,
    ghost within: { vec_len bytes ≤ SOURCE_BYTES },
}

/// The schedule of a run.
#[derive(Drop)]
pub enum Turns {
    /// The lines after the line `schedule` of a bundle.
    Own,
    /// The text of a schedule.
    Text(Vec<u8>),
    /// The fair schedule: the processes in turn, a step each, until no process can go on.
    Fair,
}

/// The inputs of a question. A question about a tree ignores the schedule.
#[derive(Drop)]
pub struct Inputs {
    /// The input that has a tree.
    pub input: Input,
    /// The schedule.
    pub turns: Turns,
    /// The number of steps after which the schedule is cut. Without a number, the whole schedule is run.
    pub steps: Option<u32>,
}

// Returns whether a line without its first blanks is empty or a comment.
fn is_nothing(line: &[u8]) -> bool
    ensures { result ≡ is_nothing line.now }
{
    matches!(line, [] | [b'#', ..])
}

// Returns whether a word ends before this rest of its line.
fn is_word_end(rest: &[u8]) -> bool
    ensures { result ≡ is_word_end rest.now }
{
    matches!(rest, [] | [b' ' | b'\t' | b'\r', ..])
}

// Returns whether the first word of a line without its first blanks is `image`.
fn is_headed(line: &[u8]) -> bool
    ensures { result ≡ is_headed line.now }
{
    match line.strip_prefix(b"image") {
        Some(rest) => is_word_end(rest),
        None => false,
    }
}

/// Returns whether bytes are a source, and not an image: their first line that is neither blank nor a comment begins
/// with the word `image`. A bundle and a manifest are sources.
pub fn is_source(bytes: &[u8]) -> bool
    ensures { result ≡ is_source bytes.now }
{
    let mut rest = bytes;
    while let Some((line, following)) = split_line(rest) {
        let line = line.trim_ascii_start();
        if !is_nothing(line) {
            return is_headed(line);
        }
        rest = following;
    }
    false
}
