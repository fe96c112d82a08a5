//! Lines, their fronts, and the words of their texts.
ghost use Rattle.std.specs.Prelude.{◌≡◌, ◌++◌, ◌<◌, ◌≤◌, [], ◌∷◌, flat_map, length, replicate, decimal};
ghost use Rattle.pv_answers.specs.Texts.{keyword_after, keywords_in, line_front};
ghost use Rattle.pv_model.specs.Machine.{permissions_in_places, spaced, all_promises, mode_text, quote, quote_byte};
ghost use Rattle.pv_model.specs.Answers.Lines.{promises_text, pledged_text};
ghost use Rattle.pv_model.specs.Trace.{pad_left};
ghost use Rattle.pv_calls_state.specs.OfPromises.Pledge.{bits_of};
ghost use Rattle.pv_streams.specs.Sinks.{Writes};

use crate::short::ShortLine;
use itoa::Buffer;
use pv_calls_state::promises::{ALL, has};
use pv_model::{Mode, Perms, Promise, Promises};
use pv_streams::{Failed, Fragment, Plain, Sink, write_whole};

// Returns `count` spaces.
fn spaces(count: usize) -> &'static [u8]
    requires { count ≤ 5 }
    ensures { result.now ≡ replicate count 32 }
{
    &b"     "[..count]
}

// A number, right-aligned in five places.
#[derive(Clone, Copy)]
struct Places(u32);

impl Fragment for Places {
    ghost text = { λ p. pad_left 5 (decimal p.0) };

    fn write<W: Sink>(&self, out: &mut W) -> Result<(), Failed> {
        let mut buffer = Buffer::new();
        let digits = buffer.format(self.0).as_bytes();
        (
            Plain(spaces(5usize.saturating_sub(digits.len()))),
            Plain(digits),
        )
            .write(out)
    }
}

/// Writes the front of a line: a process number, right-aligned in five places, a space, a word of at most four bytes,
/// padded to four, and two spaces.
///
/// # Errors
///
/// `Failed`, if a write failed. The sink received a prefix of the front.
pub fn write_front<W: Sink>(out: &mut W, pid: u32, word: &[u8]) -> Result<(), Failed>
    requires { length word.now ≤ 4 }
    ensures { Writes W.Sink (line_front pid word.now) out.old out.new result }
{
    let padded = (Plain(word), Plain(spaces(4 - word.len())));
    (Places(pid), Plain(b" "), padded, Plain(b"  ")).write(out)
}

// The front of a line.
#[derive(Clone, Copy)]
struct LineFront {
    pid: u32,
    word: [u8; 4],
}

// Returns the front of a line for a process number of one digit.
#[inline]
#[tactic(auto, using(std::proofs::lemmas::Fmt::decimal_digit))]
fn front_of(pid: u32, word: [u8; 4]) -> [u8; 12]
    requires { pid < 10 }
    ensures { result ≡ line_front pid word }
{
    let [first, second, third, fourth] = word;
    let digit = b'0' + pid as u8;
    [
        b' ', b' ', b' ', b' ', digit, b' ', first, second, third, fourth, b' ', b' ',
    ]
}

impl Fragment for LineFront {
    ghost text = { λ p. line_front p.pid p.word };

    fn write<W: Sink>(&self, out: &mut W) -> Result<(), Failed> {
        if self.pid < 10 {
            write_whole(out, &front_of(self.pid, self.word))
        } else {
            write_front(out, self.pid, &self.word)
        }
    }
}

/// A line: a process number, a word and a text.
#[derive(Clone, Copy)]
pub struct Line<P> {
    /// The number of the process.
    pub pid: u32,
    /// The word, padded to four bytes with spaces.
    pub word: [u8; 4],
    /// The text.
    pub text: P,
}

// Writes a line, fragment by fragment.
fn write_fragments<P: Fragment, W: Sink>(out: &mut W, line: &Line<P>) -> Result<(), Failed>
    ensures { Writes W.Sink (line_front line.now.pid line.now.word ++ P.text line.now.text ++ 10 ∷ []) out.old out.new result }
{
    let front = LineFront {
        pid: line.pid,
        word: line.word,
    };
    (front, &line.text, Plain(b"\n")).write(out)
}

impl<P: Fragment> Fragment for Line<P> {
    ghost text = { λ l. line_front l.pid l.word ++ P.text l.text ++ 10 ∷ [] };

    // A short line is buffered and then written at once.
    fn write<W: Sink>(&self, out: &mut W) -> Result<(), Failed> {
        let mut short = ShortLine::new();
        match write_fragments(&mut short, self) {
            Ok(()) => write_whole(out, short.as_slice()),
            Err(Failed) => write_fragments(out, self),
        }
    }
}

/// Writes permissions in four places, in the order rwxc. Each place has the letter of a permission, or a dash if it is
/// missing.
///
/// # Errors
///
/// `Failed`, if a write failed. The sink received a prefix of the places.
pub fn write_permissions<W: Sink>(out: &mut W, permissions: Perms) -> Result<(), Failed>
    ensures { Writes W.Sink (permissions_in_places permissions) out.old out.new result }
{
    let places = [
        if permissions.r { b'r' } else { b'-' },
        if permissions.w { b'w' } else { b'-' },
        if permissions.x { b'x' } else { b'-' },
        if permissions.c { b'c' } else { b'-' },
    ];
    write_whole(out, &places)
}

/// Writes the mode of an open file: `r`, `w` or `rw`.
///
/// # Errors
///
/// `Failed`, if a write failed. The sink received a prefix of the mode.
pub fn write_mode<W: Sink>(out: &mut W, mode: Mode) -> Result<(), Failed>
    ensures { Writes W.Sink (mode_text mode) out.old out.new result }
{
    let letters: &[u8] = match mode {
        Mode::Read => b"r",
        Mode::Write => b"w",
        Mode::ReadWrite => b"rw",
    };
    write_whole(out, letters)
}

// Writes a keyword, with a space in front if it is not the first.
fn write_keyword<W: Sink>(out: &mut W, is_first: bool, promise: Promise) -> Result<(), Failed>
    ensures { Writes W.Sink (keyword_after is_first promise) out.old out.new result }
{
    let keyword = Plain(promise.name().as_bytes());
    if is_first {
        keyword.write(out)
    } else {
        (Plain(b" "), keyword).write(out)
    }
}

// Writes the keywords of a set, separated by spaces.
fn write_keywords<W: Sink>(out: &mut W, promises: Promises) -> Result<(), Failed>
    ensures { Writes W.Sink (spaced (keywords_in promises.0 all_promises)) out.old out.new result }
{
    let mut is_first = true;
    for promise in ALL {
        if has(promises, promise) {
            write_keyword(out, is_first, promise)?;
            is_first = false;
        }
    }
    Ok(())
}

// The keywords of a set, separated by spaces. No byte of them needs an escape.
#[derive(Clone, Copy)]
struct Keywords(Promises);

impl Fragment for Keywords {
    ghost text = { λ p. flat_map quote_byte (spaced (keywords_in p.0.0 all_promises)) };

    fn write<W: Sink>(&self, out: &mut W) -> Result<(), Failed> {
        write_keywords(out, self.0)
    }
}

/// Writes a set of promises as a keyword list: the keywords in their order, separated by spaces, in one pair of
/// quotation marks.
///
/// # Errors
///
/// `Failed`, if a write failed. The sink received a prefix of the list.
pub fn write_promises<W: Sink>(out: &mut W, promises: Promises) -> Result<(), Failed>
    ensures { Writes W.Sink (promises_text promises.0) out.old out.new result }
{
    (Plain(b"\""), Keywords(promises), Plain(b"\"")).write(out)
}

/// Writes promises or execpromises as a keyword list, or `none` if they are not set.
///
/// # Errors
///
/// `Failed`, if a write failed. The sink received a prefix of the list.
pub fn write_pledged<W: Sink>(out: &mut W, pledged: Option<Promises>) -> Result<(), Failed>
    ensures { Writes W.Sink (pledged_text (bits_of pledged)) out.old out.new result }
{
    match pledged {
        Some(promises) => write_promises(out, promises),
        None => write_whole(out, b"none"),
    }
}

/// Permissions in four places, as `write_permissions` writes them.
#[derive(Clone, Copy)]
pub struct Letters(pub Perms);

impl Fragment for Letters {
    ghost text = { λ p. permissions_in_places p.0 };

    fn write<W: Sink>(&self, out: &mut W) -> Result<(), Failed> {
        write_permissions(out, self.0)
    }
}

/// The mode of an open file, as `write_mode` writes it.
#[derive(Clone, Copy)]
pub struct ModeLetters(pub Mode);

impl Fragment for ModeLetters {
    ghost text = { λ p. mode_text p.0 };

    fn write<W: Sink>(&self, out: &mut W) -> Result<(), Failed> {
        write_mode(out, self.0)
    }
}

/// Promises as a keyword list, or `none`.
#[derive(Clone, Copy)]
pub struct Pledged(pub Option<Promises>);

impl Fragment for Pledged {
    ghost text = { λ p. pledged_text (bits_of p.0) };

    fn write<W: Sink>(&self, out: &mut W) -> Result<(), Failed> {
        write_pledged(out, self.0)
    }
}
