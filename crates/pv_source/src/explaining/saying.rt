//! Formatting bytes in messages.
ghost use Rattle.std.specs.Prelude.{◌≡◌, ◌++◌, [], ◌∷◌, true, codes, flat_map, OnOk};
ghost use Rattle.std.specs.Fmt.{decimal};
ghost use Rattle.pv_model.specs.Machine.{hex_byte};
ghost use Rattle.pv_source.specs.Saying.{is_printable, IsPrintable, said_byte, printable_text, said_excerpt, said_marked, said_part};

use itoa::Buffer;
use pv_model::hex_digit;
use std::alloc::{AllocError, Global};
use std::marker::Model;

// The maximum length of an excerpt of the source.
const EXCERPT: usize = 60;
// The length of the shown prefix of a longer text, without the mark of the cut.
const SHOWN: usize = 57;

/// A part of a message.
#[derive(Clone, Copy)]
pub enum Part<'a> {
    /// Bytes. Those outside 20 to 7E are written as numbers.
    Plain(&'a [u8]),
    /// Bytes in quotation marks: the first 57 and `...` if there are more than 60.
    Marked(&'a [u8]),
    /// A number.
    Number(u32),
    /// A byte as a number of two hexadecimal digits.
    Hex(u8),
}

/// A message: bytes from 20 to 7E, which form one line.
#[derive(Drop)]
pub struct Saying {
    bytes: Vec<u8>,
}

impl Model for Saying {
    ghost use Rattle.std.specs.Prelude.{ℕ, List};
    ghost use Rattle.pv_source.specs.Saying.{IsPrintable};

    ghost Value = { List ℕ };

    ghost view = { λ s. s.bytes.items };

    ghost invariant = { λ s. IsPrintable s.bytes.items };
}

impl Saying {
    /// Creates an empty message.
    pub fn new(alloc: Global) -> Saying
        ensures { result ≡ [] }
    {
        Saying {
            bytes: Vec::new(alloc),
        }
    }

    /// Returns the bytes of the message.
    pub fn bytes(&self) -> &[u8]
        ensures value { result.now ≡ self.now }
        ensures line { IsPrintable self.now }
    {
        self.bytes.as_slice()
    }

    // Appends a byte from 20 to 7E.
    #[tactic(auto, using(crate::proofs::MessageBytes::printable_more))]
    fn push(&mut self, byte: u8) -> Result<(), AllocError>
        requires { is_printable byte ≡ true }
        ensures { OnOk result (self.new ≡ self.old ++ byte ∷ []) }
    {
        self.bytes.push(byte)?;
        Ok(())
    }
}

// Appends a byte as a number.
#[tactic(auto, using(crate::proofs::MessageBytes::digit_printable))]
fn say_hex(out: &mut Saying, byte: u8) -> Result<(), AllocError>
    ensures { OnOk result (out.new ≡ out.old ++ hex_byte byte) }
{
    out.push(hex_digit(byte / 16))?;
    out.push(hex_digit(byte % 16))
}

// Appends a byte, as a number if it is not from 20 to 7E.
fn say_byte(out: &mut Saying, byte: u8) -> Result<(), AllocError>
    ensures { OnOk result (out.new ≡ out.old ++ said_byte byte) }
{
    if matches!(byte, b' '..=b'~') {
        return out.push(byte);
    }
    out.push(b'\\')?;
    out.push(b'x')?;
    say_hex(out, byte)
}

/// Appends bytes to the message. Those outside 20 to 7E are written as numbers.
///
/// # Errors
///
/// Returns `AllocError` if memory cannot be allocated.
pub fn say(out: &mut Saying, bytes: &[u8]) -> Result<(), AllocError>
    ensures { OnOk result (out.new ≡ out.old ++ printable_text bytes.now) }
{
    for byte in bytes {
        say_byte(out, *byte)?;
    }
    Ok(())
}

// Appends bytes of the source, or the first of them.
fn say_excerpt(out: &mut Saying, bytes: &[u8]) -> Result<(), AllocError>
    ensures { OnOk result (out.new ≡ out.old ++ said_excerpt bytes.now) }
{
    if bytes.len() <= EXCERPT {
        return say(out, bytes);
    }
    say(out, &bytes[..SHOWN])?;
    say(out, b"...")
}

// Appends bytes of the source, or the first of them, in quotation marks.
fn say_marked(out: &mut Saying, bytes: &[u8]) -> Result<(), AllocError>
    ensures { OnOk result (out.new ≡ out.old ++ said_marked bytes.now) }
{
    out.push(b'\'')?;
    say_excerpt(out, bytes)?;
    out.push(b'\'')
}

/// Appends `before`, a word in quotation marks, of which at most 60 bytes are shown, and `after` to the message.
///
/// # Errors
///
/// Returns `AllocError` if memory cannot be allocated.
pub fn say_word(
    out: &mut Saying,
    before: &[u8],
    word: &[u8],
    after: &[u8],
) -> Result<(), AllocError>
    ensures { OnOk result (out.new ≡ out.old ++ printable_text before.now ++ said_marked word.now ++ printable_text after.now) }
{
    say(out, before)?;
    say_marked(out, word)?;
    say(out, after)
}

// Appends a number in decimal.
fn say_number(out: &mut Saying, n: u32) -> Result<(), AllocError>
    ensures { OnOk result (out.new ≡ out.old ++ printable_text (decimal n)) }
{
    let mut buffer = Buffer::new();
    say(out, buffer.format(n).as_bytes())
}

// Appends a part.
fn say_part(out: &mut Saying, part: Part) -> Result<(), AllocError>
    ensures { OnOk result (out.new ≡ out.old ++ said_part part.entry) }
{
    match part {
        Part::Plain(bytes) => say(out, bytes),
        Part::Marked(bytes) => say_marked(out, bytes),
        Part::Number(n) => say_number(out, n),
        Part::Hex(byte) => say_hex(out, byte),
    }
}

/// Appends parts in order to the message.
///
/// # Errors
///
/// Returns `AllocError` if memory cannot be allocated.
pub fn say_all(out: &mut Saying, parts: &[Part]) -> Result<(), AllocError>
    ensures { OnOk result (out.new ≡ out.old ++ flat_map said_part parts.now) }
{
    for part in parts {
        say_part(out, *part)?;
    }
    Ok(())
}
