//! Bytes in the escaped form that texts have between their quotation marks.
ghost use Rattle.std.specs.Prelude.{◌≡◌, ◌+◌, ◌*◌, ◌++◌, ◌≤◌, codes, length, flat_map};
ghost use Rattle.pv_streams.specs.declared.escaped.TheConstants.{PART, PART_ESCAPED};
ghost use Rattle.pv_model.specs.Machine.{hex_byte, quote, quote_byte};
ghost use Rattle.pv_streams.specs.Sinks.{Writes};

use crate::fixed_buffer::FixedBuffer;
use crate::fragments::{Fragment, Plain};
use crate::plain::plain_count;
use crate::writing::write_whole;
use pv_model::{Failed, Sink, hex_digit, is_plain};

/// The number of bytes that are written at once.
const PART: usize = 64;

/// The maximum length of these bytes in escaped form.
const PART_ESCAPED: usize = 4 * PART;

/// Returns the escape of a byte: a backslash, an x and two hexadecimal digits.
#[inline]
pub fn escape(byte: u8) -> [u8; 4]
    ensures { result ≡ codes "\\x" ++ hex_byte byte }
{
    [b'\\', b'x', hex_digit(byte / 16), hex_digit(byte % 16)]
}

// Appends a byte in its shortest escaped form.
#[inline]
fn put_byte(out: &mut FixedBuffer<PART_ESCAPED>, byte: u8)
    requires { length out.old.items + 4 ≤ PART_ESCAPED }
    ensures text { out.new.items ≡ out.old.items ++ quote_byte byte }
    ensures growth { length out.new.items ≤ length out.old.items + 4 }
{
    if is_plain(byte) {
        out.extend(&[byte]);
    } else {
        out.extend(&escape(byte));
    }
}

// Appends bytes in their shortest escaped form.
fn put_bytes(out: &mut FixedBuffer<PART_ESCAPED>, bytes: &[u8])
    requires { length out.old.items + 4 * length bytes.now ≤ PART_ESCAPED }
    ensures { out.new.items ≡ out.old.items ++ flat_map quote_byte bytes.now }
{
    let mut rest = bytes;
    while let Some((first, following)) = rest.split_first() {
        put_byte(out, *first);
        rest = following;
    }
}

// Writes a few bytes in their shortest escaped form, with one write.
fn write_part<W: Sink>(out: &mut W, part: &[u8]) -> Result<(), Failed>
    requires { length part.now ≤ PART }
    ensures { Writes W.Sink (flat_map quote_byte part.now) out.old out.new result }
{
    let mut escaped = FixedBuffer::new();
    put_bytes(&mut escaped, part);
    write_whole(out, escaped.as_slice())
}

// Writes bytes of any length in their shortest escaped form, without quotation marks. A run of bytes that need no escape
// is written at once. Does not allocate.
#[tactic(auto, using(crate::proofs::TextRemainders::rest_all, crate::proofs::TextRemainders::written_text))]
fn write_escaped<W: Sink>(out: &mut W, bytes: &[u8]) -> Result<(), Failed>
    ensures { Writes W.Sink (flat_map quote_byte bytes.now) out.old out.new result }
{
    let mut rest = bytes;
    while !rest.is_empty() {
        let plain = plain_count(rest);
        if plain > 0 {
            let (part, following) = rest.split_at(plain);
            write_whole(out, part)?;
            rest = following;
        } else {
            let (part, following) = rest.split_at(rest.len().min(PART));
            write_part(out, part)?;
            rest = following;
        }
    }
    Ok(())
}

/// Bytes of any length in their shortest escaped form, without quotation marks.
#[derive(Clone, Copy)]
pub struct Escaped<'a>(pub &'a [u8]);

impl<'a> Fragment for Escaped<'a> {
    ghost text = { λ p. flat_map quote_byte p.0.now };

    fn write<W: Sink>(&self, out: &mut W) -> Result<(), Failed> {
        write_escaped(out, self.0)
    }
}

/// Writes bytes of any length as a quoted text in its shortest form.
///
/// # Errors
///
/// `Failed`, if a write failed. The sink received a prefix of the text.
pub fn write_quoted<W: Sink>(out: &mut W, bytes: &[u8]) -> Result<(), Failed>
    ensures { Writes W.Sink (quote bytes.now) out.old out.new result }
{
    (Plain(b"\""), Escaped(bytes), Plain(b"\"")).write(out)
}

/// Bytes of any length as a quoted text in its shortest form.
#[derive(Clone, Copy)]
pub struct Quoted<'a>(pub &'a [u8]);

impl<'a> Fragment for Quoted<'a> {
    ghost text = { λ p. quote p.0.now };

    fn write<W: Sink>(&self, out: &mut W) -> Result<(), Failed> {
        write_quoted(out, self.0)
    }
}
