//! Lists of numbers and of bytes.
ghost use Rattle.std.specs.Prelude.{◌≡◌, ◌++◌, codes, map};
ghost use Rattle.std.specs.Fmt.{signed_decimal};
ghost use Rattle.pv_model.specs.Machine.{spaced};
ghost use Rattle.pv_model.specs.Answers.ProcessRecord.{buffer_front, front_text};
ghost use Rattle.pv_model.specs.Trace.{hex};
ghost use Rattle.pv_streams.specs.Sinks.{Writes};

use itoa::Buffer;
use pv_model::hex_digit;
use pv_streams::{Count, Failed, Fragment, Plain, Sink, write_whole};

// Writes a signed number in decimal digits.
fn write_signed<W: Sink>(out: &mut W, number: &i32) -> Result<(), Failed>
    ensures { Writes W.Sink (signed_decimal number.now) out.old out.new result }
{
    let mut buffer = Buffer::new();
    write_whole(out, buffer.format(*number).as_bytes())
}

// Writes a space and a number.
fn write_following<W: Sink>(out: &mut W, number: &i32) -> Result<(), Failed>
    ensures { Writes W.Sink (codes " " ++ signed_decimal number.now) out.old out.new result }
{
    write_whole(out, b" ")?;
    write_signed(out, number)
}

/// Numbers separated by spaces.
#[derive(Clone, Copy)]
pub(crate) struct Spaced<'a>(pub(crate) &'a [i32]);

impl<'a> Fragment for Spaced<'a> {
    ghost text = { λ p. spaced (map signed_decimal p.0.now) };

    fn write<W: Sink>(&self, out: &mut W) -> Result<(), Failed> {
        let Some((first, following)) = self.0.split_first() else {
            return Ok(());
        };
        write_signed(out, first)?;
        for number in following {
            write_following(out, number)?;
        }
        Ok(())
    }
}

// Bytes as two hexadecimal digits each.
#[derive(Clone, Copy)]
struct Hex<'a>(&'a [u8]);

impl<'a> Fragment for Hex<'a> {
    ghost text = { λ p. hex p.0.now };

    fn write<W: Sink>(&self, out: &mut W) -> Result<(), Failed> {
        for byte in self.0 {
            write_whole(out, &[hex_digit(*byte / 16), hex_digit(*byte % 16)])?;
        }
        Ok(())
    }
}

/// The bytes of a buffer up to the last nonzero byte: their number, then two hexadecimal digits for each.
#[derive(Clone, Copy)]
pub(crate) struct BufferFront<'a>(pub(crate) &'a [u8]);

impl<'a> Fragment for BufferFront<'a> {
    ghost text = { λ p. front_text (buffer_front p.0.now) };

    fn write<W: Sink>(&self, out: &mut W) -> Result<(), Failed> {
        let front = front_of(self.0);
        if front.is_empty() {
            return write_whole(out, b"0");
        }
        (Count(front.len() as u64), Plain(b" "), Hex(front)).write(out)
    }
}

// Returns the bytes up to the last nonzero byte.
fn front_of(bytes: &[u8]) -> &[u8]
    ensures { result.now ≡ buffer_front bytes.now }
{
    let mut front = bytes;
    while let Some((last, before)) = front.split_last() {
        if *last != 0 {
            return front;
        }
        front = before;
    }
    front
}
