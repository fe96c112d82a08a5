//! Numbers in decimal digits.
ghost use Rattle.std.specs.Prelude.{◌≡◌, decimal};
ghost use Rattle.pv_streams.specs.Sinks.{Writes};

use crate::fragments::Fragment;
use crate::writing::write_whole;
use itoa::Buffer;
use pv_model::{Failed, Sink};

/// Writes a number in decimal digits.
///
/// # Errors
///
/// `Failed`, if a write failed. The sink received a prefix of the digits.
pub fn write_decimal<W: Sink>(out: &mut W, number: u32) -> Result<(), Failed>
    ensures { Writes W.Sink (decimal number) out.old out.new result }
{
    let mut buffer = Buffer::new();
    write_whole(out, buffer.format(number).as_bytes())
}

/// A number in decimal digits.
#[derive(Clone, Copy)]
pub struct Decimal(pub u32);

impl Fragment for Decimal {
    ghost text = { λ p. decimal p.0 };

    fn write<W: Sink>(&self, out: &mut W) -> Result<(), Failed> {
        write_decimal(out, self.0)
    }
}

/// A count in decimal digits.
#[derive(Clone, Copy)]
pub struct Count(pub u64);

impl Fragment for Count {
    ghost text = { λ p. decimal p.0 };

    fn write<W: Sink>(&self, out: &mut W) -> Result<(), Failed> {
        let mut buffer = Buffer::new();
        write_whole(out, buffer.format(self.0).as_bytes())
    }
}
