//! Messages of any length, written through a buffer of fixed size.
ghost use Rattle.std.specs.Prelude.{◌≤◌};
ghost use Rattle.pv_cli_line.specs.Messages.{WritesMessage, WritesText};

use crate::fault::Fault;
use pv_streams::{Failed, Sink, write_whole};
use std::fmt;
use std::fmt::Write;

// The capacity of a part, in bytes.
const PART: usize = 256;

// The maximum number of parts. A text in memory is shorter.
const PARTS: usize = usize::MAX / PART;

// A part of a text: the bytes after those that are skipped, until the part is full.
#[derive(Drop)]
struct Part {
    // The number of bytes that are still to be skipped.
    skipped: usize,
    bytes: [u8; PART],
    len: usize,
    ghost within: { len ≤ 256 },
}

impl Part {
    // Returns the part of the message of an error after the first `skipped` bytes.
    fn of(fault: &Fault, skipped: usize) -> Part {
        let mut part = Part {
            skipped,
            bytes: [0; PART],
            len: 0,
        };
        let _shown = part.write(fault);
        part
    }

    // Returns the bytes of the part.
    fn bytes(&self) -> &[u8] {
        &self.bytes[..self.len]
    }
}

impl Write for Part {
    fn write_str(&mut self, text: &str) -> fmt::Result {
        let skipped = self.skipped.min(text.len());
        let rest = &text.as_bytes()[skipped..];
        let count = rest.len().min(PART - self.len);
        self.bytes[self.len..self.len + count].copy_from_slice(&rest[..count]);
        self.skipped -= skipped;
        self.len += count;
        Ok(())
    }
}

// Writes the message of an error part by part, and returns whether it ends in a newline.
#[tactic(auto, using(crate::proofs::MessageParts::text_grown))]
fn write_parts<W: Sink>(fault: &Fault, sink: &mut W) -> Result<bool, Failed>
    ensures { WritesText W.Sink sink.old sink.new result }
{
    let mut is_ended = false;
    for number in 0..PARTS {
        let part = Part::of(fault, number * PART);
        let bytes = part.bytes();
        let Some((last, _)) = bytes.split_last() else {
            return Ok(is_ended);
        };
        write_whole(sink, bytes)?;
        is_ended = *last == b'\n';
    }
    Ok(is_ended)
}

/// Writes the message of an error, and flushes it. A message ends in a newline: one is added if the text has none.
///
/// # Errors
///
/// `Failed`, if a write or the flush fails. The sink received a prefix of the message.
#[tactic(auto, using(crate::proofs::MessageParts::ended_flushed, crate::proofs::MessageParts::newline_flushed))]
pub(crate) fn write_message<W: Sink>(fault: &Fault, sink: &mut W) -> Result<(), Failed>
    ensures { WritesMessage W.Sink sink.old sink.new result }
{
    let is_ended = write_parts(fault, sink)?;
    if !is_ended {
        write_whole(sink, b"\n")?;
    }
    sink.flush()
}
