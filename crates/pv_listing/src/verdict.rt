//! The result line of an audit.
ghost use Rattle.std.specs.Prelude.{◌≡◌, ◌++◌, ◌+◌, ◌≤◌, length, codes, decimal};
ghost use Rattle.pv_model.specs.Sealed.{verdict_line, verdict_text, why_text};
ghost use Rattle.pv_trace.specs.declared.line_buffer.TheConstants.{LINE_BUFFER};
ghost use Rattle.pv_streams.specs.Sinks.{Writes};

use pv_model::{Leak, Verdict, Why};
use pv_streams::{Failed, Sink, write_whole};
use pv_trace::{LineBuffer, put, put_decimal};

// Appends the number of a table entry and its effect.
fn put_entry(out: &mut LineBuffer, number: u8, does: &[u8])
    requires { length out.old.items + 46 + length does.now ≤ LINE_BUFFER }
    ensures text { out.new.items ≡ out.old.items ++ (codes "entry " ++ decimal number ++ does.now) }
    ensures growth { length out.new.items ≤ length out.old.items + 46 + length does.now }
{
    put(out, b"entry ");
    put_decimal(out, u32::from(number));
    put(out, does);
}

// Appends a descriptor that reads the file.
fn put_descriptor(out: &mut LineBuffer, number: u8)
    requires { length out.old.items + 57 ≤ LINE_BUFFER }
    ensures text { out.new.items ≡ out.old.items ++ (codes "reads descriptor " ++ decimal number) }
    ensures growth { length out.new.items ≤ length out.old.items + 57 }
{
    put(out, b"reads descriptor ");
    put_decimal(out, u32::from(number));
}

// Appends the reason that a process is not closed to the file.
fn put_why(out: &mut LineBuffer, why: Why)
    requires { length out.old.items + 57 ≤ LINE_BUFFER }
    ensures text { out.new.items ≡ out.old.items ++ why_text why }
    ensures growth { length out.new.items ≤ length out.old.items + 57 }
{
    match why {
        Why::Reads(number) => put_descriptor(out, number),
        Why::NoTable => put(out, b"no table"),
        Why::NotLocked => put(out, b"not locked"),
        Why::Gives(number) => put_entry(out, number, b" gives"),
        Why::Above(number) => put_entry(out, number, b" above"),
        Why::Exec => put(out, b"may exec"),
    }
}

// Appends a process that is not closed to the file, with the reason.
fn put_leak(out: &mut LineBuffer, leak: Leak)
    requires { length out.old.items + 118 ≤ LINE_BUFFER }
    ensures text { out.new.items ≡ out.old.items ++ (codes "exposed: process " ++ decimal leak.pid ++ codes ", " ++ why_text leak.why) }
    ensures growth { length out.new.items ≤ length out.old.items + 118 }
{
    put(out, b"exposed: process ");
    put_decimal(out, leak.pid);
    put(out, b", ");
    put_why(out, leak.why);
}

// Appends the text of a verdict.
#[tactic(auto, unfolding(pv_model::specs::Sealed::verdict_text))]
fn put_found(out: &mut LineBuffer, verdict: &Verdict)
    requires { length out.old.items + 118 ≤ LINE_BUFFER }
    ensures text { out.new.items ≡ out.old.items ++ verdict_text verdict.now }
    ensures growth { length out.new.items ≤ length out.old.items + 118 }
{
    match verdict {
        Verdict::Sealed => put(out, b"sealed"),
        Verdict::Frozen => put(out, b"sealed and frozen"),
        Verdict::Exposed(leak) => put_leak(out, *leak),
    }
}

// Appends the line of a verdict with its line feed.
#[tactic(auto, unfolding(pv_model::specs::Sealed::verdict_line))]
pub(crate) fn put_line(out: &mut LineBuffer, verdict: &Verdict)
    requires { length out.old.items + 119 ≤ LINE_BUFFER }
    ensures text { out.new.items ≡ out.old.items ++ verdict_line verdict.now }
    ensures growth { length out.new.items ≤ length out.old.items + 119 }
{
    put_found(out, verdict);
    put(out, b"\n");
}

/// Writes the result line of an audit: `sealed`, `sealed and frozen`, or a process that is not closed to the file, with
/// the reason. No memory is allocated.
///
/// # Errors
///
/// Returns `Failed` if a write fails. The sink then has received a prefix of the line.
pub fn write_verdict<W: Sink>(out: &mut W, verdict: &Verdict) -> Result<(), Failed>
    ensures { Writes W.Sink (verdict_line verdict.now) out.old out.new result }
{
    let mut line_buffer = LineBuffer::new();
    put_line(&mut line_buffer, verdict);
    write_whole(out, line_buffer.as_slice())
}
