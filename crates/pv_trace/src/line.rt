//! Lines as values, and writing a line to a sink.
ghost use Rattle.std.specs.Prelude.{◌≡◌, ◌++◌, ◌+◌, ◌≤◌, length};
ghost use Rattle.pv_model.specs.Machine.{line};
ghost use Rattle.pv_model.specs.Trace.{line_bytes};
ghost use Rattle.pv_trace.specs.declared.line_buffer.TheConstants.{LINE_BYTES, LINE_BUFFER};
ghost use Rattle.pv_streams.specs.Sinks.{Writes};
ghost use Rattle.pv_trace.specs.Words.{trace_word_of, HasFewBytes};

use crate::line_buffer::LineBuffer;
use crate::words::{
    put_call_line, put_error_line, put_gone_line, put_killed_line, put_moved_line, put_path_line,
    put_promise_line, put_unveil_line, put_value_line, put_wait_line,
};
use pv_model::{CallRef, Errno, Perms, Promise, Text};
use pv_streams::{Failed, Sink, write_whole};
use std::marker::Model;

/// The decision about a promise, pledge(2).
#[derive(Clone, Copy, Debug, PartialEq, Eq)]
pub enum PromiseVerdict {
    /// The process is killed because it lacks the promise.
    Killed,
    /// The call fails because the process lacks the promise.
    Refused,
    /// The request would add the promise to a set that lacks it.
    Increase,
}

/// The decision of an unveil table, unveil(2).
#[derive(Clone, Copy, Debug, PartialEq, Eq)]
pub enum UnveilVerdict {
    /// No entry governs the place. These permissions are required.
    NoEntry(Perms),
    /// The entry with this number lacks one of these required permissions.
    EntryLacks(u8, Perms),
    /// The table is locked.
    Locked,
}

/// The direction of a transfer of bytes.
#[derive(Clone, Copy, Debug, PartialEq, Eq)]
pub enum Direction {
    /// From the call to its process.
    Gave,
    /// From the process to its call.
    Took,
}

/// The result of a call.
#[derive(Clone, Copy, Debug, PartialEq, Eq)]
pub enum Returned {
    /// A value.
    Value(u32),
    /// -1, with this error.
    Error(Errno),
}

/// The word of a line, with its arguments.
#[derive(Clone, Copy)]
pub enum Word<'a> {
    /// CALL: a call with its arguments.
    Call(CallRef<'a>),
    /// NAMI: a path that a call walks.
    Nami(&'a Text),
    /// PLDG: a promise that decided a call.
    Pldg(CallRef<'a>, Promise, PromiseVerdict),
    /// UNVL: an unveil table that decided a call.
    Unvl(UnveilVerdict),
    /// GIO: at most 4,096 bytes that a call transferred.
    Gio(Direction, &'a [u8]),
    /// RET: the result of a call.
    Ret(CallRef<'a>, Returned),
    /// PSIG: the process was killed.
    Psig,
    /// WAIT: the call blocks.
    Wait,
    /// GONE: the process is not live.
    Gone,
}

/// A line of a trace: the number of a process, and a word with its arguments. Contracts see a line of the
/// specification.
///
/// The bytes of a GIO line are at most 4,096, the size of a process's buffer.
#[derive(Drop)]
pub struct Line<'a> {
    /// The number of the process.
    pub pid: u32,
    /// The word, with its arguments.
    pub word: Word<'a>,
}

impl<'a> Model for Line<'a> {
    ghost use Rattle.pv_model.specs.Trace.{Line as TraceLine};
    ghost use Rattle.pv_trace.specs.Words.{trace_word_of, HasFewBytes};

    ghost Value = { TraceLine };

    ghost view = { λ l. record { pid = l.pid; word = trace_word_of l.word } };

    ghost invariant = { λ l. HasFewBytes l.word };
}

// Appends a line to the line buffer.
fn put_line(out: &mut LineBuffer, pid: u32, word: &Word)
    requires few { HasFewBytes word.now }
    requires room { length out.old.items + LINE_BYTES ≤ LINE_BUFFER }
    ensures text { out.new.items ≡ out.old.items ++ line_bytes (line pid (trace_word_of word.now)) }
    ensures growth { length out.new.items ≤ length out.old.items + LINE_BYTES }
{
    match word {
        Word::Call(call) => put_call_line(out, pid, *call),
        Word::Nami(path) => put_path_line(out, pid, path),
        Word::Pldg(call, promise, verdict) => {
            put_promise_line(out, pid, *call, *promise, *verdict)
        }
        Word::Unvl(verdict) => put_unveil_line(out, pid, *verdict),
        Word::Gio(direction, bytes) => put_moved_line(out, pid, *direction, bytes),
        Word::Ret(call, Returned::Value(value)) => put_value_line(out, pid, *call, *value),
        Word::Ret(call, Returned::Error(errno)) => put_error_line(out, pid, *call, *errno),
        Word::Psig => put_killed_line(out, pid),
        Word::Wait => put_wait_line(out, pid),
        Word::Gone => put_gone_line(out, pid),
    }
}

/// Writes a line. It is formatted in the line buffer, whose old contents are lost. No memory is allocated.
///
/// # Errors
///
/// Returns `Failed` if a write fails. The sink then has received a prefix of the line.
pub fn write_line_on<W: Sink>(
    out: &mut W,
    line_buffer: &mut LineBuffer,
    line: &Line,
) -> Result<(), Failed>
    ensures { Writes W.Sink (line_bytes line.now) out.old out.new result }
{
    line_buffer.clear();
    put_line(line_buffer, line.pid, &line.word);
    write_whole(out, line_buffer.as_slice())
}

/// Writes a line. No memory is allocated.
///
/// # Errors
///
/// Returns `Failed` if a write fails. The sink then has received a prefix of the line.
pub fn write_line<W: Sink>(out: &mut W, line: &Line) -> Result<(), Failed>
    ensures { Writes W.Sink (line_bytes line.now) out.old out.new result }
{
    write_line_on(out, &mut LineBuffer::new(), line)
}
