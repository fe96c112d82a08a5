//! The lines of a step.
ghost use Rattle.std.specs.Prelude.{◌≡◌, ◌++◌, ◌+◌, ◌*◌, ◌≤◌, [], ◌∷◌, length, take, map, IfOk};
ghost use Rattle.pv_model.specs.declared.limits.TheConstants.{BUFFER};
ghost use Rattle.pv_model.specs.Machine.{call_of, trace_bytes};
ghost use Rattle.pv_model.specs.Trace.{gone_lines};
ghost use Rattle.pv_trace.specs.Steps.{first_lines_of, path_line, path_lines_of, promise_lines_of, unveil_lines_of, moved_lines_of, end_lines_of, lines_by};
ghost use Rattle.pv_streams.specs.Sinks.{Writes};
ghost use Rattle.pv_trace.specs.declared.line_buffer.TheConstants.{LINE_BYTES, PATH_LINE_BYTES, SHORT_LINE_BYTES, LINE_BUFFER};

use crate::line::{Line, Word, write_line_on};
use crate::line_buffer::LineBuffer;
use crate::verdicts::{reported_bytes, reported_promise, reported_table_verdict};
use crate::words::{
    put_call_line, put_error_line, put_killed_line, put_moved_line, put_path_line,
    put_promise_line, put_unveil_line, put_value_line, put_wait_line,
};
use pv_model::{CallRef, Outcome, Text, Walks};
use pv_streams::{Failed, Sink, write_whole};

// Appends the NAMI lines of a call with one path, at most one. Like the other functions below that append a variable
// number of lines, it returns that number.
#[tactic(auto, using(crate::proofs::PathPrefixes::take_one))]
fn put_one_path(out: &mut LineBuffer, pid: u32, path: &Text, walks: u8) -> u8
    requires { length out.old.items + PATH_LINE_BYTES ≤ LINE_BUFFER }
    ensures text { out.new.items ≡ out.old.items ++ trace_bytes (map (path_line pid) (take walks (path.now ∷ []))) }
    ensures count { result ≡ length (map (path_line pid) (take walks (path.now ∷ []))) }
    ensures few { result ≤ 1 }
    ensures growth { length out.new.items ≤ length out.old.items + PATH_LINE_BYTES }
{
    if walks > 0 {
        put_path_line(out, pid, path);
        1
    } else {
        0
    }
}

// Appends the NAMI lines of a call with two paths.
#[tactic(auto, using(crate::proofs::PathPrefixes::take_two))]
fn put_two_paths(out: &mut LineBuffer, pid: u32, first: &Text, second: &Text, walks: u8) -> u8
    requires { length out.old.items + 2 * PATH_LINE_BYTES ≤ LINE_BUFFER }
    ensures text { out.new.items ≡ out.old.items ++ trace_bytes (map (path_line pid) (take walks (first.now ∷ second.now ∷ []))) }
    ensures count { result ≡ length (map (path_line pid) (take walks (first.now ∷ second.now ∷ []))) }
    ensures few { result ≤ 2 }
    ensures growth { length out.new.items ≤ length out.old.items + 2 * PATH_LINE_BYTES }
{
    if walks < 2 {
        put_one_path(out, pid, first, walks)
    } else {
        put_path_line(out, pid, first);
        put_path_line(out, pid, second);
        2
    }
}

// Appends the NAMI lines of the walks that a call started.
#[tactic(auto, unfolding(pv_model::specs::Trace::walked_paths))]
fn put_path_lines(out: &mut LineBuffer, pid: u32, call: CallRef<'_>, walks: u8) -> u8
    requires { length out.old.items + 2 * PATH_LINE_BYTES ≤ LINE_BUFFER }
    ensures text { out.new.items ≡ out.old.items ++ trace_bytes (path_lines_of pid (call_of call.entry) walks) }
    ensures count { result ≡ length (path_lines_of pid (call_of call.entry) walks) }
    ensures few { result ≤ 2 }
    ensures growth { length out.new.items ≤ length out.old.items + 2 * PATH_LINE_BYTES }
{
    match call.walks() {
        Walks::Zero => 0,
        Walks::One(walk) => put_one_path(out, pid, walk.path, walks),
        Walks::Two(first, second) => put_two_paths(out, pid, first.path, second.path, walks),
    }
}

// Appends the line of a promise that decided a call.
fn put_promise_lines(out: &mut LineBuffer, pid: u32, call: CallRef<'_>, outcome: Outcome) -> u8
    requires { length out.old.items + SHORT_LINE_BYTES ≤ LINE_BUFFER }
    ensures text { out.new.items ≡ out.old.items ++ trace_bytes (promise_lines_of pid (call_of call.entry) outcome) }
    ensures count { result ≡ length (promise_lines_of pid (call_of call.entry) outcome) }
    ensures few { result ≤ 1 }
    ensures growth { length out.new.items ≤ length out.old.items + SHORT_LINE_BYTES }
{
    match reported_promise(outcome) {
        Some((promise, verdict)) => {
            put_promise_line(out, pid, call, promise, verdict);
            1
        }
        None => 0,
    }
}

// Appends the line of an unveil table that decided a call.
fn put_unveil_lines(
    out: &mut LineBuffer,
    pid: u32,
    call: CallRef<'_>,
    walks: u8,
    outcome: Outcome,
) -> u8
    requires { length out.old.items + SHORT_LINE_BYTES ≤ LINE_BUFFER }
    ensures text { out.new.items ≡ out.old.items ++ trace_bytes (unveil_lines_of pid (call_of call.entry) walks outcome) }
    ensures count { result ≡ length (unveil_lines_of pid (call_of call.entry) walks outcome) }
    ensures few { result ≤ 1 }
    ensures growth { length out.new.items ≤ length out.old.items + SHORT_LINE_BYTES }
{
    match reported_table_verdict(call, walks, outcome) {
        Some(verdict) => {
            put_unveil_line(out, pid, verdict);
            1
        }
        None => 0,
    }
}

// Appends the line of the bytes that a call transferred.
fn put_moved_lines(
    out: &mut LineBuffer,
    pid: u32,
    front: &[u8],
    call: CallRef<'_>,
    outcome: Outcome,
) -> u8
    requires few { length front.now ≤ BUFFER }
    requires room { length out.old.items + LINE_BYTES ≤ LINE_BUFFER }
    ensures text { out.new.items ≡ out.old.items ++ trace_bytes (moved_lines_of pid front.now (call_of call.entry) outcome) }
    ensures count { result ≡ length (moved_lines_of pid front.now (call_of call.entry) outcome) }
    ensures few { result ≤ 1 }
    ensures growth { length out.new.items ≤ length out.old.items + LINE_BYTES }
{
    match reported_bytes(front, call, outcome) {
        Some((direction, bytes)) => {
            put_moved_line(out, pid, direction, bytes);
            1
        }
        None => 0,
    }
}

// Appends the last line of a call.
fn put_end_lines(out: &mut LineBuffer, pid: u32, call: CallRef<'_>, outcome: Outcome) -> u8
    requires { length out.old.items + SHORT_LINE_BYTES ≤ LINE_BUFFER }
    ensures text { out.new.items ≡ out.old.items ++ trace_bytes (end_lines_of pid (call_of call.entry) outcome) }
    ensures count { result ≡ length (end_lines_of pid (call_of call.entry) outcome) }
    ensures few { result ≤ 1 }
    ensures growth { length out.new.items ≤ length out.old.items + SHORT_LINE_BYTES }
{
    match outcome {
        Outcome::Value(value) => put_value_line(out, pid, call, value),
        Outcome::Text(taken) => put_value_line(out, pid, call, taken.value),
        Outcome::Failed(errno, _) => put_error_line(out, pid, call, errno),
        Outcome::Killed(_) => put_killed_line(out, pid),
        Outcome::Blocked => put_wait_line(out, pid),
        Outcome::Exited | Outcome::Gone => return 0,
    }
    1
}

// Replaces the contents of a line buffer by the lines of a call.
#[tactic(auto, unfolding(crate::specs::Steps::lines_by), using(crate::proofs::LineTexts::text_joined))]
fn put_lines(
    out: &mut LineBuffer,
    pid: u32,
    front: &[u8],
    call: CallRef<'_>,
    outcome: Outcome,
    walks: u8,
) -> u8
    requires { length front.now ≤ BUFFER }
    ensures text { out.new.items ≡ trace_bytes (lines_by pid front.now (call_of call.entry) outcome walks) }
    ensures count { result ≡ length (lines_by pid front.now (call_of call.entry) outcome walks) }
    ensures few { result ≤ 7 }
{
    out.clear();
    put_call_line(out, pid, call);
    let mut count = 1 + put_path_lines(out, pid, call, walks);
    count += put_promise_lines(out, pid, call, outcome);
    count += put_unveil_lines(out, pid, call, walks, outcome);
    count += put_moved_lines(out, pid, front, call, outcome);
    count + put_end_lines(out, pid, call, outcome)
}

/// Writes the lines of a call at once, and returns their number, at most seven. They are formatted in the line buffer.
///
/// `front` is the buffer of the process, at most 4,096 bytes; the bytes that the call transferred are at its start.
/// `walks` is the number of walks that the call started.
///
/// # Errors
///
/// Returns `Failed` if a write fails. The sink then has received a prefix of the lines.
pub fn write_call_lines<W: Sink>(
    out: &mut W,
    line_buffer: &mut LineBuffer,
    pid: u32,
    front: &[u8],
    call: CallRef<'_>,
    outcome: Outcome,
    walks: u8,
) -> Result<u8, Failed>
    requires { length front.now ≤ BUFFER }
    ensures written { Writes W.Sink (trace_bytes (lines_by pid front.now (call_of call.entry) outcome walks)) out.old out.new result }
    ensures count { IfOk result (λ n. n ≡ length (lines_by pid front.now (call_of call.entry) outcome walks)) }
    ensures few { IfOk result (λ n. n ≤ 7) }
{
    let count = put_lines(line_buffer, pid, front, call, outcome, walks);
    write_whole(out, line_buffer.as_slice())?;
    Ok(count)
}

/// Writes the first lines of a call at once: CALL, and a NAMI line for each walk that it started. They are formatted in
/// the line buffer.
///
/// # Errors
///
/// Returns `Failed` if a write fails. The sink then has received a prefix of the lines.
pub fn write_first_lines<W: Sink>(
    out: &mut W,
    line_buffer: &mut LineBuffer,
    pid: u32,
    call: CallRef<'_>,
    walks: u8,
) -> Result<(), Failed>
    ensures { Writes W.Sink (trace_bytes (first_lines_of pid (call_of call.entry) walks)) out.old out.new result }
{
    line_buffer.clear();
    put_call_line(line_buffer, pid, call);
    put_path_lines(line_buffer, pid, call, walks);
    write_whole(out, line_buffer.as_slice())
}

/// Writes the last line of a call, if it has one. It is formatted in the line buffer.
///
/// # Errors
///
/// Returns `Failed` if a write fails. The sink then has received a prefix of the line.
pub fn write_last_line<W: Sink>(
    out: &mut W,
    line_buffer: &mut LineBuffer,
    pid: u32,
    call: CallRef<'_>,
    outcome: Outcome,
) -> Result<(), Failed>
    ensures { Writes W.Sink (trace_bytes (end_lines_of pid (call_of call.entry) outcome)) out.old out.new result }
{
    line_buffer.clear();
    put_end_lines(line_buffer, pid, call, outcome);
    write_whole(out, line_buffer.as_slice())
}

/// Writes the only line of a step of a process that is not live. It is formatted in the line buffer.
///
/// # Errors
///
/// Returns `Failed` if a write fails. The sink then has received a prefix of the line.
pub fn write_gone_line<W: Sink>(
    out: &mut W,
    line_buffer: &mut LineBuffer,
    pid: u32,
) -> Result<(), Failed>
    ensures { Writes W.Sink (trace_bytes (gone_lines pid)) out.old out.new result }
{
    let line = Line {
        pid,
        word: Word::Gone,
    };
    write_line_on(out, line_buffer, &line)
}
