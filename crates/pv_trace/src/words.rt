//! The line of each word, with its arguments.
ghost use Rattle.std.specs.Prelude.{◌≡◌, ◌++◌, ◌+◌, ◌*◌, ◌≤◌, length, codes, decimal, None, Some};
ghost use Rattle.pv_model.specs.declared.limits.TheConstants.{BUFFER};
ghost use Rattle.pv_model.specs.Machine.{call_of, promise_name, line, call_word, nami_word, pldg_word, unvl_word, gio_word, ret_word};
ghost use Rattle.pv_model.specs.Errno.{errno_name};
ghost use Rattle.pv_model.specs.Trace.{line_bytes, psig_word, wait_word, gone_word, value_of, error_of, promise_text, promise_verdict_text, unveil_verdict_text, direction_text, bytes_text};
ghost use Rattle.pv_trace.specs.declared.line_buffer.TheConstants.{LINE_BYTES, PATH_LINE_BYTES, SHORT_LINE_BYTES, LINE_BUFFER};
ghost use Rattle.pv_trace.specs.Words.{promise_verdict_of, unveil_verdict_of, direction_of, permissions_bytes, needed_text, errno_text};

use crate::calls::{put_call, put_name};
use crate::line::{Direction, PromiseVerdict, UnveilVerdict};
use crate::line_buffer::{
    LineBuffer, put, put_decimal, put_front, put_hex, put_permissions, put_quoted, put_quoted_all,
};
use pv_model::{CallRef, Errno, Perms, Promise, Text};

fn promise_verdict_name(verdict: PromiseVerdict) -> &'static [u8]
    ensures text { result.now ≡ promise_verdict_text (promise_verdict_of verdict) }
    ensures few { length result.now ≤ 8 }
{
    match verdict {
        PromiseVerdict::Killed => b"killed",
        PromiseVerdict::Refused => b"refused",
        PromiseVerdict::Increase => b"increase",
    }
}

// Returns the name of a promise.
fn promise_bytes(promise: Promise) -> &'static [u8]
    ensures text { result.now ≡ promise_name promise }
    ensures few { length result.now ≤ 9 }
{
    promise.name().as_bytes()
}

// Appends the text of a decision about a promise.
fn put_promise(out: &mut LineBuffer, call: CallRef<'_>, promise: Promise, verdict: PromiseVerdict)
    requires { length out.old.items + 64 ≤ LINE_BUFFER }
    ensures text { out.new.items ≡ out.old.items ++ promise_text (call_of call.entry) promise (promise_verdict_text (promise_verdict_of verdict)) }
    ensures growth { length out.new.items ≤ length out.old.items + 64 }
{
    put_name(out, call);
    put(out, b", ");
    put_quoted_all(out, promise_bytes(promise));
    put(out, b", ");
    put(out, promise_verdict_name(verdict));
}

fn put_entry(out: &mut LineBuffer, number: u8)
    requires { length out.old.items + 46 ≤ LINE_BUFFER }
    ensures text { out.new.items ≡ out.old.items ++ (codes "entry " ++ decimal number) }
    ensures growth { length out.new.items ≤ length out.old.items + 46 }
{
    put(out, b"entry ");
    put_decimal(out, u32::from(number));
}

fn put_lacking(out: &mut LineBuffer, number: u8, permissions: Perms)
    requires { length out.old.items + 58 ≤ LINE_BUFFER }
    ensures text { out.new.items ≡ out.old.items ++ needed_text (Some number) permissions }
    ensures growth { length out.new.items ≤ length out.old.items + 58 }
{
    put_entry(out, number);
    put(out, b", needs ");
    put_permissions(out, permissions);
}

fn put_hidden(out: &mut LineBuffer, permissions: Perms)
    requires { length out.old.items + 16 ≤ LINE_BUFFER }
    ensures text { out.new.items ≡ out.old.items ++ needed_text None permissions }
    ensures growth { length out.new.items ≤ length out.old.items + 16 }
{
    put(out, b"none, needs ");
    put_permissions(out, permissions);
}

// Appends the text of a decision of an unveil table.
#[tactic(auto, unfolding(crate::specs::Words::permissions_bytes))]
fn put_unveil(out: &mut LineBuffer, verdict: UnveilVerdict)
    requires { length out.old.items + 58 ≤ LINE_BUFFER }
    ensures text { out.new.items ≡ out.old.items ++ unveil_verdict_text (unveil_verdict_of verdict) }
    ensures growth { length out.new.items ≤ length out.old.items + 58 }
{
    match verdict {
        UnveilVerdict::NoEntry(permissions) => put_hidden(out, permissions),
        UnveilVerdict::EntryLacks(number, permissions) => put_lacking(out, number, permissions),
        UnveilVerdict::Locked => put(out, b"locked"),
    }
}

// Appends the text of a direction.
fn put_direction(out: &mut LineBuffer, direction: Direction)
    requires { length out.old.items + 5 ≤ LINE_BUFFER }
    ensures text { out.new.items ≡ out.old.items ++ direction_text (direction_of direction) }
    ensures growth { length out.new.items ≤ length out.old.items + 5 }
{
    match direction {
        Direction::Gave => put(out, b"read"),
        Direction::Took => put(out, b"wrote"),
    }
}

// Appends the text of a transfer of bytes.
fn put_moved(out: &mut LineBuffer, direction: Direction, bytes: &[u8])
    requires few { length bytes.now ≤ BUFFER }
    requires room { length out.old.items + 2 * BUFFER + 47 ≤ LINE_BUFFER }
    ensures text { out.new.items ≡ out.old.items ++ bytes_text (direction_text (direction_of direction)) bytes.now }
    ensures growth { length out.new.items ≤ length out.old.items + 2 * BUFFER + 47 }
{
    put_direction(out, direction);
    if bytes.is_empty() {
        put(out, b" 0");
    } else {
        put(out, b" ");
        put_decimal(out, bytes.len() as u32);
        put(out, b" ");
        put_hex(out, bytes);
    }
}

// Returns the name of an error.
fn errno_bytes(errno: Errno) -> &'static [u8]
    ensures text { result.now ≡ errno_name errno }
    ensures few { length result.now ≤ 12 }
{
    errno.name().as_bytes()
}

// Appends the text of an error.
#[tactic(auto, unfolding(crate::specs::Words::errno_text))]
fn put_errno(out: &mut LineBuffer, errno: Errno)
    requires { length out.old.items + 62 ≤ LINE_BUFFER }
    ensures text { out.new.items ≡ out.old.items ++ errno_text errno }
    ensures growth { length out.new.items ≤ length out.old.items + 62 }
{
    put(out, b"-1 errno ");
    put_decimal(out, u32::from(errno.number()));
    put(out, b" ");
    put(out, errno_bytes(errno));
}

/// Appends a CALL line: a call with its arguments.
#[tactic(auto, unfolding(pv_model::specs::Trace::text_line))]
pub(crate) fn put_call_line(out: &mut LineBuffer, pid: u32, call: CallRef<'_>)
    requires room { length out.old.items + LINE_BYTES ≤ LINE_BUFFER }
    ensures text { out.new.items ≡ out.old.items ++ line_bytes (line pid (call_word (call_of call.entry))) }
    ensures growth { length out.new.items ≤ length out.old.items + LINE_BYTES }
{
    put_front(out, pid, b" CALL  ");
    put_call(out, call);
    put(out, b"\n");
}

/// Appends a NAMI line: a path that a call walks.
#[tactic(auto, unfolding(pv_model::specs::Trace::text_line))]
pub(crate) fn put_path_line(out: &mut LineBuffer, pid: u32, path: &Text)
    requires room { length out.old.items + PATH_LINE_BYTES ≤ LINE_BUFFER }
    ensures text { out.new.items ≡ out.old.items ++ line_bytes (line pid (nami_word path.now)) }
    ensures growth { length out.new.items ≤ length out.old.items + PATH_LINE_BYTES }
{
    put_front(out, pid, b" NAMI  ");
    put_quoted(out, path);
    put(out, b"\n");
}

/// Appends a PLDG line: a promise that decided a call.
#[tactic(auto, unfolding(pv_model::specs::Trace::text_line))]
pub(crate) fn put_promise_line(
    out: &mut LineBuffer,
    pid: u32,
    call: CallRef<'_>,
    promise: Promise,
    verdict: PromiseVerdict,
)
    requires room { length out.old.items + SHORT_LINE_BYTES ≤ LINE_BUFFER }
    ensures text { out.new.items ≡ out.old.items ++ line_bytes (line pid (pldg_word (call_of call.entry) promise (promise_verdict_of verdict))) }
    ensures growth { length out.new.items ≤ length out.old.items + SHORT_LINE_BYTES }
{
    put_front(out, pid, b" PLDG  ");
    put_promise(out, call, promise, verdict);
    put(out, b"\n");
}

/// Appends a UNVL line: an unveil table that decided a call.
#[tactic(auto, unfolding(pv_model::specs::Trace::text_line))]
pub(crate) fn put_unveil_line(out: &mut LineBuffer, pid: u32, verdict: UnveilVerdict)
    requires room { length out.old.items + SHORT_LINE_BYTES ≤ LINE_BUFFER }
    ensures text { out.new.items ≡ out.old.items ++ line_bytes (line pid (unvl_word (unveil_verdict_of verdict))) }
    ensures growth { length out.new.items ≤ length out.old.items + SHORT_LINE_BYTES }
{
    put_front(out, pid, b" UNVL  ");
    put_unveil(out, verdict);
    put(out, b"\n");
}

/// Appends a GIO line: bytes that a call transferred.
#[tactic(auto, unfolding(pv_model::specs::Trace::text_line))]
pub(crate) fn put_moved_line(out: &mut LineBuffer, pid: u32, direction: Direction, bytes: &[u8])
    requires few { length bytes.now ≤ BUFFER }
    requires room { length out.old.items + LINE_BYTES ≤ LINE_BUFFER }
    ensures text { out.new.items ≡ out.old.items ++ line_bytes (line pid (gio_word (direction_of direction) bytes.now)) }
    ensures growth { length out.new.items ≤ length out.old.items + LINE_BYTES }
{
    put_front(out, pid, b" GIO   ");
    put_moved(out, direction, bytes);
    put(out, b"\n");
}

/// Appends a RET line of a call that returned a value.
#[tactic(auto, unfolding(pv_model::specs::Trace::text_line))]
pub(crate) fn put_value_line(out: &mut LineBuffer, pid: u32, call: CallRef<'_>, value: u32)
    requires room { length out.old.items + SHORT_LINE_BYTES ≤ LINE_BUFFER }
    ensures text { out.new.items ≡ out.old.items ++ line_bytes (line pid (ret_word (call_of call.entry) (value_of value))) }
    ensures growth { length out.new.items ≤ length out.old.items + SHORT_LINE_BYTES }
{
    put_front(out, pid, b" RET   ");
    put_name(out, call);
    put(out, b" ");
    put_decimal(out, value);
    put(out, b"\n");
}

/// Appends a RET line of a call that failed.
#[tactic(auto, unfolding(pv_model::specs::Trace::text_line, crate::specs::Words::errno_text))]
pub(crate) fn put_error_line(out: &mut LineBuffer, pid: u32, call: CallRef<'_>, errno: Errno)
    requires room { length out.old.items + SHORT_LINE_BYTES ≤ LINE_BUFFER }
    ensures text { out.new.items ≡ out.old.items ++ line_bytes (line pid (ret_word (call_of call.entry) (error_of errno))) }
    ensures growth { length out.new.items ≤ length out.old.items + SHORT_LINE_BYTES }
{
    put_front(out, pid, b" RET   ");
    put_name(out, call);
    put(out, b" ");
    put_errno(out, errno);
    put(out, b"\n");
}

/// Appends a PSIG line: the process was killed.
#[tactic(auto, unfolding(pv_model::specs::Trace::text_line))]
pub(crate) fn put_killed_line(out: &mut LineBuffer, pid: u32)
    requires room { length out.old.items + SHORT_LINE_BYTES ≤ LINE_BUFFER }
    ensures text { out.new.items ≡ out.old.items ++ line_bytes (line pid psig_word) }
    ensures growth { length out.new.items ≤ length out.old.items + SHORT_LINE_BYTES }
{
    put_front(out, pid, b" PSIG  ");
    put(out, b"SIGABRT\n");
}

/// Appends a WAIT line: the call blocks.
#[tactic(auto, unfolding(pv_model::specs::Trace::text_line))]
pub(crate) fn put_wait_line(out: &mut LineBuffer, pid: u32)
    requires room { length out.old.items + SHORT_LINE_BYTES ≤ LINE_BUFFER }
    ensures text { out.new.items ≡ out.old.items ++ line_bytes (line pid wait_word) }
    ensures growth { length out.new.items ≤ length out.old.items + SHORT_LINE_BYTES }
{
    put_front(out, pid, b" WAIT  ");
    put(out, b"blocked\n");
}

/// Appends a GONE line: the process is not live.
#[tactic(auto, unfolding(pv_model::specs::Trace::text_line))]
pub(crate) fn put_gone_line(out: &mut LineBuffer, pid: u32)
    requires room { length out.old.items + SHORT_LINE_BYTES ≤ LINE_BUFFER }
    ensures text { out.new.items ≡ out.old.items ++ line_bytes (line pid gone_word) }
    ensures growth { length out.new.items ≤ length out.old.items + SHORT_LINE_BYTES }
{
    put_front(out, pid, b" GONE  ");
    put(out, b"no such process\n");
}
