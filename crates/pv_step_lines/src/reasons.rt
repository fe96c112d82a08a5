//! The reasons for the decision of a promise or a table.
ghost use Rattle.std.specs.Prelude.{◌≡◌, codes, flat_map, map, IfSome, IsTrue, Some, option_copied};
ghost use Rattle.std.specs.Result.{is_err};
ghost use Rattle.pv_step_lines.specs.Basis.{settings_of_basis, sets_of, basis_table};
ghost use Rattle.pv_step_lines.specs.Parts.{increase_by, judgement_lines, promise_part, promise_reason_by, table_part, table_reasons, values_asked, widening_by, why};
ghost use Rattle.pv_model.specs.Answers.Explain.{asked_set, increase_text, lack_text, need_text};
ghost use Rattle.pv_model.specs.Machine.{answer_bytes, answer_line_bytes, call_of, needs, is_lenient, narrow_promises, is_directory_at};
ghost use Rattle.pv_model.specs.Answers.Lines.{keyword_list};
ghost use Rattle.pv_model.specs.Needs.{needs_of_open};
ghost use Rattle.pv_promises.specs.Pledge.{bits_of};
ghost use Rattle.pv_streams.specs.Sinks.{Writes};
ghost use Rattle.pv_trace.specs.Reported.{promise_words_of, unveil_words_of};
ghost use Rattle.pv_trace.specs.Words.{promise_verdict_of, unveil_verdict_of};
ghost use Rattle.pv_answers.specs.OfUnveil.Up.{directory_of_place};

use crate::levels::{Basis, EntryText, OriginText, write_levels};
use pv_answers::{Letters, Line as AnswerLine, Pledged};
use pv_model::{CallRef, Mode, OpenFlags, Perms, Place, Promise, Promises, Text};
use pv_promises::{Pledge, read_promises};
use pv_streams::{Failed, Fragment, Plain, Sink};
use pv_trace::{
    Line, LineBuffer, PromiseVerdict, UnveilVerdict, Word, write_call_name, write_line_on,
};

// Returns the promises that an open needs, as a keyword list.
fn needs_of_open(flags: OpenFlags) -> &'static [u8]
    ensures { result.now ≡ keyword_list (map need_text (needs_of_open flags)) }
{
    match (flags.mode, flags.create) {
        (Mode::Read, false) => b"\"rpath\"",
        (Mode::Read, true) => b"\"rpath cpath\"",
        (Mode::Write, false) => b"\"wpath\"",
        (Mode::Write, true) => b"\"wpath cpath\"",
        (Mode::ReadWrite, false) => b"\"rpath wpath\"",
        (Mode::ReadWrite, true) => b"\"rpath wpath cpath\"",
    }
}

// Returns the promises that a call needs, as a keyword list, with `rpath|wpath` if either of the two is enough.
#[tactic(auto, unfolding(pv_model::specs::Needs::needs))]
fn needs_of(call: CallRef<'_>) -> &'static [u8]
    ensures { result.now ≡ keyword_list (map need_text (needs (call_of call.entry))) }
{
    match call {
        CallRef::Exit(_) | CallRef::Pledge(_, _) => b"\"\"",
        CallRef::Fork => b"\"proc\"",
        CallRef::Execve(_) => b"\"exec\"",
        CallRef::Unveil(_, _) => b"\"unveil\"",
        CallRef::Open(_, flags) | CallRef::OpenAt(_, _, flags) => needs_of_open(flags),
        CallRef::Chdir(_) => b"\"rpath\"",
        CallRef::Stat(_) | CallRef::Lstat(_) | CallRef::Readlink(_) => b"\"rpath|wpath\"",
        CallRef::Mkdir(_)
        | CallRef::Symlink(_, _)
        | CallRef::Link(_, _)
        | CallRef::Unlink(_)
        | CallRef::Rmdir(_)
        | CallRef::Rename(_, _) => b"\"cpath\"",
        CallRef::GetPid
        | CallRef::GetPpid
        | CallRef::Wait
        | CallRef::Close(_)
        | CallRef::Dup(_)
        | CallRef::Dup2(_, _)
        | CallRef::Read(_, _)
        | CallRef::Write(_, _)
        | CallRef::Lseek(_, _, _)
        | CallRef::Fstat(_)
        | CallRef::Ftruncate(_, _)
        | CallRef::Getdents(_)
        | CallRef::Fchdir(_) => b"\"stdio\"",
    }
}

// Returns the set of promises that a text asks for, if there is a text.
fn asked(text: Option<&Text>) -> Option<Promises>
    ensures { bits_of result ≡ asked_set (option_copied text.entry) }
{
    match text {
        Some(text) => read_promises(text.as_slice()).ok(),
        None => None,
    }
}

// Returns whether the first value of a pledge(2) is refused.
fn is_first_refused(pledge: Pledge, asked: Option<Promises>) -> bool
    ensures { result ≡ is_err (narrow_promises (is_lenient pledge.promises) pledge.promises (bits_of asked)) }
{
    let mut narrowed = pledge;
    narrowed.narrow(asked, None).is_err()
}

// The name of a call.
#[derive(Clone, Copy)]
struct CallName<'a>(CallRef<'a>);

impl<'a> Fragment for CallName<'a> {
    ghost use Rattle.pv_model.specs.CallRef.{call_of};
    ghost use Rattle.pv_model.specs.Trace.{call_name};

    ghost text = { λ p. call_name (call_of p.0) };

    fn write<W: Sink>(&self, out: &mut W) -> Result<(), Failed> {
        write_call_name(out, &mut LineBuffer::new(), self.0)
    }
}

// Writes the line of the promises that a call needs and the promises held.
#[tactic(auto, unfolding(pv_model::specs::Trace::text_line))]
fn write_lack<W: Sink>(
    out: &mut W,
    pid: u32,
    call: CallRef<'_>,
    held: Option<Promises>,
) -> Result<(), Failed>
    ensures { Writes W.Sink (answer_line_bytes (why pid (lack_text (call_of call.entry) (bits_of held)))) out.old out.new result }
{
    let line = AnswerLine {
        pid,
        word: *b"WHY ",
        text: (
            CallName(call),
            Plain(b" needs "),
            Plain(needs_of(call)),
            Plain(b", has "),
            Pledged(held),
        ),
    };
    line.write(out)
}

// Writes the line of one of two values: the requested and the held set.
#[tactic(auto, unfolding(pv_model::specs::Trace::text_line))]
fn write_value<W: Sink>(
    out: &mut W,
    pid: u32,
    what: &[u8],
    asked: Option<Promises>,
    held: Option<Promises>,
) -> Result<(), Failed>
    ensures { Writes W.Sink (answer_line_bytes (why pid (increase_text what.now (bits_of asked) (bits_of held)))) out.old out.new result }
{
    let line = AnswerLine {
        pid,
        word: *b"WHY ",
        text: (
            Plain(what),
            Plain(b" asked "),
            Pledged(asked),
            Plain(b", has "),
            Pledged(held),
        ),
    };
    line.write(out)
}

// Returns the promises and execpromises that a pledge(2) requests, or `None` for another call.
fn values_asked(call: CallRef<'_>) -> Option<(Option<Promises>, Option<Promises>)>
    ensures { sets_of result ≡ values_asked (call_of call.entry) }
{
    match call {
        CallRef::Pledge(promises, execpromises) => Some((asked(promises), asked(execpromises))),
        _ => None,
    }
}

// Writes the line of the value of a pledge(2) that was refused, and the reason.
#[tactic(auto, unfolding(pv_model::specs::Trace::text_line))]
fn write_increase<W: Sink>(
    out: &mut W,
    pid: u32,
    pledge: Pledge,
    asked: Option<(Option<Promises>, Option<Promises>)>,
) -> Result<(), Failed>
    ensures { Writes W.Sink (answer_line_bytes (why pid (increase_by pledge (sets_of asked)))) out.old out.new result }
{
    let Some((promises, execpromises)) = asked else {
        let line = AnswerLine {
            pid,
            word: *b"WHY ",
            text: Plain(b""),
        };
        return line.write(out);
    };
    if is_first_refused(pledge, promises) {
        write_value(out, pid, b"promises", promises, pledge.promises())
    } else {
        write_value(
            out,
            pid,
            b"execpromises",
            execpromises,
            pledge.execpromises(),
        )
    }
}

// Writes the line with the reason why a promise decided.
fn write_promise_line<W: Sink>(
    out: &mut W,
    pid: u32,
    pledge: Pledge,
    call: CallRef<'_>,
    verdict: PromiseVerdict,
) -> Result<(), Failed>
    ensures { Writes W.Sink (answer_line_bytes (why pid (promise_reason_by pledge (call_of call.entry) (promise_verdict_of verdict)))) out.old out.new result }
{
    match verdict {
        PromiseVerdict::Increase => write_increase(out, pid, pledge, values_asked(call)),
        PromiseVerdict::Killed | PromiseVerdict::Refused => {
            write_lack(out, pid, call, pledge.promises())
        }
    }
}

/// Writes the PLDG line of a promise that decided a call, and the reason: the promises that the call needs, or that it
/// requests, and those held. `pledge` has the promises of the process before the call.
///
/// # Errors
///
/// `Failed`, if a write failed. The sink received a prefix of the lines.
pub(crate) fn write_promise_part<W: Sink>(
    out: &mut W,
    line_buffer: &mut LineBuffer,
    pid: u32,
    pledge: Pledge,
    call: CallRef<'_>,
    reported: Option<(Promise, PromiseVerdict)>,
) -> Result<(), Failed>
    ensures { Writes W.Sink (answer_bytes (flat_map (promise_part pid pledge (call_of call.entry)) (promise_words_of (call_of call.entry) reported))) out.old out.new result }
{
    let Some((promise, verdict)) = reported else {
        return Ok(());
    };
    let line = Line {
        pid,
        word: Word::Pldg(call, promise, verdict),
    };
    write_line_on(out, line_buffer, &line)?;
    write_promise_line(out, pid, pledge, call, verdict)
}

// Writes the line of an unveil(2) that would widen an entry.
#[tactic(auto, unfolding(pv_model::specs::Trace::text_line))]
fn write_widening<W: Sink>(
    out: &mut W,
    basis: &Basis<'_>,
    entry: u8,
    asked: Perms,
) -> Result<(), Failed>
    ensures { Writes W.Sink (answer_line_bytes (why basis.now.pid (widening_by (basis_table basis.now) (settings_of_basis basis.now) entry asked))) out.old out.new result }
{
    let has = EntryText {
        table: basis.table,
        entry,
    };
    let origin = OriginText {
        origins: basis.origins,
        entry,
    };
    let line = AnswerLine {
        pid: basis.pid,
        word: *b"WHY ",
        text: (has, Plain(b", asked "), Letters(asked), origin),
    };
    line.write(out)
}

// Writes the line of a locked table.
#[tactic(auto, unfolding(pv_model::specs::Trace::text_line))]
fn write_locked<W: Sink>(out: &mut W, pid: u32) -> Result<(), Failed>
    ensures { Writes W.Sink (answer_line_bytes (why pid (codes "the table is locked"))) out.old out.new result }
{
    let line = AnswerLine {
        pid,
        word: *b"WHY ",
        text: Plain(b"the table is locked"),
    };
    line.write(out)
}

// Writes the lines of the derivation of a table's decision on a place, if there is a place.
fn write_judgement<W: Sink>(
    out: &mut W,
    basis: &Basis<'_>,
    asked: Perms,
    place: Option<&Place>,
) -> Result<(), Failed>
    requires { IfSome place (λ place. IsTrue (is_directory_at basis.now.tree.now.tree (directory_of_place place.now))) }
    ensures { Writes W.Sink (answer_bytes (judgement_lines basis.now.tree.now.tree (basis_table basis.now) (settings_of_basis basis.now) basis.now.pid asked (option_copied place.entry))) out.old out.new result }
{
    match place {
        Some(place) => write_levels(out, basis, asked, place),
        None => Ok(()),
    }
}

// Writes the lines with the reason why a table decided.
fn write_table_reasons<W: Sink>(
    out: &mut W,
    basis: &Basis<'_>,
    call: CallRef<'_>,
    place: Option<&Place>,
    verdict: UnveilVerdict,
) -> Result<(), Failed>
    requires { IfSome place (λ place. IsTrue (is_directory_at basis.now.tree.now.tree (directory_of_place place.now))) }
    ensures { Writes W.Sink (answer_bytes (table_reasons basis.now.tree.now.tree (basis_table basis.now) (settings_of_basis basis.now) basis.now.pid (call_of call.entry) (option_copied place.entry) (unveil_verdict_of verdict))) out.old out.new result }
{
    match (call, verdict) {
        (_, UnveilVerdict::Locked) => write_locked(out, basis.pid),
        (CallRef::Unveil(_, _), UnveilVerdict::EntryLacks(entry, asked)) => {
            write_widening(out, basis, entry, asked)
        }
        (_, UnveilVerdict::EntryLacks(_, asked) | UnveilVerdict::NoEntry(asked)) => {
            write_judgement(out, basis, asked, place)
        }
    }
}

/// Writes the UNVL line of a table that decided a call, and the reason: the lock, the entry that an unveil(2) would
/// widen, or the derivation of the decision on the place of the call's last walk.
///
/// # Errors
///
/// `Failed`, if a write failed. The sink received a prefix of the lines.
pub(crate) fn write_table_part<W: Sink>(
    out: &mut W,
    line_buffer: &mut LineBuffer,
    basis: &Basis<'_>,
    call: CallRef<'_>,
    place: Option<&Place>,
    verdict: UnveilVerdict,
) -> Result<(), Failed>
    requires { IfSome place (λ place. IsTrue (is_directory_at basis.now.tree.now.tree (directory_of_place place.now))) }
    ensures { Writes W.Sink (answer_bytes (flat_map (table_part basis.now.tree.now.tree (basis_table basis.now) (settings_of_basis basis.now) basis.now.pid (call_of call.entry) (option_copied place.entry)) (unveil_words_of (Some verdict)))) out.old out.new result }
{
    let line = Line {
        pid: basis.pid,
        word: Word::Unvl(verdict),
    };
    write_line_on(out, line_buffer, &line)?;
    write_table_reasons(out, basis, call, place, verdict)
}
