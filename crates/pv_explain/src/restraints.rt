//! The effect of an execve(2) on the restraints of its process.
ghost use Rattle.std.specs.Prelude.{◌≡◌, codes};
ghost use Rattle.pv_explain.specs.Added.{restraints_in};
ghost use Rattle.pv_model.specs.Answers.Needs.{begins_program};
ghost use Rattle.pv_model.specs.Machine.{answer_bytes, answer_line, answer_line_bytes, call_of, process_at, Process};
ghost use Rattle.pv_model_questions.specs.ExplainMore.{execve_after, execve_line, execve_text, restraints_of};
ghost use Rattle.pv_procs.specs.Parts.{record_of};
ghost use Rattle.pv_streams.specs.Sinks.{Writes};

use pv_model::{CallRef, Outcome, Promises};
use pv_procs::ProcessRecord;
use pv_promises::Pledge;
use pv_step_lines::answers::{Line as AnswerLine, Pledged};
use pv_step_lines::calls_state::Parts;
use pv_streams::{Failed, Fragment, Plain, Sink, write_whole};

/// The restraints of a process: its promises and execpromises, whether it has a table, and whether the table is locked.
#[derive(Clone, Copy)]
pub(crate) struct Restraints {
    pledge: Pledge,
    has_table: bool,
    is_locked: bool,
}

impl Restraints {
    /// Returns the restraints in the record of a process.
    pub(crate) fn of(process: &ProcessRecord) -> Restraints
        ensures { (p : Process) → record_of p ≡ process.now → restraints_in result ≡ restraints_of p }
    {
        Restraints {
            pledge: process.pledge,
            has_table: !process.unveiled.is_empty(),
            is_locked: process.unveiled.is_locked(),
        }
    }
}

// The execpromises after an execve(2).
#[derive(Clone, Copy)]
struct ExecpromisesText(Option<Promises>);

impl Fragment for ExecpromisesText {
    ghost use Rattle.pv_model_questions.specs.ExplainMore.{execpromises_text};
    ghost use Rattle.pv_promises.specs.Pledge.{bits_of};

    ghost text = { λ p. execpromises_text (bits_of p.0) };

    fn write<W: Sink>(&self, out: &mut W) -> Result<(), Failed> {
        match self.0 {
            Some(promises) => (
                Plain(b", execpromises "),
                Pledged(Some(promises)),
                Plain(b" stay"),
            )
                .write(out),
            None => write_whole(out, b", no execpromises"),
        }
    }
}

// Whether a process had a table or a lock, and whether it has one.
#[derive(Clone, Copy)]
struct KeptText {
    what: &'static [u8],
    had: bool,
    has: bool,
}

impl Fragment for KeptText {
    ghost use Rattle.pv_model_questions.specs.ExplainMore.{kept_text};

    ghost text = { λ p. kept_text p.what.now p.had p.has };

    fn write<W: Sink>(&self, out: &mut W) -> Result<(), Failed> {
        let what = Plain(self.what);
        match (self.had, self.has) {
            (false, _) => (Plain(b", no "), what).write(out),
            (true, true) => (Plain(b", "), what, Plain(b" stays")).write(out),
            (true, false) => (Plain(b", "), what, Plain(b" dropped")).write(out),
        }
    }
}

// The restraints before an execve(2) and after it.
#[derive(Clone, Copy)]
struct ExecveText<'a> {
    old: &'a Restraints,
    new: &'a Restraints,
}

impl<'a> Fragment for ExecveText<'a> {
    ghost use Rattle.pv_explain.specs.Added.{restraints_in};
    ghost use Rattle.pv_model_questions.specs.ExplainMore.{execve_text};

    ghost text = { λ p. execve_text (restraints_in p.old.now) (restraints_in p.new.now) };

    fn write<W: Sink>(&self, out: &mut W) -> Result<(), Failed> {
        let (old, new) = (self.old, self.new);
        let table = KeptText {
            what: b"table",
            had: old.has_table,
            has: new.has_table,
        };
        let lock = KeptText {
            what: b"lock",
            had: old.is_locked,
            has: new.is_locked,
        };
        (
            Plain(b"promises "),
            Pledged(old.pledge.promises()),
            Plain(b" become "),
            Pledged(new.pledge.promises()),
            ExecpromisesText(new.pledge.execpromises()),
            (table, lock),
        )
            .write(out)
    }
}

// Writes the line of an execve(2) that started a program.
#[tactic(auto, unfolding(pv_model::specs::Trace::text_line))]
fn write_change<W: Sink>(
    out: &mut W,
    pid: u32,
    old: &Restraints,
    new: &Restraints,
) -> Result<(), Failed>
    ensures { Writes W.Sink (answer_line_bytes (answer_line pid (codes "WHY") (execve_text (restraints_in old.now) (restraints_in new.now)))) out.old out.new result }
{
    let line = AnswerLine {
        pid,
        word: *b"WHY ",
        text: ExecveText { old, new },
    };
    line.write(out)
}

// Returns whether a call with this outcome started a program.
fn begins_program(call: CallRef<'_>, outcome: Outcome) -> bool
    ensures { result ≡ begins_program (call_of call.entry) outcome }
{
    match (call, outcome) {
        (CallRef::Execve(_), Outcome::Value(_)) => true,
        _ => false,
    }
}

// Writes the effect of an execve(2) on the restraints of its process, which has started a program.
fn write_started<W: Sink>(
    out: &mut W,
    parts: &Parts,
    pid: u32,
    old: &Restraints,
) -> Result<(), Failed>
    ensures { Writes W.Sink (answer_bytes (execve_line pid (restraints_in old.now) (process_at parts.now pid))) out.old out.new result }
{
    let Some(process) = parts.live_record(pid) else {
        return Ok(());
    };
    write_change(out, pid, old, &Restraints::of(process))
}

/// Writes the effect of a call on the restraints of its process, if it started a program. `old` are the restraints
/// before the call.
///
/// # Errors
///
/// `Failed`, if a write failed. The sink received a prefix of the line.
pub(crate) fn write_execve<W: Sink>(
    out: &mut W,
    parts: &Parts,
    pid: u32,
    old: &Restraints,
    call: CallRef<'_>,
    outcome: Outcome,
) -> Result<(), Failed>
    ensures { Writes W.Sink (answer_bytes (execve_after pid (restraints_in old.now) parts.now (call_of call.entry) outcome)) out.old out.new result }
{
    if begins_program(call, outcome) {
        write_started(out, parts, pid, old)
    } else {
        Ok(())
    }
}
