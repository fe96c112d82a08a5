//! The explained lines of a step.
ghost use Rattle.pv_model.specs.Machine.{answer_bytes};
ghost use Rattle.pv_step_lines.specs.Made.{IsFit, IsFitCall, call_made_lines, made_lines, table_lines};
ghost use Rattle.pv_step_lines.specs.Origin.{settings_in};
ghost use Rattle.pv_streams.specs.Sinks.{Writes};

use crate::levels::Basis;
use crate::making::{MadeCall, MadeStep};
use crate::moved::write_moved_part;
use crate::origin::Origin;
use crate::reasons::{write_promise_part, write_table_part};
use pv_answers::calls_state::Parts;
use pv_session::Session;
use pv_session::calls_plain::answer::Answer;
use pv_streams::{Failed, Sink};
use pv_trace::{
    LineBuffer, reported_bytes, reported_promise, reported_table_verdict, write_first_lines,
    write_gone_line, write_last_line,
};

// Writes the UNVL line of a call that a table decided, and the lines with the reason.
fn write_table_lines<W: Sink>(
    out: &mut W,
    line_buffer: &mut LineBuffer,
    parts: &Parts,
    pid: u32,
    made: &MadeCall<'_>,
    origins: &[Origin],
) -> Result<(), Failed>
    requires { IsFitCall pid made.now parts.now }
    ensures { Writes W.Sink (answer_bytes (table_lines pid (settings_in origins.now) made.now parts.now)) out.old out.new result }
{
    let walks = made.answer.walks;
    let Some(verdict) = reported_table_verdict(made.call, walks, made.answer.outcome) else {
        return Ok(());
    };
    let Some(record) = parts.live_record(pid) else {
        return Ok(());
    };
    let basis = Basis {
        pid,
        tree: parts.tree(),
        table: &record.unveiled,
        origins,
    };
    let place = made.before.place(walks);
    write_table_part(out, line_buffer, &basis, made.call, place, verdict)
}

/// Writes the explained lines of a call that was just made, as `write_made` does.
///
/// # Errors
///
/// `Failed`, if a write failed. The sink received a prefix of the lines.
pub fn write_call<W: Sink>(
    out: &mut W,
    line_buffer: &mut LineBuffer,
    session: &Session,
    pid: u32,
    made: &MadeCall<'_>,
    origins: &[Origin],
) -> Result<(), Failed>
    requires { IsFitCall pid made.now session.now }
    ensures { Writes W.Sink (answer_bytes (call_made_lines pid (settings_in origins.now) made.now session.now)) out.old out.new result }
{
    let call = made.call;
    let Answer { outcome, walks } = made.answer;
    let before = &made.before;
    let parts = session.parts();
    let moved = reported_bytes(parts.buffer(pid), call, outcome);
    write_first_lines(out, line_buffer, pid, call, walks)?;
    write_promise_part(
        out,
        line_buffer,
        pid,
        before.pledge,
        call,
        reported_promise(outcome),
    )?;
    write_table_lines(out, line_buffer, parts, pid, made, origins)?;
    write_moved_part(out, line_buffer, pid, parts, before.file, call, moved)?;
    write_last_line(out, line_buffer, pid, call, outcome)
}

/// Writes the explained lines of a step that was just made. `origins` are the origins of the entries of its process
/// before the step. If the origin of an entry is not among them, the line at which the entry was set is omitted.
///
/// # Errors
///
/// `Failed`, if a write failed. The sink received a prefix of the lines.
#[tactic(auto, using(pv_streams::proofs::WriterContracts::writes_none))]
pub fn write_made<W: Sink>(
    out: &mut W,
    line_buffer: &mut LineBuffer,
    session: &Session,
    pid: u32,
    made: &MadeStep<'_>,
    origins: &[Origin],
) -> Result<(), Failed>
    requires { IsFit pid made.now session.now }
    ensures { Writes W.Sink (answer_bytes (made_lines pid (settings_in origins.now) made.now session.now)) out.old out.new result }
{
    match made {
        MadeStep::Gone => write_gone_line(out, line_buffer, pid),
        MadeStep::Register(_) => Ok(()),
        MadeStep::Call(made) => write_call(out, line_buffer, session, pid, made, origins),
    }
}
