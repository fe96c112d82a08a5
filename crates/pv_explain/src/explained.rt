//! The STEP line of a step, and the explained lines of a call with the lines added to it.
ghost use Rattle.std.specs.Prelude.{◌++◌, codes};
ghost use Rattle.pv_explain.specs.Added.{added_made, reasons_made};
ghost use Rattle.pv_explain.specs.Steps.{step_text};
ghost use Rattle.pv_laws_states.specs.States.{IsValid};
ghost use Rattle.pv_model.specs.Machine.{answer_bytes, answer_line, answer_line_bytes};
ghost use Rattle.pv_step_lines.specs.Made.{IsFitCall, call_made_lines};
ghost use Rattle.pv_step_lines.specs.Origin.{settings_in};
ghost use Rattle.pv_streams.specs.Sinks.{Writes};

use crate::allowed_text::{Context, write_allowed};
use crate::error_text::write_error;
use crate::prior::Prior;
use crate::restraints::write_execve;
use itoa::Buffer;
use pv_step_lines::answers::Line;
use pv_step_lines::calls_state::Parts;
use pv_step_lines::session::Session;
use pv_step_lines::{MadeCall, Origin, write_call};
use pv_streams::{Decimal, Failed, Fragment, Plain, Sink, write_whole};
use pv_trace::LineBuffer;

// Writes why a call that was just made failed, or its effect on the restraints of its process.
fn write_reasons<W: Sink>(
    out: &mut W,
    parts: &Parts,
    pid: u32,
    made: &MadeCall<'_>,
    prior: &Prior,
) -> Result<(), Failed>
    requires { IsValid parts.now }
    ensures { Writes W.Sink (answer_bytes (reasons_made pid prior.now made.now parts.now)) out.old out.new result }
{
    let (call, outcome) = (made.call, made.answer.outcome);
    write_error(out, parts, pid, call, outcome)?;
    write_execve(out, parts, pid, &prior.restraints, call, outcome)
}

// Writes the lines added to a call that was just made.
fn write_added<W: Sink>(
    out: &mut W,
    parts: &Parts,
    pid: u32,
    made: &MadeCall<'_>,
    prior: &Prior,
    origins: &[Origin],
    errors: bool,
) -> Result<(), Failed>
    requires { IsValid parts.now }
    ensures { Writes W.Sink (answer_bytes (added_made errors pid (settings_in origins.now) prior.now made.now parts.now)) out.old out.new result }
{
    let context = Context {
        pid,
        tree: parts.tree(),
        origins,
    };
    write_allowed(out, &context, &prior.walks, made.answer.walks)?;
    if errors {
        write_reasons(out, parts, pid, made, prior)
    } else {
        Ok(())
    }
}

/// Writes the explained lines of a call that was just made, the walks of `prior` that were begun, and, if `errors`, why
/// the call failed, unless a promise or a table refused it, or its effect on the restraints of its process, if it
/// started a program.
///
/// # Errors
///
/// `Failed`, if a write failed. The sink received a prefix of the lines.
pub(crate) fn write_call_and_added<W: Sink>(
    out: &mut W,
    line_buffer: &mut LineBuffer,
    session: &Session,
    pid: u32,
    made: &MadeCall<'_>,
    prior: &Prior,
    origins: &[Origin],
    errors: bool,
) -> Result<(), Failed>
    requires { IsFitCall pid made.now session.now }
    ensures { Writes W.Sink (answer_bytes (call_made_lines pid (settings_in origins.now) made.now session.now ++ added_made errors pid (settings_in origins.now) prior.now made.now session.now)) out.old out.new result }
{
    write_call(out, line_buffer, session, pid, made, origins)?;
    write_added(out, session.parts(), pid, made, prior, origins, errors)
}

// The number of a step.
#[derive(Clone, Copy)]
struct StepNumber(u64);

impl Fragment for StepNumber {
    ghost use Rattle.std.specs.Prelude.{decimal};

    ghost text = { λ p. decimal p.0 };

    fn write<W: Sink>(&self, out: &mut W) -> Result<(), Failed> {
        let mut buffer = Buffer::new();
        write_whole(out, buffer.format(self.0).as_bytes())
    }
}

// The line of a process, if it is live.
#[derive(Clone, Copy)]
struct LocationText(Option<u16>);

impl Fragment for LocationText {
    ghost use Rattle.pv_explain.specs.Steps.{location_text};

    ghost text = { λ p. location_text p.0 };

    fn write<W: Sink>(&self, out: &mut W) -> Result<(), Failed> {
        match self.0 {
            Some(line) => (Plain(b", line "), Decimal(u32::from(line))).write(out),
            None => Ok(()),
        }
    }
}

/// Writes the STEP line of a step: its number, and the line of its process, if it is live.
///
/// # Errors
///
/// `Failed`, if a write failed. The sink received a prefix of the line.
#[tactic(auto, unfolding(pv_model::specs::Trace::text_line))]
pub(crate) fn write_step_line<W: Sink>(
    out: &mut W,
    pid: u32,
    number: u64,
    line: Option<u16>,
) -> Result<(), Failed>
    ensures { Writes W.Sink (answer_line_bytes (answer_line pid (codes "STEP") (step_text number line))) out.old out.new result }
{
    let line = Line {
        pid,
        word: *b"STEP",
        text: (StepNumber(number), LocationText(line)),
    };
    line.write(out)
}
