//! Explained runs of schedules, step by step.
ghost use Rattle.std.specs.Prelude.{◌≡◌, ◌≤◌, ◌<◌, [], ◌∷◌, length, IfErr, IfOk, IfSome, OnOk, option_copied};
ghost use Rattle.pv_explain.specs.Errors.{explained_lines};
ghost use Rattle.pv_explain.specs.Keeping.{Agree, entry_for_target};
ghost use Rattle.pv_explain.specs.Made.{settings_called};
ghost use Rattle.pv_explain.specs.Steps.{StopsExplained, explained_step_lines};
ghost use Rattle.pv_model.specs.declared.limits.TheConstants.{SCHEDULE_LINES, UNVEILS};
ghost use Rattle.pv_model.specs.Machine.{settings_next, answer_bytes, program_of, process_at, steps_of};
ghost use Rattle.pv_procs.specs.Turns.{CallsNext};
ghost use Rattle.pv_step_lines.specs.OfSession.Running.{run_of, stepped};
ghost use Rattle.pv_streams.specs.Sinks.{FailsBy, WritesOr};

use crate::explained::{write_call_and_added, write_step_line};
use crate::extra::Extra;
use crate::origins::Origins;
use crate::prior::Prior;
use pv_model::{CallRef, Target};
use pv_procs::Fetched;
use pv_script::CallTexts;
use pv_step_lines::answers::write_locations;
use pv_step_lines::calls_state::Parts;
use pv_step_lines::session::{RunObserver, Session, run_with, step_count};
use pv_step_lines::{MadeCall, make_call, make_register};
use pv_streams::{Sink, Stop};
use pv_trace::{LineBuffer, write_gone_line};
use std::alloc::{AllocError, Global};
use std::marker::Model;

// Returns the entry for a target in the table of a process, if there is one.
fn entry_for(parts: &Parts, pid: u32, target: Option<&Target>) -> Option<u8>
    ensures value { result ≡ entry_for_target (option_copied target.entry) (process_at parts.now pid) }
    ensures few { IfSome result (λ k. k < UNVEILS) }
{
    let target = target?;
    let table = &parts.live_record(pid)?.unveiled;
    let _ = table.len();
    match target {
        Target::Directory(directory) => table.directory_entry(*directory),
        Target::Name { dir, name } => table.own_name_entry(*dir, name.as_slice()),
    }
}

// Updates the origins of entries after a call.
fn follow(origins: &mut Origins, parts: &Parts, pid: u32, made: &MadeCall<'_>)
    ensures { Agree parts.now origins.new (settings_called pid made.now parts.now origins.old) }
{
    let given = entry_for(parts, pid, made.before.target.as_ref());
    origins.follow(
        parts,
        pid,
        made.before.line,
        made.call,
        made.answer.outcome,
        given,
    );
}

// A step to explain: its process and its number.
#[derive(Clone, Copy)]
struct NumberedStep {
    pid: u32,
    number: u64,
}

// Makes the next call of a process, and writes the STEP line, the explained lines of the call and the lines added to it.
fn explain_call<W: Sink>(
    alloc: Global,
    session: &mut Session,
    line_buffer: &mut LineBuffer,
    origins: &mut Origins,
    step: NumberedStep,
    call: CallRef<'_>,
    extra: Extra,
    out: &mut W,
) -> Result<(), Stop>
    requires { CallsNext call (process_at session.old step.pid) }
    ensures after { OnOk result (session.new ≡ (stepped session.old step.pid).after) }
    ensures written { WritesOr W.Sink FailsBy (answer_bytes (explained_step_lines extra step.number origins.old session.old step.pid)) out.old out.new result }
    ensures stopped { IfErr result (λ stop. StopsExplained extra stop step.number origins.old (step.pid ∷ []) session.old session.new (W.written out.old) (W.written out.new)) }
    ensures keeps { OnOk result (Agree session.new origins.new (settings_next program_of session.old step.pid origins.old)) }
{
    let NumberedStep { pid, number } = step;
    let parts = session.parts();
    let prior = Prior::of(parts, pid, call, extra);
    let made = make_call(alloc, session, pid, call)?;
    write_step_line(out, pid, number, Some(made.before.line))?;
    write_call_and_added(
        out,
        line_buffer,
        session,
        pid,
        &made,
        &prior,
        origins.of(pid),
        extra.errors,
    )?;
    follow(origins, session.parts(), pid, &made);
    Ok(())
}

/// An explainer of consecutive steps. It records the line at which each entry of each table was set.
#[derive(Drop)]
pub struct Explainer {
    // The texts of the last call.
    texts: CallTexts,
    // The buffer in which trace lines are built.
    line_buffer: Box<LineBuffer>,
    origins: Origins,
}

impl Model for Explainer {
    ghost use Rattle.pv_model.specs.Answers.Settings.{Settings};

    ghost Value = { Settings };

    ghost view = { λ e. e.origins };
}

impl Explainer {
    /// Returns an explainer that knows the origin of no entry.
    ///
    /// # Errors
    ///
    /// `AllocError`, if there is no memory for its records. The other methods allocate only to load a program for
    /// execve(2).
    pub fn new(alloc: Global) -> Result<Explainer, AllocError>
        ensures { IfOk result (λ explainer. explainer ≡ []) }
    {
        Ok(Explainer {
            texts: CallTexts::new(),
            line_buffer: Box::new(alloc, LineBuffer::new())?,
            origins: Origins::new(alloc)?,
        })
    }

    /// Makes a step of a process, and writes its STEP line, its explained lines and the lines added to it.
    ///
    /// # Errors
    ///
    /// - `Memory`, if there is no memory for the program of an execve(2), as for `Session::step`. The step was not
    ///   made, and nothing was written.
    /// - `Write`, if a write failed. The sink received a prefix of the lines.
    pub fn explain_step<W: Sink>(
        &mut self,
        alloc: Global,
        session: &mut Session,
        pid: u32,
        number: u64,
        extra: Extra,
        out: &mut W,
    ) -> Result<(), Stop>
        ensures after { OnOk result (session.new ≡ (stepped session.old pid).after) }
        ensures written { WritesOr W.Sink FailsBy (answer_bytes (explained_step_lines extra number self.old session.old pid)) out.old out.new result }
        ensures stopped { IfErr result (λ stop. StopsExplained extra stop number self.old (pid ∷ []) session.old session.new (W.written out.old) (W.written out.new)) }

        // The explainer knows the origins of the entries of live processes.
        ensures keeps { OnOk result (Agree session.new self.new (settings_next program_of session.old pid self.old)) }
    {
        match session.parts().processes().fetch(pid, &mut self.texts) {
            Fetched::Gone => {
                write_step_line(out, pid, number, None)?;
                write_gone_line(out, &mut *self.line_buffer, pid)?;
                Ok(())
            }
            Fetched::Register => {
                let line = make_register(session, pid);
                write_step_line(out, pid, number, Some(line))?;
                Ok(())
            }
            Fetched::Call(call) => explain_call(
                alloc,
                session,
                &mut *self.line_buffer,
                &mut self.origins,
                NumberedStep { pid, number },
                call,
                extra,
                out,
            ),
        }
    }
}

// The observer that explains each step.
#[derive(Drop)]
struct Explaining {
    explainer: Explainer,
    extra: Extra,
    // The number of the next step, at most 2^64 - 1.
    number: u64,
}

impl<W: Sink> RunObserver<W> for Explaining {
    ghost use Rattle.pv_explain.specs.Explaining.{ExplainsStep, StopsExplaining};

    ghost makes = { ExplainsStep W.Sink };

    ghost stops = { StopsExplaining W.Sink };

    fn make_steps(
        &mut self,
        alloc: Global,
        session: &mut Session,
        pid: u32,
        _most: u32,
        out: &mut W,
    ) -> Result<u32, Stop> {
        // The contract of `parts` states that the state satisfies the invariant.
        let _ = session.parts();
        self.explainer
            .explain_step(alloc, session, pid, self.number, self.extra, out)?;
        self.number = self.number.saturating_add(1);
        Ok(1)
    }
}

/// Runs a schedule, and writes the explained lines of each step before it makes the next: the number of the step first,
/// the meaning of bytes after each GIO line, the reason after each refusal, and the lines that `extra` adds. Then writes the
/// location of each process.
///
/// The explainer must be new.
///
/// # Errors
///
/// - `Write`, if a write failed. No step was made after it, and the sink received a prefix of the lines.
/// - `Memory`, if there is no memory for the program of an execve(2) that leads to an executable file allowed by the
///   process's table. That step was not made, and the sink received exactly the lines of the earlier steps.
pub fn explain_schedule<W: Sink>(
    alloc: Global,
    session: &mut Session,
    explainer: Explainer,
    schedule: &[(u32, u32)],
    extra: Extra,
    out: &mut W,
) -> Result<(), Stop>
    requires lines { length schedule.now ≤ SCHEDULE_LINES }
    requires fresh { explainer ≡ [] }
    ensures after { OnOk result (session.new ≡ (run_of session.old schedule.now).final) }
    ensures written { WritesOr W.Sink FailsBy (answer_bytes (explained_lines extra (steps_of schedule.now) session.old)) out.old out.new result }
    ensures stopped { IfErr result (λ stop. StopsExplained extra stop 1 [] (steps_of schedule.now) session.old session.new (W.written out.old) (W.written out.new)) }
{
    // The contract of `step_count` states that the numbers of the steps fit into 64 bits.
    let _ = step_count(schedule);
    let mut explaining = Explaining {
        explainer,
        extra,
        number: 1,
    };
    run_with(alloc, session, schedule, &mut explaining, out)?;
    Ok(write_locations(out, session.parts())?)
}
