//! Runs of schedules, with or without a trace.
ghost use Rattle.std.specs.Prelude.{◌≡◌, ◌≤◌, ◌*◌, ◌^◌, length, IfOk, IfErr, OnOk, OnErr};
ghost use Rattle.pv_model.specs.declared.limits.TheConstants.{SCHEDULE_LINES};
ghost use Rattle.pv_model.specs.Machine.{steps_of, trace_bytes};
ghost use Rattle.pv_session.specs.Stopping.{StopsOn, StopsUnread};
ghost use Rattle.pv_session.specs.Running.{run_of};
ghost use Rattle.pv_streams.specs.Sinks.{FailsBy, WritesOr};

use crate::observing::{RunObserver, run_with};
use crate::session::Session;
use pv_model::StepFault;
use pv_streams::{Sink, Stop};
use std::alloc::Global;

// The observer that writes the lines of each step, and counts them. Consecutive steps on registers are made at once.
#[derive(Clone, Copy)]
struct Tracer {
    // The number of lines, at most 2^64 - 1.
    lines: u64,
}

impl<W: Sink> RunObserver<W> for Tracer {
    ghost use Rattle.pv_session.specs.Tracing.{StopsTrace, TracesStep};

    ghost makes = { TracesStep W.Sink };

    ghost stops = { StopsTrace W.Sink };

    fn make_steps(
        &mut self,
        alloc: Global,
        session: &mut Session,
        pid: u32,
        most: u32,
        out: &mut W,
    ) -> Result<u32, Stop> {
        let lines = session.trace_step(alloc, pid, out)?;
        self.lines = self.lines.saturating_add(u64::from(lines));
        if lines > 0 {
            return Ok(1);
        }
        Ok(1 + session.pass(pid, most - 1))
    }
}

// The observer that observes nothing. Consecutive steps on registers are made at once.
#[derive(Clone, Copy)]
struct Unobserved;

impl<W> RunObserver<W> for Unobserved {
    ghost use Rattle.pv_session.specs.Tracing.{PassesStep, StopsPass};

    ghost makes = { PassesStep };

    ghost stops = { λ _. StopsPass };

    fn make_steps(
        &mut self,
        alloc: Global,
        session: &mut Session,
        pid: u32,
        most: u32,
        _out: &mut W,
    ) -> Result<u32, Stop> {
        session.step(alloc, pid)?;
        Ok(1 + session.pass(pid, most - 1))
    }
}

/// Runs a schedule, writes the lines of each step before it makes the next, and returns the number of lines.
///
/// # Errors
///
/// - `Write`, if a write failed. No step was made after it, and the sink received a prefix of the lines.
/// - `Memory`, if there is no memory for the program of an execve(2) that leads to an executable file allowed by the
///   process's table. That step was not made, and the sink received exactly the lines of the earlier steps.
pub fn run_schedule<W: Sink>(
    alloc: Global,
    session: &mut Session,
    schedule: &[(u32, u32)],
    trace: &mut W,
) -> Result<u64, Stop>
    requires { length schedule.now ≤ SCHEDULE_LINES }
    ensures after { OnOk result (session.new ≡ (run_of session.old schedule.now).final) }
    ensures written { WritesOr W.Sink FailsBy
        (trace_bytes (run_of session.old schedule.now).lines) trace.old trace.new result }
    ensures lines { IfOk result (λ n. n ≡ length (run_of session.old schedule.now).lines) }
    ensures stopped { IfErr result
        (λ stop. StopsOn stop (steps_of schedule.now) session.old session.new
        (W.written trace.old) (W.written trace.new)) }
{
    let mut tracer = Tracer { lines: 0 };
    run_with(alloc, session, schedule, &mut tracer, trace)?;
    Ok(tracer.lines)
}

/// Runs a schedule without writing lines.
///
/// # Errors
///
/// `NoMemory`, if there is no memory for the program of an execve(2) that leads to an executable file allowed by the
/// process's table. That step was not made, and the run stops; the earlier steps were made.
pub fn pass_schedule(
    alloc: Global,
    session: &mut Session,
    schedule: &[(u32, u32)],
) -> Result<(), StepFault>
    ensures after { OnOk result (session.new ≡ (run_of session.old schedule.now).final) }
    ensures stopped { OnErr result (StopsUnread (steps_of schedule.now) session.old session.new) }
{
    match run_with(alloc, session, schedule, &mut Unobserved, &mut ()) {
        Ok(()) => Ok(()),
        Err(_) => Err(StepFault::NoMemory),
    }
}

/// Returns the number of steps of a schedule.
pub fn step_count(schedule: &[(u32, u32)]) -> u64
    requires { length schedule.now ≤ SCHEDULE_LINES }
    ensures value { result ≡ length (steps_of schedule.now) }
    ensures few { result ≤ 2 ^ 32 * length schedule.now }
{
    let mut steps = 0;
    for turn in schedule {
        steps += u64::from(turn.1);
    }
    steps
}
