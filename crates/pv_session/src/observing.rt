//! Runs of schedules with an observer.
ghost use Rattle.std.specs.Prelude.{◌≤◌, ◌*◌, ◌^◌, IfErr, IfOk, OnOk, length, replicate};
ghost use Rattle.pv_model.specs.Machine.{steps_of};
ghost use Rattle.pv_session.specs.Observing.{AreMade, AreStopped, observed};

use crate::session::Session;
use pv_streams::Stop;
use std::alloc::Global;

/// An observer of the steps of a run, with an output. It makes each step, may write to the output, and may keep a state
/// of its own.
pub trait RunObserver<W> {
    ghost use Rattle.std.specs.Prelude.{ℕ};
    ghost use Rattle.pv_session.specs.Observing.{Observed};
    ghost use Rattle.pv_streams.specs.declared.stop.Stop.{Stop};

    /// The relation between the run before a step of a process and the run after it.
    ghost makes: { ℕ → Observed Self W → Observed Self W → Type 0 };

    /// The same relation for a step of a process that stops the run.
    ghost stops: { Stop → ℕ → Observed Self W → Observed Self W → Type 0 };

    /// Makes consecutive steps of a process, at least one and at most `most`, and returns their number.
    ///
    /// # Errors
    ///
    /// The reason why the first of these steps stops the run.
    fn make_steps(
        &mut self,
        alloc: Global,
        session: &mut Session,
        pid: u32,
        most: u32,
        out: &mut W,
    ) -> Result<u32, Stop>
        requires { 1 ≤ most }
        ensures some { IfOk result (λ n. 1 ≤ n) }
        ensures few { IfOk result (λ n. n ≤ most) }
        ensures made { IfOk result (λ n. AreMade makes (replicate n pid)
            (observed session.old self.old out.old) (observed session.new self.new out.new)) }
        ensures stopped { IfErr result (λ stop. stops stop pid
            (observed session.old self.old out.old) (observed session.new self.new out.new)) };
}

/// Runs a schedule with an observer, which makes the steps.
///
/// # Errors
///
/// The reason why a step stops the run. The earlier steps were made, and no later step was.
pub fn run_with<W, O: RunObserver<W>>(
    alloc: Global,
    session: &mut Session,
    schedule: &[(u32, u32)],
    observer: &mut O,
    out: &mut W,
) -> Result<(), Stop>
    ensures made { OnOk result (AreMade O.makes (steps_of schedule.now)
        (observed session.old observer.old out.old) (observed session.new observer.new out.new)) }
    ensures few { OnOk result (length (steps_of schedule.now) ≤ 2 ^ 32 * length schedule.now) }
    ensures stopped { IfErr result (λ stop. AreStopped O.makes (O.stops stop) (steps_of schedule.now)
        (observed session.old observer.old out.old) (observed session.new observer.new out.new)) }
{
    for turn in schedule {
        let (pid, count) = *turn;
        let mut left = count;
        while left > 0 {
            left -= observer.make_steps(alloc, session, pid, left, out)?;
        }
    }
    Ok(())
}
