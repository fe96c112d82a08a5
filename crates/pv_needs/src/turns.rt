//! A fair schedule of a session.
ghost use Rattle.std.specs.Prelude.{◌≡◌, ◌≤◌, ◌*◌, ℕ, IfErr, IfOk, IsErrOf, OnErr, OnOk};
ghost use Rattle.pv_needs.specs.Turning.{IsTurnMade, IsTurnTaken, TurnsWritten, first_between};
ghost use Rattle.pv_model.specs.Machine.{continues as continues_by_definition, next_turn, turns, program_of};
ghost use Rattle.pv_model.specs.Answers.Turns.{schedule_text};
ghost use Rattle.pv_session.specs.Running.{run_of};
ghost use Rattle.pv_session.specs.Stopping.{NextLoads};
ghost use Rattle.pv_streams.specs.declared.stop.Stop.TheVariants.{Memory};
ghost use Rattle.pv_streams.specs.Sinks.{FailsBy, WritesOr};

use pv_model::Outcome;
use pv_model::limits::LAST_PROCESS;
use pv_session::Session;
use pv_streams::{Decimal, Fragment, Plain, Sink, Stop};
use std::alloc::Global;

// Returns whether a turn can make a step with this outcome: the process is live, and the step is not a blocked wait(2).
fn continues(outcome: Outcome) -> bool
    ensures { result ≡ continues_by_definition outcome }
{
    match outcome {
        Outcome::Blocked | Outcome::Gone => false,
        _ => true,
    }
}

// Makes the steps of one turn of a process, and returns their number.
fn make_turn(alloc: Global, session: &mut Session, pid: u32, most: u32) -> Result<u32, Stop>
    ensures made { IfOk result (λ count. IsTurnMade most pid session.old count session.new) }
    ensures few { IfOk result (λ count. count ≤ most) }
    ensures memory { IfErr result (λ stop. stop ≡ Memory) }
    ensures loads { OnErr result (NextLoads session.new pid) }
{
    for made in 0..most {
        if !continues(session.step(alloc, pid)?) {
            return Ok(made);
        }
    }
    Ok(most)
}

// Finds the first process above one number, up to another, whose next step can be made, and makes its turn. Returns the
// process and the number of steps.
fn turn_between(
    alloc: Global,
    session: &mut Session,
    after: u32,
    up_to: u32,
    most: u32,
) -> Result<Option<(u32, u32)>, Stop>
    requires { 1 ≤ most }
    ensures taken { IfOk result (λ made. IsTurnTaken most session.old (first_between program_of session.old after up_to) made session.new) }
    ensures memory { IfErr result (λ stop. stop ≡ Memory) }
    ensures loads { OnErr result ((pid : ℕ) × NextLoads session.new pid) }
{
    let _ = session.parts();
    let mut last = after;
    while let Some(pid) = session.parts().processes().next_number(last) {
        if pid > up_to {
            return Ok(None);
        }
        let count = make_turn(alloc, session, pid, most)?;
        if count > 0 {
            return Ok(Some((pid, count)));
        }
        last = pid;
    }
    Ok(None)
}

// Makes the next turn after the turn of a process. Returns the process of the turn and the number of steps.
fn take_turn(
    alloc: Global,
    session: &mut Session,
    last: u32,
    most: u32,
) -> Result<Option<(u32, u32)>, Stop>
    requires { 1 ≤ most }
    ensures taken { IfOk result (λ made. IsTurnTaken most session.old (next_turn program_of last session.old) made session.new) }
    ensures memory { IfErr result (λ stop. stop ≡ Memory) }
    ensures loads { OnErr result ((pid : ℕ) × NextLoads session.new pid) }
{
    let _ = session.parts();
    let above = turn_between(alloc, session, last, LAST_PROCESS, most)?;
    if above.is_some() {
        return Ok(above);
    }
    turn_between(alloc, session, 0, last, most)
}

/// Makes the steps of a fair schedule, and writes the schedule. The live processes take turns by ascending number. Each
/// turn has at most `slice` steps. The schedule has `steps` steps in all, or fewer if no process can make a step. The
/// line of a turn is written as soon as the turn is made.
///
/// Each step is of a live process, and no step is a blocked wait(2): see `pv_laws_runs::turns`.
///
/// # Errors
///
/// - `Memory`, if there is no memory for the program of an execve(2), as for `Session::step`. The sink received the
///   lines of the earlier turns.
/// - `Write`, if a write failed. The sink received a prefix of the lines.
pub fn write_turns<W: Sink>(
    alloc: Global,
    session: &mut Session,
    slice: u32,
    steps: u32,
    out: &mut W,
) -> Result<(), Stop>
    requires { 1 ≤ slice }
    ensures after { OnOk result (session.new ≡ (run_of session.old (turns program_of slice steps session.old)).final) }
    ensures written { WritesOr W.Sink FailsBy (schedule_text (turns program_of slice steps session.old)) out.old out.new result }

    // After out of memory, the sink has the lines of the earlier turns, and the next step is an execve(2).
    ensures lines { IsErrOf result Stop.Memory → TurnsWritten (turns program_of slice steps session.old) (W.written out.old) (W.written out.new) }
    ensures loads { IsErrOf result Stop.Memory → (pid : ℕ) × NextLoads session.new pid }
{
    let _ = session.parts();
    let mut left = steps;
    let mut last = 0;
    while left > 0 {
        let Some((pid, count)) = take_turn(alloc, session, last, slice.min(left))? else {
            break;
        };
        (Decimal(pid), Plain(b" "), Decimal(count), Plain(b"\n")).write(out)?;
        left -= count;
        last = pid;
    }
    Ok(())
}
