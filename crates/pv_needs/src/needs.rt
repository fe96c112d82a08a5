//! The demands of each program on its sandbox in a run.
ghost use Rattle.std.specs.Prelude.{◌≡◌, ◌≤◌, ◌&&◌, ◌*◌, ◌^◌, length, IfErr, IfOk, IsErrOf, OnOk};
ghost use Rattle.pv_needs.specs.Asking.{IsMoreBy};
ghost use Rattle.pv_needs.specs.Granted.{demands_of_step, demands_in, lines_of_demands};
ghost use Rattle.pv_needs.specs.ProcessImages.{RecordsCalls};
ghost use Rattle.pv_model.specs.Machine.{answer_bytes, is_refused as is_refused_by_definition, program_of, process_at, steps_of};
ghost use Rattle.pv_model.specs.Answers.Needs.{needs_lines};
ghost use Rattle.pv_model.specs.declared.limits.TheConstants.{SCHEDULE_LINES};
ghost use Rattle.pv_procs.specs.Turns.{CallsNext};
ghost use Rattle.pv_session.specs.Running.{run_of, stepped};
ghost use Rattle.pv_streams.specs.declared.stop.Stop.TheVariants.{Memory};
ghost use Rattle.pv_streams.specs.Sinks.{FailsBy, WritesOr};

use crate::asking::{begins_program, judged_walks, promises_needed};
use crate::process_images::{Asked, Recorded};
use crate::wording::TargetTexts;
use crate::writing::write_recorded;
use pv_model::{CallRef, Cause, Outcome};
use pv_script::CallTexts;
use pv_session::{RunObserver, Session, run_with};
use pv_streams::{Sink, Stop};
use std::alloc::Global;

// Returns whether a promise or a table refused the call with this outcome.
fn is_refused(outcome: Outcome) -> bool
    ensures { result ≡ is_refused_by_definition outcome }
{
    match outcome {
        Outcome::Killed(_) => true,
        Outcome::Failed(_, cause) => cause != Cause::Plain,
        _ => false,
    }
}

/// Returns whether the call with this outcome does not count: only granted calls do, and a promise or a table refused
/// it.
pub fn is_left_out(granted: bool, outcome: Outcome) -> bool
    ensures { result ≡ (granted && is_refused_by_definition outcome) }
{
    granted && is_refused(outcome)
}

// Makes the next call of a process, and records its demands. If only granted calls count, a call that a promise or a
// table refused is not recorded.
fn ask_call(
    alloc: Global,
    session: &mut Session,
    recorded: &mut Recorded,
    targets: &mut TargetTexts,
    granted: bool,
    pid: u32,
    call: CallRef<'_>,
) -> Result<(), Stop>
    requires { CallsNext call (process_at session.old pid) }
    ensures after { OnOk result (session.new ≡ (stepped session.old pid).after) }
    ensures recorded { OnOk result (IsMoreBy recorded.old pid (demands_of_step granted program_of session.old pid) recorded.new) }
    ensures memory { IfErr result (λ stop. stop ≡ Memory) }
{
    let parts = session.parts();
    let line = parts.record(pid).context.line();
    let Ok(walks) = judged_walks(targets, parts, pid, call) else {
        return Err(Stop::Memory);
    };
    let answer = session.call(alloc, pid, call)?;
    if is_left_out(granted, answer.outcome) {
        return Ok(());
    }
    let asked = Asked {
        line,
        promises: promises_needed(call),
        walks: walks.first_ones(answer.walks),
        ends_process_image: begins_program(call, answer.outcome),
    };
    match recorded.keep(alloc, pid, asked) {
        Ok(()) => Ok(()),
        Err(_) => Err(Stop::Memory),
    }
}

// Makes a step of a process, and records its demands.
fn ask_step(
    alloc: Global,
    session: &mut Session,
    recorded: &mut Recorded,
    texts: &mut CallTexts,
    targets: &mut TargetTexts,
    granted: bool,
    pid: u32,
) -> Result<(), Stop>
    ensures after { OnOk result (session.new ≡ (stepped session.old pid).after) }
    ensures recorded { OnOk result (IsMoreBy recorded.old pid (demands_of_step granted program_of session.old pid) recorded.new) }
    ensures memory { IfErr result (λ stop. stop ≡ Memory) }
{
    match session.next_call(pid, texts) {
        Some(call) => ask_call(alloc, session, recorded, targets, granted, pid, call),
        None => {
            session.step(alloc, pid)?;
            Ok(())
        }
    }
}

// The observer that records the demands of each step.
#[derive(Drop)]
struct DemandRecorder {
    recorded: Recorded,
    // The texts of the last call, and of the targets of its walks.
    texts: CallTexts,
    targets: TargetTexts,
    // Whether only granted calls count.
    granted: bool,
}

impl<W> RunObserver<W> for DemandRecorder {
    ghost use Rattle.pv_needs.specs.Recording.{RecordsStep, StopsRecording};

    ghost makes = { RecordsStep };

    ghost stops = { StopsRecording };

    fn make_steps(
        &mut self,
        alloc: Global,
        session: &mut Session,
        pid: u32,
        _most: u32,
        _out: &mut W,
    ) -> Result<u32, Stop> {
        ask_step(
            alloc,
            session,
            &mut self.recorded,
            &mut self.texts,
            &mut self.targets,
            self.granted,
            pid,
        )?;
        Ok(1)
    }
}

// Runs a schedule, and records the demands of its steps.
fn ask_schedule(
    alloc: Global,
    session: &mut Session,
    schedule: &[(u32, u32)],
    granted: bool,
) -> Result<Recorded, Stop>
    ensures after { OnOk result (session.new ≡ (run_of session.old schedule.now).final) }
    ensures recorded { IfOk result (λ recorded. RecordsCalls recorded (demands_in granted program_of (steps_of schedule.now) session.old)) }
    ensures few { OnOk result (length (steps_of schedule.now) ≤ 2 ^ 32 * length schedule.now) }
    ensures memory { IfErr result (λ stop. stop ≡ Memory) }
{
    let recorded = Recorded::new(alloc);
    let mut recorder = DemandRecorder {
        recorded,
        texts: CallTexts::new(),
        targets: TargetTexts::new(alloc),
        granted,
    };
    run_with(alloc, session, schedule, &mut recorder, &mut ())?;
    let DemandRecorder { recorded, .. } = recorder;
    Ok(recorded)
}

/// Runs a schedule, and writes the demands of each process image on its sandbox in that run: the promises that its
/// calls needed and the targets at which its walks were checked, each with a count and the line of the last call. With
/// `granted`, the calls that a promise or a table refused do not count.
///
/// # Errors
///
/// - `Memory`, if there is no memory for a step, as for `run_schedule`, or for the records. Nothing was written.
/// - `Write`, if a write failed. The sink received a prefix of the lines.
pub fn write_demands<W: Sink>(
    alloc: Global,
    session: &mut Session,
    schedule: &[(u32, u32)],
    granted: bool,
    out: &mut W,
) -> Result<(), Stop>
    requires { length schedule.now ≤ SCHEDULE_LINES }
    ensures after { OnOk result (session.new ≡ (run_of session.old schedule.now).final) }
    ensures written { WritesOr W.Sink FailsBy (answer_bytes (lines_of_demands program_of granted (steps_of schedule.now) session.old)) out.old out.new result }
    ensures nothing { IsErrOf result Stop.Memory → W.written out.new ≡ W.written out.old }
{
    // The contract of `parts` states that the state satisfies the invariant.
    let _ = session.parts();
    let recorded = ask_schedule(alloc, session, schedule, granted)?;
    write_recorded(out, &recorded)?;
    Ok(())
}

/// Runs a schedule, and writes the demands of each process image, as `write_demands` does, of all calls.
///
/// # Errors
///
/// As for `write_demands`.
pub fn write_needs<W: Sink>(
    alloc: Global,
    session: &mut Session,
    schedule: &[(u32, u32)],
    out: &mut W,
) -> Result<(), Stop>
    requires { length schedule.now ≤ SCHEDULE_LINES }
    ensures after { OnOk result (session.new ≡ (run_of session.old schedule.now).final) }
    ensures written { WritesOr W.Sink FailsBy (answer_bytes (needs_lines program_of (steps_of schedule.now) session.old)) out.old out.new result }
    ensures nothing { IsErrOf result Stop.Memory → W.written out.new ≡ W.written out.old }
{
    write_demands(alloc, session, schedule, false, out)
}
