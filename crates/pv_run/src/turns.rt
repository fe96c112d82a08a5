//! The start of a run, and the turns of its schedule.
ghost use Rattle.std.specs.Prelude.{◌≡◌, Some, Ok, IfOk, IfErr, OnOk, OnErr};
ghost use Rattle.pv_model.specs.Machine.{lines_of, program_of, started_on, boot, Rose, trace_bytes};
ghost use Rattle.pv_run.specs.Run.{IsErrorOnTree, IsSummaryOf, RefusesStart, StopsBy, BufferedOnlyIfCut, IsOutOfMemoryAtExecve, started_from};
ghost use Rattle.pv_session.specs.Running.{run_of};
ghost use Rattle.pv_streams.specs.Sinks.{WritesOr};

use pv_model::RunFault;
use pv_script::Schedule;
use pv_session::{Session, run_schedule, step_count};
use pv_streams::{Failed, Sink, Stop};
use pv_tree::Store;
use std::alloc::Global;

/// The counts of a run.
#[derive(Clone, Copy, Debug, PartialEq, Eq)]
pub struct Summary {
    /// The number of steps.
    pub steps: u64,
    /// The number of trace lines.
    pub lines: u64,
}

/// The start of a run: the machine and the schedule.
#[derive(Drop)]
pub struct Ready {
    /// The machine before its first step.
    pub session: Session,
    /// The turns.
    pub schedule: Schedule,
}

/// Returns the start of a run on a tree, given the text of the schedule.
///
/// # Errors
///
/// - `Schedule`, `Init`: the first error of the schedule or else of the program of `init`. Each names the first line
///   with such an error.
/// - `Memory`: there is no memory.
pub fn start_on(alloc: Global, store: Store, schedule: &[u8]) -> Result<Ready, RunFault>
    ensures asked { IfOk result (λ r. started_on store (lines_of schedule.now) ≡ Ok (started_from r.session r.schedule)) }
    ensures machine { IfOk result (λ r. boot program_of r.session.tree ≡ Some r.session) }
    ensures fault { IfErr result (λ f. RefusesStart f (started_on store (lines_of schedule.now))) }
    ensures kind { IfErr result IsErrorOnTree }
{
    store.invariant();
    let schedule = Schedule::parse(alloc, schedule)?;
    let session = Session::new(alloc, store)?;
    Ok(Ready { session, schedule })
}

// Flushes the buffered lines of a trace.
fn flush_buffer<W: Sink>(trace: &mut W) -> Result<(), RunFault>
    ensures preserved { W.written trace.new ≡ W.written trace.old }
    ensures empty { OnOk result (W.buffered trace.new ≡ 0) }
    ensures quiet { OnOk result (W.failures trace.new ≡ W.failures trace.old) }
    ensures failed { OnErr result (Rose (W.failures trace.old) (W.failures trace.new)) }
    ensures kind { IfErr result (λ f. f ≡ RunFault.WriteTrace) }
{
    match trace.flush() {
        Ok(()) => Ok(()),
        Err(Failed) => Err(RunFault::WriteTrace),
    }
}

// Makes the turns of a schedule, flushes the buffered lines, and returns the counts of steps and lines.
pub(crate) fn make_turns<W: Sink>(
    alloc: Global,
    ready: &mut Ready,
    trace: &mut W,
) -> Result<Summary, RunFault>
    ensures after { OnOk result
        (ready.new.session ≡ (run_of ready.old.session ready.old.schedule).final) }
    ensures ran { IfOk result
        (IsSummaryOf (started_from ready.old.session ready.old.schedule)) }
    ensures written { WritesOr W.Sink StopsBy
        (trace_bytes (run_of ready.old.session ready.old.schedule).lines) trace.old trace.new result }
    ensures empty { OnOk result (W.buffered trace.new ≡ 0) }
    ensures stopped { IfErr result (λ fault. BufferedOnlyIfCut fault (W.buffered trace.new)) }
    ensures memory { IfErr result (λ fault. IsOutOfMemoryAtExecve fault ready.old.schedule
        ready.old.session ready.new.session (W.written trace.old) (W.written trace.new)) }
{
    let steps = step_count(ready.schedule.turns());
    match run_schedule(alloc, &mut ready.session, ready.schedule.turns(), trace) {
        Ok(lines) => {
            flush_buffer(trace)?;
            Ok(Summary { steps, lines })
        }
        Err(Stop::Memory) => {
            flush_buffer(trace)?;
            Err(RunFault::Memory)
        }
        Err(Stop::Write) => Err(RunFault::WriteTrace),
    }
}
