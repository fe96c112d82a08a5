//! The number of walks of a call that counts.
ghost use Rattle.std.specs.Prelude.{◌≡◌, IfOk, Some};
ghost use Rattle.pv_model.specs.declared.call.Call.{Call};
ghost use Rattle.pv_model.specs.Machine.{answer, program_of, calls_for, next, Process, process_at};
ghost use Rattle.pv_policy.specs.Collecting.{walks_counted};

use pv_model::StepFault;
use pv_needs::is_left_out;
use pv_needs::session::Session;
use pv_script::CallTexts;
use std::alloc::Global;

/// Makes the next step of a process if it is a call, and returns the number of walks that the call began. Returns `None`
/// if the call does not count: only granted calls do, and a promise or a table refused it. If the next step is not a
/// call, returns `None` too.
///
/// # Errors
///
/// `NoMemory`, if there is no memory for a program.
pub fn walks_of_call(
    alloc: Global,
    granted: bool,
    session: &mut Session,
    pid: u32,
) -> Result<Option<u8>, StepFault>
    ensures { IfOk result (λ walks. (me : Process) (call : Call) → process_at session.old pid ≡ Some me → next me ≡ calls_for call → walks ≡ walks_counted granted (answer program_of session.old pid call)) }
{
    let mut texts = CallTexts::new();
    match session.next_call(pid, &mut texts) {
        Some(call) => {
            let answer = session.call(alloc, pid, call)?;
            if is_left_out(granted, answer.outcome) {
                return Ok(None);
            }
            Ok(Some(answer.walks))
        }
        None => Ok(None),
    }
}
