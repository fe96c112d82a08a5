//! The start of a run, and the machine after it.
ghost use Rattle.std.specs.Prelude.{◌≡◌, ◌≤◌, length, Ok, IfOk, IfErr, OnOk};
ghost use Rattle.pv_model.specs.declared.limits.TheConstants.{SCHEDULE_LINES};
ghost use Rattle.pv_questions.specs.Answers.{fair_text_of, last_state, notes_of_inputs, own_started, run_started, started_under, whole_started};
ghost use Rattle.pv_questions.specs.Failures.{IsFailureOf};
ghost use Rattle.pv_run.specs.Run.{started_from};

use crate::failure::{Failure, Refusal};
use crate::input::{Format, Input, Inputs, Turns};
use crate::notes::{has_init, notes_of};
use crate::question::Question;
use crate::schedules::first_turns;
use crate::trees::{session_on, store_of};
use pv_policy::needs::write_turns;
use pv_run::session_crate::{Session, pass_schedule};
use pv_run::{Ready, start_bundle, start_on};
use pv_streams::Gathered;
use std::alloc::{AllocError, Global};

/// The maximum number of steps of the fair schedule, which has a line for each: that of the lines of a schedule.
pub const FAIR_STEPS: u32 = 65_536;

// The start of a run: the machine before its first step, and the turns.
#[derive(Drop)]
pub(crate) struct Run {
    pub(crate) session: Session,
    pub(crate) turns: Vec<(u32, u32)>,
}

// Returns a copy of an input.
fn copy_of(alloc: Global, input: &Input) -> Result<Input, AllocError>
    ensures { IfOk result (λ copy. (copy.format ≡ input.now.format) × (copy.bytes.items ≡ input.now.bytes.items)) }
{
    let mut bytes = Vec::new(alloc);
    bytes.extend_from_slice(&input.bytes)?;
    let format = input.format;
    Ok(Input { format, bytes })
}

// Returns the text of the fair schedule of the machine on the tree of an input.
fn fair_text(alloc: Global, input: &Input) -> Result<Vec<u8>, Failure>
    ensures text { IfOk result (λ text. fair_text_of input.now.format input.now.bytes.items ≡ Ok text.items) }
    ensures refused { IfErr result (IsFailureOf (fair_text_of input.now.format input.now.bytes.items)) }
{
    let mut session = session_on(alloc, copy_of(alloc, input)?)?;
    let mut text = Gathered::new(alloc);
    match write_turns(alloc, &mut session, 1, FAIR_STEPS, &mut text) {
        Ok(()) => Ok(text.bytes),
        Err(_) => Err(Failure::Memory),
    }
}

// Returns the start of the run of a schedule on the tree of an input.
fn ready_under(alloc: Global, input: Input, schedule: &[u8], listed: bool) -> Result<Ready, Failure>
    ensures started { IfOk result (λ r. started_under input.format input.bytes.items schedule.now ≡ Ok (started_from r.session r.schedule)) }
    ensures refused { IfErr result (IsFailureOf (started_under input.format input.bytes.items schedule.now)) }
{
    let store = store_of(alloc, input, listed)?;
    Ok(start_on(alloc, store, schedule)?)
}

// Returns the start of the run of an input under its own schedule.
fn ready_alone(alloc: Global, input: Input) -> Result<Ready, Failure>
    ensures started { IfOk result (λ r. own_started input.format input.bytes.items ≡ Ok (started_from r.session r.schedule)) }
    ensures refused { IfErr result (IsFailureOf (own_started input.format input.bytes.items)) }
{
    match input.format {
        Format::Text => Ok(start_bundle(alloc, &input.bytes)?),
        Format::Image => {
            let _store = store_of(alloc, input, false)?;
            Err(Failure::Refused(Refusal::Unscheduled))
        }
    }
}

// Returns the start of the whole run of an input.
fn ready(alloc: Global, input: Input, turns: Turns, listed: bool) -> Result<Ready, Failure>
    ensures started { IfOk result (λ r. whole_started input.format input.bytes.items turns ≡ Ok (started_from r.session r.schedule)) }
    ensures refused { IfErr result (IsFailureOf (whole_started input.format input.bytes.items turns)) }
{
    match turns {
        Turns::Own => ready_alone(alloc, input),
        Turns::Text(text) => ready_under(alloc, input, &text, listed),
        Turns::Fair => {
            let text = fair_text(alloc, &input)?;
            ready_under(alloc, input, &text, listed)
        }
    }
}

// Returns the start of a run, whose schedule is cut. `listed` says whether all directories will be listed.
pub(crate) fn started(alloc: Global, inputs: Inputs, listed: bool) -> Result<Run, Failure>
    ensures started { IfOk result (λ run. run_started inputs ≡ Ok (started_from run.session run.turns.items)) }
    ensures few { IfOk result (λ run. length run.turns.items ≤ SCHEDULE_LINES) }
    ensures refused { IfErr result (IsFailureOf (run_started inputs)) }
{
    let Inputs {
        input,
        turns,
        steps,
    } = inputs;
    let Ready { session, schedule } = ready(alloc, input, turns, listed)?;
    let turns = first_turns(alloc, schedule.turns(), steps)?;
    Ok(Run { session, turns })
}

// Returns whether the answer to a question lists all files.
fn lists_all(question: Question<'_>) -> bool {
    matches!(
        question,
        Question::Reach(_) | Question::Audit(None) | Question::Reasons(None)
    )
}

// Returns the machine after the run of a question, and replaces the notes by those beside its answer.
pub(crate) fn after(
    alloc: Global,
    question: Question<'_>,
    inputs: Inputs,
    notes: &mut Vec<u8>,
) -> Result<Session, Failure>
    ensures left { IfOk result (λ session. IfOk (run_started inputs) (λ it. session ≡ last_state it)) }
    ensures noted { OnOk result (notes_of_inputs question.entry inputs ≡ Ok notes.new.items) }
    ensures refused { IfErr result (IsFailureOf (run_started inputs)) }
{
    let Run { mut session, turns } = started(alloc, inputs, lists_all(question))?;
    let is_loaded = has_init(session.parts().tree());
    pass_schedule(alloc, &mut session, &turns)?;
    *notes = notes_of(alloc, question, is_loaded, &session)?;
    Ok(session)
}
