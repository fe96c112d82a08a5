//! Steps, with the part of the state before them that their explanations need.
ghost use Rattle.std.specs.Prelude.{◌≡◌, IfOk, OnErr};
ghost use Rattle.pv_step_lines.specs.Made.{IsFit, IsFitCall, IsMade, IsMadeCall, IsMadeInside, line_before_step};
ghost use Rattle.pv_model.specs.Machine.{process_at};
ghost use Rattle.pv_answers.specs.OfProcs.Turns.{CallsNext, RegisterNext};
ghost use Rattle.pv_session.specs.Stopping.{NextLoads};

use crate::before::Before;
use pv_answers::procs::Fetched;
use pv_answers::script::CallTexts;
use pv_model::{CallRef, StepFault};
use pv_session::Session;
use pv_session::calls_plain::answer::Answer;
use std::alloc::Global;

/// A call that was made, with the state before it.
#[derive(Drop)]
pub struct MadeCall<'a> {
    /// The call.
    pub call: CallRef<'a>,
    /// The answer of the call.
    pub answer: Answer,
    /// The part of the state before the call that its explanation needs.
    pub before: Before,
}

/// A step that was made.
#[derive(Drop)]
pub enum MadeStep<'a> {
    /// The process was not live. Nothing was done.
    Gone,
    /// An instruction on registers, by a process that was at this line.
    Register(u16),
    /// A call.
    Call(MadeCall<'a>),
}

impl<'a> MadeStep<'a> {
    /// Returns the line of the process before the step, if it was live.
    pub fn line(&self) -> Option<u16>
        ensures { result ≡ line_before_step self.now }
    {
        match self {
            MadeStep::Gone => None,
            MadeStep::Register(line) => Some(*line),
            MadeStep::Call(made) => Some(made.before.line),
        }
    }
}

/// Carries out the next instruction of a process, which must be an instruction on registers or a jump. Returns the line
/// of the process before it.
pub fn make_register(session: &mut Session, pid: u32) -> u16
    requires { RegisterNext (process_at session.old pid) }
    ensures { IsMadeInside session.old pid result session.new }
{
    let line = session.parts().record(pid).context.line();
    session.register(pid);
    line
}

/// Makes the next call of a process, and captures the state before it.
///
/// # Errors
///
/// `NoMemory`, as for `make_step`. The state is then unchanged.
pub fn make_call<'a>(
    alloc: Global,
    session: &mut Session,
    pid: u32,
    call: CallRef<'a>,
) -> Result<MadeCall<'a>, StepFault>
    requires { CallsNext call (process_at session.old pid) }
    ensures made { IfOk result (λ made. IsMadeCall session.old pid made session.new) }
    ensures fit { IfOk result (λ made. IsFitCall pid made session.new) }
    ensures unchanged { OnErr result (session.new ≡ session.old) }
    ensures memory { OnErr result (NextLoads session.old pid) }
{
    let before = Before::of(session.parts(), pid, call);
    let answer = session.call(alloc, pid, call)?;
    Ok(MadeCall {
        call,
        answer,
        before,
    })
}

/// Makes a step of a process, and captures the state before it. The texts of a call are kept in `texts`.
///
/// # Errors
///
/// `NoMemory`, if there is no memory for the program of an execve(2). The state is then unchanged.
pub fn make_step<'a>(
    alloc: Global,
    session: &mut Session,
    texts: &'a mut CallTexts,
    pid: u32,
) -> Result<MadeStep<'a>, StepFault>
    ensures made { IfOk result (λ made. IsMade session.old pid made session.new) }
    ensures fit { IfOk result (λ made. IsFit pid made session.new) }
    ensures unchanged { OnErr result (session.new ≡ session.old) }
    ensures memory { OnErr result (NextLoads session.old pid) }
{
    match session.parts().processes().fetch(pid, texts) {
        Fetched::Gone => Ok(MadeStep::Gone),
        Fetched::Register => Ok(MadeStep::Register(make_register(session, pid))),
        Fetched::Call(call) => Ok(MadeStep::Call(make_call(alloc, session, pid, call)?)),
    }
}
