//! Answers, from bytes to bytes.
//!
//! `answer` has a function for each question. It writes the answer, and `answer` flushes it once.
ghost use Rattle.std.specs.Prelude.{◌≡◌, Ok, OnOk, Err, IfOk, None, Some, option_map};
ghost use Rattle.pv_model.specs.Answers.Reach.{reach_of_one};
ghost use Rattle.pv_model.specs.Machine.{answer_bytes};
ghost use Rattle.pv_model.specs.Sealed.{audit};
ghost use Rattle.pv_questions.specs.Answered.{WritesAnswer, Flushes, IsWritten, StopsAnswer, StopsExactly, StopsSearch, IsResultOfEnd};
ghost use Rattle.pv_questions.specs.Answers.{IsOfState, IsSearch, answer_by, answer_to, audit_answer, end_of_comparison, end_of_search, notes_of_inputs, of_audit, of_file, of_verdict, process_answer, reach_answer, run_started, search_answer, search_is_complete, search_lines, state_answer};
ghost use Rattle.pv_questions.specs.Files.{cat_of};
ghost use Rattle.pv_questions.specs.Reasons.{audit_reasons, reasons_at};
ghost use Rattle.pv_questions.specs.declared.failure.Failure.TheVariants.{Memory};
ghost use Rattle.pv_questions.specs.declared.input.Turns.TheVariants.{Own};
ghost use Rattle.pv_streams.specs.declared.stop.Stop.TheVariants.{Memory as NoStepMemory};
ghost use Rattle.pv_streams.specs.Sinks.{FailsBy, WritesOr};

use crate::failure::{Failure, Refusal, Target};
use crate::file::{file_at, write_file};
use crate::input::{Input, Inputs};
use crate::question::Question;
use crate::reasons::{audited_node, write_reasons, write_reasons_report};
use crate::starting::{Run, after, started};
use crate::trees::{first_machine_on, session_on, store_of};
use pv_access::write_access;
use pv_compare::Compared;
use pv_compare::explore::{FirstMachine, Progress, write_graph};
use pv_explain::{Explainer, Extra, explain_schedule};
use pv_exposure::write_exposure;
use pv_listing::write_listing;
use pv_policy::answers::{write_reach, write_reach_of, write_state};
use pv_policy::needs::{write_demands, write_turns};
use pv_policy::reduced::SearchKind;
use pv_policy::write_policy;
use pv_run::session_crate::{Session, run_schedule};
use pv_run::{write_report, write_verdict};
use pv_streams::{Sink, Stop};
use pv_tree::Tree;
use std::alloc::Global;

// How a text that was written ends.
#[derive(Clone, Copy)]
pub(crate) enum End {
    // It is complete.
    Complete,
    // It says that a search left a state out.
    Incomplete,
    // It says that a step differs.
    Different,
}

impl End {
    // Returns the end of the answer of a search.
    fn of_search(is_complete: bool) -> End
        ensures { result ≡ end_of_search is_complete }
    {
        if is_complete {
            End::Complete
        } else {
            End::Incomplete
        }
    }

    // Returns the end of a comparison.
    pub(crate) fn of_comparison(compared: Compared) -> End
        ensures { result ≡ end_of_comparison compared }
    {
        match compared {
            Compared::Same => End::Complete,
            Compared::Incomplete => End::Incomplete,
            Compared::Different => End::Different,
        }
    }

    // Returns the result of a command that wrote the text.
    fn result(self) -> Result<(), Failure>
        ensures { IsResultOfEnd self result }
    {
        match self {
            End::Complete => Ok(()),
            End::Incomplete => Err(Failure::Incomplete),
            End::Different => Err(Failure::Different),
        }
    }
}

// Flushes the prefix of a text, if there is no memory for the rest.
fn flushed_prefix<W: Sink>(failure: Failure, out: &mut W) -> Result<(), Failure>
    ensures { Flushes W.Sink (Err failure) out.old out.new result }
{
    match failure {
        Failure::Memory => {
            out.flush()?;
            Err(Failure::Memory)
        }
        _ => Err(failure),
    }
}

// Flushes what was written: a whole text, or a prefix of it if there is no memory.
pub(crate) fn flushed<W: Sink>(end: Result<End, Failure>, out: &mut W) -> Result<(), Failure>
    ensures { Flushes W.Sink end out.old out.new result }
{
    match end {
        Ok(end) => {
            out.flush()?;
            end.result()
        }
        Err(failure) => flushed_prefix(failure, out),
    }
}

// Writes the trace of a run.
fn write_trace<W: Sink>(alloc: Global, inputs: Inputs, out: &mut W) -> Result<End, Failure>
    ensures written { IsWritten W.Sink (answer_to Question.Trace inputs) out.old out.new result }
    ensures exact { result ≡ Err Memory → StopsExactly (run_started inputs) (W.written out.old) (W.written out.new) }
{
    let Run { mut session, turns } = started(alloc, inputs, false)?;
    run_schedule(alloc, &mut session, &turns, out)?;
    Ok(End::Complete)
}

// Writes the explained trace of a run, with the lines that `extra` adds.
fn write_steps<W: Sink>(
    alloc: Global,
    extra: Extra,
    inputs: Inputs,
    out: &mut W,
) -> Result<End, Failure>
    ensures { IsWritten W.Sink (answer_to (Question.Explain extra.errors extra.allowed) inputs) out.old out.new result }
{
    let Run { mut session, turns } = started(alloc, inputs, false)?;
    let explainer = Explainer::new(alloc)?;
    explain_schedule(alloc, &mut session, explainer, &turns, extra, out)?;
    Ok(End::Complete)
}

// Writes the demands of each program in a run.
fn write_needs<W: Sink>(
    alloc: Global,
    granted: bool,
    inputs: Inputs,
    out: &mut W,
) -> Result<End, Failure>
    ensures { IsWritten W.Sink (answer_to (Question.Needs granted) inputs) out.old out.new result }
{
    let Run { mut session, turns } = started(alloc, inputs, false)?;
    write_demands(alloc, &mut session, &turns, granted, out)?;
    Ok(End::Complete)
}

// Writes the permissions of the live process with a number.
fn write_permissions_of<W: Sink>(session: &Session, pid: u32, out: &mut W) -> Result<End, Failure>
    ensures { IsWritten W.Sink (process_answer (reach_of_one session.now pid)) out.old out.new result }
{
    let parts = session.parts();
    match parts.live_record(pid) {
        Some(_) => {
            write_reach_of(out, parts, pid)?;
            Ok(End::Complete)
        }
        None => Err(Failure::Refused(Refusal::NoProcess)),
    }
}

// Writes the permissions of each live process, or of the one with a number.
fn write_permissions<W: Sink>(
    session: &Session,
    pid: Option<u32>,
    out: &mut W,
) -> Result<End, Failure>
    ensures { IsWritten W.Sink (reach_answer session.now pid) out.old out.new result }
{
    match pid {
        Some(pid) => write_permissions_of(session, pid, out),
        None => {
            write_reach(out, session.parts())?;
            Ok(End::Complete)
        }
    }
}

// Writes the verdict on the file at a path.
fn write_audit_of<W: Sink>(session: &Session, path: &[u8], out: &mut W) -> Result<End, Failure>
    ensures { IsWritten W.Sink (of_verdict (audit session.now path.now)) out.old out.new result }
{
    match session.audit(path) {
        Ok(found) => {
            write_verdict(out, &found)?;
            Ok(End::Complete)
        }
        Err(fault) => Err(Failure::Refused(Refusal::NotAudited(fault))),
    }
}

// Writes the verdict on the file at a path, or on all files.
fn write_audit<W: Sink>(
    alloc: Global,
    session: &Session,
    path: Option<&str>,
    out: &mut W,
) -> Result<End, Failure>
    ensures { IsWritten W.Sink (audit_answer session.now path.entry) out.old out.new result }
{
    match path {
        Some(path) => write_audit_of(session, path.as_bytes(), out),
        None => {
            write_report(alloc, session, out)?;
            Ok(End::Complete)
        }
    }
}

// Writes the verdict on the file of a node, with every reason.
fn write_reasons_at<W: Sink>(session: &Session, node: u16, out: &mut W) -> Result<End, Failure>
    ensures { IsWritten W.Sink (of_audit (reasons_at session.now (Ok node))) out.old out.new result }
{
    match session.audit_node(node) {
        Ok(found) => {
            write_reasons(out, session.parts(), None, node, &found)?;
            Ok(End::Complete)
        }
        Err(fault) => Err(Failure::Refused(Refusal::NotAudited(fault))),
    }
}

// Writes the verdict on the file at a path, with every reason.
fn write_reasons_of<W: Sink>(session: &Session, path: &[u8], out: &mut W) -> Result<End, Failure>
    ensures { IsWritten W.Sink (of_audit (audit_reasons session.now (Some path.now))) out.old out.new result }
{
    match audited_node(session.parts().tree(), path) {
        Ok(node) => write_reasons_at(session, node, out),
        Err(fault) => Err(Failure::Refused(Refusal::NotAudited(fault))),
    }
}

// Writes the verdict on the file at a path, or on all files, with every reason.
fn write_every_reason<W: Sink>(
    alloc: Global,
    session: &Session,
    path: Option<&str>,
    out: &mut W,
) -> Result<End, Failure>
    ensures { IsWritten W.Sink (of_audit (audit_reasons session.now (option_map (λ p. p.now) path.entry))) out.old out.new result }
{
    match path {
        Some(path) => write_reasons_of(session, path.as_bytes(), out),
        None => {
            write_reasons_report(alloc, session, out)?;
            Ok(End::Complete)
        }
    }
}

// Writes the answer to a question about the state of a machine.
fn write_about<W: Sink>(
    alloc: Global,
    question: Question<'_>,
    session: &Session,
    out: &mut W,
) -> Result<End, Failure>
    ensures { IsWritten W.Sink (state_answer question.entry session.now) out.old out.new result }
{
    match question {
        Question::Reach(pid) => write_permissions(session, pid, out),
        Question::Audit(path) => write_audit(alloc, session, path, out),
        Question::Reasons(path) => write_every_reason(alloc, session, path, out),
        _ => {
            write_state(out, session.parts())?;
            Ok(End::Complete)
        }
    }
}

// Writes the answer to a question about the state after a run.
fn write_after<W: Sink>(
    alloc: Global,
    question: Question<'_>,
    inputs: Inputs,
    notes: &mut Vec<u8>,
    out: &mut W,
) -> Result<End, Failure>
    requires { IsOfState question }
    ensures written { IsWritten W.Sink (answer_to question.entry inputs) out.old out.new result }
    ensures noted { OnOk result (notes_of_inputs question.entry inputs ≡ Ok notes.new.items) }
{
    let session = after(alloc, question, inputs, notes)?;
    write_about(alloc, question, &session, out)
}

// Writes the listing of the tree of an input.
fn write_names<W: Sink>(alloc: Global, input: Input, out: &mut W) -> Result<End, Failure>
    ensures { IsWritten W.Sink (answer_by input.format input.bytes.items Own None Question.Listing) out.old out.new result }
{
    let store = store_of(alloc, input, true)?;
    write_listing(alloc, store.tree(), out)?;
    Ok(End::Complete)
}

// Writes the bytes of the file at a path.
fn write_file_at<W: Sink>(tree: &Tree, path: &[u8], out: &mut W) -> Result<End, Failure>
    ensures { IsWritten W.Sink (of_file (cat_of tree.now.tree path.now)) out.old out.new result }
{
    match file_at(tree, path) {
        Ok(node) => {
            write_file(out, tree, node)?;
            Ok(End::Complete)
        }
        Err(fault) => Err(Failure::Refused(Refusal::NotFile(fault))),
    }
}

// Writes the bytes of the file at a path in the tree of an input.
fn write_contents<W: Sink>(
    alloc: Global,
    path: &str,
    input: Input,
    out: &mut W,
) -> Result<End, Failure>
    ensures { IsWritten W.Sink (answer_by input.format input.bytes.items Own None (Question.File path.entry)) out.old out.new result }
{
    let store = store_of(alloc, input, false)?;
    write_file_at(store.tree(), path.as_bytes(), out)
}

// Writes a fair schedule of the machine on the tree of an input.
fn write_schedule<W: Sink>(
    alloc: Global,
    slice: u32,
    steps: u32,
    input: Input,
    out: &mut W,
) -> Result<End, Failure>
    ensures { IsWritten W.Sink (answer_by input.format input.bytes.items Own None (Question.Turns slice steps)) out.old out.new result }
{
    let mut session = session_on(alloc, input)?;
    write_turns(alloc, &mut session, slice.max(1), steps, out)?;
    Ok(End::Complete)
}

// Writes the lines of a search of a machine. Returns whether it left no state out.
fn write_found<W: Sink, P: Progress>(
    alloc: Global,
    question: Question<'_>,
    machine: &FirstMachine,
    progress: &mut P,
    out: &mut W,
) -> Result<bool, Stop>
    requires { IsSearch question }
    ensures written { WritesOr W.Sink FailsBy (answer_bytes (search_lines question.entry machine.now)) out.old out.new result }
    ensures complete { IfOk result (λ complete. complete ≡ search_is_complete question.entry machine.now) }
    ensures stopped { result ≡ Err NoStepMemory → StopsSearch question.entry (search_answer question.entry machine.now) (W.written out.old) (W.written out.new) }
{
    match question {
        Question::Access {
            kind,
            files,
            states,
        } => {
            let paths = files.to_array();
            write_access(alloc, kind, machine, states.max(1), &paths, progress, out)
        }
        Question::Exposure {
            kind,
            files,
            states,
        } => {
            let paths = files.to_array();
            write_exposure(alloc, kind, machine, states.max(1), &paths, progress, out)
        }
        Question::Policy {
            kind,
            granted,
            states,
        } => write_policy(alloc, kind, granted, machine, states.max(1), progress, out),
        Question::Graph { tree, states } => {
            write_graph(alloc, machine, states.max(1), tree, progress, out)
        }
        Question::Explore { kind, states } => {
            kind.write_explore(alloc, machine, states.max(1), progress, out)
        }
        _ => Ok(true),
    }
}

// Writes the answer of a search of all schedules.
fn write_search<W: Sink, P: Progress>(
    alloc: Global,
    question: Question<'_>,
    input: Input,
    progress: &mut P,
    out: &mut W,
) -> Result<End, Failure>
    requires { IsSearch question }
    ensures written { IsWritten W.Sink (answer_by input.format input.bytes.items Own None question.entry) out.old out.new result }
    ensures stopped { result ≡ Err Memory → StopsSearch question.entry (answer_by input.format input.bytes.items Own None question.entry) (W.written out.old) (W.written out.new) }
{
    let machine = first_machine_on(alloc, input)?;
    let is_complete = write_found(alloc, question, &machine, progress, out)?;
    Ok(End::of_search(is_complete))
}

// Writes the answer to a question, and leaves its last bytes buffered.
fn write_answer<W: Sink, P: Progress>(
    alloc: Global,
    question: Question<'_>,
    inputs: Inputs,
    notes: &mut Vec<u8>,
    progress: &mut P,
    out: &mut W,
) -> Result<End, Failure>
    ensures written { IsWritten W.Sink (answer_to question.entry inputs) out.old out.new result }
    ensures noted { OnOk result (notes_of_inputs question.entry inputs ≡ Ok notes.new.items) }
    ensures stopped { result ≡ Err Memory → StopsAnswer question.entry inputs (W.written out.old) (W.written out.new) }
{
    notes.clear();
    match question {
        Question::Trace => write_trace(alloc, inputs, out),
        Question::Explain { errors, allowed } => {
            write_steps(alloc, Extra { errors, allowed }, inputs, out)
        }
        Question::Needs { granted } => write_needs(alloc, granted, inputs, out),
        Question::State | Question::Reach(_) | Question::Audit(_) | Question::Reasons(_) => {
            write_after(alloc, question, inputs, notes, out)
        }
        Question::Listing => write_names(alloc, inputs.input, out),
        Question::File(path) => write_contents(alloc, path, inputs.input, out),
        Question::Turns { slice, steps } => write_schedule(alloc, slice, steps, inputs.input, out),
        Question::Explore { .. }
        | Question::Access { .. }
        | Question::Exposure { .. }
        | Question::Policy { .. }
        | Question::Graph { .. } => write_search(alloc, question, inputs.input, progress, out),
    }
}

/// Answers a question about the tree of an input, or about a run of the machine that boots on it.
///
/// The input, the schedule and the program of `init` are checked in this order, as far as the question needs them. Then
/// the steps are made and the answer is written; for `Trace` and `Explain`, the lines of each step are written before the
/// next step is made, and `Explore` and `Access` write as they find. On success, `out` received exactly the text of the
/// answer, and `notes` is replaced by the notes on it: lines for a person about an answer that could be misread. A
/// search reports its progress to `progress`.
///
/// # Errors
///
/// - `Refused`: the first error of the inputs, in the order of the checks; or the process or file that the question
///   names does not exist. Nothing was written.
/// - `Memory`: there is no memory. `out` received a prefix of the text: for `Trace` exactly the lines of the steps before
///   an execve(2); for `Explore`, `Access` and `Graph` a proper prefix; for `Exposure` and `Policy` nothing.
/// - `Write`: a write to the output failed. `out` received a prefix of the text, or nothing.
/// - `Incomplete`: a search left a state out. `out` received exactly the text.
///
/// Except after `Write`, everything that was written is flushed.
pub fn answer<W: Sink, P: Progress>(
    alloc: Global,
    question: Question<'_>,
    inputs: Inputs,
    notes: &mut Vec<u8>,
    progress: &mut P,
    out: &mut W,
) -> Result<(), Failure>
    ensures answered { WritesAnswer W.Sink (answer_to question.entry inputs) out.old out.new result }
    ensures noted { OnOk result (notes_of_inputs question.entry inputs ≡ Ok notes.new.items) }
    ensures stopped { result ≡ Err Memory → StopsAnswer question.entry inputs (W.written out.old) (W.written out.new) }
{
    let end = write_answer(alloc, question, inputs, notes, progress, out);
    flushed(end, out)
}
