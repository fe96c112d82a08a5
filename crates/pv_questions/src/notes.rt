//! Notes on the answers about the state after a run: lines for a person.
ghost use Rattle.std.specs.Prelude.{◌≡◌, ◌+◌, ◌++◌, IfOk, OnOk, Some, filter, flat_map, option_map};
ghost use Rattle.pv_model.specs.Machine.{audit_node as audit_of, process_at};
ghost use Rattle.pv_model_questions.specs.Notes.{any_below, audit_notes, ended_notes, has_init, has_dropped_unveil, drops_unveil, shows_lock_reason, is_shown_at, live_numbers, note_line, pledge_note, pledge_notes};
ghost use Rattle.pv_questions.specs.Answers.{notes_of, number_if_live, record_has_dropped_unveil};

use crate::question::Question;
use itoa::Buffer;
use pv_model::limits::ROOT;
use pv_model::{AuditFault, Promise, Verdict, Why};
use pv_policy::calls_state::Parts;
use pv_policy::calls_state::procs::ProcessRecord;
use pv_policy::calls_state::promises::{Pledge, has};
use pv_run::session_crate::Session;
use pv_tree::Tree;
use std::alloc::{AllocError, Global};

/// Returns whether the root of a tree has an entry `init`.
pub(crate) fn has_init(tree: &Tree) -> bool
    ensures { result ≡ has_init tree.now.tree }
{
    // The contract of `invariant` states that the root is a directory.
    tree.invariant();
    tree.find(ROOT, b"init").is_some()
}

// Appends the number of a process, if it is live.
fn push_if_live(parts: &Parts, pid: u32, pids: &mut Vec<u32>) -> Result<(), AllocError>
    ensures { OnOk result (pids.new.items ≡ pids.old.items ++ number_if_live pid (process_at parts.now pid)) }
{
    if parts.live_record(pid).is_some() {
        pids.push(pid)?;
    }
    Ok(())
}

// Returns the numbers of the live processes, in order.
fn live_numbers(alloc: Global, parts: &Parts) -> Result<Vec<u32>, AllocError>
    ensures { IfOk result (λ pids. pids.items ≡ live_numbers parts.now) }
{
    // The contract of `invariant` states that the numbers ascend.
    parts.invariant();
    let mut pids = Vec::new(alloc);
    let mut last = 0;
    while let Some(pid) = parts.processes().next_number(last) {
        push_if_live(parts, pid, &mut pids)?;
        last = pid;
    }
    Ok(pids)
}

// Returns whether a process with this pledge may open files, cannot call unveil(2), and keeps its table over execve(2).
fn drops_unveil(pledge: &Pledge) -> bool
    ensures { result ≡ drops_unveil pledge.now.promises pledge.now.execpromises }
{
    let Some(held) = pledge.promises() else {
        return false;
    };
    !has(held, Promise::Unveil)
        && (has(held, Promise::Rpath) || has(held, Promise::Exec) || has(held, Promise::Cpath))
        && (!has(held, Promise::Exec) || pledge.execpromises().is_some())
}

// Returns whether the record of a process has a table that is not locked, and the process has dropped unveil(2).
fn record_has_dropped_unveil(process: &ProcessRecord) -> bool
    ensures { result ≡ record_has_dropped_unveil process.now }
{
    !process.unveiled.is_empty() && !process.unveiled.is_locked() && drops_unveil(&process.pledge)
}

// Returns whether a live process has a table that is not locked, and has dropped unveil(2).
fn has_dropped_unveil(parts: &Parts, pid: u32) -> bool
    ensures { result ≡ has_dropped_unveil (process_at parts.now pid) }
{
    match parts.live_record(pid) {
        Some(process) => record_has_dropped_unveil(process),
        None => false,
    }
}

// Returns the live processes that have a table that is not locked and have dropped unveil(2), in order.
fn without_unveil(alloc: Global, parts: &Parts) -> Result<Vec<u32>, AllocError>
    ensures { IfOk result (λ pids. pids.items ≡ filter (λ pid. has_dropped_unveil (process_at parts.now pid)) (live_numbers parts.now)) }
{
    let mut pids = live_numbers(alloc, parts)?;
    pids.retain(|pid| has_dropped_unveil(parts, *pid));
    Ok(pids)
}

// Returns whether the lines of an audit of a file give `not locked` as a reason of a process whose table is not
// locked.
fn is_shown(every: bool, pid: u32, found: Result<Verdict, AuditFault>) -> bool
    ensures { result ≡ shows_lock_reason every pid found }
{
    match found {
        Ok(Verdict::Exposed(leak)) => {
            every || leak.pid == pid && matches!(leak.why, Why::NotLocked)
        }
        Ok(Verdict::Sealed | Verdict::Frozen) | Err(_) => false,
    }
}

// Returns the same for the audit of all files.
fn is_shown_in_report(session: &Session, every: bool, pid: u32) -> bool
    ensures { result ≡ any_below (λ n. shows_lock_reason every pid (audit_of session.now (Some n))) (session.now.tree.inodes + 1) }
{
    for node in 0..session.parts().tree().sizes().inodes + 1 {
        if is_shown(every, pid, session.audit_node(node)) {
            return true;
        }
    }
    false
}

// Returns the same for the audit of the file at a path or, without a path, of all files.
fn is_shown_at(session: &Session, every: bool, pid: u32, path: Option<&str>) -> bool
    ensures { result ≡ is_shown_at every pid session.now (option_map (λ p. p.now) path.entry) }
{
    match path {
        Some(path) => is_shown(every, pid, session.audit(path.as_bytes())),
        None => is_shown_in_report(session, every, pid),
    }
}

// Appends a note.
fn push_note(text: &mut Vec<u8>, words: &[u8]) -> Result<(), AllocError>
    ensures { OnOk result (text.new.items ≡ text.old.items ++ note_line words.now) }
{
    text.extend_from_slice(b"pvsim: note: ")?;
    text.extend_from_slice(words)?;
    text.extend_from_slice(b"\n")
}

// Appends the note about a process that has dropped unveil(2).
fn push_pledge_note(text: &mut Vec<u8>, pid: u32) -> Result<(), AllocError>
    ensures { OnOk result (text.new.items ≡ text.old.items ++ pledge_note pid) }
{
    let mut buffer = Buffer::new();
    text.extend_from_slice(b"pvsim: note: process ")?;
    text.extend_from_slice(buffer.format(pid).as_bytes())?;
    text.extend_from_slice(
        b": pledged without unveil: add unveil(NULL, NULL) before the pledge, and the verdict covers it\n",
    )
}

// Appends the notes about processes that have dropped unveil(2).
fn push_notes_of(text: &mut Vec<u8>, pids: &[u32]) -> Result<(), AllocError>
    ensures { OnOk result (text.new.items ≡ text.old.items ++ flat_map pledge_note pids.now) }
{
    for pid in pids {
        push_pledge_note(text, *pid)?;
    }
    Ok(())
}

// Appends the notes about each process that has dropped unveil(2) and whose reason `not locked` an audit shows.
fn push_pledge_notes(
    alloc: Global,
    text: &mut Vec<u8>,
    session: &Session,
    every: bool,
    path: Option<&str>,
) -> Result<(), AllocError>
    ensures { OnOk result (text.new.items ≡ text.old.items ++ pledge_notes every session.now (option_map (λ p. p.now) path.entry)) }
{
    let pids = without_unveil(alloc, session.parts())?;
    let Some((first, others)) = pids.as_slice().split_first() else {
        return Ok(());
    };
    if !is_shown_at(session, every, *first, path) {
        return Ok(());
    }
    push_pledge_note(text, *first)?;
    if every {
        return push_notes_of(text, others);
    }
    Ok(())
}

// Appends the note that process 1 had no program, or that no process is live.
fn push_ended_note(
    alloc: Global,
    text: &mut Vec<u8>,
    is_loaded: bool,
    session: &Session,
) -> Result<(), AllocError>
    ensures { OnOk result (text.new.items ≡ text.old.items ++ ended_notes is_loaded session.now) }
{
    if !is_loaded {
        return push_note(text, b"the image has no /init");
    }
    if live_numbers(alloc, session.parts())?.is_empty() {
        return push_note(text, b"no process is live: the run has ended");
    }
    Ok(())
}

// Returns the notes on the verdicts of an audit, with every reason if `every`.
fn audit_notes(
    alloc: Global,
    every: bool,
    is_loaded: bool,
    session: &Session,
    path: Option<&str>,
) -> Result<Vec<u8>, AllocError>
    ensures { IfOk result (λ notes. notes.items ≡ audit_notes every is_loaded session.now (option_map (λ p. p.now) path.entry)) }
{
    let mut text = Vec::new(alloc);
    push_ended_note(alloc, &mut text, is_loaded, session)?;
    push_pledge_notes(alloc, &mut text, session, every, path)?;
    Ok(text)
}

/// Returns the notes on the answer to a question about a state after a run. `is_loaded` says whether the root of
/// the first tree has an entry `init`.
///
/// # Errors
///
/// `AllocError`, if there is no memory.
pub(crate) fn notes_of(
    alloc: Global,
    question: Question<'_>,
    is_loaded: bool,
    session: &Session,
) -> Result<Vec<u8>, AllocError>
    ensures { IfOk result (λ notes. notes.items ≡ notes_of question.entry is_loaded session.now) }
{
    match question {
        Question::Audit(path) => audit_notes(alloc, false, is_loaded, session, path),
        Question::Reasons(path) => audit_notes(alloc, true, is_loaded, session, path),
        Question::State | Question::Reach(_) => {
            let mut text = Vec::new(alloc);
            push_ended_note(alloc, &mut text, is_loaded, session)?;
            Ok(text)
        }
        _ => Ok(Vec::new(alloc)),
    }
}
