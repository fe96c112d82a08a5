//! The reasons of findings.
ghost use Rattle.std.specs.Prelude.{◌≡◌, IfOk, Some, option_map, true};
ghost use Rattle.pv_exposure.specs.Stored.{IsVisit, located_in_visit};
ghost use Rattle.pv_model.specs.Machine.{first_of, is_file_at, leaks, program_of, Process, process_at};
ghost use Rattle.pv_model_questions.specs.Exposure.{edit_reason, leak_reason, peer_reason, read_reason, reason_by};

use crate::edit::edit;
use crate::files::StateFiles;
use pv_audit::leak;
use pv_model::Why;
use pv_model_questions::{EditReason, FindingKind};
use pv_named_files::FirstPaths;
use pv_programs::calls_state::Parts;
use pv_streams::{Decimal, Failed, Fragment, Plain, Sink, text_of};
use std::alloc::{AllocError, Global};

/// A live process of a visited state.
#[derive(Clone, Copy)]
pub(crate) struct Visit<'a> {
    /// The first tree, and the files that findings are about.
    pub(crate) paths: &'a FirstPaths<'a>,
    /// The state.
    pub(crate) parts: &'a Parts,
    /// The files of the state.
    pub(crate) files: &'a StateFiles,
    /// The schedule that leads to the state.
    pub(crate) witness: &'a [u32],
    /// The number of the process.
    pub(crate) pid: u32,
    /// The file that the next step of the process reads.
    pub(crate) read: Option<u16>,
}

// The reason why a process is not closed to a file.
#[derive(Clone, Copy)]
struct WhyText(Why);

impl Fragment for WhyText {
    ghost use Rattle.pv_model.specs.Sealed.{why_text};

    ghost text = { λ p. why_text p.0 };

    fn write<W: Sink>(&self, out: &mut W) -> Result<(), Failed> {
        match self.0 {
            Why::Reads(number) => {
                (Plain(b"reads descriptor "), Decimal(u32::from(number))).write(out)
            }
            Why::NoTable => Plain(b"no table").write(out),
            Why::NotLocked => Plain(b"not locked").write(out),
            Why::Gives(number) => {
                (
                    Plain(b"entry "),
                    Decimal(u32::from(number)),
                    Plain(b" gives"),
                )
                    .write(out)
            }
            Why::Above(number) => {
                (
                    Plain(b"entry "),
                    Decimal(u32::from(number)),
                    Plain(b" above"),
                )
                    .write(out)
            }
            Why::Exec => Plain(b"may exec").write(out),
        }
    }
}

// The reason why a process is not fixed to a file.
#[derive(Clone, Copy)]
struct EditText(EditReason);

impl Fragment for EditText {
    ghost use Rattle.pv_model_questions.specs.Fixed.{edit_text};

    ghost text = { λ p. edit_text p.0 };

    fn write<W: Sink>(&self, out: &mut W) -> Result<(), Failed> {
        match self.0 {
            EditReason::Writes(number) => {
                (Plain(b"writes descriptor "), Decimal(u32::from(number))).write(out)
            }
            EditReason::NoTable => Plain(b"no table").write(out),
            EditReason::NotLocked => Plain(b"not locked").write(out),
            EditReason::Gives(number) => {
                (
                    Plain(b"entry "),
                    Decimal(u32::from(number)),
                    Plain(b" gives"),
                )
                    .write(out)
            }
            EditReason::Above(number) => {
                (
                    Plain(b"entry "),
                    Decimal(u32::from(number)),
                    Plain(b" above"),
                )
                    .write(out)
            }
            EditReason::Exec => Plain(b"may exec").write(out),
        }
    }
}

// Returns the first reason why the process of a visit is not closed to a file.
fn own_leak(visit: &Visit<'_>, node: u16) -> Option<Why>
    requires visit { IsVisit visit.now }
    requires file { is_file_at visit.now.parts.now.tree node ≡ true }
    ensures { (p : Process) → process_at visit.now.parts.now visit.now.pid ≡ Some p → result ≡ first_of (leaks visit.now.parts.now p node) }
{
    // The contract of `invariant` states that the numbers ascend.
    visit.parts.invariant();
    let Some((pid, why)) = visit.files.leak(node) else {
        return None;
    };
    if pid == visit.pid {
        Some(why)
    } else {
        leak(visit.parts, visit.pid, node)
    }
}

// Returns the text of the first reason why the process is not closed to a file.
fn leak_reason(alloc: Global, visit: &Visit<'_>, node: u16) -> Result<Option<Vec<u8>>, AllocError>
    requires visit { IsVisit visit.now }
    requires file { is_file_at visit.now.parts.now.tree node ≡ true }
    ensures { IfOk result (λ reason. (p : Process) → process_at visit.now.parts.now visit.now.pid ≡ Some p → option_map (λ t. t.items) reason ≡ leak_reason program_of (located_in_visit visit.now p) node) }
{
    match own_leak(visit, node) {
        Some(why) => Ok(Some(text_of(alloc, &(Plain(b", "), WhyText(why)))?)),
        None => Ok(None),
    }
}

// Returns the text of another process that is not closed to a file to which this one is, with its first reason.
fn peer_reason(alloc: Global, visit: &Visit<'_>, node: u16) -> Result<Option<Vec<u8>>, AllocError>
    requires visit { IsVisit visit.now }
    requires file { is_file_at visit.now.parts.now.tree node ≡ true }
    ensures { IfOk result (λ reason. (p : Process) → process_at visit.now.parts.now visit.now.pid ≡ Some p → option_map (λ t. t.items) reason ≡ peer_reason program_of (located_in_visit visit.now p) node) }
{
    let Some((pid, why)) = visit.files.leak(node) else {
        return Ok(None);
    };
    if own_leak(visit, node).is_some() {
        return Ok(None);
    }
    let text = (
        Plain(b", process "),
        Decimal(pid),
        Plain(b" "),
        WhyText(why),
    );
    Ok(Some(text_of(alloc, &text)?))
}

// Returns the text of the first reason why the process is not fixed to a file.
fn edit_reason(alloc: Global, visit: &Visit<'_>, node: u16) -> Result<Option<Vec<u8>>, AllocError>
    requires visit { IsVisit visit.now }
    requires file { is_file_at visit.now.parts.now.tree node ≡ true }
    ensures { IfOk result (λ reason. (p : Process) → process_at visit.now.parts.now visit.now.pid ≡ Some p → option_map (λ t. t.items) reason ≡ edit_reason program_of (located_in_visit visit.now p) node) }
{
    match edit(visit.parts, visit.pid, node) {
        Some(why) => Ok(Some(text_of(alloc, &(Plain(b", "), EditText(why)))?)),
        None => Ok(None),
    }
}

// Returns no text if the next step of the process reads a file.
fn read_reason(alloc: Global, visit: &Visit<'_>, node: u16) -> Option<Vec<u8>>
    requires { IsVisit visit.now }
    ensures { (p : Process) → process_at visit.now.parts.now visit.now.pid ≡ Some p → option_map (λ t. t.items) result ≡ read_reason program_of (located_in_visit visit.now p) node }
{
    match visit.read {
        Some(read) if read == node => Some(Vec::new(alloc)),
        _ => None,
    }
}

/// Returns the text that follows the lines of a finding of the process of a visit and a file, if there is one.
///
/// # Errors
///
/// `AllocError`, if there is no memory.
pub(crate) fn reason_of(
    alloc: Global,
    kind: FindingKind,
    visit: &Visit<'_>,
    node: u16,
) -> Result<Option<Vec<u8>>, AllocError>
    requires visit { IsVisit visit.now }
    requires file { is_file_at visit.now.parts.now.tree node ≡ true }
    ensures { IfOk result (λ reason. (p : Process) → process_at visit.now.parts.now visit.now.pid ≡ Some p → option_map (λ t. t.items) reason ≡ reason_by program_of (located_in_visit visit.now p) node kind) }
{
    match kind {
        FindingKind::Leak => leak_reason(alloc, visit, node),
        FindingKind::Peer => peer_reason(alloc, visit, node),
        FindingKind::Edit => edit_reason(alloc, visit, node),
        FindingKind::Read => Ok(read_reason(alloc, visit, node)),
    }
}
