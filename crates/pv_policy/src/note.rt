//! A call of a process in a state, recorded.
ghost use Rattle.std.specs.Prelude.{◌≡◌, ◌&&◌, if◌then◌else◌, not, [], is_some, IsSome, OnOk, Some};
ghost use Rattle.pv_laws_states.specs.States.{IsValid};
ghost use Rattle.pv_model.specs.Machine.{answer, is_unveil, call_of, program_of, Process, process_at};
ghost use Rattle.pv_policy.specs.Usage.{and_call, noted_by, request_of};

use crate::asked::{asked_by, entries_of};
use crate::noted::{Granted, NotedCall};
use crate::program_use::{ProgramUse, keep_call};
use pv_model::CallRef;
use pv_needs::answers::is_unveil;
use pv_needs::calls_state::Parts;
use pv_unveil::Table;
use std::alloc::{AllocError, Global};

// Returns permissions, or none.
fn rows_if(is: bool, rows: &[Granted]) -> &[Granted]
    ensures { result.now ≡ (if is then rows.now else []) }
{
    if is { rows } else { &[] }
}

// Returns whether a call is one other than unveil(2), by a process with a table.
fn is_restricted(table: &Table, call: CallRef<'_>) -> bool
    ensures { result ≡ (is_some table.now.table && not (is_unveil (call_of call.entry))) }
{
    !table.is_empty() && !is_unveil(call)
}

/// Records a call of a live process, given the state before it, the number of walks that it began, and the line BY of
/// its step.
///
/// # Errors
///
/// `AllocError`, if there is no memory.
pub fn note_call(
    alloc: Global,
    programs: &mut Vec<ProgramUse>,
    parts: &Parts,
    pid: u32,
    call: CallRef<'_>,
    walks: u8,
    by: &[u8],
) -> Result<(), AllocError>
    requires whole { IsValid parts.now }
    requires live { IsSome (process_at parts.now pid) }
    ensures { OnOk result ((me : Process) → process_at parts.now pid ≡ Some me → walks ≡ (answer program_of parts.now pid (call_of call.entry)).walks → programs.new.items ≡ and_call programs.old.items (noted_by by.now pid (request_of parts.now pid me (call_of call.entry)))) }
{
    let record = parts.record(pid);
    let asked = asked_by(alloc, parts, pid, call, walks)?;
    let held = entries_of(alloc, parts.tree(), &record.unveiled)?;
    let restricted = is_restricted(&record.unveiled, call);
    let noted = NotedCall {
        by,
        pid,
        program: parts.processes().program(pid),
        call,
        line: record.context.line(),
        pledged: record.pledge.promises(),
        walks: &asked.walks,
        held: rows_if(restricted, &held),
        used: rows_if(restricted, &asked.used),
    };
    keep_call(alloc, programs, &noted)
}
