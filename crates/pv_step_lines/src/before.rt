//! The part of the state before a call that its explanation needs.
ghost use Rattle.std.specs.Prelude.{◌≡◌, IsSome, Some, option_copied};
ghost use Rattle.pv_step_lines.specs.Before.{IsBefore, place_before};
ghost use Rattle.pv_step_lines.specs.Before.{path_unveiled, target_before};
ghost use Rattle.pv_step_lines.specs.Parts.{file_number};
ghost use Rattle.pv_laws_states.specs.States.{IsValid};
ghost use Rattle.pv_model.specs.Machine.{call_of, Process, process_at};

use pv_answers::calls_state::Parts;
use pv_files::Descriptors;
use pv_model::{CallRef, Perms, Place, Target, Text, Walk};
use pv_promises::Pledge;
use pv_session::calls_path::ends::{end_of, end_of_walk};
use pv_session::calls_path::unveil::target_of;

/// The part of the state before a call of a process that its explanation needs and that the call may change.
#[derive(Drop)]
pub struct Before {
    /// The line of the process.
    pub line: u16,
    /// The promises and execpromises of the process.
    pub(crate) pledge: Pledge,
    /// The open file that the call reads or writes.
    pub(crate) file: Option<usize>,
    /// The unveil target of the call's path.
    pub target: Option<Target>,
    // The places at which the walks of the call end.
    first: Option<Place>,
    second: Option<Place>,
}

// Returns the open file that a call reads or writes, if its descriptor is open.
fn file_of(descriptors: &Descriptors, call: CallRef<'_>) -> Option<usize>
    ensures { (p : Process) → p.descriptors ≡ descriptors.now → result ≡ file_number p (call_of call.entry) }
{
    match call {
        CallRef::Read(d, _) | CallRef::Write(d, _) => descriptors.at(d).ok(),
        _ => None,
    }
}

// Returns the path argument of an unveil(2).
fn unveiled_path(call: CallRef<'_>) -> Option<&Text>
    ensures { option_copied result ≡ path_unveiled (call_of call.entry) }
{
    match call {
        CallRef::Unveil(path, _) => path,
        _ => None,
    }
}

// Returns the unveil target of a call's path, if the path leads to a place.
fn unveiled(parts: &Parts, pid: u32, call: CallRef<'_>) -> Option<Target>
    requires whole { IsValid parts.now }
    requires live { IsSome (process_at parts.now pid) }
    ensures { (p : Process) → process_at parts.now pid ≡ Some p → result ≡ target_before parts.now p (call_of call.entry) }
{
    let Some(path) = unveiled_path(call) else {
        return None;
    };
    match end_of(parts, pid, Walk::unveil(path, Perms::NONE)) {
        Some(place) => Some(target_of(parts.tree(), place)),
        None => None,
    }
}

impl Before {
    /// Captures the state before the next call of a live process.
    pub(crate) fn of(parts: &Parts, pid: u32, call: CallRef<'_>) -> Before
        requires whole { IsValid parts.now }
        requires live { IsSome (process_at parts.now pid) }
        ensures { (p : Process) → process_at parts.now pid ≡ Some p → IsBefore parts.now pid p (call_of call.entry) result }
    {
        let record = parts.record(pid);
        Before {
            line: record.context.line(),
            pledge: record.pledge,
            file: file_of(&record.descriptors, call),
            target: unveiled(parts, pid, call),
            first: end_of_walk(parts, pid, call, 1),
            second: end_of_walk(parts, pid, call, 2),
        }
    }

    /// Returns the place at which walk `walk` ended, counted from 1, if it ended at a place.
    pub(crate) fn place(&self, walk: u8) -> Option<&Place>
        ensures { option_copied result ≡ place_before self.now walk }
    {
        match walk {
            1 => self.first.as_ref(),
            2 => self.second.as_ref(),
            _ => None,
        }
    }
}
