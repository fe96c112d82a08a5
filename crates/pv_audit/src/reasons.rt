//! Whether a process is closed to a file, and whether it can write the file.
ghost use Rattle.std.specs.Prelude.{◌≡◌, not, option_map, IsSome, Some};
ghost use Rattle.std.specs.List.{list_all};
ghost use Rattle.pv_audit.specs.Findings.{least};
ghost use Rattle.pv_audit.specs.Reasons.{all_reasons_of, descriptors_for, restrains_execve as is_held_over_exec_by, is_preserved, is_on as is_open_on, preserved_at, reason_at, reason_of as first_reason_of, present_reasons, reason_if, reason_of_table as table_reason_of, reasons_of_table as all_table_reasons};
ghost use Rattle.pv_model.specs.declared.verdict.Why.TheVariants.{Above, Gives, Reads};
ghost use Rattle.pv_model.specs.Machine.{permission_r, at_number, contains, leaks, Process, process_at, first_of};
ghost use Rattle.pv_model.specs.Sealed.{has_none_of, is_frozen_to};

use crate::suspects::{Suspect, note_names};
use crate::table_access::TableAccess;
use bitflags::Flags;
use pv_calls_state::Parts;
use pv_calls_state::procs::ProcessRecord;
use pv_files::{Descriptors, OpenFiles};
use pv_model::limits::DESCRIPTORS;
use pv_model::{Perms, Promise, Promises, Why};
use pv_promises::Pledge;

/// The reasons why a process is not closed to a file, in order: a descriptor, the lock or that there is no table, an
/// entry for a name of the file, an entry for a directory above it, and execve(2). Each may be absent.
pub type Leaks = [Option<Why>; 5];

// Returns whether a set contains a promise.
fn has(held: Promises, promise: Promise) -> bool
    ensures { result ≡ contains held.0 promise }
{
    held.contains(Promises::from_bits_retain(1 << promise.bit()))
}

// Returns whether a set contains none of these promises.
fn has_none(held: Promises, promises: &[Promise]) -> bool
    ensures { result ≡ list_all (λ promise. not (contains held.0 promise)) promises.now }
{
    promises.iter().all(|promise| !has(held, *promise))
}

// Returns whether a process is pledged, without any of these promises.
fn is_pledged_without(pledge: &Pledge, promises: &[Promise]) -> bool
    ensures { result ≡ has_none_of promises.now pledge.now.promises }
{
    match pledge.promises() {
        None => false,
        Some(held) => has_none(held, promises),
    }
}

// Returns whether the process stays restricted over execve(2): it cannot make the call, or it has execpromises.
fn is_held_over_exec(pledge: &Pledge) -> bool
    ensures { result ≡ is_held_over_exec_by pledge.now }
{
    is_pledged_without(pledge, &[Promise::Exec]) || pledge.execpromises().is_some()
}

// Returns whether `file` is open on a node in a mode that has these permissions.
fn is_open_on(files: &OpenFiles, file: usize, node: u16, needed: Perms) -> bool
    ensures { result ≡ is_open_on node needed (at_number files.now.files file) }
{
    files.is_open(file) && files.node(file) == node && files.mode(file).permissions().covers(needed)
}

// Returns the open file of a descriptor, if it is open.
fn file_at(descriptors: &Descriptors, d: u8) -> Option<usize>
    ensures { result ≡ option_map (λ e. e.file) (at_number descriptors.now d) }
{
    descriptors.at(i32::from(d)).ok()
}

// Returns the least descriptor on a node in a mode that has these permissions.
fn least_descriptor(
    files: &OpenFiles,
    descriptors: &Descriptors,
    node: u16,
    needed: Perms,
) -> Option<u8>
    ensures { result ≡ least (descriptors_for files.now.files descriptors.now node needed) }
{
    descriptors.invariant();
    for d in 0..DESCRIPTORS as u8 {
        if let Some(file) = file_at(descriptors, d) {
            if is_open_on(files, file, node, needed) {
                return Some(d);
            }
        }
    }
    None
}

// Returns the first reason why the unveil table of a process does not close it to a file.
fn reason_of_table(record: &ProcessRecord, table_access: &TableAccess) -> Option<Why>
    ensures { result ≡ table_reason_of record.now table_access.now record.now.unveiled.table }
{
    if record.unveiled.is_empty() {
        return Some(Why::NoTable);
    }
    if !record.unveiled.is_locked() {
        return Some(Why::NotLocked);
    }
    if let Some(k) = table_access.gives {
        return Some(Why::Gives(k));
    }
    if let Some(k) = table_access.above {
        return Some(Why::Above(k));
    }
    if is_held_over_exec(&record.pledge) {
        None
    } else {
        Some(Why::Exec)
    }
}

// Returns the first reason why a process is not closed to a file.
fn first_reason(
    record: &ProcessRecord,
    files: &OpenFiles,
    node: u16,
    table_access: &TableAccess,
) -> Option<Why>
    ensures { result ≡ first_reason_of files.now.files record.now node table_access.now }
{
    if let Some(d) = least_descriptor(files, &record.descriptors, node, Perms::R) {
        return Some(Why::Reads(d));
    }
    let opening = [Promise::Rpath, Promise::Exec, Promise::Cpath];
    if is_pledged_without(&record.pledge, &opening) {
        None
    } else {
        reason_of_table(record, table_access)
    }
}

// Returns a reason if the condition holds.
fn when_holds(holds: bool, why: Why) -> Option<Why>
    ensures { result ≡ reason_if holds why }
{
    if holds { Some(why) } else { None }
}

// Returns the least descriptor that reads a file, as a reason.
fn reading_reason(record: &ProcessRecord, files: &OpenFiles, node: u16) -> Option<Why>
    ensures { result ≡ option_map Reads (least (descriptors_for files.now.files record.now.descriptors node permission_r)) }
{
    let d = least_descriptor(files, &record.descriptors, node, Perms::R)?;
    Some(Why::Reads(d))
}

// Returns the entry that governs a name of the file, as a reason.
fn giving_reason(table_access: &TableAccess) -> Option<Why>
    ensures { result ≡ option_map Gives table_access.now.gives }
{
    let k = table_access.gives?;
    Some(Why::Gives(k))
}

// Returns the entry that governs a directory above the file, as a reason.
fn reason_above(table_access: &TableAccess) -> Option<Why>
    ensures { result ≡ option_map Above table_access.now.above }
{
    let k = table_access.above?;
    Some(Why::Above(k))
}

// Returns all reasons why the unveil table of a process does not close it to a file.
fn reasons_of_table(record: &ProcessRecord, table_access: &TableAccess) -> [Option<Why>; 4]
    ensures { present_reasons result ≡ present_reasons (all_table_reasons record.now table_access.now record.now.unveiled.table) }
{
    if record.unveiled.is_empty() {
        return [Some(Why::NoTable), None, None, None];
    }
    [
        when_holds(!record.unveiled.is_locked(), Why::NotLocked),
        giving_reason(table_access),
        reason_above(table_access),
        when_holds(!is_held_over_exec(&record.pledge), Why::Exec),
    ]
}

// Returns all reasons why a process is not closed to a file.
fn all_reasons(
    record: &ProcessRecord,
    files: &OpenFiles,
    node: u16,
    table_access: &TableAccess,
) -> Leaks
    ensures { present_reasons result ≡ all_reasons_of files.now.files record.now node table_access.now }
{
    let reads = reading_reason(record, files, node);
    let opening = [Promise::Rpath, Promise::Exec, Promise::Cpath];
    if is_pledged_without(&record.pledge, &opening) {
        return [reads, None, None, None, None];
    }
    let of_table = reasons_of_table(record, table_access);
    [reads, of_table[0], of_table[1], of_table[2], of_table[3]]
}

// Returns whether a process that is closed to a file can't write it either.
fn can_not_write(
    record: &ProcessRecord,
    files: &OpenFiles,
    node: u16,
    table_access: &TableAccess,
) -> bool
    ensures { result ≡ is_preserved files.now.files record.now node table_access.now }
{
    if least_descriptor(files, &record.descriptors, node, Perms::W).is_some() {
        return false;
    }
    if is_pledged_without(&record.pledge, &[Promise::Wpath, Promise::Exec]) {
        return true;
    }
    !record.unveiled.is_empty()
        && record.unveiled.is_locked()
        && !table_access.writes
        && is_held_over_exec(&record.pledge)
}

/// Returns the first reason why a process is not closed to a file. All names of the file must be noted in `suspect`.
pub(crate) fn reason_for(parts: &Parts, suspect: &Suspect, node: u16) -> Option<Why>
    requires { IsSome (process_at parts.now suspect.now.pid) }
    ensures { result ≡ reason_at parts.now node suspect.now }
{
    first_reason(
        parts.record(suspect.pid),
        parts.files(),
        node,
        &suspect.table_access,
    )
}

/// Returns whether a process that is closed to a file can't write it either. All names of the file must be noted in
/// `suspect`.
pub(crate) fn is_preserved_from(parts: &Parts, suspect: &Suspect, node: u16) -> bool
    requires { IsSome (process_at parts.now suspect.now.pid) }
    ensures { result ≡ preserved_at parts.now node suspect.now }
{
    can_not_write(
        parts.record(suspect.pid),
        parts.files(),
        node,
        &suspect.table_access,
    )
}

/// Returns the first reason why a live process is not closed to a file, in this order: its descriptors, its table, its
/// lock, an entry for a name of the file, an entry for a directory above it, and execve(2).
///
/// Returns `None` if the process is closed to the file: no descriptor of it reads the file, and none ever will.
pub fn leak(parts: &Parts, pid: u32, node: u16) -> Option<Why>
    requires { IsSome (process_at parts.now pid) }
    ensures { (p : Process) → process_at parts.now pid ≡ Some p → result ≡ first_of (leaks parts.now p node) }
{
    let mut suspects = [Suspect::new(pid)];
    note_names(parts, node, &mut suspects);
    reason_for(parts, &suspects[0], node)
}

/// Returns all reasons why a live process is not closed to a file, in the order of `leak`. There is none if the process
/// is closed to the file.
pub fn leaks(parts: &Parts, pid: u32, node: u16) -> Leaks
    requires { IsSome (process_at parts.now pid) }
    ensures { (p : Process) → process_at parts.now pid ≡ Some p → present_reasons result ≡ leaks parts.now p node }
{
    let mut suspects = [Suspect::new(pid)];
    note_names(parts, node, &mut suspects);
    all_reasons(
        parts.record(pid),
        parts.files(),
        node,
        &suspects[0].table_access,
    )
}

/// Returns whether a live process that is closed to a file has no descriptor that writes the file, and can never get
/// one.
pub fn frozen_to(parts: &Parts, pid: u32, node: u16) -> bool
    requires { IsSome (process_at parts.now pid) }
    ensures { (p : Process) → process_at parts.now pid ≡ Some p → result ≡ is_frozen_to parts.now p node }
{
    let mut suspects = [Suspect::new(pid)];
    note_names(parts, node, &mut suspects);
    is_preserved_from(parts, &suspects[0], node)
}
