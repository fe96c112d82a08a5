//! Whether a process is fixed to a file, or the first reason why not.
ghost use Rattle.std.specs.Prelude.{◌≡◌, ◌<◌, false, length, not, option_map, true, IfSome, IsSome, Some};
ghost use Rattle.std.specs.List.{list_all};
ghost use Rattle.pv_audit.specs.Findings.{least, lesser, passing};
ghost use Rattle.pv_audit.specs.Reasons.{descriptors_for, restrains_execve, is_on};
ghost use Rattle.pv_exposure.specs.Editing.{above_among, above_of, first_edit, least_giving};
ghost use Rattle.pv_model.specs.Machine.{at_number, contains, entries_of_table, names_of, Process, process_at, Table as DefinedTable};
ghost use Rattle.pv_model.specs.Perms.{permission_w};
ghost use Rattle.pv_model.specs.Sealed.{above, has_none_of};
ghost use Rattle.pv_model_questions.specs.Fixed.{edits, edits_of_table, is_held_in_place, lets_edit};
ghost use Rattle.pv_procs.specs.Parts.{record_of};

use pv_audit::calls_state::Parts;
use pv_audit::leaks;
use pv_files::{Descriptors, OpenFiles};
use pv_model::limits::DESCRIPTORS;
use pv_model::{Perms, Promise, Promises, Why};
use pv_model_questions::EditReason;
use pv_procs::ProcessRecord;
use pv_promises::{Pledge, has};
use pv_tree::Tree;
use pv_unveil::Table;

// Returns whether a set contains none of these promises.
fn has_none(held: Promises, promises: &[Promise]) -> bool
    ensures { result ≡ list_all (λ promise. not (contains held.0 promise)) promises.now }
{
    promises.iter().all(|promise| !has(held, *promise))
}

// Returns whether a process is pledged, without any of these promises.
fn is_pledged_without(pledge: &Pledge, promises: &[Promise]) -> bool
    ensures { result ≡ has_none_of promises.now pledge.now.promises }
{
    match pledge.promises() {
        None => false,
        Some(held) => has_none(held, promises),
    }
}

// Returns whether the process stays restricted over execve(2): it cannot make the call, or it has execpromises.
fn is_held_over_exec(pledge: &Pledge) -> bool
    ensures { result ≡ restrains_execve pledge.now }
{
    is_pledged_without(pledge, &[Promise::Exec]) || pledge.execpromises().is_some()
}

// Returns whether `file` is open on a node for writing.
fn is_written(files: &OpenFiles, file: usize, node: u16) -> bool
    ensures { result ≡ is_on node permission_w (at_number files.now.files file) }
{
    files.is_open(file)
        && files.node(file) == node
        && files.mode(file).permissions().covers(Perms::W)
}

// Returns the open file of a descriptor, if it is open.
fn file_at(descriptors: &Descriptors, d: u8) -> Option<usize>
    ensures { result ≡ option_map (λ e. e.file) (at_number descriptors.now d) }
{
    descriptors.at(i32::from(d)).ok()
}

// Returns the least descriptor on a node that is open for writing.
fn least_writing(files: &OpenFiles, descriptors: &Descriptors, node: u16) -> Option<u8>
    ensures { result ≡ least (descriptors_for files.now.files descriptors.now node permission_w) }
{
    descriptors.invariant();
    for d in 0..DESCRIPTORS as u8 {
        if let Some(file) = file_at(descriptors, d) {
            if is_written(files, file, node) {
                return Some(d);
            }
        }
    }
    None
}

// Returns the lesser of two numbers, either of which may be absent.
fn lesser(a: Option<u8>, b: Option<u8>) -> Option<u8>
    ensures { result ≡ lesser a b }
{
    match (a, b) {
        (Some(a), Some(b)) => Some(a.min(b)),
        (Some(a), None) => Some(a),
        (None, b) => b,
    }
}

// Returns whether permissions at a name of a file let a process write it, or link it to a place where it can.
fn lets_edit(in_place: bool, permissions: Perms) -> bool
    ensures { result ≡ lets_edit in_place permissions }
{
    permissions.w || (!in_place && (permissions.r || permissions.c))
}

// Returns an entry if its permissions let a process edit the file.
fn passing(table: &Table, in_place: bool, entry: Option<u8>) -> Option<u8>
    requires { IfSome entry (λ k. k < length (entries_of_table table.now.table)) }
    ensures { result ≡ passing (lets_edit in_place) (entries_of_table table.now.table) entry }
{
    match entry {
        Some(k) if lets_edit(in_place, table.permissions(k)) => Some(k),
        _ => None,
    }
}

// Returns the least entry that governs a name of a file and whose permissions let a process edit the file.
fn least_giving(table: &Table, tree: &Tree, node: u16, in_place: bool) -> Option<u8>
    ensures { result ≡ least_giving tree.now.tree (entries_of_table table.now.table) in_place (names_of tree.now.tree node) }
{
    // The contract of `invariant` states that the tree is well-formed.
    tree.invariant();
    let mut least = None;
    let mut next = tree.next_name(node, None);
    while let Some((directory, name)) = next {
        let entry = table.name_entry(tree, directory, name.as_slice());
        least = lesser(least, passing(table, in_place, entry));
        next = tree.next_name(node, Some((directory, name.as_slice())));
    }
    least
}

// Returns the entry of a reason, if it is that an entry lets the process move the file or a directory above it.
fn entry_above(why: &Option<Why>) -> Option<u8>
    ensures { result ≡ above_of why.now }
{
    match why {
        Some(Why::Above(k)) => Some(*k),
        _ => None,
    }
}

// Returns the entry of the first reason that an entry lets the process move the file or a directory above it.
fn first_above(whys: &[Option<Why>]) -> Option<u8>
    ensures { result ≡ above_among whys.now }
{
    for why in whys {
        if let Some(k) = entry_above(why) {
            return Some(k);
        }
    }
    None
}

// Returns the least entry with c that governs a directory of the file or an ancestor of one, if the promises do not prevent
// the process from linking and moving anything.
fn least_above(parts: &Parts, pid: u32, node: u16) -> Option<u8>
    requires { IsSome (process_at parts.now pid) }
    ensures { (p : Process) (table : DefinedTable) → process_at parts.now pid ≡ Some p → p.table ≡ Some table → is_held_in_place p ≡ false → result ≡ least (above parts.now p node table) }
{
    let whys = leaks(parts, pid, node);
    first_above(&whys)
}

// Returns the first reason why the unveil table of a process does not fix it to a file.
fn reason_of_table(parts: &Parts, pid: u32, own: &ProcessRecord, node: u16) -> Option<EditReason>
    requires live { IsSome (process_at parts.now pid) }
    requires own { option_map record_of (process_at parts.now pid) ≡ Some own.now }
    ensures { (p : Process) → process_at parts.now pid ≡ Some p → result ≡ first_edit (edits_of_table parts.now p node p.table) }
{
    if own.unveiled.is_empty() {
        return Some(EditReason::NoTable);
    }
    if !own.unveiled.is_locked() {
        return Some(EditReason::NotLocked);
    }
    let in_place = is_pledged_without(&own.pledge, &[Promise::Cpath, Promise::Exec]);
    if let Some(k) = least_giving(&own.unveiled, parts.tree(), node, in_place) {
        return Some(EditReason::Gives(k));
    }
    if !in_place {
        if let Some(k) = least_above(parts, pid, node) {
            return Some(EditReason::Above(k));
        }
    }
    if is_held_over_exec(&own.pledge) {
        return None;
    }
    Some(EditReason::Exec)
}

/// Returns the first reason why a live process is not fixed to a file, in this order: its descriptors, its table, its
/// lock, an entry for a name of the file, an entry for a directory above it, and execve(2).
///
/// Returns `None` if the process is fixed to the file: no descriptor of it writes the file, and none ever will.
pub(crate) fn edit(parts: &Parts, pid: u32, node: u16) -> Option<EditReason>
    requires { IsSome (process_at parts.now pid) }
    ensures { (p : Process) → process_at parts.now pid ≡ Some p → result ≡ first_edit (edits parts.now p node) }
{
    let record = parts.record(pid);
    if let Some(d) = least_writing(parts.files(), &record.descriptors, node) {
        return Some(EditReason::Writes(d));
    }
    if is_pledged_without(&record.pledge, &[Promise::Wpath, Promise::Exec]) {
        return None;
    }
    reason_of_table(parts, pid, record, node)
}
