//! The audit of a file, by its node or by a path.
ghost use Rattle.std.specs.Prelude.{◌≡◌, true, IsSome};
ghost use Rattle.std.specs.List.{list_all};
ghost use Rattle.pv_audit.specs.Findings.{are_live};
ghost use Rattle.pv_audit.specs.Reasons.{preserved_at, leak_among};
ghost use Rattle.pv_model.specs.Machine.{audit_node as audit_of, is_file, node_of, node_at};
ghost use Rattle.pv_model.specs.Sealed.{audit as audit_by_definition, verdict};

use crate::reasons::{is_preserved_from, reason_for};
use crate::suspects::{Suspect, found_suspects};
use pv_calls_state::Parts;
use pv_calls_state::tree::{PlaceRef, Tree};
use pv_model::limits::ROOT;
use pv_model::{AuditFault, Errno, Follow, Kind, Leak, Place, Verdict};
use pv_namei::{PlainLookup, resolve};

// Returns the first process that is not closed to a file, with its first reason.
fn first_leak(parts: &Parts, suspects: &[Suspect], node: u16) -> Option<Leak>
    requires { are_live parts.now suspects.now ≡ true }
    ensures { result ≡ leak_among parts.now node suspects.now }
{
    for suspect in suspects {
        if let Some(why) = reason_for(parts, suspect, node) {
            return Some(Leak {
                pid: suspect.pid,
                why,
            });
        }
    }
    None
}

// Returns whether no process can write a file, given that each is closed to it.
fn are_all_preserved(parts: &Parts, suspects: &[Suspect], node: u16) -> bool
    requires { are_live parts.now suspects.now ≡ true }
    ensures { result ≡ list_all (preserved_at parts.now node) suspects.now }
{
    for suspect in suspects {
        if !is_preserved_from(parts, suspect, node) {
            return false;
        }
    }
    true
}

/// Returns the verdict on a file: sealed, sealed and frozen, or exposed to the least process that is not closed to it.
/// Returns `None` if the file has no name.
pub fn verdict_of(parts: &Parts, node: u16) -> Option<Verdict>
    requires { IsSome (node_at parts.now.tree node) }
    ensures { result ≡ verdict parts.now node }
{
    if parts.tree().names(node) == 0 {
        return None;
    }
    let table_access = found_suspects(parts, node);
    let suspects = table_access.as_slice();
    if let Some(leak) = first_leak(parts, suspects, node) {
        return Some(Verdict::Exposed(leak));
    }
    if are_all_preserved(parts, suspects, node) {
        Some(Verdict::Frozen)
    } else {
        Some(Verdict::Sealed)
    }
}

// Returns whether a number is the node of a file.
fn is_file(tree: &Tree, node: u16) -> bool
    ensures { result ≡ is_file (node_at tree.now.tree node) }
{
    tree.is_used(node) && matches!(tree.kind(node), Kind::File | Kind::Executable)
}

/// Audits the file of a node. The verdict is sealed, sealed and frozen, or exposed to the least process that is not
/// closed to it, with the first reason. Does not allocate.
///
/// # Errors
///
/// - `NotFile`, if the node is not a file.
/// - `Walk` with `ENOENT`, if the file has no name.
pub fn audit_node(parts: &Parts, node: u16) -> Result<Verdict, AuditFault>
    ensures { result ≡ audit_of parts.now (Some node) }
{
    if !is_file(parts.tree(), node) {
        return Err(AuditFault::NotFile);
    }
    match verdict_of(parts, node) {
        Some(table_access) => Ok(table_access),
        None => Err(AuditFault::Walk(Errno::ENOENT)),
    }
}

// Audits the file at a place.
fn audit_place(parts: &Parts, place: &Place) -> Result<Verdict, AuditFault>
    ensures { result ≡ audit_of parts.now (node_of place.now) }
{
    match PlaceRef::of(place).node() {
        Some(node) => audit_node(parts, node),
        None => Err(AuditFault::Walk(Errno::ENOENT)),
    }
}

/// Audits the file at a path. The path is walked from the root; links are followed, and no unveil table applies. The
/// verdict is sealed, sealed and frozen, or exposed to the least process that is not closed to it, with the first
/// reason. Does not allocate.
///
/// # Errors
///
/// - `Walk` with the error of the walk, or with `ENOENT` if nothing exists at the path.
/// - `NotFile`, if the path does not name a file.
pub fn audit(parts: &Parts, path: &[u8]) -> Result<Verdict, AuditFault>
    ensures { result ≡ audit_by_definition parts.now path.now }
{
    parts.tree().invariant();
    match resolve(parts.tree(), &mut PlainLookup, ROOT, path, Follow::Last) {
        Ok(place) => audit_place(parts, &place),
        Err(errno) => Err(AuditFault::Walk(errno)),
    }
}
