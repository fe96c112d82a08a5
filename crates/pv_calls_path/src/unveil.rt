//! Unveiling of paths: unveil(2).
ghost use Rattle.std.specs.Prelude.{◌≡◌, IsTrue, Some, option_copied};
ghost use Rattle.pv_laws_states.specs.States.{is_text, is_text_or_none};
ghost use Rattle.pv_model.specs.Machine.{refused, unveil, find_entry, target_of};
ghost use Rattle.pv_calls_plain.specs.Performed.{IsPerformed};
ghost use Rattle.pv_calls_plain.specs.OfUnveil.Added.{refusal_of_addition as refusal_of};
ghost use Rattle.pv_calls_path.specs.Caller.{IsCaller};

use crate::reach::walk_to;
use crate::system::System;
use pv_calls_plain::answer::{Done, Refused, answer_of, refusal};
use pv_calls_plain::unveil::AddFault;
use pv_model::{Cause, Errno, Follow, Perms, Place, Target, Text};
use pv_namei::Lookup;
use pv_namei::tree::Tree;

/// Returns the target of an unveil entry for a place: the directory at the place, or else the name in its directory.
pub fn target_of(tree: &Tree, place: Place) -> Target
    ensures { result ≡ target_of tree.now.tree place }
{
    match place {
        Place::Node(node) => Target::Directory(node),
        Place::At { dir, name, node } => match node {
            Some(node) if tree.is_directory(node) => Target::Directory(node),
            _ => Target::Name { dir, name },
        },
    }
}

// Returns the error and the cause of an `AddFault`, after `walks` walks.
fn answer_to(walks: u8, fault: AddFault) -> Refused
    ensures walks { result.walks ≡ walks }
    ensures fault { refusal_of fault ≡ refused 0 result.errno result.cause }
{
    match fault {
        AddFault::Locked => Refused {
            walks,
            errno: Errno::EPERM,
            cause: Cause::Locked,
        },
        AddFault::Increase(entry) => Refused {
            walks,
            errno: Errno::EPERM,
            cause: Cause::Unveil(Some(entry)),
        },
        AddFault::Many => refusal(walks, Errno::E2BIG),
    }
}

// Adds an entry for the end of a walk, with the permissions of a text. The place is not checked against the table.
fn unveil_path<L: Lookup + Drop>(
    system: &mut System<L>,
    pid: u32,
    path: &[u8],
    permissions: &[u8],
) -> Result<Done, Refused>
    requires caller { IsCaller (L.agrees system.old.lookup) system.old.parts pid }
    requires text { IsTrue (is_text path.now) }
    ensures performed { IsPerformed (λ s me. unveil s pid me (Some path.now) (Some permissions.now))
        system.old.parts pid system.new.parts result }
    ensures agrees { L.agrees system.new.lookup (find_entry system.new.parts.tree) }
{
    let System {
        parts,
        lookup,
        links,
    } = system;
    let Some(permissions) = Perms::read(permissions) else {
        return Err(refusal(0, Errno::EINVAL));
    };
    let record = parts.record(pid);
    if record.unveiled.is_locked() {
        return Err(answer_to(0, AddFault::Locked));
    }
    let start = record.directory;
    let place = walk_to(parts, lookup, start, Follow::Last, path, &mut links.first)?;
    let target = target_of(parts.tree(), place.to_place());
    match parts.unveil(pid, target, permissions) {
        Ok(()) => {
            // Every node is still referenced: nothing remains to collect.
            parts.invariant();
            answer_of(1, 0)
        }
        Err(fault) => Err(answer_to(1, fault)),
    }
}

/// Adds an entry for the place at a path, or removes permissions from the existing entry, as unveil(2). Two nulls lock
/// the table. Returns 0.
///
/// # Errors
///
/// The first of these that applies:
///
/// - `EINVAL`, if exactly one argument is null, or if the permissions contain an unknown byte;
/// - `EPERM`, if the table is locked;
/// - an error of the walk;
/// - `EPERM`, if the existing entry lacks a requested permission;
/// - `E2BIG`, if the table has 64 entries and the place has none.
pub fn unveil<L: Lookup + Drop>(
    system: &mut System<L>,
    pid: u32,
    path: Option<&Text>,
    permissions: Option<&Text>,
) -> Result<Done, Refused>
    requires caller { IsCaller (L.agrees system.old.lookup) system.old.parts pid }
    requires text { IsTrue (is_text_or_none (option_copied path)) }
    ensures performed { IsPerformed
        (λ s me. unveil s pid me (option_copied path.entry) (option_copied permissions.entry))
        system.old.parts pid system.new.parts result }
    ensures agrees { L.agrees system.new.lookup (find_entry system.new.parts.tree) }
{
    match (path, permissions) {
        (None, None) => {
            system.parts.lock(pid);
            system.parts.invariant();
            answer_of(0, 0)
        }
        (Some(path), Some(permissions)) => {
            unveil_path(system, pid, path.as_slice(), permissions.as_slice())
        }
        _ => Err(refusal(0, Errno::EINVAL)),
    }
}
