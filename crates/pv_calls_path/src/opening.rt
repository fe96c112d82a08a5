//! Opening of files: open(2) and openat(2).
ghost use Rattle.std.specs.Prelude.{◌≡◌, IfOk, IfErr, IsSome, IsTrue, None, Some, false};
ghost use Rattle.pv_laws_states.specs.States.{IsFinePlace, IsValid, is_text};
ghost use Rattle.pv_model.specs.declared.place.Place.{Place};
ghost use Rattle.pv_model.specs.Machine.{after_walks, contradicts, is_link, open_at, node_of, process_at, writes, find_entry, is_directory_at, node_at};
ghost use Rattle.pv_calls_plain.specs.OfCallsState.Opening.{CanOpen};
ghost use Rattle.pv_calls_path.specs.Caller.{IsCaller};
ghost use Rattle.pv_calls_path.specs.Opening.{open_place};
ghost use Rattle.pv_calls_path.specs.Starting.{FailsStart, GivesDirectory, GivesNoDirectory, IsOnDirectory, PassesStart, StartsAt};
ghost use Rattle.pv_calls_plain.specs.Performed.{IsPerformed};
ghost use Rattle.pv_laws_trees.specs.Found.{AreEqualLookups};

use crate::reach::reach_from;
use crate::system::System;
use pv_calls_plain::answer::{Done, Refused, answer_of, refusal, space_errno};
use pv_calls_plain::calls_state::Parts;
use pv_calls_plain::descriptors::open_file;
use pv_calls_plain::files::writes;
use pv_model::{Errno, Kind, OpenFlags, Start, Text, Walk};
use pv_namei::tree::{PlaceRef, Tree};
use pv_namei::{Lookup, is_absolute};

// Returns whether the flags contradict each other.
fn contradicts(flags: OpenFlags) -> bool
    ensures { result ≡ contradicts flags }
{
    (flags.truncate && !writes(flags.mode))
        || (flags.exclusive && !flags.create)
        || (flags.create && flags.directory)
}

/// Returns whether a node is a symbolic link.
pub(crate) fn is_link(tree: &Tree, node: u16) -> bool
    requires { IsSome (node_at tree.now.tree node) }
    ensures { result ≡ is_link (node_at tree.now.tree node) }
{
    matches!(tree.kind(node), Kind::Symlink)
}

// Returns the directory of a descriptor.
fn directory_of(parts: &Parts, pid: u32, d: i32) -> Result<u16, Errno>
    requires whole { IsValid parts.now }
    requires live { IsSome (process_at parts.now pid) }
    ensures directory { IfOk result (λ n. IsTrue (is_directory_at parts.now.tree n)) }
    ensures given { IfOk result (GivesDirectory parts.now pid d) }
    ensures node { IfOk result (IsOnDirectory parts.now pid d) }
    ensures refused { IfErr result (GivesNoDirectory parts.now pid d) }
{
    let Some(file) = open_file(parts, pid, d) else {
        return Err(Errno::EBADF);
    };
    let node = parts.files().node(file);
    if !parts.tree().is_directory(node) {
        return Err(Errno::ENOTDIR);
    }
    Ok(node)
}

/// Returns the directory from which a walk starts. Only a relative path uses the descriptor in `start`.
///
/// # Errors
///
/// `EBADF`, if the descriptor is not open. `ENOTDIR`, if it does not refer to a directory.
pub(crate) fn start_of(parts: &Parts, pid: u32, start: Start, path: &Text) -> Result<u16, Errno>
    requires whole { IsValid parts.now }
    requires live { IsSome (process_at parts.now pid) }
    ensures directory { IfOk result (λ n. IsTrue (is_directory_at parts.now.tree n)) }
    ensures checked { IfOk result (λ _. PassesStart parts.now pid start path.now) }
    ensures start { IfOk result (StartsAt parts.now pid start path.now) }
    ensures refused { IfErr result (FailsStart parts.now pid start path.now) }
{
    match start {
        Start::Descriptor(d) if !is_absolute(path.as_slice()) => directory_of(parts, pid, d),
        _ => Ok(parts.record(pid).directory),
    }
}

// Opens an existing node after its walk and unveil check. The errors are EEXIST for an exclusive creation, ELOOP for a
// link, ENOTDIR if a directory is required, and EISDIR for writing to a directory.
fn open_there(parts: &mut Parts, pid: u32, node: u16, flags: OpenFlags) -> Result<Done, Refused>
    requires whole { IsValid parts.old }
    requires live { IsSome (process_at parts.old pid) }
    requires there { IsSome (node_at parts.old.tree node) }
    requires flags { contradicts flags ≡ false }
    requires room { CanOpen parts.old.files (process_at parts.old pid) }
    ensures performed { (place : Place) → node_of place ≡ Some node → IsPerformed
        (λ s me. after_walks 1 (open_place s pid me flags place)) parts.old pid parts.new result }
    ensures found { AreEqualLookups (find_entry parts.old.tree) (find_entry parts.new.tree) }
{
    if flags.create && flags.exclusive {
        return Err(refusal(1, Errno::EEXIST));
    }
    if is_link(parts.tree(), node) {
        return Err(refusal(1, Errno::ELOOP));
    }
    let directory = parts.tree().is_directory(node);
    if flags.directory && !directory {
        return Err(refusal(1, Errno::ENOTDIR));
    }
    if directory && writes(flags.mode) {
        return Err(refusal(1, Errno::EISDIR));
    }
    let d = parts.open(pid, node, flags);
    parts.tree().invariant();
    answer_of(1, u32::from(d))
}

// Creates and opens a file at a place where nothing exists, after its walk and unveil check. The errors are ENOENT if
// the flags do not ask for creation, then EFBIG and ENOSPC if there is no room.
fn create_there<L: Lookup>(
    parts: &mut Parts,
    lookup: &mut L,
    pid: u32,
    place: &PlaceRef<'_>,
    flags: OpenFlags,
) -> Result<Done, Refused>
    requires caller { IsCaller (L.agrees lookup.old) parts.old pid }
    requires fine { IsFinePlace parts.old.tree place.now }
    requires absent { node_of place.now ≡ None }
    requires flags { contradicts flags ≡ false }
    requires room { CanOpen parts.old.files (process_at parts.old pid) }
    ensures performed { IsPerformed
        (λ s me. after_walks 1 (open_place s pid me flags place.now))
        parts.old pid parts.new result }
    ensures agrees { L.agrees lookup.new (find_entry parts.new.tree) }
{
    if !flags.create {
        return Err(refusal(1, Errno::ENOENT));
    }
    let Some((directory, name)) = place.name() else {
        return Err(refusal(1, Errno::ENOENT));
    };
    match parts.create(pid, directory, name, flags) {
        Ok(d) => {
            parts.tree().invariant();
            lookup.changed(directory, name);
            answer_of(1, u32::from(d))
        }
        Err(space) => Err(refusal(1, space_errno(space))),
    }
}

/// Opens the file or directory at a path under the lowest free descriptor, as open(2) and openat(2), and returns the
/// descriptor. A file that does not exist is created if the flags ask for it. A relative path starts at the directory
/// that `start` gives.
///
/// # Errors
///
/// The first of these that applies:
///
/// - `EINVAL`, if the flags contradict each other;
/// - `EBADF` or `ENOTDIR`, if a relative path starts at a descriptor that is not open or does not refer to a directory;
/// - `EMFILE`, if no descriptor is free;
/// - `ENFILE`, if no open file is free;
/// - an error of the walk, then of the unveil check;
/// - `EEXIST`, `ENOENT`, `ELOOP`, `ENOTDIR` or `EISDIR`, by the node at the path;
/// - `EFBIG`, then `ENOSPC`, if there is no room.
pub fn open_at<L: Lookup + Drop>(
    system: &mut System<L>,
    pid: u32,
    start: Start,
    path: &Text,
    flags: OpenFlags,
) -> Result<Done, Refused>
    requires caller { IsCaller (L.agrees system.old.lookup) system.old.parts pid }
    requires text { IsTrue (is_text path.now) }
    ensures performed { IsPerformed (λ s me. open_at s pid me start path.now flags)
        system.old.parts pid system.new.parts result }
    ensures agrees { L.agrees system.new.lookup (find_entry system.new.parts.tree) }
{
    let System {
        parts,
        lookup,
        links,
    } = system;
    if contradicts(flags) {
        return Err(refusal(0, Errno::EINVAL));
    }
    let directory = match start_of(parts, pid, start, path) {
        Ok(directory) => directory,
        Err(errno) => return Err(refusal(0, errno)),
    };
    if !parts.record(pid).descriptors.has_room() {
        return Err(refusal(0, Errno::EMFILE));
    }
    if !parts.files().has_room() {
        return Err(refusal(0, Errno::ENFILE));
    }
    let walk = Walk::open(start, path, flags);
    let place = reach_from(parts, lookup, pid, directory, walk, &mut links.first)?;
    match place.node() {
        Some(node) => open_there(parts, pid, node, flags),
        None => create_there(parts, lookup, pid, &place, flags),
    }
}
