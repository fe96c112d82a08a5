//! Calls that make or remove names: mkdir(2), symlink(2), link(2), unlink(2), rmdir(2).
ghost use Rattle.std.specs.Prelude.{◌≡◌, ℕ, IfErr, IfOk, IsSome, IsTrue, None, Some};
ghost use Rattle.pv_laws_states.specs.States.{IsFinePlace, IsValid, is_text};
ghost use Rattle.pv_model.specs.declared.call.Start.TheVariants.{WorkingDirectory};
ghost use Rattle.pv_model.specs.declared.outcome.Cause.TheVariants.{Plain};
ghost use Rattle.pv_model.specs.Machine.{after_walks, walk_of, symlink, link, unlink, rmdir, name_of, node_of, find_entry, is_node, node_at};
ghost use Rattle.pv_model.specs.Calls.Paths.{make, mkdir};
ghost use Rattle.pv_calls_path.specs.Caller.{IsCaller};
ghost use Rattle.pv_calls_path.specs.Linking.{link_at};
ghost use Rattle.pv_calls_path.specs.Reached.{IsNameTaken};
ghost use Rattle.pv_calls_plain.specs.Performed.{IsPerformed};
ghost use Rattle.pv_namei.specs.OfTree.Changes.{new_node};

use crate::reach::{ends_in_dot, reach, reach_both, reach_found};
use crate::system::System;
use pv_calls_plain::answer::{Done, Refused, answer_of, refusal, space_errno};
use pv_calls_plain::calls_state::Parts;
use pv_model::limits::LINK_TEXT;
use pv_model::{Errno, NewNode, Text, Walk};
use pv_namei::Lookup;
use pv_namei::tree::PlaceRef;

// Returns the directory and the name of a place at which nothing exists. The error is `EEXIST`, after `walks` walks, if
// something exists or the place has no name.
fn free_name<'a>(place: &PlaceRef<'a>, walks: u8) -> Result<(u16, &'a [u8]), Refused>
    ensures free { IfOk result (λ _. node_of place.now ≡ None) }
    ensures name { IfOk result (λ p. name_of place.now ≡ Some (p.0, p.1.now)) }
    ensures taken { IfErr result (λ _. IsNameTaken place.now) }
    ensures refused { IfErr result
        (λ r. r ≡ record { walks = walks; errno = Errno.EEXIST; cause = Plain }) }
{
    match (place.node(), place.name()) {
        (None, Some(name)) => Ok(name),
        _ => Err(refusal(walks, Errno::EEXIST)),
    }
}

// Makes a new node at the end of a walk from the working directory, and returns 0. Nothing may exist there.
fn make<L: Lookup + Drop>(
    system: &mut System<L>,
    pid: u32,
    walk: Walk<'_>,
    kind: NewNode,
) -> Result<Done, Refused>
    requires caller { IsCaller (L.agrees system.old.lookup) system.old.parts pid }
    requires here { walk.start ≡ WorkingDirectory }
    requires text { IsTrue (is_text walk.path.now) }
    requires node { IsTrue (is_node system.old.parts.tree.version (new_node kind)) }
    ensures performed { IsPerformed
        (λ s me. make s pid me (walk_of walk.entry) (new_node kind.entry))
        system.old.parts pid system.new.parts result }
    ensures agrees { L.agrees system.new.lookup (find_entry system.new.parts.tree) }
{
    let System {
        parts,
        lookup,
        links,
    } = system;
    let place = reach(parts, lookup, pid, walk, &mut links.first)?;
    let (directory, name) = free_name(&place, 1)?;
    if let Err(space) = parts.make(directory, name, kind) {
        return Err(refusal(1, space_errno(space)));
    }
    parts.tree().invariant();
    lookup.changed(directory, name);
    answer_of(1, 0)
}

/// Makes a directory, as mkdir(2), and returns 0.
///
/// # Errors
///
/// The first of these that applies:
///
/// - an error of the walk, then of the unveil check;
/// - `EEXIST`, if something exists at the path, or if the path does not end at a name;
/// - `EFBIG`, then `ENOSPC`, if there is no room.
pub fn mkdir<L: Lookup + Drop>(
    system: &mut System<L>,
    pid: u32,
    path: &Text,
) -> Result<Done, Refused>
    requires caller { IsCaller (L.agrees system.old.lookup) system.old.parts pid }
    requires text { IsTrue (is_text path.now) }
    ensures performed { IsPerformed (λ s me. mkdir s pid me path.now)
        system.old.parts pid system.new.parts result }
    ensures agrees { L.agrees system.new.lookup (find_entry system.new.parts.tree) }
{
    let walk = Walk::mkdir(path);
    make(system, pid, walk, NewNode::Directory)
}

/// Makes a symbolic link with the given text, as symlink(2), and returns 0.
///
/// # Errors
///
/// `ENOENT`, if the text is empty. `ENAMETOOLONG`, if it has more than 1,023 bytes. Otherwise as for `mkdir`.
pub fn symlink<L: Lookup + Drop>(
    system: &mut System<L>,
    pid: u32,
    text: &[u8],
    path: &Text,
) -> Result<Done, Refused>
    requires caller { IsCaller (L.agrees system.old.lookup) system.old.parts pid }
    requires link { IsTrue (is_text text.now) }
    requires text { IsTrue (is_text path.now) }
    ensures performed { IsPerformed (λ s me. symlink s pid me text.now path.now)
        system.old.parts pid system.new.parts result }
    ensures agrees { L.agrees system.new.lookup (find_entry system.new.parts.tree) }
{
    if text.is_empty() {
        return Err(refusal(0, Errno::ENOENT));
    }
    if text.len() > LINK_TEXT {
        return Err(refusal(0, Errno::ENAMETOOLONG));
    }
    let walk = Walk::symlink(path);
    make(system, pid, walk, NewNode::Symlink(text))
}

// Gives a node another name at a place, after both walks of link(2), and returns 0.
fn link_at<L: Lookup>(
    parts: &mut Parts,
    lookup: &mut L,
    node: u16,
    place: &PlaceRef<'_>,
) -> Result<Done, Refused>
    requires whole { IsValid parts.old }
    requires agrees { L.agrees lookup.old (find_entry parts.old.tree) }
    requires node { IsSome (node_at parts.old.tree node) }
    requires place { IsFinePlace parts.old.tree place.now }
    ensures performed { (pid : ℕ)
        → IsPerformed (λ s _. after_walks 2 (link_at s node place.now)) parts.old pid parts.new result }
    ensures agrees { L.agrees lookup.new (find_entry parts.new.tree) }
{
    if parts.tree().is_directory(node) {
        return Err(refusal(2, Errno::EPERM));
    }
    let (directory, name) = free_name(place, 2)?;
    if let Err(space) = parts.link(directory, name, node) {
        return Err(refusal(2, space_errno(space)));
    }
    parts.tree().invariant();
    lookup.changed(directory, name);
    answer_of(2, 0)
}

/// Gives the file or link at a path another name, as link(2), and returns 0.
///
/// # Errors
///
/// The first of these that applies:
///
/// - an error of the first walk, then of its unveil check;
/// - an error of the second walk, then of its unveil check;
/// - `ENOENT`, if nothing exists at the first path, and `EPERM`, if it is a directory;
/// - `EEXIST`, if something exists at the second path, or if that path does not end at a name;
/// - `EFBIG`, then `ENOSPC`, if there is no room.
pub fn link<L: Lookup + Drop>(
    system: &mut System<L>,
    pid: u32,
    path: &Text,
    new: &Text,
) -> Result<Done, Refused>
    requires caller { IsCaller (L.agrees system.old.lookup) system.old.parts pid }
    requires text { IsTrue (is_text path.now) }
    requires other { IsTrue (is_text new.now) }
    ensures performed { IsPerformed (λ s me. link s pid me path.now new.now)
        system.old.parts pid system.new.parts result }
    ensures agrees { L.agrees system.new.lookup (find_entry system.new.parts.tree) }
{
    let System {
        parts,
        lookup,
        links,
    } = system;
    let first = Walk::linked(path);
    let second = Walk::new_link(new);
    let both = reach_both(parts, lookup, pid, first, second, links)?;
    link_at(parts, lookup, both.node, &both.second)
}

/// Removes the name of a file or link, as unlink(2), and returns 0.
///
/// # Errors
///
/// The first of these that applies:
///
/// - an error of the walk, then of the unveil check;
/// - `ENOENT`, if nothing exists at the path;
/// - `EPERM`, if it is a directory.
pub fn unlink<L: Lookup + Drop>(
    system: &mut System<L>,
    pid: u32,
    path: &Text,
) -> Result<Done, Refused>
    requires caller { IsCaller (L.agrees system.old.lookup) system.old.parts pid }
    requires text { IsTrue (is_text path.now) }
    ensures performed { IsPerformed (λ s me. unlink s pid me path.now)
        system.old.parts pid system.new.parts result }
    ensures agrees { L.agrees system.new.lookup (find_entry system.new.parts.tree) }
{
    let System {
        parts,
        lookup,
        links,
    } = system;
    let walk = Walk::unlink(path);
    let found = reach_found(parts, lookup, pid, walk, &mut links.first)?;
    let node = found.node;
    if parts.tree().is_directory(node) {
        return Err(refusal(1, Errno::EPERM));
    }
    let Some((directory, name)) = found.place.name() else {
        return Err(refusal(1, Errno::EPERM));
    };
    parts.unlink(directory, name);
    // The cached answer for this name is stale.
    lookup.changed(directory, name);
    answer_of(1, 0)
}

/// Removes the empty directory at a path, as rmdir(2), and returns 0.
///
/// # Errors
///
/// The first of these that applies:
///
/// - `EINVAL`, if the path ends in `.` or `..`;
/// - an error of the walk, then of the unveil check;
/// - `ENOENT`, if nothing exists at the path;
/// - `ENOTDIR`, if it is not a directory;
/// - `EBUSY`, if the path does not end at a name;
/// - `ENOTEMPTY`, if the directory has an entry.
pub fn rmdir<L: Lookup + Drop>(
    system: &mut System<L>,
    pid: u32,
    path: &Text,
) -> Result<Done, Refused>
    requires caller { IsCaller (L.agrees system.old.lookup) system.old.parts pid }
    requires text { IsTrue (is_text path.now) }
    ensures performed { IsPerformed (λ s me. rmdir s pid me path.now)
        system.old.parts pid system.new.parts result }
    ensures agrees { L.agrees system.new.lookup (find_entry system.new.parts.tree) }
{
    let System {
        parts,
        lookup,
        links,
    } = system;
    if ends_in_dot(path) {
        return Err(refusal(0, Errno::EINVAL));
    }
    let walk = Walk::rmdir(path);
    let found = reach_found(parts, lookup, pid, walk, &mut links.first)?;
    let node = found.node;
    if !parts.tree().is_directory(node) {
        return Err(refusal(1, Errno::ENOTDIR));
    }
    let Some((directory, name)) = found.place.name() else {
        return Err(refusal(1, Errno::EBUSY));
    };
    if !parts.tree().is_empty(node) {
        return Err(refusal(1, Errno::ENOTEMPTY));
    }
    parts.unlink(directory, name);
    lookup.changed(directory, name);
    answer_of(1, 0)
}
