//! Renaming: rename(2).
ghost use Rattle.std.specs.Prelude.{◌≡◌, ℕ, IsTrue, MatchResult, Some};
ghost use Rattle.pv_laws_states.specs.States.{IsValid, is_text};
ghost use Rattle.pv_laws_trees.specs.Tree.{Appears};
ghost use Rattle.pv_model.specs.declared.outcome.Cause.TheVariants.{Plain};
ghost use Rattle.pv_model.specs.Machine.{after_walks, give, refused, entries_there, is_directory_there, move_entry, rename, same_node, find_entry, is_directory_at, is_empty};
ghost use Rattle.pv_calls_path.specs.Caller.{IsCaller};
ghost use Rattle.pv_calls_path.specs.Moving.{check_move};
ghost use Rattle.pv_calls_plain.specs.Performed.{IsPerformed};
ghost use Rattle.pv_namei.specs.OfTree.Changes.{IsOtherName};

use crate::reach::{ends_in_dot, reach_both};
use crate::system::System;
use pv_calls_plain::answer::{Done, Refused, answer_of, refusal, space_errno};
use pv_calls_plain::calls_state::Parts;
use pv_model::{Errno, Text, Walk};
use pv_namei::Lookup;
use pv_namei::tree::Tree;

// Returns whether the node that exists is `node`.
fn is_same_node(there: Option<u16>, node: u16) -> bool
    ensures { result ≡ same_node there node }
{
    match there {
        Some(other) => other == node,
        None => false,
    }
}

// Returns whether a directory exists there.
fn is_directory_there(tree: &Tree, there: Option<u16>) -> bool
    ensures { result ≡ is_directory_there tree.now.tree there }
{
    match there {
        Some(node) => tree.is_directory(node),
        None => false,
    }
}

// Returns whether nothing exists there that has entries.
fn is_empty_there(tree: &Tree, there: Option<u16>) -> bool
    ensures { result ≡ is_empty (entries_there tree.now.tree there) }
{
    match there {
        Some(node) => !tree.is_directory(node) || tree.is_empty(node),
        None => true,
    }
}

// Checks whether a node can get a name in a directory and replace the node that has this name. The errors are `EINVAL`
// if the directory is the node or lies below it, `EISDIR` or `ENOTDIR` if exactly one of the two nodes is a directory,
// and `ENOTEMPTY` if the replaced node has entries.
fn check_move(tree: &Tree, node: u16, directory: u16, there: Option<u16>) -> Result<(), Errno>
    requires { IsTrue (is_directory_at tree.now.tree directory) }
    ensures { MatchResult result (λ _. check_move tree.now.tree node directory there ≡ give tt)
        (λ e. check_move tree.now.tree node directory there ≡ refused 0 e Plain) }
{
    let directory_moves = tree.is_directory(node);
    let directory_is_there = is_directory_there(tree, there);
    if tree.contains(node, directory) {
        return Err(Errno::EINVAL);
    }
    if directory_is_there && !directory_moves {
        return Err(Errno::EISDIR);
    }
    if directory_moves && there.is_some() && !directory_is_there {
        return Err(Errno::ENOTDIR);
    }
    if !is_empty_there(tree, there) {
        return Err(Errno::ENOTEMPTY);
    }
    Ok(())
}

// Moves a node to another name, after both walks of rename(2), and returns 0. `there` is the node that has the new
// name.
fn move_entry<L: Lookup>(
    parts: &mut Parts,
    lookup: &mut L,
    node: u16,
    old_name: (u16, &[u8]),
    new_name: (u16, &[u8]),
    there: Option<u16>,
) -> Result<Done, Refused>
    requires whole { IsValid parts.old }
    requires agrees { L.agrees lookup.old (find_entry parts.old.tree) }
    requires entry { IsOtherName parts.old.tree old_name.0 old_name.1.now new_name.0 new_name.1.now }
    requires to { Appears parts.old.tree new_name.0 }
    requires node { find_entry parts.old.tree old_name.0 old_name.1.now ≡ Some node }
    requires there { find_entry parts.old.tree new_name.0 new_name.1.now ≡ there }
    ensures performed { (pid : ℕ)
        → IsPerformed (λ s me. after_walks 2
        (move_entry s pid me node old_name.entry.0 old_name.entry.1.now new_name.entry.0 new_name.entry.1.now there))
        parts.old pid parts.new result }
    ensures agrees { L.agrees lookup.new (find_entry parts.new.tree) }
{
    let (from, name) = old_name;
    let (to, other) = new_name;
    if let Err(errno) = check_move(parts.tree(), node, to, there) {
        return Err(refusal(2, errno));
    }
    if let Err(space) = parts.rename(from, name, to, other) {
        return Err(refusal(2, space_errno(space)));
    }
    parts.tree().invariant();
    lookup.changed(from, name);
    lookup.changed(to, other);
    answer_of(2, 0)
}

/// Renames the node at a path and replaces the node that has the new name, as rename(2), and returns 0. If both names
/// refer to the same node, nothing changes.
///
/// # Errors
///
/// The first of these that applies:
///
/// - `EINVAL`, if a path ends in `.` or `..`;
/// - an error of the first walk, then of its unveil check;
/// - an error of the second walk, then of its unveil check;
/// - `ENOENT`, if nothing exists at the first path;
/// - `EBUSY`, if a path does not end at a name;
/// - `EINVAL`, if a directory would be moved into itself;
/// - `EISDIR` or `ENOTDIR`, if exactly one of the two nodes is a directory;
/// - `ENOTEMPTY`, if the replaced directory has entries;
/// - `EFBIG`, then `ENOSPC`, if there is no room.
pub fn rename<L: Lookup + Drop>(
    system: &mut System<L>,
    pid: u32,
    path: &Text,
    new: &Text,
) -> Result<Done, Refused>
    requires caller { IsCaller (L.agrees system.old.lookup) system.old.parts pid }
    requires text { IsTrue (is_text path.now) }
    requires other { IsTrue (is_text new.now) }
    ensures performed { IsPerformed (λ s me. rename s pid me path.now new.now)
        system.old.parts pid system.new.parts result }
    ensures agrees { L.agrees system.new.lookup (find_entry system.new.parts.tree) }
{
    let System {
        parts,
        lookup,
        links,
    } = system;
    if ends_in_dot(path) || ends_in_dot(new) {
        return Err(refusal(0, Errno::EINVAL));
    }
    let first = Walk::rename(path);
    let second = Walk::rename(new);
    let both = reach_both(parts, lookup, pid, first, second, links)?;
    let node = both.node;
    let (Some(old_name), Some(new_name)) = (both.first.name(), both.second.name()) else {
        return Err(refusal(2, Errno::EBUSY));
    };
    let there = both.second.node();
    if is_same_node(there, node) {
        return answer_of(2, 0);
    }
    move_entry(parts, lookup, node, old_name, new_name, there)
}
