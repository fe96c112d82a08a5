//! The entry that governs a place, and its answer.
ghost use Rattle.std.specs.Prelude.{◌≡◌, ◌<◌, length, IfSome, IsTrue};
ghost use Rattle.std.specs.Option.{option_or};
ghost use Rattle.pv_model.specs.Machine.{is_directory_at, directory_rights, entry_for, governing_entry, judge_entry, judgement};
ghost use Rattle.pv_unveil.specs.Up.{up, directory_of_place};
ghost use Rattle.pv_unveil.specs.Unveiled.{in_force};

use crate::entries::Entries;
use pv_model::limits::ROOT;
use pv_model::{Judgement, Perms, Target};
use pv_tree::{PlaceRef, Tree};

/// Returns the directory whose rights a directory without an entry inherits, unveil(2): its parent. The root and
/// removed directories inherit none.
#[inline]
pub fn above(tree: &Tree, directory: u16) -> Option<u16>
    requires { IsTrue (is_directory_at tree.now.tree directory) }
    ensures { result ≡ up tree.now.tree directory }
{
    if directory == ROOT {
        None
    } else {
        tree.parent(directory)
    }
}

// Returns the entry that governs a directory: its own, or that of the nearest ancestor with an entry.
fn directory_rights(entries: &Entries, tree: &Tree, directory: u16) -> Option<u8>
    requires { IsTrue (is_directory_at tree.now.tree directory) }
    ensures value { result ≡ directory_rights tree.now.tree entries.now directory }
    ensures in_table { IfSome result (λ k. k < length entries.now) }
{
    // The contract of `invariant` shows that the tree is well-formed, so each climb ends at the root or at a removed
    // directory.
    tree.invariant();
    let mut at = directory;
    // One test covers both ends: 0, which is no node, represents the missing parent of a removed directory.
    while at > ROOT {
        if let Some(k) = entries.for_directory(at) {
            return Some(k);
        }
        at = tree.parent(at).unwrap_or(0);
    }
    if at == ROOT {
        entries.for_directory(ROOT)
    } else {
        None
    }
}

/// Returns the entry that governs a name in a directory: the entry of the name, or else the one that governs the
/// directory. The name must not name a directory.
pub(crate) fn name_rights(entries: &Entries, tree: &Tree, directory: u16, name: &[u8]) -> Option<u8>
    requires { IsTrue (is_directory_at tree.now.tree directory) }
    ensures value { result ≡ option_or (entry_for entries.now (Target.Name directory name.now)) (directory_rights tree.now.tree entries.now directory) }
    ensures in_table { IfSome result (λ k. k < length entries.now) }
{
    match entries.for_name(directory, name) {
        Some(k) => Some(k),
        None => directory_rights(entries, tree, directory),
    }
}

/// Returns the entry that governs a place. For a directory, it is the entry that governs the directory. For a name, it
/// is the entry of the name, or else the one that governs its directory.
#[tactic(auto, unfolding(pv_model::specs::Unveil::governing_entry))]
pub(crate) fn governing_entry(entries: &Entries, tree: &Tree, place: &PlaceRef<'_>) -> Option<u8>
    requires { IsTrue (is_directory_at tree.now.tree (directory_of_place place.now)) }
    ensures value { result ≡ governing_entry tree.now.tree entries.now place.now }
    ensures in_table { IfSome result (λ k. k < length entries.now) }
{
    if let Some(node) = place.node() {
        if tree.is_directory(node) {
            return directory_rights(entries, tree, node);
        }
    }
    match place.name() {
        Some((directory, name)) => name_rights(entries, tree, directory, name),
        None => unreachable!(),
    }
}

/// Returns the answer of the governing entry, if there is one.
pub(crate) fn judge_entry(entries: &Entries, governing: Option<u8>, needed: Perms) -> Judgement
    ensures { result ≡ judge_entry entries.now needed governing }
{
    match governing {
        None => Judgement::Hidden,
        Some(k) => {
            if entries.permissions_at(k).covers(needed) {
                Judgement::Allowed
            } else {
                Judgement::Denied(k)
            }
        }
    }
}

/// Returns the answer of the entries for a place and the required permissions. If there are no entries, every place is
/// allowed.
#[tactic(auto, unfolding(pv_model::specs::Unveil::judgement))]
pub(crate) fn judge_in(
    entries: &Entries,
    tree: &Tree,
    place: &PlaceRef<'_>,
    needed: Perms,
) -> Judgement
    requires { IsTrue (is_directory_at tree.now.tree (directory_of_place place.now)) }
    ensures { result ≡ judgement tree.now.tree (in_force entries.now) place.now needed }
{
    if entries.is_empty() {
        return Judgement::Allowed;
    }
    judge_entry(entries, governing_entry(entries, tree, place), needed)
}
