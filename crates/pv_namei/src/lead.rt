//! Resolving one component of a path.
ghost use Rattle.std.specs.Prelude.{◌≡◌, ◌∷◌, nat_lt, length, IsTrue, List, Bool, IfOk};
ghost use Rattle.pv_model.specs.Machine.{Bytes, greatest_name, is_directory_at, find_entry};
ghost use Rattle.pv_model.specs.Walk.{is_dot, is_dot_dot, along, PastLink};
ghost use Rattle.pv_namei.specs.Onward.{led, named, IsAtDirectory, IsLeadIn};

use crate::lookup::Lookup;
use pv_model::{Errno, Version};
use pv_tree::Tree;

/// The result of resolving a component in a directory.
#[derive(Clone, Copy)]
pub(crate) enum Lead {
    /// A directory: `.` leads to the same directory, and `..` to its parent.
    Directory(u16),
    /// The entry of a name: its node, or `None` if the directory has no such entry.
    Entry(Option<u16>),
}

/// Returns whether a component is `.`.
pub(crate) fn is_dot(component: &[u8]) -> bool
    ensures { result ≡ is_dot component.now }
{
    matches!(component, b".")
}

/// Returns whether a component is `..`.
pub(crate) fn is_dot_dot(component: &[u8]) -> bool
    ensures { result ≡ is_dot_dot component.now }
{
    matches!(component, b"..")
}

// Returns whether a component exceeds the maximum length of a name.
fn is_too_long(version: Version, component: &[u8]) -> bool
    ensures { result ≡ nat_lt (greatest_name version) (length component.now) }
{
    component.len() > version.layout().name_limit
}

// Looks up a component that is a name.
fn entry<L: Lookup>(tree: &Tree, lookup: &mut L, at: u16, component: &[u8]) -> Result<Lead, Errno>
    requires directory { IsTrue (is_directory_at tree.now.tree at) }
    requires agrees { L.agrees lookup.old (find_entry tree.now.tree) }
    ensures leads { (last : Bool) → (following : PastLink) → (rest : List Bytes) → (mark : Bool)
        → named tree.now.tree last following rest mark at component.now
        ≡ led tree.now.tree last following rest mark at component.now result }
    ensures agrees { L.agrees lookup.new (find_entry tree.now.tree) }
    ensures lead { IfOk result (IsLeadIn tree.now.tree at component.now) }
{
    if is_too_long(tree.sizes().version, component) {
        return Err(Errno::ENAMETOOLONG);
    }
    if tree.parent(at).is_none() {
        return Err(Errno::ENOENT);
    }
    Ok(Lead::Entry(lookup.look(tree, at, component)))
}

/// Resolves a component in a directory.
///
/// # Errors
///
/// In a removed directory, `..` and every name fail with ENOENT. A component that exceeds the maximum length of a name
/// fails with ENAMETOOLONG.
pub(crate) fn lead_along<L: Lookup>(
    tree: &Tree,
    lookup: &mut L,
    at: u16,
    component: &[u8],
) -> Result<Lead, Errno>
    requires start { IsAtDirectory tree.now.tree at }
    requires agrees { L.agrees lookup.old (find_entry tree.now.tree) }
    ensures leads { (last : Bool) → (following : PastLink) → (rest : List Bytes) → (mark : Bool)
        → along tree.now.tree last following (component.now ∷ rest) mark at
        ≡ led tree.now.tree last following rest mark at component.now result }
    ensures agrees { L.agrees lookup.new (find_entry tree.now.tree) }
    ensures lead { IfOk result (IsLeadIn tree.now.tree at component.now) }
{
    if is_dot(component) {
        return Ok(Lead::Directory(at));
    }
    if is_dot_dot(component) {
        return match tree.parent(at) {
            Some(above) => Ok(Lead::Directory(above)),
            None => Err(Errno::ENOENT),
        };
    }
    entry(tree, lookup, at, component)
}
