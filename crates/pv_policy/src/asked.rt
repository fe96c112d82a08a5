//! The walks of a call, and the permissions of a table that they use.
ghost use Rattle.std.specs.Prelude.{◌≡◌, ◌<◌, [], length, map, option_map, option_to_list, slice_get, IfOk, IsSome, IsTrue, OnOk, Some};
ghost use Rattle.pv_needs.specs.OfCallsPath.Ends.{end_begun};
ghost use Rattle.pv_laws_states.specs.States.{IsValid};
ghost use Rattle.pv_model.specs.Machine.{target_words as words_of_target, entries_of_table, call_of, walk_of, Process, process_at, is_directory_at};
ghost use Rattle.pv_model.specs.Answers.Policy.{place_of_target};
ghost use Rattle.pv_model.specs.CallRef.{walks_in};
ghost use Rattle.pv_needs.specs.Asking.{begun_walks, judged_begun, walks_begun};
ghost use Rattle.pv_policy.specs.Asked.{Has, HasMore, entry_granted, used_by_walk};
ghost use Rattle.pv_unveil.specs.Up.{directory_of_place};

use crate::noted::{AskedWalk, Granted};
use pv_model::{CallRef, Perms, Target, Walk, Walks};
use pv_needs::answers::{TargetWords, is_unveil};
use pv_needs::calls_path::ends::end_of;
use pv_needs::calls_path::unveil::target_of;
use pv_needs::calls_state::Parts;
use pv_streams::text_of;
use pv_tree::{PlaceRef, Tree};
use pv_unveil::Table;
use std::alloc::{AllocError, Global};

/// The walks of a call that were checked, and the permissions that they used.
#[derive(Drop)]
pub(crate) struct Asked {
    /// The walks.
    pub(crate) walks: Vec<AskedWalk>,
    /// The permissions, at the targets of the entries that govern the walks.
    pub(crate) used: Vec<Granted>,
}

// Returns a target in words.
fn words_of(alloc: Global, tree: &Tree, target: &Target) -> Result<Vec<u8>, AllocError>
    ensures { IfOk result (λ words. words.items ≡ words_of_target tree.now.tree target.now) }
{
    text_of(alloc, &TargetWords { tree, target })
}

// Returns an entry's target in words, with other permissions than its own.
fn at_entry(
    alloc: Global,
    tree: &Tree,
    table: &Table,
    k: u8,
    permissions: Perms,
) -> Result<Granted, AllocError>
    requires { k < length (entries_of_table table.now.table) }
    ensures { IfOk result (λ granted. option_map (λ e. entry_granted tree.now.tree e.0 permissions) (slice_get (entries_of_table table.now.table) k) ≡ Some granted) }
{
    Ok(Granted {
        words: words_of(alloc, tree, table.target(k))?,
        permissions,
    })
}

/// Returns the permissions of the entries of a table, at their targets in words.
///
/// # Errors
///
/// `AllocError`, if there is no memory.
pub(crate) fn entries_of(
    alloc: Global,
    tree: &Tree,
    table: &Table,
) -> Result<Vec<Granted>, AllocError>
    ensures { IfOk result (λ rows. rows.items ≡ map (λ e. entry_granted tree.now.tree e.0 e.1) (entries_of_table table.now.table)) }
{
    let mut rows = Vec::new(alloc);
    for k in 0..table.len() {
        let k = k as u8;
        rows.push(at_entry(alloc, tree, table, k, table.permissions(k))?)?;
    }
    Ok(rows)
}

// Returns a place whose target is the given one.
fn place_of(target: &Target) -> PlaceRef<'_>
    ensures { result ≡ place_of_target target.now }
{
    match target {
        Target::Directory(node) => PlaceRef::of_node(*node),
        Target::Name { dir, name } => PlaceRef::at(*dir, name.as_slice(), None),
    }
}

// Returns the permissions that a walk used, if the table allows it.
fn used_by(
    alloc: Global,
    tree: &Tree,
    table: &Table,
    walk: &AskedWalk,
) -> Result<Option<Granted>, AllocError>
    requires { IsTrue (is_directory_at tree.now.tree (directory_of_place (place_of_target walk.now.target))) }
    ensures { IfOk result (λ used. option_to_list used ≡ used_by_walk tree.now.tree table.now.table walk.now) }
{
    let place = place_of(&walk.target);
    match table.governing(tree, &place) {
        None => Ok(None),
        Some(k) => {
            if !table.permissions(k).covers(walk.permissions) {
                return Ok(None);
            }
            Ok(Some(at_entry(alloc, tree, table, k, walk.permissions)?))
        }
    }
}

// Returns a walk in the current state, or `None` if it fails or cannot start.
fn asked_walk(
    alloc: Global,
    parts: &Parts,
    pid: u32,
    walk: Walk<'_>,
) -> Result<Option<AskedWalk>, AllocError>
    requires whole { IsValid parts.now }
    requires live { IsSome (process_at parts.now pid) }
    ensures { IfOk result (λ found. (me : Process) → process_at parts.now pid ≡ Some me → found ≡ judged_begun parts.now pid me (walk_of walk.entry)) }
{
    let Some(place) = end_of(parts, pid, walk) else {
        return Ok(None);
    };
    let target = target_of(parts.tree(), place);
    let words = words_of(alloc, parts.tree(), &target)?;
    let permissions = walk.needed;
    Ok(Some(AskedWalk {
        target,
        words,
        permissions,
    }))
}

impl Asked {
    // Returns no walks.
    fn new(alloc: Global) -> Asked
        ensures walks { result.walks.items ≡ [] }
        ensures used { result.used.items ≡ [] }
    {
        Asked {
            walks: Vec::new(alloc),
            used: Vec::new(alloc),
        }
    }
}

// Adds a walk, if it was begun and leads to a place.
fn push_walk(
    alloc: Global,
    asked: &mut Asked,
    parts: &Parts,
    pid: u32,
    walk: Walk<'_>,
    is_begun: bool,
) -> Result<(), AllocError>
    requires whole { IsValid parts.now }
    requires live { IsSome (process_at parts.now pid) }
    ensures { OnOk result ((me : Process) → process_at parts.now pid ≡ Some me → HasMore parts.now pid me is_begun (walk_of walk.entry) asked.old asked.new) }
{
    if !is_begun {
        return Ok(());
    }
    let Some(walk) = asked_walk(alloc, parts, pid, walk)? else {
        return Ok(());
    };
    if let Some(used) = used_by(alloc, parts.tree(), &parts.record(pid).unveiled, &walk)? {
        asked.used.push(used)?;
    }
    asked.walks.push(walk)?;
    Ok(())
}

// Adds the walks of a call that were begun and lead to a place, given the number of walks that were begun.
fn push_walks(
    alloc: Global,
    asked: &mut Asked,
    parts: &Parts,
    pid: u32,
    walks: Walks<'_>,
    count: u8,
) -> Result<(), AllocError>
    requires whole { IsValid parts.now }
    requires live { IsSome (process_at parts.now pid) }
    ensures { OnOk result ((me : Process) → process_at parts.now pid ≡ Some me → Has parts.now pid me [] asked.old → Has parts.now pid me (begun_walks parts.now pid me (walks_in walks.entry) count) asked.new) }
{
    match walks {
        Walks::Zero => Ok(()),
        Walks::One(walk) => push_walk(alloc, asked, parts, pid, walk, count >= 1),
        Walks::Two(first, second) => {
            push_walk(alloc, asked, parts, pid, first, count >= 1)?;
            push_walk(alloc, asked, parts, pid, second, count >= 2)
        }
    }
}

/// Returns the walks of a live process's call that were checked, given the state before the call and the number of
/// walks that it began, and the permissions that they used.
///
/// # Errors
///
/// `AllocError`, if there is no memory.
pub(crate) fn asked_by(
    alloc: Global,
    parts: &Parts,
    pid: u32,
    call: CallRef<'_>,
    count: u8,
) -> Result<Asked, AllocError>
    requires whole { IsValid parts.now }
    requires live { IsSome (process_at parts.now pid) }
    ensures { IfOk result (λ asked. (me : Process) → process_at parts.now pid ≡ Some me → Has parts.now pid me (walks_begun parts.now pid me (call_of call.entry) count) asked) }
{
    let mut asked = Asked::new(alloc);
    if is_unveil(call) {
        return Ok(asked);
    }
    push_walks(alloc, &mut asked, parts, pid, call.walks(), count)?;
    Ok(asked)
}
