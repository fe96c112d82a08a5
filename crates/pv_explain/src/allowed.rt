//! The reasons why the walks of a call were allowed.
ghost use Rattle.std.specs.Prelude.{◌≡◌, if◌then◌else◌, option_map, IsSome, IsTrue, None, Some};
ghost use Rattle.pv_explain.specs.Added.{allowed_in, no_pair, pair_before, allowed_pair_in, walk_before};
ghost use Rattle.pv_laws_states.specs.States.{IsValid};
ghost use Rattle.pv_model.specs.Machine.{call_of, is_directory_at, process_at, walk_of, Process};
ghost use Rattle.pv_model_questions.specs.ExplainMore.{allowed_at, allowed_by, is_of_directory, known_by, named_target};
ghost use Rattle.pv_model.specs.Unveil.{target_of};
ghost use Rattle.pv_unveil.specs.Up.{directory_of_place};

use crate::levels::governing_level;
use pv_model::{CallRef, Judgement, Perms, Place, Target, Walk, Walks};
use pv_step_lines::answers::is_unveil;
use pv_step_lines::answers::unveil::Table;
use pv_step_lines::calls_path::ends::end_of;
use pv_step_lines::calls_state::Parts;
use pv_tree::{PlaceRef, Tree};

/// An entry that allowed a walk.
#[derive(Clone, Copy)]
pub(crate) struct AllowingEntry {
    /// The number of the entry.
    pub(crate) number: u8,
    /// The permissions of the entry.
    pub(crate) permissions: Perms,
}

/// A walk that was allowed.
#[derive(Drop)]
pub(crate) struct AllowedWalk {
    /// Whether the level that allowed it is a directory.
    pub(crate) of_directory: bool,
    /// The target of that level, by the name of the place if the level is the place itself.
    pub(crate) target: Target,
    /// The permissions that the walk asked for.
    pub(crate) asked: Perms,
    /// The entry of that level, or `None` if there is no table.
    pub(crate) entry: Option<AllowingEntry>,
}

/// The allowed walks of a call, at most two.
#[derive(Drop)]
pub(crate) struct AllowedWalks {
    /// The first walk, if it is allowed.
    pub(crate) first: Option<AllowedWalk>,
    /// The second walk, if it is allowed.
    pub(crate) second: Option<AllowedWalk>,
}

// Returns whether a target is a directory.
fn is_of_directory(target: &Target) -> bool
    ensures { result ≡ is_of_directory target.now }
{
    match target {
        Target::Directory(_) => true,
        Target::Name { .. } => false,
    }
}

// Returns whether the target of a place is a directory.
fn is_directory_place(tree: &Tree, place: &Place) -> bool
    ensures { result ≡ is_of_directory (target_of tree.now.tree place.now) }
{
    match place {
        Place::Node(_) => true,
        Place::At { node, .. } => match node {
            Some(node) => tree.is_directory(*node),
            None => false,
        },
    }
}

// Returns the target of a place by its name, if it has one.
fn named_target(place: Place) -> Target
    ensures { result ≡ named_target place }
{
    match place {
        Place::Node(node) => Target::Directory(node),
        Place::At { dir, name, .. } => Target::Name { dir, name },
    }
}

// Returns whether a directory is the node of a place that has a name.
fn is_named(place: &Place, directory: u16) -> bool
    ensures { (if result then named_target place.now else Target.Directory directory) ≡ known_by place.now (Target.Directory directory) }
{
    match place {
        Place::Node(_) => false,
        Place::At { node, .. } => match node {
            Some(node) => *node == directory,
            None => false,
        },
    }
}

// Returns the target of a level of a place, by the name of the place if the level is the place itself.
fn known_by(place: Place, target: Target) -> Target
    ensures { result ≡ known_by place target }
{
    match target {
        Target::Directory(directory) => {
            if is_named(&place, directory) {
                named_target(place)
            } else {
                Target::Directory(directory)
            }
        }
        Target::Name { dir, name } => Target::Name { dir, name },
    }
}

// Returns a walk to a place that an entry allowed, or a walk without a table.
fn allowed_by(tree: &Tree, table: &Table, asked: Perms, place: Place) -> Option<AllowedWalk>
    requires { IsTrue (is_directory_at tree.now.tree (directory_of_place place)) }
    ensures { option_map allowed_in result ≡ allowed_by tree.now.tree table.now.table asked place }
{
    if table.is_empty() {
        return Some(AllowedWalk {
            of_directory: is_directory_place(tree, &place),
            target: named_target(place),
            asked,
            entry: None,
        });
    }
    let level = governing_level(tree, table, &place)?;
    let entry = AllowingEntry {
        number: level.entry,
        permissions: table.permissions(level.entry),
    };
    Some(AllowedWalk {
        of_directory: is_of_directory(&level.target),
        target: known_by(place, level.target),
        asked,
        entry: Some(entry),
    })
}

// Returns a walk to a place, if the table allows it.
fn allowed_at(tree: &Tree, table: &Table, asked: Perms, place: Place) -> Option<AllowedWalk>
    requires { IsTrue (is_directory_at tree.now.tree (directory_of_place place)) }
    ensures { option_map allowed_in result ≡ allowed_at tree.now.tree table.now.table asked place }
{
    match table.judge(tree, &PlaceRef::of(&place), asked) {
        Judgement::Allowed => allowed_by(tree, table, asked, place),
        Judgement::Hidden | Judgement::Denied(_) => None,
    }
}

// Returns a walk of a live process, if it ends at a place that the table allows.
fn allowed_walk(parts: &Parts, pid: u32, walk: Walk<'_>) -> Option<AllowedWalk>
    requires whole { IsValid parts.now }
    requires live { IsSome (process_at parts.now pid) }
    ensures { (me : Process) → process_at parts.now pid ≡ Some me → option_map allowed_in result ≡ walk_before parts.now pid me (walk_of walk.entry) }
{
    let place = end_of(parts, pid, walk)?;
    let table = &parts.record(pid).unveiled;
    allowed_at(parts.tree(), table, walk.needed, place)
}

impl AllowedWalks {
    // Returns no walks.
    fn none() -> AllowedWalks
        ensures { allowed_pair_in result ≡ no_pair }
    {
        AllowedWalks {
            first: None,
            second: None,
        }
    }

    // Returns the allowed walks of a live process's call, in the state before it.
    fn of_call(parts: &Parts, pid: u32, call: CallRef<'_>) -> AllowedWalks
        requires whole { IsValid parts.now }
        requires live { IsSome (process_at parts.now pid) }
        ensures { (me : Process) → process_at parts.now pid ≡ Some me → allowed_pair_in result ≡ pair_before parts.now pid me (call_of call.entry) }
    {
        if is_unveil(call) {
            return AllowedWalks::none();
        }
        match call.walks() {
            Walks::Zero => AllowedWalks::none(),
            Walks::One(walk) => AllowedWalks {
                first: allowed_walk(parts, pid, walk),
                second: None,
            },
            Walks::Two(first, second) => AllowedWalks {
                first: allowed_walk(parts, pid, first),
                second: allowed_walk(parts, pid, second),
            },
        }
    }

    /// Returns the allowed walks of a live process's call, in the state before it, or no walks unless they are
    /// requested. The walk of an unveil(2) is not checked.
    pub(crate) fn before(
        parts: &Parts,
        pid: u32,
        call: CallRef<'_>,
        are_written: bool,
    ) -> AllowedWalks
        requires whole { IsValid parts.now }
        requires live { IsSome (process_at parts.now pid) }
        ensures { (me : Process) → process_at parts.now pid ≡ Some me → allowed_pair_in result ≡ (if are_written then pair_before parts.now pid me (call_of call.entry) else no_pair) }
    {
        if are_written {
            AllowedWalks::of_call(parts, pid, call)
        } else {
            AllowedWalks::none()
        }
    }
}
