//! Walks to places, and the unveil check at their end.
ghost use Rattle.std.specs.Prelude.{◌≡◌, if◌then◌else◌, IfOk, IfErr, IsTrue};
ghost use Rattle.pv_laws_states.specs.States.{IsValid, is_text};
ghost use Rattle.pv_model.specs.Machine.{ends_in_dot, walk_of, find_entry, is_directory_at, begins_walk};
ghost use Rattle.pv_calls_path.specs.Caller.{IsCaller};
ghost use Rattle.pv_calls_path.specs.Reached.{Finds, LeadsToFinePlace, LeadsNowhere, Misses, MissesOne, Reaches, ReachesFrom, ReachesNode, Stops, StopsFrom, StopsSecond};

use crate::links::LinkRoom;
use pv_calls_plain::answer::{Refused, refusal};
use pv_calls_plain::calls_state::Parts;
use pv_model::limits::PATH;
use pv_model::{Cause, Errno, Follow, Judgement, Place, Text, Walk};
use pv_namei as namei;
use pv_namei::tree::PlaceRef;
use pv_namei::{Lookup, resolve_ref};

/// Returns the number of walks that a path begins: 0 if it is empty or too long, and 1 otherwise.
pub(crate) fn walks_begun(path: &[u8]) -> u8
    ensures { result ≡ (if begins_walk path.now then 1 else 0) }
{
    if path.is_empty() || path.len() > PATH {
        0
    } else {
        1
    }
}

/// Returns whether the last component of a path is `.` or `..`.
pub(crate) fn ends_in_dot(path: &Text) -> bool
    ensures { result ≡ ends_in_dot path.now }
{
    namei::ends_in_dot(path.as_slice())
}

// `walk_to` and `reach_from` are inlined, so that a place is not copied at each return.

/// Walks a path from a directory and returns the place at its end, without the unveil check. The name of the place
/// borrows from `path` or, if a link was followed, from `links`.
///
/// # Errors
///
/// An error of the walk.
#[inline(always)]
pub(crate) fn walk_to<'a, L: Lookup>(
    parts: &Parts,
    lookup: &mut L,
    start: u16,
    follow: Follow,
    path: &'a [u8],
    links: &'a mut Option<Place>,
) -> Result<PlaceRef<'a>, Refused>
    requires whole { IsValid parts.now }
    requires start { IsTrue (is_directory_at parts.now.tree start) }
    requires text { IsTrue (is_text path.now) }
    requires agrees { L.agrees lookup.old (find_entry parts.now.tree) }
    ensures leads { IfOk result (LeadsToFinePlace parts.now start follow path.now) }
    ensures nowhere { IfErr result (LeadsNowhere parts.now start follow path.now) }
    ensures agrees { L.agrees lookup.new (find_entry parts.now.tree) }
{
    match resolve_ref(parts.tree(), lookup, start, path, follow, links) {
        Ok(place) => Ok(place),
        Err(errno) => Err(refusal(walks_begun(path), errno)),
    }
}

/// Walks a path from a directory and returns the place at its end, if the process's unveil table allows the needed
/// permissions there. The name of the place borrows from `path` or, if a link was followed, from `links`.
///
/// # Errors
///
/// An error of the walk. Otherwise `ENOENT`, if no entry governs the place, or `EACCES`, if the entry that governs it
/// lacks a permission, as unveil(2).
#[inline(always)]
pub(crate) fn reach_from<'a, L: Lookup>(
    parts: &Parts,
    lookup: &mut L,
    pid: u32,
    start: u16,
    walk: Walk<'a>,
    links: &'a mut Option<Place>,
) -> Result<PlaceRef<'a>, Refused>
    requires caller { IsCaller (L.agrees lookup.old) parts.now pid }
    requires start { IsTrue (is_directory_at parts.now.tree start) }
    requires text { IsTrue (is_text walk.path.now) }
    ensures reaches { IfOk result (ReachesFrom parts.now pid (λ _. start) (walk_of walk.entry)) }
    ensures stops { IfErr result (StopsFrom parts.now pid (λ _. start) (walk_of walk.entry)) }
    ensures agrees { L.agrees lookup.new (find_entry parts.now.tree) }
{
    let place = walk_to(
        parts,
        lookup,
        start,
        walk.follow,
        walk.path.as_slice(),
        links,
    )?;
    let unveiled = &parts.record(pid).unveiled;
    match unveiled.judge(parts.tree(), &place, walk.needed) {
        Judgement::Allowed => Ok(place),
        Judgement::Hidden => Err(Refused {
            walks: 1,
            errno: Errno::ENOENT,
            cause: Cause::Unveil(None),
        }),
        Judgement::Denied(entry) => Err(Refused {
            walks: 1,
            errno: Errno::EACCES,
            cause: Cause::Unveil(Some(entry)),
        }),
    }
}

/// Does the same as `reach_from`, from the working directory.
pub(crate) fn reach<'a, L: Lookup>(
    parts: &Parts,
    lookup: &mut L,
    pid: u32,
    walk: Walk<'a>,
    links: &'a mut Option<Place>,
) -> Result<PlaceRef<'a>, Refused>
    requires caller { IsCaller (L.agrees lookup.old) parts.now pid }
    requires text { IsTrue (is_text walk.path.now) }
    ensures reaches { IfOk result (Reaches parts.now pid (walk_of walk.entry)) }
    ensures stops { IfErr result (Stops parts.now pid (walk_of walk.entry)) }
    ensures agrees { L.agrees lookup.new (find_entry parts.now.tree) }
{
    let start = parts.record(pid).directory;
    reach_from(parts, lookup, pid, start, walk, links)
}

// Does the same as `reach` for the second walk of a call. A refusal counts the first walk too.
fn reach_second<'a, L: Lookup>(
    parts: &Parts,
    lookup: &mut L,
    pid: u32,
    walk: Walk<'a>,
    links: &'a mut Option<Place>,
) -> Result<PlaceRef<'a>, Refused>
    requires caller { IsCaller (L.agrees lookup.old) parts.now pid }
    requires text { IsTrue (is_text walk.path.now) }
    ensures reaches { IfOk result (Reaches parts.now pid (walk_of walk.entry)) }
    ensures stops { IfErr result (StopsSecond parts.now pid (walk_of walk.entry)) }
    ensures agrees { L.agrees lookup.new (find_entry parts.now.tree) }
{
    match reach(parts, lookup, pid, walk, links) {
        Ok(place) => Ok(place),
        Err(refused) => Err(Refused {
            walks: 1 + refused.walks,
            errno: refused.errno,
            cause: refused.cause,
        }),
    }
}

/// A node at the end of a walk, with its place.
#[derive(Drop)]
pub(crate) struct FoundNode<'a> {
    /// The node.
    pub(crate) node: u16,
    /// The place of the node.
    pub(crate) place: PlaceRef<'a>,
}

/// Walks from the working directory to an existing node, and returns it with its place. After the errors of the walk
/// and of the unveil check, the error is `ENOENT` if nothing exists there.
pub(crate) fn reach_found<'a, L: Lookup>(
    parts: &Parts,
    lookup: &mut L,
    pid: u32,
    walk: Walk<'a>,
    links: &'a mut Option<Place>,
) -> Result<FoundNode<'a>, Refused>
    requires caller { IsCaller (L.agrees lookup.old) parts.now pid }
    requires text { IsTrue (is_text walk.path.now) }
    ensures reaches { IfOk result
        (λ f. ReachesNode parts.now pid (walk_of walk.entry) f.place f.node) }
    ensures missed { IfErr result (Misses parts.now pid (walk_of walk.entry)) }
    ensures agrees { L.agrees lookup.new (find_entry parts.now.tree) }
{
    let place = reach(parts, lookup, pid, walk, links)?;
    match place.node() {
        Some(node) => Ok(FoundNode { node, place }),
        None => Err(refusal(1, Errno::ENOENT)),
    }
}

/// Does the same as `reach_found`, and returns the node alone.
pub(crate) fn reach_node<L: Lookup>(
    parts: &Parts,
    lookup: &mut L,
    pid: u32,
    walk: Walk<'_>,
    links: &mut Option<Place>,
) -> Result<u16, Refused>
    requires caller { IsCaller (L.agrees lookup.old) parts.now pid }
    requires text { IsTrue (is_text walk.path.now) }
    ensures finds { IfOk result (Finds parts.now pid (walk_of walk.entry)) }
    ensures missed { IfErr result (Misses parts.now pid (walk_of walk.entry)) }
    ensures agrees { L.agrees lookup.new (find_entry parts.now.tree) }
{
    let found = reach_found(parts, lookup, pid, walk, links)?;
    Ok(found.node)
}

/// The ends of both walks of a call.
#[derive(Drop)]
pub(crate) struct Both<'a> {
    /// The node at the end of the first walk.
    pub(crate) node: u16,
    /// The place at the end of the first walk.
    pub(crate) first: PlaceRef<'a>,
    /// The place at the end of the second walk.
    pub(crate) second: PlaceRef<'a>,
}

/// Walks two paths from the working directory, and returns both places with the node at the first. After the errors of
/// the first walk and its unveil check, and of the second walk and its unveil check, the error is `ENOENT` if nothing
/// exists at the first place.
pub(crate) fn reach_both<'a, L: Lookup>(
    parts: &Parts,
    lookup: &mut L,
    pid: u32,
    first: Walk<'a>,
    second: Walk<'a>,
    links: &'a mut LinkRoom,
) -> Result<Both<'a>, Refused>
    requires caller { IsCaller (L.agrees lookup.old) parts.now pid }
    requires text { IsTrue (is_text first.path.now) }
    requires other { IsTrue (is_text second.path.now) }
    ensures first { IfOk result
        (λ b. ReachesNode parts.now pid (walk_of first.entry) b.first b.node) }
    ensures second { IfOk result (λ b. Reaches parts.now pid (walk_of second.entry) b.second) }
    ensures missed { IfErr result
        (MissesOne parts.now pid (walk_of first.entry) (walk_of second.entry)) }
    ensures agrees { L.agrees lookup.new (find_entry parts.now.tree) }
{
    let place = reach(parts, lookup, pid, first, &mut links.first)?;
    let other = reach_second(parts, lookup, pid, second, &mut links.second)?;
    match place.node() {
        Some(node) => Ok(Both {
            node,
            first: place,
            second: other,
        }),
        None => Err(refusal(2, Errno::ENOENT)),
    }
}
