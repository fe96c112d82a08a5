//! Calls that inspect a path: stat(2), lstat(2), readlink(2).
ghost use Rattle.std.specs.Prelude.{◌≡◌, IsTrue};
ghost use Rattle.pv_laws_states.specs.States.{is_text};
ghost use Rattle.pv_model.specs.declared.call.Start.TheVariants.{WorkingDirectory};
ghost use Rattle.pv_model.specs.Machine.{walk_of, readlink, stat_at, find_entry};
ghost use Rattle.pv_model.specs.Calls.Paths.{lstat, stat};
ghost use Rattle.pv_calls_plain.specs.Performed.{IsAnswered};
ghost use Rattle.pv_calls_path.specs.Caller.{IsCaller};

use crate::opening::is_link;
use crate::reach::reach_node;
use crate::system::System;
use pv_calls_plain::answer::{Answer, Done, refusal, report, report_bytes};
use pv_calls_plain::status::status;
use pv_model::limits::LINK_TEXT;
use pv_model::{Errno, Text, Walk};
use pv_namei::Lookup;

// Reports the status of the node at the end of a walk from the working directory.
fn stat_at<L: Lookup + Drop>(system: &mut System<L>, pid: u32, walk: Walk<'_>) -> Answer
    requires caller { IsCaller (L.agrees system.old.lookup) system.old.parts pid }
    requires here { walk.start ≡ WorkingDirectory }
    requires text { IsTrue (is_text walk.path.now) }
    ensures performed { IsAnswered (λ s me. stat_at s pid me (walk_of walk.entry))
        system.old.parts pid system.new.parts result }
    ensures agrees { L.agrees system.new.lookup (find_entry system.new.parts.tree) }
{
    let System {
        parts,
        lookup,
        links,
    } = system;
    match reach_node(parts, lookup, pid, walk, &mut links.first) {
        Ok(node) => {
            parts.invariant();
            let bytes = status(parts.tree(), node);
            report_bytes(parts, pid, Done { walks: 1, value: 0 }, &bytes)
        }
        Err(refused) => report(parts, pid, Err(refused)),
    }
}

/// Reports the status of the node at a path, as stat(2). A final link is followed. Eight bytes are stored at the start
/// of the buffer, and the answer is 0.
///
/// The call is refused with an error of the walk, then of the unveil check, then with `ENOENT` if nothing exists at the
/// path.
pub fn stat<L: Lookup + Drop>(system: &mut System<L>, pid: u32, path: &Text) -> Answer
    requires caller { IsCaller (L.agrees system.old.lookup) system.old.parts pid }
    requires text { IsTrue (is_text path.now) }
    ensures performed { IsAnswered (λ s me. stat s pid me path.now)
        system.old.parts pid system.new.parts result }
    ensures agrees { L.agrees system.new.lookup (find_entry system.new.parts.tree) }
{
    stat_at(system, pid, Walk::stat(path))
}

/// Reports the status of the node at a path, as lstat(2). A final link is not followed.
///
/// The call is refused for the same reasons as `stat`.
pub fn lstat<L: Lookup + Drop>(system: &mut System<L>, pid: u32, path: &Text) -> Answer
    requires caller { IsCaller (L.agrees system.old.lookup) system.old.parts pid }
    requires text { IsTrue (is_text path.now) }
    ensures performed { IsAnswered (λ s me. lstat s pid me path.now)
        system.old.parts pid system.new.parts result }
    ensures agrees { L.agrees system.new.lookup (find_entry system.new.parts.tree) }
{
    stat_at(system, pid, Walk::lstat(path))
}

/// Reads the target of a symbolic link, as readlink(2). The text is stored at the start of the buffer, and the
/// answer is its length.
///
/// The call is refused with an error of the walk, then of the unveil check, then with `ENOENT` if nothing exists at the
/// path, then with `EINVAL` if it is not a symbolic link.
#[inline(never)]
pub fn readlink<L: Lookup + Drop>(system: &mut System<L>, pid: u32, path: &Text) -> Answer
    requires caller { IsCaller (L.agrees system.old.lookup) system.old.parts pid }
    requires text { IsTrue (is_text path.now) }
    ensures performed { IsAnswered (λ s me. readlink s pid me path.now)
        system.old.parts pid system.new.parts result }
    ensures agrees { L.agrees system.new.lookup (find_entry system.new.parts.tree) }
{
    let System {
        parts,
        lookup,
        links,
    } = system;
    let walk = Walk::readlink(path);
    let node = match reach_node(parts, lookup, pid, walk, &mut links.first) {
        Ok(node) => node,
        Err(refused) => return report(parts, pid, Err(refused)),
    };
    if !is_link(parts.tree(), node) {
        return report(parts, pid, Err(refusal(1, Errno::EINVAL)));
    }
    let mut text = [0; LINK_TEXT];
    let length = parts.tree().read_at(node, 0, &mut text);
    parts.invariant();
    let reported = Done {
        walks: 1,
        value: length as u32,
    };
    report_bytes(parts, pid, reported, &text[..length])
}
