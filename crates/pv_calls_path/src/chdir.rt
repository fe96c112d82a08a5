//! Change of the working directory along a path: chdir(2).
ghost use Rattle.std.specs.Prelude.{IsTrue};
ghost use Rattle.pv_laws_states.specs.States.{is_text};
ghost use Rattle.pv_model.specs.Machine.{chdir, find_entry};
ghost use Rattle.pv_calls_plain.specs.Performed.{IsPerformed};
ghost use Rattle.pv_calls_path.specs.Caller.{IsCaller};

use crate::reach::reach_node;
use crate::system::System;
use pv_calls_plain::answer::{Done, Refused, answer_of, refusal};
use pv_model::{Errno, Text, Walk};
use pv_namei::Lookup;

/// Makes the directory at a path the working directory of a live process, as chdir(2), and returns 0.
///
/// # Errors
///
/// The first of these that applies:
///
/// - an error of the walk, then of the unveil check;
/// - `ENOENT`, if nothing exists at the path;
/// - `ENOTDIR`, if it is not a directory.
pub fn chdir<L: Lookup + Drop>(
    system: &mut System<L>,
    pid: u32,
    path: &Text,
) -> Result<Done, Refused>
    requires caller { IsCaller (L.agrees system.old.lookup) system.old.parts pid }
    requires text { IsTrue (is_text path.now) }
    ensures performed { IsPerformed (λ s me. chdir s pid me path.now)
        system.old.parts pid system.new.parts result }
    ensures agrees { L.agrees system.new.lookup (find_entry system.new.parts.tree) }
{
    let System {
        parts,
        lookup,
        links,
    } = system;
    let walk = Walk::chdir(path);
    let node = reach_node(parts, lookup, pid, walk, &mut links.first)?;
    if !parts.tree().is_directory(node) {
        return Err(refusal(1, Errno::ENOTDIR));
    }
    parts.set_directory(pid, node);
    answer_of(1, 0)
}
