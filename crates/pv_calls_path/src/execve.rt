//! Program images: execve(2).
ghost use Rattle.std.specs.Prelude.{◌≡◌, IsTrue, OnErr, Some};
ghost use Rattle.pv_laws_states.specs.States.{is_text};
ghost use Rattle.pv_model.specs.declared.outcome.Cause.TheVariants.{Plain};
ghost use Rattle.pv_model.specs.Machine.{Process, process_at, find_entry};
ghost use Rattle.pv_calls_path.specs.Caller.{IsCaller};
ghost use Rattle.pv_calls_path.specs.Execve.{Executes};

use crate::programs::read_program;
use crate::reach::reach_found;
use crate::system::System;
use pv_calls_plain::answer::{Done, Refused, refusal};
use pv_model::{Errno, Kind, ParseFault, Text, Walk};
use pv_namei::Lookup;
use std::alloc::Global;

/// The reason why execve(2) did not replace the program.
#[derive(Clone, Copy)]
pub enum ExecveFault {
    /// The call is refused.
    Refused(Refused),
    /// There is no memory for the program. The call has not been made.
    Memory,
}

// Returns a refusal after one walk.
fn refused(errno: Errno) -> ExecveFault
    ensures { result ≡ ExecveFault.Refused (record { walks = 1; errno = errno; cause = Plain }) }
{
    ExecveFault::Refused(refusal(1, errno))
}

/// Replaces the program of a live process by the one in an executable file, as execve(2), and returns 0.
///
/// # Errors
///
/// `Refused`, with the first of these errors that applies:
///
/// - an error of the walk, then of the unveil check;
/// - `ENOENT`, if nothing exists at the path;
/// - `EACCES`, if it is not an executable file;
/// - `ENOEXEC`, if its bytes do not parse as a program.
///
/// `Memory`, if there is no memory for the program; the call would otherwise have succeeded or failed with `ENOEXEC`.
///
/// The state is unchanged after an error.
pub fn execve<L: Lookup + Drop>(
    alloc: Global,
    system: &mut System<L>,
    pid: u32,
    path: &Text,
) -> Result<Done, ExecveFault>
    requires caller { IsCaller (L.agrees system.old.lookup) system.old.parts pid }
    requires text { IsTrue (is_text path.now) }
    ensures performed { (me : Process) → process_at system.old.parts pid ≡ Some me
        → Executes system.old.parts pid me path.now system.new.parts result }
    ensures unchanged { OnErr result (system.new.parts ≡ system.old.parts) }
    ensures agrees { L.agrees system.new.lookup (find_entry system.new.parts.tree) }
{
    let System {
        parts,
        lookup,
        links,
    } = system;
    let walk = Walk::execve(path);
    let node = match reach_found(parts, lookup, pid, walk, &mut links.first) {
        Ok(found) => found.node,
        Err(why) => return Err(ExecveFault::Refused(why)),
    };
    if parts.tree().kind(node) != Kind::Executable {
        return Err(refused(Errno::EACCES));
    }
    match read_program(alloc, parts.tree(), node) {
        Ok(program) => {
            parts.load(pid, program);
            Ok(Done { walks: 1, value: 0 })
        }
        Err(ParseFault::Line(..)) => Err(refused(Errno::ENOEXEC)),
        Err(ParseFault::Memory) => Err(ExecveFault::Memory),
    }
}
