//! The live processes, with their access to the audited file.
ghost use Rattle.std.specs.Prelude.{◌≡◌, map, true, IsTrue, IsSome};
ghost use Rattle.std.specs.FinMap.Entries.{is_sorted};
ghost use Rattle.std.specs.Ordering.{nat_cmp};
ghost use Rattle.pv_audit.specs.Findings.{are_live, note_of, with_names_noted, suspect};
ghost use Rattle.pv_model.specs.Machine.{live_processes, process_at, is_directory_at, names_of};

use crate::table_access::TableAccess;
use arrayvec::ArrayVec;
use pv_calls_state::Parts;
use pv_model::Name;
use pv_model::limits::{LAST_PROCESS, PROCESSES};

/// A live process, with the access that its table gives to the audited file.
#[derive(Clone, Copy, Default)]
pub(crate) struct Suspect {
    /// The number of the process.
    pub(crate) pid: u32,
    /// The access that its table gives by the names noted so far.
    pub(crate) table_access: TableAccess,
}

/// All live processes.
pub(crate) type Suspects = ArrayVec<Suspect, PROCESSES>;

impl Suspect {
    /// Returns a process for which no name is noted yet.
    pub(crate) fn new(pid: u32) -> Suspect
        ensures { result ≡ suspect pid }
    {
        Suspect {
            pid,
            table_access: TableAccess::nothing(),
        }
    }

    // Adds the access that the table of the process gives by another name of the file.
    fn note(&mut self, parts: &Parts, directory: u16, name: &Name)
        requires live { IsSome (process_at parts.now self.old.pid) }
        requires directory { IsTrue (is_directory_at parts.now.tree directory) }
        ensures { self.new ≡ note_of parts.now (directory, name.now) self.old }
    {
        let table = &parts.record(self.pid).unveiled;
        self.table_access.note(table, parts.tree(), directory, name);
    }
}

// Adds the access that the table of each process gives by another name of the file.
fn note_name(parts: &Parts, suspects: &mut [Suspect], directory: u16, name: &Name)
    requires live { are_live parts.now suspects.old ≡ true }
    requires directory { IsTrue (is_directory_at parts.now.tree directory) }
    ensures { suspects.new ≡ map (note_of parts.now (directory, name.now)) suspects.old }
{
    for k in 0..suspects.len() {
        suspects[k].note(parts, directory, name);
    }
}

/// Enumerates the names of a file, and adds to each process the access that its table gives by them.
pub(crate) fn note_names(parts: &Parts, node: u16, suspects: &mut [Suspect])
    requires { are_live parts.now suspects.old ≡ true }
    ensures { suspects.new ≡ map (with_names_noted parts.now (names_of parts.now.tree node)) suspects.old }
{
    let tree = parts.tree();
    // The contract of `invariant` states that the tree is well-formed.
    tree.invariant();
    let mut next = tree.next_name(node, None);
    while let Some((directory, name)) = next {
        note_name(parts, suspects, directory, &name);
        next = tree.next_name(node, Some((directory, name.as_slice())));
    }
}

// Returns all live processes in the order of their numbers, with no name noted.
fn live_suspects(parts: &Parts) -> Suspects
    ensures { result.items ≡ map (λ p. suspect p.0) (live_processes parts.now.processes) }
{
    parts.invariant();
    let mut suspects = Suspects::new();
    for pid in 0..LAST_PROCESS + 1 {
        if parts.processes().live(pid) {
            suspects.push(Suspect::new(pid));
        }
    }
    suspects
}

/// Returns all live processes in the order of their numbers, with all names of the file noted.
pub(crate) fn found_suspects(parts: &Parts, node: u16) -> Suspects
    ensures items { result.items ≡ map (with_names_noted parts.now (names_of parts.now.tree node)) (map (λ p. suspect p.0) (live_processes parts.now.processes)) }
    ensures ordered { is_sorted nat_cmp parts.now.processes ≡ true }
{
    parts.invariant();
    let mut suspects = live_suspects(parts);
    note_names(parts, node, suspects.as_mut_slice());
    suspects
}
