//! Working directories and unveil targets: the references of a process to nodes.
ghost use Rattle.std.specs.Prelude.{◌≡◌, ◌<◌, ◌+◌, ℕ, [], ◌∷◌, length, nat_lt, if◌then◌else◌, IsSome, IfErr, IfOk, OnOk, OnErr, Some};
ghost use Rattle.std.specs.Option.{IsSomeAnd};
ghost use Rattle.pv_laws_states.specs.States.{IsValid};
ghost use Rattle.pv_model.specs.Machine.{update, give, entries_of_table, collect, Process, process_at, node_at, target_directory};
ghost use Rattle.pv_calls_state.specs.Changes.{AddsEntry, Unveils, unveiled_of, with_directory};
ghost use Rattle.pv_calls_state.specs.Counts.{times};
ghost use Rattle.pv_procs.specs.ProcessTable.{process_in, updated_table as process_updated};
ghost use Rattle.pv_procs.specs.OfTree.Holding.{holds_at};
ghost use Rattle.pv_procs.specs.OfUnveil.Added.{add_to, refusal_of_addition};

use super::Parts;
use pv_model::{Perms, Target};
use pv_procs::Processes;
use pv_procs::unveil::tree::Tree;
use pv_procs::unveil::{AddFault, Table};

// Returns the directory that an unveil entry for a target references.
pub(super) fn directory_of(target: &Target) -> u16
    ensures { result ≡ target_directory target.now }
{
    match target {
        Target::Directory(directory) => *directory,
        Target::Name { dir, .. } => *dir,
    }
}

// Sets the working directory of a live process, without counting references.
fn put_directory(processes: &mut Processes, pid: u32, directory: u16)
    requires { IsSome (process_in processes.old pid) }
    ensures { processes.new ≡ process_updated processes.old pid (with_directory directory) }
{
    processes.record_mut(pid).directory = directory;
}

// Adds an entry for a target to a table, or sets the permissions of the existing entry. Returns whether the entry is
// new.
fn add_to_table(table: &mut Table, target: Target, permissions: Perms) -> Result<bool, AddFault>
    ensures added { OnOk result
        (IsSomeAnd table.new.table
        (λ entries. add_to table.old target permissions ≡ give entries)) }
    ensures longer { IfOk result
        (λ is_new. is_new ≡ nat_lt (length (entries_of_table table.old.table))
        (length (entries_of_table table.new.table))) }
    ensures lock_stays { table.new.locked ≡ table.old.locked }
    ensures refused { IfErr result (λ fault. add_to table.old target permissions ≡ refusal_of_addition fault) }
    ensures unchanged { OnErr result (table.new ≡ table.old) }
{
    let count = table.len();
    table.add(target, permissions)?;
    Ok(table.len() > count)
}

// Adds an entry to the table of a live process, or sets the permissions of the existing entry. Returns whether the
// entry is new.
fn add_entry(
    processes: &mut Processes,
    pid: u32,
    target: Target,
    permissions: Perms,
) -> Result<bool, AddFault>
    requires { IsSome (process_in processes.old pid) }
    ensures added { IfOk result
        (λ is_new. (me : Process) → process_in processes.old pid ≡ Some me
        → AddsEntry processes.old pid me target permissions is_new processes.new) }
    ensures refused { IfErr result
        (λ fault. (me : Process) → process_in processes.old pid ≡ Some me
        → add_to (unveiled_of me) target permissions ≡ refusal_of_addition fault) }
    ensures unchanged { OnErr result (processes.new ≡ processes.old) }
{
    processes.invariant();
    add_to_table(&mut processes.record_mut(pid).unveiled, target, permissions)
}

// Adds one reference to a directory, if its entry is new.
fn hold_if(tree: &mut Tree, directory: u16, is_new: bool)
    requires node { IsSome (node_at tree.old.tree directory) }
    requires few { holds_at tree.old directory < 65535 }
    ensures tree { tree.new.tree ≡ tree.old.tree }
    ensures more { (n : ℕ)
        → holds_at tree.new n
        ≡ holds_at tree.old n + times n (if is_new then directory ∷ [] else []) }
{
    if is_new {
        tree.hold(directory);
    }
}

impl Parts {
    /// Sets the working directory of a live process, and drops the reference to the earlier one.
    pub fn set_directory(&mut self, pid: u32, directory: u16)
        requires whole { IsValid self.old }
        requires live { IsSome (process_at self.old pid) }
        requires there { IsSome (node_at self.old.tree directory) }
        ensures { self.new ≡ collect (update self.old pid (with_directory directory)) }
    {
        self.tree.invariant();
        self.files.invariant();
        let left = self.processes.record(pid).directory;
        self.tree.hold(directory);
        put_directory(&mut self.processes, pid, directory);
        self.tree.unreference(left);
    }

    /// Adds an entry for a target to the unveil table of a live process, or sets the permissions of the existing entry.
    ///
    /// # Errors
    ///
    /// The first error of `Table::add`. The state is then unchanged.
    pub fn unveil(&mut self, pid: u32, target: Target, permissions: Perms) -> Result<(), AddFault>
        requires whole { IsValid self.old }
        requires live { IsSome (process_at self.old pid) }
        requires there { IsSome (node_at self.old.tree (target_directory target)) }
        ensures added { OnOk result
            ((me : Process) → process_at self.old pid ≡ Some me
            → Unveils self.old pid me target permissions self.new) }
        ensures refused { IfErr result
            (λ fault. (me : Process) → process_at self.old pid ≡ Some me
            → add_to (unveiled_of me) target permissions ≡ refusal_of_addition fault) }
        ensures unchanged { OnErr result (self.new ≡ self.old) }
    {
        self.tree.invariant();
        self.files.invariant();
        let directory = directory_of(&target);
        let is_new = add_entry(&mut self.processes, pid, target, permissions)?;
        hold_if(&mut self.tree, directory, is_new);
        Ok(())
    }
}
