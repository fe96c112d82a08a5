//! The state of the machine: its tree, its open files and its processes.
ghost use Rattle.std.specs.Prelude.{◌≡◌, ◌≤◌, IfOk, OnErr, OnOk, IsSome, Some, length, option_copied, option_map};
ghost use Rattle.pv_files.specs.Counted.{IsCounted};
ghost use Rattle.pv_model.specs.declared.limits.TheConstants.{BUFFER};
ghost use Rattle.pv_model.specs.Machine.{buffer_of, collect, first_state, process_at};
ghost use Rattle.pv_calls_state.specs.Counts.{processes_of};
ghost use Rattle.pv_procs.specs.Parts.{record_of};
ghost use Rattle.pv_procs.specs.ProcessTable.{IsProcessTable};
ghost use Rattle.pv_procs.specs.Turns.{context_of};
ghost use Rattle.pv_procs.specs.OfTree.Present.{IsPresent};
ghost use Rattle.pv_procs.specs.OfTree.Sizes.{HaveSameSizes};

mod descriptors;
mod ending;
mod files;
mod holding;
mod names;
mod process;

use pv_files::OpenFiles;
use pv_model::limits::ROOT;
use pv_procs::script::Program;
use pv_procs::unveil::tree::{Store, Tree};
use pv_procs::{ProcessRecord, Processes};
use std::alloc::{AllocError, Global};
use std::marker::Model;

/// The tree, the open files and the processes of the machine, with reference counts.
///
/// An open file is dropped with its last descriptor. A node is dropped when it has no name and no reference. Only `new`
/// allocates.
#[derive(Drop)]
pub struct Parts {
    tree: Tree,
    files: OpenFiles,
    processes: Processes,
}

impl Model for Parts {
    ghost use Rattle.pv_model.specs.State.{State};
    ghost use Rattle.pv_calls_state.specs.Counts.{state_of, IsCountedUp};

    ghost Value = { State };

    ghost view = { λ p. state_of p.tree p.files p.processes };

    ghost invariant = { λ p. IsCountedUp p.tree p.files p.processes };
}

impl Parts {
    /// Returns the state before the first step: process 1 runs `program` in the root of the tree in `store`.
    ///
    /// # Errors
    ///
    /// `AllocError`, if there is no memory for the tables. No other method of `Parts` allocates.
    pub fn new(alloc: Global, store: Store, program: Program) -> Result<Parts, AllocError>
        ensures { IfOk result (λ parts. parts ≡ first_state store program) }
    {
        let files = OpenFiles::new(alloc)?;
        let processes = Processes::new(alloc, program)?;
        let mut tree = Box::into_inner(store.into_tree());
        tree.invariant();
        tree.hold(ROOT);
        Ok(Parts {
            tree,
            files,
            processes,
        })
    }

    /// Makes this state equal to another one, in an image of the same sizes.
    ///
    /// # Errors
    ///
    /// `AllocError`, if the reference count of a program is at its limit. The state is then unchanged.
    pub fn copy_from(&mut self, other: &Parts) -> Result<(), AllocError>
        requires { HaveSameSizes self.old.tree other.now.tree }
        ensures copied { OnOk result (self.new ≡ other.now) }
        ensures unchanged { OnErr result (self.new ≡ self.old) }
    {
        self.processes.copy_from(&other.processes)?;
        self.tree.copy_from(&other.tree);
        self.files.copy_from(&other.files);
        Ok(())
    }

    /// Does nothing. Its contract states that the state has no unused open file and no unreferenced node.
    pub fn invariant(&self)
        ensures collected { collect self.now ≡ self.now }
        ensures processes { IsProcessTable (processes_of self.now) }
    {
        self.tree.invariant();
        self.files.invariant();
        self.processes.invariant();
    }

    /// Returns the tree.
    pub fn tree(&self) -> &Tree
        ensures { result.now.tree ≡ self.now.tree }
    {
        &self.tree
    }

    /// Returns the open files.
    pub fn files(&self) -> &OpenFiles
        ensures { result.now.files ≡ self.now.files }
    {
        &self.files
    }

    /// Returns the processes.
    pub fn processes(&self) -> &Processes
        ensures { result.now ≡ processes_of self.now }
    {
        &self.processes
    }

    /// Returns the record of a live process.
    pub fn record(&self, pid: u32) -> &ProcessRecord
        requires { IsSome (process_at self.now pid) }
        ensures { option_map record_of (process_at self.now pid) ≡ Some result.now }
    {
        self.processes.record(pid)
    }

    /// Returns the record of a process, or `None` if the process is not live.
    pub fn live_record(&self, pid: u32) -> Option<&ProcessRecord>
        ensures { option_map record_of (process_at self.now pid) ≡ option_copied result }
    {
        self.processes.live_record(pid)
    }

    /// Returns the 4,096 bytes of a process's buffer, or no bytes if the process is not live. The bytes of an outcome
    /// are at the front of the buffer.
    pub fn buffer(&self, pid: u32) -> &[u8]
        ensures value { result.now ≡ buffer_of (process_at self.now pid) }
        ensures size { length result.now ≤ BUFFER }
    {
        match self.live_record(pid) {
            Some(record) => record.context.buffer(),
            None => &[],
        }
    }
}
