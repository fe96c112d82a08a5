//! Creation and end of processes, and program images: fork(2), wait(2), exit(3), execve(2).
ghost use Rattle.std.specs.Prelude.{◌≡◌, if◌then◌else◌, ℕ, ◌+◌, ◌<◌, ◌≤◌, [], IsSome, is_some, OnErr, Some, option_map, slice_index};
ghost use Rattle.pv_laws_states.specs.States.{IsValid};
ghost use Rattle.pv_model.specs.Machine.{update, end_process, fork, wait, with_program, collect, held_by_table, at_number, Process, process_at, node_at};
ghost use Rattle.pv_calls_state.specs.Attempts.{IsDone, collected_attempt};
ghost use Rattle.pv_calls_state.specs.Counts.{times};
ghost use Rattle.pv_calls_state.specs.Releasing.{files_on, if_marked, marked_of, HoldsOpened, Releases, Shares, Unreferences};
ghost use Rattle.pv_procs.specs.Reaping.{waited};
ghost use Rattle.pv_procs.specs.OfTree.Holding.{holds_at};

use super::Parts;
use super::descriptors::{file_at, release};
use super::holding::directory_of;
use pv_files::{Descriptors, OpenFiles};
use pv_model::Errno;
use pv_model::limits::DESCRIPTORS;
use pv_procs::Reap;
use pv_procs::promises::Pledge;
use pv_procs::script::Program;
use pv_procs::unveil::Table;
use pv_procs::unveil::tree::Tree;

impl Parts {
    /// Makes a child of a live process, as fork(2), and returns its number.
    ///
    /// The child shares the open files of its parent and references the same nodes.
    ///
    /// # Errors
    ///
    /// `EAGAIN`, if there are 32 processes, live or ended and not yet waited for, or if the last number given was
    /// 99,999. The state is then unchanged.
    pub fn fork(&mut self, pid: u32) -> Result<u32, Errno>
        requires whole { IsValid self.old }
        requires live { IsSome (process_at self.old pid) }
        ensures performed { IsDone (λ s me. fork s pid me) self.old pid self.new result }
        ensures unchanged { OnErr result (self.new ≡ self.old) }
    {
        self.tree.invariant();
        self.files.invariant();
        let child = self.processes.fork(pid)?;
        let record = self.processes.record(child);
        self.tree.hold(record.directory);
        hold_targets(&mut self.tree, &record.unveiled);
        share(&mut self.files, &record.descriptors);
        self.tree.invariant();
        self.files.invariant();
        Ok(child)
    }

    /// Waits for an ended child, as wait(2). The ended child with the lowest number is reported and removed.
    pub fn reap(&mut self, pid: u32) -> Reap
        requires { IsSome (process_at self.old pid) }
        ensures performed { (me : Process) → process_at self.old pid ≡ Some me
            → collected_attempt (wait self.old pid me) ≡ waited result self.new }
        ensures blocked { result ≡ Reap.Blocked → self.new ≡ self.old }
        ensures unchanged { result ≡ Reap.NoChild → self.new ≡ self.old }
    {
        self.tree.invariant();
        self.files.invariant();
        self.processes.invariant();
        self.processes.reap(pid)
    }

    /// Ends a live process with the status that wait(2) will report to its parent. The open files and nodes that only
    /// this process used are dropped.
    pub fn end(&mut self, pid: u32, status: u32)
        requires whole { IsValid self.old }
        requires live { IsSome (process_at self.old pid) }
        ensures { (me : Process) → process_at self.old pid ≡ Some me
            → self.new ≡ collect (end_process self.old pid me status) }
    {
        self.tree.invariant();
        self.files.invariant();
        let record = self.processes.record(pid);
        release_all(&mut self.tree, &mut self.files, &record.descriptors);
        unreference_targets(&mut self.tree, &record.unveiled);
        self.tree.unreference(record.directory);
        self.processes.end(pid, status);
        self.files.invariant();
    }

    /// Gives a live process another program, as execve(2). Descriptors marked close-on-exec are closed. If the process
    /// has no execpromises, its unveil table is removed and the nodes that only the table referenced are dropped.
    pub fn load(&mut self, pid: u32, program: Program)
        requires whole { IsValid self.old }
        requires live { IsSome (process_at self.old pid) }
        ensures { self.new ≡ collect
            (update self.old pid (λ me. with_program self.old pid me program)) }
    {
        self.tree.invariant();
        self.files.invariant();
        let record = self.processes.record(pid);
        release_marked(&mut self.tree, &mut self.files, &record.descriptors);
        let keeps = keeps_table(&record.pledge);
        unreference_unless(&mut self.tree, &record.unveiled, keeps);
        self.processes.load(pid, program);
        self.files.invariant();
    }
}

// Returns whether execve keeps the unveil table, that is, whether there are execpromises.
fn keeps_table(pledge: &Pledge) -> bool
    ensures { result ≡ is_some pledge.now.execpromises }
{
    pledge.execpromises().is_some()
}

// Returns the number of the open file of descriptor `d`, or `None` if `d` is not open or not marked close-on-exec.
fn marked_file_at(descriptors: &Descriptors, d: u8) -> Option<usize>
    ensures { result ≡ option_map (λ e. e.file) (if_marked (at_number descriptors.now d)) }
{
    if descriptors.marked(d) {
        file_at(descriptors, d)
    } else {
        None
    }
}

// Adds one user to the open file of each descriptor.
fn share(files: &mut OpenFiles, descriptors: &Descriptors)
    requires opened { (k : ℕ) → 0 < times k (files_on descriptors.now)
        → IsSome (at_number files.old.files k) }
    requires room { (k : ℕ)
        → slice_index files.old.users k + times k (files_on descriptors.now) ≤ 65535 }
    ensures { Shares (files_on descriptors.now) [] files.old files.new }
{
    descriptors.invariant();
    for d in 0..DESCRIPTORS as u8 {
        files.invariant();
        if let Some(file) = file_at(descriptors, d) {
            files.dup(file);
        }
    }
}

// Removes one user from the open file of each descriptor.
fn release_all(tree: &mut Tree, files: &mut OpenFiles, descriptors: &Descriptors)
    requires used { (k : ℕ) → times k (files_on descriptors.now) ≤ slice_index files.old.users k }
    requires held { HoldsOpened tree.old files.old }
    ensures { Releases (files_on descriptors.now) [] tree.old files.old tree.new files.new }
{
    tree.invariant();
    descriptors.invariant();
    for d in 0..DESCRIPTORS as u8 {
        files.invariant();
        if let Some(file) = file_at(descriptors, d) {
            release(tree, files, file);
        }
    }
}

// Removes one user from the open file of each descriptor that is marked close-on-exec.
fn release_marked(tree: &mut Tree, files: &mut OpenFiles, descriptors: &Descriptors)
    requires used { (k : ℕ)
        → times k (files_on (marked_of descriptors.now)) ≤ slice_index files.old.users k }
    requires held { HoldsOpened tree.old files.old }
    ensures { Releases (files_on (marked_of descriptors.now))
        [] tree.old files.old tree.new files.new }
{
    tree.invariant();
    descriptors.invariant();
    for d in 0..DESCRIPTORS as u8 {
        files.invariant();
        if let Some(file) = marked_file_at(descriptors, d) {
            release(tree, files, file);
        }
    }
}

// Adds one reference to the directory of each target.
fn hold_targets(tree: &mut Tree, table: &Table)
    requires there { (n : ℕ) → 0 < times n (held_by_table table.now.table)
        → IsSome (node_at tree.old.tree n) }
    requires room { (n : ℕ)
        → holds_at tree.old n + times n (held_by_table table.now.table) ≤ 65535 }
    ensures tree { tree.new.tree ≡ tree.old.tree }
    ensures holds { (n : ℕ)
        → holds_at tree.new n ≡ holds_at tree.old n + times n (held_by_table table.now.table) }
{
    for k in 0..table.len() as u8 {
        tree.hold(directory_of(table.target(k)));
    }
}

// Removes one reference from the directory of each target.
fn unreference_targets(tree: &mut Tree, table: &Table)
    requires { (n : ℕ) → times n (held_by_table table.now.table) ≤ holds_at tree.old n }
    ensures { Unreferences (held_by_table table.now.table) tree.old tree.new }
{
    tree.invariant();
    for k in 0..table.len() as u8 {
        tree.unreference(directory_of(table.target(k)));
    }
}

// Removes one reference from the directory of each target, unless the table is kept.
fn unreference_unless(tree: &mut Tree, table: &Table, keeps: bool)
    requires { (n : ℕ) → times n (held_by_table table.now.table) ≤ holds_at tree.old n }
    ensures { Unreferences (if keeps then [] else held_by_table table.now.table) tree.old tree.new }
{
    tree.invariant();
    if !keeps {
        unreference_targets(tree, table);
    }
}
