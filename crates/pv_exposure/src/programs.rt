//! Programs, their findings, and the files that all processes are closed to.
ghost use Rattle.std.specs.Prelude.{◌≡◌, ◌++◌, ◌∷◌, [], List, filter, map, position, IfOk, OnOk, Some};
ghost use Rattle.pv_exposure.specs.Collected.{exposed_more, exposed_none, exposed_with, findings_of, is_of as is_of_numbers};
ghost use Rattle.pv_exposure.specs.StateFiles.{AreFilesOf, IsFileOf, described, described_file, is_safe_at};
ghost use Rattle.pv_exposure.specs.Stored.{IsVisit, located_in_visit, exposed_with_file, exposed_with_files};
ghost use Rattle.pv_model.specs.Machine.{Bytes, program_numbers, Process, process_at, State, Tree};
ghost use Rattle.pv_model_questions.specs.ExposureAbout.{kept_files_of};
ghost use Rattle.pv_named_files.specs.FirstPaths.{files_given, first_tree};

use crate::files::{StateFile, StateFiles};
use crate::findings::{FindingList, key_of_line, line_of};
use crate::reasons::Visit;
use pv_model_questions::FindingKind;
use pv_programs::program_numbers;
use pv_script::Program;
use std::alloc::{AllocError, Global};
use std::marker::Model;

/// A program, its findings of each kind, and the files of the first tree that every process was closed to in each state in
/// which a process of the program was live. A contract sees these.
#[derive(Drop)]
pub(crate) struct ProgramRecord {
    program: Program,
    // The numbers of the program.
    numbers: Vec<u64>,
    leaks: FindingList,
    peers: FindingList,
    edits: FindingList,
    reads: FindingList,
    safe: Vec<u16>,
}

// Appends a file, if every process of a state is closed to it.
fn push_safe(safe: &mut Vec<u16>, files: &StateFiles, node: u16) -> Result<(), AllocError>
    ensures { OnOk result ((given : List Bytes) (first : Tree) (s : State) → AreFilesOf given first s files.now → safe.new.items ≡ safe.old.items ++ filter (λ f. is_safe_at f s) (node ∷ [])) }
{
    if files.is_safe(node) {
        safe.push(node)?;
    }
    Ok(())
}

// Returns those of files that every process of a state is closed to.
fn safe_among(alloc: Global, files: &StateFiles, nodes: &[u16]) -> Result<Vec<u16>, AllocError>
    ensures { IfOk result (λ safe. (given : List Bytes) (first : Tree) (s : State) → AreFilesOf given first s files.now → safe.items ≡ filter (λ f. is_safe_at f s) nodes.now) }
{
    let mut safe = Vec::new(alloc);
    for node in nodes {
        push_safe(&mut safe, files, *node)?;
    }
    Ok(safe)
}

impl Model for ProgramRecord {
    ghost use Rattle.std.specs.Prelude.{◌≡◌};
    ghost use Rattle.pv_exposure.specs.Collected.{Exposed};
    ghost use Rattle.pv_model.specs.Machine.{program_numbers};

    ghost Value = { Exposed };

    ghost view = { λ r. record { program = r.program; leaks = r.leaks; peers = r.peers; edits = r.edits; reads = r.reads; safe = r.safe.items } };

    ghost invariant = { λ r. r.numbers.items ≡ program_numbers r.program };
}

impl ProgramRecord {
    // Returns the record of a program before its first process.
    fn new(
        alloc: Global,
        program: &Program,
        numbers: Vec<u64>,
        named: &[u16],
    ) -> Result<ProgramRecord, AllocError>
        requires { numbers.items ≡ program_numbers program.now }
        ensures { IfOk result (λ r. r ≡ exposed_none named.now program.now) }
    {
        Ok(ProgramRecord {
            program: program.share()?,
            numbers,
            leaks: FindingList::new(alloc),
            peers: FindingList::new(alloc),
            edits: FindingList::new(alloc),
            reads: FindingList::new(alloc),
            safe: named.to_vec(alloc)?,
        })
    }

    // Returns whether the program has these numbers.
    fn is_of(&self, numbers: &[u64]) -> bool
        ensures { result ≡ is_of_numbers numbers.now self.now }
    {
        numbers == self.numbers.as_slice()
    }

    // Adds the findings about a live process of the program and a file of its state.
    fn add_file(
        &mut self,
        alloc: Global,
        visit: &Visit<'_>,
        file: &StateFile,
    ) -> Result<(), AllocError>
        requires visit { IsVisit visit.now }
        requires file { IsFileOf (first_tree visit.now.paths.now) visit.now.parts.now file.now }
        ensures { OnOk result ((p : Process) → process_at visit.now.parts.now visit.now.pid ≡ Some p → self.new ≡ exposed_with_file (first_tree visit.now.paths.now) (located_in_visit visit.now p) self.old file.now.node) }
    {
        let key = key_of_line(alloc, line_of(visit), &file.text)?;
        self.leaks.add(alloc, FindingKind::Leak, visit, file, &key)?;
        self.peers.add(alloc, FindingKind::Peer, visit, file, &key)?;
        self.edits.add(alloc, FindingKind::Edit, visit, file, &key)?;
        self.reads.add(alloc, FindingKind::Read, visit, file, &key)
    }

    // Adds the findings about a live process of the program and the files of its state.
    fn add_files(
        &mut self,
        alloc: Global,
        visit: &Visit<'_>,
        files: &[StateFile],
    ) -> Result<(), AllocError>
        requires visit { IsVisit visit.now }
        requires files { map described files.now ≡ map (described_file (first_tree visit.now.paths.now) visit.now.parts.now.tree) (kept_files_of (files_given visit.now.paths.now) (first_tree visit.now.paths.now) visit.now.parts.now.tree) }
        ensures { OnOk result ((p : Process) → process_at visit.now.parts.now visit.now.pid ≡ Some p → self.new ≡ exposed_with_files (first_tree visit.now.paths.now) (located_in_visit visit.now p) self.old (kept_files_of (files_given visit.now.paths.now) (first_tree visit.now.paths.now) visit.now.parts.now.tree)) }
    {
        for file in files {
            self.add_file(alloc, visit, file)?;
        }
        Ok(())
    }

    // Adds the findings about a live process of the program.
    fn add(&mut self, alloc: Global, visit: &Visit<'_>) -> Result<(), AllocError>
        requires { IsVisit visit.now }
        ensures { OnOk result ((p : Process) → process_at visit.now.parts.now visit.now.pid ≡ Some p → self.new ≡ exposed_more (files_given visit.now.paths.now) (first_tree visit.now.paths.now) self.old (located_in_visit visit.now p)) }
    {
        self.add_files(alloc, visit, &visit.files.files)?;
        let safe = safe_among(alloc, visit.files, &self.safe)?;
        self.safe = safe;
        Ok(())
    }

    /// Returns the program.
    pub(crate) fn program(&self) -> &Program
        ensures { result.now ≡ self.now.program }
    {
        &self.program
    }

    /// Returns the files that every process was closed to.
    pub(crate) fn safe(&self) -> &[u16]
        ensures { result.now ≡ self.now.safe }
    {
        &self.safe
    }

    /// Returns the findings of a kind.
    pub(crate) fn findings(&self, kind: FindingKind) -> &FindingList
        ensures { result.now ≡ findings_of kind self.now }
    {
        match kind {
            FindingKind::Leak => &self.leaks,
            FindingKind::Peer => &self.peers,
            FindingKind::Edit => &self.edits,
            FindingKind::Read => &self.reads,
        }
    }
}

// Returns the index of the record of the program with these numbers.
fn index_of(records: &[ProgramRecord], numbers: &[u64]) -> Option<usize>
    ensures { result ≡ position (is_of_numbers numbers.now) records.now }
{
    records.iter().position(|record| record.is_of(numbers))
}

/// Adds a live process of a visited state, given the named files of the first tree.
///
/// # Errors
///
/// `AllocError`, if there is no memory.
pub(crate) fn add_process(
    alloc: Global,
    records: &mut Vec<ProgramRecord>,
    named: &[u16],
    visit: &Visit<'_>,
) -> Result<(), AllocError>
    requires { IsVisit visit.now }
    ensures { OnOk result ((p : Process) → process_at visit.now.parts.now visit.now.pid ≡ Some p → records.new.items ≡ exposed_with (files_given visit.now.paths.now) (first_tree visit.now.paths.now) named.now records.old.items (located_in_visit visit.now p)) }
{
    let program = visit.parts.processes().program(visit.pid);
    let numbers = program_numbers(alloc, program)?;
    match index_of(records, &numbers) {
        Some(k) => records[k].add(alloc, visit),
        None => {
            let mut added = ProgramRecord::new(alloc, program, numbers, named)?;
            added.add(alloc, visit)?;
            records.push(added)?;
            Ok(())
        }
    }
}
