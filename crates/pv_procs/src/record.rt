//! The resources of a live process.
ghost use Rattle.std.specs.Prelude.{◌≡◌, IfOk};
ghost use Rattle.std.specs.Borrow.{sem};

use pv_files::Descriptors;
use pv_model::limits::ROOT;
use pv_promises::Pledge;
use pv_script::Context;
use pv_unveil::Table;
use std::alloc::{AllocError, Global};
use std::marker::Model;

/// The resources of a live process. Its program, which it may share, and its parent are stored elsewhere.
#[derive(Drop)]
pub struct ProcessRecord {
    /// Its promises, pledge(2).
    pub pledge: Pledge,
    /// Its unveil table, unveil(2).
    pub unveiled: Table,
    /// The number of the node of its working directory.
    pub directory: u16,
    /// Its descriptors.
    pub descriptors: Descriptors,
    /// Its next line, registers and buffer.
    pub context: Context,
}

impl ProcessRecord {
    ghost use Rattle.pv_procs.specs.Parts.{first_record, after_exec};

    // Creates the record of a process before its first step.
    #[tactic(auto, unfolding(pv_script::specs::Context::first_context))]
    pub(crate) fn new(alloc: Global) -> Result<ProcessRecord, AllocError>
        ensures { IfOk result (λ r. r ≡ first_record) }
    {
        Ok(ProcessRecord {
            pledge: Pledge::new(),
            unveiled: Table::new(alloc)?,
            directory: ROOT,
            descriptors: Descriptors::new(),
            context: Context::new(alloc)?,
        })
    }

    // Copies another record, as fork(2) does for a child.
    pub(crate) fn copy_from(&mut self, other: &ProcessRecord)
        ensures { self.new ≡ other.now }
    {
        self.pledge = other.pledge;
        self.unveiled.copy_from(&other.unveiled);
        self.directory = other.directory;
        self.descriptors = other.descriptors;
        self.context.copy_from(&other.context);
    }

    // Applies the effect of execve(2) to the record.
    #[tactic(auto, unfolding(pv_script::specs::Context::first_context))]
    pub(crate) fn after_exec(&mut self)
        ensures { self.new ≡ after_exec self.old }
    {
        let keeps = self.pledge.execpromises().is_some();
        self.pledge.after_exec();
        self.unveiled.after_exec(keeps);
        self.descriptors.after_exec();
        self.context.reset();
    }
}

/// A boxed record, so that moving its owner is cheap. Contracts see the record.
#[derive(Drop)]
pub(crate) struct Stored {
    owned: Box<ProcessRecord>,
}

impl Model for Stored {
    ghost use Rattle.pv_procs.specs.declared.record.ProcessRecord.{ProcessRecord};

    ghost Value = { ProcessRecord };

    ghost view = { λ s. s.owned.value };
}

impl Stored {
    ghost use Rattle.pv_procs.specs.Lent.{LendsStored};
    ghost use Rattle.pv_procs.specs.Parts.{first_record};

    // Creates the record of a process before its first step.
    pub(crate) fn new(alloc: Global) -> Result<Stored, AllocError>
        ensures { IfOk result (λ r. r ≡ first_record) }
    {
        Ok(Stored {
            owned: Box::new(alloc, ProcessRecord::new(alloc)?)?,
        })
    }

    // Returns the record.
    pub(crate) fn get(&self) -> &ProcessRecord
        ensures { result.now ≡ self.now }
    {
        &*self.owned
    }

    // Returns the record for modification.
    pub(crate) fn get_mut(&mut self) -> &mut ProcessRecord
        ensures* writes_back { sem 𝓛 (LendsStored self.entry result) }
        ensures value { result.now ≡ self.old }
    {
        &mut *self.owned
    }
}
