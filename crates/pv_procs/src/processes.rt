//! The processes of the system.
ghost use Rattle.std.specs.Prelude.{◌≡◌, ◌↔◌, ◌<◌, ◌≤◌, ◌-◌, pos, length, false, is_some, IfOk, IsTrue, IsSome, Some, IfErr, OnOk, OnErr, option_copied, option_map, slice_set, position, true};
ghost use Rattle.std.specs.FinMap.Entries.{find};
ghost use Rattle.std.specs.Borrow.{sem};
ghost use Rattle.std.specs.Ordering.{nat_cmp};
ghost use Rattle.pv_model.specs.declared.limits.TheConstants.{BUFFER};
ghost use Rattle.pv_model.specs.declared.errno.Errno.TheVariants.{EAGAIN};
ghost use Rattle.pv_model.specs.Machine.{at_next_line, with_front, give, refuse, parent_of, with_result, end_process, fork, wait, with_program, answers, waits, Numbered, next, calls_for, OpenFile, Process, State, Tree};

use crate::ProcessRecord;
use crate::ending::settle;
use crate::shared::{
    Shared, first_programs, free_program, put_programs, share_programs, take_up, unreference,
};
use crate::slot::{
    ProcessSlot, adopter, blank, copy_slots, ended_child_of, has_child, has_ended_child, index_of,
    index_of_live, left_of, live_index, make_child, number_after, spare_slots, use_slots,
};
use pv_model::limits::{LAST_PROCESS, PROCESSES};
use pv_model::{CallRef, Errno};
use pv_script::{CallTexts, Program};
use std::alloc::{AllocError, Global};
use std::marker::Model;

/// The next step of a process.
#[derive(Clone, Copy)]
pub enum Fetched<'a> {
    /// None: the process is not live.
    Gone,
    /// An instruction on registers, or a jump.
    Register,
    /// A call.
    Call(CallRef<'a>),
}

/// The result of wait(2).
#[derive(Clone, Copy)]
pub enum Reap {
    /// The number of the ended child that was waited for, and its exit status.
    Child(u32, u32),
    /// There are children, and all are live.
    Blocked,
    /// There are no children.
    NoChild,
}

/// The processes by number: 32 slots, the programs that they share, and the last number that was assigned.
#[derive(Drop)]
pub struct Processes {
    // The slots in use, in ascending order of their numbers.
    slots: Vec<ProcessSlot>,
    spare: Vec<ProcessSlot>,
    programs: Vec<Shared>,
    // No program from this place on has users, so a copy ends here.
    most: usize,
    // The vector in which `copy_from` prepares programs. It has room for all, and its elements have no meaning.
    prepared: Vec<Shared>,
    last: u32,
}

impl Model for Processes {
    ghost use Rattle.pv_procs.specs.ProcessTable.{ProcessTable};

    ghost Value = { ProcessTable };

    ghost use Rattle.std.specs.Prelude.{length, vec_capacity};
    ghost use Rattle.pv_procs.specs.Slots.{process_table_of, AreConsistentSlots, IsIdleFrom, IsRoomy};

    ghost view = { λ t. process_table_of t.slots.items t.programs.items t.last };

    ghost invariant = { λ t. AreConsistentSlots t.slots.items t.programs.items t.last
        × IsRoomy (length t.slots.items) (length t.spare.items) (vec_capacity t.slots) (vec_capacity t.spare)
        × IsIdleFrom t.programs.items t.most };
}

impl Processes {
    ghost use Rattle.pv_procs.specs.Lent.{LendsRecord};
    ghost use Rattle.pv_procs.specs.Parts.{record_of};
    ghost use Rattle.pv_procs.specs.ProcessTable.{ended_process, number_after, IsProcessTable, state_with, process_in, table_with_process, updated_table, first_processes, after_inside};
    ghost use Rattle.pv_procs.specs.Reaping.{waited};
    ghost use Rattle.pv_procs.specs.Turns.{AwaitsCall, IsFetched, IsNextCall, PassesIn, Registered};

    /// Creates process 1 with its program, before its first step.
    ///
    /// # Errors
    ///
    /// Returns `AllocError` if memory for the slots cannot be allocated. No other method of `Processes` allocates
    /// memory.
    pub fn new(alloc: Global, program: Program) -> Result<Processes, AllocError>
        ensures { IfOk result (λ processes. processes ≡ first_processes program) }
    {
        let programs = first_programs(alloc, program)?;
        let mut slots = Vec::with_capacity(alloc, PROCESSES)?;
        slots.push_reserved(blank(alloc, 1)?);
        let spare = spare_slots(alloc)?;
        Ok(Processes {
            slots,
            spare,
            programs,
            most: 1,
            prepared: Vec::with_capacity(alloc, PROCESSES)?,
            last: 1,
        })
    }

    /// Makes these processes equal to others.
    ///
    /// # Errors
    ///
    /// Returns `AllocError` if the reference count of a program is at its limit. The processes then do not change.
    pub fn copy_from(&mut self, other: &Processes) -> Result<(), AllocError>
        ensures copied { OnOk result (self.new ≡ other.now) }
        ensures unchanged { OnErr result (self.new ≡ self.old) }
    {
        share_programs(&mut self.prepared, &other.programs[..other.most])?;
        put_programs(&mut self.programs, &mut self.prepared, self.most);
        self.most = other.most;
        use_slots(&mut self.slots, &mut self.spare, other.slots.len());
        copy_slots(&mut self.slots, &other.slots);
        self.last = other.last;
        Ok(())
    }

    /// Does nothing. Its contract states the invariant of the processes.
    pub fn invariant(&self)
        ensures { IsProcessTable self.now }
    {
        let _ = &self.slots;
    }

    /// Returns whether a process is live.
    pub fn live(&self, pid: u32) -> bool
        ensures { result ≡ is_some (process_in self.now pid) }
    {
        match index_of(&self.slots, pid) {
            Some(k) => self.slots[k].status.is_none(),
            None => false,
        }
    }

    /// Returns the parent of a process that is live or a zombie. The number 0 means that it has no parent.
    pub fn parent_of(&self, pid: u32) -> Option<u32>
        ensures { result ≡ option_map parent_of (find nat_cmp pid self.now.processes) }
    {
        match index_of(&self.slots, pid) {
            Some(k) => Some(self.slots[k].parent),
            None => None,
        }
    }

    /// Returns the number of processes, including zombies.
    pub fn count(&self) -> usize
        ensures { result ≡ length self.now.processes }
    {
        self.slots.len()
    }

    /// Returns the least number greater than `last` of a process that is live or a zombie, or `None` if there is none.
    pub fn next_number(&self, last: u32) -> Option<u32>
        ensures { result ≡ number_after last self.now.processes }
    {
        number_after(&self.slots, last)
    }

    /// Returns the last number that was assigned to a process.
    pub fn last_number(&self) -> u32
        ensures { result ≡ self.now.last_process }
    {
        let Processes { last, .. } = self;
        *last
    }

    /// Returns the parent of a zombie, or 0 if it has no parent, and its exit status.
    pub fn ended(&self, pid: u32) -> Option<(u32, u32)>
        ensures { result ≡ ended_process (find nat_cmp pid self.now.processes) }
    {
        match index_of(&self.slots, pid) {
            Some(k) => left_of(&self.slots[k]),
            None => None,
        }
    }

    /// Returns the record of a live process.
    pub fn record(&self, pid: u32) -> &ProcessRecord
        requires { IsSome (process_in self.now pid) }
        ensures { option_map record_of (process_in self.now pid) ≡ Some result.now }
    {
        let k = live_index(&self.slots, pid);
        self.slots[k].record.get()
    }

    /// Returns the record of a process, or `None` if it is not live.
    pub fn live_record(&self, pid: u32) -> Option<&ProcessRecord>
        ensures { option_map record_of (process_in self.now pid) ≡ option_copied result }
    {
        match index_of_live(&self.slots, pid) {
            Some(k) => Some(self.slots[k].record.get()),
            None => None,
        }
    }

    /// Returns the record of a live process for modification.
    pub fn record_mut(&mut self, pid: u32) -> &mut ProcessRecord
        requires { IsSome (process_in self.old pid) }
        ensures* writes_back { sem 𝓛 (LendsRecord self.entry pid result) }
        ensures value { option_map record_of (process_in self.old pid) ≡ Some result.now }
    {
        let k = live_index(&self.slots, pid);
        self.slots[k].record.get_mut()
    }

    /// Creates a child of a live process, as fork(2) does, and returns its number. The child has a copy of the parent's
    /// record, shares the program, and receives 0 as the result of the call. The caller must add a user to each open
    /// file of the parent's descriptors, and a reference to each node that the parent references.
    ///
    /// # Errors
    ///
    /// Returns `EAGAIN` if and only if there are 32 live processes and zombies, or the last number that was assigned is
    /// 99,999. Nothing changes then.
    pub fn fork(&mut self, pid: u32) -> Result<u32, Errno>
        requires { IsSome (process_in self.old pid) }
        ensures forked { IfOk result (λ n. (t : Tree) (files : Numbered OpenFile) (me : Process) → process_in self.old pid ≡ Some me
            → fork (state_with t files self.old) pid me ≡ answers (state_with t files self.new) n) }
        ensures refused { IfErr result (λ e. (t : Tree) (files : Numbered OpenFile) (me : Process)
            → fork (state_with t files self.old) pid me ≡ refuse e) }
        ensures unchanged { OnErr result (self.new ≡ self.old) }
    {
        if self.last == LAST_PROCESS {
            return Err(Errno::EAGAIN);
        }
        let Some(mut slot) = self.spare.pop() else {
            return Err(Errno::EAGAIN);
        };
        let k = live_index(&self.slots, pid);
        let number = self.last + 1;
        make_child(&mut slot, number, &self.slots[k]);
        take_up(&mut self.programs, slot.program);
        self.slots.push_reserved(slot);
        self.last = number;
        Ok(number)
    }

    /// Waits for a child that has ended, wait(2): reports the one with the least number and removes it.
    pub fn reap(&mut self, pid: u32) -> Reap
        ensures waited { (t : Tree) (files : Numbered OpenFile) (me : Process)
            → wait (state_with t files self.old) pid me ≡ waited result (state_with t files self.new) }
        ensures unchanged { result ≡ Reap.NoChild → self.new ≡ self.old }
    {
        let Some(k) = ended_child_of(&self.slots, pid) else {
            if has_child(&self.slots, pid) {
                return Reap::Blocked;
            }
            return Reap::NoChild;
        };
        let slot = self.slots.remove(k);
        let child = Reap::Child(slot.number, slot.status.unwrap_or(0));
        self.spare.push_reserved(slot);
        child
    }

    /// Returns whether wait(2) blocks in a process: it has children, and all are live.
    pub fn waits(&self, pid: u32) -> bool
        ensures { (t : Tree) (files : Numbered OpenFile) (me : Process)
            → IsTrue result ↔ (wait (state_with t files self.now) pid me ≡ give (state_with t files self.now, waits)) }
    {
        has_child(&self.slots, pid) && !has_ended_child(&self.slots, pid)
    }

    /// Replaces the program of a live process, execve(2). The promises become the execpromises. If there are no
    /// execpromises, the unveil table and its lock are removed. The descriptors that execve closes are removed. The
    /// process is then before its first step. The caller must release the resources that are removed, which it can read
    /// with `record` before this call.
    pub fn load(&mut self, pid: u32, program: Program)
        requires { IsSome (process_in self.old pid) }
        ensures { (s : State) → self.new ≡ updated_table self.old pid (λ me. with_program s pid me program) }
    {
        let k = live_index(&self.slots, pid);
        let slot = &mut self.slots[k];
        unreference(&mut self.programs, slot.program);
        let Some(free) = free_program(&self.programs) else {
            unreachable!()
        };
        self.programs[free] = Shared { program, users: 1 };
        self.most = self.most.max(free + 1);
        slot.program = free;
        slot.record.get_mut().after_exec();
    }

    /// Ends a live process with an exit status, which wait(2) reports to the parent.
    ///
    /// Only the parent and the status remain. The children become children of process 1. If process 1 has ended, they
    /// have no parent. Zombies without a parent are removed. The caller must release the resources of the process,
    /// which it can read with `record` before this call.
    pub fn end(&mut self, pid: u32, status: u32)
        requires { IsSome (process_in self.old pid) }
        ensures { (t : Tree) (files : Numbered OpenFile) (me : Process) → process_in self.old pid ≡ Some me
            → state_with t files self.new ≡ end_process (state_with t files self.old) pid me status }
    {
        let k = live_index(&self.slots, pid);
        let slot = &mut self.slots[k];
        slot.status = Some(status);
        let program = slot.program;
        unreference(&mut self.programs, program);
        let heir = adopter(&self.slots);
        settle(&mut self.slots, &mut self.spare, pid, heir);
    }

    /// Returns the program of a live process.
    pub fn program(&self, pid: u32) -> &Program
        requires { IsSome (process_in self.now pid) }
        ensures { option_map (λ me. me.program) (process_in self.now pid) ≡ Some result.now }
    {
        let k = live_index(&self.slots, pid);
        let slot = &self.slots[k];
        &self.programs[slot.program].program
    }

    /// Returns the next step of a process without executing it: none if the process is not live, an instruction on
    /// registers or a jump, or a call whose texts are copied to `texts`. After the last line, the next step is exit.
    pub fn fetch<'a>(&self, pid: u32, texts: &'a mut CallTexts) -> Fetched<'a>
        ensures { IsFetched result (process_in self.now pid) }
    {
        match self.live_record(pid) {
            Some(record) => match record.context.fetch(self.program(pid), texts) {
                Some(call) => Fetched::Call(call),
                None => Fetched::Register,
            },
            None => Fetched::Gone,
        }
    }

    /// Returns the next step of a process without executing it, if it is a call. The texts of the call are copied to
    /// `texts`. After the last line, the next step is exit.
    pub fn next_call<'a>(&self, pid: u32, texts: &'a mut CallTexts) -> Option<CallRef<'a>>
        ensures { IsNextCall result (process_in self.now pid) }
    {
        match self.fetch(pid, texts) {
            Fetched::Call(call) => Some(call),
            Fetched::Register | Fetched::Gone => None,
        }
    }

    /// Executes the next step of a process if it is an instruction on registers or a jump. If it is a call, returns it
    /// without executing it, with its texts copied to `texts`. After the last line, the next step is exit.
    #[inline(always)]
    pub fn step_or_fetch<'a>(&mut self, pid: u32, texts: &'a mut CallTexts) -> Fetched<'a>
        ensures { Registered result pid self.old self.new }
    {
        let Some(k) = index_of_live(&self.slots, pid) else {
            return Fetched::Gone;
        };
        let slot = &mut self.slots[k];
        let shared = &self.programs[slot.program];
        match slot
            .record
            .get_mut()
            .context
            .step_or_fetch(&shared.program, texts)
        {
            Some(call) => Fetched::Call(call),
            None => Fetched::Register,
        }
    }

    /// Executes the next instructions on registers and jumps of a process, at most `most`, and returns their number. It
    /// is 0 if the process is not live.
    pub fn pass(&mut self, pid: u32, most: u32) -> u32
        ensures few { result ≤ most }
        ensures made { PassesIn result pid self.old self.new }
        ensures whole { result < most → AwaitsCall (process_in self.new pid) }
    {
        let Some(k) = index_of_live(&self.slots, pid) else {
            return 0;
        };
        let slot = &mut self.slots[k];
        let shared = &self.programs[slot.program];
        slot.record.get_mut().context.pass(&shared.program, most)
    }

    /// Advances a live process to its next line, at most to the one after the last.
    pub fn advance(&mut self, pid: u32)
        requires { IsSome (process_in self.old pid) }
        ensures { self.new ≡ updated_table self.old pid at_next_line }
    {
        let k = live_index(&self.slots, pid);
        let slot = &mut self.slots[k];
        let shared = &self.programs[slot.program];
        slot.record.get_mut().context.advance(&shared.program);
    }

    /// Stores the result of a call in the registers of a live process: the value in r0 and the error in r1, or 0 if
    /// there is no error.
    pub fn report(&mut self, pid: u32, value: i32, error: u16)
        requires { IsSome (process_in self.old pid) }
        ensures { self.new ≡ updated_table self.old pid (λ p. with_result p value error) }
    {
        let k = live_index(&self.slots, pid);
        let slot = &mut self.slots[k];
        slot.record.get_mut().context.report(value, error);
    }

    /// Copies at most 4,096 bytes to the front of a live process's buffer.
    pub fn put_front(&mut self, pid: u32, bytes: &[u8])
        requires live { IsSome (process_in self.old pid) }
        requires size { length bytes.now ≤ BUFFER }
        ensures { self.new ≡ updated_table self.old pid (with_front bytes.now) }
    {
        let k = live_index(&self.slots, pid);
        let slot = &mut self.slots[k];
        slot.record.get_mut().context.put_front(bytes);
    }
}
