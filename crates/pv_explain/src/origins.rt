//! The lines at which table entries were set.
ghost use Rattle.std.specs.Prelude.{◌≡◌, ◌<◌, ◌≤◌, ◌&&◌, ◌==◌, not, map, filter, find as first_where, is_some, length, option_copied, slice_set, IfOk, IfSome, [], vec_capacity};
ghost use Rattle.std.specs.FinMap.Entries.{put};
ghost use Rattle.std.specs.Ordering.{nat_cmp};
ghost use Rattle.pv_model.specs.declared.limits.TheConstants.{PROCESSES, UNVEILS};
ghost use Rattle.pv_model.specs.Machine.{settings_of, call_of, process_at};
ghost use Rattle.pv_model.specs.Answers.Settings.{set_at, after_execve};
ghost use Rattle.pv_procs.specs.ProcessTable.{process_in};
ghost use Rattle.pv_step_lines.specs.Origin.{setting_of, settings_in};
ghost use Rattle.pv_explain.specs.Keeping.{aged, all_of, reported_settings, Agree};

use arrayvec::ArrayVec;
use pv_model::limits::{PROCESSES, UNVEILS};
use pv_model::{CallRef, Outcome};
use pv_procs::Processes;
use pv_step_lines::Origin;
use pv_step_lines::calls_state::Parts;
use std::alloc::{AllocError, Global};
use std::marker::Model;

/// The origins of one process's entries, by entry number.
pub type EntryOrigins = ArrayVec<Origin, UNVEILS>;

// The origins of one process's entries, with its number.
#[derive(Drop)]
struct ProcessOrigins {
    pid: u32,
    origins: EntryOrigins,
}

// Replaces the origin of an entry.
fn replace(origins: &mut EntryOrigins, entry: u8, origin: Origin)
    requires { entry < length origins.old.items }
    ensures { origins.new.items ≡ slice_set origins.old.items entry origin }
{
    origins.as_mut_slice()[entry as usize] = origin;
}

// Sets the origin of an entry, which may be one past the last.
fn set(origins: &mut EntryOrigins, entry: u8, origin: Origin)
    requires { entry < UNVEILS }
    ensures { settings_in origins.new.items ≡ set_at (settings_in origins.old.items) entry (setting_of origin) }
{
    if (entry as usize) < origins.as_slice().len() {
        replace(origins, entry, origin);
    } else {
        origins.push(origin);
    }
}

// Returns the same origin, marked as of an earlier program.
fn aged(origin: Origin) -> Origin
    ensures { result ≡ aged origin }
{
    Origin {
        line: origin.line,
        earlier: true,
    }
}

// Marks all origins as of an earlier program.
fn age(origins: &mut EntryOrigins)
    ensures { origins.new.items ≡ map aged origins.old.items }
{
    let count = origins.as_slice().len();
    for k in 0..count {
        let origin = aged(origins.as_slice()[k]);
        replace(origins, k as u8, origin);
    }
}

// Returns the record of a process, if there is one.
fn origins_of_process(preserved: &[ProcessOrigins], pid: u32) -> Option<&ProcessOrigins>
    ensures { option_copied result ≡ first_where (λ one. pid == one.pid) preserved.now }
{
    preserved.iter().find(|one| pid == one.pid)
}

// Returns the origins of a process, or none if there is no record of it.
fn find(preserved: &[ProcessOrigins], pid: u32) -> &[Origin]
    ensures value { settings_in result.now ≡ settings_of (all_of preserved.now) pid }
    ensures few { length result.now ≤ UNVEILS }
{
    match origins_of_process(preserved, pid) {
        Some(one) => one.origins.as_slice(),
        None => &[],
    }
}

// Keeps only the records of other processes that are live.
fn keep_others(preserved: &mut Vec<ProcessOrigins>, processes: &Processes, pid: u32)
    ensures others { preserved.new.items ≡ filter (λ one. not (one.pid == pid) && is_some (process_in processes.now one.pid)) preserved.old.items }
    ensures room { vec_capacity preserved.new ≡ vec_capacity preserved.old }
{
    preserved.retain(|one| one.pid != pid && processes.live(one.pid));
}

/// The origin of each table entry of the live processes: the line at which it was set, and whether an earlier program
/// set it.
#[derive(Drop)]
pub struct Origins {
    // The record of a process that has ended is removed before another is added.
    preserved: Vec<ProcessOrigins>,
}

impl Model for Origins {
    ghost use Rattle.pv_model.specs.Answers.Settings.{Settings};

    ghost Value = { Settings };

    ghost use Rattle.std.specs.Prelude.{◌≡◌, ◌≤◌, true, vec_capacity};
    ghost use Rattle.pv_model.specs.declared.limits.TheConstants.{PROCESSES};
    ghost use Rattle.pv_explain.specs.Keeping.{all_of, is_once};

    ghost view = { λ o. all_of o.preserved.items };

    ghost invariant = { λ o. (is_once (all_of o.preserved.items) ≡ true) × (PROCESSES ≤ vec_capacity o.preserved) };
}

impl Origins {
    /// Returns an empty set of records.
    ///
    /// # Errors
    ///
    /// `AllocError`, if there is no memory for the records of 32 processes. No other method of `Origins` allocates.
    pub fn new(alloc: Global) -> Result<Origins, AllocError>
        ensures { IfOk result (λ origins. origins ≡ []) }
    {
        Ok(Origins {
            preserved: Vec::with_capacity(alloc, PROCESSES)?,
        })
    }

    /// Returns the origins of a process's entries, by entry number, or none if there is no record of the process.
    pub fn of(&self, pid: u32) -> &[Origin]
        ensures value { settings_in result.now ≡ settings_of self.now pid }
        ensures few { length result.now ≤ UNVEILS }
    {
        find(self.preserved.as_slice(), pid)
    }

    // Returns a copy of the origins of a process.
    fn copy_of(&self, pid: u32) -> EntryOrigins
        ensures { settings_in result.items ≡ settings_of self.now pid }
    {
        let mut copy = ArrayVec::new();
        let _ = copy.try_extend_from_slice(self.of(pid));
        copy
    }

    // Returns the origins of a process after it has executed a program. If the table was kept, they are marked as of an
    // earlier program.
    fn after_execve(&self, parts: &Parts, pid: u32) -> EntryOrigins
        ensures { settings_in result.items ≡ after_execve (process_at parts.now pid) (settings_of self.now pid) }
    {
        let mut origins = self.copy_of(pid);
        if let Some(record) = parts.live_record(pid) {
            if record.unveiled.is_empty() {
                origins.clear();
            } else {
                age(&mut origins);
            }
        }
        origins
    }

    // Records the origins of a process, if it is live.
    fn put(&mut self, parts: &Parts, pid: u32, origins: EntryOrigins)
        ensures { Agree parts.now self.new (put nat_cmp pid (settings_in origins.items) self.old) }
    {
        let processes = parts.processes();
        if processes.live(pid) {
            processes.invariant();
            keep_others(&mut self.preserved, processes, pid);
            self.preserved
                .push_reserved(ProcessOrigins { pid, origins });
        }
    }

    /// Updates the records after a call of a process. `line` is the line of the process before the call. `given` is the
    /// entry whose permissions the call set, if it was a successful unveil(2).
    #[tactic(auto, unfolding(crate::specs::Keeping::reported_settings))]
    pub fn follow(
        &mut self,
        parts: &Parts,
        pid: u32,
        line: u16,
        call: CallRef<'_>,
        outcome: Outcome,
        given: Option<u8>,
    )
        requires { IfSome given (λ k. k < UNVEILS) }
        ensures { Agree parts.now self.new (reported_settings pid line (process_at parts.now pid) given self.old (call_of call.entry) outcome) }
    {
        match (call, outcome) {
            (CallRef::Fork, Outcome::Value(child)) => {
                let origins = self.copy_of(pid);
                self.put(parts, child, origins);
            }
            (CallRef::Unveil(Some(_), _), Outcome::Value(_)) => {
                let mut origins = self.copy_of(pid);
                if let Some(entry) = given {
                    set(
                        &mut origins,
                        entry,
                        Origin {
                            line,
                            earlier: false,
                        },
                    );
                }
                self.put(parts, pid, origins);
            }
            (CallRef::Execve(_), Outcome::Value(_)) => {
                let origins = self.after_execve(parts, pid);
                self.put(parts, pid, origins);
            }
            _ => {}
        }
    }
}
