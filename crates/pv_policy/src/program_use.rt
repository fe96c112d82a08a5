//! The use of a sandbox by the calls of a program.
ghost use Rattle.std.specs.Prelude.{◌≡◌, bytes_eq, position, IfOk, OnOk};
ghost use Rattle.pv_model.specs.Machine.{program_numbers};
ghost use Rattle.pv_policy.specs.Noting.{noted_in};
ghost use Rattle.pv_policy.specs.Usage.{and_call, unused, usage_more};

use crate::granted::add_all_granted;
use crate::noted::{Granted, NotedCall};
use crate::promises::{PromiseUse, add_call, no_uses};
use crate::targets::{TargetUse, add_walks};
use pv_programs::program_numbers;
use pv_script::Program;
use std::alloc::{AllocError, Global};
use std::marker::Model;

/// The use of a sandbox by the calls of a program.
#[derive(Drop)]
pub struct ProgramUse {
    /// The program.
    pub(crate) program: Program,
    // The numbers of the program, by which programs are compared.
    numbers: Vec<u64>,
    /// The promises that a call can need.
    pub(crate) promises: Vec<PromiseUse>,
    /// The targets of the walks that were checked.
    pub(crate) targets: Vec<TargetUse>,
    /// The permissions that tables in force gave.
    pub(crate) granted: Vec<Granted>,
    /// The permissions that walks used.
    pub(crate) used: Vec<Granted>,
}

impl Model for ProgramUse {
    ghost use Rattle.std.specs.Prelude.{◌≡◌};
    ghost use Rattle.pv_model.specs.Answers.ProgramNames.{program_numbers};
    ghost use Rattle.pv_policy.specs.Usage.{Usage};

    ghost Value = { Usage };

    ghost invariant = { λ u. u.numbers.items ≡ program_numbers u.program };

    ghost view = { λ u. record { program = u.program; promises = u.promises.items; targets = u.targets.items; granted = u.granted.items; used = u.used.items } };
}

impl ProgramUse {
    // Returns the use of a program with these numbers before its first call.
    fn new(alloc: Global, program: &Program, numbers: Vec<u64>) -> Result<ProgramUse, AllocError>
        requires { numbers.items ≡ program_numbers program.now }
        ensures { IfOk result (λ used. used ≡ unused program.now) }
    {
        Ok(ProgramUse {
            program: program.share()?,
            numbers,
            promises: no_uses(alloc)?,
            targets: Vec::new(alloc),
            granted: Vec::new(alloc),
            used: Vec::new(alloc),
        })
    }

    // Returns the numbers of the program.
    fn numbers(&self) -> &[u64]
        ensures { result.now ≡ program_numbers self.now.program }
    {
        &self.numbers
    }

    // Adds a call.
    fn add(&mut self, alloc: Global, call: &NotedCall<'_>) -> Result<(), AllocError>
        ensures { OnOk result (self.new ≡ usage_more self.old (noted_in call.now)) }
    {
        add_call(alloc, &mut self.promises, call)?;
        add_walks(alloc, &mut self.targets, call.by, call.pid, call.walks)?;
        add_all_granted(alloc, &mut self.granted, call.held)?;
        add_all_granted(alloc, &mut self.used, call.used)
    }
}

// Returns the index of the program with these numbers.
fn index_of(programs: &[ProgramUse], numbers: &[u64]) -> Option<usize>
    ensures { result ≡ position (λ used. bytes_eq numbers.now (program_numbers used.program)) programs.now }
{
    programs.iter().position(|used| numbers == used.numbers())
}

// Adds a call to the program with these numbers, or to a new one.
fn keep_numbered(
    alloc: Global,
    programs: &mut Vec<ProgramUse>,
    numbers: Vec<u64>,
    call: &NotedCall<'_>,
) -> Result<(), AllocError>
    requires { numbers.items ≡ program_numbers call.now.program.now }
    ensures { OnOk result (programs.new.items ≡ and_call programs.old.items (noted_in call.now)) }
{
    match index_of(programs, &numbers) {
        Some(k) => programs[k].add(alloc, call)?,
        None => {
            let mut used = ProgramUse::new(alloc, call.program, numbers)?;
            used.add(alloc, call)?;
            programs.push(used)?;
        }
    }
    Ok(())
}

/// Adds a call to its program, or to a new one.
///
/// # Errors
///
/// `AllocError`, if there is no memory.
pub(crate) fn keep_call(
    alloc: Global,
    programs: &mut Vec<ProgramUse>,
    call: &NotedCall<'_>,
) -> Result<(), AllocError>
    ensures { OnOk result (programs.new.items ≡ and_call programs.old.items (noted_in call.now)) }
{
    let numbers = program_numbers(alloc, call.program)?;
    keep_numbered(alloc, programs, numbers, call)
}
