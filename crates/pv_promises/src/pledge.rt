//! The pledge of a process.
ghost use Rattle.std.specs.Prelude.{◌≡◌, OnOk, OnErr, IfErr, None};
ghost use Rattle.pv_model.specs.Machine.{is_lenient, narrow_promises};
ghost use Rattle.pv_promises.specs.Pledge.{bits_of, bits_of_result};

use crate::missing::{is_lenient, missing_for};
use crate::order::first_increase;
use bitflags::Flags;
use pv_model::{CallRef, Promise, Promises};
use std::marker::Model;

/// The outcome of a call, pledge(2).
#[derive(Clone, Copy)]
pub enum Decision {
    /// No promise is missing.
    Allowed,
    /// This promise is missing: the process is killed.
    Kill(Promise),
    /// This promise is missing, and the process has promised `error`: the call fails with ENOSYS.
    Refuse(Promise),
}

/// The promises of a process, and those that it will have after execve(2): pledge(2).
///
/// A set is absent until it is set for the first time.
#[derive(Clone, Copy)]
pub struct Pledge {
    promises: Option<Promises>,
    execpromises: Option<Promises>,
}

impl Model for Pledge {
    ghost use Rattle.pv_promises.specs.Pledge.{Pledged, bits_of, promise_set_of, promise_set_of-bits_of};
    ghost use Rattle.std.proofs.Common.{◌≡◌};

    ghost Value = { Pledged };

    ghost view = { λ p. record { promises = bits_of p.promises; execpromises = bits_of p.execpromises } };

    ghost inverse = { λ v. record { promises = promise_set_of v.promises; execpromises = promise_set_of v.execpromises } };

    ghost inverse_ok = { λ p _ i. record { promises = promise_set_of-bits_of p.promises i; execpromises = promise_set_of-bits_of p.execpromises i } };
}

// Returns the new value of a set after a request, or the promise that is an increase.
fn narrowed(
    lenient: bool,
    held: Option<Promises>,
    asked: Option<Promises>,
) -> Result<Option<Promises>, Promise>
    ensures { bits_of_result result ≡ narrow_promises lenient (bits_of held) (bits_of asked) }
{
    match (held, asked) {
        (held, None) => Ok(held),
        (None, Some(asked)) => Ok(Some(asked)),
        (Some(held), Some(asked)) => {
            if lenient {
                return Ok(Some(asked.intersection(held)));
            }
            match first_increase(held, asked) {
                None => Ok(Some(asked)),
                Some(promise) => Err(promise),
            }
        }
    }
}

impl Pledge {
    ghost use Rattle.pv_promises.specs.Pledge.{narrow_both};
    ghost use Rattle.pv_model.specs.CallRef.{call_of};
    ghost use Rattle.pv_model.specs.Needs.{needs};
    ghost use Rattle.pv_promises.specs.Decision.{decision};

    /// Creates the pledge of a process that is not pledged.
    pub fn new() -> Pledge
        ensures promises { result.promises ≡ None }
        ensures execpromises { result.execpromises ≡ None }
    {
        Pledge {
            promises: None,
            execpromises: None,
        }
    }

    /// Returns the promises, or `None` if the process is not pledged.
    pub fn promises(&self) -> Option<Promises>
        ensures { bits_of result ≡ self.now.promises }
    {
        self.promises
    }

    /// Returns the promises that the process will have after execve(2), or `None` if they are not set.
    pub fn execpromises(&self) -> Option<Promises>
        ensures { bits_of result ≡ self.now.execpromises }
    {
        self.execpromises
    }

    /// Narrows both sets, pledge(2). `None` leaves a set unchanged.
    ///
    /// A set that is absent becomes the requested one. While the process has promised `error`, no request fails: a set
    /// becomes its intersection with the requested one.
    ///
    /// # Errors
    ///
    /// Returns the first promise that is requested but not in the set. The promises come before the execpromises, each
    /// in the order of the keywords. If the call fails, neither set changes.
    pub fn narrow(
        &mut self,
        promises: Option<Promises>,
        execpromises: Option<Promises>,
    ) -> Result<(), Promise>
        ensures narrowed { OnOk result
            (narrow_both self.old (bits_of promises) (bits_of execpromises) ≡ Ok self.new) }
        ensures refused { IfErr result
            (λ p. narrow_both self.old (bits_of promises) (bits_of execpromises) ≡ Err p) }
        ensures unchanged { OnErr result (self.new ≡ self.old) }
    {
        let lenient = is_lenient(self.promises);
        let preserved = narrowed(lenient, self.promises, promises)?;
        let exec_preserved = narrowed(lenient, self.execpromises, execpromises)?;
        self.promises = preserved;
        self.execpromises = exec_preserved;
        Ok(())
    }

    /// Applies the effect of execve(2): the promises become the execpromises, or absent if these are. The execpromises
    /// do not change.
    pub fn after_exec(&mut self)
        ensures { self.new ≡ record self.old { promises = self.old.execpromises } }
    {
        self.promises = self.execpromises;
    }

    /// Returns the outcome of a call, by the first promise that it needs and the process does not have, pledge(2).
    pub fn decide(&self, call: CallRef<'_>) -> Decision
        ensures { result ≡ decision self.now.promises (needs (call_of call.entry)) }
    {
        match missing_for(self.promises, call) {
            None => Decision::Allowed,
            Some(promise) if is_lenient(self.promises) => Decision::Refuse(promise),
            Some(promise) => Decision::Kill(promise),
        }
    }
}
