//! The promises that the calls of a program need, and those that they are made with.
ghost use Rattle.std.specs.Prelude.{◌≡◌, ◌&&◌, map, not, option_copied, IfOk, OnOk};
ghost use Rattle.std.specs.List.{list_any};
ghost use Rattle.std.specs.Option.{option_or};
ghost use Rattle.pv_model.specs.Machine.{same_promise, call_of};
ghost use Rattle.pv_model.specs.Answers.Policy.{promises_in_use};
ghost use Rattle.pv_policy.specs.Noting.{bytes_in, noted_in};
ghost use Rattle.pv_policy.specs.Usage.{first_bytes, is_held, need_bytes, promise_by, used_promise_with, unused_promise};
ghost use Rattle.pv_promises.specs.Pledge.{bits_of};

use crate::noted::NotedCall;
use crate::text::need_lines;
use pv_model::{CallRef, Promise, Promises};
use pv_needs::answers::is_pledge;
use pv_needs::{needs_either, promises_of};
use pv_promises::has;
use std::alloc::{AllocError, Global};
use std::marker::Model;

/// The use of a promise by the calls of a program.
#[derive(Drop)]
pub(crate) struct PromiseUse {
    promise: Promise,
    // The lines of the first call that needs it, if there is one.
    alone: Option<Vec<u8>>,
    // For rpath, the lines of the first call that needs either of rpath and wpath, if there is one.
    either: Option<Vec<u8>>,
    // Whether a call needs it, alone or not.
    needed: bool,
    // Whether a call is made while it is held.
    held: bool,
}

impl Model for PromiseUse {
    ghost use Rattle.pv_policy.specs.Noting.{bytes_in};
    ghost use Rattle.pv_policy.specs.Usage.{UsedPromise};

    ghost Value = { UsedPromise };

    ghost view = { λ u. record { promise = u.promise; alone = bytes_in u.alone; either = bytes_in u.either; needed = u.needed; held = u.held } };
}

// Returns whether a promise is among some promises.
fn is_among(promise: Promise, promises: &[Promise]) -> bool
    ensures { result ≡ list_any (same_promise promise) promises.now }
{
    promises.iter().any(|other| promise.bit() == other.bit())
}

// Returns whether a call other than pledge(2) is made with a promise, by a process that is pledged.
fn is_held(pledged: Option<Promises>, call: CallRef<'_>, promise: Promise) -> bool
    ensures { result ≡ is_held (bits_of pledged) (call_of call.entry) promise }
{
    match pledged {
        Some(set) => !is_pledge(call) && has(set, promise),
        None => false,
    }
}

// Keeps the lines of a call, if it is the first one.
fn keep_first(
    alloc: Global,
    first: &mut Option<Vec<u8>>,
    is: bool,
    call: &NotedCall<'_>,
    need: &[u8],
) -> Result<(), AllocError>
    ensures { OnOk result (bytes_in first.new ≡ first_bytes (bytes_in first.old) is (need_bytes call.now.by.now call.now.pid need.now call.now.line)) }
{
    if !is || first.is_some() {
        return Ok(());
    }
    *first = Some(need_lines(alloc, call.by, call.pid, need, call.line)?);
    Ok(())
}

impl PromiseUse {
    // Returns the use of a promise before the first call.
    fn new(promise: Promise) -> PromiseUse
        ensures { result ≡ unused_promise promise }
    {
        PromiseUse {
            promise,
            alone: None,
            either: None,
            needed: false,
            held: false,
        }
    }

    /// Returns the promise.
    pub(crate) fn promise(&self) -> Promise
        ensures { result ≡ self.now.promise }
    {
        self.promise
    }

    /// Returns the lines of the first call that needs the promise. If there is none, returns those of the first call
    /// that needs either of rpath and wpath, which only rpath has.
    pub(crate) fn first(&self) -> Option<&[u8]>
        ensures { option_copied result ≡ option_or self.now.alone self.now.either }
    {
        match (&self.alone, &self.either) {
            (Some(lines), _) => Some(lines.as_slice()),
            (None, Some(lines)) => Some(lines.as_slice()),
            (None, None) => None,
        }
    }

    /// Returns whether a call is made while the promise is held, and none needs it.
    pub(crate) fn is_idle(&self) -> bool
        ensures { result ≡ (self.now.held && not self.now.needed) }
    {
        self.held && !self.needed
    }

    // Adds a call, given the promises that it needs and whether it needs either of two.
    fn add(
        &mut self,
        alloc: Global,
        call: &NotedCall<'_>,
        needed: &[Promise],
        either: bool,
    ) -> Result<(), AllocError>
        ensures { OnOk result (self.new ≡ promise_by needed.now either (noted_in call.now) self.old) }
    {
        let is_needed = is_among(self.promise, needed);
        let name = self.promise.name().as_bytes();
        let is_rpath = self.promise.bit() == 1;
        keep_first(alloc, &mut self.alone, is_needed && !either, call, name)?;
        keep_first(
            alloc,
            &mut self.either,
            is_rpath && either,
            call,
            b"rpath|wpath",
        )?;
        self.needed = self.needed || is_needed;
        self.held = self.held || is_held(call.pledged, call.call, self.promise);
        Ok(())
    }
}

// Adds a call to the use of each promise, given the promises that it needs.
fn add_to_each(
    alloc: Global,
    uses: &mut [PromiseUse],
    call: &NotedCall<'_>,
    needed: &[Promise],
    either: bool,
) -> Result<(), AllocError>
    ensures { OnOk result (uses.new ≡ map (promise_by needed.now either (noted_in call.now)) uses.old) }
{
    for k in 0..uses.len() {
        uses[k].add(alloc, call, needed, either)?;
    }
    Ok(())
}

/// Adds a call to the use of each promise.
///
/// # Errors
///
/// `AllocError`, if there is no memory.
pub(crate) fn add_call(
    alloc: Global,
    uses: &mut [PromiseUse],
    call: &NotedCall<'_>,
) -> Result<(), AllocError>
    ensures { OnOk result (uses.new ≡ map (used_promise_with (noted_in call.now)) uses.old) }
{
    let needed = promises_of(call.call);
    add_to_each(alloc, uses, call, needed, needs_either(call.call))
}

/// Returns the use of each promise before the first call.
///
/// # Errors
///
/// `AllocError`, if there is no memory.
pub(crate) fn no_uses(alloc: Global) -> Result<Vec<PromiseUse>, AllocError>
    ensures { IfOk result (λ uses. uses.items ≡ map unused_promise promises_in_use) }
{
    let mut uses = Vec::new(alloc);
    uses.push(PromiseUse::new(Promise::Stdio))?;
    uses.push(PromiseUse::new(Promise::Rpath))?;
    uses.push(PromiseUse::new(Promise::Wpath))?;
    uses.push(PromiseUse::new(Promise::Cpath))?;
    uses.push(PromiseUse::new(Promise::Proc))?;
    uses.push(PromiseUse::new(Promise::Exec))?;
    uses.push(PromiseUse::new(Promise::Unveil))?;
    Ok(uses)
}
