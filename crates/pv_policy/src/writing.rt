//! The lines of a program, as bytes.
ghost use Rattle.std.specs.Prelude.{◌≡◌, ◌++◌, flat_map, OnOk};
ghost use Rattle.pv_model.specs.Machine.{answer_bytes, answer_line_bytes, counted_from};
ghost use Rattle.pv_model.specs.Answers.Policy.{idle_line, idle_permission_line};
ghost use Rattle.pv_policy.specs.Usage.{idle_granted, idle_of, idle_promise, promise_bytes, usage_bytes, use_bytes};

use crate::granted::permissions_at;
use crate::noted::Granted;
use crate::program_use::ProgramUse;
use crate::promises::PromiseUse;
use crate::targets::{TargetUse, lacked};
use pv_model::Perms;
use pv_needs::answers::{Letters, Line};
use pv_programs::append_program_line;
use pv_streams::{Fragment, Gathered, Plain, append};
use pv_tree::Tree;
use std::alloc::{AllocError, Global};

// Appends an IDLE line.
#[tactic(auto, unfolding(pv_model::specs::Trace::text_line))]
fn push_idle_line<P: Fragment>(out: &mut Gathered, text: &P) -> Result<(), AllocError>
    ensures { OnOk result (out.new.bytes.items ≡ out.old.bytes.items ++ answer_line_bytes (idle_line (P.text text.now))) }
{
    let line = Line {
        pid: 0,
        word: *b"IDLE",
        text,
    };
    append(out, &line)
}

// Appends the lines of the first call that needs a promise, if there is one.
fn push_first(out: &mut Gathered, used: &PromiseUse) -> Result<(), AllocError>
    ensures { OnOk result (out.new.bytes.items ≡ out.old.bytes.items ++ promise_bytes used.now) }
{
    match used.first() {
        Some(first) => append(out, &Plain(first)),
        None => Ok(()),
    }
}

// Appends the lines of the first calls that need promises.
fn push_firsts(out: &mut Gathered, uses: &[PromiseUse]) -> Result<(), AllocError>
    ensures { OnOk result (out.new.bytes.items ≡ out.old.bytes.items ++ flat_map promise_bytes uses.now) }
{
    for used in uses {
        push_first(out, used)?;
    }
    Ok(())
}

// Appends the lines of the walks that asked for new permissions.
fn push_targets(out: &mut Gathered, targets: &[TargetUse]) -> Result<(), AllocError>
    ensures { OnOk result (out.new.bytes.items ≡ out.old.bytes.items ++ flat_map (λ target. target.lines) targets.now) }
{
    for target in targets {
        append(out, &Plain(target.lines()))?;
    }
    Ok(())
}

// Appends the line of a promise that is held and not needed.
fn push_idle_promise(out: &mut Gathered, used: &PromiseUse) -> Result<(), AllocError>
    ensures { OnOk result (out.new.bytes.items ≡ out.old.bytes.items ++ answer_bytes (idle_promise used.now)) }
{
    if !used.is_idle() {
        return Ok(());
    }
    push_idle_line(out, &Plain(used.promise().name().as_bytes()))
}

// Appends the lines of the promises that are held and not needed.
fn push_idle_promises(out: &mut Gathered, uses: &[PromiseUse]) -> Result<(), AllocError>
    ensures { OnOk result (out.new.bytes.items ≡ out.old.bytes.items ++ answer_bytes (flat_map idle_promise uses.now)) }
{
    for used in uses {
        push_idle_promise(out, used)?;
    }
    Ok(())
}

// Appends the line of permissions that are not used, if there are any.
fn push_left(out: &mut Gathered, left: Perms, words: &[u8]) -> Result<(), AllocError>
    ensures { OnOk result (out.new.bytes.items ≡ out.old.bytes.items ++ answer_bytes (idle_permission_line left words.now)) }
{
    if Perms::NONE.covers(left) {
        return Ok(());
    }
    push_idle_line(out, &(Letters(left), Plain(b", "), Plain(words)))
}

// Appends the line of the permissions at a target that are not used, if there are any.
fn push_idle_granted(
    out: &mut Gathered,
    used: &[Granted],
    granted: &Granted,
) -> Result<(), AllocError>
    ensures { OnOk result (out.new.bytes.items ≡ out.old.bytes.items ++ answer_bytes (idle_granted used.now granted.now)) }
{
    let left = lacked(permissions_at(used, &granted.words), granted.permissions);
    push_left(out, left, &granted.words)
}

// Appends the lines of the permissions that are not used.
fn push_idle_permissions(
    out: &mut Gathered,
    used: &[Granted],
    granted: &[Granted],
) -> Result<(), AllocError>
    ensures { OnOk result (out.new.bytes.items ≡ out.old.bytes.items ++ answer_bytes (flat_map (idle_granted used.now) granted.now)) }
{
    for row in granted {
        push_idle_granted(out, used, row)?;
    }
    Ok(())
}

// Appends the lines of the promises and permissions that are held and never used, if the search is complete.
fn push_idle(out: &mut Gathered, complete: bool, used: &ProgramUse) -> Result<(), AllocError>
    ensures { OnOk result (out.new.bytes.items ≡ out.old.bytes.items ++ answer_bytes (idle_of complete used.now)) }
{
    if !complete {
        return Ok(());
    }
    push_idle_promises(out, &used.promises)?;
    push_idle_permissions(out, &used.used, &used.granted)
}

/// Appends the lines of a program after its first one.
///
/// # Errors
///
/// `AllocError`, if there is no memory.
pub(crate) fn push_use(
    out: &mut Gathered,
    complete: bool,
    used: &ProgramUse,
) -> Result<(), AllocError>
    ensures { OnOk result (out.new.bytes.items ≡ out.old.bytes.items ++ use_bytes complete used.now) }
{
    push_firsts(out, &used.promises)?;
    push_targets(out, &used.targets)?;
    push_idle(out, complete, used)
}

// Appends the lines of a program with its number.
fn push_program(
    alloc: Global,
    out: &mut Gathered,
    tree: &Tree,
    complete: bool,
    number: usize,
    used: &ProgramUse,
) -> Result<(), AllocError>
    ensures { OnOk result (out.new.bytes.items ≡ out.old.bytes.items ++ usage_bytes tree.now.tree complete (number, used.now)) }
{
    append_program_line(alloc, out, tree, number, &used.program)?;
    push_use(out, complete, used)
}

/// Appends the lines of programs, numbered from 1.
///
/// # Errors
///
/// `AllocError`, if there is no memory.
pub fn push_programs(
    alloc: Global,
    out: &mut Gathered,
    tree: &Tree,
    complete: bool,
    programs: &[ProgramUse],
) -> Result<(), AllocError>
    ensures { OnOk result (out.new.bytes.items ≡ out.old.bytes.items ++ flat_map (usage_bytes tree.now.tree complete) (counted_from 1 programs.now)) }
{
    for (k, used) in programs.iter().enumerate() {
        push_program(alloc, out, tree, complete, k + 1, used)?;
    }
    Ok(())
}
