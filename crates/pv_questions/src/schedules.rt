//! The schedule of a run: cut after some steps, or in the text of a witness.
ghost use Rattle.std.specs.Prelude.{◌≡◌, ◌≤◌, length, IfOk};
ghost use Rattle.pv_questions.specs.Schedules.{are_turns, first_steps, first_turns, turns_text};

use pv_model::ScheduleFault;
use pv_script::Schedule;
use std::alloc::{AllocError, Global};

// Returns the turns of a schedule that is cut after a number of steps.
fn cut_turns(alloc: Global, turns: &[(u32, u32)], steps: u32) -> Result<Vec<(u32, u32)>, AllocError>
    ensures value { IfOk result (λ first. first.items ≡ first_steps steps turns.now) }
    ensures few { IfOk result (λ first. length first.items ≤ length turns.now) }
{
    let mut first = Vec::new(alloc);
    let mut left = steps;
    for turn in turns {
        let (pid, count) = *turn;
        if left <= count {
            first.push((pid, left))?;
            return Ok(first);
        }
        first.push((pid, count))?;
        left -= count;
    }
    Ok(first)
}

// Returns the turns of a schedule, cut after a number of steps if there is one.
pub(crate) fn first_turns(
    alloc: Global,
    turns: &[(u32, u32)],
    steps: Option<u32>,
) -> Result<Vec<(u32, u32)>, AllocError>
    ensures value { IfOk result (λ first. first.items ≡ first_turns steps turns.now) }
    ensures few { IfOk result (λ first. length first.items ≤ length turns.now) }
{
    let Some(steps) = steps else {
        let mut all = Vec::new(alloc);
        all.extend_from_slice(turns)?;
        return Ok(all);
    };
    cut_turns(alloc, turns, steps)
}

/// Returns the text of a schedule that represents turns with `, ` between, as `explore` writes a witness.
///
/// # Errors
///
/// `AllocError`, if there is no memory.
pub fn text_of_turns(alloc: Global, turns: &[u8]) -> Result<Vec<u8>, AllocError>
    ensures { IfOk result (λ text. text.items ≡ turns_text turns.now) }
{
    let mut text = Vec::new(alloc);
    let mut rest = turns;
    while let Some((byte, following)) = rest.split_first() {
        match following.split_first() {
            Some((b' ', after)) if *byte == b',' => {
                text.push(b'\n')?;
                rest = after;
            }
            _ => {
                text.push(*byte)?;
                rest = following;
            }
        }
    }
    Ok(text)
}

/// Returns whether a text is turns with `, ` between: each `PID` or `PID COUNT`, as a line of a schedule.
///
/// # Errors
///
/// `AllocError`, if there is no memory.
pub fn is_turns(alloc: Global, turns: &[u8]) -> Result<bool, AllocError>
    ensures { IfOk result (λ is. is ≡ are_turns turns.now) }
{
    let text = text_of_turns(alloc, turns)?;
    match Schedule::parse(alloc, &text) {
        Ok(_) => Ok(true),
        Err(ScheduleFault::Line(_)) => Ok(false),
        Err(ScheduleFault::Memory) => Err(AllocError),
    }
}
