//! Schedules: sequences of turns, each with a process and its number of steps.
ghost use Rattle.std.specs.Prelude.{◌≡◌, ◌<◌, ◌≤◌, ◌↔◌, [], length, slice_get, IsTrue, Some};
ghost use Rattle.pv_model.specs.declared.limits.TheConstants.{SCHEDULE_LINES};
ghost use Rattle.pv_model.specs.Machine.{word_at, one_argument, read_schedule};
ghost use Rattle.pv_model.specs.Grammar.Schedules.{count_of, turn_of};
ghost use Rattle.pv_script.specs.Reading.{GivesSchedule};
ghost use Rattle.pv_text.specs.Reading.{Reads};

use pv_model::ScheduleFault;
use pv_model::limits::LAST_PROCESS;
use pv_text::lines::{after_one_space, split_line, split_word};
use pv_text::words::decimal;
use std::alloc::Global;
use std::marker::Model;

/// A schedule: turns, each with a process and its number of steps. Contracts see their list.
#[derive(Drop)]
pub struct Schedule {
    turns: Vec<(u32, u32)>,
}

impl Model for Schedule {
    ghost use Rattle.pv_model.specs.declared.limits.TheConstants.{SCHEDULE_LINES};
    ghost use Rattle.std.specs.Prelude.{length, ◌≤◌};
    ghost use Rattle.pv_model.specs.Step.{Schedule as Turns};

    ghost Value = { Turns };

    ghost view = { λ s. s.turns.items };

    ghost invariant = { λ s. length s.turns.items ≤ SCHEDULE_LINES };
}

// Parses a word as a number from 1 to 99,999.
fn count_of_word(word: &[u8]) -> Option<u32>
    ensures { result ≡ count_of word.now }
{
    let count = decimal(word)?;
    if count == 0 || count > LAST_PROCESS {
        return None;
    }
    Some(count)
}

// Parses a number from 1 to 99,999, and returns it with the bytes after it.
fn count(bytes: &[u8]) -> Option<(u32, &[u8])>
    ensures { Reads result (word_at count_of bytes.now) }
{
    let (word, rest) = split_word(bytes);
    let count = count_of_word(word)?;
    Some((count, rest))
}

// Parses one argument, a number from 1 to 99,999.
fn one_count(bytes: &[u8]) -> Option<u32>
    ensures { result ≡ one_argument (word_at count_of) bytes.now }
{
    let (first, rest) = count(after_one_space(bytes)?)?;
    if rest.is_empty() { Some(first) } else { None }
}

/// Parses a line of a schedule: the number of a process and its number of steps, each from 1 to 99,999. If the second
/// number is missing, it is 1. Returns `None` if the line has another form.
pub fn turn(line: &[u8]) -> Option<(u32, u32)>
    ensures { result ≡ turn_of line.now }
{
    let (process, rest) = count(line)?;
    if rest.is_empty() {
        return Some((process, 1));
    }
    let steps = one_count(rest)?;
    Some((process, steps))
}

impl Schedule {
    /// Parses a schedule. Each line has the number of a process and, after a space, its number of steps. If the second
    /// number is missing, it is 1. Each number is from 1 to 99,999.
    ///
    /// # Errors
    ///
    /// Returns `Line(n)` for the first line that does not have this form, counted from 1. If all of the first 65,536
    /// lines have it and more lines follow, `n` is 65,537. Returns `Memory` if memory cannot be allocated.
    #[tactic(auto, unfolding(pv_model::specs::Grammar::Schedules::read_schedule))]
    pub fn parse(alloc: Global, text: &[u8]) -> Result<Schedule, ScheduleFault>
        ensures { GivesSchedule result (read_schedule text.now) }
    {
        let mut turns = Vec::new(alloc);
        let mut rest = text;
        let mut line_number: u32 = 1;
        while let Some((line, following)) = split_line(rest) {
            if line_number == 65_537 {
                return Err(ScheduleFault::Line(65_537));
            }
            match turn(line) {
                Some(turn) => turns.push(turn)?,
                None => return Err(ScheduleFault::Line(line_number)),
            }
            line_number += 1;
            rest = following;
        }
        Ok(Schedule { turns })
    }

    /// Returns the number of turns, at most 65,536.
    pub fn len(&self) -> usize
        ensures value { result ≡ length self.now }
        ensures few { result ≤ SCHEDULE_LINES }
    {
        self.turns.len()
    }

    /// Returns whether the schedule has no turns.
    pub fn is_empty(&self) -> bool
        ensures { IsTrue result ↔ (self.now ≡ []) }
    {
        self.turns.is_empty()
    }

    /// Returns the process of turn `k`, counted from 0, and its number of steps. The schedule must have that turn.
    pub fn at(&self, k: usize) -> (u32, u32)
        requires { k < length self.now }
        ensures { slice_get self.now k ≡ Some result }
    {
        self.turns[k]
    }

    /// Returns the turns.
    pub fn turns(&self) -> &[(u32, u32)]
        ensures value { result.now ≡ self.now }
        ensures few { length result.now ≤ SCHEDULE_LINES }
    {
        self.turns.as_slice()
    }
}
