//! The comparison of two machines, and its answer.
ghost use Rattle.std.specs.Prelude.{◌≡◌, ◌≤◌, option_map, IfErr, IfOk, OnOk, IsErrOf};
ghost use Rattle.pv_compare.specs.Answering.{compared_by, compared_of, difference_text, result_text};
ghost use Rattle.pv_compare.specs.Pairs.{AreCounted, IsCompared, IsSearchInvariant, found_in, pairs_of};
ghost use Rattle.pv_compare.specs.Plan.{compared_pairs};
ghost use Rattle.pv_model.specs.Machine.{comparison, answer_bytes, answer_line_bytes, program_of};
ghost use Rattle.pv_model.specs.Answers.Compare.{alike_text, comparison_lines, pairs_line};
ghost use Rattle.pv_streams.specs.Sinks.{FailsBy, Writes, WritesOr};

use crate::differences::Difference;
use crate::pairs::Pairs;
use pv_explore::answers::Line;
use pv_explore::{Count, FirstMachine, Progress, Witness};
use pv_model::StepFault;
use pv_streams::{Failed, Fragment, Plain, Sink, Stop};
use std::alloc::Global;

/// The result of a comparison.
#[derive(Clone, Copy, Debug, PartialEq, Eq)]
pub enum Compared {
    /// No step differs under any schedule.
    Same,
    /// No step of the visited pairs differs, but a pair was left out.
    Incomplete,
    /// A step differs.
    Different,
}

// Returns the end of the last line of a comparison that found no difference.
fn words(complete: bool) -> &'static [u8]
    ensures { result.now ≡ alike_text complete }
{
    if complete {
        b"complete, the same"
    } else {
        b"not complete, no difference found"
    }
}

// Writes the last line, DONE: the number of visited pairs, and the result in words.
#[tactic(auto, unfolding(pv_model::specs::Trace::text_line))]
fn write_done<W: Sink>(out: &mut W, pairs: usize, words: &[u8]) -> Result<(), Failed>
    ensures { Writes W.Sink (answer_line_bytes (pairs_line pairs words.now)) out.old out.new result }
{
    let line = Line {
        pid: 0,
        word: *b"DONE",
        text: (Count(pairs), Plain(b" pairs, "), Plain(words)),
    };
    line.write(out)
}

// Writes the step that differs.
#[tactic(auto, unfolding(pv_model::specs::Trace::text_line))]
fn write_difference<W: Sink>(
    out: &mut W,
    difference: &Difference,
    pairs: usize,
) -> Result<(), Failed>
    ensures { Writes W.Sink (difference_text difference.now pairs) out.old out.new result }
{
    let by = Line {
        pid: difference.pid,
        word: *b"BY  ",
        text: Witness(&difference.witness),
    };
    let first = Line {
        pid: 0,
        word: *b"SIDE",
        text: Plain(b"first"),
    };
    let second = Line {
        pid: 0,
        word: *b"SIDE",
        text: Plain(b"second"),
    };
    let done = Line {
        pid: 0,
        word: *b"DONE",
        text: (Count(pairs), Plain(b" pairs, "), Plain(b"different")),
    };
    let (one, other) = (Plain(&difference.first), Plain(&difference.second));
    (by, first, one, second, other, done).write(out)
}

// Writes the result of a search of pairs, and returns it.
fn write_result<W: Sink>(
    out: &mut W,
    pairs: usize,
    complete: bool,
    found: Option<&Difference>,
) -> Result<Compared, Stop>
    ensures written { WritesOr W.Sink FailsBy (result_text pairs complete (option_map (λ d. d.now) found.entry)) out.old out.new result }
    ensures compared { IfOk result (λ compared. compared ≡ compared_by complete (option_map (λ d. d.now) found.entry)) }
    ensures error { IfErr result (λ stop. stop ≡ Stop.Write) }
{
    if let Some(difference) = found {
        write_difference(out, difference, pairs)?;
        return Ok(Compared::Different);
    }
    write_done(out, pairs, words(complete))?;
    if complete {
        Ok(Compared::Same)
    } else {
        Ok(Compared::Incomplete)
    }
}

// Searches from the pair of the first states, and ends the progress.
fn search_all<P: Progress>(
    alloc: Global,
    visited: &mut Pairs<'_>,
    pairs: u32,
    progress: &mut P,
) -> Result<Option<Difference>, StepFault>
    requires { IsSearchInvariant visited.old }
    ensures counted { OnOk result (AreCounted visited.new) }
    ensures compared { IfOk result (IsCompared pairs (compared_pairs program_of pairs pairs 0 (found_in (pairs_of visited.old)) visited.old.complete) visited.new) }
{
    let end = visited.search(alloc, pairs, progress);
    progress.end();
    end
}

/// Writes whether the steps of two machines differ under some schedule. The search visits at most `pairs` pairs of states,
/// in breadth-first order from the pair of the first states of both. In each, it makes a step of each process that is
/// live in either, in both states. A step differs if the texts of its lines are different, unless it is a call of
/// pledge(2) or unveil(2) in both states. At the first step that differs the search ends, and these lines are written:
///
/// - BY with a shortest schedule that leads to this step;
/// - `SIDE  first`, and the lines of the step in the first state;
/// - `SIDE  second`, and the lines of the step in the second state.
///
/// The last line, DONE, has the number of visited pairs, and whether a step differs and these are all pairs.
///
/// If the visited pairs are all pairs and no step differs, the traces of each schedule are equal, but for the steps at
/// calls of pledge(2) and unveil(2): see `pv_laws_schedules`.
///
/// `progress` shows the state of the search. It ends before the lines, also if the search fails.
///
/// # Errors
///
/// - `Memory`, if there is no memory. Nothing was written.
/// - `Write`, if a write failed. The sink received a prefix of the lines.
pub fn write_compare<W: Sink, P: Progress>(
    alloc: Global,
    first: &FirstMachine,
    second: &FirstMachine,
    pairs: u32,
    progress: &mut P,
    out: &mut W,
) -> Result<Compared, Stop>
    requires { 1 ≤ pairs }
    ensures written { WritesOr W.Sink FailsBy (answer_bytes (comparison_lines (comparison program_of pairs first.now second.now))) out.old out.new result }
    ensures compared { IfOk result (λ compared. compared ≡ compared_of (comparison program_of pairs first.now second.now)) }
    ensures nothing { IsErrOf result Stop.Memory → W.written out.new ≡ W.written out.old }
{
    let mut visited = Pairs::new(alloc, first, second)?;
    let found = search_all(alloc, &mut visited, pairs, progress)?;
    write_result(out, visited.len(), visited.complete, found.as_ref())
}
