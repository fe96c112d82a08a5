//! The comparison of two inputs.
ghost use Rattle.std.specs.Prelude.{◌≡◌, ◌≤◌, Err};
ghost use Rattle.pv_questions.specs.Answered.{WritesAnswer, IsWritten, KeepsOutput};
ghost use Rattle.pv_questions.specs.Answers.{compared_to};
ghost use Rattle.pv_questions.specs.declared.failure.Failure.TheVariants.{Memory};

use crate::answering::{End, flushed};
use crate::failure::Failure;
use crate::input::Input;
use crate::trees::first_machine_on;
use pv_compare::explore::Progress;
use pv_compare::write_compare;
use pv_streams::Sink;
use std::alloc::Global;

// Writes the comparison, and leaves its last bytes buffered.
fn write_comparison<W: Sink, P: Progress>(
    alloc: Global,
    pairs: u32,
    first: Input,
    second: Input,
    progress: &mut P,
    out: &mut W,
) -> Result<End, Failure>
    ensures written { IsWritten W.Sink (compared_to pairs first second) out.old out.new result }
    ensures late { result ≡ Err Memory → KeepsOutput W.Sink out.old out.new }
{
    let first = first_machine_on(alloc, first)?;
    let second = first_machine_on(alloc, second)?;
    let compared = write_compare(alloc, &first, &second, pairs.max(1), progress, out)?;
    Ok(End::of_comparison(compared))
}

/// Writes whether the steps of the machines that boot on two trees differ under some schedule. The search visits at most
/// `pairs` pairs of states; 0 counts as 1. The first input is checked, and the program of its `init`, and then the
/// second. On success, the steps are the same under all schedules, and `out` received exactly the text of the answer.
/// The search reports its progress to `progress`.
///
/// # Errors
///
/// - `Refused`: the first error of an input or of its program. Nothing was written.
/// - `Memory`: there is no memory. Nothing was written.
/// - `Write`: a write to the output failed. `out` received a prefix of the text, or nothing.
/// - `Incomplete`: no step of the visited pairs differs, but a pair was left out. `out` received exactly the text.
/// - `Different`: a step differs. `out` received exactly the text.
///
/// Except after `Write`, everything that was written is flushed.
pub fn compare<W: Sink, P: Progress>(
    alloc: Global,
    pairs: u32,
    first: Input,
    second: Input,
    progress: &mut P,
    out: &mut W,
) -> Result<(), Failure>
    ensures answered { WritesAnswer W.Sink (compared_to pairs first second) out.old out.new result }
    ensures late { result ≡ Err Memory → KeepsOutput W.Sink out.old out.new }
{
    let end = write_comparison(alloc, pairs, first, second, progress, out);
    flushed(end, out)
}
