//! The permissions that the next call of each process has at each place, whatever that call is.
//!
//! `reacher` has a process and its permissions by the governing entry. `names` enumerates the names of the tree, and
//! `unnamed` the other places that the process can reach.
ghost use Rattle.std.specs.Prelude.{◌≡◌};
ghost use Rattle.pv_answers.specs.Reaching.{process_lines, reached_by};
ghost use Rattle.pv_model.specs.Machine.{answer_bytes, reach_lines};
ghost use Rattle.pv_streams.specs.Sinks.{Writes};

mod names;
mod reacher;
mod unnamed;

use names::write_listed;
use pv_calls_state::Parts;
use pv_streams::{Failed, Sink};
use reacher::Reacher;
use unnamed::{write_absents, write_descriptors, write_directory};

// Writes the lines of a process.
#[tactic(auto, using(pv_streams::proofs::OutputTexts::written_both, pv_streams::proofs::OutputTexts::begins_first, pv_streams::proofs::OutputTexts::begins_then))]
fn write_process<W: Sink>(out: &mut W, reacher: &Reacher<'_>) -> Result<(), Failed>
    ensures { Writes W.Sink (process_lines reacher.now) out.old out.new result }
{
    write_listed(out, reacher)?;
    write_absents(out, reacher)?;
    write_directory(out, reacher)?;
    write_descriptors(out, reacher)
}

/// Writes the permissions that the next call of a live process has at each place, whatever that call is. Writes a MAY
/// line for each name of the tree, in the order of a listing; for each table entry whose target is an absent name; for
/// the working directory, if it is removed; and for each descriptor on a node without a path. Writes nothing if the
/// process is not live. Does not allocate.
///
/// # Errors
///
/// `Failed`, if a write failed. The sink received a prefix of the lines.
pub fn write_reach_of<W: Sink>(out: &mut W, parts: &Parts, pid: u32) -> Result<(), Failed>
    ensures { Writes W.Sink (answer_bytes (reached_by parts.now pid)) out.old out.new result }
{
    match parts.live_record(pid) {
        Some(owned) => write_process(out, &Reacher { parts, owned, pid }),
        None => Ok(()),
    }
}

/// Writes the permissions that the next call of each live process has at each place, by ascending process number, as
/// `write_reach_of` does for each. Does not allocate.
///
/// # Errors
///
/// `Failed`, if a write failed. The sink received a prefix of the lines.
pub fn write_reach<W: Sink>(out: &mut W, parts: &Parts) -> Result<(), Failed>
    ensures { Writes W.Sink (answer_bytes (reach_lines parts.now)) out.old out.new result }
{
    // The contract of `invariant` states that the numbers ascend.
    parts.invariant();
    let mut last = 0;
    while let Some(pid) = parts.processes().next_number(last) {
        write_reach_of(out, parts, pid)?;
        last = pid;
    }
    Ok(())
}
