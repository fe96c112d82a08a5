//! The state of each process.
ghost use Rattle.std.specs.Prelude.{◌≡◌, ◌++◌};
ghost use Rattle.std.specs.FinMap.Entries.{find};
ghost use Rattle.std.specs.Ordering.{nat_cmp};
ghost use Rattle.pv_answers.specs.Holdings.{held_by, location_of};
ghost use Rattle.pv_model.specs.Machine.{answer_bytes, locations, state_lines};
ghost use Rattle.pv_streams.specs.Sinks.{Writes};

use crate::calls::CallRoom;
use crate::holding::write_held;
use crate::location::write_location;
use pv_calls_state::Parts;
use pv_streams::{Failed, Sink};

/// Writes the location of each process, by ascending number. A live process has a PROC line with its parent and its
/// line, and a NEXT line with its next call. An ended process that is not yet waited for has a PROC line.
///
/// # Errors
///
/// `Failed`, if a write failed. The sink received a prefix of the lines.
pub fn write_locations<W: Sink>(out: &mut W, parts: &Parts) -> Result<(), Failed>
    ensures { Writes W.Sink (answer_bytes (locations parts.now)) out.old out.new result }
{
    parts.invariant();
    let mut room = CallRoom::new();
    let mut last = 0;
    while let Some(pid) = parts.processes().next_number(last) {
        write_location(out, parts, &mut room, pid)?;
        last = pid;
    }
    Ok(())
}

// Writes the lines of the state of a process. Writes nothing if there is no such process.
#[tactic(auto, using(pv_streams::proofs::OutputTexts::written_both))]
fn write_process<W: Sink>(
    out: &mut W,
    parts: &Parts,
    room: &mut CallRoom,
    pid: u32,
) -> Result<(), Failed>
    ensures { Writes W.Sink (answer_bytes (location_of pid (find nat_cmp pid parts.now.processes)) ++ answer_bytes (held_by parts.now pid)) out.old out.new result }
{
    write_location(out, parts, room, pid)?;
    write_held(out, parts, pid)
}

/// Writes the state of each process, by ascending number: the lines that `write_locations` writes and, for a live
/// process, the lines of its working directory, promises, table, descriptors, registers and buffer.
///
/// # Errors
///
/// `Failed`, if a write failed. The sink received a prefix of the lines.
pub fn write_state<W: Sink>(out: &mut W, parts: &Parts) -> Result<(), Failed>
    ensures { Writes W.Sink (answer_bytes (state_lines parts.now)) out.old out.new result }
{
    parts.invariant();
    let mut room = CallRoom::new();
    let mut last = 0;
    while let Some(pid) = parts.processes().next_number(last) {
        write_process(out, parts, &mut room, pid)?;
        last = pid;
    }
    Ok(())
}
