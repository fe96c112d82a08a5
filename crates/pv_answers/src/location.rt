//! The identity and the location of each process.
ghost use Rattle.std.specs.Prelude.{◌≡◌, ◌++◌, IsSome};
ghost use Rattle.std.specs.FinMap.Entries.{find};
ghost use Rattle.std.specs.Ordering.{nat_cmp};
ghost use Rattle.pv_answers.specs.Holdings.{live_words, location_of};
ghost use Rattle.pv_model.specs.Machine.{answer_bytes, process_at};
ghost use Rattle.pv_streams.specs.Sinks.{Writes};

use crate::calls::{CallRoom, write_next};
use crate::lines::{Line, write_front};
use pv_calls_state::Parts;
use pv_streams::{Count, Decimal, Failed, Fragment, Plain, Sink, write_whole};

// Writes the line of a live process: its parent and its line.
fn write_live<W: Sink>(out: &mut W, parts: &Parts, pid: u32) -> Result<(), Failed>
    requires { IsSome (process_at parts.now pid) }
    ensures { Writes W.Sink (live_words (process_at parts.now pid)) out.old out.new result }
{
    let processes = parts.processes();
    let parent = Decimal(processes.parent_of(pid).unwrap_or(0));
    let line = Decimal(u32::from(parts.record(pid).context.line()));
    let count = Count(processes.program(pid).len() as u64);
    (
        Plain(b"live, parent "),
        parent,
        Plain(b", line "),
        line,
        Plain(b" of "),
        count,
    )
        .write(out)
}

// Writes the lines of a live process and its next call.
#[tactic(auto, unfolding(pv_model::specs::Trace::text_line))]
fn write_live_lines<W: Sink>(
    out: &mut W,
    parts: &Parts,
    room: &mut CallRoom,
    pid: u32,
) -> Result<(), Failed>
    requires { IsSome (process_at parts.now pid) }
    ensures { Writes W.Sink (answer_bytes (location_of pid (find nat_cmp pid parts.now.processes))) out.old out.new result }
{
    write_front(out, pid, b"PROC")?;
    write_live(out, parts, pid)?;
    write_whole(out, b"\n")?;
    write_front(out, pid, b"NEXT")?;
    write_next(out, parts, room, pid)?;
    write_whole(out, b"\n")
}

/// Writes the lines of the identity and location of a process. Writes nothing if there is no such process.
///
/// # Errors
///
/// `Failed`, if a write failed. The sink received a prefix of the lines.
#[tactic(auto, unfolding(pv_model::specs::Trace::text_line))]
pub(crate) fn write_location<W: Sink>(
    out: &mut W,
    parts: &Parts,
    room: &mut CallRoom,
    pid: u32,
) -> Result<(), Failed>
    ensures { Writes W.Sink (answer_bytes (location_of pid (find nat_cmp pid parts.now.processes))) out.old out.new result }
{
    let processes = parts.processes();
    if processes.live(pid) {
        return write_live_lines(out, parts, room, pid);
    }
    let Some((parent, status)) = processes.ended(pid) else {
        return Ok(());
    };
    let text = (
        Plain(b"ended, parent "),
        Decimal(parent),
        Plain(b", status "),
        Decimal(status),
    );
    Line {
        pid,
        word: *b"PROC",
        text,
    }
    .write(out)
}
