//! The next call of a process, and the calls that change its restraints.
ghost use Rattle.std.specs.Prelude.{◌≡◌};
ghost use Rattle.pv_answers.specs.Texts.{next_words};
ghost use Rattle.pv_model.specs.Machine.{is_unveil, call_of, process_at};
ghost use Rattle.pv_model.specs.Answers.Observed.{is_pledge};
ghost use Rattle.pv_streams.specs.Sinks.{Writes};

use pv_calls_state::Parts;
use pv_calls_state::procs::Fetched;
use pv_calls_state::script::CallTexts;
use pv_listing::trace::{LineBuffer, write_call};
use pv_model::CallRef;
use pv_streams::{Failed, Sink, write_whole};

/// Returns whether a call is a pledge(2).
pub fn is_pledge(call: CallRef<'_>) -> bool
    ensures { result ≡ is_pledge (call_of call.entry) }
{
    match call {
        CallRef::Pledge(_, _) => true,
        _ => false,
    }
}

/// Returns whether a call is an unveil(2).
pub fn is_unveil(call: CallRef<'_>) -> bool
    ensures { result ≡ is_unveil (call_of call.entry) }
{
    match call {
        CallRef::Unveil(_, _) => true,
        _ => false,
    }
}

/// Storage for one call and its texts.
#[derive(Drop)]
pub(crate) struct CallRoom {
    texts: CallTexts,
    line_buffer: LineBuffer,
}

impl CallRoom {
    /// Returns storage without a call.
    pub(crate) fn new() -> CallRoom {
        CallRoom {
            texts: CallTexts::new(),
            line_buffer: LineBuffer::new(),
        }
    }
}

/// Writes the next instruction of a live process: a call, as in a CALL line, or `registers`. Writes nothing if the
/// process is not live.
///
/// # Errors
///
/// `Failed`, if a write failed. The sink received a prefix of the text.
pub(crate) fn write_next<W: Sink>(
    out: &mut W,
    parts: &Parts,
    room: &mut CallRoom,
    pid: u32,
) -> Result<(), Failed>
    ensures { Writes W.Sink (next_words (process_at parts.now pid)) out.old out.new result }
{
    match parts.processes().fetch(pid, &mut room.texts) {
        Fetched::Gone => Ok(()),
        Fetched::Register => write_whole(out, b"registers"),
        Fetched::Call(call) => write_call(out, &mut room.line_buffer, call),
    }
}
