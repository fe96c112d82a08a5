//! Writing slices of bytes in full.
ghost use Rattle.std.specs.Prelude.{◌≡◌, ◌<◌, ◌≤◌, length, IfOk, OnOk, OnErr};
ghost use Rattle.pv_model.specs.Machine.{Rose};
ghost use Rattle.pv_model.specs.Stream.{and_front};
ghost use Rattle.pv_streams.specs.Sinks.{Writes};

use pv_model::{Failed, Sink};

// Writes at least one of the bytes. A write of zero bytes from a nonempty slice is an error.
#[tactic(auto, using(crate::proofs::SinkWrites::written_nothing))]
pub(crate) fn write_some<W: Sink>(sink: &mut W, bytes: &[u8]) -> Result<usize, Failed>
    requires { 0 < length bytes.now }
    ensures some { IfOk result (λ n. 0 < n) }
    ensures bound { IfOk result (λ n. n ≤ length bytes.now) }
    ensures written { IfOk result (λ n. W.written sink.new ≡ and_front (W.written sink.old) n bytes.now) }
    ensures quiet { OnOk result (W.failures sink.new ≡ W.failures sink.old) }
    ensures preserved { OnErr result (W.written sink.new ≡ W.written sink.old) }
    ensures failed { OnErr result (Rose (W.failures sink.old) (W.failures sink.new)) }
{
    match sink.write(bytes)? {
        0 => Err(Failed),
        count => Ok(count),
    }
}

/// Writes all of `bytes`.
///
/// # Errors
///
/// Returns `Failed` if a write fails. The sink then has received a prefix of `bytes`.
#[tactic(auto, using(crate::proofs::SinkWrites::written_more, crate::proofs::SinkWrites::reports_prefix))]
pub fn write_whole<W: Sink>(sink: &mut W, bytes: &[u8]) -> Result<(), Failed>
    ensures { Writes W.Sink bytes.now sink.old sink.new result }
{
    let mut at = 0;
    while at < bytes.len() {
        at += write_some(sink, &bytes[at..])?;
    }
    Ok(())
}

/// Writes all of `bytes` and flushes the sink.
///
/// # Errors
///
/// Returns `Failed` if a write or the flush fails. The sink then has received a prefix of `bytes`.
#[tactic(auto, using(crate::proofs::SinkWrites::begins_whole))]
pub fn write_through<W: Sink>(sink: &mut W, bytes: &[u8]) -> Result<(), Failed>
    ensures written { Writes W.Sink bytes.now sink.old sink.new result }
    ensures empty { OnOk result (W.buffered sink.new ≡ 0) }
{
    write_whole(sink, bytes)?;
    sink.flush()
}
