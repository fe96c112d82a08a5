//! Reading a source to its end.
ghost use Rattle.std.specs.Prelude.{◌≡◌, ◌<◌, ◌≤◌, [], length, vec_len, IfOk, IfErr, IfSome, OnOk, OnErr, Err};
ghost use Rattle.pv_model.specs.Machine.{Rose};
ghost use Rattle.pv_model.specs.Stream.{RoseBy, front_and};
ghost use Rattle.pv_streams.specs.Sources.{FailsToGive, IsReadOrMemory};

use pv_model::limits::SOURCE_BYTES;
use pv_model::{Failed, RunFault, Source};
use std::alloc::Global;

// The number of bytes that are requested from a source at a time.
const CHUNK: usize = 65_536;

// The initial capacity, which exceeds the length of most sources, so that the vector seldom grows. Capacity that is not
// written costs nothing.
const ROOM: usize = 8_388_608;

// Reads at least one byte, or zero bytes at the end of the source.
fn read_some<S: Source>(source: &mut S, chunk: &mut [u8]) -> Result<usize, RunFault>
    requires { 0 < length chunk.old }
    ensures bound { IfOk result (λ n. n ≤ length chunk.new) }
    ensures read { IfOk result (λ n. S.remaining source.old ≡ front_and n chunk.new (S.remaining source.new)) }
    ensures end { IfOk result (λ n. n ≡ 0 → IfSome (S.remaining source.new) (λ rest. rest ≡ [])) }
    ensures counted { IfOk result (λ n. RoseBy n (S.given source.old) (S.given source.new)) }
    ensures quiet { OnOk result (S.failures source.new ≡ S.failures source.old) }
    ensures failed { OnErr result (Rose (S.failures source.old) (S.failures source.new)) }
    ensures fault { IfErr result (λ fault. fault ≡ RunFault.Read) }
{
    match source.read(chunk) {
        Ok(count) => Ok(count),
        Err(Failed) => Err(RunFault::Read),
    }
}

/// Reads a source to its end.
///
/// # Errors
///
/// Returns `Read` if a read fails, or if the source has more than 67,108,864 bytes. Returns `Memory` if memory cannot
/// be allocated.
#[tactic(auto, using(crate::proofs::SourceReads::read_more, crate::proofs::SourceReads::read_all, crate::proofs::SourceReads::gave_more))]
pub fn read_whole<S: Source>(alloc: Global, source: &mut S) -> Result<Vec<u8>, RunFault>
    ensures whole { IfOk result (λ bytes. IfSome (S.remaining source.old) (λ all. all ≡ bytes.items)) }
    ensures size { IfOk result (λ bytes. vec_len bytes ≤ SOURCE_BYTES) }
    ensures read { result ≡ Err RunFault.Read → FailsToGive S.Source source.old source.new }
    ensures fault { IfErr result IsReadOrMemory }
{
    let mut bytes = Vec::with_capacity(alloc, ROOM)?;
    let mut chunk = [0; CHUNK];
    while bytes.len() <= SOURCE_BYTES {
        let count = read_some(source, &mut chunk)?;
        if count == 0 {
            return Ok(bytes);
        }
        bytes.extend_from_slice(&chunk[..count])?;
    }
    Err(RunFault::Read)
}
