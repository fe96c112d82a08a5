//! Reading a file to its end, up to a maximum length.
ghost use Rattle.std.specs.Prelude.{◌≢◌, Err, IfOk, IfSome, IsSome};
ghost use Rattle.pv_host_copy.specs.Reading.{AreBytesWithin};

use crate::fault::HostFault;
use crate::file::HostFile;
use std::alloc::Global;

// The number of bytes that are requested from a file at a time.
const CHUNK: usize = 4_096;

/// Reads a file to its end. Returns `None` if it has more than `limit` bytes.
///
/// # Errors
///
/// Returns `Read` if a read fails. Returns `Memory` if memory cannot be allocated.
#[tactic(auto, using(pv_streams::proofs::SourceReads::read_more, crate::proofs::FileReads::stays_known, crate::proofs::FileReads::whole_read, crate::proofs::FileReads::more_read))]
pub(crate) fn read_within<F: HostFile>(
    alloc: Global,
    file: &mut F,
    limit: u32,
) -> Result<Option<Vec<u8>>, HostFault>
    ensures whole { IfOk result (λ read. IfSome (F.bytes file.old) (λ all. AreBytesWithin limit all read)) }
    ensures known { IsSome (F.bytes file.old) → result ≢ Err HostFault.Read }
{
    let mut bytes = Vec::new(alloc);
    let mut chunk = [0; CHUNK];
    while bytes.len() <= limit as usize {
        let Ok(count) = file.read(&mut chunk) else {
            return Err(HostFault::Read);
        };
        if count == 0 {
            return Ok(Some(bytes));
        }
        bytes.extend_from_slice(&chunk[..count])?;
    }
    Ok(None)
}
