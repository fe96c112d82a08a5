//! The window: bytes of an image that are not written yet.
ghost use Rattle.std.specs.Prelude.{◌≡◌, ◌+◌, ◌*◌, ◌<◌, ◌≤◌, ◌++◌, vec_capacity, vec_len, replicate, OnOk, OnErr};
ghost use Rattle.pv_model.specs.declared.limits.TheConstants.{BLOCK};
ghost use Rattle.pv_model.specs.Machine.{Rose};
ghost use Rattle.pv_streams.specs.Sinks.{WritesPrefix};
ghost use Rattle.pv_image_write.specs.Written.{IsPartlyWritten};

use crate::filling::put_zeros;
use pv_model::limits::BLOCK;
use pv_streams::{Failed, Sink, write_whole};

// The size at which the window is written.
const CHUNK: usize = 65_536;

/// Writes the window and empties it, if it is full.
pub(crate) fn write_full<O: Sink>(window: &mut Vec<u8>, image: &mut O) -> Result<(), Failed>
    ensures put { OnOk result
        (IsPartlyWritten (O.written image.old) (O.written image.new) window.new.items window.old.items) }
    ensures small { OnOk result (vec_len window.new < CHUNK) }
    ensures capacity { vec_capacity window.old ≤ vec_capacity window.new }
    ensures cut { OnErr result
        (WritesPrefix window.old.items (O.written image.old) (O.written image.new)) }
    ensures quiet { OnOk result (O.failures image.new ≡ O.failures image.old) }
    ensures failed { OnErr result (Rose (O.failures image.old) (O.failures image.new)) }
{
    if window.len() < CHUNK {
        return Ok(());
    }
    write_whole(image, window.as_slice())?;
    window.clear();
    Ok(())
}

/// Appends blocks of zeros to the window, and writes it whenever it is full.
pub(crate) fn write_zeros<O: Sink>(
    window: &mut Vec<u8>,
    blocks: u16,
    image: &mut O,
) -> Result<(), Failed>
    requires { vec_len window.old + BLOCK * blocks ≤ vec_capacity window.old }
    ensures put { OnOk result (IsPartlyWritten (O.written image.old) (O.written image.new)
        window.new.items (window.old.items ++ replicate (BLOCK * blocks) 0)) }
    ensures cut { OnErr result (WritesPrefix (window.old.items ++ replicate (BLOCK * blocks) 0)
        (O.written image.old) (O.written image.new)) }
    ensures quiet { OnOk result (O.failures image.new ≡ O.failures image.old) }
    ensures failed { OnErr result (Rose (O.failures image.old) (O.failures image.new)) }
{
    for _block in 0..blocks {
        put_zeros(window, BLOCK);
        write_full(window, image)?;
    }
    Ok(())
}
