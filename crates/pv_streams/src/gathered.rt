//! Fragments in memory.
ghost use Rattle.std.specs.Prelude.{◌≡◌, ◌++◌, IfOk, OnOk};

use crate::fragments::Fragment;
use crate::memory::Gathered;
use std::alloc::{AllocError, Global};

/// Appends a fragment to a text in memory.
///
/// # Errors
///
/// `AllocError`, if there is no memory.
pub fn append<P: Fragment>(out: &mut Gathered, fragment: &P) -> Result<(), AllocError>
    ensures { OnOk result (out.new.bytes.items ≡ out.old.bytes.items ++ P.text fragment.now) }
{
    match fragment.write(out) {
        Ok(()) => Ok(()),
        Err(_) => Err(AllocError),
    }
}

/// Returns the bytes of a fragment.
///
/// # Errors
///
/// `AllocError`, if there is no memory.
pub fn text_of<P: Fragment>(alloc: Global, fragment: &P) -> Result<Vec<u8>, AllocError>
    ensures { IfOk result (λ bytes. bytes.items ≡ P.text fragment.now) }
{
    let mut text = Gathered::new(alloc);
    append(&mut text, fragment)?;
    Ok(text.bytes)
}
