//! The errors of writing an image.
ghost use Rattle.std.specs.Prelude.{◌≡◌};
ghost use Rattle.pv_image_write.specs.declared.fault.WriteFault.TheVariants.{Memory, Write};

use pv_streams::Failed;
use std::alloc::AllocError;

/// Why an image was not written, or not written completely.
#[derive(Clone, Copy, Debug, PartialEq, Eq)]
pub enum WriteFault {
    /// Memory cannot be allocated. Nothing was written.
    Memory,
    /// The sink failed. It has received a prefix of the image.
    Write,
}

impl From<AllocError> for WriteFault {
    ghost from_gives = { λ _ e. e ≡ Memory };

    fn from(_refused: AllocError) -> WriteFault {
        WriteFault::Memory
    }
}

impl From<Failed> for WriteFault {
    ghost from_gives = { λ _ e. e ≡ Write };

    fn from(_failed: Failed) -> WriteFault {
        WriteFault::Write
    }
}
