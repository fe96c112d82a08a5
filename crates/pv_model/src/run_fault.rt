//! Errors of a run.
ghost use Rattle.std.specs.Prelude.{◌≡◌};
ghost use Rattle.pv_model.specs.declared.run_fault.RunFault.TheVariants.{Memory};
ghost use Rattle.pv_model.specs.RunFault.{of_boot, of_image, of_manifest, of_program, of_schedule};

use crate::{BootFault, ImageFault, ManifestFault, ParseFault, ScheduleFault};
use std::alloc::{AllocError, AllocFailed};
use std::fmt;

/// The reason why a run is rejected or ends early.
#[derive(Clone, Copy, Debug, PartialEq, Eq)]
pub enum RunFault {
    /// A source failed, or provided more than 67,108,864 bytes.
    Read,
    /// The bytes are not an image.
    Image(ImageFault),
    /// The bytes are not a manifest, or an entry of the manifest cannot be added.
    Manifest(ManifestFault),
    /// The first line that is not a valid line of the schedule.
    Schedule(u32),
    /// The first line of the program in `init` that is not a valid instruction, or 0 if `init` is not an executable
    /// file.
    Init(u16),
    /// Out of memory.
    Memory,
    /// The sink of the trace failed.
    WriteTrace,
    /// The sink of the image failed.
    WriteImage,
}

impl From<AllocError> for RunFault {
    ghost from_gives = { λ _ e. e ≡ Memory };

    fn from(_error: AllocError) -> RunFault {
        RunFault::Memory
    }
}

impl<T: Drop> From<AllocFailed<T>> for RunFault {
    ghost from_gives = { λ _ e. e ≡ Memory };

    fn from(_error: AllocFailed<T>) -> RunFault {
        RunFault::Memory
    }
}

impl From<ImageFault> for RunFault {
    ghost from_gives = { λ f e. e ≡ of_image f };

    fn from(fault: ImageFault) -> RunFault {
        match fault {
            ImageFault::Memory => RunFault::Memory,
            fault => RunFault::Image(fault),
        }
    }
}

impl From<ManifestFault> for RunFault {
    ghost from_gives = { λ f e. e ≡ of_manifest f };

    fn from(fault: ManifestFault) -> RunFault {
        match fault {
            ManifestFault::Memory => RunFault::Memory,
            fault => RunFault::Manifest(fault),
        }
    }
}

impl From<ScheduleFault> for RunFault {
    ghost from_gives = { λ f e. e ≡ of_schedule f };

    fn from(fault: ScheduleFault) -> RunFault {
        match fault {
            ScheduleFault::Line(line) => RunFault::Schedule(line),
            ScheduleFault::Memory => RunFault::Memory,
        }
    }
}

impl From<ParseFault> for RunFault {
    ghost from_gives = { λ f e. e ≡ of_program f };

    fn from(fault: ParseFault) -> RunFault {
        match fault {
            ParseFault::Line(line, _) => RunFault::Init(line),
            ParseFault::Memory => RunFault::Memory,
        }
    }
}

impl From<BootFault> for RunFault {
    ghost from_gives = { λ f e. e ≡ of_boot f };

    fn from(fault: BootFault) -> RunFault {
        match fault {
            BootFault::Init(line) => RunFault::Init(line),
            BootFault::Memory => RunFault::Memory,
        }
    }
}

/// Writes the message for the user, without a final newline.
impl fmt::Display for RunFault {
    fn fmt<W: fmt::Write>(&self, f: &mut fmt::Formatter<W>) -> fmt::Result {
        match self {
            RunFault::Read => write!(f, "read"),
            RunFault::Image(fault) => write!(f, "{fault}"),
            RunFault::Manifest(fault) => write!(f, "{fault}"),
            RunFault::Schedule(line) => write!(f, "{}", ScheduleFault::Line(*line)),
            RunFault::Init(line) => write!(f, "{}", BootFault::Init(*line)),
            RunFault::Memory => write!(f, "memory"),
            RunFault::WriteTrace | RunFault::WriteImage => write!(f, "write"),
        }
    }
}
