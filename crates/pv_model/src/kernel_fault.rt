//! Errors at the start of a kernel and of its steps.
ghost use Rattle.std.specs.Prelude.{◌≡◌};
ghost use Rattle.pv_model.specs.declared.kernel_fault.BootFault.TheVariants.{Memory};
ghost use Rattle.pv_model.specs.declared.kernel_fault.StepFault.TheVariants.{NoMemory};

use std::alloc::{AllocError, AllocFailed};
use std::fmt;

/// The reason why a kernel does not start on a tree.
#[derive(Clone, Copy)]
pub enum BootFault {
    /// The first line of the program in `init` that is not a valid instruction, or 0 if `init` is not an executable
    /// file.
    Init(u16),
    /// Out of memory.
    Memory,
}

impl From<AllocError> for BootFault {
    ghost from_gives = { λ _ e. e ≡ Memory };

    fn from(_error: AllocError) -> BootFault {
        BootFault::Memory
    }
}

impl<T: Drop> From<AllocFailed<T>> for BootFault {
    ghost from_gives = { λ _ e. e ≡ Memory };

    fn from(_error: AllocFailed<T>) -> BootFault {
        BootFault::Memory
    }
}

/// Writes the message for the user, without a final newline: the line of `init`, or `memory`.
impl fmt::Display for BootFault {
    fn fmt<W: fmt::Write>(&self, f: &mut fmt::Formatter<W>) -> fmt::Result {
        match self {
            BootFault::Init(line) => write!(f, "init: line {line}"),
            BootFault::Memory => write!(f, "memory"),
        }
    }
}

/// The reason why the simulator did not make a step. It is not an error of the simulated process.
#[derive(Clone, Copy)]
pub enum StepFault {
    /// Out of memory. The state is unchanged.
    NoMemory,
}

impl From<AllocError> for StepFault {
    ghost from_gives = { λ _ e. e ≡ NoMemory };

    fn from(_error: AllocError) -> StepFault {
        StepFault::NoMemory
    }
}

/// Writes the message for the user, without a final newline.
impl fmt::Display for StepFault {
    fn fmt<W: fmt::Write>(&self, f: &mut fmt::Formatter<W>) -> fmt::Result {
        match self {
            StepFault::NoMemory => write!(f, "memory"),
        }
    }
}
