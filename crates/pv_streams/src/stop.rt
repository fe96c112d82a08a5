//! Why a writer stops before the end of its text.
ghost use Rattle.std.specs.Prelude.{◌≡◌};
ghost use Rattle.pv_streams.specs.declared.stop.Stop.TheVariants.{Memory, Write};

use pv_model::{Failed, StepFault};
use std::alloc::AllocError;

/// The reason why a writer stops before the end of its text.
#[derive(Clone, Copy, Debug, PartialEq, Eq)]
pub enum Stop {
    /// There is no memory for what comes next, such as a step, which was then not made, or a path.
    Memory,
    /// A write failed.
    Write,
}

impl From<AllocError> for Stop {
    ghost from_gives = { λ _ e. e ≡ Memory };

    fn from(_refused: AllocError) -> Stop {
        Stop::Memory
    }
}

impl From<StepFault> for Stop {
    ghost from_gives = { λ _ e. e ≡ Memory };

    fn from(_fault: StepFault) -> Stop {
        Stop::Memory
    }
}

impl From<Failed> for Stop {
    ghost from_gives = { λ _ e. e ≡ Write };

    fn from(_failed: Failed) -> Stop {
        Stop::Write
    }
}
