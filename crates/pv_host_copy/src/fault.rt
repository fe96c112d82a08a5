//! The errors of a copy, and the reasons for skipping a path.
ghost use Rattle.std.specs.Prelude.{◌≡◌};
ghost use Rattle.pv_host_copy.specs.Stopped.{copy_stop_of};
ghost use Rattle.pv_host_copy.specs.declared.fault.CopyStop.TheVariants.{Memory as MemoryStop};
ghost use Rattle.pv_host_copy.specs.declared.fault.HostFault.TheVariants.{Memory as NoMemory};

use pv_image_manifest::EntryFault;
use std::alloc::{AllocError, AllocFailed};

/// An error of a host.
#[derive(Clone, Copy, Debug, PartialEq, Eq)]
pub enum HostFault {
    /// A directory, a file or a symbolic link cannot be read.
    Read,
    /// Memory cannot be allocated.
    Memory,
}

/// Why a path of a host is skipped.
#[derive(Clone, Copy)]
pub enum SkipReason {
    /// A name is too long or invalid, or the host cannot open it.
    Name,
    /// A file is too long.
    Size,
    /// The target of a symbolic link is too long or invalid, or the host cannot read it.
    Text,
    /// It is not a directory, file or symbolic link.
    Kind,
}

/// A path that could not be added to a tree, which stops a copy.
#[derive(Debug, Drop)]
pub struct Refused {
    /// The path relative to the imported directory, with a slash before each name.
    pub path: Vec<u8>,
    /// Why it was not added.
    pub fault: EntryFault,
}

/// Why a host directory was not copied.
#[derive(Debug, Drop)]
pub enum CopyStop {
    /// A part of the directory cannot be read.
    Read,
    /// Memory cannot be allocated.
    Memory,
    /// A path cannot be added to the tree of the paths before it.
    Entry(Refused),
}

impl From<AllocError> for HostFault {
    ghost from_gives = { λ _ e. e ≡ NoMemory };

    fn from(_refused: AllocError) -> HostFault {
        HostFault::Memory
    }
}

impl<T: Drop> From<AllocFailed<T>> for HostFault {
    ghost from_gives = { λ _ e. e ≡ NoMemory };

    fn from(_refused: AllocFailed<T>) -> HostFault {
        HostFault::Memory
    }
}

impl From<AllocError> for CopyStop {
    ghost from_gives = { λ _ e. e ≡ MemoryStop };

    fn from(_refused: AllocError) -> CopyStop {
        CopyStop::Memory
    }
}

impl<T: Drop> From<AllocFailed<T>> for CopyStop {
    ghost from_gives = { λ _ e. e ≡ MemoryStop };

    fn from(_refused: AllocFailed<T>) -> CopyStop {
        CopyStop::Memory
    }
}

impl From<HostFault> for CopyStop {
    ghost from_gives = { λ fault e. e ≡ copy_stop_of fault };

    fn from(fault: HostFault) -> CopyStop {
        match fault {
            HostFault::Read => CopyStop::Read,
            HostFault::Memory => CopyStop::Memory,
        }
    }
}
