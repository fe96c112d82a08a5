//! Errors of listing an image and of migrating one to version 2.
ghost use Rattle.std.specs.Prelude.{◌≡◌};
ghost use Rattle.pv_model.specs.RunFault.{of_image_listed, of_image_migrated};
ghost use Rattle.pv_model.specs.declared.store_fault.ListFault.TheVariants.{Memory as ListMemory};
ghost use Rattle.pv_model.specs.declared.store_fault.MigrateFault.TheVariants.{Memory as MigrateMemory};

use crate::ImageFault;
use std::alloc::AllocError;
use std::fmt;

/// The reason why an image is not listed.
#[derive(Clone, Copy, Debug, PartialEq, Eq)]
pub enum ListFault {
    /// The source failed, or provided too many bytes.
    Read,
    /// The bytes are not an image.
    Image(ImageFault),
    /// Out of memory.
    Memory,
    /// The sink failed.
    Write,
}

impl From<AllocError> for ListFault {
    ghost from_gives = { λ _ e. e ≡ ListMemory };

    fn from(_error: AllocError) -> ListFault {
        ListFault::Memory
    }
}

impl From<ImageFault> for ListFault {
    ghost from_gives = { λ f e. e ≡ of_image_listed f };

    fn from(fault: ImageFault) -> ListFault {
        match fault {
            ImageFault::Memory => ListFault::Memory,
            fault => ListFault::Image(fault),
        }
    }
}

/// Writes the message for the user, without a final newline.
impl fmt::Display for ListFault {
    fn fmt<W: fmt::Write>(&self, f: &mut fmt::Formatter<W>) -> fmt::Result {
        match self {
            ListFault::Read => write!(f, "read"),
            ListFault::Image(fault) => write!(f, "{fault}"),
            ListFault::Memory => write!(f, "memory"),
            ListFault::Write => write!(f, "write"),
        }
    }
}

/// The reason why an image of version 1 is not migrated to version 2.
#[derive(Clone, Copy, Debug, PartialEq, Eq)]
pub enum MigrateFault {
    /// The bytes are not an image of version 1.
    Image(ImageFault),
    /// The requested sizes are out of range, have fewer inodes than the image, or do not have room for the tree.
    Small,
    /// Out of memory.
    Memory,
}

impl From<AllocError> for MigrateFault {
    ghost from_gives = { λ _ e. e ≡ MigrateMemory };

    fn from(_error: AllocError) -> MigrateFault {
        MigrateFault::Memory
    }
}

impl From<ImageFault> for MigrateFault {
    ghost from_gives = { λ f e. e ≡ of_image_migrated f };

    fn from(fault: ImageFault) -> MigrateFault {
        match fault {
            ImageFault::Memory => MigrateFault::Memory,
            fault => MigrateFault::Image(fault),
        }
    }
}

/// Writes the message for the user, without a final newline.
impl fmt::Display for MigrateFault {
    fn fmt<W: fmt::Write>(&self, f: &mut fmt::Formatter<W>) -> fmt::Result {
        match self {
            MigrateFault::Image(fault) => write!(f, "{fault}"),
            MigrateFault::Small => write!(f, "migrate: too small"),
            MigrateFault::Memory => write!(f, "memory"),
        }
    }
}
