//! Errors in programs, schedules, manifests and images.
ghost use Rattle.std.specs.Prelude.{◌≡◌};
ghost use Rattle.pv_model.specs.declared.fault.ParseFault.TheVariants.{Memory as ParseMemory};
ghost use Rattle.pv_model.specs.declared.fault.ScheduleFault.TheVariants.{Memory as ScheduleMemory};
ghost use Rattle.pv_model.specs.declared.fault.ManifestFault.TheVariants.{Memory as ManifestMemory};
ghost use Rattle.pv_model.specs.declared.fault.ImageFault.TheVariants.{Memory as ImageMemory};

use std::alloc::{AllocError, AllocFailed};
use std::fmt;

/// The kind of error in a line of a program.
#[derive(Clone, Copy, Debug, PartialEq, Eq)]
pub enum What {
    /// The first word is not an instruction.
    Word,
    /// The arguments do not have the form that the instruction requires.
    Argument,
    /// The instruction jumps to a line that the program does not have.
    Target,
    /// The line is the 257th.
    TooMany,
}

/// The reason why bytes do not parse as a program.
#[derive(Clone, Copy, Debug, PartialEq, Eq)]
pub enum ParseFault {
    /// The first line, counted from 1, that is not a valid instruction.
    Line(u16, What),
    /// Out of memory.
    Memory,
}

impl From<AllocError> for ParseFault {
    ghost from_gives = { λ _ e. e ≡ ParseMemory };

    fn from(_error: AllocError) -> ParseFault {
        ParseFault::Memory
    }
}

impl<T: Drop> From<AllocFailed<T>> for ParseFault {
    ghost from_gives = { λ _ e. e ≡ ParseMemory };

    fn from(_error: AllocFailed<T>) -> ParseFault {
        ParseFault::Memory
    }
}

/// Writes the message for the user, without a final newline: the line, or `memory`.
impl fmt::Display for ParseFault {
    fn fmt<W: fmt::Write>(&self, f: &mut fmt::Formatter<W>) -> fmt::Result {
        match self {
            ParseFault::Line(line, _) => write!(f, "program: line {line}"),
            ParseFault::Memory => write!(f, "memory"),
        }
    }
}

/// The reason why bytes do not parse as a schedule.
#[derive(Clone, Copy, Debug, PartialEq, Eq)]
pub enum ScheduleFault {
    /// The first line, counted from 1, that is not a line of a schedule or exceeds the maximum number of lines.
    Line(u32),
    /// Out of memory.
    Memory,
}

impl From<AllocError> for ScheduleFault {
    ghost from_gives = { λ _ e. e ≡ ScheduleMemory };

    fn from(_error: AllocError) -> ScheduleFault {
        ScheduleFault::Memory
    }
}

impl<T: Drop> From<AllocFailed<T>> for ScheduleFault {
    ghost from_gives = { λ _ e. e ≡ ScheduleMemory };

    fn from(_error: AllocFailed<T>) -> ScheduleFault {
        ScheduleFault::Memory
    }
}

/// Writes the message for the user, without a final newline: the line, or `memory`.
impl fmt::Display for ScheduleFault {
    fn fmt<W: fmt::Write>(&self, f: &mut fmt::Formatter<W>) -> fmt::Result {
        match self {
            ScheduleFault::Line(line) => write!(f, "schedule: line {line}"),
            ScheduleFault::Memory => write!(f, "memory"),
        }
    }
}

/// The reason why a manifest is rejected. Lines are counted from 1.
#[derive(Clone, Copy, Debug, PartialEq, Eq)]
pub enum ManifestFault {
    /// The line does not have the form of a manifest line.
    Form(u32),
    /// The sizes of the image are out of range.
    Size,
    /// The parent of this line's entry does not exist or is not a directory.
    Parent(u32),
    /// The name of this line's entry already exists.
    Exists(u32),
    /// The existing path that this line links to does not exist or is a directory.
    Source(u32),
    /// The image has no room for this line's entry.
    Room(u32),
    /// Out of memory.
    Memory,
}

impl From<AllocError> for ManifestFault {
    ghost from_gives = { λ _ e. e ≡ ManifestMemory };

    fn from(_error: AllocError) -> ManifestFault {
        ManifestFault::Memory
    }
}

impl<T: Drop> From<AllocFailed<T>> for ManifestFault {
    ghost from_gives = { λ _ e. e ≡ ManifestMemory };

    fn from(_error: AllocFailed<T>) -> ManifestFault {
        ManifestFault::Memory
    }
}

/// Writes the message for the user, without a final newline: the line and the error, or `memory`.
impl fmt::Display for ManifestFault {
    fn fmt<W: fmt::Write>(&self, f: &mut fmt::Formatter<W>) -> fmt::Result {
        match self {
            ManifestFault::Form(line) => write!(f, "manifest: line {line}: form"),
            ManifestFault::Size => write!(f, "manifest: size"),
            ManifestFault::Parent(line) => write!(f, "manifest: line {line}: parent"),
            ManifestFault::Exists(line) => write!(f, "manifest: line {line}: exists"),
            ManifestFault::Source(line) => write!(f, "manifest: line {line}: source"),
            ManifestFault::Room(line) => write!(f, "manifest: line {line}: room"),
            ManifestFault::Memory => write!(f, "memory"),
        }
    }
}

/// The reason why bytes are not an image. A number is that of the first inode with the error.
#[derive(Clone, Copy, Debug, PartialEq, Eq)]
pub enum ImageFault {
    /// The bytes are shorter than one block.
    Short,
    /// The bytes do not begin with the magic of an image.
    Magic,
    /// The sizes are out of range, or do not agree with the number of bytes.
    Size,
    /// The inode has an invalid kind, or a size that its kind cannot have.
    Inode(u16),
    /// The inode points to a block that is not a data block or that is already in use.
    Block(u16),
    /// The directory has an invalid slot or a duplicate name, or the link's text contains a zero byte.
    Dir(u16),
    /// The inode is not reached from the root, or its number of names is wrong.
    Tree(u16),
    /// Out of memory.
    Memory,
}

impl From<AllocError> for ImageFault {
    ghost from_gives = { λ _ e. e ≡ ImageMemory };

    fn from(_error: AllocError) -> ImageFault {
        ImageFault::Memory
    }
}

/// Writes the message for the user, without a final newline: the error with the number of the inode, or `memory`.
impl fmt::Display for ImageFault {
    fn fmt<W: fmt::Write>(&self, f: &mut fmt::Formatter<W>) -> fmt::Result {
        match self {
            ImageFault::Short => write!(f, "image: short"),
            ImageFault::Magic => write!(f, "image: magic"),
            ImageFault::Size => write!(f, "image: size"),
            ImageFault::Inode(number) => write!(f, "image: inode {number}"),
            ImageFault::Block(number) => write!(f, "image: block {number}"),
            ImageFault::Dir(number) => write!(f, "image: directory {number}"),
            ImageFault::Tree(number) => write!(f, "image: tree {number}"),
            ImageFault::Memory => write!(f, "memory"),
        }
    }
}
