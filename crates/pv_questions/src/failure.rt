//! The one reason why a command fails, its message and its exit status.
ghost use Rattle.std.specs.Prelude.{◌≡◌};
ghost use Rattle.pv_questions.specs.Failures.{is_reported_by_command, failure_of_boot, failure_of_image, failure_of_manifest, failure_of_run, failure_of_schedule, failure_of_stop, failure_status};
ghost use Rattle.pv_questions.specs.declared.failure.Failure.TheVariants.{Memory, Write};
ghost use Rattle.pv_questions.specs.declared.failure.Target.TheVariants.{Output};

use pv_model::{
    AuditFault, BootFault, ImageFault, ManifestFault, RunFault, ScheduleFault, StepFault,
};
use pv_streams::{Failed, Stop};
use std::alloc::AllocError;
use std::fmt;

/// The reason why a command fails.
#[derive(Clone, Copy, Debug, PartialEq, Eq)]
pub enum Failure {
    /// An input cannot be read, or has more than 67,108,864 bytes.
    Read(Origin),
    /// There is no memory.
    Memory,
    /// A write failed.
    Write(Target),
    /// The input is invalid.
    Refused(Refusal),
    /// The whole text was written, but the search left a state out.
    Incomplete,
    /// The whole text was written: a step differs between two inputs.
    Different,
}

/// What a command reads.
#[derive(Clone, Copy, Debug, PartialEq, Eq)]
pub enum Origin {
    /// A file or the standard input.
    File,
    /// A directory that is imported.
    Directory,
}

/// What a command writes to.
#[derive(Clone, Copy, Debug, PartialEq, Eq)]
pub enum Target {
    /// The standard output.
    Output,
    /// The standard error.
    Errors,
    /// A file.
    File,
    /// A directory in which a tree is to be made. It cannot be created, or is not an empty directory.
    Directory,
    /// A node in such a directory. Its path was reported.
    Node,
}

/// The error of an input. Lines and inodes are the first with such an error.
#[derive(Clone, Copy, Debug, PartialEq, Eq)]
pub enum Refusal {
    /// The image has fewer than 512 bytes.
    Short,
    /// The image does not begin with `PVIMAGE1` or `PVIMAGE2`.
    Magic,
    /// The sizes of the image are out of range, or its length is not that of its blocks.
    Sizes,
    /// The inode of the image is invalid.
    Inode(u16),
    /// A block of the inode is not a data block, or is used twice.
    Block(u16),
    /// The directory or link of the inode is invalid.
    Directory(u16),
    /// The inode breaks the tree.
    Tree(u16),
    /// The sizes in the manifest are out of range.
    ManifestSizes,
    /// The line does not have the form of a manifest line.
    Form(u32),
    /// The parent of the line's entry does not exist or is not a directory.
    Parent(u32),
    /// The name of the line's entry already exists.
    Exists(u32),
    /// The existing path of the line does not exist or is a directory.
    Source(u32),
    /// The image has no room for the line's entry.
    Room(u32),
    /// The line is not a line of a schedule.
    Schedule(u32),
    /// An image has no schedule of its own, and none is given.
    Unscheduled,
    /// The line of the program of `init` is not an instruction, or it is 0, and `init` is not an executable file.
    Init(u16),
    /// The process is not live.
    NoProcess,
    /// The path of an audit does not name a file.
    NotAudited(AuditFault),
    /// The path does not name a file.
    NotFile(AuditFault),
    /// The new image has no room for the tree, or its sizes are out of range.
    Small,
    /// Lines of a source have errors, which were reported.
    Lines,
    /// Entries of a directory that an image can't have, or that could not be added, were reported.
    Entries,
}

impl From<AllocError> for Failure {
    ghost from_gives = { λ _ e. e ≡ Memory };

    fn from(_error: AllocError) -> Failure {
        Failure::Memory
    }
}

impl From<StepFault> for Failure {
    ghost from_gives = { λ _ e. e ≡ Memory };

    fn from(_fault: StepFault) -> Failure {
        Failure::Memory
    }
}

// An answer is written to the standard output alone.
impl From<Failed> for Failure {
    ghost from_gives = { λ _ e. e ≡ Write Output };

    fn from(_failed: Failed) -> Failure {
        Failure::Write(Target::Output)
    }
}

impl From<Stop> for Failure {
    ghost from_gives = { λ stop e. e ≡ failure_of_stop stop };

    fn from(stop: Stop) -> Failure {
        match stop {
            Stop::Memory => Failure::Memory,
            Stop::Write => Failure::Write(Target::Output),
        }
    }
}

impl From<ImageFault> for Failure {
    ghost from_gives = { λ fault e. e ≡ failure_of_image fault };

    fn from(fault: ImageFault) -> Failure {
        match fault {
            ImageFault::Memory => Failure::Memory,
            ImageFault::Short => Failure::Refused(Refusal::Short),
            ImageFault::Magic => Failure::Refused(Refusal::Magic),
            ImageFault::Size => Failure::Refused(Refusal::Sizes),
            ImageFault::Inode(node) => Failure::Refused(Refusal::Inode(node)),
            ImageFault::Block(node) => Failure::Refused(Refusal::Block(node)),
            ImageFault::Dir(node) => Failure::Refused(Refusal::Directory(node)),
            ImageFault::Tree(node) => Failure::Refused(Refusal::Tree(node)),
        }
    }
}

impl From<ManifestFault> for Failure {
    ghost from_gives = { λ fault e. e ≡ failure_of_manifest fault };

    fn from(fault: ManifestFault) -> Failure {
        match fault {
            ManifestFault::Memory => Failure::Memory,
            ManifestFault::Size => Failure::Refused(Refusal::ManifestSizes),
            ManifestFault::Form(line) => Failure::Refused(Refusal::Form(line)),
            ManifestFault::Parent(line) => Failure::Refused(Refusal::Parent(line)),
            ManifestFault::Exists(line) => Failure::Refused(Refusal::Exists(line)),
            ManifestFault::Source(line) => Failure::Refused(Refusal::Source(line)),
            ManifestFault::Room(line) => Failure::Refused(Refusal::Room(line)),
        }
    }
}

impl From<ScheduleFault> for Failure {
    ghost from_gives = { λ fault e. e ≡ failure_of_schedule fault };

    fn from(fault: ScheduleFault) -> Failure {
        match fault {
            ScheduleFault::Memory => Failure::Memory,
            ScheduleFault::Line(line) => Failure::Refused(Refusal::Schedule(line)),
        }
    }
}

impl From<BootFault> for Failure {
    ghost from_gives = { λ fault e. e ≡ failure_of_boot fault };

    fn from(fault: BootFault) -> Failure {
        match fault {
            BootFault::Memory => Failure::Memory,
            BootFault::Init(line) => Failure::Refused(Refusal::Init(line)),
        }
    }
}

impl From<RunFault> for Failure {
    ghost from_gives = { λ fault e. e ≡ failure_of_run fault };

    fn from(fault: RunFault) -> Failure {
        match fault {
            RunFault::Read => Failure::Read(Origin::File),
            RunFault::Memory => Failure::Memory,
            RunFault::WriteTrace => Failure::Write(Target::Output),
            RunFault::WriteImage => Failure::Write(Target::File),
            RunFault::Image(fault) => Failure::from(fault),
            RunFault::Manifest(fault) => Failure::from(fault),
            RunFault::Schedule(line) => Failure::Refused(Refusal::Schedule(line)),
            RunFault::Init(line) => Failure::Refused(Refusal::Init(line)),
        }
    }
}

impl Failure {
    /// Returns the exit status: 1 for invalid input, 3 for out of memory, 4 for a failed read or write, 5 for a search
    /// that left a state out, and 6 for a comparison that found a difference.
    pub fn status(&self) -> u8
        ensures { result ≡ failure_status self.now }
    {
        match self {
            Failure::Refused(_) => 1,
            Failure::Memory => 3,
            Failure::Read(_) | Failure::Write(_) => 4,
            Failure::Incomplete => 5,
            Failure::Different => 6,
        }
    }

    /// Returns whether the failure is already reported. This holds for a source with lines in error, for a directory
    /// with an entry that an image can't have, for an image with an entry that could not be exported, and for a search
    /// that left a state out or found a difference, whose text reports it.
    pub fn is_reported(&self) -> bool
        ensures { result ≡ is_reported_by_command self.now }
    {
        matches!(
            self,
            Failure::Refused(Refusal::Lines | Refusal::Entries)
                | Failure::Write(Target::Node)
                | Failure::Incomplete
                | Failure::Different
        )
    }
}

/// The words for a person, without a newline.
impl fmt::Display for Refusal {
    fn fmt<W: fmt::Write>(&self, f: &mut fmt::Formatter<W>) -> fmt::Result {
        match self {
            Refusal::Short => write!(f, "image: short"),
            Refusal::Magic => write!(f, "image: magic"),
            Refusal::Sizes => write!(f, "image: size"),
            Refusal::Inode(node) => write!(f, "image: inode {node}"),
            Refusal::Block(node) => write!(f, "image: block {node}"),
            Refusal::Directory(node) => write!(f, "image: directory {node}"),
            Refusal::Tree(node) => write!(f, "image: tree {node}"),
            Refusal::ManifestSizes => write!(f, "manifest: size"),
            Refusal::Form(line) => write!(f, "manifest: line {line}: form"),
            Refusal::Parent(line) => write!(f, "manifest: line {line}: parent"),
            Refusal::Exists(line) => write!(f, "manifest: line {line}: exists"),
            Refusal::Source(line) => write!(f, "manifest: line {line}: source"),
            Refusal::Room(line) => write!(f, "manifest: line {line}: room"),
            Refusal::Schedule(line) => write!(f, "schedule: line {line}"),
            Refusal::Unscheduled => write!(f, "schedule: none"),
            Refusal::Init(line) => write!(f, "init: line {line}"),
            Refusal::NoProcess => write!(f, "reach: no such process"),
            Refusal::NotAudited(fault) => write!(f, "{fault}"),
            Refusal::NotFile(AuditFault::Walk(errno)) => write!(f, "cat: {errno}"),
            Refusal::NotFile(AuditFault::NotFile) => write!(f, "cat: not a file"),
            Refusal::Small => write!(f, "migrate: too small"),
            Refusal::Lines | Refusal::Entries => Ok(()),
        }
    }
}

/// The whole message for a person, with a newline at its end. It is empty if the failure is already reported.
impl fmt::Display for Failure {
    fn fmt<W: fmt::Write>(&self, f: &mut fmt::Formatter<W>) -> fmt::Result {
        match self {
            Failure::Read(_) => write!(f, "pvsim: read\n"),
            Failure::Memory => write!(f, "pvsim: memory\n"),
            Failure::Write(Target::Node) | Failure::Incomplete | Failure::Different => Ok(()),
            Failure::Write(_) => write!(f, "pvsim: write\n"),
            Failure::Refused(Refusal::Lines | Refusal::Entries) => Ok(()),
            Failure::Refused(refusal) => write!(f, "pvsim: {refusal}\n"),
        }
    }
}
