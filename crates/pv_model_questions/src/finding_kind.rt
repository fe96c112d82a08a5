//! Kinds of findings about a process and a file.

/// The findings of `exposure` about a process at a line and a file.
#[derive(Clone, Copy, PartialEq, Eq)]
pub enum FindingKind {
    /// The process is not closed to the file.
    Leak,
    /// The process is closed to the file, but another live process is not.
    Peer,
    /// The process is not fixed to the file.
    Edit,
    /// The next step of the process reads the file.
    Read,
}
