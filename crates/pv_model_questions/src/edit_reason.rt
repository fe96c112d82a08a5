//! Reasons why a process is not fixed to a file.

/// The reason why a process is not fixed to a file: by its own calls it can change the bytes, now or later.
#[derive(Clone, Copy, PartialEq, Eq)]
pub enum EditReason {
    /// This descriptor on the file is open for writing.
    Writes(u8),
    /// It has no unveil table.
    NoTable,
    /// The process can still add to its unveil table.
    NotLocked,
    /// This entry of its unveil table grants w at a name of the file, or r or c to a process that can link it elsewhere.
    Gives(u8),
    /// This entry of its unveil table lets the process move the file or a directory above it.
    Above(u8),
    /// The process can execute a program without its restraints.
    Exec,
}
