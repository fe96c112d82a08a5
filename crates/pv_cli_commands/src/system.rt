//! The input and output of a command: named files and three streams.
ghost use Rattle.std.specs.Prelude.{◌≡◌, ◌++◌, ◌∷◌, ℕ, List, [], Option, None, IfOk, IsOk, IsSome, OnErr, OnOk};
ghost use Rattle.pv_cli_commands.specs.Created.{IsCreated};
ghost use Rattle.pv_host_copy.specs.Hosts.{HostEntries};

use pv_streams::{Failed, Sink, Source};
use std::alloc::{AllocError, Global};

/// Access to files by name.
///
/// A contract sees the bytes of the file with a name, if they are known. Those of a file of the operating system are
/// not known. It also sees the names of the files and directories that were created, and the entries of directories
/// (`Directories`), which a file leaves as they are.
pub trait Files {
    /// A file opened for reading.
    type Reader: Source + Drop;

    /// A file opened for writing.
    type Writer: Sink + Drop;

    /// The bytes of the file with a name, if they are known.
    ghost bytes: { Self → List ℕ → Option (List ℕ) };

    /// The name of the file to which a writer writes.
    ghost file_of: { Self.Writer → List ℕ };

    /// The names of the files for which writers were returned, in order.
    ghost created: { Self → List (List ℕ) };

    /// The entries of the directory with a name, if they are known.
    ghost entries: { Self → List ℕ → Option HostEntries };

    /// The names of the directories that were returned for trees, in order.
    ghost targets: { Self → List (List ℕ) };

    /// Opens the file with a name for reading from its first byte. If its bytes are known, this succeeds.
    ///
    /// # Errors
    ///
    /// `Failed`, if the file does not exist or cannot be opened.
    fn open(&self, name: &str) -> Result<Self::Reader, Failed>
        ensures bytes { IfOk result (λ reader. Self.Reader.remaining reader ≡ bytes self.now name.now) }
        ensures opens { IsSome (bytes self.now name.now) → IsOk result };

    /// Returns a writer for the file with a name. The file is created or truncated at the first write. If nothing is
    /// written, an existing file is unchanged.
    ///
    /// # Errors
    ///
    /// `AllocError`, if there is no memory for the name.
    fn create(&mut self, alloc: Global, name: &str) -> Result<Self::Writer, AllocError>
        ensures created { IfOk result (IsCreated file_of Self.Writer.written name.now) }
        ensures logged { OnOk result (created self.new ≡ created self.old ++ name.now ∷ []) }
        ensures unlogged { OnErr result (created self.new ≡ created self.old) }
        ensures bytes { bytes self.new ≡ bytes self.old }
        ensures entries { entries self.new ≡ entries self.old }
        ensures targets { targets self.new ≡ targets self.old };

    /// Returns the reason why the file with a name cannot be read, in the words of the operating system, or `None` if
    /// it can or the reason is not known. A file whose bytes are known can be read.
    fn read_reason(&self, alloc: Global, name: &str) -> Option<String>
        ensures { IsSome (bytes self.now name.now) → result ≡ None };

    /// Returns the reason why the file with a name cannot be opened for writing, in the words of the operating system,
    /// or `None` if it can or the reason is not known. It creates no file, and leaves an existing file unchanged.
    fn write_reason(&self, alloc: Global, name: &str) -> Option<String>;

    /// Returns whether the file with a name is a regular file, which gives the same bytes if it is read again.
    fn is_regular(&self, name: &str) -> bool;
}

/// The input and output of a command.
#[derive(Drop)]
pub struct HostSystem<F: Drop, I: Drop, O: Drop, E: Drop> {
    /// The files.
    pub files: F,
    /// The standard input.
    pub input: I,
    /// The standard output.
    pub output: O,
    /// The standard error.
    pub errors: E,
}
