//! Host directories that are imported as images, or to which images are exported.
ghost use Rattle.std.specs.Prelude.{◌≡◌, ◌≢◌, ◌++◌, ◌∷◌, ℕ, List, [], Err, IfOk, IsSome, OnErr, OnOk};
ghost use Rattle.pv_cli_commands.specs.Created.{IsEmptied};

use crate::system::Files;
use pv_host_copy::{HostDirectory, HostFault, HostTarget, TargetFault};
use std::alloc::Global;

/// Access to directories by name.
///
/// A contract sees the entries of the directory with a name, if they are known. Those of a directory of the operating
/// system are not known.
pub trait Directories: Files {
    /// A directory opened for reading.
    type Directory: HostDirectory;

    /// A directory in which the tree of an image is made.
    type Target: HostTarget + Drop;

    /// The name of the directory in which a tree is made.
    ghost target_of: { Self.Target → List ℕ };

    /// Opens the directory with a name. If its entries are known, this succeeds.
    ///
    /// # Errors
    ///
    /// - `Read`, if the directory does not exist or cannot be opened.
    /// - `Memory`, if there is no memory.
    fn open_directory(&self, alloc: Global, name: &str) -> Result<Self::Directory, HostFault>
        ensures entries { IfOk result (λ directory. Self.Directory.rest directory ≡ Self.entries self.now name.now) }
        ensures opens { IsSome (Self.entries self.now name.now) → result ≢ Err HostFault.Read };

    /// Returns the directory with a name, in which nothing is made yet. The directory is created if it does not exist;
    /// otherwise it must be empty.
    ///
    /// # Errors
    ///
    /// - `Make`, if the directory cannot be created, is not empty, or is not a directory.
    /// - `Memory`, if there is no memory.
    fn create_directory(&mut self, alloc: Global, name: &str) -> Result<Self::Target, TargetFault>
        ensures created { IfOk result (IsEmptied target_of Self.Target.made name.now) }
        ensures logged { OnOk result (Self.targets self.new ≡ Self.targets self.old ++ name.now ∷ []) }
        ensures unlogged { OnErr result (Self.targets self.new ≡ Self.targets self.old) }
        ensures entries { Self.entries self.new ≡ Self.entries self.old }
        ensures bytes { Self.bytes self.new ≡ Self.bytes self.old }
        ensures files { Self.created self.new ≡ Self.created self.old };
}
