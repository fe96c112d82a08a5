//! The host directory in which a tree is created.
ghost use Rattle.std.specs.Prelude.{◌≡◌, [], List, Option};
ghost use Rattle.pv_host_copy.specs.Created.{Creates};
ghost use Rattle.pv_host_copy.specs.declared.target.TargetFault.TheVariants.{Memory as NoMemory};
ghost use Rattle.pv_model.specs.Machine.{Entry, make, further_name, directory_node, file_node, link_node};

use std::alloc::{AllocError, AllocFailed, Global};

/// An error of a host while it creates a tree.
#[derive(Clone, Copy, Debug, PartialEq, Eq)]
pub enum TargetFault {
    /// A directory, a file or a symbolic link was not created, or not completely.
    Make,
    /// Memory cannot be allocated.
    Memory,
}

impl From<AllocError> for TargetFault {
    ghost from_gives = { λ _ e. e ≡ NoMemory };

    fn from(_refused: AllocError) -> TargetFault {
        TargetFault::Memory
    }
}

impl<T: Drop> From<AllocFailed<T>> for TargetFault {
    ghost from_gives = { λ _ e. e ≡ NoMemory };

    fn from(_refused: AllocFailed<T>) -> TargetFault {
        TargetFault::Memory
    }
}

/// A host directory in which directories, files and symbolic links are created at paths. A path has a slash before each
/// name.
///
/// Each is created at a path at which nothing exists. If something exists there, even a symbolic link, it is not
/// followed, and the call fails. A call changes nothing else. After an error at most a file is left with a part of its
/// bytes. Contracts see the entries of the directory, if they are known. Those of a directory of the real system are
/// unknown.
pub trait HostTarget {
    /// The entries of the directory in the order of their creation, if they are known.
    ghost made: { Self → Option (List Entry) };

    /// Creates an empty directory at a path.
    ///
    /// # Errors
    ///
    /// Returns `Make` if it was not created. Returns `Memory` if memory cannot be allocated.
    fn make_directory(&mut self, alloc: Global, path: &[u8]) -> Result<(), TargetFault>
        ensures { Creates (make path.now (directory_node [])) (made self.old) result (made self.new) };

    /// Creates a file with its bytes, which may be executable.
    ///
    /// # Errors
    ///
    /// Returns `Make` if it was not created, or not completely. Returns `Memory` if memory cannot be allocated.
    fn make_file(
        &mut self,
        alloc: Global,
        path: &[u8],
        executable: bool,
        bytes: &[u8],
    ) -> Result<(), TargetFault>
        ensures { Creates (make path.now (file_node executable bytes.now)) (made self.old) result (made self.new) };

    /// Creates a symbolic link with its target.
    ///
    /// # Errors
    ///
    /// Returns `Make` if it was not created. Returns `Memory` if memory cannot be allocated.
    fn make_link(&mut self, alloc: Global, path: &[u8], text: &[u8]) -> Result<(), TargetFault>
        ensures { Creates (make path.now (link_node text.now)) (made self.old) result (made self.new) };

    /// Adds a name to the file or symbolic link that was created at `source`. A symbolic link is not followed.
    ///
    /// # Errors
    ///
    /// Returns `Make` if the name was not added. Returns `Memory` if memory cannot be allocated.
    fn make_name(&mut self, alloc: Global, path: &[u8], source: &[u8]) -> Result<(), TargetFault>
        ensures { Creates (further_name path.now source.now) (made self.old) result (made self.new) };
}
