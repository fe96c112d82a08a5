//! A host directory in memory, in which a tree is created.
ghost use Rattle.std.specs.Prelude.{◌≡◌, [], map, Some};
ghost use Rattle.pv_host_copy.specs.Created.{Creates, has_no_entry};
ghost use Rattle.pv_model.specs.Machine.{path_of};
ghost use Rattle.pv_tests_image.specs.Memory.{entry_made};

use pv_host_copy::{HostTarget, TargetFault};
use std::alloc::Global;

/// The node or name that was created at a path.
#[derive(Drop)]
pub enum Made {
    /// A directory.
    Directory(Vec<u8>),
    /// A file with its bytes.
    File {
        path: Vec<u8>,
        executable: bool,
        bytes: Vec<u8>,
    },
    /// A symbolic link with its target.
    Link {
        path: Vec<u8>,
        text: Vec<u8>,
    },
    /// Another name of the node that was created at another path.
    Name {
        path: Vec<u8>,
        source: Vec<u8>,
    },
}

impl Made {
    // Returns the path of the node or name.
    fn path(&self) -> &[u8]
        ensures { result.now ≡ path_of (entry_made self.now) }
    {
        match self {
            Made::Directory(path)
            | Made::File { path, .. }
            | Made::Link { path, .. }
            | Made::Name { path, .. } => path.as_slice(),
        }
    }
}

/// A directory in memory: the nodes that were created in it, in order.
#[derive(Drop)]
pub struct MemoryTarget {
    /// The nodes that were created.
    pub made: Vec<Made>,
}

impl MemoryTarget {
    /// Creates an empty directory.
    pub fn new(alloc: Global) -> MemoryTarget
        ensures { result.made.items ≡ [] }
    {
        MemoryTarget {
            made: Vec::new(alloc),
        }
    }

    // Returns whether nothing was created at a path.
    fn is_absent(&self, path: &[u8]) -> bool
        ensures { result ≡ has_no_entry path.now (map entry_made self.now.made.items) }
    {
        for one in &self.made {
            if one.path() == path {
                return false;
            }
        }
        true
    }

    // Adds a node or name, if nothing was created at its path.
    fn add(&mut self, node: Made) -> Result<(), TargetFault>
        ensures { Creates (entry_made node) (Some (map entry_made self.old.made.items)) result (Some (map entry_made self.new.made.items)) }
    {
        if !self.is_absent(node.path()) {
            return Err(TargetFault::Make);
        }
        self.made.push(node)?;
        Ok(())
    }
}

impl HostTarget for MemoryTarget {
    ghost made = { λ t. Some (map entry_made t.made.items) };

    fn make_directory(&mut self, alloc: Global, path: &[u8]) -> Result<(), TargetFault> {
        let path = Vec::from_slice(alloc, path)?;
        self.add(Made::Directory(path))
    }

    fn make_file(
        &mut self,
        alloc: Global,
        path: &[u8],
        executable: bool,
        bytes: &[u8],
    ) -> Result<(), TargetFault> {
        let path = Vec::from_slice(alloc, path)?;
        let bytes = Vec::from_slice(alloc, bytes)?;
        self.add(Made::File {
            path,
            executable,
            bytes,
        })
    }

    fn make_link(&mut self, alloc: Global, path: &[u8], text: &[u8]) -> Result<(), TargetFault> {
        let path = Vec::from_slice(alloc, path)?;
        let text = Vec::from_slice(alloc, text)?;
        self.add(Made::Link { path, text })
    }

    fn make_name(&mut self, alloc: Global, path: &[u8], source: &[u8]) -> Result<(), TargetFault> {
        let path = Vec::from_slice(alloc, path)?;
        let source = Vec::from_slice(alloc, source)?;
        self.add(Made::Name { path, source })
    }
}
