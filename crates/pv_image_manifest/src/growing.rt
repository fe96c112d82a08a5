//! A tree that grows entry by entry, also after an error.
ghost use Rattle.std.specs.Prelude.{◌≡◌, IsTrue, IfOk, IfErr};
ghost use Rattle.pv_model.specs.Machine.{add_entry, data_blocks, empty_tree};
ghost use Rattle.pv_model.specs.Grammar.Manifests.{are_sizes};
ghost use Rattle.pv_image_manifest.specs.Entries.{entry_of_line};
ghost use Rattle.pv_image_manifest.specs.Growing.{Grows};

use crate::building::{add, build};
use crate::entry::Entry;
use crate::manifest::Manifest;
use pv_model::ManifestFault;
use pv_tree::Tree;
use std::alloc::Global;
use std::marker::Model;

/// The tree that the entries so far have built. Contracts see the tree.
#[derive(Drop)]
pub struct Growing {
    tree: Box<Tree>,
    manifest: Manifest,
}

impl Model for Growing {
    ghost use Rattle.pv_model.specs.Tree.{Tree as Nodes};
    ghost use Rattle.pv_image_manifest.specs.Growing.{IsGrown};

    ghost Value = { Nodes };

    ghost view = { λ g. g.tree.value.tree };

    ghost invariant = { λ g. IsGrown g.manifest g.tree.value };
}

impl Growing {
    /// Creates a tree with only a root, in an image of these sizes.
    ///
    /// # Errors
    ///
    /// Returns `Memory` if memory cannot be allocated, and no other error.
    pub fn new(alloc: Global, blocks: u16, inodes: u16) -> Result<Growing, ManifestFault>
        requires { IsTrue (are_sizes blocks inodes) }
        ensures tree { IfOk result (λ growing. growing ≡ empty_tree (data_blocks blocks inodes) inodes) }
        ensures fault { IfErr result (λ fault. fault ≡ ManifestFault.Memory) }
    {
        let manifest = Manifest {
            blocks,
            inodes,
            entries: Vec::new(alloc),
        };
        let tree = build(alloc, &manifest)?.into_tree();
        Ok(Growing { tree, manifest })
    }

    /// Adds an entry. Returns the tree with the entry and no error. If the entry cannot be created, returns the old
    /// tree and the error, as `build` defines it.
    ///
    /// # Errors
    ///
    /// Returns `Memory` if memory cannot be allocated, and no other error.
    pub fn with(
        self,
        alloc: Global,
        entry: Entry,
    ) -> Result<(Growing, Option<ManifestFault>), ManifestFault>
        ensures tree { IfOk result (λ p. Grows p.1 (add_entry entry.line self (entry_of_line entry).1) self p.0) }
        ensures fault { IfErr result (λ fault. fault ≡ ManifestFault.Memory) }
    {
        let Growing {
            mut tree,
            mut manifest,
        } = self;
        if let Err(fault) = add(&mut *tree, &entry) {
            let tree = build(alloc, &manifest)?.into_tree();
            return Ok((Growing { tree, manifest }, Some(fault)));
        }
        manifest.entries.push(entry)?;
        Ok((Growing { tree, manifest }, None))
    }
}
