//! A tree before boot.
ghost use Rattle.std.specs.Prelude.{◌≡◌, ◌+◌, ◌-◌, ◌*◌, vec_len, All, IfOk};
ghost use Rattle.pv_model.specs.declared.limits.TheConstants.{BLOCK};
ghost use Rattle.pv_model.specs.Machine.{inode_blocks, IsImageOf, Tree as Nodes};
ghost use Rattle.pv_dirs.specs.OfInodes.Sizes.{AreImageSizes};
ghost use Rattle.pv_dirs.specs.Images.{IsImage};
ghost use Rattle.pv_tree.specs.Changes.{root_alone};
ghost use Rattle.pv_tree.specs.Holding.{IsUnheld};
ghost use Rattle.pv_tree.specs.Present.{IsAtRest};

use crate::Tree;
use pv_model::Version;
use std::alloc::{AllocError, Global};
use std::marker::Model;

/// A tree before boot. It has no references, so each node except the root has a name.
#[derive(Drop)]
pub struct Store {
    // The tree is boxed, so that moving a store is cheap.
    tree: Box<Tree>,
}

impl Model for Store {
    ghost use Rattle.pv_model.specs.Tree.{Tree as Nodes};
    ghost use Rattle.pv_tree.specs.Holding.{IsUnheld};

    ghost Value = { Nodes };

    ghost view = { λ s. s.tree.value.tree };

    ghost invariant = { λ s. IsUnheld s.tree.value.holds };
}

impl Store {
    /// Creates a tree with only a root, in an image with this version and the given numbers of blocks and inodes.
    /// `zeros` has the blocks, all zero.
    ///
    /// # Errors
    ///
    /// Returns `AllocError` if memory for the tree's tables cannot be allocated.
    pub fn empty(
        alloc: Global,
        zeros: Vec<u8>,
        blocks: u16,
        inodes: u16,
        version: Version,
    ) -> Result<Store, AllocError>
        requires whole { vec_len zeros ≡ BLOCK * blocks }
        requires zeros { All (λ byte. byte ≡ 0) zeros.items }
        requires sizes { AreImageSizes version blocks inodes }
        ensures { IfOk result (λ store.
            store ≡ root_alone version (blocks - (inode_blocks version inodes + 1)) inodes) }
    {
        let tree = Tree::empty(alloc, zeros, blocks, inodes, version)?;
        Ok(Store {
            tree: Box::new(alloc, tree)?,
        })
    }

    /// Creates the tree of the image in `bytes`, which has this version and number of inodes. The vector becomes the
    /// store of blocks, so nothing is copied.
    ///
    /// # Errors
    ///
    /// Returns `AllocError` if memory for the tree's tables cannot be allocated.
    pub fn of_image(
        alloc: Global,
        bytes: Vec<u8>,
        inodes: u16,
        version: Version,
    ) -> Result<Store, AllocError>
        requires { IsImage version inodes bytes.items }
        ensures { IfOk result (λ store. (t : Nodes) → IsImageOf bytes.items t → store ≡ t) }
    {
        let tree = Tree::of_image(alloc, bytes, inodes, version)?;
        Ok(Store {
            tree: Box::new(alloc, tree)?,
        })
    }

    /// Creates the store of a tree without references.
    pub fn of_tree(tree: Box<Tree>) -> Store
        requires { IsUnheld tree.value.holds }
        ensures { result ≡ tree.value.tree }
    {
        Store { tree }
    }

    /// Does nothing. Its contract states the invariant of every store: the tree is well-formed and fits in its image,
    /// and each node except the root has a name.
    pub fn invariant(&self)
        ensures { IsAtRest self.now }
    {
        self.tree.invariant();
    }

    /// Sorts the entries of the directories by name, unless they are known to be sorted. The tree does not change, but
    /// lookups and listings take fewer steps.
    pub fn order_entries(&mut self)
        ensures { self.new ≡ self.old }
    {
        self.tree.order_entries();
    }

    /// Returns the tree.
    pub fn tree(&self) -> &Tree
        ensures tree { result.now.tree ≡ self.now }
        ensures unheld { IsUnheld result.now.holds }
    {
        &self.tree
    }

    /// Converts the store to its tree, which can then be modified.
    pub fn into_tree(self) -> Box<Tree>
        ensures tree { result.value.tree ≡ self }
        ensures unheld { IsUnheld result.value.holds }
    {
        let Store { tree } = self;
        tree
    }
}
