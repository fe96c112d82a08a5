//! The directories of an image.
ghost use Rattle.std.specs.Prelude.{◌≡◌, ℕ, ◌+◌, ◌-◌, ◌*◌, ◌%◌, ◌<◌, ◌≤◌, ◌↔◌, suc, min, true, false, [], ◌++◌, length, take, drop, replicate, vec_len, All, IsTrue, None, Some, IsSome, IsNone, IfNone, IfSome, IfOk, OnOk, OnErr, option_map};
ghost use Rattle.std.specs.Option.{option_copied};
ghost use Rattle.pv_model.specs.declared.limits.TheConstants.{BLOCK};
ghost use Rattle.pv_model.specs.Machine.{next_name, size_of, inode_blocks, greatest_blocks, greatest_length, node_at, entries_at, is_directory_at, find_entry, is_name, with_node, with_entry, without_entry, new_number};
ghost use Rattle.pv_inodes.specs.Sizes.{AreImageSizes};
ghost use Rattle.pv_dirs.specs.Listing.{IsNextName, IsNextNameOf};
ghost use Rattle.pv_dirs.specs.Sizes.{HaveSameSizes};
ghost use Rattle.pv_dirs.specs.Trees.{kind_of_node, empty_node, node_bytes_at, written_tree, truncated_tree, without_node, total_need, LacksRoomForTree, grown_length};

mod counting;
mod image;
mod ordering;

use crate::dir::{Dir, is_directory};
use crate::index::Index;
use crate::indexing::ascends;
use crate::slot::Slot;
use pv_inodes::{Inodes, Space};
use pv_model::{Kind, Name, Version};
use std::alloc::{AllocError, Global};
use std::marker::Model;

/// The directories of an image, over its inodes: a tree of nodes by their numbers. The constructors allocate an index
/// of the entries; no other method allocates memory.
#[derive(Drop)]
pub struct Directories {
    inodes: Inodes,
    // The number of data blocks.
    block_count: u16,
    // The index of the entries by name. It is boxed, so that moving the directories is cheap.
    index: Box<Index>,
}

impl Model for Directories {
    ghost use Rattle.pv_model.specs.Tree.{Tree};
    ghost use Rattle.pv_dirs.specs.Index.{IsConsistentIndex};
    ghost use Rattle.pv_dirs.specs.Trees.{tree_of_files};

    ghost Value = { Tree };

    ghost view = { λ d. tree_of_files d.inodes };

    ghost invariant = { λ d. IsConsistentIndex d.inodes d.block_count d.index.value };
}

impl Directories {
    /// Creates the tree of an image with the given numbers of blocks and inodes, in a vector of zeros. The tree has no
    /// node, not even a root.
    ///
    /// # Errors
    ///
    /// Returns `AllocError` if memory for the index cannot be allocated.
    pub fn empty(
        alloc: Global,
        zeros: Vec<u8>,
        blocks: u16,
        inodes: u16,
        version: Version,
    ) -> Result<Directories, AllocError>
        requires whole { vec_len zeros ≡ BLOCK * blocks }
        requires zeros { All (λ byte. byte ≡ 0) zeros.items }
        requires sizes { AreImageSizes version blocks inodes }
        ensures nodes { IfOk result
            (λ directories. directories.nodes ≡ replicate (suc inodes) None) }
        ensures blocks { IfOk result
            (λ directories. directories.blocks + inode_blocks version inodes + 1 ≡ blocks) }
        ensures inodes { IfOk result (λ directories. directories.inodes ≡ inodes) }
        ensures version { IfOk result (λ directories. directories.version ≡ version) }
    {
        let index = Box::new(alloc, Index::empty(inodes))?;
        let inodes = Inodes::empty(zeros, blocks, inodes, version);
        let block_count = inodes.free();
        Ok(Directories {
            inodes,
            block_count,
            index,
        })
    }

    /// Makes this tree equal to another one in an image of the same sizes.
    pub fn copy_from(&mut self, other: &Directories)
        requires { HaveSameSizes self.old other.now }
        ensures { self.new ≡ other.now }
    {
        self.inodes.copy_from(&other.inodes);
        self.block_count = other.block_count;
        self.index.copy_from(&other.index);
    }

    /// Returns the number of inodes, which limits the number of nodes.
    pub fn inodes(&self) -> u16
        ensures value { result ≡ self.now.inodes }
        ensures numbers { length self.now.nodes ≡ suc result }
    {
        self.inodes.inodes()
    }

    /// Returns the number of data blocks. With the other blocks of the image they do not exceed the maximum of its
    /// version.
    pub fn blocks(&self) -> u16
        ensures value { result ≡ self.now.blocks }
        ensures allowed { inode_blocks self.now.version self.now.inodes + 1 + result
            ≤ greatest_blocks self.now.version }
    {
        self.block_count
    }

    /// Returns the version of the image's format.
    pub fn version(&self) -> Version
        ensures { result ≡ self.now.version }
    {
        self.inodes.version()
    }

    /// Returns the number of free data blocks.
    pub fn free(&self) -> u16
        ensures { result + total_need self.now ≡ self.now.blocks }
    {
        self.inodes.free()
    }

    /// Returns a number that no node exceeds.
    pub fn bound(&self) -> u16
        ensures { (k : ℕ) → result < k → node_at self.now k ≡ None }
    {
        self.inodes.bound()
    }

    /// Returns true only if a node is the same in two trees.
    pub fn is_same(&self, other: &Directories, inode: u16) -> bool
        requires used { IsSome (node_at self.now inode) }
        requires also_used { IsSome (node_at other.now inode) }
        ensures { result ≡ true → node_at self.now inode ≡ node_at other.now inode }
    {
        let same_version = self.version() == other.version();
        same_version && self.inodes.is_same(&other.inodes, inode)
    }

    /// Returns whether `inode` is the number of a node.
    pub fn is_used(&self, inode: u16) -> bool
        ensures { IsTrue result ↔ IsSome (node_at self.now inode) }
    {
        self.inodes.is_used(inode)
    }

    /// Returns whether `inode` is the number of a directory.
    pub fn is_directory(&self, inode: u16) -> bool
        ensures { result ≡ is_directory_at self.now inode }
    {
        is_directory(&self.inodes, inode)
    }

    /// Returns the kind of a node.
    pub fn kind(&self, inode: u16) -> Kind
        requires { IsSome (node_at self.now inode) }
        ensures { option_map kind_of_node (node_at self.now inode) ≡ Some result }
    {
        self.inodes.kind(inode)
    }

    /// Returns the size of a node as stat(2) reports it: the number of entries of a directory, the number of bytes of a
    /// file, or the length of a symbolic link's target.
    pub fn size(&self, inode: u16) -> u32
        requires { IsSome (node_at self.now inode) }
        ensures value { option_map size_of (node_at self.now inode) ≡ Some result }
        ensures allowed { result ≤ greatest_length self.now.version }
    {
        match self.inodes.kind(inode) {
            Kind::Directory => {
                let dir = Dir {
                    inodes: &self.inodes,
                    directory: inode,
                };
                dir.count()
            }
            _ => self.inodes.size(inode),
        }
    }

    /// Returns the number of the node that a directory has under `name`.
    pub fn find(&self, directory: u16, name: &[u8]) -> Option<u16>
        requires { IsTrue (is_directory_at self.now directory) }
        ensures { result ≡ find_entry self.now directory name.now }
    {
        let dir = Dir {
            inodes: &self.inodes,
            directory,
        };
        let k = dir.find(&self.index, name)?;
        Some(dir.number(k))
    }

    /// Returns the least name of a directory, in byte order, that follows `last`, or the least name of all if there is
    /// no `last`. Returns `None` if no name follows.
    pub fn next_after(&self, directory: u16, last: Option<&[u8]>) -> Option<Name>
        requires { IsTrue (is_directory_at self.now directory) }
        ensures value { result
            ≡ next_name (option_copied last.entry) (entries_at self.now directory) }
        ensures least { IsNextName (option_copied last.entry)
            (entries_at self.now directory) result }
    {
        let dir = Dir {
            inodes: &self.inodes,
            directory,
        };
        dir.next_name(&self.index, last)
    }

    /// Returns the least name of a directory, in byte order, that follows `last`, with the number of its node. If there
    /// is no `last`, it returns the least name of all. Returns `None` if no name follows.
    ///
    /// `before` is a guess of the number of names that precede the result. It does not affect the result. If the guess
    /// is right and the names ascend from slot to slot, the name is found in one step.
    pub fn next_entry(
        &self,
        directory: u16,
        last: Option<&[u8]>,
        before: u32,
    ) -> Option<(Name, u16)>
        requires { IsTrue (is_directory_at self.now directory) }
        ensures value { option_map (λ e. e.0) result
            ≡ next_name (option_copied last.entry) (entries_at self.now directory) }
        ensures least { IsNextName (option_copied last.entry)
            (entries_at self.now directory) (option_map (λ e. e.0) result) }
        ensures node { IfSome result (λ e. find_entry self.now directory e.0 ≡ Some e.1) }
    {
        let dir = Dir {
            inodes: &self.inodes,
            directory,
        };
        dir.next_entry(&self.index, last, before)
    }

    /// Returns the least name of a directory, in byte order, that follows `last`, in place, with the number of its node.
    /// Returns `None` if no name follows, or if an entry crosses a block boundary.
    pub fn lent_after(&self, directory: u16, last: Option<&[u8]>) -> Option<(&[u8], u16)>
        requires { IsTrue (is_directory_at self.now directory) }
        ensures name { IfSome result (λ e. next_name (option_copied last.entry) (entries_at self.now directory) ≡ Some e.0.now) }
        ensures node { IfSome result (λ e. find_entry self.now directory e.0.now ≡ Some e.1) }
    {
        let dir = Dir {
            inodes: &self.inodes,
            directory,
        };
        dir.lent_after(last)
    }

    /// Returns the least name of a directory, in byte order, that names `node` and follows `last`. If there is no
    /// `last`, it returns the least name of `node` in the directory. Returns `None` if there is no such name.
    pub fn next_name_of(&self, directory: u16, node: u16, last: Option<&[u8]>) -> Option<Name>
        requires { IsTrue (is_directory_at self.now directory) }
        ensures { IsNextNameOf self.now directory node (option_copied last.entry) result }
    {
        let dir = Dir {
            inodes: &self.inodes,
            directory,
        };
        dir.next_with(node, last)
    }

    /// Returns whether a directory has no entry.
    pub fn is_empty(&self, directory: u16) -> bool
        requires { IsTrue (is_directory_at self.now directory) }
        ensures { IsTrue result ↔ (entries_at self.now directory ≡ []) }
    {
        let dir = Dir {
            inodes: &self.inodes,
            directory,
        };
        dir.count() == 0
    }

    /// Adds an entry to a directory that has no entry of this name.
    ///
    /// # Errors
    ///
    /// Returns `TooBig` if the directory would exceed the maximum length. Otherwise returns `Full` if there are too few
    /// free data blocks. If the call fails, nothing changes.
    pub fn add(&mut self, directory: u16, name: &[u8], inode: u16) -> Result<(), Space>
        requires directory { IsTrue (is_directory_at self.old directory) }
        requires name { IsTrue (is_name self.old.version name.now) }
        requires absent { find_entry self.old directory name.now ≡ None }
        ensures ok { OnOk result (self.new ≡ with_entry self.old directory name.now inode) }
        ensures err { OnErr result (self.new ≡ self.old) }
        ensures too_big { (result ≡ Err Space.TooBig)
            ↔ (greatest_length self.old.version < grown_length self.old directory) }
        ensures full { (result ≡ Err Space.Full)
            ↔ ((grown_length self.old directory ≤ greatest_length self.old.version)
            × LacksRoomForTree (with_entry self.old directory name.now inode)) }
    {
        let end = self.inodes.size(directory);
        let dir = Dir {
            inodes: &self.inodes,
            directory,
        };
        let number = dir.count();
        let ascends = ascends(&dir, &self.index, number, name);
        let slot = Slot::new(self.inodes.version(), name, inode);
        let added = self.inodes.write_at(directory, end, slot.as_bytes());
        if added.is_ok() {
            self.index.add(directory, name, number as u16, ascends);
        }
        added
    }

    /// Removes the entry of a directory that has this name, and returns the number of its node. Returns `None` and
    /// changes nothing if there is no such entry.
    pub fn remove(&mut self, directory: u16, name: &[u8]) -> Option<u16>
        requires { IsTrue (is_directory_at self.old directory) }
        ensures gone { result ≡ find_entry self.old directory name.now }
        ensures left { IfSome result
            (λ _. self.new ≡ without_entry self.old directory name.now) }
        ensures none { IfNone result (self.new ≡ self.old) }
    {
        let dir = Dir {
            inodes: &self.inodes,
            directory,
        };
        let hole = dir.find(&self.index, name)?;
        let gone = dir.number(hole);
        let last = dir.count() - 1;
        let moved = dir.slot(last);
        let at = dir.start(hole);
        let end = dir.start(last);
        self.inodes.overwrite(directory, at, moved.as_bytes());
        self.inodes.shrink(directory, end);
        let index = &mut *self.index;
        index.remove(directory, name, hole as u16);
        index.change(directory, moved.name(), last as u16, hole as u16);
        Some(gone)
    }

    /// Returns the contents of a file or symbolic link from offset `at` to the end of the block that has this offset,
    /// or to the end of the contents if it comes first. Nothing is copied.
    pub fn lend(&self, inode: u16, at: u32) -> &[u8]
        requires used { IsSome (node_at self.now inode) }
        requires other { is_directory_at self.now inode ≡ false }
        requires within { at < length (node_bytes_at self.now inode) }
        ensures { result.now ≡ take (BLOCK - at % BLOCK) (drop at (node_bytes_at self.now inode)) }
    {
        self.inodes.lend(inode, at)
    }

    /// Copies the contents of a file or symbolic link from offset `at` to the front of `buffer`. Returns the number of
    /// bytes copied: it is less than the length of `buffer` if the contents end before that, and 0 at or past their
    /// end.
    pub fn read_at(&self, inode: u16, at: u32, buffer: &mut [u8]) -> usize
        requires used { IsSome (node_at self.now inode) }
        requires other { is_directory_at self.now inode ≡ false }
        ensures count { result ≡ min (length buffer.old) (length (node_bytes_at self.now inode) - at) }
        ensures bytes { buffer.new
            ≡ take result (drop at (node_bytes_at self.now inode)) ++ drop result buffer.old }
    {
        self.inodes.read_at(inode, at, buffer)
    }

    /// Writes `bytes` to the contents of a file or symbolic link at offset `at`. A gap past the end of the contents is
    /// filled with zeros. A write of zero bytes changes nothing.
    ///
    /// # Errors
    ///
    /// Returns `TooBig` if a byte would be written past the maximum length. Otherwise returns `Full` if there are too
    /// few free data blocks. If the call fails, nothing changes.
    pub fn write_at(&mut self, inode: u16, at: u32, bytes: &[u8]) -> Result<(), Space>
        requires used { IsSome (node_at self.old inode) }
        requires other { is_directory_at self.old inode ≡ false }
        ensures ok { OnOk result (self.new ≡ written_tree self.old inode at bytes.now) }
        ensures err { OnErr result (self.new ≡ self.old) }
        ensures too_big { (result ≡ Err Space.TooBig)
            ↔ ((0 < length bytes.now)
            × (greatest_length self.old.version < at + length bytes.now)) }
        ensures full { (result ≡ Err Space.Full)
            ↔ ((0 < length bytes.now)
            × (at + length bytes.now ≤ greatest_length self.old.version)
            × LacksRoomForTree (written_tree self.old inode at bytes.now)) }
    {
        self.inodes.write_at(inode, at, bytes)
    }

    /// Truncates the contents of a file or symbolic link to `size` bytes, or extends them to it with zeros.
    ///
    /// # Errors
    ///
    /// Returns `TooBig` if `size` exceeds the maximum length. Otherwise returns `Full` if there are too few free data
    /// blocks. If the call fails, nothing changes.
    pub fn cut(&mut self, inode: u16, size: u32) -> Result<(), Space>
        requires used { IsSome (node_at self.old inode) }
        requires other { is_directory_at self.old inode ≡ false }
        ensures ok { OnOk result (self.new ≡ truncated_tree self.old inode size) }
        ensures err { OnErr result (self.new ≡ self.old) }
        ensures too_big { (result ≡ Err Space.TooBig)
            ↔ (greatest_length self.old.version < size) }
        ensures full { (result ≡ Err Space.Full)
            ↔ ((size ≤ greatest_length self.old.version)
            × LacksRoomForTree (truncated_tree self.old inode size)) }
    {
        self.inodes.cut(inode, size)
    }

    /// Creates an empty node of kind `sort` under the least unused number, and returns the number. Returns `None` if
    /// the image has no free inode.
    pub fn fresh(&mut self, sort: Kind) -> Option<u16>
        ensures full { IsNone result ↔ (new_number self.old ≡ length self.old.nodes) }
        ensures none { IfNone result (self.new ≡ self.old) }
        ensures least { IfSome result (λ n. n ≡ new_number self.old) }
        ensures free { IfSome result (λ n. node_at self.old n ≡ None) }
        ensures within { IfSome result (λ n. n < length self.old.nodes) }
        ensures after { IfSome result (λ n. self.new ≡ with_node self.old n (empty_node sort)) }
    {
        self.inodes.fresh(sort)
    }

    /// Removes a node and its contents.
    pub fn drop_inode(&mut self, inode: u16)
        requires { IsSome (node_at self.old inode) }
        ensures { self.new ≡ without_node self.old inode }
    {
        self.inodes.drop_inode(inode);
    }
}
