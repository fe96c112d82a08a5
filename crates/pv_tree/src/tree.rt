//! A tree on the blocks of an image, with reference counts.
ghost use Rattle.std.specs.Prelude.{◌≡◌, ℕ, ◌+◌, ◌-◌, ◌*◌, ◌<◌, ◌≤◌, ◌↔◌, min, replicate, slice_set, vec_len, ◌==◌, All, None, true, false, [], ◌++◌, length, take, drop, IfOk, IfSome, IsTrue, Some, IsSome, option_map};
ghost use Rattle.std.specs.Option.{option_copied};
ghost use Rattle.pv_model.specs.Machine.{next_name, size_of, inode_blocks, greatest_length, node_at, entries_at, is_directory_at, find_entry, names_of, parent, contains_directory};
ghost use Rattle.pv_model.specs.Tree.{ancestors_within};
ghost use Rattle.std.specs.List.{list_any};
ghost use Rattle.pv_model.specs.declared.limits.TheConstants.{BLOCK};
ghost use Rattle.pv_dirs.specs.OfInodes.Sizes.{AreImageSizes};
ghost use Rattle.pv_dirs.specs.Listing.{IsNextName, IsNextNameOf};
ghost use Rattle.pv_dirs.specs.Trees.{kind_of_node, node_bytes_at};
ghost use Rattle.pv_tree.specs.Changes.{root_alone};
ghost use Rattle.pv_tree.specs.Holding.{holds_at};
ghost use Rattle.pv_tree.specs.Present.{IsPresent};
ghost use Rattle.pv_tree.specs.Sizes.{HaveSameSizes};

mod contents;
mod holding;
mod image;
mod making;
mod names;
mod node_names;

use pv_dirs::Directories;
use pv_model::limits::{INODES, ROOT};
use pv_model::{Kind, Name, Version};
use std::alloc::{AllocError, Global};
use std::marker::Model;

/// The number of node numbers: 0, which is no node, and those of the largest image.
pub(crate) const NUMBERS: usize = INODES + 1;

/// A tree of nodes by name, on the blocks of an image, with the reference count of each node. The constructors allocate
/// an index of the entries; no other method allocates memory.
#[derive(Drop)]
pub struct Tree {
    directories: Directories,
    // The parent of each directory, or 0 if it has none.
    parents: [u16; NUMBERS],
    // The number of names of each node.
    names: [u32; NUMBERS],
    // The reference count of each node.
    holds: [u16; NUMBERS],
}

impl Model for Tree {
    ghost use Rattle.pv_tree.specs.Holding.{HeldTree};
    ghost use Rattle.pv_tree.specs.Present.{IsTied};

    ghost Value = { HeldTree };

    ghost view = { λ t. record { tree = t.directories; holds = t.holds } };

    ghost invariant = { λ t. IsTied t.directories t.parents t.names t.holds };
}

/// The sizes of an image: the number of data blocks, the number of inodes and the version.
#[derive(Clone, Copy, Debug, PartialEq, Eq)]
pub struct Sizes {
    /// The number of data blocks.
    pub blocks: u16,
    /// The number of inodes, which is the maximum number of a node.
    pub inodes: u16,
    /// The version of the format.
    pub version: Version,
}

// Returns the parents of a tree with only a root.
fn root_above_itself() -> [u16; NUMBERS]
    ensures { result ≡ slice_set (replicate NUMBERS 0) 1 1 }
{
    let mut parents = [0; NUMBERS];
    parents[ROOT as usize] = ROOT;
    parents
}

// Returns name counts of zero.
fn no_names() -> [u32; NUMBERS]
    ensures { result ≡ replicate NUMBERS 0 }
{
    [0; NUMBERS]
}

// Returns reference counts of zero.
fn no_holds() -> [u16; NUMBERS]
    ensures { result ≡ replicate NUMBERS 0 }
{
    [0; NUMBERS]
}

impl Tree {
    /// Creates a tree with only a root, in an image with the given numbers of blocks and inodes, in a vector of zeros.
    /// No node is referenced.
    ///
    /// # Errors
    ///
    /// Returns `AllocError` if memory for the directories cannot be allocated.
    pub(crate) fn empty(
        alloc: Global,
        zeros: Vec<u8>,
        blocks: u16,
        inodes: u16,
        version: Version,
    ) -> Result<Tree, AllocError>
        requires whole { vec_len zeros ≡ BLOCK * blocks }
        requires zeros { All (λ byte. byte ≡ 0) zeros.items }
        requires sizes { AreImageSizes version blocks inodes }
        ensures tree { IfOk result (λ tree. tree.tree
            ≡ root_alone version (blocks - (inode_blocks version inodes + 1)) inodes) }
        ensures holds { IfOk result (λ tree. tree.holds ≡ replicate NUMBERS 0) }
    {
        let mut directories = Directories::empty(alloc, zeros, blocks, inodes, version)?;
        let Some(_root) = directories.fresh(Kind::Directory) else {
            unreachable!()
        };
        Ok(Tree {
            directories,
            parents: root_above_itself(),
            names: no_names(),
            holds: no_holds(),
        })
    }

    /// Makes this tree equal to another one, with the same reference counts, in an image of the same sizes. Copies only
    /// the data of numbers up to the greatest in use.
    pub fn copy_from(&mut self, other: &Tree)
        requires { HaveSameSizes self.old.tree other.now.tree }
        ensures { self.new ≡ other.now }
    {
        let most = self.directories.bound().max(other.directories.bound());
        let count = usize::from(most.min(other.directories.inodes())) + 1;
        self.directories.copy_from(&other.directories);
        self.parents[..count].copy_from_slice(&other.parents[..count]);
        self.names[..count].copy_from_slice(&other.names[..count]);
        self.holds[..count].copy_from_slice(&other.holds[..count]);
    }

    /// Does nothing. Its contract states the invariant of the tree.
    pub fn invariant(&self)
        ensures { IsPresent self.now }
    {
        let _ = self.sizes();
    }

    /// Returns the sizes of the image. The contract also states the invariant of every tree.
    pub fn sizes(&self) -> Sizes
        ensures blocks { result.blocks ≡ self.now.tree.blocks }
        ensures inodes { result.inodes ≡ self.now.tree.inodes }
        ensures version { result.version ≡ self.now.tree.version }
        ensures present { IsPresent self.now }
    {
        Sizes {
            blocks: self.directories.blocks(),
            inodes: self.directories.inodes(),
            version: self.directories.version(),
        }
    }

    /// Returns a number that no node exceeds.
    pub fn bound(&self) -> u16
        ensures { (k : ℕ) → result < k → node_at self.now.tree k ≡ None }
    {
        self.directories.bound()
    }

    /// Returns true only if a node is the same in two trees.
    pub fn is_same(&self, other: &Tree, node: u16) -> bool
        requires used { IsSome (node_at self.now.tree node) }
        requires also_used { IsSome (node_at other.now.tree node) }
        ensures { result ≡ true → node_at self.now.tree node ≡ node_at other.now.tree node }
    {
        self.directories.is_same(&other.directories, node)
    }

    /// Returns whether `node` is the number of a node.
    pub fn is_used(&self, node: u16) -> bool
        ensures { IsTrue result ↔ IsSome (node_at self.now.tree node) }
    {
        self.directories.is_used(node)
    }

    /// Returns whether `node` is the number of a directory.
    pub fn is_directory(&self, node: u16) -> bool
        ensures { result ≡ is_directory_at self.now.tree node }
    {
        self.directories.is_directory(node)
    }

    /// Returns the kind of a node.
    pub fn kind(&self, node: u16) -> Kind
        requires { IsSome (node_at self.now.tree node) }
        ensures { option_map kind_of_node (node_at self.now.tree node) ≡ Some result }
    {
        self.directories.kind(node)
    }

    /// Returns the size of a node as stat(2) reports it: the number of entries of a directory, the number of bytes of a
    /// file, or the length of a symbolic link's target.
    pub fn size(&self, node: u16) -> u32
        requires { IsSome (node_at self.now.tree node) }
        ensures value { option_map size_of (node_at self.now.tree node) ≡ Some result }
        ensures allowed { result ≤ greatest_length self.now.tree.version }
    {
        self.directories.size(node)
    }

    /// Returns the parent of a directory. The root is its own parent, and a removed directory has none.
    pub fn parent(&self, directory: u16) -> Option<u16>
        requires { IsTrue (is_directory_at self.now.tree directory) }
        ensures value { result ≡ parent self.now.tree directory }
        ensures directory { IfSome result (λ above. IsTrue (is_directory_at self.now.tree above)) }
    {
        let above = self.parents[directory as usize];
        if above == 0 { None } else { Some(above) }
    }

    /// Returns whether `node` is the directory itself or one of its ancestors. rename(2) cannot move a node to such a
    /// directory.
    pub fn contains(&self, node: u16, directory: u16) -> bool
        requires { IsTrue (is_directory_at self.now.tree directory) }
        ensures { result ≡ contains_directory self.now.tree node directory }
    {
        let mut reached = directory;
        for _step in 0..self.directories.inodes() + 1 {
            if reached == node {
                return true;
            }
            if reached == ROOT {
                return false;
            }
            let Some(above) = self.parent(reached) else {
                return false;
            };
            reached = above;
        }
        false
    }

    /// Returns the number of names of a node.
    pub fn names(&self, node: u16) -> u32
        requires { IsSome (node_at self.now.tree node) }
        ensures { result ≡ length (names_of self.now.tree node) }
    {
        self.names[node as usize]
    }

    /// Returns the reference count of a node.
    pub fn holds(&self, node: u16) -> u16
        requires { IsSome (node_at self.now.tree node) }
        ensures { result ≡ holds_at self.now node }
    {
        self.holds[node as usize]
    }

    /// Returns the number of the node that a directory has under `name`.
    pub fn find(&self, directory: u16, name: &[u8]) -> Option<u16>
        requires { IsTrue (is_directory_at self.now.tree directory) }
        ensures { result ≡ find_entry self.now.tree directory name.now }
    {
        self.directories.find(directory, name)
    }

    /// Returns the least name of a directory, in byte order, that follows `last`, or the least name of all if there is
    /// no `last`. Returns `None` if no name follows.
    pub fn next_after(&self, directory: u16, last: Option<&[u8]>) -> Option<Name>
        requires { IsTrue (is_directory_at self.now.tree directory) }
        ensures value { result
            ≡ next_name (option_copied last.entry) (entries_at self.now.tree directory) }
        ensures least { IsNextName (option_copied last.entry)
            (entries_at self.now.tree directory) result }
    {
        self.directories.next_after(directory, last)
    }

    /// Returns the least name of a directory, in byte order, that follows `last`, with the number of its node. If there
    /// is no `last`, it returns the least name of all. Returns `None` if no name follows.
    ///
    /// `before` is a guess of the number of names that precede the result. It does not affect the result. If the guess
    /// is right and the names ascend from slot to slot, the name is found in one step.
    pub fn next_entry(
        &self,
        directory: u16,
        last: Option<&[u8]>,
        before: u32,
    ) -> Option<(Name, u16)>
        requires { IsTrue (is_directory_at self.now.tree directory) }
        ensures value { option_map (λ e. e.0) result
            ≡ next_name (option_copied last.entry) (entries_at self.now.tree directory) }
        ensures least { IsNextName (option_copied last.entry)
            (entries_at self.now.tree directory) (option_map (λ e. e.0) result) }
        ensures node { IfSome result (λ e. find_entry self.now.tree directory e.0 ≡ Some e.1) }
    {
        self.directories.next_entry(directory, last, before)
    }

    /// Returns the least name of a directory, in byte order, that follows `last`, in place, with the number of its node.
    /// Returns `None` if no name follows, or if an entry crosses a block boundary. Each call compares all names.
    pub fn lent_after(&self, directory: u16, last: Option<&[u8]>) -> Option<(&[u8], u16)>
        requires { IsTrue (is_directory_at self.now.tree directory) }
        ensures name { IfSome result (λ e. next_name (option_copied last.entry) (entries_at self.now.tree directory) ≡ Some e.0.now) }
        ensures node { IfSome result (λ e. find_entry self.now.tree directory e.0.now ≡ Some e.1) }
    {
        self.directories.lent_after(directory, last)
    }

    /// Returns the least name of a directory, in byte order, that names `node` and follows `last`. If there is no
    /// `last`, it returns the least name of `node` in the directory. Returns `None` if there is no such name.
    pub fn next_name_of(&self, directory: u16, node: u16, last: Option<&[u8]>) -> Option<Name>
        requires { IsTrue (is_directory_at self.now.tree directory) }
        ensures { IsNextNameOf self.now.tree directory node (option_copied last.entry) result }
    {
        self.directories.next_name_of(directory, node, last)
    }

    /// Returns whether a directory has no entry.
    pub fn is_empty(&self, directory: u16) -> bool
        requires { IsTrue (is_directory_at self.now.tree directory) }
        ensures { IsTrue result ↔ (entries_at self.now.tree directory ≡ []) }
    {
        self.directories.is_empty(directory)
    }

    /// Returns the contents of a file, or the target of a symbolic link, from offset `at`, without a copy: at least one
    /// byte, and as many as are contiguous in memory.
    pub fn lend(&self, node: u16, at: u32) -> &[u8]
        requires used { IsSome (node_at self.now.tree node) }
        requires other { is_directory_at self.now.tree node ≡ false }
        requires within { at < length (node_bytes_at self.now.tree node) }
        ensures run { result.now
            ≡ take (length result.now) (drop at (node_bytes_at self.now.tree node)) }
        ensures some { 1 ≤ length result.now }
        ensures within { at + length result.now ≤ length (node_bytes_at self.now.tree node) }
    {
        self.directories.lend(node, at)
    }

    /// Copies the contents of a file, or the target of a symbolic link, from offset `at` to the front of `buffer`.
    /// Returns the number of bytes copied: it is less than the length of `buffer` if the contents end before that, and
    /// 0 at or past their end.
    pub fn read_at(&self, node: u16, at: u32, buffer: &mut [u8]) -> usize
        requires used { IsSome (node_at self.now.tree node) }
        requires other { is_directory_at self.now.tree node ≡ false }
        ensures count { result
            ≡ min (length buffer.old) (length (node_bytes_at self.now.tree node) - at) }
        ensures bytes { buffer.new
            ≡ take result (drop at (node_bytes_at self.now.tree node)) ++ drop result buffer.old }
    {
        self.directories.read_at(node, at, buffer)
    }
}
