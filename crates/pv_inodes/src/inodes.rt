//! The inodes of an image and their contents.
ghost use Rattle.std.specs.Prelude.{◌≡◌, ℕ, ◌+◌, ◌-◌, ◌*◌, ◌/◌, ◌%◌, ◌<◌, ◌≤◌, ◌≢◌, ◌↔◌, suc, min, true, false, length, replicate, vec_len, All, take, drop, ◌++◌, IsTrue, None, Some, IsNone, IfNone, IfSome, OnOk, OnErr};
ghost use Rattle.pv_model.specs.declared.limits.TheConstants.{BLOCK};
ghost use Rattle.pv_model.specs.Machine.{overwrite, resize, inode_blocks, greatest_length};
ghost use Rattle.pv_inodes.specs.Layout.{position_of_block, wanted};
ghost use Rattle.pv_inodes.specs.Sizes.{AreImageSizes};
ghost use Rattle.pv_inodes.specs.Files.{held, IsUsed, inode_bytes_at, sort_at, kind_of_number, kind_number, total_room, HasRoomForFiles, LacksRoomForFiles, files_with_bytes, written_files, truncated_files, with_new, without, new_inode};

mod image;

use crate::Space;
use crate::fields::{put, put_zeros};
use crate::layout::{BLOCK_LENGTH, place, room};
use crate::table::{content_block, kind_of, owned_by, push_block, set_kind, set_size, size_of};
use pv_blocks::{BlockSet, Blocks};
use pv_model::format::{DIRECTORY, EXECUTABLE, FILE, FREE};
use pv_model::limits::BLOCK;
use pv_model::{Kind, Version};
use std::marker::Model;

/// The inodes of an image of either version, over its blocks. No method allocates memory.
#[derive(Drop)]
pub struct Inodes {
    blocks: Blocks,
    inodes: u16,
    version: Version,
    // No inode below this one is free. Inodes are numbered from 0 here.
    least: u16,
    // No inode from this one on is in use.
    most: u16,
}

impl Model for Inodes {
    ghost use Rattle.pv_inodes.specs.Files.{Files};
    ghost use Rattle.pv_inodes.specs.Sound.{AllUsed, IsSound, NoneUsed, files_of};

    ghost Value = { Files };

    ghost view = { λ f. files_of f.version f.blocks f.inodes };

    ghost invariant = { λ f. IsSound f.version f.blocks f.inodes × AllUsed (files_of f.version f.blocks f.inodes) f.least × NoneUsed (files_of f.version f.blocks f.inodes) f.most };
}

impl Inodes {
    ghost use Rattle.pv_inodes.specs.Sound.{AllUsed};

    /// Creates the inodes of an empty image with the given numbers of blocks and inodes, in a vector of zeros. No inode
    /// is in use.
    pub fn empty(zeros: Vec<u8>, blocks: u16, inodes: u16, version: Version) -> Inodes
        requires whole { vec_len zeros ≡ BLOCK * blocks }
        requires zeros { All (λ byte. byte ≡ 0) zeros.items }
        requires sizes { AreImageSizes version blocks inodes }
        ensures version { result.version ≡ version }
        ensures nodes { result.nodes ≡ replicate (suc inodes) None }
        ensures blocks { result.blocks + inode_blocks version inodes + 1 ≡ blocks }
    {
        let table = inodes as usize * version.layout().inode_length;
        let first = table.div_ceil(BLOCK) as u16 + 1;
        Inodes {
            blocks: Blocks::of_bytes(zeros, first, &BlockSet::new()),
            inodes,
            version,
            least: 0,
            most: 0,
        }
    }

    /// Makes these inodes equal to others of the same version, with the same numbers of inodes and data blocks.
    pub fn copy_from(&mut self, other: &Inodes)
        requires version { self.old.version ≡ other.now.version }
        requires inodes { length self.old.nodes - 1 ≡ length other.now.nodes - 1 }
        requires blocks { self.old.blocks ≡ other.now.blocks }
        ensures { self.new ≡ other.now }
    {
        self.blocks.copy_used_from(&other.blocks);
        self.inodes = other.inodes;
        self.version = other.version;
        self.least = other.least;
        self.most = other.most;
    }

    /// Returns a number that no inode in use exceeds.
    pub fn bound(&self) -> u16
        ensures { (k : ℕ) → result < k → held self.now k ≡ None }
    {
        self.most
    }

    /// Returns true only if an inode has the same kind and contents here and in another image.
    pub fn is_same(&self, other: &Inodes, inode: u16) -> bool
        requires used { IsUsed self.now inode }
        requires also_used { IsUsed other.now inode }
        ensures { result ≡ true → held self.now inode ≡ held other.now inode }
    {
        let size = self.size(inode);
        if self.kind(inode) != other.kind(inode) || size != other.size(inode) {
            return false;
        }
        let mut at = 0;
        while at < size {
            let run = self.lend(inode, at);
            if run != other.lend(inode, at) {
                return false;
            }
            at += run.len() as u32;
        }
        true
    }

    /// Returns the version of the image's format.
    pub fn version(&self) -> Version
        ensures { result ≡ self.now.version }
    {
        self.version
    }

    /// Returns the number of inodes, including free ones.
    pub fn inodes(&self) -> u16
        ensures { length self.now.nodes ≡ suc result }
    {
        self.inodes
    }

    /// Returns the kind of an inode that is in use.
    pub fn kind(&self, inode: u16) -> Kind
        requires { IsUsed self.now inode }
        ensures { sort_at self.now inode ≡ Some result }
    {
        let slot = self.slot(inode);
        sort_from(kind_of(&self.blocks, self.version, slot))
    }

    /// Returns the length of an inode's contents in bytes.
    pub fn size(&self, inode: u16) -> u32
        requires { IsUsed self.now inode }
        ensures value { result ≡ length (inode_bytes_at self.now inode) }
        ensures allowed { result ≤ greatest_length self.now.version }
    {
        let slot = self.slot(inode);
        size_of(&self.blocks, self.version, slot)
    }

    /// Returns the number of free data blocks.
    pub fn free(&self) -> u16
        ensures { result + total_room self.now ≡ self.now.blocks }
    {
        self.blocks.free()
    }

    /// Returns whether `inode` is the number of an inode in use.
    pub fn is_used(&self, inode: u16) -> bool
        ensures { IsTrue result ↔ IsUsed self.now inode }
    {
        if inode == 0 || inode > self.inodes {
            return false;
        }
        kind_of(&self.blocks, self.version, inode - 1) != FREE
    }

    /// Returns the contents of an inode from offset `at` to the end of the block that has this offset, or to the end of
    /// the contents if it comes first. Nothing is copied.
    pub fn lend(&self, inode: u16, at: u32) -> &[u8]
        requires used { IsUsed self.now inode }
        requires within { at < length (inode_bytes_at self.now inode) }
        ensures { result.now ≡ take (BLOCK - at % BLOCK) (drop at (inode_bytes_at self.now inode)) }
    {
        let slot = self.slot(inode);
        let left = size_of(&self.blocks, self.version, slot) - at;
        let block = content_block(&self.blocks, self.version, slot, (at / BLOCK_LENGTH) as u16);
        let from = (at % BLOCK_LENGTH) as usize;
        let count = (BLOCK_LENGTH - at % BLOCK_LENGTH).min(left) as usize;
        &self.blocks.lend(block)[from..from + count]
    }

    /// Copies the contents of an inode from offset `at` to the front of `buffer`. Returns the number of bytes copied:
    /// it is less than the length of `buffer` if the contents end before that, and 0 at or past their end.
    pub fn read_at(&self, inode: u16, at: u32, buffer: &mut [u8]) -> usize
        requires { IsUsed self.now inode }
        ensures count { result ≡ min (length buffer.old) (length (inode_bytes_at self.now inode) - at) }
        ensures bytes { buffer.new
            ≡ take result (drop at (inode_bytes_at self.now inode)) ++ drop result buffer.old }
    {
        let count = buffer
            .len()
            .min(self.size(inode).saturating_sub(at) as usize);
        let mut done = 0;
        while done < count {
            let from = at + done as u32;
            let end = done + (BLOCK_LENGTH - from % BLOCK_LENGTH) as usize;
            let end = end.min(count);
            self.read_part(inode, from, &mut buffer[done..end]);
            done = end;
        }
        count
    }

    /// Writes `bytes` to the contents of an inode at offset `at`. A gap past the end of the contents is filled with
    /// zeros. A write of zero bytes changes nothing.
    ///
    /// # Errors
    ///
    /// Returns `TooBig` if a byte would be written past the maximum length. Otherwise returns `Full` if there are too
    /// few free data blocks. If the call fails, nothing changes.
    pub fn write_at(&mut self, inode: u16, at: u32, bytes: &[u8]) -> Result<(), Space>
        requires { IsUsed self.old inode }
        ensures ok { OnOk result (self.new ≡ written_files self.old inode at bytes.now) }
        ensures err { OnErr result (self.new ≡ self.old) }
        ensures too_big { (result ≡ Err Space.TooBig)
            ↔ ((0 < length bytes.now)
            × (greatest_length self.old.version < at + length bytes.now)) }
        ensures full { (result ≡ Err Space.Full)
            ↔ ((0 < length bytes.now)
            × (at + length bytes.now ≤ greatest_length self.old.version)
            × LacksRoomForFiles (written_files self.old inode at bytes.now)) }
    {
        if bytes.is_empty() {
            return Ok(());
        }
        let greatest = self.version().layout().greatest_length;
        if at > greatest || bytes.len() > (greatest - at) as usize {
            return Err(Space::TooBig);
        }
        let length = self.size(inode).max(at + bytes.len() as u32);
        if !self.has_room(inode, length) {
            return Err(Space::Full);
        }
        self.grow(inode, length);
        self.overwrite(inode, at, bytes);
        Ok(())
    }

    /// Truncates the contents of an inode to `size` bytes, or extends them to it with zeros.
    ///
    /// # Errors
    ///
    /// Returns `TooBig` if `size` exceeds the maximum length. Otherwise returns `Full` if there are too few free data
    /// blocks. If the call fails, nothing changes.
    pub fn cut(&mut self, inode: u16, size: u32) -> Result<(), Space>
        requires { IsUsed self.old inode }
        ensures ok { OnOk result (self.new ≡ truncated_files self.old inode size) }
        ensures err { OnErr result (self.new ≡ self.old) }
        ensures too_big { (result ≡ Err Space.TooBig)
            ↔ (greatest_length self.old.version < size) }
        ensures full { (result ≡ Err Space.Full)
            ↔ ((size ≤ greatest_length self.old.version)
            × LacksRoomForFiles (truncated_files self.old inode size)) }
    {
        if size > self.version().layout().greatest_length {
            return Err(Space::TooBig);
        }
        if !self.has_room(inode, size) {
            return Err(Space::Full);
        }
        if size < self.size(inode) {
            self.shrink(inode, size);
        } else {
            self.grow(inode, size);
        }
        Ok(())
    }

    /// Overwrites a part of an inode's contents with `bytes`, at offset `at`. The length of the contents does not
    /// change.
    pub fn overwrite(&mut self, inode: u16, at: u32, bytes: &[u8])
        requires used { IsUsed self.old inode }
        requires within { at + length bytes.now ≤ length (inode_bytes_at self.old inode) }
        requires allowed { at + length bytes.now ≤ greatest_length self.old.version }
        ensures { self.new
            ≡ files_with_bytes self.old inode (overwrite (inode_bytes_at self.old inode) at bytes.now) }
    {
        let mut done = 0;
        while done < bytes.len() {
            let from = at + done as u32;
            let count = (BLOCK_LENGTH - from % BLOCK_LENGTH) as usize;
            let count = count.min(bytes.len() - done);
            self.write_part(inode, from, &bytes[done..done + count]);
            done += count;
        }
    }

    /// Truncates the contents of an inode to `size` bytes, which is at most their length, and frees the blocks that
    /// they no longer need.
    pub fn shrink(&mut self, inode: u16, size: u32)
        requires used { IsUsed self.old inode }
        requires shorter { size ≤ length (inode_bytes_at self.old inode) }
        ensures { self.new ≡ files_with_bytes self.old inode (resize (inode_bytes_at self.old inode) size) }
    {
        let slot = self.slot(inode);
        let mut owned = room(size_of(&self.blocks, self.version, slot));
        let preserved = room(size);
        while preserved < owned {
            owned -= 1;
            let block = owned_by(&self.blocks, self.version, slot, owned);
            self.blocks.give_back(block);
        }
        set_size(&mut self.blocks, self.version, slot, size);
    }

    /// Allocates the least free inode, with kind `sort` and empty contents, and returns its number. Returns `None` if
    /// no inode is free.
    pub fn fresh(&mut self, sort: Kind) -> Option<u16>
        ensures full { IsNone result ↔ (new_inode self.old ≡ length self.old.nodes) }
        ensures none { IfNone result (self.new ≡ self.old) }
        ensures least { IfSome result (λ n. n ≡ new_inode self.old) }
        ensures free { IfSome result (λ n. held self.old n ≡ None) }
        ensures within { IfSome result (λ n. n < length self.old.nodes) }
        ensures after { IfSome result (λ n. self.new ≡ with_new self.old n sort) }
    {
        let slot = self.free_slot()?;
        self.least = slot;
        self.most = self.most.max(slot + 1);
        set_size(&mut self.blocks, self.version, slot, 0);
        set_kind(&mut self.blocks, self.version, slot, number_of(sort));
        Some(slot + 1)
    }

    /// Frees an inode and its blocks.
    pub fn drop_inode(&mut self, inode: u16)
        requires { IsUsed self.old inode }
        ensures { self.new ≡ without self.old inode }
    {
        self.shrink(inode, 0);
        let slot = self.slot(inode);
        set_kind(&mut self.blocks, self.version, slot, FREE);
        self.least = self.least.min(slot);
    }

    // Returns the least free inode, numbered from 0.
    fn free_slot(&self) -> Option<u16>
        ensures full { IsNone result ↔ (new_inode self.now ≡ length self.now.nodes) }
        ensures least { IfSome result (λ slot. slot + 1 ≡ new_inode self.now) }
        ensures free { IfSome result (λ slot. held self.now (slot + 1) ≡ None) }
        ensures within { IfSome result (λ slot. slot + 1 < length self.now.nodes) }
        ensures used { IfSome result (AllUsed self.now) }
    {
        for slot in self.least..self.inodes {
            if kind_of(&self.blocks, self.version, slot) == FREE {
                return Some(slot);
            }
        }
        None
    }

    // Returns whether there are enough data blocks to give an inode's contents the length `size`.
    fn has_room(&self, inode: u16, size: u32) -> bool
        requires used { IsUsed self.now inode }
        requires allowed { size ≤ greatest_length self.now.version }
        ensures enough { IsTrue result → HasRoomForFiles (truncated_files self.now inode size) }
        ensures wanting { result ≡ false → LacksRoomForFiles (truncated_files self.now inode size) }
    {
        let slot = self.slot(inode);
        let owned = room(size_of(&self.blocks, self.version, slot));
        room(size).saturating_sub(owned) <= self.blocks.free()
    }

    // Copies a part of an inode's contents that lies in one block.
    fn read_part(&self, inode: u16, at: u32, part: &mut [u8])
        requires used { IsUsed self.now inode }
        requires some { 0 < length part.old }
        requires block { at % BLOCK + length part.old ≤ BLOCK }
        requires within { at + length part.old ≤ length (inode_bytes_at self.now inode) }
        ensures { part.new ≡ take (length part.old) (drop at (inode_bytes_at self.now inode)) }
    {
        part.copy_from_slice(&self.lend(inode, at)[..part.len()]);
    }

    // Returns the number, counted from 0, of an inode in use.
    fn slot(&self, inode: u16) -> u16
        requires { IsUsed self.now inode }
        ensures { result + 1 ≡ inode }
    {
        let _ = &self.blocks;
        inode - 1
    }

    // Extends the contents of an inode with zeros within their last block.
    fn grow_within(&mut self, inode: u16, size: u32)
        requires used { IsUsed self.old inode }
        requires longer { length (inode_bytes_at self.old inode) < size }
        requires partly { 0 < length (inode_bytes_at self.old inode) % BLOCK }
        requires within { size ≤ BLOCK * (length (inode_bytes_at self.old inode) / BLOCK + 1) }
        requires allowed { size ≤ greatest_length self.old.version }
        ensures { self.new ≡ files_with_bytes self.old inode (resize (inode_bytes_at self.old inode) size) }
    {
        let slot = self.slot(inode);
        let old = size_of(&self.blocks, self.version, slot);
        let last = content_block(
            &self.blocks,
            self.version,
            slot,
            (old / BLOCK_LENGTH) as u16,
        );
        let at = (old % BLOCK_LENGTH) as usize;
        put_zeros(&mut self.blocks, last, at, (size - old) as usize);
        set_size(&mut self.blocks, self.version, slot, size);
    }

    // Extends the contents of an inode with zeros into one new block. The old contents fill their blocks.
    fn grow_by_block(&mut self, inode: u16, size: u32)
        requires used { IsUsed self.old inode }
        requires full { length (inode_bytes_at self.old inode) % BLOCK ≡ 0 }
        requires longer { length (inode_bytes_at self.old inode) < size }
        requires within { size ≤ length (inode_bytes_at self.old inode) + BLOCK }
        requires next { wanted (length (inode_bytes_at self.old inode))
            ≡ position_of_block (length (inode_bytes_at self.old inode) / BLOCK) }
        requires allowed { size ≤ greatest_length self.old.version }
        requires room { HasRoomForFiles
            (files_with_bytes self.old inode (resize (inode_bytes_at self.old inode) size)) }
        ensures { self.new ≡ files_with_bytes self.old inode (resize (inode_bytes_at self.old inode) size) }
    {
        let slot = self.slot(inode);
        let owned = room(size_of(&self.blocks, self.version, slot));
        let _block = push_block(&mut self.blocks, self.version, slot, owned);
        set_size(&mut self.blocks, self.version, slot, size);
    }

    // Extends the contents of an inode with zeros into the first block of an index block. The old contents fill their
    // blocks. The index block is allocated first.
    fn grow_by_index(&mut self, inode: u16, size: u32)
        requires used { IsUsed self.old inode }
        requires full { length (inode_bytes_at self.old inode) % BLOCK ≡ 0 }
        requires longer { length (inode_bytes_at self.old inode) < size }
        requires within { size ≤ length (inode_bytes_at self.old inode) + BLOCK }
        requires next { suc (wanted (length (inode_bytes_at self.old inode)))
            ≡ position_of_block (length (inode_bytes_at self.old inode) / BLOCK) }
        requires allowed { size ≤ greatest_length self.old.version }
        requires room { HasRoomForFiles
            (files_with_bytes self.old inode (resize (inode_bytes_at self.old inode) size)) }
        ensures { self.new ≡ files_with_bytes self.old inode (resize (inode_bytes_at self.old inode) size) }
    {
        let slot = self.slot(inode);
        let owned = room(size_of(&self.blocks, self.version, slot));
        let _index = push_block(&mut self.blocks, self.version, slot, owned);
        let _block = push_block(&mut self.blocks, self.version, slot, owned + 1);
        set_size(&mut self.blocks, self.version, slot, size);
    }

    // Extends the contents of an inode with zeros, at most to the end of a block.
    fn grow_step(&mut self, inode: u16, size: u32)
        requires used { IsUsed self.old inode }
        requires longer { length (inode_bytes_at self.old inode) < size }
        requires within { size ≤ BLOCK * (length (inode_bytes_at self.old inode) / BLOCK + 1) }
        requires allowed { size ≤ greatest_length self.old.version }
        requires room { HasRoomForFiles
            (files_with_bytes self.old inode (resize (inode_bytes_at self.old inode) size)) }
        ensures { self.new ≡ files_with_bytes self.old inode (resize (inode_bytes_at self.old inode) size) }
    {
        let old = self.size(inode);
        if old % BLOCK_LENGTH != 0 {
            self.grow_within(inode, size);
        } else if place((old / BLOCK_LENGTH) as u16) != room(old) {
            self.grow_by_index(inode, size);
        } else {
            self.grow_by_block(inode, size);
        }
    }

    // Extends the contents of an inode with zeros.
    fn grow(&mut self, inode: u16, size: u32)
        requires used { IsUsed self.old inode }
        requires longer { length (inode_bytes_at self.old inode) ≤ size }
        requires allowed { size ≤ greatest_length self.old.version }
        requires room { HasRoomForFiles
            (files_with_bytes self.old inode (resize (inode_bytes_at self.old inode) size)) }
        ensures { self.new ≡ files_with_bytes self.old inode (resize (inode_bytes_at self.old inode) size) }
    {
        let mut length = self.size(inode);
        while length < size {
            let next = size.min((length / BLOCK_LENGTH + 1) * BLOCK_LENGTH);
            self.grow_step(inode, next);
            length = next;
        }
    }

    // Overwrites a part of an inode's contents that lies in one block.
    fn write_part(&mut self, inode: u16, at: u32, part: &[u8])
        requires used { IsUsed self.old inode }
        requires some { 0 < length part.now }
        requires block { at % BLOCK + length part.now ≤ BLOCK }
        requires within { at + length part.now ≤ length (inode_bytes_at self.old inode) }
        ensures { self.new
            ≡ files_with_bytes self.old inode (overwrite (inode_bytes_at self.old inode) at part.now) }
    {
        let slot = self.slot(inode);
        let block = content_block(&self.blocks, self.version, slot, (at / BLOCK_LENGTH) as u16);
        put(&mut self.blocks, block, (at % BLOCK_LENGTH) as usize, part);
    }
}

/// Returns the kind that a nonzero kind field of an inode encodes.
fn sort_from(kind: u8) -> Kind
    ensures { result ≡ kind_of_number kind }
{
    match kind {
        DIRECTORY => Kind::Directory,
        FILE => Kind::File,
        EXECUTABLE => Kind::Executable,
        _ => Kind::Symlink,
    }
}

/// Returns the kind field that encodes `sort`.
fn number_of(sort: Kind) -> u8
    ensures value { result ≡ kind_number sort }
    ensures some { 0 < result }
    ensures few { result ≤ 4 }
    ensures back { kind_of_number result ≡ sort }
{
    sort as u8
}
