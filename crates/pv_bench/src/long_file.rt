//! A file of the maximum length.
ghost use Rattle.std.specs.Prelude.{◌≡◌, ◌-◌, ◌≤◌, ◌++◌, min, length, take, drop, OnOk, OnErr};
ghost use Rattle.pv_inodes.specs.Files.{IsUsed, inode_bytes_at, written_files};
ghost use Rattle.pv_model.specs.declared.version.Version.TheVariants.{V1};
ghost use Rattle.pv_model.specs.Machine.{greatest_length};

use crate::image::{INODES, blocks_of};
use anyhow::{Context, Result};
use pv_inodes::{Inodes, Space};
use pv_model::limits::BLOCK;
use pv_model::{Kind, Version};
use std::alloc::{AllocError, Global};

// Creates an image with room for contents of the maximum length.
fn empty_image(alloc: Global, version: Version) -> Result<Inodes, AllocError> {
    let blocks = blocks_of(version);
    let zeros = vec![in alloc; 0; BLOCK * blocks as usize]?;
    Ok(Inodes::empty(zeros, blocks, INODES, version))
}

/// A file in an image that has room for exactly one file of the maximum length.
#[derive(Drop)]
pub struct LongFile {
    inodes: Inodes,
    number: u16,
    length: u32,
    ghost used: { IsUsed inodes number },
    ghost long: { greatest_length V1 ≤ length },
}

impl LongFile {
    /// Creates a file of zeros with the maximum length of an image of this version.
    ///
    /// # Errors
    ///
    /// Returns an error if memory cannot be allocated.
    pub fn new(alloc: Global, version: Version) -> Result<LongFile> {
        let length = version.layout().greatest_length;
        let mut inodes = empty_image(alloc, version)?;
        let number = inodes.fresh(Kind::File).context("an inode is free")?;
        inodes
            .cut(number, length)
            .ok()
            .context("the image has room")?;
        Ok(LongFile {
            inodes,
            number,
            length,
        })
    }

    /// Returns the length of the file in bytes.
    pub fn length(&self) -> u32
        ensures value { result ≡ self.now.length }
        ensures long { greatest_length V1 ≤ result }
    {
        self.length
    }

    /// Writes `bytes` to the file at offset `at`.
    ///
    /// # Errors
    ///
    /// Returns the reason if the bytes do not fit. The file then does not change.
    pub fn write(&mut self, at: u32, bytes: &[u8]) -> Result<(), Space>
        ensures ok { OnOk result (self.new.inodes ≡ written_files self.old.inodes self.old.number at bytes.now) }
        ensures err { OnErr result (self.new.inodes ≡ self.old.inodes) }
        ensures number { self.new.number ≡ self.old.number }
        ensures length { self.new.length ≡ self.old.length }
    {
        self.inodes.write_at(self.number, at, bytes)
    }

    /// Copies the contents of the file from offset `at` to the front of `buffer`, and returns the number of bytes
    /// copied.
    pub fn read(&self, at: u32, buffer: &mut [u8]) -> usize
        ensures count { result ≡ min (length buffer.old) (length (inode_bytes_at self.now.inodes self.now.number) - at) }
        ensures bytes { buffer.new ≡ take result (drop at (inode_bytes_at self.now.inodes self.now.number)) ++ drop result buffer.old }
    {
        self.inodes.read_at(self.number, at, buffer)
    }
}
