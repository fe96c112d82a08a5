//! A directory with many names.
use crate::image::{INODES, blocks_of};
use anyhow::{Context, Result, ensure};
use pv_dirs::Directories;
use pv_model::limits::BLOCK;
use pv_model::{Kind, Name, Version, is_name};
use std::alloc::{AllocError, Global};

/// The maximum number of names.
pub const MOST: u32 = 2_000;

// Creates an image with room for contents of the maximum length, which is more than `MOST` names need.
fn empty_image(alloc: Global, version: Version) -> Result<Directories, AllocError> {
    let blocks = blocks_of(version);
    let zeros = vec![in alloc; 0; BLOCK * blocks as usize]?;
    Directories::empty(alloc, zeros, blocks, INODES, version)
}

/// A directory in an image that has room for the maximum number of names, and a file that has these names.
#[derive(Drop)]
pub struct LongDirectory {
    directories: Directories,
    number: u16,
    file: u16,
}

/// Returns the name with this number, counted from 0: an `n` and five digits. The byte order of the names is the order
/// of their numbers.
pub fn name_of(number: u32) -> [u8; 6] {
    let digit = |place: u32| b'0' + (number / place % 10) as u8;
    [
        b'n',
        digit(10_000),
        digit(1_000),
        digit(100),
        digit(10),
        digit(1),
    ]
}

impl LongDirectory {
    /// Creates a directory without names, in an image of this version.
    ///
    /// # Errors
    ///
    /// Returns an error if memory cannot be allocated.
    pub fn new(alloc: Global, version: Version) -> Result<LongDirectory> {
        let mut directories = empty_image(alloc, version)?;
        let number = directories
            .fresh(Kind::Directory)
            .context("an inode is free")?;
        let file = directories.fresh(Kind::File).context("an inode is free")?;
        Ok(LongDirectory {
            directories,
            number,
            file,
        })
    }

    /// Adds a name to the file.
    ///
    /// # Errors
    ///
    /// Returns an error if the name is invalid, exists already, or has no room.
    pub fn add(&mut self, name: &[u8]) -> Result<()> {
        ensure!(
            is_name(self.directories.version(), name),
            "a name may be added"
        );
        ensure!(
            self.directories.is_directory(self.number),
            "names are in a directory"
        );
        ensure!(
            self.directories.find(self.number, name).is_none(),
            "the name is new"
        );
        self.directories
            .add(self.number, name, self.file)
            .ok()
            .context("the image has room")
    }

    /// Returns whether the directory has a name.
    pub fn has(&self, name: &[u8]) -> bool {
        self.directories.is_directory(self.number)
            && self.directories.find(self.number, name).is_some()
    }

    /// Returns the name that follows `last` in byte order.
    pub fn next_after(&self, last: Option<&[u8]>) -> Option<Name> {
        if !self.directories.is_directory(self.number) {
            return None;
        }
        self.directories.next_after(self.number, last)
    }
}
