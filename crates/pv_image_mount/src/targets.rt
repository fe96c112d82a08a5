//! The inodes that the slots of directories name.
ghost use Rattle.std.specs.Prelude.{◌≡◌, ◌+◌, ◌/◌, ◌≤◌, ◌<◌, ◌^◌, ℕ, false, length, map, slice_index, IfOk};
ghost use Rattle.pv_model.specs.Machine.{has_bad_block, has_bad_content, has_bad_inode, inode_number, name_count, slot_number, slots_of, PassesNone, entry_length};
ghost use Rattle.pv_image_mount.specs.Numbers.{IsInodeNumber};
ghost use Rattle.pv_image_mount.specs.Places.{targets_of, occurrences_of};

use crate::fields::u16_at;
use crate::image::Image;
use pv_model::format::{DIRECTORY, NUMBER_AT};
use std::alloc::{AllocError, Global};

// Adds to each count the number of occurrences of its index.
fn add_counts(counts: &mut [u32], numbers: &[u16])
    requires within { (i : ℕ) → i < length numbers.now → slice_index numbers.now i < length counts.old }
    requires few { (k : ℕ) → slice_index counts.old k + length numbers.now < 2 ^ 32 }
    ensures { (k : ℕ) → k < length counts.old → slice_index counts.new k ≡ slice_index counts.old k + occurrences_of k numbers.now }
{
    for k in numbers {
        counts[*k as usize] += 1;
    }
}

impl Image<'_> {
    // Returns the inode numbers in the slots of a directory.
    fn slot_numbers(&self, alloc: Global, content: &[u8]) -> Result<Vec<u16>, AllocError>
        ensures { IfOk result (λ list. list.items ≡ map slot_number (slots_of self.now.version (length content.now / entry_length self.now.version) content.now)) }
    {
        let count = self.slot_count(content);
        let mut numbers = Vec::with_capacity(alloc, count)?;
        for i in 0..count {
            numbers.push(u16_at(self.slot(content, i), NUMBER_AT))?;
        }
        Ok(numbers)
    }

    /// Returns the inode numbers in the slots of a directory, or an empty list if the inode is not a directory.
    pub(crate) fn targets(&self, alloc: Global, n: u16) -> Result<Vec<u16>, AllocError>
        requires number { IsInodeNumber self.now.bytes.now n }
        requires inode { has_bad_inode self.now.version self.now.bytes.now n ≡ false }
        requires block { has_bad_block self.now.version self.now.bytes.now n ≡ false }
        ensures { IfOk result (λ list. list.items ≡ targets_of self.now.version self.now.bytes.now n) }
    {
        if self.kind(n) == DIRECTORY {
            let content = self.content(alloc, n)?;
            self.slot_numbers(alloc, content.as_slice())
        } else {
            Ok(Vec::new(alloc))
        }
    }

    /// Returns the number of slots that name each inode, indexed by inode number.
    pub(crate) fn name_counts(&self, alloc: Global) -> Result<Vec<u32>, AllocError>
        requires inodes { PassesNone self.now.bytes.now (has_bad_inode self.now.version self.now.bytes.now) }
        requires blocks { PassesNone self.now.bytes.now (has_bad_block self.now.version self.now.bytes.now) }
        requires contents { PassesNone self.now.bytes.now (has_bad_content self.now.version self.now.bytes.now) }
        ensures counts { IfOk result (λ counts. (k : ℕ) → k ≤ inode_number self.now.bytes.now → slice_index counts.items k ≡ name_count self.now.version self.now.bytes.now k) }
        ensures length { IfOk result (λ counts. length counts.items ≡ inode_number self.now.bytes.now + 1) }
    {
        let mut counts = vec![in alloc; 0; self.inodes as usize + 1]?;
        for n in 1..self.inodes + 1 {
            let targets = self.targets(alloc, n)?;
            add_counts(counts.as_mut_slice(), targets.as_slice());
        }
        Ok(counts)
    }
}
