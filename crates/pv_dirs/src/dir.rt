//! A directory as slots, each read in place.
ghost use Rattle.std.specs.Prelude.{◌≡◌, ◌+◌, ◌*◌, ◌<◌, ◌≤◌, length, take, drop, IfSome};
ghost use Rattle.std.specs.Cmp.Lexicographic.{slice_cmp};
ghost use Rattle.std.specs.Ordering.{nat_cmp, is_lt};
ghost use Rattle.pv_model.specs.declared.limits.TheConstants.{NAME_V2};
ghost use Rattle.pv_model.specs.declared.version.Version.TheVariants.{V2};
ghost use Rattle.pv_model.specs.Machine.{entry_length, greatest_entries, greatest_length, is_directory_at};
ghost use Rattle.pv_inodes.specs.Files.{IsUsed};
ghost use Rattle.pv_dirs.specs.Slots.{name_in_slot};
ghost use Rattle.pv_dirs.specs.Trees.{tree_of_files};

use crate::slot::{LONGEST, Slot, name_in};
use byteorder::{ByteOrder, LittleEndian};
use pv_inodes::Inodes;
use pv_model::{Kind, Name};

/// A directory: an inode in use whose contents are slots.
#[derive(Clone, Copy)]
pub(crate) struct Dir<'a> {
    /// The inodes of the image.
    pub(crate) inodes: &'a Inodes,
    /// The inode number of the directory.
    pub(crate) directory: u16,
    ghost used: { IsUsed inodes.now directory },
}

/// Returns whether an inode is a directory.
pub(crate) fn is_directory(inodes: &Inodes, inode: u16) -> bool
    ensures { result ≡ is_directory_at (tree_of_files inodes.now) inode }
{
    inodes.is_used(inode) && matches!(inodes.kind(inode), Kind::Directory)
}

/// Returns the bytes of `run` after its first slot, or no bytes if the slot ends past the run.
pub(crate) fn rest_of(run: &[u8], length: usize) -> &[u8]
    ensures { result.now ≡ drop length run.now }
{
    &run[length.min(run.len())..]
}

/// Returns the name in the first slot of `run`, without a copy, or `None` if the slot ends past the run.
pub(crate) fn name_in_run(run: &[u8], slot_length: usize) -> Option<&[u8]>
    requires { 4 ≤ slot_length }
    ensures value { IfSome result (λ name. name.now ≡ name_in_slot (take slot_length run.now)) }
    ensures whole { IfSome result (λ _. slot_length ≤ length run.now) }
    ensures short { IfSome result (λ name. length name.now ≤ NAME_V2) }
{
    if run.len() < slot_length {
        return None;
    }
    Some(name_in(&run[..slot_length]))
}

impl<'a> Dir<'a> {
    ghost use Rattle.pv_dirs.specs.Dirs.{directory_bytes, slots_in, slot_in, name_in, slot_number_in, any_name_in, StartsAtSlotIn};

    /// Returns the number of slots in the directory.
    pub(crate) fn count(&self) -> u32
        ensures value { result ≡ slots_in self.now }
        ensures few { result ≤ greatest_entries V2 }
        ensures allowed { length (directory_bytes self.now) ≤ greatest_length self.now.inodes.now.version }
    {
        self.inodes.size(self.directory) / self.inodes.version().layout().slot_length as u32
    }

    /// Returns the offset of slot `k`.
    pub(crate) fn start(&self, k: u32) -> u32
        requires few { k ≤ greatest_entries V2 }
        ensures { result ≡ entry_length self.now.inodes.now.version * k }
    {
        self.inodes.version().layout().slot_length as u32 * k
    }

    /// Returns the inode number in slot `k`. The first four bytes of a slot always lie in one block.
    pub(crate) fn number(&self, k: u32) -> u16
        requires within { k < slots_in self.now }
        requires few { k ≤ greatest_entries V2 }
        ensures { result ≡ slot_number_in self.now k }
    {
        LittleEndian::read_u16(self.inodes.lend(self.directory, self.start(k)))
    }

    /// Returns slot `k`.
    pub(crate) fn slot(&self, k: u32) -> Slot
        requires within { k < slots_in self.now }
        requires few { k ≤ greatest_entries V2 }
        ensures { result ≡ slot_in self.now k }
    {
        let length = self.inodes.version().layout().slot_length;
        let at = self.start(k);
        let mut bytes = [0; LONGEST];
        self.inodes
            .read_at(self.directory, at, &mut bytes[..length]);
        Slot { bytes, length }
    }

    /// Returns the bytes from the start of slot `k` to the end of its block. A slot of version 2 can end past them.
    pub(crate) fn run_from(&self, k: u32) -> &'a [u8]
        requires within { k < slots_in self.now }
        requires few { k ≤ greatest_entries V2 }
        ensures { StartsAtSlotIn self.now k result.now }
    {
        self.inodes.lend(self.directory, self.start(k))
    }

    /// Returns the same bytes as `run_from`. If `left` is not empty, it has these bytes already: it is the rest of the
    /// previous run.
    pub(crate) fn run_at(&self, k: u32, left: &'a [u8]) -> &'a [u8]
        requires within { k < slots_in self.now }
        requires few { k ≤ greatest_entries V2 }
        requires left { StartsAtSlotIn self.now k left.now }
        ensures { StartsAtSlotIn self.now k result.now }
    {
        if left.is_empty() {
            self.run_from(k)
        } else {
            left
        }
    }

    // Returns the inode number in slot `k`. `run` begins with that slot, or with its first part.
    pub(crate) fn number_in(&self, k: u32, run: &[u8]) -> u16
        requires within { k < slots_in self.now }
        requires few { k ≤ greatest_entries V2 }
        requires run { StartsAtSlotIn self.now k run.now }
        ensures { result ≡ slot_number_in self.now k }
    {
        if run.len() < 2 {
            return self.number(k);
        }
        LittleEndian::read_u16(run)
    }

    /// Returns the name in slot `k` without a copy, or `None` if the slot crosses a block boundary.
    pub(crate) fn lent_name(&self, k: u32) -> Option<&[u8]>
        requires within { k < slots_in self.now }
        requires few { k ≤ greatest_entries V2 }
        ensures value { IfSome result (λ name. name.now ≡ name_in self.now k) }
        ensures short { IfSome result (λ name. length name.now ≤ NAME_V2) }
    {
        let length = self.inodes.version().layout().slot_length;
        name_in_run(self.run_from(k), length)
    }

    /// Returns a copy of the name in slot `k`, or `None` if there is no such slot.
    pub(crate) fn name_at(&self, k: u32) -> Option<Name>
        ensures value { result ≡ any_name_in self.now k }
        ensures within { IfSome result (λ _. k < slots_in self.now) }
        ensures few { IfSome result (λ _. k ≤ greatest_entries V2) }
    {
        if k >= self.count() {
            return None;
        }
        match self.lent_name(k) {
            Some(name) => Name::new(name),
            None => Name::new(self.slot(k).name()),
        }
    }

    // Returns whether the name in slot `k`, which crosses a block boundary, precedes `name`.
    #[inline(never)]
    fn is_less_across(&self, k: u32, name: &[u8]) -> bool
        requires within { k < slots_in self.now }
        requires few { k ≤ greatest_entries V2 }
        ensures { result ≡ is_lt (slice_cmp nat_cmp (name_in self.now k) name.now) }
    {
        self.slot(k).name() < name
    }

    /// Returns whether the name in slot `k` precedes `name`.
    pub(crate) fn is_less(&self, k: u32, name: &[u8]) -> bool
        requires within { k < slots_in self.now }
        requires few { k ≤ greatest_entries V2 }
        ensures { result ≡ is_lt (slice_cmp nat_cmp (name_in self.now k) name.now) }
    {
        match self.lent_name(k) {
            Some(before) => before < name,
            None => self.is_less_across(k, name),
        }
    }
}
