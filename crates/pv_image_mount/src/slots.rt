//! Checking the slots of directories and the contents of inodes.
ghost use Rattle.std.specs.Prelude.{◌≡◌, ◌==◌, ◌+◌, ◌*◌, ◌/◌, ◌<◌, ◌≤◌, bytes_eq, false, length, map, ◌↔◌, IsTrue, IfNone, IfOk, IfSome};
ghost use Rattle.std.specs.Cmp.Lexicographic.{slice_cmp};
ghost use Rattle.std.specs.List.{list_any};
ghost use Rattle.std.specs.Ordering.{nat_cmp, is_lt};
ghost use Rattle.pv_model.specs.Machine.{has_bad_block, has_bad_content, has_bad_inode, is_bad_slot, kind, slot_length, slot_name, slots_at, slots_of, appears_twice, PassesNone, entry_length};
ghost use Rattle.pv_model.specs.Mount.{PassesLeast};
ghost use Rattle.pv_image_mount.specs.Numbers.{IsInodeNumber};
ghost use Rattle.pv_image_mount.specs.Slots.{are_bad_slots, name_key, slot_of_content, slot_key, NamesAscend};

use crate::fields::{u8_at, u16_at};
use crate::image::Image;
use pv_model::format::{DIRECTORY, FREE, LINK, NAME_AT, NAME_LENGTH_AT, NUMBER_AT};
use pv_model::is_name;
use std::alloc::{AllocError, Global};

// The base of the hash of names: each byte has this many times the weight of the next.
const FACTOR: u64 = 0x9E37_79B9_7F4A_7C15;

// Returns the name in a slot.
fn slot_name(slot: &[u8]) -> &[u8]
    requires { 4 + slot_length slot.now ≤ length slot.now }
    ensures { result.now ≡ slot_name slot.now }
{
    let length = u8_at(slot, NAME_LENGTH_AT) as usize;
    &slot[NAME_AT..NAME_AT + length]
}

// Returns whether a name precedes another one.
fn is_before(name: &[u8], other: &[u8]) -> bool
    ensures { result ≡ is_lt (slice_cmp nat_cmp name.now other.now) }
{
    name < other
}

// Returns the key of a name: a 64-bit hash of its bytes. Equal names have equal keys.
fn key_of(name: &[u8]) -> u64
    ensures { result ≡ name_key name.now }
{
    let mut key: u64 = 0;
    for byte in name {
        key = key.wrapping_mul(FACTOR).wrapping_add(u64::from(*byte));
    }
    key
}

// Returns whether two keys are equal. It sorts the keys.
fn are_keys_shared(keys: &mut [u64]) -> bool
    ensures { result ≡ appears_twice ◌==◌ keys.old }
{
    keys.sort_unstable();
    for i in 1..keys.len() {
        if keys[i - 1] == keys[i] {
            return true;
        }
    }
    false
}

// Returns whether two names are equal. It sorts the names.
fn appears_twice(names: &mut [&[u8]]) -> bool
    ensures { result ≡ appears_twice bytes_eq (map (λ name. name.now) names.old) }
{
    names.sort_unstable();
    for i in 1..names.len() {
        if names[i - 1] == names[i] {
            return true;
        }
    }
    false
}

impl Image<'_> {
    // Returns slot `i` in the contents of a directory.
    pub(crate) fn slot<'b>(&self, content: &'b [u8], i: usize) -> &'b [u8]
        requires { i < length content.now / entry_length self.now.version }
        ensures bytes { result.now ≡ slot_of_content self.now.version content.now i }
        ensures length { length result.now ≡ entry_length self.now.version }
    {
        let length = self.version.layout().slot_length;
        let start = length * i;
        &content[start..start + length]
    }

    // Returns the number of slots in the contents of a directory.
    pub(crate) fn slot_count(&self, content: &[u8]) -> usize
        ensures { result ≡ length content.now / entry_length self.now.version }
    {
        content.len() / self.version.layout().slot_length
    }

    // Returns whether the number in a slot is not that of an inode in use, or its name is invalid.
    fn is_bad_slot(&self, slot: &[u8]) -> bool
        requires { length slot.now ≡ entry_length self.now.version }
        ensures { result ≡ is_bad_slot self.now.version self.now.bytes.now slot.now }
    {
        let number = u16_at(slot, NUMBER_AT);
        if number < 1 || number > self.inodes || self.kind(number) == FREE {
            return true;
        }
        let length = u8_at(slot, NAME_LENGTH_AT) as usize;
        length > self.version.layout().name_limit || !is_name(self.version, slot_name(slot))
    }

    // Returns whether the contents of a directory have an invalid slot.
    fn has_bad_slot(&self, content: &[u8]) -> bool
        ensures { result ≡ list_any (is_bad_slot self.now.version self.now.bytes.now) (slots_of self.now.version (length content.now / entry_length self.now.version) content.now) }
    {
        for i in 0..self.slot_count(content) {
            if self.is_bad_slot(self.slot(content, i)) {
                return true;
            }
        }
        false
    }

    // Returns whether the names of a directory ascend from slot to slot, as in images that this program writes.
    fn names_ascend(&self, content: &[u8]) -> bool
        requires { list_any (is_bad_slot self.now.version self.now.bytes.now) (slots_of self.now.version (length content.now / entry_length self.now.version) content.now) ≡ false }
        ensures { IsTrue result ↔ NamesAscend self.now.version (length content.now / entry_length self.now.version) content.now }
    {
        for i in 1..self.slot_count(content) {
            let before = slot_name(self.slot(content, i - 1));
            if !is_before(before, slot_name(self.slot(content, i))) {
                return false;
            }
        }
        true
    }

    // Returns the names in the slots of a directory.
    fn names<'b>(&self, alloc: Global, content: &'b [u8]) -> Result<Vec<&'b [u8]>, AllocError>
        requires { list_any (is_bad_slot self.now.version self.now.bytes.now) (slots_of self.now.version (length content.now / entry_length self.now.version) content.now) ≡ false }
        ensures { IfOk result (λ names. map (λ name. name.now) names.items ≡ map slot_name (slots_of self.now.version (length content.now / entry_length self.now.version) content.now)) }
    {
        let count = self.slot_count(content);
        let mut names = Vec::with_capacity(alloc, count)?;
        for i in 0..count {
            names.push(slot_name(self.slot(content, i)))?;
        }
        Ok(names)
    }

    // Returns the keys of the names in the slots of a directory.
    fn keys(&self, alloc: Global, content: &[u8]) -> Result<Vec<u64>, AllocError>
        requires { list_any (is_bad_slot self.now.version self.now.bytes.now) (slots_of self.now.version (length content.now / entry_length self.now.version) content.now) ≡ false }
        ensures { IfOk result (λ keys. keys.items ≡ map slot_key (slots_of self.now.version (length content.now / entry_length self.now.version) content.now)) }
    {
        let count = self.slot_count(content);
        let mut keys = Vec::with_capacity(alloc, count)?;
        for i in 0..count {
            keys.push(key_of(slot_name(self.slot(content, i))))?;
        }
        Ok(keys)
    }

    // Returns whether the contents of a directory have an invalid slot or a duplicate name. If the names ascend, or
    // their keys are distinct, they need not be sorted. Sorting keys is faster than sorting names.
    fn are_bad_slots(&self, alloc: Global, content: &[u8]) -> Result<bool, AllocError>
        ensures { IfOk result (λ bad. bad ≡ are_bad_slots self.now.version self.now.bytes.now (slots_of self.now.version (length content.now / entry_length self.now.version) content.now)) }
    {
        if self.has_bad_slot(content) {
            return Ok(true);
        }
        if self.names_ascend(content) {
            return Ok(false);
        }
        let mut keys = self.keys(alloc, content)?;
        if !are_keys_shared(keys.as_mut_slice()) {
            return Ok(false);
        }
        let mut names = self.names(alloc, content)?;
        Ok(appears_twice(names.as_mut_slice()))
    }

    // Returns whether the slots of a directory or the target of a symbolic link are invalid.
    fn has_bad_content(&self, alloc: Global, n: u16) -> Result<bool, AllocError>
        requires number { IsInodeNumber self.now.bytes.now n }
        requires inode { has_bad_inode self.now.version self.now.bytes.now n ≡ false }
        requires block { has_bad_block self.now.version self.now.bytes.now n ≡ false }
        ensures { IfOk result (λ bad. bad ≡ has_bad_content self.now.version self.now.bytes.now n) }
    {
        let kind = self.kind(n);
        if kind == DIRECTORY {
            let content = self.content(alloc, n)?;
            self.are_bad_slots(alloc, content.as_slice())
        } else if kind == LINK {
            let text = self.content(alloc, n)?;
            Ok(text.as_slice().contains(&0))
        } else {
            Ok(false)
        }
    }

    /// Returns the least inode with invalid contents: a directory with an invalid slot or a duplicate name, or a
    /// symbolic link whose target contains a zero byte.
    pub(crate) fn least_bad_content(&self, alloc: Global) -> Result<Option<u16>, AllocError>
        requires inodes { PassesNone self.now.bytes.now (has_bad_inode self.now.version self.now.bytes.now) }
        requires blocks { PassesNone self.now.bytes.now (has_bad_block self.now.version self.now.bytes.now) }
        ensures none { IfOk result (λ o. IfNone o (PassesNone self.now.bytes.now (has_bad_content self.now.version self.now.bytes.now))) }
        ensures least { IfOk result (λ o. IfSome o (PassesLeast self.now.bytes.now (has_bad_content self.now.version self.now.bytes.now))) }
    {
        for n in 1..self.inodes + 1 {
            if self.has_bad_content(alloc, n)? {
                return Ok(Some(n));
            }
        }
        Ok(None)
    }
}
