//! The encoding of a slot.
ghost use Rattle.std.specs.Prelude.{◌≡◌, ◌≤◌, length, drop, slice_index};
ghost use Rattle.pv_model.specs.declared.limits.TheConstants.{NAME_V2};
ghost use Rattle.pv_model.specs.Machine.{entry_length, greatest_name};
ghost use Rattle.pv_dirs.specs.Slots.{name_in_slot, inode_in_slot};

use byteorder::{ByteOrder, LittleEndian};
use pv_model::Version;
use pv_model::format::{NAME_AT, NAME_LENGTH_AT, SLOT_V2};
use std::marker::Model;

/// The length of the longest slot, that of version 2.
pub(crate) const LONGEST: usize = SLOT_V2;

/// An entry of a directory as it is stored: the inode number in 2 bytes, the length of the name in one byte, a byte
/// that is ignored, and the name. Contracts see the bytes of the slot.
#[derive(Drop)]
pub(crate) struct Slot {
    // The bytes of the slot, followed by bytes that are not read.
    pub(crate) bytes: [u8; LONGEST],
    // The length of the slot.
    pub(crate) length: usize,
}

impl Model for Slot {
    ghost use Rattle.std.specs.Prelude.{◌≤◌, take};
    ghost use Rattle.pv_model.specs.Bytes.{Bytes};

    ghost Value = { Bytes };

    ghost view = { λ s. take s.length s.bytes };

    ghost invariant = { λ s. (4 ≤ s.length) × (s.length ≤ 260) };
}

/// Returns the space for the name in a slot, including its unused part.
#[inline]
pub(crate) fn room_in(slot: &[u8]) -> &[u8]
    requires { 4 ≤ length slot.now }
    ensures { result.now ≡ drop 4 slot.now }
{
    &slot[NAME_AT..]
}

/// Returns the name in a slot.
#[inline]
#[tactic(auto, unfolding(crate::specs::Slots::name_in_slot))]
pub(crate) fn name_in(slot: &[u8]) -> &[u8]
    requires { 4 ≤ length slot.now }
    ensures value { result.now ≡ name_in_slot slot.now }
    ensures short { length result.now ≤ NAME_V2 }
{
    let end = (NAME_AT + slot[NAME_LENGTH_AT] as usize).min(slot.len());
    &slot[NAME_AT..end]
}

// Returns the encoding of an entry, padded with zeros.
#[tactic(auto, unfolding(crate::specs::Slots::name_in_slot, crate::specs::Slots::inode_in_slot))]
fn encoded(name: &[u8], inode: u16) -> [u8; LONGEST]
    requires { length name.now ≤ NAME_V2 }
    ensures name { name_in_slot result ≡ name.now }
    ensures number { inode_in_slot result ≡ inode }
    ensures measured { slice_index result 2 ≡ length name.now }
    ensures whole { length result ≡ 260 }
{
    let mut bytes = [0; LONGEST];
    LittleEndian::write_u16(&mut bytes, inode);
    bytes[NAME_LENGTH_AT] = name.len() as u8;
    bytes[NAME_AT..NAME_AT + name.len()].copy_from_slice(name);
    bytes
}

impl Slot {
    /// Creates the slot of an entry. The space that the name does not use is zero.
    pub(crate) fn new(version: Version, name: &[u8], inode: u16) -> Slot
        requires { length name.now ≤ greatest_name version }
        ensures name { name_in_slot result ≡ name.now }
        ensures number { inode_in_slot result ≡ inode }
        ensures measured { slice_index result 2 ≡ length name.now }
        ensures whole { length result ≡ entry_length version }
    {
        Slot {
            bytes: encoded(name, inode),
            length: version.layout().slot_length,
        }
    }

    /// Returns the bytes of the slot.
    pub(crate) fn as_bytes(&self) -> &[u8]
        ensures value { result.now ≡ self.now }
        ensures long { 4 ≤ length result.now }
    {
        &self.bytes[..self.length]
    }

    /// Returns the name of the entry.
    #[tactic(auto, unfolding(crate::specs::Slots::name_in_slot))]
    pub(crate) fn name(&self) -> &[u8]
        ensures value { result.now ≡ name_in_slot self.now }
        ensures short { length result.now ≤ NAME_V2 }
    {
        name_in(self.as_bytes())
    }
}
