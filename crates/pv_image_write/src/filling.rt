//! Appending bytes, zeros and numbers to a vector with sufficient capacity.
ghost use Rattle.std.specs.Prelude.{◌≡◌, ◌+◌, ◌*◌, ◌^◌, ◌<◌, ◌≤◌, ◌++◌, vec_capacity, vec_len, length, replicate};
ghost use Rattle.std.specs.List.{range_with_len};
ghost use Rattle.pv_model.specs.Machine.{little_endian};
ghost use Rattle.pv_image_write.specs.Encoding.{padded, encoded_numbers};

use byteorder::{ByteOrder, LittleEndian};

/// Appends bytes.
pub(crate) fn put(bytes: &mut Vec<u8>, more: &[u8])
    requires { vec_len bytes.old + length more.now ≤ vec_capacity bytes.old }
    ensures items { bytes.new.items ≡ bytes.old.items ++ more.now }
    ensures len { vec_len bytes.new ≡ vec_len bytes.old + length more.now }
    ensures capacity { vec_capacity bytes.old ≤ vec_capacity bytes.new }
{
    let Ok(()) = bytes.extend_from_slice(more) else {
        unreachable!()
    };
}

/// Appends `count` zeros.
pub(crate) fn put_zeros(bytes: &mut Vec<u8>, count: usize)
    requires { vec_len bytes.old + count ≤ vec_capacity bytes.old }
    ensures items { bytes.new.items ≡ bytes.old.items ++ replicate count 0 }
    ensures len { vec_len bytes.new ≡ vec_len bytes.old + count }
    ensures capacity { vec_capacity bytes.old ≤ vec_capacity bytes.new }
{
    let Ok(()) = bytes.resize(bytes.len() + count, 0) else {
        unreachable!()
    };
}

/// Appends zeros up to a length.
#[tactic(auto, unfolding(crate::specs::Encoding::padded))]
pub(crate) fn fill(bytes: &mut Vec<u8>, length: usize)
    requires within { vec_len bytes.old ≤ length }
    requires room { length ≤ vec_capacity bytes.old }
    ensures items { bytes.new.items ≡ padded length bytes.old.items }
    ensures len { vec_len bytes.new ≡ length }
    ensures capacity { vec_capacity bytes.old ≤ vec_capacity bytes.new }
{
    put_zeros(bytes, length - bytes.len());
}

/// Appends a number as two bytes in little-endian order.
pub(crate) fn put_u16(bytes: &mut Vec<u8>, number: u16)
    requires { vec_len bytes.old + 2 ≤ vec_capacity bytes.old }
    ensures items { bytes.new.items ≡ bytes.old.items ++ little_endian 2 number }
    ensures len { vec_len bytes.new ≡ vec_len bytes.old + 2 }
    ensures capacity { vec_capacity bytes.old ≤ vec_capacity bytes.new }
{
    let mut encoded = [0; 2];
    LittleEndian::write_u16(&mut encoded, number);
    put(bytes, &encoded);
}

/// Appends a number as four bytes in little-endian order.
pub(crate) fn put_u32(bytes: &mut Vec<u8>, number: u32)
    requires { vec_len bytes.old + 4 ≤ vec_capacity bytes.old }
    ensures items { bytes.new.items ≡ bytes.old.items ++ little_endian 4 number }
    ensures len { vec_len bytes.new ≡ vec_len bytes.old + 4 }
    ensures capacity { vec_capacity bytes.old ≤ vec_capacity bytes.new }
{
    let mut encoded = [0; 4];
    LittleEndian::write_u32(&mut encoded, number);
    put(bytes, &encoded);
}

/// Appends the numbers of `count` consecutive blocks, two bytes each, and pads them with zeros to `length` bytes.
#[tactic(auto, unfolding(crate::specs::Encoding::padded, crate::specs::Encoding::encoded_numbers))]
pub(crate) fn put_pointers(bytes: &mut Vec<u8>, first: u16, count: u16, length: usize)
    requires pointers { first + count < 2 ^ 16 }
    requires fit { 2 * count ≤ length }
    requires room { vec_len bytes.old + length ≤ vec_capacity bytes.old }
    ensures items { bytes.new.items ≡ bytes.old.items ++ padded length (encoded_numbers (range_with_len first count)) }
    ensures len { vec_len bytes.new ≡ vec_len bytes.old + length }
    ensures capacity { vec_capacity bytes.old ≤ vec_capacity bytes.new }
{
    for block in first..first + count {
        put_u16(bytes, block);
    }
    put_zeros(bytes, length - 2 * count as usize);
}
