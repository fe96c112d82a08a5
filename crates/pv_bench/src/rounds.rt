//! Rounds of reads and writes of a file: chunks of one length from its start to its end, then again from its start.
ghost use Rattle.std.specs.Prelude.{◌≡◌, ◌+◌, ◌*◌, ◌/◌, ◌%◌, ◌<◌, ◌≤◌, length};

use crate::long_file::LongFile;
use pv_inodes::Space;

/// The bytes that a round moved between a buffer and a file.
#[derive(Clone, Copy, Debug, PartialEq, Eq)]
pub struct Moved {
    /// The number of bytes.
    pub bytes: u64,
    /// The sum of the first bytes of the chunks.
    pub sum: u64,
}

impl Moved {
    const NOTHING: Moved = Moved { bytes: 0, sum: 0 };

    // Adds a chunk.
    fn with(self, bytes: usize, first: u8) -> Moved {
        Moved {
            bytes: self.bytes.wrapping_add(bytes as u64),
            sum: self.sum.wrapping_add(u64::from(first)),
        }
    }
}

/// Returns the offset of the chunk with this number, counted from 0, in a file of this length. Chunks are consecutive,
/// and after the last one that fits in the file, the next is at its start.
fn place(number: u32, size: u32, file_length: u32) -> u32
    requires some { 0 < size }
    requires fits { size ≤ file_length }
    ensures place { result ≡ number % (file_length / size) * size }
    ensures within { result + size ≤ file_length }
{
    let chunks = file_length / size;
    number % chunks * size
}

/// Fills a buffer with consecutive numbers modulo 251.
pub fn fill(buffer: &mut [u8])
    ensures { length buffer.new ≡ length buffer.old }
{
    for (index, byte) in buffer.iter_mut().enumerate() {
        *byte = (index % 251) as u8;
    }
}

/// Writes the buffer to `count` chunks of the file. The first byte of each is the number of the chunk modulo 256.
///
/// # Errors
///
/// Returns the reason if a chunk does not fit.
pub fn write_round(file: &mut LongFile, buffer: &mut [u8], count: u32) -> Result<Moved, Space>
    requires some { 0 < length buffer.old }
    requires fits { length buffer.old ≤ file.old.length }
    ensures buffer { length buffer.new ≡ length buffer.old }
    ensures file { file.new.length ≡ file.old.length }
{
    let size = buffer.len() as u32;
    let file_length = file.length();
    let mut moved = Moved::NOTHING;
    for number in 0..count {
        let first = (number % 256) as u8;
        buffer[0] = first;
        file.write(place(number, size, file_length), buffer)?;
        moved = moved.with(buffer.len(), first);
    }
    Ok(moved)
}

/// Reads `count` chunks of the file into the buffer.
pub fn read_round(file: &LongFile, buffer: &mut [u8], count: u32) -> Moved
    requires some { 0 < length buffer.old }
    requires fits { length buffer.old ≤ file.now.length }
    ensures { length buffer.new ≡ length buffer.old }
{
    let size = buffer.len() as u32;
    let file_length = file.length();
    let mut moved = Moved::NOTHING;
    for number in 0..count {
        let bytes = file.read(place(number, size, file_length), buffer);
        moved = moved.with(bytes, buffer[0]);
    }
    moved
}

/// Returns the sum of the bytes modulo 2 to the 64th.
pub fn sum_of(bytes: &[u8]) -> u64 {
    let mut sum = 0_u64;
    for &byte in bytes {
        sum = sum.wrapping_add(u64::from(byte));
    }
    sum
}
