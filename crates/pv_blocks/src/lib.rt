//! A block allocator: blocks of 512 bytes in one `Vec<u8>`, each free or in use.
//!
//! `Blocks` allocates and frees blocks by number, and reads and writes them. Contracts see a `BlockStore`: the list of
//! blocks, a flag for each free block, and the first block that can be free. `block_set` defines `BlockSet`, a set of
//! block numbers of fixed size, and `blocks` defines `Blocks`.
#![tactic(auto)]

pub mod block_set;
pub mod blocks;

pub use block_set::BlockSet;
pub use blocks::Blocks;
