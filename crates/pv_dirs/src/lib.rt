//! The directory layer: inode contents as slots, and slots as entries.
//!
//! A directory consists of slots of 64 bytes, or of 260 in version 2, each with a name and an inode number; a slot of
//! 260 bytes can cross a block boundary. Contracts see the specification's `Tree`: a directory is a list of entries
//! sorted by name, and a file or symbolic link is its bytes. Slots, their order, and the index from names to slots
//! appear only in the invariant. `slot` encodes a slot, and `dir` reads a directory as slots. `search` finds a name,
//! and `next_names` finds the name that follows another, with `best` as the state of a scan. `index` is a hash table of
//! entries, `indexing` fills it, and `sorting` sorts slots by name. `directories` defines `Directories`, and `law`
//! states that slots encode their entries.
#![tactic(auto)]

mod best;
mod dir;
mod directories;
mod index;
mod indexing;
pub mod law;
mod next_names;
mod search;
mod slot;
mod sorting;

pub use directories::Directories;
pub use pv_inodes as inodes;
