//! The mutable state of the machine: the file tree, the open-file table and the process table, with reference counts.
//!
//! A contract sees `Parts` as a state of `pv_model`. Each method makes one state change of the definitions and leaves
//! no unreferenced open file or node behind. Only `Parts::new` allocates. The modules below `parts` are: `descriptors`
//! (descriptors and the open files they refer to), `files` (offsets and bytes of open files), `holding` (working
//! directories and unveil targets), `names` (link, unlink, rename and new nodes), `ending` (fork, wait, exit and
//! execve), and `process` (changes within one process: registers, buffer, promises and the lock).
#![tactic(auto)]

pub mod parts;

pub use parts::Parts;
pub use pv_files as files;
pub use pv_procs as procs;
pub use pv_procs::unveil::tree;
pub use pv_procs::{promises, script, unveil};
