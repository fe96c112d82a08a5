//! Open files, and the descriptors through which a process uses them: open(2), dup(2), close(2).
//!
//! `OpenFiles` has a slab of 128 records of open files, each with the number of descriptors that use it, and a fixed
//! array of the slab keys. It allocates the least free number. `Descriptors` has the 16 descriptors of a process. Only
//! `OpenFiles::new` allocates memory: it creates all records, and none is removed. Contracts see open files as the
//! record `Counted` of `specs/Counted.antt`: the specification's map of open files, and the number of users of each.
//! They see descriptors as the specification's map. `open_files` and `descriptors` define the two tables, `opened` one
//! open file, `last_name` the last name listed through it, and `slots` finds the least free number. open and close
//! write single fields of a record, because a write of the name would cost more.
#![tactic(auto)]

pub mod descriptors;
mod last_name;
pub mod open_files;
mod opened;
mod slots;

pub use descriptors::Descriptors;
pub use open_files::OpenFiles;
