//! The law of calls that change directory entries: mkdir(2), symlink(2), link(2), unlink(2), rmdir(2), rename(2).

ghost use Rattle.pv_laws_steps.specs.Entries.{EntriesCommute};

/// A call that changes entries commutes with a call of another process by a descriptor that does not kill, if the
/// latter is a write or an ftruncate that keeps the number of blocks of its file, or a read, lseek, fstat or getdents
/// whose node the former leaves unchanged.
pub fn entries_commute()
    ensures { EntriesCommute }
{}
