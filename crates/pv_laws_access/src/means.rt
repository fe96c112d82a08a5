//! Laws of the possible changes and gains of the steps of a pledged process, pledge(2).

ghost use Rattle.pv_laws_access.specs.Means.{WithoutCpath, WithoutWpath, WithoutRpath};

/// A step of a process that is pledged without `cpath` adds, removes and changes no directory entry.
pub fn without_cpath_no_entry_changes()
    ensures { WithoutCpath }
{}

/// A process that is pledged without `wpath` gains no descriptor for writing in its own step.
pub fn without_wpath_none_for_writing()
    ensures { WithoutWpath }
{}

/// A process that is pledged without `rpath` gains no descriptor for reading in its own step.
pub fn without_rpath_none_for_reading()
    ensures { WithoutRpath }
{}
