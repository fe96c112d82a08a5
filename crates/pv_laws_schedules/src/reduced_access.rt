//! Laws of the accesses of the reduced search, and of the files that no step reads. That search alone is complete.

ghost use Rattle.pv_laws_schedules.specs.ReducedAccess.{TouchesAreListedReduced, UnreadFilesAreReadByNoneReduced, UnreadFilesChangeNothingReduced};

/// If the reduced search is complete, it lists each touch of each step of a live process in each schedule, as the full
/// search does: with given files, each touch of a node with one of their paths, at that step or in the first tree, and of
/// a name with such a path.
pub fn touches_are_listed_reduced()
    ensures { TouchesAreListedReduced }
{}

/// If the reduced search is complete, no step of a live process in any schedule reads a file that it lists as unread.
pub fn unread_files_are_read_by_none_reduced()
    ensures { UnreadFilesAreReadByNoneReduced }
{}

/// If the reduced search is complete and lists a file as unread, each schedule of live processes has the same text with
/// other bytes of equal length in this file, and the final states differ only in these bytes.
pub fn unread_files_change_nothing_reduced()
    ensures { UnreadFilesChangeNothingReduced }
{}
