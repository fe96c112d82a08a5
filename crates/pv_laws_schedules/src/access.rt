//! Laws of the accesses of a search, and of the files that no step reads.

ghost use Rattle.pv_laws_schedules.specs.Access.{AccessesAreJustified, EachAccessIsListed, ListedAccessesHappen, TouchesAreListed, UnreadFilesAreReadByNone, UnreadFilesChangeNothing};

/// Each listed access is one of the last step of its witness, and no shorter schedule has it. With given files, it is about
/// one of them.
pub fn listed_accesses_happen()
    ensures { ListedAccessesHappen }
{}

/// If a search is complete, each access of each step in each schedule is listed. With given files, so is each access to a
/// node with one of their paths, at that step or in the first tree, and each change of a name with such a path.
pub fn each_access_is_listed()
    ensures { EachAccessIsListed }
{}

/// If a search is complete, each touch of each step of a schedule is listed for its process: a read of a file with READ or
/// EXEC, a change of a file with WRIT, of an entry with NAME, a report of a node with TELL, a new descriptor with OPEN. With
/// given files, so is each touch of a node with one of their paths, at that step or in the first tree, and of a name with
/// such a path.
pub fn touches_are_listed()
    ensures { TouchesAreListed }
{}

/// No step from a visited state reads a file that is listed as unread.
pub fn unread_files_are_read_by_none()
    ensures { UnreadFilesAreReadByNone }
{}

/// If a search is complete, each image that differs only in the bytes of a file that is listed as unread, with equal
/// length, boots and has the same texts and witnesses.
pub fn unread_files_change_nothing()
    ensures { UnreadFilesChangeNothing }
{}

/// Each access of a step is justified as the touch that it can be: by the promises that its call needs, and by a descriptor, or
/// a place that the table allows.
pub fn accesses_are_justified()
    ensures { AccessesAreJustified }
{}
