//! Laws of a file that no step of a search reads.

ghost use Rattle.pv_laws_answers.specs.Unread.{UnreadIsNotReported, UnreadFilesAreNotReported};

/// If a search is complete and no step from a visited state reads a file, the search from the state with other bytes of
/// equal length in the file has the same texts and witnesses.
pub fn unread_is_not_reported()
    ensures { UnreadIsNotReported }
{}

/// If a search is complete and no step from a visited state reads a file, each image that differs only in its bytes,
/// with equal length, boots and has the same texts and witnesses, unless `init` names the file.
pub fn unread_files_are_not_reported()
    ensures { UnreadFilesAreNotReported }
{}
