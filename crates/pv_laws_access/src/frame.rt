//! Laws of the open files after a step.

ghost use Rattle.pv_laws_access.specs.Frame.{OpenFilesHaveOrigins, OnlyOwnFilesAreRemoved, OthersKeepAll};

/// Each open file after a step is unchanged, or the call names it by a descriptor of the process and it has the same
/// node and mode, or an open created it under the least free number.
pub fn open_files_come_of()
    ensures { OpenFilesHaveOrigins }
{}

/// If a step removes an open file, no other live process has a descriptor for it.
pub fn only_own_files_go()
    ensures { OnlyOwnFilesAreRemoved }
{}

/// Noninterference in the state: a step that does not end its process leaves each other live process unchanged,
/// including its parent.
pub fn others_keep_all()
    ensures { OthersKeepAll }
{}
