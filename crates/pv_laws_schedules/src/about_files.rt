//! Laws of `exposure` about given files.

ghost use Rattle.pv_laws_schedules.specs.AboutFiles.{FindingsAreAboutFiles, NoFilesAskForAll};

/// Without given files, `exposure` writes the lines that the laws of its findings are about.
pub fn no_files_ask_for_all()
    ensures { NoFilesAskForAll }
{}

/// With given files, the findings of `exposure` are exactly those about the files of each state that had one of the given
/// paths in the first tree, or have it.
pub fn findings_are_about_files()
    ensures { FindingsAreAboutFiles }
{}
