//! Worked runs with a table that grants nothing, a rename and a link that bring a permission, and the order of names.

ghost use Rattle.pv_laws_access.specs.NameExamples.{MoveExamples};
ghost use Rattle.pv_laws_access.specs.OrderExamples.{NamesAreReported};

/// In three worked runs, a locked table grants nothing at a file, a rename moves a file to a place where it may be
/// read, and a link gives a file a name where it may be written.
pub fn moves_happen()
    ensures { MoveExamples }
{}

/// In a directory where `b` was created before `a`, getdents returns `a`, then `b`, then nothing. A listing of the tree
/// contains the directory `d`, these two names, and then the file `d.x`.
pub fn names_are_reported()
    ensures { NamesAreReported }
{}
