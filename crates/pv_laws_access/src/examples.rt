//! A worked run with a touch of each kind.

ghost use Rattle.pv_laws_access.specs.Examples.{EachKindExamples};

/// The five steps of a worked run report a node, change an entry, gain a descriptor, read a file, and change a file.
pub fn each_sort_happens()
    ensures { EachKindExamples }
{}
