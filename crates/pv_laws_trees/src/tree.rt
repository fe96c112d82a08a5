//! Laws of trees.

ghost use Rattle.pv_laws_trees.specs.Tree.{SoundIsWellFormed, ParentHasEntry, NamesTie, ParentsLeadToRoot, NoDirectoryAboveItself, AncestorsAreAbove, StaysWithContent, StaysWithNewNode, StaysWithEntry, StaysWithoutEntry, StaysRenamed};

/// A tree is well-formed if and only if it satisfies the conditions on its individual entries.
pub fn well_formed_by_entries()
    ensures { SoundIsWellFormed }
{}

/// The parent of a directory other than the root is the directory that has an entry for it.
pub fn parent_has_entry()
    ensures { ParentHasEntry }
{}

/// The order of names treats two names as equal if and only if their bytes are equal.
pub fn names_tie()
    ensures { NamesTie }
{}

/// The root is among the ancestors of each directory that is not removed.
pub fn parents_lead_to_root()
    ensures { ParentsLeadToRoot }
{}

/// No directory is its own ancestor.
pub fn none_above_itself()
    ensures { NoDirectoryAboveItself }
{}

/// The nodes found by climbing from a node are exactly the node itself, its parent, the parent's parent, and so on.
pub fn ancestors_are_above()
    ensures { AncestorsAreAbove }
{}

/// A well-formed tree stays well-formed when the bytes of a file change.
pub fn stays_with_content()
    ensures { StaysWithContent }
{}

/// A well-formed tree stays well-formed when a new node without entries gets the least free number and a new name in a
/// directory that is not removed.
pub fn stays_with_new_node()
    ensures { StaysWithNewNode }
{}

/// A well-formed tree stays well-formed when a node that is not a directory gets one more name.
pub fn stays_with_entry()
    ensures { StaysWithEntry }
{}

/// A well-formed tree stays well-formed when an entry is removed whose node has no entries.
pub fn stays_without_entry()
    ensures { StaysWithoutEntry }
{}

/// A well-formed tree stays well-formed when a node is renamed under the conditions that rename(2) checks.
pub fn stays_renamed()
    ensures { StaysRenamed }
{}
