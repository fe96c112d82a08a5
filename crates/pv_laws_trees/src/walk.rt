//! Laws of the walk along a path, symlink(7).

ghost use Rattle.pv_laws_trees.specs.Walk.{ResolvesAsWalked, WalksOnce, SlashesAreRoot, LeadsToPlace, WalksAreEqual};

/// `resolve` computes the result that the cases of the walk define.
pub fn resolves_as_walked()
    ensures { ResolvesAsWalked }
{}

/// The cases of the walk define at most one result.
pub fn walks_once()
    ensures { WalksOnce }
{}

/// A path that consists of slashes names the root.
pub fn slashes_are_root()
    ensures { SlashesAreRoot }
{}

/// A path without zero bytes resolves to a place in the tree: a directory, or a valid name in a directory that is not
/// removed, with the node that the name has there.
pub fn leads_to_place()
    ensures { LeadsToPlace }
{}

/// A walk reads the entries of directories, the kinds of nodes and the texts of links, and nothing else.
pub fn walks_alike()
    ensures { WalksAreEqual }
{}
