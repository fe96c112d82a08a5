//! Laws of the collection of unreferenced nodes.

ghost use Rattle.pv_laws_trees.specs.Preserved.{ReleasesOneByOne};

/// Collecting the nodes outside a smaller set of references gives the same tree whether or not those outside a larger
/// set were collected first, so references can be released one at a time.
pub fn lets_go_in_turn()
    ensures { ReleasesOneByOne }
{}
