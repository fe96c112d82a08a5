//! Laws of references, and of the collection of unreferenced nodes and open files.

ghost use Rattle.pv_laws_states.specs.Held.{KeepsAllNamed, KeepsExactlyWanted, CollectionIsIdempotent, StaysWellFormed};

/// If every node other than the root has a name, collecting nodes leaves the state unchanged.
pub fn named_stay()
    ensures { KeepsAllNamed }
{}

/// Collection keeps exactly the open files that a live process uses and the nodes that are named, referenced, or the
/// root.
pub fn collect_keeps_exactly()
    ensures { KeepsExactlyWanted }
{}

/// Collection is idempotent on a state with a well-formed tree.
pub fn collects_once()
    ensures { CollectionIsIdempotent }
{}

/// Collection keeps a well-formed tree well-formed.
pub fn collect_stays_well_formed()
    ensures { StaysWellFormed }
{}
