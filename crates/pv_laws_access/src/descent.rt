//! Laws of confinement: the restraints that descendants inherit.

ghost use Rattle.pv_laws_access.specs.Descent.{DescendantsAreHeld};

/// Confinement: if the table of a process is locked, and the process is pledged without `exec` or has execpromises,
/// every descendant has the same table and lock, and execpromises with no additional keyword, after any forks and
/// execves and any steps of other processes.
pub fn descendants_are_held()
    ensures { DescendantsAreHeld }
{}
