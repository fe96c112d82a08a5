//! Laws of provenance: where the rights and the names after a step come from.

ghost use Rattle.pv_laws_access.specs.Origins.{NamesHaveOrigins, EachHasAnOrigin};

/// If a step gives an existing node a new name, its call walks to a place of the node that the table allows for `r` or
/// for `c`.
pub fn names_come_by_names()
    ensures { NamesHaveOrigins }
{}

/// Provenance: each process that is live after a step has its restraints and descriptors from a process that was live
/// before, itself or the one that made the step, and may do no more; or it has the restraints that an execve leaves.
/// Each new descriptor is justified.
pub fn each_has_an_origin()
    ensures { EachHasAnOrigin }
{}
