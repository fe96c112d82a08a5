//! Laws of steps that change the references of their own process: close(2), dup(2), dup2(2), chdir(2), fchdir(2),
//! unveil(2), execve(2).

ghost use Rattle.pv_laws_steps.specs.Holding.{DescriptorStepsLeave, DescriptorStepsCommute, DirectoryStepsCommute, UnveilsLeave, UnveilsCommute, ExecvesCommute};

/// A close, dup or dup2 that does not kill its process removes no open file if the open file of the descriptor that it
/// closes has another descriptor, in any process.
pub fn descriptor_steps_leave()
    ensures { DescriptorStepsLeave }
{}

/// A close, dup or dup2 that does not kill its process and removes no open file commutes with any step of another
/// process.
pub fn descriptor_steps_commute()
    ensures { DescriptorStepsCommute }
{}

/// A chdir or fchdir that does not kill its process and frees no node commutes with any step of another process that
/// leaves its destination unchanged.
pub fn directory_steps_commute()
    ensures { DirectoryStepsCommute }
{}

/// An unveil of a path with permissions that does not kill its process frees no node, because it only adds a reference.
pub fn unveils_leave()
    ensures { UnveilsLeave }
{}

/// An unveil of a path with permissions that does not kill its process commutes with any step of another process that
/// leaves the tree unchanged.
pub fn unveils_commute()
    ensures { UnveilsCommute }
{}

/// An execve that does not kill its process, frees no node and removes no open file commutes with any step of another
/// process that leaves the tree unchanged.
pub fn execves_commute()
    ensures { ExecvesCommute }
{}
