//! The law that a step does not depend on the inside of another process.

ghost use Rattle.pv_laws_steps.specs.Beside.{OthersDoNotMatter};

/// Noninterference: of another process, a step depends only on its directory, its descriptors and the nodes that its
/// table references. With other restraints, program, line, registers or buffer there, the outcome and the lines are the
/// same, and the next states differ only in these.
pub fn others_alter_nothing()
    ensures { OthersDoNotMatter }
{}
