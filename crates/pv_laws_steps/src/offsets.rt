//! Laws of the offsets of open files: read(2), lseek(2), getdents(2).

ghost use Rattle.pv_laws_steps.specs.Offsets.{OffsetsDoNotMatter, OffsetStepsCommute};

/// Let a step not read, write, seek or list through an open file. With another offset, last name or append flag in it,
/// the step has the same outcome and the same lines, and the next states differ in these alone.
pub fn offsets_alter_nothing()
    ensures { OffsetsDoNotMatter }
{}

/// A read, lseek or getdents that does not kill its process commutes with any step of another process that neither uses
/// the same open file nor changes its node.
pub fn offset_steps_commute()
    ensures { OffsetStepsCommute }
{}
