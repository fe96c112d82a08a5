//! Worked runs for the law of the part of a state on which a step depends, by computation.

ghost use Rattle.pv_laws_steps.specs.Examples.{SeenExamples};

/// A child's getpid leaves everything that its parent's step depends on unchanged, and that step is the same after it.
/// A child's lseek in a shared open file does not, and the parent's lseek returns a different offset after it.
pub fn seen_happens()
    ensures { SeenExamples }
{}
