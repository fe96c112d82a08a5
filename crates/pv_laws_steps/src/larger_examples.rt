//! A worked run in a larger image.

ghost use Rattle.pv_laws_steps.specs.LargerExamples.{FiveIsLeast};

/// A run that fills its one data block with a directory of eight entries ends in the same way with five blocks of
/// version 2, and fails with ENOSPC with four: no factor below five holds for all runs.
pub fn five_is_least()
    ensures { FiveIsLeast }
{}
