//! Laws of steps and runs in a larger image.

ghost use Rattle.pv_laws_steps.specs.Larger.{LargerKeepsSteps, LargerKeepsRuns, LargerKeepsTraces, LargerStarts};

/// A step that does not fail with ENAMETOOLONG, EFBIG or ENOSPC has the same outcome and the same lines in a larger
/// image, and the next states differ only in the sizes of the image.
pub fn larger_keeps_steps()
    ensures { LargerKeepsSteps }
{}

/// A run without ENAMETOOLONG, EFBIG or ENOSPC has the same lines in a larger image, and the final states differ only
/// in the sizes of the image.
pub fn larger_keeps_runs()
    ensures { LargerKeepsRuns }
{}

/// A run without ENAMETOOLONG, EFBIG or ENOSPC has the same text in a larger image, byte for byte, and leaves equal
/// nodes under the same numbers.
pub fn larger_keeps_traces()
    ensures { LargerKeepsTraces }
{}

/// If the machine starts on a tree, it starts on the same nodes in a larger image, in a state that differs only in the
/// sizes of the image.
pub fn larger_starts()
    ensures { LargerStarts }
{}
