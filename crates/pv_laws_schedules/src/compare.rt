//! Laws of the comparison of two images.

ghost use Rattle.pv_laws_schedules.specs.Compare.{ImageEqualsItself, DifferencesAreShortest, EqualImagesRunEqually};

/// An image never differs from itself.
pub fn itself_is_alike()
    ensures { ImageEqualsItself }
{}

/// If a comparison finds a difference, its schedule leads to a step that differs, and no shorter schedule does.
pub fn differences_are_shortest()
    ensures { DifferencesAreShortest }
{}

/// If a comparison is complete and finds no difference, every schedule has the same trace in both, without the steps at
/// calls of pledge and unveil, and leaves the same processes live.
pub fn alike_runs_alike()
    ensures { EqualImagesRunEqually }
{}
