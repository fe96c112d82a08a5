//! Laws of observations of the steps of a search: the texts of `explore`.

ghost use Rattle.pv_laws_answers.specs.Observed.{ExploreReportsObservations};

/// The texts that `explore` reports are observations: the lines of a step, each reported with its first step.
pub fn explore_reports_observations()
    ensures { ExploreReportsObservations }
{}
