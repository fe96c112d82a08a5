//! Worked runs of three answers by the reduced search.

ghost use Rattle.pv_laws_schedules.specs.ReducedRuns.{ReducedTexts};

/// The texts of `access`, `policy` and `exposure` of a state from which the reduced search visits 16 of 20 states.
pub fn reduced_texts_happen()
    ensures { ReducedTexts }
{}
