//! Laws of the levels of a decision, unveil(2).

ghost use Rattle.pv_laws_answers.specs.Levels.{LevelsAreTheDerivation, LevelsLeadToTheGovernor, LevelsAreClimbed};

/// If an entry governs a place, the levels of the place are the steps of the derivation that it governs.
pub fn levels_are_the_derivation()
    ensures { LevelsAreTheDerivation }
{}

/// The last level has the entry that governs the place, and no level before it has an entry. If no entry governs the
/// place, no level has an entry.
pub fn levels_lead_to_the_governor()
    ensures { LevelsLeadToTheGovernor }
{}

/// The levels go up from the place, each to the directory above, to the first that has an entry, the root, or a removed
/// directory.
pub fn levels_go_up()
    ensures { LevelsAreClimbed }
{}
