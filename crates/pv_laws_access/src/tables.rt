//! Laws of the decision of a table about a place, unveil(2).

ghost use Rattle.pv_laws_access.specs.Tables.{JudgementComputesRelation};

/// A place is allowed if there is no table or if the entry that governs it has the permissions, denied if the entry
/// that governs it lacks one, and hidden if no entry governs it. Exactly one of these applies.
pub fn judgement_is_as_said()
    ensures { JudgementComputesRelation }
{}
