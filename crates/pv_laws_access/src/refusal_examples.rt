//! Worked runs with refusals of each kind.

ghost use Rattle.pv_laws_access.specs.RefusalExamples.{RefusalExamples};

/// In two worked runs, calls are refused because no entry governs the place, an entry lacks a permission, an entry
/// would gain one, the table is locked, or a promise is missing or not held; one call kills its process.
pub fn refusals_happen()
    ensures { RefusalExamples }
{}
