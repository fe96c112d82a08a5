//! Worked examples: the values of the definitions of the answers on small bundles.
ghost use Rattle.pv_needs.specs.Worked.{AllNeedsWorked};

/// Every worked example holds: the definitions compute exactly the texts that `specs/Worked.antt` states.
pub fn worked_runs_are_as_they_are_written()
    ensures { AllNeedsWorked }
{}
