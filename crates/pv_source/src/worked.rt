//! Worked examples: the values of the definitions of warnings and of the lines of programs on small sources.
ghost use Rattle.pv_source.specs.Worked.{AllSourcesWorked};

/// Every worked example holds: the definitions compute exactly the lines that `specs/Worked.antt` states.
pub fn worked_sources_are_as_they_are_written()
    ensures { AllSourcesWorked }
{}
