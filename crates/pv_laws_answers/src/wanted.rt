//! Laws of the lines PLDG and UNVL of a step, which report on the needs of its call.

ghost use Rattle.pv_laws_answers.specs.Wanted.{NeedIsReported, RefusalIsReported};

/// A step has no PLDG line `killed` or `refused` if and only if its process is not pledged or its promises meet all
/// needs of the call.
pub fn need_is_reported()
    ensures { NeedIsReported }
{}

/// A walk that is checked and ends at a place has no UNVL line if and only if no table is in force or the entry that
/// governs the place has the permissions that the call needs.
pub fn refusal_is_reported()
    ensures { RefusalIsReported }
{}
