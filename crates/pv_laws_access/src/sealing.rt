//! Laws of sealed and frozen files along runs: confidentiality and integrity.

ghost use Rattle.pv_laws_access.specs.Sealing.{SealedInvariant, FrozenInvariant, ClosedIsHeldOverExec, SealedStaysSealed, FrozenStaysFrozen};

/// Confidentiality, step by step: after a step of any process, a sealed file is still a sealed file.
pub fn sealed_stays()
    ensures { SealedInvariant }
{}

/// Integrity, step by step: after a step of any process, a frozen file is still frozen, with the same bytes.
pub fn frozen_stays()
    ensures { FrozenInvariant }
{}

/// A process that is closed to a file is pledged without `exec` or has execpromises. So the condition on execve in the
/// definition of frozen follows from sealed.
pub fn closed_is_held_over_exec()
    ensures { ClosedIsHeldOverExec }
{}

/// Confidentiality: a sealed file is sealed after every run, with steps of any processes. If its bytes are replaced by
/// others of equal length, the run has the same text, byte for byte, and its final state differs only in these bytes.
pub fn sealed_for_ever()
    ensures { SealedStaysSealed }
{}

/// Integrity: a frozen file is frozen after every run, with the same bytes.
pub fn frozen_for_ever()
    ensures { FrozenStaysFrozen }
{}
