//! Laws of the results of an audit.

ghost use Rattle.pv_laws_access.specs.Reasons.{LeaksNothingIfClosed, FrozenToIsTested, FirstLeakIsFirstReason, FirstLeakIsOfFirstProcess, VerdictsAreExact};

/// The list of leaks of a process and a file is empty if and only if the process is closed to the file by the
/// conditions of `IsClosed`.
pub fn leaks_nothing_where_closed()
    ensures { LeaksNothingIfClosed }
{}

/// The test for a frozen file succeeds for a process if and only if `IsFrozenTo` holds.
pub fn frozen_to_is_tested()
    ensures { FrozenToIsTested }
{}

/// The first leak is the first reason why the process is not closed, in the order: a descriptor, no table, no lock, an
/// entry for a name, an entry above, exec. Among descriptors and among entries, the least comes first.
pub fn first_leak_is_first_reason()
    ensures { FirstLeakIsFirstReason }
{}

/// The leak that an audit reports for a file is the first reason of the live process with the least number that is not
/// closed to the file.
pub fn first_leak_is_of_first_process()
    ensures { FirstLeakIsOfFirstProcess }
{}

/// An audit reports `Sealed` or `Frozen` if and only if the file has that property and a name; otherwise it reports the
/// first process that is not closed, with its first reason.
pub fn verdicts_are_exact()
    ensures { VerdictsAreExact }
{}
