//! Laws of the reasons why a process is not closed to a file.

ghost use Rattle.pv_laws_schedules.specs.LeastReasons.{LeaksAreLeastReasons};

/// `audit --reasons` writes a reason for a process and a file if and only if the reason holds and no reason of its kind has
/// a lesser descriptor or entry.
pub fn leaks_are_least_reasons()
    ensures { LeaksAreLeastReasons }
{}
