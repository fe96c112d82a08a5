//! Laws of complete mediation: the justification of each touch of a step.

ghost use Rattle.pv_laws_access.specs.Justice.{EntriesAreJustified, FilesAreJustified, ReportingIsJustified, GainsAreJustified, ReadsAreJustified, TouchesAreJustified};

/// If a step adds, removes or changes an entry, its call walks to a place at that entry that the table allows for `c`,
/// and the process has the promises that the call needs.
pub fn entries_are_justified()
    ensures { EntriesAreJustified }
{}

/// If a step changes the bytes of a file that stays, its call uses a descriptor on the file that is open for writing,
/// or is an open that truncates the file at a place that the table allows for the permissions of the open.
pub fn files_are_justified()
    ensures { FilesAreJustified }
{}

/// If a call reports a node, it uses a descriptor on the node (one that is open for reading if the call lists names),
/// or a place of the node that the table allows for `r`.
pub fn reporting_is_justified()
    ensures { ReportingIsJustified }
{}

/// If a process gains a descriptor on a node in a mode in which it had none there, the call is an open with that mode
/// at a place that the table allows for its permissions.
pub fn gains_are_justified()
    ensures { GainsAreJustified }
{}

/// If the outcome or the next state of a step depends on the bytes of a file, beyond their number, its call reads by a
/// descriptor on the file that is open for reading, or is an execve of the file at a place that the table allows for
/// `x`.
pub fn reads_are_justified()
    ensures { ReadsAreJustified }
{}

/// Complete mediation: in each valid state, each touch of each step is justified.
pub fn touches_are_justified()
    ensures { TouchesAreJustified }
{}
