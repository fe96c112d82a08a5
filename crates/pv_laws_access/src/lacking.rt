//! Laws of the limits of the steps of a process that is pledged without a promise, pledge(2).

ghost use Rattle.pv_laws_access.specs.Lacking.{BytesChangeByDescriptor, NoNodeIsMade, NoImageBegins, NoChildBegins, TablesStay, WalksNowhere, TouchesByDescriptor, MissingPromisesDecide, ErrorNeverKills, ErrorNarrowsPledge};

/// Without `wpath`, a step changes the bytes of a file that stays only by a descriptor of the call that is open for
/// writing.
pub fn without_wpath_bytes_change_by_descriptor()
    ensures { BytesChangeByDescriptor }
{}

/// Without `cpath`, a step creates no node.
pub fn without_cpath_no_node_is_made()
    ensures { NoNodeIsMade }
{}

/// Without `exec`, a step starts no new program image.
pub fn without_exec_no_image_begins()
    ensures { NoImageBegins }
{}

/// Without `proc`, a step creates no child: each process that is live after the step was live before.
pub fn without_proc_no_child_begins()
    ensures { NoChildBegins }
{}

/// Without `unveil`, the table and the lock stay, except that an execve may remove both.
pub fn without_unveil_tables_stay()
    ensures { TablesStay }
{}

/// With only `stdio`, a call whose needs the promises meet makes no walk.
pub fn with_stdio_walks_nowhere()
    ensures { WalksNowhere }
{}

/// With only `stdio`, each touch of a step reads a file, changes a file or reports a node by the descriptor of the
/// call; no entry changes, and no descriptor is gained.
pub fn with_stdio_touches_by_descriptor()
    ensures { TouchesByDescriptor }
{}

/// The first missing promise is named: it kills the process, or, under `error`, the call fails with ENOSYS. Nothing
/// else kills the process.
pub fn missing_promises_decide()
    ensures { MissingPromisesDecide }
{}

/// A step does not kill a process that has `error`.
pub fn error_spares()
    ensures { ErrorNeverKills }
{}

/// Under `error`, pledge never fails with EPERM.
pub fn error_narrows()
    ensures { ErrorNarrowsPledge }
{}
