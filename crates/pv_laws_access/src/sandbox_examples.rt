//! A worked run with a confined child.

ghost use Rattle.pv_laws_access.specs.SandboxExamples.{DescentExamples};

/// After three steps of a worked run, a process is confined to its table; the fourth step creates its child.
pub fn descent_happens()
    ensures { DescentExamples }
{}
