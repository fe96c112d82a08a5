//! A worked run in which processes end.

ghost use Rattle.pv_laws_access.specs.EndExamples.{EndExamples};

/// After a child ends, its status is kept for its parent; after the parent ends too, neither record remains.
pub fn ends_happen()
    ensures { EndExamples }
{}
