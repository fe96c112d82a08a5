//! The law that calls on descriptors do not depend on the unveil table, unveil(2).

ghost use Rattle.pv_laws_steps.specs.Tableless.{DescriptorCallsIgnoreTable};

/// If the permissions in the caller's table and its lock are replaced, with the same targets, a call on descriptors has
/// the same outcome and the same lines, and the next state differs only in these permissions and this lock.
pub fn descriptors_ask_no_table()
    ensures { DescriptorCallsIgnoreTable }
{}
