//! The law of writes within a file, write(2).

ghost use Rattle.pv_laws_steps.specs.Writes.{WritesCommute};

/// A write that does not kill its process and ends within its file commutes with any step of another process that
/// neither uses the same open file nor reads or may change the file's bytes.
pub fn writes_commute()
    ensures { WritesCommute }
{}
