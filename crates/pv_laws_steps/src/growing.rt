//! Laws of writes and truncations that keep the number of blocks of their file: write(2), ftruncate(2).

ghost use Rattle.pv_laws_steps.specs.Growing.{ContentsDoNotMatter, GrowingWritesCommute, CutsCommute};

/// Let a step neither read nor be able to change the bytes of a file, nor ask for its length. With another content of
/// the same number of blocks in the file, the step has the same outcome and the same lines, and the next states differ
/// in this content alone.
pub fn contents_alter_nothing()
    ensures { ContentsDoNotMatter }
{}

/// A write that does not kill its process and ends within the blocks of its file, which it may extend, commutes with
/// any step of another process that neither uses the same open file nor reads or may change the file's bytes nor asks
/// for its length.
pub fn growing_writes_commute()
    ensures { GrowingWritesCommute }
{}

/// An ftruncate that does not kill its process and keeps the number of blocks of its file commutes with any step of
/// another process that neither reads nor may change the file's bytes nor asks for its length.
pub fn cuts_commute()
    ensures { CutsCommute }
{}
