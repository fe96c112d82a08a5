//! A law about slots.
ghost use Rattle.pv_dirs.specs.Stored.{EntriesAreEncoded, EncodedAreEntries};

/// The contents of a directory encode exactly the entries in its slots, as the image format defines it. A slot is an
/// inode number of two bytes, the length of the name, a byte that is ignored, the name, and unused space.
pub fn slots_encode_entries()
    ensures entries { EntriesAreEncoded }
    ensures encoded { EncodedAreEntries }
{}
