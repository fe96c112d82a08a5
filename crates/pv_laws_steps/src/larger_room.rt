//! Laws of the room that nodes need in a larger image.

ghost use Rattle.pv_laws_steps.specs.Larger.{NeedsFiveTimes, LargerHasRoom};

/// In an image of version 2, a node needs at most five times the data blocks that it needs in an image of either version.
pub fn needs_five_times()
    ensures { NeedsFiveTimes }
{}

/// A tree that fits in an image fits in a larger one, and nodes that are not too long there are not too long in the
/// larger one.
pub fn larger_has_room()
    ensures { LargerHasRoom }
{}
