//! Laws of the room that nodes need.

ghost use Rattle.pv_laws_trees.specs.Room.{NeedGrows, SmallerFits, SmallerIsNotTooLong};

/// A longer content does not need fewer blocks.
pub fn need_grows()
    ensures { NeedGrows }
{}

/// A tree that fits still fits if nodes are removed or become shorter.
pub fn smaller_fits()
    ensures { SmallerFits }
{}

/// If no node of a tree is too long, none is after nodes are removed or become shorter.
pub fn smaller_is_not_too_long()
    ensures { SmallerIsNotTooLong }
{}
