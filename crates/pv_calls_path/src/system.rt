//! The context of the calls that walk.

use crate::links::LinkRoom;
use pv_calls_plain::calls_state::Parts;
use pv_namei::Lookup;

/// The state of the machine and the context that walks need.
#[derive(Drop)]
pub struct System<L: Lookup + Drop> {
    /// The tree, the open files and the processes.
    pub parts: Parts,
    /// A name lookup that agrees with the tree.
    pub lookup: L,
    /// Storage for places behind links.
    pub links: LinkRoom,
}
