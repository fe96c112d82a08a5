//! Storage for places behind links.

use pv_model::Place;

/// Storage for the places that the one or two walks of a call reach through links. The caller provides it.
///
/// A place contains a name. If a function kept this storage in its own frame, it would initialize it at each call, even
/// if no link is followed. Values left by an earlier call are never read.
#[derive(Drop)]
pub struct LinkRoom {
    /// The place of the only or first walk.
    pub(crate) first: Option<Place>,
    /// The place of the second walk.
    pub(crate) second: Option<Place>,
}

impl LinkRoom {
    /// Returns empty storage.
    pub fn new() -> LinkRoom {
        LinkRoom {
            first: None,
            second: None,
        }
    }
}
