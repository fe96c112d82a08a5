//! The rest of a path during a walk.
ghost use Rattle.std.specs.Prelude.{◌≡◌, ◌∷◌, [], MatchOption};
ghost use Rattle.pv_model.specs.Machine.{is_empty, components};

use crate::component::{has_no_component, split_first};
use std::marker::Model;

/// The rest of a path, borrowed from the path. Contracts see the list of its components.
#[derive(Drop)]
pub(crate) struct Along<'a> {
    // The bytes of the path after the last component that was taken.
    bytes: &'a [u8],
}

impl<'a> Model for Along<'a> {
    ghost use Rattle.std.specs.Prelude.{List, ℕ};
    ghost use Rattle.pv_model.specs.Walk.{components};

    ghost Value = { List (List ℕ) };

    ghost view = { λ a. components a.bytes.now };
}

impl<'a> Along<'a> {
    /// Creates the rest that is the whole path.
    pub(crate) fn new(path: &'a [u8]) -> Along<'a>
        ensures { result ≡ components path.now }
    {
        Along { bytes: path }
    }

    /// Returns the remaining bytes.
    pub(crate) fn as_slice(&self) -> &'a [u8]
        ensures { components result.now ≡ self.now }
    {
        self.bytes
    }

    /// Returns whether no component remains.
    pub(crate) fn is_empty(&self) -> bool
        ensures { result ≡ is_empty self.now }
    {
        has_no_component(self.bytes)
    }

    /// Removes and returns the first component, or returns `None` if no component remains.
    pub(crate) fn take_first(&mut self) -> Option<&'a [u8]>
        ensures { MatchOption result ((self.old ≡ []) × (self.new ≡ []))
            (λ component. self.old ≡ component.now ∷ self.new) }
    {
        let (component, following) = split_first(self.bytes)?;
        self.bytes = following;
        Some(component)
    }
}
