//! The points at which a walk stops.
ghost use Rattle.std.specs.Prelude.{◌≡◌};
ghost use Rattle.pv_namei.specs.Onward.{place_of_ending, HasShortName};

use pv_tree::PlaceRef;

/// The point at which a walk of components stops.
#[derive(Clone, Copy)]
pub(crate) enum Stop<'a> {
    /// At the end of the walk.
    End(End<'a>),
    /// At a symbolic link that is followed. This is its number.
    Link(u16),
}

/// The end of a walk, with a borrowed name.
#[derive(Clone, Copy)]
pub(crate) enum End<'a> {
    /// An entry of a directory, which may or may not exist.
    Named {
        /// The number of the directory.
        dir: u16,
        /// The component that is the name.
        component: &'a [u8],
        /// The node that has the name, if there is one.
        node: Option<u16>,
    },
    /// A node without a name.
    Unnamed(u16),
}

impl<'a> End<'a> {
    /// Returns the place. It borrows the name.
    pub(crate) fn place(self) -> PlaceRef<'a>
        requires { HasShortName self }
        ensures { result ≡ place_of_ending self.entry }
    {
        match self {
            End::Named {
                dir,
                component,
                node,
            } => PlaceRef::at(dir, component, node),
            End::Unnamed(node) => PlaceRef::of_node(node),
        }
    }
}
