//! Places with borrowed names.
ghost use Rattle.std.specs.Prelude.{◌≡◌, ◌≤◌, length, MatchOption, None, Some};
ghost use Rattle.pv_model.specs.declared.limits.TheConstants.{NAME_V2};
ghost use Rattle.pv_model.specs.declared.place.Place.TheVariants.{At, Node};
ghost use Rattle.pv_model.specs.Machine.{node_of, name_of};

use pv_model::{Name, Place};
use std::marker::Model;

/// The place where a path walk ends, with a borrowed name, for example a part of the path. It is a few words long and
/// cheap to copy; a `Place` contains the name itself. Contracts see it as the place.
#[derive(Drop)]
pub struct PlaceRef<'a> {
    spot: Spot<'a>,
}

/// The variants of a place.
#[derive(Clone, Copy)]
pub(crate) enum Spot<'a> {
    /// An entry of a directory: the number of the directory, the name, and the node that has the name, if there is one.
    At(u16, &'a [u8], Option<u16>),
    /// A node without a name.
    Node(u16),
}

impl<'a> Model for PlaceRef<'a> {
    ghost use Rattle.pv_model.specs.declared.place.Place.{Place};
    ghost use Rattle.pv_tree.specs.Places.{place_of_spot, IsShort};

    ghost Value = { Place };

    ghost view = { λ p. place_of_spot p.spot };

    ghost invariant = { λ p. IsShort p.spot };
}

impl<'a> PlaceRef<'a> {
    /// Creates the place of an entry: the number of the directory, the name, which has at most 255 bytes, and the node
    /// that has the name, if there is one.
    pub fn at(directory: u16, name: &'a [u8], node: Option<u16>) -> PlaceRef<'a>
        requires { length name.now ≤ NAME_V2 }
        ensures { result ≡ At directory name.now node }
    {
        PlaceRef {
            spot: Spot::At(directory, name, node),
        }
    }

    /// Creates the place of a node without a name.
    pub fn of_node(node: u16) -> PlaceRef<'a>
        ensures { result ≡ Node node }
    {
        PlaceRef {
            spot: Spot::Node(node),
        }
    }

    /// Creates a reference to `place` that borrows its name.
    pub fn of(place: &'a Place) -> PlaceRef<'a>
        ensures { result ≡ place.now }
    {
        match place {
            Place::At { dir, name, node } => PlaceRef::at(*dir, name.as_slice(), *node),
            Place::Node(node) => PlaceRef::of_node(*node),
        }
    }

    /// Returns the node at the place, if there is one.
    pub fn node(&self) -> Option<u16>
        ensures { result ≡ node_of self.now }
    {
        match self.spot {
            Spot::At(_, _, node) => node,
            Spot::Node(node) => Some(node),
        }
    }

    /// Returns the directory and the name of the place, or `None` if it has no name.
    pub fn name(&self) -> Option<(u16, &'a [u8])>
        ensures { MatchOption result (name_of self.now ≡ None)
            (λ p. name_of self.now ≡ Some (p.0, p.1.now)) }
    {
        match self.spot {
            Spot::At(directory, name, _) => Some((directory, name)),
            Spot::Node(_) => None,
        }
    }

    /// Returns the place with a copy of the name.
    pub fn to_place(&self) -> Place
        ensures { result ≡ self.now }
    {
        match self.spot {
            Spot::At(dir, name, node) => match Name::new(name) {
                Some(name) => Place::At { dir, name, node },
                None => unreachable!(),
            },
            Spot::Node(node) => Place::Node(node),
        }
    }
}
