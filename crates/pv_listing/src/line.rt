//! The lines of a listing.
ghost use Rattle.std.specs.Prelude.{◌≡◌};
ghost use Rattle.pv_model.specs.Listing.{node_line};
ghost use Rattle.pv_model.specs.Machine.{node_at};
ghost use Rattle.pv_listing.specs.Lines.{letter_of};

use crate::path::ListedPath;
use crate::remarks::Remarks;
use pv_model::Kind;
use pv_streams::{Decimal, Failed, Fragment, Plain, Sink};
use pv_tree::Tree;

// Returns the letter of a kind of node.
fn letter(sort: Kind) -> &'static [u8]
    ensures { result.now ≡ letter_of sort }
{
    match sort {
        Kind::Directory => b"d",
        Kind::File => b"f",
        Kind::Executable => b"x",
        Kind::Symlink => b"l",
    }
}

/// The lines of a listing: the kind of a node, its number, its size, and the path.
#[derive(Clone, Copy)]
pub(crate) struct NodeLines<'a> {
    /// The tree of the nodes.
    pub(crate) tree: &'a Tree,
}

impl<'a> Remarks for NodeLines<'a> {
    ghost line = { λ s path n. node_line path n (node_at s.tree.now.tree n) };

    fn write<W: Sink>(&self, out: &mut W, path: &[u8], node: u16) -> Result<(), Failed> {
        if !self.tree.is_used(node) {
            return Ok(());
        }
        let kind = (Plain(letter(self.tree.kind(node))), Plain(b" "));
        let numbers = (
            Decimal(u32::from(node)),
            Plain(b" "),
            Decimal(self.tree.size(node)),
            Plain(b" "),
        );
        (kind, numbers, ListedPath(path), Plain(b"\n")).write(out)
    }
}
