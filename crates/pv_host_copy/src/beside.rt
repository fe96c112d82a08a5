//! A host directory merged with the entries of a source.
ghost use Rattle.std.specs.Prelude.{◌≡◌, map, option_map};
ghost use Rattle.pv_host_copy.specs.Beside.{merged_node};
ghost use Rattle.pv_host_copy.specs.BesideOrder.{ordered-merged};
ghost use Rattle.pv_host_copy.specs.Given.{merged_entries};
ghost use Rattle.pv_image_manifest.specs.Entries.{entry_of_line};

use crate::directory::HostDirectory;
use crate::entry::{HostEntry, HostNode};
use crate::fault::HostFault;
use crate::given::is_taken;
use crate::walking::path_below;
use pv_image_manifest::Entry;
use std::alloc::Global;

/// A directory of a host, of whose entries the entries of a source replace some.
#[derive(Drop)]
pub(crate) struct Beside<'a, D: Drop> {
    /// The directory.
    pub(crate) directory: D,
    /// Its path relative to the imported directory, with a slash before each name.
    pub(crate) path: Vec<u8>,
    /// The entries of the source.
    pub(crate) given: &'a [Entry],
}

// Returns the node at a path, or that an entry of the source replaces it.
fn node_beside<'a, D: HostDirectory>(
    given: &'a [Entry],
    path: Vec<u8>,
    node: HostNode<D, D::Reader>,
) -> HostNode<Beside<'a, D>, D::Reader>
    ensures { result ≡ merged_node given.entry path node }
{
    match node {
        HostNode::Directory(directory) => {
            if is_taken(given, true, &path) {
                return HostNode::Replaced;
            }
            HostNode::Directory(Beside {
                directory,
                path,
                given,
            })
        }
        HostNode::File {
            identity,
            executable,
            reader,
        } => {
            if is_taken(given, false, &path) {
                return HostNode::Replaced;
            }
            HostNode::File {
                identity,
                executable,
                reader,
            }
        }
        HostNode::Link { identity, text } => {
            if is_taken(given, false, &path) {
                return HostNode::Replaced;
            }
            HostNode::Link { identity, text }
        }
        HostNode::Other(why) => {
            if is_taken(given, false, &path) {
                return HostNode::Replaced;
            }
            HostNode::Other(why)
        }
        HostNode::Replaced => HostNode::Replaced,
    }
}

impl<'a, D: HostDirectory> HostDirectory for Beside<'a, D> {
    type Reader = D::Reader;

    ghost rest = { λ s. option_map (merged_entries (map entry_of_line s.given.now) s.path.items) (D.rest s.directory) };

    ghost last = { λ s. D.last s.directory };

    ghost left = { λ s. D.left s.directory };

    ghost ascends = { λ s. ordered-merged (map entry_of_line s.given.now) s.path.items (D.last s.directory) (D.rest s.directory) (D.ascends s.directory) };

    fn next(
        &mut self,
        alloc: Global,
    ) -> Result<Option<HostEntry<Beside<'a, D>, D::Reader>>, HostFault> {
        let Some(entry) = self.directory.next(alloc)? else {
            return Ok(None);
        };
        let HostEntry { name, node } = entry;
        let path = path_below(alloc, &self.path, &name)?;
        let node = node_beside(self.given, path, node);
        Ok(Some(HostEntry { name, node }))
    }
}
