//! The first paths of files and symbolic links.
ghost use Rattle.std.specs.Prelude.{◌≡◌, ◌&&◌, ◌==◌, map, IsTrue, IfSome};
ghost use Rattle.std.specs.List.{list_all};
ghost use Rattle.std.specs.Option.{option_copied};
ghost use Rattle.pv_host_copy.specs.Firsts.{identity_and_path, has_path};
ghost use Rattle.pv_host_copy.specs.Gathered.{first_path_of};
ghost use Rattle.pv_host_copy.specs.Hosts.{same_identity};
ghost use Rattle.pv_image_manifest.specs.Paths.{is_path};

use crate::entry::Identity;
use pv_model::Version;

/// A file or symbolic link of a host, and the first path at which it was added.
#[derive(Drop)]
pub(crate) struct First {
    pub(crate) identity: Identity,
    pub(crate) path: Vec<u8>,
}

// Returns whether two names refer to one file or symbolic link.
fn is_same(a: Identity, b: Identity) -> bool
    ensures { result ≡ same_identity a b }
{
    a.device == b.device && a.inode == b.inode
}

/// Returns the first path of a file or symbolic link, if it was added.
pub(crate) fn first_of(firsts: &[First], version: Version, identity: Identity) -> Option<&[u8]>
    requires { IsTrue (list_all (has_path version) firsts.now) }
    ensures first { option_copied result ≡ first_path_of identity (map identity_and_path firsts.now) }
    ensures named { IfSome result (λ path. IsTrue (is_path version path.now)) }
{
    let _ = version;
    for first in firsts {
        if is_same(first.identity, identity) {
            return Some(first.path.as_slice());
        }
    }
    None
}
