//! Importing a host directory to the tree of an image.
ghost use Rattle.std.specs.Prelude.{◌≡◌, [], map, IfOk, IfErr, IfSome};
ghost use Rattle.pv_host_copy.specs.Firsts.{skipped_pair};
ghost use Rattle.pv_host_copy.specs.Gathered.{left_out, nothing_gathered};
ghost use Rattle.pv_host_copy.specs.Given.{IsMergedTree, merged_entries};
ghost use Rattle.pv_host_copy.specs.Importing.{HoldsGathered};
ghost use Rattle.pv_host_copy.specs.Imported.{greatest_tree, IsTreeOf};
ghost use Rattle.pv_host_copy.specs.Stopped.{StopsCopy, StopsMerge};
ghost use Rattle.pv_image_manifest.specs.Entries.{entry_of_line};

use crate::beside::Beside;
use crate::directory::HostDirectory;
use crate::fault::CopyStop;
use crate::given::add_missing;
use crate::importing::Importing;
use crate::skipped::Skipped;
use crate::walking::import_directory;
use pv_image_manifest::Entry;
use pv_model::Version;
use pv_model::limits::{BLOCK, INODES};
use pv_tree::Store;
use std::alloc::{AllocError, Global};

/// The tree of a host directory, and the entries that were skipped.
#[derive(Drop)]
pub struct Imported {
    /// The tree, in an image of the maximum size of its version.
    pub store: Store,
    /// The entries that were skipped, in the order of their names.
    pub reported: Vec<Skipped>,
}

// Creates a tree with only a root, in an image of the maximum size.
fn empty(alloc: Global, version: Version) -> Result<Importing, AllocError>
    ensures holds { IfOk result (HoldsGathered (greatest_tree version) nothing_gathered) }
    ensures version { IfOk result (λ importing. importing.version ≡ version) }
{
    let blocks = version.layout().greatest_blocks;
    let zeros = vec![in alloc; 0; BLOCK * blocks as usize]?;
    let store = Store::empty(alloc, zeros, blocks, INODES as u16, version)?;
    Ok(Importing {
        tree: store.into_tree(),
        version,
        firsts: Vec::new(alloc),
        reported: Vec::new(alloc),
    })
}

/// Imports a host directory: builds the tree of the manifest of its entries, in byte order of their names, each
/// directory before its entries. Two names of one file or symbolic link become names of one node. The image has the
/// maximum size of its version, 4,096 inodes and 8,192 or 65,535 blocks. So programs that run on it have all the room
/// that the format allows, and a directory that does not fit in it fits in no image.
///
/// Entries that an image of the version cannot contain are skipped and reported: a name that is too long, with all
/// entries below it if it is a directory; a file that is too long; a symbolic link whose target is too long; and
/// anything that is not a directory, file or symbolic link. An entry whose name or target the host cannot read is
/// skipped too.
///
/// # Errors
///
/// - `Read`: a part of the directory cannot be read.
/// - `Memory`: memory cannot be allocated.
/// - `Entry`: a path cannot be added to the tree of the paths before it. Its error is `Room` if the image has too few
///   inodes or blocks, or a directory has too many names. The other errors occur only if the host returns a name twice,
///   or a name that contains a slash.
pub fn import_tree<D: HostDirectory>(
    alloc: Global,
    version: Version,
    directory: D,
) -> Result<Imported, CopyStop>
    ensures tree { IfOk result (λ imported. IfSome (D.rest directory) (λ host. IsTreeOf version host imported.store)) }
    ensures reported { IfOk result (λ imported. IfSome (D.rest directory) (λ host. map skipped_pair imported.reported.items ≡ left_out version host)) }
    ensures stopped { IfErr result (StopsCopy version (D.rest directory)) }
{
    let mut importing = empty(alloc, version)?;
    import_directory(alloc, &mut importing, directory)?;
    let Importing {
        mut tree,
        version: _,
        firsts: _,
        reported,
    } = importing;
    tree.order_entries();
    Ok(Imported {
        store: Store::of_tree(tree),
        reported,
    })
}

/// Imports a host directory as `import_tree` does, and adds the entries of a source. If both have a path, the source's
/// entry takes the place of the host's, with everything below it; but a directory of both is one, which has the entries
/// of both. A replaced entry is not reported.
///
/// # Errors
///
/// - `Read` and `Memory`, as for `import_tree`.
/// - `Entry`: a path cannot be added to the tree of the paths before it; those of the source are the last.
pub fn import_beside<D: HostDirectory>(
    alloc: Global,
    version: Version,
    directory: D,
    given: &[Entry],
) -> Result<Imported, CopyStop>
    ensures tree { IfOk result (λ imported. IfSome (D.rest directory) (λ host. IsMergedTree version (map entry_of_line given.now) host imported.store)) }
    ensures reported { IfOk result (λ imported. IfSome (D.rest directory) (λ host.
        map skipped_pair imported.reported.items ≡ left_out version (merged_entries (map entry_of_line given.now) [] host))) }
    ensures stopped { IfErr result (StopsMerge version (map entry_of_line given.now) (D.rest directory)) }
{
    let path = Vec::new(alloc);
    let beside = Beside {
        directory,
        path,
        given,
    };
    let imported = import_tree(alloc, version, beside)?;
    let Imported { store, reported } = imported;
    let mut tree = store.into_tree();
    add_missing(alloc, &mut tree, given)?;
    tree.order_entries();
    Ok(Imported {
        store: Store::of_tree(tree),
        reported,
    })
}
