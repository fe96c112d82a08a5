//! The descent into the directories of a host.
ghost use Rattle.std.specs.Prelude.{◌≡◌, [], IfOk, OnOk};
ghost use Rattle.pv_host_copy.specs.Gathered.{gather};
ghost use Rattle.pv_host_copy.specs.Importing.{GoesIf};
ghost use Rattle.pv_host_copy.specs.Paths.{path_under};
ghost use Rattle.pv_host_copy.specs.Walking.{TakesNode, and_opened};

use crate::directory::HostDirectory;
use crate::entry::{HostEntry, HostNode};
use crate::fault::CopyStop;
use crate::importing::Importing;
use std::alloc::{AllocError, Global};

/// A directory of a host whose entries are being read.
#[derive(Drop)]
pub(crate) struct OpenDirectory<D: Drop> {
    /// The directory.
    pub(crate) directory: D,
    /// Its path relative to the imported directory, with a slash before each name.
    pub(crate) path: Vec<u8>,
}

/// Returns the path of a name in a directory.
pub(crate) fn path_below(
    alloc: Global,
    directory: &[u8],
    name: &[u8],
) -> Result<Vec<u8>, AllocError>
    ensures { IfOk result (λ path. path.items ≡ path_under directory.now name.now) }
{
    let mut path = Vec::from_slice(alloc, directory)?;
    path.push(b'/')?;
    path.extend_from_slice(name)?;
    Ok(path)
}

// Adds a node at a path, a directory without its entries. Returns the directory if it was added.
fn take<D: HostDirectory>(
    alloc: Global,
    importing: &mut Importing,
    path: Vec<u8>,
    node: HostNode<D, D::Reader>,
) -> Result<Option<OpenDirectory<D>>, CopyStop>
    ensures takes { TakesNode D.Reader.bytes path.items node importing.old result importing.new }
    ensures version { importing.new.version ≡ importing.old.version }
{
    match node {
        HostNode::Directory(directory) => {
            if !importing.keep_directory(alloc, &path)? {
                return Ok(None);
            }
            Ok(Some(OpenDirectory { directory, path }))
        }
        HostNode::File {
            identity,
            executable,
            mut reader,
        } => {
            importing.keep_file(alloc, &path, identity, executable, &mut reader)?;
            Ok(None)
        }
        HostNode::Link { identity, text } => {
            importing.keep_link(alloc, &path, identity, text)?;
            Ok(None)
        }
        HostNode::Other(why) => {
            importing.report(alloc, &path, why)?;
            Ok(None)
        }
        HostNode::Replaced => Ok(None),
    }
}

// Appends a directory, and the one that was opened below it.
fn push_opened<D: HostDirectory>(
    reading: &mut Vec<OpenDirectory<D>>,
    directory: OpenDirectory<D>,
    opened: Option<OpenDirectory<D>>,
) -> Result<(), AllocError>
    ensures { OnOk result (reading.new.items ≡ and_opened reading.old.items directory opened) }
{
    reading.push(directory)?;
    if let Some(inside) = opened {
        reading.push(inside)?;
    }
    Ok(())
}

/// Adds all entries of a directory, and of the directories below it. The directories from this one to the current one
/// are a list on the heap, so that their number is not limited by the stack.
///
/// # Errors
///
/// Returns `Read` if a part of the directory cannot be read, `Memory` if memory cannot be allocated, and `Entry` if an
/// entry cannot be added.
pub(crate) fn import_directory<D: HostDirectory>(
    alloc: Global,
    importing: &mut Importing,
    directory: D,
) -> Result<(), CopyStop>
    ensures goes { GoesIf (D.rest directory) (gather importing.old.version []) importing.old result importing.new }
    ensures version { importing.new.version ≡ importing.old.version }
{
    let mut reading = Vec::new(alloc);
    let path = Vec::new(alloc);
    reading.push(OpenDirectory { directory, path })?;
    while let Some(mut current) = reading.pop() {
        let Some(entry) = current.directory.next(alloc)? else {
            continue;
        };
        let HostEntry { name, node } = entry;
        let path = path_below(alloc, &current.path, &name)?;
        let opened = take(alloc, importing, path, node)?;
        push_opened(&mut reading, current, opened)?;
    }
    Ok(())
}
