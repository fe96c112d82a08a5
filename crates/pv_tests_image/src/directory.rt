//! A synthetic host directory.
ghost use Rattle.std.specs.Prelude.{◌≡◌, ◌≢◌, Some, Err, IfOk};
ghost use Rattle.pv_host_copy.specs.Reporting.{IsFile};
ghost use Rattle.pv_tests_image.specs.Memory.{node, rest_of};

use pv_host_copy::{HostDirectory, HostEntry, HostFault, HostFile, HostNode, Identity};
use pv_streams::Failed;
use std::alloc::Global;

/// The state of an iterator over a synthetic directory. The directory contains a directory with two names of one file,
/// a symbolic link, and an executable file.
#[derive(Clone, Copy)]
pub enum MadeUp {
    /// Before the first entry of the whole directory.
    Upper,
    /// After its directory.
    AfterDirectory,
    /// After its symbolic link.
    AfterLink,
    /// After its executable file.
    AfterAll,
    /// Before the first entry of the inner directory.
    Lower,
    /// After the first name of its file.
    AfterFirst,
    /// After the second name.
    AfterBoth,
}

/// A file in memory, with the bytes that remain.
#[derive(Drop)]
pub struct MemoryFile {
    rest: &'static [u8],
}

impl HostFile for MemoryFile {
    ghost bytes = { λ s. Some s.rest.now };

    fn read(&mut self, buffer: &mut [u8]) -> Result<usize, Failed> {
        let count = self.rest.len().min(buffer.len());
        let (front, rest) = self.rest.split_at(count);
        buffer[..count].copy_from_slice(front);
        self.rest = rest;
        Ok(count)
    }
}

// Creates an entry with this name.
fn entry(
    alloc: Global,
    name: &[u8],
    node: HostNode<MadeUp, MemoryFile>,
) -> Result<HostEntry<MadeUp, MemoryFile>, HostFault>
    ensures name { IfOk result (λ e. e.name.items ≡ name.now) }
    ensures node { IfOk result (λ e. e.node ≡ node) }
    ensures known { result ≢ Err HostFault.Read }
{
    let name = Vec::from_slice(alloc, name)?;
    Ok(HostEntry { name, node })
}

// Creates a file.
fn file(inode: u64, executable: bool, bytes: &'static [u8]) -> HostNode<MadeUp, MemoryFile>
    ensures { IsFile (λ d. Some (rest_of d)) (λ f. Some f.rest.now) (node inode) executable bytes.now result }
{
    HostNode::File {
        identity: Identity { device: 1, inode },
        executable,
        reader: MemoryFile { rest: bytes },
    }
}

impl HostDirectory for MadeUp {
    ghost use Rattle.pv_tests_image.specs.Memory.{ascends_from, last_name_returned, left_of};

    type Reader = MemoryFile;

    ghost rest = { λ d. Some (rest_of d) };

    ghost last = { λ d. last_name_returned d };

    ghost left = { λ d. left_of d };

    ghost ascends = { λ d. ascends_from d };

    fn next(&mut self, alloc: Global) -> Result<Option<HostEntry<MadeUp, MemoryFile>>, HostFault> {
        match *self {
            MadeUp::Upper => {
                let reported = entry(alloc, b"a", HostNode::Directory(MadeUp::Lower))?;
                *self = MadeUp::AfterDirectory;
                Ok(Some(reported))
            }
            MadeUp::AfterDirectory => {
                let text = Vec::from_slice(alloc, b"a/one")?;
                let identity = Identity {
                    device: 1,
                    inode: 7,
                };
                let reported = entry(alloc, b"l", HostNode::Link { identity, text })?;
                *self = MadeUp::AfterLink;
                Ok(Some(reported))
            }
            MadeUp::AfterLink => {
                let reported = entry(alloc, b"x", file(6, true, b"exit 0"))?;
                *self = MadeUp::AfterAll;
                Ok(Some(reported))
            }
            MadeUp::Lower => {
                let reported = entry(alloc, b"one", file(5, false, b"abc"))?;
                *self = MadeUp::AfterFirst;
                Ok(Some(reported))
            }
            MadeUp::AfterFirst => {
                let reported = entry(alloc, b"two", file(5, false, b"abc"))?;
                *self = MadeUp::AfterBoth;
                Ok(Some(reported))
            }
            MadeUp::AfterAll | MadeUp::AfterBoth => Ok(None),
        }
    }
}
