//! Entries of host directories.
use crate::fault::SkipReason;

/// The identity of a file or symbolic link of a host: two names with the same identity are hard links to one file.
#[derive(Clone, Copy, Debug, PartialEq, Eq)]
pub struct Identity {
    /// The number of its device.
    pub device: u64,
    /// Its inode number on the device.
    pub inode: u64,
}

/// The object that a name of a host directory refers to.
#[derive(Drop)]
pub enum HostNode<D: Drop, R: Drop> {
    /// A directory.
    Directory(D),
    /// A file: its identity, whether it is executable, and a reader of its bytes.
    File {
        identity: Identity,
        executable: bool,
        reader: R,
    },
    /// A symbolic link: its identity and its target. It is not followed.
    Link {
        identity: Identity,
        text: Vec<u8>,
    },
    /// Something that is not copied, such as a device or a socket, and the reason.
    Other(SkipReason),
    /// Something whose place another entry takes. It is not copied, and not reported.
    Replaced,
}

/// An entry of a host directory.
#[derive(Drop)]
pub struct HostEntry<D: Drop, R: Drop> {
    /// The name.
    pub name: Vec<u8>,
    /// The object that the name refers to.
    pub node: HostNode<D, R>,
}
