//! Directories of the operating system, for import.
ghost use Rattle.std.specs.Prelude.{◌≡◌, ◌<◌, ◌^◌, None, Some, length, option_map, vec_len, IfOk};
ghost use Rattle.std.specs.String.{string_bytes};
ghost use Rattle.pv_cli_host.specs.Bounds.{entry_bound, entries_within, levels_below};
ghost use Rattle.pv_cli_commands.specs.OfHostCopy.Reporting.{left_below};
ghost use Rattle.pv_model.specs.Machine.{is_past};

use crate::files::HostFiles;
use crate::targets::MadeDirectory;
use pv_cli_commands::Directories;
use pv_cli_commands::host_copy::{
    HostDirectory, HostEntry, HostFault, HostFile, HostNode, Identity, SkipReason, TargetFault,
};
use pv_streams::Failed;
use std::alloc::{AllocError, Global};
use std::fs::{File, Files, Metadata};
use std::io::{ErrorKind, Read};
use std::os::unix::fs::MetadataExt;
use std::{fs, io};

// The number of bytes of names that are requested from a directory at a time.
const CHUNK: usize = 65_536;

// The mode bits that let a user, a group or others execute a file.
const EXECUTE: u32 = 0o111;

/// The maximum length of a path of the operating system in bytes. Its calls refuse a longer one, so a directory with a
/// longer path can't be read.
pub const LONGEST_PATH: usize = 4_095;

impl<'a> Directories for HostFiles<'a> {
    type Directory = OpenedDirectory<'a>;

    type Target = MadeDirectory<'a>;

    ghost target_of = { λ target. string_bytes target.name };

    fn open_directory(&self, alloc: Global, name: &str) -> Result<OpenedDirectory<'a>, HostFault> {
        OpenedDirectory::open(self.runtime(), alloc, name)
    }

    fn create_directory(
        &mut self,
        alloc: Global,
        name: &str,
    ) -> Result<MadeDirectory<'a>, TargetFault> {
        let Ok(()) = self.push_target(alloc, name) else {
            return Err(TargetFault::Memory);
        };
        match MadeDirectory::create(self.runtime(), alloc, name) {
            Ok(target) => Ok(target),
            Err(fault) => {
                self.pop_target();
                Err(fault)
            }
        }
    }
}

/// A directory of the operating system. It gives its names in the order of their bytes. Its contract does not know the
/// entries.
///
/// The names are read when the directory is opened, and each node when its name is returned, by its path. A symbolic
/// link is reported and not followed; but if somebody replaces a directory by a link meanwhile, the link is followed.
/// The entry of a name or of a link's text that is not UTF-8 can't be opened, and is reported with this reason.
#[derive(Drop)]
pub struct OpenedDirectory<'a> {
    rt: &'a HostRuntime,
    path: String,
    // The names that remain, in descending order.
    names: Vec<Vec<u8>>,
    // The last name that was returned.
    last: Option<Vec<u8>>,
}

// Converts an error of the operating system.
fn fault_of(error: io::Error) -> HostFault {
    if error.kind() == ErrorKind::OutOfMemory {
        HostFault::Memory
    } else {
        HostFault::Read
    }
}

// Appends the names in some bytes, each ended by a zero byte, without those of a directory itself and its parent.
fn add_names(alloc: Global, names: &mut Vec<Vec<u8>>, read: &[u8]) -> Result<(), HostFault> {
    for name in read.split(|byte| *byte == 0) {
        if !name.is_empty() && name != b".".as_slice() && name != b"..".as_slice() {
            names.push(Vec::from_slice(alloc, name)?)?;
        }
    }
    Ok(())
}

// Returns a path with a slash at its end, so that the system follows a symbolic link to a directory.
fn with_slash(alloc: Global, path: &str) -> Result<String, AllocError> {
    let mut text = String::from_str(alloc, path)?;
    if !path.is_empty() && !path.ends_with('/') {
        text.push_str("/")?;
    }
    Ok(text)
}

// Returns the names of a directory in the descending order of their bytes. No read ends inside a name.
fn names_of(rt: &HostRuntime, alloc: Global, path: &str) -> Result<Vec<Vec<u8>>, HostFault> {
    let path = with_slash(alloc, path)?;
    let mut directory = rt.open_dir(path.as_str()).map_err(fault_of)?;
    let mut names = Vec::new(alloc);
    let mut buffer = [0; CHUNK];
    for _ in 0..u64::MAX {
        let count = directory.read(&mut buffer).map_err(fault_of)?;
        if count == 0 {
            names.sort()?;
            names.reverse();
            return Ok(names);
        }
        add_names(alloc, &mut names, &buffer[..count])?;
    }
    Err(HostFault::Read)
}

// Returns the path of a name in a directory.
fn path_of(alloc: Global, directory: &str, name: &str) -> Result<String, AllocError>
    ensures { IfOk result (λ path. length directory.now < length (string_bytes path)) }
{
    let mut path = String::from_str(alloc, directory)?;
    path.push_str("/")?;
    path.push_str(name)?;
    Ok(path)
}

// Returns the identity of a file or link, which distinguishes it from every other.
fn identity_of(metadata: &Metadata) -> Identity {
    Identity {
        device: metadata.dev(),
        inode: metadata.ino(),
    }
}

// Returns the text of a symbolic link, or `None` if it is not UTF-8.
fn text_of(rt: &HostRuntime, alloc: Global, path: &str) -> Result<Option<Vec<u8>>, HostFault> {
    match fs::read_link(rt, path) {
        Ok(text) => Ok(Some(Vec::from_slice(alloc, text.as_str().as_bytes())?)),
        Err(error) if error.kind() == ErrorKind::InvalidFilename => Ok(None),
        Err(error) => Err(fault_of(error)),
    }
}

// Opens a file.
fn file_of(rt: &HostRuntime, path: &str) -> Result<ReadFile, HostFault> {
    let file = fs::open(rt, path).map_err(fault_of)?;
    Ok(ReadFile { file })
}

// Returns whether a name comes before another.
fn is_before(name: &[u8], other: &[u8]) -> bool
    ensures { result ≡ is_past (Some name.now) other.now }
{
    name < other
}

// Returns whether a name comes after the last one.
fn is_past(last: &Option<Vec<u8>>, name: &[u8]) -> bool
    ensures { result ≡ is_past (option_map (λ bytes. bytes.items) last.now) name.now }
{
    match last {
        None => true,
        Some(last) => is_before(last, name),
    }
}

impl<'a> OpenedDirectory<'a> {
    // Opens the directory at a path.
    fn open(
        rt: &'a HostRuntime,
        alloc: Global,
        path: &str,
    ) -> Result<OpenedDirectory<'a>, HostFault>
        ensures path { IfOk result (λ directory. string_bytes directory.path ≡ path.now) }
        ensures names { IfOk result (λ directory. vec_len directory.names < 2 ^ 64) }
    {
        let names = names_of(rt, alloc, path)?;
        Ok(OpenedDirectory {
            rt,
            path: String::from_str(alloc, path)?,
            names,
            last: None,
        })
    }

    // Opens the directory at a path below this one.
    #[tactic(auto, using(crate::proofs::EntryBounds::entries_below))]
    fn open_below(&self, alloc: Global, path: &str) -> Result<OpenedDirectory<'a>, HostFault>
        requires { length (string_bytes self.now.path) < length path.now }
        ensures { IfOk result (λ d. entries_within (vec_len d.names) (string_bytes d.path) < entry_bound (levels_below (string_bytes self.now.path))) }
    {
        if path.len() > LONGEST_PATH {
            return Err(HostFault::Read);
        }
        OpenedDirectory::open(self.rt, alloc, path)
    }

    // Returns the node at a path below this directory.
    #[tactic(auto, using(crate::proofs::EntryBounds::bound_some))]
    fn node(
        &self,
        alloc: Global,
        path: &str,
    ) -> Result<HostNode<OpenedDirectory<'a>, ReadFile>, HostFault>
        requires { length (string_bytes self.now.path) < length path.now }
        ensures { IfOk result (λ node. left_below (λ d. entries_within (vec_len d.names) (string_bytes d.path)) node < entry_bound (levels_below (string_bytes self.now.path))) }
    {
        let metadata = fs::symlink_metadata(self.rt, path).map_err(fault_of)?;
        if metadata.is_dir() {
            return Ok(HostNode::Directory(self.open_below(alloc, path)?));
        }
        let identity = identity_of(&metadata);
        if metadata.is_symlink() {
            return match text_of(self.rt, alloc, path)? {
                Some(text) => Ok(HostNode::Link { identity, text }),
                None => Ok(HostNode::Other(SkipReason::Text)),
            };
        }
        if metadata.is_file() {
            let reader = file_of(self.rt, path)?;
            return Ok(HostNode::File {
                identity,
                executable: metadata.mode() & EXECUTE != 0,
                reader,
            });
        }
        Ok(HostNode::Other(SkipReason::Kind))
    }

    // Returns the node of a name in this directory. A name that is not UTF-8 can't be opened.
    #[tactic(auto, using(crate::proofs::EntryBounds::bound_some))]
    fn node_of(
        &self,
        alloc: Global,
        name: &[u8],
    ) -> Result<HostNode<OpenedDirectory<'a>, ReadFile>, HostFault>
        ensures { IfOk result (λ node. left_below (λ d. entries_within (vec_len d.names) (string_bytes d.path)) node < entry_bound (levels_below (string_bytes self.now.path))) }
    {
        let Ok(name) = std::str::from_utf8(name) else {
            return Ok(HostNode::Other(SkipReason::Name));
        };
        let path = path_of(alloc, self.path.as_str(), name)?;
        self.node(alloc, path.as_str())
    }
}

impl<'a> HostDirectory for OpenedDirectory<'a> {
    type Reader = ReadFile;

    ghost rest = { λ _. None };

    ghost last = { λ s. option_map (λ bytes. bytes.items) s.last };

    ghost left = { λ s. entries_within (vec_len s.names) (string_bytes s.path) };

    ghost ascends = { λ _. tt };

    #[tactic(auto, using(crate::proofs::EntryBounds::entries_fewer))]
    fn next(
        &mut self,
        alloc: Global,
    ) -> Result<Option<HostEntry<OpenedDirectory<'a>, ReadFile>>, HostFault> {
        let Some(name) = self.names.pop() else {
            return Ok(None);
        };
        // A name that the host returned twice does not come after itself.
        if !is_past(&self.last, &name) {
            return Err(HostFault::Read);
        }
        let node = self.node_of(alloc, &name)?;
        let bytes = Vec::from_slice(alloc, &name)?;
        self.last = Some(name);
        Ok(Some(HostEntry { name: bytes, node }))
    }
}

/// An opened file of the operating system. Its contract does not know the bytes that it will give.
#[derive(Drop)]
pub struct ReadFile {
    file: File,
}

impl HostFile for ReadFile {
    ghost bytes = { λ _. None };

    fn read(&mut self, buffer: &mut [u8]) -> Result<usize, Failed> {
        match self.file.read(buffer) {
            Ok(count) => Ok(count),
            Err(_) => Err(Failed),
        }
    }
}
