//! Directories of the operating system, for export.
ghost use Rattle.std.specs.Prelude.{◌≡◌, None, IfOk};
ghost use Rattle.std.specs.String.{string_bytes};

use pv_cli_commands::host_copy::{HostTarget, TargetFault};
use std::alloc::Global;
use std::fs::File;
use std::io::{ErrorKind, Write};
use std::os::unix::fs::{OpenOptionsExt, symlink};
use std::{fs, io};

// The modes of a file that is not executable and of one that is, before the umask of the process.
const PLAIN: u32 = 0o644;

const EXECUTABLE: u32 = 0o755;

/// A directory of the operating system in which the tree of an image is made. Its contract does not state what was made
/// there.
///
/// No path can lead out of the directory. Each system call creates a file or directory that does not exist, and follows
/// no link at the end of its path: if anything exists there, even a dangling link, the call fails. Every other
/// component of a path is a directory that was made earlier, under a name that is unique in the tree, so no component
/// is a link. No name of a tree is `.` or `..`, or contains a slash or a zero byte (`pv_model::is_name`, which mounting
/// and manifests check). The text of a link may lead anywhere; it is written, and not followed.
///
/// A name or a link's text that is not UTF-8 can't be made.
#[derive(Drop)]
pub struct MadeDirectory<'a> {
    rt: &'a HostRuntime,
    name: String,
}

// Converts an error of the operating system.
fn fault_of(error: io::Error) -> TargetFault {
    if error.kind() == ErrorKind::OutOfMemory {
        TargetFault::Memory
    } else {
        TargetFault::Make
    }
}

// Converts a text of an image to a string.
fn text_of(bytes: &[u8]) -> Result<&str, TargetFault> {
    std::str::from_utf8(bytes).map_err(|_| TargetFault::Make)
}

// Returns a path without trailing slashes, because a link before them would be followed. The path of the root stays a
// slash.
fn without_slashes(path: &str) -> &str {
    match path.trim_end_matches('/') {
        "" => path,
        trimmed => trimmed,
    }
}

// Returns whether nothing exists at a path. If the path can't be inspected, something is assumed to exist.
fn is_absent(rt: &HostRuntime, path: &str) -> bool {
    match fs::symlink_metadata(rt, path) {
        Ok(_) => false,
        Err(error) => error.kind() == ErrorKind::NotFound,
    }
}

// Returns whether an empty directory exists at a path. A symbolic link to a directory does not count.
fn is_empty(rt: &HostRuntime, path: &str) -> Result<bool, TargetFault> {
    let metadata = fs::symlink_metadata(rt, path).map_err(fault_of)?;
    if !metadata.is_dir() {
        return Ok(false);
    }
    let mut entries = fs::read_dir(rt, path).map_err(fault_of)?;
    Ok(entries.next().is_none())
}

impl<'a> MadeDirectory<'a> {
    /// Returns the directory with a name. It is created if it does not exist; otherwise it must be an empty directory,
    /// not a symbolic link.
    ///
    /// # Errors
    ///
    /// - `Make`, if it cannot be created, is something else, or cannot be read.
    /// - `Memory`, if there is no memory.
    pub(crate) fn create(
        rt: &'a HostRuntime,
        alloc: Global,
        name: &str,
    ) -> Result<MadeDirectory<'a>, TargetFault>
        ensures { IfOk result (λ directory. string_bytes directory.name ≡ name.now) }
    {
        let at = without_slashes(name);
        if is_absent(rt, at) {
            fs::create_dir(rt, at).map_err(fault_of)?;
        } else if !is_empty(rt, at)? {
            return Err(TargetFault::Make);
        }
        Ok(MadeDirectory {
            rt,
            name: String::from_str(alloc, name)?,
        })
    }

    // Returns the path in the operating system.
    fn path_of(&self, alloc: Global, path: &[u8]) -> Result<String, TargetFault> {
        let mut whole = String::from_str(alloc, without_slashes(self.name.as_str()))?;
        whole.push_str(text_of(path)?)?;
        Ok(whole)
    }
}

impl<'a> HostTarget for MadeDirectory<'a> {
    ghost made = { λ _. None };

    fn make_directory(&mut self, alloc: Global, path: &[u8]) -> Result<(), TargetFault> {
        let path = self.path_of(alloc, path)?;
        fs::create_dir(self.rt, path.as_str()).map_err(fault_of)
    }

    fn make_file(
        &mut self,
        alloc: Global,
        path: &[u8],
        executable: bool,
        bytes: &[u8],
    ) -> Result<(), TargetFault> {
        let path = self.path_of(alloc, path)?;
        let mode = if executable { EXECUTABLE } else { PLAIN };
        let mut options = File::options();
        options.write(true).create_new(true).mode(mode);
        let mut file = options.open(self.rt, path.as_str()).map_err(fault_of)?;
        file.write_all(bytes).map_err(fault_of)
    }

    fn make_link(&mut self, alloc: Global, path: &[u8], text: &[u8]) -> Result<(), TargetFault> {
        let path = self.path_of(alloc, path)?;
        symlink(self.rt, text_of(text)?, path.as_str()).map_err(fault_of)
    }

    fn make_name(&mut self, alloc: Global, path: &[u8], source: &[u8]) -> Result<(), TargetFault> {
        let path = self.path_of(alloc, path)?;
        let source = self.path_of(alloc, source)?;
        fs::hard_link(self.rt, source.as_str(), path.as_str()).map_err(fault_of)
    }
}
