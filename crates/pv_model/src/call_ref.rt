//! System calls that borrow their texts.
ghost use Rattle.std.specs.Prelude.{◌≡◌};
ghost use Rattle.pv_model.specs.CallRef.{call_of};

use crate::{Call, OpenFlags, Start, Text, Whence};

/// A system call that borrows its texts, for example from the program that makes it.
///
/// Copying one moves a few words, whereas a `Call` has room for two texts. `call_of` gives the `Call`.
#[derive(Clone, Copy)]
pub enum CallRef<'a> {
    /// exit(3) with an exit code. Only its low byte is used.
    Exit(i32),
    /// getpid(2).
    GetPid,
    /// getppid(2).
    GetPpid,
    /// fork(2).
    Fork,
    /// wait(2).
    Wait,
    /// pledge(2) with promises and execpromises. None leaves that value unchanged.
    Pledge(Option<&'a Text>, Option<&'a Text>),
    /// unveil(2) with a path and permissions. Two Nones lock the table.
    Unveil(Option<&'a Text>, Option<&'a Text>),
    /// execve(2) of a path.
    Execve(&'a Text),
    /// open(2) of a path with flags.
    Open(&'a Text, OpenFlags),
    /// openat(2) with the starting directory, a path and flags.
    OpenAt(Start, &'a Text, OpenFlags),
    /// close(2) of a descriptor.
    Close(i32),
    /// dup(2) of a descriptor.
    Dup(i32),
    /// dup2(2) of a descriptor onto another.
    Dup2(i32, i32),
    /// read(2) from a descriptor: at most this many bytes, stored at the start of the buffer.
    Read(i32, i32),
    /// write(2) to a descriptor: this many bytes from the start of the buffer.
    Write(i32, i32),
    /// lseek(2) of a descriptor by an offset, relative to a position.
    Lseek(i32, i32, Whence),
    /// fstat(2) of a descriptor.
    Fstat(i32),
    /// ftruncate(2) of a descriptor to a length.
    Ftruncate(i32, i32),
    /// getdents(2) of a descriptor. Each call returns one name.
    Getdents(i32),
    /// fchdir(2) to the directory of a descriptor.
    Fchdir(i32),
    /// chdir(2) to a path.
    Chdir(&'a Text),
    /// stat(2) of a path.
    Stat(&'a Text),
    /// lstat(2) of a path.
    Lstat(&'a Text),
    /// readlink(2) of a path.
    Readlink(&'a Text),
    /// mkdir(2) of a path.
    Mkdir(&'a Text),
    /// symlink(2): the link's text, and the link's path.
    Symlink(&'a Text, &'a Text),
    /// link(2): an existing path, and the new path.
    Link(&'a Text, &'a Text),
    /// unlink(2) of a path.
    Unlink(&'a Text),
    /// rmdir(2) of a path.
    Rmdir(&'a Text),
    /// rename(2): the old path, and the new path.
    Rename(&'a Text, &'a Text),
}

impl Call {
    /// Returns the same call with borrowed texts.
    pub fn as_ref(&self) -> CallRef<'_>
        ensures { call_of result ≡ self.now }
    {
        match self {
            Call::Exit(code) => CallRef::Exit(*code),
            Call::GetPid => CallRef::GetPid,
            Call::GetPpid => CallRef::GetPpid,
            Call::Fork => CallRef::Fork,
            Call::Wait => CallRef::Wait,
            Call::Pledge(promises, execpromises) => {
                CallRef::Pledge(promises.as_ref(), execpromises.as_ref())
            }
            Call::Unveil(path, permissions) => CallRef::Unveil(path.as_ref(), permissions.as_ref()),
            Call::Execve(path) => CallRef::Execve(path),
            Call::Open(path, flags) => CallRef::Open(path, *flags),
            Call::OpenAt(start, path, flags) => CallRef::OpenAt(*start, path, *flags),
            Call::Close(d) => CallRef::Close(*d),
            Call::Dup(d) => CallRef::Dup(*d),
            Call::Dup2(d, e) => CallRef::Dup2(*d, *e),
            Call::Read(d, n) => CallRef::Read(*d, *n),
            Call::Write(d, n) => CallRef::Write(*d, *n),
            Call::Lseek(d, by, whence) => CallRef::Lseek(*d, *by, *whence),
            Call::Fstat(d) => CallRef::Fstat(*d),
            Call::Ftruncate(d, n) => CallRef::Ftruncate(*d, *n),
            Call::Getdents(d) => CallRef::Getdents(*d),
            Call::Fchdir(d) => CallRef::Fchdir(*d),
            Call::Chdir(path) => CallRef::Chdir(path),
            Call::Stat(path) => CallRef::Stat(path),
            Call::Lstat(path) => CallRef::Lstat(path),
            Call::Readlink(path) => CallRef::Readlink(path),
            Call::Mkdir(path) => CallRef::Mkdir(path),
            Call::Symlink(text, path) => CallRef::Symlink(text, path),
            Call::Link(path, new) => CallRef::Link(path, new),
            Call::Unlink(path) => CallRef::Unlink(path),
            Call::Rmdir(path) => CallRef::Rmdir(path),
            Call::Rename(path, new) => CallRef::Rename(path, new),
        }
    }
}
