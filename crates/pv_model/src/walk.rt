//! The paths that a call walks, and the permissions that it needs at their ends.
ghost use Rattle.std.specs.Prelude.{◌≡◌};
ghost use Rattle.pv_model.specs.CallRef.{call_of, walk_of, walks_in};
ghost use Rattle.pv_model.specs.Perms.{read_permissions};
ghost use Rattle.pv_model.specs.Walks.{chdir_walk, execve_walk, from_here, permissions_or_none, linked_walk, lstat_walk, mkdir_walk, new_link_walk, open_walk, readlink_walk, rename_walk, rmdir_walk, stat_walk, symlink_walk, unlink_walk, unveil_walk, walks_of};

use crate::{CallRef, Follow, OpenFlags, Perms, Start, Text};

/// One walk of a call along a path.
#[derive(Clone, Copy)]
pub struct Walk<'a> {
    /// The directory where a relative path starts.
    pub start: Start,
    /// How the walk treats a final link.
    pub follow: Follow,
    /// The path to walk.
    pub path: &'a Text,
    /// The permissions that the call needs at the place where the walk ends.
    pub needed: Perms,
}

/// The walks of a call, in order.
#[derive(Clone, Copy)]
pub enum Walks<'a> {
    /// The call walks no path.
    Zero,
    /// The call walks one path.
    One(Walk<'a>),
    /// The call walks two paths.
    Two(Walk<'a>, Walk<'a>),
}

// Returns a walk from the working directory.
#[inline]
fn from_here(follow: Follow, path: &Text, needed: Perms) -> Walk<'_>
    ensures { walk_of result ≡ from_here follow path.now needed }
{
    Walk {
        start: Start::WorkingDirectory,
        follow,
        path,
        needed,
    }
}

impl<'a> Walk<'a> {
    /// Returns the walk of open(2) and openat(2), which needs the permissions of the mode, and c if it may create the
    /// file.
    ///
    /// A final link is not followed if `no_follow` is set, or if both `create` and `exclusive` are set.
    #[inline]
    pub fn open(start: Start, path: &'a Text, flags: OpenFlags) -> Walk<'a>
        ensures { walk_of result ≡ open_walk start path.now flags }
    {
        Walk {
            start,
            follow: flags.follow(),
            path,
            needed: flags.permissions(),
        }
    }

    /// Returns the walk of execve(2), which follows a final link and needs x.
    #[inline]
    pub fn execve(path: &'a Text) -> Walk<'a>
        ensures { walk_of result ≡ execve_walk path.now }
    {
        from_here(Follow::Last, path, Perms::X)
    }

    /// Returns the walk of chdir(2), which follows a final link and needs r.
    #[inline]
    pub fn chdir(path: &'a Text) -> Walk<'a>
        ensures { walk_of result ≡ chdir_walk path.now }
    {
        from_here(Follow::Last, path, Perms::R)
    }

    /// Returns the walk of stat(2), which follows a final link and needs r.
    #[inline]
    pub fn stat(path: &'a Text) -> Walk<'a>
        ensures { walk_of result ≡ stat_walk path.now }
    {
        from_here(Follow::Last, path, Perms::R)
    }

    /// Returns the walk of lstat(2), which does not follow a final link and needs r.
    #[inline]
    pub fn lstat(path: &'a Text) -> Walk<'a>
        ensures { walk_of result ≡ lstat_walk path.now }
    {
        from_here(Follow::Keep, path, Perms::R)
    }

    /// Returns the walk of readlink(2), which does not follow a final link and needs r.
    #[inline]
    pub fn readlink(path: &'a Text) -> Walk<'a>
        ensures { walk_of result ≡ readlink_walk path.now }
    {
        from_here(Follow::Keep, path, Perms::R)
    }

    /// Returns the walk of mkdir(2), which drops trailing slashes, does not follow a final link, and needs c.
    #[inline]
    pub fn mkdir(path: &'a Text) -> Walk<'a>
        ensures { walk_of result ≡ mkdir_walk path.now }
    {
        from_here(Follow::KeepTrimmed, path, Perms::C)
    }

    /// Returns the walk of symlink(2) to the new link, which does not follow a final link and needs c.
    #[inline]
    pub fn symlink(path: &'a Text) -> Walk<'a>
        ensures { walk_of result ≡ symlink_walk path.now }
    {
        from_here(Follow::Keep, path, Perms::C)
    }

    /// Returns the first walk of link(2), to the existing file, which follows a final link and needs r.
    #[inline]
    pub fn linked(path: &'a Text) -> Walk<'a>
        ensures { walk_of result ≡ linked_walk path.now }
    {
        from_here(Follow::Last, path, Perms::R)
    }

    /// Returns the second walk of link(2), to the new name, which does not follow a final link and needs c.
    #[inline]
    pub fn new_link(path: &'a Text) -> Walk<'a>
        ensures { walk_of result ≡ new_link_walk path.now }
    {
        from_here(Follow::Keep, path, Perms::C)
    }

    /// Returns the walk of unlink(2), which does not follow a final link and needs c.
    #[inline]
    pub fn unlink(path: &'a Text) -> Walk<'a>
        ensures { walk_of result ≡ unlink_walk path.now }
    {
        from_here(Follow::Keep, path, Perms::C)
    }

    /// Returns the walk of rmdir(2), which does not follow a final link and needs c.
    #[inline]
    pub fn rmdir(path: &'a Text) -> Walk<'a>
        ensures { walk_of result ≡ rmdir_walk path.now }
    {
        from_here(Follow::Keep, path, Perms::C)
    }

    /// Returns either walk of rename(2), which does not follow a final link and needs c.
    #[inline]
    pub fn rename(path: &'a Text) -> Walk<'a>
        ensures { walk_of result ≡ rename_walk path.now }
    {
        from_here(Follow::Keep, path, Perms::C)
    }

    /// Returns the walk of unveil(2), which follows a final link.
    ///
    /// The permissions are those that the new entry is to grant. The unveil table does not check the place against
    /// them.
    #[inline]
    pub fn unveil(path: &'a Text, permissions: Perms) -> Walk<'a>
        ensures { walk_of result ≡ unveil_walk path.now permissions }
    {
        from_here(Follow::Last, path, permissions)
    }
}

// Returns the permissions that the text denotes, or the empty set if the text is not valid.
fn permissions_or_none(text: &Text) -> Perms
    ensures { result ≡ permissions_or_none (read_permissions text.now) }
{
    Perms::read(text.as_slice()).unwrap_or(Perms::NONE)
}

impl<'a> CallRef<'a> {
    /// Returns the walks of the call in order, each with the permissions that the call needs where it ends.
    #[inline]
    pub fn walks(self) -> Walks<'a>
        ensures { walks_in result ≡ walks_of (call_of self.entry) }
    {
        match self {
            CallRef::Unveil(Some(path), Some(text)) => {
                Walks::One(Walk::unveil(path, permissions_or_none(text)))
            }
            CallRef::Execve(path) => Walks::One(Walk::execve(path)),
            CallRef::Open(path, flags) => {
                Walks::One(Walk::open(Start::WorkingDirectory, path, flags))
            }
            CallRef::OpenAt(start, path, flags) => Walks::One(Walk::open(start, path, flags)),
            CallRef::Chdir(path) => Walks::One(Walk::chdir(path)),
            CallRef::Stat(path) => Walks::One(Walk::stat(path)),
            CallRef::Lstat(path) => Walks::One(Walk::lstat(path)),
            CallRef::Readlink(path) => Walks::One(Walk::readlink(path)),
            CallRef::Mkdir(path) => Walks::One(Walk::mkdir(path)),
            CallRef::Symlink(_, path) => Walks::One(Walk::symlink(path)),
            CallRef::Link(path, new) => Walks::Two(Walk::linked(path), Walk::new_link(new)),
            CallRef::Unlink(path) => Walks::One(Walk::unlink(path)),
            CallRef::Rmdir(path) => Walks::One(Walk::rmdir(path)),
            CallRef::Rename(path, new) => Walks::Two(Walk::rename(path), Walk::rename(new)),
            _ => Walks::Zero,
        }
    }
}
