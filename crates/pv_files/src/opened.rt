//! One open file and its record.
ghost use Rattle.std.specs.Prelude.{◌≡◌, ◌+◌, ◌-◌, ◌<◌, ◌↔◌, true, None, Some, IfSome, IsSome, option_map};

use crate::last_name::LastName;
use pv_model::{Mode, Name};

/// An open file that descriptors share, with their number. If it has no user, the record is free.
#[derive(Drop)]
pub(crate) struct Opened {
    /// The number of its node.
    pub(crate) node: u16,
    /// Its mode: reading, writing or both.
    pub(crate) mode: Mode,
    /// Whether each write appends.
    pub(crate) append: bool,
    /// The offset at which the next read or write starts.
    pub(crate) offset: u32,
    /// The last name that getdents(2) returned.
    pub(crate) listed: LastName,
    /// The number of descriptors that use it.
    pub(crate) users: u16,
}

impl Opened {
    ghost use Rattle.pv_files.specs.Slots.{file_of, where_used};

    /// Creates a free record.
    pub(crate) fn free() -> Opened
        ensures { result.users ≡ 0 }
    {
        Opened {
            node: 0,
            mode: Mode::Read,
            append: false,
            offset: 0,
            listed: LastName::none(),
            users: 0,
        }
    }

    /// Opens a node in the record, with one user, at offset 0 and without a listed name.
    pub(crate) fn open(&mut self, node: u16, mode: Mode, append: bool)
        ensures { self.new
            ≡ record { node = node; mode = mode; append = append; offset = 0; listed = None; users = 1 } }
    {
        self.node = node;
        self.mode = mode;
        self.append = append;
        self.offset = 0;
        self.listed.forget();
        self.users = 1;
    }

    /// Adds a user.
    pub(crate) fn add_user(&mut self)
        requires { self.old.users < 65535 }
        ensures { self.new ≡ record self.old { users = self.old.users + 1 } }
    {
        self.users += 1;
    }

    /// Removes a user. If it was the last one, the node is returned.
    pub(crate) fn take_user(&mut self) -> Option<u16>
        requires { 0 < self.old.users }
        ensures taken { self.new ≡ record self.old { users = self.old.users - 1 } }
        ensures last { IsSome result ↔ (self.old.users ≡ 1) }
        ensures node { IfSome result (λ n. n ≡ self.old.node) }
    {
        self.users -= 1;
        if self.users == 0 {
            Some(self.node)
        } else {
            None
        }
    }

    /// Sets the offset.
    pub(crate) fn put_offset(&mut self, offset: u32)
        ensures { self.new ≡ record self.old { offset = offset } }
    {
        self.offset = offset;
    }

    /// Sets the last name listed.
    pub(crate) fn put_last_name(&mut self, name: Name)
        ensures { self.new ≡ record self.old { listed = Some name } }
    {
        self.listed.keep(name);
    }

    /// Returns true only if two records are free, or are in use and have the same open file.
    pub(crate) fn is_same(&self, other: &Opened) -> bool
        ensures { result ≡ true → option_map file_of (where_used self.now) ≡ option_map file_of (where_used other.now) }
    {
        if self.users > 0 && other.users > 0 {
            self.has_same_file(other)
        } else {
            self.users == other.users
        }
    }

    // Returns true only if two records have the same open file.
    fn has_same_file(&self, other: &Opened) -> bool
        ensures { result ≡ true → file_of self.now ≡ file_of other.now }
    {
        self.node == other.node
            && self.mode == other.mode
            && self.append == other.append
            && self.offset == other.offset
            && self.listed.is_same(&other.listed)
    }

    /// Makes this record free if another one is free, and otherwise equal to it.
    pub(crate) fn copy_from(&mut self, other: &Opened)
        ensures { where_used self.new ≡ where_used other.now }
    {
        if other.users == 0 {
            self.users = 0;
            return;
        }
        self.node = other.node;
        self.mode = other.mode;
        self.append = other.append;
        self.offset = other.offset;
        self.listed.copy_from(&other.listed);
        self.users = other.users;
    }
}
