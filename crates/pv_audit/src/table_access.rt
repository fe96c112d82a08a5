//! The access that an unveil table gives to a file.
ghost use Rattle.std.specs.Prelude.{◌≡◌, IsTrue};
ghost use Rattle.pv_audit.specs.Findings.{nothing, with_name_noted};
ghost use Rattle.pv_model.specs.Machine.{entries_of_table, is_directory_at};

use crate::entries::{least_above, lesser};
use pv_calls_state::tree::Tree;
use pv_calls_state::unveil::Table;
use pv_model::Name;

/// The access that the table of a process gives to a file, by the names of the file that were noted.
#[derive(Clone, Copy, Default)]
pub(crate) struct TableAccess {
    /// The least entry that gives a name r, x or c.
    pub(crate) gives: Option<u8>,
    /// The least entry with c that governs the directory of a name or one of its ancestors.
    pub(crate) above: Option<u8>,
    /// Whether an entry gives a name w.
    pub(crate) writes: bool,
}

impl TableAccess {
    /// Returns the access before any name is noted.
    pub(crate) fn nothing() -> TableAccess
        ensures { result ≡ nothing }
    {
        TableAccess {
            gives: None,
            above: None,
            writes: false,
        }
    }

    /// Adds the access that the table gives by another name of the file, in the given directory.
    pub(crate) fn note(&mut self, table: &Table, tree: &Tree, directory: u16, name: &Name)
        requires { IsTrue (is_directory_at tree.now.tree directory) }
        ensures { self.new ≡ with_name_noted tree.now.tree (entries_of_table table.now.table) self.old (directory, name.now) }
    {
        if let Some(k) = table.name_entry(tree, directory, name.as_slice()) {
            let permissions = table.permissions(k);
            if permissions.r || permissions.x || permissions.c {
                self.gives = lesser(self.gives, Some(k));
            }
            self.writes = self.writes || permissions.w;
        }
        self.above = lesser(self.above, least_above(table, tree, directory));
    }
}
