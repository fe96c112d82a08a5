//! The unveil entries with permission c that govern directories.
ghost use Rattle.std.specs.Prelude.{◌≡◌, ◌<◌, length, IsTrue, IfSome};
ghost use Rattle.pv_audit.specs.Findings.{least_above, lesser, passing};
ghost use Rattle.pv_model.specs.Machine.{entries_of_table, is_directory_at};

use pv_calls_state::tree::Tree;
use pv_calls_state::unveil::{Table, above};

/// Returns the lesser of two numbers, either of which may be absent.
pub(crate) fn lesser(a: Option<u8>, b: Option<u8>) -> Option<u8>
    ensures { result ≡ lesser a b }
{
    match (a, b) {
        (Some(a), Some(b)) => Some(a.min(b)),
        (Some(a), None) => Some(a),
        (None, b) => b,
    }
}

// Returns an entry if it has permission c.
fn with_c(table: &Table, entry: Option<u8>) -> Option<u8>
    requires { IfSome entry (λ k. k < length (entries_of_table table.now.table)) }
    ensures { result ≡ passing (λ permissions. permissions.c) (entries_of_table table.now.table) entry }
{
    match entry {
        Some(k) if table.permissions(k).c => Some(k),
        _ => None,
    }
}

/// Returns the least entry with permission c that governs a directory or one of its ancestors. Each such entry is the
/// own entry of one of these directories.
pub(crate) fn least_above(table: &Table, tree: &Tree, directory: u16) -> Option<u8>
    requires { IsTrue (is_directory_at tree.now.tree directory) }
    ensures { result ≡ least_above tree.now.tree (entries_of_table table.now.table) directory }
{
    let mut least = None;
    let mut at = directory;
    for _climbed in 0..tree.sizes().inodes + 1 {
        let own = table.directory_entry(at);
        least = lesser(least, with_c(table, own));
        let Some(up) = above(tree, at) else {
            return least;
        };
        at = up;
    }
    least
}
