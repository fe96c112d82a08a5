//! Permissions at targets in words.
ghost use Rattle.std.specs.Prelude.{◌≡◌, bytes_eq, position, OnOk};
ghost use Rattle.pv_policy.specs.Usage.{and_all_granted, and_granted, permissions_granted_at};

use crate::noted::Granted;
use pv_model::Perms;
use std::alloc::{AllocError, Global};

// Returns the index of a target in words.
fn index_of(rows: &[Granted], words: &[u8]) -> Option<usize>
    ensures { result ≡ position (λ row. bytes_eq words.now row.0) rows.now }
{
    rows.iter().position(|row| words == row.words.as_slice())
}

// Adds permissions to those at the same target in words, or at a new one.
fn add_granted(alloc: Global, rows: &mut Vec<Granted>, granted: &Granted) -> Result<(), AllocError>
    ensures { OnOk result (rows.new.items ≡ and_granted rows.old.items granted.now) }
{
    match index_of(rows, &granted.words) {
        Some(k) => rows[k].join(granted.permissions),
        None => rows.push(granted.copy(alloc)?)?,
    }
    Ok(())
}

impl Granted {
    ghost use Rattle.std.specs.Prelude.{IfOk};
    ghost use Rattle.pv_model.specs.Perms.{join_permissions};

    // Adds permissions.
    fn join(&mut self, permissions: Perms)
        ensures { self.new ≡ (self.old.0, join_permissions self.old.1 permissions) }
    {
        self.permissions = self.permissions.join(permissions);
    }

    // Returns a copy.
    fn copy(&self, alloc: Global) -> Result<Granted, AllocError>
        ensures { IfOk result (λ copy. copy ≡ self.now) }
    {
        Ok(Granted {
            words: self.words.to_vec(alloc)?,
            permissions: self.permissions,
        })
    }
}

/// Adds permissions to those at the same targets in words.
///
/// # Errors
///
/// `AllocError`, if there is no memory.
pub(crate) fn add_all_granted(
    alloc: Global,
    rows: &mut Vec<Granted>,
    more: &[Granted],
) -> Result<(), AllocError>
    ensures { OnOk result (rows.new.items ≡ and_all_granted rows.old.items more.now) }
{
    for granted in more {
        add_granted(alloc, rows, granted)?;
    }
    Ok(())
}

/// Returns the permissions at a target in words.
pub(crate) fn permissions_at(rows: &[Granted], words: &[u8]) -> Perms
    ensures { result ≡ permissions_granted_at rows.now words.now }
{
    for row in rows {
        if row.words.as_slice() == words {
            return row.permissions;
        }
    }
    Perms::NONE
}
