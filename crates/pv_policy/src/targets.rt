//! The targets at which the walks of a program's calls were checked.
ghost use Rattle.std.specs.Prelude.{◌≡◌, [], bytes_eq, map, position, IfOk, OnOk};
ghost use Rattle.pv_model.specs.Machine.{permissions_lacked, no_permissions};
ghost use Rattle.pv_policy.specs.Usage.{and_walk, and_walks, used_target_with, walked};

use crate::noted::AskedWalk;
use crate::text::push_new;
use pv_model::Perms;
use std::alloc::{AllocError, Global};
use std::marker::Model;

/// A target in words at which walks were checked: the permissions that they asked for, and the lines of those that
/// asked for new ones.
#[derive(Drop)]
pub(crate) struct TargetUse {
    words: Vec<u8>,
    permissions: Perms,
    lines: Vec<u8>,
}

impl Model for TargetUse {
    ghost use Rattle.pv_policy.specs.Usage.{UsedTarget};

    ghost Value = { UsedTarget };

    ghost view = { λ t. record { words = t.words.items; permissions = t.permissions; lines = t.lines.items } };
}

/// Returns the permissions of the second set that the first lacks.
pub(crate) fn lacked(has: Perms, asked: Perms) -> Perms
    ensures { result ≡ permissions_lacked has asked }
{
    Perms {
        r: asked.r && !has.r,
        w: asked.w && !has.w,
        x: asked.x && !has.x,
        c: asked.c && !has.c,
    }
}

impl TargetUse {
    // Returns a target before the first walk.
    fn new(alloc: Global, words: &[u8]) -> Result<TargetUse, AllocError>
        ensures { IfOk result (λ target. target ≡ record { words = words.now; permissions = no_permissions; lines = [] }) }
    {
        Ok(TargetUse {
            words: words.to_vec(alloc)?,
            permissions: Perms::NONE,
            lines: Vec::new(alloc),
        })
    }

    // Returns the target in words.
    fn words(&self) -> &[u8]
        ensures { result.now ≡ self.now.words }
    {
        &self.words
    }

    /// Returns the lines of the walks that asked for new permissions.
    pub(crate) fn lines(&self) -> &[u8]
        ensures { result.now ≡ self.now.lines }
    {
        &self.lines
    }

    // Adds a walk.
    fn add(
        &mut self,
        alloc: Global,
        by: &[u8],
        pid: u32,
        walk: &AskedWalk,
    ) -> Result<(), AllocError>
        ensures { OnOk result (self.new ≡ used_target_with self.old (walked by.now pid walk.now)) }
    {
        let new = lacked(self.permissions, walk.permissions);
        push_new(alloc, &mut self.lines, by, pid, new, &self.words)?;
        self.permissions = self.permissions.join(walk.permissions);
        Ok(())
    }
}

// Returns the index of a target in words.
fn index_of(targets: &[TargetUse], words: &[u8]) -> Option<usize>
    ensures { result ≡ position (λ target. bytes_eq words.now target.words) targets.now }
{
    targets.iter().position(|target| words == target.words())
}

// Adds a walk to its target, or to a new one.
fn add_walk(
    alloc: Global,
    targets: &mut Vec<TargetUse>,
    by: &[u8],
    pid: u32,
    walk: &AskedWalk,
) -> Result<(), AllocError>
    ensures { OnOk result (targets.new.items ≡ and_walk targets.old.items (walked by.now pid walk.now)) }
{
    match index_of(targets, &walk.words) {
        Some(k) => targets[k].add(alloc, by, pid, walk)?,
        None => {
            let mut target = TargetUse::new(alloc, &walk.words)?;
            target.add(alloc, by, pid, walk)?;
            targets.push(target)?;
        }
    }
    Ok(())
}

/// Adds the walks of a call, whose line BY is given, to their targets.
///
/// # Errors
///
/// `AllocError`, if there is no memory.
pub(crate) fn add_walks(
    alloc: Global,
    targets: &mut Vec<TargetUse>,
    by: &[u8],
    pid: u32,
    walks: &[AskedWalk],
) -> Result<(), AllocError>
    ensures { OnOk result (targets.new.items ≡ and_walks targets.old.items (map (walked by.now pid) walks.now)) }
{
    for walk in walks {
        add_walk(alloc, targets, by, pid, walk)?;
    }
    Ok(())
}
