//! A call as it is recorded.

use pv_model::{CallRef, Perms, Promises, Target};
use pv_script::Program;
use std::marker::Model;

/// A walk of a call that was checked: the unveil target of its place, this target in words, and the permissions that it
/// needs.
#[derive(Drop)]
pub(crate) struct AskedWalk {
    /// The target.
    pub(crate) target: Target,
    /// The target in words.
    pub(crate) words: Vec<u8>,
    /// The permissions.
    pub(crate) permissions: Perms,
}

impl Model for AskedWalk {
    ghost use Rattle.pv_model.specs.Answers.Needs.{Judged};

    ghost Value = { Judged };

    ghost view = { λ w. record { target = w.target; words = w.words.items; permissions = w.permissions } };
}

/// Permissions at a target in words.
#[derive(Drop)]
pub(crate) struct Granted {
    /// The target in words.
    pub(crate) words: Vec<u8>,
    /// The permissions.
    pub(crate) permissions: Perms,
}

impl Model for Granted {
    ghost use Rattle.pv_model.specs.Answers.Policy.{Granted as GrantedByDefinition};

    ghost Value = { GrantedByDefinition };

    ghost view = { λ g. (g.words.items, g.permissions) };
}

/// A call of a process in a state, and its demands.
#[derive(Clone, Copy)]
pub(crate) struct NotedCall<'a> {
    /// The line BY of its step.
    pub(crate) by: &'a [u8],
    /// The number of its process.
    pub(crate) pid: u32,
    /// The program of its process.
    pub(crate) program: &'a Program,
    /// The call.
    pub(crate) call: CallRef<'a>,
    /// Its line in the program.
    pub(crate) line: u16,
    /// The promises of the process, or `None` if it is not pledged.
    pub(crate) pledged: Option<Promises>,
    /// The walks that were checked.
    pub(crate) walks: &'a [AskedWalk],
    /// The permissions of the entries of the table in force, at their targets in words.
    pub(crate) held: &'a [Granted],
    /// The permissions that the walks used, at the targets of the entries that govern them.
    pub(crate) used: &'a [Granted],
}
