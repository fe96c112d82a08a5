//! Unveil tables.
ghost use Rattle.std.specs.Prelude.{◌≡◌, ◌<◌, ◌≤◌, length, OnOk, OnErr, IfOk, IfErr, None, Some, true, false, ◌↔◌, IsTrue, if◌then◌else◌, ◌&&◌, option_map, slice_get, slice_set, IfSome};
ghost use Rattle.pv_model.specs.Machine.{give, directory_rights, entry_for, permissions_at};
ghost use Rattle.pv_unveil.specs.Added.{refusal_of_addition, put_in};

use crate::entries::Entries;
use crate::rights::{governing_entry, judge_in, name_rights};
use pv_model::limits::UNVEILS;
use pv_model::{Judgement, Perms, Target};
use pv_tree::{PlaceRef, Tree};
use std::alloc::{AllocError, Global};
use std::marker::Model;

/// Why an entry cannot be added, unveil(2). The first variant that applies is returned.
#[derive(Clone, Copy, Debug, PartialEq, Eq)]
pub enum AddFault {
    /// The table is locked: EPERM.
    Locked,
    /// The target has this entry, and the entry lacks a permission that is requested: EPERM.
    Increase(u8),
    /// The target is new, and there are 64 entries already: E2BIG.
    Many,
}

/// The unveil table of a process, unveil(2): at most 64 entries in the order of their arrival, and a lock.
///
/// A process without entries has no table, and nothing is hidden from it.
#[derive(Drop)]
pub struct Table {
    entries: Entries,
    locked: bool,
}

impl Model for Table {
    ghost use Rattle.pv_unveil.specs.Unveiled.{Unveiled, in_force};

    ghost Value = { Unveiled };

    ghost view = { λ t. record { table = in_force t.entries; locked = t.locked } };
}

// Adds an entry, or reduces the permissions of the entry for the target.
fn put(entries: &mut Entries, target: Target, permissions: Perms) -> Result<u8, AddFault>
    ensures added { OnOk result (put_in entries.old target permissions ≡ give entries.new) }
    ensures number { IfOk result (λ k. entry_for entries.new target ≡ Some k) }
    ensures permissions { IfOk result (λ k. permissions_at entries.new k ≡ permissions) }
    ensures refused { IfErr result (λ fault. put_in entries.old target permissions ≡ refusal_of_addition fault) }
    ensures unchanged { OnErr result (entries.new ≡ entries.old) }
{
    match entries.for_target(&target) {
        Some(k) => {
            if !entries.permissions_at(k).covers(permissions) {
                return Err(AddFault::Increase(k));
            }
            entries.replace(k, target, permissions);
            Ok(k)
        }
        None => {
            let count = entries.len();
            if count >= UNVEILS {
                return Err(AddFault::Many);
            }
            entries.push(target, permissions);
            Ok(count as u8)
        }
    }
}

impl Table {
    ghost use Rattle.std.specs.Option.{IsSomeAnd, option_or};
    ghost use Rattle.pv_model.specs.Calls.Restraints.{entries_of_table};
    ghost use Rattle.pv_model.specs.Tree.{is_directory_at};
    ghost use Rattle.pv_model.specs.Unveil.{governing_entry, judgement};
    ghost use Rattle.pv_unveil.specs.Judged.{IsJudged};
    ghost use Rattle.pv_unveil.specs.Up.{directory_of_place};
    ghost use Rattle.pv_unveil.specs.Added.{add_to};

    /// Creates a table without entries and unlocked.
    ///
    /// # Errors
    ///
    /// Returns `AllocError` if memory for the entries cannot be allocated. No other method of `Table` allocates memory.
    pub fn new(alloc: Global) -> Result<Table, AllocError>
        ensures table { IfOk result (λ t. t.table ≡ None) }
        ensures unlocked { IfOk result (λ t. t.locked ≡ false) }
    {
        Ok(Table {
            entries: Entries::new(alloc)?,
            locked: false,
        })
    }

    /// Returns whether the table is locked.
    pub fn is_locked(&self) -> bool
        ensures { result ≡ self.now.locked }
    {
        self.locked
    }

    /// Locks the table. From then on `add` fails, so the entries stay as they are.
    pub fn lock(&mut self)
        ensures { self.new ≡ record self.old { locked = true } }
    {
        self.locked = true;
    }

    /// Returns the number of entries, at most 64.
    pub fn len(&self) -> usize
        ensures value { result ≡ length (entries_of_table self.now.table) }
        ensures few { result ≤ UNVEILS }
    {
        self.entries.len()
    }

    /// Returns whether there are no entries, and thus no table.
    pub fn is_empty(&self) -> bool
        ensures { IsTrue result ↔ (self.now.table ≡ None) }
    {
        self.entries.is_empty()
    }

    /// Returns the target of entry `k`.
    pub fn target(&self, k: u8) -> &Target
        requires { k < length (entries_of_table self.now.table) }
        ensures { option_map (λ e. e.0) (slice_get (entries_of_table self.now.table) k)
            ≡ Some result.now }
    {
        self.entries.target(k)
    }

    /// Returns the permissions of entry `k`.
    pub fn permissions(&self, k: u8) -> Perms
        requires { k < length (entries_of_table self.now.table) }
        ensures { result ≡ permissions_at (entries_of_table self.now.table) k }
    {
        self.entries.permissions_at(k)
    }

    /// Returns the number of the entry for the directory itself, if there is one.
    pub fn directory_entry(&self, directory: u16) -> Option<u8>
        ensures value { result ≡ entry_for (entries_of_table self.now.table) (Target.Directory directory) }
        ensures in_table { IfSome result (λ k. k < length (entries_of_table self.now.table)) }
    {
        self.entries.for_directory(directory)
    }

    /// Returns the number of the entry for the name itself, if there is one.
    pub fn own_name_entry(&self, directory: u16, name: &[u8]) -> Option<u8>
        ensures value { result ≡ entry_for (entries_of_table self.now.table) (Target.Name directory name.now) }
        ensures in_table { IfSome result (λ k. k < length (entries_of_table self.now.table)) }
    {
        self.entries.for_name(directory, name)
    }

    /// Returns the number of the entry for the target itself, if there is one.
    pub fn entry_for(&self, target: &Target) -> Option<u8>
        ensures value { result ≡ entry_for (entries_of_table self.now.table) target.now }
        ensures in_table { IfSome result (λ k. k < length (entries_of_table self.now.table)) }
    {
        self.entries.for_target(target)
    }

    /// Returns the number of the entry that governs a name in a directory of a tree: the entry of the name, or else the
    /// one that governs the directory. The name must not name a directory.
    pub fn name_entry(&self, tree: &Tree, directory: u16, name: &[u8]) -> Option<u8>
        requires { IsTrue (is_directory_at tree.now.tree directory) }
        ensures value { result ≡ option_or (entry_for (entries_of_table self.now.table) (Target.Name directory name.now)) (directory_rights tree.now.tree (entries_of_table self.now.table) directory) }
        ensures in_table { IfSome result (λ k. k < length (entries_of_table self.now.table)) }
    {
        name_rights(&self.entries, tree, directory, name)
    }

    /// Returns the number of the entry that governs a place of a tree, or `None` if no entry governs it. A directory is
    /// governed by its own entry, or else by the one that governs its parent. A name is governed by its own entry, or
    /// else by the one that governs its directory. The name of the place must be in a directory of the tree, or its
    /// node must be a directory.
    pub fn governing(&self, tree: &Tree, place: &PlaceRef<'_>) -> Option<u8>
        requires { IsTrue (is_directory_at tree.now.tree (directory_of_place place.now)) }
        ensures value { result ≡ governing_entry tree.now.tree (entries_of_table self.now.table) place.now }
        ensures in_table { IfSome result (λ k. k < length (entries_of_table self.now.table)) }
    {
        governing_entry(&self.entries, tree, place)
    }

    /// Adds an entry for a target, or sets the permissions of the target's entry to a subset. Returns the number of the
    /// entry; entries are numbered from 0 in the order of their arrival. The first entry activates the table.
    ///
    /// # Errors
    ///
    /// Returns the first variant of `AddFault` that applies. If the call fails, the table does not change.
    pub fn add(&mut self, target: Target, permissions: Perms) -> Result<u8, AddFault>
        ensures added { OnOk result
            (IsSomeAnd self.new.table (λ table. add_to self.old target permissions ≡ give table)) }
        ensures number { IfOk result
            (λ k. entry_for (entries_of_table self.new.table) target ≡ Some k) }
        ensures permissions { IfOk result
            (λ k. permissions_at (entries_of_table self.new.table) k ≡ permissions) }
        ensures lock_stays { self.new.locked ≡ self.old.locked }

        // The first variant that applies, in the order of `AddFault`.
        ensures refused { IfErr result (λ fault. add_to self.old target permissions ≡ refusal_of_addition fault) }
        ensures unchanged { OnErr result (self.new ≡ self.old) }
    {
        if self.locked {
            return Err(AddFault::Locked);
        }
        put(&mut self.entries, target, permissions)
    }

    /// Copies the entries and the lock of `other`, as fork(2) does for the child. Unused elements are not copied.
    pub fn copy_from(&mut self, other: &Table)
        ensures { self.new ≡ other.now }
    {
        self.entries.copy_from(&other.entries);
        self.locked = other.locked;
    }

    /// Applies the effect of execve(2): unless `keeps` is true, it removes the entries and the lock.
    pub fn after_exec(&mut self, keeps: bool)
        ensures table { self.new.table ≡ (if keeps then self.old.table else None) }
        ensures lock { self.new.locked ≡ (keeps && self.old.locked) }
    {
        if !keeps {
            self.entries.clear();
            self.locked = false;
        }
    }

    /// Returns the answer of the table for a place and the permissions that a call needs, unveil(2).
    ///
    /// If there are no entries, every place is allowed. Otherwise the entry that governs the place decides. If no entry
    /// governs the place, it is hidden. If the entry lacks a permission, access is denied. The name of the place must
    /// be in a directory of the tree, or its node must be a directory; this holds for each place that a path leads to.
    pub fn judge(&self, tree: &Tree, place: &PlaceRef<'_>, needed: Perms) -> Judgement
        requires { IsTrue (is_directory_at tree.now.tree (directory_of_place place.now)) }
        ensures value { result ≡ judgement tree.now.tree self.now.table place.now needed }
        ensures by_entry { IsJudged tree.now.tree self.now.table place.now needed result }
    {
        judge_in(&self.entries, tree, place, needed)
    }
}
