//! The entries of an unveil table, in the order in which they were added.
ghost use Rattle.std.specs.Prelude.{◌≡◌, ◌<◌, length, position, slice_set, IfSome};
ghost use Rattle.pv_model.specs.declared.limits.TheConstants.{UNVEILS};
ghost use Rattle.pv_model.specs.Machine.{Bytes, entry_for};
ghost use Rattle.pv_unveil.specs.Keys.{is_own, keys_of, is_target_named};

use crate::key::Key;
use crate::marks::Marks;
use arrayvec::ArrayVec;
use pv_model::limits::UNVEILS;
use pv_model::{Perms, Target};
use std::alloc::{AllocError, Global};
use std::marker::Model;

// Returns whether a target is for this name.
fn has_name(target: &Target, name: &[u8]) -> bool
    ensures { result ≡ is_target_named name.now target.now }
{
    match target {
        Target::Directory(_) => false,
        Target::Name { name: other, .. } => other.as_slice() == name,
    }
}

// Returns the index of the entry for a directory itself.
fn index_of_directory(keys: &[Key], directory: u16) -> Option<usize>
    ensures { result ≡ position (λ key. is_own directory key) keys.now }
{
    keys.iter().position(|key| key.is_own(directory))
}

// Returns the index of the entry for a name in a directory. Only entries for names in this directory are compared by
// name. It is a separate function, so that most calls of `for_name` end after the test of a mark.
#[inline(never)]
fn index_of_name(
    keys: &[Key],
    entries: &[(Target, Perms)],
    directory: u16,
    name: &[u8],
) -> Option<usize>
    requires { keys.now ≡ keys_of entries.now }
    ensures { result ≡ entry_for entries.now (Target.Name directory name.now) }
{
    for (k, key) in keys.iter().enumerate() {
        if key.is_name_in(directory) && has_name(&entries[k].0, name) {
            return Some(k);
        }
    }
    None
}

// Converts an index of an entry to its number.
fn number_of(index: Option<usize>) -> Option<u8>
    requires { IfSome index (λ k. k < UNVEILS) }
    ensures { result ≡ index }
{
    match index {
        Some(k) => Some(k as u8),
        None => None,
    }
}

// Replaces key `k`.
fn replace_key(keys: &mut ArrayVec<Key, UNVEILS>, k: u8, key: Key)
    requires { k < length keys.old.items }
    ensures { keys.new.items ≡ slice_set keys.old.items k key }
{
    keys.as_mut_slice()[k as usize] = key;
}

/// At most 64 entries in the order of their arrival, with an array of their keys.
#[derive(Drop)]
pub(crate) struct Entries {
    entries: Vec<(Target, Perms)>,
    keys: ArrayVec<Key, UNVEILS>,
    // A filter of the targets that can have entries: a target without a mark has no entry.
    marks: Marks,
}

impl Model for Entries {
    ghost use Rattle.std.specs.Prelude.{vec_capacity};
    ghost use Rattle.pv_model.specs.Unveil.{Table};
    ghost use Rattle.pv_unveil.specs.Keys.{IsKeyed};

    ghost Value = { Table };

    ghost view = { λ t. t.entries.items };

    ghost invariant = { λ t. IsKeyed t.entries.items t.keys.items t.marks (vec_capacity t.entries) };
}

impl Entries {
    ghost use Rattle.std.specs.Prelude.{◌≤◌, ◌↔◌, [], ◌∷◌, ◌++◌, IfOk, IsTrue, Some, option_map, slice_get};
    ghost use Rattle.pv_model.specs.Unveil.{permissions_at};

    /// Creates an empty list with a capacity of 64 entries.
    ///
    /// # Errors
    ///
    /// Returns `AllocError` if memory for the entries cannot be allocated.
    pub(crate) fn new(alloc: Global) -> Result<Entries, AllocError>
        ensures { IfOk result (λ entries. entries ≡ []) }
    {
        Ok(Entries {
            entries: Vec::with_capacity(alloc, UNVEILS)?,
            keys: ArrayVec::new(),
            marks: Marks::none(),
        })
    }

    /// Returns the number of entries, at most 64.
    pub(crate) fn len(&self) -> usize
        ensures value { result ≡ length self.now }
        ensures few { result ≤ UNVEILS }
    {
        self.entries.len()
    }

    /// Returns whether there are no entries.
    pub(crate) fn is_empty(&self) -> bool
        ensures { IsTrue result ↔ (self.now ≡ []) }
    {
        self.entries.is_empty()
    }

    /// Returns the target of entry `k`.
    pub(crate) fn target(&self, k: u8) -> &Target
        requires { k < length self.now }
        ensures { option_map (λ e. e.0) (slice_get self.now k) ≡ Some result.now }
    {
        &self.entries.as_slice()[k as usize].0
    }

    /// Returns the permissions of entry `k`.
    pub(crate) fn permissions_at(&self, k: u8) -> Perms
        ensures { result ≡ permissions_at self.now k }
    {
        match self.entries.as_slice().get(k as usize) {
            Some(entry) => entry.1,
            None => Perms::NONE,
        }
    }

    /// Returns the number of the entry for a directory.
    pub(crate) fn for_directory(&self, directory: u16) -> Option<u8>
        ensures value { result ≡ entry_for self.now (Target.Directory directory) }
        ensures in_table { IfSome result (λ k. k < length self.now) }
    {
        if !self.marks.has_directory(directory) {
            return None;
        }
        number_of(index_of_directory(self.keys.as_slice(), directory))
    }

    /// Returns the number of the entry for a name in a directory.
    pub(crate) fn for_name(&self, directory: u16, name: &[u8]) -> Option<u8>
        ensures value { result ≡ entry_for self.now (Target.Name directory name.now) }
        ensures in_table { IfSome result (λ k. k < length self.now) }
    {
        if !self.marks.has_name(directory, name) {
            return None;
        }
        number_of(index_of_name(
            self.keys.as_slice(),
            self.entries.as_slice(),
            directory,
            name,
        ))
    }

    /// Returns the number of the entry for a target.
    pub(crate) fn for_target(&self, target: &Target) -> Option<u8>
        ensures value { result ≡ entry_for self.now target.now }
        ensures in_table { IfSome result (λ k. k < length self.now) }
    {
        match target {
            Target::Directory(directory) => self.for_directory(*directory),
            Target::Name { dir, name } => self.for_name(*dir, name.as_slice()),
        }
    }

    /// Appends an entry.
    pub(crate) fn push(&mut self, target: Target, permissions: Perms)
        requires { length self.old < UNVEILS }
        ensures { self.new ≡ self.old ++ (target, permissions) ∷ [] }
    {
        let key = Key::of(&target);
        self.marks.set(&target);
        self.keys.push(key);
        self.entries.push_reserved((target, permissions));
    }

    /// Replaces entry `k`.
    pub(crate) fn replace(&mut self, k: u8, target: Target, permissions: Perms)
        requires { k < length self.old }
        ensures { self.new ≡ slice_set self.old k (target, permissions) }
    {
        let key = Key::of(&target);
        self.marks.set(&target);
        replace_key(&mut self.keys, k, key);
        self.entries[k as usize] = (target, permissions);
    }

    /// Removes all entries.
    pub(crate) fn clear(&mut self)
        ensures { self.new ≡ [] }
    {
        self.marks = Marks::none();
        self.keys.clear();
        self.entries.clear();
    }

    /// Replaces the entries by those of `other`.
    pub(crate) fn copy_from(&mut self, other: &Entries)
        ensures { self.new ≡ other.now }
    {
        self.clear();
        for (target, permissions) in other.entries.as_slice() {
            self.push(target.copy(), *permissions);
        }
    }
}
