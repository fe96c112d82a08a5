//! The open files of the system.
ghost use Rattle.std.specs.Prelude.{◌≡◌, ℕ, ◌+◌, ◌-◌, ◌<◌, ◌≤◌, ◌↔◌, true, is_some, length, None, Some, OnSome, IfSome, IfNone, IfOk, OnErr, IfErr, IsSome, IsTrue, MatchOption, option_map, slice_index, slice_set, position, is_none};
ghost use Rattle.std.specs.Option.{option_copied};
ghost use Rattle.pv_model.specs.Machine.{at_number, without_number, least_free};
ghost use Rattle.pv_files.specs.Counted.{IsCounted, no_files, counted_with_file, with_users, with_opened};
ghost use Rattle.pv_files.specs.Slots.{AreKeys, file_of, users_of, record_at, slots_under, where_used};

use crate::opened::Opened;
use pv_model::limits::OPEN_FILES;
use pv_model::{Errno, Mode, Name};
use slab::Slab;
use std::alloc::{AllocError, Global};
use std::marker::Model;

/// The open files of the system, numbered from 0 to 127, each with the number of its users.
///
/// A number is free if it has no user. All 128 records are created at the start and stay. In the record of a free
/// number, only the user count is meaningful.
#[derive(Drop)]
pub struct OpenFiles {
    // A record for each number. If the number is free, the record has no user. No record is removed.
    records: Slab<Opened>,
    // The slab key of each number's record.
    keys: [usize; OPEN_FILES],
    // No number below this one is free, so the search for the least free number starts here.
    first: usize,
    // No number from this one on is in use, so a copy or a comparison ends here.
    most: usize,
}

impl Model for OpenFiles {
    ghost use Rattle.pv_files.specs.Counted.{Counted};

    ghost Value = { Counted };

    ghost use Rattle.pv_files.specs.Slots.{counted_of, slots_under, AreRecords};

    ghost view = { λ t. counted_of (slots_under t.records t.keys) };

    ghost invariant = { λ t. AreRecords t.records t.keys t.first t.most };
}

// Returns the open file in the record with this key, or `None` if the record is free.
fn opened_at(records: &Slab<Opened>, key: usize) -> Option<&Opened>
    ensures { option_copied result ≡ record_at records.now key }
{
    let opened = records.get(key)?;
    if opened.users > 0 { Some(opened) } else { None }
}

// Returns the index of the first key whose record is free.
fn first_free_index(records: &Slab<Opened>, keys: &[usize]) -> Option<usize>
    ensures { result ≡ position (λ key. is_none (record_at records.now key)) keys.now }
{
    keys.iter()
        .position(|key| opened_at(records, *key).is_none())
}

// Returns the least number whose record is free, if there is one.
fn first_free_number(records: &Slab<Opened>, keys: &[usize]) -> Option<usize>
    ensures { MatchOption result (least_free (slots_under records.now keys.now) ≡ length keys.now)
        (λ k. (least_free (slots_under records.now keys.now) ≡ k) × (k < length keys.now)) }
{
    first_free_index(records, keys)
}

// Does the same as `first_free_number`, but searches from `first`. No number below it is free.
fn first_free_from(records: &Slab<Opened>, keys: &[usize], first: usize) -> Option<usize>
    requires within { first ≤ length keys.now }
    requires used { first ≤ least_free (slots_under records.now keys.now) }
    ensures { MatchOption result (least_free (slots_under records.now keys.now) ≡ length keys.now)
        (λ k. (least_free (slots_under records.now keys.now) ≡ k) × (k < length keys.now)) }
{
    let following = first_free_number(records, &keys[first..])?;
    Some(first + following)
}

// Makes the record of a number free if another record is free, and otherwise equal to it.
fn copy_record(records: &mut Slab<Opened>, keys: &[usize], number: usize, opened: &Opened)
    requires are_keys { AreKeys records.old keys.now }
    requires in_range { number < OPEN_FILES }
    ensures are_keys { AreKeys records.new keys.now }
    ensures copied { slots_under records.new keys.now
        ≡ slice_set (slots_under records.old keys.now) number (where_used opened.now) }
{
    records[keys[number]].copy_from(opened);
}

// Makes the open file of each number equal to the one that it has in another table.
fn copy_records(
    records: &mut Slab<Opened>,
    keys: &[usize],
    others: &Slab<Opened>,
    other_keys: &[usize],
    most: usize,
)
    requires are_keys { AreKeys records.old keys.now }
    requires are_other_keys { AreKeys others.now other_keys.now }
    requires few { most ≤ OPEN_FILES }
    requires rest { (k : ℕ) → most ≤ k → k < OPEN_FILES → (record_at records.old (slice_index keys.now k) ≡ None) × (record_at others.now (slice_index other_keys.now k) ≡ None) }
    ensures are_keys { AreKeys records.new keys.now }
    ensures copied { slots_under records.new keys.now ≡ slots_under others.now other_keys.now }
{
    for number in 0..most {
        copy_record(records, keys, number, &others[other_keys[number]]);
    }
}

impl OpenFiles {
    /// Creates a table without open files.
    ///
    /// # Errors
    ///
    /// Returns `AllocError` if memory for the records cannot be allocated. No other method of `OpenFiles` allocates
    /// memory.
    pub fn new(alloc: Global) -> Result<OpenFiles, AllocError>
        ensures { IfOk result (λ files. files ≡ no_files) }
    {
        let mut records = Slab::with_capacity(alloc, OPEN_FILES)?;
        let mut keys = [0; OPEN_FILES];
        for number in 0..OPEN_FILES {
            keys[number] = records.insert_reserved(Opened::free());
        }
        Ok(OpenFiles {
            records,
            keys,
            first: 0,
            most: 0,
        })
    }

    /// Does nothing. Its contract states the invariant of the open files.
    pub fn invariant(&self)
        ensures { IsCounted self.now }
    {
        let _ = &self.records;
    }

    /// Makes these open files equal to others, with the same users. Does not allocate.
    pub fn copy_from(&mut self, other: &OpenFiles)
        ensures { self.new ≡ other.now }
    {
        let most = self.most.max(other.most);
        copy_records(
            &mut self.records,
            &self.keys,
            &other.records,
            &other.keys,
            most,
        );
        self.first = other.first;
        self.most = other.most;
    }

    /// Returns a number from which on no number has an open file.
    pub fn bound(&self) -> usize
        ensures within { result ≤ OPEN_FILES }
        ensures none { (k : ℕ) → result ≤ k → at_number self.now.files k ≡ None }
    {
        self.most
    }

    /// Returns true only if the open files are the same as those of another table.
    pub fn is_same(&self, other: &OpenFiles) -> bool
        ensures { result ≡ true → self.now.files ≡ other.now.files }
    {
        for number in 0..self.most.max(other.most) {
            let opened = &self.records[self.keys[number]];
            if !opened.is_same(&other.records[other.keys[number]]) {
                return false;
            }
        }
        true
    }

    /// Returns whether some number is free.
    pub fn has_room(&self) -> bool
        ensures { IsTrue result ↔ (least_free self.now.files < OPEN_FILES) }
    {
        first_free_from(&self.records, &self.keys, self.first).is_some()
    }

    /// Opens a node with one user, at offset 0 and without a listed name. Returns the least free number, which the open
    /// file now has.
    ///
    /// # Errors
    ///
    /// Returns `ENFILE` if and only if all 128 numbers are in use. The open files then do not change.
    pub fn add(&mut self, node: u16, mode: Mode, append: bool) -> Result<usize, Errno>
        ensures number { IfOk result (λ k. k ≡ least_free self.old.files) }
        ensures in_range { IfOk result (λ k. k < OPEN_FILES) }
        ensures opened { IfOk result (λ k. self.new ≡ with_opened self.old k
            (record { node = node; mode = mode; append = append; offset = 0; listed = None })) }
        ensures errno { IfErr result (λ e. e ≡ Errno.ENFILE) }
        ensures full { OnErr result (least_free self.old.files ≡ OPEN_FILES) }
        ensures unchanged { OnErr result (self.new ≡ self.old) }
    {
        let Some(file) = first_free_from(&self.records, &self.keys, self.first) else {
            return Err(Errno::ENFILE);
        };
        self.records[self.keys[file]].open(node, mode, append);
        self.first = file + 1;
        self.most = self.most.max(file + 1);
        Ok(file)
    }

    // Returns the open file with this number.
    fn lookup(&self, file: usize) -> Option<&Opened>
        ensures file { option_map file_of (option_copied result) ≡ at_number self.now.files file }
        ensures users { users_of (option_copied result) ≡ slice_index self.now.users file }
    {
        opened_at(&self.records, *self.keys.get(file)?)
    }

    /// Returns whether a number has an open file.
    pub fn is_open(&self, file: usize) -> bool
        ensures { result ≡ is_some (at_number self.now.files file) }
    {
        self.lookup(file).is_some()
    }

    /// Returns the number of users of an open file, or 0 if the number is free.
    pub fn users(&self, file: usize) -> u16
        ensures { result ≡ slice_index self.now.users file }
    {
        match self.lookup(file) {
            Some(opened) => opened.users,
            None => 0,
        }
    }

    /// Adds a user to an open file that has fewer than 65,535.
    pub fn dup(&mut self, file: usize)
        requires opened { IsSome (at_number self.old.files file) }
        requires room { slice_index self.old.users file < 65535 }
        ensures { self.new ≡ with_users self.old file (slice_index self.old.users file + 1) }
    {
        self.records[self.keys[file]].add_user();
    }

    /// Removes a user of an open file. If it was the last user, the number becomes free, and the number of the node
    /// that was open is returned.
    pub fn release(&mut self, file: usize) -> Option<u16>
        requires { IsSome (at_number self.old.files file) }
        ensures users { self.new.users
            ≡ slice_set self.old.users file (slice_index self.old.users file - 1) }
        ensures last { IsSome result ↔ (slice_index self.old.users file ≡ 1) }
        ensures node { IfSome result
            (λ n. option_map (λ f. f.node) (at_number self.old.files file) ≡ Some n) }
        ensures closed { OnSome result (self.new.files ≡ without_number self.old.files file) }
        ensures stays { IfNone result (self.new.files ≡ self.old.files) }
    {
        let node = self.records[self.keys[file]].take_user()?;
        self.first = self.first.min(file);
        Some(node)
    }

    // Returns the record of an open file.
    fn opened(&self, file: usize) -> &Opened
        requires { IsSome (at_number self.now.files file) }
        ensures { at_number self.now.files file ≡ Some (file_of result.now) }
    {
        self.lookup(file).unwrap()
    }

    /// Returns the number of the node of an open file.
    pub fn node(&self, file: usize) -> u16
        requires { IsSome (at_number self.now.files file) }
        ensures { option_map (λ f. f.node) (at_number self.now.files file) ≡ Some result }
    {
        self.opened(file).node
    }

    /// Returns the mode of an open file.
    pub fn mode(&self, file: usize) -> Mode
        requires { IsSome (at_number self.now.files file) }
        ensures { option_map (λ f. f.mode) (at_number self.now.files file) ≡ Some result }
    {
        self.opened(file).mode
    }

    /// Returns whether each write to an open file appends.
    pub fn appends(&self, file: usize) -> bool
        requires { IsSome (at_number self.now.files file) }
        ensures { option_map (λ f. f.append) (at_number self.now.files file) ≡ Some result }
    {
        self.opened(file).append
    }

    /// Returns the offset at which the next read or write of an open file starts.
    pub fn offset(&self, file: usize) -> u32
        requires { IsSome (at_number self.now.files file) }
        ensures { option_map (λ f. f.offset) (at_number self.now.files file) ≡ Some result }
    {
        self.opened(file).offset
    }

    /// Sets the offset of an open file, for all its users.
    pub fn set_offset(&mut self, file: usize, offset: u32)
        requires { IsSome (at_number self.old.files file) }
        ensures { option_map (λ f. counted_with_file self.old file (record f { offset = offset }))
            (at_number self.old.files file) ≡ Some self.new }
    {
        self.records[self.keys[file]].put_offset(offset);
    }

    /// Returns the last name that getdents(2) returned through an open file, if there is one.
    pub fn last_name(&self, file: usize) -> Option<&Name>
        requires { IsSome (at_number self.now.files file) }
        ensures { option_map (λ f. f.listed) (at_number self.now.files file)
            ≡ Some (option_copied result) }
    {
        self.opened(file).listed.get()
    }

    /// Sets the last name that getdents(2) returned through an open file.
    pub fn set_last_name(&mut self, file: usize, name: Name)
        requires { IsSome (at_number self.old.files file) }
        ensures { option_map (λ f. counted_with_file self.old file (record f { listed = Some name }))
            (at_number self.old.files file) ≡ Some self.new }
    {
        self.records[self.keys[file]].put_last_name(name);
    }
}
