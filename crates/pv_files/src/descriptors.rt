//! The descriptors of a process.
ghost use Rattle.std.specs.Prelude.{◌≡◌, ◌<◌, ◌↔◌, length, IfOk, IfErr, OnOk, OnErr, IsTrue, false, map, option_map, ok_or, slice_get};
ghost use Rattle.std.specs.Option.{option_and_then};
ghost use Rattle.pv_model.specs.Machine.{without_descriptor, at_number, with_number, without_number, least_free};
ghost use Rattle.pv_model.specs.Calls.Processes.{descriptor_after_exec};
ghost use Rattle.pv_files.specs.DescriptorSlots.{slot_descriptor, descriptors_of};
ghost use Rattle.pv_files.specs.Descriptors.{no_descriptors, descriptor_under, closes_on_execve};

use crate::slots::first_free;
use pv_model::Errno;
use pv_model::limits::DESCRIPTORS;
use std::marker::Model;

/// A descriptor: the number of its open file, and whether execve(2) closes it.
#[derive(Clone, Copy)]
struct Descriptor {
    file: usize,
    close_on_exec: bool,
}

/// The descriptors of a process, numbered from 0 to 15.
#[derive(Clone, Copy)]
pub struct Descriptors {
    slots: [Option<Descriptor>; DESCRIPTORS],
}

impl Model for Descriptors {
    ghost use Rattle.pv_model.specs.declared.limits.TheConstants.{DESCRIPTORS};
    ghost use Rattle.pv_model.specs.Numbered.{Numbered};
    ghost use Rattle.pv_model.specs.State.{Descriptor};

    ghost Value = { Numbered Descriptor };

    ghost use Rattle.std.specs.Prelude.{◌≡◌, length};
    ghost use Rattle.pv_files.specs.DescriptorSlots.{descriptors_of, process_slots, process_slots-descriptors_of};

    ghost view = { λ t. descriptors_of t.slots };

    ghost invariant = { λ t. length t.slots ≡ DESCRIPTORS };

    ghost inverse = { λ v. record { slots = process_slots v } };

    ghost inverse_ok = { λ t _ i. record { slots = process_slots-descriptors_of t.slots i } };
}

// Returns the descriptor with index `k`.
fn at_index(slots: &[Option<Descriptor>], k: usize) -> Option<Descriptor>
    ensures { option_map slot_descriptor result ≡ at_number (descriptors_of slots.now) k }
{
    if k < slots.len() { slots[k] } else { None }
}

// Returns the descriptor with the number that a call passes.
fn lookup(slots: &[Option<Descriptor>], d: i32) -> Option<Descriptor>
    ensures { option_map slot_descriptor result ≡ descriptor_under (descriptors_of slots.now) d }
{
    match usize::try_from(d) {
        Ok(k) => at_index(slots, k),
        Err(_) => None,
    }
}

// Clears the descriptor with index `k`.
fn clear_index(slots: &mut [Option<Descriptor>], k: usize)
    ensures { descriptors_of slots.new ≡ without_number (descriptors_of slots.old) k }
{
    if k < slots.len() {
        slots[k] = None;
    }
}

// Clears the descriptor with the number that a call passes.
fn clear(slots: &mut [Option<Descriptor>], d: i32)
    ensures { descriptors_of slots.new ≡ without_descriptor (descriptors_of slots.old) d }
{
    if let Ok(k) = usize::try_from(d) {
        clear_index(slots, k);
    }
}

// Returns the descriptor, or `None` if execve(2) closes it.
fn unless_marked(slot: Option<Descriptor>) -> Option<Descriptor>
    ensures { option_map slot_descriptor result ≡ descriptor_after_exec (option_map slot_descriptor slot) }
{
    match slot {
        Some(descriptor) if descriptor.close_on_exec => None,
        other => other,
    }
}

// Clears the descriptors that execve(2) closes.
fn close_marked(slots: &mut [Option<Descriptor>])
    ensures { descriptors_of slots.new ≡ map descriptor_after_exec (descriptors_of slots.old) }
{
    for k in 0..slots.len() {
        slots[k] = unless_marked(slots[k]);
    }
}

impl Descriptors {
    /// Creates a table without descriptors.
    pub fn new() -> Descriptors
        ensures { result ≡ no_descriptors }
    {
        Descriptors {
            slots: [None; DESCRIPTORS],
        }
    }

    /// Does nothing. Its contract states the invariant of the descriptors.
    pub fn invariant(&self)
        ensures { length self.now ≡ DESCRIPTORS }
    {
        let _ = &self.slots;
    }

    /// Returns whether some number is free.
    pub fn has_room(&self) -> bool
        ensures { IsTrue result ↔ (least_free self.now < DESCRIPTORS) }
    {
        first_free(&self.slots).is_some()
    }

    /// Creates a descriptor of an open file under the least free number, and returns the number.
    ///
    /// # Errors
    ///
    /// Returns `EMFILE` if and only if all 16 numbers are in use. The descriptors then do not change.
    pub fn give(&mut self, file: usize, close_on_exec: bool) -> Result<u8, Errno>
        ensures number { IfOk result (λ d. d ≡ least_free self.old) }
        ensures in_range { IfOk result (λ d. d < DESCRIPTORS) }
        ensures given { IfOk result (λ d. self.new
            ≡ with_number self.old d (record { file = file; close_on_exec = close_on_exec })) }
        ensures errno { IfErr result (λ e. e ≡ Errno.EMFILE) }
        ensures full { OnErr result (least_free self.old ≡ DESCRIPTORS) }
        ensures unchanged { OnErr result (self.new ≡ self.old) }
    {
        let Some(d) = first_free(&self.slots) else {
            return Err(Errno::EMFILE);
        };
        self.slots[d] = Some(Descriptor {
            file,
            close_on_exec,
        });
        Ok(d as u8)
    }

    /// Makes a number from 0 to 15 a descriptor of an open file, and replaces the descriptor that had the number.
    /// execve(2) does not close the new one.
    pub fn set(&mut self, d: u8, file: usize)
        requires { d < DESCRIPTORS }
        ensures { self.new
            ≡ with_number self.old d (record { file = file; close_on_exec = false }) }
    {
        self.slots[d as usize] = Some(Descriptor {
            file,
            close_on_exec: false,
        });
    }

    /// Returns the number of the open file of a descriptor.
    ///
    /// # Errors
    ///
    /// Returns `EBADF` if and only if `d` is not the number of a descriptor.
    pub fn at(&self, d: i32) -> Result<usize, Errno>
        ensures { result ≡ ok_or (option_map (λ e. e.file) (descriptor_under self.now d)) Errno.EBADF }
    {
        match lookup(&self.slots, d) {
            Some(descriptor) => Ok(descriptor.file),
            None => Err(Errno::EBADF),
        }
    }

    /// Closes a descriptor and returns the number of its open file. The caller must release one user of that file.
    ///
    /// # Errors
    ///
    /// Returns `EBADF` if and only if `d` is not the number of a descriptor. The descriptors then do not change.
    pub fn close(&mut self, d: i32) -> Result<usize, Errno>
        ensures file { result ≡ ok_or (option_map (λ e. e.file) (descriptor_under self.old d)) Errno.EBADF }
        ensures closed { OnOk result (self.new ≡ without_descriptor self.old d) }
        ensures unchanged { OnErr result (self.new ≡ self.old) }
    {
        let file = self.at(d)?;
        clear(&mut self.slots, d);
        Ok(file)
    }

    /// Closes the descriptors that execve(2) closes.
    pub fn after_exec(&mut self)
        ensures { self.new ≡ map descriptor_after_exec self.old }
    {
        close_marked(&mut self.slots);
    }

    /// Returns whether `d` is a descriptor that execve(2) closes.
    pub fn marked(&self, d: u8) -> bool
        ensures { result ≡ closes_on_execve (at_number self.now d) }
    {
        match at_index(&self.slots, d as usize) {
            Some(descriptor) => descriptor.close_on_exec,
            None => false,
        }
    }
}
