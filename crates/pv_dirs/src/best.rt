//! The best name that a scan of a directory has met: the least name that follows a given one.
ghost use Rattle.std.specs.Prelude.{◌≡◌, ◌<◌, ◌≤◌, ◌↔◌, ◌&&◌, length, take, slice_index, IsTrue, None, Some, IfNone, IfSome};
ghost use Rattle.std.specs.Option.{option_copied};
ghost use Rattle.pv_model.specs.Machine.{is_past};
ghost use Rattle.pv_model.specs.declared.limits.TheConstants.{NAME_V2};
ghost use Rattle.pv_dirs.specs.Listing.{is_before, better_of, IsShared};
ghost use Rattle.pv_dirs.specs.Slots.{name_in_slot};

use crate::slot::{name_in, room_in};
use pv_model::Name;
use std::marker::Model;

/// Returns whether `name` follows `last` in byte order, or there is no `last`.
fn is_past(last: Option<&[u8]>, name: &[u8]) -> bool
    ensures { result ≡ is_past (option_copied last.entry) name.now }
{
    match last {
        None => true,
        Some(last) => last < name,
    }
}

/// The best name of a scan so far, if there is one. Contracts see it as an optional name.
#[derive(Drop)]
pub(crate) struct Best<'a> {
    // The name, borrowed from the block that contains it.
    lent: Option<&'a [u8]>,
    // Otherwise a copy of the name, for example of one that crosses a block boundary.
    copied: Option<Name>,
}

impl<'a> Model for Best<'a> {
    ghost use Rattle.std.specs.Prelude.{◌≤◌, Option, length, IfSome};
    ghost use Rattle.std.specs.Option.{option_copied};
    ghost use Rattle.pv_model.specs.Bytes.{Bytes};
    ghost use Rattle.pv_model.specs.declared.limits.TheConstants.{NAME_V2};
    ghost use Rattle.pv_dirs.specs.Listing.{first_name};

    ghost Value = { Option Bytes };

    ghost view = { λ b. first_name b.copied (option_copied b.lent) };

    ghost invariant = { λ b. IfSome b.lent (λ name. length name.now ≤ NAME_V2) };
}

impl<'a> Best<'a> {
    /// Creates a scan state without a name.
    pub(crate) fn none() -> Best<'a>
        ensures { result ≡ None }
    {
        Best {
            lent: None,
            copied: None,
        }
    }

    /// Returns the name, if there is one.
    pub(crate) fn as_slice(&self) -> Option<&[u8]>
        ensures { option_copied result ≡ self.now }
    {
        match &self.copied {
            Some(name) => Some(name.as_slice()),
            None => self.lent,
        }
    }

    /// Sets the name to a borrowed one.
    #[inline(always)]
    fn lend(&mut self, name: &'a [u8])
        requires { length name.now ≤ NAME_V2 }
        ensures { self.new ≡ Some name.now }
    {
        self.lent = Some(name);
        self.copied = None;
    }

    /// Sets the name to a copy of `name`.
    pub(crate) fn copy(&mut self, name: &[u8])
        requires { length name.now ≤ NAME_V2 }
        ensures { self.new ≡ Some name.now }
    {
        self.copied = Name::new(name);
    }

    /// Returns the name as an owned one.
    pub(crate) fn into_name(self) -> Option<Name>
        ensures { result ≡ self.entry }
    {
        if self.copied.is_some() {
            return self.copied;
        }
        Name::new(self.lent?)
    }
}

/// Returns whether `name` precedes `other` in byte order, or there is no `other`.
fn is_before(name: &[u8], other: Option<&[u8]>) -> bool
    ensures { result ≡ is_before name.now (option_copied other.entry) }
{
    match other {
        None => true,
        Some(other) => name < other,
    }
}

/// A byte that every name between two given names has at a known offset, because both have it there after equal bytes.
#[derive(Clone, Copy)]
pub(crate) struct Mark {
    // The offset in the name.
    at: usize,
    // The byte at the offset.
    byte: u8,
}

// Returns the length of the longest common prefix of two names.
fn alike(a: &[u8], b: &[u8]) -> usize
    ensures first { result ≤ length a.now }
    ensures second { result ≤ length b.now }
    ensures same { take result a.now ≡ take result b.now }
{
    let most = a.len().min(b.len());
    let mut k = 0;
    while k < most && a[k] == b[k] {
        k += 1;
    }
    k
}

// Returns the last byte of the common prefix of the last name and the best one. Every name between them has it too.
pub(crate) fn mark_of(last: Option<&[u8]>, best: &[u8]) -> Option<Mark>
    ensures { IfSome result (λ m. IsShared (option_copied last.entry) (Some best.now) m.at m.byte) }
{
    let count = alike(last?, best);
    if count == 0 {
        return None;
    }
    Some(Mark {
        at: count - 1,
        byte: best[count - 1],
    })
}

// Returns whether `bytes` has the marked byte at its offset. Without a mark it returns true.
#[inline(always)]
pub(crate) fn has_mark(mark: Option<Mark>, bytes: &[u8]) -> bool
    ensures free { IfNone mark (IsTrue result) }
    ensures has { IfSome mark (λ m. IsTrue result ↔ ((m.at < length bytes.now) × (slice_index bytes.now m.at ≡ m.byte))) }
{
    match mark {
        None => true,
        Some(mark) => mark.at < bytes.len() && bytes[mark.at] == mark.byte,
    }
}

/// Returns whether `name` precedes the best name so far, if there is one, and follows the last one.
#[inline(always)]
pub(crate) fn is_next(name: &[u8], best: Option<&[u8]>, last: Option<&[u8]>) -> bool
    ensures { result ≡ (is_before name.now (option_copied best.entry) && is_past (option_copied last.entry) name.now) }
{
    is_before(name, best) && is_past(last, name)
}

// Returns whether `name` is a better name: it precedes the best name so far and follows the last one.
#[inline(always)]
pub(crate) fn is_better(name: &[u8], best: &Best, last: Option<&[u8]>) -> bool
    ensures { result ≡ (is_before name.now best.now && is_past (option_copied last.entry) name.now) }
{
    is_next(name, best.as_slice(), last)
}

// Replaces the best name by the name in a slot if that is better. In a long directory most names lack the mark, so one
// byte of the slot decides.
#[inline(always)]
pub(crate) fn improve<'a>(
    best: &mut Best<'a>,
    mark: &mut Option<Mark>,
    last: Option<&[u8]>,
    slot: &'a [u8],
)
    requires long { 4 ≤ length slot.now }
    requires shared { IfSome mark.old (λ m. IsShared (option_copied last) best.old m.at m.byte) }
    ensures best { best.new ≡ better_of (option_copied last.entry) (name_in_slot slot.now) best.old }
    ensures shared { IfSome mark.new (λ m. IsShared (option_copied last.entry) best.new m.at m.byte) }
{
    if !has_mark(*mark, room_in(slot)) {
        return;
    }
    let name = name_in(slot);
    if is_better(name, best, last) {
        *mark = mark_of(last, name);
        best.lend(name);
    }
}
