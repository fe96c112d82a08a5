//! The name that follows another in a directory.
ghost use Rattle.std.specs.Prelude.{◌≡◌, ◌<◌, ◌≤◌, Some, IfSome, IfOk, option_map};
ghost use Rattle.std.specs.Cmp.Lexicographic.{slice_cmp};
ghost use Rattle.std.specs.FinMap.Entries.{find};
ghost use Rattle.std.specs.Option.{option_copied};
ghost use Rattle.std.specs.Ordering.{nat_cmp};
ghost use Rattle.pv_model.specs.Machine.{next_name, greatest_entries};
ghost use Rattle.pv_model.specs.declared.version.Version.TheVariants.{V2};
ghost use Rattle.pv_dirs.specs.Dirs.{slots_in, name_in, any_name_in, directory_entries, IsNamedIn, IsPast, IsLedBy};
ghost use Rattle.pv_dirs.specs.Listing.{better_of, IsNextOf, IsShared};
ghost use Rattle.pv_dirs.specs.Slots.{in_order, IsDistinct};

use crate::best::{Best, Mark, has_mark, improve, is_better, is_next, mark_of};
use crate::dir::{Dir, name_in_run, rest_of};
use crate::index::Index;
use pv_model::Name;

impl<'a> Dir<'a> {
    // Does the same as `improve` for slot `k`, which may cross a block boundary: it copies a better name.
    #[inline(never)]
    fn improve_by_copy(&self, best: &mut Best, mark: &mut Option<Mark>, last: Option<&[u8]>, k: u32)
        requires within { k < slots_in self.now }
        requires few { k ≤ greatest_entries V2 }
        requires shared { IfSome mark.old (λ m. IsShared (option_copied last) best.old m.at m.byte) }
        ensures best { best.new ≡ better_of (option_copied last.entry) (name_in self.now k) best.old }
        ensures shared { IfSome mark.new (λ m. IsShared (option_copied last.entry) best.new m.at m.byte) }
    {
        let slot = self.slot(k);
        let name = slot.name();
        if has_mark(*mark, name) && is_better(name, best, last) {
            *mark = mark_of(last, name);
            best.copy(name);
        }
    }

    /// Returns the least name that follows `last`, with one scan. The scan starts with the name in slot `first`, if it
    /// exists. The result does not depend on `first`. If that slot has the next name, one byte is enough to skip most
    /// of the others.
    fn best_of_pass(&self, last: Option<&[u8]>, first: u32) -> Option<Name>
        requires distinct { IsDistinct (directory_entries self.now) }
        ensures { result ≡ next_name (option_copied last.entry) (in_order (directory_entries self.now)) }
    {
        let length = self.inodes.version().layout().slot_length;
        let count = self.count();
        let mut best = Best::none();
        let mut mark = None;
        if first < count {
            self.improve_by_copy(&mut best, &mut mark, last, first);
        }
        let mut left: &[u8] = &[];
        for k in 0..count {
            let run = self.run_at(k, left);
            if run.len() < length {
                self.improve_by_copy(&mut best, &mut mark, last, k);
                left = &[];
            } else {
                let (slot, rest) = run.split_at(length);
                improve(&mut best, &mut mark, last, slot);
                left = rest;
            }
        }
        best.into_name()
    }

    /// Returns the least name that follows `last`, in place, with the number of its node. Returns `None` if no name follows,
    /// or if a slot crosses a block boundary.
    pub(crate) fn lent_after(&self, last: Option<&[u8]>) -> Option<(&'a [u8], u16)>
        requires distinct { IsDistinct (directory_entries self.now) }
        ensures name { IfSome result (λ e. next_name (option_copied last.entry) (in_order (directory_entries self.now)) ≡ Some e.0.now) }
        ensures node { IfSome result (λ e. find (slice_cmp nat_cmp) e.0.now (directory_entries self.now) ≡ Some e.1) }
    {
        let length = self.inodes.version().layout().slot_length;
        let mut best: Option<&'a [u8]> = None;
        let mut slot = 0;
        let mut left: &[u8] = &[];
        for k in 0..self.count() {
            let run = self.run_at(k, left);
            let name = name_in_run(run, length)?;
            if is_next(name, best, last) {
                best = Some(name);
                slot = k;
            }
            left = rest_of(run, length);
        }
        let name = best?;
        Some((name, self.number(slot)))
    }

    /// Returns the least name that follows `last` among the slots with the inode number `node`. Few slots have it, so
    /// their names are copied.
    pub(crate) fn next_with(&self, node: u16, last: Option<&[u8]>) -> Option<Name>
        ensures { IsNextOf (IsNamedIn self.now node) (option_copied last.entry) result }
    {
        let length = self.inodes.version().layout().slot_length;
        let mut best = Best::none();
        let mut left: &[u8] = &[];
        for k in 0..self.count() {
            let run = self.run_at(k, left);
            if self.number_in(k, run) == node {
                self.improve_by_copy(&mut best, &mut None, last, k);
            }
            left = rest_of(run, length);
        }
        best.into_name()
    }

    // Returns the slot after that of the last name, or slot 0 if there is no last name. If names were added in byte
    // order, this slot has the next name. Returns `None` if no slot has the last name. `before` is a guess of the
    // result: if it is right, only one name is compared.
    fn slot_past(&self, index: &Index, last: Option<&[u8]>, before: u32) -> Option<u32>
        requires led { IsLedBy self.now index.now }
        ensures within { IfSome result (λ k. k ≤ slots_in self.now) }
        ensures past { IfSome result (λ k. IsPast self.now (option_copied last.entry) k) }
    {
        let Some(last) = last else {
            return Some(0);
        };
        if before > 0 {
            if let Some(k) = self.slot_with(before - 1, last) {
                return Some(k + 1);
            }
        }
        Some(self.find(index, last)? + 1)
    }

    // If the names are known to ascend, returns the slot of the next name, or the number of slots if there is no next
    // name. Otherwise fails with the slot at which a scan should start.
    fn next_slot(&self, index: &Index, last: Option<&[u8]>, before: u32) -> Result<u32, u32>
        requires led { IsLedBy self.now index.now }
        requires distinct { IsDistinct (directory_entries self.now) }
        ensures { IfOk result (λ k. any_name_in self.now k ≡ next_name (option_copied last.entry) (in_order (directory_entries self.now))) }
    {
        match self.slot_past(index, last, before) {
            Some(slot) if index.ascends(self.directory) => Ok(slot),
            Some(slot) => Err(slot),
            None => Err(0),
        }
    }

    /// Returns the least name that follows `last`. If the names are known to ascend, it is in the slot after that of
    /// `last`; otherwise a scan finds it.
    pub(crate) fn next_name(&self, index: &Index, last: Option<&[u8]>) -> Option<Name>
        requires led { IsLedBy self.now index.now }
        requires distinct { IsDistinct (directory_entries self.now) }
        ensures { result ≡ next_name (option_copied last.entry) (in_order (directory_entries self.now)) }
    {
        match self.next_slot(index, last, 0) {
            Ok(slot) => self.name_at(slot),
            Err(first) => self.best_of_pass(last, first),
        }
    }

    /// Returns the least name that follows `last`, with the number of its node. `before` is a guess of the number of
    /// names that precede it. The result does not depend on the guess.
    pub(crate) fn next_entry(
        &self,
        index: &Index,
        last: Option<&[u8]>,
        before: u32,
    ) -> Option<(Name, u16)>
        requires led { IsLedBy self.now index.now }
        requires distinct { IsDistinct (directory_entries self.now) }
        ensures value { option_map (λ e. e.0) result ≡ next_name (option_copied last.entry) (in_order (directory_entries self.now)) }
        ensures node { IfSome result (λ e. find (slice_cmp nat_cmp) e.0 (directory_entries self.now) ≡ Some e.1) }
    {
        match self.next_slot(index, last, before) {
            Ok(slot) => {
                let name = self.name_at(slot)?;
                Some((name, self.number(slot)))
            }
            Err(first) => {
                let name = self.best_of_pass(last, first)?;
                let Some(slot) = self.find(index, name.as_slice()) else {
                    unreachable!()
                };
                Some((name, self.number(slot)))
            }
        }
    }
}
