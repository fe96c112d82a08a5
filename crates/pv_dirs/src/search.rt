//! Searching a directory for a name.
ghost use Rattle.std.specs.Prelude.{◌≡◌, ◌≢◌, ◌↔◌, ℕ, ◌<◌, ◌≤◌, IsTrue, None, IfNone, IfSome};
ghost use Rattle.std.specs.Cmp.Lexicographic.{slice_cmp};
ghost use Rattle.std.specs.FinMap.Entries.{find};
ghost use Rattle.std.specs.Ordering.{nat_cmp};
ghost use Rattle.std.specs.declared.cmp.Ordering.TheVariants.{Less};
ghost use Rattle.pv_model.specs.declared.version.Version.TheVariants.{V2};
ghost use Rattle.pv_model.specs.Machine.{greatest_entries};
ghost use Rattle.pv_dirs.specs.Dirs.{slots_in, name_in, directory_entries, StartsAtSlotIn, AscendIn, IsLedBy};

use crate::dir::{Dir, rest_of};
use crate::index::{Bucket, Index};
use crate::slot::name_in;

impl<'a> Dir<'a> {
    // Returns whether slot `k`, which crosses a block boundary, has the name.
    #[inline(never)]
    fn has_name_across(&self, k: u32, name: &[u8]) -> bool
        requires within { k < slots_in self.now }
        requires few { k ≤ greatest_entries V2 }
        ensures { IsTrue result ↔ (name_in self.now k ≡ name.now) }
    {
        self.slot(k).name() == name
    }

    /// Returns whether slot `k` has the name. `run` begins with that slot, or with its first part.
    fn has_name(&self, k: u32, run: &[u8], name: &[u8]) -> bool
        requires within { k < slots_in self.now }
        requires few { k ≤ greatest_entries V2 }
        requires run { StartsAtSlotIn self.now k run.now }
        ensures { IsTrue result ↔ (name_in self.now k ≡ name.now) }
    {
        let length = self.inodes.version().layout().slot_length;
        if run.len() < length {
            return self.has_name_across(k, name);
        }
        name_in(&run[..length]) == name
    }

    /// Returns the first slot with the name, by a linear search.
    fn search(&self, name: &[u8]) -> Option<u32>
        ensures absent { IfNone result (find (slice_cmp nat_cmp) name.now (directory_entries self.now) ≡ None) }
        ensures within { IfSome result (λ k. k < slots_in self.now) }
        ensures few { IfSome result (λ k. k ≤ greatest_entries V2) }
        ensures named { IfSome result (λ k. name_in self.now k ≡ name.now) }
    {
        let length = self.inodes.version().layout().slot_length;
        let mut left: &[u8] = &[];
        for k in 0..self.count() {
            let run = self.run_at(k, left);
            if self.has_name(k, run, name) {
                return Some(k);
            }
            left = rest_of(run, length);
        }
        None
    }

    // Returns `at` if there is such a slot and it has the name.
    pub(crate) fn slot_with(&self, at: u32, name: &[u8]) -> Option<u32>
        ensures other { IfNone result (at < slots_in self.now → name_in self.now at ≢ name.now) }
        ensures within { IfSome result (λ k. k < slots_in self.now) }
        ensures few { IfSome result (λ k. k ≤ greatest_entries V2) }
        ensures named { IfSome result (λ k. name_in self.now k ≡ name.now) }
    {
        if at >= self.count() {
            return None;
        }
        let run = self.run_from(at);
        if self.has_name(at, run, name) {
            Some(at)
        } else {
            None
        }
    }

    // Returns the number of slots whose names precede `name`, by a binary search. The names must ascend.
    fn count_before(&self, name: &[u8]) -> u32
        requires ascend { AscendIn self.now (slots_in self.now) }
        ensures within { result ≤ slots_in self.now }
        ensures few { result ≤ greatest_entries V2 }
        ensures before { (k : ℕ) → k < result → slice_cmp nat_cmp (name_in self.now k) name.now ≡ Less }
        ensures past { (k : ℕ) → result ≤ k → k < slots_in self.now → slice_cmp nat_cmp (name_in self.now k) name.now ≢ Less }
    {
        let mut from = 0;
        let mut to = self.count();
        while from < to {
            let middle = (from + to) / 2;
            if self.is_less(middle, name) {
                from = middle + 1;
            } else {
                to = middle;
            }
        }
        from
    }

    /// Returns the slot with the name, by a binary search. The names must ascend.
    fn binary_search(&self, name: &[u8]) -> Option<u32>
        requires ascend { AscendIn self.now (slots_in self.now) }
        ensures absent { IfNone result (find (slice_cmp nat_cmp) name.now (directory_entries self.now) ≡ None) }
        ensures within { IfSome result (λ k. k < slots_in self.now) }
        ensures few { IfSome result (λ k. k ≤ greatest_entries V2) }
        ensures named { IfSome result (λ k. name_in self.now k ≡ name.now) }
    {
        self.slot_with(self.count_before(name), name)
    }

    /// Returns the slot with the name. It uses the index.
    pub(crate) fn find(&self, index: &Index, name: &[u8]) -> Option<u32>
        requires led { IsLedBy self.now index.now }
        ensures absent { IfNone result (find (slice_cmp nat_cmp) name.now (directory_entries self.now) ≡ None) }
        ensures within { IfSome result (λ k. k < slots_in self.now) }
        ensures few { IfSome result (λ k. k ≤ greatest_entries V2) }
        ensures named { IfSome result (λ k. name_in self.now k ≡ name.now) }
    {
        match index.find(self.directory, name) {
            Bucket::Empty => None,
            Bucket::Slot(above, slot) => {
                if above != self.directory {
                    return None;
                }
                self.slot_with(u32::from(slot), name)
            }
            Bucket::Shared if index.ascends(self.directory) => self.binary_search(name),
            Bucket::Shared => self.search(name),
        }
    }
}
