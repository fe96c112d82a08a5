//! Counting the entries for each node.
ghost use Rattle.std.specs.Prelude.{◌≡◌, ℕ, ◌+◌, ◌<◌, ◌≤◌, if◌then◌else◌, nat_lt, length, slice_index, IsTrue, Some};
ghost use Rattle.pv_model.specs.Machine.{Bytes, greatest_entries, entries_at, is_directory_at, find_entry};
ghost use Rattle.pv_model.specs.declared.version.Version.TheVariants.{V2};
ghost use Rattle.pv_dirs.specs.Counts.{count_in};

use super::Directories;
use crate::dir::Dir;

impl Directories {
    /// Counts the entries of a directory for each node, in one pass. Adds the number of entries for node `n` to
    /// `counts[n]`, and sets `parents[n]` to the directory if it has an entry for `n`.
    pub fn count_entries(&self, directory: u16, counts: &mut [u32], parents: &mut [u16])
        requires directory { IsTrue (is_directory_at self.now directory) }
        requires nodes { (name : Bytes) (n : ℕ) → find_entry self.now directory name ≡ Some n → n < length counts.old }
        requires places { length parents.old ≡ length counts.old }
        requires room { (n : ℕ) → slice_index counts.old n + greatest_entries V2 ≤ u32.MAX }
        ensures counts { (n : ℕ) → slice_index counts.new n ≡ slice_index counts.old n + count_in n (entries_at self.now directory) }
        ensures parents { (n : ℕ) → slice_index parents.new n ≡ (if nat_lt 0 (count_in n (entries_at self.now directory)) then directory else slice_index parents.old n) }
    {
        let dir = Dir {
            inodes: &self.inodes,
            directory,
        };
        for k in 0..dir.count() {
            let node = dir.number(k) as usize;
            counts[node] += 1;
            parents[node] = directory;
        }
    }
}
