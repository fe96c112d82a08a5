//! Sets of block numbers.
ghost use Rattle.std.specs.Prelude.{◌≡◌, ℕ, ◌+◌, ◌*◌, ◌<◌, ◌≤◌, true, false, not, ◌==◌, ◌&&◌, ◌||◌, IfNone, IfSome, IsTrue};
ghost use Rattle.pv_blocks.specs.BlockSet.{is_member, AllMembers};

/// A set of block numbers from 0 to 65,535. Its size is fixed, and it allocates no memory.
#[derive(Drop)]
pub struct BlockSet {
    words: [u64; 1024],
}

impl BlockSet {
    /// Creates an empty set.
    pub fn new() -> BlockSet
        ensures empty { (k : ℕ) → is_member result k ≡ false }
    {
        BlockSet { words: [0; 1024] }
    }

    /// Makes the members below `count` equal to those of another set. Copies only the words that contain them.
    pub(crate) fn copy_from(&mut self, other: &BlockSet, count: u16)
        ensures { (k : ℕ) → k < count → is_member self.new k ≡ is_member other.now k }
    {
        let words = count as usize / 64 + 1;
        self.words[..words].copy_from_slice(&other.words[..words]);
    }

    /// Adds a number to the set. If the set contains it already, nothing changes.
    pub fn insert(&mut self, k: u16)
        ensures after { (j : ℕ) → is_member self.new j ≡ (j == k || is_member self.old j) }
    {
        let at = k as usize / 64;
        self.words[at] |= 1 << (k % 64);
    }

    /// Removes a number from the set. If the set does not contain it, nothing changes.
    pub fn remove(&mut self, k: u16)
        ensures after { (j : ℕ) → is_member self.new j ≡ (not (j == k) && is_member self.old j) }
    {
        let at = k as usize / 64;
        self.words[at] &= !(1 << (k % 64));
    }

    /// Returns whether the set contains the number.
    pub fn contains(&self, k: u16) -> bool
        ensures { result ≡ is_member self.now k }
    {
        (self.words[k as usize / 64] >> (k % 64)) & 1 == 1
    }

    /// Returns the least number in `from..end` that is not in the set, or `None` if the set contains all of them.
    pub fn least_absent(&self, from: u16, end: u16) -> Option<u16>
        ensures none { IfNone result (AllMembers self.now from end) }
        ensures absent { IfSome result (λ k. is_member self.now k ≡ false) }
        ensures from { IfSome result (λ k. from ≤ k) }
        ensures end { IfSome result (λ k. k < end) }
        ensures least { IfSome result (λ k. AllMembers self.now from k) }
    {
        let mut k = u32::from(from);
        while k < u32::from(end) {
            if self.is_full(k / 64) {
                k = 64 * (k / 64 + 1);
            } else if self.contains(k as u16) {
                k += 1;
            } else {
                return Some(k as u16);
            }
        }
        None
    }

    /// Returns whether the set contains none of the 64 numbers of a word.
    pub(crate) fn is_clear(&self, word: u32) -> bool
        requires { word < 1024 }
        ensures { IsTrue result → (k : ℕ) → 64 * word ≤ k → k < 64 * word + 64 → is_member self.now k ≡ false }
    {
        self.words[word as usize] == 0
    }

    // Returns whether the set contains all 64 numbers of a word.
    fn is_full(&self, word: u32) -> bool
        requires { word < 1024 }
        ensures { IsTrue result → AllMembers self.now (64 * word) (64 * word + 64) }
    {
        self.words[word as usize] == u64::MAX
    }
}
