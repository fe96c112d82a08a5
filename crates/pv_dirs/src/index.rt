//! An index of the entries of directories by name.
ghost use Rattle.std.specs.Prelude.{◌≡◌, ◌≢◌, ◌↔◌, ◌<◌, ◌≤◌, ℕ, true, IsTrue};
ghost use Rattle.pv_model.specs.Machine.{Bytes};
ghost use Rattle.pv_model.specs.declared.limits.TheConstants.{INODES};
ghost use Rattle.pv_dirs.specs.declared.index.TheConstants.{PLACES};
ghost use Rattle.pv_dirs.specs.Index.{bucket_of, bucket_at, recorded_count, known, LeadsToSlot};

use pv_model::limits::INODES;

/// The greatest number of buckets of an index.
const PLACES: usize = 8_192;

/// The least number of buckets of an index.
const FEWEST: u32 = 64;

// The base of the hash: each byte of a name has this many times the weight of the next.
const FACTOR: u16 = 11;

/// The state of a bucket: which entries have names that hash to it.
#[derive(Clone, Copy)]
pub(crate) enum Bucket {
    /// No entry.
    Empty,
    /// At most one entry: the one in this slot of this directory.
    Slot(u16, u16),
    /// Possibly several entries.
    Shared,
}

impl Bucket {
    // Returns whether the bucket leads to this slot of this directory.
    fn is_slot(self, directory: u16, slot: u16) -> bool
        ensures { IsTrue result ↔ (self ≡ Bucket.Slot directory slot) }
    {
        match self {
            Bucket::Slot(above, at) => above == directory && at == slot,
            _ => false,
        }
    }
}

/// Returns the bucket to which a name of a directory hashes. Only the bits of the hash in `mask` count.
fn place_of(directory: u16, name: &[u8], mask: u16) -> usize
    ensures value { result ≡ bucket_of mask directory name.now }
    ensures within { result < PLACES }
{
    let mut sum = directory;
    for byte in name {
        sum = sum.wrapping_mul(FACTOR).wrapping_add(u16::from(*byte));
    }
    (sum & mask) as usize % PLACES
}

/// Returns the mask of the hashes for an image with this number of inodes. The index of a large image uses all buckets.
/// That of a smaller one uses at least four buckets for each inode.
fn mask_for(inodes: u16) -> u16
    ensures { inodes ≤ INODES → inodes ≤ result }
{
    let buckets = (4 * u32::from(inodes)).max(FEWEST).next_power_of_two();
    (buckets.min(PLACES as u32) - 1) as u16
}

/// An index of the entries of all directories by name. Its size is fixed, and it allocates no memory beyond that.
#[derive(Drop)]
pub(crate) struct Index {
    // The bits of a hash that select a bucket. Their number depends on the number of inodes, and the other buckets are
    // not used.
    mask: u16,
    places: [Bucket; PLACES],
    // For each directory, whether its names are known to ascend in byte order from slot to slot. Only the first
    // `mask + 1` of these are used.
    ascending: [bool; INODES + 1],
}

impl Index {
    /// Creates an index without entries for an image with this number of inodes.
    pub(crate) fn empty(inodes: u16) -> Index {
        Index {
            mask: mask_for(inodes),
            places: [Bucket::Empty; PLACES],
            ascending: [false; INODES + 1],
        }
    }

    // Returns the number of buckets in use.
    fn bucket_count(&self) -> usize
        ensures within { result ≤ PLACES }
        ensures all { (d : ℕ) (name : Bytes) → bucket_of self.now.mask d name < result }
    {
        usize::from(self.mask).min(PLACES - 1) + 1
    }

    // Returns the number of directories whose order the index can record. Every inode of the image is among them,
    // because the mask is not less than the number of inodes.
    fn recorded_count(&self) -> usize
        ensures { result ≡ recorded_count self.now }
    {
        usize::from(self.mask).min(INODES) + 1
    }

    /// Makes lookups in this index equal to those in another one. Buckets and records that are not in use do not
    /// change.
    pub(crate) fn copy_from(&mut self, other: &Index)
        ensures said { (d : ℕ) (name : Bytes) → bucket_at self.new d name ≡ bucket_at other.now d name }
        ensures known { (d : ℕ) → known self.new d ≡ known other.now d }
    {
        let count = other.bucket_count();
        let recorded = other.recorded_count();
        self.mask = other.mask;
        self.places[..count].copy_from_slice(&other.places[..count]);
        self.ascending[..recorded].copy_from_slice(&other.ascending[..recorded]);
    }

    /// Removes all entries from the index.
    pub(crate) fn clear(&mut self) {
        let count = self.bucket_count();
        self.places[..count].fill(Bucket::Empty);
        let recorded = self.recorded_count();
        self.ascending[..recorded].fill(false);
    }

    /// Returns whether the names of a directory are known to ascend from slot to slot.
    pub(crate) fn ascends(&self, directory: u16) -> bool
        ensures { result ≡ known self.now directory }
    {
        let at = directory as usize;
        at < self.recorded_count() && self.ascending[at]
    }

    // Records whether the names of a directory ascend.
    fn know(&mut self, directory: u16, ascends: bool)
        ensures mask { self.new.mask ≡ self.old.mask }
        ensures places { self.new.places ≡ self.old.places }
        ensures this { known self.new directory ≡ true → ascends ≡ true }
        ensures others { (d : ℕ) → d ≢ directory → known self.new d ≡ known self.old d }
    {
        let at = directory as usize;
        if at < self.recorded_count() {
            self.ascending[at] = ascends;
        }
    }

    /// Returns the bucket to which a name hashes.
    pub(crate) fn find(&self, directory: u16, name: &[u8]) -> Bucket
        ensures { result ≡ bucket_at self.now directory name.now }
    {
        self.places[place_of(directory, name, self.mask)]
    }

    /// Adds an entry to the index. Lookups of other entries do not change. `ascends` is whether the names of the
    /// directory ascend with the new one.
    pub(crate) fn add(&mut self, directory: u16, name: &[u8], slot: u16, ascends: bool)
        ensures this { LeadsToSlot self.new directory name.now slot }
        ensures others { (d k : ℕ) (other : Bytes) → LeadsToSlot self.old d other k → LeadsToSlot self.new d other k }
        ensures ascends { known self.new directory ≡ true → ascends ≡ true }
        ensures known { (d : ℕ) → d ≢ directory → known self.new d ≡ known self.old d }
    {
        self.know(directory, ascends);
        let at = place_of(directory, name, self.mask);
        self.places[at] = match self.places[at] {
            Bucket::Empty => Bucket::Slot(directory, slot),
            _ => Bucket::Shared,
        };
    }

    /// Removes an entry from the index. Lookups of other entries do not change.
    pub(crate) fn remove(&mut self, directory: u16, name: &[u8], slot: u16)
        ensures others { (d k : ℕ) (other : Bytes) → (d ≡ directory → k ≢ slot) → LeadsToSlot self.old d other k → LeadsToSlot self.new d other k }
        ensures known { (d : ℕ) → known self.new d ≡ known self.old d }
    {
        let at = place_of(directory, name, self.mask);
        if self.places[at].is_slot(directory, slot) {
            self.places[at] = Bucket::Empty;
        }
    }

    /// Changes the slot of an entry in the index. Lookups of other entries do not change. If the slot differs, the
    /// names of the directory may no longer ascend.
    pub(crate) fn change(&mut self, directory: u16, name: &[u8], from: u16, to: u16)
        ensures this { LeadsToSlot self.old directory name.now from → LeadsToSlot self.new directory name.now to }
        ensures others { (d k : ℕ) (other : Bytes) → (d ≡ directory → k ≢ from) → LeadsToSlot self.old d other k → LeadsToSlot self.new d other k }
        ensures stays { known self.new directory ≡ true → from ≡ to }
        ensures known { (d : ℕ) → known self.new d ≡ true → known self.old d ≡ true }
    {
        let ascends = from == to && self.ascends(directory);
        self.know(directory, ascends);
        let at = place_of(directory, name, self.mask);
        if self.places[at].is_slot(directory, from) {
            self.places[at] = Bucket::Slot(directory, to);
        }
    }
}
