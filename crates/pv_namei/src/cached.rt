//! The name cache.
ghost use Rattle.std.specs.Prelude.{◌≡◌, ◌⊎◌, ℕ, List, Option, Some, None, [], IsTrue, false, IfOk, ◌≤◌, length};
ghost use Rattle.pv_model.specs.declared.limits.TheConstants.{ANSWERS};
ghost use Rattle.pv_model.specs.Machine.{is_directory_at, find_entry};
ghost use Rattle.pv_tree.specs.OfLawsTrees.Found.{AreEqualExceptAt};
ghost use Rattle.pv_namei.specs.Cached.{preserved_of, IsPut, FitsMap};

use crate::Lookup;
use crate::short_name::ShortName;
use lru::LruCache;
use pv_model::limits::{ANSWERS, NAME_V2};
use pv_tree::Tree;
use std::alloc::{AllocError, Global};
use std::num::NonZeroUsize;

/// A key of the cache: the number of a directory, and a name of at most 255 bytes.
#[derive(Drop, PartialEq, Eq, Hash)]
pub(crate) struct Pair {
    directory: u16,
    name: ShortName,
}

impl Pair {
    // Creates the key of directory 0 and the empty name.
    fn empty() -> Pair
        ensures directory { result.directory ≡ 0 }
        ensures name { result.name ≡ [] }
    {
        Pair {
            directory: 0,
            name: ShortName::empty(),
        }
    }

    // Sets the key to a directory and a name of at most 255 bytes.
    fn set(&mut self, directory: u16, name: &[u8])
        requires { length name.now ≤ NAME_V2 }
        ensures directory { self.new.directory ≡ directory }
        ensures name { self.new.name ≡ name.now }
    {
        self.directory = directory;
        self.name.set(name);
    }

    // Creates the key of a directory and a name of at most 255 bytes.
    fn new(directory: u16, name: &[u8]) -> Pair
        requires { length name.now ≤ NAME_V2 }
        ensures directory { result.directory ≡ directory }
        ensures name { result.name ≡ name.now }
    {
        let mut pair = Pair::empty();
        pair.set(directory, name);
        pair
    }
}

/// A lookup that caches up to 512 answers of the tree, including absent names. It evicts the answer that was used least
/// recently.
///
/// A name of more than 255 bytes bypasses the cache, and so does each name after `stop`. If memory for an answer cannot
/// be allocated, the answer is returned but not cached.
#[derive(Drop)]
pub struct CachedLookup {
    answers: LruCache<Pair, Option<u16>>,
    // The key of the last lookup, which the next lookup overwrites.
    asked: Pair,
    // Whether answers are cached.
    caches: bool,
    ghost capacity: { answers.cap ≡ ANSWERS },
    ghost idle: { caches ≡ false → answers.entries ≡ [] },
}

impl CachedLookup {
    /// Creates an empty cache.
    ///
    /// # Errors
    ///
    /// Returns `AllocError` if memory for the cache cannot be allocated.
    pub fn new(alloc: Global) -> Result<CachedLookup, AllocError>
        ensures empty { IfOk result (λ lookup. lookup.answers.entries ≡ []) }
        ensures agrees { IfOk result
            (λ lookup. (map : ℕ → List ℕ → Option ℕ) → FitsMap lookup.answers map) }
    {
        Ok(CachedLookup {
            answers: LruCache::new(alloc, NonZeroUsize::new(ANSWERS).unwrap())?,
            asked: Pair::empty(),
            caches: true,
        })
    }

    /// Discards all cached answers, and caches no more. This is for a machine that is set to another state after a few
    /// steps: a cache would cost it more than it saves.
    pub fn stop(&mut self)
        ensures empty { self.new.answers.entries ≡ [] }
        ensures agrees { (map : ℕ → List ℕ → Option ℕ) → FitsMap self.new.answers map }
    {
        if self.caches {
            self.answers.clear();
            self.caches = false;
        }
    }

    /// Returns the cached answer for a directory and a name, or `None` if there is none. The answer is `Some(None)` if
    /// the name is known to be absent.
    pub fn preserved(&self, directory: u16, name: &[u8]) -> Option<Option<u16>>
        ensures { result ≡ preserved_of self.now.answers directory name.now }
    {
        if name.len() > NAME_V2 {
            return None;
        }
        self.answers.peek(&Pair::new(directory, name)).copied()
    }
}

impl Lookup for CachedLookup {
    ghost use Rattle.std.proofs.Common.{◌∙◌};
    ghost use Rattle.pv_namei.specs.Cached.{FitsMap};

    ghost agrees = { λ lookup map. FitsMap lookup.answers map };

    ghost same_answers = { λ lookup map other agreed same. λ d n answer preserved. same d n ∙ agreed d n answer preserved };

    fn look(&mut self, tree: &Tree, directory: u16, name: &[u8]) -> Option<u16>
        requires directory { IsTrue (is_directory_at tree.now.tree directory) }
        requires agrees { FitsMap self.old.answers (find_entry tree.now.tree) }
        ensures answer { result ≡ find_entry tree.now.tree directory name.now }
        ensures agrees { FitsMap self.new.answers (find_entry tree.now.tree) }
        ensures keeps { (preserved_of self.new.answers directory name.now ≡ Some result)
            ⊎ (self.new.answers ≡ self.old.answers) }
        ensures puts { IsPut self.old.answers directory name.now result self.new.answers }
    {
        if !self.caches {
            return tree.find(directory, name);
        }
        if name.len() > NAME_V2 {
            return tree.find(directory, name);
        }
        self.asked.set(directory, name);
        if let Some(answer) = self.answers.get(&self.asked).copied() {
            return answer;
        }
        let answer = tree.find(directory, name);
        let _ = self.answers.put(Pair::new(directory, name), answer);
        answer
    }

    fn changed(&mut self, directory: u16, name: &[u8])
        ensures agrees { (map other : ℕ → List ℕ → Option ℕ) → FitsMap self.old.answers map
            → AreEqualExceptAt directory name.now map other → FitsMap self.new.answers other }
        ensures forgets { preserved_of self.new.answers directory name.now ≡ None }
        ensures others { (d : ℕ) → (n : List ℕ) → ((d ≡ directory) × (n ≡ name.now) → ⊥)
            → preserved_of self.new.answers d n ≡ preserved_of self.old.answers d n }
    {
        if !self.caches {
            return;
        }
        // The contract of `len` shows that the keys are distinct.
        let _ = self.answers.len();
        if name.len() <= NAME_V2 {
            self.asked.set(directory, name);
            self.answers.pop(&self.asked);
        }
    }
}
