//! Looking up entries of directories during a walk.
ghost use Rattle.std.specs.Prelude.{◌≡◌, ℕ, List, Option, IsTrue};
ghost use Rattle.pv_model.specs.Machine.{is_directory_at, find_entry};
ghost use Rattle.pv_tree.specs.OfLawsTrees.Found.{AreEqualLookups, AreEqualExceptAt};

use pv_tree::Tree;

/// A method to look up the node that a directory has under a name.
///
/// Contracts state the maps with which a lookup agrees. Such a map takes the number of a directory and a name to the
/// number of a node, as `find_entry` of a tree does. A lookup with cached answers agrees with every map that gives the
/// same answers.
pub trait Lookup {
    /// Whether the answers of the lookup are those of a map.
    ghost agrees: { Self → (ℕ → List ℕ → Option ℕ) → Type 0 };

    /// Returns the number of the node that a directory has under a name.
    fn look(&mut self, tree: &Tree, directory: u16, name: &[u8]) -> Option<u16>
        requires directory { IsTrue (is_directory_at tree.now.tree directory) }
        requires agrees { agrees self.old (find_entry tree.now.tree) }
        ensures answer { result ≡ find_entry tree.now.tree directory name.now }
        ensures agrees { agrees self.new (find_entry tree.now.tree) };

    /// Discards any cached answer for a name in a directory, whose entry may have changed.
    fn changed(&mut self, directory: u16, name: &[u8])
        ensures { (map other : ℕ → List ℕ → Option ℕ) → agrees self.old map
            → AreEqualExceptAt directory name.now map other → agrees self.new other };

    /// If a lookup agrees with a map, it agrees with every map that gives the same answers.
    ghost same_answers: { (lookup : Self) → (map other : ℕ → List ℕ → Option ℕ) → agrees lookup map → AreEqualLookups map other → agrees lookup other };
}

/// A lookup without a cache: it asks the tree each time.
#[derive(Clone, Copy, Debug, PartialEq, Eq)]
pub struct PlainLookup;

impl Lookup for PlainLookup {
    ghost use Rattle.std.specs.Prelude.{⊤};

    ghost agrees = { λ lookup map. ⊤ };

    ghost same_answers = { λ lookup map other agreed same. tt };

    fn look(&mut self, tree: &Tree, directory: u16, name: &[u8]) -> Option<u16> {
        tree.find(directory, name)
    }

    fn changed(&mut self, _directory: u16, _name: &[u8]) {}
}
