//! Laws of the equivalence of states up to a renumbering of open files, and of their canonical form.

ghost use Rattle.pv_laws_classes.specs.Canonical.{RenumberingIsEquivalence, CanonicalIsEqualRenumbered, CanonicalIsUnique, ClassesAreDistinguished};

/// The relation "equal up to some renumbering of open files" is an equivalence on valid states.
pub fn alike_is_equivalence()
    ensures { RenumberingIsEquivalence }
{}

/// A valid state is equal to its canonical form up to a renumbering.
pub fn canonical_is_alike()
    ensures { CanonicalIsEqualRenumbered }
{}

/// Valid states have equal canonical forms if and only if they are equal up to a renumbering.
pub fn canonical_is_unique()
    ensures { CanonicalIsUnique }
{}

/// The test whether two states are of one class succeeds if and only if they are equal up to a renumbering of open
/// files.
pub fn classes_are_distinguished()
    ensures { ClassesAreDistinguished }
{}
