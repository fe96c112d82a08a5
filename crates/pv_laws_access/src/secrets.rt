//! Laws of sealed and frozen files in one step: confidentiality and integrity.

ghost use Rattle.pv_laws_access.specs.Secrets.{SealedIsNotRead, SealedAnswersAreEqual, FrozenIsNotChanged};

/// Confidentiality of one step: no step of any process reads a sealed file, that is, its outcome and next state do not
/// depend on the file's bytes, given their number.
pub fn sealed_is_not_read()
    ensures { SealedIsNotRead }
{}

/// Confidentiality of one step, of two states in parallel: with other bytes of equal length in a sealed file, each step
/// has the same outcome and lines, and the next states differ in these bytes alone, which are again of equal length.
pub fn sealed_answers_alike()
    ensures { SealedAnswersAreEqual }
{}

/// Integrity of one step: no step of any process changes the bytes of a frozen file.
pub fn frozen_is_not_changed()
    ensures { FrozenIsNotChanged }
{}
