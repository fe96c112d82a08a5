//! Worked runs, by computation: a renumbering of open files, two open files that become one, and dead and live
//! registers and bytes.

ghost use Rattle.pv_laws_classes.specs.ClassExamples.{CanonicalExamples, StateTextExamples};
ghost use Rattle.pv_laws_classes.specs.Examples.{SwapExamples, MergeExamples};
ghost use Rattle.pv_laws_classes.specs.LivenessExamples.{DeadExamples, LiveExamples};

/// If a process and its child each open a file, the states after both orders differ by a swap of two open files, and the
/// listing and the read that follow have equal lines.
pub fn swaps_happen()
    ensures { SwapExamples }
{}

/// The premise that a renumbering is injective matters: if two open files of one file become one, the second of two
/// reads has a different outcome.
pub fn merges_happen()
    ensures { MergeExamples }
{}

/// Two states that differ by a swap of two open files have one canonical form.
pub fn canonical_forms_happen()
    ensures { CanonicalExamples }
{}

/// Two states that differ by a swap of two open files have different texts by `state`, which has the numbers of open
/// files.
pub fn state_texts_differ()
    ensures { StateTextExamples }
{}

/// Two states that differ in a dead register and a dead byte of the buffer have runs with equal lines.
pub fn dead_variables_happen()
    ensures { DeadExamples }
{}

/// States that differ in a byte that only a write reads, or in a register that is read after a jump, have different lines
/// or outcomes; the test accepts these variables.
pub fn live_variables_happen()
    ensures { LiveExamples }
{}
