//! Worked runs, by computation: schedules in normal form, and a read.

ghost use Rattle.pv_laws_classes.specs.TogetherExamples.{LoopExamples, EndlessExamples, ReadExamples};

/// Two processes that count on a register by turns: in the normal form, all steps of one are before those of the other.
/// Without the last step, the steps of the other are at the end, and six of the eleven steps are before them.
pub fn loops_happen()
    ensures { LoopExamples }
{}

/// In a loop on registers that does not end, a combined step has the greatest number of steps that its bound admits. A
/// step of another process does not need them.
pub fn endless_loops_happen()
    ensures { EndlessExamples }
{}

/// A read cannot be combined with the next step of its process: if another process writes between two reads, the second
/// read has an outcome that it never has directly after the first.
pub fn reads_happen()
    ensures { ReadExamples }
{}
