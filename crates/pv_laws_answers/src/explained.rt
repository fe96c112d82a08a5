//! Laws of the answer `explain`.

ghost use Rattle.pv_laws_answers.specs.Explained.{ExplainsTheRun, ExplainsTheText};

/// The lines of `explain` without those that only explain are the lines of the run, in order.
pub fn explains_the_run()
    ensures { ExplainsTheRun }
{}

/// The text of `explain` without the lines that only explain is the text of the run, byte for byte.
pub fn explains_the_text()
    ensures { ExplainsTheText }
{}
