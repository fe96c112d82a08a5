//! A worked run for the laws of answers.

ghost use Rattle.pv_laws_answers.specs.Examples.{AnswersExamples};

/// In a worked run under a locked table, a place gains and loses permissions by the process's own steps, and a child
/// has its parent's settings. A call of the run is killed if a listed promise is missing, and refused by an entry that
/// lacks a listed permission.
pub fn answers_happen()
    ensures { AnswersExamples }
{}
