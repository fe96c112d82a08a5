//! Laws of the lines that are added to a brief explanation.
ghost use Rattle.pv_explain.specs.AddedLaws.{AllowedLinesHold, ExecveLinesHold};
ghost use Rattle.pv_explain.specs.Errors.{AddsNothingElse};

/// States that `explained_lines` adds lines to those of the model, and changes none of them: without the added lines, and
/// for a brief explanation, the lines are those of the model.
pub fn adds_nothing_else()
    ensures { AddsNothingElse }
{}

/// An execve that starts a program has one line, which states its rule: the execpromises become the promises and
/// stay, and the table and the lock stay if there are execpromises.
pub fn execve_lines_hold()
    ensures { ExecveLinesHold }
{}

/// A checked walk that ends at a place is reported as allowed if and only if the table allows the place: with the entry
/// that governs the place, its permissions and those that the call needs, or without a table.
pub fn allowed_lines_hold()
    ensures { AllowedLinesHold }
{}
