//! Laws of schedules.
ghost use Rattle.std.specs.Prelude.{ℕ, List, Ok, Err, ◌≡◌, ◌≢◌, ◌↔◌};
ghost use Rattle.pv_model.specs.declared.fault.ScheduleFault.TheVariants.{Line, Memory};
ghost use Rattle.pv_model.specs.Machine.{Bytes, schedule_of_lines, read_schedule, Schedule};
ghost use Rattle.pv_model.specs.Grammar.Texts.{EncodeSchedule, EncodesSchedule, IsFirstNoTurn};

/// Bytes, or the lines after a bundle's manifest, parse as a schedule if and only if they encode it.
pub fn schedule_is_read_as_it_is_encoded()
    ensures text { (bytes : Bytes) (schedule : Schedule) → read_schedule bytes ≡ Ok schedule ↔ EncodesSchedule bytes schedule }
    ensures lines { (lines : List Bytes) (schedule : Schedule) → schedule_of_lines lines ≡ Ok schedule ↔ EncodeSchedule lines schedule }
{}

/// A schedule error names the first line that is not a line of a schedule.
///
/// If the first 65,536 lines are valid and more lines follow, the error names line 65,537. Parsing never reports that
/// memory is exhausted.
pub fn least_line_that_is_no_turn_is_named()
    ensures line { (lines : List Bytes) (n : ℕ) → schedule_of_lines lines ≡ Err (Line n) ↔ IsFirstNoTurn lines n }
    ensures total { (lines : List Bytes) → schedule_of_lines lines ≢ Err Memory }
{}
