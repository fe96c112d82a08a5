//! Laws of lines, and of one line of a program.
ghost use Rattle.std.specs.Prelude.{ℕ, List, Ok, Err, ◌≡◌, ◌↔◌};
ghost use Rattle.pv_model.specs.declared.fault.What.{What};
ghost use Rattle.pv_model.specs.declared.instruction.Instruction.{Instruction};
ghost use Rattle.pv_model.specs.Machine.{Bytes, instruction_of, lines_of};
ghost use Rattle.pv_model.specs.Grammar.Forms.{EncodesLine, IsInvalid};
ghost use Rattle.pv_model.specs.Grammar.Texts.{HasLines};

/// A text has exactly one list of lines: each ends with an LF, which may be missing after the last line.
pub fn lines_are_those_of_the_text()
    ensures { (bytes : Bytes) (lines : List Bytes) → lines_of bytes ≡ lines ↔ HasLines bytes lines }
{}

/// In a program with a given number of lines, a line parses as an instruction if and only if it encodes that
/// instruction.
pub fn line_is_read_as_it_is_encoded()
    ensures { (count : ℕ) (line : Bytes) (i : Instruction) → instruction_of count line ≡ Ok i ↔ EncodesLine count line i }
{}

/// The error of an invalid line is exact: `Word` if its first word is not the name of an instruction, `Target` if it
/// jumps to a line that the program does not have, and `Argument` otherwise.
pub fn invalid_line_is_reported_by_its_fault()
    ensures { (count : ℕ) (line : Bytes) (what : What) → instruction_of count line ≡ Err what ↔ IsInvalid count line what }
{}
