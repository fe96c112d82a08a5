//! Laws of programs.
ghost use Rattle.std.specs.Prelude.{ℕ, Some, Err, ◌≡◌, ◌≢◌, ◌↔◌};
ghost use Rattle.pv_model.specs.declared.fault.ParseFault.TheVariants.{Line, Memory};
ghost use Rattle.pv_model.specs.declared.fault.What.{What};
ghost use Rattle.pv_model.specs.Machine.{Bytes, program_of, read_program, Program};
ghost use Rattle.pv_model.specs.Grammar.Texts.{EncodesProgram, IsFirstInvalid};
ghost use Rattle.pv_laws_grammar.specs.Written.{IsProgram, written_program};

/// Bytes parse as a program if and only if they encode it.
pub fn program_is_read_as_it_is_encoded()
    ensures { (bytes : Bytes) (program : Program) → program_of bytes ≡ Some program ↔ EncodesProgram bytes program }
{}

/// A program error names the first line that is not an instruction, and the kind of error.
///
/// If the first 256 lines are instructions and more lines follow, the error names line 257. Parsing never reports that
/// memory is exhausted.
pub fn least_invalid_line_is_named()
    ensures line { (bytes : Bytes) (n : ℕ) (what : What) → read_program bytes ≡ Err (Line n what) ↔ IsFirstInvalid bytes n what }
    ensures total { (bytes : Bytes) → read_program bytes ≢ Err Memory }
{}

/// Each program of at most 256 lines with arguments in range has a text that parses as that program.
pub fn each_program_has_a_text()
    ensures encoded { (program : Program) → IsProgram program → EncodesProgram (written_program program) program }
    ensures read { (program : Program) → IsProgram program → program_of (written_program program) ≡ Some program }
{}
