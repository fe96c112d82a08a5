//! A law of the calls.
ghost use Rattle.std.specs.Prelude.{ℕ};
ghost use Rattle.pv_calls.specs.Loading.{IsOfLoading, LoadsProgram};
ghost use Rattle.pv_model.specs.declared.call.Call.{Call};
ghost use Rattle.pv_model.specs.Machine.{answer, program_of, State};

/// States that a call that has a program to load answers 0, or `ENOEXEC` if the file does not parse as a program. Out
/// of memory can thus only replace these two answers of execve(2).
pub fn loading_answers()
    ensures { (s : State) (pid : ℕ) (call : Call) → LoadsProgram s pid call
        → IsOfLoading (answer program_of s pid call).outcome }
{}
