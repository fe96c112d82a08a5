//! Formatting of calls with their arguments, as a program writes them.
ghost use Rattle.std.specs.Prelude.{◌≡◌, ◌++◌, ◌+◌, ◌*◌, ◌≤◌, [], ◌∷◌, length, codes, option_copied};
ghost use Rattle.std.specs.Fmt.{signed_decimal};
ghost use Rattle.std.specs.List.{join_by};
ghost use Rattle.pv_model.specs.declared.limits.TheConstants.{TEXT};
ghost use Rattle.pv_model.specs.Machine.{call_of, quote, mode_text};
ghost use Rattle.pv_model.specs.Trace.{quote_or_null, flag_text, start_text, call_name, call_text, call_line, whence_text};
ghost use Rattle.pv_streams.specs.Sinks.{Writes};
ghost use Rattle.pv_trace.specs.declared.line_buffer.TheConstants.{LINE_BUFFER};
ghost use Rattle.pv_trace.specs.Words.{flags_bytes};

use crate::line_buffer::{LineBuffer, put, put_quoted, put_quoted_or_null, put_signed};
use pv_model::{CallRef, Mode, OpenFlags, Start, Text, Whence};
use pv_streams::{Failed, Sink, write_whole};

// Appends the mode of an open. Here and below, each word is appended in a call of its own, so that its length is known
// where it is copied.
fn put_mode(out: &mut LineBuffer, mode: Mode)
    requires { length out.old.items + 2 ≤ LINE_BUFFER }
    ensures text { out.new.items ≡ out.old.items ++ mode_text mode }
    ensures growth { length out.new.items ≤ length out.old.items + 2 }
{
    match mode {
        Mode::Read => put(out, b"r"),
        Mode::Write => put(out, b"w"),
        Mode::ReadWrite => put(out, b"rw"),
    }
}

// Appends a flag with its plus sign, if it is set.
fn put_flag(out: &mut LineBuffer, set: bool, name: &[u8])
    requires { length out.old.items + 1 + length name.now ≤ LINE_BUFFER }
    ensures text { out.new.items ≡ out.old.items ++ flag_text set name.now }
    ensures growth { length out.new.items ≤ length out.old.items + 1 + length name.now }
{
    if set {
        put(out, b"+");
        put(out, name);
    }
}

// Appends the flags of an open, as a program writes them.
#[tactic(auto, unfolding(crate::specs::Words::flags_bytes))]
fn put_flags(out: &mut LineBuffer, flags: OpenFlags)
    requires { length out.old.items + 48 ≤ LINE_BUFFER }
    ensures text { out.new.items ≡ out.old.items ++ flags_bytes flags }
    ensures growth { length out.new.items ≤ length out.old.items + 48 }
{
    put_mode(out, flags.mode);
    put_flag(out, flags.append, b"append");
    put_flag(out, flags.create, b"create");
    put_flag(out, flags.truncate, b"trunc");
    put_flag(out, flags.exclusive, b"excl");
    put_flag(out, flags.no_follow, b"nofollow");
    put_flag(out, flags.directory, b"dir");
    put_flag(out, flags.close_on_exec, b"cloexec");
}

// Appends the `whence` of lseek.
fn put_whence(out: &mut LineBuffer, whence: Whence)
    requires { length out.old.items + 3 ≤ LINE_BUFFER }
    ensures text { out.new.items ≡ out.old.items ++ whence_text whence }
    ensures growth { length out.new.items ≤ length out.old.items + 3 }
{
    match whence {
        Whence::Set => put(out, b"set"),
        Whence::Current => put(out, b"cur"),
        Whence::End => put(out, b"end"),
    }
}

fn put_start(out: &mut LineBuffer, start: Start)
    requires { length out.old.items + 40 ≤ LINE_BUFFER }
    ensures text { out.new.items ≡ out.old.items ++ start_text start }
    ensures growth { length out.new.items ≤ length out.old.items + 40 }
{
    match start {
        Start::WorkingDirectory => put(out, b"cwd"),
        Start::Descriptor(descriptor) => put_signed(out, descriptor),
    }
}

// Appends the name of a call.
#[tactic(auto, unfolding(pv_model::specs::Trace::call_text))]
pub(crate) fn put_name(out: &mut LineBuffer, call: CallRef<'_>)
    requires { length out.old.items + 9 ≤ LINE_BUFFER }
    ensures text { out.new.items ≡ out.old.items ++ call_name (call_of call.entry) }
    ensures growth { length out.new.items ≤ length out.old.items + 9 }
{
    match call {
        CallRef::Exit(_) => put(out, b"exit"),
        CallRef::GetPid => put(out, b"getpid"),
        CallRef::GetPpid => put(out, b"getppid"),
        CallRef::Fork => put(out, b"fork"),
        CallRef::Wait => put(out, b"wait"),
        CallRef::Pledge(_, _) => put(out, b"pledge"),
        CallRef::Unveil(_, _) => put(out, b"unveil"),
        CallRef::Execve(_) => put(out, b"execve"),
        CallRef::Open(_, _) => put(out, b"open"),
        CallRef::OpenAt(_, _, _) => put(out, b"openat"),
        CallRef::Close(_) => put(out, b"close"),
        CallRef::Dup(_) => put(out, b"dup"),
        CallRef::Dup2(_, _) => put(out, b"dup2"),
        CallRef::Read(_, _) => put(out, b"read"),
        CallRef::Write(_, _) => put(out, b"write"),
        CallRef::Lseek(_, _, _) => put(out, b"lseek"),
        CallRef::Fstat(_) => put(out, b"fstat"),
        CallRef::Ftruncate(_, _) => put(out, b"ftruncate"),
        CallRef::Getdents(_) => put(out, b"getdents"),
        CallRef::Fchdir(_) => put(out, b"fchdir"),
        CallRef::Chdir(_) => put(out, b"chdir"),
        CallRef::Stat(_) => put(out, b"stat"),
        CallRef::Lstat(_) => put(out, b"lstat"),
        CallRef::Readlink(_) => put(out, b"readlink"),
        CallRef::Mkdir(_) => put(out, b"mkdir"),
        CallRef::Symlink(_, _) => put(out, b"symlink"),
        CallRef::Link(_, _) => put(out, b"link"),
        CallRef::Unlink(_) => put(out, b"unlink"),
        CallRef::Rmdir(_) => put(out, b"rmdir"),
        CallRef::Rename(_, _) => put(out, b"rename"),
    }
}

fn put_two_numbers(out: &mut LineBuffer, first: i32, second: i32)
    requires { length out.old.items + 82 ≤ LINE_BUFFER }
    ensures text { out.new.items ≡ out.old.items ++ join_by (λ bs. bs) (codes ", ") (signed_decimal first ∷ signed_decimal second ∷ []) }
    ensures growth { length out.new.items ≤ length out.old.items + 82 }
{
    put_signed(out, first);
    put(out, b", ");
    put_signed(out, second);
}

fn put_two_texts(out: &mut LineBuffer, first: &Text, second: &Text)
    requires { length out.old.items + 8 * TEXT + 6 ≤ LINE_BUFFER }
    ensures text { out.new.items ≡ out.old.items ++ join_by (λ bs. bs) (codes ", ") (quote first.now ∷ quote second.now ∷ []) }
    ensures growth { length out.new.items ≤ length out.old.items + 8 * TEXT + 6 }
{
    put_quoted(out, first);
    put(out, b", ");
    put_quoted(out, second);
}

fn put_two_options(out: &mut LineBuffer, first: Option<&Text>, second: Option<&Text>)
    requires { length out.old.items + 8 * TEXT + 6 ≤ LINE_BUFFER }
    ensures text { out.new.items ≡ out.old.items ++ join_by (λ bs. bs) (codes ", ") (quote_or_null (option_copied first.entry) ∷ quote_or_null (option_copied second.entry) ∷ []) }
    ensures growth { length out.new.items ≤ length out.old.items + 8 * TEXT + 6 }
{
    put_quoted_or_null(out, first);
    put(out, b", ");
    put_quoted_or_null(out, second);
}

fn put_open(out: &mut LineBuffer, path: &Text, flags: OpenFlags)
    requires { length out.old.items + 4 * TEXT + 52 ≤ LINE_BUFFER }
    ensures text { out.new.items ≡ out.old.items ++ join_by (λ bs. bs) (codes ", ") (quote path.now ∷ flags_bytes flags ∷ []) }
    ensures growth { length out.new.items ≤ length out.old.items + 4 * TEXT + 52 }
{
    put_quoted(out, path);
    put(out, b", ");
    put_flags(out, flags);
}

fn put_openat(out: &mut LineBuffer, start: Start, path: &Text, flags: OpenFlags)
    requires { length out.old.items + 4 * TEXT + 94 ≤ LINE_BUFFER }
    ensures text { out.new.items ≡ out.old.items ++ join_by (λ bs. bs) (codes ", ") (start_text start ∷ quote path.now ∷ flags_bytes flags ∷ []) }
    ensures growth { length out.new.items ≤ length out.old.items + 4 * TEXT + 94 }
{
    put_start(out, start);
    put(out, b", ");
    put_open(out, path, flags);
}

fn put_lseek(out: &mut LineBuffer, descriptor: i32, by: i32, whence: Whence)
    requires { length out.old.items + 87 ≤ LINE_BUFFER }
    ensures text { out.new.items ≡ out.old.items ++ join_by (λ bs. bs) (codes ", ") (signed_decimal descriptor ∷ signed_decimal by ∷ whence_text whence ∷ []) }
    ensures growth { length out.new.items ≤ length out.old.items + 87 }
{
    put_two_numbers(out, descriptor, by);
    put(out, b", ");
    put_whence(out, whence);
}

// Appends the arguments of a call, separated by commas.
#[tactic(auto, unfolding(pv_model::specs::Trace::call_text, crate::specs::Words::flags_bytes))]
fn put_arguments(out: &mut LineBuffer, call: &CallRef<'_>)
    requires { length out.old.items + 8 * TEXT + 6 ≤ LINE_BUFFER }
    ensures text { out.new.items ≡ out.old.items ++ join_by (λ bs. bs) (codes ", ") (call_text (call_of call.now)).1 }
    ensures growth { length out.new.items ≤ length out.old.items + 8 * TEXT + 6 }
{
    match call {
        CallRef::GetPid | CallRef::GetPpid | CallRef::Fork | CallRef::Wait => {}
        CallRef::Exit(number)
        | CallRef::Close(number)
        | CallRef::Dup(number)
        | CallRef::Fstat(number)
        | CallRef::Getdents(number)
        | CallRef::Fchdir(number) => put_signed(out, *number),
        CallRef::Dup2(first, second)
        | CallRef::Read(first, second)
        | CallRef::Write(first, second)
        | CallRef::Ftruncate(first, second) => put_two_numbers(out, *first, *second),
        CallRef::Lseek(descriptor, by, whence) => put_lseek(out, *descriptor, *by, *whence),
        CallRef::Pledge(first, second) | CallRef::Unveil(first, second) => {
            put_two_options(out, *first, *second)
        }
        CallRef::Execve(path)
        | CallRef::Chdir(path)
        | CallRef::Stat(path)
        | CallRef::Lstat(path)
        | CallRef::Readlink(path)
        | CallRef::Mkdir(path)
        | CallRef::Unlink(path)
        | CallRef::Rmdir(path) => put_quoted(out, path),
        CallRef::Open(path, flags) => put_open(out, path, *flags),
        CallRef::OpenAt(start, path, flags) => put_openat(out, *start, path, *flags),
        CallRef::Symlink(first, second)
        | CallRef::Link(first, second)
        | CallRef::Rename(first, second) => { put_two_texts(out, first, second) }
    }
}

// Appends a call with its arguments.
pub(crate) fn put_call(out: &mut LineBuffer, call: CallRef<'_>)
    requires { length out.old.items + 8 * TEXT + 17 ≤ LINE_BUFFER }
    ensures text { out.new.items ≡ out.old.items ++ call_line (call_of call.entry) }
    ensures growth { length out.new.items ≤ length out.old.items + 8 * TEXT + 17 }
{
    put_name(out, call);
    put(out, b"(");
    put_arguments(out, &call);
    put(out, b")");
}

/// Writes the name of a call. It is formatted in the line buffer.
///
/// # Errors
///
/// Returns `Failed` if a write fails. The sink then has received a prefix of the name.
pub fn write_call_name<W: Sink>(
    out: &mut W,
    line_buffer: &mut LineBuffer,
    call: CallRef<'_>,
) -> Result<(), Failed>
    ensures { Writes W.Sink (call_name (call_of call.entry)) out.old out.new result }
{
    line_buffer.clear();
    put_name(line_buffer, call);
    write_whole(out, line_buffer.as_slice())
}

/// Writes a call with its arguments, as in a CALL line. It is formatted in the line buffer.
///
/// # Errors
///
/// Returns `Failed` if a write fails. The sink then has received a prefix of the call.
pub fn write_call<W: Sink>(
    out: &mut W,
    line_buffer: &mut LineBuffer,
    call: CallRef<'_>,
) -> Result<(), Failed>
    ensures { Writes W.Sink (call_line (call_of call.entry)) out.old out.new result }
{
    line_buffer.clear();
    put_call(line_buffer, call);
    write_whole(out, line_buffer.as_slice())
}
