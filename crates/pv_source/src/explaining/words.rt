//! The arguments of instructions, and messages for arguments that are words.
use super::saying::Part::{Marked, Plain};
use super::saying::{Saying, say_all};
use std::alloc::AllocError;

/// The kind of an argument.
#[derive(Clone, Copy, PartialEq, Eq)]
pub enum Want {
    /// No argument.
    Nothing,
    /// A register.
    Register,
    /// A number of 32 bits.
    Number,
    /// An offset in the buffer.
    Place,
    /// A line of the program.
    Line,
    /// A number or a register.
    Operand,
    /// A text.
    Text,
    /// A text, or `null`.
    TextOrNull,
    /// The flags of open.
    Flags,
    /// The `whence` of lseek.
    Whence,
    /// The start of openat.
    Origin,
}

/// The names of instructions.
pub const NAMES: [&[u8]; 38] = [
    b"set",
    b"add",
    b"put",
    b"peek",
    b"jmp",
    b"jz",
    b"jnz",
    b"jneg",
    b"fork",
    b"wait",
    b"getpid",
    b"getppid",
    b"exit",
    b"pledge",
    b"unveil",
    b"execve",
    b"open",
    b"openat",
    b"close",
    b"dup",
    b"dup2",
    b"read",
    b"write",
    b"lseek",
    b"fstat",
    b"ftruncate",
    b"getdents",
    b"fchdir",
    b"chdir",
    b"stat",
    b"lstat",
    b"readlink",
    b"unlink",
    b"mkdir",
    b"rmdir",
    b"rename",
    b"link",
    b"symlink",
];

// Returns whether a word is this name.
fn is(word: &[u8], name: &[u8]) -> bool {
    word == name
}

// Returns the arguments of an instruction on registers, or of a jump.
fn register_wants(word: &[u8]) -> Option<[Want; 3]> {
    if is(word, b"set") || is(word, b"add") {
        return Some([Want::Register, Want::Number, Want::Nothing]);
    }
    if is(word, b"peek") {
        return Some([Want::Register, Want::Place, Want::Nothing]);
    }
    if is(word, b"jz") || is(word, b"jnz") || is(word, b"jneg") {
        return Some([Want::Register, Want::Line, Want::Nothing]);
    }
    if is(word, b"jmp") {
        return Some([Want::Line, Want::Nothing, Want::Nothing]);
    }
    None
}

// Returns the arguments of a call on processes, promises, unveiled paths or descriptors.
fn call_wants(word: &[u8]) -> Option<[Want; 3]> {
    if is(word, b"fork") || is(word, b"wait") || is(word, b"getpid") || is(word, b"getppid") {
        return Some([Want::Nothing, Want::Nothing, Want::Nothing]);
    }
    if is(word, b"exit")
        || is(word, b"close")
        || is(word, b"dup")
        || is(word, b"fstat")
        || is(word, b"getdents")
        || is(word, b"fchdir")
    {
        return Some([Want::Operand, Want::Nothing, Want::Nothing]);
    }
    if is(word, b"dup2") || is(word, b"read") || is(word, b"write") || is(word, b"ftruncate") {
        return Some([Want::Operand, Want::Operand, Want::Nothing]);
    }
    if is(word, b"lseek") {
        return Some([Want::Operand, Want::Operand, Want::Whence]);
    }
    if is(word, b"pledge") || is(word, b"unveil") {
        return Some([Want::TextOrNull, Want::TextOrNull, Want::Nothing]);
    }
    None
}

// Returns the arguments of `put`, or of a call on paths.
fn path_wants(word: &[u8]) -> Option<[Want; 3]> {
    if is(word, b"put")
        || is(word, b"execve")
        || is(word, b"chdir")
        || is(word, b"stat")
        || is(word, b"lstat")
        || is(word, b"readlink")
        || is(word, b"unlink")
        || is(word, b"mkdir")
        || is(word, b"rmdir")
    {
        return Some([Want::Text, Want::Nothing, Want::Nothing]);
    }
    if is(word, b"rename") || is(word, b"link") || is(word, b"symlink") {
        return Some([Want::Text, Want::Text, Want::Nothing]);
    }
    if is(word, b"open") {
        return Some([Want::Text, Want::Flags, Want::Nothing]);
    }
    if is(word, b"openat") {
        return Some([Want::Origin, Want::Text, Want::Flags]);
    }
    None
}

/// Returns the arguments of the instruction with this name, at most three, or `None` if the word does not name one.
pub fn wants_of(word: &[u8]) -> Option<[Want; 3]> {
    if let Some(wants) = register_wants(word) {
        return Some(wants);
    }
    if let Some(wants) = call_wants(word) {
        return Some(wants);
    }
    path_wants(word)
}

/// Returns the name of an argument.
pub fn argument_name(want: Want) -> &'static [u8] {
    match want {
        Want::Nothing => b"argument",
        Want::Register => b"register",
        Want::Number => b"number",
        Want::Place => b"offset",
        Want::Line => b"line",
        Want::Operand => b"number or register",
        Want::Text => b"text",
        Want::TextOrNull => b"argument",
        Want::Flags => b"flags",
        Want::Whence => b"whence",
        Want::Origin => b"start",
    }
}

/// Returns the requirement on an argument of this kind.
pub fn wanted(want: Want) -> &'static [u8] {
    match want {
        Want::Nothing => b"expected no argument",
        Want::Register => b"expected r0 to r7",
        Want::Number => b"expected -2147483648 to 2147483647, without leading zeros or '+'",
        Want::Place => b"expected an offset in the buffer, 0 to 4095",
        Want::Line => b"expected a label or the number of an instruction",
        Want::Operand => {
            b"expected r0 to r7, or -2147483648 to 2147483647 without leading zeros or '+'"
        }
        Want::Text => b"expected \"TEXT\"",
        Want::TextOrNull => b"expected \"TEXT\" or null",
        Want::Flags => {
            b"expected r, w or rw, then any of +append, +create, +trunc, +excl, +nofollow, +dir, +cloexec in this order"
        }
        Want::Whence => b"expected set, cur or end",
        Want::Origin => b"expected cwd, a descriptor number, or a register",
    }
}

/// Writes that a word is not a valid argument of this kind.
///
/// # Errors
///
/// Returns `AllocError` if memory cannot be allocated.
pub fn say_invalid(out: &mut Saying, want: Want, word: &[u8]) -> Result<(), AllocError> {
    let (name, wanted) = (Plain(argument_name(want)), Plain(wanted(want)));
    say_all(
        out,
        &[
            Plain(b"invalid "),
            name,
            Plain(b" "),
            Marked(word),
            Plain(b": "),
            wanted,
        ],
    )
}
