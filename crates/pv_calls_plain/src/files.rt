//! Calls on open files: read(2), write(2), lseek(2), fstat(2), ftruncate(2), getdents(2).
ghost use Rattle.std.specs.Prelude.{ℕ, pos, ◌≡◌, ◌≤◌, ◌<◌, ◌+ℤ◌, length, IfOk, IsSome, IsTrue, MatchResult, OnErr, Some};
ghost use Rattle.pv_laws_states.specs.States.{IsValid};
ghost use Rattle.pv_model.specs.declared.outcome.Cause.TheVariants.{Plain};
ghost use Rattle.pv_model.specs.Machine.{refused, fstat, ftruncate, getdents, is_past_greatest, lseek, next_name, read, seek_base, within, write, write_place, at_number, OpenFile, Process, process_at, reads, writes, entries_at, is_directory_at};
ghost use Rattle.pv_calls_state.specs.Writing.{IsOnFile};
ghost use Rattle.pv_calls_plain.specs.Seeking.{IsSeekable};
ghost use Rattle.pv_calls_plain.specs.Space.{WritesThrough};
ghost use Rattle.pv_calls_plain.specs.Performed.{GivesFront, IsAnswered, IsPerformed};

use crate::answer::{
    Answer, Done, Refused, answer_of, refusal, report, report_bytes, report_front, space_errno,
};
use crate::descriptors::open_file;
use crate::status::status;
use pv_calls_state::Parts;
use pv_calls_state::tree::Tree;
use pv_model::limits::{BUFFER, OFFSET};
use pv_model::{Errno, Mode, Name, Whence};

// Returns `n` if it is from 0 to `limit`.
fn within(limit: usize, n: i32) -> Option<usize>
    ensures { result ≡ within limit n }
{
    match usize::try_from(n) {
        Ok(k) if k <= limit => Some(k),
        _ => None,
    }
}

// Returns whether a file opened in this mode can be read.
fn reads(mode: Mode) -> bool
    ensures { result ≡ reads mode }
{
    !matches!(mode, Mode::Write)
}

/// Returns whether a file opened in this mode can be written.
pub fn writes(mode: Mode) -> bool
    ensures { result ≡ writes mode }
{
    !matches!(mode, Mode::Read)
}

// Returns `base + by` as an offset, or `None` if the sum is below 0 or above the maximum offset.
fn offset_from(base: u32, by: i32) -> Option<u32>
    ensures { result ≡ within OFFSET (pos base +ℤ by) }
{
    match u32::try_from(i64::from(base) + i64::from(by)) {
        Ok(offset) if offset <= OFFSET => Some(offset),
        _ => None,
    }
}

// Returns whether `length` exceeds the maximum length of a file.
fn is_past_greatest(tree: &Tree, length: u32) -> bool
    ensures { result ≡ is_past_greatest tree.now.tree length }
{
    length > tree.sizes().version.layout().greatest_length
}

// Reads for read(2) into the front of the process's buffer, moves the offset past the bytes, and returns their number.
fn read_front(parts: &mut Parts, pid: u32, d: i32, n: i32) -> Result<usize, Errno>
    requires whole { IsValid parts.old }
    requires live { IsSome (process_at parts.old pid) }
    ensures performed { (me : Process) → process_at parts.old pid ≡ Some me → MatchResult result
        (λ count. GivesFront (read parts.old pid me d n) pid count parts.new)
        (λ errno. read parts.old pid me d n ≡ refused 0 errno Plain) }
    ensures live { IsSome (process_at parts.new pid) }
    ensures unchanged { OnErr result (parts.new ≡ parts.old) }
    ensures within { IfOk result (λ count. count ≤ BUFFER) }
{
    let Some(file) = open_file(parts, pid, d) else {
        return Err(Errno::EBADF);
    };
    if !reads(parts.files().mode(file)) {
        return Err(Errno::EBADF);
    }
    let Some(count) = within(BUFFER, n) else {
        return Err(Errno::EINVAL);
    };
    let node = parts.files().node(file);
    if parts.tree().is_directory(node) {
        return Err(Errno::EISDIR);
    }
    let offset = parts.files().offset(file);
    let taken = parts.read_front(pid, node, offset, count);
    parts.set_offset(file, offset + taken as u32);
    Ok(taken)
}

/// Reads at most `n` bytes from the offset to the front of the process's buffer, as read(2). The answer is the number
/// of bytes read, and the offset moves past them.
///
/// The call is refused with `EBADF` if the descriptor is not open for reading, with `EINVAL` if `n` is not from 0 to
/// 4,096, and with `EISDIR` if the descriptor refers to a directory.
pub fn read(parts: &mut Parts, pid: u32, d: i32, n: i32) -> Answer
    requires whole { IsValid parts.old }
    requires live { IsSome (process_at parts.old pid) }
    ensures performed { IsAnswered (λ s me. read s pid me d n) parts.old pid parts.new result }
{
    match read_front(parts, pid, d, n) {
        Ok(count) => {
            parts.invariant();
            let reported = Done {
                walks: 0,
                value: count as u32,
            };
            report_front(parts, pid, reported, count)
        }
        Err(errno) => report(parts, pid, Err(refusal(0, errno))),
    }
}

// Returns the offset at which a write begins: the end of the file if it is open for appending.
fn write_place(parts: &Parts, file: usize) -> u32
    requires whole { IsValid parts.now }
    requires seekable { IsSeekable parts.now file }
    ensures place { (pid : ℕ) (me : Process) (f : OpenFile)
        → at_number parts.now.files file ≡ Some f → result ≡ write_place parts.now pid me f }
    ensures low { result ≤ OFFSET }
{
    if parts.files().appends(file) {
        parts.tree().size(parts.files().node(file))
    } else {
        parts.files().offset(file)
    }
}

/// Writes the first `n` bytes of the process's buffer, as write(2), and returns `n`. The write begins at the offset, or
/// at the end of a file that is open for appending, and the offset moves past the bytes. A write of no bytes changes
/// nothing.
///
/// # Errors
///
/// - `EBADF`, if the descriptor is not open for writing.
/// - `EINVAL`, if `n` is not from 0 to 4,096.
/// - `EFBIG`, if the file would exceed its maximum length.
/// - `ENOSPC`, if the image has no room.
///
/// The state is unchanged after an error.
pub fn write(parts: &mut Parts, pid: u32, d: i32, n: i32) -> Result<Done, Refused>
    requires whole { IsValid parts.old }
    requires live { IsSome (process_at parts.old pid) }
    ensures performed { IsPerformed (λ s me. write s pid me d n) parts.old pid parts.new result }
{
    let Some(file) = open_file(parts, pid, d) else {
        return Err(refusal(0, Errno::EBADF));
    };
    if !writes(parts.files().mode(file)) {
        return Err(refusal(0, Errno::EBADF));
    }
    let Some(count) = within(BUFFER, n) else {
        return Err(refusal(0, Errno::EINVAL));
    };
    if count == 0 {
        return answer_of(0, 0);
    }
    write_bytes(parts, pid, file, count)
}

// Writes the first `count` bytes of the process's buffer, at least one, through an open file.
fn write_bytes(parts: &mut Parts, pid: u32, file: usize, count: usize) -> Result<Done, Refused>
    requires whole { IsValid parts.old }
    requires live { IsSome (process_at parts.old pid) }
    requires some { 0 < count }
    requires few { count ≤ BUFFER }
    requires on_file { IsOnFile parts.old file }
    ensures performed { WritesThrough parts.old pid file count parts.new result }
    ensures unchanged { OnErr result (parts.new ≡ parts.old) }
    ensures small { IfOk result (λ d. d.value ≤ BUFFER) }
{
    let at = write_place(parts, file);
    if is_past_greatest(parts.tree(), at + count as u32) {
        return Err(refusal(0, Errno::EFBIG));
    }
    match parts.write_front(pid, file, at, count) {
        Ok(()) => {
            parts.tree().invariant();
            answer_of(0, count as u32)
        }
        Err(why) => Err(refusal(0, space_errno(why))),
    }
}

// Returns the base from which lseek(2) counts.
fn seek_base(parts: &Parts, file: usize, whence: Whence) -> u32
    requires whole { IsValid parts.now }
    requires seekable { IsSeekable parts.now file }
    ensures { (pid : ℕ) (me : Process) (f : OpenFile) → at_number parts.now.files file ≡ Some f
        → result ≡ seek_base parts.now pid me f whence }
{
    match whence {
        Whence::Set => 0,
        Whence::Current => parts.files().offset(file),
        Whence::End => parts.tree().size(parts.files().node(file)),
    }
}

/// Sets the offset of an open file, as lseek(2), and returns it. The new offset is `by` bytes from the beginning, from
/// the current offset, or from the end.
///
/// # Errors
///
/// - `EBADF`, if the descriptor is not open.
/// - `EINVAL`, if the descriptor refers to a directory, or if the offset would be below 0 or above 2,147,483,647.
///
/// The state is unchanged after an error.
pub fn lseek(parts: &mut Parts, pid: u32, d: i32, by: i32, whence: Whence) -> Result<Done, Refused>
    requires whole { IsValid parts.old }
    requires live { IsSome (process_at parts.old pid) }
    ensures performed { IsPerformed (λ s me. lseek s pid me d by whence)
        parts.old pid parts.new result }
{
    let Some(file) = open_file(parts, pid, d) else {
        return Err(refusal(0, Errno::EBADF));
    };
    let node = parts.files().node(file);
    if parts.tree().is_directory(node) {
        return Err(refusal(0, Errno::EINVAL));
    }
    let base = seek_base(parts, file, whence);
    let Some(offset) = offset_from(base, by) else {
        return Err(refusal(0, Errno::EINVAL));
    };
    parts.set_offset(file, offset);
    parts.invariant();
    answer_of(0, offset)
}

/// Reports the status of an open file, as fstat(2). The eight bytes of stat(2) are stored at the start of the buffer, and
/// the answer is 0.
///
/// The call is refused with `EBADF` if the descriptor is not open.
pub fn fstat(parts: &mut Parts, pid: u32, d: i32) -> Answer
    requires whole { IsValid parts.old }
    requires live { IsSome (process_at parts.old pid) }
    ensures performed { IsAnswered (λ s me. fstat s pid me d) parts.old pid parts.new result }
{
    let Some(file) = open_file(parts, pid, d) else {
        return report(parts, pid, Err(refusal(0, Errno::EBADF)));
    };
    parts.invariant();
    let bytes = status(parts.tree(), parts.files().node(file));
    let reported = Done { walks: 0, value: 0 };
    report_bytes(parts, pid, reported, &bytes)
}

/// Truncates a file to `n` bytes, or extends it to them with zeros, as ftruncate(2), and returns 0.
///
/// # Errors
///
/// - `EBADF`, if the descriptor is not open.
/// - `EINVAL`, if the descriptor is not open for writing, or if `n` is below 0.
/// - `EFBIG`, if the file would exceed its maximum length.
/// - `ENOSPC`, if the image has no room.
///
/// The state is unchanged after an error.
pub fn ftruncate(parts: &mut Parts, pid: u32, d: i32, n: i32) -> Result<Done, Refused>
    requires whole { IsValid parts.old }
    requires live { IsSome (process_at parts.old pid) }
    ensures performed { IsPerformed (λ s me. ftruncate s pid me d n)
        parts.old pid parts.new result }
{
    let Some(file) = open_file(parts, pid, d) else {
        return Err(refusal(0, Errno::EBADF));
    };
    if !writes(parts.files().mode(file)) {
        return Err(refusal(0, Errno::EINVAL));
    }
    let Ok(size) = u32::try_from(n) else {
        return Err(refusal(0, Errno::EINVAL));
    };
    if is_past_greatest(parts.tree(), size) {
        return Err(refusal(0, Errno::EFBIG));
    }
    match parts.resize(parts.files().node(file), size) {
        Ok(()) => {
            parts.tree().invariant();
            answer_of(0, 0)
        }
        Err(why) => Err(refusal(0, space_errno(why))),
    }
}

/// Returns the next name of a directory, as getdents(2): the least name after the last one that its open file gave. The
/// name is stored at the start of the buffer. The answer is its length, or 0 if there are no more names.
///
/// The call is refused with `EBADF` if the descriptor is not open, and with `EINVAL` if it does not refer to a
/// directory.
pub fn getdents(parts: &mut Parts, pid: u32, d: i32) -> Answer
    requires whole { IsValid parts.old }
    requires live { IsSome (process_at parts.old pid) }
    ensures performed { IsAnswered (λ s me. getdents s pid me d) parts.old pid parts.new result }
{
    let Some(file) = open_file(parts, pid, d) else {
        return report(parts, pid, Err(refusal(0, Errno::EBADF)));
    };
    let node = parts.files().node(file);
    if !parts.tree().is_directory(node) {
        return report(parts, pid, Err(refusal(0, Errno::EINVAL)));
    }
    match next_name(parts, file, node) {
        None => {
            parts.invariant();
            report_bytes(parts, pid, Done { walks: 0, value: 0 }, &[])
        }
        Some(name) => {
            parts.set_last_name(file, name.copy());
            parts.invariant();
            let reported = Done {
                walks: 0,
                value: name.len() as u32,
            };
            report_bytes(parts, pid, reported, name.as_slice())
        }
    }
}

// Returns the least name of a directory after the last one that an open file gave.
fn next_name(parts: &Parts, file: usize, directory: u16) -> Option<Name>
    requires opened { IsSome (at_number parts.now.files file) }
    requires directory { IsTrue (is_directory_at parts.now.tree directory) }
    ensures { (f : OpenFile) → at_number parts.now.files file ≡ Some f
        → result ≡ next_name f.listed (entries_at parts.now.tree directory) }
{
    match parts.files().last_name(file) {
        Some(last) => parts.tree().next_after(directory, Some(last.as_slice())),
        None => parts.tree().next_after(directory, None),
    }
}
