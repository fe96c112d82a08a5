//! Why a call failed that neither a promise nor an unveil table refused.
ghost use Rattle.std.specs.Prelude.{◌≡◌, ◌≤◌, ◌<◌, bytes_eq, find, is_none, length, option_copied, option_map, IfOk, IsSome, IsTrue, Some};
ghost use Rattle.std.specs.Option.{option_or};
ghost use Rattle.pv_explain.specs.ErrorParts.{prefix_in, reason_in};
ghost use Rattle.pv_explain.specs.Errors.{ReasonsHold, argument_reason, arrives, condition, descriptor_reason, descriptor_used, end_after, ends_component, file_reason, invalid_argument, is_EISDIR, is_of_path, is_path_errno, is_valid_link, leads_to_directory, misfits, path_reason, prefix_end, error_reason, start_descriptor, start_of, start_used, stop, stops_at, two_walks, unknown_byte, unknown_in, unknown_keyword, unknown_permission, walk_prefix, words_reason};
ghost use Rattle.pv_laws_states.specs.States.{IsValid};
ghost use Rattle.pv_model.specs.Machine.{call_of, walk_of, open_file, start_directory, promise_name, Process, process_at, reads, is_directory_at};
ghost use Rattle.pv_model.specs.Perms.{permission_of};
ghost use Rattle.pv_model.specs.Promises.{promise_of};

use pv_model::limits::{LINK_TEXT, PATH};
use pv_model::{CallRef, Errno, Follow, Mode, Place, Promise, Start, Text, Walk, Walks};
use pv_namei::{PlainLookup, is_absolute, resolve};
use pv_promises::ALL;
use pv_step_lines::calls_plain::descriptors::open_file;
use pv_step_lines::calls_plain::files::writes;
use pv_step_lines::calls_state::Parts;
use pv_tree::Tree;

/// A prefix of a path, and the end of the walk along it.
#[derive(Drop)]
pub struct PathPrefix<'a> {
    /// The prefix.
    pub path: &'a [u8],
    /// The place where the walk ends, or its error.
    pub end: Result<Place, Errno>,
}

/// The reason of an error of a call.
#[derive(Drop)]
pub enum ErrorReason<'a> {
    /// The descriptor is not open.
    NoDescriptor(i32),
    /// The descriptor is open on this node in this mode.
    Opened(i32, u16, Mode),
    /// An argument of pledge(2) has this unknown keyword.
    Keyword(&'a [u8]),
    /// An argument of unveil(2) has this unknown permission.
    Permission(u8),
    /// The end of the walk along a path.
    OnePath(PathPrefix<'a>),
    /// The ends of the walks along both paths of a call.
    TwoPaths(PathPrefix<'a>, PathPrefix<'a>),
    /// The condition of the error.
    Words(&'static [u8]),
}

// ---- paths

// Returns whether a walk ends at a directory.
fn leads_to_directory(tree: &Tree, end: &Result<Place, Errno>) -> bool
    ensures { result ≡ leads_to_directory tree.now.tree end.now }
{
    match end {
        Ok(Place::Node(node)) => tree.is_directory(*node),
        Ok(Place::At { node, .. }) => match node {
            Some(node) => tree.is_directory(*node),
            None => false,
        },
        Err(_) => false,
    }
}

// Returns whether a component of the path ends before byte `k`, which is a slash.
fn ends_component(path: &[u8], k: usize) -> bool
    requires { k < length path.now }
    ensures { result ≡ ends_component path.now k }
{
    k > 0 && path[k] == b'/' && path[k - 1] != b'/'
}

// Returns the end of the walk along the first `k` bytes of a path.
fn end_after(tree: &Tree, start: u16, follow: Follow, path: &[u8], k: usize) -> Result<Place, Errno>
    requires directory { IsTrue (is_directory_at tree.now.tree start) }
    requires within { k ≤ length path.now }
    ensures { result ≡ end_after tree.now.tree start follow path.now k }
{
    if k < path.len() {
        resolve(tree, &mut PlainLookup, start, &path[..k], Follow::Last)
    } else {
        resolve(tree, &mut PlainLookup, start, path, follow)
    }
}

// Returns whether the walk along a path cannot continue after the first `k` bytes.
fn stops_at(tree: &Tree, start: u16, follow: Follow, path: &[u8], k: usize) -> bool
    requires directory { IsTrue (is_directory_at tree.now.tree start) }
    requires within { k < length path.now }
    ensures { result ≡ stops_at tree.now.tree start follow path.now k }
{
    ends_component(path, k) && !leads_to_directory(tree, &end_after(tree, start, follow, path, k))
}

// Returns the length of the shortest prefix of components that does not lead to a directory, or of the path.
fn stop(tree: &Tree, start: u16, follow: Follow, path: &[u8]) -> usize
    requires { IsTrue (is_directory_at tree.now.tree start) }
    ensures value { result ≡ stop tree.now.tree start follow path.now }
    ensures within { result ≤ length path.now }
{
    if path.is_empty() || path.len() > PATH {
        return path.len();
    }
    for k in 0..path.len() {
        if stops_at(tree, start, follow, path, k) {
            return k;
        }
    }
    path.len()
}

// Returns the shortest prefix of components that does not lead to a directory, or the path, and its end.
#[tactic(auto, unfolding(crate::specs::Errors::prefix_end))]
fn prefix_end<'a>(tree: &Tree, start: u16, follow: Follow, path: &'a [u8]) -> PathPrefix<'a>
    requires { IsTrue (is_directory_at tree.now.tree start) }
    ensures { prefix_in result ≡ prefix_end tree.now.tree start follow path.now }
{
    let stop = stop(tree, start, follow, path);
    PathPrefix {
        path: &path[..stop],
        end: end_after(tree, start, follow, path, stop),
    }
}

// Returns the directory where a path of a walk starts, or the node of its descriptor.
fn start_directory(parts: &Parts, pid: u32, start: Start, path: &Text) -> u16
    requires whole { IsValid parts.now }
    requires live { IsSome (process_at parts.now pid) }
    ensures { (me : Process) → process_at parts.now pid ≡ Some me → result ≡ start_directory parts.now me start path.now }
{
    match start {
        Start::Descriptor(d) if !is_absolute(path.as_slice()) => match open_file(parts, pid, d) {
            Some(file) => parts.files().node(file),
            None => parts.record(pid).directory,
        },
        _ => parts.record(pid).directory,
    }
}

// Returns the directory where a path of a walk starts. If its descriptor is of no directory, returns the working
// directory.
fn start_of(parts: &Parts, pid: u32, walk: Walk<'_>) -> u16
    requires whole { IsValid parts.now }
    requires live { IsSome (process_at parts.now pid) }
    ensures directory { IsTrue (is_directory_at parts.now.tree result) }
    ensures value { (me : Process) → process_at parts.now pid ≡ Some me → result ≡ start_of parts.now me walk.entry.start walk.entry.path.now }
{
    let start = start_directory(parts, pid, walk.start, walk.path);
    if parts.tree().is_directory(start) {
        start
    } else {
        parts.record(pid).directory
    }
}

// Returns the end of a walk of a live process.
fn walk_prefix<'a>(parts: &Parts, pid: u32, walk: Walk<'a>) -> PathPrefix<'a>
    requires whole { IsValid parts.now }
    requires live { IsSome (process_at parts.now pid) }
    ensures { (me : Process) → process_at parts.now pid ≡ Some me → prefix_in result ≡ walk_prefix parts.now me (walk_of walk.entry) }
{
    let start = start_of(parts, pid, walk);
    prefix_end(parts.tree(), start, walk.follow, walk.path.as_slice())
}

// Returns whether the walk along a whole path has an end.
fn arrives(path: &Text, prefix: &PathPrefix<'_>) -> bool
    ensures { result ≡ arrives path.now (prefix_in prefix.now) }
{
    prefix.path.len() == path.len() && prefix.end.is_ok()
}

// ---- arguments

// Returns the first of some promises whose keyword is `word`.
fn find_by_name(promises: &[Promise], word: &[u8]) -> Option<Promise>
    ensures { result ≡ find (λ p. bytes_eq (promise_name p) word.now) promises.now }
{
    promises
        .iter()
        .copied()
        .find(|promise| promise.name().as_bytes() == word)
}

// Returns whether a word is not a keyword of pledge(2).
fn is_unknown_keyword(word: &[u8]) -> bool
    ensures { result ≡ is_none (promise_of word.now) }
{
    find_by_name(&ALL, word).is_none()
}

// Returns the first unknown keyword of a text.
fn first_unknown(text: &[u8]) -> Option<&[u8]>
    ensures { option_copied result ≡ unknown_in (Some text.now) }
{
    for word in text.split(|b| *b == b' ').filter(|word| !word.is_empty()) {
        if is_unknown_keyword(word) {
            return Some(word);
        }
    }
    None
}

// Returns the first unknown keyword of an argument of pledge(2).
fn unknown_in(text: Option<&Text>) -> Option<&[u8]>
    ensures { option_copied result ≡ unknown_in (option_copied text.entry) }
{
    match text {
        Some(text) => first_unknown(text.as_slice()),
        None => None,
    }
}

// Returns whether a byte is not a permission of unveil(2).
fn is_unknown_permission(byte: u8) -> bool
    ensures { result ≡ is_none (permission_of byte) }
{
    !matches!(byte, b'r' | b'w' | b'x' | b'c')
}

// Returns the first unknown permission of an argument of unveil(2).
fn unknown_byte(text: &[u8]) -> Option<u8>
    ensures { result ≡ unknown_byte text.now }
{
    text.iter()
        .copied()
        .find(|byte| is_unknown_permission(*byte))
}

// Returns whether a symbolic link may have this text.
fn is_valid_link(text: &Text) -> bool
    ensures { result ≡ is_valid_link text.now }
{
    text.len() > 0 && text.len() <= LINK_TEXT
}

// Returns the unknown keyword of the two arguments of pledge(2) as a reason.
fn keyword_reason<'a>(
    promises: Option<&'a Text>,
    execpromises: Option<&'a Text>,
) -> Option<ErrorReason<'a>>
    ensures { option_map reason_in result ≡ option_map unknown_keyword (option_or (unknown_in (option_copied promises.entry)) (unknown_in (option_copied execpromises.entry))) }
{
    if let Some(word) = unknown_in(promises) {
        return Some(ErrorReason::Keyword(word));
    }
    match unknown_in(execpromises) {
        Some(word) => Some(ErrorReason::Keyword(word)),
        None => None,
    }
}

// Returns the unknown permission of an argument of unveil(2) as a reason.
fn permission_reason(text: &Text) -> Option<ErrorReason<'static>>
    ensures { option_map reason_in result ≡ option_map unknown_permission (unknown_byte text.now) }
{
    match unknown_byte(text.as_slice()) {
        Some(byte) => Some(ErrorReason::Permission(byte)),
        None => None,
    }
}

// Returns the requirement on an invalid argument of a call, as the condition of EINVAL.
fn invalid_argument(call: CallRef<'_>) -> &'static [u8]
    ensures { result.now ≡ invalid_argument (call_of call.entry) }
{
    match call {
        CallRef::Open(_, _) | CallRef::OpenAt(_, _, _) => b"the flags contradict each other",
        CallRef::Read(_, _) | CallRef::Write(_, _) => b"the number of bytes is not from 0 to 4096",
        CallRef::Lseek(_, _, _) => b"the offset would not be from 0 to 2147483647",
        CallRef::Ftruncate(_, _) => b"the length is below 0",
        CallRef::Unveil(_, _) => b"one of the two arguments is null",
        CallRef::Rmdir(_) => b"the last component of the path is . or ..",
        CallRef::Rename(_, _) => {
            b"the last component of a path is . or .., or the new name is in the directory that is renamed"
        }
        _ => b"an argument is invalid",
    }
}

// Returns the condition of an error in the manual page of the call.
fn condition(call: CallRef<'_>, errno: Errno) -> &'static [u8]
    ensures { result.now ≡ condition (call_of call.entry) errno }
{
    match errno {
        Errno::ENOENT => b"the text is empty",
        Errno::ENAMETOOLONG => b"the text has more than 1023 bytes",
        Errno::E2BIG => b"the table has 64 entries",
        Errno::ENOEXEC => b"the file is not a program",
        Errno::EBADF => b"the second number is not from 0 to 15",
        Errno::ECHILD => b"the process has no child",
        Errno::EINVAL => invalid_argument(call),
        Errno::ENFILE => b"there are 128 open files",
        Errno::EMFILE => b"the process has 16 descriptors",
        Errno::EFBIG => b"a file or a directory would exceed its maximum length",
        Errno::ENOSPC => b"the image has too few blocks or inodes",
        Errno::EAGAIN => {
            b"there are 32 processes, or the number of the new process would exceed 99999"
        }
        _ => b"the call failed",
    }
}

// Returns the condition of an error as a reason.
fn words_reason(call: CallRef<'_>, errno: Errno) -> ErrorReason<'static>
    ensures { reason_in result ≡ words_reason (call_of call.entry) errno }
{
    ErrorReason::Words(condition(call, errno))
}

// Returns an argument that no state allows, as a reason.
fn argument_reason<'a>(call: CallRef<'a>, errno: Errno) -> Option<ErrorReason<'a>>
    ensures { option_map reason_in result ≡ argument_reason (call_of call.entry) errno }
{
    match call {
        CallRef::Pledge(promises, execpromises) => keyword_reason(promises, execpromises),
        CallRef::Unveil(Some(_), Some(text)) => permission_reason(text),
        CallRef::Symlink(text, _) if !is_valid_link(text) => Some(words_reason(call, errno)),
        _ => None,
    }
}

// ---- the reason

// Returns whether an error depends on the nodes at the ends of a call's paths.
fn is_path_errno(errno: Errno) -> bool
    ensures { result ≡ is_path_errno errno }
{
    matches!(
        errno,
        Errno::EPERM
            | Errno::ENOENT
            | Errno::EBADF
            | Errno::EACCES
            | Errno::EBUSY
            | Errno::EEXIST
            | Errno::ENOTDIR
            | Errno::EISDIR
            | Errno::ELOOP
            | Errno::ENAMETOOLONG
            | Errno::ENOTEMPTY
    )
}

// Returns whether an error of this call depends on the nodes at the ends of its paths.
fn is_of_path(call: CallRef<'_>, errno: Errno) -> bool
    ensures { result ≡ is_of_path (call_of call.entry) errno }
{
    match call {
        CallRef::Readlink(_) => true,
        _ => is_path_errno(errno),
    }
}

// Returns whether open files of this mode can be read.
fn reads(mode: Mode) -> bool
    ensures { result ≡ reads mode }
{
    !matches!(mode, Mode::Write)
}

// Returns whether an error is EISDIR.
fn is_eisdir(errno: Errno) -> bool
    ensures { result ≡ is_EISDIR errno }
{
    matches!(errno, Errno::EISDIR)
}

// Returns whether a call failed because its descriptor is open in this mode on this node.
fn misfits(tree: &Tree, call: CallRef<'_>, errno: Errno, node: u16, mode: Mode) -> bool
    ensures { result ≡ misfits tree.now.tree (call_of call.entry) errno node mode }
{
    match call {
        CallRef::Read(_, _) => !reads(mode) || (is_eisdir(errno) && tree.is_directory(node)),
        CallRef::Write(_, _) | CallRef::Ftruncate(_, _) => !writes(mode),
        CallRef::Lseek(_, _, _) => tree.is_directory(node),
        CallRef::Getdents(_) | CallRef::Fchdir(_) | CallRef::OpenAt(_, _, _) => {
            !tree.is_directory(node)
        }
        _ => false,
    }
}

// Returns the ends of the paths of a call, or the condition of the error if it does not depend on them.
fn path_reason<'a>(parts: &Parts, pid: u32, call: CallRef<'a>, errno: Errno) -> ErrorReason<'a>
    requires whole { IsValid parts.now }
    requires live { IsSome (process_at parts.now pid) }
    ensures { (me : Process) → process_at parts.now pid ≡ Some me → reason_in result ≡ path_reason parts.now me (call_of call.entry) errno }
{
    if !is_of_path(call, errno) {
        return words_reason(call, errno);
    }
    match call.walks() {
        Walks::Zero => words_reason(call, errno),
        Walks::One(walk) => ErrorReason::OnePath(walk_prefix(parts, pid, walk)),
        Walks::Two(first, second) => two_walks(parts, pid, first, second),
    }
}

// Returns the ends of the two paths of a call, or of the first alone if it leads nowhere.
fn two_walks<'a>(parts: &Parts, pid: u32, first: Walk<'a>, second: Walk<'a>) -> ErrorReason<'a>
    requires whole { IsValid parts.now }
    requires live { IsSome (process_at parts.now pid) }
    ensures { (me : Process) → process_at parts.now pid ≡ Some me
        → reason_in result ≡ two_walks parts.now me (walk_of first.entry) (walk_of second.entry) }
{
    let prefix = walk_prefix(parts, pid, first);
    if arrives(first.path, &prefix) {
        ErrorReason::TwoPaths(prefix, walk_prefix(parts, pid, second))
    } else {
        ErrorReason::OnePath(prefix)
    }
}

// Returns the state of the descriptor of a call, or, if the call did not fail because of it, the reason by its paths.
fn file_reason<'a>(
    parts: &Parts,
    pid: u32,
    call: CallRef<'a>,
    errno: Errno,
    d: i32,
) -> ErrorReason<'a>
    requires whole { IsValid parts.now }
    requires live { IsSome (process_at parts.now pid) }
    ensures { (me : Process) → process_at parts.now pid ≡ Some me
        → reason_in result ≡ file_reason parts.now me (call_of call.entry) errno d (open_file parts.now me d) }
{
    let Some(file) = open_file(parts, pid, d) else {
        return ErrorReason::NoDescriptor(d);
    };
    let node = parts.files().node(file);
    let mode = parts.files().mode(file);
    if misfits(parts.tree(), call, errno, node, mode) {
        ErrorReason::Opened(d, node, mode)
    } else {
        path_reason(parts, pid, call, errno)
    }
}

// Returns the reason by the descriptor where a path starts, or by the paths of the call if there is none.
fn relative_reason<'a>(
    parts: &Parts,
    pid: u32,
    call: CallRef<'a>,
    errno: Errno,
    start: Start,
) -> ErrorReason<'a>
    requires whole { IsValid parts.now }
    requires live { IsSome (process_at parts.now pid) }
    ensures { (me : Process) → process_at parts.now pid ≡ Some me
        → reason_in result ≡ descriptor_reason parts.now me (call_of call.entry) errno (start_descriptor start) }
{
    match start {
        Start::Descriptor(d) => file_reason(parts, pid, call, errno, d),
        Start::WorkingDirectory => path_reason(parts, pid, call, errno),
    }
}

// Returns the reason by the start of a path, if the path is relative and the error can depend on it, or else by the
// paths of the call.
fn start_reason<'a>(
    parts: &Parts,
    pid: u32,
    call: CallRef<'a>,
    errno: Errno,
    start: Start,
    path: &Text,
) -> ErrorReason<'a>
    requires whole { IsValid parts.now }
    requires live { IsSome (process_at parts.now pid) }
    ensures { (me : Process) → process_at parts.now pid ≡ Some me
        → reason_in result ≡ descriptor_reason parts.now me (call_of call.entry) errno (start_used start path.now errno) }
{
    if is_absolute(path.as_slice()) {
        return path_reason(parts, pid, call, errno);
    }
    if is_path_errno(errno) {
        relative_reason(parts, pid, call, errno, start)
    } else {
        path_reason(parts, pid, call, errno)
    }
}

// Returns the reason by the descriptor of a call, if the error can depend on it, or else by its paths.
fn descriptor_reason<'a>(
    parts: &Parts,
    pid: u32,
    call: CallRef<'a>,
    errno: Errno,
) -> ErrorReason<'a>
    requires whole { IsValid parts.now }
    requires live { IsSome (process_at parts.now pid) }
    ensures { (me : Process) → process_at parts.now pid ≡ Some me
        → reason_in result ≡ descriptor_reason parts.now me (call_of call.entry) errno (descriptor_used (call_of call.entry) errno) }
{
    match call {
        CallRef::Close(d)
        | CallRef::Dup(d)
        | CallRef::Dup2(d, _)
        | CallRef::Read(d, _)
        | CallRef::Write(d, _)
        | CallRef::Lseek(d, _, _)
        | CallRef::Fstat(d)
        | CallRef::Ftruncate(d, _)
        | CallRef::Getdents(d)
        | CallRef::Fchdir(d) => file_reason(parts, pid, call, errno, d),
        CallRef::OpenAt(start, path, _) => start_reason(parts, pid, call, errno, start, path),
        _ => path_reason(parts, pid, call, errno),
    }
}

/// Returns the reason of an error of a call, in the state that the failed call left.
pub(crate) fn reason_of<'a>(
    parts: &Parts,
    pid: u32,
    call: CallRef<'a>,
    errno: Errno,
) -> ErrorReason<'a>
    requires whole { IsValid parts.now }
    requires live { IsSome (process_at parts.now pid) }
    ensures { (me : Process) → process_at parts.now pid ≡ Some me → reason_in result ≡ error_reason parts.now me (call_of call.entry) errno }
{
    match argument_reason(call, errno) {
        Some(reason) => reason,
        None => descriptor_reason(parts, pid, call, errno),
    }
}

/// States that the reason of an error is true in the state before the call: its statement about a descriptor, an
/// argument or the end of a walk is true in that state.
pub fn reasons_hold()
    ensures { ReasonsHold }
{}
