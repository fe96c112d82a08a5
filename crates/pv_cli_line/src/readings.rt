//! The explanation of a failed read: the file, and the reason of the operating system or the limit that it exceeds.
use crate::lines::{push_line, push_reason};
use pv_cli_commands::Files;
use pv_streams::{Failed, SOURCE_BYTES, Source};
use std::alloc::{AllocError, Global};

// The number of bytes that are requested from a file at a time.
const CHUNK: usize = 65_536;

// Returns whether a source has more bytes than an input may have.
fn has_too_many<S: Source>(source: &mut S) -> bool {
    let mut chunk = [0; CHUNK];
    let mut length = 0_usize;
    for _ in 0..SOURCE_BYTES {
        match source.read(&mut chunk) {
            Ok(0) | Err(Failed) => return false,
            Ok(count) => length = length.saturating_add(count),
        }
        if length > SOURCE_BYTES {
            return true;
        }
    }
    false
}

// Returns whether a file has more bytes than an input may have.
fn is_too_long<F: Files>(files: &F, name: &str) -> bool {
    if !files.is_regular(name) {
        return false;
    }
    match files.open(name) {
        Ok(mut reader) => has_too_many(&mut reader),
        Err(Failed) => false,
    }
}

// Appends the name of a file with the reason why it cannot be read, if that is known.
fn push_unread<F: Files>(
    alloc: Global,
    out: &mut Vec<u8>,
    files: &F,
    name: &str,
) -> Result<(), AllocError> {
    if let Some(reason) = files.read_reason(alloc, name) {
        return push_line(out, format!(in alloc; "{name}: {reason}")?.as_str());
    }
    if is_too_long(files, name) {
        let line = format!(in alloc; "{name}: the file has more than {SOURCE_BYTES} bytes")?;
        return push_line(out, line.as_str());
    }
    Ok(())
}

// Appends the explanation of a failed read of one or two files, of which the first may be the standard input: the name
// of each file that cannot be read, with the reason, or both names if no reason is known.
pub(crate) fn push_readings<F: Files>(
    alloc: Global,
    out: &mut Vec<u8>,
    files: &F,
    first: Option<&str>,
    second: Option<&str>,
) -> Result<(), AllocError> {
    if let Some(name) = first {
        push_unread(alloc, out, files, name)?;
    }
    if let Some(name) = second {
        push_unread(alloc, out, files, name)?;
    }
    if !out.is_empty() {
        return Ok(());
    }
    match first {
        Some(name) => push_line(out, name)?,
        None => {
            let line = format!(in alloc;
                "standard input: a read failed, or it has more than {SOURCE_BYTES} bytes"
            )?;
            push_line(out, line.as_str())?;
        }
    }
    match second {
        Some(name) => push_line(out, name),
        None => Ok(()),
    }
}

// Appends the explanation of a failed read of a directory or of an entry in it.
pub(crate) fn push_directory<F: Files>(
    alloc: Global,
    out: &mut Vec<u8>,
    files: &F,
    name: &str,
) -> Result<(), AllocError> {
    let reason = files.read_reason(alloc, name);
    if files.open(name).is_err() {
        return push_reason(alloc, out, name, reason);
    }
    // A directory can be opened and not read.
    let what = if reason.is_none() {
        "expected a directory"
    } else {
        "the directory or an entry in it cannot be read"
    };
    push_line(out, format!(in alloc; "{name}: {what}")?.as_str())
}
