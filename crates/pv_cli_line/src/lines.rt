//! The lines of an explanation, each of which begins with two spaces.
use pv_streams::escape;
use std::alloc::{AllocError, Global};

// Appends a line.
pub(crate) fn push_line(out: &mut Vec<u8>, words: &str) -> Result<(), AllocError> {
    out.extend_from_slice(b"  ")?;
    out.extend_from_slice(words.as_bytes())?;
    out.extend_from_slice(b"\n")
}

// Appends bytes of the input. A byte that is not from 20 to 7E is shown by its number.
fn push_bytes(out: &mut Vec<u8>, bytes: &[u8]) -> Result<(), AllocError> {
    for byte in bytes {
        let byte = *byte;
        if matches!(byte, b' '..=b'~') {
            out.push(byte)?;
        } else {
            out.extend_from_slice(&escape(byte))?;
        }
    }
    Ok(())
}

// The maximum length of an excerpt, in bytes as it is shown.
const EXCERPT: usize = 60;

// Appends an excerpt of bytes of the input: all of them, or the first with `...` in place of the rest.
pub(crate) fn push_excerpt(
    alloc: Global,
    out: &mut Vec<u8>,
    bytes: &[u8],
) -> Result<(), AllocError> {
    let mut shown = Vec::new(alloc);
    for byte in bytes {
        let mut more = Vec::new(alloc);
        push_bytes(&mut more, &[*byte])?;
        if shown.len().saturating_add(more.len()) > EXCERPT {
            out.extend_from_slice(&shown)?;
            return out.extend_from_slice(b"...");
        }
        shown.extend_from_slice(&more)?;
    }
    out.extend_from_slice(&shown)
}

// Appends an excerpt of a line of a text.
pub(crate) fn push_shown(alloc: Global, out: &mut Vec<u8>, line: &[u8]) -> Result<(), AllocError> {
    out.extend_from_slice(b"  ")?;
    push_excerpt(alloc, out, line)?;
    out.extend_from_slice(b"\n")
}

// Appends the name of a file and the reason of the operating system.
pub(crate) fn push_reason(
    alloc: Global,
    out: &mut Vec<u8>,
    name: &str,
    reason: Option<String>,
) -> Result<(), AllocError> {
    match reason {
        Some(reason) => push_line(out, format!(in alloc; "{name}: {reason}")?.as_str()),
        None => push_line(out, name),
    }
}
