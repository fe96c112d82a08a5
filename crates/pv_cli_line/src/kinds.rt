//! The kind of a file that a command cannot use, by the bytes of the file: an image in place of a text, or a text that
//! is not UTF-8.
use crate::lines::push_line;
use pv_cli_commands::questions::{is_source, is_turns};
use pv_model::Version;
use std::alloc::{AllocError, Global};

// The kind of a file.
#[derive(Clone, Copy, PartialEq, Eq)]
pub(crate) enum Kind {
    // No bytes.
    Empty,
    // An image of either version.
    Image,
    // A manifest, a bundle or a source.
    Text,
    // A schedule.
    Schedule,
    // Any other bytes.
    Other,
}

// Returns the kind of a file with these bytes.
pub(crate) fn kind_of(alloc: Global, bytes: &[u8]) -> Result<Kind, AllocError> {
    if bytes.is_empty() {
        return Ok(Kind::Empty);
    }
    if bytes.starts_with(Version::V1.magic()) || bytes.starts_with(Version::V2.magic()) {
        return Ok(Kind::Image);
    }
    if is_source(bytes) {
        return Ok(Kind::Text);
    }
    if is_turns(alloc, bytes)? {
        return Ok(Kind::Schedule);
    }
    Ok(Kind::Other)
}

impl Kind {
    // Returns the kind in words, if bytes of it are recognized.
    pub(crate) fn words(self) -> Option<&'static str> {
        match self {
            Kind::Empty => Some("this file is empty"),
            Kind::Image => Some("this is an image"),
            Kind::Text => Some("this is a manifest, a bundle or a source"),
            Kind::Schedule => Some("this is a schedule"),
            Kind::Other => None,
        }
    }
}

// Returns whether a text has bytes of UTF-16: its byte order mark, or two bytes for a character of ASCII.
fn is_wide(text: &[u8]) -> bool {
    matches!(
        text,
        [0xFF, 0xFE, ..] | [0xFE, 0xFF, ..] | [0, 1..=0x7F, ..] | [1..=0x7F, 0, ..]
    )
}

// Returns whether bytes have a typographic quotation mark in UTF-8.
pub(crate) fn has_typographic_quotes(bytes: &[u8]) -> bool {
    bytes
        .windows(3)
        .any(|three| matches!(three, [0xE2, 0x80, 0x98..=0x9F]))
}

// Returns the change that the encoding of a text needs, if its first bytes or its ends of lines are in error.
fn encoding_fault(text: &[u8]) -> Option<&'static str> {
    if is_wide(text) {
        return Some("this is UTF-16; save as UTF-8 without BOM");
    }
    if let [0xEF, 0xBB, 0xBF, ..] = text {
        return Some("this begins with a byte order mark; save as UTF-8 without BOM");
    }
    if text.windows(2).any(|pair| pair == b"\r\n".as_slice()) {
        return Some("the lines end in CR LF; use LF");
    }
    None
}

// Appends the change that the encoding of a text needs, and returns whether there is one.
pub(crate) fn push_encoding(
    alloc: Global,
    out: &mut Vec<u8>,
    name: &str,
    text: &[u8],
) -> Result<bool, AllocError> {
    let Some(change) = encoding_fault(text) else {
        return Ok(false);
    };
    push_line(out, format!(in alloc; "{name}: {change}")?.as_str())?;
    Ok(true)
}
