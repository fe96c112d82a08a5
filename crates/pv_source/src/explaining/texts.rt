//! Messages for texts in quotation marks, and for paths.
ghost use Rattle.std.specs.Prelude.{◌<◌, length, IfSome};

use super::saying::Part::{Hex, Number, Plain};
use super::saying::{Saying, say, say_all, say_word};
use pv_model::limits::{LINK_TEXT, NAME_V1, TEXT};
use pv_text::components::split_component;
use pv_text::lines::{first_of, split_word};
use pv_text::texts::text;
use std::alloc::AllocError;

// Writes the error of an escape whose backslash precedes these bytes.
fn say_escape(out: &mut Saying, bytes: &[u8]) -> Result<(), AllocError> {
    let count = match bytes {
        [b'x', ..] => bytes.len().min(3),
        _ => bytes.len().min(1),
    };
    let what: &[u8] = match bytes {
        [b'x', b'0', b'0', ..] => b"'; byte 00 is not allowed in a text",
        [] => b"'; write \\x22 for a double quote and \\x5c for a backslash",
        _ => b"': expected \\xHH with two digits 0 to 9 or a to f",
    };
    say_all(
        out,
        &[
            Plain(b"invalid escape '\\"),
            Plain(&bytes[..count]),
            Plain(what),
        ],
    )
}

// Writes the error of a byte that must be escaped.
fn say_invalid_byte(out: &mut Saying, byte: u8) -> Result<(), AllocError> {
    if byte == 0 {
        return say(out, b"byte 00 is not allowed in a text");
    }
    let said = Hex(byte);
    say_all(
        out,
        &[
            Plain(b"invalid byte "),
            said,
            Plain(b" in a text; write \\x"),
            said,
        ],
    )
}

// Returns whether a byte is a hexadecimal digit of an escape.
fn is_digit(byte: u8) -> bool {
    matches!(byte, b'0'..=b'9' | b'a'..=b'f')
}

// Returns the bytes after a character of a text, or `None` if the character is invalid.
fn after_character(bytes: &[u8]) -> Option<&[u8]>
    ensures { IfSome result (λ rest. length rest.now < length bytes.now) }
{
    match bytes {
        [b'\\', b'x', high, low, rest @ ..] => {
            if is_digit(*high) && is_digit(*low) && !(*high == b'0' && *low == b'0') {
                Some(rest)
            } else {
                None
            }
        }
        [b'\\', ..] => None,
        [b' '..=b'~', rest @ ..] => Some(rest),
        _ => None,
    }
}

// Writes that there are more bytes than the maximum.
fn say_too_long(out: &mut Saying, what: &[u8], count: u32, most: u32) -> Result<(), AllocError> {
    let (between, after) = (Plain(b" bytes; at most "), Plain(b" are allowed"));
    say_all(
        out,
        &[Plain(what), Number(count), between, Number(most), after],
    )
}

// Writes the error of a text. `inside` has its bytes between the quotation marks.
fn say_inside(out: &mut Saying, inside: &[u8]) -> Result<(), AllocError> {
    let mut rest = inside;
    let mut count: u32 = 0;
    while let Some(following) = after_character(rest) {
        rest = following;
        count = count.saturating_add(1);
    }
    match rest {
        [b'\\', escape @ ..] => say_escape(out, escape),
        [byte, ..] => say_invalid_byte(out, *byte),
        [] => say_too_long(out, b"text has ", count, TEXT as u32),
    }
}

/// Writes the error of an argument that must be a text and is not.
///
/// # Errors
///
/// Returns `AllocError` if memory cannot be allocated.
pub fn say_no_text(out: &mut Saying, bytes: &[u8]) -> Result<(), AllocError> {
    let [b'"', following @ ..] = bytes else {
        let (word, _) = split_word(bytes);
        let before = b"expected a text in double quotes, found ";
        return say_word(out, before, word, b"");
    };
    let end = first_of(following, b'"');
    if end < following.len() {
        return say_inside(out, &following[..end]);
    }
    say_all(out, &[Plain(b"text has no closing quote: "), Plain(bytes)])
}

/// Writes that bytes directly follow a text.
///
/// # Errors
///
/// Returns `AllocError` if memory cannot be allocated.
pub fn say_after_text(out: &mut Saying, rest: &[u8]) -> Result<(), AllocError> {
    let (word, _) = split_word(rest);
    say_word(out, b"expected a blank before ", word, b"")
}

// Writes the error of a name in a path.
fn say_name(out: &mut Saying, name: &[u8]) -> Result<(), AllocError> {
    if name.is_empty() {
        return say(
            out,
            b"path has an empty name; write one slash before each name and none at the end",
        );
    }
    if name == b".".as_slice() || name == b"..".as_slice() {
        let after = b"; write the full path from the root";
        return say_word(out, b"path contains ", name, after);
    }
    let count = name.len().min(9_999) as u32;
    say_too_long(out, b"name has ", count, NAME_V1 as u32)
}

// Returns whether a name is valid in the path of an entry.
fn is_right_name(name: &[u8]) -> bool {
    !name.is_empty() && name.len() <= NAME_V1 && name != b".".as_slice() && name != b"..".as_slice()
}

/// Writes the error of the path of an entry, and returns whether there is one.
///
/// # Errors
///
/// Returns `AllocError` if memory cannot be allocated.
pub fn say_path(out: &mut Saying, path: &[u8]) -> Result<bool, AllocError> {
    let [b'/', names @ ..] = path else {
        say_word(out, b"path does not begin with a slash: ", path, b"")?;
        return Ok(true);
    };
    if names.is_empty() {
        say(out, b"path has no name after its slash")?;
        return Ok(true);
    }
    let mut rest = Some(names);
    while let Some(names) = rest {
        let (name, following) = split_component(names);
        if !is_right_name(name) {
            say_name(out, name)?;
            return Ok(true);
        }
        rest = following;
    }
    Ok(false)
}

/// Writes which targets a symbolic link can have.
///
/// # Errors
///
/// Returns `AllocError` if memory cannot be allocated.
pub fn say_link(out: &mut Saying) -> Result<(), AllocError> {
    let most = Number(LINK_TEXT as u32);
    say_all(
        out,
        &[
            Plain(b"invalid link text: expected 1 to "),
            most,
            Plain(b" bytes"),
        ],
    )
}
