//! The line buffer in which lines are formatted, and the formats of numbers, texts and bytes in a trace.
//!
//! The contract of each function states how much room it requires, and how many bytes it appends at most.
ghost use Rattle.std.specs.Prelude.{◌≡◌, ◌++◌, ◌+◌, ◌*◌, ◌<◌, ◌≤◌, replicate, ◌∷◌, length, codes, decimal, flat_map, option_copied};
ghost use Rattle.std.specs.Fmt.{signed_decimal};
ghost use Rattle.pv_model.specs.declared.limits.TheConstants.{TEXT};
ghost use Rattle.pv_model.specs.Machine.{quote, quote_byte};
ghost use Rattle.pv_model.specs.Trace.{quote_or_null, hex, pad_left};
ghost use Rattle.pv_trace.specs.Words.{permissions_bytes};

use itoa::Buffer;
use pv_model::{Perms, Text, hex_digit};
use pv_streams::{FixedBuffer, escape, plain_count};

/// An upper bound of the length of a line. A CALL or a GIO line can be almost this long.
pub const LINE_BYTES: usize = 9_216;

/// An upper bound of the length of a NAMI line.
pub const PATH_LINE_BYTES: usize = 4_608;

/// An upper bound of the length of a line with any word except CALL, GIO and NAMI.
pub const SHORT_LINE_BYTES: usize = 256;

/// The size of a line buffer: room for the lines of a step, which has at most a CALL line, a GIO line, two NAMI lines
/// and three short ones.
pub const LINE_BUFFER: usize = 2 * LINE_BYTES + 2 * PATH_LINE_BYTES + 3 * SHORT_LINE_BYTES;

// The number of bytes whose digits are appended at once.
const PART: usize = 64;

/// A buffer for the lines of a step. It can be reused for any number of steps.
pub type LineBuffer = FixedBuffer<LINE_BUFFER>;

/// Appends bytes to the line buffer, which must have room for them.
#[inline]
pub fn put(out: &mut LineBuffer, bytes: &[u8])
    requires { length out.old.items + length bytes.now ≤ LINE_BUFFER }
    ensures text { out.new.items ≡ out.old.items ++ bytes.now }
    ensures growth { length out.new.items ≡ length out.old.items + length bytes.now }
{
    out.extend(bytes);
}

// Returns the decimal digit of a number less than ten.
#[inline]
fn digit(n: u32) -> u8
    requires { n < 10 }
    ensures { result ≡ 48 + n }
{
    b'0' + n as u8
}

/// Appends a number in decimal to the line buffer, which must have room for 40 bytes.
#[tactic(auto, using(std::proofs::lemmas::Fmt::decimal_digit, crate::proofs::NumberDigits::two_digits, crate::proofs::NumberDigits::three_digits, crate::proofs::NumberDigits::four_digits))]
pub fn put_decimal(out: &mut LineBuffer, n: u32)
    requires { length out.old.items + 40 ≤ LINE_BUFFER }
    ensures text { out.new.items ≡ out.old.items ++ decimal n }
    ensures growth { length out.new.items ≤ length out.old.items + 40 }
{
    // A number of up to four digits has an array of its own size, so that the length of the copy is a constant.
    if n < 10 {
        put(out, &[digit(n)]);
    } else if n < 100 {
        put(out, &[digit(n / 10), digit(n % 10)]);
    } else if n < 1_000 {
        put(out, &[digit(n / 100), digit(n / 10 % 10), digit(n % 10)]);
    } else if n < 10_000 {
        put(
            out,
            &[
                digit(n / 1_000),
                digit(n / 100 % 10),
                digit(n / 10 % 10),
                digit(n % 10),
            ],
        );
    } else {
        let mut buffer = Buffer::new();
        put(out, buffer.format(n).as_bytes());
    }
}

// Does the same as `put_decimal` for a signed number.
pub(crate) fn put_signed(out: &mut LineBuffer, n: i32)
    requires { length out.old.items + 40 ≤ LINE_BUFFER }
    ensures text { out.new.items ≡ out.old.items ++ signed_decimal n }
    ensures growth { length out.new.items ≤ length out.old.items + 40 }
{
    match u32::try_from(n) {
        Ok(n) => put_decimal(out, n),
        Err(_) => {
            let mut buffer = Buffer::new();
            put(out, buffer.format(n).as_bytes());
        }
    }
}

// Returns `count` spaces.
fn spaces(count: usize) -> &'static [u8]
    requires { count ≤ 5 }
    ensures text { result.now ≡ replicate count 32 }
    ensures few { length result.now ≤ 5 }
{
    &b"     "[..count]
}

// Returns a number of at most five digits, right-aligned in five columns.
#[tactic(auto, using(std::proofs::lemmas::Fmt::decimal_digit, crate::proofs::NumberDigits::two_digits, crate::proofs::NumberDigits::three_digits, crate::proofs::NumberDigits::four_digits, crate::proofs::NumberDigits::five_digits))]
fn five_places(number: u32) -> [u8; 5]
    requires { number < 100000 }
    ensures { result ≡ pad_left 5 (decimal number) }
{
    if number < 10 {
        [b' ', b' ', b' ', b' ', digit(number)]
    } else if number < 100 {
        [b' ', b' ', b' ', digit(number / 10), digit(number % 10)]
    } else if number < 1_000 {
        [
            b' ',
            b' ',
            digit(number / 100),
            digit(number / 10 % 10),
            digit(number % 10),
        ]
    } else if number < 10_000 {
        [
            b' ',
            digit(number / 1_000),
            digit(number / 100 % 10),
            digit(number / 10 % 10),
            digit(number % 10),
        ]
    } else {
        [
            digit(number / 10_000),
            digit(number / 1_000 % 10),
            digit(number / 100 % 10),
            digit(number / 10 % 10),
            digit(number % 10),
        ]
    }
}

// Appends a number of any length, right-aligned in five columns.
#[inline(never)]
fn put_pid(out: &mut LineBuffer, pid: u32)
    requires { length out.old.items + 45 ≤ LINE_BUFFER }
    ensures text { out.new.items ≡ out.old.items ++ pad_left 5 (decimal pid) }
    ensures growth { length out.new.items ≤ length out.old.items + 45 }
{
    if pid < 100_000 {
        put(out, &five_places(pid));
    } else {
        let mut buffer = Buffer::new();
        let digits = buffer.format(pid).as_bytes();
        put(out, spaces(5usize.saturating_sub(digits.len())));
        put(out, digits);
    }
}

// Appends the start of a line: the number of its process, right-aligned in five columns, and its word between blanks.
// If the number has one digit, all is appended at once.
#[inline]
#[tactic(auto, using(std::proofs::lemmas::Fmt::decimal_digit))]
pub(crate) fn put_front(out: &mut LineBuffer, pid: u32, word: &[u8; 7])
    requires { length out.old.items + 52 ≤ LINE_BUFFER }
    ensures text { out.new.items ≡ out.old.items ++ (pad_left 5 (decimal pid) ++ word.now) }
    ensures growth { length out.new.items ≤ length out.old.items + 52 }
{
    if pid < 10 {
        let mut front = [b' '; 12];
        front[4] = digit(pid);
        front[5..].copy_from_slice(word);
        put(out, &front);
    } else {
        put_pid(out, pid);
        put(out, word);
    }
}

// Appends the hexadecimal digits of a few bytes at once. It is inlined into its caller, where the length of all parts
// except the last is a constant.
#[inline(always)]
fn put_hex_part(out: &mut LineBuffer, bytes: &[u8])
    requires few { length bytes.now ≤ PART }
    requires room { length out.old.items + 2 * length bytes.now ≤ LINE_BUFFER }
    ensures text { out.new.items ≡ out.old.items ++ hex bytes.now }
    ensures growth { length out.new.items ≤ length out.old.items + 2 * length bytes.now }
{
    let mut digits = [0; 2 * PART];
    for k in 0..bytes.len() {
        digits[2 * k] = hex_digit(bytes[k] / 16);
        digits[2 * k + 1] = hex_digit(bytes[k] % 16);
    }
    put(out, &digits[..2 * bytes.len()]);
}

// Appends the hexadecimal digits of bytes, two for each.
pub(crate) fn put_hex(out: &mut LineBuffer, bytes: &[u8])
    requires { length out.old.items + 2 * length bytes.now ≤ LINE_BUFFER }
    ensures text { out.new.items ≡ out.old.items ++ hex bytes.now }
    ensures growth { length out.new.items ≤ length out.old.items + 2 * length bytes.now }
{
    let mut left = bytes;
    while left.len() >= PART {
        let (part, following) = left.split_at(PART);
        put_hex_part(out, part);
        left = following;
    }
    put_hex_part(out, left);
}

// Appends the bytes of a text in their shortest form. Bytes that need no escape are appended in runs.
fn put_quoted_bytes(out: &mut LineBuffer, bytes: &[u8])
    requires { length out.old.items + 4 * length bytes.now ≤ LINE_BUFFER }
    ensures text { out.new.items ≡ out.old.items ++ flat_map quote_byte bytes.now }
    ensures growth { length out.new.items ≤ length out.old.items + 4 * length bytes.now }
{
    let mut rest = bytes;
    loop {
        let (plain, following) = rest.split_at(plain_count(rest));
        put(out, plain);
        let Some((first, following)) = following.split_first() else {
            return;
        };
        put(out, &escape(*first));
        rest = following;
    }
}

// Appends bytes in quotation marks, in their shortest form.
pub(crate) fn put_quoted_all(out: &mut LineBuffer, bytes: &[u8])
    requires { length out.old.items + 4 * length bytes.now + 2 ≤ LINE_BUFFER }
    ensures text { out.new.items ≡ out.old.items ++ quote bytes.now }
    ensures growth { length out.new.items ≤ length out.old.items + 4 * length bytes.now + 2 }
{
    put(out, b"\"");
    put_quoted_bytes(out, bytes);
    put(out, b"\"");
}

// Appends a text in quotation marks, in its shortest form.
pub(crate) fn put_quoted(out: &mut LineBuffer, text: &Text)
    requires { length out.old.items + 4 * TEXT + 2 ≤ LINE_BUFFER }
    ensures text { out.new.items ≡ out.old.items ++ quote text.now }
    ensures growth { length out.new.items ≤ length out.old.items + 4 * TEXT + 2 }
{
    put_quoted_all(out, text.as_slice());
}

pub(crate) fn put_quoted_or_null(out: &mut LineBuffer, text: Option<&Text>)
    requires { length out.old.items + 4 * TEXT + 2 ≤ LINE_BUFFER }
    ensures text { out.new.items ≡ out.old.items ++ quote_or_null (option_copied text.entry) }
    ensures growth { length out.new.items ≤ length out.old.items + 4 * TEXT + 2 }
{
    match text {
        Some(text) => put_quoted(out, text),
        None => put(out, b"null"),
    }
}

// Appends permissions, in the order rwxc.
#[tactic(auto, unfolding(crate::specs::Words::permissions_bytes))]
pub(crate) fn put_permissions(out: &mut LineBuffer, permissions: Perms)
    requires { length out.old.items + 4 ≤ LINE_BUFFER }
    ensures text { out.new.items ≡ out.old.items ++ permissions_bytes permissions }
    ensures growth { length out.new.items ≤ length out.old.items + 4 }
{
    if permissions.r {
        put(out, b"r");
    }
    if permissions.w {
        put(out, b"w");
    }
    if permissions.x {
        put(out, b"x");
    }
    if permissions.c {
        put(out, b"c");
    }
}
